//! Calls of the vectors' program on the authorization rules and on state resolution.
//!
//! - `authorization`: which rule decides on an event, and its auth events
//! - `resolution`: the resolution of states, and its parts
#![tactic(auto)]

pub mod authorization;
pub mod resolution;
