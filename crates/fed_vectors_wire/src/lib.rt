//! Calls of the vectors' program on the messages that servers send each other, and on their signatures.
//!
//! - `requests`: what is signed of a request, and messages as they are written
//! - `streams`: messages that are read from a stream
#![tactic(auto)]

pub mod requests;
pub mod streams;
