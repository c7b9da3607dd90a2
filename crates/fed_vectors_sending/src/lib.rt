//! Calls of the vectors' program on servers, and on what is sent to them.
//!
//! - `servers`: the names of servers, lists of them, and the servers that an event is sent to
//! - `journals`, `outboxes`: what a server offers, and what is on its way to one server
//! - `transactions`: transactions and the replies to them
//! - `offers`: the events and the EDUs that a call gives
//! - `places`: the places of servers in a list
#![tactic(auto)]

pub mod journals;
mod offers;
pub mod outboxes;
mod places;
pub mod servers;
pub mod transactions;
