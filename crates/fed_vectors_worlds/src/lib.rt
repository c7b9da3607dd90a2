//! Calls of the vectors' program on inboxes, and on what the program prints for lines of transactions and for scripts.
//!
//! - `inboxes`: an inbox that answers requests
//! - `printed`: what the program prints
#![tactic(auto)]

pub mod inboxes;
pub mod printed;
