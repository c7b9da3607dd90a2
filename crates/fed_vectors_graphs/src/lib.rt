//! The events of a room as a call of the vectors' program gives them: a graph, each event with its verdict, and states over it.
//!
//! - `graphs`: graphs, and states by the places of their events
//! - `verdicts`: verdicts, receipts and rules as words
#![tactic(auto)]

mod graphs;
mod verdicts;

pub use graphs::{graph, place_of, places_of, state, state_at};
pub use verdicts::{receipt_words, verdict_in, verdict_words};
