//! Rooms: their state, their graph of events, and the contract of what keeps a room.
//!
//! - `state`: `State`, the events that hold in a room
//! - `entry`: `Entry`, one of its entries
//! - `keyed`: those of one type, by state key
//! - `tag`: numbers by which texts are told apart
//! - `change`: changes of a state
//! - `step`, `steps`: `Steps`, states that are kept by earlier ones
//! - `differing`: where such states differ
//! - `state_ref`: `StateRef`, a state of either kind, to look up in
//! - `rule`: `Rule`, the number of an authorization rule
//! - `verdict`: `Verdict`, what a room makes of an event
//! - `places`: where stored events stand
//! - `links`: the places of the events that each of them names
//! - `graph`: `Graph`, the events that are stored, each with its verdict
//! - `draft`: `Draft`, what a user wants to send
//! - `prepared`: `Prepared`, the event that a room makes of a draft
//! - `receipt`, `refusal`: what becomes of an event, and why none is made of a draft
//! - `input`: `Input`, what a room is given
//! - `arrival`: what becomes of an event before there is a verdict on it
//! - `lacks`: what events that wait lack
//! - `store`: `EventStore`, the events that a room stores, lets wait and drops
//! - `engine`: `RoomEngine`, what keeps a room
//! - `advancing`: storing all waiting events that are ready
//! - `applying`: giving a room an event, and storing all that is then ready
//! - `laws`: what holds of all states and graphs
#![tactic(auto)]

mod advancing;
mod applying;
mod arrival;
mod change;
mod differing;
mod draft;
mod engine;
mod entry;
mod graph;
mod input;
mod keyed;
mod lacks;
mod laws;
mod links;
mod places;
mod prepared;
mod receipt;
mod refusal;
mod rule;
mod state;
mod state_ref;
mod step;
mod steps;
mod store;
mod tag;
mod verdict;

pub use advancing::{Halted, advance_all};
pub use applying::{Applied, Stopped, apply};
pub use arrival::Arrival;
pub use draft::Draft;
pub use engine::RoomEngine;
pub use entry::Entry;
pub use graph::{Graph, Stored};
pub use input::Input;
pub use laws::{
    auth_graphs_grow, calls_are_inputs, entries_of_states, graphs_grow, rooms_grow,
    rooms_stay_well_formed, rules_are_lawful, states_before_stay, stored_events_stay,
};
pub use prepared::Prepared;
pub use receipt::Receipt;
pub use refusal::Refusal;
pub use rule::Rule;
pub use state::State;
pub use state_ref::StateRef;
pub use steps::Steps;
pub use store::{EventStore, MOST_WAITING};
pub use verdict::Verdict;
