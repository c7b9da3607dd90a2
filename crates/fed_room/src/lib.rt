//! What keeps a room under the contract of rooms: a room by the standard, and one by a table that a test gives.
//!
//! - `room`: `Room`, a room by the standard
//! - `resolved`: states that are kept or made
//! - `before`: `Before`, the state before an event that is prepared
//! - `after`: `After`, the state after an event
//! - `decision`: the verdict on an event, and the state after it
//! - `start`: a room that begins with some events
//! - `start_fault`: why no room begins with some events
//! - `creation`: the events that a room of some users begins with
//! - `started_fault`: why there are none
//! - `line`: events that stand in one line
//! - `places`: the places of stored events
//! - `ids`: ids among other ids
//! - `links`: what the event of a draft names
//! - `drafting`: the event that is made of a draft
//! - `table`: `Table`, verdicts on events and the states before them
//! - `entries`: a state of some entries
//! - `table_room`: `TableRoom`, a room that goes by a table
//! - `laws`: what holds of states, of new events and of all rooms that begin with some events
#![tactic(auto)]

mod after;
mod before;
mod creation;
mod decision;
mod drafting;
mod entries;
mod ids;
mod laws;
mod line;
mod links;
mod places;
mod resolved;
mod room;
mod start;
mod start_fault;
mod started_fault;
mod table;
mod table_room;

pub use creation::started;
pub use laws::{
    a_started_room_and_its_inputs, ids_have_one_order, states_follow_the_events,
    what_a_new_event_names,
};
pub use room::Room;
pub use start_fault::StartFault;
pub use started_fault::StartedFault;
pub use table::Table;
pub use table_room::TableRoom;
