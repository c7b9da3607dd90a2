//! Calls of the vectors' program on rooms.
//!
//! - `rooms`: rooms by the standard, and the events that they begin with
//! - `table_rooms`: rooms that go by a table
//! - `room_steps`: the operations on a room
#![tactic(auto)]

mod room_steps;
pub mod rooms;
pub mod table_rooms;
