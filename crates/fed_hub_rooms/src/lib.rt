//! What the thread that stores the events of one room does: it receives the events that come over the room's wire, and gives each to the room
//! (Matrix, Server-Server API, "Checks performed on receipt of a PDU").
//!
//! - `room_token`: `RoomToken`, what such a thread holds: the end of the wire, an event in hand, and the events that the room was given
//! - `access`: `RoomAccess`, the way to the room, as a `LockedRoom` is
//! - `giving`: how an event in hand is given to the room
//! - `running`: `run_room`, turn after turn
//! - `ran`: `Ran`, how far it has come
#![tactic(auto)]

mod access;
mod giving;
mod ran;
mod room_token;
mod running;

pub use access::{LockedRoom, RoomAccess};
pub use ran::Ran;
pub use room_token::RoomToken;
pub use running::run_room;
