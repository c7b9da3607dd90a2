//! Wires, over which one thread hands messages to another, and a board of counts that many threads read.
//!
//! - `ends`: `wire`, which makes a wire, and its ends, `SendEnd` and `ReceiveEnd`
//! - `credits`: `Credits`, where threads wait for room in wires, and `Credit`, room for one message
//! - `returns`: where the credits of a wire come back
//! - `no_room`: `NoRoom`, which shows that a wire had no room
//! - `received`: `Received`, what a receive found
//! - `numbering`: `Numbering`, which message may be the k-th of a wire
//! - `board`: `Board`, the words, and `Seat`, through which a thread loads and raises them
//! - `rule`, `board_rule`: what holds of a wire and of a board between any two steps, whoever makes them
#![tactic(auto)]

mod board;
mod board_rule;
mod credits;
mod ends;
mod no_room;
mod numbering;
mod received;
mod returns;
mod rule;

pub use board::{Board, Seat};
pub use credits::{Credit, Credits};
pub use ends::{ReceiveEnd, ReceivePass, SendEnd, SendPass, wire};
pub use no_room::NoRoom;
pub use numbering::{AnyMessage, Numbering};
pub use received::Received;
pub use rule::CAPACITY;
pub use std::alloc::AllocError as NoMemory;
