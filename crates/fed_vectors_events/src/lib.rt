//! Calls of the vectors' program on values, events and signatures.
//!
//! - `values`, `events`, `signatures`: the calls
//! - `key_ring`: `KeyRing`, the keys that a call names, and the room version by which it reads events
#![tactic(auto)]

pub mod events;
mod key_ring;
pub mod signatures;
pub mod values;

pub use key_ring::{KeyRing, room_version};
