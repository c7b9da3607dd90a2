//! What the threads of a server share: the journal with the ends that send of its wires, and the outboxes, each under a lock of its own; the
//! tokens that threads hold; and the sections, which are what a thread does while it holds locks.
//!
//! A value under a lock is known by its type alone. So each locked type here has an invariant, which says how its parts hold together whenever
//! the lock is free: over each wire went just what the journal places for its destination, and the board's word of each outbox is the count of
//! the events that it has settled.
//!
//! - `naming`: `Naming`, the names by which contracts know the wires, the board and the ledgers
//! - `in_place`: `InPlace`, which parcel may be the k-th of a wire
//! - `unplaced`: `Unplaced`, a load for a destination that has no place yet
//! - `full_wire`: `FullWire`, a destination whose wire had no room
//! - `sending_journal`: `SendingJournal`, the journal and the ends that send of its wires
//! - `kept_room`: `KeptRoom`, a room with all that it was given
//! - `seated_outbox`: `SeatedOutbox`, an outbox and the seat that owns its word of the board
//! - `sections`: what a thread does while it holds locks
//! - `client_token`: `ClientToken`, how much a client was told
//! - `spreading`: how a load goes over the wires
//! - `shutting_down`: how the outboxes for all other servers are closed
#![tactic(auto)]

mod client_token;
mod full_wire;
mod in_place;
mod kept_room;
mod naming;
mod seated_outbox;
pub mod sections;
mod sending_journal;
mod shutting_down;
mod spreading;
mod unplaced;

pub use client_token::ClientToken;
pub use full_wire::FullWire;
pub use in_place::InPlace;
pub use kept_room::KeptRoom;
pub use naming::{EduLedger, EventLedger, Naming};
pub use seated_outbox::SeatedOutbox;
pub use sending_journal::{CloseFault, EnterFault, SendingJournal};
pub use unplaced::Unplaced;
