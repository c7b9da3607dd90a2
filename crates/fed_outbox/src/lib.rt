//! The outbox of a destination: what was accepted for it, how far that was delivered, and the transaction that waits for its answer.
//!
//! - `transaction`: `Transaction`, what is sent to a destination at once
//! - `fault`: `OutboxFault`, why an outbox does not accept a parcel
//! - `settlement`: `Settlement`, what an answer made of a transaction
//! - `sent`: what an outbox keeps of a transaction that waits for its answer
//! - `outbox`: `Outbox`, the outbox itself
//! - `laws`: what holds of all outboxes
#![tactic(auto)]

mod fault;
mod laws;
mod outbox;
mod sent;
mod settlement;
mod transaction;

pub use fault::OutboxFault;
pub use laws::{
    accepted_places_have_no_gap, delays_double_up_to_an_hour, nothing_is_lost_on_the_way,
    outboxes_hold_together, the_unanswered_stays, what_accept_adds, what_is_settled_stays,
    what_was_accepted,
};
pub use outbox::Outbox;
pub use settlement::Settlement;
pub use transaction::{MAX_EDUS, MAX_PDUS, Transaction};
