//! Events of a room, called PDUs (persistent data units): the tests that one has to pass, the checks on receipt, and events that the
//! own server makes. Redaction, the texts of an event, its hashes and its id come from `fed_redaction`, `Keys` from `fed_keys`.
//!
//! - `pdu`: `Pdu`, an event that has passed the tests
//! - `fields`: what the fields of a `Pdu` hold
//! - `event_ids`: `EventIds`, the ids of events in a field, one after another
//! - `validity`: the tests
//! - `checked`: `Checked`, an event that has passed the checks on receipt
//! - `signature`: the signatures of an event
//! - `sealing`: events that the own server makes
//! - `ids`: the parts of identifiers
//! - `field`, `fault`: the fields of an event, and why a value is no event
//! - `laws`: what holds of all events
#![tactic(auto)]

mod checked;
mod event_ids;
mod fault;
mod field;
mod fields;
mod ids;
mod laws;
mod pdu;
mod sealing;
mod signature;
mod validity;

pub use checked::{
    CheckFault, Checked, authorising_user, authorising_user_in, check_in, check_signed,
    ids_of_checked,
};
pub use event_ids::EventIds;
pub use fault::PduFault;
pub use fed_keys::{Keys, StandIn, Trusting, stand_ins_agree};
pub use fed_redaction::{
    EventId, Texts, Version, content_hash, event_id, event_id_of_signed, ids_of_redactions, redact,
    redacted_once, signed_text, unsigned_changes, what_ids_are, what_is_signed,
    what_redaction_keeps, what_the_hash_covers,
};
pub use field::Field;
pub use ids::{domain, is_user_id};
pub use laws::{redaction_passes, what_an_event_has, what_is_sealed};
pub use pdu::Pdu;
pub use sealing::{is_sent_by, seal};
pub use signature::{is_signed_by, signature_of};
pub use validity::{MAX_AUTH_EVENTS, MAX_DEPTH, MAX_PREV_EVENTS, MAX_SIZE, MAX_TEXT, first_fault};
