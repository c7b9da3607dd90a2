//! What redaction leaves of an event, and the texts that are made of it: what its servers sign, what its content hash covers, and
//! its id. They depend on the version of the room. A value need not be an event to have them.
//!
//! - `version`: `Version`, the version of a room, and what depends on it
//! - `redaction`: what redaction leaves of an event
//! - `texts`: `Texts`, the texts of an event: the canonical one, the signed one and the one that the content hash covers
//! - `signed`: the bytes of an event that are signed and hashed
//! - `id`: `EventId`, the reference hash of an event as a text
//! - `hash`: the content hash of an event
//! - `laws`: what holds of all redactions and ids
//! - `kept`, `names`, `object_text`: the keys that redaction keeps, and names and objects as they are written
#![tactic(auto)]

mod hash;
mod id;
mod kept;
mod laws;
mod names;
mod object_text;
mod redaction;
mod signed;
mod texts;
mod version;

pub use hash::{content_hash, covered_text, hash_fits};
pub use id::{EventId, event_id, event_id_of_signed};
pub use laws::{
    ids_of_redactions, redacted_once, unsigned_changes, what_ids_are, what_is_signed,
    what_redaction_keeps, what_the_hash_covers,
};
pub use redaction::redact;
pub use signed::signed_text;
pub use texts::Texts;
pub use version::Version;
