//! JSON values as Matrix signs and hashes them: whole numbers only, read by `serde_json` and written as canonical JSON.
//!
//! - `value`: `Json`, an owned value, and how it is put together and taken apart
//! - `json_ref`: `JsonRef`, a look into one
//! - `items`, `members`: the items of an array and the members of an object, one after another
//! - `tree`: a value as it is kept, and `entries`, the members of an object in the order of their names
//! - `reading`: from bytes to a value, and `planting`, from what `serde_json` reads to a value as it is kept
//! - `writing`: from a value to its one text
//! - `quoted`: a text in quotes
//! - `laws`: what holds of all values and their texts
//! - `fault`: why bytes are no value
//! - `same`: whether two values are the same
//! - `profile`: the walk that tells whether a value that was read is of the profile
//! - `depth`: how deep a value nests
#![tactic(auto)]

mod depth;
mod entries;
mod fault;
mod items;
mod json_ref;
mod laws;
mod members;
mod planting;
mod profile;
mod quoted;
mod reading;
mod same;
mod tree;
mod value;
mod writing;

pub use fault::{JsonFault, NoMemory};
pub use items::Items;
pub use json_ref::JsonRef;
pub use laws::{
    key_order, one_text, one_value, texts_are_read, texts_differ, what_is_put, what_is_taken,
};
pub use members::Members;
pub use quoted::append_quoted;
pub use reading::{MAX_LEVELS, read, read_within};
pub use value::Json;
pub use writing::canonical;
