//! What a server has offered to other servers, and the parcels that it makes of that for each of them.
//!
//! - `place`: `Place`, where a parcel stands among those for its destination
//! - `parcel`: `Parcel` and `Load`, what is sent on to one destination
//! - `edu`: `is_edu` and `edu_fault`, what may be offered as an ephemeral data unit
//! - `offered`: `Offered`, an event or an ephemeral data unit that is offered
//! - `entry`: `Entry` and `Cause`, what a journal holds
//! - `journal`: `Journal`, the entries in order, what is addressed to each destination, and where its next parcel stands
//! - `left`: `Addressed`, `AddressedEdus` and `Events`, which go over the events and the EDUs of a journal
//! - `lane`: what a journal keeps for each destination
//! - `fault`: `JournalFault`, why a journal has no room for more entries
//! - `laws`: what holds of all journals
#![tactic(auto)]

mod edu;
mod entry;
mod fault;
mod journal;
mod lane;
mod laws;
mod left;
mod offered;
mod parcel;
mod place;

pub use edu::{EduFault, MAX_EDU, MAX_EDU_DEPTH, edu_fault, is_edu};
pub use entry::{Cause, Entry};
pub use fault::JournalFault;
pub use journal::Journal;
pub use laws::{
    a_close_leaves_the_others, nothing_after_the_close, places_count, what_an_entry_places,
    what_is_addressed_is_placed, what_one_more_entry_adds,
};
pub use left::{Addressed, AddressedEdus, Events};
pub use offered::Offered;
pub use parcel::{Load, Parcel};
pub use place::{MAX_ENTRIES, Place};
