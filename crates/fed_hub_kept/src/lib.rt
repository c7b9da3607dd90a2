//! What lies under the different locks of a server, compared with each other when its threads have returned.
//!
//! - `received`: `are_received` and `are_given`, whether the events that came to rooms are those that were given to them
//! - `brought`: `are_brought`, whether the events that came to rooms are the first of those that the history of an inbox brought for them
//! - `left`: what of what an outbox accepted is not found in the journal yet
//! - `outboxes`: `is_of_journal` and `are_of_journal`, whether what outboxes accepted was placed for their destinations by the journal, and each
//!   is in its place
//! - `sent`: `is_sent_as_stored` and `are_sent_as_stored`, whether events went where the rooms in which they are stored send them
//! - `answered`: `are_answered`, whether the history of an inbox is of the requests that its threads answered
//! - `places`: `are_in_places`, whether rooms have just these ids, in this order
//! - `laws`: what holds of an outbox whose comparison came out well
#![tactic(auto)]

mod answered;
mod brought;
mod laws;
mod left;
mod outboxes;
mod places;
mod received;
mod sent;

pub use answered::are_answered;
pub use brought::are_brought;
pub use laws::outboxes_of_a_journal;
pub use outboxes::{are_of_journal, is_of_journal};
pub use places::are_in_places;
pub use received::{are_given, are_received};
pub use sent::{are_sent_as_stored, is_sent_as_stored};
