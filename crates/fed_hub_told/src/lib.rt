//! What the clients of a server were told of the events and the ephemeral data units that they sent, compared with the journal of the server.
//!
//! - `told`: `Told`, all that one client was told
//! - `told_event`, `told_edu`: `ToldEvent` and `ToldEdu`, an event and an EDU that a client was told of
//! - `client`: `Client`, who holds what a client was told
//! - `as_told`: `is_as_told`, whether the journal is as all clients were told
//! - `note`: `Note`, what is noted of a numbered thing
//! - `comparing`: `are_as_told`, whether numbered things are as all were told who hold notes of them
//! - `offers`: the events and the EDUs of a journal
//! - `marks`: `Marks`, by which one sees that each number comes once
#![tactic(auto)]

mod as_told;
mod client;
mod comparing;
mod marks;
mod note;
mod offers;
mod told;
mod told_edu;
mod told_event;

pub use as_told::is_as_told;
pub use client::Client;
pub use comparing::are_as_told;
pub use marks::{Marks, what_marks_tell};
pub use note::Note;
pub use told::Told;
pub use told_edu::ToldEdu;
pub use told_event::ToldEvent;
