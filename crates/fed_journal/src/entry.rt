// What a journal holds.
ghost use Rattle.std.specs.Prelude.{◌≡◌};
ghost use Rattle.fed_journal.specs.Journal.{loses};

use fed_dest::{ServerIndex, ServerSet};
use fed_event::Checked;
use fed_json::Json;

/// Why an outbox was closed.
#[derive(Clone, Copy, Debug, PartialEq, Eq)]
pub enum Cause {
    /// It was asked for; a last parcel tells the outbox.
    Asked,
    /// What takes the parcels for the destination is gone.
    Lost,
}

/// An entry of a journal.
#[derive(Drop)]
pub enum Entry {
    /// An event, for these destinations.
    Event(Checked, ServerSet),
    /// An ephemeral data unit, for these destinations.
    Edu(Json, ServerSet),
    /// The outbox of a destination was closed.
    Close(ServerIndex, Cause),
}

impl Entry {
    /// Whether it closes the outbox of a destination because what takes the parcels is gone.
    pub(crate) fn loses(&self, destination: ServerIndex) -> bool
        ensures { result ≡ loses destination self.now }
    {
        match self {
            Entry::Close(dest, Cause::Lost) => *dest == destination,
            Entry::Close(_, Cause::Asked) => false,
            Entry::Event(_, _) => false,
            Entry::Edu(_, _) => false,
        }
    }
}
