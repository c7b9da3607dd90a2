// Whether what outboxes accepted is of the journal.
ghost use Rattle.std.specs.Prelude.{◌≡◌, ◌↔◌, IsTrue};
ghost use Rattle.fed_journal.specs.Journal.{closes};
ghost use Rattle.fed_hub_kept.specs.OfJournal.{AreOfJournal, IsOfJournal};

use crate::left::Left;
use fed_dest::ServerIndex;
use fed_hub_state::{Naming, SeatedOutbox};
use fed_journal::Entry;
use fed_outbox::{Outbox, nothing_is_lost_on_the_way};

/// Whether what an outbox accepted is a front of what the entries of a journal place for its destination. It takes no memory, and goes through the
/// entries as far as what was accepted reaches.
pub fn is_of_journal(outbox: &Outbox, entries: &[Entry]) -> bool
    ensures { IsTrue result ↔ IsOfJournal entries.now outbox.now }
{
    nothing_is_lost_on_the_way();
    let dest = outbox.dest();
    let mut left = Left::of(outbox);
    for entry in entries {
        if left.is_empty() {
            return true;
        }
        if !left.take(entry, dest) {
            return false;
        }
        if closes(entry, dest) {
            return left.is_empty();
        }
    }
    left.is_empty()
}

/// Whether the outbox at each place is for the server of that place, and what it accepted is a front of what the entries of a journal place for that
/// server. It takes no memory.
pub fn are_of_journal<N: Naming>(outboxes: &[SeatedOutbox<N>], entries: &[Entry]) -> bool
    ensures { IsTrue result ↔ AreOfJournal entries.now outboxes.now }
{
    for (place, seated) in outboxes.iter().enumerate() {
        let outbox = seated.outbox();
        if outbox.dest().place() != place || !is_of_journal(outbox, entries) {
            return false;
        }
    }
    true
}

// Whether an entry closes the outbox of a destination.
fn closes(entry: &Entry, dest: ServerIndex) -> bool
    ensures { result ≡ closes dest entry.now }
{
    match entry {
        Entry::Close(closed, _) => *closed == dest,
        Entry::Event(_, _) | Entry::Edu(_, _) => false,
    }
}
