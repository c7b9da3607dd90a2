// How the outboxes for all other servers are closed.
ghost use Rattle.std.specs.Prelude.{◌≡◌, ◌≤◌, ◌<◌, true, length, OnOk, IfErr, MatchOption};
ghost use Rattle.fed_journal.specs.Journal.{placed};
ghost use Rattle.fed_hub_state.specs.ShuttingDown.{is_other_open, others_open, has_places, HasNoPlaces};
ghost use Rattle.fed_hub_state.specs.ShuttingDownParts.{ClosesOther, IsBeingShut};
ghost use Rattle.fed_hub_state.specs.Spreading.{AreSent};
ghost use Rattle.fed_hub_state.specs.WireRoom.{HaveRoom, HaveTakenIn, WasFull};

use crate::full_wire::FullWire;
use crate::in_place::InPlace;
use crate::naming::Naming;
use crate::sending_journal::close_open;
use crate::spreading::full_at;
use fed_dest::{MAX_SERVERS, ServerIndex};
use fed_journal::{Journal, JournalFault, Parcel};
use fed_wires::SendEnd;
use std::sync::Wait;

/// For how many of the first so many servers, but the own one, the outboxes are open.
pub(crate) fn others_open(journal: &Journal, own: ServerIndex, count: usize) -> usize
    requires { count ≤ MAX_SERVERS }
    ensures { result ≡ length (others_open count own journal.now.entries) }
{
    (0..count)
        .filter(|place| is_other_open(journal, own, ServerIndex::new(*place)))
        .count()
}

// Whether the outbox for another server than the own one is open.
fn is_other_open(journal: &Journal, own: ServerIndex, dest: ServerIndex) -> bool
    ensures { result ≡ is_other_open own journal.now.entries dest }
{
    dest != own && journal.place(dest).is_some()
}

/// Makes room in a journal for so many entries.
pub(crate) fn make_places(journal: &mut Journal, count: usize) -> Result<(), JournalFault>
    ensures room { OnOk result (count ≤ journal.new.reserved) }
    ensures places { OnOk result (has_places journal.old.entries count ≡ true) }
    ensures entries { journal.new.entries ≡ journal.old.entries }
    ensures refused { IfErr result (HasNoPlaces journal.old.entries count) }
{
    journal.reserve(count as u64)
}

/// The wire to the first server but the own one whose outbox is open and whose wire has no room for a parcel.
pub(crate) fn full_other<R: Wait>(
    rt: &R,
    journal: &Journal,
    ends: &mut [SendEnd<Parcel, InPlace>],
    own: ServerIndex,
) -> Option<FullWire>
    requires { length ends.old ≤ MAX_SERVERS }
    ensures same { HaveTakenIn ends.old ends.new }
    ensures full { MatchOption result (HaveRoom (λ d. is_other_open own journal.now.entries d ≡ true) ends.new) (λ full. (is_other_open own journal.now.entries full.dest ≡ true) × WasFull ends.new full) }
{
    for place in 0..ends.len() {
        let dest = ServerIndex::new(place);
        if is_other_open(journal, own, dest) {
            if let Some(full) = full_at(rt, ends, dest) {
                return Some(full);
            }
        }
    }
    None
}

/// Closes the outboxes for all servers but the own one that are open, for which there is room in the journal and in their wires.
pub(crate) fn close_others<N: Naming, R: Wait>(
    rt: &R,
    journal: &mut Journal,
    ends: &mut [SendEnd<Parcel, InPlace>],
    own: ServerIndex,
)
    requires few { length N.wires ≤ MAX_SERVERS }
    requires room { length (others_open (length N.wires) own journal.old.entries) ≤ journal.old.reserved }
    requires places { has_places journal.old.entries (length (others_open (length N.wires) own journal.old.entries)) ≡ true }
    requires sent { AreSent N.wires journal.old.entries ends.old }
    requires credits { HaveRoom (λ d. is_other_open own journal.old.entries d ≡ true) ends.old }
    ensures { IsBeingShut N.wires own (length N.wires) (length N.wires) journal.old journal.new ends.new }
{
    for place in 0..ends.len() {
        close_other(rt, journal, &mut ends[place], own, ServerIndex::new(place));
    }
}

// Closes the outbox for a server, where it is another one than the own one and open.
fn close_other<R: Wait>(
    rt: &R,
    journal: &mut Journal,
    end: &mut SendEnd<Parcel, InPlace>,
    own: ServerIndex,
    dest: ServerIndex,
)
    requires reserved { is_other_open own journal.old.entries dest ≡ true → 0 < journal.old.reserved }
    requires sent { length end.old.sent ≡ placed journal.old.entries dest }
    requires credit { is_other_open own journal.old.entries dest ≡ true → 0 < end.old.room }
    ensures { ClosesOther own dest journal.old end.old journal.new end.new }
{
    if dest == own {
        return;
    }
    if let Some(place) = journal.place(dest) {
        close_open(rt, journal, end, place);
    }
}
