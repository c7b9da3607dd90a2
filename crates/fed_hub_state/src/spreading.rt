// How a load goes over the wires to its destinations.
ghost use Rattle.std.specs.Prelude.{◌≡◌, ◌≢◌, ◌<◌, ◌+◌, ◌++◌, ℕ, List, [], true, length, All, MatchBool, MatchOption};
ghost use Rattle.fed_wires.specs.SendEnd.{with_sent, with_returned};
ghost use Rattle.std.specs.List.Sorted.{IsStrictlyIncreasing};
ghost use Rattle.fed_dest.specs.ServerSet.{is_among};
ghost use Rattle.fed_journal.specs.Journal.{placed};
ghost use Rattle.fed_journal.specs.Offered.{load_of};
ghost use Rattle.fed_hub_state.specs.Spreading.{PassesOn, AreSent, AreAll, dests_of};
ghost use Rattle.fed_hub_state.specs.SpreadingParts.{IsUnderWay};
ghost use Rattle.fed_hub_state.specs.WireRoom.{HaveRoom, HaveTakenIn, WasFull};

use crate::full_wire::FullWire;
use crate::in_place::InPlace;
use crate::naming::Naming;
use crate::unplaced::Unplaced;
use fed_dest::ServerIndex;
use fed_journal::{Cause, Journal, Offered, Parcel};
use fed_wires::SendEnd;
use std::sync::Wait;

/// The wire to a destination, where it has no room for a parcel. It waits for no room.
pub(crate) fn full_at<R: Wait>(
    rt: &R,
    ends: &mut [SendEnd<Parcel, InPlace>],
    dest: ServerIndex,
) -> Option<FullWire>
    requires { dest < length ends.old }
    ensures same { HaveTakenIn ends.old ends.new }
    ensures full { MatchOption result (HaveRoom (λ d. d ≡ dest) ends.new) (λ full. (full.dest ≡ dest) × WasFull ends.new full) }
{
    match ends[dest.place()].reserve(rt, 1) {
        Ok(()) => None,
        Err(no_room) => Some(FullWire { dest, no_room }),
    }
}

/// The wire to the first destination of these loads where it has no room for a parcel.
pub(crate) fn full_among<R: Wait>(
    rt: &R,
    ends: &mut [SendEnd<Parcel, InPlace>],
    loads: &[Unplaced],
) -> Option<FullWire>
    requires { All (λ d. d < length ends.old) (dests_of loads.now) }
    ensures same { HaveTakenIn ends.old ends.new }
    ensures full { MatchOption result (HaveRoom (λ d. is_among (dests_of loads.now) d ≡ true) ends.new) (λ full. (is_among (dests_of loads.now) full.dest ≡ true) × WasFull ends.new full) }
{
    for unplaced in loads {
        if let Some(full) = full_at(rt, ends, unplaced.dest) {
            return Some(full);
        }
    }
    None
}

/// Sends a parcel over the wire of its destination, and says whether it went. One that comes back is let go.
pub(crate) fn goes<R: Wait>(rt: &R, end: &mut SendEnd<Parcel, InPlace>, parcel: Parcel) -> bool
    requires place { parcel.place.number ≡ length end.old.sent + 1 }
    requires credit { 0 < end.old.room }
    ensures { MatchBool result (end.new ≡ with_sent end.old parcel) (end.new ≡ with_returned end.old) }
{
    end.send(rt, parcel).is_ok()
}

/// Sends a load over the wire to its destination, where its outbox is open. Where the parcel comes back the outbox is lost, and is closed.
pub(crate) fn pass_on<R: Wait>(
    rt: &R,
    journal: &mut Journal,
    end: &mut SendEnd<Parcel, InPlace>,
    unplaced: Unplaced,
)
    requires reserved { 0 < journal.old.reserved }
    requires sent { length end.old.sent ≡ placed journal.old.entries unplaced.dest }
    requires credit { 0 < end.old.room }
    ensures { PassesOn unplaced.dest unplaced.load journal.old end.old journal.new end.new }
{
    let Unplaced { dest, load } = unplaced;
    if let Some(place) = journal.place(dest) {
        if !goes(rt, end, Parcel { place, load }) {
            journal.close(dest, Cause::Lost);
        }
    }
}

/// Sends loads over the wires to their destinations, one after another. There is room in the journal for as many closings and an entry more,
/// and in each of the wires for a parcel.
pub(crate) fn pass_all_on<N: Naming, R: Wait>(
    rt: &R,
    journal: &mut Journal,
    ends: &mut [SendEnd<Parcel, InPlace>],
    offered: &Offered,
    loads: Vec<Unplaced>,
)
    requires room { length loads.items < journal.old.reserved }
    requires sent { AreSent N.wires journal.old.entries ends.old }
    requires within { All (λ d. d < length N.wires) (dests_of loads.items) }
    requires rising { IsStrictlyIncreasing (dests_of loads.items) }
    requires same { AreAll (load_of offered.now) loads.items }
    requires credits { HaveRoom (λ d. is_among (dests_of loads.items) d ≡ true) ends.old }
    ensures { IsUnderWay N.wires (load_of offered.now) (dests_of loads.items) journal.old.entries [] journal.new ends.new }
{
    for unplaced in loads {
        let end = &mut ends[unplaced.dest.place()];
        pass_on(rt, journal, end, unplaced);
    }
}
