// What a journal keeps for one destination.
ghost use Rattle.std.specs.Prelude.{◌≡◌, ◌<◌, ◌≤◌, ◌^◌, ℕ, true, false, Ok, Some, None, length, slice_get, OnOk, OnErr, IsOk, IfOk};
ghost use Rattle.std.specs.List.Sorted.{IsStrictlyIncreasing};
ghost use Rattle.fed_dest.specs.ServerSet.{is_among};
ghost use Rattle.fed_journal.specs.Lane.{LaneState, new_lane, place_after, reached, closed_by, with_room, HasRoom, AreChanged, ArePartlyChanged};

use crate::entry::Cause;
use crate::place::Place;
use fed_dest::{MAX_SERVERS, ServerIndex};
use fed_json::NoMemory;
use std::alloc::Global;
use std::marker::Model;

/// What is placed for a destination.
#[derive(Clone, Copy, PartialEq, Eq)]
pub(crate) enum Kind {
    Event,
    Edu,
}

/// Where the events and the EDUs addressed to one destination stand among the entries, how many parcels were ever placed for it, whether
/// its outbox is closed, and for how many more events, and as many EDUs, there is room.
#[derive(Drop)]
pub(crate) struct Lane {
    events: Vec<usize>,
    edus: Vec<usize>,
    placed: u64,
    closed: bool,
    room: usize,
}

impl Model for Lane {
    ghost use Rattle.fed_journal.specs.Lane.{LaneState, lane_code};

    ghost Value = { LaneState };

    ghost coded = { lane_code };

    ghost use Rattle.fed_journal.specs.LaneParts.{lane_of, IsLaneOf};

    ghost view = { lane_of };

    ghost invariant = { IsLaneOf };
}

impl Lane {
    /// A lane for which nothing was placed.
    pub(crate) fn new(alloc: Global) -> Lane
        ensures { result ≡ new_lane }
    {
        Lane {
            events: Vec::new(alloc),
            edus: Vec::new(alloc),
            placed: 0,
            closed: false,
            room: 0,
        }
    }

    /// Makes room for so many more. An error leaves all as it was.
    pub(crate) fn reserve(&mut self, more: usize) -> Result<(), NoMemory>
        ensures ok { OnOk result (self.new ≡ with_room more self.old) }
        ensures err { OnErr result (self.new ≡ self.old) }
        ensures enough { more ≤ self.old.room → IsOk result }
    {
        if self.room < more {
            self.events.reserve(more)?;
            self.edus.reserve(more)?;
            self.room = more;
        }
        Ok(())
    }

    /// What is addressed to the destination, where its outbox is open, stands at this place.
    pub(crate) fn reach(&mut self, kind: Kind, place: usize)
        requires room { 0 < self.old.room }
        requires placed { self.old.placed < 2 ^ 53 }
        ensures { self.new ≡ reached kind place self.old }
    {
        if self.closed {
            return;
        }
        // There is room for it.
        match kind {
            Kind::Event => self.events.push(place).unwrap(),
            Kind::Edu => self.edus.push(place).unwrap(),
        }
        self.placed += 1;
        self.room -= 1;
    }

    /// Closes the outbox; where that was asked for a last parcel is placed.
    pub(crate) fn close(&mut self, cause: Cause)
        requires placed { self.old.placed < 2 ^ 53 }
        ensures { self.new ≡ closed_by cause self.old }
    {
        self.closed = true;
        if cause == Cause::Asked {
            self.placed += 1;
        }
    }

    /// Whether the outbox is closed.
    pub(crate) fn is_closed(&self) -> bool
        ensures { result ≡ self.now.closed }
    {
        self.closed
    }

    /// Where the next parcel stands, where the outbox is open.
    pub(crate) fn next(&self, dest: ServerIndex) -> Option<Place>
        requires { self.now.placed ≤ 2 ^ 53 }
        ensures { result ≡ place_after dest self.now }
    {
        if self.closed {
            return None;
        }
        Some(Place::new(dest, self.placed + 1))
    }

    /// Where the events stand.
    pub(crate) fn events(&self) -> &[usize]
        ensures { result.now ≡ self.now.events }
    {
        self.events.as_slice()
    }

    /// Where the EDUs stand.
    pub(crate) fn edus(&self) -> &[usize]
        ensures { result.now ≡ self.now.edus }
    {
        self.edus.as_slice()
    }
}

/// A lane for each possible destination.
pub(crate) fn new_lanes(alloc: Global) -> Result<Vec<Lane>, NoMemory>
    ensures count { IfOk result (λ lanes. length lanes.items ≡ MAX_SERVERS) }
    ensures new { IfOk result (λ lanes. (d : ℕ) (lane : LaneState) → slice_get lanes.items d ≡ Some lane → lane ≡ new_lane) }
{
    let mut lanes = Vec::new(alloc);
    for _ in 0..MAX_SERVERS {
        lanes.push(Lane::new(alloc))?;
    }
    Ok(lanes)
}

/// Makes room in each lane. An error leaves what they hold; some may have the room then.
pub(crate) fn reserve_lanes(lanes: &mut [Lane], more: usize) -> Result<(), NoMemory>
    ensures ok { OnOk result (AreChanged (λ _. true) (with_room more) lanes.old lanes.new) }
    ensures kept { ArePartlyChanged (with_room more) lanes.old lanes.new }
    ensures count { length lanes.new ≡ length lanes.old }
{
    for lane in lanes.iter_mut() {
        lane.reserve(more)?;
    }
    Ok(())
}

/// What is addressed to these destinations stands at this place.
pub(crate) fn reach_lanes(lanes: &mut [Lane], dests: &[ServerIndex], kind: Kind, place: usize)
    requires count { length lanes.old ≡ MAX_SERVERS }
    requires rising { IsStrictlyIncreasing dests.now }
    requires room { HasRoom lanes.old }
    ensures changed { AreChanged (is_among dests.now) (reached kind place) lanes.old lanes.new }
    ensures count { length lanes.new ≡ length lanes.old }
{
    for dest in dests {
        lanes[dest.place()].reach(kind, place);
    }
}
