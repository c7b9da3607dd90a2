// The wires of a server's rooms.
ghost use Rattle.std.specs.Prelude.{◌≡◌, ◌+◌, ◌<◌, ◌≤◌, ◌++◌, ◌∷◌, [], false, Some, length, map, IfOk, MatchOption, vec_capacity};
ghost use Rattle.fed_hub_serving.specs.Bound.{AreBound, events_in};
ghost use Rattle.fed_hub_serving.specs.Brought.{end_place};
ghost use Rattle.fed_hub_serving.specs.Spreading.{Passes, SpreadAll};
ghost use Rattle.fed_hub_serving.specs.WireRoom.{HaveTakenIn, HaveRoom, HaveRoomTo, WasFull, is_bound_for, count_for};
ghost use Rattle.fed_hub_serving.specs.Wires.{running, ended_of, ended_at, all_ended};

use crate::bound::Bound;
use crate::end_place::EndPlace;
use crate::full_wire::FullRoom;
use crate::naming::ServingNaming;
use crate::room_wire::{EndedWire, RoomWire};
use fed_event::Checked;
use fed_json::NoMemory;
use fed_wires::{AnyMessage, Credit, SendEnd};
use std::alloc::Global;
use std::marker::Model;
use std::sync::Wait;

/// The ends that send of the wires to a server's rooms, in the order of their places; or, once they are all ended, what is left of them.
///
/// Contracts see them as the wires, and whether all were ended.
#[derive(Drop)]
pub(crate) struct RoomWires {
    running: Vec<RoomWire>,
    ended: Vec<EndedWire>,
    is_shut: bool,
}

impl Model for RoomWires {
    ghost use Rattle.fed_hub_serving.specs.Wires.{WiresState};

    ghost Value = { WiresState };

    ghost use Rattle.std.specs.Coded.{codes};
    ghost use Rattle.fed_hub_serving.specs.contracts.room_wire.RoomWire as wire;

    ghost coded = { Prim.hlevel (codes, wire.the_row.coded) };

    ghost use Rattle.fed_hub_serving.specs.WiresParts.{wires_of, HoldTogether};

    ghost view = { wires_of };

    ghost invariant = { HoldTogether };
}

impl RoomWires {
    ghost use Rattle.std.specs.Prelude.{true};

    /// Wires over which nothing went, by the ends that send, and memory for ending them.
    pub(crate) fn new(
        alloc: Global,
        ends: Vec<SendEnd<Checked, AnyMessage>>,
    ) -> Result<RoomWires, NoMemory>
        ensures { IfOk result (λ wires. wires ≡ record { wires = map running ends.items; is_shut = false }) }
    {
        let ended = Vec::with_capacity(alloc, ends.len())?;
        let running = all_running(alloc, ends)?;
        Ok(RoomWires {
            running,
            ended,
            is_shut: false,
        })
    }

    /// What is left of the wires, once they are all ended.
    pub(crate) fn ended(&self) -> &[EndedWire]
        ensures { self.now.is_shut ≡ true → map ended_of result.now ≡ self.now.wires }
    {
        &self.ended
    }

    /// A room of these events whose wire has no room for all that are for it, where there is one. It waits for no room.
    pub(crate) fn full_among<R: Wait>(&mut self, rt: &R, bound: &[Bound]) -> Option<FullRoom>
        ensures same { HaveTakenIn self.old.wires self.new.wires }
        ensures shut { self.new.is_shut ≡ self.old.is_shut }
        ensures full { MatchOption result (HaveRoom bound.now self.new.wires) (WasFull bound.now self.new.wires) }
    {
        full_among(rt, &mut self.running, bound)
    }

    /// Waits until there is more room in the wire to the room at this place, or until its other end is gone. Where it has ended it does not wait.
    pub(crate) fn wait<R: Wait>(&mut self, rt: &R, room: usize)
        ensures same { HaveTakenIn self.old.wires self.new.wires }
        ensures shut { self.new.is_shut ≡ self.old.is_shut }
    {
        if room < self.running.len() {
            let wire = &mut self.running[room];
            wire.wait(rt);
        }
    }

    /// Takes in a credit that was waited for, of the wire to the room at its place. Where they are all ended it is let go.
    pub(crate) fn give(&mut self, credit: Credit)
        ensures same { HaveTakenIn self.old.wires self.new.wires }
        ensures shut { self.new.is_shut ≡ self.old.is_shut }
    {
        let room = credit.place();
        if room < self.running.len() {
            let wire = &mut self.running[room];
            wire.give(credit);
        }
    }

    /// Sends an event over the wire to its room. Where it comes back the wire has ended at this place.
    pub(crate) fn pass_on<R: Wait>(&mut self, rt: &R, bound: Bound, place: EndPlace)
        requires { HaveRoom (bound ∷ []) self.old.wires }
        ensures { Passes bound place self.old self.new }
    {
        let Bound { room, event } = bound;
        if let Some(room) = room {
            if room < self.running.len() {
                let wire = &mut self.running[room];
                wire.send(rt, event, place);
            }
        }
    }

    /// Sends the events of a request over the wires to their rooms, one after another. `points` requests were answered before it.
    pub(crate) fn pass_all_on<N: ServingNaming, R: Wait>(
        &mut self,
        rt: &R,
        points: usize,
        bound: Vec<Bound>,
    )
        requires bound { AreBound N.known bound.items }
        requires room { HaveRoom bound.items self.old.wires }
        ensures { SpreadAll N.known points (events_in bound.items) self.old self.new }
    {
        let mut events = 0;
        for one in bound {
            self.pass_on(rt, one, EndPlace { points, events });
            events += 1;
        }
    }

    /// Ends all wires, each at this place where it has not ended before. It takes no memory.
    pub(crate) fn end_all(&mut self, place: EndPlace)
        ensures { self.new ≡ all_ended place self.old }
    {
        let alloc = *self.running.allocator();
        let running = std::mem::replace(&mut self.running, Vec::new(alloc));
        end_each(running, &mut self.ended, place);
        self.is_shut = true;
    }
}

// A room of these events whose wire has no room for all that are for it.
fn full_among<R: Wait>(rt: &R, wires: &mut [RoomWire], bound: &[Bound]) -> Option<FullRoom>
    ensures same { HaveTakenIn wires.old wires.new }
    ensures full { MatchOption result (HaveRoom bound.now wires.new) (WasFull bound.now wires.new) }
{
    for one in bound {
        if let Some(full) = full_for(rt, wires, one, bound) {
            return Some(full);
        }
    }
    None
}

// The room of an event, where its wire has no room for all of these events that are for it.
fn full_for<R: Wait>(
    rt: &R,
    wires: &mut [RoomWire],
    one: &Bound,
    bound: &[Bound],
) -> Option<FullRoom>
    ensures same { HaveTakenIn wires.old wires.new }
    ensures full { MatchOption result (HaveRoomTo (λ k. one.now.room ≡ Some k) bound.now wires.new) (WasFull bound.now wires.new) }
{
    let room = one.room?;
    if room >= wires.len() {
        return None;
    }
    let count = count_for(bound, room);
    let wire = &mut wires[room];
    match wire.reserve(rt, count) {
        Ok(()) => None,
        Err(no_room) => Some(FullRoom { room, no_room }),
    }
}

// How many of these events are for the room at this place.
fn count_for(bound: &[Bound], room: usize) -> usize
    ensures { result ≡ count_for room bound.now }
{
    bound.iter().filter(|one| is_for(one, room)).count()
}

// Whether an event is for the room at this place.
fn is_for(one: &Bound, room: usize) -> bool
    ensures { result ≡ is_bound_for room one.now }
{
    match one.room {
        Some(place) => place == room,
        None => false,
    }
}

// The wires of these ends, none of which has ended.
fn all_running(
    alloc: Global,
    ends: Vec<SendEnd<Checked, AnyMessage>>,
) -> Result<Vec<RoomWire>, NoMemory>
    ensures { IfOk result (λ wires. wires.items ≡ map running ends.items) }
{
    let mut wires = Vec::with_capacity(alloc, ends.len())?;
    for end in ends {
        wires.push(RoomWire { end, ended: None })?;
    }
    Ok(wires)
}

// Ends wires, for which there is room among those that have ended.
fn end_each(running: Vec<RoomWire>, ended: &mut Vec<EndedWire>, place: EndPlace)
    requires { length ended.old.items + length running.items ≤ vec_capacity ended.old }
    ensures { map ended_of ended.new.items ≡ map ended_of ended.old.items ++ map (ended_at place) running.items }
{
    for wire in running {
        // There is room for it.
        ended.push(wire.end(place)).unwrap();
    }
}
