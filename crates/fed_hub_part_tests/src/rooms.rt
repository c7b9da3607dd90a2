// Events of a room that come over its wire.
ghost use Rattle.std.specs.Prelude.{◌≡◌, Some, slice_get};
ghost use Rattle.fed_wires.specs.ReceiveEnd.{new_receiver};

use fed_event::{Checked, StandIn, Version};
use fed_hub_rooms::{LockedRoom, Ran, RoomToken, run_room};
use fed_hub_serving::ServingNaming;
use fed_hub_state::KeptRoom;
use fed_json::read;
use fed_room::{Room, started};
use fed_room_contract::{Draft, RoomEngine};
use fed_wires::{AnyMessage, ReceiveEnd, SendEnd, wire};
use std::alloc::Global;
use std::marker::Brand;
use std::sync::{Mutex, Wait};
use std::test::*;

const ROOM: &str = "!r:a";

const USER: &str = "@u:a";

// The keys of the server a.
fn keys(alloc: Global) -> Option<StandIn> {
    Some(StandIn::new(String::from_str(alloc, "a").ok()?))
}

// The events that a room of one user begins with.
fn beginning(alloc: Global) -> Option<Vec<Checked>> {
    let users = vec![in alloc; String::from_str(alloc, USER).ok()?].ok()?;
    let keys = vec![in alloc; keys(alloc)?].ok()?;
    started(alloc, Version::V10, ROOM, &users, &keys).ok()
}

fn draft(alloc: Global) -> Option<Draft> {
    Some(Draft {
        room: String::from_str(alloc, ROOM).ok()?,
        sender: String::from_str(alloc, USER).ok()?,
        kind: String::from_str(alloc, "m.room.message").ok()?,
        state_key: None,
        content: read(alloc, b"{}").ok()?,
        at_ms: 0,
    })
}

// A message that a room makes and stores.
fn message(alloc: Global, room: &mut Room) -> Option<Checked> {
    made_of(alloc, room, draft(alloc)?, &keys(alloc)?)
}

fn made_of(alloc: Global, room: &mut Room, draft: Draft, keys: &StandIn) -> Option<Checked> {
    let prepared = room.prepare(alloc, draft, keys).ok()?;
    let event = prepared.event().copy(alloc).ok()?;
    room.commit(prepared);
    Some(event)
}

// A room that has not received them yet, and two messages, of which the second names the first.
#[derive(Drop)]
struct Messages {
    room: KeptRoom,
    first: Checked,
    second: Checked,
}

fn make_messages(alloc: Global) -> Option<Messages> {
    let (first, second) = two_messages(alloc)?;
    let room = KeptRoom::start(alloc, "b", beginning(alloc)?).ok()?;
    Some(Messages {
        room,
        first,
        second,
    })
}

fn two_messages(alloc: Global) -> Option<(Checked, Checked)> {
    let mut room = Room::start(alloc, "a", beginning(alloc)?).ok()?;
    made_in(alloc, &mut room)
}

fn made_in(alloc: Global, room: &mut Room) -> Option<(Checked, Checked)> {
    let first = message(alloc, room)?;
    let second = message(alloc, room)?;
    Some((first, second))
}

// Sends copies of two events.
fn send<R: Wait>(
    rt: &R,
    alloc: Global,
    end: &mut SendEnd<Checked, AnyMessage>,
    one: &Checked,
    two: &Checked,
) -> Option<()> {
    for event in [one, two] {
        let copy = event.copy(alloc).ok()?;
        end.reserve(rt, 1).ok()?;
        end.send(rt, copy).ok()?;
    }
    Some(())
}

// How the thread ended, whether it gave the second message and then the first, which of the two the room has stored, and how many wait.
#[derive(Debug, Drop, PartialEq)]
struct Found {
    ran: Ran,
    given: [bool; 2],
    stored: [bool; 2],
    waiting: usize,
}

fn find(ran: Ran, given: &[Checked], room: &KeptRoom, first: &Checked, second: &Checked) -> Found {
    let room = room.room();
    let graph = room.graph();
    Found {
        ran,
        given: [is_at(given, 0, second), is_at(given, 1, first)],
        stored: [
            graph.contains(first.event().id().as_str()),
            graph.contains(second.event().id().as_str()),
        ],
        waiting: room.waiting().len(),
    }
}

fn is_at(given: &[Checked], place: usize, event: &Checked) -> bool {
    match given.get(place) {
        Some(found) => found == event,
        None => false,
    }
}

// The second message comes first, and nothing comes behind the other one: after one turn, and in the end.
fn run_locked<N: ServingNaming, R: Wait>(
    rt: &R,
    alloc: Global,
    mut sender: SendEnd<Checked, AnyMessage>,
    end: ReceiveEnd<Checked, AnyMessage>,
) -> Option<[Found; 2]>
    requires wire { slice_get N.rooms 0 ≡ Some end.wire }
    requires new { end ≡ new_receiver end.wire }
{
    let Messages {
        room,
        first,
        second,
    } = make_messages(alloc)?;
    send(rt, alloc, &mut sender, &second, &first)?;
    drop(sender);
    let mut token = RoomToken::<N>::new(alloc, 0, end);
    let shared = Mutex::new(room);
    let mut room = LockedRoom { room: &shared };
    let ran = run_room(rt, alloc, &mut room, &mut token, 1);
    let early = find(ran, token.given(), &shared.lock(rt), &first, &second);
    let ran = run_room(rt, alloc, &mut room, &mut token, 9);
    let late = find(ran, token.given(), &shared.lock(rt), &first, &second);
    Some([early, late])
}

#[test]
fn an_event_waits_for_the_one_that_it_names(rt: HostRuntime) -> Result<(), Fail> {
    let alloc = rt.alloc();
    let (sender, end) = wire(alloc)?;
    let found = run_locked::<Brand, _>(&rt, alloc, sender, end);
    let early = Found {
        ran: Ran::TurnsSpent,
        given: [true, false],
        stored: [false, false],
        waiting: 1,
    };
    let late = Found {
        ran: Ran::Drained,
        given: [true, true],
        stored: [true, true],
        waiting: 0,
    };
    assert_eq!(rt; found, Some([early, late]));
    Ok(())
}

// Two messages come, and no more while the wire lasts: after two turns.
fn run_lent<N: ServingNaming, R: Wait>(
    rt: &R,
    alloc: Global,
    mut sender: SendEnd<Checked, AnyMessage>,
    end: ReceiveEnd<Checked, AnyMessage>,
) -> Option<(Ran, usize, bool)>
    requires wire { slice_get N.rooms 0 ≡ Some end.wire }
    requires new { end ≡ new_receiver end.wire }
{
    let Messages {
        mut room,
        first,
        second,
    } = make_messages(alloc)?;
    send(rt, alloc, &mut sender, &first, &second)?;
    let mut token = RoomToken::<N>::new(alloc, 0, end);
    let ran = run_room(rt, alloc, &mut room, &mut token, 2);
    Some((ran, token.given().len(), token.is_gone()))
}

#[test]
fn turns_are_spent(rt: HostRuntime) -> Result<(), Fail> {
    let alloc = rt.alloc();
    let (sender, end) = wire(alloc)?;
    let found = run_lent::<Brand, _>(&rt, alloc, sender, end);
    assert_eq!(rt; found, Some((Ran::TurnsSpent, 2, false)));
    Ok(())
}
