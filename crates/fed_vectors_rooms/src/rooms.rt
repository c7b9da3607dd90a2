// Calls on rooms by the standard, and on the events that they begin with.

use crate::room_steps::{answers, received};
use fed_event::{Checked, StandIn};
use fed_json::{JsonRef, NoMemory};
use fed_room::{Room, StartFault, StartedFault};
use fed_room_contract::{Receipt, RoomEngine};
use fed_vectors_call::{Answer, Arguments, Object, Stop, count, null};
use fed_vectors_events::events::{events_of, sealed, whole_events};
use fed_vectors_events::{KeyRing, room_version};
use fed_vectors_graphs::receipt_words;
use std::alloc::Global;

/// The events that a room of some users begins with.
pub fn started(call: Arguments<'_>) -> Answer {
    let alloc = call.alloc;
    let users = call.strings("users")?;
    let keys = stand_ins(call)?;
    match fed_room::started(
        alloc,
        room_version(call)?,
        call.text("room")?,
        &users,
        &keys,
    ) {
        Ok(events) => whole_events(alloc, &events),
        Err(StartedFault::Memory) => Err(Stop::Memory),
        Err(fault) => Err(Stop::error(format!(in alloc; "{fault}"))),
    }
}

// The stand-ins of the servers.
fn stand_ins(call: Arguments<'_>) -> Result<Vec<StandIn>, Stop> {
    let mut keys = Vec::new(call.alloc);
    for server in call.strings("servers")? {
        keys.push(StandIn::new(server))?;
    }
    Ok(keys)
}

/// What becomes, with each operation, of a room that begins with some events.
pub fn room(call: Arguments<'_>) -> Answer {
    let keys = KeyRing::of(call, call.text("own")?)?;
    let mut room = begun(call, &keys)?;
    answers(call, &keys, &mut room)
}

/// How many events wait and how many are dropped, where many of the same parts come, each with a date of its own. One that memory runs out
/// for comes once more, and `refused` tells how often that was, where it was.
pub fn waiting(call: Arguments<'_>) -> Answer {
    let keys = KeyRing::of(call, call.text("own")?)?;
    let mut room = begun(call, &keys)?;
    let mut refused = 0;
    let last = receive_all(call, &keys, &mut room, &mut refused)?;
    let told = counts(call.alloc, &room).with("last", Ok(last));
    if refused == 0 {
        return told.into_answer();
    }
    told.with("refused", count(call.alloc, refused))
        .into_answer()
}

// What becomes of the last one of the events.
fn receive_all(call: Arguments<'_>, keys: &KeyRing, room: &mut Room, refused: &mut u64) -> Answer {
    let parts = call.get("parts")?;
    let mut last = null(call.alloc)?;
    for date in 0..call.whole("count")? {
        last = match receive_dated(call.alloc, parts, keys, room, date)? {
            Ok(answer) => answer?,
            Err(NoMemory) => {
                *refused = refused.saturating_add(1);
                receive_dated(call.alloc, parts, keys, room, date)???
            }
        };
    }
    Ok(last)
}

// What becomes of the event of these parts with this date, where the room has memory for it.
fn receive_dated(
    alloc: Global,
    parts: JsonRef<'_>,
    keys: &KeyRing,
    room: &mut Room,
    date: u64,
) -> Result<Result<Answer, NoMemory>, Stop> {
    let event = dated(alloc, parts, keys, date)?;
    Ok(received(alloc, room, event))
}

// The event of these parts with this date.
fn dated(alloc: Global, parts: JsonRef<'_>, keys: &KeyRing, date: u64) -> Result<Checked, Stop> {
    let parts = Object::of(alloc, parts.to_json()?)
        .with("origin_server_ts", count(alloc, date))
        .into_answer()?;
    sealed(alloc, keys, parts)
}

// How many events a room has dropped, has stored and lets wait.
fn counts(alloc: Global, room: &Room) -> Object {
    Object::new(alloc)
        .with("dropped", count(alloc, room.dropped()))
        .with("stored", count(alloc, room.graph().events().len() as u64))
        .with("waiting", count(alloc, room.waiting().len() as u64))
}

fn begun(call: Arguments<'_>, keys: &KeyRing) -> Result<Room, Stop> {
    let events = events_of(call, "events", keys)?;
    match Room::start(call.alloc, call.text("own")?, events) {
        Ok(room) => Ok(room),
        Err(fault) => Err(not_begun(call.alloc, fault)),
    }
}

fn not_begun(alloc: Global, fault: StartFault) -> Stop {
    match fault {
        StartFault::Memory => Stop::Memory,
        StartFault::NotAccepted(place, receipt) => not_accepted(alloc, place, receipt),
        fault => Stop::error(format!(in alloc; "{fault}")),
    }
}

fn not_accepted(alloc: Global, place: usize, receipt: Receipt) -> Stop {
    match receipt_words(alloc, receipt) {
        Ok(words) => Stop::error(format!(in alloc; "event {place} is {words}")),
        Err(_) => Stop::Memory,
    }
}
