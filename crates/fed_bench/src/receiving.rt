// From the events of a room to a room that has received them.
use crate::messages::{OWN, beginning, keys, messages};
use crate::stop::Stop;
use fed_event::Checked;
use fed_room::{Room, StartFault};
use fed_room_contract::{Receipt, RoomEngine};
use std::alloc::Global;
use std::time::Instant;

/// What a room is of and receives: so many members, then so many messages, with a fork at each so many of them where that is 3 or more, and all
/// beside one another where it is 1. In the place of each message the first user may change the own display name, which is state.
#[derive(Clone, Copy)]
pub(crate) struct Receiving {
    pub(crate) members: u64,
    pub(crate) messages: u64,
    pub(crate) fork: u64,
    pub(crate) names: bool,
}

/// How many messages a room receives and accepts behind the events that it begins with, and the time in microseconds.
pub(crate) fn receive(rt: &HostRuntime, receiving: Receiving) -> Result<String, Stop> {
    let alloc = rt.alloc();
    let first = beginning(alloc, receiving.members, keys(alloc)?)?;
    let messages = messages(
        alloc,
        &first,
        receiving.messages,
        receiving.fork,
        receiving.names,
        &keys(alloc)?,
    )?;
    let mut room = begun(alloc, first)?;
    let start = Instant::now(rt)?;
    let received = receive_all(alloc, &mut room, messages)?;
    let time = start.elapsed(rt)?.as_micros();
    Ok(format!(in alloc; "{received} {time}")?)
}

fn begun(alloc: Global, events: Vec<Checked>) -> Result<Room, Stop> {
    match Room::start(alloc, OWN, events) {
        Ok(room) => Ok(room),
        Err(StartFault::Memory) => Err(Stop::Memory),
        Err(_) => Err(Stop::Refused),
    }
}

// Receives events one by one: how many are accepted.
fn receive_all(alloc: Global, room: &mut Room, events: Vec<Checked>) -> Result<u64, Stop> {
    let mut count = 0u64;
    for event in events {
        let accepted = is_accepted(received(alloc, room, event)?);
        count = count.saturating_add(u64::from(accepted));
    }
    Ok(count)
}

fn received(alloc: Global, room: &mut Room, event: Checked) -> Result<Receipt, Stop> {
    match room.receive(alloc, event) {
        Ok(receipt) => Ok(receipt),
        Err((event, _)) => {
            drop(event);
            Err(Stop::Memory)
        }
    }
}

fn is_accepted(receipt: Receipt) -> bool {
    match receipt {
        Receipt::Stored(verdict) => verdict.is_accepted(),
        Receipt::Known | Receipt::Waiting | Receipt::Dropped => false,
    }
}
