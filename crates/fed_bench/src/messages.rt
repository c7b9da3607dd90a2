// Events of a room, in one line or with forks.
use crate::stop::Stop;
use fed_event::{Checked, Keys, PduFault, StandIn, Version, is_sent_by, seal};
use fed_json::{Json, MAX_LEVELS, read_within};
use fed_room::{StartedFault, started};
use std::alloc::Global;

pub(crate) const OWN: &str = "a.example";

// The first user of a room.
const USER: &str = "@u:a.example";

const ROOM: &str = "!r:a.example";

/// The keys of the server that sends the events.
pub(crate) fn keys(alloc: Global) -> Result<StandIn, Stop> {
    Ok(StandIn::new(String::from_str(alloc, OWN)?))
}

// How many events a room of one user begins with.
const FIRST: usize = 4;

/// The events that a room of so many users begins with.
pub(crate) fn beginning(alloc: Global, members: u64, keys: StandIn) -> Result<Vec<Checked>, Stop> {
    let mut users = Vec::new(alloc);
    users.push(String::from_str(alloc, USER)?)?;
    for number in 1..members {
        users.push(format!(in alloc; "@u{number}:a.example")?)?;
    }
    let mut rings = Vec::new(alloc);
    rings.push(keys)?;
    match started(alloc, Version::V10, ROOM, &users, &rings) {
        Ok(events) => Ok(events),
        Err(StartedFault::Memory) => Err(Stop::Memory),
        Err(_) => Err(Stop::Refused),
    }
}

/// So many messages of the first user behind these events. Of each `fork` one after another, where that is 3 or more, the last but one follows
/// the event before the one before it, and the last follows both. Where `fork` is 1, each follows the last of these events, so that all of them
/// are forward extremities. They may be changes of the user's display name in place of messages.
pub(crate) fn messages(
    alloc: Global,
    beginning: &[Checked],
    count: u64,
    fork: u64,
    names: bool,
    keys: &StandIn,
) -> Result<Vec<Checked>, Stop> {
    let auth_events = auth_events(alloc, beginning, names)?;
    let mut messages = Vec::new(alloc);
    for number in 1..=count {
        let behind = places_behind(number, fork);
        let prevs = [
            event_at(beginning, &messages, behind[0]),
            event_at(beginning, &messages, behind[1]),
        ];
        let said = said(alloc, number, names)?;
        let message = message(alloc, &said, prevs, &auth_events, keys)?;
        messages.push(message)?;
    }
    Ok(messages)
}

// How far before a message, whose number counts from 1, its prev events are; 0 where there is none.
fn places_behind(number: u64, fork: u64) -> [usize; 2] {
    if fork == 1 {
        return [usize::MAX, 0];
    }
    if fork < 3 || number < fork {
        return [1, 0];
    }
    match number.checked_rem(fork) {
        Some(0) => [1, 2],
        Some(last) if last == fork.saturating_sub(1) => [2, 0],
        _ => [1, 0],
    }
}

// The event so far before the next one, where there is one.
fn event_at<'a>(
    beginning: &'a [Checked],
    messages: &'a [Checked],
    behind: usize,
) -> Option<&'a Checked> {
    if behind == 0 {
        return None;
    }
    match messages.len().checked_sub(behind) {
        Some(place) => messages.get(place),
        None => beginning.last(),
    }
}

// The ids of the auth events that a message of the first user has, as texts of JSON with commas between them: of the events that a room of
// one user begins with all but the join rules, which a member event has too.
fn auth_events(alloc: Global, beginning: &[Checked], names: bool) -> Result<String, Stop> {
    let mut ids = String::new(alloc);
    for event in beginning.get(..FIRST).unwrap_or(beginning) {
        if names || event.event().kind() != "m.room.join_rules" {
            push_id(alloc, event, &mut ids)?;
        }
    }
    Ok(ids)
}

// Adds the id of an event to texts of JSON.
fn push_id(alloc: Global, event: &Checked, ids: &mut String) -> Result<(), Stop> {
    let comma = if ids.is_empty() { "" } else { "," };
    ids.push_str(&format!(in alloc; "{comma}\"{}\"", event.event().id())?)?;
    Ok(())
}

// What a message of this number says, or a change of the display name, as members of JSON.
fn said(alloc: Global, number: u64, names: bool) -> Result<String, Stop> {
    if names {
        return Ok(format!(in alloc;
            "\"content\":{{\"displayname\":\"name {number}\",\"membership\":\"join\"}},\"state_key\":\"{USER}\",\"type\":\"m.room.member\""
        )?);
    }
    Ok(format!(in alloc;
        "\"content\":{{\"body\":\"message {number}\",\"msgtype\":\"m.text\"}},\"type\":\"m.room.message\""
    )?)
}

// A small event that says this behind these events.
fn message(
    alloc: Global,
    said: &str,
    prevs: [Option<&Checked>; 2],
    auth_events: &str,
    keys: &StandIn,
) -> Result<Checked, Stop> {
    let mut prev = String::new(alloc);
    let mut deepest = 0;
    for event in prevs {
        if let Some(event) = event {
            push_id(alloc, event, &mut prev)?;
            deepest = event.event().depth().max(deepest);
        }
    }
    let depth = deepest.saturating_add(1);
    let text = format!(in alloc;
        "{{\"auth_events\":[{auth_events}],\"depth\":{depth},\"origin_server_ts\":{depth},\"prev_events\":[{prev}],\"room_id\":\"{ROOM}\",\"sender\":\"{USER}\",{said}}}"
    )?;
    match read_within(alloc, text.as_bytes(), MAX_LEVELS) {
        Ok(parts) => sealed(alloc, parts, keys),
        Err(_) => Err(Stop::Refused),
    }
}

// The event of these parts that the server of the keys sends.
fn sealed<K: Keys>(alloc: Global, parts: Json, keys: &K) -> Result<Checked, Stop> {
    if !is_sent_by(keys.own(), &parts) {
        return Err(Stop::Refused);
    }
    match seal(alloc, Version::V10, parts, keys) {
        Ok(event) => Ok(event),
        Err(PduFault::Memory) => Err(Stop::Memory),
        Err(_) => Err(Stop::Refused),
    }
}
