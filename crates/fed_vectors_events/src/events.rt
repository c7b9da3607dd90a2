// Calls on events: their tests, their fields, the checks on receipt, and sealing.

use crate::key_ring::{KeyRing, room_version};
use fed_event::{CheckFault, Checked, EventId, EventIds, Keys, Pdu, PduFault, is_sent_by};
use fed_json::Json;
use fed_vectors_call::{Answer, Arguments, List, Object, Stop, copy, number, text, truth};
use std::alloc::Global;

pub fn domain(call: Arguments<'_>) -> Answer {
    text(call.alloc, fed_event::domain(call.text("id")?))
}

pub fn user_id(call: Arguments<'_>) -> Answer {
    truth(call.alloc, fed_event::is_user_id(call.text("text")?))
}

pub fn event(call: Arguments<'_>) -> Answer {
    let event = event_given(call)?;
    Object::new(call.alloc)
        .with("hash_fits", truth(call.alloc, event.hash_fits()))
        .with("id", text(call.alloc, event.id().as_str()))
        .into_answer()
}

pub fn fields(call: Arguments<'_>) -> Answer {
    let alloc = call.alloc;
    let event = event_given(call)?;
    let fields = with_texts(
        alloc,
        with_values(alloc, Object::new(alloc), &event),
        &event,
    );
    match event.state_key() {
        Some(state_key) => fields
            .with("state_key", text(alloc, state_key))
            .into_answer(),
        None => fields.into_answer(),
    }
}

// With the fields that are objects, lists and numbers.
fn with_values(alloc: Global, fields: Object, event: &Pdu) -> Object {
    fields
        .with("auth_events", named(alloc, event.auth_events()))
        .with("content", copy(event.content()))
        .with("depth", number(alloc, event.depth()))
        .with("hashes", copy(event.hashes()))
        .with("origin_server_ts", number(alloc, event.origin_server_ts()))
        .with("prev_events", named(alloc, event.prev_events()))
        .with("signatures", copy(event.signatures()))
}

// With the fields that are texts.
fn with_texts(alloc: Global, fields: Object, event: &Pdu) -> Object {
    fields
        .with("room_id", text(alloc, event.room_id()))
        .with("sender", text(alloc, event.sender()))
        .with("type", text(alloc, event.kind()))
}

// The ids that an event names.
fn named(alloc: Global, ids: EventIds<'_>) -> Answer {
    let mut list = List::new(alloc);
    for id in ids {
        list = list.with(text(alloc, id));
    }
    list.into_answer()
}

// The event of `value`, `text` or `hex`.
fn event_given(call: Arguments<'_>) -> Result<Pdu, Stop> {
    let version = room_version(call)?;
    let read = match call.find("value") {
        Some(value) => Pdu::of_json(call.alloc, version, value.to_json()?),
        None => Pdu::read(call.alloc, version, &call.bytes()?),
    };
    match read {
        Ok(event) => Ok(event),
        Err(fault) => Err(Stop::error(format!(in call.alloc; "{fault}"))),
    }
}

pub fn check_in(call: Arguments<'_>) -> Answer {
    let keys = KeyRing::of(call, call.text("own")?)?;
    let checked = checked_in(call.alloc, &keys, call.value("value")?)?;
    told_of(call.alloc, &checked.copy(call.alloc)?)
}

fn told_of(alloc: Global, checked: &Checked) -> Answer {
    Object::new(alloc)
        .with("authorised", truth(alloc, checked.is_authorised()))
        .with("event", copy(checked.event().json().root()))
        .into_answer()
}

/// The event that a value is, after the checks on receipt. The error is the verdict on it.
pub fn checked_in(alloc: Global, keys: &KeyRing, value: Json) -> Result<Checked, Stop> {
    let event = match Pdu::of_json(alloc, keys.version(), value) {
        Ok(event) => event,
        Err(fault) => return Err(failing(alloc, fault)),
    };
    match fed_event::check_in(alloc, event, keys) {
        Ok(checked) => Ok(checked),
        Err(CheckFault::Memory) => Err(Stop::Memory),
        Err(fault) => Err(Stop::error(format!(in alloc; "{fault}"))),
    }
}

pub fn seal(call: Arguments<'_>) -> Answer {
    let keys = KeyRing::or_stand_in(call, call.text("own")?)?;
    let event = sealed(call.alloc, &keys, call.value("parts")?)?;
    Ok(event.event().json().copy()?)
}

/// The event of these parts that the server of the keys sends. The error is the verdict on it.
pub fn sealed(alloc: Global, keys: &KeyRing, parts: Json) -> Result<Checked, Stop> {
    if !is_sent_by(keys.own(), &parts) {
        return Err(Stop::wrong(String::from_str(alloc, "sender of another server")));
    }
    match fed_event::seal(alloc, keys.version(), parts, keys) {
        Ok(sealed) => Ok(sealed),
        Err(fault) => Err(failing(alloc, fault)),
    }
}

// The verdict on a value that is no event.
fn failing(alloc: Global, fault: PduFault) -> Stop {
    match fault {
        PduFault::Memory => Stop::Memory,
        fault => Stop::error(fault.verdict_text(alloc)),
    }
}

/// The event that an argument is, after the checks on receipt. The error names the argument where it is refused.
pub fn event_of(call: Arguments<'_>, name: &str, keys: &KeyRing) -> Result<Checked, Stop> {
    match checked_in(call.alloc, keys, call.value(name)?) {
        Ok(event) => Ok(event),
        Err(stop) => Err(wrong_event(call.alloc, name, stop)),
    }
}

/// The events of a list of the call, each after the checks on receipt. The error names the place of the first that is refused.
pub fn events_of(call: Arguments<'_>, name: &str, keys: &KeyRing) -> Result<Vec<Checked>, Stop> {
    let mut events = Vec::new(call.alloc);
    for item in call.items(name)? {
        match checked_in(call.alloc, keys, item.to_json()?) {
            Ok(event) => events.push(event)?,
            Err(stop) => return Err(wrong_event_at(call.alloc, name, events.len(), stop)),
        }
    }
    Ok(events)
}

// That the event at this place of the line is refused, where an error says so.
fn wrong_event(alloc: Global, place: &str, stop: Stop) -> Stop {
    match stop {
        Stop::Memory => Stop::Memory,
        Stop::Error(verdict) => Stop::wrong(format!(in alloc; "{place}: {verdict}")),
        Stop::Wrong(text) => Stop::Wrong(text),
    }
}

/// That the event at this place of a list is refused, where an error says so.
pub fn wrong_event_at(alloc: Global, list: &str, place: usize, stop: Stop) -> Stop {
    match format!(in alloc; "{list} {place}") {
        Ok(place) => wrong_event(alloc, &place, stop),
        Err(_) => Stop::Memory,
    }
}

/// The list of ids.
pub fn ids(alloc: Global, ids: &[EventId]) -> Answer {
    let mut list = List::new(alloc);
    for id in ids {
        list = list.with(text(alloc, id.as_str()));
    }
    list.into_answer()
}

/// The list of the ids of events.
pub fn event_ids(alloc: Global, events: &[Checked]) -> Answer {
    let mut list = List::new(alloc);
    for event in events {
        list = list.with(text(alloc, event.event().id().as_str()));
    }
    list.into_answer()
}

/// The list of events, each with its hash and signatures.
pub fn whole_events(alloc: Global, events: &[Checked]) -> Answer {
    let mut list = List::new(alloc);
    for event in events {
        list = list.with(copy(event.event().json().root()));
    }
    list.into_answer()
}
