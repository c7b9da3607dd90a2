// Operations on a room, and what can be seen of it.

use fed_event::{Checked, EventId};
use fed_json::{Json, JsonRef, NoMemory};
use fed_room_contract::{Applied, Draft, Receipt, Refusal, RoomEngine, State, advance_all, apply};
use fed_vectors_call::{Answer, Arguments, List, Object, Stop, again, count, null, text};
use fed_vectors_events::KeyRing;
use fed_vectors_events::events::{event_of, ids};
use fed_vectors_graphs::{receipt_words, verdict_words};
use std::alloc::Global;

/// What becomes of a room with each operation.
pub(crate) fn answers<R: RoomEngine>(call: Arguments<'_>, keys: &KeyRing, room: &mut R) -> Answer {
    let mut answers = List::new(call.alloc);
    for item in call.items("operations")? {
        answers = answers.with(answer(call.alloc, item, keys, room));
    }
    answers.into_answer()
}

// The answer to an operation, and what can be seen of the room behind it.
fn answer<R: RoomEngine>(alloc: Global, item: JsonRef<'_>, keys: &KeyRing, room: &mut R) -> Answer {
    let operation = Arguments::of(alloc, item, "operations")?;
    let name = operation.only_name()?;
    match step(name, operation, room, keys) {
        Ok(answer) => with_room(alloc, answer, room),
        Err(NoMemory) => {
            let refused = with_room(alloc, current(alloc, room), room);
            let answer = step(name, operation, room, keys)?;
            again(alloc, refused, with_room(alloc, answer, room))
        }
    }
}

// Makes the operation that an object names, and tells its answer, where the room has memory for it.
fn step<R: RoomEngine>(
    name: &str,
    operation: Arguments<'_>,
    room: &mut R,
    keys: &KeyRing,
) -> Result<Answer, NoMemory> {
    match name {
        "receive" => receive(operation, room, keys),
        "apply" => applied(operation, room, keys),
        "advance" => advance(operation.alloc, room),
        "advance_all" => match advance_all(operation.alloc, room) {
            Ok(stored) => Ok(count(operation.alloc, stored as u64)),
            Err(_) => Err(NoMemory),
        },
        "send" => send(operation, room, keys),
        "prepare" => prepare(operation, room, keys),
        _ => Ok(look(name, operation, room)),
    }
}

// The operations that change nothing.
fn look<R: RoomEngine>(name: &str, operation: Arguments<'_>, room: &R) -> Answer {
    let alloc = operation.alloc;
    match name {
        "state_before" => match room.state_before(alloc, operation.text(name)?)? {
            Some(state) => entries(alloc, &state),
            None => null(alloc),
        },
        "current" => current(alloc, room),
        "extremities" => ids(alloc, room.extremities()),
        _ => Err(operation.wrong_kind("operations")),
    }
}

fn receive<R: RoomEngine>(
    operation: Arguments<'_>,
    room: &mut R,
    keys: &KeyRing,
) -> Result<Answer, NoMemory> {
    match event_of(operation, "receive", keys) {
        Ok(event) => received(operation.alloc, room, event),
        Err(stop) => Ok(Err(stop)),
    }
}

// What becomes of an event, and how many were stored after it.
fn applied<R: RoomEngine>(
    operation: Arguments<'_>,
    room: &mut R,
    keys: &KeyRing,
) -> Result<Answer, NoMemory> {
    let event = match event_of(operation, "apply", keys) {
        Ok(event) => event,
        Err(stop) => return Ok(Err(stop)),
    };
    match apply(operation.alloc, room, event) {
        Ok(applied) => Ok(told_of_applied(operation.alloc, applied)),
        Err(stopped) => {
            drop(stopped);
            Err(NoMemory)
        }
    }
}

fn told_of_applied(alloc: Global, applied: Applied) -> Answer {
    let Applied { receipt, more } = applied;
    List::new(alloc)
        .with(receipt_text(alloc, receipt))
        .with(count(alloc, more as u64))
        .into_answer()
}

fn receipt_text(alloc: Global, receipt: Receipt) -> Answer {
    Ok(Json::from(receipt_words(alloc, receipt)?))
}

/// What becomes of an event that a room receives, where it has memory for it.
pub(crate) fn received<R: RoomEngine>(
    alloc: Global,
    room: &mut R,
    event: Checked,
) -> Result<Answer, NoMemory> {
    match room.receive(alloc, event) {
        Ok(receipt) => Ok(receipt_text(alloc, receipt)),
        Err((event, error)) => {
            drop(event);
            Err(error)
        }
    }
}

fn advance<R: RoomEngine>(alloc: Global, room: &mut R) -> Result<Answer, NoMemory> {
    match room.advance(alloc)? {
        Some((id, receipt)) => Ok(told_of(alloc, &id, receipt)),
        None => Ok(null(alloc)),
    }
}

// The id of an event, and what became of it.
fn told_of(alloc: Global, id: &EventId, receipt: Receipt) -> Answer {
    List::new(alloc)
        .with(text(alloc, id.as_str()))
        .with(receipt_text(alloc, receipt))
        .into_answer()
}

fn send<R: RoomEngine>(
    operation: Arguments<'_>,
    room: &mut R,
    keys: &KeyRing,
) -> Result<Answer, NoMemory> {
    match draft_copy(operation, "send") {
        Ok(draft) => told_of_draft(operation.alloc, sent(operation.alloc, room, draft, keys)),
        Err(stop) => Ok(Err(stop)),
    }
}

fn prepare<R: RoomEngine>(
    operation: Arguments<'_>,
    room: &mut R,
    keys: &KeyRing,
) -> Result<Answer, NoMemory> {
    match draft(operation, "prepare") {
        Ok(draft) => {
            let made = prepared(operation.alloc, room, draft, keys);
            told_of_draft(operation.alloc, made)
        }
        Err(stop) => Ok(Err(stop)),
    }
}

// The id of the event that a room makes of a draft and stores.
fn sent<R: RoomEngine>(
    alloc: Global,
    room: &mut R,
    draft: Draft,
    keys: &KeyRing,
) -> Result<EventId, Refusal> {
    let prepared = room.prepare(alloc, draft, keys)?;
    Ok(room.commit(prepared))
}

// The id of the event that a room makes of a draft.
fn prepared<R: RoomEngine>(
    alloc: Global,
    room: &mut R,
    draft: Draft,
    keys: &KeyRing,
) -> Result<EventId, Refusal> {
    let prepared = room.prepare(alloc, draft, keys)?;
    Ok(prepared.event().event().id().copy(alloc)?)
}

// The id of the event that was made of a draft, or why none was.
fn told_of_draft(alloc: Global, made: Result<EventId, Refusal>) -> Result<Answer, NoMemory> {
    match made {
        Ok(id) => Ok(text(alloc, id.as_str())),
        Err(Refusal::Memory) => Err(NoMemory),
        Err(refusal) => Ok(refusal_text(alloc, refusal)),
    }
}

fn refusal_text(alloc: Global, refusal: Refusal) -> Answer {
    Ok(Json::from(format!(in alloc; "refused: {refusal}")?))
}

fn draft_copy(operation: Arguments<'_>, name: &str) -> Result<Draft, Stop> {
    Ok(draft(operation, name)?.copy(operation.alloc)?)
}

fn draft(operation: Arguments<'_>, name: &str) -> Result<Draft, Stop> {
    let parts = Arguments::of(operation.alloc, operation.get(name)?, name)?;
    let state_key = match parts.find("state_key") {
        Some(_) => Some(parts.string("state_key")?),
        None => None,
    };
    let at_ms = parts.moment("at_ms")?;
    Ok(Draft {
        room: parts.string("room")?,
        sender: parts.string("sender")?,
        kind: parts.string("kind")?,
        state_key,
        content: parts.value("content")?,
        at_ms,
    })
}

// The entries of the current state.
fn current<R: RoomEngine>(alloc: Global, room: &R) -> Answer {
    entries(alloc, &room.current(alloc)?)
}

fn entries(alloc: Global, state: &State) -> Answer {
    let mut list = List::new(alloc);
    for entry in &state.entries(alloc)? {
        let entry = List::new(alloc)
            .with(text(alloc, entry.kind))
            .with(text(alloc, entry.state_key))
            .with(text(alloc, entry.id.as_str()));
        list = list.with(entry.into_answer());
    }
    list.into_answer()
}

// An answer, and what can be seen of the room.
fn with_room<R: RoomEngine>(alloc: Global, answer: Answer, room: &R) -> Answer {
    Object::new(alloc)
        .with("answer", answer)
        .with("dropped", count(alloc, room.dropped()))
        .with("stored", stored(alloc, room))
        .with("waiting", waiting(alloc, room))
        .into_answer()
}

// The ids of the stored events, each with its verdict.
fn stored<R: RoomEngine>(alloc: Global, room: &R) -> Answer {
    let mut list = List::new(alloc);
    for stored in room.graph().events() {
        let verdict = verdict_words(alloc, stored.verdict)?;
        let row = List::new(alloc)
            .with(text(alloc, stored.event.event().id().as_str()))
            .with(Ok(Json::from(verdict)));
        list = list.with(row.into_answer());
    }
    list.into_answer()
}

// The ids of the events that wait.
fn waiting<R: RoomEngine>(alloc: Global, room: &R) -> Answer {
    let mut list = List::new(alloc);
    for event in room.waiting() {
        list = list.with(text(alloc, event.event().id().as_str()));
    }
    list.into_answer()
}
