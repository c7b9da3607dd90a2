// Calls on journals.
ghost use Rattle.std.specs.Prelude.{◌<◌, OnOk};

use crate::offers::Offers;
use crate::places::{server, server_set, servers};
use fed_dest::ServerIndex;
use fed_journal::{Addressed, AddressedEdus, Cause, Events, Journal, JournalFault};
use fed_json::Json;
use fed_vectors_call::{Answer, Arguments, List, Object, Stop, count, null, text, truth};
use std::alloc::Global;

/// What a journal answers to the operations, and what can be seen of it afterwards.
pub fn journal(call: Arguments<'_>) -> Answer {
    let offers = Offers::of(call)?;
    let mut journal = Journal::new(call.alloc)?;
    let answers = answers(call, &mut journal, &offers)?;
    with_journal(call, answers, &journal)
}

fn answers(call: Arguments<'_>, journal: &mut Journal, offers: &Offers) -> Answer {
    let mut answers = List::new(call.alloc);
    for item in call.items("operations")? {
        let operation = Arguments::of(call.alloc, item, "operations")?;
        answers = answers.with(step(operation, journal, offers));
    }
    answers.into_answer()
}

fn step(operation: Arguments<'_>, journal: &mut Journal, offers: &Offers) -> Answer {
    if operation.find("to").is_some() {
        return append(operation, journal, offers);
    }
    match operation.only_name()? {
        "reserve" => reserve(operation, journal),
        "close" => close(operation, journal, "close", Cause::Asked),
        "lose" => close(operation, journal, "lose", Cause::Lost),
        "place" => place(operation.alloc, journal, server(operation, "place")?),
        _ => Err(operation.wrong_kind("operations")),
    }
}

fn reserve(operation: Arguments<'_>, journal: &mut Journal) -> Answer {
    let Ok(entries) = operation.text("reserve")?.parse::<u64>() else {
        return Err(operation.wrong_kind("reserve"));
    };
    match journal.reserve(entries) {
        Ok(()) => text(operation.alloc, "ok"),
        Err(JournalFault::Memory) => Err(Stop::Memory),
        Err(fault) => Ok(Json::from(format!(in operation.alloc; "{fault}")?)),
    }
}

// Makes room for an entry.
fn make_room(alloc: Global, journal: &mut Journal) -> Result<(), Stop>
    ensures { OnOk result (0 < journal.new.reserved) }
{
    match journal.reserve(1) {
        Ok(()) => Ok(()),
        Err(JournalFault::Memory) => Err(Stop::Memory),
        Err(fault) => Err(Stop::error(format!(in alloc; "{fault}"))),
    }
}

// The number of the event or the EDU that is appended.
fn append(operation: Arguments<'_>, journal: &mut Journal, offers: &Offers) -> Answer {
    if operation.find("event").is_some() {
        append_event(operation, journal, offers)
    } else {
        append_edu(operation, journal, offers)
    }
}

fn append_event(operation: Arguments<'_>, journal: &mut Journal, offers: &Offers) -> Answer {
    let event = offers.event_of(operation)?;
    let dests = server_set(operation, "to")?;
    make_room(operation.alloc, journal)?;
    count(operation.alloc, journal.append(event, dests))
}

fn append_edu(operation: Arguments<'_>, journal: &mut Journal, offers: &Offers) -> Answer {
    let edu = offers.edu_of(operation)?;
    let dests = server_set(operation, "to")?;
    make_room(operation.alloc, journal)?;
    count(operation.alloc, journal.append_edu(edu, dests))
}

// Whether the outbox was open.
fn close(operation: Arguments<'_>, journal: &mut Journal, name: &str, cause: Cause) -> Answer {
    let dest = server(operation, name)?;
    make_room(operation.alloc, journal)?;
    truth(operation.alloc, journal.close(dest, cause))
}

// The number of the next parcel, or null where none comes.
fn place(alloc: Global, journal: &Journal, dest: ServerIndex) -> Answer {
    match journal.place(dest) {
        Some(place) => count(alloc, place.number()),
        None => null(alloc),
    }
}

fn with_journal(call: Arguments<'_>, answers: Json, journal: &Journal) -> Answer {
    let entries = journal.entries().len() as u64;
    Object::new(call.alloc)
        .with("answers", Ok(answers))
        .with("dests", dests(call, journal))
        .with("entries", count(call.alloc, entries))
        .with("events", all_events(call.alloc, journal.events()))
        .into_answer()
}

// What is addressed to each of the destinations.
fn dests(call: Arguments<'_>, journal: &Journal) -> Answer {
    let mut list = List::new(call.alloc);
    for dest in &servers(call, "dests")? {
        let told = Object::new(call.alloc)
            .with("edus", edus_to(call.alloc, journal.addressed_edus(*dest)))
            .with("events", events_to(call.alloc, journal.addressed(*dest)))
            .with("place", place(call.alloc, journal, *dest));
        list = list.with(told.into_answer());
    }
    list.into_answer()
}

fn edus_to(alloc: Global, edus: AddressedEdus<'_>) -> Answer {
    let mut list = List::new(alloc);
    for edu in edus {
        list = list.with(Ok(edu.copy()?));
    }
    list.into_answer()
}

fn events_to(alloc: Global, events: Addressed<'_>) -> Answer {
    let mut list = List::new(alloc);
    for event in events {
        list = list.with(text(alloc, event.event().id().as_str()));
    }
    list.into_answer()
}

fn all_events(alloc: Global, events: Events<'_>) -> Answer {
    let mut list = List::new(alloc);
    for event in events {
        list = list.with(text(alloc, event.event().id().as_str()));
    }
    list.into_answer()
}
