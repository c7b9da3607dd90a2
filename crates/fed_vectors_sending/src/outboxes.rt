// Calls on outboxes.

use crate::offers::Offers;
use crate::places::server;
use fed_dest::ServerIndex;
use fed_journal::{Load, MAX_ENTRIES, Parcel, Place};
use fed_json::{Json, NoMemory};
use fed_outbox::{Outbox, OutboxFault, Settlement, Transaction};
use fed_vectors_call::{
    Answer, Arguments, LAST_MOMENT, List, Object, Stop, again, count, list_of, null, text, truth,
};
use fed_vectors_events::events::event_ids;
use std::alloc::Global;

/// What an outbox answers to the operations, and what can be seen of it afterwards.
pub fn outbox(call: Arguments<'_>) -> Answer {
    let offers = Offers::of(call)?;
    let mut outbox = Outbox::new(call.alloc, server(call, "dest")?);
    let answers = answers(call, &mut outbox, &offers)?;
    seen(call, &outbox)
        .with("answers", Ok(answers))
        .into_answer()
}

fn answers(call: Arguments<'_>, outbox: &mut Outbox, offers: &Offers) -> Answer {
    let mut answers = List::new(call.alloc);
    for item in call.items("operations")? {
        let operation = Arguments::of(call.alloc, item, "operations")?;
        answers = answers.with(match step(operation, outbox, offers) {
            Ok(answer) => answer,
            Err(NoMemory) => {
                let refused = seen(call, outbox).into_answer();
                again(call.alloc, refused, step(operation, outbox, offers)?)
            }
        });
    }
    answers.into_answer()
}

// The answer to an operation, where the outbox has memory for it.
fn step(
    operation: Arguments<'_>,
    outbox: &mut Outbox,
    offers: &Offers,
) -> Result<Answer, NoMemory> {
    if operation.find("at").is_some() {
        return accept(operation, outbox, offers);
    }
    Ok(step_of_one_name(operation, outbox, offers))
}

fn step_of_one_name(operation: Arguments<'_>, outbox: &mut Outbox, offers: &Offers) -> Answer {
    match operation.only_name()? {
        "fill" => fill(operation, outbox, offers),
        "cut" => sent(operation.alloc, outbox.cut(operation.moment("cut")?)),
        "failed" => failed(operation, outbox),
        "settle" => settle(operation, outbox),
        name => look(name, operation, outbox),
    }
}

// The operations that change nothing.
fn look(name: &str, operation: Arguments<'_>, outbox: &Outbox) -> Answer {
    let alloc = operation.alloc;
    match name {
        "unanswered" => sent(alloc, outbox.unanswered()),
        "due" => truth(alloc, outbox.due(operation.moment("due")?)),
        "due_at" => count(alloc, outbox.due_at()),
        "acked" => acked(alloc, outbox),
        "ended" => truth(alloc, outbox.ended()),
        "fits" => truth(alloc, outbox.fits(place(operation, "fits", outbox.dest())?)),
        _ => Err(operation.wrong_kind("operations")),
    }
}

// Whether a parcel is accepted, or why it is not.
fn accept(
    operation: Arguments<'_>,
    outbox: &mut Outbox,
    offers: &Offers,
) -> Result<Answer, NoMemory> {
    let parcel = match parcel(operation, outbox.dest(), offers) {
        Ok(parcel) => parcel,
        Err(stop) => return Ok(Err(stop)),
    };
    match accept_parcel(outbox, parcel) {
        Ok(()) => Ok(text(operation.alloc, "ok")),
        Err(OutboxFault::Memory) => Err(NoMemory),
        Err(fault) => Ok(fault_text(operation.alloc, fault)),
    }
}

fn fault_text(alloc: Global, fault: OutboxFault) -> Answer {
    Ok(Json::from(format!(in alloc; "{fault}")?))
}

fn accept_parcel(outbox: &mut Outbox, parcel: Parcel) -> Result<(), OutboxFault> {
    match outbox.accept(parcel) {
        Ok(()) => Ok(()),
        Err((parcel, fault)) => {
            drop(parcel);
            Err(fault)
        }
    }
}

fn parcel(operation: Arguments<'_>, dest: ServerIndex, offers: &Offers) -> Result<Parcel, Stop> {
    let dest = match operation.find("dest") {
        Some(_) => server(operation, "dest")?,
        None => dest,
    };
    Ok(Parcel {
        place: place(operation, "at", dest)?,
        load: load(operation, offers)?,
    })
}

fn load(operation: Arguments<'_>, offers: &Offers) -> Result<Load, Stop> {
    if operation.is_set("end")? {
        return Ok(Load::End);
    }
    if operation.find("edu").is_some() {
        return Ok(Load::Edu(offers.edu_of(operation)?));
    }
    Ok(Load::Event(offers.event_of(operation)?))
}

fn place(operation: Arguments<'_>, name: &str, dest: ServerIndex) -> Result<Place, Stop> {
    match place_of(dest, operation.whole(name)?) {
        Some(place) => Ok(place),
        None => Err(operation.wrong_kind(name)),
    }
}

fn place_of(dest: ServerIndex, number: u64) -> Option<Place> {
    if number == 0 || number > MAX_ENTRIES + 1 {
        return None;
    }
    Some(Place::new(dest, number))
}

// Accepts the first event and the first EDU so often, and tells the number of the next parcel.
fn fill(operation: Arguments<'_>, outbox: &mut Outbox, offers: &Offers) -> Answer {
    let counts = operation.wholes("fill")?;
    let [pdus, edus] = *counts.as_slice() else {
        return Err(operation.wrong_kind("fill"));
    };
    for _ in 0..pdus {
        let Some(event) = offers.event(operation.alloc, 0)? else {
            return Err(operation.wrong_kind("fill"));
        };
        accept_next(operation, outbox, Load::Event(event))?;
    }
    for _ in 0..edus {
        let Some(edu) = offers.edu(0)? else {
            return Err(operation.wrong_kind("fill"));
        };
        accept_next(operation, outbox, Load::Edu(edu))?;
    }
    count(operation.alloc, outbox.expected())
}

// Accepts a parcel at the next place.
fn accept_next(operation: Arguments<'_>, outbox: &mut Outbox, load: Load) -> Result<(), Stop> {
    let Some(place) = place_of(outbox.dest(), outbox.expected()) else {
        return Err(operation.wrong_kind("fill"));
    };
    match accept_parcel(outbox, Parcel { place, load }) {
        Ok(()) => Ok(()),
        Err(OutboxFault::Memory) => Err(Stop::Memory),
        Err(_) => Err(operation.wrong_kind("fill")),
    }
}

// The counts and the number of a transaction, or null where there is none.
fn sent(alloc: Global, transaction: Option<Transaction<'_>>) -> Answer {
    let Some(transaction) = transaction else {
        return null(alloc);
    };
    Object::new(alloc)
        .with("at_ms", count(alloc, transaction.at_ms))
        .with("edus", count(alloc, transaction.edus.len() as u64))
        .with("number", count(alloc, transaction.number))
        .with("pdus", count(alloc, transaction.pdus.len() as u64))
        .into_answer()
}

fn failed(operation: Arguments<'_>, outbox: &mut Outbox) -> Answer {
    let numbers = operation.wholes("failed")?;
    let [number, now] = *numbers.as_slice() else {
        return Err(operation.wrong_kind("failed"));
    };
    if now > LAST_MOMENT {
        return Err(operation.wrong_kind("failed"));
    }
    truth(operation.alloc, outbox.failed(number, now))
}

fn settle(operation: Arguments<'_>, outbox: &mut Outbox) -> Answer {
    let numbers = operation.wholes("settle")?;
    let [number, status, now] = *numbers.as_slice() else {
        return Err(operation.wrong_kind("settle"));
    };
    let Ok(status) = u16::try_from(status) else {
        return Err(operation.wrong_kind("settle"));
    };
    if now > LAST_MOMENT {
        return Err(operation.wrong_kind("settle"));
    }
    let word = match outbox.settle(number, status, now) {
        Settlement::Settled => "settled",
        Settlement::Ignored => "ignored",
        Settlement::Failed => "failed",
    };
    text(operation.alloc, word)
}

// How many events and how many EDUs are settled.
fn acked(alloc: Global, outbox: &Outbox) -> Answer {
    List::new(alloc)
        .with(count(alloc, outbox.acked()))
        .with(count(alloc, outbox.acked_edus()))
        .into_answer()
}

// What can be seen of an outbox.
fn seen(call: Arguments<'_>, outbox: &Outbox) -> Object {
    with_accepted(call, outbox)
        .with("acked", acked(call.alloc, outbox))
        .with("due_at", count(call.alloc, outbox.due_at()))
        .with("ended", truth(call.alloc, outbox.ended()))
        .with("expected", count(call.alloc, outbox.expected()))
}

// What was accepted, or how many of each.
fn with_accepted(call: Arguments<'_>, outbox: &Outbox) -> Object {
    let (events, edus) = (outbox.accepted(), outbox.accepted_edus());
    let object = Object::new(call.alloc);
    match call.is_set("counts") {
        Ok(true) => object
            .with("accepted", count(call.alloc, events.len() as u64))
            .with("accepted_edus", count(call.alloc, edus.len() as u64)),
        Ok(false) => object
            .with("accepted", event_ids(call.alloc, events))
            .with("accepted_edus", list_of(call.alloc, edus)),
        Err(stop) => object.with("accepted", Err(stop)),
    }
}
