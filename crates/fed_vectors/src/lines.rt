// From the line of a call to the line of its answer.

use fed_json::{Json, JsonFault, MAX_LEVELS, canonical, read_within};
use fed_vectors_call::{Answer, Arguments, Object, Stop};
use fed_vectors_events::{events, signatures, values};
use fed_vectors_rooms::{rooms, table_rooms};
use fed_vectors_rules::{authorization, resolution};
use fed_vectors_sending::{journals, outboxes, servers, transactions};
use fed_vectors_wire::{requests, streams};
use fed_vectors_worlds::{inboxes, printed};
use std::alloc::Global;

/// The line, without its end, that answers the call of a line.
pub(crate) fn answer_line(alloc: Global, line: &[u8]) -> Result<Vec<u8>, Stop> {
    let outcome = match answer(alloc, line) {
        Ok(value) => holding(alloc, "ok", value),
        Err(stop) => Err(stop),
    };
    match outcome {
        Ok(text) => Ok(text),
        Err(Stop::Error(text)) => holding(alloc, "error", Json::from(text)),
        Err(Stop::Wrong(text)) => holding(alloc, "wrong", Json::from(text)),
        Err(Stop::Memory) => Err(Stop::Memory),
    }
}

// The canonical text of an object of one member.
fn holding(alloc: Global, name: &str, value: Json) -> Result<Vec<u8>, Stop> {
    let object = Object::new(alloc).with(name, Ok(value)).into_answer()?;
    Ok(canonical(alloc, &object)?)
}

fn answer(alloc: Global, line: &[u8]) -> Answer {
    let object = match read_within(alloc, line, MAX_LEVELS) {
        Ok(object) => object,
        Err(JsonFault::Memory) => return Err(Stop::Memory),
        Err(fault) => return Err(Stop::wrong(format!(in alloc; "{fault}"))),
    };
    let call = Arguments::of(alloc, object.root(), "line")?;
    answer_call(call.text("call")?, call)
}

fn answer_call(name: &str, call: Arguments<'_>) -> Answer {
    match name {
        "canonical" => values::canonical(call),
        "redact" => values::redact(call),
        "signed_text" => values::signed_text(call),
        "event_id" => values::event_id(call),
        "content_hash" => values::content_hash(call),
        "texts" => values::texts(call),
        "domain" => events::domain(call),
        "user_id" => events::user_id(call),
        "event" => events::event(call),
        "fields" => events::fields(call),
        "check_in" => events::check_in(call),
        "seal" => events::seal(call),
        _ => answer_later_call(name, call),
    }
}

// The calls above events, and those on signatures.
fn answer_later_call(name: &str, call: Arguments<'_>) -> Answer {
    match name {
        "sign" => signatures::sign(call),
        "check" => signatures::check(call),
        "signature" => signatures::signature(call),
        "is_signed_by" => signatures::is_signed_by(call),
        "transaction" => transactions::transaction(call),
        "reply" => transactions::reply(call),
        "inbox" => inboxes::inbox(call),
        "run" => printed::run(call),
        "allowed" => authorization::allowed(call),
        "auth_state" => authorization::auth_state(call),
        "selection" => authorization::selection(call),
        "started" => rooms::started(call),
        "room" => rooms::room(call),
        "waiting" => rooms::waiting(call),
        "table_room" => table_rooms::table_room(call),
        _ => answer_sending_call(name, call),
    }
}

// The calls on servers and on what is sent to them.
fn answer_sending_call(name: &str, call: Arguments<'_>) -> Answer {
    match name {
        "server_name" => servers::server_name(call),
        "servers" => servers::servers(call),
        "destinations" => servers::destinations(call),
        "journal" => journals::journal(call),
        "outbox" => outboxes::outbox(call),
        "write" => transactions::write(call),
        _ => answer_message_call(name, call),
    }
}

// The calls on messages that servers send each other.
fn answer_message_call(name: &str, call: Arguments<'_>) -> Answer {
    match name {
        "read_reply" => transactions::read_reply(call),
        "stream" => streams::stream(call),
        "x_matrix" => requests::x_matrix(call),
        "request_text" => requests::request_text(call),
        "sign_request" => requests::sign_request(call),
        "write_request" => requests::written_request(call),
        "write_reply" => requests::written_reply(call),
        "resolution" => resolution::resolution(call),
        "script" => printed::script(call),
        _ => Err(Stop::wrong(String::from_str(call.alloc, "unknown call"))),
    }
}
