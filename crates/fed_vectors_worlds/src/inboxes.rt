// Calls on inboxes.

use fed_app::{InboxSetup, SetupFault};
use fed_http::Field;
use fed_inbox::{Inbox, Reply, Taken};
use fed_json::Items;
use fed_replies::{ListStore, PackedStore, ReplyStore};
use fed_vectors_call::{Answer, Arguments, List, Object, Stop, again, number, text_of_bytes};
use fed_vectors_events::KeyRing;
use fed_vectors_events::events::whole_events;
use std::alloc::Global;

/// What an inbox answers to the requests, and what it took, where it keeps its replies in the store that the call names; where it names
/// none, the same of both stores.
pub fn inbox(call: Arguments<'_>) -> Answer {
    if call.find("store").is_some() {
        return match call.text("store")? {
            "list" => told_over(call, ListStore::new(call.alloc)),
            "packed" => told_over(call, PackedStore::new(call.alloc)),
            _ => Err(call.wrong_kind("store")),
        };
    }
    let told = told_over(call, ListStore::new(call.alloc))?;
    if told != told_over(call, PackedStore::new(call.alloc))? {
        return Err(Stop::error(format!(in call.alloc; "the stores differ")));
    }
    Ok(told)
}

// The same of an inbox over this store.
fn told_over<S: ReplyStore + Drop>(call: Arguments<'_>, store: S) -> Answer {
    let InboxSetup {
        own,
        servers,
        rooms,
    } = setup(call)?;
    let mut inbox = Inbox::new(call.alloc, own, servers, rooms, store)?;
    let answers = answers(call, &mut inbox)?;
    Object::of(call.alloc, taken(call, &inbox)?)
        .with("answers", Ok(answers))
        .into_answer()
}

/// The server `own`, the servers that it takes from, and its rooms.
pub(crate) fn setup(call: Arguments<'_>) -> Result<InboxSetup, Stop> {
    let others = call.strings("servers")?;
    let rooms = call.strings("rooms")?;
    match InboxSetup::read(call.alloc, call.text("own")?, &others, rooms) {
        Ok(setup) => Ok(setup),
        Err(SetupFault::Memory) => Err(Stop::Memory),
        Err(fault) => Err(Stop::error(format!(in call.alloc; "{fault}"))),
    }
}

// What was taken from each server.
fn taken<S: ReplyStore>(call: Arguments<'_>, inbox: &Inbox<S>) -> Answer {
    let mut pdus = Object::new(call.alloc);
    let mut edus = Object::new(call.alloc);
    for server in &call.strings("servers")? {
        pdus = pdus.with(server, taken_texts(call.alloc, inbox.taken(server)));
        edus = edus.with(server, taken_texts(call.alloc, inbox.taken_edus(server)));
    }
    Object::new(call.alloc)
        .with("taken", pdus.into_answer())
        .with("taken_edus", edus.into_answer())
        .into_answer()
}

fn answers<S: ReplyStore>(call: Arguments<'_>, inbox: &mut Inbox<S>) -> Answer {
    let keys = KeyRing::of(call, call.text("own")?)?;
    let mut answers = List::new(call.alloc);
    for item in call.items("requests")? {
        let request = Arguments::of(call.alloc, item, "requests")?;
        answers = answers.with(answer_once_more(call, request, inbox, &keys));
    }
    answers.into_answer()
}

// The answer to a request, and the events that it hands out.
fn answer<S: ReplyStore>(request: Arguments<'_>, inbox: &mut Inbox<S>, keys: &KeyRing) -> Answer {
    let leaves = request.is_set("leave")?;
    let told = told_of(request.alloc, &reply(request, inbox, keys)?);
    if leaves {
        return told.into_answer();
    }
    let fresh = whole_events(request.alloc, &inbox.fresh());
    told.with("fresh", fresh).into_answer()
}

// The answer to a request; to one that memory runs out for, when it has come once more.
fn answer_once_more<S: ReplyStore>(
    call: Arguments<'_>,
    request: Arguments<'_>,
    inbox: &mut Inbox<S>,
    keys: &KeyRing,
) -> Answer {
    let first = answer(request, inbox, keys)?;
    if first.root().member("status").and_then(|it| it.whole()) != Some(500) {
        return Ok(first);
    }
    let refused = Object::of(call.alloc, taken(call, inbox)?)
        .with("answer", Ok(first))
        .into_answer();
    again(call.alloc, refused, answer(request, inbox, keys))
}

fn reply<S: ReplyStore>(
    request: Arguments<'_>,
    inbox: &mut Inbox<S>,
    keys: &KeyRing,
) -> Result<Reply, Stop> {
    let body = request.body()?;
    if request.find("target").is_some() {
        let whole = whole(request, body)?;
        return Ok(inbox.answer(request.alloc, &whole, keys));
    }
    let (origin, txn) = (request.text("origin")?, request.text("txn")?);
    Ok(inbox.answer_body(request.alloc, origin, txn, &body, keys))
}

// A request as it comes over HTTP.
fn whole(request: Arguments<'_>, body: Vec<u8>) -> Result<fed_http::Request, Stop> {
    let fields = fields(request)?;
    let method = request.string("method")?;
    let target = request.string("target")?;
    Ok(fed_http::Request::new(method, target, fields, body))
}

// The fields of a list of pairs of names and values.
fn fields(request: Arguments<'_>) -> Result<Vec<Field>, Stop> {
    let mut fields = Vec::new(request.alloc);
    for item in request.items("fields")? {
        let Some((name, value)) = item.items().and_then(pair_in) else {
            return Err(request.wrong_kind("fields"));
        };
        fields.push(field(request.alloc, name, value)?)?;
    }
    Ok(fields)
}

fn field(alloc: Global, name: &str, value: &str) -> Result<Field, Stop> {
    let name = String::from_str(alloc, name)?;
    Ok(Field::new(name, Vec::from_slice(alloc, value.as_bytes())?))
}

// The two texts of a list.
fn pair_in<'a>(mut parts: Items<'a>) -> Option<(&'a str, &'a str)> {
    if parts.len() != 2 {
        return None;
    }
    Some((parts.next()?.text()?, parts.next()?.text()?))
}

// The status and the body.
fn told_of(alloc: Global, reply: &Reply) -> Object {
    Object::new(alloc)
        .with("body", text_of_bytes(alloc, reply.body()))
        .with("status", number(alloc, i64::from(reply.status())))
}

// The list of the texts that were taken.
fn taken_texts(alloc: Global, texts: Taken<'_>) -> Answer {
    let mut list = List::new(alloc);
    for bytes in texts {
        list = list.with(text_of_bytes(alloc, bytes));
    }
    list.into_answer()
}
