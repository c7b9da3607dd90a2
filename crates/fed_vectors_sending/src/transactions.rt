// Calls on transactions and the replies to them.

use crate::offers::Offers;
use fed_json::{Json, JsonRef};
use fed_outbox::Transaction;
use fed_txn::{ReplyFault, TransactionIn, Verdicts, write_reply};
use fed_vectors_call::{
    Answer, Arguments, Object, Stop, list_of, null, number, text, text_of_bytes,
};
use std::alloc::Global;

pub fn transaction(call: Arguments<'_>) -> Answer {
    let alloc = call.alloc;
    let TransactionIn {
        origin,
        at_ms,
        pdus,
        edus,
    } = match fed_txn::read(alloc, &call.bytes()?) {
        Ok(transaction) => transaction,
        Err(fault) => return Err(Stop::error(format!(in alloc; "{fault}"))),
    };
    Object::new(alloc)
        .with("at_ms", number(alloc, at_ms))
        .with("edus", list_of(alloc, &edus))
        .with("origin", Ok(Json::from(origin)))
        .with("pdus", list_of(alloc, &pdus))
        .into_answer()
}

pub fn write(call: Arguments<'_>) -> Answer {
    write_of(call, &Offers::of(call)?)
}

// The body of the transaction that has all that is offered.
fn write_of(call: Arguments<'_>, offers: &Offers) -> Answer {
    let transaction = Transaction {
        number: call.whole("number")?,
        at_ms: call.moment("at_ms")?,
        pdus: offers.events(),
        edus: offers.edus(),
    };
    let body = fed_txn::write(call.alloc, &transaction, call.text("origin")?)?;
    text_of_bytes(call.alloc, &body)
}

pub fn reply(call: Arguments<'_>) -> Answer {
    let mut verdicts = Verdicts::new(call.alloc);
    for item in call.items("verdicts")? {
        let Some((id, error)) = verdict_in(item) else {
            return Err(call.wrong_kind("verdicts"));
        };
        let error = match error {
            Some(error) => Some(String::from_str(call.alloc, error)?),
            None => None,
        };
        verdicts.insert(String::from_str(call.alloc, id)?, error)?;
    }
    text_of_bytes(call.alloc, &write_reply(call.alloc, &verdicts)?)
}

/// The verdicts of a reply: of each id null, or the text of an error.
pub fn read_reply(call: Arguments<'_>) -> Answer {
    match fed_txn::read_reply(call.alloc, &call.bytes()?) {
        Ok(verdicts) => told_of(call.alloc, &verdicts),
        Err(ReplyFault::Memory) => Err(Stop::Memory),
        Err(fault) => Err(Stop::error(format!(in call.alloc; "{fault}"))),
    }
}

fn told_of(alloc: Global, verdicts: &Verdicts) -> Answer {
    let mut told = Object::new(alloc);
    for (id, error) in verdicts.iter() {
        let verdict = match error {
            Some(error) => text(alloc, error),
            None => null(alloc),
        };
        told = told.with(id, verdict);
    }
    told.into_answer()
}

// The id, and perhaps the error, of `[id]` or `[id, error]`.
fn verdict_in(item: JsonRef<'_>) -> Option<(&str, Option<&str>)> {
    let mut parts = item.items()?;
    if parts.len() > 2 {
        return None;
    }
    let id = parts.next()?.text()?;
    match parts.next() {
        Some(error) => Some((id, Some(error.text()?))),
        None => Some((id, None)),
    }
}
