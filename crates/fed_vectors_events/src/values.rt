// Calls on values: their canonical text, what redaction leaves of them, their hashes.

use crate::key_ring::room_version;
use fed_event::Texts;
use fed_json::{Json, MAX_LEVELS, read_within};
use fed_vectors_call::{Answer, Arguments, Object, Stop, text, text_of_bytes};

pub fn canonical(call: Arguments<'_>) -> Answer {
    let levels = match call.find("levels") {
        Some(_) => call.whole("levels")? as usize,
        None => MAX_LEVELS,
    };
    if levels > MAX_LEVELS {
        return Err(call.wrong_kind("levels"));
    }
    match read_within(call.alloc, &call.bytes()?, levels) {
        Ok(value) => text_of_bytes(call.alloc, &fed_json::canonical(call.alloc, &value)?),
        Err(fault) => Err(Stop::error(format!(in call.alloc; "{fault}"))),
    }
}

pub fn redact(call: Arguments<'_>) -> Answer {
    let version = room_version(call)?;
    Ok(fed_event::redact(call.alloc, version, &call.value("value")?)?)
}

pub fn signed_text(call: Arguments<'_>) -> Answer {
    let version = room_version(call)?;
    let signed = fed_event::signed_text(call.alloc, version, &call.value("value")?)?;
    text_of_bytes(call.alloc, &signed)
}

pub fn event_id(call: Arguments<'_>) -> Answer {
    let version = room_version(call)?;
    let id = fed_event::event_id(call.alloc, version, &call.value("value")?)?;
    text(call.alloc, id.as_str())
}

pub fn content_hash(call: Arguments<'_>) -> Answer {
    let hash = fed_event::content_hash(call.alloc, &call.value("value")?)?;
    Ok(Json::from(hash))
}

pub fn texts(call: Arguments<'_>) -> Answer {
    let version = room_version(call)?;
    let texts = Texts::of(call.alloc, version, &call.value("value")?)?;
    Object::new(call.alloc)
        .with("covered", text_of_bytes(call.alloc, texts.covered()))
        .with("signed", text_of_bytes(call.alloc, texts.signed()))
        .with("whole", text_of_bytes(call.alloc, texts.whole()))
        .into_answer()
}
