// Calls on signatures.

use crate::key_ring::KeyRing;
use fed_event::{Keys, signed_text};
use fed_vectors_call::{Answer, Arguments, hex_of, null, truth};

pub fn sign(call: Arguments<'_>) -> Answer {
    let keys = KeyRing::or_stand_in(call, call.text("own")?)?;
    hex_of(call.alloc, &keys.sign(call.text("text")?.as_bytes()))
}

pub fn check(call: Arguments<'_>) -> Answer {
    let keys = KeyRing::of(call, "")?;
    let Ok(signature) = <[u8; 64]>::try_from(call.hex("signature")?.as_slice()) else {
        return Err(call.wrong_kind("signature"));
    };
    let message = call.text("text")?.as_bytes();
    let is_right = keys.check(call.text("server")?, call.text("key")?, message, &signature);
    truth(call.alloc, is_right)
}

pub fn signature(call: Arguments<'_>) -> Answer {
    match fed_event::signature_of(call.get("value")?) {
        Some(signature) => hex_of(call.alloc, &signature),
        None => null(call.alloc),
    }
}

pub fn is_signed_by(call: Arguments<'_>) -> Answer {
    let keys = KeyRing::of(call, "")?;
    let event = call.value("value")?;
    let signed = signed_text(call.alloc, keys.version(), &event)?;
    let is_signed = fed_event::is_signed_by(&keys, call.text("server")?, &event, &signed);
    truth(call.alloc, is_signed)
}
