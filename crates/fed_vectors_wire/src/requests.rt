// Calls on the signatures of requests, and on messages as they are written.

use fed_http::{
    AuthFault, Field, Reply, Request, SignFault, XMatrix, signed_request, write_reply,
    write_request,
};
use fed_vectors_call::{Answer, Arguments, Object, Stop, hex_of, text, text_of_bytes};
use fed_vectors_events::KeyRing;
use std::alloc::Global;

/// What the text of an Authorization field says.
pub fn x_matrix(call: Arguments<'_>) -> Answer {
    match XMatrix::read(call.alloc, call.text("text")?) {
        Ok(header) => said(call.alloc, &header),
        Err(AuthFault::Memory) => Err(Stop::Memory),
        Err(fault) => Err(Stop::error(format!(in call.alloc; "{fault}"))),
    }
}

fn said(alloc: Global, header: &XMatrix) -> Answer {
    let said = Object::new(alloc)
        .with("key", text(alloc, header.key()))
        .with("origin", text(alloc, header.origin()))
        .with("sig", hex_of(alloc, header.signature()));
    match header.destination() {
        Some(destination) => said
            .with("destination", text(alloc, destination))
            .into_answer(),
        None => said.into_answer(),
    }
}

/// What is signed of a request.
pub fn request_text(call: Arguments<'_>) -> Answer {
    let body = call.body()?;
    let signed = fed_http::request_text(
        call.alloc,
        call.text("method")?,
        call.text("target")?,
        call.text("origin")?,
        call.text("destination")?,
        &body,
    )?;
    text_of_bytes(call.alloc, &signed)
}

/// What the own server says in the Authorization field of a request with these fields Host.
pub fn sign_request(call: Arguments<'_>) -> Answer {
    let keys = KeyRing::of(call, call.text("own")?)?;
    let request = Request::new(
        call.string("method")?,
        call.string("target")?,
        hosts(call)?,
        call.body()?,
    );
    match fed_http::sign_request(call.alloc, &request, &keys) {
        Ok(header) => said(call.alloc, &header),
        Err(SignFault::Memory) => Err(Stop::Memory),
        Err(fault) => Err(Stop::error(format!(in call.alloc; "{fault}"))),
    }
}

fn hosts(call: Arguments<'_>) -> Result<Vec<Field>, Stop> {
    let mut fields = Vec::new(call.alloc);
    for host in call.strings("hosts")? {
        let name = String::from_str(call.alloc, "Host")?;
        fields.push(Field::new(name, Vec::from_slice(call.alloc, host.as_bytes())?))?;
    }
    Ok(fields)
}

/// The bytes of a signed request.
pub fn written_request(call: Arguments<'_>) -> Answer {
    let keys = KeyRing::of(call, call.text("own")?)?;
    let request = signed(call, &keys)?;
    text_of_bytes(call.alloc, &write_request(call.alloc, &request)?)
}

fn signed(call: Arguments<'_>, keys: &KeyRing) -> Result<Request, Stop> {
    let body = call.body()?;
    Ok(signed_request(
        call.alloc,
        "PUT",
        call.text("target")?,
        call.text("destination")?,
        body,
        keys,
    )?)
}

/// The bytes of a reply.
pub fn written_reply(call: Arguments<'_>) -> Answer {
    let Ok(status) = u16::try_from(call.whole("status")?) else {
        return Err(call.wrong_kind("status"));
    };
    let reply = Reply::new(status, call.bytes()?);
    text_of_bytes(call.alloc, &write_reply(call.alloc, &reply)?)
}
