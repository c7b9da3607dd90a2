// From messages to their bytes.
ghost use Rattle.std.specs.Prelude.{◌≡◌, ◌≤◌, ◌++◌, length, IfOk, OnOk};
ghost use Rattle.std.specs.List.{flat_map};
ghost use Rattle.fed_http.specs.Text.{IsReplyText, IsRequestText};
ghost use Rattle.fed_http.specs.Writing.{IsWritable, IsWritableReply, field_line, line_end, phrase_of, reply_bytes, request_bytes, status_line};

use crate::field::Field;
use crate::reply::Reply;
use crate::request::Request;
use fed_json::NoMemory;
use http::StatusCode;
use std::alloc::Global;

/// The bytes of a request (RFC 9112, section 3): its request line with the version HTTP/1.1, its fields as they stand, an empty line and
/// its body. Lines end in CR LF. Where the request has a head and a body that are within the limits and of the grammar, and one
/// Content-Length that is the body's, it is read back from them.
pub fn write_request(alloc: Global, request: &Request) -> Result<Vec<u8>, NoMemory>
    ensures exact { IfOk result (λ bytes. bytes.items ≡ request_bytes request.now) }
    ensures read_back { IsWritable request.now → IfOk result (λ bytes. IsRequestText request.now bytes.items) }
{
    let mut text = Vec::new(alloc);
    text.extend_from_slice(request.method().as_bytes())?;
    text.push(b' ')?;
    text.extend_from_slice(request.target().as_bytes())?;
    text.extend_from_slice(b" HTTP/1.1\r\n")?;
    push_fields(&mut text, request.fields())?;
    push_body(&mut text, request.body())?;
    Ok(text)
}

/// The bytes of a reply (RFC 9112, section 4): its status line, the fields Content-Type, Content-Length and Connection, an empty line and
/// its body. The phrase of a status that has none (RFC 9110, section 15) is empty. Where the status is from 200 to 999 and the body within
/// its limit, the reply is read back from them.
pub fn write_reply(alloc: Global, reply: &Reply) -> Result<Vec<u8>, NoMemory>
    ensures exact { IfOk result (λ bytes. bytes.items ≡ reply_bytes reply.now) }
    ensures read_back { IsWritableReply reply.now → IfOk result (λ bytes. IsReplyText reply.now bytes.items) }
{
    let body = reply.body();
    let mut digits = itoa::Buffer::new();
    let count = digits.format(body.len());
    let mut text = Vec::new(alloc);
    push_status_line(&mut text, reply.status())?;
    push_field(&mut text, "Content-Type", b"application/json")?;
    push_field(&mut text, "Content-Length", count.as_bytes())?;
    push_field(&mut text, "Connection", b"close")?;
    push_body(&mut text, body)?;
    Ok(text)
}

// Appends the status line of a reply.
fn push_status_line(text: &mut Vec<u8>, status: u16) -> Result<(), NoMemory>
    ensures { OnOk result (text.new.items ≡ text.old.items ++ status_line status (phrase_of status)) }
{
    let mut digits = itoa::Buffer::new();
    text.extend_from_slice(b"HTTP/1.1 ")?;
    text.extend_from_slice(digits.format(status).as_bytes())?;
    text.push(b' ')?;
    text.extend_from_slice(phrase(status).as_bytes())?;
    text.extend_from_slice(b"\r\n")
}

/// The phrase of a status (RFC 9110, section 15), as `Not Found` for 404, and empty where it has none. It is the one that the crate `http`
/// has, which for 413 is the older `Payload Too Large`. It takes no memory, and has at most 64 bytes.
pub fn phrase(status: u16) -> &'static str
    ensures phrase { result.now ≡ phrase_of status }
    ensures short { length result.now ≤ 64 }
{
    match StatusCode::from_u16(status) {
        Ok(status) => status.canonical_reason().unwrap_or(""),
        Err(_) => "",
    }
}

// Appends the lines of fields.
fn push_fields(text: &mut Vec<u8>, fields: &[Field]) -> Result<(), NoMemory>
    ensures { OnOk result (text.new.items ≡ text.old.items ++ flat_map field_line fields.now) }
{
    for field in fields {
        push_field(text, field.name(), field.value())?;
    }
    Ok(())
}

// Appends the line of a field.
fn push_field(text: &mut Vec<u8>, name: &str, value: &[u8]) -> Result<(), NoMemory>
    ensures { OnOk result (text.new.items ≡ text.old.items ++ field_line (name.now, value.now)) }
{
    text.extend_from_slice(name.as_bytes())?;
    text.extend_from_slice(b": ")?;
    text.extend_from_slice(value)?;
    text.extend_from_slice(b"\r\n")
}

// Appends an empty line and a body.
fn push_body(text: &mut Vec<u8>, body: &[u8]) -> Result<(), NoMemory>
    ensures { OnOk result (text.new.items ≡ text.old.items ++ (line_end ++ body.now)) }
{
    text.extend_from_slice(b"\r\n")?;
    text.extend_from_slice(body)
}
