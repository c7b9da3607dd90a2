// From the parts of a request's head to owned ones.
ghost use Rattle.std.specs.Prelude.{◌≡◌, IfOk, All, IsUtf8, string_bytes, length, map};
ghost use Rattle.httparse.specs.Spans.{IsWithin, IsHeaderWithin, header_bytes, span_bytes};
ghost use Rattle.fed_http.specs.CopyParts.{AreNamed};

use crate::field::Field;
use crate::request::Request;
use fed_json::NoMemory;
use httparse::spans::{HeaderSpan, Span};
use std::alloc::Global;

// The request whose parts are there.
pub fn copy_request(
    alloc: Global,
    bytes: &[u8],
    method: Span,
    target: Span,
    fields: &[HeaderSpan],
    body: Vec<u8>,
) -> Result<Request, NoMemory>
    requires method { IsWithin (length bytes.now) method }
    requires method_text { IsUtf8 (span_bytes bytes.now method) }
    requires target { IsWithin (length bytes.now) target }
    requires target_text { IsUtf8 (span_bytes bytes.now target) }
    requires within { All (IsHeaderWithin (length bytes.now)) fields.now }
    requires names { AreNamed bytes.now fields.now }
    ensures { IfOk result (λ r. r ≡ record { method = span_bytes bytes.now method; target = span_bytes bytes.now target; fields = map (header_bytes bytes.now) fields.now; body = body.items }) }
{
    let method = copy_text(alloc, method.of(bytes))?;
    let target = copy_text(alloc, target.of(bytes))?;
    let fields = copy_fields(alloc, bytes, fields)?;
    Ok(Request::new(method, target, fields, body))
}

// The fields that are there.
fn copy_fields(alloc: Global, bytes: &[u8], fields: &[HeaderSpan]) -> Result<Vec<Field>, NoMemory>
    requires within { All (IsHeaderWithin (length bytes.now)) fields.now }
    requires names { AreNamed bytes.now fields.now }
    ensures { IfOk result (λ copied. copied.items ≡ map (header_bytes bytes.now) fields.now) }
{
    let mut copied = Vec::with_capacity(alloc, fields.len())?;
    for field in fields {
        copied.push(copy_field(alloc, field.name.of(bytes), field.value.of(bytes))?)?;
    }
    Ok(copied)
}

fn copy_field(alloc: Global, name: &[u8], value: &[u8]) -> Result<Field, NoMemory>
    requires name { IsUtf8 name.now }
    ensures { IfOk result (λ field. field ≡ (name.now, value.now)) }
{
    let name = copy_text(alloc, name)?;
    let value = Vec::from_slice(alloc, value)?;
    Ok(Field::new(name, value))
}

fn copy_text(alloc: Global, text: &[u8]) -> Result<String, NoMemory>
    requires text { IsUtf8 text.now }
    ensures { IfOk result (λ copy. string_bytes copy ≡ text.now) }
{
    match std::str::from_utf8(text) {
        Ok(text) => String::from_str(alloc, text),
        Err(_) => unreachable!(),
    }
}
