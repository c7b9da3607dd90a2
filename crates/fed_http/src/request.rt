// A request.
ghost use Rattle.std.specs.Prelude.{◌≡◌, IfOk, option_and_then, option_map, string_bytes};
ghost use Rattle.fed_http.specs.Framing.{values_of, only_of, if_text};
ghost use Rattle.fed_http.specs.Message.{RequestValue};

use crate::field::Field;
use fed_json::NoMemory;
use std::alloc::Global;
use std::marker::Model;

/// A request (RFC 9112, section 3): its method, its target, its fields in order, and its body.
#[derive(Debug, Drop)]
pub struct Request {
    method: String,
    target: String,
    fields: Vec<Field>,
    body: Vec<u8>,
}

impl Model for Request {
    ghost use Rattle.std.specs.Prelude.{string_bytes};
    ghost use Rattle.fed_http.specs.Message.{RequestValue, request_code};

    ghost Value = { RequestValue };

    ghost coded = { request_code };

    ghost view = { λ r. record { method = string_bytes r.method; target = string_bytes r.target; fields = r.fields.items; body = r.body.items } };
}

impl Request {
    /// The request of these parts. It takes no memory.
    pub fn new(method: String, target: String, fields: Vec<Field>, body: Vec<u8>) -> Request
        ensures { result ≡ record { method = string_bytes method; target = string_bytes target; fields = fields.items; body = body.items } }
    {
        Request {
            method,
            target,
            fields,
            body,
        }
    }

    /// The same request with this body. It takes no memory.
    pub fn with_body(self, body: Vec<u8>) -> Request
        ensures { result ≡ record { method = self.method; target = self.target; fields = self.fields; body = body.items } }
    {
        let Request {
            method,
            target,
            fields,
            body: _,
        } = self;
        Request {
            method,
            target,
            fields,
            body,
        }
    }

    /// The method, as `PUT`.
    pub fn method(&self) -> &str
        ensures { result.now ≡ self.now.method }
    {
        self.method.as_str()
    }

    /// The target, as it was sent: for a server a path and, where there is one, a query (RFC 9112, section 3.2.1).
    pub fn target(&self) -> &str
        ensures { result.now ≡ self.now.target }
    {
        self.target.as_str()
    }

    /// The fields of the head, in order.
    pub fn fields(&self) -> &[Field]
        ensures { result.now ≡ self.now.fields }
    {
        self.fields.as_slice()
    }

    /// The value of the field of this name, in any case of letters, where there is just one.
    pub fn only(&self, name: &str) -> Option<&[u8]>
        ensures { option_map (λ value. value.now) result ≡ only_of (values_of name.now self.now.fields) }
    {
        let mut found = None;
        for field in &self.fields {
            if field.name().eq_ignore_ascii_case(name) {
                if found.is_some() {
                    return None;
                }
                found = Some(field.value());
            }
        }
        found
    }

    /// The value of the field of this name, where there is just one and its value is UTF-8.
    pub fn only_text(&self, name: &str) -> Option<&str>
        ensures { option_map (λ text. text.now) result ≡ option_and_then if_text (only_of (values_of name.now self.now.fields)) }
    {
        text_of(self.only(name)?)
    }

    /// The body.
    pub fn body(&self) -> &[u8]
        ensures { result.now ≡ self.now.body }
    {
        self.body.as_slice()
    }

    /// An equal request.
    pub fn copy(&self, alloc: Global) -> Result<Request, NoMemory>
        ensures { IfOk result (λ copy. copy ≡ self.now) }
    {
        let method = String::from_str(alloc, self.method())?;
        let target = String::from_str(alloc, self.target())?;
        let fields = equal_fields(alloc, self.fields())?;
        let body = Vec::from_slice(alloc, self.body())?;
        Ok(Request::new(method, target, fields, body))
    }
}

// Equal fields in the same order.
fn equal_fields(alloc: Global, fields: &[Field]) -> Result<Vec<Field>, NoMemory>
    ensures { IfOk result (λ copies. copies.items ≡ fields.now) }
{
    let mut copies = Vec::with_capacity(alloc, fields.len())?;
    for field in fields {
        copies.push(field.copy(alloc)?)?;
    }
    Ok(copies)
}

// The text that bytes are.
fn text_of(bytes: &[u8]) -> Option<&str>
    ensures { option_map (λ text. text.now) result ≡ if_text bytes.now }
{
    std::str::from_utf8(bytes).ok()
}
