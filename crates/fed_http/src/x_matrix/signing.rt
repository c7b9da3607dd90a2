// What is signed for a request, and the request with its signature.
ghost use Rattle.std.specs.Prelude.{◌≡◌, ◌<◌, ◌++◌, ◌∷◌, ℕ, [], length, Some, None, Err, List, IfOk, OnOk, MatchResult};
ghost use Rattle.serde_json.specs.Data.{Data};
ghost use Rattle.fed_json.specs.CanonicalText.{canonical_text, IsCanonicalText};
ghost use Rattle.fed_json.specs.Profile.{IsProfile};
ghost use Rattle.fed_http.specs.XMatrixSigning.{content_member, text_member, signed_bytes, signed_text, signed_value, host_of, header_for, header_of, request_for, request_of, sent_fields};
ghost use Rattle.fed_http.specs.declared.x_matrix.signing.SignFault.TheVariants.{Memory};

use crate::field::Field;
use crate::request::Request;
use crate::x_matrix::XMatrix;
use fed_json::{NoMemory, append_quoted};
use fed_keys::Keys;
use std::alloc::Global;
use thiserror::Error;

/// Why a request is not signed.
#[derive(Clone, Copy, Debug, PartialEq, Eq, Error)]
pub enum SignFault {
    /// Memory ran out.
    #[error("out of memory")]
    Memory,
    /// The request does not say in one field Host which server it is for.
    #[error("no host")]
    NoHost,
}

impl From<NoMemory> for SignFault {
    ghost from_gives = { λ _ fault. fault ≡ Memory };

    fn from(_error: NoMemory) -> SignFault {
        SignFault::Memory
    }
}

/// The bytes that are signed for a request (Server-Server API, "Request Authentication"): an object of its body, its receiver, its method, its
/// sender and its target as it is written, in this order. The body, `content`, is given as its bytes, which stand there as they are; of an
/// empty one there is no `content`. Where the body is a canonical text the result is the canonical JSON of the object; else it is no JSON.
pub fn request_text(
    alloc: Global,
    method: &str,
    target: &str,
    origin: &str,
    destination: &str,
    content: &[u8],
) -> Result<Vec<u8>, NoMemory>
    ensures bytes { IfOk result (λ text. text.items
        ≡ signed_bytes (record { method = method.now; target = target.now; origin = origin.now; destination = destination.now; content = content.now })) }
    ensures exact { (v : Data) → 0 < length content.now → content.now ≡ canonical_text v → IfOk result (λ text. text.items
        ≡ signed_text (record { method = method.now; target = target.now; origin = origin.now; destination = destination.now; content = v })) }
    ensures canonical { (v : Data) → IsProfile v → content.now ≡ canonical_text v → IfOk result (λ text. IsCanonicalText
        (signed_value (record { method = method.now; target = target.now; origin = origin.now; destination = destination.now; content = v })) text.items) }
{
    let mut text = Vec::new(alloc);
    text.push(b'{')?;
    push_content(&mut text, content)?;
    push_member(&mut text, b"\"destination\":", destination)?;
    push_member(&mut text, b",\"method\":", method)?;
    push_member(&mut text, b",\"origin\":", origin)?;
    push_member(&mut text, b",\"uri\":", target)?;
    text.push(b'}')?;
    Ok(text)
}

// Appends the member of a body, unless it is empty.
fn push_content(text: &mut Vec<u8>, content: &[u8]) -> Result<(), NoMemory>
    ensures { OnOk result (text.new.items ≡ text.old.items ++ content_member content.now) }
{
    if content.is_empty() {
        return Ok(());
    }
    text.extend_from_slice(b"\"content\":")?;
    text.extend_from_slice(content)?;
    text.push(b',')?;
    Ok(())
}

// Appends a key and a text as its value.
fn push_member(text: &mut Vec<u8>, key: &[u8], value: &str) -> Result<(), NoMemory>
    ensures { OnOk result (text.new.items ≡ text.old.items ++ text_member key.now value.now) }
{
    text.extend_from_slice(key)?;
    append_quoted(text, value)
}

/// What the own server says in the Authorization field of a request that it sends to the server `destination`: its name, that of the
/// receiver, that of its key, and its signature of the `request_text`.
pub fn sign<K: Keys>(
    alloc: Global,
    method: &str,
    target: &str,
    destination: &str,
    content: &[u8],
    keys: &K,
) -> Result<XMatrix, NoMemory>
    ensures signed { IfOk result (λ h. h
        ≡ header_for (record { method = method.now; target = target.now; origin = K.own_name keys.now; destination = destination.now; content = content.now })
        (K.own_key keys.now) (K.own_signature keys.now)) }
    ensures of_value { (v : Data) → 0 < length content.now → content.now ≡ canonical_text v → IfOk result (λ h. h
        ≡ header_of (record { method = method.now; target = target.now; origin = K.own_name keys.now; destination = destination.now; content = v })
        (K.own_key keys.now) (K.own_signature keys.now)) }
{
    let text = request_text(alloc, method, target, keys.own(), destination, content)?;
    let signature = keys.sign(&text);
    let origin = String::from_str(alloc, keys.own())?;
    let destination = String::from_str(alloc, destination)?;
    let key = String::from_str(alloc, keys.key_name())?;
    Ok(XMatrix::new(origin, Some(destination), key, signature))
}

/// What the own server says in the Authorization field of this request, which it is about to send: as `sign`, to the server that the request's
/// one field Host names.
///
/// # Errors
///
/// `NoHost` where the request has not just one field Host, or its value is not UTF-8; it is told without memory. `Memory` where memory ran
/// out.
pub fn sign_request<K: Keys>(
    alloc: Global,
    request: &Request,
    keys: &K,
) -> Result<XMatrix, SignFault>
    ensures signed { (host : List ℕ) → host_of request.now ≡ Some host → MatchResult result
        (λ h. h ≡ header_for (record { method = request.now.method; target = request.now.target; origin = K.own_name keys.now; destination = host; content = request.now.body })
        (K.own_key keys.now) (K.own_signature keys.now)) (λ fault. fault ≡ SignFault.Memory) }
    ensures no_host { host_of request.now ≡ None → result ≡ Err SignFault.NoHost }
{
    let host = request.only_text("host").ok_or(SignFault::NoHost)?;
    let body = request.body();
    Ok(sign(alloc, request.method(), request.target(), host, body, keys)?)
}

/// Whether the signature of a header checks for a request that came to the server `own`, for the sender and the key that the header names.
/// The receiver in the text that is checked is `own`, also where the header names none.
pub fn is_signed<K: Keys>(
    alloc: Global,
    header: &XMatrix,
    method: &str,
    target: &str,
    own: &str,
    content: &[u8],
    keys: &K,
) -> Result<bool, NoMemory>
    ensures signed { IfOk result (λ checks. checks
        ≡ K.checks keys.now header.now.origin header.now.key
        (signed_bytes (record { method = method.now; target = target.now; origin = header.now.origin; destination = own.now; content = content.now })) header.now.signature) }
    ensures of_value { (v : Data) → 0 < length content.now → content.now ≡ canonical_text v → IfOk result (λ checks. checks
        ≡ K.checks keys.now header.now.origin header.now.key
        (signed_text (record { method = method.now; target = target.now; origin = header.now.origin; destination = own.now; content = v })) header.now.signature) }
{
    let text = request_text(alloc, method, target, header.origin(), own, content)?;
    Ok(keys.check(header.origin(), header.key(), &text, header.signature()))
}

/// The request that the own server sends to the server `destination`, with its signature: the fields Host, Authorization, Content-Type,
/// Content-Length and Connection, in this order, and the body `content`. What is signed is its `request_text`.
pub fn signed_request<K: Keys>(
    alloc: Global,
    method: &str,
    target: &str,
    destination: &str,
    content: Vec<u8>,
    keys: &K,
) -> Result<Request, NoMemory>
    ensures signed { IfOk result (λ r. r
        ≡ request_for (record { method = method.now; target = target.now; origin = K.own_name keys.now; destination = destination.now; content = content.items })
        (K.own_key keys.now) (K.own_signature keys.now)) }
    ensures of_value { (v : Data) → 0 < length content.items → content.items ≡ canonical_text v → IfOk result (λ r. r
        ≡ request_of (record { method = method.now; target = target.now; origin = K.own_name keys.now; destination = destination.now; content = v })
        (K.own_key keys.now) (K.own_signature keys.now)) }
{
    let body = content.as_slice();
    let header = sign(alloc, method, target, destination, body, keys)?.write(alloc)?;
    let fields = fields(alloc, destination, &header, body.len())?;
    let method = String::from_str(alloc, method)?;
    let target = String::from_str(alloc, target)?;
    Ok(Request::new(method, target, fields, content))
}

// The fields of a request with a body of so many bytes.
fn fields(
    alloc: Global,
    host: &str,
    authorization: &[u8],
    count: usize,
) -> Result<Vec<Field>, NoMemory>
    ensures { IfOk result (λ fields. fields.items ≡ sent_fields host.now authorization.now count) }
{
    let mut digits = itoa::Buffer::new();
    let count = digits.format(count);
    let mut fields = Vec::with_capacity(alloc, 5)?;
    push_field(alloc, &mut fields, "Host", host.as_bytes())?;
    push_field(alloc, &mut fields, "Authorization", authorization)?;
    push_field(alloc, &mut fields, "Content-Type", b"application/json")?;
    push_field(alloc, &mut fields, "Content-Length", count.as_bytes())?;
    push_field(alloc, &mut fields, "Connection", b"close")?;
    Ok(fields)
}

// Appends a field of this name and this value.
fn push_field(
    alloc: Global,
    fields: &mut Vec<Field>,
    name: &str,
    value: &[u8],
) -> Result<(), NoMemory>
    ensures { OnOk result (fields.new.items ≡ fields.old.items ++ (name.now, value.now) ∷ []) }
{
    let name = String::from_str(alloc, name)?;
    let value = Vec::from_slice(alloc, value)?;
    fields.push(Field::new(name, value))?;
    Ok(())
}
