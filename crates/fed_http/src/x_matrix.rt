//! Request authentication by the scheme X-Matrix (Server-Server API, "Request Authentication"): what the Authorization field of a request
//! says, how it is read and written, and what is signed.
//!
//! - `XMatrix`, what the field says
//! - `x_matrix_ref`: `XMatrixRef`, the same as it stands in the text of the field
//! - `named_values`: `NamedValues`, the values of the four parameters that count
//! - `parameter`: the parameter at the front of a text, and its value
//! - `quoted`: values between quotes, read and written
//! - `character_runs`: runs of characters at the front of a text
//! - `separator`: what stands in front of parameters and between them
//! - `signing`: the text that is signed for a request, and the request with its signature
//! - `laws`: what holds of all Authorization fields and signatures
ghost use Rattle.std.specs.Prelude.{◌≡◌, ◌++◌, length, Err, IfOk, OnOk, IsErrOf, option_map, string_bytes};
ghost use Rattle.base64.specs.GeneralPurpose.{IsBytes};
ghost use Rattle.fed_http.specs.XMatrixWriting.{destination_text, header_text};
ghost use Rattle.fed_http.specs.XMatrix.{XMatrixValue, IsXMatrix};
ghost use Rattle.fed_http.specs.declared.x_matrix.AuthFault.TheVariants.{Memory};

mod character_runs;
mod laws;
mod named_values;
mod parameter;
mod quoted;
mod separator;
mod signing;
mod x_matrix_ref;

use base64::engine::general_purpose::STANDARD_NO_PAD;
use fed_json::NoMemory;
pub use laws::{one_header, signed_requests_are_read, signed_requests_check};
use quoted::push_quoted;
pub use signing::{SignFault, is_signed, request_text, sign, sign_request, signed_request};
use std::alloc::Global;
use std::marker::Model;
use thiserror::Error;
use x_matrix_ref::XMatrixRef;

/// Who sends a request, to whom, and the signature of the sender (Server-Server API, "Request Authentication").
///
/// The text of an Authorization field holds one where it is the scheme `X-Matrix` in any case, one space or more, and parameters
/// `name=value`, between which stands a comma with spaces and tabs around it or not; nothing stands behind the last. A name has
/// at least one character and none of comma, space, tab, quote and `=`. A value is such a run too, in which `=` may stand, or any text
/// between quotes, in which a backslash takes the next character as it is. Of the names, in any case, `origin`, `key` and `sig` have to
/// be there and `destination` may be, each once, and others count for nothing. `sig` is the unpadded standard base64 of 64 bytes.
#[derive(Drop)]
pub struct XMatrix {
    origin: String,
    destination: Option<String>,
    key: String,
    signature: [u8; 64],
}

impl Model for XMatrix {
    ghost use Rattle.std.specs.Prelude.{option_map, string_bytes};
    ghost use Rattle.fed_http.specs.XMatrix.{XMatrixValue, x_matrix_code};

    ghost Value = { XMatrixValue };

    ghost coded = { x_matrix_code };

    ghost view = { λ h. record { origin = string_bytes h.origin; destination = option_map string_bytes h.destination; key = string_bytes h.key; signature = h.signature } };

    ghost use Rattle.std.specs.Prelude.{◌≡◌, length};
    ghost use Rattle.base64.specs.GeneralPurpose.{IsBytes};

    ghost invariant = { λ h. IsBytes h.signature × (length h.signature ≡ 64) };
}

impl XMatrix {
    /// Of these parts.
    pub fn new(
        origin: String,
        destination: Option<String>,
        key: String,
        signature: [u8; 64],
    ) -> XMatrix
        ensures { result ≡ record { origin = string_bytes origin; destination = option_map string_bytes destination; key = string_bytes key; signature = signature } }
    {
        XMatrix {
            origin,
            destination,
            key,
            signature,
        }
    }

    /// What the text of an Authorization field says. That it says nothing of the kind is told without memory.
    ///
    /// # Errors
    ///
    /// `BadHeader` where the text is none of this scheme and grammar. `Memory` where memory ran out.
    pub fn read(alloc: Global, text: &str) -> Result<XMatrix, AuthFault>
        ensures ok { IfOk result (IsXMatrix text.now) }
        ensures bad { IsErrOf result AuthFault.BadHeader → (h : XMatrixValue) → IsXMatrix text.now h → ⊥ }
        ensures refuses { ((h : XMatrixValue) → IsXMatrix text.now h → ⊥) → result ≡ Err AuthFault.BadHeader }
        ensures only { (h : XMatrixValue) → IsXMatrix text.now h → IfOk result (λ x. x ≡ h) }
    {
        let said = XMatrixRef::of(text).ok_or(AuthFault::BadHeader)?;
        Ok(said.keep(alloc)?)
    }

    /// The text of an Authorization field that says this: scheme, origin, destination where there is one, key and signature, each value
    /// between quotes. It is read as this again.
    pub fn write(&self, alloc: Global) -> Result<Vec<u8>, NoMemory>
        ensures exact { IfOk result (λ text. text.items ≡ header_text self.now) }
        ensures read_back { IfOk result (λ text. IsXMatrix text.items self.now) }
    {
        let signature = STANDARD_NO_PAD.encode(alloc, self.signature())?;
        let mut text = Vec::new(alloc);
        text.extend_from_slice(b"X-Matrix origin=")?;
        push_quoted(&mut text, self.origin().as_bytes())?;
        push_destination(&mut text, self.destination())?;
        text.extend_from_slice(b",key=")?;
        push_quoted(&mut text, self.key().as_bytes())?;
        text.extend_from_slice(b",sig=")?;
        push_quoted(&mut text, signature.as_bytes())?;
        Ok(text)
    }

    /// The name of the server that sends.
    pub fn origin(&self) -> &str
        ensures { result.now ≡ self.now.origin }
    {
        self.origin.as_str()
    }

    /// The name of the server that it is sent to, where the field says it.
    pub fn destination(&self) -> Option<&str>
        ensures { option_map (λ name. name.now) result ≡ self.now.destination }
    {
        match &self.destination {
            Some(name) => Some(name.as_str()),
            None => None,
        }
    }

    /// The name of the sender's key.
    pub fn key(&self) -> &str
        ensures { result.now ≡ self.now.key }
    {
        self.key.as_str()
    }

    /// The signature by this key.
    pub fn signature(&self) -> &[u8; 64]
        ensures value { result.now ≡ self.now.signature }
        ensures bytes { IsBytes self.now.signature }
        ensures count { length self.now.signature ≡ 64 }
    {
        &self.signature
    }
}

// Appends the parameter of the destination, where there is one.
fn push_destination(text: &mut Vec<u8>, destination: Option<&str>) -> Result<(), NoMemory>
    ensures { OnOk result (text.new.items ≡ text.old.items ++ destination_text (option_map (λ name. name.now) destination.entry)) }
{
    match destination {
        Some(name) => {
            text.extend_from_slice(b",destination=")?;
            push_quoted(text, name.as_bytes())
        }
        None => Ok(()),
    }
}

/// Why the text of an Authorization field was not read.
#[derive(Clone, Copy, Debug, PartialEq, Eq, Error)]
pub enum AuthFault {
    /// Memory ran out.
    #[error("out of memory")]
    Memory,
    /// It is none of the scheme `X-Matrix` and of its grammar.
    #[error("bad authorization header")]
    BadHeader,
}

impl From<NoMemory> for AuthFault {
    ghost from_gives = { λ _ e. e ≡ Memory };

    fn from(_error: NoMemory) -> AuthFault {
        Self::Memory
    }
}
