// The parameter at the front of a text.
ghost use Rattle.std.specs.Prelude.{◌≡◌, ◌++◌, ◌∷◌, ◌<◌, ◌≤◌, ◌&&◌, nat_lt, true, false, ℕ, List, Some, None, IfOk, IfSome, IfNone, IsSomeAnd, MatchOption, string_bytes, length, take};
ghost use Rattle.std.specs.List.{list_all};
ghost use Rattle.fed_http.specs.XMatrix.{IsRunOf, IsSignatureText, is_plain, is_name_char};
ghost use Rattle.fed_http.specs.XMatrixParts.{IsEnd, StartsWith, StartsWithValue, quote_index, unescaped, value_of};

use crate::x_matrix::character_runs::{is_delimiter, plain_run};
use crate::x_matrix::quoted::{closing_quote, next_unescaped};
use base64::engine::general_purpose::STANDARD_NO_PAD;
use fed_json::NoMemory;
use std::alloc::Global;

/// The bytes of a signature as unpadded base64.
const SIGNATURE_TEXT: usize = 86;

/// A parameter of a text.
#[derive(Clone, Copy)]
pub struct Parameter<'a> {
    /// Its name, in any case.
    pub name: &'a str,
    /// Its value.
    pub value: Raw<'a>,
}

/// A value as it stands in a text.
#[derive(Clone, Copy)]
pub struct Raw<'a> {
    /// The value, or what stands between its quotes.
    pub text: &'a str,
    /// Whether it stands between quotes.
    pub quoted: bool,
}

/// The parameter at the front of a text, and what stands behind it.
pub fn first_parameter(text: &str) -> Option<(Parameter<'_>, &str)>
    ensures sound { IfSome result (λ first. StartsWith first.0.name.now (value_of first.0.value) first.1.now text.now) }
    ensures complete { (name value rest : List ℕ) → StartsWith name value rest text.now → IsEnd rest
        → IsSomeAnd result (λ first. (first.0.name.now ≡ name) × (value_of first.0.value ≡ value) × (first.1.now ≡ rest)) }
{
    let (name, behind) = text.split_once('=')?;
    if !is_name(name) {
        return None;
    }
    let (value, rest) = first_value(behind)?;
    Some((Parameter { name, value }, rest))
}

fn is_name(text: &str) -> bool
    ensures { result ≡ (nat_lt 0 (length text.now) && list_all is_name_char text.now) }
{
    !text.is_empty() && are_name_chars(text)
}

fn are_name_chars(text: &str) -> bool
    ensures { result ≡ list_all is_name_char text.now }
{
    text.bytes().all(|b| !is_delimiter(b) && b != b'=')
}

// The value at the front of a text.
fn first_value(text: &str) -> Option<(Raw<'_>, &str)>
    ensures sound { IfSome result (λ first. StartsWithValue (value_of first.0) first.1.now text.now) }
    ensures complete { (value rest : List ℕ) → StartsWithValue value rest text.now → IsEnd rest
        → IsSomeAnd result (λ first. (value_of first.0 ≡ value) × (first.1.now ≡ rest)) }
{
    match text.strip_prefix('"') {
        Some(inner) => first_quoted(inner),
        None => first_plain(text),
    }
}

// The value that ends at a quote, which another one begins.
fn first_quoted(text: &str) -> Option<(Raw<'_>, &str)>
    ensures sound { IfSome result (λ first. (first.0.quoted ≡ true) × (quote_index false text.now ≡ Some (length first.0.text.now)) × (text.now ≡ first.0.text.now ++ 34 ∷ first.1.now)) }
    ensures none { IfNone result (quote_index false text.now ≡ None) }
{
    let end = closing_quote(text.as_bytes())?;
    let raw = Raw {
        text: &text[..end],
        quoted: true,
    };
    Some((raw, &text[end + 1..]))
}

// The value that ends where a delimiter stands.
fn first_plain(text: &str) -> Option<(Raw<'_>, &str)>
    ensures sound { IfSome result (λ first. (first.0.quoted ≡ false) × IsRunOf is_plain first.0.text.now × (text.now ≡ first.0.text.now ++ first.1.now) × IsEnd first.1.now) }
    ensures none { IfNone result (IsEnd text.now) }
{
    let end = plain_run(text);
    if end == 0 {
        return None;
    }
    let raw = Raw {
        text: &text[..end],
        quoted: false,
    };
    Some((raw, &text[end..]))
}

impl Raw<'_> {
    /// What the value stands for.
    pub fn to_text(self, alloc: Global) -> Result<String, NoMemory>
        ensures { IfOk result (λ text. string_bytes text ≡ value_of self.entry) }
    {
        if !self.quoted {
            return String::from_str(alloc, self.text);
        }
        let mut bytes = Vec::new(alloc);
        let mut left = self.text.as_bytes();
        while let Some((byte, rest)) = next_unescaped(left) {
            bytes.push(byte)?;
            left = rest;
        }
        match String::from_utf8(bytes) {
            Ok(text) => Ok(text),
            Err(_) => unreachable!(),
        }
    }

    /// The signature that the value is the text of. It takes no memory.
    pub fn signature(self) -> Option<[u8; 64]>
        ensures { MatchOption result ((signature : List ℕ) → IsSignatureText signature (value_of self.entry) → ⊥) (λ signature. IsSignatureText signature (value_of self.entry)) }
    {
        if !self.quoted {
            return signature_of(self.text.as_bytes());
        }
        let mut buffer = [0; SIGNATURE_TEXT];
        let count = unescape(self.text.as_bytes(), &mut buffer)?;
        signature_of(&buffer[..count])
    }
}

// Writes what the text between quotes stands for to the front of a buffer, and tells its length. None where it is longer.
fn unescape(text: &[u8], buffer: &mut [u8; SIGNATURE_TEXT]) -> Option<usize>
    ensures { MatchOption result (86 < length (unescaped false text.now)) (λ count. (count ≤ 86) × (take count buffer.new ≡ unescaped false text.now)) }
{
    let mut count = 0;
    let mut left = text;
    while let Some((byte, rest)) = next_unescaped(left) {
        if count == SIGNATURE_TEXT {
            return None;
        }
        buffer[count] = byte;
        count += 1;
        left = rest;
    }
    Some(count)
}

// The signature that a text is the unpadded base64 of.
fn signature_of(text: &[u8]) -> Option<[u8; 64]>
    ensures { MatchOption result ((signature : List ℕ) → IsSignatureText signature text.now → ⊥) (λ signature. IsSignatureText signature text.now) }
{
    let mut signature = [0; 64];
    let count = STANDARD_NO_PAD.decode_slice(text, &mut signature).ok()?;
    (count == signature.len()).then_some(signature)
}
