// A text in quotes.
ghost use Rattle.std.specs.Prelude.{◌≡◌, ◌==◌, ◌<◌, ◌≤◌, [], ◌∷◌, ◌++◌, true, nat_lt, length, OnOk, OnErr};
ghost use Rattle.std.specs.Char.{digit_char};
ghost use Rattle.json.specs.Print.{escape, escape_byte, escape_letter, quoted};
ghost use Rattle.fed_json.specs.PlainTexts.{ArePlain, HasNone};
ghost use Rattle.fed_json.specs.Tree.{Begins};

use crate::fault::NoMemory;
use std::simd::prelude::*;

/// Appends a text in quotes, as canonical JSON writes it: each character as it stands, but for quotes, backslashes and those below U+0020
/// (appendix "Canonical JSON", "Grammar"). After an error `out` holds what it did and perhaps more behind it.
pub fn append_quoted(out: &mut Vec<u8>, text: &str) -> Result<(), NoMemory>
    ensures ok { OnOk result (out.new.items ≡ out.old.items ++ quoted text.now) }
    ensures err { OnErr result (Begins out.old.items out.new.items) }
{
    let bytes = text.as_bytes();
    out.push(b'"')?;
    if is_plain(bytes) {
        out.extend_from_slice(bytes)?;
    } else {
        append_escaped(out, bytes)?;
    }
    out.push(b'"')?;
    Ok(())
}

// Whether a text stands in quotes as it is: many bytes are looked at at once, and then what is left.
fn is_plain(text: &[u8]) -> bool
    ensures { result ≡ true → escape text.now ≡ text.now }
{
    let mut at = 0;
    while text.len() - at >= 16 {
        if !is_plain_run::<16>(Simd::from_slice(&text[at..])) {
            return false;
        }
        at += 16;
    }
    is_plain_end(text, at)
}

#[inline(always)]
fn is_plain_run<const N: usize>(run: Simd<u8, N>) -> bool
    requires { N ≤ 64 }
    ensures { result ≡ true → HasNone (λ x. x == 34) run.entry × HasNone (λ x. x == 92) run.entry × HasNone (λ x. nat_lt x 32) run.entry }
{
    let quotes = run.simd_eq(Simd::splat(b'"')).to_bitmask();
    let backslashes = run.simd_eq(Simd::splat(b'\\')).to_bitmask();
    let controls = run.simd_lt(Simd::splat(0x20)).to_bitmask();
    if quotes != 0 || backslashes != 0 {
        return false;
    }
    controls == 0
}

// The last bytes, fewer than 16.
fn is_plain_end(text: &[u8], from: usize) -> bool
    requires within { from ≤ length text.now }
    requires plain { ArePlain text.now from }
    ensures { result ≡ true → escape text.now ≡ text.now }
{
    if text.len() - from < 8 {
        return is_plain_from(text, from);
    }
    is_plain_run::<8>(Simd::from_slice(&text[from..])) && is_plain_from(text, from + 8)
}

fn is_plain_from(text: &[u8], from: usize) -> bool
    requires within { from ≤ length text.now }
    requires plain { ArePlain text.now from }
    ensures { result ≡ true → escape text.now ≡ text.now }
{
    for at in from..text.len() {
        if !is_plain_byte(text[at]) {
            return false;
        }
    }
    true
}

#[tactic(auto, unfolding(json::specs::Print::escape_byte))]
fn is_plain_byte(byte: u8) -> bool
    ensures { result ≡ true → escape_byte byte ≡ byte ∷ [] }
{
    byte >= 0x20 && byte != b'"' && byte != b'\\'
}

fn append_escaped(out: &mut Vec<u8>, text: &[u8]) -> Result<(), NoMemory>
    ensures ok { OnOk result (out.new.items ≡ out.old.items ++ escape text.now) }
    ensures err { OnErr result (Begins out.old.items out.new.items) }
{
    for byte in text {
        append_byte(out, *byte)?;
    }
    Ok(())
}

// A byte of a text as it stands in quotes. An error leaves `out` as it was.
#[tactic(auto, unfolding(json::specs::Print::escape_byte))]
fn append_byte(out: &mut Vec<u8>, byte: u8) -> Result<(), NoMemory>
    ensures ok { OnOk result (out.new.items ≡ out.old.items ++ escape_byte byte) }
    ensures err { OnErr result (out.new.items ≡ out.old.items) }
{
    let letter = escape_letter(byte);
    if letter > 0 {
        return out.extend_from_slice(&[b'\\', letter]);
    }
    if byte < 0x20 {
        let (high, low) = (digit(byte / 16), digit(byte % 16));
        return out.extend_from_slice(&[b'\\', b'u', b'0', b'0', high, low]);
    }
    out.extend_from_slice(&[byte])
}

// The letter of a byte's short escape, or 0 where it has none.
fn escape_letter(byte: u8) -> u8
    ensures { result ≡ escape_letter byte }
{
    match byte {
        b'"' | b'\\' => byte,
        0x08 => b'b',
        0x0C => b'f',
        b'\n' => b'n',
        b'\r' => b'r',
        b'\t' => b't',
        _ => 0,
    }
}

// The lower-case hexadecimal digit.
fn digit(value: u8) -> u8
    requires { value < 16 }
    ensures { result ≡ digit_char value }
{
    if value < 10 {
        b'0' + value
    } else {
        b'a' + (value - 10)
    }
}
