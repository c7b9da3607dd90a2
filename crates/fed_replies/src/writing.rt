// Replies that are written verdict by verdict.
ghost use Rattle.std.specs.Prelude.{◌≡◌, ◌∷◌, ◌++◌, None, Some, OnOk, codes};
ghost use Rattle.serde_json.specs.Data.{string};
ghost use Rattle.fed_json.specs.CanonicalText.{canonical_text, comma};
ghost use Rattle.fed_replies.specs.Plain.{IsPlain};
ghost use Rattle.fed_replies.specs.ReplyText.{key_text, member_text, verdict_text};

use crate::error_text::ErrorText;
use crate::hash_id::Symbols;
use crate::plain::plain_length;
use fed_json::{Json, NoMemory, canonical};
use std::alloc::Global;

/// Appends the verdict about an event that was accepted, by the characters behind the sigil of its id.
pub(crate) fn write_accepted(
    out: &mut Vec<u8>,
    later: bool,
    symbols: &Symbols,
) -> Result<(), NoMemory>
    requires { IsPlain symbols.now }
    ensures { OnOk result (out.new.items ≡ out.old.items ++ member_text later (36 ∷ symbols.now, None)) }
{
    write_key(out, later, symbols)?;
    out.extend_from_slice(b"{}")?;
    Ok(())
}

/// Appends the verdict about an event that has failed, by the characters behind the sigil of its id.
pub(crate) fn write_failed(
    out: &mut Vec<u8>,
    later: bool,
    symbols: &Symbols,
    error: &ErrorText,
) -> Result<(), NoMemory>
    requires { IsPlain symbols.now }
    ensures { OnOk result (out.new.items ≡ out.old.items ++ member_text later (36 ∷ symbols.now, Some error.now)) }
{
    write_key(out, later, symbols)?;
    out.extend_from_slice(error.verdict())?;
    Ok(())
}

// Appends an id with its colon, and before it a comma where it is a later one.
fn write_key(out: &mut Vec<u8>, later: bool, symbols: &Symbols) -> Result<(), NoMemory>
    requires { IsPlain symbols.now }
    ensures { OnOk result (out.new.items ≡ out.old.items ++ (comma later ++ key_text (36 ∷ symbols.now))) }
{
    let key = key_of(symbols);
    if later {
        out.extend_from_slice(&key)?;
        return Ok(());
    }
    out.extend_from_slice(&key[1..])?;
    Ok(())
}

// A comma and an id with its colon: one copy writes them all.
fn key_of(symbols: &Symbols) -> [u8; 48]
    ensures { result ≡ codes ",\"$" ++ (symbols.now ++ codes "\":") }
{
    let mut key = *b",\"$0123456789012345678901234567890123456789012\":";
    key[3..46].copy_from_slice(symbols);
    key
}

/// Appends the verdict about an event that has failed, as it stands behind the colon.
pub(crate) fn write_error(alloc: Global, out: &mut Vec<u8>, text: &str) -> Result<(), NoMemory>
    ensures { OnOk result (out.new.items ≡ out.old.items ++ verdict_text (Some text.now)) }
{
    out.extend_from_slice(b"{\"error\":")?;
    write_text(alloc, out, text)?;
    out.extend_from_slice(b"}")?;
    Ok(())
}

// Appends a text in quotes.
fn write_text(alloc: Global, out: &mut Vec<u8>, text: &str) -> Result<(), NoMemory>
    ensures { OnOk result (out.new.items ≡ out.old.items ++ canonical_text (string text.now)) }
{
    if plain_length(text.as_bytes()) == text.len() {
        return write_plain(out, text.as_bytes());
    }
    let text = canonical(alloc, &Json::from(String::from_str(alloc, text)?))?;
    out.extend_from_slice(&text)?;
    Ok(())
}

// Appends a plain text in quotes.
fn write_plain(out: &mut Vec<u8>, text: &[u8]) -> Result<(), NoMemory>
    requires { IsPlain text.now }
    ensures { OnOk result (out.new.items ≡ out.old.items ++ canonical_text (string text.now)) }
{
    out.extend_from_slice(b"\"")?;
    out.extend_from_slice(text)?;
    out.extend_from_slice(b"\"")?;
    Ok(())
}
