// From a transaction to the body that is sent.
ghost use Rattle.std.specs.Prelude.{◌≡◌, ◌++◌, ◌≤◌, IfOk, OnOk, Ok, All, map, length};
ghost use Rattle.fed_json.specs.CanonicalText.{canonical_text};
ghost use Rattle.fed_outbox.specs.Seen.{seen};
ghost use Rattle.fed_txn.specs.Reading.{body_of, read_of};
ghost use Rattle.fed_txn.specs.Writing.{body_value, received, IsWithinLimits, edus_text, header_text, pdus_text, event_of};
ghost use Rattle.fed_txn.specs.WritingParts.{IsWritten, IsWrittenEvent};

use crate::array_text::ArrayText;
use fed_event::Checked;
use fed_json::{Json, NoMemory};
use fed_outbox::Transaction;
use std::alloc::Global;

/// The body of the request that sends a transaction of the server `origin`: the canonical text of the object of `edus`, which is left
/// away where there are none, `origin`, `origin_server_ts` and `pdus` (Server-Server API, "Transactions"). Each event is written once.
///
/// A transaction within the limits is read back from it, with the same lists: `origin` has at most 65,536 bytes, the counts are at
/// most `MAX_PDUS` and `MAX_EDUS`, the time has a canonical text, and an EDU nests at most 100 levels and has at most 65,536 bytes.
pub fn write(
    alloc: Global,
    transaction: &Transaction<'_>,
    origin: &str,
) -> Result<Vec<u8>, NoMemory>
    ensures exact { IfOk result (λ text. text.items ≡ canonical_text (body_value origin.now (seen transaction.now))) }
    ensures body { IfOk result (λ text. IsWithinLimits (seen transaction.now) → length origin.now ≤ 65536
        → body_of text.items ≡ Ok (body_value origin.now (seen transaction.now))) }
    ensures read_back { IfOk result (λ text. IsWithinLimits (seen transaction.now) → length origin.now ≤ 65536
        → read_of text.items ≡ Ok (received origin.now (seen transaction.now))) }
{
    let mut text = Vec::new(alloc);
    text.push(b'{')?;
    let text = with_edus(alloc, text, transaction.edus)?;
    let text = with_header(alloc, text, origin, transaction.at_ms)?;
    let mut text = with_pdus(alloc, text, transaction.pdus)?;
    text.push(b'}')?;
    Ok(text)
}

// A text with the EDUs behind it, where there are some.
fn with_edus(alloc: Global, text: Vec<u8>, edus: &[Json]) -> Result<Vec<u8>, NoMemory>
    ensures text { IfOk result (λ whole. whole.items ≡ text.items ++ edus_text edus.now) }
    ensures each { OnOk result (All IsWritten edus.now) }
{
    if edus.is_empty() {
        return Ok(text);
    }
    let mut text = text;
    text.extend_from_slice(b"\"edus\":")?;
    let mut array = ArrayText::behind(text)?;
    for edu in edus {
        array.add(alloc, edu)?;
    }
    let mut text = array.end()?;
    text.push(b',')?;
    Ok(text)
}

// A text with the sender and the time behind it.
fn with_header(alloc: Global, text: Vec<u8>, origin: &str, at_ms: u64) -> Result<Vec<u8>, NoMemory>
    ensures { IfOk result (λ whole. whole.items ≡ text.items ++ header_text origin.now at_ms) }
{
    let mut text = text;
    let origin = Json::from(String::from_str(alloc, origin)?);
    text.extend_from_slice(b"\"origin\":")?;
    origin.root().append_to(alloc, &mut text)?;
    text.extend_from_slice(b",\"origin_server_ts\":")?;
    let mut digits = itoa::Buffer::new();
    text.extend_from_slice(digits.format(at_ms).as_bytes())?;
    text.push(b',')?;
    Ok(text)
}

// A text with the events behind it.
fn with_pdus(alloc: Global, text: Vec<u8>, pdus: &[Checked]) -> Result<Vec<u8>, NoMemory>
    ensures text { IfOk result (λ whole. whole.items ≡ text.items ++ pdus_text (map event_of pdus.now)) }
    ensures each { OnOk result (All IsWrittenEvent pdus.now) }
{
    let mut text = text;
    text.extend_from_slice(b"\"pdus\":")?;
    let mut array = ArrayText::behind(text)?;
    for event in pdus {
        array.add(alloc, event.event().json())?;
    }
    Ok(array.end()?)
}
