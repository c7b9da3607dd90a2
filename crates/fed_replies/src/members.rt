// The verdicts about packed events, written one after another.
ghost use Rattle.std.specs.Prelude.{◌≡◌, ◌++◌, false, OnOk};
ghost use Rattle.fed_replies.specs.Pieces.{AreNumbered, HasText, verdict_by, verdicts_of};
ghost use Rattle.fed_replies.specs.ReplyText.{member_text, members_text};

use crate::hash_id::Hash;
use crate::marks::number_of;
use crate::pieces::Event;
use crate::symbols::SymbolPairs;
use crate::text_table::TextTable;
use crate::writing::{write_accepted, write_failed};
use fed_json::NoMemory;

/// Appends the verdicts about events, of which these are the numbers that their marks have no room for.
pub(crate) fn write_members(
    out: &mut Vec<u8>,
    events: &[Event],
    numbers: &[u16],
    texts: &TextTable,
    pairs: &SymbolPairs,
) -> Result<(), NoMemory>
    requires { AreNumbered texts.now events.now numbers.now }
    ensures { OnOk result (out.new.items ≡ out.old.items ++ members_text false (verdicts_of texts.now events.now numbers.now)) }
{
    let mut left = numbers;
    let mut later = false;
    for event in events {
        let (number, behind) = number_of(event.mark, left);
        write_member(out, later, &event.hash, number, texts, pairs)?;
        left = behind;
        later = true;
    }
    Ok(())
}

// Appends the verdict about an event, by the number of its error's text where it has failed.
fn write_member(
    out: &mut Vec<u8>,
    later: bool,
    hash: &Hash,
    number: Option<u16>,
    texts: &TextTable,
    pairs: &SymbolPairs,
) -> Result<(), NoMemory>
    requires { HasText texts.now number }
    ensures { OnOk result (out.new.items ≡ out.old.items ++ member_text later (verdict_by texts.now hash.now number)) }
{
    let symbols = pairs.symbols_of(hash);
    match number {
        None => write_accepted(out, later, &symbols),
        Some(number) => write_failed(out, later, &symbols, texts.text(number)),
    }
}
