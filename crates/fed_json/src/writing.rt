// From a value to its text.
ghost use Rattle.std.specs.Prelude.{◌≡◌, ◌∷◌, ◌++◌, false, IfOk, IsUtf8, OnOk, OnErr};
ghost use Rattle.serde_json.specs.Written.{compact_text, comma_if, items_text, members_text};
ghost use Rattle.fed_json.specs.CanonicalText.{canonical_text, IsCanonicalText};
ghost use Rattle.fed_json.specs.Profile.{IsProfile};
ghost use Rattle.fed_json.specs.Reading.{ReadsAs};
ghost use Rattle.fed_json.specs.Tree.{view, items_view, members_view, Begins};

use crate::fault::NoMemory;
use crate::quoted::append_quoted;
use crate::tree::Tree;
use crate::value::Json;
use itoa::Buffer;
use std::alloc::Global;

// The room that a text is given at first: that of a small value.
const FIRST_ROOM: usize = 128;

/// The canonical text of a value, which is UTF-8 and is read as that value again.
pub fn canonical(alloc: Global, json: &Json) -> Result<Vec<u8>, NoMemory>
    ensures exact { IfOk result (λ text. text.items ≡ canonical_text json.now) }
    ensures profile { IsProfile json.now }
    ensures canonical { IfOk result (λ text. IsCanonicalText json.now text.items) }
    ensures reads_back { IfOk result (λ text. ReadsAs text.items json.now) }
{
    let tree = &json.value;
    let mut text = Vec::with_capacity(alloc, FIRST_ROOM)?;
    append(tree, &mut text)?;
    Ok(text)
}

/// Appends the canonical text of the value. After an error `out` holds what it did and perhaps more behind it.
#[cycle(append)]
pub(crate) fn append(tree: &Tree, out: &mut Vec<u8>) -> Result<(), NoMemory>
    ensures ok { OnOk result (out.new.items ≡ out.old.items ++ compact_text (view tree.now)) }
    ensures utf8 { OnOk result (IsUtf8 (compact_text (view tree.now))) }
    ensures err { OnErr result (Begins out.old.items out.new.items) }
{
    match tree {
        Tree::Null => out.extend_from_slice(b"null"),
        Tree::Bool(true) => out.extend_from_slice(b"true"),
        Tree::Bool(false) => out.extend_from_slice(b"false"),
        Tree::Number(whole) => out.extend_from_slice(Buffer::new().format(*whole).as_bytes()),
        Tree::String(text) => append_quoted(out, text.as_str()),
        Tree::Array(items) => append_items(items, out),
        Tree::Object(members) => append_members(members, out),
    }
}

#[cycle(append)]
fn append_items(items: &Vec<Tree>, out: &mut Vec<u8>) -> Result<(), NoMemory>
    ensures ok { OnOk result (out.new.items ≡ out.old.items ++ 91 ∷ items_text false (items_view items.now.items)) }
    ensures utf8 { OnOk result (IsUtf8 (91 ∷ items_text false (items_view items.now.items))) }
    ensures err { OnErr result (Begins out.old.items out.new.items) }
{
    out.push(b'[')?;
    let mut is_later = false;
    for item in items {
        append_comma(is_later, out)?;
        append(item, out)?;
        is_later = true;
    }
    out.push(b']')?;
    Ok(())
}

#[cycle(append)]
fn append_members(members: &Vec<(String, Tree)>, out: &mut Vec<u8>) -> Result<(), NoMemory>
    ensures ok { OnOk result (out.new.items ≡ out.old.items ++ 123 ∷ members_text false (members_view members.now.items)) }
    ensures utf8 { OnOk result (IsUtf8 (123 ∷ members_text false (members_view members.now.items))) }
    ensures err { OnErr result (Begins out.old.items out.new.items) }
{
    out.push(b'{')?;
    let mut is_later = false;
    for (name, member) in members {
        append_comma(is_later, out)?;
        append_quoted(out, name.as_str())?;
        out.push(b':')?;
        append(member, out)?;
        is_later = true;
    }
    out.push(b'}')?;
    Ok(())
}

// A comma before each item and member but the first. An error leaves `out` as it was.
fn append_comma(is_later: bool, out: &mut Vec<u8>) -> Result<(), NoMemory>
    ensures ok { OnOk result (out.new.items ≡ out.old.items ++ comma_if is_later) }
    ensures err { OnErr result (out.new.items ≡ out.old.items) }
{
    if is_later {
        out.push(b',')?;
    }
    Ok(())
}
