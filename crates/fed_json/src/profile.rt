// The walk over a value that tells whether all its numbers are whole, and how deep it nests.
ghost use Rattle.std.specs.Prelude.{◌≡◌, ◌<◌, ◌^◌, IfSome, IfNone, false};
ghost use Rattle.serde_json.specs.Data.{depth, items_depth, members_depth};
ghost use Rattle.serde_json.specs.View.{view, number_view, items_view, members_view};
ghost use Rattle.fed_json.specs.Profile.{is_whole, all_whole, items_whole, members_whole};
ghost use Rattle.fed_json.specs.Nesting.{IsNesting, IsItemsNesting, IsMembersNesting};

use serde_json::{Map, Number, Value};

const LARGEST: u64 = (1 << 53) - 1;

const LEAST: i64 = -((1 << 53) - 1);

fn is_whole_number(number: &Number) -> bool
    ensures { result ≡ is_whole (number_view number.now) }
{
    if let Some(n) = number.as_u64() {
        return n <= LARGEST;
    }
    match number.as_i64() {
        Some(n) => LEAST <= n && n < 0,
        None => false,
    }
}

/// How deep the value nests, or `None` where a number in it is not whole.
#[cycle(nesting)]
pub(crate) fn nesting(value: &Value) -> Option<usize>
    requires { depth (view value.now) < 2 ^ 64 }
    ensures some { IfSome result (IsNesting (view value.now)) }
    ensures none { IfNone result (all_whole (view value.now) ≡ false) }
{
    match value {
        Value::Null => Some(0),
        Value::Bool(_) => Some(0),
        Value::Number(n) => { if is_whole_number(n) { Some(0) } else { None } }
        Value::String(_) => Some(0),
        Value::Array(items) => Some(items_nesting(items)? + 1),
        Value::Object(members) => Some(members_nesting(members)? + 1),
    }
}

#[cycle(nesting)]
fn items_nesting(items: &Vec<Value>) -> Option<usize>
    requires { items_depth (items_view items.now.items) < 2 ^ 64 }
    ensures some { IfSome result (IsItemsNesting (items_view items.now.items)) }
    ensures none { IfNone result (items_whole (items_view items.now.items) ≡ false) }
{
    let mut deepest = 0;
    for item in items {
        let depth = nesting(item)?;
        deepest = depth.max(deepest);
    }
    Some(deepest)
}

#[cycle(nesting)]
fn members_nesting(members: &Map<String, Value>) -> Option<usize>
    requires { members_depth (members_view members.now.entries) < 2 ^ 64 }
    ensures some { IfSome result (IsMembersNesting (members_view members.now.entries)) }
    ensures none { IfNone result (members_whole (members_view members.now.entries) ≡ false) }
{
    let mut deepest = 0;
    for (_key, member) in members.iter() {
        let depth = nesting(member)?;
        deepest = depth.max(deepest);
    }
    Some(deepest)
}
