// From what `serde_json` reads to a value as it is kept.
ghost use Rattle.std.specs.Prelude.{◌≡◌, true, IfOk};
ghost use Rattle.serde_json.specs.View.{view as read_view, items_view as read_items, members_view as read_members};
ghost use Rattle.fed_json.specs.Profile.{all_whole, items_whole, members_whole};
ghost use Rattle.fed_json.specs.Tree.{view, items_view, members_view};

use crate::fault::NoMemory;
use crate::tree::Tree;
use serde_json::{Map, Value};
use std::alloc::Global;

/// The value as it is kept, whose texts are moved.
#[cycle(planting)]
pub(crate) fn planted(alloc: Global, value: Value) -> Result<Tree, NoMemory>
    requires { all_whole (read_view value) ≡ true }
    ensures { IfOk result (λ t. view t ≡ read_view value) }
{
    match value {
        Value::Null => Ok(Tree::Null),
        Value::Bool(flag) => Ok(Tree::Bool(flag)),
        Value::Number(number) => match number.as_i64() {
            Some(whole) => Ok(Tree::Number(whole)),
            None => unreachable!(),
        },
        Value::String(text) => Ok(Tree::String(text)),
        Value::Array(items) => Ok(Tree::Array(planted_items(alloc, items)?)),
        Value::Object(members) => Ok(Tree::Object(planted_members(alloc, members)?)),
    }
}

#[cycle(planting)]
fn planted_items(alloc: Global, items: Vec<Value>) -> Result<Vec<Tree>, NoMemory>
    requires { items_whole (read_items items.items) ≡ true }
    ensures { IfOk result (λ v. items_view v.items ≡ read_items items.items) }
{
    let mut kept = Vec::with_capacity(alloc, items.len())?;
    for item in items {
        kept.push(planted(alloc, item)?)?;
    }
    Ok(kept)
}

#[cycle(planting)]
fn planted_members(
    alloc: Global,
    members: Map<String, Value>,
) -> Result<Vec<(String, Tree)>, NoMemory>
    requires { members_whole (read_members members.entries) ≡ true }
    ensures { IfOk result (λ v. members_view v.items ≡ read_members members.entries) }
{
    let mut kept = Vec::with_capacity(alloc, members.len())?;
    for (name, member) in members {
        kept.push((name, planted(alloc, member)?))?;
    }
    Ok(kept)
}
