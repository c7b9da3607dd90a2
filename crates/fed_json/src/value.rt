// A value that owns its parts.
ghost use Rattle.std.specs.Prelude.{◌≡◌, ℕ, true, ◌↔◌, IsTrue, ◌<◌, ◌≤◌, ◌^◌, IfOk, OnOk, OnErr, IsSome, Some, string_bytes, option_map, map};
ghost use Rattle.serde_json.specs.Data.{depth, unsigned, number, string, array, no_items, object, no_members, put};
ghost use Rattle.serde_json.specs.Read.{max_depth};
ghost use Rattle.serde_json.specs.Find.{as_str, as_object, get, of_integer};
ghost use Rattle.fed_json.specs.JsonRef.{seen, as_whole, as_items, as_members};
ghost use Rattle.fed_json.specs.Items.{left};
ghost use Rattle.fed_json.specs.Members.{members_left};
ghost use Rattle.fed_json.specs.Tree.{items_view, view as value_view};
ghost use Rattle.fed_json.specs.Profile.{AreWithin, IsWithin, is_whole};
ghost use Rattle.fed_json.specs.Editing.{without, with_member, with_item, item_after};

use crate::entries::{insert_member, remove_member};
use crate::fault::NoMemory;
use crate::items::Items;
use crate::json_ref::JsonRef;
use crate::members::Members;
use crate::tree::Tree;
use std::alloc::Global;
use std::marker::Model;

/// A JSON value whose numbers are all whole, from -(2^53)+1 to 2^53-1, and that nests at most 127 levels deep.
///
/// Contracts see it as the value that it stands for.
#[derive(Drop)]
pub struct Json {
    pub(crate) value: Tree,
}

impl Model for Json {
    ghost use Rattle.serde_json.specs.Data.{Data};
    ghost use Rattle.serde_json.specs.Read.{max_depth};
    ghost use Rattle.fed_json.specs.Tree.{view as value_view};
    ghost use Rattle.fed_json.specs.Code.{coded_data};
    ghost use Rattle.fed_json.specs.Profile.{IsWithin};

    ghost Value = { Data };

    ghost coded = { coded_data };

    ghost view = { λ j. value_view j.value };

    ghost invariant = { λ j. IsWithin max_depth (value_view j.value) };
}

impl Json {
    /// An object without members.
    pub fn empty_object(alloc: Global) -> Json
        ensures { result ≡ object no_members }
    {
        Json {
            value: Tree::Object(Vec::new(alloc)),
        }
    }

    /// An array without items.
    pub fn empty_array(alloc: Global) -> Json
        ensures { result ≡ array no_items }
    {
        Json {
            value: Tree::Array(Vec::new(alloc)),
        }
    }

    /// A whole number from 0 to 2^53-1.
    pub fn from_whole(whole: u64) -> Json
        requires { whole < 2 ^ 53 }
        ensures { result ≡ number (unsigned whole) }
    {
        Json {
            value: Tree::Number(whole as i64),
        }
    }

    /// A whole number from -(2^53)+1 to 2^53-1.
    pub fn from_signed(signed: i64) -> Json
        requires { is_whole (of_integer signed) ≡ true }
        ensures { result ≡ number (of_integer signed) }
    {
        Json {
            value: Tree::Number(signed),
        }
    }

    /// The value, to look into.
    pub fn root(&self) -> JsonRef<'_>
        ensures { seen result ≡ self.now }
    {
        JsonRef { value: &self.value }
    }

    /// The member of this name, where this is an object that has one.
    pub fn member(&self, name: &str) -> Option<JsonRef<'_>>
        ensures { option_map seen result ≡ get name.now self.now }
    {
        self.root().member(name)
    }

    /// The text, where this is one.
    pub fn text(&self) -> Option<&str>
        ensures { option_map (λ s. s.now) result ≡ as_str self.now }
    {
        self.root().text()
    }

    /// The number, where this is one.
    pub fn whole(&self) -> Option<i64>
        ensures { result ≡ as_whole self.now }
    {
        self.root().whole()
    }

    /// The items, where this is an array.
    pub fn items(&self) -> Option<Items<'_>>
        ensures { option_map left result ≡ as_items self.now }
    {
        self.root().items()
    }

    /// The members, where this is an object.
    pub fn members(&self) -> Option<Members<'_>>
        ensures { option_map members_left result ≡ as_members self.now }
    {
        self.root().members()
    }

    /// Whether this is an object.
    pub fn is_object(&self) -> bool
        ensures { IsTrue result ↔ IsSome (as_object self.now) }
    {
        self.root().is_object()
    }

    /// Whether this is an array.
    pub fn is_array(&self) -> bool
        ensures { IsTrue result ↔ IsSome (as_items self.now) }
    {
        self.root().is_array()
    }

    /// How deep the value nests: 0 for a text, a number, a truth value and null, 1 for an empty array or object, and for any
    /// other one more than its deepest member.
    pub fn depth(&self) -> usize
        ensures value { result ≡ depth self.now }
        ensures bound { result ≤ max_depth }
    {
        self.root().depth()
    }

    /// Takes the member of this name out, where this is an object that has one.
    pub fn take(&mut self, name: &str) -> Option<Json>
        ensures taken { result ≡ get name.now self.old }
        ensures rest { self.new ≡ without name.now self.old }
    {
        let value = remove_member(self.value.members_mut()?, name)?;
        Some(Json { value })
    }

    /// Puts a member into an object, in the place of the one of that name; another value stays as it is. An error leaves the
    /// value as it was.
    pub fn put(&mut self, name: String, member: Json) -> Result<(), NoMemory>
        requires { depth member < max_depth }
        ensures ok { OnOk result (self.new ≡ with_member (string_bytes name) member self.old) }
        ensures err { OnErr result (self.new ≡ self.old) }
    {
        let Json { value } = member;
        if let Some(members) = self.value.members_mut() {
            insert_member(members, name, value)?;
        }
        Ok(())
    }

    /// Adds an item at the end of an array; another value stays as it is. An error leaves the value as it was.
    pub fn push(&mut self, item: Json) -> Result<(), NoMemory>
        requires { depth item < max_depth }
        ensures ok { OnOk result (self.new ≡ with_item item self.old) }
        ensures err { OnErr result (self.new ≡ self.old) }
    {
        let Json { value } = item;
        if let Some(items) = self.value.items_mut() {
            push_item(items, value)?;
        }
        Ok(())
    }

    /// The items of an array, each moved out of it.
    pub fn into_items(self, alloc: Global) -> Result<Vec<Json>, NoMemory>
        requires { IsSome (as_items self) }
        ensures { IfOk result (λ v. Some v.items ≡ as_items self) }
    {
        let Json { value } = self;
        match value {
            Tree::Array(values) => wrapped(alloc, values),
            _ => unreachable!(),
        }
    }

    /// An equal value.
    pub fn copy(&self) -> Result<Json, NoMemory>
        ensures { IfOk result (λ j. j ≡ self.now) }
    {
        let value = self.value.clone()?;
        Ok(Json { value })
    }
}

impl From<String> for Json {
    ghost from_gives = { λ s j. j ≡ string (string_bytes s) };

    fn from(text: String) -> Json {
        Json {
            value: Tree::String(text),
        }
    }
}

// An error leaves the items as they were.
fn push_item(items: &mut Vec<Tree>, value: Tree) -> Result<(), NoMemory>
    ensures ok { OnOk result (items_view items.new.items ≡ item_after (value_view value) (items_view items.old.items)) }
    ensures err { OnErr result (items.new.items ≡ items.old.items) }
    ensures within { (n : ℕ) → IsWithin n (value_view value) → AreWithin n (items_view items.old.items)
        → AreWithin n (items_view items.new.items) }
{
    items.push(value)?;
    Ok(())
}

// Each value as a `Json`.
fn wrapped(alloc: Global, values: Vec<Tree>) -> Result<Vec<Json>, NoMemory>
    requires { AreWithin max_depth (items_view values.items) }
    ensures { IfOk result (λ v. v.items ≡ map value_view values.items) }
{
    let mut items = Vec::with_capacity(alloc, values.len())?;
    for value in values {
        items.push(Json { value })?;
    }
    Ok(items)
}
