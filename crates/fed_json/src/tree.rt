// A value as it is kept.
ghost use Rattle.std.specs.Prelude.{◌≡◌, IfOk};
ghost use Rattle.fed_json.specs.Tree.{view, items_view, members_view};

use std::alloc::AllocError;

/// A JSON value of whole numbers, which owns its parts. An object is a list of its members, each name once, in the order of the names:
/// most objects of an event have one member or two, and one list of just so many takes a fraction of what a node of a map does.
#[derive(Drop)]
pub(crate) enum Tree {
    Null,
    Bool(bool),
    Number(i64),
    String(String),
    Array(Vec<Tree>),
    Object(Vec<(String, Tree)>),
}

impl Tree {
    ghost use Rattle.std.specs.Borrow.{LendsIf, sem};
    ghost use Rattle.std.specs.Prelude.{option_map};
    ghost use Rattle.serde_json.specs.Find.{as_array, as_object};
    ghost use Rattle.fed_json.specs.contracts.tree.Tree.{the_row};
    ghost use Rattle.fed_json.specs.declared.tree.Tree.{Array, Object};
    ghost use Rattle.fed_json.specs.Rows.{items_row, members_row};

    /// The members, where this is an object.
    pub(crate) fn members_mut(&mut self) -> Option<&mut Vec<(String, Tree)>>
        ensures* writes_back { sem 𝓛 (LendsIf the_row members_row self.entry result Object self.old) }
        ensures value { option_map (λ m. members_view m.now.items) result ≡ as_object (view self.old) }
    {
        if let Tree::Object(members) = self {
            Some(members)
        } else {
            None
        }
    }

    /// The items, where this is an array.
    pub(crate) fn items_mut(&mut self) -> Option<&mut Vec<Tree>>
        ensures* writes_back { sem 𝓛 (LendsIf the_row items_row self.entry result Array self.old) }
        ensures value { option_map (λ v. items_view v.now.items) result ≡ as_array (view self.old) }
    {
        if let Tree::Array(items) = self {
            Some(items)
        } else {
            None
        }
    }
}

impl Clone for Tree {
    ghost is_clone = { λ t u. view u ≡ view t };

    fn clone(&self) -> Result<Tree, AllocError> {
        copy(self)
    }
}

#[cycle(copy)]
fn copy(tree: &Tree) -> Result<Tree, AllocError>
    ensures { IfOk result (λ t. view t ≡ view tree.now) }
{
    match tree {
        Tree::Null => Ok(Tree::Null),
        Tree::Bool(flag) => Ok(Tree::Bool(*flag)),
        Tree::Number(whole) => Ok(Tree::Number(*whole)),
        Tree::String(text) => Ok(Tree::String(text.clone()?)),
        Tree::Array(items) => Ok(Tree::Array(copy_items(items)?)),
        Tree::Object(members) => Ok(Tree::Object(copy_members(members)?)),
    }
}

#[cycle(copy)]
fn copy_items(items: &Vec<Tree>) -> Result<Vec<Tree>, AllocError>
    ensures { IfOk result (λ v. items_view v.items ≡ items_view items.now.items) }
{
    let mut copies = Vec::with_capacity(*items.allocator(), items.len())?;
    for item in items {
        copies.push(copy(item)?)?;
    }
    Ok(copies)
}

#[cycle(copy)]
fn copy_members(members: &Vec<(String, Tree)>) -> Result<Vec<(String, Tree)>, AllocError>
    ensures { IfOk result (λ v. members_view v.items ≡ members_view members.now.items) }
{
    let mut copies = Vec::with_capacity(*members.allocator(), members.len())?;
    for (name, member) in members {
        copies.push((name.clone()?, copy(member)?))?;
    }
    Ok(copies)
}
