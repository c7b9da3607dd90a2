// How deep a value nests.
ghost use Rattle.std.specs.Prelude.{◌≡◌, ◌<◌, ◌^◌};
ghost use Rattle.serde_json.specs.Data.{depth, items_depth, members_depth};
ghost use Rattle.fed_json.specs.Tree.{view, items_view, members_view};

use crate::tree::Tree;

/// How deep the value nests.
#[cycle(depth)]
pub(crate) fn depth(tree: &Tree) -> usize
    requires { depth (view tree.now) < 2 ^ 64 }
    ensures { result ≡ depth (view tree.now) }
{
    match tree {
        Tree::Array(items) => items_depth(items) + 1,
        Tree::Object(members) => members_depth(members) + 1,
        _ => 0,
    }
}

#[cycle(depth)]
fn items_depth(items: &Vec<Tree>) -> usize
    requires { items_depth (items_view items.now.items) < 2 ^ 64 }
    ensures { result ≡ items_depth (items_view items.now.items) }
{
    let mut deepest = 0;
    for item in items {
        deepest = depth(item).max(deepest);
    }
    deepest
}

#[cycle(depth)]
fn members_depth(members: &Vec<(String, Tree)>) -> usize
    requires { members_depth (members_view members.now.items) < 2 ^ 64 }
    ensures { result ≡ members_depth (members_view members.now.items) }
{
    let mut deepest = 0;
    for (_name, member) in members {
        deepest = depth(member).max(deepest);
    }
    deepest
}
