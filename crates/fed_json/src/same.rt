// Whether two values are the same.
ghost use Rattle.std.specs.Prelude.{◌≡◌, ◌↔◌, IsTrue};
ghost use Rattle.std.specs.Cmp.{on_equiv, on_per, partial_equiv_from_equiv};
ghost use Rattle.std.specs.Cmp.Lexicographic.{nat_list_eq_equiv};
ghost use Rattle.fed_json.specs.CanonicalText.{canonical_text, have_one_text};
ghost use Rattle.fed_json.specs.Tree.{view, items_view, members_view};
ghost use Rattle.fed_json.specs.Profile.{IsProfile};

use crate::tree::Tree;
use crate::value::Json;

/// Values are equal where they are the same value: where they have the same canonical text. It takes no memory.
impl PartialEq for Json {
    ghost eq = { have_one_text };

    ghost laws = { on_per canonical_text (partial_equiv_from_equiv nat_list_eq_equiv) };

    fn eq(&self, other: &Json) -> bool
        ensures texts { result ≡ have_one_text self.now other.now }
        ensures same { IsTrue result ↔ (self.now ≡ other.now) }
        ensures one { IsProfile self.now }
        ensures another { IsProfile other.now }
    {
        is_same(&self.value, &other.value)
    }
}

impl Eq for Json {
    ghost laws = { on_equiv canonical_text nat_list_eq_equiv };
}

/// Whether the values are the same.
#[cycle(sameness)]
pub(crate) fn is_same(value: &Tree, other: &Tree) -> bool
    ensures { IsTrue result ↔ (view value.now ≡ view other.now) }
{
    match (value, other) {
        (Tree::Null, Tree::Null) => true,
        (Tree::Bool(one), Tree::Bool(two)) => one == two,
        (Tree::Number(one), Tree::Number(two)) => one == two,
        (Tree::String(one), Tree::String(two)) => one.as_str() == two.as_str(),
        (Tree::Array(one), Tree::Array(two)) => are_same_items(one, two),
        (Tree::Object(one), Tree::Object(two)) => are_same_members(one, two),
        _ => false,
    }
}

#[cycle(sameness)]
fn are_same_items(items: &Vec<Tree>, others: &Vec<Tree>) -> bool
    ensures { IsTrue result ↔ (items_view items.now.items ≡ items_view others.now.items) }
{
    let mut rest = others.iter();
    for item in items {
        let Some(other) = rest.next() else {
            return false;
        };
        if !is_same(item, other) {
            return false;
        }
    }
    rest.next().is_none()
}

#[cycle(sameness)]
fn are_same_members(members: &Vec<(String, Tree)>, others: &Vec<(String, Tree)>) -> bool
    ensures { IsTrue result ↔ (members_view members.now.items ≡ members_view others.now.items) }
{
    let mut rest = others.iter();
    for (name, member) in members {
        let Some((other_name, other)) = rest.next() else {
            return false;
        };
        if name.as_str() != other_name.as_str() {
            return false;
        }
        if !is_same(member, other) {
            return false;
        }
    }
    rest.next().is_none()
}
