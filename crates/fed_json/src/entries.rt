// The members of an object, in the order of their names.
ghost use Rattle.std.specs.Prelude.{◌≡◌, ℕ, length, true, OnOk, OnErr, bytes_eq, string_bytes, option_map};
ghost use Rattle.std.specs.List.Sorted.{IsBinarySearchResult, IsSearchInRange};
ghost use Rattle.serde_json.specs.Data.{put};
ghost use Rattle.serde_json.specs.Find.{get_member};
ghost use Rattle.fed_json.specs.Editing.{drop_member};
ghost use Rattle.fed_json.specs.Profile.{IsWithin, MembersAreWithin, members_rise};
ghost use Rattle.fed_json.specs.Places.{asked};
ghost use Rattle.fed_json.specs.Tree.{view, members_view};

use crate::fault::NoMemory;
use crate::tree::Tree;

// The most members that are looked through one by one: comparing their lengths costs less than a search.
const FEW: usize = 16;

// Where the member of this name stands, or else where it would.
fn place(members: &[(String, Tree)], name: &str) -> Result<usize, usize>
    ensures range { IsSearchInRange result (length members.now) }
    ensures place { IsBinarySearchResult (asked name.now) members.now result }
{
    members.binary_search_by(|member| member.0.as_str().cmp(name))
}

/// The member of this name.
pub(crate) fn member<'a>(members: &'a [(String, Tree)], name: &str) -> Option<&'a Tree>
    requires { members_rise (members_view members.now) ≡ true }
    ensures { option_map (λ t. view t.now) result ≡ get_member name.now (members_view members.now) }
{
    if members.len() <= FEW {
        return among_few(members, name);
    }
    match place(members, name) {
        Ok(at) => Some(&members[at].1),
        Err(_) => None,
    }
}

fn among_few<'a>(members: &'a [(String, Tree)], name: &str) -> Option<&'a Tree>
    ensures { option_map (λ t. view t.now) result ≡ get_member name.now (members_view members.now) }
{
    for (other, member) in members {
        if is_named(other, name) {
            return Some(member);
        }
    }
    None
}

// Whether the text is this name: most others differ in their lengths.
fn is_named(text: &String, name: &str) -> bool
    ensures { result ≡ bytes_eq (string_bytes text.now) name.now }
{
    text.len() == name.len() && text.as_str() == name
}

/// Takes the member of this name out.
pub(crate) fn remove_member(members: &mut Vec<(String, Tree)>, name: &str) -> Option<Tree>
    requires { members_rise (members_view members.old.items) ≡ true }
    ensures taken { option_map view result ≡ get_member name.now (members_view members.old.items) }
    ensures rest { members_view members.new.items ≡ drop_member name.now (members_view members.old.items) }
    ensures within { (n : ℕ) → MembersAreWithin n (members_view members.old.items)
        → MembersAreWithin n (members_view members.new.items) }
{
    match place(members, name) {
        Ok(at) => {
            let (_name, member) = members.remove(at);
            Some(member)
        }
        Err(_) => None,
    }
}

/// Puts a member in, in the place of the one of its name. An error leaves the members as they were.
pub(crate) fn insert_member(
    members: &mut Vec<(String, Tree)>,
    name: String,
    member: Tree,
) -> Result<(), NoMemory>
    requires { members_rise (members_view members.old.items) ≡ true }
    ensures ok { OnOk result (members_view members.new.items
        ≡ put (string_bytes name) (view member) (members_view members.old.items)) }
    ensures err { OnErr result (members.new.items ≡ members.old.items) }
    ensures within { (n : ℕ) → IsWithin n (view member)
        → MembersAreWithin n (members_view members.old.items)
        → MembersAreWithin n (members_view members.new.items) }
{
    match place(members, name.as_str()) {
        Ok(at) => {
            members[at].1 = member;
            Ok(())
        }
        Err(at) => match members.insert(at, (name, member)) {
            Ok(()) => Ok(()),
            Err(_) => Err(NoMemory),
        },
    }
}
