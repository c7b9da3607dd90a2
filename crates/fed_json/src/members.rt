// The members of an object.
ghost use Rattle.std.specs.Prelude.{◌≡◌, ◌≤◌, true};
ghost use Rattle.serde_json.specs.Data.{members_depth};
ghost use Rattle.serde_json.specs.Read.{max_depth};
ghost use Rattle.fed_json.specs.Tree.{members_view};
ghost use Rattle.fed_json.specs.Profile.{members_whole, members_rise};

use crate::json_ref::JsonRef;
use crate::tree::Tree;

/// The members of an object inside a `Json`, from the first that is left on, in the order of their keys.
#[derive(Clone, Copy)]
pub struct Members<'a> {
    entries: &'a [(String, Tree)],
    ghost whole: { members_whole (members_view entries.now) ≡ true },
    ghost rising: { members_rise (members_view entries.now) ≡ true },
    ghost shallow: { members_depth (members_view entries.now) ≤ max_depth },
}

impl<'a> Members<'a> {
    ghost use Rattle.fed_json.specs.Profile.{MembersAreWithin};
    ghost use Rattle.fed_json.specs.Members.{members_left};
    ghost use Rattle.fed_json.specs.JsonRef.{pairs_of};

    // The members of a part of a `Json`.
    pub(crate) fn new(members: &'a [(String, Tree)]) -> Members<'a>
        requires { MembersAreWithin max_depth (members_view members.now) }
        ensures { members_left result ≡ pairs_of (members_view members.now) }
    {
        Members { entries: members }
    }
}

impl<'a> Iterator for Members<'a> {
    ghost use Rattle.std.specs.Iterator.{YieldsFirstBy, item_count};
    ghost use Rattle.fed_json.specs.Members.{members_left, pair_seen};

    type Item = (&'a str, JsonRef<'a>);

    ghost next_gives = { YieldsFirstBy pair_seen members_left };

    ghost remaining = { item_count members_left };

    fn next(&mut self) -> Option<(&'a str, JsonRef<'a>)> {
        let (first, others) = self.entries.split_first()?;
        self.entries = others;
        let (name, value) = first;
        Some((name.as_str(), JsonRef { value }))
    }
}
