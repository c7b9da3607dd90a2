// A look into a value.
ghost use Rattle.std.specs.Prelude.{◌≡◌, ◌≤◌, ◌++◌, true, OnOk, OnErr};
ghost use Rattle.serde_json.specs.Data.{depth};
ghost use Rattle.serde_json.specs.Read.{max_depth};
ghost use Rattle.fed_json.specs.Tree.{view};
ghost use Rattle.fed_json.specs.Profile.{all_whole, keys_rise};

use crate::depth::depth;
use crate::entries;
use crate::fault::NoMemory;
use crate::items::Items;
use crate::members::Members;
use crate::tree::Tree;
use crate::value::Json;
use crate::writing::append;
use std::alloc::Global;

/// A value inside a `Json`.
#[derive(Clone, Copy)]
pub struct JsonRef<'a> {
    pub(crate) value: &'a Tree,
    ghost whole: { all_whole (view value.now) ≡ true },
    ghost rising: { keys_rise (view value.now) ≡ true },
    ghost shallow: { depth (view value.now) ≤ max_depth },
}

impl<'a> JsonRef<'a> {
    ghost use Rattle.std.specs.Prelude.{option_map, ◌↔◌, ◌++◌, IsTrue, IsSome, IfOk, OnOk, OnErr};
    ghost use Rattle.serde_json.specs.Find.{as_bool, as_str, as_object, get};
    ghost use Rattle.fed_json.specs.CanonicalText.{canonical_text};
    ghost use Rattle.fed_json.specs.Reading.{ReadsAs};
    ghost use Rattle.fed_json.specs.JsonRef.{seen, as_whole, as_items, as_members};
    ghost use Rattle.fed_json.specs.Items.{left};
    ghost use Rattle.fed_json.specs.Members.{members_left};

    /// The member of this name, where this is an object that has one.
    pub fn member(self, name: &str) -> Option<JsonRef<'a>>
        ensures { option_map seen result ≡ get name.now (seen self.entry) }
    {
        match self.value {
            Tree::Object(members) => {
                let value = entries::member(members, name)?;
                Some(JsonRef { value })
            }
            _ => None,
        }
    }

    /// The text, where this is one.
    pub fn text(self) -> Option<&'a str>
        ensures { option_map (λ s. s.now) result ≡ as_str (seen self.entry) }
    {
        match self.value {
            Tree::String(text) => Some(text.as_str()),
            _ => None,
        }
    }

    /// The boolean, where this is one.
    pub fn boolean(self) -> Option<bool>
        ensures { result ≡ as_bool (seen self.entry) }
    {
        match self.value {
            Tree::Bool(flag) => Some(*flag),
            _ => None,
        }
    }

    /// The number, where this is one.
    pub fn whole(self) -> Option<i64>
        ensures { result ≡ as_whole (seen self.entry) }
    {
        match self.value {
            Tree::Number(whole) => Some(*whole),
            _ => None,
        }
    }

    /// The items, where this is an array.
    pub fn items(self) -> Option<Items<'a>>
        ensures { option_map left result ≡ as_items (seen self.entry) }
    {
        match self.value {
            Tree::Array(items) => Some(Items::new(items)),
            _ => None,
        }
    }

    /// The members, where this is an object.
    pub fn members(self) -> Option<Members<'a>>
        ensures { option_map members_left result ≡ as_members (seen self.entry) }
    {
        match self.value {
            Tree::Object(members) => Some(Members::new(members)),
            _ => None,
        }
    }

    /// Whether this is an object.
    pub fn is_object(self) -> bool
        ensures { IsTrue result ↔ IsSome (as_object (seen self.entry)) }
    {
        self.members().is_some()
    }

    /// Whether this is an array.
    pub fn is_array(self) -> bool
        ensures { IsTrue result ↔ IsSome (as_items (seen self.entry)) }
    {
        self.items().is_some()
    }

    /// An equal value that owns its parts.
    pub fn to_json(self) -> Result<Json, NoMemory>
        ensures { IfOk result (λ j. j ≡ seen self.entry) }
    {
        let value = self.value.clone()?;
        Ok(Json { value })
    }

    /// Appends the canonical text of the value, which is UTF-8 and is read as the value again. An error leaves `out` as it was.
    pub fn append_to(self, _alloc: Global, out: &mut Vec<u8>) -> Result<(), NoMemory>
        ensures ok { OnOk result
            (out.new.items ≡ out.old.items ++ canonical_text (seen self.entry)) }
        ensures reads_back { OnOk result (ReadsAs (canonical_text (seen self.entry)) (seen self.entry)) }
        ensures err { OnErr result (out.new.items ≡ out.old.items) }
    {
        let len = out.len();
        let written = append(self.value, out);
        if written.is_err() {
            out.truncate(len);
        }
        written
    }

    /// How deep the value nests.
    pub fn depth(self) -> usize
        ensures value { result ≡ depth (seen self.entry) }
        ensures bound { result ≤ max_depth }
    {
        depth(self.value)
    }
}
