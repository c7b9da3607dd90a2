// The items of an array.
ghost use Rattle.std.specs.Prelude.{◌≡◌, ◌≤◌, true};
ghost use Rattle.serde_json.specs.Data.{items_depth};
ghost use Rattle.serde_json.specs.Read.{max_depth};
ghost use Rattle.fed_json.specs.Tree.{items_view};
ghost use Rattle.fed_json.specs.Profile.{items_whole, items_rise};

use crate::json_ref::JsonRef;
use crate::tree::Tree;

/// The items of an array inside a `Json`, from the first that is left on.
#[derive(Clone, Copy)]
pub struct Items<'a> {
    values: &'a [Tree],
    ghost whole: { items_whole (items_view values.now) ≡ true },
    ghost rising: { items_rise (items_view values.now) ≡ true },
    ghost shallow: { items_depth (items_view values.now) ≤ max_depth },
}

impl<'a> Items<'a> {
    ghost use Rattle.std.specs.Prelude.{length, map, ◌==◌};
    ghost use Rattle.fed_json.specs.Tree.{view};
    ghost use Rattle.fed_json.specs.Profile.{AreWithin};
    ghost use Rattle.fed_json.specs.Items.{left};

    // The items of a part of a `Json`.
    pub(crate) fn new(values: &'a [Tree]) -> Items<'a>
        requires { AreWithin max_depth (items_view values.now) }
        ensures { left result ≡ map view values.now }
    {
        Items { values }
    }

    /// How many items are left.
    pub fn len(&self) -> usize
        ensures { result ≡ length (left self.now) }
    {
        self.values.len()
    }

    /// Whether none is left.
    pub fn is_empty(&self) -> bool
        ensures { result ≡ (length (left self.now) == 0) }
    {
        self.values.is_empty()
    }
}

impl<'a> Iterator for Items<'a> {
    ghost use Rattle.std.specs.Iterator.{YieldsFirstBy, item_count};
    ghost use Rattle.fed_json.specs.JsonRef.{seen};
    ghost use Rattle.fed_json.specs.Items.{left};

    type Item = JsonRef<'a>;

    ghost next_gives = { YieldsFirstBy seen left };

    ghost remaining = { item_count left };

    fn next(&mut self) -> Option<JsonRef<'a>> {
        let (value, others) = self.values.split_first()?;
        self.values = others;
        Some(JsonRef { value })
    }
}
