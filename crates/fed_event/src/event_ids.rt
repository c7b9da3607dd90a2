// The ids of events that a field of an event holds.
ghost use Rattle.std.specs.Prelude.{◌≡◌, true};
ghost use Rattle.std.specs.List.{list_all};
ghost use Rattle.fed_json.specs.Items.{left};
ghost use Rattle.fed_event.specs.Tests.{is_text};

use fed_json::Items;

/// The ids of events in `auth_events` or `prev_events`, from the first that is left on.
#[derive(Clone, Copy)]
pub struct EventIds<'a> {
    items: Items<'a>,
    ghost texts: { list_all is_text (left items) ≡ true },
}

impl<'a> EventIds<'a> {
    ghost use Rattle.std.specs.Prelude.{length, ◌==◌};
    ghost use Rattle.fed_event.specs.Fields.{text_in};
    ghost use Rattle.std.specs.Prelude.{map};
    ghost use Rattle.fed_event.specs.EventIds.{ids_left};

    // The texts of an array of texts.
    pub(crate) fn new(items: Items<'a>) -> EventIds<'a>
        requires { list_all is_text (left items) ≡ true }
        ensures { ids_left result ≡ map text_in (left items.entry) }
    {
        EventIds { items }
    }

    /// How many ids are left.
    pub fn len(&self) -> usize
        ensures { result ≡ length (ids_left self.now) }
    {
        self.items.len()
    }

    /// Whether none is left.
    pub fn is_empty(&self) -> bool
        ensures { result ≡ (length (ids_left self.now) == 0) }
    {
        self.items.is_empty()
    }
}

impl<'a> Iterator for EventIds<'a> {
    ghost use Rattle.std.specs.Iterator.{YieldsFirstRef, item_count};
    ghost use Rattle.fed_event.specs.EventIds.{ids_left};

    type Item = &'a str;

    ghost next_gives = { YieldsFirstRef ids_left };

    ghost remaining = { item_count ids_left };

    fn next(&mut self) -> Option<&'a str> {
        let item = self.items.next()?;
        item.text()
    }
}
