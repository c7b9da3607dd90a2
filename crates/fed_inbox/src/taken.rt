// What was taken from an origin, one text after another.
ghost use Rattle.std.specs.Prelude.{◌≡◌};
ghost use Rattle.fed_inbox.specs.TextList.{joined};

use crate::text_list::{TextList, Texts};

/// The texts that were taken from an origin, in order, from the first that is left on.
#[derive(Clone, Copy)]
pub struct Taken<'a> {
    lists: &'a [TextList],
    texts: Texts<'a>,
}

impl<'a> Taken<'a> {
    ghost use Rattle.fed_inbox.specs.Taken.{taken_left};

    // The texts of these lists.
    pub(crate) fn of(lists: &'a [TextList]) -> Taken<'a>
        ensures { taken_left result ≡ joined lists.now }
    {
        Taken {
            lists,
            texts: Texts::none(),
        }
    }
}

impl<'a> Iterator for Taken<'a> {
    ghost use Rattle.std.specs.Iterator.{YieldsFirstRef, item_count};
    ghost use Rattle.fed_inbox.specs.Taken.{taken_left};

    type Item = &'a [u8];

    ghost next_gives = { YieldsFirstRef taken_left };

    ghost remaining = { item_count taken_left };

    fn next(&mut self) -> Option<&'a [u8]> {
        while self.texts.is_empty() {
            let (list, later) = self.lists.split_first()?;
            self.lists = later;
            self.texts = list.texts();
        }
        self.texts.next()
    }
}
