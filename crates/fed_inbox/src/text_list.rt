// Texts that are kept as long as the inbox.
ghost use Rattle.std.specs.Prelude.{◌≡◌, [], ◌∷◌, ◌++◌, sum, length, OnOk};

use fed_json::NoMemory;
use std::alloc::Global;
use std::marker::Model;

/// Texts, in order, one after another in one buffer: a transaction's texts are one piece of memory and not many.
#[derive(Drop)]
pub(crate) struct TextList {
    bytes: Vec<u8>,
    lengths: Vec<usize>,
}

impl Model for TextList {
    ghost use Rattle.std.specs.Prelude.{◌≡◌, ℕ, List, sum, length};
    ghost use Rattle.std.specs.Coded.{coded_ℕ, coded_list};
    ghost use Rattle.fed_inbox.specs.TextList.{texts_in};

    ghost Value = { List (List ℕ) };

    ghost coded = { coded_list (coded_list coded_ℕ) };

    ghost view = { λ t. texts_in t.lengths.items t.bytes.items };

    ghost invariant = { λ t. sum t.lengths.items ≡ length t.bytes.items };
}

impl TextList {
    ghost use Rattle.fed_inbox.specs.Taken.{texts_left};

    pub(crate) fn new(alloc: Global) -> TextList
        ensures { result ≡ [] }
    {
        TextList {
            bytes: Vec::new(alloc),
            lengths: Vec::new(alloc),
        }
    }

    /// Appends a text.
    pub(crate) fn push(&mut self, text: &[u8]) -> Result<(), NoMemory>
        ensures { OnOk result (self.new ≡ self.old ++ text.now ∷ []) }
    {
        self.lengths.reserve(1)?;
        self.bytes.extend_from_slice(text)?;
        // There is room for it.
        self.lengths.push(text.len()).unwrap();
        Ok(())
    }

    /// The texts, one after another.
    pub(crate) fn texts(&self) -> Texts<'_>
        ensures { texts_left result ≡ self.now }
    {
        Texts {
            bytes: self.bytes.as_slice(),
            lengths: self.lengths.as_slice(),
        }
    }
}

/// The texts of one list, from the first that is left on.
#[derive(Clone, Copy)]
pub(crate) struct Texts<'a> {
    bytes: &'a [u8],
    lengths: &'a [usize],
    ghost whole: { sum lengths.now ≡ length bytes.now },
}

impl<'a> Texts<'a> {
    ghost use Rattle.std.specs.Prelude.{length, ◌==◌};
    ghost use Rattle.fed_inbox.specs.Taken.{texts_left};

    /// No texts.
    pub(crate) fn none() -> Texts<'a>
        ensures { texts_left result ≡ [] }
    {
        Texts {
            bytes: &[],
            lengths: &[],
        }
    }

    /// Whether no text is left.
    pub(crate) fn is_empty(&self) -> bool
        ensures { result ≡ (length (texts_left self.now) == 0) }
    {
        self.lengths.is_empty()
    }
}

impl<'a> Iterator for Texts<'a> {
    ghost use Rattle.std.specs.Iterator.{YieldsFirstRef, item_count};
    ghost use Rattle.fed_inbox.specs.Taken.{texts_left};

    type Item = &'a [u8];

    ghost next_gives = { YieldsFirstRef texts_left };

    ghost remaining = { item_count texts_left };

    fn next(&mut self) -> Option<&'a [u8]> {
        let (length, lengths) = self.lengths.split_first()?;
        let (text, bytes) = self.bytes.split_at(*length);
        *self = Texts { bytes, lengths };
        Some(text)
    }
}
