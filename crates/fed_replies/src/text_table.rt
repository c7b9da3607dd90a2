// The texts of failed verdicts.
ghost use Rattle.std.specs.Prelude.{◌≡◌, ◌-◌, ◌<◌, ◌≤◌, [], ◌∷◌, ◌++◌, false, bytes_eq, IfOk, OnOk, OnErr, MatchOption, length, take, slice_index_or};
ghost use Rattle.std.specs.List.{list_any};
ghost use Rattle.fed_replies.specs.TextTable.{IsNumberFor, IsTextAt};

use crate::error_text::ErrorText;
use fed_json::NoMemory;
use std::alloc::Global;
use std::collections::BTreeMap;
use std::marker::Model;

/// So many texts have numbers.
const MAX_TEXTS: usize = 65_535;

/// Texts, each once. The number of a text is its place.
#[derive(Drop)]
pub(crate) struct TextTable {
    texts: Vec<ErrorText>,
    numbers: BTreeMap<String, u16>,
}

impl Model for TextTable {
    ghost use Rattle.std.specs.Coded.{coded_ℕ, coded_list};
    ghost use Rattle.fed_replies.specs.Texts.{Texts};

    ghost Value = { Texts };

    ghost coded = { coded_list (coded_list coded_ℕ) };

    ghost use Rattle.fed_replies.specs.TextTable.{IsNumbered};

    ghost view = { λ t. t.texts.items };

    ghost invariant = { λ t. IsNumbered t.texts.items t.numbers };
}

impl TextTable {
    /// No texts.
    pub(crate) fn new(alloc: Global) -> TextTable
        ensures { result ≡ [] }
    {
        TextTable {
            texts: Vec::new(alloc),
            numbers: BTreeMap::new(alloc),
        }
    }

    /// How many texts there are: at most 65,535.
    pub(crate) fn len(&self) -> usize
        ensures count { result ≡ length self.now }
        ensures few { length self.now ≤ 65535 }
    {
        self.texts.len()
    }

    /// The text of a number.
    pub(crate) fn text(&self, number: u16) -> &ErrorText
        requires { number < length self.now }
        ensures { result.now ≡ slice_index_or self.now number [] }
    {
        &self.texts[number as usize]
    }

    /// The number of a text, which is entered where it is a new one; none where it would be the 65,536th. An error leaves the texts as
    /// they were.
    pub(crate) fn number_for(&mut self, alloc: Global, text: &str) -> Result<Option<u16>, NoMemory>
        ensures ok { IfOk result (λ number. IsNumberFor self.old text.now number self.new) }
        ensures err { OnErr result (self.new ≡ self.old) }
    {
        if let Some(number) = self.number(text) {
            return Ok(Some(number));
        }
        if self.len() >= MAX_TEXTS {
            return Ok(None);
        }
        Ok(Some(self.push(alloc, text)?))
    }

    // The number of a text, where it has one.
    fn number(&self, text: &str) -> Option<u16>
        ensures { MatchOption result (list_any (bytes_eq text.now) self.now ≡ false) (λ number. IsTextAt self.now number text.now) }
    {
        self.numbers.get(text).copied()
    }

    // Enters a new text, and tells its number. An error leaves the texts as they were.
    fn push(&mut self, alloc: Global, text: &str) -> Result<u16, NoMemory>
        requires absent { list_any (bytes_eq text.now) self.old ≡ false }
        requires few { length self.old < 65535 }
        ensures ok { OnOk result (self.new ≡ self.old ++ text.now ∷ []) }
        ensures number { IfOk result (λ number. number ≡ length self.old) }
        ensures err { OnErr result (self.new ≡ self.old) }
    {
        let number = self.texts.len() as u16;
        self.texts.reserve(1)?;
        let error = ErrorText::new(alloc, text)?;
        let text = String::from_str(alloc, text)?;
        drop(self.numbers.insert(text, number)?);
        self.texts.push_reserved(error);
        Ok(number)
    }

    /// Keeps the first `len` texts alone. It takes no memory.
    pub(crate) fn truncate(&mut self, len: usize)
        ensures { self.new ≡ take len self.old }
    {
        while self.len() > len {
            self.pop();
        }
    }

    // Takes the last text away.
    fn pop(&mut self)
        requires { 0 < length self.old }
        ensures { self.new ≡ take (length self.old - 1) self.old }
    {
        let text = self.texts.take_last();
        let _ = self.numbers.remove(text.as_str());
    }
}
