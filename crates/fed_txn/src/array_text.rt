// The text of an array, written item by item.
ghost use Rattle.std.specs.Prelude.{◌≡◌, ◌∷◌, [], ◌++◌, false, IfOk, OnOk};
ghost use Rattle.serde_json.specs.Data.{Items, item};
ghost use Rattle.fed_txn.specs.ArrayText.{completed};
ghost use Rattle.fed_txn.specs.WritingParts.{IsWritten};

use fed_json::{Json, NoMemory, canonical};
use std::alloc::Global;

// The text so far, and whether an item stands in it.
#[derive(Drop)]
pub(crate) struct ArrayText {
    text: Vec<u8>,
    later: bool,
}

impl ArrayText {
    // The beginning of an array behind a text.
    pub(crate) fn behind(text: Vec<u8>) -> Result<ArrayText, NoMemory>
        ensures text { IfOk result (λ array. array.text.items ≡ text.items ++ 91 ∷ []) }
        ensures first { IfOk result (λ array. array.later ≡ false) }
    {
        let mut text = text;
        text.push(b'[')?;
        Ok(ArrayText { text, later: false })
    }

    // Writes an item.
    pub(crate) fn add(&mut self, alloc: Global, value: &Json) -> Result<(), NoMemory>
        ensures written { OnOk result ((rest : Items)
            → completed self.new rest ≡ completed self.old (item value.now rest)) }
        ensures item { OnOk result (IsWritten value.now) }
    {
        let value = canonical(alloc, value)?;
        if self.later {
            self.text.push(b',')?;
        }
        self.later = true;
        self.text.extend_from_slice(&value)
    }

    // The whole text.
    pub(crate) fn end(self) -> Result<Vec<u8>, NoMemory>
        ensures { IfOk result (λ text. text.items ≡ self.text.items ++ 93 ∷ []) }
    {
        let ArrayText { mut text, .. } = self;
        text.push(b']')?;
        Ok(text)
    }
}
