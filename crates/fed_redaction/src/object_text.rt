// The text of an object, written member by member.
ghost use Rattle.std.specs.Prelude.{◌≡◌, ◌∷◌, [], ◌++◌, false, true, ◌≤◌, drop, length, IfOk, OnOk};
ghost use Rattle.json.specs.Print.{quoted};
ghost use Rattle.serde_json.specs.Data.{Members, member};
ghost use Rattle.fed_json.specs.CanonicalText.{comma};
ghost use Rattle.fed_json.specs.JsonRef.{seen};
ghost use Rattle.fed_redaction.specs.TextsParts.{member_text, completed};

use crate::names::append_name;
use fed_json::{JsonRef, NoMemory};
use std::alloc::Global;

// The text of most events is not longer, so its memory is taken once.
pub(crate) const USUAL_LENGTH: usize = 1_024;

// The text so far, and whether a member stands in it.
#[derive(Drop)]
pub(crate) struct ObjectText {
    pub(crate) text: Vec<u8>,
    pub(crate) later: bool,
}

impl ObjectText {
    // The beginning of an object, in the place of what stands in `room`.
    pub(crate) fn begin(room: Vec<u8>) -> Result<ObjectText, NoMemory>
        ensures text { IfOk result (λ object. object.text.items ≡ 123 ∷ []) }
        ensures first { IfOk result (λ object. object.later ≡ false) }
    {
        let mut text = room;
        text.clear();
        ObjectText::behind(text)
    }

    // The beginning of an object behind a text.
    pub(crate) fn behind(text: Vec<u8>) -> Result<ObjectText, NoMemory>
        ensures text { IfOk result (λ object. object.text.items ≡ text.items ++ 123 ∷ []) }
        ensures first { IfOk result (λ object. object.later ≡ false) }
    {
        let mut text = text;
        text.push(b'{')?;
        Ok(ObjectText { text, later: false })
    }

    // Writes a member, and answers where it begins.
    pub(crate) fn add(
        &mut self,
        alloc: Global,
        name: &str,
        value: JsonRef<'_>,
    ) -> Result<usize, NoMemory>
        ensures written { OnOk result ((rest : Members)
            → completed self.new rest ≡ completed self.old (member name.now (seen value.entry) rest)) }
        ensures member { IfOk result (λ start. drop start self.new.text.items ≡ member_text name.now (seen value.entry)) }
    {
        self.separate()?;
        let start = self.text.len();
        append_name(&mut self.text, name)?;
        value.append_to(alloc, &mut self.text)?;
        Ok(start)
    }

    // Writes the name of a member, whose value comes next.
    pub(crate) fn name(&mut self, name: &str) -> Result<(), NoMemory>
        ensures text { OnOk result (self.new.text.items ≡ self.old.text.items ++ (comma self.old.later ++ (quoted name.now ++ 58 ∷ []))) }
        ensures later { OnOk result (self.new.later ≡ true) }
    {
        self.separate()?;
        append_name(&mut self.text, name)
    }

    // The text from a place on.
    pub(crate) fn text_from(&self, start: usize) -> &[u8]
        requires { start ≤ length self.now.text.items }
        ensures { result.now ≡ drop start self.now.text.items }
    {
        &self.text[start..]
    }

    // Writes a member that is written elsewhere.
    pub(crate) fn copy(&mut self, member: &[u8]) -> Result<(), NoMemory>
        ensures text { OnOk result (self.new.text.items ≡ self.old.text.items ++ (comma self.old.later ++ member.now)) }
        ensures later { OnOk result (self.new.later ≡ true) }
    {
        self.separate()?;
        self.text.extend_from_slice(member)
    }

    // Writes a comma where a member stands before.
    fn separate(&mut self) -> Result<(), NoMemory>
        ensures text { OnOk result (self.new.text.items ≡ self.old.text.items ++ comma self.old.later) }
        ensures later { OnOk result (self.new.later ≡ true) }
    {
        if self.later {
            self.text.push(b',')?;
        }
        self.later = true;
        Ok(())
    }

    // The whole text.
    pub(crate) fn end(self) -> Result<Vec<u8>, NoMemory>
        ensures { IfOk result (λ text. text.items ≡ self.text.items ++ 125 ∷ []) }
    {
        let ObjectText { mut text, .. } = self;
        text.push(b'}')?;
        Ok(text)
    }
}
