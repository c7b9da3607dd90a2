// The texts of an event.
ghost use Rattle.std.specs.Prelude.{◌≡◌, IfOk, OnOk};
ghost use Rattle.serde_json.specs.Data.{Data, object, Members as MemberList, member as first};
ghost use Rattle.fed_json.specs.CanonicalText.{canonical_text};
ghost use Rattle.fed_json.specs.JsonRef.{seen};
ghost use Rattle.fed_json.specs.Members.{members_left};
ghost use Rattle.fed_redaction.specs.Names.{members_of};
ghost use Rattle.fed_redaction.specs.Event.{event_in};
ghost use Rattle.fed_redaction.specs.Texts.{no_texts, event_texts};
ghost use Rattle.fed_redaction.specs.TextsParts.{member_text, completed, covered_members, signed_members, kept_by};

use crate::hash::is_covered;
use crate::kept::{ContentRule, content_rule, is_signed};
use crate::object_text::ObjectText;
use crate::redaction::event_type;
use crate::signed::add_content;
use crate::version::Version;
use fed_json::{Json, JsonRef, Members, NoMemory, canonical};
use std::alloc::Global;
use std::marker::Model;

/// The texts of an event: its canonical text, its signed text (Server-Server API, "Signing Events"), and the text that its content hash
/// covers ("Calculating the content hash for an event"). Made together, each member is written once.
///
/// The signed text is the canonical text of the redaction without `signatures` and `unsigned`; the covered one that of the event
/// without `hashes`, `signatures` and `unsigned`. Of a value that is no object all three are its canonical text.
#[derive(Drop)]
pub struct Texts {
    whole: Vec<u8>,
    signed: Vec<u8>,
    covered: Vec<u8>,
}

impl Model for Texts {
    ghost use Rattle.fed_redaction.specs.Texts.{EventTexts, texts_code};

    ghost Value = { EventTexts };

    ghost coded = { texts_code };

    ghost view = { λ t. record { whole = t.whole.items; signed = t.signed.items; covered = t.covered.items } };
}

impl Texts {
    /// Three empty texts.
    pub fn new(alloc: Global) -> Texts
        ensures { result ≡ no_texts }
    {
        Texts {
            whole: Vec::new(alloc),
            signed: Vec::new(alloc),
            covered: Vec::new(alloc),
        }
    }

    /// The texts of an event in a room of this version, or of another value.
    pub fn of(alloc: Global, version: Version, event: &Json) -> Result<Texts, NoMemory>
        ensures { IfOk result (λ texts. texts ≡ event_texts (event_in version event.now)) }
    {
        Texts::new(alloc).rewritten(alloc, version, event)
    }

    /// The texts of an event in a room of this version, or of another value, written in the room that these texts have.
    pub fn rewritten(self, alloc: Global, version: Version, event: &Json) -> Result<Texts, NoMemory>
        ensures { IfOk result (λ texts. texts ≡ event_texts (event_in version event.now)) }
    {
        let root = event.root();
        match root.members() {
            Some(members) => {
                let rule = content_rule(version, event_type(root));
                texts_of_members(alloc, self, version, members, rule)
            }
            None => same_texts(alloc, event),
        }
    }

    /// The canonical text.
    pub fn whole(&self) -> &[u8]
        ensures { result.now ≡ self.now.whole }
    {
        &self.whole
    }

    /// The signed text.
    pub fn signed(&self) -> &[u8]
        ensures { result.now ≡ self.now.signed }
    {
        &self.signed
    }

    /// The signed text, to keep.
    pub fn into_signed(self) -> Vec<u8>
        ensures { result.items ≡ self.signed }
    {
        let Texts { signed, .. } = self;
        signed
    }

    /// The text that the content hash covers.
    pub fn covered(&self) -> &[u8]
        ensures { result.now ≡ self.now.covered }
    {
        &self.covered
    }
}

// The texts of the object of these members, an event of whose content this rule keeps a part, in the room of others.
fn texts_of_members(
    alloc: Global,
    room: Texts,
    version: Version,
    members: Members<'_>,
    rule: ContentRule,
) -> Result<Texts, NoMemory>
    ensures { let all = members_of (members_left members.entry) in
        let signed = signed_members version (kept_by rule) all in
        IfOk result (λ texts. (texts.whole ≡ canonical_text (object all))
        × (texts.signed ≡ canonical_text (object signed))
        × (texts.covered ≡ canonical_text (object (covered_members all)))) }
{
    let mut whole = ObjectText::begin(room.whole)?;
    let mut signed = ObjectText::begin(room.signed)?;
    let mut covered = ObjectText::begin(room.covered)?;
    for (name, value) in members {
        let start = whole.add(alloc, name, value)?;
        let member = whole.text_from(start);
        covered_with(&mut covered, name, member)?;
        signed_with(alloc, &mut signed, version, name, value, member, rule)?;
    }
    Ok(Texts {
        whole: whole.end()?,
        signed: signed.end()?,
        covered: covered.end()?,
    })
}

// Writes a member where the content hash covers it.
fn covered_with(covered: &mut ObjectText, name: &str, member: &[u8]) -> Result<(), NoMemory>
    ensures { OnOk result ((value : Data) (rest : MemberList) → member.now ≡ member_text name.now value
        → completed covered.new (covered_members rest)
        ≡ completed covered.old (covered_members (first name.now value rest))) }
{
    if is_covered(name) {
        covered.copy(member)?;
    }
    Ok(())
}

// Writes a member where it is signed, of the content what the rule keeps.
fn signed_with(
    alloc: Global,
    signed: &mut ObjectText,
    version: Version,
    name: &str,
    value: JsonRef<'_>,
    member: &[u8],
    rule: ContentRule,
) -> Result<(), NoMemory>
    requires { member.now ≡ member_text name.now (seen value) }
    ensures { let kept = kept_by rule in
        OnOk result ((rest : MemberList) → completed signed.new (signed_members version kept rest)
        ≡ completed signed.old (signed_members version kept (first name.now (seen value.entry) rest))) }
{
    if !is_signed(version, name) {
        return Ok(());
    }
    if name == "content" {
        add_content(alloc, signed, value, rule)
    } else {
        signed.copy(member)
    }
}

// The texts of a value that is no object.
fn same_texts(alloc: Global, value: &Json) -> Result<Texts, NoMemory>
    ensures { let text = canonical_text value.now in
        IfOk result (λ texts. (texts.whole ≡ text) × (texts.signed ≡ text) × (texts.covered ≡ text)) }
{
    let whole = canonical(alloc, value)?;
    let signed = Vec::from_slice(alloc, &whole)?;
    let covered = Vec::from_slice(alloc, &whole)?;
    Ok(Texts {
        whole,
        signed,
        covered,
    })
}
