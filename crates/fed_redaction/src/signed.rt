// The bytes of an event that are signed and hashed.
ghost use Rattle.std.specs.Prelude.{◌≡◌, ◌++◌, IfOk, OnOk, codes};
ghost use Rattle.serde_json.specs.Data.{object, Members as MemberList, member as first};
ghost use Rattle.fed_json.specs.CanonicalText.{canonical_text};
ghost use Rattle.fed_json.specs.JsonRef.{seen};
ghost use Rattle.fed_json.specs.Members.{members_left};
ghost use Rattle.fed_redaction.specs.Names.{keep, members_of};
ghost use Rattle.fed_redaction.specs.Event.{event_in};
ghost use Rattle.fed_redaction.specs.Redaction.{kept_content, kept_value, signed_in};
ghost use Rattle.fed_redaction.specs.EventId.{signed_text_of};
ghost use Rattle.fed_redaction.specs.TextsParts.{completed, signed_members, kept_by};

use crate::kept::{ContentRule, content_rule, is_signed};
use crate::object_text::{ObjectText, USUAL_LENGTH};
use crate::redaction::event_type;
use crate::version::Version;
use fed_json::{Json, JsonRef, Members, NoMemory, canonical};
use std::alloc::Global;
use std::mem;

/// The bytes of an event in a room of this version that its servers sign and that are hashed for its id (Server-Server API, "Signing
/// Events"): the canonical text of its redaction without `signatures` and `unsigned`. A value that is no object is written as it is.
pub fn signed_text(alloc: Global, version: Version, event: &Json) -> Result<Vec<u8>, NoMemory>
    ensures { IfOk result (λ text. text.items ≡ signed_text_of (event_in version event.now)) }
{
    let root = event.root();
    match root.members() {
        Some(members) => {
            let rule = content_rule(version, event_type(root));
            signed_object(alloc, version, members, rule)
        }
        None => canonical(alloc, event),
    }
}

// What is signed of an event of these members, of its content by this rule.
fn signed_object(
    alloc: Global,
    version: Version,
    members: Members<'_>,
    rule: ContentRule,
) -> Result<Vec<u8>, NoMemory>
    ensures { let signed = signed_members version (kept_by rule) (members_of (members_left members.entry)) in
        IfOk result (λ text. text.items ≡ canonical_text (object signed)) }
{
    let mut signed = ObjectText::begin(Vec::with_capacity(alloc, USUAL_LENGTH)?)?;
    for (name, value) in members {
        add_signed(alloc, &mut signed, version, name, value, rule)?;
    }
    signed.end()
}

// Writes a member where it is signed, of the content what the rule keeps.
fn add_signed(
    alloc: Global,
    signed: &mut ObjectText,
    version: Version,
    name: &str,
    value: JsonRef<'_>,
    rule: ContentRule,
) -> Result<(), NoMemory>
    ensures { let kept = kept_by rule in
        OnOk result ((rest : MemberList) → completed signed.new (signed_members version kept rest)
        ≡ completed signed.old (signed_members version kept (first name.now (seen value.entry) rest))) }
{
    if !is_signed(version, name) {
        return Ok(());
    }
    if name == "content" {
        return add_content(alloc, signed, value, rule);
    }
    let _place = signed.add(alloc, name, value)?;
    Ok(())
}

// Writes of the content what the rule keeps.
pub(crate) fn add_content(
    alloc: Global,
    signed: &mut ObjectText,
    content: JsonRef<'_>,
    rule: ContentRule,
) -> Result<(), NoMemory>
    ensures { let kept = kept_content (kept_by rule) (seen content.entry) in
        OnOk result ((rest : MemberList) → completed signed.new rest
        ≡ completed signed.old (first (codes "content") kept rest)) }
{
    signed.name("content")?;
    append_content(alloc, &mut signed.text, content, rule)?;
    Ok(())
}

// Appends the object of what the rule keeps of the content.
fn append_content(
    alloc: Global,
    text: &mut Vec<u8>,
    content: JsonRef<'_>,
    rule: ContentRule,
) -> Result<(), NoMemory>
    ensures { let kept = kept_content (kept_by rule) (seen content.entry) in
        OnOk result (text.new.items ≡ text.old.items ++ canonical_text kept) }
{
    match content.members() {
        Some(members) => {
            *text = with_kept(alloc, mem::try_take(text)?, members, rule)?;
            Ok(())
        }
        None => text.extend_from_slice(b"{}"),
    }
}

// A text, and behind it the object of what the rule keeps of the members.
fn with_kept(
    alloc: Global,
    text: Vec<u8>,
    members: Members<'_>,
    rule: ContentRule,
) -> Result<Vec<u8>, NoMemory>
    ensures { let kept = keep (kept_value (kept_by rule)) (members_of (members_left members.entry)) in
        IfOk result (λ whole. whole.items ≡ text.items ++ canonical_text (object kept)) }
{
    let mut kept = ObjectText::behind(text)?;
    for (name, value) in members {
        add_kept(alloc, &mut kept, name, value, rule)?;
    }
    kept.end()
}

// Writes what the rule keeps of a member of the content.
fn add_kept(
    alloc: Global,
    kept: &mut ObjectText,
    name: &str,
    value: JsonRef<'_>,
    rule: ContentRule,
) -> Result<(), NoMemory>
    ensures { let left = kept_value (kept_by rule) in
        OnOk result ((rest : MemberList) → completed kept.new (keep left rest)
        ≡ completed kept.old (keep left (first name.now (seen value.entry) rest))) }
{
    if rule.keeps(name) {
        let _place = kept.add(alloc, name, value)?;
    } else if rule.keeps_signed(name) && value.is_object() {
        add_signed_alone(alloc, kept, name, value)?;
    }
    Ok(())
}

// Writes a member, of whose object `signed` alone stays.
fn add_signed_alone(
    alloc: Global,
    kept: &mut ObjectText,
    name: &str,
    value: JsonRef<'_>,
) -> Result<(), NoMemory>
    ensures { let left = signed_in (seen value.entry) in
        OnOk result ((rest : MemberList) → completed kept.new rest ≡ completed kept.old (first name.now left rest)) }
{
    kept.name(name)?;
    append_signed_alone(alloc, &mut kept.text, value)
}

// Appends the object of the `signed` of this one, where it has one.
fn append_signed_alone(
    alloc: Global,
    text: &mut Vec<u8>,
    value: JsonRef<'_>,
) -> Result<(), NoMemory>
    ensures { OnOk result (text.new.items ≡ text.old.items ++ canonical_text (signed_in (seen value.entry))) }
{
    *text = with_signed_alone(alloc, mem::try_take(text)?, value)?;
    Ok(())
}

// A text, and behind it that object.
fn with_signed_alone(alloc: Global, text: Vec<u8>, value: JsonRef<'_>) -> Result<Vec<u8>, NoMemory>
    ensures { IfOk result (λ whole. whole.items ≡ text.items ++ canonical_text (signed_in (seen value.entry))) }
{
    let mut part = ObjectText::behind(text)?;
    match value.member("signed") {
        Some(signed) => {
            let _place = part.add(alloc, "signed", signed)?;
            part.end()
        }
        None => part.end(),
    }
}
