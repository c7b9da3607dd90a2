// What redaction leaves of an event.
ghost use Rattle.std.specs.Prelude.{◌≡◌, ◌<◌, IfOk, OnOk, option_map};
ghost use Rattle.serde_json.specs.Data.{object, depth, members_depth, Members as MemberList, member as first};
ghost use Rattle.serde_json.specs.Read.{max_depth};
ghost use Rattle.fed_json.specs.JsonRef.{seen};
ghost use Rattle.fed_json.specs.Members.{members_left};
ghost use Rattle.fed_json.specs.Profile.{IsProfile};
ghost use Rattle.fed_redaction.specs.Names.{keep, members_of};
ghost use Rattle.fed_redaction.specs.Redaction.{redacted_in, redacted_members, kept_content, kept_value, signed_alone, type_of};
ghost use Rattle.fed_redaction.specs.TextsParts.{kept_by, put_all};

use crate::kept::{ContentRule, content_rule, is_kept};
use crate::version::Version;
use fed_json::{Json, JsonRef, Members, NoMemory};
use std::alloc::Global;

/// The redaction of an event in a room of this version (room versions 10 and 11, "Redactions"): the top-level keys that the algorithm
/// keeps, and of `content` what it keeps for the event's type. `content` becomes an empty object where it is no object; a `type` that
/// is missing or no text is one for which nothing is kept. In version 11 a `third_party_invite` in the content of a member event
/// becomes the object of its `signed`, perhaps empty, and is dropped where it is no object. A value that is no object stays as it is.
pub fn redact(alloc: Global, version: Version, event: &Json) -> Result<Json, NoMemory>
    ensures redacted { IfOk result (λ json. json ≡ redacted_in version event.now) }
    ensures profile { IsProfile event.now }
{
    let event = event.root();
    match event.members() {
        Some(members) => {
            let rule = content_rule(version, event_type(event));
            redacted_object(alloc, version, members, rule)
        }
        None => event.to_json(),
    }
}

// The type of an event, where there is one that is a text.
pub(crate) fn event_type(event: JsonRef<'_>) -> Option<&str>
    ensures { option_map (λ s. s.now) result ≡ type_of (seen event.entry) }
{
    event.member("type")?.text()
}

// The object of the members that stay of an event, of its content by this rule.
fn redacted_object(
    alloc: Global,
    version: Version,
    members: Members<'_>,
    rule: ContentRule,
) -> Result<Json, NoMemory>
    requires { members_depth (members_of (members_left members)) < max_depth }
    ensures { IfOk result (λ json. json
        ≡ object (redacted_members version (kept_by rule) (members_of (members_left members.entry)))) }
{
    let mut event = Json::empty_object(alloc);
    for (name, value) in members {
        if is_kept(version, name) {
            let member = if name == "content" {
                kept_object(alloc, value, rule)?
            } else {
                value.to_json()?
            };
            event.put(String::from_str(alloc, name)?, member)?;
        }
    }
    Ok(event)
}

// What the rule keeps of the content.
fn kept_object(alloc: Global, content: JsonRef<'_>, rule: ContentRule) -> Result<Json, NoMemory>
    ensures { IfOk result (λ json. json ≡ kept_content (kept_by rule) (seen content.entry)) }
{
    match content.members() {
        Some(members) => kept_members(alloc, members, rule),
        None => Ok(Json::empty_object(alloc)),
    }
}

// The object of what the rule keeps of the members.
fn kept_members(alloc: Global, members: Members<'_>, rule: ContentRule) -> Result<Json, NoMemory>
    requires { members_depth (members_of (members_left members)) < max_depth }
    ensures { IfOk result (λ json. json
        ≡ object (keep (kept_value (kept_by rule)) (members_of (members_left members.entry)))) }
{
    let mut kept = Json::empty_object(alloc);
    for (name, value) in members {
        put_kept(alloc, &mut kept, name, value, rule)?;
    }
    Ok(kept)
}

// Puts what the rule keeps of a member.
fn put_kept(
    alloc: Global,
    kept: &mut Json,
    name: &str,
    value: JsonRef<'_>,
    rule: ContentRule,
) -> Result<(), NoMemory>
    requires { depth (seen value) < max_depth }
    ensures { let left = kept_value (kept_by rule) in
        OnOk result ((rest : MemberList) → put_all (keep left rest) kept.new
        ≡ put_all (keep left (first name.now (seen value.entry) rest)) kept.old) }
{
    if rule.keeps(name) {
        return kept.put(String::from_str(alloc, name)?, value.to_json()?);
    }
    if rule.keeps_signed(name)
        && let Some(part) = signed_part_of(alloc, value)?
    {
        return kept.put(String::from_str(alloc, name)?, part);
    }
    Ok(())
}

// The object with the `signed` of this one, where it has one, and nothing else.
fn signed_part_of(alloc: Global, value: JsonRef<'_>) -> Result<Option<Json>, NoMemory>
    requires { depth (seen value) < max_depth }
    ensures { IfOk result (λ part. part ≡ signed_alone (seen value.entry)) }
{
    if !value.is_object() {
        return Ok(None);
    }
    let mut part = Json::empty_object(alloc);
    if let Some(signed) = value.member("signed") {
        part.put(String::from_str(alloc, "signed")?, signed.to_json()?)?;
    }
    Ok(Some(part))
}
