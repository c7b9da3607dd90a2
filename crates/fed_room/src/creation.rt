// The events that a room begins with.
ghost use Rattle.std.specs.Prelude.{◌≡◌, ◌≢◌, ◌<◌, [], Ok, Err, Option, IfOk, IfErr, IfSome, map, option_map, string_bytes};
ghost use Rattle.serde_json.specs.Data.{string, depth};
ghost use Rattle.serde_json.specs.Read.{max_depth};
ghost use Rattle.fed_event.specs.declared.fault.PduFault.TheVariants as PduFault;
ghost use Rattle.fed_room.specs.declared.started_fault.StartedFault.TheVariants.{Memory, NoUser, NoKeys};
ghost use Rattle.fed_room.specs.Creation.{only, state_draft, creation, joining, power_levels, join_rules, drafts_of, signer_by, keys_of, after_signed, after_drafts, keyless, started_of};
ghost use Rattle.fed_room.specs.Line.{empty_line};
ghost use Rattle.fed_room.specs.LineParts.{line_seen};

use crate::drafting::is_own_user;
use crate::line::Line;
use crate::started_fault::StartedFault;
use fed_event::{Checked, Keys, PduFault, Version};
use fed_json::{Json, NoMemory};
use fed_room_contract::Draft;
use std::alloc::Global;

/// The events that a room of this version and these users begins with (Client-Server API, "Creation"): the first user creates it, joins it,
/// has power level 100 and opens it to all, and then each further user joins it, in order. Each event names the one before it, has the
/// auth events that the state after that one selects, is dated 0, and is signed by the first of the keys whose server is its sender's.
///
/// A room that they are to begin has an id of the first user's server.
///
/// # Errors
///
/// The first of these: `NoUser` where there are no users; `NoKeys` for the first user whose server has no keys here, by its place; `Bad`
/// for the first event that is none, with its fault, as where the id of the room is none. `Memory` where memory ran out, in place of the
/// events or of the last.
pub fn started<K: Keys>(
    alloc: Global,
    version: Version,
    room: &str,
    users: &[String],
    keys: &[K],
) -> Result<Vec<Checked>, StartedFault>
    ensures ok { IfOk result (λ events. started_of (signer_by K.own_name K.own_key K.own_signature K.checks) keys.now version room.now (map string_bytes users.now) ≡ Ok events.items) }
    ensures fails { IfErr result (λ fault. fault ≢ Memory → started_of (signer_by K.own_name K.own_key K.own_signature K.checks) keys.now version room.now (map string_bytes users.now) ≡ Err fault) }
    ensures no_user { users.now ≡ [] → result ≡ Err NoUser }
    ensures no_keys { IfSome (keyless (signer_by K.own_name K.own_key K.own_signature K.checks) keys.now 1 (map string_bytes users.now)) (λ place. result ≡ Err (NoKeys place)) }
{
    let Some((first, others)) = users.split_first() else {
        return Err(StartedFault::NoUser);
    };
    if let Some(place) = keyless(users, keys) {
        return Err(StartedFault::NoKeys(place));
    }
    let drafts = drafts(alloc, version, room, first, others)?;
    let line = line(alloc, version, drafts, keys)?;
    Ok(line.events)
}

// The place of the first user whose server has no keys, counted from 1.
fn keyless<K: Keys>(users: &[String], keys: &[K]) -> Option<usize>
    ensures { result ≡ keyless (signer_by K.own_name K.own_key K.own_signature K.checks) keys.now 1 (map string_bytes users.now) }
{
    for place in 0..users.len() {
        if keys_of(keys, &users[place]).is_none() {
            return Some(place + 1);
        }
    }
    None
}

// The first keys of a user's server.
fn keys_of<'a, K: Keys>(keys: &'a [K], user: &str) -> Option<&'a K>
    ensures { option_map (λ k. k.now) result ≡ keys_of (signer_by K.own_name K.own_key K.own_signature K.checks) keys.now user.now }
{
    for own in keys {
        if is_own_user(user, own) {
            return Some(own);
        }
    }
    None
}

// The events of these drafts, one after another.
fn line<K: Keys>(
    alloc: Global,
    version: Version,
    drafts: Vec<Draft>,
    keys: &[K],
) -> Result<Line, PduFault>
    ensures ok { IfOk result (λ line. after_drafts (signer_by K.own_name K.own_key K.own_signature K.checks) keys.now (Ok (empty_line version)) drafts.items ≡ Ok (line_seen line)) }
    ensures fails { IfErr result (λ fault. fault ≢ PduFault.Memory → after_drafts (signer_by K.own_name K.own_key K.own_signature K.checks) keys.now (Ok (empty_line version)) drafts.items ≡ Err fault) }
{
    let mut line = Line::empty(alloc, version);
    for draft in drafts {
        line = with_draft(alloc, line, draft, keys)?;
    }
    Ok(line)
}

// A line with the event that the sender's server makes of a draft; without keys of that server it makes none.
fn with_draft<K: Keys>(
    alloc: Global,
    line: Line,
    draft: Draft,
    keys: &[K],
) -> Result<Line, PduFault>
    ensures ok { let signed : Option K = keys_of (signer_by K.own_name K.own_key K.own_signature K.checks) keys.now draft.sender in
        IfOk result (λ more. after_signed (signer_by K.own_name K.own_key K.own_signature K.checks) keys.now signed (line_seen line) draft ≡ Ok (line_seen more)) }
    ensures fails { let signed : Option K = keys_of (signer_by K.own_name K.own_key K.own_signature K.checks) keys.now draft.sender in
        IfErr result (λ fault. fault ≢ PduFault.Memory → after_signed (signer_by K.own_name K.own_key K.own_signature K.checks) keys.now signed (line_seen line) draft ≡ Err fault) }
{
    match keys_of(keys, &draft.sender) {
        Some(own) => line.with_draft(alloc, draft, own),
        None => Ok(line),
    }
}

// ---- the drafts

fn drafts(
    alloc: Global,
    version: Version,
    room: &str,
    first: &str,
    others: &[String],
) -> Result<Vec<Draft>, NoMemory>
    ensures { IfOk result (λ drafts. drafts.items ≡ drafts_of version room.now first.now (map string_bytes others.now)) }
{
    let mut drafts = founding(alloc, version, room, first)?;
    for user in others {
        drafts.push(joining(alloc, room, user)?)?;
    }
    Ok(drafts)
}

fn founding(alloc: Global, version: Version, room: &str, user: &str) -> Result<Vec<Draft>, NoMemory>
    ensures { IfOk result (λ drafts. drafts.items ≡ drafts_of version room.now user.now []) }
{
    let mut drafts = Vec::new(alloc);
    drafts.push(creation(alloc, version, room, user)?)?;
    drafts.push(joining(alloc, room, user)?)?;
    drafts.push(power_levels(alloc, room, user)?)?;
    drafts.push(join_rules(alloc, room, user)?)?;
    Ok(drafts)
}

fn creation(alloc: Global, version: Version, room: &str, user: &str) -> Result<Draft, NoMemory>
    ensures { IfOk result (λ draft. draft ≡ creation version room.now user.now) }
{
    let mut content = only(alloc, "room_version", text(alloc, version.name())?)?;
    if version.names_creator() {
        content.put(String::from_str(alloc, "creator")?, text(alloc, user)?)?;
    }
    state_draft(alloc, room, user, "m.room.create", "", content)
}

fn joining(alloc: Global, room: &str, user: &str) -> Result<Draft, NoMemory>
    ensures { IfOk result (λ draft. draft ≡ joining room.now user.now) }
{
    let content = only(alloc, "membership", text(alloc, "join")?)?;
    state_draft(alloc, room, user, "m.room.member", user, content)
}

fn power_levels(alloc: Global, room: &str, user: &str) -> Result<Draft, NoMemory>
    ensures { IfOk result (λ draft. draft ≡ power_levels room.now user.now) }
{
    let users = only(alloc, user, Json::from_whole(100))?;
    let content = only(alloc, "users", users)?;
    state_draft(alloc, room, user, "m.room.power_levels", "", content)
}

fn join_rules(alloc: Global, room: &str, user: &str) -> Result<Draft, NoMemory>
    ensures { IfOk result (λ draft. draft ≡ join_rules room.now user.now) }
{
    let content = only(alloc, "join_rule", text(alloc, "public")?)?;
    state_draft(alloc, room, user, "m.room.join_rules", "", content)
}

// A state event of a user, dated 0.
fn state_draft(
    alloc: Global,
    room: &str,
    sender: &str,
    kind: &str,
    key: &str,
    content: Json,
) -> Result<Draft, NoMemory>
    ensures { IfOk result (λ draft. draft ≡ state_draft room.now sender.now kind.now key.now content) }
{
    Ok(Draft {
        room: String::from_str(alloc, room)?,
        sender: String::from_str(alloc, sender)?,
        kind: String::from_str(alloc, kind)?,
        state_key: Some(String::from_str(alloc, key)?),
        content,
        at_ms: 0,
    })
}

// An object of one member.
fn only(alloc: Global, name: &str, member: Json) -> Result<Json, NoMemory>
    requires { depth member < max_depth }
    ensures { IfOk result (λ value. value ≡ only name.now member) }
{
    let mut object = Json::empty_object(alloc);
    object.put(String::from_str(alloc, name)?, member)?;
    Ok(object)
}

fn text(alloc: Global, text: &str) -> Result<Json, NoMemory>
    ensures { IfOk result (λ value. value ≡ string text.now) }
{
    Ok(Json::from(String::from_str(alloc, text)?))
}
