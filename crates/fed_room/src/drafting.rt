// The event that is made of a draft.
ghost use Rattle.std.specs.Prelude.{◌≡◌, ◌<◌, ◌≤◌, ◌⊎◌, true, false, Ok, Err, IfOk, IfErr, OnOk, IsOk, string_bytes, option_map};
ghost use Rattle.serde_json.specs.Data.{depth};
ghost use Rattle.serde_json.specs.Find.{of_integer};
ghost use Rattle.serde_json.specs.Read.{max_depth};
ghost use Rattle.fed_json.specs.Editing.{with_member};
ghost use Rattle.fed_json.specs.Profile.{is_whole};
ghost use Rattle.fed_room_contract.specs.declared.refusal.Refusal.TheVariants.{Memory, NotOwnUser, BadDraft};
ghost use Rattle.fed_event.specs.declared.fault.PduFault.TheVariants as fault;
ghost use Rattle.fed_event.specs.declared.fault.PduFault.TheVariants.{TooDeep};
ghost use Rattle.fed_event.specs.Fields.{prev_events_of, auth_events_of};
ghost use Rattle.fed_room_contract.specs.Draft.{Bears};
ghost use Rattle.fed_room_contract.specs.Prepared.{signer_of, is_own_user};
ghost use Rattle.fed_room.specs.LinksParts.{links_seen};
ghost use Rattle.fed_room.specs.Parts.{EventLinks, array_of, with_state_key, parts_of};
ghost use Rattle.fed_room.specs.Made.{event_of, made_of};

use crate::links::Links;
use fed_event::{Checked, EventId, Keys, MAX_DEPTH, PduFault, domain, is_user_id, seal};
use fed_json::{Json, NoMemory};
use fed_room_contract::{Draft, Refusal};
use std::alloc::Global;

/// Looks at a draft before an event is made of it. It takes no memory.
///
/// # Errors
///
/// `NotOwnUser` where the sender is no user of the own server; else `BadDraft` where the content nests too deep.
pub(crate) fn check<K: Keys>(draft: &Draft, keys: &K) -> Result<(), Refusal>
    ensures foreign { is_own_user (K.own_name keys.now) draft.now.sender ≡ false → result ≡ Err NotOwnUser }
    ensures deep { is_own_user (K.own_name keys.now) draft.now.sender ≡ true → MAX_DEPTH < depth draft.now.content → result ≡ Err (BadDraft TooDeep) }
    ensures own { OnOk result (is_own_user (K.own_name keys.now) draft.now.sender ≡ true) }
    ensures shallow { OnOk result (depth draft.now.content ≤ MAX_DEPTH) }
    ensures told { let signer = signer_of (K.own_name keys.now) (K.own_key keys.now) (K.own_signature keys.now) (K.checks keys.now) in
        IfErr result (λ refusal. (links : EventLinks) → made_of signer links draft.now ≡ Err refusal) }
    ensures only { is_own_user (K.own_name keys.now) draft.now.sender ≡ true → depth draft.now.content ≤ MAX_DEPTH → IsOk result }
{
    if !is_own_user(&draft.sender, keys) {
        return Err(Refusal::NotOwnUser);
    }
    Ok(check_depth(draft)?)
}

/// Looks at how deep the content of a draft nests, before an event is made of it. It takes no memory.
///
/// # Errors
///
/// `TooDeep` where the content nests too deep for an event.
pub(crate) fn check_depth(draft: &Draft) -> Result<(), PduFault>
    ensures deep { MAX_DEPTH < depth draft.now.content → result ≡ Err TooDeep }
    ensures shallow { OnOk result (depth draft.now.content ≤ MAX_DEPTH) }
    ensures fault { IfErr result (λ fault. fault ≡ TooDeep) }
    ensures told { IfErr result (λ fault. MAX_DEPTH < depth draft.now.content) }
{
    if draft.content.depth() > MAX_DEPTH {
        return Err(PduFault::TooDeep);
    }
    Ok(())
}

/// The event that the own server makes of a draft which `check` has passed, with these links, its hash and its signature.
///
/// # Errors
///
/// `BadDraft` where what is made is no event, with its fault. `Memory` where memory ran out, in place of an event or a fault.
pub(crate) fn made<K: Keys>(
    alloc: Global,
    draft: Draft,
    links: Links,
    keys: &K,
) -> Result<Checked, Refusal>
    requires own { is_own_user (K.own_name keys.now) draft.sender ≡ true }
    requires shallow { depth draft.content ≤ MAX_DEPTH }
    requires whole { is_whole (of_integer links.depth) ≡ true }
    ensures told { let signer = signer_of (K.own_name keys.now) (K.own_key keys.now) (K.own_signature keys.now) (K.checks keys.now) in
        (result ≡ made_of signer (links_seen links) draft) ⊎ (result ≡ Err Memory) }
    ensures bears { IfOk result (λ event. Bears draft event.event) }
    ensures prev_events { IfOk result (λ event. prev_events_of event.event ≡ links.prev_events.items) }
    ensures auth_events { IfOk result (λ event. auth_events_of event.event ≡ links.auth_events.items) }
{
    Ok(sealed(alloc, draft, links, keys)?)
}

/// The event that the own server makes of a draft which `check_depth` has passed, with these links, its hash and its signature.
///
/// # Errors
///
/// The fault of what is made, where it is no event. `Memory` where memory ran out, in place of an event or a fault.
pub(crate) fn sealed<K: Keys>(
    alloc: Global,
    draft: Draft,
    links: Links,
    keys: &K,
) -> Result<Checked, PduFault>
    requires own { is_own_user (K.own_name keys.now) draft.sender ≡ true }
    requires shallow { depth draft.content ≤ MAX_DEPTH }
    requires whole { is_whole (of_integer links.depth) ≡ true }
    ensures told { let signer = signer_of (K.own_name keys.now) (K.own_key keys.now) (K.own_signature keys.now) (K.checks keys.now) in
        (result ≡ event_of signer (links_seen links) draft) ⊎ (result ≡ Err fault.Memory) }
    ensures bears { IfOk result (λ event. Bears draft event.event) }
    ensures prev_events { IfOk result (λ event. prev_events_of event.event ≡ links.prev_events.items) }
    ensures auth_events { IfOk result (λ event. auth_events_of event.event ≡ links.auth_events.items) }
{
    let version = links.version;
    let parts = parts(alloc, draft, links)?;
    let event = seal(alloc, version, parts, keys)?;
    Ok(event)
}

/// Whether the sender is a user of the own server.
pub(crate) fn is_own_user<K: Keys>(sender: &str, keys: &K) -> bool
    ensures { result ≡ is_own_user (K.own_name keys.now) sender.now }
{
    is_user_id(sender) && domain(sender) == keys.own()
}

// The event without its hash and its signature.
fn parts(alloc: Global, draft: Draft, links: Links) -> Result<Json, NoMemory>
    requires shallow { depth draft.content < max_depth }
    requires whole { is_whole (of_integer links.depth) ≡ true }
    ensures parts { IfOk result (λ parts. parts ≡ (parts_of (links_seen links) draft).value) }
    ensures moment { OnOk result (draft.at_ms ≤ 9007199254740991) }
{
    let Draft {
        room,
        sender,
        kind,
        state_key,
        content,
        at_ms,
    } = draft;
    let Links {
        auth_events,
        prev_events,
        depth,
        ..
    } = links;
    let auth_events = array(alloc, auth_events)?;
    let prev_events = array(alloc, prev_events)?;
    let mut parts = Json::empty_object(alloc);
    put(alloc, &mut parts, "auth_events", auth_events)?;
    put(alloc, &mut parts, "content", content)?;
    put(alloc, &mut parts, "depth", Json::from_signed(depth))?;
    put(
        alloc,
        &mut parts,
        "origin_server_ts",
        Json::from_whole(at_ms),
    )?;
    put(alloc, &mut parts, "prev_events", prev_events)?;
    put(alloc, &mut parts, "room_id", Json::from(room))?;
    put(alloc, &mut parts, "sender", Json::from(sender))?;
    put(alloc, &mut parts, "type", Json::from(kind))?;
    with_state_key(alloc, parts, state_key)
}

// An event with its state key, if it has one.
fn with_state_key(alloc: Global, parts: Json, state_key: Option<String>) -> Result<Json, NoMemory>
    ensures { IfOk result (λ event. event ≡ with_state_key (option_map string_bytes state_key) parts) }
{
    let mut event = parts;
    if let Some(key) = state_key {
        put(alloc, &mut event, "state_key", Json::from(key))?;
    }
    Ok(event)
}

fn put(alloc: Global, event: &mut Json, name: &str, member: Json) -> Result<(), NoMemory>
    requires { depth member < max_depth }
    ensures { OnOk result (event.new ≡ with_member name.now member event.old) }
{
    event.put(String::from_str(alloc, name)?, member)
}

// The array of these ids.
fn array(alloc: Global, ids: Vec<EventId>) -> Result<Json, NoMemory>
    ensures { IfOk result (λ array. array ≡ array_of ids.items) }
{
    let mut array = Json::empty_array(alloc);
    for id in ids {
        array.push(Json::from(id.into_string()))?;
    }
    Ok(array)
}
