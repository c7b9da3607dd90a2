//! The keys of the auth events that an event has.
ghost use Rattle.std.specs.Prelude.{◌≡◌, ◌≢◌, Ok, Err, IfOk, IfErr, OnOk, option_map};
ghost use Rattle.fed_redaction.specs.declared.version.Version.{Version};
ghost use Rattle.fed_redaction.specs.declared.version.Version.TheVariants.{V10};
ghost use Rattle.fed_event.specs.Reading.{read_of};
ghost use Rattle.fed_auth.specs.SelectionKey.{seen};
ghost use Rattle.fed_c.specs.Events.{read_or_status};
ghost use Rattle.fed_c.specs.Output.{Gives};
ghost use Rattle.fed_c.specs.Selection.{key_value, selected, selection_answer};
ghost use Rattle.fed_c.specs.SelectionParts.{with_key};
ghost use Rattle.fed_c.specs.declared.status.Status.TheVariants.{Memory};

use crate::events::event;
use crate::output::{Answer, give};
use fed_auth::{Key, Selector};
use fed_event::{Pdu, Version};
use fed_json::{Json, NoMemory, canonical};
use std::alloc::Global;

/// At which types and state keys of a state the auth events of an event stand (Server-Server API, "Auth events selection"): the canonical
/// text of an array of arrays, each of a type and a state key. Where a state has nothing at one of them, there is no auth event of that key;
/// an event that stands at two is one auth event. They are the same in every room version.
///
/// Returns the fault of the first test that the event fails, as `wikzord_event_test` does.
#[unsafe(no_mangle)]
pub extern "C" fn wikzord_auth_selection(
    alloc: Global,
    text: &[u8],
    out: &mut [u8],
    needed: &mut usize,
) -> u32
    ensures { (version : Version) → Gives (selection_answer version (read_or_status (read_of text.now))) result
        (record { before = out.old; after = out.new; told_before = needed.old; told = needed.new }) }
{
    give(selection(alloc, text), out, needed)
}

fn selection(alloc: Global, text: &[u8]) -> Answer
    ensures ok { IfOk result (λ bytes. selection_answer V10 (read_or_status (read_of text.now)) ≡ Ok bytes.items) }
    ensures fault { IfErr result (λ status. status ≢ Memory → selection_answer V10 (read_or_status (read_of text.now)) ≡ Err status) }
{
    let event = event(alloc, Version::V10, text)?;
    let keys = selected(alloc, &event)?;
    Ok(canonical(alloc, &keys)?)
}

// The keys as an array.
fn selected(alloc: Global, event: &Pdu) -> Result<Json, NoMemory>
    ensures { IfOk result (λ json. json ≡ selected event.now) }
{
    let mut list = Json::empty_array(alloc);
    for key in Selector::from(event).keys() {
        add(alloc, &mut list, key)?;
    }
    Ok(list)
}

// Adds a key, where there is one.
fn add(alloc: Global, list: &mut Json, key: Option<Key<'_>>) -> Result<(), NoMemory>
    ensures { OnOk result (list.new ≡ with_key list.old (option_map seen key.entry)) }
{
    match key {
        Some(key) => list.push(pair(alloc, key)?),
        None => Ok(()),
    }
}

fn pair(alloc: Global, key: Key<'_>) -> Result<Json, NoMemory>
    ensures { IfOk result (λ json. json ≡ key_value (seen key.entry)) }
{
    let mut pair = Json::empty_array(alloc);
    pair.push(Json::from(String::from_str(alloc, key.kind)?))?;
    pair.push(Json::from(String::from_str(alloc, key.state_key)?))?;
    Ok(pair)
}
