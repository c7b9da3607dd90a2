//! What several states of a room resolve to.
ghost use Rattle.std.specs.Prelude.{◌≡◌, ◌≢◌, false, Ok, Err, IfOk, IfErr};
ghost use Rattle.serde_json.specs.Data.{Data};
ghost use Rattle.fed_redaction.specs.declared.version.Version.{Version};
ghost use Rattle.fed_c.specs.Ids.{is_id_list};
ghost use Rattle.fed_c.specs.Output.{Gives, IsRefused};
ghost use Rattle.fed_c.specs.Resolution.{ids_value, resolved_answer};
ghost use Rattle.fed_c.specs.RoomVersion.{by_version, version_in};
ghost use Rattle.fed_c.specs.Status.{number_of};
ghost use Rattle.fed_c.specs.Values.{value_of};
ghost use Rattle.fed_c.specs.declared.status.Status.TheVariants.{Memory, BadIds, BadVersion};

use crate::history::history;
use crate::ids::ids;
use crate::output::{Answer, give};
use crate::room_version::room_version;
use crate::states::states;
use fed_json::{Json, NoMemory, canonical};
use fed_resolve::resolve;
use fed_room_contract::State;
use std::alloc::Global;

/// The state that several states of a room of this version resolve to (room version 2, "State resolution"): the canonical text of an array of the
/// ids of its events, in the order of their types and, within a type, of their state keys.
///
/// `events` is an array of events of the room, each behind its auth events: those of the states and of their auth chains are enough, and prev events
/// need not stand there. `rejected` is one of the ids of those that were rejected, in which an id of none of `events` counts for nothing; and `states`
/// is an array of states, each an array of the ids of its events.
///
/// Returns the first of these faults: `BadVersion` where `version` is neither 10 nor 11, for which it needs no memory; of `rejected`, `NotJson`,
/// `NotCanonical` and `BadIds`; of `events`, `NotJson`, `NotCanonical` and `BadEvents`; of `states`, `NotJson`, `NotCanonical` and `BadState`.
#[unsafe(no_mangle)]
pub extern "C" fn wikzord_resolve(
    alloc: Global,
    version: u32,
    events: &[u8],
    rejected: &[u8],
    states: &[u8],
    out: &mut [u8],
    needed: &mut usize,
) -> u32
    ensures gives { Gives (by_version version (λ v. resolved_answer v (value_of events.now) (value_of rejected.now) (value_of states.now))) result
        (record { before = out.old; after = out.new; told_before = needed.old; told = needed.new }) }
    ensures refuses { version_in version ≡ Err BadVersion
        → IsRefused BadVersion result (record { before = out.old; after = out.new; told_before = needed.old; told = needed.new }) }
    ensures only { result ≡ number_of BadVersion → version_in version ≡ Err BadVersion }
    ensures no_ids { (v : Version) (value : Data) → version_in version ≡ Ok v → value_of rejected.now ≡ Ok value → is_id_list value ≡ false
        → Gives (Err BadIds) result (record { before = out.old; after = out.new; told_before = needed.old; told = needed.new }) }
{
    give(
        resolved(alloc, version, events, rejected, states),
        out,
        needed,
    )
}

fn resolved(alloc: Global, version: u32, events: &[u8], rejected: &[u8], given: &[u8]) -> Answer
    ensures ok { IfOk result (λ bytes. by_version version (λ v. resolved_answer v (value_of events.now) (value_of rejected.now) (value_of given.now)) ≡ Ok bytes.items) }
    ensures fault { IfErr result (λ status. status ≢ Memory → by_version version (λ v. resolved_answer v (value_of events.now) (value_of rejected.now) (value_of given.now)) ≡ Err status) }
    ensures refuses { version_in version ≡ Err BadVersion → result ≡ Err BadVersion }
{
    let version = room_version(version)?;
    let rejected = ids(alloc, rejected)?;
    let graph = history(alloc, version, events, &rejected)?;
    let states = states(alloc, given, &graph)?;
    let state = resolve(alloc, &graph, &states)?;
    Ok(canonical(alloc, &ids_of(alloc, &state)?)?)
}

// The ids of the events that a state names.
fn ids_of(alloc: Global, state: &State) -> Result<Json, NoMemory>
    ensures { IfOk result (λ json. json ≡ ids_value state.now) }
{
    let mut ids = Json::empty_array(alloc);
    for entry in &state.entries(alloc)? {
        ids.push(Json::from(String::from_str(alloc, entry.id.as_str())?))?;
    }
    Ok(ids)
}
