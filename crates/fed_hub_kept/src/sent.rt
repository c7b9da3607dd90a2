// Whether events went where their rooms send them.
ghost use Rattle.std.specs.Prelude.{◌≡◌, ◌↔◌, false, None, Ok, ℕ, List as Items, IsTrue, IfOk, option_map};
ghost use Rattle.std.specs.BTreeMap.{get_by};
ghost use Rattle.std.specs.Cmp.Lexicographic.{slice_cmp};
ghost use Rattle.std.specs.Ordering.{nat_cmp};
ghost use Rattle.fed_room_contract.specs.Graph.{stored_at};
ghost use Rattle.fed_room_contract.specs.Room.{event_id};
ghost use Rattle.fed_hub_kept.specs.Sent.{IsSentAsStored, AreSentAsStored, room_at};

use fed_dest::{List, ServerIndex, ServerSet, destinations};
use fed_event::Checked;
use fed_hub_state::KeptRoom;
use fed_journal::Entry;
use fed_json::NoMemory;
use fed_room_contract::RoomEngine;
use std::alloc::Global;
use std::collections::BTreeMap;

/// Whether an event is stored in a room, and these are the listed servers that it is sent to by the state before it, but for the own one
/// (Matrix, Server-Server API, "PDUs"). That it is not stored is told without memory.
///
/// # Errors
///
/// `NoMemory`.
pub fn is_sent_as_stored<R: RoomEngine>(
    alloc: Global,
    room: &R,
    own: ServerIndex,
    servers: &List,
    event: &Checked,
    dests: &ServerSet,
) -> Result<bool, NoMemory>
    ensures sent { IfOk result (λ sent. IsTrue sent ↔
        IsSentAsStored (R.rules room.now) (R.room room.now).stored servers.now own event.now dests.now) }
    ensures unknown { stored_at (R.room room.now).stored (event_id event.now) ≡ None → result ≡ Ok false }
{
    let Some(before) = room.state_before(alloc, event.event().id().as_str())? else {
        return Ok(false);
    };
    let others = destinations(alloc, room.graph(), &before, own, servers)?;
    Ok(*dests == others)
}

/// Whether every event of a journal is stored in its room, which is among these, and went to the listed servers that it is sent to there, as
/// `is_sent_as_stored`. Of several rooms with one id the first counts. It goes through the rooms once.
///
/// # Errors
///
/// `NoMemory`.
pub fn are_sent_as_stored(
    alloc: Global,
    rooms: &[KeptRoom],
    own: ServerIndex,
    servers: &List,
    entries: &[Entry],
) -> Result<bool, NoMemory>
    ensures { IfOk result (λ are. IsTrue are ↔ AreSentAsStored rooms.now servers.now own entries.now) }
{
    let by_id = rooms_by_id(alloc, rooms)?;
    for entry in entries {
        let Entry::Event(event, dests) = entry else {
            continue;
        };
        let Some(room) = by_id.get(&event.event().room_id()) else {
            return Ok(false);
        };
        if !is_sent_as_stored(alloc, room.room(), own, servers, event, dests)? {
            return Ok(false);
        }
    }
    Ok(true)
}

// The rooms by their ids; of several with one id the first.
fn rooms_by_id(alloc: Global, rooms: &[KeptRoom]) -> Result<BTreeMap<&str, &KeptRoom>, NoMemory>
    ensures { IfOk result (λ by_id. (id : Items ℕ)
        → option_map (λ room. room.now) (get_by (λ key. slice_cmp nat_cmp id key.now) by_id) ≡ room_at rooms.now id) }
{
    let mut by_id = BTreeMap::new(alloc);
    for room in rooms {
        let id = room.id();
        if !by_id.contains_key(&id) {
            drop(by_id.insert(id, room)?);
        }
    }
    Ok(by_id)
}
