// What several states of a room agree on.
ghost use Rattle.std.specs.Prelude.{◌≡◌, ◌<◌, ℕ, All, IfOk, OnOk, [], length, map, option_map};
ghost use Rattle.std.specs.List.{filter_map, list_all};
ghost use Rattle.fed_room_contract.specs.Entry.{seen};
ghost use Rattle.fed_room_contract.specs.State.{entry_at};
ghost use Rattle.fed_resolve.specs.Chain.{is_in_full_chain};
ghost use Rattle.fed_resolve.specs.Marks.{AreMarks};
ghost use Rattle.fed_resolve.specs.Conflict.{unconflicted as unconflicted_of};
ghost use Rattle.fed_resolve.specs.ConflictParts.{AreKept, has_id_at, place_of_entry, places_of_state};

use crate::chain::chains;
use fed_event::EventId;
use fed_json::NoMemory;
use fed_room_contract::{Entry, Graph, State};
use std::alloc::Global;

/// The unconflicted state (room version 2, "State resolution", "Definitions"): the entries that all these states have. Without states
/// nothing holds in it.
///
/// # Errors
///
/// `NoMemory`.
pub fn unconflicted(alloc: Global, states: &[State]) -> Result<State, NoMemory>
    ensures { IfOk result (λ state. state ≡ unconflicted_of states.now) }
{
    let mut state = State::new(alloc);
    if let Some(first) = states.first() {
        let entries = first.entries(alloc)?;
        keep(alloc, states, &entries, &mut state)?;
    }
    Ok(state)
}

/// The id that all these states have at a type and state key, where there is one: what the unconflicted state has there.
pub fn agreed<'a>(states: &'a [State], kind: &str, state_key: &str) -> Option<&'a EventId>
    ensures { option_map (λ id. id.now) result ≡ entry_at (unconflicted_of states.now) kind.now state_key.now }
{
    let (first, others) = states.split_first()?;
    let id = first.get(kind, state_key)?;
    if all_have(others, kind, state_key, id) {
        Some(id)
    } else {
        None
    }
}

// Whether all states have this id at a type and state key.
fn all_have(states: &[State], kind: &str, state_key: &str, id: &EventId) -> bool
    ensures { result ≡ list_all (has_id_at kind.now state_key.now id.now) states.now }
{
    states
        .iter()
        .all(|state| has_id_at(state, kind, state_key, id))
}

// Whether a state has this id at a type and state key.
pub(crate) fn has_id_at(state: &State, kind: &str, state_key: &str, id: &EventId) -> bool
    ensures { result ≡ has_id_at kind.now state_key.now id.now state.now }
{
    state.get(kind, state_key) == Some(id)
}

// Lays what the states agree on at the keys of some entries over an empty state.
fn keep(
    alloc: Global,
    states: &[State],
    entries: &[Entry<'_>],
    state: &mut State,
) -> Result<(), NoMemory>
    requires { AreKept (unconflicted_of states.now) [] state.old }
    ensures { OnOk result (AreKept (unconflicted_of states.now) (map seen entries.now) state.new) }
{
    for entry in entries {
        if let Some(id) = agreed(states, entry.kind, entry.state_key) {
            state.insert(alloc, entry.kind, entry.state_key, id.copy(alloc)?)?;
        }
    }
    Ok(())
}

/// The full auth chain of a state (room version 2, "State resolution", "Definitions"), as a mark for each place of the graph: the auth
/// chains of its events together. An event of the state itself is marked only where it is in the chain of another one. An event that the
/// graph lacks has no chain.
///
/// # Errors
///
/// `NoMemory`.
pub fn full_chain(alloc: Global, graph: &Graph, state: &State) -> Result<Vec<bool>, NoMemory>
    ensures { IfOk result (λ marks. AreMarks (length graph.now.stored) (is_in_full_chain graph.now.stored state.now) marks.items) }
{
    let places = state_places(alloc, graph, state)?;
    chains(alloc, graph, &places)
}

// The places of the events of a state.
pub(crate) fn state_places(
    alloc: Global,
    graph: &Graph,
    state: &State,
) -> Result<Vec<usize>, NoMemory>
    ensures within { IfOk result (λ places. All (λ place. place < length graph.now.stored) places.items) }
    ensures places { IfOk result (λ places. places.items ≡ places_of_state graph.now.stored state.now) }
{
    let entries = state.entries(alloc)?;
    places(alloc, graph, &entries)
}

// The places of the events of some entries.
fn places(alloc: Global, graph: &Graph, entries: &[Entry<'_>]) -> Result<Vec<usize>, NoMemory>
    ensures within { IfOk result (λ places. All (λ place. place < length graph.now.stored) places.items) }
    ensures places { IfOk result (λ places. places.items ≡ filter_map (place_of_entry graph.now.stored) (map seen entries.now)) }
{
    let mut places = Vec::new(alloc);
    for entry in entries {
        if let Some(place) = graph.place(entry.id.as_str()) {
            places.push(place)?;
        }
    }
    Ok(places)
}
