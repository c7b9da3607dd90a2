// State resolution of states that are kept by earlier ones.
ghost use Rattle.std.specs.Prelude.{◌≡◌, ◌<◌, ◌∷◌, ℕ, All, Contains, IfOk, OnOk, bytes_eq, length, map, option_map};
ghost use Rattle.std.specs.FinMap as finite;
ghost use Rattle.std.specs.Option.{option_eq};
ghost use Rattle.fed_room_contract.specs.Entry.{seen};
ghost use Rattle.fed_room_contract.specs.State.{entry_at};
ghost use Rattle.fed_room_contract.specs.Steps.{AreAlikeBut, IsAlikeBut, state_at};
ghost use Rattle.fed_resolve.specs.Conflict.{is_full_conflicted, unconflicted as unconflicted_of};
ghost use Rattle.fed_resolve.specs.ConflictParts.{AreKept};
ghost use Rattle.fed_resolve.specs.Marks.{AreMarks};
ghost use Rattle.fed_resolve.specs.Resolution.{resolved_of};
ghost use Rattle.fed_resolve.specs.KeptParts.{HasKeyAt, HasKeysOf, IsWithout, agree_at, at_places, disputed_of};

use crate::dispute::kept_conflict;
use crate::order::Listing;
use crate::resolution::{check_set, with_entries};
use fed_event::EventId;
use fed_json::NoMemory;
use fed_room_contract::{Entry, Graph, State, Steps};
use std::alloc::Global;

/// What several states resolve to, and as entries of another state the types and state keys at which alone it may differ from each of them.
#[derive(Drop)]
pub struct Merged {
    pub state: State,
    pub keys: State,
}

/// The state that the states at these places resolve to, as `resolve` finds it. What is looked at of each state is what differs: the changes
/// since they parted. What they all have is looked at once.
///
/// # Errors
///
/// `NoMemory`.
pub fn resolve_kept(
    alloc: Global,
    graph: &Graph,
    steps: &Steps,
    places: &[usize],
) -> Result<Merged, NoMemory>
    requires { All (λ place. place < length steps.now.after) places.now }
    ensures state { IfOk result (λ merged. merged.state ≡ resolved_of graph.now.stored (at_places steps.now.after places.now)) }
    ensures alike { IfOk result (λ merged. (place : ℕ) → Contains places.now place → IsAlikeBut merged.keys (state_at steps.now.after place) merged.state) }
{
    let mut keys = steps.differing(alloc, places)?;
    let Some((first, others)) = places.split_first() else {
        let state = State::new(alloc);
        return Ok(Merged { state, keys });
    };
    let (agreed, set) = parted(alloc, graph, steps, places, *first, others, &keys)?;
    add_keys_of(alloc, graph, &set, &mut keys)?;
    let kept = at_keys(alloc, &agreed, &keys)?;
    let state = check_set(alloc, Listing::Ready, graph, set, agreed)?;
    let state = with_entries(alloc, state, &kept)?;
    Ok(Merged { state, keys })
}

// The unconflicted state of the states at these places, of which one stands first, and their full conflicted set as marks, where they may
// differ at these types and state keys alone.
fn parted(
    alloc: Global,
    graph: &Graph,
    steps: &Steps,
    places: &[usize],
    first: usize,
    others: &[usize],
    keys: &State,
) -> Result<(State, Vec<bool>), NoMemory>
    requires parts { places.now ≡ first ∷ others.now }
    requires within { All (λ place. place < length steps.now.after) places.now }
    requires alike { AreAlikeBut keys.now steps.now.after places.now }
    ensures agreed { IfOk result (λ r. r.0 ≡ unconflicted_of (at_places steps.now.after places.now)) }
    ensures set { IfOk result (λ r. AreMarks (length graph.now.stored) (is_full_conflicted graph.now.stored (at_places steps.now.after places.now)) r.1.items) }
{
    let entries = keys.entries(alloc)?;
    let disputed = disputed(alloc, steps, first, others, &entries)?;
    let agreed = without(steps.copy(alloc, first)?, &disputed);
    let set = kept_conflict(alloc, graph, steps, places, &disputed, &agreed)?;
    Ok((agreed, set))
}

// What a state has at the types and state keys of the entries of another one.
fn at_keys(alloc: Global, state: &State, keys: &State) -> Result<State, NoMemory>
    ensures { IfOk result (λ few. AreKept state.now (finite.entries keys.now) few) }
{
    let mut few = State::new(alloc);
    for entry in &keys.entries(alloc)? {
        if let Some(id) = state.get(entry.kind, entry.state_key) {
            few.insert(alloc, entry.kind, entry.state_key, id.copy(alloc)?)?;
        }
    }
    Ok(few)
}

// Of these entries those at whose types and state keys not all states have the same.
fn disputed<'a>(
    alloc: Global,
    steps: &Steps,
    first: usize,
    others: &[usize],
    entries: &[Entry<'a>],
) -> Result<Vec<Entry<'a>>, NoMemory>
    ensures { IfOk result (λ disputed. map seen disputed.items ≡ disputed_of steps.now.after (state_at steps.now.after first) others.now (map seen entries.now)) }
{
    let mut disputed = Vec::new(alloc);
    for entry in entries {
        if !all_agree(steps, first, others, entry.kind, entry.state_key) {
            disputed.push(*entry)?;
        }
    }
    Ok(disputed)
}

// Whether the states at these places have at a type and state key what the one at the first place has.
fn all_agree(steps: &Steps, first: usize, others: &[usize], kind: &str, state_key: &str) -> bool
    ensures { result ≡ agree_at steps.now.after (state_at steps.now.after first) others.now (kind.now, state_key.now) }
{
    let id = steps.get(first, kind, state_key);
    for place in others {
        if !has_same(steps, *place, kind, state_key, id) {
            return false;
        }
    }
    true
}

// Whether the state at a place has this id, or none, at a type and state key.
fn has_same(steps: &Steps, place: usize, kind: &str, state_key: &str, id: Option<&EventId>) -> bool
    ensures { result ≡ option_eq bytes_eq (entry_at (state_at steps.now.after place) kind.now state_key.now) (option_map (λ id. id.now) id.entry) }
{
    steps.get(place, kind, state_key) == id
}

// A state without the entries at the types and state keys of these.
fn without(state: State, entries: &[Entry<'_>]) -> State
    ensures { IsWithout state (map seen entries.now) result }
{
    let mut left = state;
    for entry in entries {
        left.remove(entry.kind, entry.state_key);
    }
    left
}

// Adds the types and state keys at which the events of a set stand to those of the entries of a state.
fn add_keys_of(
    alloc: Global,
    graph: &Graph,
    marks: &[bool],
    keys: &mut State,
) -> Result<(), NoMemory>
    ensures { OnOk result (HasKeysOf graph.now.stored marks.now keys.old keys.new) }
{
    for place in 0..marks.len() {
        if marks[place] {
            add_key_at(alloc, graph, place, keys)?;
        }
    }
    Ok(())
}

// Adds the type and state key at which the event at a place stands.
fn add_key_at(alloc: Global, graph: &Graph, place: usize, keys: &mut State) -> Result<(), NoMemory>
    ensures { OnOk result (HasKeyAt graph.now.stored place keys.old keys.new) }
{
    if let Some(stored) = graph.at(place) {
        let event = stored.event.event();
        if let Some(state_key) = event.state_key() {
            keys.insert(alloc, event.kind(), state_key, event.id().copy(alloc)?)?;
        }
    }
    Ok(())
}
