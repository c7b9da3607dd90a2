// Where the states of a room differ.
ghost use Rattle.std.specs.Prelude.{◌<◌, ◌≤◌, ◌+◌, ℕ, All, Contains, IfOk, OnOk, length};
ghost use Rattle.fed_room_contract.specs.Steps.{IsAlikeBut, AreAlikeBut};
ghost use Rattle.fed_room_contract.specs.ChangeParts.{AreEntriesBeyond, HasMoreKeys};
ghost use Rattle.fed_room_contract.specs.StepParts.{AreSteps, head_state, states_of};

use crate::change::add_keys;
use crate::state::State;
use crate::step::Step;
use fed_json::NoMemory;
use std::alloc::Global;
use std::collections::BTreeSet;

/// The types and state keys at which the states at these places may differ. Each state is followed to those that it was made of, the latest
/// first, until all have come to one. A place is told as one more, and 0 stands for no state.
///
/// # Errors
///
/// `NoMemory`.
pub(crate) fn differing(alloc: Global, steps: &[Step], places: &[usize]) -> Result<State, NoMemory>
    requires steps { AreSteps steps.now }
    requires within { All (λ place. place < length steps.now) places.now }
    ensures { IfOk result (λ keys. AreAlikeBut keys (states_of steps.now) places.now) }
{
    let mut keys = State::new(alloc);
    let mut left = heads(alloc, steps.len(), places)?;
    let Some(mut latest) = left.pop_last() else {
        return Ok(keys);
    };
    while !left.is_empty() {
        left.insert(below(alloc, steps, latest, &mut keys)?)?;
        match left.pop_last() {
            Some(next) => latest = next,
            None => unreachable!(),
        }
    }
    Ok(keys)
}

// Places below a count, each told as one more.
fn heads(alloc: Global, count: usize, places: &[usize]) -> Result<BTreeSet<usize>, NoMemory>
    requires { All (λ place. place < count) places.now }
    ensures within { IfOk result (λ heads. All (λ head. head ≤ count) heads.keys) }
    ensures each { IfOk result (λ heads. (place : ℕ) → Contains places.now place → Contains heads.keys (place + 1)) }
{
    let mut heads = BTreeSet::new(alloc);
    for place in places {
        heads.insert(place + 1)?;
    }
    Ok(heads)
}

// Of which state one was made, with the keys at which they differ added to some.
fn below(alloc: Global, steps: &[Step], head: usize, keys: &mut State) -> Result<usize, NoMemory>
    requires steps { AreSteps steps.now }
    requires some { 0 < head }
    requires within { head ≤ length steps.now }
    ensures before { IfOk result (λ below. below < head) }
    ensures more { OnOk result (HasMoreKeys keys.old keys.new) }
    ensures alike { IfOk result (λ below. IsAlikeBut keys.new (head_state (states_of steps.now) below) (head_state (states_of steps.now) head)) }
{
    let over = match &steps[head - 1] {
        Step::Same { parent } => return Ok(parent + 1),
        Step::Laid(laid) => &laid.over,
        Step::Whole(whole) => match &whole.over {
            Some(over) => over,
            None => {
                add_entries(alloc, &whole.state, keys)?;
                return Ok(0);
            }
        },
    };
    add_keys(alloc, &over.changes, keys)?;
    Ok(over.parent + 1)
}

// Adds the types and state keys of the entries of a state to those at which another one has entries.
fn add_entries(alloc: Global, state: &State, keys: &mut State) -> Result<(), NoMemory>
    ensures { OnOk result (AreEntriesBeyond keys.old state.now keys.new) }
{
    for entry in &state.entries(alloc)? {
        keys.insert(alloc, entry.kind, entry.state_key, entry.id.copy(alloc)?)?;
    }
    Ok(())
}
