// The states of a room, each kept by an earlier one.
ghost use Rattle.std.specs.Arc.{arc_value};
ghost use Rattle.std.specs.Prelude.{◌≡◌, ◌∷◌, ◌++◌, [], ◌<◌, length, All, IfOk, IfSome, IsSome, OnOk, OnErr, None, Some, true, option_map};
ghost use Rattle.fed_room_contract.specs.State.{entry_at, with_entry};
ghost use Rattle.fed_room_contract.specs.Steps.{IsAlikeBut, AreAlikeBut, state_at};
ghost use Rattle.fed_room_contract.specs.Store.{with_room_for};
ghost use Rattle.fed_room_contract.specs.ChangeParts.{IsTagged, with_changes, tag_of as tag_of_key};
ghost use Rattle.fed_room_contract.specs.StepParts.{AreSteps, IsLower, states_of, step_state, is_root_at};

use crate::change::{Change, bit_of, bits_with, change_at, changes_at, make_all, tag_of};
use crate::differing::differing;
use crate::state::State;
use crate::step::{Laid, MAX_ABOVE, Over, Step, Whole};
use crate::store::EventStore;
use fed_event::EventId;
use fed_json::NoMemory;
use std::alloc::Global;
use std::marker::Model;
use std::sync::Arc;

/// States one after another, and the next one, where it is made already. Each is kept as the same as an earlier one, as an earlier one with
/// changes, or whole. A look-up passes at most 32 others before it comes to a whole one, and mostly none: each of them knows by a word of
/// bits what may be changed below it. The state that was shared last is there whole too.
///
/// Contracts see it as these states.
#[derive(Drop)]
pub struct Steps {
    steps: Vec<Step>,
    next: Option<Step>,
    shared: Option<Shared>,
}

// The state at a place, whole.
#[derive(Drop)]
struct Shared {
    place: usize,
    state: Arc<State>,
}

impl Model for Steps {
    ghost use Rattle.fed_room_contract.specs.Steps.{KeptStates, states_code};
    ghost use Rattle.fed_room_contract.specs.StepParts.{kept_of, HoldsTogether};

    ghost Value = { KeptStates };

    ghost coded = { states_code };

    ghost view = { kept_of };

    ghost invariant = { HoldsTogether };
}

impl Steps {
    /// No states.
    pub fn new(alloc: Global) -> Steps
        ensures { result ≡ record { after = []; next = None } }
    {
        Steps {
            steps: Vec::new(alloc),
            next: None,
            shared: None,
        }
    }

    /// The id of the event that holds at a type and state key in the state at a place, counted from 0; `None` also where no state is there.
    pub fn get(&self, place: usize, kind: &str, state_key: &str) -> Option<&EventId>
        ensures { option_map (λ id. id.now) result ≡ entry_at (state_at self.now.after place) kind.now state_key.now }
    {
        find(&self.steps, place, tag_of(kind, state_key), kind, state_key)
    }

    /// The state at a place, to keep.
    ///
    /// # Errors
    ///
    /// `NoMemory`.
    pub fn copy(&self, alloc: Global, place: usize) -> Result<State, NoMemory>
        requires { place < length self.now.after }
        ensures { IfOk result (λ state. state ≡ state_at self.now.after place) }
    {
        copy_at(alloc, &self.steps, place)
    }

    /// The state at a place, to share. Where it is kept as one with the one that was shared last, nothing is copied.
    ///
    /// # Errors
    ///
    /// `NoMemory`.
    pub fn share(&mut self, alloc: Global, place: usize) -> Result<Arc<State>, NoMemory>
        requires { place < length self.old.after }
        ensures same { self.new ≡ self.old }
        ensures state { IfOk result (λ state. arc_value state ≡ state_at self.old.after place) }
    {
        let place = root(&self.steps, place);
        if let Some(shared) = &self.shared
            && shared.place == place
        {
            return Arc::try_clone(&shared.state);
        }
        let state = Arc::new(alloc, copy_at(alloc, &self.steps, place)?)?;
        let kept = Arc::try_clone(&state)?;
        self.shared = Some(Shared { place, state: kept });
        Ok(state)
    }

    /// The types and state keys at which the states at these places may differ, as those of the entries of a state: at all others they
    /// have the same. What is passed are the changes since these states parted, each once, and no whole state but one that was made of none.
    ///
    /// # Errors
    ///
    /// `NoMemory`.
    pub fn differing(&self, alloc: Global, places: &[usize]) -> Result<State, NoMemory>
        requires { All (λ place. place < length self.now.after) places.now }
        ensures { IfOk result (λ keys. AreAlikeBut keys self.now.after places.now) }
    {
        differing(alloc, &self.steps, places)
    }

    /// Whether the states at two places are kept as one. States that are not may be equal too.
    pub fn are_one(&self, place: usize, other: usize) -> bool
        requires place { place < length self.now.after }
        requires other { other < length self.now.after }
        ensures { result ≡ true → state_at self.now.after place ≡ state_at self.now.after other }
    {
        root(&self.steps, place) == root(&self.steps, other)
    }

    /// Makes the next state the same as the one at a place, and room for it, so that `push_next` takes no memory; and room in a store for the
    /// event of this id. Either both are made or none.
    ///
    /// # Errors
    ///
    /// `NoMemory`; then the states and the store are as they were.
    pub fn set_same(
        &mut self,
        alloc: Global,
        place: usize,
        store: &mut EventStore,
        event: &EventId,
    ) -> Result<(), NoMemory>
        requires { place < length self.old.after }
        ensures ok { OnOk result (self.new ≡ record { after = self.old.after; next = Some (state_at self.old.after place) }) }
        ensures room { OnOk result (store.new ≡ with_room_for store.old event.now) }
        ensures err { OnErr result ((self.new ≡ self.old) × (store.new ≡ store.old)) }
    {
        self.steps.reserve(1)?;
        store.reserve(alloc, event)?;
        let parent = root(&self.steps, place);
        self.next = Some(Step::Same { parent });
        Ok(())
    }

    /// The same with an entry laid over the state at the place: the event holds at the type and state key.
    ///
    /// # Errors
    ///
    /// `NoMemory`; then the states and the store are as they were.
    pub fn set_laid(
        &mut self,
        alloc: Global,
        place: usize,
        kind: &str,
        state_key: &str,
        store: &mut EventStore,
        event: &EventId,
    ) -> Result<(), NoMemory>
        requires { place < length self.old.after }
        ensures ok { OnOk result (self.new ≡ record { after = self.old.after; next = Some (with_entry (state_at self.old.after place) kind.now state_key.now event.now) }) }
        ensures room { OnOk result (store.new ≡ with_room_for store.old event.now) }
        ensures err { OnErr result ((self.new ≡ self.old) × (store.new ≡ store.old)) }
    {
        let id = event.copy(alloc)?;
        let mut changes = Vec::new(alloc);
        changes.push(Change::new(alloc, kind, state_key, id, true)?)?;
        self.steps.reserve(1)?;
        let next = step_with(alloc, &self.steps, place, changes)?;
        store.reserve(alloc, event)?;
        self.next = Some(next);
        Ok(())
    }

    /// The same with a state that has what the one at the place has, but for the types and state keys at which `keys` has entries: of these
    /// alone it is kept what the state has.
    ///
    /// # Errors
    ///
    /// `NoMemory`; then the states and the store are as they were.
    pub fn set_changed(
        &mut self,
        alloc: Global,
        place: usize,
        state: &State,
        keys: &State,
        store: &mut EventStore,
        event: &EventId,
    ) -> Result<(), NoMemory>
        requires place { place < length self.old.after }
        requires alike { IsAlikeBut keys.now (state_at self.old.after place) state.now }
        ensures ok { OnOk result (self.new ≡ record { after = self.old.after; next = Some state.now }) }
        ensures room { OnOk result (store.new ≡ with_room_for store.old event.now) }
        ensures err { OnErr result ((self.new ≡ self.old) × (store.new ≡ store.old)) }
    {
        let changes = changes_at(alloc, state, keys)?;
        self.steps.reserve(1)?;
        let next = step_with(alloc, &self.steps, place, changes)?;
        store.reserve(alloc, event)?;
        self.next = Some(next);
        Ok(())
    }

    /// The same with a state that is kept whole.
    ///
    /// # Errors
    ///
    /// `NoMemory`; then the states and the store are as they were.
    pub fn set_whole(
        &mut self,
        alloc: Global,
        state: State,
        store: &mut EventStore,
        event: &EventId,
    ) -> Result<(), NoMemory>
        ensures ok { OnOk result (self.new ≡ record { after = self.old.after; next = Some state }) }
        ensures room { OnOk result (store.new ≡ with_room_for store.old event.now) }
        ensures err { OnErr result ((self.new ≡ self.old) × (store.new ≡ store.old)) }
    {
        self.steps.reserve(1)?;
        store.reserve(alloc, event)?;
        self.next = Some(Step::Whole(Whole { state, over: None }));
        Ok(())
    }

    /// Adds the next state. It takes no memory.
    pub fn push_next(&mut self)
        requires { IsSome self.old.next }
        ensures { IfSome self.old.next (λ state. self.new ≡ record { after = self.old.after ++ state ∷ []; next = None }) }
    {
        match self.next.take() {
            Some(step) => self.steps.push(step).unwrap(),
            None => unreachable!(),
        }
    }
}

// The id of the event that holds at a type and state key, whose tag is given, in the state at a place.
fn find<'a>(
    steps: &'a [Step],
    place: usize,
    tag: usize,
    kind: &str,
    state_key: &str,
) -> Option<&'a EventId>
    requires steps { AreSteps steps.now }
    requires tag { tag ≡ tag_of_key kind.now state_key.now }
    ensures { option_map (λ id. id.now) result ≡ entry_at (state_at (states_of steps.now) place) kind.now state_key.now }
{
    let bit = bit_of(tag);
    let mut place = place;
    while let Some(step) = steps.get(place) {
        match step {
            Step::Same { parent } => place = *parent,
            Step::Laid(laid) => {
                if laid.bits & bit == 0 {
                    place = laid.base;
                } else if let Some(change) = change_at(&laid.over.changes, tag, kind, state_key) {
                    return change.id();
                } else {
                    place = laid.over.parent;
                }
            }
            Step::Whole(whole) => return whole.state.get(kind, state_key),
        }
    }
    None
}

// The state at a place, to keep.
fn copy_at(alloc: Global, steps: &[Step], place: usize) -> Result<State, NoMemory>
    requires steps { AreSteps steps.now }
    requires within { place < length steps.now }
    ensures { IfOk result (λ state. state ≡ state_at (states_of steps.now) place) }
{
    match &steps[place] {
        Step::Same { parent } => copy_at(alloc, steps, *parent),
        Step::Laid(laid) => {
            let mut state = copy_at(alloc, steps, laid.over.parent)?;
            make_all(alloc, &laid.over.changes, &mut state)?;
            Ok(state)
        }
        Step::Whole(whole) => whole.state.copy(alloc),
    }
}

// The place at which the state at a place is laid or whole.
fn root(steps: &[Step], place: usize) -> usize
    requires steps { AreSteps steps.now }
    requires within { place < length steps.now }
    ensures within { result < length steps.now }
    ensures root { is_root_at steps.now result ≡ true }
    ensures same { state_at (states_of steps.now) result ≡ state_at (states_of steps.now) place }
{
    match &steps[place] {
        Step::Same { parent } => *parent,
        Step::Laid(_) | Step::Whole(_) => place,
    }
}

// The state at a place with changes: whole, where more would be laid over a whole one than may be.
fn step_with(
    alloc: Global,
    steps: &[Step],
    place: usize,
    changes: Vec<Change>,
) -> Result<Step, NoMemory>
    requires steps { AreSteps steps.now }
    requires within { place < length steps.now }
    requires tags { All IsTagged changes.items }
    ensures lower { IfOk result (λ step. IsLower steps.now step) }
    ensures state { IfOk result (λ step. step_state (states_of steps.now) step ≡ with_changes (state_at (states_of steps.now) place) changes.items) }
{
    let parent = root(steps, place);
    if changes.is_empty() {
        return Ok(Step::Same { parent });
    }
    let below = &steps[parent];
    let (above, count) = (below.above(), changes.len());
    if above >= MAX_ABOVE || count > MAX_ABOVE - above {
        let mut state = copy_at(alloc, steps, parent)?;
        make_all(alloc, &changes, &mut state)?;
        let over = Some(Over { parent, changes });
        return Ok(Step::Whole(Whole { state, over }));
    }
    Ok(Step::Laid(Laid {
        base: below.base(parent),
        above: above + count,
        bits: bits_with(below.bits(), &changes),
        over: Over { parent, changes },
    }))
}
