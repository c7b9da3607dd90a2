// States that are kept or made.
ghost use Rattle.std.specs.Prelude.{◌≡◌, ◌<◌, List, All, IfOk, IfSome, length};
ghost use Rattle.fed_resolve.specs.Resolution.{resolved_of};
ghost use Rattle.fed_room_contract.specs.State.{StateMap};
ghost use Rattle.fed_room_contract.specs.StateRef.{seen as ref_seen};
ghost use Rattle.fed_room.specs.States.{state_with};
ghost use Rattle.fed_room.specs.StatesParts.{at_places, seen, before_seen, after_seen, IsMadeOver, IsThere, IsThereBefore, IsThereIn, IsKeptIn, IsOne};

use crate::after::After;
use crate::before::Before;
use crate::decision::{lay, state_with};
use fed_event::Checked;
use fed_json::NoMemory;
use fed_resolve::{Merged, resolve_kept};
use fed_room_contract::{Graph, State, StateRef, Steps, Verdict};
use std::alloc::Global;

/// A resolved state: one that is kept at a place, or one that was made, and the place of one of those of which it was made.
#[derive(Drop)]
pub(crate) enum Resolved<'a> {
    Kept(&'a Steps, usize),
    Made(Option<usize>, Merged),
}

impl Resolved<'_> {
    /// The state, to look up in.
    pub(crate) fn state(&self) -> StateRef<'_>
        ensures { ref_seen result ≡ seen self.now }
    {
        match self {
            Resolved::Kept(states, place) => StateRef::Kept(states, *place),
            Resolved::Made(_, merged) => StateRef::Whole(&merged.state),
        }
    }

    /// A copy of the state.
    pub(crate) fn copy(&self, alloc: Global) -> Result<State, NoMemory>
        requires { IsThere self.now }
        ensures { IfOk result (λ state. state ≡ seen self.now) }
    {
        match self {
            Resolved::Kept(states, place) => states.copy(alloc, *place),
            Resolved::Made(_, merged) => merged.state.copy(alloc),
        }
    }

    /// The state, apart from where it is kept.
    pub(crate) fn before(&self, alloc: Global) -> Result<Before, NoMemory>
        ensures there { (states : List StateMap) → IsKeptIn states self.now → IfOk result (IsThereBefore states) }
        ensures state { (states : List StateMap) → IsKeptIn states self.now → IfOk result (λ before. before_seen states before ≡ seen self.now) }
    {
        match self {
            Resolved::Kept(_, place) => Ok(Before::Kept(*place)),
            Resolved::Made(_, merged) => Ok(Before::Made(merged.state.copy(alloc)?)),
        }
    }

    /// The state after an event of this state before it.
    pub(crate) fn after(
        self,
        alloc: Global,
        event: &Checked,
        verdict: Verdict,
    ) -> Result<After, NoMemory>
        requires { IsThere self }
        ensures there { (states : List StateMap) → IsKeptIn states self.entry → IfOk result (IsThereIn states) }
        ensures state { (states : List StateMap) → IsKeptIn states self.entry
            → IfOk result (λ after. after_seen states event.now.event after ≡ state_with (seen self.entry) (record { event = event.now; verdict = verdict })) }
    {
        match self {
            Resolved::Kept(_, place) => {
                if verdict.is_rejected() {
                    return Ok(After::Same(place));
                }
                Ok(After::Laid(place))
            }
            Resolved::Made(over, merged) => after_merged(alloc, over, merged, event, verdict),
        }
    }
}

// The state after an event of a state before it that was made of several.
fn after_merged(
    alloc: Global,
    over: Option<usize>,
    merged: Merged,
    event: &Checked,
    verdict: Verdict,
) -> Result<After, NoMemory>
    ensures there { (states : List StateMap) → IfSome over (IsMadeOver states merged) → IfOk result (IsThereIn states) }
    ensures state { (states : List StateMap) → IfOk result (λ after. after_seen states event.now.event after ≡ state_with merged.state (record { event = event.now; verdict = verdict })) }
{
    let Merged { state, mut keys } = merged;
    let state = state_with(alloc, state, event, verdict)?;
    let Some(over) = over else {
        return Ok(After::Whole(state));
    };
    lay(alloc, event.event(), &mut keys)?;
    Ok(After::Changed { over, state, keys })
}

/// The states at these places, counted from 0, resolved in this graph. Where they are kept as one, it is not copied, and nothing is
/// resolved; else what is made of them is told with where it differs from them.
///
/// # Errors
///
/// `NoMemory`.
pub(crate) fn resolved_at<'a>(
    alloc: Global,
    graph: &Graph,
    states: &'a Steps,
    places: &[usize],
) -> Result<Resolved<'a>, NoMemory>
    requires { All (λ place. place < length states.now.after) places.now }
    ensures kept { IfOk result (IsKeptIn states.now.after) }
    ensures state { IfOk result (λ resolved. seen resolved ≡ resolved_of graph.now.stored (at_places states.now.after places.now)) }
{
    if let Some(place) = one_of(states, places) {
        return Ok(Resolved::Kept(states, place));
    }
    let merged = resolve_kept(alloc, graph, states, places)?;
    Ok(Resolved::Made(places.first().copied(), merged))
}

// The place of the state that all of these are kept as.
fn one_of(states: &Steps, places: &[usize]) -> Option<usize>
    requires { All (λ place. place < length states.now.after) places.now }
    ensures { IfSome result (IsOne states.now.after places.now) }
{
    if places.is_empty() {
        return None;
    }
    let first = places[0];
    for place in places {
        if !states.are_one(first, *place) {
            return None;
        }
    }
    Some(first)
}
