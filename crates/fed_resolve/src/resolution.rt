// State resolution.
ghost use Rattle.std.specs.Prelude.{◌≡◌, ◌<◌, ℕ, Bool, List, IfOk, IfSome, length};
ghost use Rattle.std.specs.FinMap as finite;
ghost use Rattle.fed_resolve.specs.Chain.{members as members_of};
ghost use Rattle.fed_resolve.specs.Checks.{checked};
ghost use Rattle.fed_room_contract.specs.State.{StateMap};
ghost use Rattle.fed_resolve.specs.Conflict.{is_full_conflicted, unconflicted as unconflicted_of};
ghost use Rattle.fed_resolve.specs.Mainline.{mainline_order as mainline_order_of};
ghost use Rattle.fed_resolve.specs.Marks.{AreMarks};
ghost use Rattle.fed_resolve.specs.PowerOrder.{power_order as power_order_of};
ghost use Rattle.fed_resolve.specs.Resolution.{with_entries, levels_in, checked_state, resolved_of};

use crate::checks::checked;
use crate::conflict::unconflicted;
use crate::difference::full_conflicted_beside;
use crate::equality::are_all;
use crate::mainline::mainline_order_by;
use crate::order::Listing;
use crate::places::members;
use crate::power::{other_set, power_set};
use crate::topological::power_order_by;
use fed_json::NoMemory;
use fed_room_contract::{Graph, State};
use std::alloc::Global;

/// The state that several states of a room resolve to (room version 2, "State resolution", "Algorithm"): what they all agree on, and for
/// the rest what the authorization rules leave when first the power events of the full conflicted set are checked, in the reverse
/// topological power order, and then the others, in the mainline order. Without states nothing holds in it, and one state resolves to
/// itself. In which order the states are given makes no difference.
///
/// The graph has to hold what the states name: an event that it lacks has no auth chain and counts as missing. The time grows with the
/// graph, with the states, with the full conflicted set and its logarithm, and, by a test of one bit, with the square of the power events of
/// that set and of what of it is in their auth chains; where all states are equal, with the states alone.
///
/// # Errors
///
/// `NoMemory`.
pub fn resolve(alloc: Global, graph: &Graph, states: &[State]) -> Result<State, NoMemory>
    ensures { IfOk result (λ state. state ≡ resolved_of graph.now.stored states.now) }
{
    resolve_by(alloc, Listing::Ready, graph, states)
}

// The same, with the events that come next in the two orders found in one of two ways.
pub(crate) fn resolve_by(
    alloc: Global,
    listing: Listing,
    graph: &Graph,
    states: &[State],
) -> Result<State, NoMemory>
    ensures { IfOk result (λ state. state ≡ resolved_of graph.now.stored states.now) }
{
    let Some((first, others)) = states.split_first() else {
        return Ok(State::new(alloc));
    };
    let equal = are_all(alloc, first, others)?;
    if equal {
        return first.copy(alloc);
    }
    let agreed = unconflicted(alloc, states)?;
    let state = agreed.copy(alloc)?;
    let state = check_conflicted(alloc, listing, graph, states, state)?;
    with_entries(alloc, state, &agreed)
}

// Checks the full conflicted set, from the unconflicted state on: its power events first, then the others.
fn check_conflicted(
    alloc: Global,
    listing: Listing,
    graph: &Graph,
    states: &[State],
    agreed: State,
) -> Result<State, NoMemory>
    requires { agreed ≡ unconflicted_of states.now }
    ensures { IfOk result (λ state. state ≡ checked_state graph.now.stored states.now) }
{
    let set = full_conflicted_beside(alloc, graph, states, &agreed)?;
    check_set(alloc, listing, graph, set, agreed)
}

// The same of a full conflicted set.
pub(crate) fn check_set(
    alloc: Global,
    listing: Listing,
    graph: &Graph,
    set: Vec<bool>,
    agreed: State,
) -> Result<State, NoMemory>
    requires { length set.items ≡ length graph.now.stored }
    ensures { IfOk result (λ state. (states : List StateMap) → agreed ≡ unconflicted_of states
        → AreMarks (length graph.now.stored) (is_full_conflicted graph.now.stored states) set.items → state ≡ checked_state graph.now.stored states) }
{
    let power = power_set(alloc, graph, &set)?;
    let others = other_set(set, &power);
    let state = check_by_power(alloc, listing, graph, &power, agreed)?;
    check_by_mainline(alloc, listing, graph, &others, state)
}

// Checks the events at the places that are marked, in the reverse topological power order.
fn check_by_power(
    alloc: Global,
    listing: Listing,
    graph: &Graph,
    marks: &[bool],
    state: State,
) -> Result<State, NoMemory>
    requires { length marks.now ≡ length graph.now.stored }
    ensures { IfOk result (λ after. (test : ℕ → Bool) → AreMarks (length graph.now.stored) test marks.now
        → after ≡ checked graph.now.stored state (power_order_of graph.now.stored (members_of graph.now.stored test))) }
{
    let places = members(alloc, marks)?;
    let places = power_order_by(alloc, listing, graph, &places)?;
    checked(alloc, graph, &places, state)
}

// Checks the events at the places that are marked, in the mainline order of the power levels of the state.
fn check_by_mainline(
    alloc: Global,
    listing: Listing,
    graph: &Graph,
    marks: &[bool],
    state: State,
) -> Result<State, NoMemory>
    requires { length marks.now ≡ length graph.now.stored }
    ensures { IfOk result (λ after. (test : ℕ → Bool) → AreMarks (length graph.now.stored) test marks.now
        → after ≡ checked graph.now.stored state
        (mainline_order_of graph.now.stored (levels_in graph.now.stored state) (members_of graph.now.stored test))) }
{
    let places = members(alloc, marks)?;
    let levels = levels_place(graph, &state);
    let places = mainline_order_by(alloc, listing, graph, levels, &places)?;
    checked(alloc, graph, &places, state)
}

// The place of the power levels event of a state.
fn levels_place(graph: &Graph, state: &State) -> Option<usize>
    ensures place { result ≡ levels_in graph.now.stored state.now }
    ensures within { IfSome result (λ place. place < length graph.now.stored) }
{
    match state.get("m.room.power_levels", "") {
        Some(id) => graph.place(id.as_str()),
        None => None,
    }
}

// A state with the entries of another one laid over it.
pub(crate) fn with_entries(alloc: Global, state: State, other: &State) -> Result<State, NoMemory>
    ensures { IfOk result (λ all. all ≡ with_entries state (finite.entries other.now)) }
{
    let mut all = state;
    for entry in &other.entries(alloc)? {
        all.insert(alloc, entry.kind, entry.state_key, entry.id.copy(alloc)?)?;
    }
    Ok(all)
}
