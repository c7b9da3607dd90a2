// What states that are kept by earlier ones disagree on.
ghost use Rattle.std.specs.Prelude.{◌≡◌, ◌<◌, ◌≤◌, All, IfOk, IfSome, length, map};
ghost use Rattle.fed_room_contract.specs.Entry.{seen};
ghost use Rattle.fed_room_contract.specs.Steps.{state_at};
ghost use Rattle.fed_resolve.specs.Marks.{AreMarks};
ghost use Rattle.fed_resolve.specs.ConflictParts.{places_of_state};
ghost use Rattle.fed_resolve.specs.MaskParts.{AreChainMasks};
ghost use Rattle.fed_resolve.specs.KeptParts.{is_between, is_conflict_of, is_own_of_some, own_and_common, own_places, place_in};

use crate::conflict::state_places;
use crate::difference::{keep_every, mark_some};
use crate::masks::{GROUPS, carry_down, mask_auths_of};
use crate::places::{add_marks, mark_all, remove_marks};
use fed_json::NoMemory;
use fed_room_contract::{Entry, Graph, State, Steps};
use std::alloc::Global;

/// The full conflicted set of the states at these places, as a mark for each place of the graph: of which entries they disagree, and what
/// they agree on. What they agree on is walked once for up to 64 states.
///
/// # Errors
///
/// `NoMemory`.
pub(crate) fn kept_conflict(
    alloc: Global,
    graph: &Graph,
    steps: &Steps,
    places: &[usize],
    disputed: &[Entry<'_>],
    agreed: &State,
) -> Result<Vec<bool>, NoMemory>
    ensures { IfOk result (λ marks. AreMarks (length graph.now.stored)
        (is_conflict_of graph.now.stored steps.now.after (map seen disputed.now) (places_of_state graph.now.stored agreed.now) places.now) marks.items) }
{
    let common = state_places(alloc, graph, agreed)?;
    let mut marks = conflicted(alloc, graph, steps, places, disputed)?;
    let difference = difference(alloc, graph, steps, places, disputed, &common)?;
    add_marks(&mut marks, &difference);
    Ok(marks)
}

// The events that the states have where they disagree.
fn conflicted(
    alloc: Global,
    graph: &Graph,
    steps: &Steps,
    places: &[usize],
    disputed: &[Entry<'_>],
) -> Result<Vec<bool>, NoMemory>
    ensures { IfOk result (λ marks. AreMarks (length graph.now.stored) (is_own_of_some graph.now.stored steps.now.after (map seen disputed.now) places.now) marks.items) }
{
    let mut marks = vec![in alloc; false; graph.events().len()]?;
    for place in places {
        let own = own_places(alloc, graph, steps, *place, disputed)?;
        mark_all(&own, &mut marks);
    }
    Ok(marks)
}

// The places of the events that the state at a place has where the states disagree.
fn own_places(
    alloc: Global,
    graph: &Graph,
    steps: &Steps,
    place: usize,
    disputed: &[Entry<'_>],
) -> Result<Vec<usize>, NoMemory>
    ensures within { IfOk result (λ places. All (λ place. place < length graph.now.stored) places.items) }
    ensures places { IfOk result (λ places. places.items ≡ own_places graph.now.stored (map seen disputed.now) (state_at steps.now.after place)) }
{
    let mut places = Vec::new(alloc);
    for entry in disputed {
        if let Some(own) = own_place(graph, steps, place, *entry) {
            places.push(own)?;
        }
    }
    Ok(places)
}

// The place of the event that the state at a place has at the type and state key of an entry.
fn own_place(graph: &Graph, steps: &Steps, place: usize, entry: Entry<'_>) -> Option<usize>
    ensures place { result ≡ place_in graph.now.stored (state_at steps.now.after place) (seen entry.entry) }
    ensures within { IfSome result (λ place. place < length graph.now.stored) }
{
    match steps.get(place, entry.kind, entry.state_key) {
        Some(id) => graph.place(id.as_str()),
        None => None,
    }
}

// The auth difference: the events of the full auth chains of some of the states but not of all.
fn difference(
    alloc: Global,
    graph: &Graph,
    steps: &Steps,
    places: &[usize],
    disputed: &[Entry<'_>],
    common: &[usize],
) -> Result<Vec<bool>, NoMemory>
    requires { All (λ place. place < length graph.now.stored) common.now }
    ensures { IfOk result (λ marks. AreMarks (length graph.now.stored)
        (is_between graph.now.stored (own_and_common graph.now.stored steps.now.after (map seen disputed.now) common.now) places.now) marks.items) }
{
    let mut some = vec![in alloc; false; graph.events().len()]?;
    let mut every = vec![in alloc; true; graph.events().len()]?;
    let mut left = places;
    while !left.is_empty() {
        let (turn, others) = left.split_at(left.len().min(GROUPS));
        let masks = kept_chains(alloc, graph, steps, turn, disputed, common)?;
        mark_some(&masks, &mut some);
        keep_every(&masks, u64::MAX >> (GROUPS - turn.len()), &mut every);
        left = others;
    }
    remove_marks(&mut some, &every);
    Ok(some)
}

// The full auth chains of the states at some places, which are no more than a word has bits, by one walk.
fn kept_chains(
    alloc: Global,
    graph: &Graph,
    steps: &Steps,
    places: &[usize],
    disputed: &[Entry<'_>],
    common: &[usize],
) -> Result<Vec<u64>, NoMemory>
    requires few { length places.now ≤ 64 }
    requires some { 0 < length places.now }
    requires common { All (λ place. place < length graph.now.stored) common.now }
    ensures { IfOk result (λ masks. AreChainMasks graph.now.stored (own_and_common graph.now.stored steps.now.after (map seen disputed.now) common.now) places.now 0 masks.items) }
{
    let mut masks = vec![in alloc; 0; graph.events().len()]?;
    for index in 0..places.len() {
        let own = own_places(alloc, graph, steps, places[index], disputed)?;
        mask_auths_of(graph, &own, 1 << index, &mut masks);
    }
    mask_auths_of(
        graph,
        common,
        u64::MAX >> (GROUPS - places.len()),
        &mut masks,
    );
    carry_down(graph, 0, &mut masks);
    Ok(masks)
}
