// What several states of a room disagree on.
ghost use Rattle.std.specs.Prelude.{◌≡◌, ◌<◌, ◌≤◌, ◌==◌, ◌&&◌, ◌||◌, not, IfOk, IfSome, length, map, slice_index};
ghost use Rattle.std.specs.List.{filter_map};
ghost use Rattle.fed_room_contract.specs.Entry.{seen};
ghost use Rattle.fed_resolve.specs.Marks.{AreMarks};
ghost use Rattle.fed_resolve.specs.Conflict.{is_conflicted, is_in_difference, is_full_conflicted, unconflicted as unconflicted_of};
ghost use Rattle.fed_resolve.specs.ChainParts.{is_marked, or_among};
ghost use Rattle.fed_resolve.specs.MaskParts.{AreChainMasks};
ghost use Rattle.fed_resolve.specs.ConflictParts.{disputed_beside, places_of_state};

use crate::conflict::{has_id_at, state_places, unconflicted};
use crate::masks::{GROUPS, carry_down, mask_auths_of};
use crate::places::{add_marks, remove_marks};
use fed_json::NoMemory;
use fed_room_contract::{Entry, Graph, State};
use std::alloc::Global;

/// The full conflicted set (room version 2, "State resolution", "Definitions"), as a mark for each place of the graph: the events that
/// a state has where not all states agree, and those that are in the full auth chains of some of the states but not of all. Without
/// states nothing is marked. The full auth chains of up to 64 states are found by one walk.
///
/// # Errors
///
/// `NoMemory`.
pub fn full_conflicted(
    alloc: Global,
    graph: &Graph,
    states: &[State],
) -> Result<Vec<bool>, NoMemory>
    ensures { IfOk result (λ marks. AreMarks (length graph.now.stored) (is_full_conflicted graph.now.stored states.now) marks.items) }
{
    let agreed = unconflicted(alloc, states)?;
    full_conflicted_beside(alloc, graph, states, &agreed)
}

// The full conflicted set beside the unconflicted state.
pub(crate) fn full_conflicted_beside(
    alloc: Global,
    graph: &Graph,
    states: &[State],
    agreed: &State,
) -> Result<Vec<bool>, NoMemory>
    requires { agreed.now ≡ unconflicted_of states.now }
    ensures { IfOk result (λ marks. AreMarks (length graph.now.stored) (is_full_conflicted graph.now.stored states.now) marks.items) }
{
    let mut marks = conflicted(alloc, graph, states, agreed)?;
    let difference = difference(alloc, graph, states)?;
    add_marks(&mut marks, &difference);
    Ok(marks)
}

// The conflicted state set: the events that a state has where not all agree.
fn conflicted(
    alloc: Global,
    graph: &Graph,
    states: &[State],
    agreed: &State,
) -> Result<Vec<bool>, NoMemory>
    requires { agreed.now ≡ unconflicted_of states.now }
    ensures { IfOk result (λ marks. AreMarks (length graph.now.stored) (is_conflicted graph.now.stored states.now) marks.items) }
{
    let mut marks = vec![in alloc; false; graph.len()]?;
    for state in states {
        let entries = state.entries(alloc)?;
        mark_disputed(graph, agreed, &entries, &mut marks);
    }
    Ok(marks)
}

// Marks the events of those of some entries that the unconflicted state has not.
fn mark_disputed(graph: &Graph, agreed: &State, entries: &[Entry<'_>], marks: &mut [bool])
    requires { length marks.old ≡ length graph.now.stored }
    ensures { AreMarks (length graph.now.stored) (or_among (filter_map (disputed_beside graph.now.stored agreed.now) (map seen entries.now)) marks.old) marks.new }
{
    for entry in entries {
        if let Some(place) = disputed_place(graph, agreed, *entry) {
            marks[place] = true;
        }
    }
}

// The place of the event of an entry that the unconflicted state has not.
fn disputed_place(graph: &Graph, agreed: &State, entry: Entry<'_>) -> Option<usize>
    ensures place { result ≡ disputed_beside graph.now.stored agreed.now (seen entry.entry) }
    ensures within { IfSome result (λ place. place < length graph.now.stored) }
{
    if has_id_at(agreed, entry.kind, entry.state_key, entry.id) {
        None
    } else {
        graph.place(entry.id.as_str())
    }
}

// The auth difference: the events of the full auth chains of some of the states but not of all.
fn difference(alloc: Global, graph: &Graph, states: &[State]) -> Result<Vec<bool>, NoMemory>
    ensures { IfOk result (λ marks. AreMarks (length graph.now.stored) (is_in_difference graph.now.stored states.now) marks.items) }
{
    let mut some = vec![in alloc; false; graph.len()]?;
    let mut every = vec![in alloc; true; graph.len()]?;
    let mut left = states;
    while !left.is_empty() {
        let (turn, others) = left.split_at(left.len().min(GROUPS));
        let masks = state_chains(alloc, graph, turn)?;
        mark_some(&masks, &mut some);
        keep_every(&masks, u64::MAX >> (GROUPS - turn.len()), &mut every);
        left = others;
    }
    remove_marks(&mut some, &every);
    Ok(some)
}

// The full auth chains of some states, which are no more than a word has bits, by one walk.
fn state_chains(alloc: Global, graph: &Graph, states: &[State]) -> Result<Vec<u64>, NoMemory>
    requires { length states.now ≤ 64 }
    ensures { IfOk result (λ masks. AreChainMasks graph.now.stored (places_of_state graph.now.stored) states.now 0 masks.items) }
{
    let mut masks = vec![in alloc; 0; graph.events().len()]?;
    for (index, state) in states.iter().enumerate() {
        let places = state_places(alloc, graph, state)?;
        mask_auths_of(graph, &places, 1 << index, &mut masks);
    }
    carry_down(graph, 0, &mut masks);
    Ok(masks)
}

// Marks the places whose words have a bit.
pub(crate) fn mark_some(masks: &[u64], marks: &mut [bool])
    requires { length marks.old ≡ length masks.now }
    ensures { AreMarks (length masks.now) (λ place. is_marked marks.old place || not (slice_index masks.now place == 0)) marks.new }
{
    for (place, mask) in masks.iter().enumerate() {
        if *mask != 0 {
            marks[place] = true;
        }
    }
}

// Leaves the marks of the places whose words are this one.
pub(crate) fn keep_every(masks: &[u64], word: u64, marks: &mut [bool])
    requires { length marks.old ≡ length masks.now }
    ensures { AreMarks (length masks.now) (λ place. is_marked marks.old place && (slice_index masks.now place == word)) marks.new }
{
    for (place, mask) in masks.iter().enumerate() {
        if *mask != word {
            marks[place] = false;
        }
    }
}
