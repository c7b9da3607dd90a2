// Reverse topological power ordering.
ghost use Rattle.std.specs.Prelude.{◌≡◌, ◌<◌, ◌≤◌, ◌++◌, All, IfOk, OnOk, filter, length, map, slice_index};
ghost use Rattle.fed_resolve.specs.PowerOrder.{power_order as power_order_of};
ghost use Rattle.fed_resolve.specs.MaskParts.{AreChainMasks, AreSetMasks, has_bit, itself_alone};
ghost use Rattle.fed_resolve.specs.OrderParts.{candidate_place};
ghost use Rattle.fed_resolve.specs.RankParts.{IsPowerRank, IsPowerCandidate};

use crate::levels::sender_level;
use crate::masks::{GROUPS, carry_down, mask_auths};
use crate::order::{Candidate, Listing, Rank, in_order};
use fed_auth::Level;
use fed_json::NoMemory;
use fed_room_contract::Graph;
use std::alloc::Global;
use std::cmp::Reverse;

// What the power order compares: a greater level of the sender comes first.
type PowerRank<'a> = Rank<'a, Reverse<Level>>;

/// A set of events in the reverse topological power order (room version 2, "State resolution", "Definitions"): an event comes after those
/// of the set that are in its auth chain, and of the others the greater level of the sender comes first, then the earlier time, then the
/// smaller id. The level of a sender is that by the power levels event and the create event among the auth events. The auth chains of up
/// to 64 events are found by one walk. What of the set is in each is found by a test of one bit for each pair of the set; beside this it takes
/// time in proportion to what was found, and to the set and its logarithm.
///
/// # Errors
///
/// `NoMemory`.
pub fn power_order(alloc: Global, graph: &Graph, set: &[usize]) -> Result<Vec<usize>, NoMemory>
    requires { All (λ place. place < length graph.now.stored) set.now }
    ensures places { IfOk result (λ places. places.items ≡ power_order_of graph.now.stored set.now) }
    ensures within { IfOk result (λ places. All (λ place. place < length graph.now.stored) places.items) }
{
    power_order_by(alloc, Listing::Ready, graph, set)
}

// The same, with the events that come next found in one of two ways.
pub(crate) fn power_order_by(
    alloc: Global,
    listing: Listing,
    graph: &Graph,
    set: &[usize],
) -> Result<Vec<usize>, NoMemory>
    requires { All (λ place. place < length graph.now.stored) set.now }
    ensures places { IfOk result (λ places. places.items ≡ power_order_of graph.now.stored set.now) }
    ensures within { IfOk result (λ places. All (λ place. place < length graph.now.stored) places.items) }
{
    let candidates = candidates(alloc, graph, set)?;
    in_order(alloc, listing, graph.len(), &candidates)
}

// The events of a set, with what the order needs of each. The auth chains of up to 64 events are found by one walk.
fn candidates<'a>(
    alloc: Global,
    graph: &'a Graph,
    set: &[usize],
) -> Result<Vec<Candidate<PowerRank<'a>>>, NoMemory>
    requires { All (λ place. place < length graph.now.stored) set.now }
    ensures places { IfOk result (λ candidates. map candidate_place candidates.items ≡ set.now) }
    ensures each { IfOk result (λ candidates. All (IsPowerCandidate graph.now.stored set.now) candidates.items) }
{
    let least = least_of(set);
    let mut candidates = Vec::new(alloc);
    let mut left = set;
    while !left.is_empty() {
        let (turn, others) = left.split_at(left.len().min(GROUPS));
        let masks = event_chains(alloc, graph, turn, least)?;
        add_candidates(alloc, graph, turn, &masks, set, &mut candidates)?;
        left = others;
    }
    Ok(candidates)
}

// The least of some places; 0 where there are none.
fn least_of(places: &[usize]) -> usize
    ensures { All (λ place. result ≤ place) places.now }
{
    places.iter().copied().min().unwrap_or(0)
}

// The auth chains of some events, which are no more than a word has bits, by one walk down to a place.
fn event_chains(
    alloc: Global,
    graph: &Graph,
    places: &[usize],
    to: usize,
) -> Result<Vec<u64>, NoMemory>
    requires few { length places.now ≤ 64 }
    requires places { All (λ place. place < length graph.now.stored) places.now }
    ensures { IfOk result (λ masks. AreChainMasks graph.now.stored itself_alone places.now to masks.items) }
{
    let mut masks = vec![in alloc; 0; graph.events().len()]?;
    for (index, place) in places.iter().enumerate() {
        mask_auths(graph, *place, 1 << index, &mut masks);
    }
    carry_down(graph, to, &mut masks);
    Ok(masks)
}

// Adds the events at some of a set's places, by the words of their auth chains.
fn add_candidates<'a>(
    alloc: Global,
    graph: &'a Graph,
    places: &[usize],
    masks: &[u64],
    set: &[usize],
    candidates: &mut Vec<Candidate<PowerRank<'a>>>,
) -> Result<(), NoMemory>
    requires few { length places.now ≤ 64 }
    requires places { All (λ place. place < length graph.now.stored) places.now }
    requires set { All (λ other. other < length graph.now.stored) set.now }
    requires masks { AreSetMasks graph.now.stored places.now set.now masks.now }
    requires each { All (IsPowerCandidate graph.now.stored set.now) candidates.old.items }
    ensures places { OnOk result (map candidate_place candidates.new.items ≡ map candidate_place candidates.old.items ++ places.now) }
    ensures each { OnOk result (All (IsPowerCandidate graph.now.stored set.now) candidates.new.items) }
{
    for (index, place) in places.iter().enumerate() {
        let rank = rank(graph, *place);
        let after = with_bit(alloc, masks, index, set)?;
        candidates.push(Candidate {
            place: *place,
            rank,
            after,
        })?;
    }
    Ok(())
}

// What the order compares of the event at a place.
fn rank(graph: &Graph, place: usize) -> PowerRank<'_>
    requires { place < length graph.now.stored }
    ensures { IsPowerRank graph.now.stored place result }
{
    let event = graph.events()[place].event.event();
    Rank {
        weight: Reverse(sender_level(graph, place, event)),
        time: event.origin_server_ts(),
        id: event.id(),
    }
}

// Those of a set whose words have a bit.
fn with_bit(alloc: Global, masks: &[u64], bit: usize, set: &[usize]) -> Result<Vec<usize>, NoMemory>
    requires bit { bit < 64 }
    requires set { All (λ place. place < length masks.now) set.now }
    ensures { IfOk result (λ places. places.items ≡ filter (λ place. has_bit bit (slice_index masks.now place)) set.now) }
{
    let mut places = Vec::new(alloc);
    for place in set {
        if masks[*place] >> bit & 1 == 1 {
            places.push(*place)?;
        }
    }
    Ok(places)
}
