// Mainline ordering.
ghost use Rattle.std.specs.Prelude.{◌≡◌, ◌<◌, ℕ, Option, All, IfOk, IfSome, length, map};
ghost use Rattle.fed_room_contract.specs.Graph.{IsAuthGraph};
ghost use Rattle.fed_resolve.specs.Mainline.{mainline as mainline_of, position_of, mainline_order as mainline_order_of};
ghost use Rattle.fed_resolve.specs.OrderParts.{candidate_place};
ghost use Rattle.fed_resolve.specs.RankParts.{AreIndices, IsMainlineRank, IsMainlineCandidate};

use crate::levels::levels_auth;
use crate::order::{Candidate, Listing, Rank, in_order};
use fed_json::NoMemory;
use fed_room_contract::Graph;
use std::alloc::Global;
use std::cmp::Reverse;

// What the mainline order compares: an infinite position, which is none, comes first, and then a greater one.
type MainlineRank<'a> = Rank<'a, Option<Reverse<usize>>>;

/// A set of events in the mainline order of a power levels event (room version 2, "State resolution", "Definitions"): the greater position
/// first, of which an infinite one is the greatest, then the earlier time, then the smaller id. The mainline of the event is it, the power
/// levels event among its auth events, and so on; without one the mainline is empty. The position of an event is the least index in the
/// mainline that is reached from it through power levels events. It is found by one walk for each event of the set, to the first event of
/// the mainline that it meets; beside this it takes time in proportion to the set and its logarithm.
///
/// # Errors
///
/// `NoMemory`.
pub fn mainline_order(
    alloc: Global,
    graph: &Graph,
    levels: Option<usize>,
    set: &[usize],
) -> Result<Vec<usize>, NoMemory>
    requires levels { IfSome levels (λ place. place < length graph.now.stored) }
    requires set { All (λ place. place < length graph.now.stored) set.now }
    ensures places { IfOk result (λ places. places.items ≡ mainline_order_of graph.now.stored levels set.now) }
    ensures within { IfOk result (λ places. All (λ place. place < length graph.now.stored) places.items) }
{
    mainline_order_by(alloc, Listing::Ready, graph, levels, set)
}

// The same, with the events that come next found in one of two ways.
pub(crate) fn mainline_order_by(
    alloc: Global,
    listing: Listing,
    graph: &Graph,
    levels: Option<usize>,
    set: &[usize],
) -> Result<Vec<usize>, NoMemory>
    requires levels { IfSome levels (λ place. place < length graph.now.stored) }
    requires set { All (λ place. place < length graph.now.stored) set.now }
    ensures places { IfOk result (λ places. places.items ≡ mainline_order_of graph.now.stored levels set.now) }
    ensures within { IfOk result (λ places. All (λ place. place < length graph.now.stored) places.items) }
{
    let line = mainline(alloc, graph, levels)?;
    let indices = indices(alloc, graph.events().len(), &line)?;
    let candidates = candidates(alloc, graph, &indices, set)?;
    in_order(alloc, listing, graph.len(), &candidates)
}

// The mainline of a power levels event.
fn mainline(alloc: Global, graph: &Graph, levels: Option<usize>) -> Result<Vec<usize>, NoMemory>
    requires { IfSome levels (λ place. place < length graph.now.stored) }
    ensures line { IfOk result (λ line. line.items ≡ mainline_of graph.now.stored levels) }
    ensures within { IfOk result (λ line. All (λ place. place < length graph.now.stored) line.items) }
{
    let mut line = Vec::new(alloc);
    let mut next = levels;
    for _ in 0..graph.len() {
        let Some(place) = next else {
            break;
        };
        line.push(place)?;
        next = levels_auth(graph, place);
    }
    Ok(line)
}

// For each of so many places the index at which a list has it first.
fn indices(alloc: Global, count: usize, line: &[usize]) -> Result<Vec<Option<usize>>, NoMemory>
    requires { All (λ place. place < count) line.now }
    ensures { IfOk result (λ indices. AreIndices count line.now indices.items) }
{
    let mut indices = vec![in alloc; None; count]?;
    for index in (0..line.len()).rev() {
        indices[line[index]] = Some(index);
    }
    Ok(indices)
}

// The events of a set, with what the order needs of each.
fn candidates<'a>(
    alloc: Global,
    graph: &'a Graph,
    indices: &[Option<usize>],
    set: &[usize],
) -> Result<Vec<Candidate<MainlineRank<'a>>>, NoMemory>
    requires graph { IsAuthGraph graph.now.stored }
    requires indices { length indices.now ≡ length graph.now.stored }
    requires set { All (λ place. place < length graph.now.stored) set.now }
    ensures places { IfOk result (λ candidates. map candidate_place candidates.items ≡ set.now) }
    ensures each { IfOk result (λ candidates. (levels : Option ℕ) → AreIndices (length graph.now.stored) (mainline_of graph.now.stored levels) indices.now
        → All (IsMainlineCandidate graph.now.stored (mainline_of graph.now.stored levels)) candidates.items) }
{
    let mut candidates = Vec::new(alloc);
    for place in set {
        let rank = rank(graph, indices, *place);
        let after = Vec::new(alloc);
        candidates.push(Candidate {
            place: *place,
            rank,
            after,
        })?;
    }
    Ok(candidates)
}

// What the order compares of the event at a place.
fn rank<'a>(graph: &'a Graph, indices: &[Option<usize>], place: usize) -> MainlineRank<'a>
    requires graph { IsAuthGraph graph.now.stored }
    requires indices { length indices.now ≡ length graph.now.stored }
    requires place { place < length graph.now.stored }
    ensures { (levels : Option ℕ) → AreIndices (length graph.now.stored) (mainline_of graph.now.stored levels) indices.now
        → IsMainlineRank graph.now.stored (mainline_of graph.now.stored levels) place result }
{
    let event = graph.events()[place].event.event();
    Rank {
        weight: position(graph, indices, place).map(Reverse),
        time: event.origin_server_ts(),
        id: event.id(),
    }
}

// The position of the event at a place: the index of the first mainline event that is reached from it through power levels events. From
// there on the walk follows the mainline, along which indices rise, so that it is the least.
fn position(graph: &Graph, indices: &[Option<usize>], place: usize) -> Option<usize>
    requires graph { IsAuthGraph graph.now.stored }
    requires indices { length indices.now ≡ length graph.now.stored }
    ensures { (levels : Option ℕ) → AreIndices (length graph.now.stored) (mainline_of graph.now.stored levels) indices.now
        → result ≡ position_of graph.now.stored (mainline_of graph.now.stored levels) place }
{
    let mut next = levels_auth(graph, place);
    for _ in 0..graph.len() {
        let Some(reached) = next else {
            break;
        };
        if indices[reached].is_some() {
            return indices[reached];
        }
        next = levels_auth(graph, reached);
    }
    None
}
