// Auth chains.
ghost use Rattle.std.specs.Prelude.{◌≡◌, ◌<◌, ℕ, false, All, IfOk, length};
ghost use Rattle.fed_room_contract.specs.Graph.{IsAuthGraph};
ghost use Rattle.fed_resolve.specs.Chain.{is_in_chains, auths_at};
ghost use Rattle.fed_resolve.specs.Marks.{AreMarks};
ghost use Rattle.fed_resolve.specs.ChainParts.{AreClosedFrom, is_marked, or_among, or_auths};

use fed_json::NoMemory;
use fed_room_contract::Graph;
use std::alloc::Global;

/// The auth chains of these events together (room version 2, "State resolution", "Definitions"), as a mark for each place of the graph:
/// their auth events, theirs, and so on. An event is marked only where it is in the chain of one of them. It takes time in proportion to
/// what the graph's events name.
///
/// # Errors
///
/// `NoMemory`.
pub fn chains(alloc: Global, graph: &Graph, places: &[usize]) -> Result<Vec<bool>, NoMemory>
    requires { All (λ place. place < length graph.now.stored) places.now }
    ensures { IfOk result (λ marks. AreMarks (length graph.now.stored) (is_in_chains graph.now.stored places.now) marks.items) }
{
    let mut marks = vec![in alloc; false; graph.events().len()]?;
    mark_chains(graph, places, &mut marks);
    Ok(marks)
}

// Marks, where nothing is marked, what is in the auth chain of some of these events.
fn mark_chains(graph: &Graph, places: &[usize], marks: &mut [bool])
    requires places { All (λ place. place < length graph.now.stored) places.now }
    requires graph { IsAuthGraph graph.now.stored }
    requires none { (place : ℕ) → is_marked marks.old place ≡ false }
    requires long { length marks.old ≡ length graph.now.stored }
    ensures { AreMarks (length graph.now.stored) (is_in_chains graph.now.stored places.now) marks.new }
{
    mark_auths_of(graph, places, marks);
    mark_on(graph, marks);
}

// Marks what is in the auth chain of what is marked: an auth event stands before the event that names it.
fn mark_on(graph: &Graph, marks: &mut [bool])
    requires graph { IsAuthGraph graph.now.stored }
    requires long { length marks.old ≡ length graph.now.stored }
    ensures { AreClosedFrom graph.now.stored 0 marks.old marks.new }
{
    for place in (0..graph.len()).rev() {
        if marks[place] {
            mark_auths(graph, place, marks);
        }
    }
}

// Marks the auth events of the events at these places.
fn mark_auths_of(graph: &Graph, places: &[usize], marks: &mut [bool])
    requires places { All (λ place. place < length graph.now.stored) places.now }
    requires long { length marks.old ≡ length graph.now.stored }
    ensures { AreMarks (length graph.now.stored) (or_auths graph.now.stored places.now marks.old) marks.new }
{
    for place in places {
        mark_auths(graph, *place, marks);
    }
}

// Marks the auth events of the event at a place.
fn mark_auths(graph: &Graph, place: usize, marks: &mut [bool])
    requires { length marks.old ≡ length graph.now.stored }
    ensures { AreMarks (length graph.now.stored) (or_among (auths_at graph.now.stored place) marks.old) marks.new }
{
    for auth in graph.auth_places(place) {
        marks[*auth] = true;
    }
}
