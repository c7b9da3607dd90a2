// What events that wait lack: for each of them the tag of the first event that it names and that is not stored, or `None` where it is
// ready. These numbers stand one after another, so that no event is looked up in the graph to find the first that is ready.
ghost use Rattle.std.specs.Prelude.{◌≡◌, map, position};
ghost use Rattle.std.specs.Option.{is_none};
ghost use Rattle.fed_event.specs.EventIds.{ids_left};
ghost use Rattle.fed_room_contract.specs.Graph.{is_ready, named_by};
ghost use Rattle.fed_room_contract.specs.LackParts.{tag_of_id, lack_among, lack_of, AreRight};

use crate::graph::Graph;
use crate::tag::tag_of_text;
use fed_event::{Checked, EventIds, Pdu};

/// A number by which most ids are told apart.
pub(crate) fn tag_of_id(id: &str) -> usize
    ensures { result ≡ tag_of_id id.now }
{
    tag_of_text(0, id)
}

/// The tag of the first event that an event names, prev events before auth events, and that is not stored. There is none for one that is
/// ready.
pub(crate) fn lack_of(graph: &Graph, event: &Pdu) -> Option<usize>
    ensures lack { result ≡ lack_among graph.now.stored (named_by event.now) }
    ensures ready { is_none result ≡ is_ready graph.now.stored event.now }
{
    match lack_among(graph, event.prev_events()) {
        Some(tag) => Some(tag),
        None => lack_among(graph, event.auth_events()),
    }
}

/// Finds anew what events that wait lack, where that is this tag: of all others it is right already.
pub(crate) fn renew(lacks: &mut [Option<usize>], graph: &Graph, waiting: &[Checked], tag: usize)
    requires { AreRight 0 tag (map (lack_of graph.now.stored) waiting.now) lacks.old }
    ensures { lacks.new ≡ map (lack_of graph.now.stored) waiting.now }
{
    for (place, lack) in lacks.iter_mut().enumerate() {
        if *lack == Some(tag) {
            *lack = lack_of(graph, waiting[place].event());
        }
    }
}

/// The first place at which nothing is lacked.
pub(crate) fn first_none(lacks: &[Option<usize>]) -> Option<usize>
    ensures { result ≡ position is_none lacks.now }
{
    lacks.iter().position(|lack| lack.is_none())
}

// The tag of the first of these ids that is not stored.
fn lack_among(graph: &Graph, ids: EventIds<'_>) -> Option<usize>
    ensures { result ≡ lack_among graph.now.stored (ids_left ids.entry) }
{
    for id in ids {
        if !graph.contains(id) {
            return Some(tag_of_id(id));
        }
    }
    None
}
