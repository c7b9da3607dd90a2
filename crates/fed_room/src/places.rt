// The places of stored events.
ghost use Rattle.std.specs.Prelude.{◌≡◌, ◌++◌, [], IfOk, OnOk};
ghost use Rattle.std.specs.List.{filter_map, cons_option};
ghost use Rattle.fed_event.specs.EventIds.{ids_left};
ghost use Rattle.fed_resolve.specs.Chain.{place_of};

use fed_event::{EventId, EventIds};
use fed_json::NoMemory;
use fed_room_contract::Graph;
use std::alloc::Global;

/// The places of the events of these ids that are stored.
pub(crate) fn places_of(
    alloc: Global,
    graph: &Graph,
    ids: &[EventId],
) -> Result<Vec<usize>, NoMemory>
    ensures { IfOk result (λ places. places.items ≡ filter_map (place_of graph.now.stored) ids.now) }
{
    let mut places = Vec::new(alloc);
    for id in ids {
        add(graph, id.as_str(), &mut places)?;
    }
    Ok(places)
}

/// The same of the ids that a field of an event holds.
pub(crate) fn places_in(
    alloc: Global,
    graph: &Graph,
    ids: EventIds<'_>,
) -> Result<Vec<usize>, NoMemory>
    ensures { IfOk result (λ places. places.items ≡ filter_map (place_of graph.now.stored) (ids_left ids.entry)) }
{
    let mut places = Vec::new(alloc);
    for id in ids {
        add(graph, id, &mut places)?;
    }
    Ok(places)
}

// Adds the place of the event of an id, where it is stored.
fn add(graph: &Graph, id: &str, places: &mut Vec<usize>) -> Result<(), NoMemory>
    ensures { OnOk result (places.new.items ≡ places.old.items ++ cons_option (place_of graph.now.stored id.now) []) }
{
    if let Some(place) = graph.place(id) {
        places.push(place)?;
    }
    Ok(())
}
