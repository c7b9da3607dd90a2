// The events of a room, and states over them.

use crate::verdicts::verdict_in;
use fed_event::{EventId, Pdu};
use fed_json::{Items, JsonRef};
use fed_room_contract::{Graph, State};
use fed_vectors_call::{Answer, Arguments, List, Stop, count, null};
use fed_vectors_events::KeyRing;
use fed_vectors_events::events::{checked_in, wrong_event_at};
use std::alloc::Global;

/// The events of `graph`, stored in their order.
pub fn graph(call: Arguments<'_>, keys: &KeyRing) -> Result<Graph, Stop> {
    let mut graph = Graph::new(call.alloc);
    for item in call.items("graph")? {
        let row = Arguments::of(call.alloc, item, "graph")?;
        if let Err(stop) = store(row, &mut graph, keys) {
            return Err(wrong_event_at(call.alloc, "graph", graph.len(), stop));
        }
    }
    Ok(graph)
}

// Stores an event with its verdict. The error says why it cannot be stored.
fn store(row: Arguments<'_>, graph: &mut Graph, keys: &KeyRing) -> Result<(), Stop> {
    let Some(verdict) = verdict_in(row.text("verdict")?) else {
        return Err(row.wrong_kind("verdict"));
    };
    let event = checked_in(row.alloc, keys, row.value("event")?)?;
    if graph.contains(event.event().id().as_str()) {
        return Err(Stop::error(String::from_str(row.alloc, "stored already")));
    }
    if !graph.is_ready(event.event()) {
        return Err(Stop::error(String::from_str(row.alloc, "not ready")));
    }
    graph.push(row.alloc, event, verdict)?;
    Ok(())
}

/// The state that the events at the places of `state` make, each laid over those before.
pub fn state(call: Arguments<'_>, graph: &Graph) -> Result<State, Stop> {
    state_at(call, "state", call.items("state")?, graph)
}

/// The state that the events at these places make, each laid over those before.
pub fn state_at(
    call: Arguments<'_>,
    name: &str,
    places: Items<'_>,
    graph: &Graph,
) -> Result<State, Stop> {
    let mut state = State::new(call.alloc);
    for item in places {
        let Some((event, state_key)) = state_event_at(graph, item) else {
            return Err(call.wrong_kind(name));
        };
        state.insert(
            call.alloc,
            event.kind(),
            state_key,
            event.id().copy(call.alloc)?,
        )?;
    }
    Ok(state)
}

// The state event at this place, and its state key.
fn state_event_at<'a>(graph: &'a Graph, place: JsonRef<'_>) -> Option<(&'a Pdu, &'a str)> {
    let place = usize::try_from(place.whole()?).ok()?;
    let event = graph.at(place)?.event.event();
    Some((event, event.state_key()?))
}

/// The places of the events that a state names, in the order of its entries.
pub fn places_of(alloc: Global, graph: &Graph, state: &State) -> Answer {
    let mut places = List::new(alloc);
    for entry in &state.entries(alloc)? {
        places = places.with(place_of(alloc, graph, entry.id));
    }
    places.into_answer()
}

/// The place of an event, or null where it is not stored.
pub fn place_of(alloc: Global, graph: &Graph, id: &EventId) -> Answer {
    match graph.place(id.as_str()) {
        Some(place) => count(alloc, place as u64),
        None => null(alloc),
    }
}
