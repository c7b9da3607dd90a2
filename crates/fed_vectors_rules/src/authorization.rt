// Calls on the events of a room: which rule decides on an event, and its auth events.

use fed_event::Pdu;
use fed_room_contract::{Graph, Rule};
use fed_vectors_call::{Answer, Arguments, List, Stop, null};
use fed_vectors_events::KeyRing;
use fed_vectors_events::events::event_of;
use fed_vectors_graphs::{graph, place_of, places_of, state};
use std::alloc::Global;

pub fn allowed(call: Arguments<'_>) -> Answer {
    let keys = KeyRing::of(call, "")?;
    let graph = graph(call, &keys)?;
    allowed_in(call, &keys, &graph)
}

fn allowed_in(call: Arguments<'_>, keys: &KeyRing, graph: &Graph) -> Answer {
    let state = state(call, graph)?;
    let event = event_of(call, "event", keys)?;
    match fed_auth::allowed(graph, &event, &state) {
        Ok(()) => null(call.alloc),
        Err(rule) => Err(rejected(call.alloc, rule)),
    }
}

pub fn auth_state(call: Arguments<'_>) -> Answer {
    let keys = KeyRing::of(call, "")?;
    let graph = graph(call, &keys)?;
    auth_state_in(call, &keys, &graph)
}

fn auth_state_in(call: Arguments<'_>, keys: &KeyRing, graph: &Graph) -> Answer {
    let event = event_of(call, "event", keys)?;
    auth_places(call.alloc, graph, event.event())
}

fn auth_places(alloc: Global, graph: &Graph, event: &Pdu) -> Answer {
    match fed_auth::auth_state(alloc, graph, event)? {
        Ok(state) => places_of(alloc, graph, &state),
        Err(rule) => Err(rejected(alloc, rule)),
    }
}

pub fn selection(call: Arguments<'_>) -> Answer {
    let keys = KeyRing::of(call, "")?;
    let graph = graph(call, &keys)?;
    let event = event_of(call, "event", &keys)?;
    selection_in(call, &graph, event.event())
}

fn selection_in(call: Arguments<'_>, graph: &Graph, event: &Pdu) -> Answer {
    let state = state(call, graph)?;
    let mut places = List::new(call.alloc);
    for id in &fed_auth::selection(call.alloc, event, &state)? {
        places = places.with(place_of(call.alloc, graph, id));
    }
    places.into_answer()
}

fn rejected(alloc: Global, rule: Rule) -> Stop {
    Stop::error(format!(in alloc; "{rule}"))
}
