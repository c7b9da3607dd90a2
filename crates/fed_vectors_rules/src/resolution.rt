// Calls on the resolution of states, and on its parts.
ghost use Rattle.std.specs.Prelude.{◌<◌, All, IfOk, IfSome, length};

use fed_json::JsonRef;
use fed_room_contract::{Graph, State};
use fed_vectors_call::{Answer, Arguments, List, Stop, count, truth};
use fed_vectors_events::KeyRing;
use fed_vectors_graphs::{graph, places_of, state, state_at};
use std::alloc::Global;

/// What the operations give in a graph.
pub fn resolution(call: Arguments<'_>) -> Answer {
    let keys = KeyRing::of(call, "")?;
    let graph = graph(call, &keys)?;
    answers(call, &graph)
}

fn answers(call: Arguments<'_>, graph: &Graph) -> Answer {
    let mut answers = List::new(call.alloc);
    for item in call.items("operations")? {
        let operation = Arguments::of(call.alloc, item, "operations")?;
        answers = answers.with(step(operation, graph));
    }
    answers.into_answer()
}

fn step(operation: Arguments<'_>, graph: &Graph) -> Answer {
    if operation.find("state").is_some() {
        return check_all(operation, graph);
    }
    if operation.find("levels").is_some() {
        return mainline_order(operation, graph, Some(place(operation, "levels", graph)?));
    }
    match operation.only_name()? {
        "resolve" => resolve(operation, graph),
        "unconflicted" => unconflicted(operation, graph),
        "full_conflicted" => full_conflicted(operation, graph),
        "full_chain" => full_chain(operation, graph),
        "chains" => chains(operation, graph),
        "is_power_event" => is_power_event(operation, graph),
        "power_order" => power_order(operation, graph),
        "mainline_order" => mainline_order(operation, graph, None),
        _ => Err(operation.wrong_kind("operations")),
    }
}

// What these states resolve to; and where the plain program of it gives another state, both.
fn resolve(operation: Arguments<'_>, graph: &Graph) -> Answer {
    let alloc = operation.alloc;
    let states = states(operation, "resolve", graph)?;
    let resolved = fed_resolve::resolve(alloc, graph, &states)?;
    let plain = fed_resolve::resolve_plainly(alloc, graph, &states)?;
    let resolved = places_of(alloc, graph, &resolved)?;
    let plain = places_of(alloc, graph, &plain)?;
    if resolved == plain {
        return Ok(resolved);
    }
    let both = List::new(alloc).with(Ok(resolved)).with(Ok(plain));
    both.into_answer()
}

fn unconflicted(operation: Arguments<'_>, graph: &Graph) -> Answer {
    let states = states(operation, "unconflicted", graph)?;
    let unconflicted = fed_resolve::unconflicted(operation.alloc, &states)?;
    places_of(operation.alloc, graph, &unconflicted)
}

fn full_conflicted(operation: Arguments<'_>, graph: &Graph) -> Answer {
    let states = states(operation, "full_conflicted", graph)?;
    let marks = fed_resolve::full_conflicted(operation.alloc, graph, &states)?;
    marked(operation.alloc, &marks)
}

fn full_chain(operation: Arguments<'_>, graph: &Graph) -> Answer {
    let places = operation.items("full_chain")?;
    let state = state_at(operation, "full_chain", places, graph)?;
    let marks = fed_resolve::full_chain(operation.alloc, graph, &state)?;
    marked(operation.alloc, &marks)
}

fn chains(operation: Arguments<'_>, graph: &Graph) -> Answer {
    let places = places(operation, "chains", graph)?;
    let marks = fed_resolve::chains(operation.alloc, graph, &places)?;
    marked(operation.alloc, &marks)
}

fn is_power_event(operation: Arguments<'_>, graph: &Graph) -> Answer {
    let place = place(operation, "is_power_event", graph)?;
    match graph.at(place) {
        Some(stored) => truth(
            operation.alloc,
            fed_resolve::is_power_event(stored.event.event()),
        ),
        None => Err(operation.wrong_kind("is_power_event")),
    }
}

fn power_order(operation: Arguments<'_>, graph: &Graph) -> Answer {
    let places = places(operation, "power_order", graph)?;
    let order = fed_resolve::power_order(operation.alloc, graph, &places)?;
    listed(operation.alloc, &order)
}

// The order by the mainline of the power levels event at this place.
fn mainline_order(operation: Arguments<'_>, graph: &Graph, levels: Option<usize>) -> Answer
    requires { IfSome levels (λ place. place < length graph.now.stored) }
{
    let places = places(operation, "mainline_order", graph)?;
    let order = fed_resolve::mainline_order(operation.alloc, graph, levels, &places)?;
    listed(operation.alloc, &order)
}

// The state after the iterative auth checks.
fn check_all(operation: Arguments<'_>, graph: &Graph) -> Answer {
    let places = places(operation, "check_all", graph)?;
    let mut state = state(operation, graph)?;
    fed_resolve::check_all(operation.alloc, graph, &places, &mut state)?;
    places_of(operation.alloc, graph, &state)
}

// The states of an argument, each a list of places.
fn states(operation: Arguments<'_>, name: &str, graph: &Graph) -> Result<Vec<State>, Stop> {
    let mut states = Vec::new(operation.alloc);
    for item in operation.items(name)? {
        let Some(places) = item.items() else {
            return Err(operation.wrong_kind(name));
        };
        states.push(state_at(operation, name, places, graph)?)?;
    }
    Ok(states)
}

// Places in the graph.
fn places(operation: Arguments<'_>, name: &str, graph: &Graph) -> Result<Vec<usize>, Stop>
    ensures { IfOk result (λ places. All (λ place. place < length graph.now.stored) places.items) }
{
    let mut places = Vec::new(operation.alloc);
    for item in operation.items(name)? {
        match place_in(item, graph) {
            Some(place) => places.push(place)?,
            None => return Err(operation.wrong_kind(name)),
        }
    }
    Ok(places)
}

// A place in the graph.
fn place(operation: Arguments<'_>, name: &str, graph: &Graph) -> Result<usize, Stop>
    ensures { IfOk result (λ place. place < length graph.now.stored) }
{
    match place_in(operation.get(name)?, graph) {
        Some(place) => Ok(place),
        None => Err(operation.wrong_kind(name)),
    }
}

// The place in the graph that a value is.
fn place_in(value: JsonRef<'_>, graph: &Graph) -> Option<usize>
    ensures { IfSome result (λ place. place < length graph.now.stored) }
{
    let place = usize::try_from(value.whole()?).ok()?;
    if place >= graph.len() {
        return None;
    }
    Some(place)
}

// The places that are marked.
fn marked(alloc: Global, marks: &[bool]) -> Answer {
    let mut list = List::new(alloc);
    for (place, is_marked) in marks.iter().enumerate() {
        if *is_marked {
            list = list.with(count(alloc, place as u64));
        }
    }
    list.into_answer()
}

fn listed(alloc: Global, places: &[usize]) -> Answer {
    let mut list = List::new(alloc);
    for place in places {
        list = list.with(count(alloc, *place as u64));
    }
    list.into_answer()
}
