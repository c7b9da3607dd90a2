//! States of a room as JSON arrays of ids give them.
ghost use Rattle.std.specs.Prelude.{◌≡◌, ◌≢◌, ◌∷◌, ◌++◌, [], Ok, Err, IfOk, IfErr, OnOk, option_map};
ghost use Rattle.fed_json.specs.Items.{left};
ghost use Rattle.fed_json.specs.JsonRef.{seen};
ghost use Rattle.fed_c.specs.Results.{and_then};
ghost use Rattle.fed_c.specs.StateParts.{laid};
ghost use Rattle.fed_c.specs.States.{named, state_in, state_of, states_in, states_of};
ghost use Rattle.fed_c.specs.Values.{value_of};
ghost use Rattle.fed_c.specs.declared.status.Status.TheVariants.{Memory};

use crate::status::Status;
use crate::values::value;
use fed_event::Pdu;
use fed_json::{Items, JsonRef, NoMemory};
use fed_room_contract::{Graph, State};
use std::alloc::Global;

/// The states of an array, each an array of the ids of its events.
///
/// # Errors
///
/// `NotJson` and `NotCanonical`; `BadState` where the value is no array of arrays of ids, or an id is of no state event that is stored, or of one at
/// the type and state key of another in its state. `Memory` where memory ran out.
pub(crate) fn states(alloc: Global, states: &[u8], graph: &Graph) -> Result<Vec<State>, Status>
    ensures ok { IfOk result (λ list. and_then (value_of states.now) (states_in graph.now.stored) ≡ Ok list.items) }
    ensures fault { IfErr result (λ status. status ≢ Memory → and_then (value_of states.now) (states_in graph.now.stored) ≡ Err status) }
{
    let json = value(alloc, states)?;
    let values = json.items().ok_or(Status::BadState)?;
    states_of(alloc, values, graph)
}

// The states of these values.
fn states_of(alloc: Global, values: Items<'_>, graph: &Graph) -> Result<Vec<State>, Status>
    ensures ok { IfOk result (λ states. states_of graph.now.stored (left values.entry) ≡ Ok states.items) }
    ensures fault { IfErr result (λ status. status ≢ Memory → states_of graph.now.stored (left values.entry) ≡ Err status) }
{
    let mut states = Vec::new(alloc);
    for value in values {
        let state = state_in(alloc, value, graph)?;
        add(&mut states, state)?;
    }
    Ok(states)
}

fn add(states: &mut Vec<State>, state: State) -> Result<(), NoMemory>
    ensures { OnOk result (states.new.items ≡ states.old.items ++ state ∷ []) }
{
    states.push(state)?;
    Ok(())
}

// The state of a value.
fn state_in(alloc: Global, value: JsonRef<'_>, graph: &Graph) -> Result<State, Status>
    ensures ok { IfOk result (λ state. state_in graph.now.stored (seen value.entry) ≡ Ok state) }
    ensures fault { IfErr result (λ status. status ≢ Memory → state_in graph.now.stored (seen value.entry) ≡ Err status) }
{
    let ids = value.items().ok_or(Status::BadState)?;
    state_of(alloc, ids, graph)
}

// The state of these ids.
fn state_of(alloc: Global, ids: Items<'_>, graph: &Graph) -> Result<State, Status>
    ensures ok { IfOk result (λ state. state_of graph.now.stored (left ids.entry) ≡ Ok state) }
    ensures fault { IfErr result (λ status. status ≢ Memory → state_of graph.now.stored (left ids.entry) ≡ Err status) }
{
    let mut state = State::new(alloc);
    for id in ids {
        let event = named(graph, id).ok_or(Status::BadState)?;
        lay(alloc, &mut state, event)?;
    }
    Ok(state)
}

// The event that an id names.
fn named<'a>(graph: &'a Graph, id: JsonRef<'_>) -> Option<&'a Pdu>
    ensures { option_map (λ event. event.now) result ≡ named graph.now.stored (seen id.entry) }
{
    let stored = graph.get(id.text()?)?;
    Some(stored.event.event())
}

/// Lays a state event over a state.
///
/// # Errors
///
/// `BadState` where the event is no state event, or where something holds at its type and state key. `Memory` where memory ran out.
pub(crate) fn lay(alloc: Global, state: &mut State, event: &Pdu) -> Result<(), Status>
    ensures ok { OnOk result (laid state.old event.now ≡ Ok state.new) }
    ensures fault { IfErr result (λ status. status ≢ Memory → laid state.old event.now ≡ Err status) }
{
    let state_key = event.state_key().ok_or(Status::BadState)?;
    if state.get(event.kind(), state_key).is_some() {
        return Err(Status::BadState);
    }
    let id = event.id().copy(alloc)?;
    Ok(state.insert(alloc, event.kind(), state_key, id)?)
}
