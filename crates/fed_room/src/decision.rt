// The checks on an event that a room receives, and the state after it.
ghost use Rattle.std.specs.Prelude.{◌≡◌, IfOk, OnOk};
ghost use Rattle.fed_event.specs.EventId.{event_id_of};
ghost use Rattle.fed_event.specs.Fields.{kind_of, state_key_of};
ghost use Rattle.fed_auth.specs.AuthState.{auth_state_of, with_id_at};
ghost use Rattle.fed_room_contract.specs.StateRef.{seen};
ghost use Rattle.fed_room.specs.Decision.{allowed_by_auth, allowed_by_both};
ghost use Rattle.fed_room.specs.States.{state_before, state_with};

use fed_auth::{allowed, allowed_in, auth_state};
use fed_event::{Checked, Pdu};
use fed_json::NoMemory;
use fed_room_contract::{Graph, Rule, State, StateRef, Verdict};
use std::alloc::Global;

/// Checks 4 and 5 (Server-Server API, "Checks performed on receipt of a PDU"): whether an event is allowed by its auth events, and then
/// by the state before it.
///
/// # Errors
///
/// `NoMemory`, and inside of `Ok` the rule that rejects the event.
pub(crate) fn allowed_by_both(
    alloc: Global,
    graph: &Graph,
    event: &Checked,
    before: StateRef<'_>,
) -> Result<Result<(), Rule>, NoMemory>
    requires { seen before ≡ state_before graph.now.stored event.now.event }
    ensures { IfOk result (λ answer. answer ≡ allowed_by_both graph.now.stored event.now
        (allowed_by_auth graph.now.stored event.now (auth_state_of graph.now.stored event.now.event))) }
{
    match allowed_by_auth(alloc, graph, event)? {
        Ok(()) => Ok(allowed_in(graph, event, before)),
        Err(rule) => Ok(Err(rule)),
    }
}

// Check 4.
fn allowed_by_auth(
    alloc: Global,
    graph: &Graph,
    event: &Checked,
) -> Result<Result<(), Rule>, NoMemory>
    ensures { IfOk result (λ answer. answer
        ≡ allowed_by_auth graph.now.stored event.now (auth_state_of graph.now.stored event.now.event)) }
{
    match auth_state(alloc, graph, event.event())? {
        Ok(state) => Ok(allowed(graph, event, &state)),
        Err(rule) => Ok(Err(rule)),
    }
}

/// The state after an event, made of the state before it: with its own entry, if it has one and was not rejected.
#[tactic(auto, unfolding(fed_auth::specs::AuthState::with_stored))]
pub(crate) fn state_with(
    alloc: Global,
    before: State,
    event: &Checked,
    verdict: Verdict,
) -> Result<State, NoMemory>
    ensures { IfOk result (λ state. state ≡ state_with before (record { event = event.now; verdict = verdict })) }
{
    let mut state = before;
    if !verdict.is_rejected() {
        lay(alloc, event.event(), &mut state)?;
    }
    Ok(state)
}

/// Lays an event over a state, where it has a state key.
pub(crate) fn lay(alloc: Global, event: &Pdu, state: &mut State) -> Result<(), NoMemory>
    ensures { OnOk result (state.new ≡ with_id_at state.old (kind_of event.now) (state_key_of event.now) (event_id_of event.now)) }
{
    if let Some(state_key) = event.state_key() {
        state.insert(alloc, event.kind(), state_key, event.id().copy(alloc)?)?;
    }
    Ok(())
}
