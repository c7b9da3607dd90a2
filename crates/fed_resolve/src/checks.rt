// Iterative auth checks.
ghost use Rattle.std.specs.Prelude.{◌≡◌, IfOk, OnOk, OnErr, option_map, option_and_then};
ghost use Rattle.fed_event.specs.Fields.{auth_events_of};
ghost use Rattle.fed_auth.specs.Allowed.{allowed_of};
ghost use Rattle.fed_auth.specs.AuthState.{stored_of};
ghost use Rattle.fed_auth.specs.Selection.{selector_of, selection_keys};
ghost use Rattle.fed_auth.specs.SelectionKey.{seen};
ghost use Rattle.fed_resolve.specs.Checks.{check, checked, with_keys};
ghost use Rattle.fed_resolve.specs.ChecksParts.{auth_id_at, known_at, with_known, IsSelected};
ghost use Rattle.fed_auth.specs.AuthEvents.{events_left};

use fed_auth::{AuthEvents, Key, Selector, allowed, lay_over};
use fed_event::EventId;
use fed_json::NoMemory;
use fed_room_contract::{Graph, Rule, State, Stored};
use std::alloc::Global;

/// Checks the events at these places one after another, each by the state so far, and lays over it those that are allowed and have a
/// state key (room version 2, "State resolution", "Definitions": "Iterative auth checks"). What the rules look at and the state lacks
/// comes from the event's own auth events, where they were not rejected. The time for each event does not depend on the size of the
/// state.
///
/// # Errors
///
/// `NoMemory`; then the state is as it was.
pub fn check_all(
    alloc: Global,
    graph: &Graph,
    places: &[usize],
    state: &mut State,
) -> Result<(), NoMemory>
    ensures ok { OnOk result (state.new ≡ checked graph.now.stored state.old places.now) }
    ensures err { OnErr result (state.new ≡ state.old) }
{
    *state = checked(alloc, graph, places, state.copy(alloc)?)?;
    Ok(())
}

// What becomes of a state where the events at these places are checked.
pub(crate) fn checked(
    alloc: Global,
    graph: &Graph,
    places: &[usize],
    state: State,
) -> Result<State, NoMemory>
    ensures { IfOk result (λ after. after ≡ checked graph.now.stored state places.now) }
{
    let mut after = state;
    for place in places {
        check(alloc, graph, *place, &mut after)?;
    }
    Ok(after)
}

// Checks the event at a place by a state, and lays it over where it is allowed.
fn check(alloc: Global, graph: &Graph, place: usize, state: &mut State) -> Result<(), NoMemory>
    ensures ok { OnOk result (state.new ≡ check graph.now.stored state.old place) }
    ensures err { OnErr result (state.new ≡ state.old) }
{
    let Some(stored) = graph.at(place) else {
        return Ok(());
    };
    if verdict_by(alloc, graph, state, stored)?.is_ok() {
        lay_over(alloc, state, stored)?;
    }
    Ok(())
}

// What the rules say of an event, by a state that is completed from its auth events.
fn verdict_by(
    alloc: Global,
    graph: &Graph,
    state: &State,
    stored: &Stored,
) -> Result<Result<(), Rule>, NoMemory>
    ensures { IfOk result (λ verdict. verdict ≡ allowed_of graph.now.stored stored.now.event
        (with_keys (stored_of graph.now.stored (auth_events_of stored.now.event.event)) state.now (selection_keys (selector_of stored.now.event.event)))) }
{
    let known = selected(alloc, graph, state, stored)?;
    Ok(allowed(graph, &stored.event, &known))
}

// The completed state, at the keys that the rules look at.
fn selected(alloc: Global, graph: &Graph, state: &State, stored: &Stored) -> Result<State, NoMemory>
    ensures { IfOk result (λ known. IsSelected
        (with_keys (stored_of graph.now.stored (auth_events_of stored.now.event.event)) state.now (selection_keys (selector_of stored.now.event.event)))
        (selection_keys (selector_of stored.now.event.event)) known) }
{
    let mut known = State::new(alloc);
    for key in Selector::from(stored.event.event()).keys() {
        let id = known_id(graph, state, stored, key);
        add(alloc, &mut known, key, id)?;
    }
    Ok(known)
}

// Lays an entry over, where there is one.
fn add(
    alloc: Global,
    known: &mut State,
    key: Option<Key<'_>>,
    id: Option<&EventId>,
) -> Result<(), NoMemory>
    ensures { OnOk result (known.new ≡ with_known known.old (option_map seen key.entry) (option_map (λ id. id.now) id.entry)) }
{
    if let Some(key) = key
        && let Some(id) = id
    {
        known.insert(alloc, key.kind, key.state_key, id.copy(alloc)?)?;
    }
    Ok(())
}

// What the completed state has at a key that the rules look at: what the state has, or else an auth event.
fn known_id<'a>(
    graph: &'a Graph,
    state: &'a State,
    stored: &'a Stored,
    key: Option<Key<'_>>,
) -> Option<&'a EventId>
    ensures { option_map (λ id. id.now) result
        ≡ option_and_then (known_at (stored_of graph.now.stored (auth_events_of stored.now.event.event)) state.now) (option_map seen key.entry) }
{
    let key = key?;
    match state.get(key.kind, key.state_key) {
        Some(id) => Some(id),
        None => auth_at(AuthEvents::of(graph, stored.event.event()), key),
    }
}

// The first of these auth events that stands at a key, where it was not rejected.
fn auth_at<'a>(events: AuthEvents<'a>, key: Key<'_>) -> Option<&'a EventId>
    ensures { option_map (λ id. id.now) result ≡ auth_id_at (events_left events.entry) (seen key.entry) }
{
    let auth = events.first_at(key.kind, key.state_key)?;
    if auth.verdict.is_rejected() {
        None
    } else {
        Some(auth.event.event().id())
    }
}
