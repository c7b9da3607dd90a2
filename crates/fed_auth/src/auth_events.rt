// What rule 2 makes of the auth events of an event.
ghost use Rattle.std.specs.Prelude.{◌≡◌, true, Ok, Err, IfOk, OnOk, OnErr, codes, bytes_eq};
ghost use Rattle.std.specs.List.{list_any};
ghost use Rattle.std.specs.FinMap as finite;
ghost use Rattle.fed_event.specs.Fields.{auth_events_of, kind_of};
ghost use Rattle.fed_room_contract.specs.declared.rule.Rule.{Rule};
ghost use Rattle.fed_auth.specs.Table.{decide};
ghost use Rattle.fed_auth.specs.AuthState.{stored_of, stands_at, are_alike, has_double, is_outside_selection, is_create, is_of_other_room, auth_table, with_stored, with_all, auth_state_of};
ghost use Rattle.fed_auth.specs.AuthEvents.{events_left};

use crate::selector::Selector;
use fed_event::{EventIds, Pdu};
use fed_json::NoMemory;
use fed_room_contract::{Graph, Rule, State, Stored};
use std::alloc::Global;

/// The state that the auth events of an event make (room version 10, "Authorization rules", rule 2), or the rule that rejects the
/// event. A create event has no auth events, and its state is empty. An auth event that the graph does not have is left out.
///
/// The rules, of which the first that holds is answered: 2.1 two auth events of one type and state key; 2.2 one outside the selection of
/// the event, as each is that has no state key; 2.3 one that was rejected; 2.4 none that is a create event; 2.5 one of another room.
///
/// # Errors
///
/// `NoMemory`, and only where there is a state to make: a rejection and the state of a create event take no memory.
#[tactic(auto, unfolding(crate::specs::AuthState::auth_state_of))]
pub fn auth_state(
    alloc: Global,
    graph: &Graph,
    event: &Pdu,
) -> Result<Result<State, Rule>, NoMemory>
    ensures answer { IfOk result (λ answer. answer ≡ auth_state_of graph.now.stored event.now) }
    ensures create { bytes_eq (kind_of event.now) (codes "m.room.create") ≡ true → result ≡ Ok (Ok finite.empty) }
    ensures rejected { (rule : Rule) → auth_state_of graph.now.stored event.now ≡ Err rule → result ≡ Ok (Err rule) }
{
    if event.kind() == "m.room.create" {
        return Ok(Ok(State::new(alloc)));
    }
    match check_auth_events(graph, event) {
        Ok(()) => Ok(Ok(state_of(alloc, AuthEvents::of(graph, event))?)),
        Err(rule) => Ok(Err(rule)),
    }
}

// Rule 2.
#[tactic(auto, unfolding(crate::specs::AuthState::auth_table))]
fn check_auth_events(graph: &Graph, event: &Pdu) -> Result<(), Rule>
    ensures { result ≡ decide (auth_table event.now (stored_of graph.now.stored (auth_events_of event.now))) }
{
    let events = AuthEvents::of(graph, event);
    if has_double(events) {
        return Err(Rule::condition(2, 1));
    }
    let facts = AuthFacts::of(event, events);
    if facts.is_outside_selection {
        return Err(Rule::condition(2, 2));
    }
    if facts.is_rejected {
        return Err(Rule::condition(2, 3));
    }
    if !facts.is_create {
        return Err(Rule::condition(2, 4));
    }
    if facts.is_of_other_room {
        return Err(Rule::condition(2, 5));
    }
    Ok(())
}

/// The auth events of an event that a graph has, one after another, from the first that is left on.
#[derive(Clone, Copy)]
pub struct AuthEvents<'a> {
    graph: &'a Graph,
    ids: EventIds<'a>,
}

impl<'a> Iterator for AuthEvents<'a> {
    ghost use Rattle.std.specs.Iterator.{YieldsFirstRef, item_count};
    ghost use Rattle.fed_auth.specs.AuthEvents.{events_left};

    type Item = &'a Stored;

    ghost next_gives = { YieldsFirstRef events_left };

    ghost remaining = { item_count events_left };

    #[tactic(auto, unfolding(crate::specs::AuthEvents::events_left))]
    fn next(&mut self) -> Option<&'a Stored> {
        while let Some(id) = self.ids.next() {
            if let Some(auth) = self.graph.get(id) {
                return Some(auth);
            }
        }
        None
    }
}

impl<'a> AuthEvents<'a> {
    ghost use Rattle.std.specs.Prelude.{find, option_map};
    ghost use Rattle.fed_auth.specs.AuthEvents.{events_left};

    /// The auth events of an event that a graph has, in the order in which the event names them.
    #[tactic(auto, unfolding(crate::specs::AuthEvents::events_left))]
    pub fn of(graph: &'a Graph, event: &'a Pdu) -> AuthEvents<'a>
        ensures { events_left result ≡ stored_of graph.now.stored (auth_events_of event.now) }
    {
        AuthEvents {
            graph,
            ids: event.auth_events(),
        }
    }

    /// The first of these that is a state event of this type and state key.
    pub fn first_at(self, kind: &str, state_key: &str) -> Option<&'a Stored>
        ensures { option_map (λ stored. stored.now) result ≡ find (stands_at kind.now state_key.now) (events_left self.entry) }
    {
        for auth in self {
            if stands_at(auth, kind, state_key) {
                return Some(auth);
            }
        }
        None
    }
}

/// Whether this is a state event of this type and state key.
#[tactic(auto, unfolding(crate::specs::AuthState::stands_at))]
pub fn stands_at(auth: &Stored, kind: &str, state_key: &str) -> bool
    ensures { result ≡ stands_at kind.now state_key.now auth.now }
{
    let auth = auth.event.event();
    auth.kind() == kind && auth.state_key() == Some(state_key)
}

// 2.1: two of one type and state key.
fn has_double(events: AuthEvents<'_>) -> bool
    ensures { result ≡ has_double (events_left events.entry) }
{
    let mut others = events;
    while let Some(one) = others.next() {
        if has_alike(others, one) {
            return true;
        }
    }
    false
}

// Whether one of these has the type and the state key of this one.
fn has_alike(events: AuthEvents<'_>, one: &Stored) -> bool
    ensures { result ≡ list_any (are_alike one.now) (events_left events.entry) }
{
    for other in events {
        if are_alike(one, other) {
            return true;
        }
    }
    false
}

#[tactic(auto, unfolding(crate::specs::AuthState::are_alike))]
fn are_alike(one: &Stored, other: &Stored) -> bool
    ensures { result ≡ are_alike one.now other.now }
{
    let one = one.event.event();
    let other = other.event.event();
    one.state_key().is_some() && one.kind() == other.kind() && one.state_key() == other.state_key()
}

// What rules 2.2 to 2.5 look for among auth events: whether some is so.
#[derive(Drop)]
struct AuthFacts {
    is_outside_selection: bool,
    is_rejected: bool,
    is_create: bool,
    is_of_other_room: bool,
}

impl AuthFacts {
    ghost use Rattle.fed_auth.specs.AuthFacts.{facts_of};

    // What holds of these auth events of an event.
    fn of(event: &Pdu, events: AuthEvents<'_>) -> AuthFacts
        ensures { result ≡ facts_of event.now (events_left events.entry) }
    {
        let mut facts = AuthFacts {
            is_outside_selection: false,
            is_rejected: false,
            is_create: false,
            is_of_other_room: false,
        };
        for auth in events {
            facts.is_outside_selection |= is_outside_selection(event, auth);
            facts.is_rejected |= auth.verdict.is_rejected();
            facts.is_create |= is_create(auth);
            facts.is_of_other_room |= is_of_other_room(event, auth);
        }
        facts
    }
}

// 2.2: one outside the selection.
#[tactic(auto, unfolding(crate::specs::AuthState::is_outside_selection))]
fn is_outside_selection(event: &Pdu, auth: &Stored) -> bool
    ensures { result ≡ is_outside_selection event.now auth.now }
{
    let auth = auth.event.event();
    match auth.state_key() {
        Some(state_key) => !Selector::from(event).selects(auth.kind(), state_key),
        None => true,
    }
}

// 2.4: the create event.
#[tactic(auto, unfolding(crate::specs::AuthState::is_create))]
fn is_create(auth: &Stored) -> bool
    ensures { result ≡ is_create auth.now }
{
    auth.event.event().kind() == "m.room.create"
}

// 2.5: one of another room.
#[tactic(auto, unfolding(crate::specs::AuthState::is_of_other_room))]
fn is_of_other_room(event: &Pdu, auth: &Stored) -> bool
    ensures { result ≡ is_of_other_room event.now auth.now }
{
    auth.event.event().room_id() != event.room_id()
}

// The state of these events.
fn state_of(alloc: Global, events: AuthEvents<'_>) -> Result<State, NoMemory>
    ensures { IfOk result (λ state. state ≡ with_all finite.empty (events_left events.entry)) }
{
    let mut state = State::new(alloc);
    for auth in events {
        lay_over(alloc, &mut state, auth)?;
    }
    Ok(state)
}

/// Lays a stored event over a state, where it has a state key: it holds at its type and state key, in the place of what did.
///
/// # Errors
///
/// `NoMemory`; then the state is as it was.
#[tactic(auto, unfolding(crate::specs::AuthState::with_stored))]
pub fn lay_over(alloc: Global, state: &mut State, stored: &Stored) -> Result<(), NoMemory>
    ensures ok { OnOk result (state.new ≡ with_stored state.old stored.now) }
    ensures err { OnErr result (state.new ≡ state.old) }
{
    let event = stored.event.event();
    if let Some(state_key) = event.state_key() {
        state.insert(alloc, event.kind(), state_key, event.id().copy(alloc)?)?;
    }
    Ok(())
}
