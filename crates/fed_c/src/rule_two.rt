//! Rule 2 of the authorization rules, by the auth events themselves.
ghost use Rattle.std.specs.Prelude.{◌≡◌};
ghost use Rattle.std.specs.List.{list_any};
ghost use Rattle.fed_auth.specs.AuthState.{are_alike, auth_table, has_double, is_create, is_of_other_room, is_outside_selection};
ghost use Rattle.fed_auth.specs.Table.{decide};

use fed_auth::Selector;
use fed_event::Pdu;
use fed_room_contract::{Rule, Stored};

/// Rule 2 (room versions 10 and 11, "Authorization rules") on these auth events of an event that is no create event.
///
/// # Errors
///
/// The first condition that holds: 2.1 two auth events of one type and state key; 2.2 one outside the selection of the event, as each is that
/// has no state key; 2.3 one that was rejected; 2.4 none that is a create event; 2.5 one of another room.
#[tactic(auto, unfolding(fed_auth::specs::AuthState::auth_table))]
pub(crate) fn allow_auth_events(event: &Pdu, auth: &[Stored]) -> Result<(), Rule>
    ensures { result ≡ decide (auth_table event.now auth.now) }
{
    if has_double(auth) {
        return Err(Rule::condition(2, 1));
    }
    let facts = AuthFacts::of(event, auth);
    if facts.is_outside_selection {
        return Err(Rule::condition(2, 2));
    }
    if facts.is_rejected {
        return Err(Rule::condition(2, 3));
    }
    if !facts.is_create {
        return Err(Rule::condition(2, 4));
    }
    if facts.is_of_other_room {
        return Err(Rule::condition(2, 5));
    }
    Ok(())
}

// 2.1: two of one type and state key.
fn has_double(auth: &[Stored]) -> bool
    ensures { result ≡ has_double auth.now }
{
    let mut left = auth;
    while let Some((one, others)) = left.split_first() {
        if has_alike(others, one) {
            return true;
        }
        left = others;
    }
    false
}

// Whether one of these has the type and the state key of this one.
fn has_alike(others: &[Stored], one: &Stored) -> bool
    ensures { result ≡ list_any (are_alike one.now) others.now }
{
    for other in others {
        if are_alike(one, other) {
            return true;
        }
    }
    false
}

#[tactic(auto, unfolding(fed_auth::specs::AuthState::are_alike))]
fn are_alike(one: &Stored, other: &Stored) -> bool
    ensures { result ≡ are_alike one.now other.now }
{
    let one = one.event.event();
    let other = other.event.event();
    one.state_key().is_some() && one.kind() == other.kind() && one.state_key() == other.state_key()
}

// What conditions 2.2 to 2.5 look for among auth events: whether some is so.
#[derive(Drop)]
struct AuthFacts {
    is_outside_selection: bool,
    is_rejected: bool,
    is_create: bool,
    is_of_other_room: bool,
}

impl AuthFacts {
    ghost use Rattle.fed_c.specs.RuleTwo.{facts_of};

    // What holds of these auth events of an event.
    fn of(event: &Pdu, auth: &[Stored]) -> AuthFacts
        ensures { result ≡ facts_of event.now auth.now }
    {
        let mut facts = AuthFacts {
            is_outside_selection: false,
            is_rejected: false,
            is_create: false,
            is_of_other_room: false,
        };
        for one in auth {
            facts.is_outside_selection |= is_outside_selection(event, one);
            facts.is_rejected |= one.verdict.is_rejected();
            facts.is_create |= is_create(one);
            facts.is_of_other_room |= is_of_other_room(event, one);
        }
        facts
    }
}

// 2.2: outside the selection.
#[tactic(auto, unfolding(fed_auth::specs::AuthState::is_outside_selection))]
fn is_outside_selection(event: &Pdu, auth: &Stored) -> bool
    ensures { result ≡ is_outside_selection event.now auth.now }
{
    let auth = auth.event.event();
    match auth.state_key() {
        Some(state_key) => !Selector::from(event).selects(auth.kind(), state_key),
        None => true,
    }
}

// 2.4: the create event.
#[tactic(auto, unfolding(fed_auth::specs::AuthState::is_create))]
fn is_create(auth: &Stored) -> bool
    ensures { result ≡ is_create auth.now }
{
    auth.event.event().kind() == "m.room.create"
}

// 2.5: of another room.
#[tactic(auto, unfolding(fed_auth::specs::AuthState::is_of_other_room))]
fn is_of_other_room(event: &Pdu, auth: &Stored) -> bool
    ensures { result ≡ is_of_other_room event.now auth.now }
{
    auth.event.event().room_id() != event.room_id()
}
