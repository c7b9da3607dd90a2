// What rule 1 makes of a create event.
ghost use Rattle.std.specs.Prelude.{◌≡◌, option_map};
ghost use Rattle.fed_json.specs.JsonRef.{seen};
ghost use Rattle.fed_auth.specs.Table.{decide};
ghost use Rattle.fed_auth.specs.CreateRules.{are_of_one_server, has_prev_events, is_of_other_server, names_known_version, has_other_version, lacks_creator, comes_later, create_table};

use crate::version::is_known_version;
use fed_event::{EventId, Pdu, domain};
use fed_json::JsonRef;
use fed_room_contract::Rule;

/// Whether a create event is allowed in a room whose first event has this id, where it has one (rule 1).
///
/// # Errors
///
/// 1.1 where it follows other events, 1.2 where the room id and the sender are of different servers, 1.3 where it names a room
/// version that is not known, 1.4 where it names no creator and the version has it so, 1.5 where another event is the room's first.
#[tactic(auto, unfolding(crate::specs::CreateRules::create_table))]
pub(crate) fn allow_create(event: &Pdu, first: Option<&EventId>) -> Result<(), Rule>
    ensures { result ≡ decide (create_table (option_map (λ id. id.now) first.entry) event.now) }
{
    if has_prev_events(event) {
        return Err(Rule::condition(1, 1));
    }
    if is_of_other_server(event) {
        return Err(Rule::condition(1, 2));
    }
    if has_other_version(event) {
        return Err(Rule::condition(1, 3));
    }
    if lacks_creator(event) {
        return Err(Rule::condition(1, 4));
    }
    if comes_later(first, event) {
        return Err(Rule::condition(1, 5));
    }
    Ok(())
}

// Whether two identifiers name one server.
pub(crate) fn are_of_one_server(one: &str, other: &str) -> bool
    ensures { result ≡ are_of_one_server one.now other.now }
{
    domain(one) == domain(other)
}

#[tactic(auto, unfolding(crate::specs::CreateRules::has_prev_events))]
fn has_prev_events(event: &Pdu) -> bool
    ensures { result ≡ has_prev_events event.now }
{
    !event.prev_events().is_empty()
}

#[tactic(auto, unfolding(crate::specs::CreateRules::is_of_other_server))]
fn is_of_other_server(event: &Pdu) -> bool
    ensures { result ≡ is_of_other_server event.now }
{
    !are_of_one_server(event.room_id(), event.sender())
}

#[tactic(auto, unfolding(crate::specs::CreateRules::has_other_version))]
fn has_other_version(event: &Pdu) -> bool
    ensures { result ≡ has_other_version event.now }
{
    event
        .content()
        .member("room_version")
        .is_some_and(|version| !names_known_version(version))
}

fn names_known_version(version: JsonRef<'_>) -> bool
    ensures { result ≡ names_known_version (seen version.entry) }
{
    match version.text() {
        Some(version) => is_known_version(version),
        None => false,
    }
}

#[tactic(auto, unfolding(crate::specs::CreateRules::lacks_creator))]
fn lacks_creator(event: &Pdu) -> bool
    ensures { result ≡ lacks_creator event.now }
{
    event.version().names_creator() && event.content().member("creator").is_none()
}

#[tactic(auto, unfolding(crate::specs::CreateRules::comes_later))]
fn comes_later(first: Option<&EventId>, event: &Pdu) -> bool
    ensures { result ≡ comes_later (option_map (λ id. id.now) first.entry) event.now }
{
    first.is_some_and(|id| id != event.id())
}
