// Conditions of the rules on an event alone, or beside the create event.
ghost use Rattle.std.specs.Prelude.{◌≡◌, option_map};
ghost use Rattle.fed_json.specs.JsonRef.{seen};
ghost use Rattle.fed_event.specs.EventIds.{ids_left};
ghost use Rattle.fed_auth.specs.EventRules.{is_unfederated, member_target, is_user, is_unauthorised, is_of_other_user, is_only};

use crate::create_rules::are_of_one_server;
use fed_event::{Checked, EventId, EventIds, Pdu, is_user_id};
use fed_json::JsonRef;

// 3: the room is not federated, and the sender is of another server than the create event's.
#[tactic(auto, unfolding(crate::specs::EventRules::is_unfederated))]
pub(crate) fn is_unfederated(create: &Pdu, event: &Pdu) -> bool
    ensures { result ≡ is_unfederated create.now event.now }
{
    let federate = create
        .content()
        .member("m.federate")
        .and_then(|value| value.boolean());
    federate == Some(false) && !are_of_one_server(event.sender(), create.sender())
}

// 4.1: the user that a member event is about, where it has a state key and a `membership`.
#[tactic(auto, unfolding(crate::specs::EventRules::member_target))]
pub(crate) fn member_target(event: &Pdu) -> Option<&str>
    ensures { option_map (λ s. s.now) result ≡ member_target event.now }
{
    event.content().member("membership")?;
    event.state_key()
}

// 4.2: the event names a user that authorises it, and that is no user id, or of a server that has not signed.
#[tactic(auto, unfolding(crate::specs::EventRules::is_unauthorised))]
pub(crate) fn is_unauthorised(checked: &Checked) -> bool
    ensures { result ≡ is_unauthorised checked.now }
{
    checked
        .event()
        .content()
        .member("join_authorised_via_users_server")
        .is_some_and(|user| !(is_user(user) && checked.is_authorised()))
}

fn is_user(value: JsonRef<'_>) -> bool
    ensures { result ≡ is_user (seen value.entry) }
{
    value.text().is_some_and(|text| is_user_id(text))
}

// 8: the state key begins with `@` and is another user than the sender.
#[tactic(auto, unfolding(crate::specs::EventRules::is_of_other_user))]
pub(crate) fn is_of_other_user(event: &Pdu) -> bool
    ensures { result ≡ is_of_other_user event.now }
{
    event
        .state_key()
        .is_some_and(|key| key.starts_with('@') && key != event.sender())
}

// Whether these ids are this one alone.
pub(crate) fn is_only(id: &EventId, ids: EventIds<'_>) -> bool
    ensures { result ≡ is_only id.now (ids_left ids.entry) }
{
    let mut ids = ids;
    match (ids.next(), ids.next()) {
        (Some(one), None) => one == id.as_str(),
        _ => false,
    }
}
