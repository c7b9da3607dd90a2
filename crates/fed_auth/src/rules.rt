// Whether a room allows an event.
ghost use Rattle.std.specs.Prelude.{◌≡◌, Some, option_map};
ghost use Rattle.fed_event.specs.EventId.{event_id_of};
ghost use Rattle.fed_room_contract.specs.StateRef.{seen};
ghost use Rattle.fed_auth.specs.Table.{decide};
ghost use Rattle.fed_auth.specs.StateView.{create_event};
ghost use Rattle.fed_auth.specs.StateViewParts.{look_of};
ghost use Rattle.fed_auth.specs.Allowed.{member_table, is_outside, lacks_invite_level, lacks_level, other_table, room_table, first_id, rule_table, allowed_of, allowed_by};

use crate::create_rules::allow_create;
use crate::event_rules::{is_of_other_user, is_unauthorised, is_unfederated, member_target};
use crate::level::Level;
use crate::levels::Levels;
use crate::membership::Membership;
use crate::power_rules::allow_levels;
use crate::state_view::StateView;
use fed_event::{Checked, EventId, Pdu};
use fed_room_contract::{Graph, Rule, State, StateRef};

/// Whether a room in this state allows an event: the authorization rules (room version 10, "Authorization rules") but rule 2, on the auth
/// events, by the events that the state names in the graph. An event that the state names and the graph does not have counts as
/// missing. It takes no memory.
///
/// # Errors
///
/// The first rule that holds, where it rejects the event; 2.4 where the state names no create event and this is none.
pub fn allowed(graph: &Graph, event: &Checked, state: &State) -> Result<(), Rule>
    ensures { result ≡ allowed_of graph.now.stored event.now state.now }
{
    allowed_in(graph, event, StateRef::Whole(state))
}

/// The same in a state that is whole or kept by an earlier one.
///
/// # Errors
///
/// Those of `allowed`.
pub fn allowed_in(graph: &Graph, event: &Checked, state: StateRef<'_>) -> Result<(), Rule>
    ensures { result ≡ allowed_of graph.now.stored event.now (seen state.entry) }
{
    allow(StateView::Named(graph, state), first_id(graph), event)
}

/// The same by the events of the state themselves, of which those at the keys of the event's selection are enough: at a type and state key
/// the first of them holds. The create event among them is the first of the room. It takes no memory.
///
/// # Errors
///
/// Those of `allowed`.
pub fn allowed_by(events: &[Pdu], event: &Checked) -> Result<(), Rule>
    ensures { result ≡ allowed_by events.now event.now }
{
    let view = StateView::Listed(events);
    allow(view, created_id(view), event)
}

// All rules, in a room whose first event has this id.
#[tactic(auto, unfolding(crate::specs::Allowed::rule_table))]
fn allow(view: StateView<'_>, first: Option<&EventId>, event: &Checked) -> Result<(), Rule>
    ensures { result ≡ decide (rule_table (look_of view.entry) (option_map (λ id. id.now) first.entry) event.now) }
{
    if event.event().kind() == "m.room.create" {
        return allow_create(event.event(), first);
    }
    match view.create() {
        Some(create) => allow_in_room(view, create, event),
        None => Err(Rule::condition(2, 4)),
    }
}

// The id of the create event.
fn created_id(view: StateView<'_>) -> Option<&EventId>
    ensures { option_map (λ id. id.now) result ≡ option_map event_id_of (create_event (look_of view.entry)) }
{
    Some(view.create()?.id())
}

// The id of the first event of the graph.
fn first_id(graph: &Graph) -> Option<&EventId>
    ensures { option_map (λ id. id.now) result ≡ first_id graph.now.stored }
{
    Some(graph.first()?.event.event().id())
}

// Rules 3 to 10, where this is the create event.
#[tactic(auto, unfolding(crate::specs::Allowed::room_table))]
fn allow_in_room(view: StateView<'_>, create: &Pdu, event: &Checked) -> Result<(), Rule>
    requires { create_event (look_of view) ≡ Some create.now }
    ensures { result ≡ decide (room_table (look_of view.entry) create.now event.now) }
{
    if is_unfederated(create, event.event()) {
        return Err(Rule::whole(3));
    }
    let levels = view.levels(create);
    if event.event().kind() == "m.room.member" {
        return allow_member(view, &levels, create, event);
    }
    allow_other(view, &levels, event.event())
}

// Rule 4.
#[tactic(auto, unfolding(crate::specs::Allowed::member_table))]
fn allow_member(
    view: StateView<'_>,
    levels: &Levels<'_>,
    create: &Pdu,
    event: &Checked,
) -> Result<(), Rule>
    ensures { result ≡ decide (member_table (look_of view.entry) levels.now create.now event.now) }
{
    let Some(target) = member_target(event.event()) else {
        return Err(Rule::condition(4, 1));
    };
    if is_unauthorised(event) {
        return Err(Rule::condition(4, 2));
    }
    let event = event.event();
    let facts = view.facts(levels, create, event, target);
    facts.allow(Membership::of_content(event.content()))
}

// Rules 5 to 10.
#[tactic(auto, unfolding(crate::specs::Allowed::other_table))]
fn allow_other(view: StateView<'_>, levels: &Levels<'_>, event: &Pdu) -> Result<(), Rule>
    ensures { result ≡ decide (other_table (look_of view.entry) levels.now event.now) }
{
    let kind = event.kind();
    let sender = event.sender();
    if is_outside(view, sender) {
        return Err(Rule::whole(5));
    }
    let level = levels.user(sender);
    if kind == "m.room.third_party_invite" {
        if lacks_invite_level(levels, level) {
            return Err(Rule::whole(6));
        }
        return Ok(());
    }
    if lacks_level(levels, level, event) {
        return Err(Rule::whole(7));
    }
    if is_of_other_user(event) {
        return Err(Rule::whole(8));
    }
    if kind == "m.room.power_levels" {
        return allow_levels(level, sender, view.power_levels(), event.content());
    }
    Ok(())
}

// 5: the user is not joined.
#[tactic(auto, unfolding(crate::specs::Allowed::is_outside))]
fn is_outside(view: StateView<'_>, user: &str) -> bool
    ensures { result ≡ is_outside (look_of view.entry) user.now }
{
    !view.membership(user).is_joined()
}

// 6: the level is below that of an invite.
#[tactic(auto, unfolding(crate::specs::Allowed::lacks_invite_level))]
fn lacks_invite_level(levels: &Levels<'_>, level: Level) -> bool
    ensures { result ≡ lacks_invite_level levels.now level }
{
    level < levels.invite()
}

// 7: the level is below that which the event needs.
#[tactic(auto, unfolding(crate::specs::Allowed::lacks_level))]
fn lacks_level(levels: &Levels<'_>, level: Level, event: &Pdu) -> bool
    ensures { result ≡ lacks_level levels.now level event.now }
{
    level < levels.required(event.kind(), event.state_key())
}
