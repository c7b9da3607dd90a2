// What the state of a room says.
ghost use Rattle.std.specs.Prelude.{◌≡◌, Some, option_map};
ghost use Rattle.fed_json.specs.JsonRef.{seen};
ghost use Rattle.fed_auth.specs.StateView.{creator_in, event_among, event_in, is_at, is_first_join};
ghost use Rattle.fed_room_contract.specs.StateRef.{seen as state_seen};

use crate::event_rules::is_only;
use crate::join_rule::JoinRule;
use crate::levels::Levels;
use crate::member_rules::{ActionLevels, Member, MemberFacts};
use crate::membership::Membership;
use fed_event::{Pdu, authorising_user};
use fed_json::JsonRef;
use fed_room_contract::{Graph, StateRef};

// A state: the events that hold in a room.
#[derive(Clone, Copy)]
pub(crate) enum StateView<'a> {
    // The ids of these, and the graph that has the events.
    Named(&'a Graph, StateRef<'a>),
    // The events.
    Listed(&'a [Pdu]),
}

impl<'a> StateView<'a> {
    ghost use Rattle.fed_auth.specs.StateView.{create_event, power_content, room_levels, membership_of, room_join_rule, is_authorised_in, member_of, facts_of};
    ghost use Rattle.fed_auth.specs.StateViewParts.{look_of};

    // The event that holds at this type and state key.
    pub(crate) fn event(self, kind: &str, state_key: &str) -> Option<&'a Pdu>
        ensures { option_map (λ event. event.now) result ≡ look_of self.entry kind.now state_key.now }
    {
        match self {
            StateView::Named(graph, state) => named_event(graph, state, kind, state_key),
            StateView::Listed(events) => given_event(events, kind, state_key),
        }
    }

    pub(crate) fn create(self) -> Option<&'a Pdu>
        ensures { option_map (λ event. event.now) result ≡ create_event (look_of self.entry) }
    {
        self.event("m.room.create", "")
    }

    // The content of the power levels event.
    pub(crate) fn power_levels(self) -> Option<JsonRef<'a>>
        ensures { option_map seen result ≡ power_content (look_of self.entry) }
    {
        Some(self.event("m.room.power_levels", "")?.content())
    }

    // The levels of users and events, where this is the create event.
    #[tactic(auto, unfolding(crate::specs::StateView::room_levels))]
    pub(crate) fn levels(self, create: &'a Pdu) -> Levels<'a>
        requires { create_event (look_of self) ≡ Some create.now }
        ensures { result ≡ room_levels (look_of self.entry) }
    {
        Levels::new(self.power_levels(), creator(create))
    }

    pub(crate) fn membership(self, user: &str) -> Membership
        ensures { result ≡ membership_of (look_of self.entry) user.now }
    {
        match self.event("m.room.member", user) {
            Some(event) => Membership::of_content(event.content()),
            None => Membership::Other,
        }
    }

    fn join_rule(self) -> JoinRule
        ensures { result ≡ room_join_rule (look_of self.entry) }
    {
        match self.event("m.room.join_rules", "") {
            Some(event) => JoinRule::of_content(event.content()),
            None => JoinRule::Invite,
        }
    }

    // Whether the event names a user that is joined and has the level to invite.
    #[tactic(auto, unfolding(crate::specs::StateView::is_authorised_in))]
    fn is_authorised(self, levels: &Levels<'_>, event: &Pdu) -> bool
        ensures { result ≡ is_authorised_in (look_of self.entry) levels.now event.now }
    {
        match authorising_user(event) {
            Some(user) => self.membership(user).is_joined() && levels.invite() <= levels.user(user),
            None => false,
        }
    }

    // What the rules on a member event look at, whose target is this user.
    #[tactic(auto, unfolding(crate::specs::StateView::facts_of))]
    pub(crate) fn facts(
        self,
        levels: &Levels<'_>,
        create: &Pdu,
        event: &Pdu,
        target: &str,
    ) -> MemberFacts
        ensures { result ≡ facts_of (look_of self.entry) levels.now create.now event.now target.now }
    {
        let sender = event.sender();
        MemberFacts {
            sender: self.member(levels, sender),
            target: self.member(levels, target),
            is_own: sender == target,
            is_first: is_first_join(create, event, target),
            is_authorised: self.is_authorised(levels, event),
            is_third_party: event.content().member("third_party_invite").is_some(),
            join_rule: self.join_rule(),
            needed: ActionLevels {
                invite: levels.invite(),
                kick: levels.kick(),
                ban: levels.ban(),
            },
        }
    }

    fn member(self, levels: &Levels<'_>, user: &str) -> Member
        ensures { result ≡ member_of (look_of self.entry) levels.now user.now }
    {
        Member {
            membership: self.membership(user),
            level: levels.user(user),
        }
    }
}

// The event that the state names at this type and state key.
#[tactic(auto, unfolding(crate::specs::StateView::event_in))]
fn named_event<'a>(
    graph: &'a Graph,
    state: StateRef<'_>,
    kind: &str,
    state_key: &str,
) -> Option<&'a Pdu>
    ensures { option_map (λ event. event.now) result ≡ event_in graph.now.stored (state_seen state.entry) kind.now state_key.now }
{
    let id = state.get(kind, state_key)?;
    let stored = graph.get(id.as_str())?;
    Some(stored.event.event())
}

// The first of these events that is of this type and state key.
#[tactic(auto, unfolding(crate::specs::StateView::event_among))]
fn given_event<'a>(events: &'a [Pdu], kind: &str, state_key: &str) -> Option<&'a Pdu>
    ensures { option_map (λ event. event.now) result ≡ event_among events.now kind.now state_key.now }
{
    for event in events {
        if is_at(event, kind, state_key) {
            return Some(event);
        }
    }
    None
}

// Whether the event is of this type and state key.
fn is_at(event: &Pdu, kind: &str, state_key: &str) -> bool
    ensures { result ≡ is_at kind.now state_key.now event.now }
{
    event.kind() == kind && event.state_key() == Some(state_key)
}

/// The user that created the room, by its create event: the one that its content names, where it names one and the version has it so,
/// and in room version 11 its sender.
pub fn creator(create: &Pdu) -> Option<&str>
    ensures { option_map (λ s. s.now) result ≡ creator_in create.now }
{
    if create.version().names_creator() {
        create.content().member("creator")?.text()
    } else {
        Some(create.sender())
    }
}

// Whether the event follows the create event alone, and its target is the creator.
#[tactic(auto, unfolding(crate::specs::StateView::is_first_join))]
fn is_first_join(create: &Pdu, event: &Pdu, target: &str) -> bool
    ensures { result ≡ is_first_join create.now event.now target.now }
{
    is_only(create.id(), event.prev_events()) && creator(create) == Some(target)
}
