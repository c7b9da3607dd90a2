// The selection of the auth events that an event has.
ghost use Rattle.std.specs.Prelude.{◌≡◌, IfOk, OnOk, option_map};
ghost use Rattle.fed_auth.specs.Selection.{is_by_join_rules, selector_of, entry_of, with_id, selection_of};
ghost use Rattle.fed_auth.specs.SelectionKey.{seen};
ghost use Rattle.fed_room_contract.specs.StateRef.{seen as state_seen};

use crate::membership::Membership;
use fed_event::{EventId, Pdu, authorising_user_in};
use fed_json::{JsonRef, NoMemory};
use fed_room_contract::{State, StateRef};
use std::alloc::Global;
use std::marker::Model;

/// The ids of the auth events that an event has in a room of this state (Server-Server API, "Auth events selection"), each once and where
/// the state has it: the create event, the power levels, the sender's membership, and of a member event the target's membership, the
/// join rules where it is a join, an invite or a knock, and the membership of the user that authorises it, in this order.
///
/// # Errors
///
/// `NoMemory`.
pub fn selection(alloc: Global, event: &Pdu, state: &State) -> Result<Vec<EventId>, NoMemory>
    ensures { IfOk result (λ ids. ids.items ≡ selection_of (selector_of event.now) state.now) }
{
    Selector::from(event).select(alloc, state)
}

/// What the auth events of an event are selected by (Server-Server API, "Auth events selection"): its type, its sender, its state key,
/// where it has one, and its content. An event that is about to be made has these before it has auth events.
///
/// Contracts see it as these four fields.
#[derive(Drop)]
pub struct Selector<'a> {
    kind: &'a str,
    sender: &'a str,
    state_key: Option<&'a str>,
    content: JsonRef<'a>,
}

impl<'a> Model for Selector<'a> {
    ghost use Rattle.std.specs.Prelude.{option_map};
    ghost use Rattle.fed_json.specs.JsonRef.{seen};
    ghost use Rattle.fed_auth.specs.Selection.{SelectorFields, fields_code};

    ghost Value = { SelectorFields };

    ghost coded = { fields_code };

    ghost view = { λ s. record { kind = s.kind.now; sender = s.sender.now; state_key = option_map (λ key. key.now) s.state_key; content = seen s.content } };
}

impl<'a> From<&'a Pdu> for Selector<'a> {
    ghost use Rattle.fed_auth.specs.Selection.{selector_of};

    ghost from_gives = { λ event selector. selector ≡ selector_of event.now };

    fn from(event: &'a Pdu) -> Selector<'a> {
        Selector {
            kind: event.kind(),
            sender: event.sender(),
            state_key: event.state_key(),
            content: event.content(),
        }
    }
}

impl<'a> Selector<'a> {
    ghost use Rattle.fed_json.specs.JsonRef.{seen as seen_value};
    ghost use Rattle.fed_auth.specs.Selection.{is_of_member, target_of, authoriser_of, needs_join_rules, selection_keys, is_selected};
    ghost use Rattle.fed_auth.specs.SelectionKey.{all_seen};

    /// The selector of these fields.
    pub fn new(
        kind: &'a str,
        sender: &'a str,
        state_key: Option<&'a str>,
        content: JsonRef<'a>,
    ) -> Selector<'a>
        ensures { result
            ≡ record { kind = kind.now; sender = sender.now; state_key = option_map (λ key. key.now) state_key.entry; content = seen_value content.entry } }
    {
        Selector {
            kind,
            sender,
            state_key,
            content,
        }
    }

    /// The ids that a state has at the keys of the selection, in their order, each once.
    ///
    /// # Errors
    ///
    /// `NoMemory`.
    pub fn select(&self, alloc: Global, state: &State) -> Result<Vec<EventId>, NoMemory>
        ensures { IfOk result (λ ids. ids.items ≡ selection_of self.now state.now) }
    {
        self.select_in(alloc, StateRef::Whole(state))
    }

    /// The same in a state that is whole or kept by an earlier one.
    ///
    /// # Errors
    ///
    /// `NoMemory`.
    pub fn select_in(&self, alloc: Global, state: StateRef<'_>) -> Result<Vec<EventId>, NoMemory>
        ensures { IfOk result (λ ids. ids.items ≡ selection_of self.now (state_seen state.entry)) }
    {
        let mut ids = Vec::new(alloc);
        for key in self.keys() {
            add(alloc, &mut ids, entry(state, key))?;
        }
        Ok(ids)
    }

    /// Whether the selection has a place for a state event of this type and state key.
    pub fn selects(&self, kind: &str, state_key: &str) -> bool
        ensures { result ≡ is_selected self.now kind.now state_key.now }
    {
        for key in self.keys() {
            if let Some(key) = key
                && key.is(kind, state_key)
            {
                return true;
            }
        }
        false
    }

    /// The keys of the selection, in their order, with `None` for what is not selected: the create event, the power levels, the
    /// membership of the sender; of a member event the membership of the target, the join rules, and the membership of the user that
    /// authorises it.
    #[tactic(auto, unfolding(crate::specs::Selection::selection_keys))]
    pub fn keys(&self) -> [Option<Key<'a>>; 6]
        ensures { all_seen result ≡ selection_keys self.now }
    {
        [
            Some(Key::of_room("m.room.create")),
            Some(Key::of_room("m.room.power_levels")),
            Some(Key::of_member(self.sender)),
            self.target().map(Key::of_member),
            self.needs_join_rules()
                .then_some(Key::of_room("m.room.join_rules")),
            self.authoriser().map(Key::of_member),
        ]
    }

    fn is_of_member(&self) -> bool
        ensures { result ≡ is_of_member self.now }
    {
        self.kind == "m.room.member"
    }

    // The target of a member event.
    #[tactic(auto, unfolding(crate::specs::Selection::target_of))]
    fn target(&self) -> Option<&'a str>
        ensures { option_map (λ s. s.now) result ≡ target_of self.now }
    {
        if self.is_of_member() {
            self.state_key
        } else {
            None
        }
    }

    // Whether this is a member event that the join rules decide on.
    #[tactic(auto, unfolding(crate::specs::Selection::needs_join_rules))]
    fn needs_join_rules(&self) -> bool
        ensures { result ≡ needs_join_rules self.now }
    {
        self.is_of_member() && is_by_join_rules(Membership::of_content(self.content))
    }

    // The user that authorises a member event.
    #[tactic(auto, unfolding(crate::specs::Selection::authoriser_of))]
    fn authoriser(&self) -> Option<&'a str>
        ensures { option_map (λ s. s.now) result ≡ authoriser_of self.now }
    {
        if self.is_of_member() {
            authorising_user_in(self.content)
        } else {
            None
        }
    }
}

fn is_by_join_rules(membership: Membership) -> bool
    ensures { result ≡ is_by_join_rules membership }
{
    matches!(
        membership,
        Membership::Join | Membership::Invite | Membership::Knock
    )
}

// Adds an id, where there is one and it is not there.
#[tactic(auto, unfolding(crate::specs::Selection::with_id))]
fn add(alloc: Global, ids: &mut Vec<EventId>, id: Option<&EventId>) -> Result<(), NoMemory>
    ensures { OnOk result (ids.new.items ≡ with_id ids.old.items (option_map (λ id. id.now) id.entry)) }
{
    let Some(id) = id else {
        return Ok(());
    };
    if ids.contains(id) {
        return Ok(());
    }
    ids.push(id.copy(alloc)?)?;
    Ok(())
}

// The id that a state has at a key of the selection.
fn entry<'a>(state: StateRef<'a>, key: Option<Key<'_>>) -> Option<&'a EventId>
    ensures { option_map (λ id. id.now) result ≡ entry_of (state_seen state.entry) (option_map seen key.entry) }
{
    let key = key?;
    state.get(key.kind, key.state_key)
}

/// The type and the state key of an event of the state.
#[derive(Clone, Copy)]
pub struct Key<'a> {
    pub kind: &'a str,
    pub state_key: &'a str,
}

impl<'a> Key<'a> {
    ghost use Rattle.fed_auth.specs.Selection.{room_key, member_key, is_key};

    // The key of an event that a room has one of.
    fn of_room(kind: &'a str) -> Key<'a>
        ensures { seen result ≡ room_key kind.now }
    {
        Key {
            kind,
            state_key: "",
        }
    }

    // The key of the membership of a user.
    fn of_member(user: &'a str) -> Key<'a>
        ensures { seen result ≡ member_key user.now }
    {
        Key {
            kind: "m.room.member",
            state_key: user,
        }
    }

    // Whether this is the key of an event of this type and state key.
    fn is(self, kind: &str, state_key: &str) -> bool
        ensures { result ≡ is_key kind.now state_key.now (seen self.entry) }
    {
        self.kind == kind && self.state_key == state_key
    }
}
