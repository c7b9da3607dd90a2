// The state after an event.
ghost use Rattle.std.specs.Prelude.{◌≡◌, ◌<◌, Some, OnOk, OnErr, length};
ghost use Rattle.fed_event.specs.EventId.{event_id_of};
ghost use Rattle.fed_event.specs.Fields.{kind_of, state_key_of};
ghost use Rattle.fed_auth.specs.AuthState.{with_id_at};
ghost use Rattle.fed_room_contract.specs.Steps.{state_at};
ghost use Rattle.fed_room_contract.specs.Store.{with_room_for};
ghost use Rattle.fed_room.specs.StatesParts.{after_seen, IsThereIn};

use fed_event::Pdu;
use fed_json::NoMemory;
use fed_room_contract::{EventStore, State, Steps};
use std::alloc::Global;

/// The state after an event, beside the states that are kept: the same as the one at a place, that one with the event laid over, another that
/// differs from that one at the types and state keys of the entries of `keys` alone, or another.
#[derive(Drop)]
pub(crate) enum After {
    Same(usize),
    Laid(usize),
    Changed {
        over: usize,
        state: State,
        keys: State,
    },
    Whole(State),
}

impl After {
    /// Makes it the next state that is kept, and room for the event in a store, so that `push_next` and `store` take no memory. Either both
    /// are made or none.
    ///
    /// # Errors
    ///
    /// `NoMemory`; then the states and the store are as they were.
    pub(crate) fn keep(
        self,
        alloc: Global,
        event: &Pdu,
        states: &mut Steps,
        store: &mut EventStore,
    ) -> Result<(), NoMemory>
        requires { IsThereIn states.old.after self }
        ensures ok { OnOk result (states.new ≡ record { after = states.old.after; next = Some (after_seen states.old.after event.now self) }) }
        ensures room { OnOk result (store.new ≡ with_room_for store.old (event_id_of event.now)) }
        ensures err { OnErr result ((states.new ≡ states.old) × (store.new ≡ store.old)) }
    {
        match self {
            After::Same(place) => states.set_same(alloc, place, store, event.id()),
            After::Laid(place) => lay(alloc, event, place, states, store),
            After::Changed { over, state, keys } => {
                states.set_changed(alloc, over, &state, &keys, store, event.id())
            }
            After::Whole(state) => states.set_whole(alloc, state, store, event.id()),
        }
    }
}

// Makes the next state the one at a place with an event laid over, where it has a state key, and room for the event.
fn lay(
    alloc: Global,
    event: &Pdu,
    place: usize,
    states: &mut Steps,
    store: &mut EventStore,
) -> Result<(), NoMemory>
    requires { place < length states.old.after }
    ensures ok { OnOk result (states.new ≡ record { after = states.old.after; next = Some (with_id_at (state_at states.old.after place) (kind_of event.now) (state_key_of event.now) (event_id_of event.now)) }) }
    ensures room { OnOk result (store.new ≡ with_room_for store.old (event_id_of event.now)) }
    ensures err { OnErr result ((states.new ≡ states.old) × (store.new ≡ store.old)) }
{
    match event.state_key() {
        Some(state_key) => {
            let kind = event.kind();
            states.set_laid(alloc, place, kind, state_key, store, event.id())
        }
        None => states.set_same(alloc, place, store, event.id()),
    }
}
