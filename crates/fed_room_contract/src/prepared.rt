// Events that a room has prepared.
ghost use Rattle.std.specs.Arc.{arc_value};
ghost use Rattle.std.specs.Prelude.{◌≡◌, IfOk};
ghost use Rattle.fed_event.specs.EventId.{event_id_of};

use crate::state::State;
use fed_event::{Checked, EventId};
use fed_json::NoMemory;
use std::alloc::Global;
use std::marker::Model;
use std::sync::Arc;

/// An event that a room has made of a draft and can store, and the state before it, which others may share.
#[derive(Drop)]
pub struct Prepared {
    event: Checked,
    before: Arc<State>,
    id: EventId,
}

impl Model for Prepared {
    ghost use Rattle.std.specs.Arc.{arc_value};
    ghost use Rattle.std.specs.Prelude.{◌≡◌};
    ghost use Rattle.fed_event.specs.EventId.{event_id_of};
    ghost use Rattle.fed_room_contract.specs.Prepared.{PreparedEvent, prepared_code};

    ghost Value = { PreparedEvent };

    ghost coded = { prepared_code };

    ghost view = { λ p. record { event = p.event; before = arc_value p.before } };

    ghost invariant = { λ p. p.id ≡ event_id_of p.event.event };
}

impl Prepared {
    /// An event, and the state before it.
    pub fn new(alloc: Global, event: Checked, before: State) -> Result<Prepared, NoMemory>
        ensures { IfOk result (λ p. p ≡ record { event = event; before = before }) }
    {
        let before = Arc::new(alloc, before)?;
        Prepared::sharing(alloc, event, before)
    }

    /// An event, and the state before it, which others may share.
    pub fn sharing(alloc: Global, event: Checked, before: Arc<State>) -> Result<Prepared, NoMemory>
        ensures { IfOk result (λ p. p ≡ record { event = event; before = arc_value before }) }
    {
        let id = event.event().id().copy(alloc)?;
        Ok(Prepared { event, before, id })
    }

    /// The event.
    pub fn event(&self) -> &Checked
        ensures { result.now ≡ self.now.event }
    {
        &self.event
    }

    /// The state before the event.
    pub fn state_before(&self) -> &State
        ensures { result.now ≡ self.now.before }
    {
        &self.before
    }

    /// The event, and its id, to keep.
    pub fn into_event(self) -> (Checked, EventId)
        ensures { result ≡ (self.event, event_id_of self.event.event) }
    {
        let Prepared { event, id, .. } = self;
        (event, id)
    }
}
