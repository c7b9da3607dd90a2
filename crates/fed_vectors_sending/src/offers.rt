// The events and the EDUs that a call gives.

use fed_event::Checked;
use fed_json::Json;
use fed_vectors_call::{Arguments, Stop};
use fed_vectors_events::KeyRing;
use fed_vectors_events::events::events_of;
use std::alloc::Global;

/// The events and the EDUs that a call gives, which its operations name by their places.
#[derive(Drop)]
pub(crate) struct Offers {
    events: Vec<Checked>,
    edus: Vec<Json>,
}

impl Offers {
    /// Those of `events`, each after the checks on receipt, and of `edus`.
    pub(crate) fn of(call: Arguments<'_>) -> Result<Offers, Stop> {
        Ok(Offers {
            events: events_of(call, "events", &KeyRing::of(call, "")?)?,
            edus: edus(call)?,
        })
    }

    pub(crate) fn events(&self) -> &[Checked] {
        self.events.as_slice()
    }

    pub(crate) fn edus(&self) -> &[Json] {
        self.edus.as_slice()
    }

    /// A copy of the event at a place, if there is one.
    pub(crate) fn event(&self, alloc: Global, place: u64) -> Result<Option<Checked>, Stop> {
        match self.events.get(place as usize) {
            Some(event) => Ok(Some(event.copy(alloc)?)),
            None => Ok(None),
        }
    }

    /// A copy of the EDU at a place, if there is one.
    pub(crate) fn edu(&self, place: u64) -> Result<Option<Json>, Stop> {
        match self.edus.get(place as usize) {
            Some(edu) => Ok(Some(edu.copy()?)),
            None => Ok(None),
        }
    }

    /// A copy of the event that the operation names.
    pub(crate) fn event_of(&self, operation: Arguments<'_>) -> Result<Checked, Stop> {
        match self.event(operation.alloc, operation.whole("event")?)? {
            Some(event) => Ok(event),
            None => Err(operation.wrong_kind("event")),
        }
    }

    /// A copy of the EDU that the operation names.
    pub(crate) fn edu_of(&self, operation: Arguments<'_>) -> Result<Json, Stop> {
        match self.edu(operation.whole("edu")?)? {
            Some(edu) => Ok(edu),
            None => Err(operation.wrong_kind("edu")),
        }
    }
}

fn edus(call: Arguments<'_>) -> Result<Vec<Json>, Stop> {
    let mut edus = Vec::new(call.alloc);
    for item in call.items("edus")? {
        edus.push(item.to_json()?)?;
    }
    Ok(edus)
}
