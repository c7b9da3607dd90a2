//! The events of a state as a JSON array gives them.
ghost use Rattle.std.specs.Prelude.{◌≡◌, ◌≢◌, ◌∷◌, ◌++◌, [], Ok, Err, IfOk, IfErr, OnOk};
ghost use Rattle.fed_json.specs.Items.{left};
ghost use Rattle.fed_c.specs.Results.{and_then};
ghost use Rattle.fed_c.specs.StateEvents.{state_events_in, state_events_of};
ghost use Rattle.fed_c.specs.States.{made_of};
ghost use Rattle.fed_c.specs.Values.{value_of};
ghost use Rattle.fed_c.specs.declared.status.Status.TheVariants.{Memory};

use crate::history::checked_in;
use crate::states::lay;
use crate::status::Status;
use crate::values::value;
use fed_event::{Checked, Pdu, Version};
use fed_json::{Items, NoMemory};
use fed_room_contract::State;
use std::alloc::Global;

/// The events of an array, of a room of this version, in their order; of one whose content hash does not fit, its redaction.
///
/// # Errors
///
/// `NotJson` and `NotCanonical`; `BadEvents` where the value is no array of events, each signed by its sender's server, as far as can be
/// seen without keys. `Memory` where memory ran out.
pub(crate) fn state_events(
    alloc: Global,
    version: Version,
    events: &[u8],
) -> Result<Vec<Pdu>, Status>
    ensures ok { IfOk result (λ list. and_then (value_of events.now) (state_events_in version) ≡ Ok list.items) }
    ensures fault { IfErr result (λ status. status ≢ Memory → and_then (value_of events.now) (state_events_in version) ≡ Err status) }
{
    let json = value(alloc, events)?;
    let values = json.items().ok_or(Status::BadEvents)?;
    state_events_of(alloc, version, values)
}

// The events that these values are.
fn state_events_of(alloc: Global, version: Version, values: Items<'_>) -> Result<Vec<Pdu>, Status>
    ensures ok { IfOk result (λ list. state_events_of version (left values.entry) ≡ Ok list.items) }
    ensures fault { IfErr result (λ status. status ≢ Memory → state_events_of version (left values.entry) ≡ Err status) }
{
    let mut events = Vec::new(alloc);
    for value in values {
        let event = checked_in(alloc, version, value)?;
        add(alloc, &mut events, &event)?;
    }
    Ok(events)
}

// Adds what was kept of an event.
fn add(alloc: Global, events: &mut Vec<Pdu>, event: &Checked) -> Result<(), NoMemory>
    ensures { OnOk result (events.new.items ≡ events.old.items ++ event.now.event ∷ []) }
{
    events.push(event.event().copy(alloc)?)?;
    Ok(())
}

/// The state that these events make.
///
/// # Errors
///
/// `BadState` where one is no state event, or stands at the type and state key of another. `Memory` where memory ran out.
pub(crate) fn made_of(alloc: Global, events: &[Pdu]) -> Result<State, Status>
    ensures ok { IfOk result (λ state. made_of events.now ≡ Ok state) }
    ensures fault { IfErr result (λ status. status ≢ Memory → made_of events.now ≡ Err status) }
{
    let mut state = State::new(alloc);
    for event in events {
        lay(alloc, &mut state, event)?;
    }
    Ok(state)
}
