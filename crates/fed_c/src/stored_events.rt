//! Events with their verdicts, as a JSON array gives them.
ghost use Rattle.std.specs.Prelude.{◌≡◌, ◌≢◌, ◌∷◌, ◌++◌, [], Ok, Err, IfOk, IfErr, OnOk};
ghost use Rattle.fed_json.specs.Items.{left};
ghost use Rattle.fed_c.specs.History.{stored_as};
ghost use Rattle.fed_c.specs.Results.{and_then};
ghost use Rattle.fed_c.specs.StoredEvents.{stored_events_in, stored_events_of};
ghost use Rattle.fed_c.specs.Values.{value_of};
ghost use Rattle.fed_c.specs.declared.status.Status.TheVariants.{Memory};

use crate::history::{checked_in, verdict_by};
use crate::status::Status;
use crate::values::value;
use fed_event::{Checked, Version};
use fed_json::{Items, Json, NoMemory};
use fed_room_contract::Stored;
use std::alloc::Global;

/// The events of an array, of a room of this version, in their order: those whose ids `rejected` lists as rejected ones, the others as accepted ones.
///
/// # Errors
///
/// `NotJson` and `NotCanonical`; `BadEvents` where the value is no array of events, each signed by its sender's server, as far as can be
/// seen without keys. `Memory` where memory ran out.
pub(crate) fn stored_events(
    alloc: Global,
    version: Version,
    events: &[u8],
    rejected: &Json,
) -> Result<Vec<Stored>, Status>
    ensures ok { IfOk result (λ list. and_then (value_of events.now) (stored_events_in version rejected.now) ≡ Ok list.items) }
    ensures fault { IfErr result (λ status. status ≢ Memory → and_then (value_of events.now) (stored_events_in version rejected.now) ≡ Err status) }
{
    let json = value(alloc, events)?;
    let values = json.items().ok_or(Status::BadEvents)?;
    stored_events_of(alloc, version, values, rejected)
}

// The events that these values are.
fn stored_events_of(
    alloc: Global,
    version: Version,
    values: Items<'_>,
    rejected: &Json,
) -> Result<Vec<Stored>, Status>
    ensures ok { IfOk result (λ list. stored_events_of version rejected.now (left values.entry) ≡ Ok list.items) }
    ensures fault { IfErr result (λ status. status ≢ Memory → stored_events_of version rejected.now (left values.entry) ≡ Err status) }
{
    let mut events = Vec::new(alloc);
    for value in values {
        let event = checked_in(alloc, version, value)?;
        add(&mut events, event, rejected)?;
    }
    Ok(events)
}

// Adds an event with its verdict.
fn add(events: &mut Vec<Stored>, event: Checked, rejected: &Json) -> Result<(), NoMemory>
    ensures { OnOk result (events.new.items ≡ events.old.items ++ stored_as rejected.now event ∷ []) }
{
    let verdict = verdict_by(rejected, event.event().id().as_str());
    events.push(Stored { event, verdict })?;
    Ok(())
}
