// The events and the EDUs of a journal, by their numbers.
ghost use Rattle.std.specs.Prelude.{◌≡◌, IfOk, map};
ghost use Rattle.fed_journal.specs.Journal.{events_of};
ghost use Rattle.fed_hub_told.specs.AsTold.{offered_edus};
ghost use Rattle.fed_hub_told.specs.Offers.{edu_of};

use fed_dest::ServerSet;
use fed_event::Checked;
use fed_journal::Entry;
use fed_json::{Json, NoMemory};
use std::alloc::Global;

/// An EDU of a journal, with its destinations.
#[derive(Clone, Copy)]
pub(crate) struct Offer<'a> {
    pub(crate) edu: &'a Json,
    pub(crate) dests: &'a ServerSet,
}

/// The events among entries, in order.
pub(crate) fn events_among<'a>(
    alloc: Global,
    entries: &'a [Entry],
) -> Result<Vec<&'a Checked>, NoMemory>
    ensures { IfOk result (λ events. map (λ e. e.now) events.items ≡ events_of entries.now) }
{
    let mut events = Vec::new(alloc);
    for entry in entries {
        if let Entry::Event(event, _) = entry {
            events.push(event)?;
        }
    }
    Ok(events)
}

/// The EDUs among entries, in order.
pub(crate) fn edus_among<'a>(
    alloc: Global,
    entries: &'a [Entry],
) -> Result<Vec<Offer<'a>>, NoMemory>
    ensures { IfOk result (λ edus. map edu_of edus.items ≡ offered_edus entries.now) }
{
    let mut edus = Vec::new(alloc);
    for entry in entries {
        if let Entry::Edu(edu, dests) = entry {
            edus.push(Offer { edu, dests })?;
        }
    }
    Ok(edus)
}
