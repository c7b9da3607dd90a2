// What clients were told, compared with a journal.
ghost use Rattle.std.specs.Prelude.{◌≡◌, ◌↔◌, IsTrue, IfOk, map};
ghost use Rattle.fed_hub_told.specs.AsTold.{IsAsTold, AreEventsAsTold, AreEdusAsTold};

use crate::client::Client;
use crate::comparing::are_as_told;
use crate::offers::{edus_among, events_among};
use crate::told_edu::ToldEdu;
use crate::told_event::ToldEvent;
use fed_journal::Entry;
use fed_json::NoMemory;
use std::alloc::Global;

/// Whether the journal of these entries is as all clients were told: the numbers that each client was told rise; over all clients they are those
/// from 1 to the count of the journal's events, each once; and the event of each number has the id that was told and the fields of the draft. And
/// the same of EDUs: the one of each number is the EDU that was told of, for the destinations that were told.
///
/// Its steps are linear in the count of the entries and of what was told, and in the size of these.
///
/// # Errors
///
/// `NoMemory`, where the marks, the list of what the journal has, that of what each client was told or the content of an event has no memory.
pub fn is_as_told<C: Client>(
    alloc: Global,
    clients: &[C],
    entries: &[Entry],
) -> Result<bool, NoMemory>
    ensures { IfOk result (λ is. IsTrue is ↔ IsAsTold (map C.told clients.now) entries.now) }
{
    if !are_events_as_told(alloc, clients, entries)? {
        return Ok(false);
    }
    are_edus_as_told(alloc, clients, entries)
}

// Whether the events of a journal are as clients were told.
fn are_events_as_told<C: Client>(
    alloc: Global,
    clients: &[C],
    entries: &[Entry],
) -> Result<bool, NoMemory>
    ensures { IfOk result (λ is. IsTrue is ↔ AreEventsAsTold (map C.told clients.now) entries.now) }
{
    let told = events_told(alloc, clients)?;
    let events = events_among(alloc, entries)?;
    are_as_told(alloc, &told, &events)
}

// The events that each client was told of.
fn events_told<C: Client>(alloc: Global, clients: &[C]) -> Result<Vec<&[ToldEvent]>, NoMemory>
    ensures { IfOk result (λ told. map (λ events. events.now) told.items ≡ map (λ client. (C.told client).events) clients.now) }
{
    let mut told = Vec::with_capacity(alloc, clients.len())?;
    for client in clients {
        told.push(client.told().events())?;
    }
    Ok(told)
}

// Whether the EDUs of a journal are as clients were told.
fn are_edus_as_told<C: Client>(
    alloc: Global,
    clients: &[C],
    entries: &[Entry],
) -> Result<bool, NoMemory>
    ensures { IfOk result (λ is. IsTrue is ↔ AreEdusAsTold (map C.told clients.now) entries.now) }
{
    let told = edus_told(alloc, clients)?;
    let edus = edus_among(alloc, entries)?;
    are_as_told(alloc, &told, &edus)
}

// The EDUs that each client was told of.
fn edus_told<C: Client>(alloc: Global, clients: &[C]) -> Result<Vec<&[ToldEdu]>, NoMemory>
    ensures { IfOk result (λ told. map (λ edus. edus.now) told.items ≡ map (λ client. (C.told client).edus) clients.now) }
{
    let mut told = Vec::with_capacity(alloc, clients.len())?;
    for client in clients {
        told.push(client.told().edus())?;
    }
    Ok(told)
}
