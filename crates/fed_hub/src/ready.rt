// What is made ready for an event, or for an EDU, before the journal is locked, so that nothing behind that takes memory.
ghost use Rattle.std.specs.Prelude.{◌≡◌, IfOk, OnOk};
ghost use Rattle.std.specs.List.Sorted.{IsStrictlyIncreasing};
ghost use Rattle.fed_journal.specs.Offered.{load_of};
ghost use Rattle.fed_hub_state.specs.Spreading.{AreAll, dests_of};
ghost use Rattle.fed_hub.specs.Ready.{IsReadyFor, IsEduReady};

use fed_dest::ServerSet;
use fed_event::EventId;
use fed_hub_state::Unplaced;
use fed_hub_state::sections::Outgoing;
use fed_journal::Offered;
use fed_json::{Json, NoMemory};
use fed_room_contract::{Draft, Prepared};
use std::alloc::Global;

/// An event on its way, the draft that it was made of, and its id twice.
#[derive(Drop)]
pub(crate) struct Ready {
    pub(crate) outgoing: Outgoing,
    pub(crate) draft: Draft,
    pub(crate) event_id: EventId,
    pub(crate) same_id: EventId,
}

impl Ready {
    /// Makes ready what a room has prepared of a draft, for these destinations.
    pub(crate) fn new(
        alloc: Global,
        prepared: Prepared,
        dests: ServerSet,
        draft: Draft,
    ) -> Result<Ready, NoMemory>
        ensures { IfOk result (λ r. IsReadyFor prepared dests draft r) }
    {
        let event_id = prepared.event().event().id().copy(alloc)?;
        let same_id = event_id.copy(alloc)?;
        let offered = Offered::Event(prepared.event().copy(alloc)?);
        let loads = loads(alloc, &offered, &dests)?;
        let input = prepared.event().copy(alloc)?;
        let outgoing = Outgoing {
            prepared,
            offered,
            input,
            dests,
            loads,
        };
        Ok(Ready {
            outgoing,
            draft,
            event_id,
            same_id,
        })
    }
}

/// The loads of an EDU, and an equal EDU and equal destinations.
#[derive(Drop)]
pub(crate) struct ReadyEdu {
    pub(crate) loads: Vec<Unplaced>,
    pub(crate) same_edu: Json,
    pub(crate) same_dests: ServerSet,
}

impl ReadyEdu {
    /// Makes an EDU ready for these destinations.
    pub(crate) fn new(alloc: Global, edu: &Json, dests: &ServerSet) -> Result<ReadyEdu, NoMemory>
        ensures { IfOk result (λ r. IsEduReady edu.now dests.now r) }
    {
        let offered = Offered::Edu(edu.copy()?);
        Ok(ReadyEdu {
            loads: loads(alloc, &offered, dests)?,
            same_edu: edu.copy()?,
            same_dests: dests.copy(alloc)?,
        })
    }
}

// A load with an equal one of what is offered, for each of some servers.
fn loads(alloc: Global, offered: &Offered, dests: &ServerSet) -> Result<Vec<Unplaced>, NoMemory>
    ensures dests { IfOk result (λ loads. dests_of loads.items ≡ dests.now) }
    ensures same { IfOk result (λ loads. AreAll (load_of offered.now) loads.items) }
    ensures rising { OnOk result (IsStrictlyIncreasing dests.now) }
{
    let mut loads = Vec::with_capacity(alloc, dests.len())?;
    for dest in dests.as_slice() {
        let load = offered.load(alloc)?;
        loads.push(Unplaced { dest: *dest, load })?;
    }
    Ok(loads)
}
