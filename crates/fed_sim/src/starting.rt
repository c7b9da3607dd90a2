// The rooms of a world as they begin.
ghost use Rattle.std.specs.Prelude.{◌≡◌, ℕ, Some, IfOk, IfErr, length, slice_get};
ghost use Rattle.fed_sim.specs.declared.setup.SimFault.TheVariants.{BadSetup};
ghost use Rattle.fed_sim.specs.Running.{HasNoStart};
ghost use Rattle.fed_sim.specs.Starts.{AreStarts, AreBegun, IsNotAccepted};

use crate::hosted::Hosted;
use crate::setup::{RoomSetup, SimFault};
use fed_event::{Checked, StandIn, Version};
use fed_json::NoMemory;
use fed_room::{Room, started};
use std::alloc::Global;

/// The events that a room begins with at each server.
#[derive(Drop)]
pub(crate) struct Start {
    events: Vec<Checked>,
}

/// The events that each of the rooms begins with. They are made once, and all servers share them.
pub(crate) fn starts(
    alloc: Global,
    rooms: &[RoomSetup],
    keys: &[StandIn],
) -> Result<Vec<Start>, SimFault>
    ensures count { IfOk result (λ starts. length starts.items ≡ length rooms.now) }
    ensures each { IfOk result (λ starts. AreStarts keys.now rooms.now starts.items) }
    ensures bad { IfErr result (λ fault. fault ≡ BadSetup → HasNoStart keys.now rooms.now) }
{
    let mut starts = Vec::with_capacity(alloc, rooms.len())?;
    for room in rooms {
        let events = started(alloc, Version::V10, &room.id, &room.users, keys)?;
        starts.push(Start { events })?;
    }
    Ok(starts)
}

/// The rooms that begin so at the server of this name.
pub(crate) fn hosted_rooms(
    alloc: Global,
    own: &str,
    starts: &[Start],
) -> Result<Vec<Hosted>, SimFault>
    ensures count { IfOk result (λ hosted. length hosted.items ≡ length starts.now) }
    ensures each { IfOk result (λ hosted. AreBegun own.now starts.now hosted.items) }
    ensures bad { IfErr result (λ fault. fault ≡ BadSetup → IsNotAccepted starts.now) }
{
    let mut hosted = Vec::with_capacity(alloc, starts.len())?;
    for start in starts {
        let events = copies(alloc, &start.events)?;
        let room = Room::start(alloc, own, events)?;
        hosted.push(Hosted::new(alloc, room))?;
    }
    Ok(hosted)
}

// Equal events, which are shared.
fn copies(alloc: Global, events: &[Checked]) -> Result<Vec<Checked>, NoMemory>
    ensures { IfOk result (λ copies. copies.items ≡ events.now) }
{
    let mut copies = Vec::with_capacity(alloc, events.len())?;
    for event in events {
        copies.push(event.copy(alloc)?)?;
    }
    Ok(copies)
}
