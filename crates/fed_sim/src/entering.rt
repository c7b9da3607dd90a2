// An entry gets into the journal of a server, and the parcels that it places on their ways.
ghost use Rattle.std.specs.Prelude.{◌≡◌, ◌<◌, OnOk, OnErr, IfOk, true, length};
ghost use Rattle.std.specs.List.{filter_map};
ghost use Rattle.std.specs.List.Sorted.{IsStrictlyIncreasing};
ghost use Rattle.fed_sim.specs.Way.{ways_of};
ghost use Rattle.fed_journal.specs.Offered.{load_of};
ghost use Rattle.fed_journal.specs.Offering.{open_among, has_place};
ghost use Rattle.fed_journal.specs.Queues.{parcel_to};
ghost use Rattle.fed_sim.specs.Sending.{HasRoom, HasRoomFor, AreAmong, AreFor, pushed_from, entered_told, entries_after, ways_after};

use crate::way::Way;
use fed_dest::ServerSet;
use fed_journal::{Journal, JournalFault, Offered, Parcel};
use fed_json::NoMemory;
use std::alloc::Global;

/// What was entered: its number, among the events or among the EDUs of the journal, and the destinations whose outboxes it reaches.
#[derive(Drop)]
pub(crate) struct Entered {
    pub(crate) number: u64,
    pub(crate) dests: ServerSet,
}

/// Enters what is offered in the journal, with its destinations, and puts a parcel on the way to each of those whose outbox is open. `None`
/// where the journal has no place for it; then, and where memory runs out, nothing has changed. There is a way to each destination.
pub(crate) fn enter(
    alloc: Global,
    journal: &mut Journal,
    ways: &mut [Way],
    offered: Offered,
    dests: ServerSet,
) -> Result<Option<Entered>, NoMemory>
    requires { AreAmong (length ways.old) dests }
    ensures told { IfOk result (λ told. told ≡ entered_told offered dests journal.old.entries) }
    ensures rising { OnOk result (IsStrictlyIncreasing dests) }
    ensures entries { OnOk result (journal.new.entries ≡ entries_after offered dests journal.old.entries) }
    ensures ways { OnOk result (ways_of ways.new ≡ ways_after offered dests journal.old.entries (ways_of ways.old)) }
    ensures err { OnErr result (journal.new.entries ≡ journal.old.entries) }
    ensures err_ways { OnErr result (ways_of ways.new ≡ ways_of ways.old) }
    ensures count { length ways.new ≡ length ways.old }
{
    let reached = open_among(alloc, journal, &dests)?;
    let parcels = parcels_to(alloc, journal, &dests, &offered)?;
    if !reserve(journal, ways, parcels.len())? {
        return Ok(None);
    }
    let number = offered.append_to(journal, dests);
    push_all(ways, parcels);
    Ok(Some(Entered {
        number,
        dests: reached,
    }))
}

// Those of the servers whose outboxes are open.
fn open_among(alloc: Global, journal: &Journal, dests: &ServerSet) -> Result<ServerSet, NoMemory>
    ensures { IfOk result (λ others. others ≡ open_among journal.now.entries dests.now) }
{
    let mut open = dests.copy(alloc)?.into_vec();
    open.retain(|dest| journal.place(*dest).is_some());
    Ok(ServerSet::of(open))
}

// A parcel with what is offered for each of the servers whose outbox is open.
fn parcels_to(
    alloc: Global,
    journal: &Journal,
    dests: &ServerSet,
    offered: &Offered,
) -> Result<Vec<Parcel>, NoMemory>
    ensures parcels { IfOk result (λ parcels. parcels.items ≡ filter_map (parcel_to journal.now.entries (load_of offered.now)) dests.now) }
    ensures rising { OnOk result (IsStrictlyIncreasing dests.now) }
{
    let mut parcels = Vec::with_capacity(alloc, dests.len())?;
    for dest in dests.as_slice() {
        if let Some(place) = journal.place(*dest) {
            let load = offered.load(alloc)?;
            parcels.push(Parcel { place, load })?;
        }
    }
    Ok(parcels)
}

// Makes room in the journal for an entry and for as many closings as it places parcels, and on each way for the one that it may place
// there. False where the journal has no place for them.
fn reserve(journal: &mut Journal, ways: &mut [Way], parcels: usize) -> Result<bool, NoMemory>
    ensures told { IfOk result (λ fits. fits ≡ has_place journal.old.entries parcels) }
    ensures reserved { IfOk result (λ fits. fits ≡ true → 0 < journal.new.reserved) }
    ensures room { IfOk result (λ fits. fits ≡ true → HasRoom 1 ways.new) }
    ensures entries { journal.new.entries ≡ journal.old.entries }
    ensures ways { ways_of ways.new ≡ ways_of ways.old }
    ensures count { length ways.new ≡ length ways.old }
{
    match journal.reserve((parcels as u64).saturating_add(1)) {
        Ok(()) => {}
        Err(JournalFault::Memory) => return Err(NoMemory),
        Err(JournalFault::Limit) => return Ok(false),
    }
    make_room(ways)?;
    Ok(true)
}

// Makes room for one more parcel on each way.
fn make_room(ways: &mut [Way]) -> Result<(), NoMemory>
    ensures ok { OnOk result (HasRoom 1 ways.new) }
    ensures ways { ways_of ways.new ≡ ways_of ways.old }
    ensures count { length ways.new ≡ length ways.old }
{
    for way in ways.iter_mut() {
        way.make_room(1)?;
    }
    Ok(())
}

// Each parcel waits on the way to its destination.
fn push_all(ways: &mut [Way], parcels: Vec<Parcel>)
    requires room { HasRoomFor parcels.items ways.old }
    requires dests { AreFor (length ways.old) parcels.items }
    ensures ways { ways_of ways.new ≡ pushed_from 0 parcels.items (ways_of ways.old) }
    ensures count { length ways.new ≡ length ways.old }
{
    for parcel in parcels {
        let place = parcel.place.dest().place();
        ways[place].push(parcel);
    }
}
