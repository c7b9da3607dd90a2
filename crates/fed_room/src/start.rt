// A room that begins with some events.
ghost use Rattle.std.specs.Prelude.{◌≡◌, ◌≢◌, true, false, None, Some, Err, IfOk, IfErr, OnOk, OnErr, option_map};
ghost use Rattle.fed_room.specs.declared.start_fault.StartFault.TheVariants.{Memory, Empty, NotCreate, Version, NotAccepted};
ghost use Rattle.std.specs.List.{list_all};
ghost use Rattle.fed_room_contract.specs.Room.{empty_room, receipt_of, after_receipt};
ghost use Rattle.fed_room.specs.Room.{room_of, room_rules};
ghost use Rattle.fed_room.specs.Start.{is_create_event, version_in, is_of_version, are_of_one_version, first_fault_of, is_taken, after_all, start_fault_of};

use crate::room::Room;
use crate::start_fault::StartFault;
use fed_event::{Checked, Pdu};
use fed_room_contract::Receipt;
use std::alloc::Global;

impl Room {
    /// A room that is kept at the server of this name and has received these events, one after another: it stores and accepts them all.
    ///
    /// # Errors
    ///
    /// The first of these: `Empty` where there are no events; `NotCreate` where the first is no `m.room.create` event; `Version` where
    /// its content has no `room_version`, or where some event is of another version than that; `NotAccepted` for the first event that is not stored as accepted.
    /// `Memory` where memory ran out, in place of a room or of the last.
    pub fn start(alloc: Global, own: &str, events: Vec<Checked>) -> Result<Room, StartFault>
        ensures room { IfOk result (λ room. room_of room ≡ after_all room_rules empty_room events.items) }
        ensures own { IfOk result (λ room. room.own ≡ own.now) }
        ensures passes { OnOk result (start_fault_of room_rules events.items ≡ None) }
        ensures fails { IfErr result (λ fault. fault ≢ Memory → start_fault_of room_rules events.items ≡ Some fault) }
        ensures empty { first_fault_of events.items ≡ Some Empty → result ≡ Err Empty }
        ensures no_create { first_fault_of events.items ≡ Some NotCreate → result ≡ Err NotCreate }
        ensures version { first_fault_of events.items ≡ Some Version → result ≡ Err Version }
    {
        if let Some(fault) = first_fault(&events) {
            return Err(fault);
        }
        let mut room = Room::empty(alloc, own)?;
        let mut place = 0;
        for event in events {
            place += 1;
            room.begin(alloc, place, event)?;
        }
        Ok(room)
    }

    // Receives an event that has to be stored as accepted, and is the one at this place of those that the room begins with.
    fn begin(&mut self, alloc: Global, place: usize, event: Checked) -> Result<(), StartFault>
        ensures taken { OnOk result (is_taken (receipt_of room_rules (room_of self.old) event) ≡ true) }
        ensures after { OnOk result (room_of self.new ≡ after_receipt (room_of self.old) event (receipt_of room_rules (room_of self.old) event)) }
        ensures own { self.new.own ≡ self.old.own }
        ensures fails { IfErr result (λ fault. fault ≢ Memory → is_taken (receipt_of room_rules (room_of self.old) event) ≡ false) }
        ensures fault { IfErr result (λ fault. fault ≢ Memory → fault ≡ NotAccepted place (receipt_of room_rules (room_of self.old) event)) }
    {
        match self.take(alloc, event) {
            Ok(receipt) if is_taken(receipt) => Ok(()),
            Ok(receipt) => Err(StartFault::NotAccepted(place, receipt)),
            Err((event, error)) => {
                drop(event);
                Err(StartFault::from(error))
            }
        }
    }
}

// Why no room begins with a first event like that.
fn first_fault(events: &[Checked]) -> Option<StartFault>
    ensures { result ≡ first_fault_of events.now }
{
    let Some(first) = events.first() else {
        return Some(StartFault::Empty);
    };
    if !is_create_event(first.event()) {
        Some(StartFault::NotCreate)
    } else if !are_of_one_version(first.event(), events) {
        Some(StartFault::Version)
    } else {
        None
    }
}

fn is_create_event(event: &Pdu) -> bool
    ensures { result ≡ is_create_event event.now }
{
    event.kind() == "m.room.create"
}

// Whether the create event names a version of which all events are: one that names none makes a room of version 1.
fn are_of_one_version(create: &Pdu, events: &[Checked]) -> bool
    ensures { result ≡ are_of_one_version create.now events.now }
{
    match version(create) {
        Some(name) => are_of_version(name, events),
        None => false,
    }
}

// Whether all events are of the version of this name.
fn are_of_version(name: &str, events: &[Checked]) -> bool
    ensures { result ≡ list_all (is_of_version name.now) events.now }
{
    for event in events {
        if !is_of_version(name, event) {
            return false;
        }
    }
    true
}

// The name of the version that a create event names.
fn version(create: &Pdu) -> Option<&str>
    ensures { option_map (λ s. s.now) result ≡ version_in create.now }
{
    create.content().member("room_version")?.text()
}

fn is_of_version(name: &str, event: &Checked) -> bool
    ensures { result ≡ is_of_version name.now event.now }
{
    event.event().version().name() == name
}

// Whether an event is stored as accepted.
fn is_taken(receipt: Receipt) -> bool
    ensures { result ≡ is_taken receipt }
{
    match receipt {
        Receipt::Stored(verdict) => verdict.is_accepted(),
        Receipt::Known | Receipt::Waiting | Receipt::Dropped => false,
    }
}
