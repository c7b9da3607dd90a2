// The journal of a server.
ghost use Rattle.std.specs.Prelude.{◌≡◌, ◌≢◌, ◌<◌, ◌≤◌, ◌+◌, ◌^◌, [], Err, length, not, if◌then◌else◌, IfOk, IsOk, OnOk, OnErr, IsErrOf};
ghost use Rattle.fed_journal.specs.declared.entry.Entry.TheVariants as entry;
ghost use Rattle.fed_journal.specs.declared.fault.JournalFault.TheVariants.{Memory, Limit};
ghost use Rattle.fed_journal.specs.Journal.{with_room, with_entry, next_place, is_closed, is_lost, addressed, addressed_edus, events_of, edus_of};
ghost use Rattle.fed_journal.specs.Left.{addressed_left, addressed_edus_left, events_left};

use crate::entry::{Cause, Entry};
use crate::fault::JournalFault;
use crate::lane::{Kind, Lane, new_lanes, reach_lanes, reserve_lanes};
use crate::left::{Addressed, AddressedEdus, Events};
use crate::place::{MAX_ENTRIES, Place};
use fed_dest::{ServerIndex, ServerSet};
use fed_event::Checked;
use fed_json::{Json, NoMemory};
use std::alloc::Global;
use std::marker::Model;

/// The journal of a server: the events and the EDUs that it has offered, each with its destinations, and the closings of outboxes, in
/// order. An event or an EDU is addressed to its destinations whose outbox was open when it came.
///
/// Contracts see it as the list of the entries, and for how many more there is room.
#[derive(Drop)]
pub struct Journal {
    entries: Vec<Entry>,
    lanes: Vec<Lane>,
    events: u64,
    edus: u64,
    reserved: u64,
}

impl Model for Journal {
    ghost use Rattle.fed_journal.specs.Journal.{JournalState, journal_code};

    ghost Value = { JournalState };

    ghost coded = { journal_code };

    ghost use Rattle.fed_journal.specs.JournalParts.{journal_of, IsJournal};

    ghost view = { journal_of };

    ghost invariant = { IsJournal };
}

impl Journal {
    /// A journal with no entry.
    ///
    /// # Errors
    ///
    /// `NoMemory`.
    pub fn new(alloc: Global) -> Result<Journal, NoMemory>
        ensures { IfOk result (λ journal. journal ≡ record { entries = []; reserved = 0 }) }
    {
        Ok(Journal {
            entries: Vec::new(alloc),
            lanes: new_lanes(alloc)?,
            events: 0,
            edus: 0,
            reserved: 0,
        })
    }

    /// Makes room for so many more entries, so that what adds them takes no memory. Where there is room for as many, nothing is done.
    ///
    /// # Errors
    ///
    /// In this order; the journal is then as it was.
    ///
    /// - `Limit`, exactly where there would be more than `MAX_ENTRIES` entries
    /// - `Memory`, where memory runs out
    pub fn reserve(&mut self, entries: u64) -> Result<(), JournalFault>
        ensures ok { OnOk result (self.new ≡ with_room self.old entries) }
        ensures err { OnErr result (self.new ≡ self.old) }
        ensures limit { MAX_ENTRIES < length self.old.entries + entries → result ≡ Err Limit }
        ensures limit_only { IsErrOf result Limit → MAX_ENTRIES < length self.old.entries + entries }
        ensures reserved { entries ≤ self.old.reserved → IsOk result }
    {
        if MAX_ENTRIES - (self.entries.len() as u64) < entries {
            return Err(JournalFault::Limit);
        }
        if entries <= self.reserved {
            return Ok(());
        }
        self.entries.reserve(entries as usize)?;
        reserve_lanes(&mut self.lanes, entries as usize)?;
        self.reserved = entries;
        Ok(())
    }

    /// Where the next parcel for a destination stands; none comes once its outbox is closed.
    pub fn place(&self, dest: ServerIndex) -> Option<Place>
        ensures { result ≡ next_place self.now.entries dest }
    {
        self.lanes[dest.place()].next(dest)
    }

    /// Whether the outbox of a destination was closed because what takes its parcels is gone. It goes through the entries.
    pub fn is_lost(&self, dest: ServerIndex) -> bool
        ensures { result ≡ is_lost self.now.entries dest }
    {
        self.entries.iter().any(|entry| entry.loses(dest))
    }

    /// Appends an event for these destinations, which room was made for, and gives its number among the events of the journal, from 1. It
    /// takes no memory.
    pub fn append(&mut self, event: Checked, dests: ServerSet) -> u64
        requires reserved { 0 < self.old.reserved }
        ensures entry { self.new ≡ with_entry self.old (entry.Event event dests) }
        ensures number { result ≡ length (events_of self.new.entries) }
    {
        let place = self.entries.len();
        reach_lanes(&mut self.lanes, dests.as_slice(), Kind::Event, place);
        // There is room for it.
        self.entries.push(Entry::Event(event, dests)).unwrap();
        self.reserved -= 1;
        self.events += 1;
        self.events
    }

    /// Appends an EDU for these destinations, which room was made for, and gives its number among the EDUs of the journal, from 1. It
    /// takes no memory.
    pub fn append_edu(&mut self, edu: Json, dests: ServerSet) -> u64
        requires reserved { 0 < self.old.reserved }
        ensures entry { self.new ≡ with_entry self.old (entry.Edu edu dests) }
        ensures number { result ≡ length (edus_of self.new.entries) }
    {
        let place = self.entries.len();
        reach_lanes(&mut self.lanes, dests.as_slice(), Kind::Edu, place);
        // There is room for it.
        self.entries.push(Entry::Edu(edu, dests)).unwrap();
        self.reserved -= 1;
        self.edus += 1;
        self.edus
    }

    /// Closes the outbox of a destination, for which room was made, and says whether it was open. Where it was closed, nothing is done. It
    /// takes no memory.
    pub fn close(&mut self, dest: ServerIndex, cause: Cause) -> bool
        requires reserved { 0 < self.old.reserved }
        ensures closed { result ≡ not (is_closed self.old.entries dest) }
        ensures entry { self.new ≡ (if is_closed self.old.entries dest then self.old else with_entry self.old (entry.Close dest cause)) }
    {
        let place = dest.place();
        if self.lanes[place].is_closed() {
            return false;
        }
        self.lanes[place].close(cause);
        // There is room for it.
        self.entries.push(Entry::Close(dest, cause)).unwrap();
        self.reserved -= 1;
        true
    }

    /// The events addressed to a destination, in order. It takes no memory.
    pub fn addressed(&self, dest: ServerIndex) -> Addressed<'_>
        ensures { addressed_left result ≡ addressed self.now.entries dest }
    {
        Addressed::at(&self.entries, self.lanes[dest.place()].events())
    }

    /// The EDUs addressed to a destination, in order. It takes no memory.
    pub fn addressed_edus(&self, dest: ServerIndex) -> AddressedEdus<'_>
        ensures { addressed_edus_left result ≡ addressed_edus self.now.entries dest }
    {
        AddressedEdus::at(&self.entries, self.lanes[dest.place()].edus())
    }

    /// All events, in order. It takes no memory.
    pub fn events(&self) -> Events<'_>
        ensures { events_left result ≡ events_of self.now.entries }
    {
        Events::of(&self.entries)
    }

    /// The entries, in order.
    pub fn entries(&self) -> &[Entry]
        ensures { result.now ≡ self.now.entries }
    {
        self.entries.as_slice()
    }
}
