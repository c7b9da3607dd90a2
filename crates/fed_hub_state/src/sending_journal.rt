// The journal, and the ends that send of its wires.
ghost use Rattle.std.specs.Prelude.{◌≡◌, ◌<◌, ◌≤◌, ◌+◌, ◌++◌, ◌∷◌, [], length, not, true, false, All, Ok, Err, Some, IfOk, IfErr, OnOk, OnErr};
ghost use Rattle.std.specs.List.{filter};
ghost use Rattle.fed_journal.specs.Journal.{is_closed, next_place, placed, events_of, edus_of};
ghost use Rattle.fed_journal.specs.Offered.{load_of};
ghost use Rattle.fed_journal.specs.Offering.{has_place};
ghost use mathlib.Core.List.{IsPrefix};
ghost use Rattle.fed_hub_state.specs.CloseFault.{CloseFullIsOf};
ghost use Rattle.fed_hub_state.specs.Closing.{ClosesOpen};
ghost use Rattle.fed_hub_state.specs.EnterFault.{FullIsOf};
ghost use Rattle.fed_hub_state.specs.NoRoom.{HasNoRoom};
ghost use Rattle.fed_hub_state.specs.Spreading.{AreAll, dests_of};

use crate::client_token::ClientToken;
use crate::full_wire::FullWire;
use crate::in_place::InPlace;
use crate::naming::{EduLedger, EventLedger, Naming};
use crate::shutting_down::{close_others, full_other, make_places, others_open};
use crate::spreading::{full_among, full_at, goes, pass_all_on};
use crate::unplaced::Unplaced;
use fed_dest::{MAX_SERVERS, ServerIndex, ServerSet};
use fed_journal::{Cause, Entry, Journal, JournalFault, Load, Offered, Parcel, Place};
use fed_json::NoMemory;
use fed_wires::{Credit, ReceiveEnd, SendEnd};
use std::alloc::Global;
use std::marker::Model;
use std::sync::Wait;
use std::sync::ledger::{Blank, Book};
use thiserror::Error;

/// Why what is offered is not entered.
#[derive(Debug, Drop, Error)]
pub enum EnterFault {
    /// Memory ran out.
    #[error("out of memory")]
    Memory,
    /// The journal is shut down.
    #[error("shut down")]
    ShutDown,
    /// There would be more than `MAX_ENTRIES` entries.
    #[error("too many entries")]
    Limit,
    /// The wire to a destination had no room.
    #[error("a full wire")]
    Full(FullWire),
}

impl From<JournalFault> for EnterFault {
    ghost use Rattle.std.specs.Prelude.{◌≡◌};
    ghost use Rattle.fed_hub_state.specs.EnterFault.{enter_fault_of};

    ghost from_gives = { λ fault told. told ≡ enter_fault_of fault };

    fn from(fault: JournalFault) -> EnterFault {
        match fault {
            JournalFault::Memory => EnterFault::Memory,
            JournalFault::Limit => EnterFault::Limit,
        }
    }
}

/// Why outboxes are not closed.
#[derive(Debug, Drop, Error)]
pub enum CloseFault {
    /// Memory ran out.
    #[error("out of memory")]
    Memory,
    /// There would be more than `MAX_ENTRIES` entries.
    #[error("too many entries")]
    Limit,
    /// The wire to a destination had no room.
    #[error("a full wire")]
    Full(FullWire),
}

impl From<JournalFault> for CloseFault {
    ghost use Rattle.std.specs.Prelude.{◌≡◌};
    ghost use Rattle.fed_hub_state.specs.CloseFault.{close_fault_of};

    ghost from_gives = { λ fault told. told ≡ close_fault_of fault };

    fn from(fault: JournalFault) -> CloseFault {
        match fault {
            JournalFault::Memory => CloseFault::Memory,
            JournalFault::Limit => CloseFault::Limit,
        }
    }
}

/// The journal of a server, with the ends that send of its wires and the books of what clients were told of. Over each wire went just the
/// parcels that the journal places for its destination; an outbox is closed as lost only where a parcel came back; the books have as many
/// events and EDUs as the journal; and where it is shut down, the outboxes for all other servers are closed.
///
/// Contracts see it as the list of its entries, and whether it is shut down.
#[derive(Drop)]
pub struct SendingJournal<N: Naming> {
    journal: Journal,
    ends: Vec<SendEnd<Parcel, InPlace>>,
    events: Book<EventLedger<N>>,
    edus: Book<EduLedger<N>>,
    is_shut: bool,
}

impl<N: Naming> Model for SendingJournal<N> {
    ghost use Rattle.std.specs.Prelude.{◌≡◌, ◌≤◌, true, length};
    ghost use Rattle.fed_journal.specs.Journal.{events_of, edus_of};
    ghost use Rattle.fed_hub_state.specs.SendingJournal.{SendingState, sending_code, AreClosed};
    ghost use Rattle.fed_hub_state.specs.Spreading.{AreSent};

    ghost Value = { SendingState };

    ghost coded = { sending_code };

    ghost view = { λ j. record { entries = j.journal.entries; is_shut = j.is_shut } };

    ghost invariant = { λ j. AreSent N.wires j.journal.entries j.ends.items
        × (j.events.total ≡ length (events_of j.journal.entries))
        × (j.edus.total ≡ length (edus_of j.journal.entries))
        × (j.is_shut ≡ true → AreClosed (length N.wires) N.own j.journal.entries)
        × (length N.wires ≤ 64) };
}

impl<N: Naming> SendingJournal<N> {
    ghost use Rattle.fed_hub_state.specs.Entering.{Enters};
    ghost use Rattle.fed_hub_state.specs.Spreading.{wires_of, AreUnused};

    /// A journal with no entry, with these ends of its wires, one for each listed server, and the token of a client that was told of nothing
    /// and has all parts of the ledgers. Who waits for room in the wires has [`Credits`] of the ends, made before.
    ///
    /// [`Credits`]: fed_wires::Credits
    ///
    /// # Errors
    ///
    /// `NoMemory`.
    pub fn new(
        alloc: Global,
        ends: Vec<SendEnd<Parcel, InPlace>>,
        events: Blank,
        edus: Blank,
    ) -> Result<(SendingJournal<N>, ClientToken<N>), NoMemory>
        requires wires { wires_of ends.items ≡ N.wires }
        requires unused { AreUnused ends.items }
        requires few { length N.wires ≤ MAX_SERVERS }
        requires events { (events.name ≡ N.events) × (events.parts ≡ N.parts) }
        requires edus { (edus.name ≡ N.edus) × (edus.parts ≡ N.parts) }
        ensures journal { IfOk result (λ r. r.0 ≡ record { entries = []; is_shut = false }) }
        ensures client { IfOk result (λ r. r.1 ≡ record { parts = N.parts; events = 0; edus = 0 }) }
    {
        let journal = Journal::new(alloc)?;
        let (events, told_events) = events.open::<EventLedger<N>>();
        let (edus, told_edus) = edus.open::<EduLedger<N>>();
        let client = ClientToken::new(told_events, told_edus);
        Ok((
            SendingJournal {
                journal,
                ends,
                events,
                edus,
                is_shut: false,
            },
            client,
        ))
    }

    /// The entries, in order.
    pub fn entries(&self) -> &[Entry]
        ensures { result.now ≡ self.now.entries }
    {
        self.journal.entries()
    }

    /// Whether it is shut down.
    pub fn is_shut(&self) -> bool
        ensures { result ≡ self.now.is_shut }
    {
        self.is_shut
    }

    /// Takes in a credit that was waited for, of the wire to the destination at its place.
    pub fn give(&mut self, credit: Credit)
        requires { credit < length N.wires }
        ensures { self.new ≡ self.old }
    {
        self.ends[credit.place()].give(credit);
    }

    /// Compares the books with what all clients together were told: the journal has as many events, and as many EDUs.
    pub fn all_told(&mut self, all: &mut ClientToken<N>)
        requires { all.old.parts ≡ N.parts }
        ensures same { (self.new ≡ self.old) × (all.new ≡ all.old) }
        ensures events { length (events_of self.old.entries) ≡ all.old.events }
        ensures edus { length (edus_of self.old.entries) ≡ all.old.edus }
    {
        all.audit(&mut self.events, &mut self.edus);
    }

    /// Enters what is offered, with its destinations, and sends its loads, one for each of them, over the wires to those whose outboxes are
    /// open. The client is told its number, among the events or among the EDUs. Behind the room that it makes it takes no memory.
    ///
    /// # Errors
    ///
    /// In this order; all is then as it was.
    ///
    /// - `ShutDown`, exactly where the journal is shut down
    /// - `Limit`, exactly where it has no place for the entry and for closing each outbox that the entry reaches
    /// - `Memory`, where memory runs out
    /// - `Full`, where the wire to a destination whose outbox is open was found to have no room for a parcel
    pub fn enter<R: Wait>(
        &mut self,
        rt: &R,
        client: &mut ClientToken<N>,
        offered: Offered,
        dests: ServerSet,
        loads: Vec<Unplaced>,
    ) -> Result<u64, EnterFault>
        requires part { 0 < client.old.parts }
        requires within { All (λ d. d < length N.wires) dests }
        requires dests { dests_of loads.items ≡ dests }
        requires same { AreAll (load_of offered) loads.items }
        ensures entered { Enters offered dests self.old client.old result self.new client.new }
        ensures full { IfErr result (FullIsOf N.wires) }
    {
        if self.is_shut {
            return Err(EnterFault::ShutDown);
        }
        let loads = those_open(&self.journal, loads);
        make_room(&mut self.journal, loads.len())?;
        if let Some(full) = full_among(rt, &mut self.ends, &loads) {
            return Err(EnterFault::Full(full));
        }
        pass_all_on::<N, R>(rt, &mut self.journal, &mut self.ends, &offered, loads);
        client.note(&mut self.events, &mut self.edus, &offered);
        Ok(offered.append_to(&mut self.journal, dests))
    }
}

impl<N: Naming> SendingJournal<N> {
    ghost use Rattle.std.specs.Prelude.{slice_get};
    ghost use Rattle.fed_journal.specs.Journal.{parcels};
    ghost use Rattle.fed_hub_state.specs.Closing.{Closes};
    ghost use Rattle.fed_hub_state.specs.ShuttingDown.{ShutsDown};

    /// Closes the outbox for a destination, and says whether it was open: the end goes over its wire, or comes back and the outbox is lost.
    /// Where it was closed, nothing is done and no memory is taken.
    ///
    /// # Errors
    ///
    /// In this order; all is then as it was.
    ///
    /// - `Limit`, exactly where the outbox is open and the journal has no place for the closing
    /// - `Memory`, where memory runs out
    /// - `Full`, where the wire to the destination was found to have no room for the end
    pub fn close<R: Wait>(&mut self, rt: &R, dest: ServerIndex) -> Result<bool, CloseFault>
        requires { dest < length N.wires }
        ensures closed { Closes dest self.old result self.new }
        ensures full { IfErr result (CloseFullIsOf N.wires) }
    {
        let Some(place) = self.journal.place(dest) else {
            return Ok(false);
        };
        make_room(&mut self.journal, 0)?;
        if let Some(full) = full_at(rt, &mut self.ends, dest) {
            return Err(CloseFault::Full(full));
        }
        let end = &mut self.ends[dest.place()];
        close_open(rt, &mut self.journal, end, place);
        Ok(true)
    }

    /// Shuts the journal down: closes the outboxes for all servers but the own one that are open, in the order of their places, each as
    /// `close`, and refuses all that is offered from then on. Where it is shut down, nothing is done and no memory is taken.
    ///
    /// # Errors
    ///
    /// In this order; all is then as it was.
    ///
    /// - `Limit`, exactly where it is not shut down and has no place for the closings
    /// - `Memory`, where memory runs out
    /// - `Full`, where the wire to one of these servers was found to have no room for the end
    pub fn shut_down<R: Wait>(&mut self, rt: &R, own: ServerIndex) -> Result<(), CloseFault>
        requires { own ≡ N.own }
        ensures shut { ShutsDown (length N.wires) N.own self.old result self.new }
        ensures full { IfErr result (CloseFullIsOf N.wires) }
    {
        if self.is_shut {
            return Ok(());
        }
        let open = others_open(&self.journal, own, self.ends.len());
        make_places(&mut self.journal, open)?;
        if let Some(full) = full_other(rt, &self.journal, &mut self.ends, own) {
            return Err(CloseFault::Full(full));
        }
        close_others::<N, R>(rt, &mut self.journal, &mut self.ends, own);
        self.is_shut = true;
        Ok(())
    }

    /// Compares what the journal places for a destination with what the other end of its wire received: that is a front of it.
    pub fn compare(&mut self, dest: ServerIndex, end: &mut ReceiveEnd<Parcel, InPlace>)
        requires wire { slice_get N.wires dest ≡ Some end.old.wire }
        ensures same { (self.new ≡ self.old) × (end.new ≡ end.old) }
        ensures front { IsPrefix end.old.received (parcels self.old.entries dest) }
    {
        self.ends[dest.place()].compare(end);
    }
}

/// Closes the outbox of an end's destination, whose next parcel has this place: the end is sent over the wire.
pub(crate) fn close_open<R: Wait>(
    rt: &R,
    journal: &mut Journal,
    end: &mut SendEnd<Parcel, InPlace>,
    place: Place,
)
    requires reserved { 0 < journal.old.reserved }
    requires place { next_place journal.old.entries place.dest ≡ Some place }
    requires sent { length end.old.sent ≡ placed journal.old.entries place.dest }
    requires credit { 0 < end.old.room }
    ensures { ClosesOpen place journal.old end.old journal.new end.new }
{
    let dest = place.dest();
    let load = Load::End;
    if goes(rt, end, Parcel { place, load }) {
        journal.close(dest, Cause::Asked);
    } else {
        journal.close(dest, Cause::Lost);
    }
}

// The loads for those destinations whose outboxes are open.
fn those_open(journal: &Journal, loads: Vec<Unplaced>) -> Vec<Unplaced>
    ensures { result.items ≡ filter (λ u. not (is_closed journal.now.entries u.dest)) loads.items }
{
    let mut loads = loads;
    loads.retain(|unplaced| journal.place(unplaced.dest).is_some());
    loads
}

// Makes room for an entry, and for so many closings before it.
fn make_room(journal: &mut Journal, closings: usize) -> Result<(), JournalFault>
    ensures room { OnOk result (closings < journal.new.reserved) }
    ensures fits { OnOk result (has_place journal.old.entries closings ≡ true) }
    ensures entries { journal.new.entries ≡ journal.old.entries }
    ensures refused { IfErr result (HasNoRoom journal.old.entries closings) }
{
    journal.reserve((closings as u64).saturating_add(1))
}
