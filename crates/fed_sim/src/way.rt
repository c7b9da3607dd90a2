// The way of parcels from the journal of a server to one destination.
ghost use Rattle.std.specs.Prelude.{◌≡◌, ◌≤◌, ◌<◌, ◌+◌, None, OnOk, OnErr, IfOk, IsErr, length};
ghost use Rattle.fed_outbox.specs.declared.fault.OutboxFault.TheVariants.{Memory};
ghost use Rattle.fed_outbox.specs.Outbox.{cut};
ghost use Rattle.fed_outbox.specs.Collecting.{collected};
ghost use Rattle.fed_outbox.specs.Answering.{failed_once, due_told, answered, answer_told};
ghost use Rattle.fed_sim.specs.Way.{new_way, with_parcel, kind_of, kind_told, cut_told};

use crate::outcome::Collected;
use fed_dest::ServerIndex;
use fed_journal::{Load, Parcel};
use fed_json::NoMemory;
use fed_outbox::{Outbox, OutboxFault, Settlement};
use std::alloc::Global;
use std::collections::VecDeque;
use std::marker::Model;

/// The parcels for a destination that its outbox has not taken in yet, and the outbox.
///
/// Contracts see it as these, and for how many more parcels there is room.
#[derive(Drop)]
pub(crate) struct Way {
    queue: VecDeque<Parcel>,
    outbox: Outbox,
}

impl Model for Way {
    ghost use Rattle.fed_sim.specs.Way.{WayState, way_state_code};

    ghost Value = { WayState };

    ghost coded = { way_state_code };

    ghost use Rattle.fed_sim.specs.WayParts.{way_of};

    ghost view = { way_of };
}

/// A transaction that was made: its number, and how many events and ephemeral data units it has.
#[derive(Clone, Copy)]
pub(crate) struct Cut {
    pub(crate) number: u64,
    pub(crate) pdus: usize,
    pub(crate) edus: usize,
}

impl Way {
    /// The way to a destination for which nothing was placed.
    pub(crate) fn new(alloc: Global, dest: ServerIndex) -> Way
        ensures { result.way ≡ new_way dest }
    {
        Way {
            queue: VecDeque::new(alloc),
            outbox: Outbox::new(alloc, dest),
        }
    }

    /// Makes room for so many more parcels.
    pub(crate) fn make_room(&mut self, more: usize) -> Result<(), NoMemory>
        ensures way { self.new.way ≡ self.old.way }
        ensures room { OnOk result (more ≤ self.new.free) }
        ensures free { self.old.free ≤ self.new.free }
    {
        self.queue.reserve(more)
    }

    /// A parcel waits behind those that do.
    pub(crate) fn push(&mut self, parcel: Parcel)
        requires { 0 < self.old.free }
        ensures way { self.new.way ≡ with_parcel self.old.way parcel }
        ensures free { self.new.free + 1 ≡ self.old.free }
    {
        // There is room for it.
        self.queue.push_back(parcel).unwrap();
    }

    /// How many parcels wait.
    pub(crate) fn queued(&self) -> usize
        ensures { result ≡ length self.now.way.queue }
    {
        self.queue.len()
    }

    /// The outbox.
    pub(crate) fn outbox(&self) -> &Outbox
        ensures { result.now ≡ self.now.way.outbox }
    {
        &self.outbox
    }

    /// The first parcel goes into the outbox: what it held, where one waits. An error leaves all as it was.
    pub(crate) fn collect(&mut self) -> Result<Option<Collected>, NoMemory>
        ensures ok { OnOk result (self.new.way ≡ collected self.old.way) }
        ensures told { IfOk result (λ told. told ≡ kind_told self.old.way) }
        ensures err { OnErr result (self.new.way ≡ self.old.way) }
    {
        let Some(parcel) = self.queue.pop_front() else {
            return Ok(None);
        };
        let kind = kind_of(&parcel.load);
        match self.outbox.accept(parcel) {
            Ok(()) => Ok(Some(kind)),
            Err((parcel, fault)) => {
                // Its place is free.
                self.queue.push_front(parcel).unwrap();
                refused(fault)
            }
        }
    }

    /// Makes the next transaction, where none is unanswered and something waits.
    pub(crate) fn cut(&mut self, now: u64) -> Option<Cut>
        requires { now ≤ 9007199254740991 }
        ensures outbox { self.new.way.outbox ≡ cut self.old.way.outbox now }
        ensures queue { self.new.way.queue ≡ self.old.way.queue }
        ensures told { result ≡ cut_told self.old.way.outbox now }
    {
        let transaction = self.outbox.cut(now)?;
        Some(Cut {
            number: transaction.number,
            pdus: transaction.pdus.len(),
            edus: transaction.edus.len(),
        })
    }

    /// The sending of the unanswered transaction has failed: when it is due again.
    pub(crate) fn failed(&mut self, now: u64) -> Option<u64>
        requires { now ≤ 9007199254740991 }
        ensures outbox { self.new.way.outbox ≡ failed_once self.old.way.outbox now }
        ensures queue { self.new.way.queue ≡ self.old.way.queue }
        ensures told { result ≡ due_told self.old.way.outbox now }
    {
        self.outbox.failed_once(now)
    }

    /// A transaction was answered with this status, or with what is no answer.
    pub(crate) fn settle(&mut self, number: u64, status: Option<u16>, now: u64) -> Settlement
        requires { now ≤ 9007199254740991 }
        ensures outbox { self.new.way.outbox ≡ answered self.old.way.outbox number status now }
        ensures queue { self.new.way.queue ≡ self.old.way.queue }
        ensures told { result ≡ answer_told self.old.way.outbox number status }
    {
        self.outbox.answered(number, status, now)
    }
}

// What a load holds.
fn kind_of(load: &Load) -> Collected
    ensures { result ≡ kind_of load.now }
{
    match load {
        Load::Event(_) => Collected::Event,
        Load::Edu(_) => Collected::Edu,
        Load::End => Collected::End,
    }
}

// What an outbox that does not accept the next parcel comes to.
fn refused(fault: OutboxFault) -> Result<Option<Collected>, NoMemory>
    ensures memory { fault ≡ Memory → IsErr result }
    ensures others { IfOk result (λ told. told ≡ None) }
    ensures only { IsErr result → fault ≡ Memory }
{
    match fault {
        OutboxFault::Memory => Err(NoMemory),
        OutboxFault::WrongPlace(_) | OutboxFault::Ended => Ok(None),
    }
}
