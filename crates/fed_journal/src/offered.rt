// What a server offers.
ghost use Rattle.std.specs.Prelude.{◌≡◌, ◌<◌, IfOk};
ghost use Rattle.fed_journal.specs.Journal.{with_entry};
ghost use Rattle.fed_journal.specs.Offered.{entry_of, load_of, number_of};

use crate::journal::Journal;
use crate::parcel::Load;
use fed_dest::ServerSet;
use fed_event::Checked;
use fed_json::{Json, NoMemory};
use std::alloc::Global;

/// An event or an ephemeral data unit that a server offers.
#[derive(Drop)]
pub enum Offered {
    Event(Checked),
    Edu(Json),
}

impl Offered {
    /// What a parcel with an equal one holds.
    pub fn load(&self, alloc: Global) -> Result<Load, NoMemory>
        ensures { IfOk result (λ load. load ≡ load_of self.now) }
    {
        match self {
            Offered::Event(event) => Ok(Load::Event(event.copy(alloc)?)),
            Offered::Edu(edu) => Ok(Load::Edu(edu.copy()?)),
        }
    }

    /// Enters it in a journal that has room for it, with its destinations: its number among the events, or among the EDUs, from 1. It takes
    /// no memory.
    pub fn append_to(self, journal: &mut Journal, dests: ServerSet) -> u64
        requires { 0 < journal.old.reserved }
        ensures entry { journal.new ≡ with_entry journal.old (entry_of self dests) }
        ensures number { result ≡ number_of self journal.new.entries }
    {
        match self {
            Offered::Event(event) => journal.append(event, dests),
            Offered::Edu(edu) => journal.append_edu(edu, dests),
        }
    }
}
