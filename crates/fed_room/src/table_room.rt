// A room that goes by a table.
ghost use Rattle.std.specs.Prelude.{◌≡◌, None};
ghost use Rattle.fed_room_contract.specs.Room.{empty_room};

use crate::drafting::{check, made};
use crate::links::Links;
use crate::table::Table;
use fed_event::{Checked, EventId, Keys};
use fed_json::NoMemory;
use fed_room_contract::{
    Arrival, Draft, EventStore, Graph, Prepared, Receipt, Refusal, RoomEngine, State, Verdict,
};
use std::alloc::Global;
use std::marker::Model;

/// A room that stores events, lets them wait and drops them as every room does, and goes by a table for the rest: for the verdict on an
/// event, the state before it, and the current state. It is for tests of what stands above a room.
///
/// The event that it makes of a draft names no events, and its depth is 1.
#[derive(Drop)]
pub struct TableRoom {
    table: Table,
    store: EventStore,
}

impl Model for TableRoom {
    ghost use Rattle.fed_room.specs.TableRoom.{TableRoomState, table_room_code};

    ghost Value = { TableRoomState };

    ghost coded = { table_room_code };

    ghost view = { λ r. record { table = r.table; store = r.store } };
}

impl TableRoom {
    /// A room in which nothing is stored and nothing waits, with this table.
    pub fn new(alloc: Global, table: Table) -> TableRoom
        ensures { result ≡ record { table = table; store = record { room = empty_room; reserved = None } } }
    {
        TableRoom {
            table,
            store: EventStore::new(alloc),
        }
    }
}

impl RoomEngine for TableRoom {
    ghost use Rattle.fed_room.specs.TableRoom.{room_of, rules_of, IsPrepared};
    ghost use Rattle.fed_room.specs.Lawful.{table_lawful};

    ghost room = { room_of };

    ghost rules = { λ r. rules_of r.table };

    ghost is_prepared = { IsPrepared };

    ghost lawful = { λ r. table_lawful r.table };

    fn receive(&mut self, alloc: Global, event: Checked) -> Result<Receipt, (Checked, NoMemory)> {
        match self.store.admit(event)? {
            Arrival::Ready(event) => {
                if let Err(error) = self.store.reserve(alloc, event.event().id()) {
                    return Err((event, error));
                }
                let verdict = self.table.verdict(event.event().id().as_str());
                self.store.store(event, verdict);
                Ok(Receipt::Stored(verdict))
            }
            Arrival::Told(receipt) => Ok(receipt),
        }
    }

    fn advance(&mut self, alloc: Global) -> Result<Option<(EventId, Receipt)>, NoMemory> {
        let Some(place) = self.store.first_ready() else {
            return Ok(None);
        };
        let id = self.store.waiting()[place].event().id().copy(alloc)?;
        self.store.reserve(alloc, &id)?;
        let verdict = self.table.verdict(id.as_str());
        self.store.store_waiting(place, verdict);
        Ok(Some((id, Receipt::Stored(verdict))))
    }

    fn prepare<K: Keys>(
        &mut self,
        alloc: Global,
        draft: Draft,
        keys: &K,
    ) -> Result<Prepared, Refusal> {
        check(&draft, keys)?;
        let event = made(alloc, draft, Links::none(alloc, self.store.version()), keys)?;
        if let Some(rule) = self.table.verdict(event.event().id().as_str()).rule() {
            return Err(Refusal::NotAllowed(rule));
        }
        let before = self.table.state_before(alloc, event.event())?;
        let prepared = Prepared::new(alloc, event, before)?;
        self.store.reserve(alloc, prepared.event().event().id())?;
        Ok(prepared)
    }

    fn commit(&mut self, prepared: Prepared) -> EventId {
        let (event, id) = prepared.into_event();
        if !self.store.graph().contains(id.as_str()) {
            self.store.store(event, Verdict::Accepted);
        }
        id
    }

    fn state_before(&self, alloc: Global, id: &str) -> Result<Option<State>, NoMemory> {
        match self.store.stored(id) {
            Some(stored) => Ok(Some(self.table.state_before(alloc, stored.event.event())?)),
            None => Ok(None),
        }
    }

    fn current(&self, alloc: Global) -> Result<State, NoMemory> {
        self.table.current(alloc, self.store.graph())
    }

    fn extremities(&self) -> &[EventId] {
        self.store.extremities()
    }

    fn waiting(&self) -> &[Checked] {
        self.store.waiting()
    }

    fn dropped(&self) -> u64 {
        self.store.dropped()
    }

    fn graph(&self) -> &Graph {
        self.store.graph()
    }
}
