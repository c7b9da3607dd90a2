// Verdicts and states that are given beforehand.
ghost use Rattle.std.specs.Prelude.{◌≡◌, IfOk, OnOk, OnErr};
ghost use Rattle.std.specs.FinMap as finite;
ghost use Rattle.fed_room.specs.Table.{with_row, verdict_at, before_at, current_at, is_named, keeping};

use crate::entries::state_of;
use crate::ids::has;
use fed_event::Pdu;
use fed_json::NoMemory;
use fed_room_contract::{Graph, State, Verdict};
use std::alloc::Global;
use std::collections::BTreeMap;
use std::marker::Model;

/// What a table says of an event: the verdict on it, and the state before it.
#[derive(Drop)]
pub struct Row {
    pub verdict: Verdict,
    pub before: State,
}

/// A verdict and a state for each event id that has a row, and the current state. An event without a row is accepted, and nothing
/// holds before it. Since a room's states name stored events alone, of the state before an event the entries count that name events
/// which the event names itself, and of the current state those that name stored ones.
///
/// Contracts see it as the finite map of its rows, and the current state.
#[derive(Drop)]
pub struct Table {
    rows: BTreeMap<String, Row>,
    current: State,
}

impl Model for Table {
    ghost use Rattle.std.specs.BTreeMap.{IsOrdered};
    ghost use Rattle.std.specs.String.{string_cmp};
    ghost use Rattle.fed_json.specs.TextMap.{text_map};
    ghost use Rattle.fed_room.specs.Table.{TableState, table_code};

    ghost Value = { TableState };

    ghost coded = { table_code };

    ghost view = { λ t. record { rows = text_map (λ row. row) t.rows.entries; current = t.current } };

    ghost invariant = { λ t. IsOrdered string_cmp t.rows };
}

impl Table {
    /// A table without rows, and the current state.
    pub fn new(alloc: Global, current: State) -> Table
        ensures { result ≡ record { rows = finite.empty; current = current } }
    {
        Table {
            rows: BTreeMap::new(alloc),
            current,
        }
    }

    /// Sets the row of an event id: the verdict, and the state before the event. An error leaves the table as it was.
    pub fn insert(
        &mut self,
        alloc: Global,
        id: &str,
        verdict: Verdict,
        before: State,
    ) -> Result<(), NoMemory>
        ensures ok { OnOk result (self.new ≡ with_row self.old id.now (record { verdict = verdict; before = before })) }
        ensures err { OnErr result (self.new ≡ self.old) }
    {
        let id = String::from_str(alloc, id)?;
        drop(self.rows.insert(id, Row { verdict, before })?);
        Ok(())
    }

    /// The verdict on the event of this id.
    pub fn verdict(&self, id: &str) -> Verdict
        ensures { result ≡ verdict_at self.now id.now }
    {
        match self.rows.get(id) {
            Some(row) => row.verdict,
            None => Verdict::Accepted,
        }
    }

    /// The state before an event: what its row has of it, as far as it names events that the event names.
    pub fn state_before(&self, alloc: Global, event: &Pdu) -> Result<State, NoMemory>
        ensures { IfOk result (λ state. state ≡ before_at self.now event.now) }
    {
        match self.rows.get(event.id().as_str()) {
            Some(row) => named(alloc, &row.before, event),
            None => Ok(State::new(alloc)),
        }
    }

    /// The current state, as far as it names events that are stored.
    pub fn current(&self, alloc: Global, graph: &Graph) -> Result<State, NoMemory>
        ensures { IfOk result (λ state. state ≡ current_at self.now graph.now.stored) }
    {
        let mut entries = self.current.entries(alloc)?;
        entries.retain(|entry| graph.contains(entry.id.as_str()));
        state_of(alloc, entries)
    }
}

// What a state has of events that an event names.
fn named(alloc: Global, state: &State, event: &Pdu) -> Result<State, NoMemory>
    ensures { IfOk result (λ kept. kept ≡ keeping (is_named event.now) state.now) }
{
    let mut entries = state.entries(alloc)?;
    entries.retain(|entry| names(event, entry.id.as_str()));
    state_of(alloc, entries)
}

// Whether an event names the event of this id.
fn names(event: &Pdu, id: &str) -> bool
    ensures { result ≡ is_named event.now id.now }
{
    has(event.prev_events(), id) || has(event.auth_events(), id)
}
