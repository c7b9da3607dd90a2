// Calls on rooms that go by a table.

use crate::room_steps::answers;
use fed_event::event_id;
use fed_json::{Items, JsonRef};
use fed_room::{Table, TableRoom};
use fed_room_contract::State;
use fed_vectors_call::{Answer, Arguments, Stop};
use fed_vectors_events::{KeyRing, room_version};
use fed_vectors_graphs::verdict_in;
use std::alloc::Global;

/// What becomes of a room with each operation.
pub fn table_room(call: Arguments<'_>) -> Answer {
    let keys = KeyRing::of(call, call.text("own")?)?;
    let mut room = TableRoom::new(call.alloc, table(call)?);
    answers(call, &keys, &mut room)
}

fn table(call: Arguments<'_>) -> Result<Table, Stop> {
    let mut table = Table::new(call.alloc, state(call, "current")?);
    for item in call.items("rows")? {
        enter(Arguments::of(call.alloc, item, "rows")?, &mut table)?;
    }
    Ok(table)
}

// Enters a row.
fn enter(row: Arguments<'_>, table: &mut Table) -> Result<(), Stop> {
    let Some(verdict) = verdict_in(row.text("verdict")?) else {
        return Err(row.wrong_kind("verdict"));
    };
    table.insert(row.alloc, row.text("id")?, verdict, state(row, "before")?)?;
    Ok(())
}

// A copy of the state of a list of entries `[type, state key, value]`, at each of which the id of the value stands.
fn state(call: Arguments<'_>, name: &str) -> Result<State, Stop> {
    let mut state = State::new(call.alloc);
    for item in call.items(name)? {
        let Some((kind, state_key, value)) = item.items().and_then(entry_in) else {
            return Err(call.wrong_kind(name));
        };
        let id = event_id(call.alloc, room_version(call)?, &value.to_json()?)?;
        state.insert(call.alloc, kind, state_key, id)?;
    }
    Ok(state.copy(call.alloc)?)
}

// The type, the state key and the value of an entry.
fn entry_in<'a>(mut parts: Items<'a>) -> Option<(&'a str, &'a str, JsonRef<'a>)> {
    if parts.len() != 3 {
        return None;
    }
    Some((parts.next()?.text()?, parts.next()?.text()?, parts.next()?))
}
