// States of some entries.
ghost use Rattle.std.specs.Prelude.{◌≡◌, IfOk, map};
ghost use Rattle.std.specs.FinMap as finite;
ghost use Rattle.fed_room_contract.specs.Entry.{seen};

use fed_json::NoMemory;
use fed_room_contract::{Entry, State};
use std::alloc::Global;

/// The state of these entries. Where two are of one type and state key, it has the one that stands first.
pub(crate) fn state_of(alloc: Global, mut entries: Vec<Entry<'_>>) -> Result<State, NoMemory>
    ensures { IfOk result (λ state. state ≡ finite.from_entries (map seen entries.entry.items)) }
{
    let mut state = State::new(alloc);
    while let Some(entry) = entries.pop() {
        state.insert(alloc, entry.kind, entry.state_key, entry.id.copy(alloc)?)?;
    }
    Ok(state)
}
