// Equal states.
ghost use Rattle.std.specs.Prelude.{◌≡◌, All, IfOk, map, true};
ghost use Rattle.std.specs.FinMap as finite;
ghost use Rattle.fed_room_contract.specs.Entry.{seen};

use fed_json::NoMemory;
use fed_room_contract::{Entry, State};
use std::alloc::Global;

// Whether each of these states is equal to this one.
pub(crate) fn are_all(alloc: Global, state: &State, states: &[State]) -> Result<bool, NoMemory>
    ensures { IfOk result (λ equal. equal ≡ true → All (λ other. other ≡ state.now) states.now) }
{
    let entries = state.entries(alloc)?;
    for other in states {
        let others = other.entries(alloc)?;
        if !have_same_parts(&others, &entries) {
            return Ok(false);
        }
    }
    Ok(true)
}

// Whether two lists of entries are equal.
fn have_same_parts(entries: &[Entry<'_>], others: &[Entry<'_>]) -> bool
    ensures { result ≡ true → map seen entries.now ≡ map seen others.now }
{
    if entries.len() != others.len() {
        return false;
    }
    for (index, entry) in entries.iter().enumerate() {
        if !is_same(*entry, others[index]) {
            return false;
        }
    }
    true
}

// Whether two entries are equal.
fn is_same(entry: Entry<'_>, other: Entry<'_>) -> bool
    ensures { result ≡ true → seen entry.entry ≡ seen other.entry }
{
    entry.id == other.id && entry.state_key == other.state_key && entry.kind == other.kind
}
