// Ids among other ids.
ghost use Rattle.std.specs.Prelude.{◌≡◌};
ghost use Rattle.std.specs.List.{list_any};
ghost use Rattle.std.specs.Str.{bytes_eq};
ghost use Rattle.fed_event.specs.EventIds.{ids_left};
ghost use Rattle.fed_room.specs.Ids.{are_among, are_same};

use fed_event::{EventId, EventIds};

/// Whether an id is among those that a field of an event holds.
pub(crate) fn has(ids: EventIds<'_>, id: &str) -> bool
    ensures { result ≡ list_any (λ named. bytes_eq named id.now) (ids_left ids.entry) }
{
    for named in ids {
        if named == id {
            return true;
        }
    }
    false
}

/// Whether the ids that a field of an event holds are these, in any order.
pub(crate) fn are_same(ids: EventIds<'_>, others: &[EventId]) -> bool
    ensures { result ≡ are_same (ids_left ids.entry) others.now }
{
    have_all(ids, others) && are_among(ids, others)
}

// Whether each of these ids is among those that a field holds.
fn have_all(ids: EventIds<'_>, others: &[EventId]) -> bool
    ensures { result ≡ are_among others.now (ids_left ids.entry) }
{
    others.iter().all(|other| has(ids, other.as_str()))
}

// Whether each of the ids that a field holds is among these.
fn are_among(ids: EventIds<'_>, others: &[EventId]) -> bool
    ensures { result ≡ are_among (ids_left ids.entry) others.now }
{
    for id in ids {
        if !is_among(others, id) {
            return false;
        }
    }
    true
}

// Whether an id is among these.
fn is_among(ids: &[EventId], id: &str) -> bool
    ensures { result ≡ list_any (λ named. bytes_eq named id.now) ids.now }
{
    ids.iter().any(|named| named.as_str() == id)
}
