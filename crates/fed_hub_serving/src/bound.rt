// Events on their way to their rooms.
ghost use Rattle.std.specs.Prelude.{◌≡◌, ◌<◌, IfOk, IfSome, length, map, position, bytes_eq, string_bytes};
ghost use Rattle.fed_hub_serving.specs.Bound.{bound_of};

use fed_event::Checked;
use fed_json::NoMemory;
use std::alloc::Global;

/// An event on its way to the room at this place; `None` where it is of no room of the server.
#[derive(Drop)]
pub(crate) struct Bound {
    pub(crate) room: Option<usize>,
    pub(crate) event: Checked,
}

/// Copies of events, each with the place of its room among these ids.
pub(crate) fn bound_for(
    alloc: Global,
    known: &[String],
    events: &[Checked],
) -> Result<Vec<Bound>, NoMemory>
    ensures { IfOk result (λ bound. bound.items ≡ map (bound_of (map string_bytes known.now)) events.now) }
{
    let mut bound = Vec::with_capacity(alloc, events.len())?;
    for event in events {
        let room = place_of(known, event.event().room_id());
        let event = event.copy(alloc)?;
        bound.push(Bound { room, event })?;
    }
    Ok(bound)
}

// The place of a room among these.
fn place_of(known: &[String], room: &str) -> Option<usize>
    ensures { result ≡ position (λ id. bytes_eq (string_bytes id) room.now) known.now }
{
    known.iter().position(|id| id.as_str() == room)
}
