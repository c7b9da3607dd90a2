// What the thread of a room does, turn after turn.
ghost use Rattle.fed_hub_rooms.specs.Turns.{RoomRuns};

use crate::access::RoomAccess;
use crate::giving::give;
use crate::ran::Ran;
use crate::room_token::RoomToken;
use fed_hub_serving::ServingNaming;
use std::alloc::Global;
use std::sync::Wait;

/// Stores what comes over the wire of a room, in at most so many turns (Matrix, Server-Server API, "Checks performed on receipt of a PDU"). A
/// turn gives one event to the room: the one in hand, or the next that comes over the wire, for which it waits, and no lock is held meanwhile.
/// All memory that a turn takes for itself is taken before the room is asked.
///
/// What it tells:
///
/// - `Drained` where the other end of the wire is gone, and nothing is in hand
/// - `TurnsSpent` where that many events were given, and all that was ready each time is stored
/// - `Memory` where memory ran out. An event that the room did not receive is in hand, and the next call gives it first. Where the room received
///   it and memory ran out behind that, it counts as given, and what is ready and waits is stored with the next event
pub fn run_room<N: ServingNaming, A: RoomAccess, R: Wait>(
    rt: &R,
    alloc: Global,
    room: &mut A,
    token: &mut RoomToken<N>,
    turns: u64,
) -> Ran
    ensures { RoomRuns turns token.old (A.state room.old) result token.new (A.state room.new) }
{
    for _ in 0..turns {
        match make_turn(rt, alloc, room, token) {
            Ran::Drained => return Ran::Drained,
            Ran::TurnsSpent => {}
            Ran::Memory => return Ran::Memory,
        }
    }
    Ran::TurnsSpent
}

// One turn.
fn make_turn<N: ServingNaming, A: RoomAccess, R: Wait>(
    rt: &R,
    alloc: Global,
    room: &mut A,
    token: &mut RoomToken<N>,
) -> Ran
    ensures { RoomRuns 1 token.old (A.state room.old) result token.new (A.state room.new) }
{
    if token.take_in_hand(rt) {
        give(rt, alloc, room, token)
    } else {
        Ran::Drained
    }
}
