// How an event in hand is given to its room.
ghost use Rattle.std.specs.Prelude.{◌≡◌, ◌<◌, ◌++◌, ◌∷◌, [], length, vec_capacity, IfOk, IsSome};
ghost use Rattle.fed_hub_rooms.specs.Turns.{RoomRuns};

use crate::access::RoomAccess;
use crate::ran::Ran;
use crate::room_token::RoomToken;
use fed_event::Checked;
use fed_hub_serving::ServingNaming;
use fed_json::NoMemory;
use fed_room_contract::Stopped;
use std::alloc::Global;
use std::sync::Wait;

/// Gives the event in hand to the room, as the whole of a turn: `TurnsSpent` where all that was then ready is stored. Where memory runs out the
/// room was not given it and it is in hand again, or some events that are ready wait yet.
pub(crate) fn give<N: ServingNaming, A: RoomAccess, R: Wait>(
    rt: &R,
    alloc: Global,
    room: &mut A,
    token: &mut RoomToken<N>,
) -> Ran
    requires { IsSome token.old.hand }
    ensures { RoomRuns 1 token.old (A.state room.old) result token.new (A.state room.new) }
{
    // There is one.
    let event = token.hand.take().unwrap();
    let Ok((copy, input)) = make_ready(alloc, &mut token.given, &event) else {
        token.hand = Some(event);
        return Ran::Memory;
    };
    match room.apply(rt, alloc, event, input) {
        Ok(_) => {
            note(&mut token.given, copy);
            Ran::TurnsSpent
        }
        Err(Stopped::Received(_)) => {
            note(&mut token.given, copy);
            Ran::Memory
        }
        Err(Stopped::NotReceived(back)) => {
            token.hand = Some(back);
            Ran::Memory
        }
    }
}

// Makes room for one more event among those that were given, and two equal ones.
fn make_ready(
    alloc: Global,
    given: &mut Vec<Checked>,
    event: &Checked,
) -> Result<(Checked, Checked), NoMemory>
    ensures same { given.new.items ≡ given.old.items }
    ensures copies { IfOk result (λ copies. (copies.0 ≡ event.now) × (copies.1 ≡ event.now)) }
    ensures room { IfOk result (λ _. length given.new.items < vec_capacity given.new) }
{
    given.reserve(1)?;
    Ok((event.copy(alloc)?, event.copy(alloc)?))
}

// Notes an event that was given, for which there is room.
fn note(given: &mut Vec<Checked>, event: Checked)
    requires { length given.old.items < vec_capacity given.old }
    ensures { given.new.items ≡ given.old.items ++ event ∷ [] }
{
    // There is room for it.
    given.push(event).unwrap();
}
