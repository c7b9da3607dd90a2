// The events that came to a room.
ghost use Rattle.std.specs.Prelude.{◌≡◌, ◌↔◌, All, IsTrue};
ghost use Rattle.fed_hub_kept.specs.Received.{received, IsGiven};

use fed_event::Checked;
use fed_hub_rooms::RoomToken;
use fed_hub_serving::ServingNaming;
use fed_hub_state::KeptRoom;
use fed_room_contract::Input;

/// Whether the events that came to a room, by what it was given, are just these, in this order. What the room itself made is not among them. It
/// takes no memory.
pub fn are_received(inputs: &[Input], given: &[Checked]) -> bool
    ensures { IsTrue result ↔ (received inputs.now ≡ given.now) }
{
    let mut left = given.iter();
    for input in inputs {
        let Input::Receive(event) = input else {
            continue;
        };
        match left.next() {
            Some(next) if *next == *event => {}
            _ => return false,
        }
    }
    left.next().is_none()
}

/// Whether each of these threads gave its room, which is the one at the place that it holds, just the events that came to it, in this order. No
/// room is at that place, or other events came: then it did not. It takes no memory.
pub fn are_given<N: ServingNaming>(rooms: &[KeptRoom], tokens: &[RoomToken<N>]) -> bool
    ensures { IsTrue result ↔ All (IsGiven rooms.now) tokens.now }
{
    for token in tokens {
        if !is_given(rooms, token) {
            return false;
        }
    }
    true
}

// Whether the events that came to the room of a thread are those that the thread gave.
fn is_given<N: ServingNaming>(rooms: &[KeptRoom], token: &RoomToken<N>) -> bool
    ensures { IsTrue result ↔ IsGiven rooms.now token.now }
{
    match rooms.get(token.room()) {
        Some(room) => are_received(room.inputs(), token.given()),
        None => false,
    }
}
