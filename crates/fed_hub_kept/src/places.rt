// Rooms in their places.
ghost use Rattle.std.specs.Prelude.{◌≡◌, ◌↔◌, IsTrue, map, string_bytes};
ghost use Rattle.fed_hub_state.specs.KeptRoom.{id_of};

use fed_hub_state::KeptRoom;

/// Whether rooms have just these ids, in this order. It takes no memory.
pub fn are_in_places(rooms: &[KeptRoom], ids: &[String]) -> bool
    ensures { IsTrue result ↔ (map id_of rooms.now ≡ map string_bytes ids.now) }
{
    if rooms.len() != ids.len() {
        return false;
    }
    for (place, room) in rooms.iter().enumerate() {
        if room.id() != ids[place].as_str() {
            return false;
        }
    }
    true
}
