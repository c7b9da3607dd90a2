// Why a request is not taken.
use crate::judged_request::JudgedRequest;
use fed_event::Checked;
use fed_json::NoMemory;
use fed_wires::NoRoom;

/// A request that was not taken, since the wire to the room at this place had no room for all the events that the request may bring for it, and
/// what shows that.
#[derive(Drop)]
pub struct FullWire {
    pub judged: JudgedRequest,
    pub room: usize,
    pub no_room: NoRoom<Checked>,
}

/// The wire to the room at this place had no room for all the events that are for the room, and what shows that.
#[derive(Drop)]
pub(crate) struct FullRoom {
    pub(crate) room: usize,
    pub(crate) no_room: NoRoom<Checked>,
}

/// Why a request was not served.
#[derive(Drop)]
pub(crate) enum Unserved {
    /// Memory ran out.
    Memory,
    /// A wire has no room.
    Full(FullWire),
}

impl From<NoMemory> for Unserved {
    ghost use Rattle.std.specs.Prelude.{◌≡◌};
    ghost use Rattle.fed_hub_serving.specs.declared.full_wire.Unserved.TheVariants.{Memory};

    ghost from_gives = { λ fault told. told ≡ Memory };

    fn from(_fault: NoMemory) -> Unserved {
        Unserved::Memory
    }
}
