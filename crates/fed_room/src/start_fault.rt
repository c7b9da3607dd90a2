// Why no room begins with some events.
ghost use Rattle.std.specs.Prelude.{◌≡◌};
ghost use Rattle.fed_room.specs.declared.start_fault.StartFault.TheVariants.{Memory};

use fed_json::NoMemory;
use fed_room_contract::Receipt;
use thiserror::Error;

/// Why no room begins with some events.
#[derive(Clone, Copy, Debug, PartialEq, Eq, Error)]
pub enum StartFault {
    /// Memory ran out.
    #[error("out of memory")]
    Memory,
    /// There are none.
    #[error("no events")]
    Empty,
    /// The first is no create event.
    #[error("no create event first")]
    NotCreate,
    /// The first names no room version, or some event is of another one.
    #[error("not of one known room version")]
    Version,
    /// The event at this place, counted from 1, is not stored as accepted; this becomes of it.
    #[error("event {0} is not accepted")]
    NotAccepted(usize, Receipt),
}

impl From<NoMemory> for StartFault {
    ghost from_gives = { λ _ e. e ≡ Memory };

    fn from(_error: NoMemory) -> StartFault {
        Self::Memory
    }
}
