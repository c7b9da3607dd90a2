// Why there are no events that a room begins with.
ghost use Rattle.std.specs.Prelude.{◌≡◌};
ghost use Rattle.fed_room.specs.declared.started_fault.StartedFault.TheVariants.{Memory};

use fed_event::PduFault;
use fed_json::NoMemory;
use thiserror::Error;

/// Why there are no events that a room of some users begins with.
#[derive(Clone, Copy, Debug, PartialEq, Eq, Error)]
pub enum StartedFault {
    /// Memory ran out.
    #[error("out of memory")]
    Memory,
    /// There is no user.
    #[error("no user")]
    NoUser,
    /// There are no keys of the server of the user at this place, counted from 1.
    #[error("no keys of user {0}")]
    NoKeys(usize),
    /// What one of the events would be is no event.
    #[error("bad event: {0}")]
    Bad(PduFault),
}

impl From<NoMemory> for StartedFault {
    ghost from_gives = { λ _ e. e ≡ Memory };

    fn from(_error: NoMemory) -> StartedFault {
        Self::Memory
    }
}

impl From<PduFault> for StartedFault {
    ghost use Rattle.fed_room.specs.StartedFault.{started_fault_of};

    ghost from_gives = { λ fault e. e ≡ started_fault_of fault };

    fn from(fault: PduFault) -> StartedFault {
        match fault {
            PduFault::Memory => Self::Memory,
            fault => Self::Bad(fault),
        }
    }
}
