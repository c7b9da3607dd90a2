// What a world begins with.
ghost use Rattle.std.specs.Prelude.{◌≡◌};
ghost use Rattle.fed_sim.specs.declared.setup.SimFault.TheVariants.{Memory};

use fed_dest::ServerName;
use fed_json::NoMemory;
use fed_room::{StartFault, StartedFault};
use std::alloc::AllocFailed;
use thiserror::Error;

/// A room that stands on every server when a world begins: its id, and its users in the order in which they join it.
#[derive(Drop)]
pub struct RoomSetup {
    pub id: String,
    pub users: Vec<String>,
}

/// What a world begins with: its servers, the rooms that stand on each of them, and the first part of the number of every transaction.
#[derive(Drop)]
pub struct Setup {
    pub servers: Vec<ServerName>,
    pub rooms: Vec<RoomSetup>,
    pub epoch: u64,
}

/// Why there is no world.
#[derive(Clone, Copy, Debug, PartialEq, Eq, Error)]
pub enum SimFault {
    /// Memory ran out.
    #[error("out of memory")]
    Memory,
    /// The names make no list of servers, or a room cannot begin: its id is no room id, is not of the first user's server or is that of
    /// another room, it has no users, a user stands there twice, is no user id, or is of a server that is not listed; or the events that it is to
    /// begin with are none, or not all of them are accepted, which of ids within their limits has not been seen.
    #[error("bad setup")]
    BadSetup,
}

impl From<NoMemory> for SimFault {
    ghost from_gives = { λ _ fault. fault ≡ Memory };

    fn from(_error: NoMemory) -> SimFault {
        SimFault::Memory
    }
}

impl<T: Drop> From<AllocFailed<T>> for SimFault {
    ghost from_gives = { λ _ fault. fault ≡ Memory };

    fn from(_error: AllocFailed<T>) -> SimFault {
        SimFault::Memory
    }
}

impl From<StartedFault> for SimFault {
    ghost use Rattle.fed_sim.specs.Setup.{sim_fault_of_started};

    ghost from_gives = { λ started fault. fault ≡ sim_fault_of_started started };

    fn from(fault: StartedFault) -> SimFault {
        match fault {
            StartedFault::Memory => SimFault::Memory,
            StartedFault::NoUser => SimFault::BadSetup,
            StartedFault::NoKeys(_) => SimFault::BadSetup,
            StartedFault::Bad(_) => SimFault::BadSetup,
        }
    }
}

impl From<StartFault> for SimFault {
    ghost use Rattle.fed_sim.specs.Setup.{sim_fault_of_start};

    ghost from_gives = { λ start fault. fault ≡ sim_fault_of_start start };

    fn from(fault: StartFault) -> SimFault {
        match fault {
            StartFault::Memory => SimFault::Memory,
            StartFault::Empty => SimFault::BadSetup,
            StartFault::NotCreate => SimFault::BadSetup,
            StartFault::Version => SimFault::BadSetup,
            StartFault::NotAccepted(_, _) => SimFault::BadSetup,
        }
    }
}
