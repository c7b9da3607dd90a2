// Why a run ends early.
use fed_dest::{ListFault, NameFault};
use fed_hub::{FinishFault, HubFault, SendFault};
use fed_json::NoMemory;
use fed_room::{StartFault, StartedFault};
use std::alloc::AllocFailed;
use std::io::{self, ErrorKind};
use std::sync::{Mutex, Wait};
use thiserror::Error;

/// Why a run ends early.
#[derive(Clone, Copy, Debug, PartialEq, Eq, Error)]
pub enum LoopFault {
    /// Memory ran out.
    #[error("out of memory")]
    Memory,
    /// A socket could not be opened, or a request could not be brought over one.
    #[error("input or output failed")]
    Io,
    /// A server could not be set up.
    #[error("bad setup")]
    BadSetup,
    /// The system made too few threads for a server.
    #[error("too few threads")]
    NoThreads,
    /// An event was refused.
    #[error("event refused: {0}")]
    Refused(SendFault),
    /// A server could not be ended.
    #[error("not finished: {0}")]
    Unfinished(FinishFault),
}

impl From<NoMemory> for LoopFault {
    fn from(_error: NoMemory) -> LoopFault {
        LoopFault::Memory
    }
}

impl<T: Drop> From<AllocFailed<T>> for LoopFault {
    fn from(_error: AllocFailed<T>) -> LoopFault {
        LoopFault::Memory
    }
}

impl From<io::Error> for LoopFault {
    fn from(error: io::Error) -> LoopFault {
        match error.kind() {
            ErrorKind::OutOfMemory => LoopFault::Memory,
            _ => LoopFault::Io,
        }
    }
}

impl From<NameFault> for LoopFault {
    fn from(fault: NameFault) -> LoopFault {
        match fault {
            NameFault::Memory => LoopFault::Memory,
            NameFault::BadName => LoopFault::BadSetup,
        }
    }
}

impl From<ListFault> for LoopFault {
    fn from(_fault: ListFault) -> LoopFault {
        LoopFault::BadSetup
    }
}

impl From<StartedFault> for LoopFault {
    fn from(fault: StartedFault) -> LoopFault {
        match fault {
            StartedFault::Memory => LoopFault::Memory,
            _ => LoopFault::BadSetup,
        }
    }
}

impl From<StartFault> for LoopFault {
    fn from(fault: StartFault) -> LoopFault {
        match fault {
            StartFault::Memory => LoopFault::Memory,
            _ => LoopFault::BadSetup,
        }
    }
}

impl From<HubFault> for LoopFault {
    fn from(fault: HubFault) -> LoopFault {
        match fault {
            HubFault::Memory => LoopFault::Memory,
            HubFault::BadSetup => LoopFault::BadSetup,
        }
    }
}

impl From<SendFault> for LoopFault {
    fn from(fault: SendFault) -> LoopFault {
        match fault {
            SendFault::Memory => LoopFault::Memory,
            other => LoopFault::Refused(other),
        }
    }
}

impl From<FinishFault> for LoopFault {
    fn from(fault: FinishFault) -> LoopFault {
        match fault {
            FinishFault::Memory => LoopFault::Memory,
            other => LoopFault::Unfinished(other),
        }
    }
}

/// The first fault that a thread met, if one did.
#[derive(Drop)]
pub(crate) struct FirstFault {
    fault: Mutex<Option<LoopFault>>,
}

impl FirstFault {
    /// None yet.
    pub(crate) fn new() -> FirstFault {
        FirstFault {
            fault: Mutex::new(None),
        }
    }

    /// Notes a fault, where none is.
    pub(crate) fn note<R: Wait>(&self, rt: &R, fault: LoopFault) {
        let mut first = self.fault.lock(rt);
        if first.is_none() {
            *first = Some(fault);
        }
    }

    /// It, if there is one.
    pub(crate) fn first<R: Wait>(&self, rt: &R) -> Option<LoopFault> {
        *self.fault.lock(rt)
    }
}
