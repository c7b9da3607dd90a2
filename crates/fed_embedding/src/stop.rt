// Why the server ends early.
use fed_hub::{FinishFault, HubFault, SendFault};
use fed_json::{JsonFault, NoMemory};
use std::alloc::AllocFailed;
use std::io;
use thiserror::Error;

/// Why the server ends early.
#[derive(Clone, Copy, Debug, PartialEq, Eq, Error)]
pub(crate) enum Stop {
    /// Memory ran out.
    #[error("out of memory")]
    Memory,
    /// A socket could not be opened, or a read or a write failed.
    #[error("input or output failed")]
    Io,
    /// What is given is no address.
    #[error("bad address")]
    BadAddress,
    /// What is given is no number of seconds, or of peers.
    #[error("bad number")]
    BadNumber,
    /// There is no such server, or no memory for one.
    #[error("not set up")]
    NotSetUp,
    /// The system made too few threads.
    #[error("too few threads")]
    NoThreads,
    /// A line is no content of a message.
    #[error("bad line")]
    BadLine,
    /// What the threads hold does not fit what they shared.
    #[error("not finished")]
    Unfinished,
}

impl From<NoMemory> for Stop {
    fn from(_error: NoMemory) -> Stop {
        Stop::Memory
    }
}

impl<T: Drop> From<AllocFailed<T>> for Stop {
    fn from(_error: AllocFailed<T>) -> Stop {
        Stop::Memory
    }
}

impl From<io::Error> for Stop {
    fn from(error: io::Error) -> Stop {
        match error.kind() {
            io::ErrorKind::OutOfMemory => Stop::Memory,
            _ => Stop::Io,
        }
    }
}

impl From<HubFault> for Stop {
    fn from(fault: HubFault) -> Stop {
        match fault {
            HubFault::Memory => Stop::Memory,
            HubFault::BadSetup => Stop::NotSetUp,
        }
    }
}

impl From<JsonFault> for Stop {
    fn from(fault: JsonFault) -> Stop {
        match fault {
            JsonFault::Memory => Stop::Memory,
            _ => Stop::BadLine,
        }
    }
}

impl From<SendFault> for Stop {
    fn from(fault: SendFault) -> Stop {
        match fault {
            SendFault::Memory => Stop::Memory,
            _ => Stop::BadLine,
        }
    }
}

impl From<FinishFault> for Stop {
    fn from(fault: FinishFault) -> Stop {
        match fault {
            FinishFault::Memory => Stop::Memory,
            _ => Stop::Unfinished,
        }
    }
}
