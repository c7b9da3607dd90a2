// Why there is nothing to count.
use fed_replies::NoMemory;
use std::alloc::AllocFailed;
use std::{fmt, io};

/// Why there is nothing to count.
#[derive(Drop)]
pub(crate) enum Stop {
    /// Memory ran out.
    Memory,
    /// The clock could not be read.
    System,
    /// The line asks for nothing that there is.
    WrongWords,
}

impl fmt::Display for Stop {
    fn fmt<W: fmt::Write>(&self, f: &mut fmt::Formatter<W>) -> fmt::Result {
        f.write_str(match self {
            Stop::Memory => "out of memory",
            Stop::System => "the clock could not be read",
            Stop::WrongWords => "wrong words",
        })
    }
}

impl From<NoMemory> for Stop {
    fn from(_error: NoMemory) -> Stop {
        Stop::Memory
    }
}

impl<T: Drop> From<AllocFailed<T>> for Stop {
    fn from(_error: AllocFailed<T>) -> Stop {
        Stop::Memory
    }
}

impl From<io::Error> for Stop {
    fn from(_error: io::Error) -> Stop {
        Stop::System
    }
}
