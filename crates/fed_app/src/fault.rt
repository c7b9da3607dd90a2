// How a run ends early.
ghost use Rattle.std.specs.Prelude.{◌≡◌};

use fed_json::NoMemory;
use std::io;
use std::io::ErrorKind;
use thiserror::Error;

/// Why a run stopped before the end of its input.
#[derive(Clone, Copy, Debug, PartialEq, Eq, Error)]
pub enum RunFault {
    /// Memory ran out.
    #[error("out of memory")]
    Memory,
    /// A line, counted from 1, has not the words that it should have.
    #[error("line {line}: wrong words")]
    WrongWords { line: u64 },
    /// A read or a write failed, or the input was read too often.
    #[error("input or output failed")]
    Io,
}

impl From<NoMemory> for RunFault {
    ghost use Rattle.fed_app.specs.declared.fault.RunFault.TheVariants.{Memory};

    ghost from_gives = { λ _ fault. fault ≡ Memory };

    fn from(_error: NoMemory) -> RunFault {
        RunFault::Memory
    }
}

impl From<io::Error> for RunFault {
    ghost use Rattle.std.specs.IoError.{error_kind};
    ghost use Rattle.fed_app.specs.Fault.{IsFaultOf};

    ghost from_gives = { λ error fault. IsFaultOf (error_kind error) fault };

    fn from(error: io::Error) -> RunFault {
        match error.kind() {
            ErrorKind::OutOfMemory => RunFault::Memory,
            _ => RunFault::Io,
        }
    }
}
