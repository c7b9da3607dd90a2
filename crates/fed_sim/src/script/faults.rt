// Why a text is no script.
ghost use Rattle.std.specs.Prelude.{◌≡◌};
ghost use Rattle.fed_sim.specs.ScriptFaults.{fault_of_name, fault_of_setup, fault_of_content, error_of_room};
ghost use Rattle.fed_sim.specs.declared.script.faults.ScriptError.{ScriptError};
ghost use Rattle.fed_sim.specs.declared.script.faults.LineFault.TheVariants.{Memory, Wrong};

use crate::setup::SimFault;
use crate::setup_check::RoomFault;
use fed_dest::NameFault;
use fed_json::{JsonFault, NoMemory};
use std::alloc::AllocFailed;
use thiserror::Error;

/// What is wrong in a line of a script. Of several reasons the first in this order is given.
#[derive(Clone, Copy, Debug, PartialEq, Eq, Error)]
pub enum ScriptError {
    /// No command has this name.
    #[error("unknown command")]
    UnknownCommand,
    /// The line is not UTF-8, has not the words of its command, or stands where it may not.
    #[error("wrong words")]
    WrongWords,
    /// A server is named that is not listed.
    #[error("unknown server")]
    UnknownServer,
    /// The content is no JSON text, has a number that is not whole or out of range, or nests too deep.
    #[error("bad content")]
    BadContent,
}

/// Why a text is no script.
#[derive(Clone, Copy, Debug, PartialEq, Eq, Error)]
pub enum ScriptFault {
    /// Memory ran out.
    #[error("out of memory")]
    Memory,
    /// A line, counted from 1, is wrong.
    #[error("line {line}: {what}")]
    At { line: u64, what: ScriptError },
}

/// Why a line is not read.
#[derive(Clone, Copy, Debug, PartialEq, Eq)]
pub(crate) enum LineFault {
    Memory,
    Wrong(ScriptError),
}

impl LineFault {
    /// The fault of a script whose line of this number has this fault.
    pub(crate) fn at(self, line: u64) -> ScriptFault
        ensures memory { self ≡ Memory → result ≡ ScriptFault.Memory }
        ensures wrong { (what : ScriptError) → self ≡ Wrong what → result ≡ ScriptFault.At line what }
    {
        match self {
            LineFault::Memory => ScriptFault::Memory,
            LineFault::Wrong(what) => ScriptFault::At { line, what },
        }
    }
}

impl From<ScriptError> for LineFault {
    ghost from_gives = { λ what fault. fault ≡ Wrong what };

    fn from(what: ScriptError) -> LineFault {
        LineFault::Wrong(what)
    }
}

impl From<NoMemory> for LineFault {
    ghost from_gives = { λ _ fault. fault ≡ Memory };

    fn from(_error: NoMemory) -> LineFault {
        LineFault::Memory
    }
}

impl<T: Drop> From<AllocFailed<T>> for LineFault {
    ghost from_gives = { λ _ fault. fault ≡ Memory };

    fn from(_error: AllocFailed<T>) -> LineFault {
        LineFault::Memory
    }
}

impl From<NameFault> for LineFault {
    ghost from_gives = { λ name fault. fault ≡ fault_of_name name };

    fn from(fault: NameFault) -> LineFault {
        match fault {
            NameFault::Memory => LineFault::Memory,
            NameFault::BadName => LineFault::Wrong(ScriptError::WrongWords),
        }
    }
}

impl From<SimFault> for LineFault {
    ghost from_gives = { λ setup fault. fault ≡ fault_of_setup setup };

    fn from(fault: SimFault) -> LineFault {
        match fault {
            SimFault::Memory => LineFault::Memory,
            SimFault::BadSetup => LineFault::Wrong(ScriptError::WrongWords),
        }
    }
}

impl From<RoomFault> for LineFault {
    ghost from_gives = { λ room fault. fault ≡ Wrong (error_of_room room) };

    fn from(fault: RoomFault) -> LineFault {
        match fault {
            RoomFault::Wrong => LineFault::Wrong(ScriptError::WrongWords),
            RoomFault::UnknownServer => LineFault::Wrong(ScriptError::UnknownServer),
        }
    }
}

impl From<JsonFault> for LineFault {
    ghost from_gives = { λ content fault. fault ≡ fault_of_content content };

    fn from(fault: JsonFault) -> LineFault {
        match fault {
            JsonFault::Memory => LineFault::Memory,
            JsonFault::NotJson | JsonFault::NotCanonicalValue | JsonFault::TooDeep => {
                LineFault::Wrong(ScriptError::BadContent)
            }
        }
    }
}
