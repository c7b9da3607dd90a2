// How a run of a script ends early.
ghost use Rattle.std.specs.Prelude.{◌≡◌};
ghost use Rattle.std.specs.IoError.{error_kind};
ghost use Rattle.fed_app.specs.SimFaults.{IsSimFaultOf, fault_of_script, fault_of_setup};
ghost use Rattle.fed_app.specs.declared.sim_fault.SimRunFault.TheVariants.{Memory};

use fed_json::NoMemory;
use fed_sim::{ScriptError, ScriptFault, SimFault};
use std::io;
use std::io::ErrorKind;
use thiserror::Error;

/// Why a script was not run.
#[derive(Clone, Copy, Debug, PartialEq, Eq, Error)]
pub enum SimRunFault {
    /// Memory ran out.
    #[error("out of memory")]
    Memory,
    /// A line, counted from 1, is wrong; or line 1 has wrong words, since no world begins with what the script says.
    #[error("line {line}: {what}")]
    At { line: u64, what: ScriptError },
    /// A read or a write failed, or the input was read too often.
    #[error("input or output failed")]
    Io,
}

impl From<NoMemory> for SimRunFault {
    ghost from_gives = { λ _ fault. fault ≡ Memory };

    fn from(_error: NoMemory) -> SimRunFault {
        SimRunFault::Memory
    }
}

impl From<io::Error> for SimRunFault {
    ghost from_gives = { λ error fault. IsSimFaultOf (error_kind error) fault };

    fn from(error: io::Error) -> SimRunFault {
        match error.kind() {
            ErrorKind::OutOfMemory => SimRunFault::Memory,
            _ => SimRunFault::Io,
        }
    }
}

impl From<ScriptFault> for SimRunFault {
    ghost from_gives = { λ script fault. fault ≡ fault_of_script script };

    fn from(fault: ScriptFault) -> SimRunFault {
        match fault {
            ScriptFault::Memory => SimRunFault::Memory,
            ScriptFault::At { line, what } => SimRunFault::At { line, what },
        }
    }
}

// No world begins with what a script says.
impl From<SimFault> for SimRunFault {
    ghost from_gives = { λ setup fault. fault ≡ fault_of_setup setup };

    fn from(fault: SimFault) -> SimRunFault {
        match fault {
            SimFault::Memory => SimRunFault::Memory,
            SimFault::BadSetup => SimRunFault::At {
                line: 1,
                what: ScriptError::WrongWords,
            },
        }
    }
}
