// Why words ask for nothing that is to be done.
use clap::error::ErrorKind;
use std::alloc::{AllocError, AllocFailed, Global};

/// Why words ask for nothing that is to be done.
#[derive(Drop)]
pub enum Refused {
    /// They are wrong, or ask for help or for the version. The text ends its last line, and is one for standard error where it tells a mistake.
    Told { text: String, is_mistake: bool },
    /// Memory ran out.
    Memory,
}

impl Refused {
    /// What `clap` tells.
    pub(crate) fn of(alloc: Global, error: clap::Error) -> Refused {
        if error.kind() == ErrorKind::OutOfMemory {
            return Refused::Memory;
        }
        match format!(in alloc; "{error}") {
            Ok(text) => Refused::Told {
                text,
                is_mistake: error.use_stderr(),
            },
            Err(_) => Refused::Memory,
        }
    }
}

impl From<AllocError> for Refused {
    fn from(_error: AllocError) -> Refused {
        Refused::Memory
    }
}

impl<T: Drop> From<AllocFailed<T>> for Refused {
    fn from(_error: AllocFailed<T>) -> Refused {
        Refused::Memory
    }
}
