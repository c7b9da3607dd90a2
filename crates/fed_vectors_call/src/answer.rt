// What a call comes to.

use fed_json::{Json, NoMemory};
use std::alloc::AllocFailed;

/// What a call gives: a value, or why there is none.
pub type Answer = Result<Json, Stop>;

/// Why a call gives no value.
#[derive(Drop)]
pub enum Stop {
    /// Memory ran out.
    Memory,
    /// The library answers with this error.
    Error(String),
    /// The line is no call that can be made.
    Wrong(String),
}

impl Stop {
    /// An error of this text, if there was memory for it.
    pub fn error(text: Result<String, NoMemory>) -> Stop {
        match text {
            Ok(text) => Stop::Error(text),
            Err(_) => Stop::Memory,
        }
    }

    /// A fault of the line, of this text, if there was memory for it.
    pub fn wrong(text: Result<String, NoMemory>) -> Stop {
        match text {
            Ok(text) => Stop::Wrong(text),
            Err(_) => Stop::Memory,
        }
    }
}

impl From<NoMemory> for Stop {
    fn from(_error: NoMemory) -> Stop {
        Stop::Memory
    }
}

impl<T: Drop> From<AllocFailed<T>> for Stop {
    fn from(_error: AllocFailed<T>) -> Stop {
        Stop::Memory
    }
}
