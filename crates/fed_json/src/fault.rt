// Why bytes are no value of the profile.
ghost use Rattle.std.specs.Prelude.{◌≡◌};
ghost use Rattle.fed_json.specs.declared.fault.JsonFault.TheVariants.{Memory};

pub use std::alloc::AllocError as NoMemory;
use thiserror::Error;

/// Why bytes were not read as a `Json`. Of several reasons the first in the order `NotJson`, `NotCanonicalValue`, `TooDeep`
/// is given.
#[derive(Clone, Copy, Debug, PartialEq, Eq, Error)]
pub enum JsonFault {
    /// Memory ran out.
    #[error("out of memory")]
    Memory,
    /// The bytes are not UTF-8, or no JSON text, or nest deeper than 127 levels.
    #[error("not json")]
    NotJson,
    /// A number is not a whole one from -(2^53)+1 to 2^53-1, or is not written as one.
    #[error("not canonical")]
    NotCanonicalValue,
    /// The value nests deeper than asked for.
    #[error("too deep")]
    TooDeep,
}

impl From<NoMemory> for JsonFault {
    ghost from_gives = { λ _ e. e ≡ Memory };

    fn from(_error: NoMemory) -> JsonFault {
        JsonFault::Memory
    }
}
