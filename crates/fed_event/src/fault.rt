// Why a value is no event.
ghost use Rattle.std.specs.Prelude.{◌≡◌, ◌++◌, IfOk, string_bytes};
ghost use Rattle.fed_event.specs.declared.fault.PduFault.TheVariants.{Memory};
ghost use Rattle.fed_event.specs.Field.{field_name};
ghost use Rattle.fed_event.specs.Verdict.{verdict_of};

use crate::field::Field;
use fed_json::NoMemory;
use std::alloc::Global;
use thiserror::Error;

/// Why a value is no event. Its text is the verdict that a transaction's reply gives.
#[derive(Clone, Copy, Debug, PartialEq, Eq, Error)]
pub enum PduFault {
    /// Memory ran out.
    #[error("out of memory")]
    Memory,
    /// The bytes are no JSON text.
    #[error("not json")]
    NotJson,
    /// The value has no canonical text.
    #[error("not canonical")]
    NotCanonical,
    /// A field that an event may not lack is not there.
    #[error("missing field: {0}")]
    Missing(Field),
    /// A field has a value of another kind than it may have, or, at `Event`, the value is no object.
    #[error("wrong kind: {0}")]
    WrongKind(Field),
    /// The canonical text, signatures and all, has more than 65,536 bytes.
    #[error("event too large")]
    TooLarge,
    /// The text of a field has more than 255 bytes.
    #[error("field too long: {0}")]
    TooLong(Field),
    /// A field names more than 10 auth events or 20 prev events.
    #[error("too many: {0}")]
    TooMany(Field),
    /// The event nests more than 100 levels deep.
    #[error("event too deep")]
    TooDeep,
}

impl PduFault {
    /// The text that is displayed.
    pub fn verdict_text(self, alloc: Global) -> Result<String, NoMemory>
        ensures { IfOk result (λ text. string_bytes text ≡ verdict_of self) }
    {
        match self {
            PduFault::Memory => String::from_str(alloc, "out of memory"),
            PduFault::NotJson => String::from_str(alloc, "not json"),
            PduFault::NotCanonical => String::from_str(alloc, "not canonical"),
            PduFault::Missing(field) => of_field(alloc, "missing field: ", field),
            PduFault::WrongKind(field) => of_field(alloc, "wrong kind: ", field),
            PduFault::TooLarge => String::from_str(alloc, "event too large"),
            PduFault::TooLong(field) => of_field(alloc, "field too long: ", field),
            PduFault::TooMany(field) => of_field(alloc, "too many: ", field),
            PduFault::TooDeep => String::from_str(alloc, "event too deep"),
        }
    }
}

impl From<NoMemory> for PduFault {
    ghost from_gives = { λ _ e. e ≡ Memory };

    fn from(_error: NoMemory) -> PduFault {
        Self::Memory
    }
}

// A verdict on a field.
fn of_field(alloc: Global, verdict: &str, field: Field) -> Result<String, NoMemory>
    ensures { IfOk result (λ text. string_bytes text ≡ verdict.now ++ field_name field) }
{
    let mut text = String::from_str(alloc, verdict)?;
    text.push_str(field.name())?;
    Ok(text)
}
