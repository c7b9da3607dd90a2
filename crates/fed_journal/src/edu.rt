// Ephemeral data units that are offered.
ghost use Rattle.std.specs.Prelude.{◌≡◌, false, Ok, Some, IfOk};
ghost use Rattle.fed_journal.specs.declared.edu.EduFault.TheVariants.{BadEdu};
ghost use Rattle.fed_journal.specs.Edu.{is_edu, edu_fault_of};

use fed_json::{Json, NoMemory, canonical};
use std::alloc::Global;
use thiserror::Error;

/// The most bytes of the canonical text of an ephemeral data unit that is offered.
pub const MAX_EDU: usize = 65_536;

/// The most levels that it nests.
pub const MAX_EDU_DEPTH: usize = 100;

/// Why a value is not offered as an ephemeral data unit.
#[derive(Clone, Copy, Debug, PartialEq, Eq, Error)]
pub enum EduFault {
    /// It is no object with a text `edu_type` and an object `content`.
    #[error("bad edu")]
    BadEdu,
    /// Its canonical text has over `MAX_EDU` bytes.
    #[error("edu too large")]
    TooLarge,
    /// It nests more than `MAX_EDU_DEPTH` levels.
    #[error("edu too deep")]
    TooDeep,
}

/// Whether a value is an ephemeral data unit (Server-Server API, "EDUs"): an object with a text `edu_type` and an object `content`.
pub fn is_edu(value: &Json) -> bool
    ensures { result ≡ is_edu value.now }
{
    let has_type = value
        .member("edu_type")
        .and_then(|part| part.text())
        .is_some();
    let has_content = value.member("content").is_some_and(|part| part.is_object());
    has_type && has_content
}

/// Why a value is not offered as an ephemeral data unit: the first of the faults, or none. That it is none at all is told without memory.
pub fn edu_fault(alloc: Global, value: &Json) -> Result<Option<EduFault>, NoMemory>
    ensures fault { IfOk result (λ fault. fault ≡ edu_fault_of value.now) }
    ensures bad { is_edu value.now ≡ false → result ≡ Ok (Some BadEdu) }
{
    if !is_edu(value) {
        return Ok(Some(EduFault::BadEdu));
    }
    if canonical(alloc, value)?.len() > MAX_EDU {
        return Ok(Some(EduFault::TooLarge));
    }
    if value.depth() > MAX_EDU_DEPTH {
        return Ok(Some(EduFault::TooDeep));
    }
    Ok(None)
}
