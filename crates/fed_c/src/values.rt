// From bytes to a JSON value.
ghost use Rattle.std.specs.Prelude.{◌≡◌, ◌≢◌, ◌<◌, ◌≤◌, Ok, Err, IfOk, IfErr};
ghost use Rattle.fed_c.specs.Values.{value_within, value_of, text_of};
ghost use Rattle.fed_c.specs.declared.status.Status.TheVariants.{Memory};

use crate::status::Status;
use fed_json::{Json, JsonFault, MAX_LEVELS, read_within};
use std::alloc::Global;

/// The value of a JSON text.
///
/// # Errors
///
/// `NotJson` and `NotCanonical`. `Memory` where memory ran out.
pub(crate) fn value(alloc: Global, text: &[u8]) -> Result<Json, Status>
    ensures ok { IfOk result (λ json. value_of text.now ≡ Ok json) }
    ensures fault { IfErr result (λ status. status ≢ Memory → value_of text.now ≡ Err status) }
{
    shallow_value(alloc, text, MAX_LEVELS)
}

/// The value of a JSON text that nests at most `levels` deep.
///
/// # Errors
///
/// The first of `NotJson`, `NotCanonical` and `TooDeep`. `Memory` where memory ran out.
#[tactic(auto, using(crate::proofs::ReadValues::values_within))]
pub(crate) fn shallow_value(alloc: Global, text: &[u8], levels: usize) -> Result<Json, Status>
    ensures ok { IfOk result (λ json. value_within levels text.now ≡ Ok json) }
    ensures fault { IfErr result (λ status. status ≢ Memory → value_within levels text.now ≡ Err status) }
{
    match read_within(alloc, text, bounded(levels)) {
        Ok(json) => Ok(json),
        Err(JsonFault::Memory) => Err(Status::Memory),
        Err(JsonFault::NotJson) => Err(Status::NotJson),
        Err(JsonFault::NotCanonicalValue) => Err(Status::NotCanonical),
        Err(JsonFault::TooDeep) => Err(Status::TooDeep),
    }
}

// As many levels, or the most that a value has.
fn bounded(levels: usize) -> usize
    ensures most { result ≤ MAX_LEVELS }
    ensures at_most { result ≤ levels }
    ensures same { result < MAX_LEVELS → result ≡ levels }
{
    if levels < MAX_LEVELS {
        levels
    } else {
        MAX_LEVELS
    }
}

/// The text that bytes are.
///
/// # Errors
///
/// `NotUtf8` where they are none.
pub(crate) fn text(bytes: &[u8]) -> Result<&str, Status>
    ensures ok { IfOk result (λ text. text_of bytes.now ≡ Ok text.now) }
    ensures fault { IfErr result (λ status. text_of bytes.now ≡ Err status) }
{
    match std::str::from_utf8(bytes) {
        Ok(text) => Ok(text),
        Err(_) => Err(Status::NotUtf8),
    }
}
