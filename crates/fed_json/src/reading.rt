// From bytes to a value.
ghost use Rattle.std.specs.Prelude.{◌≤◌, IfOk, IsErrOf};
ghost use Rattle.serde_json.specs.Data.{Data};
ghost use Rattle.fed_json.specs.Reading.{ReadsWithin, IsNotJson, HasOtherNumber, NestsPast, IsOnly};

use crate::fault::JsonFault;
use crate::planting::planted;
use crate::profile::nesting;
use crate::value::Json;
use serde_json::Value;
use std::alloc::Global;

/// The most levels that a `Json` nests.
pub const MAX_LEVELS: usize = 127;

/// The value of a JSON text that nests at most 100 levels deep, the most of an event.
///
/// Its faults are those of `read_within`.
pub fn read(alloc: Global, bytes: &[u8]) -> Result<Json, JsonFault>
    ensures ok { IfOk result (ReadsWithin bytes.now 100) }
    ensures not_json { IsErrOf result JsonFault.NotJson → IsNotJson bytes.now }
    ensures not_canonical { IsErrOf result JsonFault.NotCanonicalValue → HasOtherNumber bytes.now }
    ensures too_deep { IsErrOf result JsonFault.TooDeep → NestsPast bytes.now 100 }
    ensures only { (d : Data) → ReadsWithin bytes.now 100 d → IsOnly result d }
{
    read_within(alloc, bytes, 100)
}

/// The value of a JSON text that nests at most `levels` deep. Of a key that an object names twice the last value counts.
///
/// # Errors
///
/// `NotJson` where the bytes are not UTF-8, or `serde_json` reads no value from them; else `NotCanonicalValue` where a number
/// is not whole or out of range (`1.0`, `1e2` and `-0` count as not whole); else `TooDeep` where the value nests deeper than
/// `levels`. `Memory` where memory ran out.
pub fn read_within(alloc: Global, bytes: &[u8], levels: usize) -> Result<Json, JsonFault>
    requires { levels ≤ MAX_LEVELS }
    ensures ok { IfOk result (ReadsWithin bytes.now levels) }
    ensures not_json { IsErrOf result JsonFault.NotJson → IsNotJson bytes.now }
    ensures not_canonical { IsErrOf result JsonFault.NotCanonicalValue → HasOtherNumber bytes.now }
    ensures too_deep { IsErrOf result JsonFault.TooDeep → NestsPast bytes.now levels }
    ensures only { (d : Data) → ReadsWithin bytes.now levels d → IsOnly result d }
{
    let value = match Value::from_slice(alloc, bytes) {
        Ok(value) => value,
        Err(e) if e.is_memory() => return Err(JsonFault::Memory),
        Err(_) => return Err(JsonFault::NotJson),
    };
    let Some(depth) = nesting(&value) else {
        return Err(JsonFault::NotCanonicalValue);
    };
    if depth > levels {
        return Err(JsonFault::TooDeep);
    }
    Ok(Json {
        value: planted(alloc, value)?,
    })
}
