// A field of a message.
ghost use Rattle.std.specs.Prelude.{◌≡◌, IfOk, string_bytes};

use fed_json::NoMemory;
use std::alloc::Global;
use std::marker::Model;

/// A field of a message (RFC 9110, section 5): its name as it was sent, in any case of letters, and its value without the white space
/// around it.
///
/// Contracts see it as the pair of these bytes.
#[derive(Debug, Drop)]
pub struct Field {
    name: String,
    value: Vec<u8>,
}

impl Model for Field {
    ghost use Rattle.std.specs.Prelude.{ℕ, List, string_bytes};
    ghost use Rattle.std.specs.Coded.{coded×, coded_ℕ, coded_list};

    ghost Value = { List ℕ × List ℕ };

    ghost coded = { coded× (coded_list coded_ℕ) (coded_list coded_ℕ) };

    ghost view = { λ f. (string_bytes f.name, f.value.items) };
}

impl Field {
    /// The field of this name and this value. It takes no memory.
    pub fn new(name: String, value: Vec<u8>) -> Field
        ensures { result ≡ (string_bytes name, value.items) }
    {
        Field { name, value }
    }

    /// The name, as it was sent.
    pub fn name(&self) -> &str
        ensures { result.now ≡ self.now.0 }
    {
        self.name.as_str()
    }

    /// The value, without the white space around it.
    pub fn value(&self) -> &[u8]
        ensures { result.now ≡ self.now.1 }
    {
        self.value.as_slice()
    }

    /// An equal field.
    pub fn copy(&self, alloc: Global) -> Result<Field, NoMemory>
        ensures { IfOk result (λ copy. copy ≡ self.now) }
    {
        let name = String::from_str(alloc, self.name())?;
        let value = Vec::from_slice(alloc, self.value())?;
        Ok(Field { name, value })
    }
}
