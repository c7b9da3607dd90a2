// What an Authorization field says, as it stands in its text.
ghost use Rattle.std.specs.Prelude.{◌≡◌, IfOk, MatchOption, option_map, string_bytes};
ghost use Rattle.fed_http.specs.XMatrix.{XMatrixValue, IsXMatrix};
ghost use Rattle.fed_http.specs.XMatrixParts.{said_by, value_of};

use crate::x_matrix::XMatrix;
use crate::x_matrix::named_values::NamedValues;
use crate::x_matrix::parameter::Raw;
use crate::x_matrix::separator::behind_scheme;
use fed_json::NoMemory;
use std::alloc::Global;

/// An `XMatrix` in the text of its field: parts of that text, and the signature.
#[derive(Clone, Copy)]
pub struct XMatrixRef<'a> {
    pub origin: Raw<'a>,
    pub destination: Option<Raw<'a>>,
    pub key: Raw<'a>,
    pub signature: [u8; 64],
}

impl<'a> XMatrixRef<'a> {
    /// What a text says, where it is one of this scheme and grammar.
    pub fn of(text: &'a str) -> Option<XMatrixRef<'a>>
        ensures { MatchOption result ((h : XMatrixValue) → IsXMatrix text.now h → ⊥) (λ said. IsXMatrix text.now (said_by said)) }
    {
        let list = behind_scheme(text)?;
        let found = NamedValues::scan(list)?;
        let origin = found.origin?;
        let key = found.key?;
        let signature = found.signature?.signature()?;
        Some(XMatrixRef {
            origin,
            destination: found.destination,
            key,
            signature,
        })
    }

    /// The same, kept.
    pub fn keep(self, alloc: Global) -> Result<XMatrix, NoMemory>
        ensures { IfOk result (λ header. header ≡ said_by self.entry) }
    {
        let origin = self.origin.to_text(alloc)?;
        let destination = kept(alloc, self.destination)?;
        let key = self.key.to_text(alloc)?;
        Ok(XMatrix::new(origin, destination, key, self.signature))
    }
}

fn kept(alloc: Global, value: Option<Raw<'_>>) -> Result<Option<String>, NoMemory>
    ensures { IfOk result (λ text. option_map string_bytes text ≡ option_map value_of value.entry) }
{
    match value {
        Some(value) => Ok(Some(value.to_text(alloc)?)),
        None => Ok(None),
    }
}
