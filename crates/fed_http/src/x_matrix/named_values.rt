// The values of the parameters that count.
ghost use Rattle.std.specs.Prelude.{◌≡◌, ◌++◌, ◌∷◌, [], List, map, IfSome, IfNone};
ghost use Rattle.std.specs.Char.{to_ascii_lowercase};
ghost use Rattle.fed_http.specs.XMatrix.{XMatrixValue, Parameter as Pair, AreParameters, Says, values_under};
ghost use Rattle.fed_http.specs.XMatrixParts.{DoesNotSay, Holds, IsTwice, pair_of, slot_values};

use crate::x_matrix::parameter::{Parameter, Raw, first_parameter};
use crate::x_matrix::separator::behind_comma;

/// The values under the four names, where they are there.
#[derive(Clone, Copy)]
pub struct NamedValues<'a> {
    pub origin: Option<Raw<'a>>,
    pub destination: Option<Raw<'a>>,
    pub key: Option<Raw<'a>>,
    pub signature: Option<Raw<'a>>,
}

impl<'a> NamedValues<'a> {
    /// What a list of parameters has under the four names: of a text that is one, and has none of the names twice.
    pub fn scan(text: &'a str) -> Option<NamedValues<'a>>
        ensures some { IfSome result (λ found. (ps : List Pair) × AreParameters ps text.now × Holds ps found) }
        ensures none { IfNone result ((ps : List Pair) (h : XMatrixValue) → AreParameters ps text.now → Says ps h → ⊥) }
    {
        let mut found = NamedValues::nothing();
        let mut left = text;
        loop {
            let (parameter, behind) = first_parameter(left)?;
            found = found.with(parameter)?;
            if behind.is_empty() {
                return Some(found);
            }
            left = behind_comma(behind)?;
        }
    }

    fn nothing() -> NamedValues<'a>
        ensures { Holds [] result }
    {
        NamedValues {
            origin: None,
            destination: None,
            key: None,
            signature: None,
        }
    }

    // One parameter more, if it has none of the four names, or one that was not found yet.
    fn with(self, parameter: Parameter<'a>) -> Option<NamedValues<'a>>
        ensures some { (ps : List Pair) → Holds ps self.entry → IfSome result (Holds (ps ++ pair_of parameter.entry ∷ [])) }
        ensures none { (ps : List Pair) → Holds ps self.entry → IfNone result (DoesNotSay (ps ++ pair_of parameter.entry ∷ [])) }
    {
        Some(NamedValues {
            origin: joined(self.origin, "origin", parameter)?,
            destination: joined(self.destination, "destination", parameter)?,
            key: joined(self.key, "key", parameter)?,
            signature: joined(self.signature, "sig", parameter)?,
        })
    }
}

// The slot of a name behind one parameter more, which fills it where it has the name. None where it was filled before.
fn joined<'a>(
    slot: Option<Raw<'a>>,
    name: &str,
    parameter: Parameter<'a>,
) -> Option<Option<Raw<'a>>>
    requires { map to_ascii_lowercase name.now ≡ name.now }
    ensures some { (ps : List Pair) → values_under name.now ps ≡ slot_values slot.entry
        → IfSome result (λ filled. values_under name.now (ps ++ pair_of parameter.entry ∷ []) ≡ slot_values filled) }
    ensures none { (ps : List Pair) → values_under name.now ps ≡ slot_values slot.entry
        → IfNone result (IsTwice name.now (ps ++ pair_of parameter.entry ∷ [])) }
{
    if !parameter.name.eq_ignore_ascii_case(name) {
        return Some(slot);
    }
    match slot {
        None => Some(Some(parameter.value)),
        Some(_) => None,
    }
}
