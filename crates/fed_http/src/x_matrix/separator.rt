// What stands in front of parameters and between them.
ghost use Rattle.std.specs.Prelude.{◌==◌, ℕ, List, IfSome, IfNone, IsUtf8};
ghost use Rattle.fed_http.specs.XMatrix.{is_white};
ghost use Rattle.fed_http.specs.XMatrixParts.{BeginsWithout, SkipsRun, StartsWithComma, StartsWithScheme};

use crate::x_matrix::character_runs::{space_run, white_run};

const SCHEME: &str = "X-Matrix";

/// What stands behind the scheme, in any case, and one space or more: it begins with no space.
pub fn behind_scheme(text: &str) -> Option<&str>
    ensures sound { IfSome result (λ rest. StartsWithScheme rest.now text.now × BeginsWithout (λ c. c == 32) rest.now) }
    ensures none { IfNone result ((rest : List ℕ) → StartsWithScheme rest text.now → ⊥) }
{
    let (scheme, rest) = text.split_once(' ')?;
    if !scheme.eq_ignore_ascii_case(SCHEME) {
        return None;
    }
    Some(without_spaces(rest))
}

/// What stands behind a comma that has white space around it or not: it begins with no white space.
pub fn behind_comma(text: &str) -> Option<&str>
    ensures sound { IfSome result (λ rest. StartsWithComma rest.now text.now × BeginsWithout is_white rest.now × IsUtf8 rest.now) }
    ensures none { IfNone result ((rest : List ℕ) → StartsWithComma rest text.now → ⊥) }
{
    let rest = without_white(text).strip_prefix(',')?;
    Some(without_white(rest))
}

// The text without the spaces in front.
fn without_spaces(text: &str) -> &str
    ensures { SkipsRun (λ c. c == 32) text.now result.now }
{
    &text[space_run(text)..]
}

// The text without the spaces and tabs in front.
fn without_white(text: &str) -> &str
    ensures { SkipsRun is_white text.now result.now }
{
    &text[white_run(text)..]
}
