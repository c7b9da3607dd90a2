// The words of a line. None is empty.
ghost use Rattle.std.specs.Prelude.{◌≡◌, None, Some, IfErr, IfOk, option_copied};
ghost use Rattle.fed_sim.specs.ScriptWords.{first_word, only_word, two_words, whole_rest, number_of, state_key_of};
ghost use Rattle.std.specs.Char.{is_ascii_digit};
ghost use Rattle.std.specs.List.{list_all};
ghost use Rattle.fed_sim.specs.declared.script.faults.ScriptError.TheVariants.{WrongWords};

use super::faults::ScriptError;

/// The most digits of a number.
const MAX_DIGITS: usize = 16;

/// The first of several words, and all that stands behind the space after it.
pub(crate) fn first_word(text: &str) -> Result<(&str, &str), ScriptError>
    ensures ok { IfOk result (λ led. first_word text.now ≡ Some (led.0.now, led.1.now)) }
    ensures wrong { IfErr result (λ fault. (fault ≡ WrongWords) × (first_word text.now ≡ None)) }
{
    match text.split_once(' ') {
        Some((word, rest)) if !word.is_empty() => Ok((word, rest)),
        _ => Err(ScriptError::WrongWords),
    }
}

/// The word that a text is.
pub(crate) fn only_word(text: &str) -> Result<&str, ScriptError>
    ensures ok { IfOk result (λ word. only_word text.now ≡ Some word.now) }
    ensures wrong { IfErr result (λ fault. (fault ≡ WrongWords) × (only_word text.now ≡ None)) }
{
    if text.is_empty() || text.as_bytes().contains(&b' ') {
        return Err(ScriptError::WrongWords);
    }
    Ok(text)
}

/// The two words that a text is.
pub(crate) fn two_words(text: &str) -> Result<(&str, &str), ScriptError>
    ensures ok { IfOk result (λ words. two_words text.now ≡ Some (words.0.now, words.1.now)) }
    ensures wrong { IfErr result (λ fault. (fault ≡ WrongWords) × (two_words text.now ≡ None)) }
{
    let (first, rest) = first_word(text)?;
    Ok((first, only_word(rest)?))
}

/// The rest of a line, in which spaces are nothing special.
pub(crate) fn whole_rest(text: &str) -> Result<&str, ScriptError>
    ensures ok { IfOk result (λ rest. whole_rest text.now ≡ Some rest.now) }
    ensures wrong { IfErr result (λ fault. (fault ≡ WrongWords) × (whole_rest text.now ≡ None)) }
{
    if text.is_empty() {
        return Err(ScriptError::WrongWords);
    }
    Ok(text)
}

/// The number that a text is.
pub(crate) fn number_of(text: &str) -> Result<u64, ScriptError>
    ensures ok { IfOk result (λ number. number_of text.now ≡ Some number) }
    ensures wrong { IfErr result (λ fault. (fault ≡ WrongWords) × (number_of text.now ≡ None)) }
{
    if text.len() > MAX_DIGITS || !are_digits(text) {
        return Err(ScriptError::WrongWords);
    }
    match text.parse::<u64>() {
        Ok(number) => Ok(number),
        Err(_) => Err(ScriptError::WrongWords),
    }
}

fn are_digits(text: &str) -> bool
    ensures { result ≡ list_all is_ascii_digit text.now }
{
    text.bytes().all(|byte| byte.is_ascii_digit())
}

/// The state key that a word names: `-` is none, and `=` stands before the key.
pub(crate) fn state_key_of(word: &str) -> Result<Option<&str>, ScriptError>
    ensures ok { IfOk result (λ key. state_key_of word.now ≡ Some (option_copied key)) }
    ensures wrong { IfErr result (λ fault. (fault ≡ WrongWords) × (state_key_of word.now ≡ None)) }
{
    if word == "-" {
        return Ok(None);
    }
    match word.strip_prefix('=') {
        Some(key) => Ok(Some(key)),
        None => Err(ScriptError::WrongWords),
    }
}
