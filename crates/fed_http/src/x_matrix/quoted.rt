// Values between quotes, read and written.
ghost use Rattle.std.specs.Prelude.{◌≡◌, ◌++◌, [], ◌∷◌, ◌<◌, ⊤, OnOk, length, MatchOption, false};
ghost use Rattle.fed_http.specs.XMatrixWriting.{in_quotes};
ghost use Rattle.fed_http.specs.XMatrixParts.{quote_index, unescaped};

use fed_json::NoMemory;

const QUOTE: u8 = b'"';

const BACKSLASH: u8 = b'\\';

/// Where the quote stands that ends a value, in the text behind the quote that begins it.
pub fn closing_quote(text: &[u8]) -> Option<usize>
    ensures { result ≡ quote_index false text.now }
{
    let mut escaped = false;
    for (i, byte) in text.iter().enumerate() {
        if escaped {
            escaped = false;
        } else if *byte == QUOTE {
            return Some(i);
        } else {
            escaped = *byte == BACKSLASH;
        }
    }
    None
}

/// The first character that the text between quotes stands for, and the text behind it.
pub fn next_unescaped(text: &[u8]) -> Option<(u8, &[u8])>
    ensures value { MatchOption result (unescaped false text.now ≡ []) (λ next. unescaped false text.now ≡ next.0 ∷ unescaped false next.1.now) }
    ensures shorter { MatchOption result ⊤ (λ next. length next.1.now < length text.now) }
{
    let text = match text {
        [BACKSLASH, rest @ ..] => rest,
        _ => text,
    };
    let (byte, rest) = text.split_first()?;
    Some((*byte, rest))
}

/// Appends a value between quotes. Where a quote or a backslash stands in the value, a backslash is put before it.
pub fn push_quoted(text: &mut Vec<u8>, value: &[u8]) -> Result<(), NoMemory>
    ensures { OnOk result (text.new.items ≡ text.old.items ++ in_quotes value.now) }
{
    text.push(QUOTE)?;
    for byte in value {
        if *byte == QUOTE || *byte == BACKSLASH {
            text.push(BACKSLASH)?;
        }
        text.push(*byte)?;
    }
    text.push(QUOTE)?;
    Ok(())
}
