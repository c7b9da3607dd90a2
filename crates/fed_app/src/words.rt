// The parts of a line.
ghost use Rattle.std.specs.Prelude.{◌≡◌, ◌<◌, length, position, option_map, IfSome, MatchOption, true, false};
ghost use Rattle.fed_app.specs.Words.{is_space, is_word, words_of, first_word, later_words};
ghost use Rattle.fed_app.specs.WordsParts.{request_by};

/// A line of the form `<origin> <txnId> <body>`.
#[derive(Clone, Copy)]
pub(crate) struct Words<'a> {
    pub(crate) origin: &'a str,
    pub(crate) txn: &'a str,
    pub(crate) body: &'a [u8],
}

/// The parts of a line without its end. The first two spaces end the first two parts. None of the three is empty, and the first
/// two are UTF-8.
pub(crate) fn words_of(line: &[u8]) -> Option<Words<'_>>
    ensures { option_map request_by result ≡ words_of line.now }
{
    let (origin, rest) = split_at_space(line);
    let (txn, body) = split_at_space(rest);
    let origin = word_in(origin)?;
    let txn = word_in(txn)?;
    if body.is_empty() {
        return None;
    }
    Some(Words { origin, txn, body })
}

// The text that the bytes are, unless they are none or not UTF-8.
fn word_in(bytes: &[u8]) -> Option<&str>
    ensures { MatchOption result (is_word bytes.now ≡ false)
        (λ word. (word.now ≡ bytes.now) × (is_word bytes.now ≡ true)) }
{
    if bytes.is_empty() {
        return None;
    }
    std::str::from_utf8(bytes).ok()
}

// What stands before the first space, and what stands after it: all and nothing where there is none.
fn split_at_space(bytes: &[u8]) -> (&[u8], &[u8])
    ensures word { result.0.now ≡ first_word bytes.now }
    ensures rest { result.1.now ≡ later_words bytes.now }
{
    match space_in(bytes) {
        Some(place) => (&bytes[..place], &bytes[place + 1..]),
        None => (bytes, &[]),
    }
}

// Where the first space lies.
fn space_in(bytes: &[u8]) -> Option<usize>
    ensures place { result ≡ position is_space bytes.now }
    ensures within { IfSome result (λ place. place < length bytes.now) }
{
    bytes.iter().position(|byte| *byte == b' ')
}
