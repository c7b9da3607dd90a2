// Runs of characters at the front of a text.
ghost use Rattle.std.specs.Prelude.{◌≡◌, ◌==◌};
ghost use Rattle.std.specs.List.{prefix_len};
ghost use Rattle.fed_http.specs.XMatrix.{is_delimiter, is_plain, is_white};

/// How many spaces stand in front.
pub fn space_run(text: &str) -> usize
    ensures { result ≡ prefix_len (λ c. c == 32) text.now }
{
    text.bytes().take_while(|byte| *byte == b' ').count()
}

/// How many spaces and tabs stand in front.
pub fn white_run(text: &str) -> usize
    ensures { result ≡ prefix_len is_white text.now }
{
    text.bytes().take_while(|byte| is_white(*byte)).count()
}

/// How many characters stand in front of the first that ends a value without quotes.
pub fn plain_run(text: &str) -> usize
    ensures { result ≡ prefix_len is_plain text.now }
{
    text.bytes().take_while(|byte| !is_delimiter(*byte)).count()
}

/// Whether a character ends a value without quotes: a comma, a space, a tab or a quote.
pub fn is_delimiter(byte: u8) -> bool
    ensures { result ≡ is_delimiter byte }
{
    byte == b',' || is_white(byte) || byte == b'"'
}

fn is_white(byte: u8) -> bool
    ensures { result ≡ is_white byte }
{
    byte == b' ' || byte == b'\t'
}
