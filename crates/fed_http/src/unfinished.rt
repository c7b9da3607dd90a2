// The lines of a head and of a trailer that have not ended.
ghost use Rattle.std.specs.Prelude.{◌≡◌, ◌≤◌, ◌++◌, ◌↔◌, IsTrue, List, length};
ghost use Rattle.std.specs.List.{list_all, prefix_len};
ghost use Rattle.httparse.specs.Grammar.{EndsInTarget, LineEnd, print_blank, is_uri_byte, is_token_byte, is_value_byte};
ghost use Rattle.fed_http.specs.Lines.{line_feeds, is_line_byte, head_lines, first_lines};
ghost use Rattle.fed_http.specs.LineParts.{LineEndAt, BeginsNoLine};

/// How many lines of a head have ended, its first line among them; the empty lines in front of it do not count.
pub fn head_lines(bytes: &[u8]) -> usize
    ensures { result ≡ head_lines bytes.now }
{
    line_feeds(&bytes[end_run(bytes)..])
}

// How many CR and LF stand in front.
fn end_run(bytes: &[u8]) -> usize
    ensures count { result ≡ prefix_len is_line_byte bytes.now }
    ensures within { result ≤ length bytes.now }
{
    bytes.iter().take_while(|byte| is_line_byte(**byte)).count()
}

/// How many lines end in bytes.
pub fn line_feeds(bytes: &[u8]) -> usize
    ensures { result ≡ line_feeds bytes.now }
{
    bytes.iter().filter(|byte| **byte == b'\n').count()
}

fn is_line_byte(byte: u8) -> bool
    ensures { result ≡ is_line_byte byte }
{
    byte == b'\r' || byte == b'\n'
}

/// So many first lines of bytes, and all bytes where there are no more. The last may have no end yet.
pub fn first_lines(bytes: &[u8], most: usize) -> &[u8]
    ensures { result.now ≡ first_lines bytes.now most }
{
    let mut left = most;
    for (i, byte) in bytes.iter().enumerate() {
        if left == 0 {
            return &bytes[..i];
        }
        if *byte == b'\n' {
            left -= 1;
        }
    }
    bytes
}

/// Whether bytes end inside the target of a request, behind its method and a space (RFC 9112, section 3). Only a whole target is tested to be
/// UTF-8.
pub fn ends_in_target(bytes: &[u8]) -> bool
    ensures { IsTrue result ↔ EndsInTarget bytes.now }
{
    let line = behind_empty_lines(bytes);
    let end = token_run(line);
    if end == 0 {
        return false;
    }
    if end == line.len() {
        return false;
    }
    if line[end] != b' ' {
        return false;
    }
    are_in_target(&line[end + 1..])
}

// The bytes behind the empty lines in front.
fn behind_empty_lines(bytes: &[u8]) -> &[u8]
    ensures front { (blank : List LineEnd) × (bytes.now ≡ print_blank blank ++ result.now) }
    ensures ended { BeginsNoLine result.now }
{
    let mut rest = bytes;
    loop {
        let len = line_end_len(rest);
        if len == 0 {
            return rest;
        }
        rest = &rest[len..];
    }
}

// How many bytes the line end in front has, and 0 where none is there.
fn line_end_len(bytes: &[u8]) -> usize
    ensures { LineEndAt bytes.now result }
{
    if bytes.is_empty() {
        return 0;
    }
    if bytes[0] == b'\n' {
        return 1;
    }
    if bytes.len() > 1 && bytes[0] == b'\r' && bytes[1] == b'\n' {
        2
    } else {
        0
    }
}

// How many bytes of a token stand in front.
fn token_run(bytes: &[u8]) -> usize
    ensures count { result ≡ prefix_len is_token_byte bytes.now }
    ensures within { result ≤ length bytes.now }
{
    bytes
        .iter()
        .take_while(|byte| is_token_byte(**byte))
        .count()
}

/// Whether it is a byte of a token (RFC 9110, section 5.6.2).
pub fn is_token_byte(byte: u8) -> bool
    ensures { result ≡ is_token_byte byte }
{
    byte.is_ascii_alphanumeric() || b"!#$%&'*+-.^_`|~".contains(&byte)
}

fn are_in_target(bytes: &[u8]) -> bool
    ensures { result ≡ list_all is_uri_byte bytes.now }
{
    bytes.iter().all(|byte| is_target_byte(*byte))
}

/// Whether `httparse` takes it as a byte of a target: neither a control byte nor a space.
pub fn is_target_byte(byte: u8) -> bool
    ensures { result ≡ is_uri_byte byte }
{
    byte > b' ' && byte != 0x7f
}

/// Whether it is a byte of a field's value, or of a reason phrase: no control byte but the tab (RFC 9110, section 5.5).
pub fn is_value_byte(byte: u8) -> bool
    ensures { result ≡ is_value_byte byte }
{
    byte == b'\t' || byte >= b' ' && byte != 0x7f
}
