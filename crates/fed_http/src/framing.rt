// How long a body is, as the fields of the head say it.
ghost use Rattle.std.specs.Prelude.{◌≡◌, ◌≤◌, length, map, All, true};
ghost use Rattle.std.specs.List.{list_all};
ghost use Rattle.std.specs.Char.{is_ascii_digit};
ghost use Rattle.std.specs.Str.Parse.{digits_value};
ghost use Rattle.httparse.specs.Spans.{IsHeaderWithin, header_bytes};
ghost use Rattle.fed_http.specs.Framing.{framing_of, values_of, length_of, coding_of};
ghost use Rattle.fed_http.specs.FramingParts.{AreValues, as_fixed};

use crate::limits::MAX_LENGTH_DIGITS;
use httparse::spans::HeaderSpan;

/// How the end of a body is found (RFC 9112, section 6.3).
#[derive(Clone, Copy, Debug, PartialEq, Eq)]
pub enum Framing {
    /// There is no body.
    NoBody,
    /// The body has so many bytes.
    Fixed(u64),
    /// The body comes in chunks (RFC 9112, section 7.1).
    Chunked,
}

// The values of the fields of one name.
#[derive(Clone, Copy)]
enum Values<'b> {
    Missing,
    One(&'b [u8]),
    Several,
}

/// The framing that the fields of a head give (RFC 9112, sections 6.1 to 6.3): one Content-Length of 1 to `MAX_LENGTH_DIGITS` digits, or
/// one Transfer-Encoding that is `chunked`, or neither. `None` where both are there, or one of them several times, or another value.
pub fn framing_of(bytes: &[u8], fields: &[HeaderSpan]) -> Option<Framing>
    requires within { All (IsHeaderWithin (length bytes.now)) fields.now }
    ensures framing { result ≡ framing_of (map (header_bytes bytes.now) fields.now) }
{
    let lengths = values_of(bytes, fields, b"content-length");
    let codings = values_of(bytes, fields, b"transfer-encoding");
    match (lengths, codings) {
        (Values::Missing, Values::Missing) => Some(Framing::NoBody),
        (Values::One(value), Values::Missing) => length_of(value).map(Framing::Fixed),
        (Values::Missing, Values::One(value)) => coding_of(value),
        _ => None,
    }
}

// The values of the fields of this name, in any case of letters.
fn values_of<'b>(bytes: &'b [u8], fields: &[HeaderSpan], name: &[u8]) -> Values<'b>
    requires within { All (IsHeaderWithin (length bytes.now)) fields.now }
    ensures values { AreValues result (values_of name.now (map (header_bytes bytes.now) fields.now)) }
{
    let mut found: Option<&'b [u8]> = None;
    for field in fields {
        if field.name.of(bytes).eq_ignore_ascii_case(name) {
            if found.is_some() {
                return Values::Several;
            }
            found = Some(field.value.of(bytes));
        }
    }
    match found {
        Some(value) => Values::One(value),
        None => Values::Missing,
    }
}

// The length that a value of Content-Length gives, if it is one.
fn length_of(value: &[u8]) -> Option<u64>
    ensures length { as_fixed result ≡ length_of value.now }
{
    if value.is_empty() || value.len() > MAX_LENGTH_DIGITS || !are_digits(value) {
        return None;
    }
    Some(number_of(value))
}

// The coding that a value of Transfer-Encoding gives, if it is the one that is read.
fn coding_of(value: &[u8]) -> Option<Framing>
    ensures coding { result ≡ coding_of value.now }
{
    if value.eq_ignore_ascii_case(b"chunked") {
        Some(Framing::Chunked)
    } else {
        None
    }
}

fn are_digits(value: &[u8]) -> bool
    ensures { result ≡ list_all is_ascii_digit value.now }
{
    value.iter().all(|b| b.is_ascii_digit())
}

// The number that digits write.
fn number_of(digits: &[u8]) -> u64
    requires few { length digits.now ≤ 19 }
    requires digits { list_all is_ascii_digit digits.now ≡ true }
    ensures number { result ≡ digits_value 10 digits.now }
{
    let mut number: u64 = 0;
    for digit in digits {
        number = number * 10 + (*digit - b'0') as u64;
    }
    number
}
