// Where in a head, a chunk line or a trailer the bytes so far end.
ghost use Rattle.std.specs.Prelude.{◌≡◌, ◌++◌, ◌∷◌, [], List, ℕ, ◌+◌, ◌<◌, ◌≤◌, length, take, drop, IfSome};
ghost use Rattle.httparse.specs.Grammar.{LineEnd, print_blank};
ghost use Rattle.fed_http.specs.Limits.{max_head};
ghost use Rattle.fed_http.specs.TextPlaces.{Follows, FollowsSize, FollowsPad, FollowsExtension, FollowsProtocol, FollowsVersion, FollowsCode, FollowsText, FollowsName, HasFew, IsLate, IsInMethod, IsInTargetFrom, IsHeadPlace, GoesOnTo};

use crate::limits::{MAX_FIELDS, MAX_HEAD};
use crate::message::Kind;
use crate::unfinished::{is_target_byte, is_token_byte, is_value_byte};

// The most digits of the size of a chunk: those of 64 bits, as `httparse` has it.
const MAX_SIZE_DIGITS: usize = 16;

/// Where in a head, in the line of a chunk or in a trailer its bytes so far end (RFC 9112, sections 2 to 5 and 7.1), so that what comes in
/// small pieces is parsed when it is whole, and not with each of them.
#[derive(Clone, Copy, PartialEq, Eq)]
pub enum TextPlace {
    /// In the empty lines in front, where a head begins.
    EmptyLines,
    /// Behind the CR of such a line.
    EmptyReturn,
    /// In the method of a request.
    Method,
    /// In the target of a request, which begins behind so many bytes.
    Target { start: usize },
    /// In the version, of which so many bytes were read.
    Version { read: usize },
    /// Behind the version.
    BehindVersion,
    /// In the status code of a reply, of which so many digits are missing; behind it where none is.
    Code { left: usize },
    /// In the value of a field or the reason phrase of a reply. With its line so many fields have ended.
    Text { fields: usize },
    /// Behind the CR of a line, with whose end so many fields have ended.
    LineReturn { fields: usize },
    /// At the beginning of a line behind so many fields. So a trailer begins.
    LineStart { fields: usize },
    /// In the name of a field. With its line so many fields have ended.
    Name { fields: usize },
    /// In the size of a chunk, of which so many digits were read. So a chunk line begins.
    Size { digits: usize },
    /// In the white space behind the size of a chunk.
    Pad,
    /// In the extension of a chunk.
    Extension,
    /// Behind the CR of a chunk line.
    ChunkReturn,
    /// Only the bytes themselves can tell.
    Unknown,
}

impl TextPlace {
    /// The place behind all these bytes of a head, if so many first ones of them end at this one.
    pub fn after(self, kind: Kind, bytes: &[u8], before: usize) -> TextPlace
        requires { before ≤ length bytes.now }
        ensures { IsHeadPlace kind (take before bytes.now) self → IsHeadPlace kind bytes.now result }
    {
        let mut place = self;
        for i in before..bytes.len() {
            place = place.behind(kind, &bytes[..i], bytes[i]);
        }
        place
    }

    /// The place behind more bytes of a chunk line or of a trailer.
    pub fn over(self, more: &[u8]) -> TextPlace
        ensures few { HasFew self → HasFew result }
        ensures late { IsLate self → IsLate result }
        ensures follows { (rest : List ℕ) (n : ℕ) → Follows Kind.Requests result rest n → Follows Kind.Requests self (more.now ++ rest) n }
    {
        let mut place = self;
        for byte in more {
            place = place.next(Kind::Requests, *byte);
        }
        place
    }

    /// The same, where that place tells that the chunk line or the trailer may end yet; `None` where it has to be parsed, of which so many
    /// bytes were there before. That is also so where these are at least as many: then a parse costs no more than they do.
    pub fn goes_on(self, before: usize, more: &[u8]) -> Option<TextPlace>
        requires { before ≤ max_head }
        ensures { IfSome result (GoesOnTo self before more.now) }
    {
        if more.len() >= before || before + more.len() >= MAX_HEAD {
            return None;
        }
        match self.over(more) {
            TextPlace::Unknown => None,
            place => Some(place),
        }
    }

    // The place behind one byte more than those before it.
    fn behind(self, kind: Kind, before: &[u8], byte: u8) -> TextPlace
        ensures { IsHeadPlace kind before.now self → IsHeadPlace kind (before.now ++ byte ∷ []) result }
    {
        match self {
            TextPlace::EmptyLines => in_empty_lines(kind, byte),
            TextPlace::EmptyReturn if byte == b'\n' => TextPlace::EmptyLines,
            TextPlace::Method => in_method(before, byte),
            TextPlace::Target { start } => match before.get(start..) {
                Some(target) => in_target(start, target, byte),
                None => TextPlace::Unknown,
            },
            _ => self.next(kind, byte),
        }
    }

    // The place behind one byte more of a version, a status code, a reason phrase, a field or a chunk line.
    fn next(self, kind: Kind, byte: u8) -> TextPlace
        ensures few { HasFew self → HasFew result }
        ensures late { IsLate result }
        ensures follows { (more : List ℕ) (n : ℕ) → Follows kind result more n → Follows kind self (byte ∷ more) n }
    {
        match self {
            TextPlace::Version { read } => in_version(read, byte),
            TextPlace::BehindVersion => behind_version(kind, byte),
            TextPlace::Code { left } => in_code(left, byte),
            TextPlace::Text { fields } => in_text(fields, byte),
            TextPlace::LineReturn { fields } if byte == b'\n' => line_start(fields),
            TextPlace::LineStart { fields } if fields <= MAX_FIELDS && is_token_byte(byte) => {
                TextPlace::Name { fields: fields + 1 }
            }
            TextPlace::Name { fields } => in_name(fields, byte),
            TextPlace::Size { digits } => in_size(digits, byte),
            TextPlace::Pad => in_pad(byte),
            TextPlace::Extension => in_extension(byte),
            _ => TextPlace::Unknown,
        }
    }
}

fn in_empty_lines(kind: Kind, byte: u8) -> TextPlace
    ensures { (bytes : List ℕ) (blank : List LineEnd) → bytes ≡ print_blank blank → IsHeadPlace kind (bytes ++ byte ∷ []) result }
{
    match kind {
        _ if byte == b'\n' => TextPlace::EmptyLines,
        _ if byte == b'\r' => TextPlace::EmptyReturn,
        Kind::Requests if is_token_byte(byte) => TextPlace::Method,
        Kind::Replies if byte == b'H' => TextPlace::Version { read: 1 },
        _ => TextPlace::Unknown,
    }
}

// Behind these bytes, which end in a method.
fn in_method(before: &[u8], byte: u8) -> TextPlace
    ensures { IsInMethod before.now → IsHeadPlace Kind.Requests (before.now ++ byte ∷ []) result }
{
    if byte == b' ' {
        return TextPlace::Target {
            start: before.len() + 1,
        };
    }
    if is_token_byte(byte) {
        TextPlace::Method
    } else {
        TextPlace::Unknown
    }
}

// Behind these bytes of a target, which begins behind so many.
fn in_target(start: usize, target: &[u8], byte: u8) -> TextPlace
    ensures { (bytes : List ℕ) → IsInTargetFrom start bytes → target.now ≡ drop start bytes → IsHeadPlace Kind.Requests (bytes ++ byte ∷ []) result }
{
    if is_target_byte(byte) {
        return TextPlace::Target { start };
    }
    if byte == b' ' && !target.is_empty() && std::str::from_utf8(target).is_ok() {
        TextPlace::Version { read: 0 }
    } else {
        TextPlace::Unknown
    }
}

fn in_version(read: usize, byte: u8) -> TextPlace
    ensures few { HasFew result }
    ensures late { IsLate result }
    ensures follows { (kind : Kind) (more : List ℕ) (n : ℕ) → Follows kind result more n → FollowsProtocol kind read (byte ∷ more) n }
{
    let name = b"HTTP/1.";
    if read < name.len() && byte == name[read] {
        return TextPlace::Version { read: read + 1 };
    }
    if read == name.len() && (byte == b'0' || byte == b'1') {
        TextPlace::BehindVersion
    } else {
        TextPlace::Unknown
    }
}

fn behind_version(kind: Kind, byte: u8) -> TextPlace
    ensures few { HasFew result }
    ensures late { IsLate result }
    ensures follows { (more : List ℕ) (n : ℕ) → Follows kind result more n → FollowsVersion kind (byte ∷ more) n }
{
    match kind {
        Kind::Requests if byte == b'\n' => TextPlace::LineStart { fields: 0 },
        Kind::Requests if byte == b'\r' => TextPlace::LineReturn { fields: 0 },
        Kind::Replies if byte == b' ' => TextPlace::Code { left: 3 },
        _ => TextPlace::Unknown,
    }
}

fn in_code(left: usize, byte: u8) -> TextPlace
    ensures few { HasFew result }
    ensures late { IsLate result }
    ensures follows { (kind : Kind) (more : List ℕ) (n : ℕ) → Follows kind result more n → FollowsCode left (byte ∷ more) n }
{
    if left > 0 {
        return if byte.is_ascii_digit() {
            TextPlace::Code { left: left - 1 }
        } else {
            TextPlace::Unknown
        };
    }
    match byte {
        b' ' => TextPlace::Text { fields: 0 },
        b'\r' => TextPlace::LineReturn { fields: 0 },
        b'\n' => TextPlace::LineStart { fields: 0 },
        _ => TextPlace::Unknown,
    }
}

fn in_name(fields: usize, byte: u8) -> TextPlace
    ensures few { HasFew (TextPlace.Name fields) → HasFew result }
    ensures late { IsLate result }
    ensures follows { (kind : Kind) (more : List ℕ) (n : ℕ) → Follows kind result more n → FollowsName fields (byte ∷ more) n }
{
    if byte == b':' {
        return TextPlace::Text { fields };
    }
    if is_token_byte(byte) {
        TextPlace::Name { fields }
    } else {
        TextPlace::Unknown
    }
}

fn in_text(fields: usize, byte: u8) -> TextPlace
    ensures few { HasFew (TextPlace.Text fields) → HasFew result }
    ensures late { IsLate result }
    ensures follows { (kind : Kind) (more : List ℕ) (n : ℕ) → Follows kind result more n → FollowsText fields (byte ∷ more) n }
{
    match byte {
        b'\r' => TextPlace::LineReturn { fields },
        b'\n' => line_start(fields),
        _ if is_value_byte(byte) => TextPlace::Text { fields },
        _ => TextPlace::Unknown,
    }
}

// The beginning of a line behind so many fields, if a head may have so many.
fn line_start(fields: usize) -> TextPlace
    ensures few { HasFew result }
    ensures late { IsLate result }
    ensures follows { (kind : Kind) (more : List ℕ) (n : ℕ) → Follows kind result more n → Follows kind (TextPlace.LineStart fields) more n }
{
    if fields <= MAX_FIELDS {
        TextPlace::LineStart { fields }
    } else {
        TextPlace::Unknown
    }
}

fn in_size(digits: usize, byte: u8) -> TextPlace
    ensures few { HasFew result }
    ensures late { IsLate result }
    ensures follows { (kind : Kind) (more : List ℕ) (n : ℕ) → Follows kind result more n → FollowsSize digits (byte ∷ more) }
{
    if digits < MAX_SIZE_DIGITS && byte.is_ascii_hexdigit() {
        return TextPlace::Size { digits: digits + 1 };
    }
    if digits > 0 && digits <= MAX_SIZE_DIGITS {
        in_pad(byte)
    } else {
        TextPlace::Unknown
    }
}

fn in_pad(byte: u8) -> TextPlace
    ensures few { HasFew result }
    ensures late { IsLate result }
    ensures follows { (kind : Kind) (more : List ℕ) (n : ℕ) → Follows kind result more n → FollowsPad (byte ∷ more) }
{
    match byte {
        b' ' => TextPlace::Pad,
        b'\t' => TextPlace::Pad,
        b';' => TextPlace::Extension,
        b'\r' => TextPlace::ChunkReturn,
        _ => TextPlace::Unknown,
    }
}

fn in_extension(byte: u8) -> TextPlace
    ensures few { HasFew result }
    ensures late { IsLate result }
    ensures follows { (kind : Kind) (more : List ℕ) (n : ℕ) → Follows kind result more n → FollowsExtension (byte ∷ more) }
{
    if byte == b'\r' {
        return TextPlace::ChunkReturn;
    }
    if byte == b'\n' {
        TextPlace::Unknown
    } else {
        TextPlace::Extension
    }
}
