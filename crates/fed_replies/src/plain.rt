// Replies of which nothing is escaped, read where they lie.
ghost use Rattle.std.specs.Prelude.{◌≡◌, ℕ, ◌<◌, ◌≤◌, ◌∷◌, ◌++◌, true, codes, length, option_map, slice_index, IfSome};
ghost use Rattle.fed_json.specs.CanonicalText.{comma};
ghost use Rattle.fed_replies.specs.Plain.{IsPlain, IsPlainByte};
ghost use Rattle.fed_replies.specs.ReplyText.{IsPlainError, comes_after, member_text, verdict_text};

/// How many bytes an id has that is a hash.
const ID_LENGTH: usize = 44;

/// A verdict that stands in a reply, and what stands behind it.
#[derive(Clone, Copy)]
pub(crate) struct Member<'a> {
    pub(crate) id: &'a [u8],
    pub(crate) error: Option<&'a str>,
    pub(crate) rest: &'a [u8],
}

/// The verdict at the front, behind a comma where it is a later one. Its id comes after the last one and has the length of a hash's, and
/// its error's text is plain, where it has one.
pub(crate) fn read_member<'a>(text: &'a [u8], later: bool, last: &[u8]) -> Option<Member<'a>>
    ensures after { IfSome result (λ member. comes_after last.now member.id.now ≡ true) }
    ensures plain { IfSome result (λ member. IsPlainError (option_map (λ s. s.now) member.error)) }
    ensures text { IfSome result (λ member. IsPlain member.id.now
        → text.now ≡ member_text later (member.id.now, option_map (λ s. s.now) member.error) ++ member.rest.now) }
    ensures shorter { IfSome result (λ member. length member.rest.now < length text.now) }
{
    let (id, text) = read_id(behind_comma(text, later)?)?;
    if !last.cmp(&id).is_lt() {
        return None;
    }
    let (error, rest) = read_verdict(text)?;
    Some(Member { id, error, rest })
}

// What stands behind the comma, where there is to be one.
fn behind_comma(text: &[u8], later: bool) -> Option<&[u8]>
    ensures { IfSome result (λ rest. text.now ≡ comma later ++ rest.now) }
{
    if later {
        return behind_byte(text, b',');
    }
    Some(text)
}

// The id that stands in quotes at the front, and what stands behind its colon.
fn read_id(text: &[u8]) -> Option<(&[u8], &[u8])>
    ensures { IfSome result (λ read. text.now ≡ codes "\"" ++ (read.0.now ++ (codes "\":" ++ read.1.now))) }
{
    let text = behind_byte(text, b'"')?;
    let (id, text) = text.split_at_checked(ID_LENGTH)?;
    let text = behind_byte(behind_byte(text, b'"')?, b':')?;
    Some((id, text))
}

// The verdict at the front, which has no error or one of plain text, and what stands behind it.
fn read_verdict(text: &[u8]) -> Option<(Option<&str>, &[u8])>
    ensures plain { IfSome result (λ read. IsPlainError (option_map (λ s. s.now) read.0)) }
    ensures text { IfSome result (λ read. text.now ≡ verdict_text (option_map (λ s. s.now) read.0) ++ read.1.now) }
{
    if let Some(rest) = behind_braces(text) {
        return Some((None, rest));
    }
    let (error, rest) = read_plain(behind(text, b"{\"error\":\"")?)?;
    let rest = behind(rest, b"\"}")?;
    Some((Some(error), rest))
}

// What stands behind an object of no members.
fn behind_braces(text: &[u8]) -> Option<&[u8]>
    ensures { IfSome result (λ rest. text.now ≡ codes "{}" ++ rest.now) }
{
    behind_byte(behind_byte(text, b'{')?, b'}')
}

// The plain text at the front, and what stands behind it.
fn read_plain(text: &[u8]) -> Option<(&str, &[u8])>
    ensures plain { IfSome result (λ read. IsPlain read.0.now) }
    ensures text { IfSome result (λ read. text.now ≡ read.0.now ++ read.1.now) }
{
    let (plain, rest) = text.split_at(plain_length(text));
    let plain = std::str::from_utf8(plain).ok()?;
    Some((plain, rest))
}

/// How many bytes at the front are plain.
pub(crate) fn plain_length(text: &[u8]) -> usize
    ensures within { result ≤ length text.now }
    ensures plain { (k : ℕ) → k < result → IsPlainByte (slice_index text.now k) }
{
    for (place, byte) in text.iter().enumerate() {
        if *byte < 32 || *byte >= 127 || *byte == b'"' || *byte == b'\\' {
            return place;
        }
    }
    text.len()
}

// What stands behind a byte.
fn behind_byte(text: &[u8], byte: u8) -> Option<&[u8]>
    ensures { IfSome result (λ rest. text.now ≡ byte ∷ rest.now) }
{
    let (first, rest) = text.split_first()?;
    if *first != byte {
        return None;
    }
    Some(rest)
}

/// What stands behind a front.
pub(crate) fn behind<'a>(text: &'a [u8], front: &[u8]) -> Option<&'a [u8]>
    ensures { IfSome result (λ rest. text.now ≡ front.now ++ rest.now) }
{
    text.strip_prefix(front)
}
