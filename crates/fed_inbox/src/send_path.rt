// The target of a request that sends a transaction.
ghost use Rattle.std.specs.Prelude.{◌≡◌, ◌<◌, length, option_map, string_bytes, position, None, Ok, IfOk, IfSome};
ghost use Rattle.fed_inbox.specs.SendPath.{txn_of, path_of, segment_of, decoded, is_question_mark, is_slash};
ghost use Rattle.std.specs.List.{list_any};

use fed_json::NoMemory;
use percent_encoding::percent_decode;
use std::alloc::Global;

/// The transaction id in the target of a request: the one segment behind `/_matrix/federation/v1/send/`, decoded (RFC 3986, section
/// 2.1). A query behind `?` is not looked at. It is `None` where the path is another one, the segment is empty, or what it decodes to is
/// not UTF-8. That the path is another one, or the segment empty, is told without memory.
pub fn txn_of(alloc: Global, target: &str) -> Result<Option<String>, NoMemory>
    ensures txn { IfOk result (λ txn. option_map string_bytes txn ≡ txn_of target.now) }
    ensures no_path { segment_of (path_of target.now) ≡ None → result ≡ Ok None }
{
    match segment_of(path_of(target.as_bytes())) {
        Some(segment) => decoded(alloc, segment),
        None => Ok(None),
    }
}

// What stands before the query.
fn path_of(target: &[u8]) -> &[u8]
    ensures { result.now ≡ path_of target.now }
{
    match question_mark_in(target) {
        Some(place) => &target[..place],
        None => target,
    }
}

// Where the first question mark lies.
fn question_mark_in(target: &[u8]) -> Option<usize>
    ensures place { result ≡ position is_question_mark target.now }
    ensures within { IfSome result (λ place. place < length target.now) }
{
    target.iter().position(|byte| *byte == b'?')
}

// The one segment behind the path of transactions.
fn segment_of(path: &[u8]) -> Option<&[u8]>
    ensures { option_map (λ s. s.now) result ≡ segment_of path.now }
{
    let segment = path.strip_prefix(b"/_matrix/federation/v1/send/")?;
    if segment.is_empty() || has_slash(segment) {
        return None;
    }
    Some(segment)
}

fn has_slash(segment: &[u8]) -> bool
    ensures { result ≡ list_any is_slash segment.now }
{
    segment.iter().any(|byte| *byte == b'/')
}

// The text that a segment decodes to, where it is one.
fn decoded(alloc: Global, segment: &[u8]) -> Result<Option<String>, NoMemory>
    ensures { IfOk result (λ text. option_map string_bytes text ≡ decoded segment.now) }
{
    let mut bytes = Vec::new(alloc);
    percent_decode(segment).append_to(&mut bytes)?;
    Ok(String::from_utf8(bytes).ok())
}
