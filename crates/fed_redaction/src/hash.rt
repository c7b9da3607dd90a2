// The content hash of an event.
ghost use Rattle.std.specs.Prelude.{◌≡◌, not, IfOk, string_bytes, option_map};
ghost use Rattle.serde_json.specs.Data.{object};
ghost use Rattle.fed_json.specs.CanonicalText.{canonical_text};
ghost use Rattle.fed_json.specs.Members.{members_left};
ghost use Rattle.fed_redaction.specs.Names.{is_one_of, members_of};
ghost use Rattle.fed_redaction.specs.TextsParts.{covered_members};
ghost use Rattle.fed_redaction.specs.ContentHash.{uncovered_keys, covered_text_of, hash_of_covered, content_hash_of, given_hash_of, hash_fits_of};

use crate::object_text::{ObjectText, USUAL_LENGTH};
use base64::engine::general_purpose::STANDARD_NO_PAD;
use fed_json::{Json, Members, NoMemory, canonical};
use sha2::{Digest, Sha256};
use std::alloc::Global;

// The length of a SHA-256 in base64, without padding.
const HASH_LENGTH: usize = 43;

/// The content hash of an event (Server-Server API, "Calculating the content hash for an event"): the unpadded base64 of the SHA-256
/// of the canonical text of the event without its top-level `unsigned`, `signatures` and `hashes`. A value that is no event has one
/// too, and one that is no object is hashed as it is.
pub fn content_hash(alloc: Global, event: &Json) -> Result<String, NoMemory>
    ensures { IfOk result (λ hash. string_bytes hash ≡ content_hash_of event.now) }
{
    let hash = Sha256::digest(&covered_text(alloc, event)?);
    STANDARD_NO_PAD.encode(alloc, &hash)
}

/// The text that the content hash of an event covers: its canonical text without `unsigned`, `signatures` and `hashes`. A value that is no
/// object is written as it is.
pub fn covered_text(alloc: Global, event: &Json) -> Result<Vec<u8>, NoMemory>
    ensures { IfOk result (λ text. text.items ≡ covered_text_of event.now) }
{
    match event.members() {
        Some(members) => covered_object(alloc, members),
        None => canonical(alloc, event),
    }
}

// What the content hash covers of an event of these members.
fn covered_object(alloc: Global, members: Members<'_>) -> Result<Vec<u8>, NoMemory>
    ensures { let covered = covered_members (members_of (members_left members.entry)) in
        IfOk result (λ text. text.items ≡ canonical_text (object covered)) }
{
    let mut covered = ObjectText::begin(Vec::with_capacity(alloc, USUAL_LENGTH)?)?;
    for (name, value) in members {
        if is_covered(name) {
            covered.add(alloc, name, value)?;
        }
    }
    covered.end()
}

/// Whether the hash that an event gives at `hashes.sha256` is its content hash, where `covered` is the text that the hash covers, for a
/// caller that has that text. It is computed only where one is given, and takes no memory.
pub fn hash_fits(event: &Json, covered: &[u8]) -> bool
    requires { covered.now ≡ covered_text_of event.now }
    ensures { result ≡ hash_fits_of event.now }
{
    match given_hash(event) {
        Some(given) => hash_of(covered).as_slice() == given.as_bytes(),
        None => false,
    }
}

// The content hash of an event of which it covers this text.
fn hash_of(covered: &[u8]) -> [u8; HASH_LENGTH]
    ensures { result ≡ hash_of_covered covered.now }
{
    let mut hash = [0; HASH_LENGTH];
    match STANDARD_NO_PAD.encode_slice(&Sha256::digest(covered), &mut hash) {
        Ok(_) => hash,
        Err(_) => unreachable!(),
    }
}

// The hash that an event gives, where there is one that is a text.
fn given_hash(event: &Json) -> Option<&str>
    ensures { option_map (λ s. s.now) result ≡ given_hash_of event.now }
{
    event.member("hashes")?.member("sha256")?.text()
}

// Whether the hash covers the top-level key.
pub(crate) fn is_covered(name: &str) -> bool
    ensures { result ≡ not (is_one_of uncovered_keys name.now) }
{
    !matches!(name, "hashes" | "signatures" | "unsigned")
}
