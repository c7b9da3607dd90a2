//! Texts made of a JSON value: the canonical one, what redaction leaves of an event, what is signed of it, its id and its content hash.
ghost use Rattle.std.specs.Prelude.{◌≡◌, ◌≢◌, Ok, Err, IfOk, IfErr, if◌then◌else◌};
ghost use Rattle.fed_json.specs.CanonicalText.{canonical_text};
ghost use Rattle.fed_redaction.specs.ContentHash.{content_hash_of};
ghost use Rattle.fed_c.specs.Output.{Gives, IsRefused, Returns};
ghost use Rattle.fed_c.specs.RoomVersion.{by_version, version_in};
ghost use Rattle.fed_c.specs.Texts.{of_value, redaction_text, signed_text_in, event_id_in, hash_status};
ghost use Rattle.fed_c.specs.Status.{number_of};
ghost use Rattle.fed_c.specs.Values.{value_within, value_of};
ghost use Rattle.fed_c.specs.declared.status.Status.TheVariants.{Memory, BadVersion};

use crate::output::{Answer, give};
use crate::room_version::room_version;
use crate::status::Status;
use crate::values::{shallow_value, value};
use fed_redaction::{Version, covered_text, redact};
use std::alloc::Global;

/// The canonical text of the value of a JSON text that nests at most `levels` deep (appendix "Canonical JSON").
///
/// Returns the first of `NotJson`, `NotCanonical` and `TooDeep` that is so.
#[unsafe(no_mangle)]
pub extern "C" fn wikzord_canonical(
    alloc: Global,
    text: &[u8],
    levels: usize,
    out: &mut [u8],
    needed: &mut usize,
) -> u32
    ensures { Gives (of_value canonical_text (value_within levels text.now)) result
        (record { before = out.old; after = out.new; told_before = needed.old; told = needed.new }) }
{
    give(canonical(alloc, text, levels), out, needed)
}

fn canonical(alloc: Global, text: &[u8], levels: usize) -> Answer
    ensures ok { IfOk result (λ bytes. of_value canonical_text (value_within levels text.now) ≡ Ok bytes.items) }
    ensures fault { IfErr result (λ status. status ≢ Memory → of_value canonical_text (value_within levels text.now) ≡ Err status) }
{
    let json = shallow_value(alloc, text, levels)?;
    Ok(fed_json::canonical(alloc, &json)?)
}

/// The canonical text of what redaction leaves of an event in a room of this version (room versions 10 and 11, "Redactions"). A value need not be
/// an event to have one.
///
/// Returns `BadVersion` where `version` is neither 10 nor 11, for which it needs no memory; then `NotJson` or `NotCanonical` where the text has no
/// value.
#[unsafe(no_mangle)]
pub extern "C" fn wikzord_redaction(
    alloc: Global,
    version: u32,
    text: &[u8],
    out: &mut [u8],
    needed: &mut usize,
) -> u32
    ensures gives { Gives (by_version version (λ v. of_value (redaction_text v) (value_of text.now))) result
        (record { before = out.old; after = out.new; told_before = needed.old; told = needed.new }) }
    ensures refuses { version_in version ≡ Err BadVersion
        → IsRefused BadVersion result (record { before = out.old; after = out.new; told_before = needed.old; told = needed.new }) }
    ensures only { result ≡ number_of BadVersion → version_in version ≡ Err BadVersion }
{
    give(redaction(alloc, version, text), out, needed)
}

fn redaction(alloc: Global, version: u32, text: &[u8]) -> Answer
    ensures ok { IfOk result (λ bytes. by_version version (λ v. of_value (redaction_text v) (value_of text.now)) ≡ Ok bytes.items) }
    ensures fault { IfErr result (λ status. status ≢ Memory → by_version version (λ v. of_value (redaction_text v) (value_of text.now)) ≡ Err status) }
    ensures refuses { version_in version ≡ Err BadVersion → result ≡ Err BadVersion }
{
    let version = room_version(version)?;
    let event = value(alloc, text)?;
    let redaction = redact(alloc, version, &event)?;
    Ok(fed_json::canonical(alloc, &redaction)?)
}

/// The bytes of an event that its servers sign in a room of this version (Server-Server API, "Signing Events"). A value need not be an event to have
/// them.
///
/// Returns `BadVersion` where `version` is neither 10 nor 11, for which it needs no memory; then `NotJson` or `NotCanonical` where the text has no
/// value.
#[unsafe(no_mangle)]
pub extern "C" fn wikzord_signed_text(
    alloc: Global,
    version: u32,
    text: &[u8],
    out: &mut [u8],
    needed: &mut usize,
) -> u32
    ensures gives { Gives (by_version version (λ v. of_value (signed_text_in v) (value_of text.now))) result
        (record { before = out.old; after = out.new; told_before = needed.old; told = needed.new }) }
    ensures refuses { version_in version ≡ Err BadVersion
        → IsRefused BadVersion result (record { before = out.old; after = out.new; told_before = needed.old; told = needed.new }) }
    ensures only { result ≡ number_of BadVersion → version_in version ≡ Err BadVersion }
{
    give(signed_text(alloc, version, text), out, needed)
}

fn signed_text(alloc: Global, version: u32, text: &[u8]) -> Answer
    ensures ok { IfOk result (λ bytes. by_version version (λ v. of_value (signed_text_in v) (value_of text.now)) ≡ Ok bytes.items) }
    ensures fault { IfErr result (λ status. status ≢ Memory → by_version version (λ v. of_value (signed_text_in v) (value_of text.now)) ≡ Err status) }
    ensures refuses { version_in version ≡ Err BadVersion → result ≡ Err BadVersion }
{
    let version = room_version(version)?;
    let event = value(alloc, text)?;
    Ok(fed_redaction::signed_text(alloc, version, &event)?)
}

/// The id of an event in a room of this version (room version 4, "Event IDs"): 44 bytes. A value need not be an event to have one.
///
/// Returns `BadVersion` where `version` is neither 10 nor 11, for which it needs no memory; then `NotJson` or `NotCanonical` where the text has no
/// value.
#[unsafe(no_mangle)]
pub extern "C" fn wikzord_event_id(
    alloc: Global,
    version: u32,
    text: &[u8],
    out: &mut [u8],
    needed: &mut usize,
) -> u32
    ensures gives { Gives (by_version version (λ v. of_value (event_id_in v) (value_of text.now))) result
        (record { before = out.old; after = out.new; told_before = needed.old; told = needed.new }) }
    ensures refuses { version_in version ≡ Err BadVersion
        → IsRefused BadVersion result (record { before = out.old; after = out.new; told_before = needed.old; told = needed.new }) }
    ensures only { result ≡ number_of BadVersion → version_in version ≡ Err BadVersion }
{
    give(event_id(alloc, version, text), out, needed)
}

fn event_id(alloc: Global, version: u32, text: &[u8]) -> Answer
    ensures ok { IfOk result (λ bytes. by_version version (λ v. of_value (event_id_in v) (value_of text.now)) ≡ Ok bytes.items) }
    ensures fault { IfErr result (λ status. status ≢ Memory → by_version version (λ v. of_value (event_id_in v) (value_of text.now)) ≡ Err status) }
    ensures refuses { version_in version ≡ Err BadVersion → result ≡ Err BadVersion }
{
    let version = room_version(version)?;
    event_id_in(alloc, version, text)
}

/// The id of the event of a text, in a room of this version.
///
/// # Errors
///
/// `NotJson` and `NotCanonical`. `Memory` where memory ran out.
pub(crate) fn event_id_in(alloc: Global, version: Version, text: &[u8]) -> Answer
    ensures ok { IfOk result (λ bytes. of_value (event_id_in version) (value_of text.now) ≡ Ok bytes.items) }
    ensures fault { IfErr result (λ status. status ≢ Memory → of_value (event_id_in version) (value_of text.now) ≡ Err status) }
{
    let event = value(alloc, text)?;
    let id = fed_redaction::event_id(alloc, version, &event)?;
    Ok(id.into_string().into_bytes())
}

/// The content hash of an event (Server-Server API, "Calculating the content hash for an event"): 43 bytes of base64. A value need not be
/// an event to have one.
///
/// Returns `NotJson` or `NotCanonical` where the text has no value.
#[unsafe(no_mangle)]
pub extern "C" fn wikzord_content_hash(
    alloc: Global,
    text: &[u8],
    out: &mut [u8],
    needed: &mut usize,
) -> u32
    ensures { Gives (of_value content_hash_of (value_of text.now)) result
        (record { before = out.old; after = out.new; told_before = needed.old; told = needed.new }) }
{
    give(content_hash(alloc, text), out, needed)
}

/// The content hash of the event of a text.
///
/// # Errors
///
/// `NotJson` and `NotCanonical`. `Memory` where memory ran out.
pub(crate) fn content_hash(alloc: Global, text: &[u8]) -> Answer
    ensures ok { IfOk result (λ bytes. of_value content_hash_of (value_of text.now) ≡ Ok bytes.items) }
    ensures fault { IfErr result (λ status. status ≢ Memory → of_value content_hash_of (value_of text.now) ≡ Err status) }
{
    let event = value(alloc, text)?;
    let hash = fed_redaction::content_hash(alloc, &event)?;
    Ok(hash.into_bytes())
}

/// Whether the hash that an event gives at `hashes.sha256` is its content hash.
///
/// Returns `Done` where it is, and `HashDiffers` where it is another or there is none; `NotJson` or `NotCanonical` where the text has no
/// value.
#[unsafe(no_mangle)]
pub extern "C" fn wikzord_hash_fits(alloc: Global, text: &[u8]) -> u32
    ensures { Returns (hash_status (value_of text.now)) result }
{
    match hash_fits(alloc, text) {
        Ok(true) => Status::Done.number(),
        Ok(false) => Status::HashDiffers.number(),
        Err(status) => status.number(),
    }
}

fn hash_fits(alloc: Global, text: &[u8]) -> Result<bool, Status>
    ensures ok { IfOk result (λ fits. hash_status (value_of text.now) ≡ (if fits then Status.Done else Status.HashDiffers)) }
    ensures fault { IfErr result (λ status. status ≢ Memory → hash_status (value_of text.now) ≡ status) }
{
    let event = value(alloc, text)?;
    let covered = covered_text(alloc, &event)?;
    Ok(fed_redaction::hash_fits(&event, &covered))
}
