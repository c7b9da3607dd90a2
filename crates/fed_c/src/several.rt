//! What is made of several texts, one behind another.
ghost use Rattle.std.specs.Prelude.{◌≡◌, ◌≢◌, ℕ, Ok, Err, IfOk, IfErr, take, drop};
ghost use Rattle.fed_redaction.specs.ContentHash.{content_hash_of};
ghost use Rattle.fed_c.specs.Output.{Gives, IsRefused};
ghost use Rattle.fed_c.specs.RoomVersion.{by_version, version_in};
ghost use Rattle.fed_c.specs.Several.{cut, of_values};
ghost use Rattle.fed_c.specs.SeveralParts.{maker_of};
ghost use Rattle.fed_c.specs.Texts.{of_value, event_id_in};
ghost use Rattle.fed_c.specs.Status.{number_of};
ghost use Rattle.fed_c.specs.Values.{value_of};
ghost use Rattle.fed_c.specs.declared.status.Status.TheVariants.{Memory, BadVersion};

use crate::output::{Answer, give};
use crate::room_version::room_version;
use crate::texts::{content_hash, event_id_in};
use fed_redaction::Version;
use std::alloc::Global;

/// The ids of several events in a room of this version (room version 4, "Event IDs"): 44 bytes each, one behind another.
///
/// The events stand one behind another in `texts`, and `lens` has the length of each; one past the end stands for what is left.
///
/// Returns `BadVersion` where `version` is neither 10 nor 11, for which it needs no memory; then `NotJson` or `NotCanonical` where the first text that
/// has no value has none.
#[unsafe(no_mangle)]
pub extern "C" fn wikzord_event_ids(
    alloc: Global,
    version: u32,
    texts: &[u8],
    lens: &[usize],
    out: &mut [u8],
    needed: &mut usize,
) -> u32
    ensures gives { Gives (by_version version (λ v. of_values (event_id_in v) (cut texts.now lens.now))) result
        (record { before = out.old; after = out.new; told_before = needed.old; told = needed.new }) }
    ensures refuses { version_in version ≡ Err BadVersion
        → IsRefused BadVersion result (record { before = out.old; after = out.new; told_before = needed.old; told = needed.new }) }
    ensures only { result ≡ number_of BadVersion → version_in version ≡ Err BadVersion }
{
    give(event_ids(alloc, version, texts, lens), out, needed)
}

fn event_ids(alloc: Global, version: u32, texts: &[u8], lens: &[usize]) -> Answer
    ensures ok { IfOk result (λ bytes. by_version version (λ v. of_values (event_id_in v) (cut texts.now lens.now)) ≡ Ok bytes.items) }
    ensures fault { IfErr result (λ status. status ≢ Memory → by_version version (λ v. of_values (event_id_in v) (cut texts.now lens.now)) ≡ Err status) }
    ensures refuses { version_in version ≡ Err BadVersion → result ≡ Err BadVersion }
{
    let version = room_version(version)?;
    each(alloc, Made::EventId(version), texts, lens)
}

/// The content hashes of several events (Server-Server API, "Calculating the content hash for an event"): 43 bytes of base64 each, one behind
/// another.
///
/// The events stand one behind another in `texts`, and `lens` has the length of each; one past the end stands for what is left.
///
/// Returns `NotJson` or `NotCanonical` where the first text that has no value has none.
#[unsafe(no_mangle)]
pub extern "C" fn wikzord_content_hashes(
    alloc: Global,
    texts: &[u8],
    lens: &[usize],
    out: &mut [u8],
    needed: &mut usize,
) -> u32
    ensures { Gives (of_values content_hash_of (cut texts.now lens.now)) result
        (record { before = out.old; after = out.new; told_before = needed.old; told = needed.new }) }
{
    give(each(alloc, Made::ContentHash, texts, lens), out, needed)
}

/// What is made of a text.
#[derive(Clone, Copy)]
enum Made {
    EventId(Version),
    ContentHash,
}

impl Made {
    fn of(self, alloc: Global, text: &[u8]) -> Answer
        ensures ok { IfOk result (λ bytes. of_value (maker_of self) (value_of text.now) ≡ Ok bytes.items) }
        ensures fault { IfErr result (λ status. status ≢ Memory → of_value (maker_of self) (value_of text.now) ≡ Err status) }
    {
        match self {
            Made::EventId(version) => event_id_in(alloc, version, text),
            Made::ContentHash => content_hash(alloc, text),
        }
    }
}

// What is made of each text, one behind another.
fn each(alloc: Global, made: Made, texts: &[u8], lens: &[usize]) -> Answer
    ensures ok { IfOk result (λ bytes. of_values (maker_of made) (cut texts.now lens.now) ≡ Ok bytes.items) }
    ensures fault { IfErr result (λ status. status ≢ Memory → of_values (maker_of made) (cut texts.now lens.now) ≡ Err status) }
{
    let mut bytes = Vec::new(alloc);
    let mut left = texts;
    for len in lens {
        let (text, others) = cut_off(left, *len);
        bytes.extend_from_slice(&made.of(alloc, text)?)?;
        left = others;
    }
    Ok(bytes)
}

// The first bytes, so many or all, and the others.
fn cut_off(bytes: &[u8], len: usize) -> (&[u8], &[u8])
    ensures first { result.0.now ≡ take len bytes.now }
    ensures others { result.1.now ≡ drop len bytes.now }
{
    bytes.split_at(len.min(bytes.len()))
}
