// From the body of a reply to its verdicts.
ghost use Rattle.std.specs.Prelude.{◌≡◌, codes, option_map, option_and_then, IfOk, OnOk};
ghost use Rattle.std.specs.Result.{MatchResult};
ghost use Rattle.std.specs.FinMap as map;
ghost use Rattle.serde_json.specs.Find.{get};
ghost use Rattle.fed_json.specs.JsonRef.{seen, as_members};
ghost use Rattle.fed_json.specs.Members.{members_left};
ghost use Rattle.fed_txn.specs.Verdicts.{VerdictMap, with_verdict};
ghost use Rattle.fed_txn.specs.ReplyReading.{verdict_in, IsReply};
ghost use Rattle.fed_txn.specs.ReplyReadingParts.{with_verdicts_in, IsOf};

use crate::reply_fault::ReplyFault;
use crate::verdicts::Verdicts;
use fed_json::{Json, JsonRef, MAX_LEVELS, Members, NoMemory, read_within};
use std::alloc::Global;

/// What a reply to a transaction says of its events (Server-Server API, "Transactions": the response of `PUT /send/{txnId}`): its
/// `pdus` is an object that has under each event id an object; an `error` in this is a text, and where there is none the event was
/// taken. Members of other names are not looked at. Of a key that an object names twice the last value counts.
///
/// # Errors
///
/// `NotReply` where the bytes are no such reply: no JSON text of at most 127 levels whose numbers are all whole, from -(2^53)+1 to
/// 2^53-1, or one in which a part is missing or of another kind. `Memory` where memory ran out.
pub fn read_reply(alloc: Global, bytes: &[u8]) -> Result<Verdicts, ReplyFault>
    ensures ok { IfOk result (λ verdicts. IsReply bytes.now verdicts) }
    ensures only { (verdicts : VerdictMap) → IsReply bytes.now verdicts
        → MatchResult result (λ read. read ≡ verdicts) (λ fault. fault ≡ ReplyFault.Memory) }
{
    let reply = read_within(alloc, bytes, MAX_LEVELS)?;
    let pdus = pdus_of(&reply).ok_or(ReplyFault::NotReply)?;
    verdicts_of(alloc, pdus)
}

// The members of `pdus`.
fn pdus_of(reply: &Json) -> Option<Members<'_>>
    ensures { option_map members_left result ≡ option_and_then as_members (get (codes "pdus") reply.now) }
{
    reply.member("pdus")?.members()
}

// The verdicts of all members.
fn verdicts_of(alloc: Global, members: Members<'_>) -> Result<Verdicts, ReplyFault>
    ensures { IsOf (with_verdicts_in map.empty (members_left members.entry)) result }
{
    let mut verdicts = Verdicts::new(alloc);
    for (id, value) in members {
        let error = verdict_of(value).ok_or(ReplyFault::NotReply)?;
        enter(alloc, &mut verdicts, id, error)?;
    }
    Ok(verdicts)
}

// What a member says of its event.
fn verdict_of(value: JsonRef<'_>) -> Option<Option<&str>>
    ensures { option_map (option_map (λ s. s.now)) result ≡ verdict_in (seen value.entry) }
{
    if !value.is_object() {
        return None;
    }
    match value.member("error") {
        Some(error) => Some(Some(error.text()?)),
        None => Some(None),
    }
}

// Enters a copy of a verdict.
fn enter(
    alloc: Global,
    verdicts: &mut Verdicts,
    id: &str,
    error: Option<&str>,
) -> Result<(), NoMemory>
    ensures { OnOk result (verdicts.new ≡ with_verdict verdicts.old id.now (option_map (λ s. s.now) error.entry)) }
{
    let error = match error {
        Some(text) => Some(String::from_str(alloc, text)?),
        None => None,
    };
    verdicts.insert(String::from_str(alloc, id)?, error)
}
