//! The body of the reply to a transaction.
ghost use Rattle.std.specs.Prelude.{◌≡◌, ◌≢◌, Ok, Err, IfOk, IfErr, OnOk, option_map};
ghost use Rattle.fed_json.specs.JsonRef.{seen};
ghost use Rattle.fed_json.specs.Members.{members_left};
ghost use Rattle.fed_txn.specs.Verdicts.{with_verdict};
ghost use Rattle.fed_c.specs.Output.{Gives};
ghost use Rattle.fed_c.specs.Replies.{reply_answer, verdict_in, verdicts_in, verdicts_of};
ghost use Rattle.fed_c.specs.ReplyParts.{IsOf};
ghost use Rattle.fed_c.specs.Values.{value_of};
ghost use Rattle.fed_c.specs.declared.status.Status.TheVariants.{Memory};

use crate::output::{Answer, give};
use crate::status::Status;
use crate::values::value;
use fed_json::{Json, JsonRef, Members, NoMemory};
use fed_txn::{Verdicts, write_reply};
use std::alloc::Global;

/// The body of the reply to a transaction (Server-Server API, "Transactions"). The verdicts are a JSON object that has under the id of each
/// event a text: that of the error with which the event was refused, or an empty one where it was taken.
///
/// Returns `NotJson` or `NotCanonical` where the verdicts have no value, and `BadVerdicts` where this is no such object.
#[unsafe(no_mangle)]
pub extern "C" fn wikzord_reply(
    alloc: Global,
    verdicts: &[u8],
    out: &mut [u8],
    needed: &mut usize,
) -> u32
    ensures { Gives (reply_answer (value_of verdicts.now)) result
        (record { before = out.old; after = out.new; told_before = needed.old; told = needed.new }) }
{
    give(reply(alloc, verdicts), out, needed)
}

fn reply(alloc: Global, verdicts: &[u8]) -> Answer
    ensures ok { IfOk result (λ bytes. reply_answer (value_of verdicts.now) ≡ Ok bytes.items) }
    ensures fault { IfErr result (λ status. status ≢ Memory → reply_answer (value_of verdicts.now) ≡ Err status) }
{
    let json = value(alloc, verdicts)?;
    let verdicts = verdicts_in(alloc, &json)?;
    Ok(write_reply(alloc, &verdicts)?)
}

// The verdicts of an object.
fn verdicts_in(alloc: Global, json: &Json) -> Result<Verdicts, Status>
    ensures { IsOf (verdicts_in json.now) result }
{
    match json.members() {
        Some(members) => verdicts_of(alloc, members),
        None => Err(Status::BadVerdicts),
    }
}

// The verdicts of all members.
fn verdicts_of(alloc: Global, members: Members<'_>) -> Result<Verdicts, Status>
    ensures { IsOf (verdicts_of (members_left members.entry)) result }
{
    let mut verdicts = Verdicts::new(alloc);
    for (id, value) in members {
        let error = verdict_of(value).ok_or(Status::BadVerdicts)?;
        enter(alloc, &mut verdicts, id, error)?;
    }
    Ok(verdicts)
}

// What a member says of its event.
fn verdict_of(value: JsonRef<'_>) -> Option<Option<&str>>
    ensures { option_map (option_map (λ s. s.now)) result ≡ verdict_in (seen value.entry) }
{
    let text = value.text()?;
    if text.is_empty() {
        Some(None)
    } else {
        Some(Some(text))
    }
}

// Enters a copy of a verdict.
fn enter(
    alloc: Global,
    verdicts: &mut Verdicts,
    id: &str,
    error: Option<&str>,
) -> Result<(), NoMemory>
    ensures { OnOk result (verdicts.new ≡ with_verdict verdicts.old id.now (option_map (λ s. s.now) error.entry)) }
{
    let error = match error {
        Some(text) => Some(String::from_str(alloc, text)?),
        None => None,
    };
    verdicts.insert(String::from_str(alloc, id)?, error)
}
