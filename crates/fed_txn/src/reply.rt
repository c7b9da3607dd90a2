// From verdicts to the reply body.
ghost use Rattle.std.specs.Prelude.{◌≡◌, IfOk, option_map, string_bytes};
ghost use Rattle.std.specs.FinMap as map;
ghost use Rattle.serde_json.specs.Data.{object};
ghost use Rattle.fed_json.specs.CanonicalText.{canonical_text, IsCanonicalText};
ghost use Rattle.fed_txn.specs.Verdicts.{HasTextIds};
ghost use Rattle.fed_txn.specs.ReplyReading.{IsReply};
ghost use Rattle.fed_txn.specs.Reply.{reply_value, verdict_value, verdict_members};

use crate::verdicts::Verdicts;
use fed_json::{Json, NoMemory, canonical};
use std::alloc::Global;

/// The body of the reply to a transaction: the canonical text of `{"pdus":{..}}`, in which each event id has `{}`, or
/// `{"error":text}` where the event was refused (Server-Server API, "Transactions"). `read_reply` reads it as these verdicts.
pub fn write_reply(alloc: Global, verdicts: &Verdicts) -> Result<Vec<u8>, NoMemory>
    ensures exact { IfOk result (λ text. text.items ≡ canonical_text (reply_value verdicts.now)) }
    ensures canonical { IfOk result
        (λ text. IsCanonicalText (reply_value verdicts.now) text.items) }
    ensures ids { HasTextIds verdicts.now }
    ensures read { IfOk result (λ text. IsReply text.items verdicts.now) }
{
    let members = members_of(alloc, verdicts)?;
    let mut reply = Json::empty_object(alloc);
    reply.put(String::from_str(alloc, "pdus")?, members)?;
    canonical(alloc, &reply)
}

// The object of all ids with their verdicts.
fn members_of(alloc: Global, verdicts: &Verdicts) -> Result<Json, NoMemory>
    ensures object { IfOk result
        (λ json. json ≡ object (verdict_members (map.entries verdicts.now))) }
    ensures ids { HasTextIds verdicts.now }
{
    let mut members = Json::empty_object(alloc);
    for (id, error) in verdicts.iter() {
        members.put(id.clone()?, verdict_of(alloc, error)?)?;
    }
    Ok(members)
}

// One verdict.
fn verdict_of(alloc: Global, error: &Option<String>) -> Result<Json, NoMemory>
    ensures { IfOk result (λ json. json ≡ verdict_value (option_map string_bytes error.now)) }
{
    let mut verdict = Json::empty_object(alloc);
    if let Some(text) = error {
        verdict.put(String::from_str(alloc, "error")?, Json::from(text.clone()?))?;
    }
    Ok(verdict)
}
