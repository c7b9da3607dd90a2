// The parts of a transaction.
ghost use Rattle.std.specs.Prelude.{◌≡◌, length, IsOk, IfOk, IfErr, IsOkUnless, IsSome, Some, option_map, option_and_then};
ghost use Rattle.serde_json.specs.Find.{as_str, get};
ghost use Rattle.fed_json.specs.Editing.{without};
ghost use Rattle.fed_json.specs.JsonRef.{as_whole, as_items};
ghost use Rattle.fed_txn.specs.Transaction.{parts, transaction_of, edus_of, items_or_empty};
ghost use Rattle.fed_txn.specs.Form.{HasForm};

use crate::fault::{BodyField, TxnFault};
use fed_json::{Json, NoMemory};
use std::alloc::Global;

/// The most events of one transaction.
pub const MAX_PDUS: usize = 50;

/// The most ephemeral data units of one transaction.
pub const MAX_EDUS: usize = 100;

/// A transaction that came in (Server-Server API, "Transactions").
#[derive(Drop)]
pub struct TransactionIn {
    /// The name of the sending server.
    pub origin: String,
    /// When the sender made the transaction, in milliseconds since the Unix epoch.
    pub at_ms: i64,
    /// The events, at most `MAX_PDUS`, in the sender's order.
    pub pdus: Vec<Json>,
    /// The ephemeral data units, at most `MAX_EDUS`, in the sender's order.
    pub edus: Vec<Json>,
}

impl TransactionIn {
    /// The transaction of a body. Its lists are moved out of the body; members of other names are not looked at, and missing
    /// `edus` are the empty list.
    ///
    /// # Errors
    ///
    /// The first of these: `BadJson(Body)` where the body is no object; `BadJson(Origin)` where `origin` is no text;
    /// `BadJson(OriginServerTs)` where `origin_server_ts` is no number; `BadJson(Pdus)` where `pdus` is no array;
    /// `BadJson(Edus)` where `edus` is there and no array; `TooManyPdus` where there are more than `MAX_PDUS`; `TooManyEdus`
    /// where there are more than `MAX_EDUS`. `Memory` where memory ran out, and none of these is so.
    pub fn of_json(alloc: Global, mut body: Json) -> Result<TransactionIn, TxnFault>
        ensures ok { IfOk result (λ t. transaction_of body ≡ Ok (parts t)) }
        ensures fault { IfErr (transaction_of body) (λ fault. result ≡ Err fault) }
        ensures only { IsOk (transaction_of body) → IsOkUnless result TxnFault.Memory }
    {
        let (origin, at_ms) = header(&body)?;
        let origin = String::from_str(alloc, origin)?;
        let pdus = take_items(alloc, &mut body, "pdus")?;
        let edus = take_items(alloc, &mut body, "edus")?;
        Ok(TransactionIn {
            origin,
            at_ms,
            pdus,
            edus,
        })
    }
}

// The origin and the time of a body that passes every test, or the first fault.
fn header(body: &Json) -> Result<(&str, i64), TxnFault>
    ensures ok { IfOk result (λ h. HasForm body.now h.0.now h.1) }
    ensures fault { IfErr result (λ fault. transaction_of body.now ≡ Err fault) }
{
    if !body.is_object() {
        return Err(TxnFault::BadJson(BodyField::Body));
    }
    let origin = text_at(body, "origin").ok_or(TxnFault::BadJson(BodyField::Origin))?;
    let at_ms = whole_at(body, "origin_server_ts");
    let at_ms = at_ms.ok_or(TxnFault::BadJson(BodyField::OriginServerTs))?;
    let pdus = count_at(body, "pdus").ok_or(TxnFault::BadJson(BodyField::Pdus))?;
    let edus = edu_count(body).ok_or(TxnFault::BadJson(BodyField::Edus))?;
    if pdus > MAX_PDUS {
        return Err(TxnFault::TooManyPdus);
    }
    if edus > MAX_EDUS {
        return Err(TxnFault::TooManyEdus);
    }
    Ok((origin, at_ms))
}

fn text_at<'a>(body: &'a Json, name: &str) -> Option<&'a str>
    ensures { option_map (λ s. s.now) result ≡ option_and_then as_str (get name.now body.now) }
{
    body.member(name)?.text()
}

fn whole_at(body: &Json, name: &str) -> Option<i64>
    ensures { result ≡ option_and_then as_whole (get name.now body.now) }
{
    body.member(name)?.whole()
}

// How many items the array of this name has.
fn count_at(body: &Json, name: &str) -> Option<usize>
    ensures { result ≡ option_map length (option_and_then as_items (get name.now body.now)) }
{
    Some(body.member(name)?.items()?.len())
}

// How many items `edus` has: none where it is missing.
fn edu_count(body: &Json) -> Option<usize>
    ensures { result ≡ option_map length (edus_of body.now) }
{
    match body.member("edus") {
        Some(edus) => Some(edus.items()?.len()),
        None => Some(0),
    }
}

// The items of the member of this name, moved out of the body: none where it has no such member.
fn take_items(alloc: Global, body: &mut Json, name: &str) -> Result<Vec<Json>, NoMemory>
    requires { IsSome (items_or_empty (get name.now body.old)) }
    ensures items { IfOk result (λ v. items_or_empty (get name.now body.old) ≡ Some v.items) }
    ensures rest { body.new ≡ without name.now body.old }
{
    match body.take(name) {
        Some(list) => list.into_items(alloc),
        None => Ok(Vec::new(alloc)),
    }
}
