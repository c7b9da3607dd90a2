// From the bytes of a body to its transaction.
ghost use Rattle.std.specs.Prelude.{◌≡◌, ◌≢◌, ◌<◌, length, IfOk, IfErr, Ok, Err};
ghost use Rattle.fed_txn.specs.Reading.{body_of, read_of};
ghost use Rattle.fed_txn.specs.Transaction.{parts};

use crate::fault::TxnFault;
use crate::transaction::TransactionIn;
use fed_json::{Json, JsonFault, MAX_LEVELS, read_within};
use std::alloc::Global;

/// The most bytes of a body.
pub const MAX_BODY: usize = 16_777_216;

/// The value of a body.
///
/// # Errors
///
/// The first of these: `TooLarge` where the body has more than `MAX_BODY` bytes; `NotJson` where it is not UTF-8, or no JSON
/// text of at most 127 levels; `NotCanonical` where a number is not whole or out of range. `Memory` where memory ran out, which
/// a body that is too large does not meet.
#[tactic(auto, using(crate::proofs::Bodies::body_values))]
pub fn read_body(alloc: Global, body: &[u8]) -> Result<Json, TxnFault>
    ensures ok { IfOk result (λ json. body_of body.now ≡ Ok json) }
    ensures fault { IfErr result (λ fault. fault ≢ TxnFault.Memory → body_of body.now ≡ Err fault) }
    ensures large { MAX_BODY < length body.now → result ≡ Err TxnFault.TooLarge }
{
    if body.len() > MAX_BODY {
        return Err(TxnFault::TooLarge);
    }
    match read_within(alloc, body, MAX_LEVELS) {
        Ok(json) => Ok(json),
        Err(JsonFault::Memory) => Err(TxnFault::Memory),
        Err(JsonFault::NotJson) => Err(TxnFault::NotJson),
        Err(JsonFault::NotCanonicalValue) => Err(TxnFault::NotCanonical),
        Err(JsonFault::TooDeep) => unreachable!(),
    }
}

/// The transaction of a body.
///
/// # Errors
///
/// Those of `read_body`, and then those of `TransactionIn::of_json`.
pub fn read(alloc: Global, body: &[u8]) -> Result<TransactionIn, TxnFault>
    ensures ok { IfOk result (λ t. read_of body.now ≡ Ok (parts t)) }
    ensures fault { IfErr result (λ fault. fault ≢ TxnFault.Memory → read_of body.now ≡ Err fault) }
    ensures large { MAX_BODY < length body.now → result ≡ Err TxnFault.TooLarge }
{
    let body = read_body(alloc, body)?;
    TransactionIn::of_json(alloc, body)
}
