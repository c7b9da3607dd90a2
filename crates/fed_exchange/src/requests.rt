// From transactions to the bytes of requests, and from bytes to requests.
ghost use Rattle.std.specs.Prelude.{◌≡◌, ◌<◌, ◌^◌, IfOk, IfSome, IfNone, string_bytes};
ghost use Rattle.fed_outbox.specs.Seen.{seen};
ghost use Rattle.fed_exchange.specs.Messages.{target_of, asked_of, bytes_sent, IsReadable, IsRequestIn, HasNoRequest};

use crate::front::message_at_front;
use fed_event::Keys;
use fed_http::{Message, Reader, Request, signed_request, write_request};
use fed_json::NoMemory;
use fed_outbox::Transaction;
use std::alloc::Global;

/// The bytes of the request that brings a transaction to the server `dest` (Server-Server API, "PUT
/// /_matrix/federation/v1/send/{txnId}"), signed with `keys`, of which the server that sends it is the owner. Its transaction id is `epoch`
/// and the transaction's number, with a hyphen between them, so that each epoch of a server has ids of its own.
///
/// A body within the limits of transactions is read as the same body.
///
/// # Errors
///
/// `NoMemory` where memory runs out.
pub fn request_bytes<K: Keys>(
    alloc: Global,
    transaction: &Transaction<'_>,
    epoch: u64,
    keys: &K,
    dest: &str,
) -> Result<Vec<u8>, NoMemory>
    ensures exact { IfOk result (λ bytes. bytes.items ≡ bytes_sent (asked_of (K.own_name keys.now) dest.now epoch (seen transaction.now)) (K.own_key keys.now) (K.own_signature keys.now)) }
    ensures read_back { IfOk result (λ _. IsReadable (K.own_name keys.now) epoch (seen transaction.now)) }
{
    let body = fed_txn::write(alloc, transaction, keys.own())?;
    let target = target(alloc, epoch, transaction.number)?;
    let request = signed_request(alloc, "PUT", &target, dest, body, keys)?;
    write_request(alloc, &request)
}

// The target of the request for a transaction: its id is the epoch and its number, with a hyphen between them.
fn target(alloc: Global, epoch: u64, number: u64) -> Result<String, NoMemory>
    ensures text { IfOk result (λ target. string_bytes target ≡ target_of epoch number) }
    ensures number_fits { IfOk result (λ _. number < 2 ^ 64) }
{
    let mut target = String::from_str(alloc, "/_matrix/federation/v1/send/")?;
    let mut digits = itoa::Buffer::new();
    target.push_str(digits.format(epoch))?;
    target.push_str("-")?;
    target.push_str(digits.format(number))?;
    Ok(target)
}

/// The request that bytes begin with, and `None` where they begin with none: they are cut, or have a fault. What stands behind it is not
/// looked at.
///
/// # Errors
///
/// `NoMemory` where memory runs out.
pub fn read_request(alloc: Global, bytes: &[u8]) -> Result<Option<Request>, NoMemory>
    ensures found { IfOk result (λ found. IfSome found (λ request. IsRequestIn bytes.now request)) }
    ensures none { IfOk result (λ found. IfNone found (HasNoRequest bytes.now)) }
{
    match message_at_front(alloc, Reader::requests(alloc), bytes)? {
        Some(Message::Request(request)) => Ok(Some(request)),
        Some(Message::Reply(_)) => Ok(None),
        None => Ok(None),
    }
}
