//! The form of a transaction's body.
ghost use Rattle.std.specs.Prelude.{◌≡◌, ◌≢◌, ◌<◌, length, Ok, Err, IfOk, IfErr, unwrap_or, option_map};
ghost use Rattle.fed_txn.specs.Reading.{read_of};
ghost use Rattle.fed_c.specs.Transactions.{TellsPart, body_error, fault_status, part_of, part_number};
ghost use Rattle.fed_c.specs.Output.{Gives};
ghost use Rattle.fed_c.specs.Status.{number_of as number_of_status};
ghost use Rattle.fed_c.specs.declared.status.Status.TheVariants.{Memory, BodyTooLarge};

use crate::output::{Answer, give};
use crate::status::Status;
use fed_txn::{BodyField, MAX_BODY, TxnFault};
use std::alloc::Global;

/// The first fault of the body of a transaction (Server-Server API, "Transactions"). Its events are not tested.
///
/// Returns `Done` where it has none; else the first of `BodyTooLarge`, `NotJson`, `NotCanonical`, `BadBody`, `TooManyPdus` and `TooManyEdus`
/// that is so; a body that is too large needs no memory. Of `BadBody` the number of the part is told.
#[unsafe(no_mangle)]
pub extern "C" fn wikzord_transaction_test(alloc: Global, body: &[u8], part: &mut u32) -> u32
    ensures tells { TellsPart (read_of body.now) result (part.old, part.new) }
    ensures large { MAX_BODY < length body.now → result ≡ number_of_status BodyTooLarge }
{
    match fed_txn::read(alloc, body) {
        Ok(_) => Status::Done.number(),
        Err(fault) => tell(fault, part).number(),
    }
}

// The status of a fault, and the number of its part where it has one.
fn tell(fault: TxnFault, part: &mut u32) -> Status
    ensures status { result ≡ fault_status fault }
    ensures part { part.new ≡ unwrap_or (option_map part_number (part_of fault)) part.old }
{
    if let TxnFault::BadJson(field) = fault {
        *part = number_of(field);
    }
    status_of(fault)
}

fn status_of(fault: TxnFault) -> Status
    ensures { result ≡ fault_status fault }
{
    match fault {
        TxnFault::Memory => Status::Memory,
        TxnFault::NotJson => Status::NotJson,
        TxnFault::NotCanonical => Status::NotCanonical,
        TxnFault::BadJson(_) => Status::BadBody,
        TxnFault::TooManyPdus => Status::TooManyPdus,
        TxnFault::TooManyEdus => Status::TooManyEdus,
        TxnFault::TooLarge => Status::BodyTooLarge,
    }
}

fn number_of(part: BodyField) -> u32
    ensures { result ≡ part_number part }
{
    match part {
        BodyField::Body => 0,
        BodyField::Origin => 1,
        BodyField::OriginServerTs => 2,
        BodyField::Pdus => 3,
        BodyField::Edus => 4,
    }
}

/// The text of the first fault of the body of a transaction, as the `error` member of a standard error reply gives it; no bytes where the
/// body has none.
#[unsafe(no_mangle)]
pub extern "C" fn wikzord_transaction_error(
    alloc: Global,
    body: &[u8],
    out: &mut [u8],
    needed: &mut usize,
) -> u32
    ensures { Gives (Ok (body_error (read_of body.now))) result
        (record { before = out.old; after = out.new; told_before = needed.old; told = needed.new }) }
{
    give(body_error(alloc, body), out, needed)
}

fn body_error(alloc: Global, body: &[u8]) -> Answer
    ensures ok { IfOk result (λ bytes. bytes.items ≡ body_error (read_of body.now)) }
    ensures fault { IfErr result (λ status. status ≡ Memory) }
{
    match fed_txn::read(alloc, body) {
        Ok(_) => Ok(Vec::new(alloc)),
        Err(TxnFault::Memory) => Err(Status::Memory),
        Err(fault) => Ok(Vec::from_slice(alloc, fault.text().as_bytes())?),
    }
}
