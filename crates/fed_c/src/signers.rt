//! Signatures that the caller has checked.
ghost use Rattle.std.specs.Prelude.{◌≡◌, ◌≢◌, Ok, Err, IfOk, IfErr, string_bytes};
ghost use Rattle.fed_event.specs.Ids.{domain_of};
ghost use Rattle.fed_event.specs.Fields.{sender_of};
ghost use Rattle.fed_event.specs.Reading.{read_of};
ghost use Rattle.fed_c.specs.Events.{read_or_status};
ghost use Rattle.fed_c.specs.Results.{and_then};
ghost use Rattle.fed_c.specs.Signers.{checked_as};
ghost use Rattle.fed_c.specs.declared.status.Status.TheVariants.{Memory};

use crate::events::event;
use crate::status::Status;
use fed_event::{CheckFault, Checked, Keys, Pdu, Version, check_in, domain};
use fed_json::NoMemory;
use std::alloc::Global;

/// Whose signatures count as checked: those of one server, and where `others` is so those of all.
#[derive(Drop)]
struct Signers {
    own: String,
    others: bool,
}

impl Signers {
    // The server of the sender of an event, and the others or not.
    fn of(alloc: Global, event: &Pdu, others: bool) -> Result<Signers, NoMemory>
        ensures own { IfOk result (λ signers. string_bytes signers.own ≡ domain_of (sender_of event.now)) }
        ensures others { IfOk result (λ signers. signers.others ≡ others) }
    {
        let own = String::from_str(alloc, domain(event.sender()))?;
        Ok(Signers { own, others })
    }
}

impl Keys for Signers {
    ghost use Rattle.std.specs.Prelude.{[], string_bytes};
    ghost use Rattle.fed_keys.specs.Trusting.{trusting_signature};
    ghost use Rattle.fed_c.specs.Signers.{checks_of, own-checks};

    ghost own_name = { λ signers. string_bytes signers.own };

    ghost own_key = { λ _. [] };

    ghost own_signature = { λ _. trusting_signature };

    ghost checks = { λ signers. checks_of (string_bytes signers.own) signers.others };

    ghost signs = { λ signers message. own-checks (string_bytes signers.own) signers.others };

    fn own(&self) -> &str {
        self.own.as_str()
    }

    fn key_name(&self) -> &str {
        ""
    }

    fn sign(&self, _bytes: &[u8]) -> [u8; 64] {
        [0; 64]
    }

    fn check(&self, server: &str, _key: &str, _bytes: &[u8], _signature: &[u8; 64]) -> bool {
        self.others || server == self.own.as_str()
    }
}

/// The event of a text in a room of this version, whose signature by its sender's server has checked, and where `others` is so those of all other servers.
///
/// # Errors
///
/// That of the first test that the event fails; `NotSigned` where it has no signature of its sender's server. `Memory` where memory ran out.
pub(crate) fn checked(
    alloc: Global,
    version: Version,
    text: &[u8],
    others: bool,
) -> Result<Checked, Status>
    ensures ok { IfOk result (λ checked. and_then (read_or_status (read_of text.now)) (checked_as version others) ≡ Ok checked) }
    ensures fault { IfErr result (λ status. status ≢ Memory → and_then (read_or_status (read_of text.now)) (checked_as version others) ≡ Err status) }
{
    let event = event(alloc, version, text)?;
    checked_as(alloc, event, others)
}

fn checked_as(alloc: Global, event: Pdu, others: bool) -> Result<Checked, Status>
    ensures ok { IfOk result (λ checked. checked_as event.version others event.value ≡ Ok checked) }
    ensures fault { IfErr result (λ status. status ≢ Memory → checked_as event.version others event.value ≡ Err status) }
{
    let signers = Signers::of(alloc, &event, others)?;
    match check_in(alloc, event, &signers) {
        Ok(checked) => Ok(checked),
        Err(CheckFault::Memory) => Err(Status::Memory),
        Err(CheckFault::BadSignature) => Err(Status::NotSigned),
    }
}
