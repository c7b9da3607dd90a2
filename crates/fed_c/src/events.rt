//! The tests of an event.
ghost use Rattle.std.specs.Prelude.{◌≡◌, ◌≢◌, Some, None, Ok, Err, IfOk, IfErr, OnOk, unwrap_or, option_map};
ghost use Rattle.fed_event.specs.Reading.{read_of};
ghost use Rattle.fed_c.specs.Events.{TellsField, event_error, fault_in, fault_status, field_of, field_number, read_or_status};
ghost use Rattle.fed_c.specs.Output.{Gives};
ghost use Rattle.fed_c.specs.declared.status.Status.TheVariants.{Memory};

use crate::output::{Answer, give};
use crate::status::Status;
use fed_event::{Field, Pdu, PduFault, Version};
use std::alloc::Global;

/// The first of the tests that an event fails (Server-Server API, "Checks performed on receipt of a PDU", check 1).
///
/// Returns `Done` where it passes all; else the first of `NotJson`, `NotCanonical`, `TooDeep`, `EventTooLarge`, `MissingField`, `WrongKind`,
/// `FieldTooLong` and `TooManyIds` that is so, but `WrongKind` at the event itself, where it is no object, before `EventTooLarge`. Of the last
/// four the number of the field is told.
#[unsafe(no_mangle)]
pub extern "C" fn wikzord_event_test(alloc: Global, text: &[u8], field: &mut u32) -> u32
    ensures { TellsField (fault_in (read_of text.now)) result (field.old, field.new) }
{
    match test(alloc, text) {
        Ok(()) => Status::Done.number(),
        Err(fault) => tell(fault, field).number(),
    }
}

// The first of the tests that an event fails, which are the same for every version of rooms.
fn test(alloc: Global, text: &[u8]) -> Result<(), PduFault>
    ensures ok { OnOk result (fault_in (read_of text.now) ≡ None) }
    ensures fault { IfErr result (λ fault. fault ≢ PduFault.Memory → fault_in (read_of text.now) ≡ Some fault) }
{
    let _event = Pdu::read(alloc, Version::V10, text)?;
    Ok(())
}

/// The event of a text in a room of this version, or the status of the first test that it fails.
pub(crate) fn event(alloc: Global, version: Version, text: &[u8]) -> Result<Pdu, Status>
    ensures ok { IfOk result (λ event. read_or_status (read_of text.now) ≡ Ok event.value) }
    ensures version { IfOk result (λ event. event.version ≡ version) }
    ensures fault { IfErr result (λ status. status ≢ Memory → read_or_status (read_of text.now) ≡ Err status) }
{
    match Pdu::read(alloc, version, text) {
        Ok(event) => Ok(event),
        Err(fault) => Err(status_of(fault)),
    }
}

// The status of a fault, and the number of its field where it has one.
fn tell(fault: PduFault, field: &mut u32) -> Status
    ensures status { result ≡ fault_status fault }
    ensures field { field.new ≡ unwrap_or (option_map field_number (field_of fault)) field.old }
{
    if let Some(at_fault) = field_at(fault) {
        *field = number_of(at_fault);
    }
    status_of(fault)
}

fn status_of(fault: PduFault) -> Status
    ensures { result ≡ fault_status fault }
{
    match fault {
        PduFault::Memory => Status::Memory,
        PduFault::NotJson => Status::NotJson,
        PduFault::NotCanonical => Status::NotCanonical,
        PduFault::Missing(_) => Status::MissingField,
        PduFault::WrongKind(_) => Status::WrongKind,
        PduFault::TooLarge => Status::EventTooLarge,
        PduFault::TooLong(_) => Status::FieldTooLong,
        PduFault::TooMany(_) => Status::TooManyIds,
        PduFault::TooDeep => Status::TooDeep,
    }
}

fn field_at(fault: PduFault) -> Option<Field>
    ensures { result ≡ field_of fault }
{
    match fault {
        PduFault::Memory => None,
        PduFault::NotJson => None,
        PduFault::NotCanonical => None,
        PduFault::Missing(field) => Some(field),
        PduFault::WrongKind(field) => Some(field),
        PduFault::TooLarge => None,
        PduFault::TooLong(field) => Some(field),
        PduFault::TooMany(field) => Some(field),
        PduFault::TooDeep => None,
    }
}

fn number_of(field: Field) -> u32
    ensures { result ≡ field_number field }
{
    match field {
        Field::Event => 0,
        Field::AuthEvents => 1,
        Field::Content => 2,
        Field::Depth => 3,
        Field::Hashes => 4,
        Field::OriginServerTs => 5,
        Field::PrevEvents => 6,
        Field::RoomId => 7,
        Field::Sender => 8,
        Field::Signatures => 9,
        Field::StateKey => 10,
        Field::Type => 11,
    }
}

/// The text of the first test that an event fails, as a transaction's reply gives it; no bytes where the event passes all.
#[unsafe(no_mangle)]
pub extern "C" fn wikzord_event_error(
    alloc: Global,
    text: &[u8],
    out: &mut [u8],
    needed: &mut usize,
) -> u32
    ensures { Gives (Ok (event_error (read_of text.now))) result
        (record { before = out.old; after = out.new; told_before = needed.old; told = needed.new }) }
{
    give(event_error(alloc, text), out, needed)
}

fn event_error(alloc: Global, text: &[u8]) -> Answer
    ensures ok { IfOk result (λ bytes. bytes.items ≡ event_error (read_of text.now)) }
    ensures fault { IfErr result (λ status. status ≡ Memory) }
{
    match Pdu::read(alloc, Version::V10, text) {
        Ok(_) => Ok(Vec::new(alloc)),
        Err(PduFault::Memory) => Err(Status::Memory),
        Err(fault) => Ok(fault.verdict_text(alloc)?.into_bytes()),
    }
}
