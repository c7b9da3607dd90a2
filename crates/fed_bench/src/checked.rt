// Events from their texts.
use crate::stop::Stop;
use fed_event::{CheckFault, Checked, Pdu, PduFault, Trusting, Version, check_in};
use std::alloc::Global;

/// The event of a text, after the checks on receipt, under which every signature checks.
pub(crate) fn checked(alloc: Global, own: &str, text: &str) -> Result<Checked, Stop> {
    let keys = Trusting::new(String::from_str(alloc, own)?);
    let event = match Pdu::read(alloc, Version::V10, text.as_bytes()) {
        Ok(event) => event,
        Err(PduFault::Memory) => return Err(Stop::Memory),
        Err(_) => return Err(Stop::Refused),
    };
    match check_in(alloc, event, &keys) {
        Ok(event) => Ok(event),
        Err(CheckFault::Memory) => Err(Stop::Memory),
        Err(CheckFault::BadSignature) => Err(Stop::Refused),
    }
}
