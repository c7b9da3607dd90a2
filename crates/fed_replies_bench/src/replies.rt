// Replies to measure with.
use fed_event::event_id_of_signed;
use fed_replies::NoMemory;
use fed_txn::{Verdicts, write_reply};
use std::alloc::Global;

/// How many events a reply speaks of: as many as a transaction has.
const EVENTS: u64 = 50;

/// The reply of a number: of events that no other has. Each second one has failed, where some have.
pub(crate) fn reply(alloc: Global, number: u64, failed: bool) -> Result<Vec<u8>, NoMemory> {
    let mut verdicts = Verdicts::new(alloc);
    for event in 0..EVENTS {
        let name = number.wrapping_mul(EVENTS).wrapping_add(event);
        let id = event_id_of_signed(alloc, &name.to_be_bytes())?;
        let error = if failed && event % 2 == 1 {
            Some(String::from_str(alloc, "bad signature")?)
        } else {
            None
        };
        verdicts.insert(String::from_str(alloc, id.as_str())?, error)?;
    }
    write_reply(alloc, &verdicts)
}
