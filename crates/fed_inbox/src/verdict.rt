// What an event comes to that a transaction brings.
ghost use Rattle.std.specs.Prelude.{◌≡◌, Some, None, IfOk, MatchResult, string_bytes};
ghost use Rattle.fed_event.specs.Texts.{event_texts};
ghost use Rattle.fed_event.specs.Checked.{checked_of};
ghost use Rattle.fed_inbox.specs.Elements.{read_as, element_id};
ghost use Rattle.fed_inbox.specs.FaultText.{fault_text};
ghost use Rattle.fed_inbox.specs.Taking.{verdict_on};

use crate::rooms::Rooms;
use fed_event::{CheckFault, Checked, EventId, Keys, Pdu, PduFault, Texts, Version, check_signed};
use fed_json::{Json, NoMemory};
use std::alloc::Global;

/// Why an event is not handed on to its room.
#[derive(Clone, Copy)]
pub(crate) enum Fault {
    /// The value is no event.
    Event(PduFault),
    /// No key of its sender's server has signed it.
    BadSignature,
    /// Its room is not known.
    UnknownRoom,
}

impl Fault {
    /// The text of the verdict.
    pub(crate) fn verdict_text(self, alloc: Global) -> Result<String, NoMemory>
        ensures { IfOk result (λ text. string_bytes text ≡ fault_text self) }
    {
        match self {
            Fault::Event(fault) => fault.verdict_text(alloc),
            Fault::BadSignature => CheckFault::BadSignature.verdict_text(alloc),
            Fault::UnknownRoom => String::from_str(alloc, "unknown room"),
        }
    }
}

/// The checked event that a value is, or its first fault: it is no event, the server of its sender has not signed it, or its room is not
/// known. The value has these texts and this id. An error is want of memory.
pub(crate) fn judged<K: Keys>(
    alloc: Global,
    event: Json,
    texts: &Texts,
    id: EventId,
    rooms: &Rooms,
    keys: &K,
) -> Result<Result<Checked, Fault>, NoMemory>
    requires texts { texts.now ≡ event_texts (read_as event) }
    requires id { id ≡ element_id event }
    ensures { IfOk result (λ judged. MatchResult judged
        (λ checked. (checked ≡ checked_of (K.checks keys.now) (read_as event)) × (verdict_on (K.checks keys.now) rooms.now event ≡ None))
        (λ fault. verdict_on (K.checks keys.now) rooms.now event ≡ Some (fault_text fault))) }
{
    let event = match Pdu::with_texts(Version::V10, event, texts, id) {
        Ok(event) => event,
        Err(fault) => return Ok(Err(Fault::Event(fault))),
    };
    let known = rooms.contains(event.room_id());
    match check_signed(alloc, event, texts.signed(), keys) {
        Ok(checked) if known => Ok(Ok(checked)),
        Ok(_) => Ok(Err(Fault::UnknownRoom)),
        Err(CheckFault::BadSignature) => Ok(Err(Fault::BadSignature)),
        Err(CheckFault::Memory) => Err(NoMemory),
    }
}
