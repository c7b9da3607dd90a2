// Giving an event to a room, and storing all that is then ready.
ghost use Rattle.std.specs.Prelude.{◌≡◌, None, IsOk, IfOk, IfErr};
ghost use Rattle.fed_room_contract.specs.declared.receipt.Receipt.TheVariants as receipt;
ghost use Rattle.fed_room_contract.specs.Room.{receipt_of, first_ready};
ghost use Rattle.fed_room_contract.specs.Applying.{IsApplied, IsStoppedAfter, IfNotReceived, IfReceived};

use crate::advancing::{Halted, advance_all};
use crate::engine::RoomEngine;
use crate::receipt::Receipt;
use fed_event::Checked;
use std::alloc::Global;

/// What became of an event that a room was given, and how many events that waited were stored after it.
#[derive(Clone, Copy, Debug, PartialEq, Eq)]
pub struct Applied {
    pub receipt: Receipt,
    pub more: usize,
}

/// How far a room came with an event that it was given, when memory ran out.
#[derive(Drop)]
pub enum Stopped {
    /// The room did not receive it, and is as it was; here the event comes back.
    NotReceived(Checked),
    /// The room received it, and this became of it. `more` events that waited were stored after it; others that are ready still wait.
    Received(Applied),
}

/// Gives an event to a room, and then stores all waiting events that are ready (Server-Server API, "PDUs").
///
/// # Errors
///
/// `Stopped` where memory ran out, with how far the room came; never where the event is known or dropped and none is ready.
pub fn apply<R: RoomEngine>(alloc: Global, room: &mut R, event: Checked) -> Result<Applied, Stopped>
    ensures applied { IfOk result (λ told. IsApplied (R.rules room.old) (R.room room.old) event told (R.room room.new)) }
    ensures back { IfErr result (λ e. IfNotReceived e (λ back. (back ≡ event) × (R.room room.new ≡ R.room room.old))) }
    ensures stopped { IfErr result (λ e. IfReceived e (λ told. IsStoppedAfter (R.rules room.old) (R.room room.old) event told (R.room room.new))) }
    ensures known { receipt_of (R.rules room.old) (R.room room.old) event ≡ receipt.Known → first_ready (R.room room.old) ≡ None → IsOk result }
    ensures dropped { receipt_of (R.rules room.old) (R.room room.old) event ≡ receipt.Dropped → first_ready (R.room room.old) ≡ None → IsOk result }
    ensures rules { R.rules room.new ≡ R.rules room.old }
{
    let receipt = match room.receive(alloc, event) {
        Ok(receipt) => receipt,
        Err((event, _)) => return Err(Stopped::NotReceived(event)),
    };
    match advance_all(alloc, room) {
        Ok(more) => Ok(Applied { receipt, more }),
        Err(Halted { stored }) => Err(Stopped::Received(Applied {
            receipt,
            more: stored,
        })),
    }
}
