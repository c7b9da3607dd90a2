// Storing all waiting events that are ready.
ghost use Rattle.std.specs.Prelude.{◌≡◌, ◌+◌, length, IfOk, IfErr, OnOk, OnErr, IsNone, IsSome};
ghost use Rattle.fed_room_contract.specs.Room.{first_ready};
ghost use Rattle.fed_room_contract.specs.Runs.{IsAdvanced};

use crate::engine::RoomEngine;
use std::alloc::Global;
use thiserror::Error;

/// Memory ran out before all waiting events that are ready were stored.
#[derive(Clone, Copy, Debug, PartialEq, Eq, Error)]
#[error("out of memory after {stored} events")]
pub struct Halted {
    /// How many were stored before that.
    pub stored: usize,
}

/// Advances a room until none of the waiting events is ready, and tells how many were stored: these are the last ones of its graph,
/// each with its verdict.
///
/// # Errors
///
/// `Halted` where memory ran out, with how many were stored; then the room has advanced so many times, and the others that are ready
/// still wait.
pub fn advance_all<R: RoomEngine>(alloc: Global, room: &mut R) -> Result<usize, Halted>
    ensures advanced { IfOk result (λ count. IsAdvanced (R.rules room.old) count (R.room room.old) (R.room room.new)) }
    ensures counted { IfOk result (λ count. length (R.room room.new).stored ≡ length (R.room room.old).stored + count) }
    ensures all { OnOk result (IsNone (first_ready (R.room room.new))) }
    ensures halted { IfErr result (λ e. IsAdvanced (R.rules room.old) e.stored (R.room room.old) (R.room room.new)) }
    ensures left { OnErr result (IsSome (first_ready (R.room room.new))) }
    ensures rules { R.rules room.new ≡ R.rules room.old }
{
    let before = room.graph().len();
    loop {
        match room.advance(alloc) {
            Ok(Some(_)) => {}
            Ok(None) => return Ok(room.graph().len() - before),
            Err(_) => {
                return Err(Halted {
                    stored: room.graph().len() - before,
                });
            }
        }
    }
}
