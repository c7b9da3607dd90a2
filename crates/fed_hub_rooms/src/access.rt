// The way to a room.
ghost use Rattle.std.specs.Prelude.{◌≡◌};
ghost use Rattle.fed_hub_state.specs.Applying.{EventIsApplied};
ghost use Rattle.fed_hub_rooms.specs.Access.{WhereKnown, IsTold};

use fed_event::Checked;
use fed_hub_state::{KeptRoom, sections};
use fed_room_contract::{Applied, Stopped};
use std::alloc::Global;
use std::sync::{Mutex, Wait};

/// A way to a room. Contracts know the state of a room that is lent to one caller alone, and not that of one under a lock, which other threads
/// change too.
pub trait RoomAccess {
    ghost use Rattle.std.specs.Prelude.{Option};
    ghost use Rattle.fed_hub_state.specs.KeptRoom.{KeptState};

    ghost state: { Self → Option KeptState };

    /// Gives the room an event that was received, and stores all that is then ready, as `sections::apply` does. `input` is an equal event.
    ///
    /// # Errors
    ///
    /// `Stopped` where memory runs out, with how far the room came: the event comes back where the room did not receive it.
    fn apply<R: Wait>(
        &mut self,
        rt: &R,
        alloc: Global,
        event: Checked,
        input: Checked,
    ) -> Result<Applied, Stopped>
        requires { input ≡ event }
        ensures told { IsTold event result }
        ensures applied { WhereKnown (λ old new. EventIsApplied event old result new) (state self.old) (state self.new) };
}

/// A room under its lock.
#[derive(Drop)]
pub struct LockedRoom<'a> {
    pub room: &'a Mutex<KeptRoom>,
}

impl RoomAccess for LockedRoom<'_> {
    ghost use Rattle.std.specs.Prelude.{None};

    ghost state = { λ _. None };

    fn apply<R: Wait>(
        &mut self,
        rt: &R,
        alloc: Global,
        event: Checked,
        input: Checked,
    ) -> Result<Applied, Stopped> {
        sections::apply(alloc, &mut self.room.lock(rt), event, input)
    }
}

impl RoomAccess for KeptRoom {
    ghost use Rattle.std.specs.Prelude.{Some};

    ghost state = { λ room. Some room };

    fn apply<R: Wait>(
        &mut self,
        _rt: &R,
        alloc: Global,
        event: Checked,
        input: Checked,
    ) -> Result<Applied, Stopped> {
        sections::apply(alloc, self, event, input)
    }
}
