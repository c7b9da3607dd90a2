// The wire of a room.
ghost use Rattle.std.specs.Prelude.{◌≡◌, ◌<◌, ◌≤◌, None, IfErr, MatchBool, OnOk};
ghost use Rattle.fed_wires.specs.SendEnd.{with_sent, with_returned};
ghost use Rattle.fed_hub_serving.specs.Spreading.{Goes};
ghost use Rattle.fed_hub_serving.specs.WireRoom.{with_credits};
ghost use Rattle.fed_hub_serving.specs.Wires.{ended_at, ended_of};

use crate::end_place::EndPlace;
use fed_event::Checked;
use fed_wires::{AnyMessage, Credit, NoRoom, SendEnd, SendPass};
use std::sync::Wait;

/// The end that sends of a room's wire, and where the wire ended, if it has.
#[derive(Drop)]
pub(crate) struct RoomWire {
    pub(crate) end: SendEnd<Checked, AnyMessage>,
    pub(crate) ended: Option<EndPlace>,
}

impl RoomWire {
    /// Takes in credits until it may be sent so many events more; where it has ended it takes none. It waits for no room.
    ///
    /// # Errors
    ///
    /// Where it has not ended and has no room for them.
    pub(crate) fn reserve<R: Wait>(&mut self, rt: &R, count: usize) -> Result<(), NoRoom<Checked>>
        ensures same { self.new ≡ with_credits self.old self.new.end.room }
        ensures more { self.old.end.room ≤ self.new.end.room }
        ensures room { OnOk result (self.new.ended ≡ None → count ≤ self.new.end.room) }
        ensures full { IfErr result (λ no_room. (self.new.ended ≡ None) × (self.new.end.room < count) × (no_room ≡ record { wire = self.old.end.wire; count = count })) }
    {
        match self.ended {
            Some(_) => Ok(()),
            None => self.end.reserve(rt, count),
        }
    }

    /// Waits until there is more room, or until the other end is gone.
    pub(crate) fn wait<R: Wait>(&mut self, rt: &R)
        ensures same { self.new ≡ with_credits self.old self.new.end.room }
        ensures more { self.old.end.room ≤ self.new.end.room }
    {
        self.end.wait(rt);
    }

    /// Takes in a credit that was waited for.
    pub(crate) fn give(&mut self, credit: Credit)
        ensures same { self.new ≡ with_credits self.old self.new.end.room }
        ensures more { self.old.end.room ≤ self.new.end.room }
    {
        self.end.give(credit);
    }

    /// Sends an event, unless the wire has ended. Where the event comes back the wire has ended at this place, and the event is let go.
    pub(crate) fn send<R: Wait>(&mut self, rt: &R, event: Checked, place: EndPlace)
        requires { self.old.ended ≡ None → 0 < self.old.end.room }
        ensures { Goes event place self.old self.new }
    {
        if self.ended.is_some() {
            return;
        }
        if !goes(rt, &mut self.end, event) {
            self.ended = Some(place);
        }
    }

    /// Ends it, at this place where it has not ended before.
    pub(crate) fn end(self, place: EndPlace) -> EndedWire
        ensures { ended_of result ≡ ended_at place self }
    {
        let RoomWire { end, ended } = self;
        EndedWire {
            pass: end.finish(),
            ended: ended.unwrap_or(place),
        }
    }
}

// Sends an event, and says whether it went. One that comes back is let go.
fn goes<R: Wait>(rt: &R, end: &mut SendEnd<Checked, AnyMessage>, event: Checked) -> bool
    requires { 0 < end.old.room }
    ensures { MatchBool result (end.new ≡ with_sent end.old event) (end.new ≡ with_returned end.old) }
{
    end.send(rt, event).is_ok()
}

/// What is left of a room's wire that has ended: what went over it, which contracts alone see, and where it ended.
#[derive(Drop)]
pub struct EndedWire {
    pub(crate) pass: SendPass<Checked>,
    pub(crate) ended: EndPlace,
}

impl EndedWire {
    /// Where it ended.
    pub fn place(&self) -> EndPlace
        ensures { result ≡ self.now.ended }
    {
        self.ended
    }
}
