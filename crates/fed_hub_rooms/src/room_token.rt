// What the thread of a room holds.
ghost use Rattle.std.specs.Prelude.{◌≡◌, ◌<◌, [], true, None, Some, IsSome, MatchBool, length, slice_get};
ghost use Rattle.fed_wires.specs.ReceiveEnd.{new_receiver};
ghost use Rattle.fed_hub_rooms.specs.RoomHeld.{held_new, IsWhole};
ghost use Rattle.fed_hub_rooms.specs.Turns.{GoesOn};

use fed_event::Checked;
use fed_hub_serving::ServingNaming;
use fed_wires::{AnyMessage, ReceiveEnd, Received};
use std::alloc::Global;
use std::marker::{Model, PhantomData};
use std::sync::Wait;

/// What the thread that stores the events of one room holds: the end of the room's wire that receives, an event that came over it and that the
/// room was not given yet, if there is one, and a copy of each event that the room was given, in order.
///
/// Contracts see the place of the room and, beside these, all that came over the wire and whether its other end was seen to be gone.
#[derive(Drop)]
pub struct RoomToken<N: ServingNaming> {
    room: usize,
    end: ReceiveEnd<Checked, AnyMessage>,
    pub(crate) hand: Option<Checked>,
    pub(crate) given: Vec<Checked>,
    of: PhantomData<N>,
}

impl<N: ServingNaming> Model for RoomToken<N> {
    ghost use Rattle.std.specs.Prelude.{◌≡◌, ◌++◌, Some, slice_get};
    ghost use Rattle.fed_hub_rooms.specs.RoomHeld.{RoomHeld, held_code, in_hand};

    ghost Value = { RoomHeld };

    ghost coded = { held_code };

    ghost view = { λ t. record { room = t.room; received = t.«end».received; gone = t.«end».gone; hand = t.hand; given = t.given.items } };

    ghost invariant = { λ t. (slice_get N.rooms t.room ≡ Some t.«end».wire) × (t.«end».received ≡ t.given.items ++ in_hand t.hand) };
}

impl<N: ServingNaming> RoomToken<N> {
    /// The token for the room at this place, with the end of its wire that receives, over which nothing came. It takes no memory.
    pub fn new(alloc: Global, room: usize, end: ReceiveEnd<Checked, AnyMessage>) -> RoomToken<N>
        requires wire { slice_get N.rooms room ≡ Some end.wire }
        requires new { end ≡ new_receiver end.wire }
        ensures { result ≡ held_new room }
    {
        RoomToken {
            room,
            end,
            hand: None,
            given: Vec::new(alloc),
            of: PhantomData,
        }
    }

    /// The place of the room, which has a wire.
    pub fn room(&self) -> usize
        ensures room { result ≡ self.now.room }
        ensures within { result < length N.rooms }
    {
        self.room
    }

    /// The events that the room was given, in order: all that came over the wire, but for one in hand.
    pub fn given(&self) -> &[Checked]
        ensures given { result.now ≡ self.now.given }
        ensures whole { IsWhole self.now }
    {
        &self.given
    }

    /// Whether the other end of the wire was seen to be gone.
    pub fn is_gone(&self) -> bool
        ensures { result ≡ self.now.gone }
    {
        self.end.gone()
    }

    /// Waits for the next event from the wire and takes it in hand, where none is there; whether one is in hand then. None is where the other
    /// end is gone.
    pub(crate) fn take_in_hand<R: Wait>(&mut self, rt: &R) -> bool
        ensures goes_on { GoesOn [] self.old self.new }
        ensures told { MatchBool result (IsSome self.new.hand) ((self.new.gone ≡ true) × (self.new.hand ≡ None)) }
    {
        if self.hand.is_some() {
            return true;
        }
        match self.end.receive(rt, true) {
            Received::Message(event) => {
                self.hand = Some(event);
                true
            }
            Received::Empty => unreachable!(),
            Received::Gone => false,
        }
    }
}
