// What threads hold.
ghost use Rattle.std.specs.Prelude.{◌≡◌, ◌≢◌, None, Some, slice_get, IsTrue, IfSome};
ghost use Rattle.fed_hub.specs.declared.collected.Collected.TheVariants.{Nothing};
ghost use Rattle.fed_wires.specs.ReceiveEnd.{new_receiver};
ghost use Rattle.fed_hub.specs.Held.{held_new};
ghost use Rattle.fed_hub.specs.Seats.{IsReaderAt};
ghost use Rattle.fed_hub.specs.Collecting.{with_hand, TakesOut};

use crate::client_token::ClientToken;
use crate::collected::Collected;
use fed_dest::ServerIndex;
use fed_hub_rooms::RoomToken;
use fed_hub_serving::{ServeToken, ServingNaming};
use fed_hub_state::{InPlace, Naming};
use fed_journal::Parcel;
use fed_wires::{ReceiveEnd, Received};
use std::marker::{Model, PhantomData};
use std::sync::Wait;

/// What the threads that share a hub hold: a token for each client, a seat for each reader of the board, a token for each destination and for
/// each room, in the order of their places, and for serving a token for each listed server.
#[derive(Drop)]
pub struct Tokens<N: Naming + ServingNaming> {
    pub clients: Vec<ClientToken<N>>,
    pub readers: Vec<Seat<N>>,
    pub senders: Vec<SenderToken<N>>,
    pub rooms: Vec<RoomToken<N>>,
    pub servers: Vec<ServeToken<N>>,
}

/// A seat at the hub's board, through which a thread reads how much was delivered.
///
/// Contracts see the last value that it found for each destination, and how often it looked.
#[derive(Drop)]
pub struct Seat<N: Naming> {
    pub(crate) seat: fed_wires::Seat,
    of: PhantomData<N>,
}

impl<N: Naming> Model for Seat<N> {
    ghost use Rattle.fed_wires.specs.Seat.{Seated};
    ghost use Rattle.fed_hub.specs.Seats.{IsReaderAt};

    ghost Value = { Seated };

    ghost view = { λ s. s.seat };

    ghost invariant = { λ s. IsReaderAt N.board s.seat };
}

impl<N: Naming> Seat<N> {
    pub(crate) fn new(seat: fed_wires::Seat) -> Seat<N>
        requires { IsReaderAt N.board seat }
        ensures { result ≡ seat }
    {
        Seat {
            seat,
            of: PhantomData,
        }
    }
}

/// What the thread that sends to one destination holds: the end of its wire that receives, and a parcel that came over it and could not be
/// moved into the outbox yet, if there is one.
///
/// Contracts see the destination, all that came over the wire, the parcel in hand, and whether the end was moved.
#[derive(Drop)]
pub struct SenderToken<N: Naming> {
    pub(crate) dest: ServerIndex,
    end: ReceiveEnd<Parcel, InPlace>,
    pub(crate) hand: Option<Parcel>,
    pub(crate) ended: bool,
    of: PhantomData<N>,
}

impl<N: Naming> Model for SenderToken<N> {
    ghost use Rattle.std.specs.Prelude.{◌≡◌, Some, slice_get};
    ghost use Rattle.fed_hub.specs.Held.{Held, held_code};

    ghost Value = { Held };

    ghost coded = { held_code };

    ghost view = { λ t. record { dest = t.dest; received = t.«end».received; gone = t.«end».gone; hand = t.hand; ended = t.ended } };

    ghost invariant = { λ t. slice_get N.wires t.dest ≡ Some t.«end».wire };
}

impl<N: Naming> SenderToken<N> {
    pub(crate) fn new(dest: ServerIndex, end: ReceiveEnd<Parcel, InPlace>) -> SenderToken<N>
        requires wire { slice_get N.wires dest ≡ Some end.wire }
        requires new { end ≡ new_receiver end.wire }
        ensures { result ≡ held_new dest }
    {
        SenderToken {
            dest,
            end,
            hand: None,
            ended: false,
            of: PhantomData,
        }
    }

    /// The destination.
    pub fn dest(&self) -> ServerIndex
        ensures dest { result ≡ self.now.dest }
    {
        self.dest
    }

    /// Takes a parcel in hand, where none is.
    pub(crate) fn hold(&mut self, parcel: Parcel)
        requires { self.old.hand ≡ None }
        ensures { self.new ≡ with_hand self.old parcel }
    {
        let none = self.hand.replace(parcel);
        drop(none);
    }

    /// Takes the next parcel from the wire into the hand, where none is there: `None` where one is in hand then, and else what is told.
    pub(crate) fn take_out<R: Wait>(&mut self, rt: &R, wait: bool) -> Option<Collected>
        ensures took { TakesOut self.old result self.new }
        ensures waited { IsTrue wait → IfSome result (λ told. told ≢ Nothing) }
    {
        if self.hand.is_some() {
            return None;
        }
        if self.ended {
            return Some(Collected::Closed);
        }
        match self.end.receive(rt, wait) {
            Received::Message(parcel) => {
                self.hold(parcel);
                None
            }
            Received::Empty => Some(Collected::Nothing),
            Received::Gone => Some(Collected::Closed),
        }
    }
}
