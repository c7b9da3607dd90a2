// What the threads of a server share.
ghost use Rattle.std.specs.Prelude.{◌≡◌, ◌≢◌, ◌<◌, ◌≤◌, All, IfSome, IsTrue, Some, false, is_some, length, slice_index, true};
ghost use Rattle.fed_dest.specs.List.{place_of};
ghost use Rattle.fed_dest.specs.ServerSet.{is_among};
ghost use Rattle.fed_wires.specs.Seat.{with_load};
ghost use Rattle.fed_hub_state.specs.WireRoom.{IsFullOf};
ghost use Rattle.fed_hub.specs.Setup.{has_room};

use crate::reception::Reception;
use crate::rooms::Rooms;
use crate::tokens::Seat;
use fed_dest::{List, ServerIndex, ServerSet};
use fed_event::Keys;
use fed_hub_serving::{KeptInbox, ServingNaming};
use fed_hub_state::{FullWire, KeptRoom, Naming, SeatedOutbox, SendingJournal};
use fed_replies::PackedStore;
use fed_wires::{Board, Credits};
use std::marker::Model;
use std::sync::{Mutex, Wait};

/// What the threads of a server share: its rooms, its journal, the outbox of each other server and its inbox, each under a lock of its own, and
/// a board on which any thread reads how much was delivered, and waits for nobody. A room's lock is taken before the journal's, and no other
/// two are taken together.
///
/// Contracts see the listed servers, the place of the own one among them, its name, the epoch of its transaction ids, the ids of the rooms, and
/// for how many clients and readers of the board it was made.
#[derive(Drop)]
pub struct Hub<N: Naming + ServingNaming, K: Keys + Drop> {
    pub(crate) list: List,
    pub(crate) own: ServerIndex,
    pub(crate) keys: K,
    pub(crate) epoch: u64,
    pub(crate) rooms: Rooms,
    pub(crate) journal: Mutex<SendingJournal<N>>,
    pub(crate) credits: Credits,
    pub(crate) outboxes: Vec<Mutex<SeatedOutbox<N>>>,
    pub(crate) reception: Reception<N>,
    pub(crate) board: Board,
    pub(crate) clients: u64,
    pub(crate) readers: usize,
}

impl<N: Naming + ServingNaming, K: Keys + Drop> Model for Hub<N, K> {
    ghost use Rattle.std.specs.Prelude.{◌≡◌, ◌<◌, length};
    ghost use Rattle.fed_wires.specs.Board.{word_count};
    ghost use Rattle.fed_hub.specs.Hub.{HubShape, ServesBy};

    ghost Value = { HubShape };

    ghost view = { λ h. record { list = h.list; own = h.own; name = K.own_name h.keys; epoch = h.epoch; rooms = h.rooms.ids; clients = h.clients; readers = h.readers } };

    ghost invariant = { λ h. (length h.list ≡ length N.wires) × (h.own ≡ N.own) × (h.own < length h.list)
        × (h.board.id ≡ N.board) × (word_count N.board ≡ length N.wires) × (h.board.readers ≡ h.readers)
        × (length h.outboxes.items ≡ length N.wires) × (h.credits ≡ length N.wires)
        × ServesBy N.checks (length N.rooms) N.known (K.checks h.keys) h.reception h.rooms };
}

impl<N: Naming + ServingNaming, K: Keys + Drop> Hub<N, K> {
    /// Waits until there may be room in a wire that had none, and lays in the credit that came back. No lock is held while it waits.
    pub(crate) fn wait_for_room<R: Wait>(&self, rt: &R, full: FullWire)
        requires { IsFullOf N.wires full }
    {
        if let Some(credit) = self.credits.wait(rt, full.dest.place()) {
            self.journal.lock(rt).give(credit);
        }
    }

    /// The room of this id under its lock, for who reads it; `None` where the hub has none. Who holds the lock makes those wait that send in the
    /// room, and the thread that stores what came for it.
    pub fn room(&self, id: &str) -> Option<&Mutex<KeptRoom>>
        ensures { is_some result ≡ has_room self.now.rooms id.now }
    {
        self.rooms.get(id)
    }

    /// The inbox under its lock, for who reads what it took and answered. Who holds the lock makes those wait that answer requests.
    pub fn inbox(&self) -> &Mutex<KeptInbox<N, PackedStore>> {
        self.reception.inbox()
    }

    /// The place of a listed server of this name, where it is another one than the own one.
    pub fn other(&self, name: &str) -> Option<ServerIndex>
        ensures within { IfSome result (λ dest. dest < length N.wires) }
        ensures other { IfSome result (λ dest. dest ≢ N.own) }
        ensures place { IfSome result (λ dest. place_of self.now.list name.now ≡ Some dest) }
        ensures none { IfSome (place_of self.now.list name.now) (λ dest. dest ≢ self.now.own → is_some result ≡ true) }
    {
        let dest = self.list.find(name)?;
        if dest == self.own {
            return None;
        }
        Some(dest)
    }

    /// Whether an EDU may be offered to these: all are listed, and none is the own one.
    pub fn has_others(&self, dests: &ServerSet) -> bool
        ensures within { IsTrue result → All (λ dest. dest < length N.wires) dests.now }
        ensures others { IsTrue result → is_among dests.now N.own ≡ false }
    {
        let count = self.list.len();
        !dests.contains(self.own) && dests.as_slice().iter().all(|dest| dest.place() < count)
    }

    /// How many events for a destination were delivered, by one look at the board. It waits for nobody and takes no memory.
    pub fn delivered(&self, seat: &mut Seat<N>, dest: ServerIndex) -> u64
        requires { dest < length N.wires }
        ensures looked { seat.new ≡ with_load seat.old dest result }
        ensures seen { slice_index seat.new.seen dest ≡ result }
        ensures later { slice_index seat.old.seen dest ≤ result }
    {
        self.board.load(&mut seat.seat, dest.place())
    }
}
