// Wires, a board and ledgers that no type names yet.
ghost use Rattle.std.specs.Prelude.{◌≡◌, ◌<◌, length, IfOk};

use crate::wires::wires;
use fed_event::Checked;
use fed_hub_state::InPlace;
use fed_journal::Parcel;
use fed_json::NoMemory;
use fed_wires::{AnyMessage, Board, ReceiveEnd, Seat, SendEnd};
use std::alloc::Global;
use std::marker::Model;
use std::sync::ledger::Blank;

/// What the threads of a server will share, before it has names in a type: a wire for each listed server and for each room, over which nothing
/// went; a board with a word for each server, and seats for those who read it; and ledgers of the events and of the EDUs that clients will be
/// told of.
///
/// Contracts see the names. A caller makes one, and then calls a function that is generic over a `Naming` and a `ServingNaming`, whose members
/// are those names.
#[derive(Drop)]
pub struct Opened {
    pub(crate) ends: Vec<SendEnd<Parcel, InPlace>>,
    pub(crate) room_ends: Vec<SendEnd<Checked, AnyMessage>>,
    pub(crate) board: Board,
    pub(crate) owners: Vec<Seat>,
    pub(crate) events: Blank,
    pub(crate) edus: Blank,
    pub(crate) lent: Lent,
}

/// What the tokens of the threads will be made of: the ends that receive of the wires of parcels and of those of the rooms, seats for those who
/// read the board, and how many clients there will be.
#[derive(Drop)]
pub(crate) struct Lent {
    pub(crate) ends: Vec<ReceiveEnd<Parcel, InPlace>>,
    pub(crate) room_ends: Vec<ReceiveEnd<Checked, AnyMessage>>,
    pub(crate) readers: Vec<Seat>,
    pub(crate) clients: u64,
}

impl Model for Opened {
    ghost use Rattle.std.specs.Coded.{codes};
    ghost use Rattle.fed_event.specs.Checked.{checked_code};
    ghost use Rattle.fed_journal.specs.Parcel.{parcel_code};
    ghost use Rattle.fed_hub.specs.Names.{Names};

    ghost Value = { Names };

    ghost coded = { Prim.hlevel (codes, parcel_code, checked_code) };

    ghost use Rattle.fed_hub.specs.Opened.{names_of, IsOpened};

    ghost view = { names_of };

    ghost invariant = { IsOpened };
}

impl Opened {
    /// Wires and words for so many servers, wires for so many rooms, ledgers with a part for each of so many clients, and so many seats for
    /// readers.
    ///
    /// # Errors
    ///
    /// `NoMemory`.
    pub fn new(
        alloc: Global,
        servers: usize,
        rooms: usize,
        clients: u64,
        readers: usize,
    ) -> Result<Opened, NoMemory>
        requires { 0 < servers }
        ensures { IfOk result (λ opened. (length opened.wires ≡ servers) × (length opened.rooms ≡ rooms) × (opened.parts ≡ clients) × (opened.readers ≡ readers)) }
    {
        let (board, owners, readers) = Board::new(alloc, servers, readers)?;
        let (ends, others) = wires(alloc, servers)?;
        let (room_ends, room_others) = wires(alloc, rooms)?;
        let lent = Lent {
            ends: others,
            room_ends: room_others,
            readers,
            clients,
        };
        Ok(Opened {
            ends,
            room_ends,
            board,
            owners,
            events: Blank::new(clients),
            edus: Blank::new(clients),
            lent,
        })
    }

    // How many clients there will be.
    pub(crate) fn clients(&self) -> u64
        ensures { result ≡ self.now.parts }
    {
        self.lent.clients
    }

    // How many readers of the board there will be.
    pub(crate) fn readers(&self) -> usize
        ensures { result ≡ self.now.readers }
    {
        self.lent.readers.len()
    }
}
