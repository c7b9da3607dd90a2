// The rooms of a hub.
ghost use Rattle.std.specs.Prelude.{◌≡◌, ◌<◌, ◌≤◌, length, vec_capacity, [], true, is_some, OnOk, OnErr, IsErrOf, Err};
ghost use Rattle.fed_hub_state.specs.KeptRoom.{id_of};
ghost use Rattle.fed_hub.specs.Rooms.{IsWithRoom};
ghost use Rattle.fed_hub.specs.Setup.{has_room};
ghost use Rattle.fed_hub.specs.declared.faults.HubFault.TheVariants.{BadSetup};

use crate::faults::HubFault;
use crate::locking::{lock, unlock};
use fed_hub_state::KeptRoom;
use std::alloc::Global;
use std::collections::BTreeMap;
use std::marker::Model;
use std::sync::Mutex;

/// Rooms, each under a lock of its own, in the order of their places, and these places by the rooms' ids.
///
/// Contracts see the ids, and how many rooms there are.
#[derive(Drop)]
pub(crate) struct Rooms {
    rooms: Vec<Mutex<KeptRoom>>,
    places: BTreeMap<String, usize>,
}

impl Model for Rooms {
    ghost use Rattle.std.specs.Prelude.{All, ◌<◌, length, map, string_bytes};
    ghost use Rattle.std.specs.BTreeMap.{IsOrdered, values};
    ghost use Rattle.std.specs.String.{string_cmp};
    ghost use Rattle.fed_hub.specs.Rooms.{RoomsShape, rooms_code};

    ghost Value = { RoomsShape };

    ghost coded = { rooms_code };

    ghost view = { λ r. record { ids = map (λ e. string_bytes e.0) r.places.entries; count = length r.rooms.items } };

    ghost invariant = { λ r. IsOrdered string_cmp r.places × All (λ place. place < length r.rooms.items) (values r.places) };
}

impl Rooms {
    /// No room.
    pub(crate) fn new(alloc: Global) -> Rooms
        ensures { result ≡ record { ids = []; count = 0 } }
    {
        Rooms {
            rooms: Vec::new(alloc),
            places: BTreeMap::new(alloc),
        }
    }

    /// The room of this id.
    pub(crate) fn get(&self, id: &str) -> Option<&Mutex<KeptRoom>>
        ensures { is_some result ≡ has_room self.now.ids id.now }
    {
        let place = *self.places.get(id)?;
        Some(&self.rooms[place])
    }

    /// The room at this place.
    pub(crate) fn at(&self, place: usize) -> &Mutex<KeptRoom>
        requires { place < self.now.count }
    {
        &self.rooms[place]
    }

    /// Adds a room behind those that there are.
    ///
    /// # Errors
    ///
    /// `BadSetup` where there is one of its id, told without memory, and `Memory`; then all is as it was.
    pub(crate) fn add(&mut self, alloc: Global, room: KeptRoom) -> Result<(), HubFault>
        ensures added { OnOk result (IsWithRoom (id_of room) self.old self.new) }
        ensures same { OnErr result (self.new ≡ self.old) }
        ensures doubled { has_room self.old.ids (id_of room) ≡ true → result ≡ Err BadSetup }
        ensures bad_only { IsErrOf result BadSetup → has_room self.old.ids (id_of room) ≡ true }
    {
        if self.get(room.id()).is_some() {
            return Err(HubFault::BadSetup);
        }
        let id = String::from_str(alloc, room.id())?;
        self.rooms.reserve(1)?;
        let place = self.rooms.len();
        if let Err(refused) = self.places.insert(id, place) {
            drop(refused);
            return Err(HubFault::Memory);
        }
        self.rooms.push_reserved(Mutex::new(room));
        Ok(())
    }
}

/// Rooms whose locks were opened for good: all but what lay under the locks, which can go back without memory.
///
/// Contracts see the ids, and how many rooms there were.
#[derive(Drop)]
pub(crate) struct OpenRooms {
    locks: Vec<Mutex<KeptRoom>>,
    places: BTreeMap<String, usize>,
    count: usize,
}

impl Model for OpenRooms {
    ghost use Rattle.std.specs.Prelude.{◌≡◌, ◌<◌, ◌≤◌, [], All, map, string_bytes, vec_capacity};
    ghost use Rattle.std.specs.BTreeMap.{IsOrdered, values};
    ghost use Rattle.std.specs.String.{string_cmp};
    ghost use Rattle.fed_hub.specs.Rooms.{RoomsShape, rooms_code};

    ghost Value = { RoomsShape };

    ghost coded = { rooms_code };

    ghost view = { λ r. record { ids = map (λ e. string_bytes e.0) r.places.entries; count = r.count } };

    ghost invariant = { λ r. IsOrdered string_cmp r.places × (All (λ place. place < r.count) (values r.places) × ((r.locks.items ≡ []) × (r.count ≤ vec_capacity r.locks))) };
}

impl Rooms {
    /// How many rooms there are.
    pub(crate) fn len(&self) -> usize
        ensures { result ≡ self.now.count }
    {
        self.rooms.len()
    }

    /// Opens the locks of all rooms, and gives the rooms in the order of their places. There is room for them, so that it takes no memory.
    pub(crate) fn open(self, mut rooms: Vec<KeptRoom>) -> (OpenRooms, Vec<KeptRoom>)
        requires empty { length rooms.items ≡ 0 }
        requires room { self.count ≤ vec_capacity rooms }
        ensures rest { result.0 ≡ self }
        ensures rooms { length result.1.items ≡ self.count }
    {
        let Rooms {
            rooms: mut locks,
            places,
        } = self;
        let count = locks.len();
        unlock(&mut locks, &mut rooms);
        (
            OpenRooms {
                locks,
                places,
                count,
            },
            rooms,
        )
    }
}

impl OpenRooms {
    /// Puts the rooms, in the order of their places, under their locks again. It takes no memory.
    pub(crate) fn close(self, mut rooms: Vec<KeptRoom>) -> Rooms
        requires { length rooms.items ≡ self.count }
        ensures { result ≡ self }
    {
        let OpenRooms {
            mut locks,
            places,
            count: _,
        } = self;
        lock(&mut rooms, &mut locks);
        Rooms {
            rooms: locks,
            places,
        }
    }
}
