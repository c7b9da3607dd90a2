// What a hub is made of, by the words of a script.
use fed_dest::{List, ServerName};
use fed_event::{Checked, StandIn, Version};
use fed_hub::{KeptRoom, Setup};
use fed_room::{Room, started};
use std::alloc::Global;

// The epoch of each hub, by which its transactions are known.
const EPOCH: u64 = 7;

/// The listed servers of a script, in the order of their bytes, and its rooms.
#[derive(Drop)]
pub(crate) struct Scene {
    pub(crate) servers: Vec<String>,
    pub(crate) rooms: Vec<RoomWords>,
}

/// A room's id, its users, and the places of the servers that do without it.
#[derive(Drop)]
pub(crate) struct RoomWords {
    pub(crate) id: String,
    pub(crate) users: Vec<String>,
    pub(crate) absent: Vec<usize>,
}

impl Scene {
    pub(crate) fn new(alloc: Global) -> Scene {
        Scene {
            servers: Vec::new(alloc),
            rooms: Vec::new(alloc),
        }
    }

    /// The place of a listed server.
    pub(crate) fn place(&self, server: &str) -> Option<usize> {
        self.servers.iter().position(|it| it.as_str() == server)
    }

    /// The place of a room among those of the server at a place.
    pub(crate) fn room_place(&self, place: usize, id: &str) -> Option<usize> {
        self.rooms
            .iter()
            .filter(|room| !room.absent.contains(&place))
            .position(|room| room.id.as_str() == id)
    }

    /// How many rooms the server at a place has.
    pub(crate) fn room_count(&self, place: usize) -> usize {
        self.rooms
            .iter()
            .filter(|room| !room.absent.contains(&place))
            .count()
    }

    /// The setup of the server at a place.
    pub(crate) fn setup(&self, alloc: Global, place: usize) -> Option<Setup<StandIn>> {
        let own = self.servers.get(place)?;
        let mut rooms = Vec::new(alloc);
        for room in &self.rooms {
            if !room.absent.contains(&place) {
                rooms.push(self.kept_room(alloc, own, room)?).ok()?;
            }
        }
        Some(Setup {
            own: ServerName::read(alloc, own).ok()?,
            list: self.list(alloc)?,
            rooms,
            keys: keys_of(alloc, own)?,
            epoch: EPOCH,
        })
    }

    fn list(&self, alloc: Global) -> Option<List> {
        let mut names = Vec::new(alloc);
        for server in &self.servers {
            names.push(ServerName::read(alloc, server).ok()?).ok()?;
        }
        List::new(names).ok()
    }

    // A room as the server of this name begins with it, under a lock.
    fn kept_room(&self, alloc: Global, own: &str, room: &RoomWords) -> Option<KeptRoom> {
        KeptRoom::start(alloc, own, self.beginning(alloc, room)?).ok()
    }

    /// A room as the server of this name begins with it.
    pub(crate) fn room(&self, alloc: Global, own: &str, id: &str) -> Option<Room> {
        let words = self.room_words(id)?;
        Room::start(alloc, own, self.beginning(alloc, words)?).ok()
    }

    // The words of the room of this id.
    fn room_words(&self, id: &str) -> Option<&RoomWords> {
        self.rooms.iter().find(|room| room.id.as_str() == id)
    }

    // The events that a room begins with, signed by the servers of its users.
    fn beginning(&self, alloc: Global, room: &RoomWords) -> Option<Vec<Checked>> {
        let mut keys = Vec::new(alloc);
        for server in &self.servers {
            keys.push(keys_of(alloc, server)?).ok()?;
        }
        started(alloc, Version::V10, &room.id, &room.users, &keys).ok()
    }
}

/// The keys of a server.
pub(crate) fn keys_of(alloc: Global, server: &str) -> Option<StandIn> {
    Some(StandIn::new(String::from_str(alloc, server).ok()?))
}
