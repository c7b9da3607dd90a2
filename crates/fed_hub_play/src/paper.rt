// Servers that a script plays by itself: they have rooms and make events and requests, and no hub.
use crate::setups::{Scene, keys_of};
use fed_event::{Checked, StandIn};
use fed_exchange::request_bytes;
use fed_json::Json;
use fed_outbox::Transaction;
use fed_room::Room;
use fed_room_contract::{Draft, RoomEngine};
use std::alloc::Global;

/// The rooms of servers that a script plays by itself, each with the events that were made in it.
#[derive(Drop)]
pub(crate) struct Papers {
    rooms: Vec<PaperRoom>,
}

#[derive(Drop)]
struct PaperRoom {
    server: String,
    id: String,
    room: Room,
    made: Vec<Checked>,
}

impl Papers {
    pub(crate) fn new(alloc: Global) -> Papers {
        Papers {
            rooms: Vec::new(alloc),
        }
    }

    /// Makes so many messages of a user of a server in a room, each of which names the one before it; how many were made there in all.
    pub(crate) fn make(
        &mut self,
        alloc: Global,
        scene: &Scene,
        server: &str,
        id: &str,
        user: &str,
        count: u64,
    ) -> Option<usize> {
        let place = match self.place(server, id) {
            Some(place) => place,
            None => self.begin(alloc, scene, server, id)?,
        };
        let keys = keys_of(alloc, server)?;
        let room = self.rooms.get_mut(place)?;
        for _ in 0..count {
            room.make(alloc, user, &keys)?;
        }
        Some(room.made.len())
    }

    fn place(&self, server: &str, id: &str) -> Option<usize> {
        self.rooms
            .iter()
            .position(|it| it.server.as_str() == server && it.id.as_str() == id)
    }

    // Begins a room at a server; its place.
    fn begin(&mut self, alloc: Global, scene: &Scene, server: &str, id: &str) -> Option<usize> {
        let room = PaperRoom {
            server: String::from_str(alloc, server).ok()?,
            id: String::from_str(alloc, id).ok()?,
            room: scene.room(alloc, server, id)?,
            made: Vec::new(alloc),
        };
        self.rooms.push(room).ok()?;
        Some(self.rooms.len() - 1)
    }

    /// The events that a server made in a room, from the first of these numbers to the last, counted from 1.
    fn made(&self, server: &str, id: &str, first: usize, last: usize) -> Option<&[Checked]> {
        let room = self.rooms.get(self.place(server, id)?)?;
        room.made.get(first.checked_sub(1)?..last)
    }

    /// The ids of all events that a server made in a room.
    pub(crate) fn ids(&self, alloc: Global, server: &str, id: &str) -> Option<Vec<String>> {
        let room = self.rooms.get(self.place(server, id)?)?;
        let mut ids = Vec::new(alloc);
        for event in &room.made {
            let id = String::from_str(alloc, event.event().id().as_str()).ok()?;
            ids.push(id).ok()?;
        }
        Some(ids)
    }

    /// The bytes of the request by which a server brings another one the transaction of a number with these events.
    pub(crate) fn request(
        &self,
        alloc: Global,
        server: &str,
        dest: &str,
        number: u64,
        id: &str,
        first: usize,
        last: usize,
    ) -> Option<Vec<u8>> {
        let keys = keys_of(alloc, server)?;
        let transaction = Transaction {
            number,
            at_ms: 0,
            pdus: self.made(server, id, first, last)?,
            edus: &[],
        };
        bytes_of(alloc, &transaction, &keys, dest)
    }
}

fn bytes_of(
    alloc: Global,
    transaction: &Transaction<'_>,
    keys: &StandIn,
    dest: &str,
) -> Option<Vec<u8>> {
    request_bytes(alloc, transaction, 1, keys, dest).ok()
}

impl PaperRoom {
    // Makes and stores one message more.
    fn make(&mut self, alloc: Global, user: &str, keys: &StandIn) -> Option<()> {
        let draft = Draft {
            room: String::from_str(alloc, &self.id).ok()?,
            sender: String::from_str(alloc, user).ok()?,
            kind: String::from_str(alloc, "m.room.message").ok()?,
            state_key: None,
            content: Json::empty_object(alloc),
            at_ms: 0,
        };
        let prepared = self.room.prepare(alloc, draft, keys).ok()?;
        let event = prepared.event().copy(alloc).ok()?;
        self.room.commit(prepared);
        self.made.push(event).ok()?;
        Some(())
    }
}
