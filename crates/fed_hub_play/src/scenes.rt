// The lines with which a script begins.
use crate::setups::{RoomWords, Scene};
use crate::words::Words;
use std::alloc::{AllocError, Global};

/// What the first lines of a script say: the servers and rooms, how many clients each server with a hub has, and how many lines say that.
#[derive(Drop)]
pub(crate) struct Cue {
    pub(crate) scene: Scene,
    /// How many clients the server at each place has; `None` where it has no hub.
    pub(crate) clients: Vec<Option<usize>>,
    pub(crate) lines: usize,
}

impl Cue {
    // Takes a line; `None` where it is none of those with which a script begins.
    fn take(&mut self, alloc: Global, line: &str) -> Option<()> {
        let mut words = Words::new(line);
        match words.word()? {
            "servers" => self.add_servers(alloc, words),
            "paper" => self.set_clients(words.rest(), None),
            "clients" => {
                let (server, count) = (words.word()?, words.number()?);
                self.set_clients(server, Some(count as usize))
            }
            "room" => self.add_room(alloc, words),
            "absent" => self.add_absent(words),
            _ => None,
        }
    }

    // The listed servers, each with a hub and one client.
    fn add_servers(&mut self, alloc: Global, words: Words<'_>) -> Option<()> {
        for word in words.rest().split(' ') {
            let name = String::from_str(alloc, word).ok()?;
            self.scene.servers.push(name).ok()?;
            self.clients.push(Some(1)).ok()?;
        }
        self.scene.servers.sort_unstable();
        Some(())
    }

    // How many clients these servers have.
    fn set_clients(&mut self, servers: &str, count: Option<usize>) -> Option<()> {
        for server in servers.split(' ') {
            let place = self.scene.place(server)?;
            *self.clients.get_mut(place)? = count;
        }
        Some(())
    }

    // A room of these users.
    fn add_room(&mut self, alloc: Global, words: Words<'_>) -> Option<()> {
        let mut words = words;
        let id = String::from_str(alloc, words.word()?).ok()?;
        let mut users = Vec::new(alloc);
        for user in words.rest().split(' ') {
            users.push(String::from_str(alloc, user).ok()?).ok()?;
        }
        let absent = Vec::new(alloc);
        self.scene.rooms.push(RoomWords { id, users, absent }).ok()
    }

    // Rooms that a server does without.
    fn add_absent(&mut self, words: Words<'_>) -> Option<()> {
        let mut words = words;
        let place = self.scene.place(words.word()?)?;
        for id in words.rest().split(' ') {
            let room = self.scene.rooms.iter_mut().find(|it| it.id.as_str() == id)?;
            room.absent.push(place).ok()?;
        }
        Some(())
    }
}

/// Reads the lines with which a script begins.
///
/// # Errors
///
/// Where memory runs out.
pub(crate) fn read_scene(alloc: Global, text: &str) -> Result<Cue, AllocError> {
    let mut cue = Cue {
        scene: Scene::new(alloc),
        clients: Vec::new(alloc),
        lines: 0,
    };
    for (number, line) in text.lines().enumerate() {
        cue.lines = number;
        if line.is_empty() || line.starts_with("#") {
            continue;
        }
        if cue.take(alloc, line).is_none() {
            break;
        }
    }
    Ok(cue)
}
