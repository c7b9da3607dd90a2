// What each of the two servers is made of.
ghost use Rattle.std.specs.Prelude.{◌<◌};

use crate::faults::LoopFault;
use fed_dest::{List, ServerName};
use fed_event::{StandIn, Version};
use fed_hub::{KeptRoom, Setup};
use fed_json::NoMemory;
use fed_room::started;
use std::alloc::Global;

/// The servers, by their places.
pub(crate) const SERVERS: [&str; 2] = ["a.example", "b.example"];

/// The room, and a user of each server in it.
pub(crate) const ROOM: &str = "!r:a.example";

pub(crate) const USERS: [&str; 2] = ["@u:a.example", "@v:b.example"];

/// The server at a place, with the room.
pub(crate) fn setup(alloc: Global, place: usize) -> Result<Setup<StandIn>, LoopFault>
    requires { place < 2 }
{
    let name = SERVERS[place];
    let mut rooms = Vec::new(alloc);
    rooms.push(room(alloc, name)?)?;
    Ok(Setup {
        own: ServerName::read(alloc, name)?,
        list: servers(alloc)?,
        rooms,
        keys: StandIn::new(String::from_str(alloc, name)?),
        epoch: 1,
    })
}

// The list of both servers.
fn servers(alloc: Global) -> Result<List, LoopFault> {
    let mut names = Vec::new(alloc);
    for name in SERVERS {
        names.push(ServerName::read(alloc, name)?)?;
    }
    Ok(List::new(names)?)
}

// The room at a server of this name.
fn room(alloc: Global, server: &str) -> Result<KeptRoom, LoopFault> {
    let mut keys = Vec::new(alloc);
    for name in SERVERS {
        keys.push(StandIn::new(String::from_str(alloc, name)?))?;
    }
    let users = texts(alloc, &USERS)?;
    let events = started(alloc, Version::V10, ROOM, &users, &keys)?;
    Ok(KeptRoom::start(alloc, server, events)?)
}

// Copies of texts.
fn texts(alloc: Global, texts: &[&str]) -> Result<Vec<String>, NoMemory> {
    let mut copies = Vec::with_capacity(alloc, texts.len())?;
    for text in texts {
        copies.push(String::from_str(alloc, *text)?)?;
    }
    Ok(copies)
}
