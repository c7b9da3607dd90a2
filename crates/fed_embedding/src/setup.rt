// What the server is made of.
ghost use Rattle.std.specs.Prelude.{◌≤◌};

use fed_dest::{List, ServerName};
use fed_event::{StandIn, Version};
use fed_hub::{KeptRoom, Setup};
use fed_json::Json;
use fed_room::started;
use fed_room_contract::Draft;
use std::alloc::Global;

/// The other server of the room, and this one; their places in the list are those of their names.
pub(crate) const PEER: &str = "a.example";

const OWN: &str = "b.example";

const ROOM: &str = "!r:a.example";

const USERS: [&str; 2] = ["@u:a.example", "@v:b.example"];

/// The server b.example with its room and so many peers; its keys are the stand-in, in place of a caller's own `Keys`.
pub(crate) fn setup(alloc: Global, epoch: u64, peers: u64) -> Option<Setup<StandIn>> {
    Some(Setup {
        own: ServerName::read(alloc, OWN).ok()?,
        list: servers(alloc, peers)?,
        rooms: rooms(alloc)?,
        keys: StandIn::new(text(alloc, OWN)?),
        epoch,
    })
}

// The list of the server and its peers: a.example, p1.example, p2.example and so on.
fn servers(alloc: Global, peers: u64) -> Option<List> {
    let mut names = Vec::new(alloc);
    names.push(ServerName::read(alloc, PEER).ok()?).ok()?;
    names.push(ServerName::read(alloc, OWN).ok()?).ok()?;
    for number in 1..peers {
        let name = format!(in alloc; "p{number}.example").ok()?;
        names.push(ServerName::read(alloc, &name).ok()?).ok()?;
    }
    List::new(names).ok()
}

// The room, which begins with events that both servers have signed.
fn rooms(alloc: Global) -> Option<Vec<KeptRoom>> {
    let mut keys = Vec::new(alloc);
    for name in [PEER, OWN] {
        keys.push(StandIn::new(text(alloc, name)?)).ok()?;
    }
    let users = texts(alloc, &USERS)?;
    let events = started(alloc, Version::V10, ROOM, &users, &keys).ok()?;
    let mut rooms = Vec::new(alloc);
    rooms.push(KeptRoom::start(alloc, OWN, events).ok()?).ok()?;
    Some(rooms)
}

fn text(alloc: Global, text: &str) -> Option<String> {
    String::from_str(alloc, text).ok()
}

fn texts(alloc: Global, texts: &[&str]) -> Option<Vec<String>> {
    let mut copies = Vec::with_capacity(alloc, texts.len()).ok()?;
    for one in texts {
        copies.push(text(alloc, *one)?).ok()?;
    }
    Some(copies)
}

/// A message of the server's user, with this content.
pub(crate) fn draft(alloc: Global, content: Json, at_ms: u64) -> Option<Draft>
    requires { at_ms ≤ 9007199254740991 }
{
    Some(Draft {
        room: text(alloc, ROOM)?,
        sender: text(alloc, USERS[1])?,
        kind: text(alloc, "m.room.message")?,
        state_key: None,
        content,
        at_ms,
    })
}
