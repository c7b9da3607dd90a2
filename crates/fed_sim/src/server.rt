// What a server keeps.
ghost use Rattle.std.specs.Prelude.{◌≡◌, ◌<◌, ◌≤◌, IfOk, length, map, option_map, string_bytes};
ghost use Rattle.std.specs.List.{range_with_len};
ghost use Rattle.fed_sim.specs.Way.{ways_of, new_way};
ghost use Rattle.fed_sim.specs.NewServer.{IsNewServer};
ghost use Rattle.fed_sim.specs.Ways.{way_to};

use crate::hosted::Hosted;
use crate::way::Way;
use fed_dest::{List, ServerIndex};
use fed_event::StandIn;
use fed_inbox::Inbox;
use fed_journal::Journal;
use fed_json::NoMemory;
use fed_replies::PackedStore;
use std::alloc::Global;

/// A server of a world: its rooms, in the order of the setup, its journal, the way to each destination, and its inbox.
#[derive(Drop)]
pub(crate) struct Server {
    pub(crate) own: ServerIndex,
    pub(crate) keys: StandIn,
    pub(crate) rooms: Vec<Hosted>,
    pub(crate) journal: Journal,
    pub(crate) ways: Vec<Way>,
    pub(crate) inbox: Inbox<PackedStore>,
}

impl Server {
    ghost use Rattle.fed_sim.specs.ServerParts.{server_of};

    /// A server that has sent and taken nothing, with these rooms.
    pub(crate) fn new(
        alloc: Global,
        own: ServerIndex,
        list: &List,
        known: &[String],
        rooms: Vec<Hosted>,
    ) -> Result<Server, NoMemory>
        requires { own < length list.now }
        ensures { IfOk result (λ s. IsNewServer list.now (map string_bytes known.now) own rooms.items (server_of s)) }
    {
        let name = list.names()[own.place()].copy(alloc)?;
        let servers = list.copy(alloc)?;
        let known = texts(alloc, known)?;
        let inbox = Inbox::new(alloc, name, servers, known, PackedStore::new(alloc))?;
        Ok(Server {
            own,
            keys: keys_of(alloc, list.name(own))?,
            rooms,
            journal: Journal::new(alloc)?,
            ways: ways(alloc, list.len())?,
            inbox,
        })
    }

    /// The way to a destination: to a listed server other than this one.
    pub(crate) fn way(&self, dest: ServerIndex) -> Option<&Way>
        ensures { option_map (λ way. way.now.way) result ≡ way_to (server_of self.entry.now) dest }
    {
        if dest == self.own {
            return None;
        }
        self.ways.get(dest.place())
    }
}

/// The keys of the server of this name.
pub(crate) fn keys_of(alloc: Global, name: &str) -> Result<StandIn, NoMemory>
    ensures { IfOk result (λ keys. keys ≡ name.now) }
{
    let own = String::from_str(alloc, name)?;
    Ok(StandIn::new(own))
}

// The ways to so many servers.
fn ways(alloc: Global, count: usize) -> Result<Vec<Way>, NoMemory>
    requires { count ≤ 64 }
    ensures { IfOk result (λ ways. ways_of ways.items ≡ map new_way (range_with_len 0 count)) }
{
    let mut ways = Vec::with_capacity(alloc, count)?;
    for place in 0..count {
        ways.push(Way::new(alloc, ServerIndex::new(place)))?;
    }
    Ok(ways)
}

// Equal texts.
fn texts(alloc: Global, texts: &[String]) -> Result<Vec<String>, NoMemory>
    ensures { IfOk result (λ copies. map string_bytes copies.items ≡ map string_bytes texts.now) }
{
    let mut copies = Vec::with_capacity(alloc, texts.len())?;
    for text in texts {
        copies.push(String::from_str(alloc, text)?)?;
    }
    Ok(copies)
}
