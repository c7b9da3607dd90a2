// Calls on the names of servers, lists of them, and the servers that an event is sent to.

use fed_dest::{List, NameFault, ServerIndex, ServerName, ServerSet};
use fed_room_contract::{Graph, State};
use fed_vectors_call::{Answer, Arguments, List as Values, Object, Stop, count, null, text};
use fed_vectors_events::KeyRing;
use fed_vectors_graphs::{graph, state};
use std::alloc::Global;

pub fn server_name(call: Arguments<'_>) -> Answer {
    let name = name_of(call.alloc, call.text("text")?)?;
    text(call.alloc, name.as_str())
}

fn name_of(alloc: Global, text: &str) -> Result<ServerName, Stop> {
    match ServerName::read(alloc, text) {
        Ok(name) => Ok(name),
        Err(NameFault::Memory) => Err(Stop::Memory),
        Err(fault) => Err(Stop::error(format!(in alloc; "{fault}"))),
    }
}

/// The names in the order of their bytes, or the place of the one that `find` names.
pub fn servers(call: Arguments<'_>) -> Answer {
    let servers = listed(call)?;
    if call.find("find").is_none() {
        return names(call.alloc, servers.names());
    }
    match servers.find(call.text("find")?) {
        Some(server) => count(call.alloc, server.place() as u64),
        None => null(call.alloc),
    }
}

// The list of the servers of `servers`.
fn listed(call: Arguments<'_>) -> Result<List, Stop> {
    let mut names = Vec::new(call.alloc);
    for name in &call.strings("servers")? {
        names.push(name_of(call.alloc, name)?)?;
    }
    match List::new(names) {
        Ok(servers) => Ok(servers),
        Err(fault) => Err(Stop::error(format!(in call.alloc; "{fault}"))),
    }
}

fn names(alloc: Global, names: &[ServerName]) -> Answer {
    let mut list = Values::new(alloc);
    for name in names {
        list = list.with(text(alloc, name.as_str()));
    }
    list.into_answer()
}

/// The listed servers that are joined in a state, and those of them that an event is sent to.
pub fn destinations(call: Arguments<'_>) -> Answer {
    let servers = listed(call)?;
    let Some(own) = servers.find(call.text("own")?) else {
        return Err(call.wrong_kind("own"));
    };
    let keys = KeyRing::of(call, "")?;
    destinations_under(call, &keys, own, &servers)
}

fn destinations_under(
    call: Arguments<'_>,
    keys: &KeyRing,
    own: ServerIndex,
    servers: &List,
) -> Answer {
    let graph = graph(call, keys)?;
    let state = state(call, &graph)?;
    Object::new(call.alloc)
        .with(
            "destinations",
            sent_to(call.alloc, &graph, &state, own, servers),
        )
        .with("joined", joined(call.alloc, &graph, &state, servers))
        .into_answer()
}

fn sent_to(
    alloc: Global,
    graph: &Graph,
    state: &State,
    own: ServerIndex,
    servers: &List,
) -> Answer {
    let others = fed_dest::destinations(alloc, graph, state, own, servers)?;
    names_at(alloc, &others, servers)
}

fn joined(alloc: Global, graph: &Graph, state: &State, servers: &List) -> Answer {
    let joined = fed_dest::joined_servers(alloc, graph, state, servers)?;
    names_at(alloc, &joined, servers)
}

// The names of the servers of a set.
fn names_at(alloc: Global, set: &ServerSet, servers: &List) -> Answer {
    let mut list = Values::new(alloc);
    for server in set.as_slice() {
        list = list.with(match servers.names().get(server.place()) {
            Some(name) => text(alloc, name.as_str()),
            None => null(alloc),
        });
    }
    list.into_answer()
}
