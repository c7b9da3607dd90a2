// The servers that are joined in a room.
ghost use Rattle.std.specs.Prelude.{◌≡◌, ℕ, IfOk, option_map};
ghost use Rattle.fed_room_contract.specs.Entry.{seen};
ghost use Rattle.fed_dest.specs.ServerSet.{is_among};
ghost use Rattle.fed_dest.specs.Joined.{membership_of, says_join, joins_server, is_join, is_joined_place, is_destination};
ghost use Rattle.fed_dest.specs.JoinedParts.{joined_by};

use crate::list::List;
use crate::server_index::ServerIndex;
use crate::server_name::ServerName;
use crate::server_set::ServerSet;
use fed_event::{EventId, Pdu, domain};
use fed_json::NoMemory;
use fed_room_contract::{Entry, Graph, State};
use std::alloc::Global;

/// The listed servers of which some user is joined in a room (Client-Server API, "m.room.member"), by its state and its stored events.
/// Each entry of the state is looked at once.
pub fn joined_servers(
    alloc: Global,
    graph: &Graph,
    state: &State,
    servers: &List,
) -> Result<ServerSet, NoMemory>
    ensures { IfOk result (λ joined. (place : ℕ) → is_among joined place
        ≡ is_joined_place graph.now.stored state.now servers.now place) }
{
    let entries = state.entries(alloc)?;
    let mut joined = Vec::with_capacity(alloc, servers.len())?;
    for entry in &entries {
        if let Some(server) = server_joined_by(graph, servers, entry)
            && !joined.contains(&server)
        {
            joined.push(server)?;
        }
    }
    joined.sort_unstable();
    Ok(ServerSet::of(joined))
}

/// The listed servers that an event is sent to: those of which some user is joined in the room in the state before it, other than the
/// own one (Server-Server API, "PDUs").
pub fn destinations(
    alloc: Global,
    graph: &Graph,
    state: &State,
    own: ServerIndex,
    servers: &List,
) -> Result<ServerSet, NoMemory>
    ensures { IfOk result (λ others. (place : ℕ) → is_among others place
        ≡ is_destination graph.now.stored state.now servers.now own place) }
{
    let mut others = joined_servers(alloc, graph, state, servers)?.into_vec();
    others.retain(|server| *server != own);
    Ok(ServerSet::of(others))
}

/// Whether a user of this server is joined by an event (Client-Server API, "m.room.member"): the event is a member event of that user, and the
/// membership in its content is `join`.
pub fn joins_server(event: &Pdu, server: &ServerName) -> bool
    ensures { result ≡ joins_server server.now event.now }
{
    match event.state_key() {
        Some(state_key) => {
            event.kind() == "m.room.member"
                && domain(state_key) == server.as_str()
                && says_join(event)
        }
        None => false,
    }
}

// The listed server whose user an entry joins.
fn server_joined_by(graph: &Graph, servers: &List, entry: &Entry<'_>) -> Option<ServerIndex>
    ensures { result ≡ joined_by graph.now.stored servers.now (seen entry.entry.now) }
{
    if entry.kind == "m.room.member" && is_join(graph, entry.id) {
        servers.find(domain(entry.state_key))
    } else {
        None
    }
}

// Whether the event of this id is stored and says that its user is joined.
fn is_join(graph: &Graph, id: &EventId) -> bool
    ensures { result ≡ is_join graph.now.stored id.now }
{
    match graph.get(id.as_str()) {
        Some(stored) => says_join(stored.event.event()),
        None => false,
    }
}

// Whether the membership in the event's content is `join`.
fn says_join(event: &Pdu) -> bool
    ensures { result ≡ says_join event.now }
{
    match membership(event) {
        Some(membership) => membership == "join",
        None => false,
    }
}

// The membership in the event's content, where it is a text.
fn membership(event: &Pdu) -> Option<&str>
    ensures { option_map (λ text. text.now) result ≡ membership_of event.now }
{
    event.content().member("membership")?.text()
}
