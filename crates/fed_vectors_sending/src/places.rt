// The places of servers in a list of servers, which calls name.

use fed_dest::{MAX_SERVERS, ServerIndex, ServerSet};
use fed_json::JsonRef;
use fed_vectors_call::{Arguments, Stop};

/// The place of a server.
pub(crate) fn server(call: Arguments<'_>, name: &str) -> Result<ServerIndex, Stop> {
    match server_in(call.get(name)?) {
        Some(server) => Ok(server),
        None => Err(call.wrong_kind(name)),
    }
}

/// Places of servers.
pub(crate) fn servers(call: Arguments<'_>, name: &str) -> Result<Vec<ServerIndex>, Stop> {
    let mut servers = Vec::new(call.alloc);
    for item in call.items(name)? {
        match server_in(item) {
            Some(server) => servers.push(server)?,
            None => return Err(call.wrong_kind(name)),
        }
    }
    Ok(servers)
}

/// Places of servers, which rise.
pub(crate) fn server_set(call: Arguments<'_>, name: &str) -> Result<ServerSet, Stop> {
    match ServerSet::rising(servers(call, name)?) {
        Some(servers) => Ok(servers),
        None => Err(call.wrong_kind(name)),
    }
}

// The place of a server that a value is.
fn server_in(value: JsonRef<'_>) -> Option<ServerIndex> {
    let place = usize::try_from(value.whole()?).ok()?;
    if place >= MAX_SERVERS {
        return None;
    }
    Some(ServerIndex::new(place))
}
