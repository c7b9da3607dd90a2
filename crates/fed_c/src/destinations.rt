//! The servers that an event goes to.
ghost use Rattle.std.specs.Prelude.{◌≡◌, ◌≢◌, ◌∷◌, ◌++◌, [], ℕ, List, Ok, Err, IfOk, IfErr, IsErrAnd, OnOk};
ghost use Rattle.std.specs.List.{list_any};
ghost use Rattle.serde_json.specs.Data.{string};
ghost use Rattle.fed_redaction.specs.declared.version.Version.{Version};
ghost use Rattle.fed_redaction.specs.declared.version.Version.TheVariants.{V10};
ghost use Rattle.fed_json.specs.Items.{left};
ghost use Rattle.fed_json.specs.JsonRef.{seen};
ghost use Rattle.fed_dest.specs.Joined.{joins_server};
ghost use Rattle.fed_dest.specs.ServerName.{IsServerName};
ghost use Rattle.fed_c.specs.Destinations.{AreServers, destinations_answer, sent_to, servers_fault, texts_value};
ghost use Rattle.fed_c.specs.DestinationsParts.{AreNames, HasNoNames, IsNoName};
ghost use Rattle.fed_c.specs.Output.{Gives};
ghost use Rattle.fed_c.specs.Values.{value_of};
ghost use Rattle.fed_c.specs.declared.status.Status.TheVariants.{Memory, BadServers};

use crate::output::{Answer, give};
use crate::state_events::{made_of, state_events};
use crate::status::Status;
use crate::values::value;
use fed_dest::{NameFault, ServerName, joins_server};
use fed_event::{Pdu, Version};
use fed_json::{Items, Json, JsonRef, NoMemory, canonical};
use std::alloc::Global;

/// The servers that an event goes to (Server-Server API, "PDUs"), by the state before it: the canonical text of an array of those of `servers`,
/// in their order, that have a user who is joined, without the own one. They are the same in every room version. The events of the state are looked at
/// once for each server.
///
/// `state` is an array of the events that hold before the event, of which the member events are enough, and `servers` one of the names of servers.
///
/// Returns the first of these faults: of `servers`, `NotJson`, `NotCanonical` and `BadServers`; of `state`, `NotJson`, `NotCanonical`, `BadEvents`
/// where it is no array of events, and `BadState` where one is no state event or two stand at one type and state key.
#[unsafe(no_mangle)]
pub extern "C" fn wikzord_destinations(
    alloc: Global,
    state: &[u8],
    servers: &[u8],
    own: &[u8],
    out: &mut [u8],
    needed: &mut usize,
) -> u32
    ensures gives { (version : Version) (names : List (List ℕ)) → AreServers (value_of servers.now) names
        → Gives (destinations_answer version (value_of state.now) names own.now) result
        (record { before = out.old; after = out.new; told_before = needed.old; told = needed.new }) }
    ensures refuses { ((names : List (List ℕ)) → ¬ AreServers (value_of servers.now) names)
        → Gives (Err (servers_fault (value_of servers.now))) result
        (record { before = out.old; after = out.new; told_before = needed.old; told = needed.new }) }
{
    give(destinations(alloc, state, servers, own), out, needed)
}

fn destinations(alloc: Global, state: &[u8], servers: &[u8], own: &[u8]) -> Answer
    ensures ok { (names : List (List ℕ)) → AreServers (value_of servers.now) names
        → IfOk result (λ bytes. destinations_answer V10 (value_of state.now) names own.now ≡ Ok bytes.items) }
    ensures fault { (names : List (List ℕ)) → AreServers (value_of servers.now) names
        → IfErr result (λ status. status ≢ Memory → destinations_answer V10 (value_of state.now) names own.now ≡ Err status) }
    ensures none { ((names : List (List ℕ)) → ¬ AreServers (value_of servers.now) names)
        → IsErrAnd result (λ status. status ≢ Memory → servers_fault (value_of servers.now) ≡ status) }
{
    let servers = servers_of(alloc, servers)?;
    by_servers(alloc, state, &servers, own)
}

// The servers of an array of names.
fn servers_of(alloc: Global, text: &[u8]) -> Result<Vec<ServerName>, Status>
    ensures ok { IfOk result (λ servers. AreServers (value_of text.now) servers.items) }
    ensures fault { IfErr result (λ status. status ≢ Memory
        → (servers_fault (value_of text.now) ≡ status) × ((names : List (List ℕ)) → ¬ AreServers (value_of text.now) names)) }
{
    let json = value(alloc, text)?;
    let items = json.items().ok_or(Status::BadServers)?;
    names_of(alloc, items)
}

// The names that these items are.
fn names_of(alloc: Global, items: Items<'_>) -> Result<Vec<ServerName>, Status>
    ensures ok { IfOk result (λ names. AreNames (left items.entry) names.items) }
    ensures fault { IfErr result (λ status. status ≢ Memory → (status ≡ BadServers) × HasNoNames (left items.entry)) }
{
    let mut names = Vec::new(alloc);
    for item in items {
        let name = name_of(alloc, item)?;
        add(&mut names, name)?;
    }
    Ok(names)
}

fn add(names: &mut Vec<ServerName>, name: ServerName) -> Result<(), NoMemory>
    ensures { OnOk result (names.new.items ≡ names.old.items ++ name ∷ []) }
{
    names.push(name)?;
    Ok(())
}

// The name that a value is.
fn name_of(alloc: Global, value: JsonRef<'_>) -> Result<ServerName, Status>
    ensures ok { IfOk result (λ name. seen value.entry ≡ string name) }
    ensures name { IfOk result IsServerName }
    ensures fault { IfErr result (λ status. status ≢ Memory → (status ≡ BadServers) × IsNoName (seen value.entry)) }
{
    let text = value.text().ok_or(Status::BadServers)?;
    match ServerName::read(alloc, text) {
        Ok(name) => Ok(name),
        Err(NameFault::Memory) => Err(Status::Memory),
        Err(NameFault::BadName) => Err(Status::BadServers),
    }
}

// The answer by the servers.
fn by_servers(alloc: Global, state: &[u8], servers: &[ServerName], own: &[u8]) -> Answer
    ensures ok { IfOk result (λ bytes. destinations_answer V10 (value_of state.now) servers.now own.now ≡ Ok bytes.items) }
    ensures fault { IfErr result (λ status. status ≢ Memory → destinations_answer V10 (value_of state.now) servers.now own.now ≡ Err status) }
{
    let held = state_events(alloc, Version::V10, state)?;
    let _state = made_of(alloc, &held)?;
    let names = sent_to(alloc, &held, servers, own)?;
    Ok(canonical(alloc, &names)?)
}

// The names of those of these servers that an event goes to.
fn sent_to(
    alloc: Global,
    held: &[Pdu],
    servers: &[ServerName],
    own: &[u8],
) -> Result<Json, NoMemory>
    ensures { IfOk result (λ json. json ≡ texts_value (sent_to held.now servers.now own.now)) }
{
    let mut names = Json::empty_array(alloc);
    for server in servers {
        if is_joined(held, server) && server.as_str().as_bytes() != own {
            names.push(Json::from(String::from_str(alloc, server.as_str())?))?;
        }
    }
    Ok(names)
}

// Whether some user of a server is joined.
fn is_joined(held: &[Pdu], server: &ServerName) -> bool
    ensures { result ≡ list_any (joins_server server.now) held.now }
{
    held.iter().any(|event| joins_server(event, server))
}
