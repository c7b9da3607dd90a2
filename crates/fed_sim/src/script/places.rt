// Servers that the words of a line name.
ghost use Rattle.std.specs.Prelude.{◌≡◌, ◌≢◌, ◌∷◌, [], false, Some, None, IfOk, IfErr, bytes_eq};
ghost use Rattle.std.specs.List.{list_any};
ghost use Rattle.fed_dest.specs.List.{place_of};
ghost use Rattle.fed_sim.specs.ScriptSteps.{ArePlaces, are_listed, two_servers, names_in};
ghost use Rattle.fed_sim.specs.declared.script.faults.LineFault.TheVariants.{Memory, Wrong};
ghost use Rattle.fed_sim.specs.declared.script.faults.ScriptError.TheVariants.{WrongWords, UnknownServer};

use super::faults::{LineFault, ScriptError};
use super::words::two_words;
use fed_dest::{List, ServerIndex, ServerSet};
use std::alloc::Global;

/// A server and another one, by their names.
#[derive(Clone, Copy)]
pub(crate) struct Pair<'a> {
    server: &'a str,
    other: &'a str,
}

impl<'a> Pair<'a> {
    /// The two servers that a text names.
    pub(crate) fn read(text: &'a str) -> Result<Pair<'a>, ScriptError>
        ensures ok { IfOk result (λ pair. two_servers text.now ≡ Some (pair.server.now, pair.other.now)) }
        ensures wrong { IfErr result (λ fault. (fault ≡ WrongWords) × (two_servers text.now ≡ None)) }
    {
        let (server, other) = two_words(text)?;
        if server == other {
            return Err(ScriptError::WrongWords);
        }
        Ok(Pair { server, other })
    }

    /// Their places.
    pub(crate) fn places(self, servers: &List) -> Result<(ServerIndex, ServerIndex), ScriptError>
        ensures ok { IfOk result (λ places. (place_of servers.now self.entry.server.now ≡ Some places.0) × (place_of servers.now self.entry.other.now ≡ Some places.1)) }
        ensures unknown { IfErr result (λ fault. (fault ≡ UnknownServer) × (are_listed servers.now (self.entry.server.now ∷ self.entry.other.now ∷ []) ≡ false)) }
    {
        let server = place_of(servers, self.server)?;
        let other = place_of(servers, self.other)?;
        Ok((server, other))
    }
}

/// The place of the server of this name.
pub(crate) fn place_of(servers: &List, name: &str) -> Result<ServerIndex, ScriptError>
    ensures ok { IfOk result (λ place. place_of servers.now name.now ≡ Some place) }
    ensures unknown { IfErr result (λ fault. (fault ≡ UnknownServer) × (place_of servers.now name.now ≡ None)) }
{
    servers.find(name).ok_or(ScriptError::UnknownServer)
}

/// The servers of these names, which have commas between them.
pub(crate) fn set_of(alloc: Global, servers: &List, names: &str) -> Result<ServerSet, LineFault>
    ensures ok { IfOk result (λ set. ArePlaces servers.now (names_in names.now) set) }
    ensures unknown { IfErr result (λ fault. fault ≢ Memory → (fault ≡ Wrong UnknownServer) × (are_listed servers.now (names_in names.now) ≡ false)) }
{
    let mut places = Vec::new(alloc);
    for name in names.split(',') {
        let place = place_of(servers, name)?;
        if !places.contains(&place) {
            places.push(place)?;
        }
    }
    places.sort_unstable();
    Ok(ServerSet::of(places))
}

/// Whether a name is among these, which have commas between them.
pub(crate) fn is_named(names: &str, name: &str) -> bool
    ensures { result ≡ list_any (λ other. bytes_eq other name.now) (names_in names.now) }
{
    names.split(',').any(|other| other == name)
}
