// The servers that a server sends to and takes from.
ghost use Rattle.std.specs.Prelude.{◌≡◌, ◌<◌, ◌≤◌, Some, Err, IsOk, IfOk, IfSome, IfNone, length, slice_get, bytes_eq};
ghost use Rattle.std.specs.List.{list_any};
ghost use Rattle.std.specs.List.Sorted.{IsPermutation};
ghost use Rattle.fed_dest.specs.ServerName.{IsServerName};
ghost use Rattle.fed_dest.specs.List.{list_fault, has_doubled, place_of};
ghost use Rattle.fed_dest.specs.ListParts.{AreInOrder};

use crate::server_index::{MAX_SERVERS, ServerIndex};
use crate::server_name::ServerName;
use fed_json::NoMemory;
use std::alloc::Global;
use std::marker::Model;
use thiserror::Error;

/// From 1 to `MAX_SERVERS` different servers, in the order of the bytes of their names: those that a server sends to and takes from.
///
/// Contracts see it as the list of these bytes.
#[derive(Drop)]
pub struct List {
    names: Vec<ServerName>,
}

impl Model for List {
    ghost use Rattle.std.specs.Prelude.{ℕ, List as Items};
    ghost use Rattle.std.specs.Coded.{coded_ℕ, coded_list};
    ghost use Rattle.fed_dest.specs.ListParts.{IsServerList};

    ghost Value = { Items (Items ℕ) };

    ghost coded = { coded_list (coded_list coded_ℕ) };

    ghost view = { λ l. l.names.items };

    ghost invariant = { λ l. IsServerList l.names.items };
}

impl List {
    /// The servers of these names, in the order of their bytes. It takes no memory.
    ///
    /// # Errors
    ///
    /// The first of these that holds: `Empty` where there is no name, `TooMany` where there are more than `MAX_SERVERS`, `Doubled` where
    /// one stands there twice.
    pub fn new(names: Vec<ServerName>) -> Result<List, ListFault>
        ensures fault { IfSome (list_fault names.items) (λ fault. result ≡ Err fault) }
        ensures listed { IfNone (list_fault names.items) (IsOk result) }
        ensures names { IfOk result (λ list. IsPermutation names.items list) }
        ensures order { IfOk result (λ list. AreInOrder list) }
    {
        if names.is_empty() {
            return Err(ListFault::Empty);
        }
        if names.len() > MAX_SERVERS {
            return Err(ListFault::TooMany);
        }
        let mut names = names;
        names.sort_unstable();
        if !names.is_sorted_by(|name, next| name < next) {
            return Err(ListFault::Doubled);
        }
        Ok(List { names })
    }

    /// How many servers are listed.
    pub fn len(&self) -> usize
        ensures len { result ≡ length self.now }
        ensures least { 1 ≤ result }
        ensures most { result ≤ MAX_SERVERS }
        ensures order { AreInOrder self.now }
    {
        self.names.len()
    }

    /// The name of the server at a place.
    pub fn name(&self, server: ServerIndex) -> &str
        requires { server < length self.now }
        ensures text { slice_get self.now server ≡ Some result.now }
        ensures name { IsServerName result.now }
    {
        self.names[server.place()].as_str()
    }

    /// The names, in the order of their bytes.
    pub fn names(&self) -> &[ServerName]
        ensures names { result.now ≡ self.now }
        ensures order { AreInOrder self.now }
    {
        self.names.as_slice()
    }

    /// The names, to keep.
    pub fn into_names(self) -> Vec<ServerName>
        ensures names { result.items ≡ self }
        ensures order { AreInOrder self }
    {
        let List { names } = self;
        names
    }

    /// The place of the server of this name, if it is listed.
    pub fn find(&self, name: &str) -> Option<ServerIndex>
        ensures place { result ≡ place_of self.now name.now }
        ensures within { IfSome result (λ place. place < length self.now) }
    {
        let place = self
            .names
            .binary_search_by(|other| other.as_str().cmp(name))
            .ok()?;
        Some(ServerIndex::new(place))
    }

    /// An equal list.
    pub fn copy(&self, alloc: Global) -> Result<List, NoMemory>
        ensures { IfOk result (λ copy. copy ≡ self.now) }
    {
        let mut names = Vec::with_capacity(alloc, self.names.len())?;
        for name in &self.names {
            names.push(name.copy(alloc)?)?;
        }
        Ok(List { names })
    }
}

/// Why names make no list of servers.
#[derive(Clone, Copy, Debug, PartialEq, Eq, Error)]
pub enum ListFault {
    /// There is no name.
    #[error("no server is listed")]
    Empty,
    /// There are more than `MAX_SERVERS` names.
    #[error("too many servers are listed")]
    TooMany,
    /// A name stands there twice.
    #[error("a server is listed twice")]
    Doubled,
}

impl ListFault {
    /// Why names make no list of servers: the first of the faults, in their order, or none. It takes no memory.
    pub fn of(names: &[ServerName]) -> Option<ListFault>
        ensures { result ≡ list_fault names.now }
    {
        if names.is_empty() {
            return Some(ListFault::Empty);
        }
        if names.len() > MAX_SERVERS {
            return Some(ListFault::TooMany);
        }
        if has_doubled(names) {
            return Some(ListFault::Doubled);
        }
        None
    }
}

// Whether a name stands there twice.
fn has_doubled(names: &[ServerName]) -> bool
    ensures { result ≡ has_doubled names.now }
{
    for (place, name) in names.iter().enumerate() {
        if is_among(&names[place + 1..], name) {
            return true;
        }
    }
    false
}

// Whether a name is among these.
fn is_among(names: &[ServerName], name: &ServerName) -> bool
    ensures { result ≡ list_any (bytes_eq name.now) names.now }
{
    names.iter().any(|other| name.as_str() == other.as_str())
}
