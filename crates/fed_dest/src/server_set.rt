// Some of the listed servers.
ghost use Rattle.std.specs.Prelude.{◌≡◌, ◌==◌, [], length, IfOk, IfSome, IsSome, IsNone};
ghost use Rattle.std.specs.List.Sorted.{IsStrictlyIncreasing};
ghost use Rattle.fed_dest.specs.ServerSet.{is_among};

use crate::server_index::ServerIndex;
use fed_json::NoMemory;
use std::alloc::Global;
use std::marker::Model;

/// Some servers of a list, in the order of their places, each once.
///
/// Contracts see it as the list of their places.
#[derive(Debug, Drop)]
pub struct ServerSet {
    servers: Vec<ServerIndex>,
}

impl Model for ServerSet {
    ghost use Rattle.std.specs.Prelude.{ℕ, List};
    ghost use Rattle.std.specs.Coded.{coded_ℕ, coded_list};
    ghost use Rattle.std.specs.List.Sorted.{IsStrictlyIncreasing};

    ghost Value = { List ℕ };

    ghost coded = { coded_list coded_ℕ };

    ghost view = { λ s. s.servers.items };

    ghost invariant = { λ s. IsStrictlyIncreasing s.servers.items };
}

impl ServerSet {
    /// No server.
    pub fn new(alloc: Global) -> ServerSet
        ensures { result ≡ [] }
    {
        ServerSet {
            servers: Vec::new(alloc),
        }
    }

    /// The servers of a list whose places rise strictly. It takes no memory.
    pub fn of(servers: Vec<ServerIndex>) -> ServerSet
        requires { IsStrictlyIncreasing servers.items }
        ensures { result ≡ servers.items }
    {
        ServerSet { servers }
    }

    /// The servers of a list, where their places rise strictly. It takes no memory.
    pub fn rising(servers: Vec<ServerIndex>) -> Option<ServerSet>
        ensures some { IfSome result (λ set. set ≡ servers.items) }
        ensures rising { IsSome result → IsStrictlyIncreasing servers.items }
        ensures none { IsNone result → ¬ IsStrictlyIncreasing servers.items }
    {
        if !servers.is_sorted_by(|server, next| server.place() < next.place()) {
            return None;
        }
        Some(ServerSet { servers })
    }

    /// How many servers they are.
    pub fn len(&self) -> usize
        ensures { result ≡ length self.now }
    {
        self.servers.len()
    }

    /// Whether there is none.
    pub fn is_empty(&self) -> bool
        ensures { result ≡ (length self.now == 0) }
    {
        self.servers.is_empty()
    }

    /// Whether a server is among them.
    pub fn contains(&self, server: ServerIndex) -> bool
        ensures { result ≡ is_among self.now server }
    {
        self.servers.iter().any(|other| *other == server)
    }

    /// The servers, in the order of their places.
    pub fn as_slice(&self) -> &[ServerIndex]
        ensures servers { result.now ≡ self.now }
        ensures rising { IsStrictlyIncreasing self.now }
    {
        self.servers.as_slice()
    }

    /// The servers, to keep.
    pub fn into_vec(self) -> Vec<ServerIndex>
        ensures servers { result.items ≡ self }
        ensures rising { IsStrictlyIncreasing self }
    {
        let ServerSet { servers } = self;
        servers
    }

    /// An equal set.
    pub fn copy(&self, alloc: Global) -> Result<ServerSet, NoMemory>
        ensures { IfOk result (λ copy. copy ≡ self.now) }
    {
        let servers = Vec::from_slice(alloc, &self.servers)?;
        Ok(ServerSet { servers })
    }
}

/// Sets are equal where the same servers are in them. It takes no memory.
impl PartialEq for ServerSet {
    ghost use Rattle.std.specs.Prelude.{◌≡◌, ◌↔◌, IsTrue, bytes_eq};
    ghost use Rattle.std.specs.Cmp.{partial_equiv_from_equiv};
    ghost use Rattle.std.specs.Cmp.Lexicographic.{nat_list_eq_equiv};

    ghost eq = { bytes_eq };

    ghost laws = { partial_equiv_from_equiv nat_list_eq_equiv };

    fn eq(&self, other: &ServerSet) -> bool
        ensures places { result ≡ bytes_eq self.now other.now }
        ensures same { IsTrue result ↔ (self.now ≡ other.now) }
    {
        self.servers.as_slice() == other.servers.as_slice()
    }
}

impl Eq for ServerSet {
    ghost use Rattle.std.specs.Cmp.Lexicographic.{nat_list_eq_equiv};

    ghost laws = { nat_list_eq_equiv };
}
