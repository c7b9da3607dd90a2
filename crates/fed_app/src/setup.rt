// Whose inbox a run answers for.
ghost use Rattle.std.specs.Prelude.{◌≡◌, All, Err, map, string_bytes, bytes_eq, IfOk, OnOk, IsErrOf};
ghost use Rattle.std.specs.List.{list_any};
ghost use Rattle.std.specs.List.Sorted.{IsPermutation};
ghost use Rattle.fed_dest.specs.ServerName.{IsServerName};
ghost use Rattle.fed_app.specs.Servers.{AreServers, each_once, with_name};
ghost use Rattle.fed_app.specs.declared.setup.SetupFault.TheVariants.{Memory, BadServers};

use fed_dest::{List, ListFault, NameFault, ServerName};
use fed_json::NoMemory;
use std::alloc::{AllocFailed, Global};
use thiserror::Error;

/// Whose inbox it is.
#[derive(Drop)]
pub struct InboxSetup {
    /// The name of the server.
    pub own: ServerName,
    /// The servers that it takes transactions from, but for itself.
    pub servers: List,
    /// The rooms that it knows.
    pub rooms: Vec<String>,
}

/// Why texts make no setup.
#[derive(Clone, Copy, Debug, PartialEq, Eq, Error)]
pub enum SetupFault {
    /// Memory ran out.
    #[error("out of memory")]
    Memory,
    /// A text is no server name, or more than 64 different servers are named.
    #[error("bad servers")]
    BadServers,
}

impl From<NoMemory> for SetupFault {
    ghost from_gives = { λ _ fault. fault ≡ Memory };

    fn from(_error: NoMemory) -> SetupFault {
        SetupFault::Memory
    }
}

impl<T: Drop> From<AllocFailed<T>> for SetupFault {
    ghost from_gives = { λ _ fault. fault ≡ Memory };

    fn from(_error: AllocFailed<T>) -> SetupFault {
        SetupFault::Memory
    }
}

impl From<NameFault> for SetupFault {
    ghost use Rattle.fed_app.specs.Servers.{IsFaultOfName};

    ghost from_gives = { IsFaultOfName };

    fn from(fault: NameFault) -> SetupFault {
        match fault {
            NameFault::Memory => SetupFault::Memory,
            NameFault::BadName => SetupFault::BadServers,
        }
    }
}

impl From<ListFault> for SetupFault {
    ghost from_gives = { λ _ fault. fault ≡ BadServers };

    fn from(_fault: ListFault) -> SetupFault {
        SetupFault::BadServers
    }
}

impl InboxSetup {
    /// The setup of the server `own`, whose list is made of itself and `servers`, each once: a name that is given twice counts once, and so
    /// does the own one where it is among `servers`.
    ///
    /// # Errors
    ///
    /// `BadServers` where one of these texts is no server name, or they name more than 64 different servers; that the own name is none is
    /// told without memory. `Memory` where memory ran out.
    pub fn read(
        alloc: Global,
        own: &str,
        servers: &[String],
        rooms: Vec<String>,
    ) -> Result<InboxSetup, SetupFault>
        ensures own { IfOk result (λ setup. setup.own ≡ own.now) }
        ensures servers { IfOk result (λ setup. IsPermutation (each_once own.now (map string_bytes servers.now)) setup.servers) }
        ensures rooms { IfOk result (λ setup. setup.rooms.items ≡ rooms.items) }
        ensures good { OnOk result (AreServers own.now (map string_bytes servers.now)) }
        ensures bad { IsErrOf result BadServers → ¬ AreServers own.now (map string_bytes servers.now) }
        ensures own_refused { ¬ IsServerName own.now → result ≡ Err BadServers }
    {
        let own = ServerName::read(alloc, own)?;
        let names = names_once(alloc, &own, servers)?;
        let servers = List::new(names)?;
        Ok(InboxSetup {
            own,
            servers,
            rooms,
        })
    }
}

// The own name and those that texts are, each once.
fn names_once(
    alloc: Global,
    own: &ServerName,
    servers: &[String],
) -> Result<Vec<ServerName>, SetupFault>
    ensures names { IfOk result (λ names. names.items ≡ each_once own.now (map string_bytes servers.now)) }
    ensures good { OnOk result (All IsServerName (map string_bytes servers.now)) }
    ensures bad { IsErrOf result BadServers → ¬ All IsServerName (map string_bytes servers.now) }
{
    let mut names = Vec::new(alloc);
    names.push(own.copy(alloc)?)?;
    for server in servers {
        let name = ServerName::read(alloc, server)?;
        add(&mut names, name)?;
    }
    Ok(names)
}

// Adds a name to others, where it is not among them.
fn add(names: &mut Vec<ServerName>, name: ServerName) -> Result<(), NoMemory>
    ensures { OnOk result (names.new.items ≡ with_name names.old.items name) }
{
    if is_named(names, &name) {
        return Ok(());
    }
    names.push(name)?;
    Ok(())
}

// Whether a name is among these.
fn is_named(names: &[ServerName], name: &ServerName) -> bool
    ensures { result ≡ list_any (λ other. bytes_eq other name.now) names.now }
{
    names.iter().any(|other| other.as_str() == name.as_str())
}
