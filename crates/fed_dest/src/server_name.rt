// Names of servers.
ghost use Rattle.std.specs.Prelude.{◌≡◌, Some, Err, IfOk, OnOk, IsErrOf, Decides, string_bytes, bytes_eq, refl};
ghost use Rattle.std.specs.Cmp.{partial_equiv_from_equiv};
ghost use Rattle.std.specs.Cmp.Lexicographic.{slice_cmp, nat_list_eq_equiv, nat_list_cmp_total, texts_po, texts_ties};
ghost use Rattle.std.specs.Ordering.{nat_cmp};
ghost use Rattle.std.specs.List.{list_all};
ghost use Rattle.std.specs.Char.{is_ascii_digit};
ghost use Rattle.fed_dest.specs.ServerName.{IsServerName, IsPortOrNothing, is_dns_char, is_ipv6_char, is_dns_name, is_ipv6_address, is_port};
ghost use Rattle.fed_dest.specs.declared.server_name.NameFault.TheVariants.{Memory};

use fed_json::NoMemory;
use std::alloc::Global;
use std::cmp::Ordering;
use std::fmt;
use std::marker::Model;
use thiserror::Error;

/// The most bytes of a host.
const MAX_HOST: usize = 255;

/// The most digits of a port.
const MAX_PORT: usize = 5;

/// The least and the most bytes of an IPv6 address.
const MIN_IPV6: usize = 2;

const MAX_IPV6: usize = 45;

/// The name of a server (appendix "Server Name"), as a text: a host and, where there is one, a colon and a port.
///
/// Names are ordered as their bytes. Contracts see them as these.
#[derive(Drop)]
pub struct ServerName {
    text: String,
}

impl Model for ServerName {
    ghost use Rattle.std.specs.Prelude.{ℕ, List, string_bytes};
    ghost use Rattle.std.specs.Coded.{coded_ℕ, coded_list};
    ghost use Rattle.fed_dest.specs.ServerName.{IsServerName};

    ghost Value = { List ℕ };

    ghost coded = { coded_list coded_ℕ };

    ghost view = { λ n. string_bytes n.text };

    ghost invariant = { λ n. IsServerName (string_bytes n.text) };
}

impl ServerName {
    /// The name that a text is. That it is none is told without memory.
    ///
    /// # Errors
    ///
    /// `BadName` where the text is no server name. `Memory` where memory ran out.
    pub fn read(alloc: Global, text: &str) -> Result<ServerName, NameFault>
        ensures ok { IfOk result (λ name. name ≡ text.now) }
        ensures name { OnOk result (IsServerName text.now) }
        ensures bad { IsErrOf result NameFault.BadName → ¬ IsServerName text.now }
        ensures refuses { ¬ IsServerName text.now → result ≡ Err NameFault.BadName }
    {
        if !is_server_name(text) {
            return Err(NameFault::BadName);
        }
        let text = String::from_str(alloc, text)?;
        Ok(ServerName { text })
    }

    /// The text of the name.
    pub fn as_str(&self) -> &str
        ensures text { result.now ≡ self.now }
        ensures name { IsServerName self.now }
    {
        self.text.as_str()
    }

    /// An equal name.
    pub fn copy(&self, alloc: Global) -> Result<ServerName, NoMemory>
        ensures { IfOk result (λ copy. copy ≡ self.now) }
    {
        let text = String::from_str(alloc, self.as_str())?;
        Ok(ServerName { text })
    }

    /// The text of the name, to keep.
    pub fn into_string(self) -> String
        ensures text { string_bytes result ≡ self }
        ensures name { IsServerName self }
    {
        let ServerName { text } = self;
        text
    }
}

impl PartialEq for ServerName {
    ghost eq = { bytes_eq };

    ghost laws = { partial_equiv_from_equiv nat_list_eq_equiv };

    fn eq(&self, other: &ServerName) -> bool {
        self.as_str() == other.as_str()
    }
}

impl Eq for ServerName {
    ghost laws = { nat_list_eq_equiv };
}

impl PartialOrd for ServerName {
    ghost partial_cmp = { λ x y. Some (slice_cmp nat_cmp x y) };

    ghost laws = { texts_po };

    fn partial_cmp(&self, other: &ServerName) -> Option<Ordering> {
        Some(self.cmp(other))
    }
}

impl Ord for ServerName {
    ghost cmp = { slice_cmp nat_cmp };

    ghost total = { nat_list_cmp_total };

    ghost matches_partial_cmp = { λ x y. refl };

    ghost matches_eq = { texts_ties };

    fn cmp(&self, other: &ServerName) -> Ordering {
        self.as_str().cmp(other.as_str())
    }
}

impl fmt::Display for ServerName {
    ghost output = { λ name. Some name };

    fn fmt<W: fmt::Write>(&self, f: &mut fmt::Formatter<W>) -> fmt::Result {
        f.write_str(self.as_str())
    }
}

impl fmt::Debug for ServerName {
    fn fmt<W: fmt::Write>(&self, f: &mut fmt::Formatter<W>) -> fmt::Result {
        fmt::Debug::fmt(self.as_str(), f)
    }
}

/// Why a text was not read as the name of a server.
#[derive(Clone, Copy, Debug, PartialEq, Eq, Error)]
pub enum NameFault {
    /// Memory ran out.
    #[error("out of memory")]
    Memory,
    /// The text is no server name.
    #[error("no server name")]
    BadName,
}

impl From<NoMemory> for NameFault {
    ghost from_gives = { λ _ e. e ≡ Memory };

    fn from(_error: NoMemory) -> NameFault {
        Self::Memory
    }
}

// Whether a text is the name of a server.
fn is_server_name(text: &str) -> bool
    ensures { Decides result (IsServerName text.now) }
{
    match text.strip_prefix('[') {
        Some(rest) => match rest.split_once(']') {
            Some((address, behind)) => is_ipv6_address(address) && is_port_or_nothing(behind),
            None => false,
        },
        None => match text.split_once(':') {
            Some((host, port)) => is_dns_name(host) && is_port(port),
            None => is_dns_name(text),
        },
    }
}

// Whether nothing stands behind a host, or a colon and a port.
fn is_port_or_nothing(text: &str) -> bool
    ensures { Decides result (IsPortOrNothing text.now) }
{
    match text.strip_prefix(':') {
        Some(port) => is_port(port),
        None => text.is_empty(),
    }
}

fn is_dns_name(text: &str) -> bool
    ensures { result ≡ is_dns_name text.now }
{
    1 <= text.len() && text.len() <= MAX_HOST && are_dns_chars(text)
}

fn is_ipv6_address(text: &str) -> bool
    ensures { result ≡ is_ipv6_address text.now }
{
    MIN_IPV6 <= text.len() && text.len() <= MAX_IPV6 && are_ipv6_chars(text)
}

fn is_port(text: &str) -> bool
    ensures { result ≡ is_port text.now }
{
    1 <= text.len() && text.len() <= MAX_PORT && are_digits(text)
}

fn are_dns_chars(text: &str) -> bool
    ensures { result ≡ list_all is_dns_char text.now }
{
    text.bytes()
        .all(|b| b.is_ascii_alphanumeric() || b == b'-' || b == b'.')
}

fn are_ipv6_chars(text: &str) -> bool
    ensures { result ≡ list_all is_ipv6_char text.now }
{
    text.bytes()
        .all(|b| b.is_ascii_hexdigit() || b == b':' || b == b'.')
}

fn are_digits(text: &str) -> bool
    ensures { result ≡ list_all is_ascii_digit text.now }
{
    text.bytes().all(|b| b.is_ascii_digit())
}
