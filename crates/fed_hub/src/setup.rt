// What a hub is made of.
ghost use Rattle.std.specs.Prelude.{◌≡◌, ◌≤◌, length};
ghost use Rattle.fed_hub.specs.Setup.{has_own_fault};

use fed_dest::{List, MAX_SERVERS, ServerName};
use fed_event::Keys;
use fed_hub_state::KeptRoom;

/// What a hub is made of: the name of the own server; the listed servers, of which it is one; the rooms that it begins with; the keys of the
/// own server and of all others; and a number that each hub of the server has for itself, so that its transaction ids are new
/// (Server-Server API, "Transactions").
#[derive(Drop)]
pub struct Setup<K: Keys + Drop> {
    pub own: ServerName,
    pub list: List,
    pub rooms: Vec<KeptRoom>,
    pub keys: K,
    pub epoch: u64,
}

impl<K: Keys + Drop> Setup<K> {
    /// Whether the own server is not listed, is the only one listed or is not the one that the keys sign as.
    pub(crate) fn has_own_fault(&self) -> bool
        ensures told { result ≡ has_own_fault self.now.list self.now.own (K.own_name self.now.keys) }
        ensures few { length self.now.list ≤ MAX_SERVERS }
    {
        let count = self.list.len();
        count == 1
            || self.list.find(self.own.as_str()).is_none()
            || self.own.as_str() != self.keys.own()
    }
}
