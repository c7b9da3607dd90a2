// Replies that are kept in memory.
ghost use Rattle.std.specs.Prelude.{◌≡◌, None, OnOk, OnErr, option_map, string_bytes};
ghost use Rattle.std.specs.FinMap as map;
ghost use Rattle.fed_replies.specs.Kept.{with_reply};

use crate::numbered::Numbered;
use crate::store::ReplyStore;
use fed_json::NoMemory;
use std::alloc::Global;
use std::collections::BTreeMap;
use std::marker::Model;

/// Keeps replies in memory, for as long as it lives.
#[derive(Drop)]
pub struct ListStore {
    origins: BTreeMap<String, Numbered>,
}

impl Model for ListStore {
    ghost use Rattle.fed_replies.specs.Kept.{KeptReplies, kept_code};

    ghost Value = { KeptReplies };

    ghost coded = { kept_code };

    ghost use Rattle.std.specs.BTreeMap.{IsOrdered};
    ghost use Rattle.std.specs.String.{string_cmp};
    ghost use Rattle.fed_json.specs.TextMap.{text_map};

    ghost view = { λ s. text_map (λ replies. replies) s.origins.entries };

    ghost invariant = { λ s. IsOrdered string_cmp s.origins };
}

impl ListStore {
    /// A store that keeps nothing yet.
    #[tactic(auto, using(crate::proofs::Maps::map_of_none))]
    pub fn new(alloc: Global) -> ListStore
        ensures { result ≡ map.empty }
    {
        ListStore {
            origins: BTreeMap::new(alloc),
        }
    }

    // The replies to one origin, where it got one.
    fn origin(&self, origin: &str) -> Option<&Numbered>
        ensures { option_map (λ replies. replies.now) result ≡ map.get self.now origin.now }
    {
        self.origins.get(origin)
    }

    // Keeps the first reply to an origin. An error leaves what is kept as it was.
    fn keep_first(&mut self, origin: String, txn: String, reply: Vec<u8>) -> Result<(), NoMemory>
        requires { map.get self.old (string_bytes origin) ≡ None }
        ensures ok { OnOk result (self.new ≡ with_reply self.old (string_bytes origin) (string_bytes txn) reply.items) }
        ensures err { OnErr result (self.new ≡ self.old) }
    {
        let mut replies = Numbered::new(*reply.allocator());
        replies.insert(txn, reply)?;
        drop(self.origins.insert(origin, replies)?);
        Ok(())
    }
}

impl ReplyStore for ListStore {
    ghost kept = { λ s. s };

    fn get(&self, alloc: Global, origin: &str, txn: &str) -> Result<Option<Vec<u8>>, NoMemory> {
        let Some(replies) = self.origin(origin) else {
            return Ok(None);
        };
        let Some(reply) = replies.get(txn) else {
            return Ok(None);
        };
        Ok(Some(Vec::from_slice(alloc, reply)?))
    }

    fn keep(
        &mut self,
        alloc: Global,
        origin: &str,
        txn: &str,
        reply: &[u8],
    ) -> Result<(), NoMemory> {
        let txn = String::from_str(alloc, txn)?;
        let reply = Vec::from_slice(alloc, reply)?;
        if let Some(replies) = self.origins.get_mut(origin) {
            return replies.insert(txn, reply);
        }
        self.keep_first(String::from_str(alloc, origin)?, txn, reply)
    }
}
