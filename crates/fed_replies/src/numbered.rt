// The replies to one origin.
ghost use Rattle.std.specs.Prelude.{◌≡◌, string_bytes, option_map, OnOk, OnErr};
ghost use Rattle.std.specs.FinMap as map;

use fed_json::NoMemory;
use std::alloc::Global;
use std::collections::BTreeMap;
use std::marker::Model;

/// The replies to the transactions of one origin, by the ids of these.
#[derive(Drop)]
pub(crate) struct Numbered {
    replies: BTreeMap<String, Vec<u8>>,
}

impl Model for Numbered {
    ghost use Rattle.fed_replies.specs.Kept.{OriginReplies, origin_code};

    ghost Value = { OriginReplies };

    ghost coded = { origin_code };

    ghost use Rattle.std.specs.BTreeMap.{IsOrdered};
    ghost use Rattle.std.specs.String.{string_cmp};
    ghost use Rattle.fed_json.specs.TextMap.{text_map};

    ghost view = { λ n. text_map (λ reply. reply.items) n.replies.entries };

    ghost invariant = { λ n. IsOrdered string_cmp n.replies };
}

impl Numbered {
    /// No replies.
    #[tactic(auto, using(crate::proofs::Maps::map_of_none))]
    pub(crate) fn new(alloc: Global) -> Numbered
        ensures { result ≡ map.empty }
    {
        Numbered {
            replies: BTreeMap::new(alloc),
        }
    }

    /// The reply to a transaction.
    pub(crate) fn get(&self, txn: &str) -> Option<&Vec<u8>>
        ensures { option_map (λ reply. reply.now.items) result ≡ map.get self.now txn.now }
    {
        self.replies.get(txn)
    }

    /// Enters the reply to a transaction. An error leaves the replies as they were.
    pub(crate) fn insert(&mut self, txn: String, reply: Vec<u8>) -> Result<(), NoMemory>
        ensures ok { OnOk result (self.new ≡ map.insert self.old (string_bytes txn) reply.items) }
        ensures err { OnErr result (self.new ≡ self.old) }
    {
        drop(self.replies.insert(txn, reply)?);
        Ok(())
    }
}
