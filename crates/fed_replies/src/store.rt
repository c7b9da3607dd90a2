// What keeps replies.
ghost use Rattle.std.specs.Prelude.{◌≡◌, None, IsOk, IfOk, OnOk, OnErr, option_map};
ghost use Rattle.fed_replies.specs.Kept.{reply_at, with_reply};

use fed_json::NoMemory;
use std::alloc::Global;

/// Keeps the reply that each origin got to each of its transactions (Server-Server API, "Transactions").
///
/// Contracts see it as what it keeps: for each origin a finite map from transaction ids to the bytes of replies. No method takes a
/// reply away.
pub trait ReplyStore {
    ghost use Rattle.fed_replies.specs.Kept.{KeptReplies};

    // what is kept
    ghost kept: { Self → KeptReplies };

    /// A copy of the reply that is kept for the transaction `txn` of `origin`. That none is kept is told without memory.
    ///
    /// # Errors
    ///
    /// `NoMemory`, where a reply is kept and memory for its copy ran out.
    fn get(&self, alloc: Global, origin: &str, txn: &str) -> Result<Option<Vec<u8>>, NoMemory>
        ensures kept { IfOk result (λ reply. option_map (λ r. r.items) reply
            ≡ reply_at (kept self.now) origin.now txn.now) }
        ensures none { reply_at (kept self.now) origin.now txn.now ≡ None → IsOk result };

    /// Keeps a reply for the transaction `txn` of `origin`, for which none is kept.
    ///
    /// # Errors
    ///
    /// `NoMemory`, where memory ran out. Then what is kept is as it was.
    fn keep(&mut self, alloc: Global, origin: &str, txn: &str, reply: &[u8]) -> Result<(), NoMemory>
        requires { reply_at (kept self.old) origin.now txn.now ≡ None }
        ensures ok { OnOk result (kept self.new ≡ with_reply (kept self.old) origin.now txn.now reply.now) }
        ensures err { OnErr result (kept self.new ≡ kept self.old) };
}
