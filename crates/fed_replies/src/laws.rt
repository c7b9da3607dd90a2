// What holds of all that is kept.
ghost use Rattle.std.specs.Prelude.{◌≡◌, ◌≢◌, ◌⊎◌, ℕ, List, Some, None};
ghost use Rattle.std.specs.FinMap as map;
ghost use Rattle.fed_replies.specs.Kept.{KeptReplies, reply_at, with_reply};

/// What one more reply changes: it stands for its own transaction, and for every other one stands what stood. So a reply that is kept
/// stays, where each is kept for a transaction that has none. Where nothing is kept, no transaction has a reply.
pub fn what_is_kept_stays()
    ensures there { (kept : KeptReplies) (origin txn reply : List ℕ)
        → reply_at (with_reply kept origin txn reply) origin txn ≡ Some reply }
    ensures others { (kept : KeptReplies) (origin txn reply other number : List ℕ) → (other ≢ origin) ⊎ (number ≢ txn)
        → reply_at (with_reply kept origin txn reply) other number ≡ reply_at kept other number }
    ensures stays { (kept : KeptReplies) (origin txn reply other number earlier : List ℕ) → reply_at kept origin txn ≡ None
        → reply_at kept other number ≡ Some earlier → reply_at (with_reply kept origin txn reply) other number ≡ Some earlier }
    ensures none { (origin txn : List ℕ) → reply_at map.empty origin txn ≡ None }
{}
