// What holds of all replies.
ghost use Rattle.std.specs.Prelude.{◌≡◌};
ghost use Rattle.fed_json.specs.CanonicalText.{canonical_text};
ghost use Rattle.fed_txn.specs.Verdicts.{VerdictMap, HasTextIds};
ghost use Rattle.fed_txn.specs.Reply.{reply_value};

use fed_json::{key_order, one_text, texts_differ};

/// Different verdicts have different replies: what a reply says of each event can be read from its text.
pub fn replies_differ()
    ensures { (v w : VerdictMap) → HasTextIds v → HasTextIds w
        → canonical_text (reply_value v) ≡ canonical_text (reply_value w) → v ≡ w }
{
    one_text();
    texts_differ();
    key_order();
}
