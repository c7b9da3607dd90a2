// Signatures that anyone can make, in the place of those of Matrix.
ghost use Rattle.std.specs.Prelude.{◌≡◌, ℕ, List, true, string_bytes};
ghost use Rattle.fed_keys.specs.StandIn.{stand_in_key, stand_in_signature, stand_in_checks};

use crate::keys::Keys;
use sha2::{Digest, Sha512};
use std::marker::Model;

pub(crate) const STAND_IN_KEY: &str = "standin:1";

/// Signatures that stand in for those of Matrix: SHA-512 of a text that anyone knows, a line feed and the message. Every server has
/// the one key `standin:1`. They are not the ed25519 of Matrix and give no security: whoever knows a server's name signs as it.
///
/// Contracts see it as the bytes of the own server's name.
#[derive(Drop)]
pub struct StandIn {
    own: String,
}

impl Model for StandIn {
    ghost use Rattle.std.specs.Prelude.{ℕ, List, string_bytes};
    ghost use Rattle.std.specs.Coded.{coded_ℕ, coded_list};

    ghost Value = { List ℕ };

    ghost coded = { coded_list coded_ℕ };

    ghost view = { λ keys. string_bytes keys.own };
}

impl StandIn {
    /// The keys of a server of this name.
    pub fn new(own: String) -> StandIn
        ensures { result ≡ string_bytes own }
    {
        StandIn { own }
    }
}

impl Keys for StandIn {
    ghost use Rattle.std.specs.Prelude.{refl};
    ghost use Rattle.std.proofs.lemmas.Slice.Eq.{bytes_eq-Decides};

    ghost own_name = { λ own. own };

    ghost own_key = { λ _. stand_in_key };

    ghost own_signature = { stand_in_signature };

    ghost checks = { λ _. stand_in_checks };

    ghost signs = { λ keys message. (bytes_eq-Decides (stand_in_signature keys message) (stand_in_signature keys message)).1 refl };

    fn own(&self) -> &str {
        self.own.as_str()
    }

    fn key_name(&self) -> &str {
        STAND_IN_KEY
    }

    fn sign(&self, bytes: &[u8]) -> [u8; 64] {
        stand_in_of(self.own(), bytes)
    }

    fn check(&self, server: &str, key: &str, bytes: &[u8], signature: &[u8; 64]) -> bool {
        key == STAND_IN_KEY && *signature == stand_in_of(server, bytes)
    }
}

/// What one `StandIn` signs, every other one checks under that one's name and key.
pub fn stand_ins_agree()
    ensures { (one other message : List ℕ)
        → ⟦<StandIn as Keys>⟧.checks other (⟦<StandIn as Keys>⟧.own_name one) (⟦<StandIn as Keys>⟧.own_key one)
        message (⟦<StandIn as Keys>⟧.own_signature one message) ≡ true }
{}

// The stand-in signature of a server on a message.
fn stand_in_of(server: &str, bytes: &[u8]) -> [u8; 64]
    ensures { result ≡ stand_in_signature server.now bytes.now }
{
    let mut hasher = Sha512::new();
    hasher.update("stand-in secret of ");
    hasher.update(server);
    hasher.update("\n");
    hasher.update(bytes);
    hasher.finalize()
}
