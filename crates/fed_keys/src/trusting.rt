// Keys that trust every signature.
ghost use Rattle.std.specs.Prelude.{◌≡◌, string_bytes};
ghost use Rattle.fed_keys.specs.StandIn.{stand_in_key};
ghost use Rattle.fed_keys.specs.Trusting.{trusting_signature, trusting_checks};

use crate::keys::Keys;
use crate::stand_in::STAND_IN_KEY;
use std::marker::Model;

/// Keys under which every signature checks, for tests and demonstrations. They give no security.
///
/// Contracts see it as the bytes of the own server's name.
#[derive(Drop)]
pub struct Trusting {
    own: String,
}

impl Model for Trusting {
    ghost use Rattle.std.specs.Prelude.{ℕ, List, string_bytes};
    ghost use Rattle.std.specs.Coded.{coded_ℕ, coded_list};

    ghost Value = { List ℕ };

    ghost coded = { coded_list coded_ℕ };

    ghost view = { λ keys. string_bytes keys.own };
}

impl Trusting {
    /// The keys of a server of this name.
    pub fn new(own: String) -> Trusting
        ensures { result ≡ string_bytes own }
    {
        Trusting { own }
    }
}

impl Keys for Trusting {
    ghost use Rattle.std.specs.Prelude.{refl};

    ghost own_name = { λ own. own };

    ghost own_key = { λ _. stand_in_key };

    ghost own_signature = { λ _. trusting_signature };

    ghost checks = { λ _. trusting_checks };

    ghost signs = { λ keys message. refl };

    fn own(&self) -> &str {
        self.own.as_str()
    }

    fn key_name(&self) -> &str {
        STAND_IN_KEY
    }

    fn sign(&self, _bytes: &[u8]) -> [u8; 64] {
        [0; 64]
    }

    fn check(&self, _server: &str, _key: &str, _bytes: &[u8], _signature: &[u8; 64]) -> bool {
        true
    }
}
