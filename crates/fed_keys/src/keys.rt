// What signs as a server, and checks the signatures of all.
ghost use Rattle.std.specs.Prelude.{◌≡◌};

/// The key that a server signs with, and the keys of all servers (Server-Server API, "Signing Events"; appendix "Signing JSON").
/// No method takes memory.
pub trait Keys {
    ghost use Rattle.std.specs.Prelude.{◌≡◌, ℕ, List, true};
    ghost use Rattle.fed_keys.specs.Keys.{Checks};

    ghost own_name: { Self → List ℕ };

    ghost own_key: { Self → List ℕ };

    ghost own_signature: { Self → List ℕ → List ℕ };

    ghost checks: { Self → Checks };

    /// The name of the own server.
    fn own(&self) -> &str
        ensures { result.now ≡ own_name self.now };

    /// The name of the own key, as `ed25519:1`.
    fn key_name(&self) -> &str
        ensures { result.now ≡ own_key self.now };

    /// The signature of a message by the own key.
    fn sign(&self, bytes: &[u8]) -> [u8; 64]
        ensures { result ≡ own_signature self.now bytes.now };

    /// Whether the signature of a message is one of the server's key of this name. A key that is not known checks nothing.
    fn check(&self, server: &str, key: &str, bytes: &[u8], signature: &[u8; 64]) -> bool
        ensures { result ≡ checks self.now server.now key.now bytes.now signature.now };

    // What is signed checks under the own name and key.
    ghost signs: { (keys : Self) (message : List ℕ)
        → checks keys (own_name keys) (own_key keys) message (own_signature keys message) ≡ true };
}
