// The keys that a call names, and the room version by which it reads events.
ghost use Rattle.std.specs.Prelude.{◌≡◌, IfOk, IfSome};
ghost use Rattle.fed_keys.specs.StandIn.{stand_in_key};
ghost use Rattle.fed_vectors_events.specs.KeyRing.{ring_name};

use fed_event::{Keys, StandIn, Trusting, Version};
use fed_json::NoMemory;
use fed_vectors_call::{Arguments, Stop};
use std::alloc::Global;

/// The keys that a call names, and the room version by which it reads events.
#[derive(Drop)]
pub struct KeyRing {
    version: Version,
    ring: Ring,
}

#[derive(Drop)]
enum Ring {
    /// Signatures that anyone can make.
    StandIn(StandIn),
    /// Keys under which every signature checks.
    Trusting(Trusting),
}

impl KeyRing {
    ghost use Rattle.fed_vectors_events.specs.KeyRing.{name_of};

    /// The keys that `keys` names, of this server.
    pub fn of(call: Arguments<'_>, own: &str) -> Result<KeyRing, Stop>
        ensures { IfOk result (λ keys. name_of keys ≡ own.now) }
    {
        let version = room_version(call)?;
        match named(call.alloc, call.text("keys")?, own)? {
            Some(ring) => Ok(KeyRing { version, ring }),
            None => Err(call.wrong_kind("keys")),
        }
    }

    /// The keys that `keys` names, or stand-ins where it is missing, of this server.
    pub fn or_stand_in(call: Arguments<'_>, own: &str) -> Result<KeyRing, Stop>
        ensures { IfOk result (λ keys. name_of keys ≡ own.now) }
    {
        if call.find("keys").is_some() {
            return KeyRing::of(call, own);
        }
        let version = room_version(call)?;
        let own = String::from_str(call.alloc, own)?;
        let ring = Ring::StandIn(StandIn::new(own));
        Ok(KeyRing { version, ring })
    }

    /// The room version by which the call reads events.
    pub fn version(&self) -> Version {
        self.version
    }
}

/// The room version that a call names, 10 where it names none.
pub fn room_version(call: Arguments<'_>) -> Result<Version, Stop> {
    if call.find("room_version").is_none() {
        return Ok(Version::V10);
    }
    match Version::read(call.text("room_version")?) {
        Some(version) => Ok(version),
        None => Err(call.wrong_kind("room_version")),
    }
}

// The keys of this name, of this server, where there are such keys.
fn named(alloc: Global, name: &str, own: &str) -> Result<Option<Ring>, NoMemory>
    ensures { IfOk result (λ named. IfSome named (λ ring. ring_name ring ≡ own.now)) }
{
    let own = String::from_str(alloc, own)?;
    Ok(match name {
        "standin" => Some(Ring::StandIn(StandIn::new(own))),
        "trusting" => Some(Ring::Trusting(Trusting::new(own))),
        _ => None,
    })
}

impl Keys for KeyRing {
    ghost use Rattle.fed_vectors_events.specs.KeyRing.{name_of, signature_by, checks_by, signed-checks};

    ghost own_name = { name_of };

    ghost own_key = { λ _. stand_in_key };

    ghost own_signature = { signature_by };

    ghost checks = { checks_by };

    ghost signs = { signed-checks };

    fn own(&self) -> &str {
        match &self.ring {
            Ring::StandIn(keys) => keys.own(),
            Ring::Trusting(keys) => keys.own(),
        }
    }

    fn key_name(&self) -> &str {
        match &self.ring {
            Ring::StandIn(keys) => keys.key_name(),
            Ring::Trusting(keys) => keys.key_name(),
        }
    }

    fn sign(&self, bytes: &[u8]) -> [u8; 64] {
        match &self.ring {
            Ring::StandIn(keys) => keys.sign(bytes),
            Ring::Trusting(keys) => keys.sign(bytes),
        }
    }

    fn check(&self, server: &str, key: &str, bytes: &[u8], signature: &[u8; 64]) -> bool {
        match &self.ring {
            Ring::StandIn(keys) => keys.check(server, key, bytes, signature),
            Ring::Trusting(keys) => keys.check(server, key, bytes, signature),
        }
    }
}
