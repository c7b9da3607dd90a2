// What holds of all events.
ghost use Rattle.std.specs.Prelude.{◌≡◌, ◌≢◌, ℕ, List, Some, None, IsSome, codes};
ghost use Rattle.serde_json.specs.Data.{Data, string};
ghost use Rattle.serde_json.specs.Find.{as_object, get};
ghost use Rattle.fed_json.specs.Profile.{IsProfile};
ghost use Rattle.fed_redaction.specs.ContentHash.{content_hash_of};
ghost use Rattle.fed_redaction.specs.declared.version.Version.{Version};
ghost use Rattle.fed_redaction.specs.Event.{event_in};
ghost use Rattle.fed_redaction.specs.Redaction.{redacted_in};
ghost use Rattle.fed_event.specs.Format.{IsEvent};
ghost use Rattle.fed_event.specs.Sealing.{holding, hashed_of, signature_text_of, sealed_of};
ghost use Rattle.fed_event.specs.Tests.{first_fault_of};

/// The redaction of an event that passes all tests of an event passes them too.
pub fn redaction_passes()
    ensures { (version : Version) (d : Data) → IsProfile d → first_fault_of d ≡ None → first_fault_of (redacted_in version d) ≡ None }
{}

/// An event that passes its tests has every needed field, each of its kind and within its limit.
pub fn what_an_event_has()
    ensures { (event : Data) → first_fault_of event ≡ None → IsEvent event }
{}

/// What stands in the event that a server seals: its hash, its signature, and under every other key what its parts have.
pub fn what_is_sealed()
    ensures parts { (server key : List ℕ) (sign : List ℕ → List ℕ) (version : Version) (parts : Data) (name : List ℕ)
        → name ≢ codes "hashes" → name ≢ codes "signatures" → get name (sealed_of server key sign version parts).value ≡ get name parts }
    ensures hashes { (server key : List ℕ) (sign : List ℕ → List ℕ) (version : Version) (parts : Data) → IsSome (as_object parts)
        → get (codes "hashes") (sealed_of server key sign version parts).value ≡ Some (holding (codes "sha256") (string (content_hash_of parts))) }
    ensures signatures { (server key : List ℕ) (sign : List ℕ → List ℕ) (version : Version) (parts : Data) → IsSome (as_object parts)
        → get (codes "signatures") (sealed_of server key sign version parts).value
        ≡ Some (holding server (holding key (string (signature_text_of sign (event_in version (hashed_of parts)))))) }
{}
