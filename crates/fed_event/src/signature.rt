// The signatures of an event.
ghost use Rattle.std.specs.Prelude.{◌≡◌, [], unwrap_or, option_map};
ghost use Rattle.fed_json.specs.JsonRef.{seen};
ghost use Rattle.fed_json.specs.Members.{members_left};
ghost use Rattle.fed_event.specs.Signatures.{signature_in, signatures_by as signatures_of_server, has_signature};

use base64::engine::general_purpose::STANDARD_NO_PAD;
use fed_json::{Json, JsonRef, Members};
use fed_keys::Keys;

/// The signature that a value gives (Server-Server API, "Signing Events"): of a text that is the unpadded standard base64 of 64
/// bytes, these bytes. Every other value gives none.
pub fn signature_of(value: JsonRef<'_>) -> Option<[u8; 64]>
    ensures { result ≡ signature_in (seen value.entry) }
{
    let text = value.text()?;
    let mut signature = [0; 64];
    let count = STANDARD_NO_PAD
        .decode_slice(text.as_bytes(), &mut signature)
        .ok()?;
    (count == signature.len()).then_some(signature)
}

/// Whether some key of the server has signed the event, whose signed text is `signed`: at `signatures`, under the name of the server
/// and that of the key, stands a signature that checks. What stands there and is no signature counts for nothing.
pub fn is_signed_by<K: Keys>(keys: &K, server: &str, event: &Json, signed: &[u8]) -> bool
    ensures { result ≡ has_signature (K.checks keys.now) server.now signed.now event.now }
{
    let Some(signatures) = signatures_by(server, event) else {
        return false;
    };
    for (key, value) in signatures {
        if let Some(signature) = signature_of(value)
            && keys.check(server, key, signed, &signature)
        {
            return true;
        }
    }
    false
}

// What stands under the name of the server at `signatures`, where that is an object.
fn signatures_by<'a>(server: &str, event: &'a Json) -> Option<Members<'a>>
    ensures { unwrap_or (option_map members_left result) [] ≡ signatures_of_server server.now event.now }
{
    event.member("signatures")?.member(server)?.members()
}
