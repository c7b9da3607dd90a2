// Events that the own server makes.
ghost use Rattle.std.specs.Prelude.{◌≡◌, ◌≢◌, ◌<◌, ◌↔◌, true, Some, None, IsTrue, IfOk, IfErr, OnOk, string_bytes, option_map, codes};
ghost use Rattle.base64.specs.Engines.{standard_no_pad};
ghost use Rattle.base64.specs.GeneralPurpose.{encode_of};
ghost use Rattle.serde_json.specs.Data.{depth, string};
ghost use Rattle.serde_json.specs.Read.{max_depth};
ghost use Rattle.fed_json.specs.Editing.{with_member};
ghost use Rattle.fed_event.specs.declared.fault.PduFault.TheVariants.{Memory};
ghost use Rattle.fed_redaction.specs.ContentHash.{hash_fits_of};
ghost use Rattle.fed_event.specs.Signatures.{signature_in, is_signed};
ghost use Rattle.fed_event.specs.Checked.{checked_of};
ghost use Rattle.fed_event.specs.Tests.{first_fault_of};
ghost use Rattle.fed_event.specs.Sealing.{sender_text, IsSentBy, holding as object_holding, hashed_of, sealed_of};

use crate::checked::{CheckFault, Checked, check_signed};
use crate::fault::PduFault;
use crate::ids::domain;
use crate::pdu::Pdu;
use base64::engine::general_purpose::STANDARD_NO_PAD;
use fed_json::{Json, NoMemory};
use fed_keys::Keys;
use fed_redaction::{Version, content_hash, signed_text};
use std::alloc::Global;

/// Whether the sender of an event, where there is one that is a text, is a user of this server.
pub fn is_sent_by(server: &str, event: &Json) -> bool
    ensures { IsTrue result ↔ IsSentBy server.now event.now }
{
    match sender(event) {
        Some(sender) => domain(sender) == server,
        None => true,
    }
}

// The sender, where there is one that is a text.
fn sender(event: &Json) -> Option<&str>
    ensures { option_map (λ s. s.now) result ≡ sender_text event.now }
{
    event.member("sender")?.text()
}

/// The event of these parts in a room of this version that the own server sends (Server-Server API, "Adding hashes and signatures to outgoing events"): with its
/// content hash at `hashes.sha256`, and then the own signature at `signatures`, under the own name and that of the own key. What
/// `parts` has under these two names is replaced. The event passes `check_in` under the same keys and stays as it is there.
///
/// # Errors
///
/// Those of `Pdu::of_json` on the event with its hash and signature, where `Memory` may come in the place of each other one. Where
/// `parts` is no object, it is left as it is.
pub fn seal<K: Keys>(
    alloc: Global,
    version: Version,
    parts: Json,
    keys: &K,
) -> Result<Checked, PduFault>
    requires { IsSentBy (K.own_name keys.now) parts }
    ensures event { let sealed = sealed_of (K.own_name keys.now) (K.own_key keys.now) (K.own_signature keys.now) version parts in
        IfOk result (λ c. c.event ≡ sealed) }
    ensures fits { IfOk result (λ c. hash_fits_of c.event.value ≡ true) }
    ensures signed { IfOk result (λ c. is_signed (K.checks keys.now) c.event ≡ true) }
    ensures checked { IfOk result (λ c. c ≡ checked_of (K.checks keys.now) c.event) }
    ensures passes { let sealed = sealed_of (K.own_name keys.now) (K.own_key keys.now) (K.own_signature keys.now) version parts in
        OnOk result (first_fault_of sealed.value ≡ None) }
    ensures fails { let sealed = sealed_of (K.own_name keys.now) (K.own_key keys.now) (K.own_signature keys.now) version parts in
        IfErr result (λ e. e ≢ Memory → first_fault_of sealed.value ≡ Some e) }
{
    let hashed = hashed(alloc, parts)?;
    let signed_text = signed_text(alloc, version, &hashed)?;
    let event = signed(alloc, hashed, &signed_text, keys)?;
    let event = Pdu::of_fitting(alloc, version, event, &signed_text)?;
    match check_signed(alloc, event, &signed_text, keys) {
        Ok(checked) => Ok(checked),
        Err(CheckFault::Memory) => Err(PduFault::Memory),
        Err(CheckFault::BadSignature) => unreachable!(),
    }
}

// The parts with the content hash.
fn hashed(alloc: Global, parts: Json) -> Result<Json, NoMemory>
    ensures { IfOk result (λ event. event ≡ hashed_of parts) }
{
    let mut event = parts;
    let hash = Json::from(content_hash(alloc, &event)?);
    let hashes = holding(alloc, "sha256", hash)?;
    event.put(String::from_str(alloc, "hashes")?, hashes)?;
    Ok(event)
}

// The event with the own signature of this text, which decodes.
fn signed<K: Keys>(
    alloc: Global,
    event: Json,
    signed_text: &[u8],
    keys: &K,
) -> Result<Json, NoMemory>
    ensures event { let signature = encode_of standard_no_pad (K.own_signature keys.now signed_text.now) in
        let signatures = object_holding (K.own_name keys.now) (object_holding (K.own_key keys.now) (string signature)) in
        IfOk result (λ signed. signed ≡ with_member (codes "signatures") signatures event) }
    ensures decodes { let signature = K.own_signature keys.now signed_text.now in
        OnOk result (signature_in (string (encode_of standard_no_pad signature)) ≡ Some signature) }
{
    let mut event = event;
    let signature = Json::from(signature_text(alloc, signed_text, keys)?);
    let by_key = holding(alloc, keys.key_name(), signature)?;
    let signatures = holding(alloc, keys.own(), by_key)?;
    event.put(String::from_str(alloc, "signatures")?, signatures)?;
    Ok(event)
}

// The own signature of a message as a text, which decodes to that signature.
fn signature_text<K: Keys>(alloc: Global, message: &[u8], keys: &K) -> Result<String, NoMemory>
    ensures text { IfOk result (λ text. string_bytes text ≡ encode_of standard_no_pad (K.own_signature keys.now message.now)) }
    ensures decodes { let signature = K.own_signature keys.now message.now in
        OnOk result (signature_in (string (encode_of standard_no_pad signature)) ≡ Some signature) }
{
    let signature = keys.sign(message);
    STANDARD_NO_PAD.encode(alloc, &signature)
}

// The object with this value under the name.
fn holding(alloc: Global, name: &str, value: Json) -> Result<Json, NoMemory>
    requires { depth value < max_depth }
    ensures { IfOk result (λ json. json ≡ object_holding name.now value) }
{
    let mut json = Json::empty_object(alloc);
    json.put(String::from_str(alloc, name)?, value)?;
    Ok(json)
}
