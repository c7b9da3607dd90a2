// What holds of all Authorization fields.
ghost use Rattle.std.specs.Prelude.{◌≡◌, ℕ, List, true};
ghost use Rattle.fed_http.specs.XMatrix.{XMatrixValue, IsXMatrix};
ghost use Rattle.fed_http.specs.XMatrixSigning.{SignableJson, IsSendable, header_of, request_of, signed_text};
ghost use Rattle.fed_http.specs.Text.{IsRequestText};
ghost use Rattle.fed_http.specs.Writing.{request_bytes};

use fed_keys::Keys;

/// A text of an Authorization field is read in one way.
pub fn one_header()
    ensures { (text : List ℕ) (h g : XMatrixValue) → IsXMatrix text h → IsXMatrix text g → h ≡ g }
{}

/// What a server signs for a receiver, that receiver checks: under the law of `Keys`, the signature of the header of a signed request checks
/// for the sender, the key and the text that the header and the receiver's own name give.
pub fn signed_requests_check<K: Keys>()
    ensures { (keys : K) (asked : SignableJson) → asked.origin ≡ K.own_name keys → let h = header_of asked (K.own_key keys) (K.own_signature keys) in
        K.checks keys h.origin h.key (signed_text asked) h.signature ≡ true }
{}

/// A signed request of the grammar and within the limits, as it is written, is read as that request: its fields say the length of its body.
pub fn signed_requests_are_read()
    ensures { (asked : SignableJson) (key : List ℕ) (sign : List ℕ → List ℕ) → IsSendable asked key sign
        → IsRequestText (request_of asked key sign) (request_bytes (request_of asked key sign)) }
{}
