// Event ids that are hashes.
ghost use Rattle.std.specs.Prelude.{◌≡◌, MatchOption, IfSome};
ghost use Rattle.base64.specs.Engines.{url_safe_no_pad};
ghost use Rattle.base64.specs.GeneralPurpose.{IsBytes, encode_of};
ghost use Rattle.fed_replies.specs.HashId.{IsHashId, IsIdOf};
ghost use Rattle.fed_replies.specs.Plain.{IsPlain};

use base64::engine::general_purpose::URL_SAFE_NO_PAD;

/// A reference hash.
pub(crate) type Hash = [u8; 32];

/// The characters behind the sigil of the id that a hash is.
pub(crate) type Symbols = [u8; SYMBOLS];

/// How many these are.
pub(crate) const SYMBOLS: usize = 43;

/// The hash that an event id is, where it is `$` and the unpadded URL-safe base64 of one.
pub(crate) fn hash_of(id: &[u8]) -> Option<Hash>
    ensures hash { MatchOption result (¬ IsHashId id.now) (λ h. IsIdOf h id.now) }
    ensures plain { IfSome result (λ _. IsPlain id.now) }
{
    let Some((sigil, symbols)) = id.split_first() else {
        return None;
    };
    if *sigil != b'$' {
        return None;
    }
    if symbols.len() != SYMBOLS {
        return None;
    }
    let mut bytes = [0; 33];
    let Ok(len) = URL_SAFE_NO_PAD.decode_slice_unchecked(symbols, &mut bytes) else {
        return None;
    };
    if len != 32 {
        return None;
    }
    let mut hash = [0; 32];
    hash.copy_from_slice(&bytes[..32]);
    are_bytes(&hash);
    Some(hash)
}

// It does nothing: its contract says that these are bytes.
fn are_bytes(bytes: &[u8])
    ensures { IsBytes bytes.now }
{}

/// The characters behind the sigil of the id that a hash is, as the library gives them.
pub(crate) fn encoded(hash: &Hash) -> Symbols
    ensures symbols { result ≡ encode_of url_safe_no_pad hash.now }
    ensures plain { IsPlain result }
{
    let mut symbols = [0; SYMBOLS];
    let _ = URL_SAFE_NO_PAD.encode_slice(hash, &mut symbols);
    symbols
}
