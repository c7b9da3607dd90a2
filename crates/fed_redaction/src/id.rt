// The ids of events.
ghost use Rattle.std.specs.Prelude.{◌≡◌, Some, IfOk, string_bytes, bytes_eq, refl};
ghost use Rattle.std.specs.Cmp.{partial_equiv_from_equiv};
ghost use Rattle.std.specs.Cmp.Lexicographic.{slice_cmp, nat_list_eq_equiv, nat_list_cmp_total, texts_po, texts_ties};
ghost use Rattle.std.specs.Ordering.{nat_cmp};
ghost use Rattle.fed_redaction.specs.Event.{event_in};
ghost use Rattle.fed_redaction.specs.EventId.{event_id_of, id_of_signed};

use crate::signed::signed_text;
use crate::version::Version;
use base64::engine::general_purpose::URL_SAFE_NO_PAD;
use fed_json::{Json, NoMemory};
use sha2::{Digest, Sha256};
use std::alloc::Global;
use std::cmp::Ordering;
use std::fmt;
use std::marker::Model;

// The length of an id: `$`, and a SHA-256 in base64 without padding.
const ID_LENGTH: usize = 44;

/// The id of an event (room version 4, "Event IDs"), as a text. Ids are ordered as their bytes. Contracts see it as its bytes.
#[derive(Drop)]
pub struct EventId {
    text: String,
}

impl Model for EventId {
    ghost use Rattle.std.specs.Prelude.{ℕ, List, string_bytes};
    ghost use Rattle.std.specs.Coded.{coded_ℕ, coded_list};

    ghost Value = { List ℕ };

    ghost coded = { coded_list coded_ℕ };

    ghost use Rattle.fed_redaction.specs.EventId.{IsIdText};

    ghost view = { λ id. string_bytes id.text };

    ghost invariant = { λ id. IsIdText (string_bytes id.text) };
}

impl EventId {
    ghost use Rattle.fed_redaction.specs.EventId.{IsIdText};

    /// The text of the id: `$` and 43 characters of the URL-safe alphabet of base64.
    pub fn as_str(&self) -> &str
        ensures text { result.now ≡ self.now }
        ensures form { IsIdText self.now }
    {
        self.text.as_str()
    }

    /// An equal id.
    pub fn copy(&self, alloc: Global) -> Result<EventId, NoMemory>
        ensures { IfOk result (λ id. id ≡ self.now) }
    {
        let text = String::from_str(alloc, self.as_str())?;
        Ok(EventId { text })
    }

    /// The text of the id, to keep.
    pub fn into_string(self) -> String
        ensures { string_bytes result ≡ self }
    {
        let EventId { text } = self;
        text
    }
}

impl PartialEq for EventId {
    ghost eq = { bytes_eq };

    ghost laws = { partial_equiv_from_equiv nat_list_eq_equiv };

    fn eq(&self, other: &EventId) -> bool {
        self.as_str() == other.as_str()
    }
}

impl Eq for EventId {
    ghost laws = { nat_list_eq_equiv };
}

impl PartialOrd for EventId {
    ghost partial_cmp = { λ x y. Some (slice_cmp nat_cmp x y) };

    ghost laws = { texts_po };

    fn partial_cmp(&self, other: &EventId) -> Option<Ordering> {
        Some(self.cmp(other))
    }
}

impl Ord for EventId {
    ghost cmp = { slice_cmp nat_cmp };

    ghost total = { nat_list_cmp_total };

    ghost matches_partial_cmp = { λ x y. refl };

    ghost matches_eq = { texts_ties };

    fn cmp(&self, other: &EventId) -> Ordering {
        self.as_str().cmp(other.as_str())
    }
}

impl fmt::Display for EventId {
    ghost output = { λ id. Some id };

    fn fmt<W: fmt::Write>(&self, f: &mut fmt::Formatter<W>) -> fmt::Result {
        f.write_str(self.as_str())
    }
}

impl fmt::Debug for EventId {
    fn fmt<W: fmt::Write>(&self, f: &mut fmt::Formatter<W>) -> fmt::Result {
        fmt::Debug::fmt(self.as_str(), f)
    }
}

/// The id of an event in a room of this version: `$` and the unpadded URL-safe base64 of the SHA-256 of its signed text. A value that is
/// no event has one too.
pub fn event_id(alloc: Global, version: Version, event: &Json) -> Result<EventId, NoMemory>
    ensures { IfOk result (λ id. id ≡ event_id_of (event_in version event.now)) }
{
    event_id_of_signed(alloc, &signed_text(alloc, version, event)?)
}

/// The id of the event whose signed text this is, for a caller that has it.
pub fn event_id_of_signed(alloc: Global, signed: &[u8]) -> Result<EventId, NoMemory>
    ensures { IfOk result (λ id. id ≡ id_of_signed signed.now) }
{
    let hash = Sha256::digest(signed);
    let mut text = String::with_capacity(alloc, ID_LENGTH)?;
    text.push('$')?;
    URL_SAFE_NO_PAD.encode_string(&hash, &mut text)?;
    Ok(EventId { text })
}
