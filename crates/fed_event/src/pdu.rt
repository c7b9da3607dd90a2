// Events that have passed the tests.
ghost use Rattle.std.specs.Prelude.{◌≡◌, ◌≢◌, true, Some, None, Ok, Err, find, IfOk, IfErr, IsOk, IsErr, IsSome, IsNone, IsOkUnless};
ghost use Rattle.fed_event.specs.declared.field.Field.TheVariants.{Event};
ghost use Rattle.fed_event.specs.declared.fault.PduFault.TheVariants.{Memory, WrongKind, TooDeep};
ghost use Rattle.fed_redaction.specs.Event.{event_in};
ghost use Rattle.fed_redaction.specs.EventId.{signed_text_of, event_id_of};
ghost use Rattle.fed_event.specs.Reading.{read_of};
ghost use Rattle.fed_redaction.specs.ContentHash.{hash_fits_of};
ghost use Rattle.fed_redaction.specs.Texts.{event_texts};
ghost use Rattle.fed_redaction.specs.Redaction.{redacted};
ghost use Rattle.fed_event.specs.Tests.{fails, shape_tests, first_fault_of};

use crate::fault::PduFault;
use crate::validity::{first_fault, later_fault, shape_fault};
use fed_json::{Json, JsonFault, MAX_LEVELS, NoMemory, canonical, read_within};
use fed_redaction::{EventId, Texts, Version, covered_text, event_id_of_signed, hash_fits, redact};
use std::alloc::Global;
use std::marker::Model;

/// An event (room versions 10 and 11, "Event format") that has passed these tests, in this order: it nests at most `MAX_DEPTH` levels; it
/// is an object; its canonical text has at most `MAX_SIZE` bytes; it has every field but perhaps `state_key`; each field has a value
/// of its kind; no text of `room_id`, `sender`, `state_key` and `type` has more than `MAX_TEXT` bytes; `auth_events` has at most
/// `MAX_AUTH_EVENTS` ids and `prev_events` at most `MAX_PREV_EVENTS`.
///
/// The kinds: `auth_events` and `prev_events` are arrays of texts, `content`, `hashes` and `signatures` objects, `depth` and
/// `origin_server_ts` whole numbers, and the others texts, of which `room_id` begins with `!`, `sender` with `@`, and both have a
/// colon.
///
/// It keeps the version of the room that it is of, by which it is redacted and has its id. Contracts see it as its JSON value and that
/// version.
#[derive(Drop)]
pub struct Pdu {
    version: Version,
    json: Json,
    id: EventId,
    hash_fits: bool,
}

impl Model for Pdu {
    ghost use Rattle.std.specs.Prelude.{◌≡◌, None};
    ghost use Rattle.fed_redaction.specs.Event.{Event, event_in, coded_event};
    ghost use Rattle.fed_redaction.specs.EventId.{event_id_of};
    ghost use Rattle.fed_redaction.specs.ContentHash.{hash_fits_of};
    ghost use Rattle.fed_event.specs.Tests.{first_fault_of};

    ghost Value = { Event };

    ghost coded = { coded_event };

    ghost view = { λ p. event_in p.version p.json };

    ghost invariant = { λ p. (first_fault_of p.json ≡ None) × (p.id ≡ event_id_of (event_in p.version p.json))
        × (p.hash_fits ≡ hash_fits_of p.json) };
}

impl Pdu {
    /// The event that bytes are, in a room of this version.
    ///
    /// # Errors
    ///
    /// The first of these: `NotJson` where the bytes are not UTF-8, or no JSON text of at most 127 levels; `NotCanonical` where a
    /// number is not whole or out of range; and then those of `of_json`. `Memory` where memory ran out.
    pub fn read(alloc: Global, version: Version, bytes: &[u8]) -> Result<Pdu, PduFault>
        ensures ok { IfOk result (λ p. read_of bytes.now ≡ Ok p.value) }
        ensures version { IfOk result (λ p. p.version ≡ version) }
        ensures fault { IfErr result (λ fault. fault ≢ Memory → read_of bytes.now ≡ Err fault) }
        ensures only { IsOk (read_of bytes.now) → IsOkUnless result Memory }
    {
        match read_within(alloc, bytes, MAX_LEVELS) {
            Ok(json) => Pdu::of_json(alloc, version, json),
            Err(JsonFault::Memory) => Err(PduFault::Memory),
            Err(JsonFault::NotJson) => Err(PduFault::NotJson),
            Err(JsonFault::NotCanonicalValue) => Err(PduFault::NotCanonical),
            Err(JsonFault::TooDeep) => unreachable!(),
        }
    }

    /// The event that a value is, in a room of this version.
    ///
    /// # Errors
    ///
    /// The fault of the first test that the value fails: `TooDeep`, `WrongKind(Event)`, `TooLarge`, or the first of `Missing`, then
    /// of `WrongKind`, then of `TooLong` and then of `TooMany`, each in the order of `Field`. The first two are told without memory;
    /// the others come after the event's texts are made, and `Memory` may come in their place where memory ran out.
    pub fn of_json(alloc: Global, version: Version, json: Json) -> Result<Pdu, PduFault>
        ensures ok { IfOk result (λ p. p ≡ event_in version json) }
        ensures passes { IfOk result (λ _. first_fault_of json ≡ None) }
        ensures fails { IfErr result (λ e. e ≢ Memory → first_fault_of json ≡ Some e) }
        ensures only { IsNone (first_fault_of json) → IsOkUnless result Memory }
        ensures refuses { IsSome (first_fault_of json) → IsErr result }
        ensures deep { first_fault_of json ≡ Some TooDeep → result ≡ Err TooDeep }
        ensures no_object { first_fault_of json ≡ Some (WrongKind Event) → result ≡ Err (WrongKind Event) }
    {
        if let Some(fault) = shape_fault(&json) {
            return Err(fault);
        }
        let texts = Texts::of(alloc, version, &json)?;
        let id = event_id_of_signed(alloc, texts.signed())?;
        Pdu::of_shape(version, json, &texts, id)
    }

    /// The event that a value is in a room of this version, whose texts are `texts` and whose id is `id`: for a caller that has both. It
    /// takes no memory.
    ///
    /// # Errors
    ///
    /// Those of `of_json` but `Memory`.
    pub fn with_texts(
        version: Version,
        json: Json,
        texts: &Texts,
        id: EventId,
    ) -> Result<Pdu, PduFault>
        requires texts { texts.now ≡ event_texts (event_in version json) }
        requires id { id ≡ event_id_of (event_in version json) }
        ensures ok { IfOk result (λ p. p ≡ event_in version json) }
        ensures passes { IfOk result (λ _. first_fault_of json ≡ None) }
        ensures fails { IfErr result (λ e. first_fault_of json ≡ Some e) }
    {
        match shape_fault(&json) {
            Some(fault) => Err(fault),
            None => Pdu::of_shape(version, json, texts, id),
        }
    }

    // The same, of a value that has passed the tests of its shape.
    fn of_shape(version: Version, json: Json, texts: &Texts, id: EventId) -> Result<Pdu, PduFault>
        requires shape { find (fails json) shape_tests ≡ None }
        requires texts { texts.now ≡ event_texts (event_in version json) }
        requires id { id ≡ event_id_of (event_in version json) }
        ensures ok { IfOk result (λ p. p ≡ event_in version json) }
        ensures passes { IfOk result (λ _. first_fault_of json ≡ None) }
        ensures fails { IfErr result (λ e. first_fault_of json ≡ Some e) }
    {
        if let Some(fault) = later_fault(&json, texts.whole().len()) {
            return Err(fault);
        }
        let hash_fits = hash_fits(&json, texts.covered());
        Ok(Pdu {
            version,
            json,
            id,
            hash_fits,
        })
    }

    // The event that a value is in a room of this version, whose signed text is `signed` and whose content hash fits where it is an event.
    pub(crate) fn of_fitting(
        alloc: Global,
        version: Version,
        json: Json,
        signed: &[u8],
    ) -> Result<Pdu, PduFault>
        requires signed { signed.now ≡ signed_text_of (event_in version json) }
        requires fits { first_fault_of json ≡ None → hash_fits_of json ≡ true }
        ensures ok { IfOk result (λ p. p ≡ event_in version json) }
        ensures passes { IfOk result (λ _. first_fault_of json ≡ None) }
        ensures fails { IfErr result (λ e. e ≢ Memory → first_fault_of json ≡ Some e) }
    {
        let text = canonical(alloc, &json)?;
        if let Some(fault) = first_fault(&json, text.len()) {
            return Err(fault);
        }
        let id = event_id_of_signed(alloc, signed)?;
        Ok(Pdu {
            version,
            json,
            id,
            hash_fits: true,
        })
    }

    /// Whether the content hash that the event gives at `hashes.sha256` is the one that it has (Server-Server API, "Calculating the
    /// content hash for an event").
    pub fn hash_fits(&self) -> bool
        ensures { result ≡ hash_fits_of self.now.value }
    {
        self.hash_fits
    }

    // The redaction, which is an event too.
    pub(crate) fn redacted(&self, alloc: Global) -> Result<Pdu, NoMemory>
        ensures { IfOk result (λ p. p ≡ redacted self.now) }
    {
        let json = redact(alloc, self.version, &self.json)?;
        let id = self.id.copy(alloc)?;
        let hash_fits = hash_fits(&json, &covered_text(alloc, &json)?);
        Ok(Pdu {
            version: self.version,
            json,
            id,
            hash_fits,
        })
    }

    /// The version of the room that the event is of.
    pub fn version(&self) -> Version
        ensures { result ≡ self.now.version }
    {
        self.version
    }

    /// The id.
    pub fn id(&self) -> &EventId
        ensures { result.now ≡ event_id_of self.now }
    {
        &self.id
    }

    /// The value.
    pub fn json(&self) -> &Json
        ensures value { result.now ≡ self.now.value }
        ensures passes { first_fault_of self.now.value ≡ None }
    {
        &self.json
    }

    /// The value, to keep.
    pub fn into_json(self) -> Json
        ensures value { result ≡ self.value }
        ensures passes { first_fault_of self.value ≡ None }
    {
        let Pdu { json, .. } = self;
        json
    }

    /// An equal event.
    pub fn copy(&self, alloc: Global) -> Result<Pdu, NoMemory>
        ensures { IfOk result (λ p. p ≡ self.now) }
    {
        let json = self.json.copy()?;
        let id = self.id.copy(alloc)?;
        Ok(Pdu {
            version: self.version,
            json,
            id,
            hash_fits: self.hash_fits,
        })
    }
}

/// Events are equal where their versions and their JSON values are. It takes no memory.
impl PartialEq for Pdu {
    ghost use Rattle.std.specs.Prelude.{◌≡◌, ◌↔◌, IsTrue, bytes_eq};
    ghost use Rattle.std.specs.Cmp.{on_per, partial_equiv_from_equiv};
    ghost use Rattle.std.specs.Cmp.Lexicographic.{nat_list_eq_equiv};
    ghost use Rattle.fed_json.specs.Profile.{IsProfile};
    ghost use Rattle.fed_event.specs.Checked.{event_text};

    ghost eq = { λ x y. bytes_eq (event_text x) (event_text y) };

    ghost laws = { on_per event_text (partial_equiv_from_equiv nat_list_eq_equiv) };

    fn eq(&self, other: &Pdu) -> bool
        ensures texts { result ≡ bytes_eq (event_text self.now) (event_text other.now) }
        ensures same { IsTrue result ↔ (self.now ≡ other.now) }
        ensures one { IsProfile self.now.value }
        ensures another { IsProfile other.now.value }
    {
        let is_same_value = self.json == other.json;
        is_same_value && self.version == other.version
    }
}

impl Eq for Pdu {
    ghost use Rattle.std.specs.Cmp.{on_equiv};
    ghost use Rattle.std.specs.Cmp.Lexicographic.{nat_list_eq_equiv};
    ghost use Rattle.fed_event.specs.Checked.{event_text};

    ghost laws = { on_equiv event_text nat_list_eq_equiv };
}
