// The tests that an event has to pass.
ghost use Rattle.std.specs.Prelude.{◌≡◌, ◌++◌, length, find, nat_lt, option_map, option_and_then};
ghost use Rattle.std.specs.List.{list_all};
ghost use Rattle.serde_json.specs.Find.{as_str};
ghost use Rattle.fed_json.specs.CanonicalText.{canonical_text};
ghost use Rattle.fed_json.specs.Items.{left};
ghost use Rattle.fed_json.specs.JsonRef.{seen, as_items};
ghost use Rattle.fed_event.specs.Ids.{is_id_text};
ghost use Rattle.fed_event.specs.Tests.{part, has_kind, is_text, is_array_of_texts, is_id, holds, fails, first_fault_of, needed_fields, all_fields, measured_fields, counted_fields, shape_tests, later_tests, missing_tests, kind_tests, length_tests, count_tests};

use crate::fault::PduFault;
use crate::field::Field;
use fed_json::{Items, Json, JsonRef};

/// The most levels that an event nests.
pub const MAX_DEPTH: usize = 100;

/// The most bytes of an event's canonical text, signatures and all.
pub const MAX_SIZE: usize = 65_536;

/// The most bytes of `room_id`, `sender`, `state_key` and `type`.
pub const MAX_TEXT: usize = 255;

/// The most ids of `auth_events`.
pub const MAX_AUTH_EVENTS: usize = 10;

/// The most ids of `prev_events`.
pub const MAX_PREV_EVENTS: usize = 20;

const NEEDED: [Field; 10] = [
    Field::AuthEvents,
    Field::Content,
    Field::Depth,
    Field::Hashes,
    Field::OriginServerTs,
    Field::PrevEvents,
    Field::RoomId,
    Field::Sender,
    Field::Signatures,
    Field::Type,
];

const ALL: [Field; 11] = [
    Field::AuthEvents,
    Field::Content,
    Field::Depth,
    Field::Hashes,
    Field::OriginServerTs,
    Field::PrevEvents,
    Field::RoomId,
    Field::Sender,
    Field::Signatures,
    Field::StateKey,
    Field::Type,
];

const MEASURED: [Field; 4] = [Field::RoomId, Field::Sender, Field::StateKey, Field::Type];

/// The first of a `Pdu`'s tests that a value fails, whose canonical text has `text_len` bytes.
#[tactic(auto, unfolding(crate::specs::Tests::first_fault_of))]
pub fn first_fault(event: &Json, text_len: usize) -> Option<PduFault>
    requires { text_len ≡ length (canonical_text event.now) }
    ensures { result ≡ first_fault_of event.now }
{
    match shape_fault(event) {
        Some(fault) => Some(fault),
        None => later_fault(event, text_len),
    }
}

// The first of the tests of its shape that a value fails. They need none of its texts.
pub(crate) fn shape_fault(event: &Json) -> Option<PduFault>
    ensures { result ≡ find (fails event.now) shape_tests }
{
    if event.depth() > MAX_DEPTH {
        Some(PduFault::TooDeep)
    } else if !event.is_object() {
        Some(PduFault::WrongKind(Field::Event))
    } else {
        None
    }
}

// The first of the tests after these that a value fails, whose canonical text has `text_len` bytes.
pub(crate) fn later_fault(event: &Json, text_len: usize) -> Option<PduFault>
    requires { text_len ≡ length (canonical_text event.now) }
    ensures { result ≡ find (fails event.now) later_tests }
{
    if text_len > MAX_SIZE {
        return Some(PduFault::TooLarge);
    }
    field_fault(event)
}

// The first of the tests of the fields that the value fails.
fn field_fault(event: &Json) -> Option<PduFault>
    ensures { result
        ≡ find (fails event.now) (missing_tests ++ (kind_tests ++ (length_tests ++ count_tests))) }
{
    if let Some(field) = missing_field(event) {
        return Some(PduFault::Missing(field));
    }
    if let Some(field) = wrong_kind(event) {
        return Some(PduFault::WrongKind(field));
    }
    if let Some(field) = too_long(event) {
        return Some(PduFault::TooLong(field));
    }
    let field = too_many(event)?;
    Some(PduFault::TooMany(field))
}

// The first field that an event may not lack and that is not there.
fn missing_field(event: &Json) -> Option<Field>
    ensures { result ≡ find (λ field. fails event.now (PduFault.Missing field)) needed_fields }
{
    NEEDED
        .iter()
        .copied()
        .find(|field| is_missing(event, *field))
}

// The first field that is there and has a value of another kind.
fn wrong_kind(event: &Json) -> Option<Field>
    ensures { result ≡ find (λ field. fails event.now (PduFault.WrongKind field)) all_fields }
{
    ALL.iter()
        .copied()
        .find(|field| is_wrong_kind(event, *field))
}

// The first field whose text is too long.
fn too_long(event: &Json) -> Option<Field>
    ensures { result ≡ find (λ field. fails event.now (PduFault.TooLong field)) measured_fields }
{
    MEASURED
        .iter()
        .copied()
        .find(|field| is_too_long(event, *field))
}

// The first field that has too many ids.
fn too_many(event: &Json) -> Option<Field>
    ensures { result ≡ find (λ field. fails event.now (PduFault.TooMany field)) counted_fields }
{
    if has_more(event, Field::AuthEvents, MAX_AUTH_EVENTS) {
        Some(Field::AuthEvents)
    } else if has_more(event, Field::PrevEvents, MAX_PREV_EVENTS) {
        Some(Field::PrevEvents)
    } else {
        None
    }
}

fn is_missing(event: &Json, field: Field) -> bool
    ensures { result ≡ fails event.now (PduFault.Missing field) }
{
    part(event, field).is_none()
}

fn is_wrong_kind(event: &Json, field: Field) -> bool
    ensures { result ≡ fails event.now (PduFault.WrongKind field) }
{
    part(event, field).is_some_and(|value| !has_kind(field, value))
}

fn is_too_long(event: &Json, field: Field) -> bool
    ensures { result ≡ fails event.now (PduFault.TooLong field) }
{
    let text = part(event, field).and_then(|value| value.text());
    text.is_some_and(|text| text.len() > MAX_TEXT)
}

// Whether an array stands in the field that has more items than this.
fn has_more(event: &Json, field: Field, most: usize) -> bool
    ensures { result ≡ holds (λ ids. nat_lt most (length ids)) (option_and_then as_items (part field event.now)) }
{
    let ids = part(event, field).and_then(|value| value.items());
    ids.is_some_and(|ids| ids.len() > most)
}

// What stands in the field; the event stands in its own.
pub(crate) fn part(event: &Json, field: Field) -> Option<JsonRef<'_>>
    ensures { option_map seen result ≡ part field event.now }
{
    match field {
        Field::Event => Some(event.root()),
        _ => event.member(field.name()),
    }
}

// Whether the value is of the kind that the field has.
fn has_kind(field: Field, value: JsonRef<'_>) -> bool
    ensures { result ≡ has_kind field (seen value.entry) }
{
    match field {
        Field::Event | Field::Content | Field::Hashes | Field::Signatures => value.is_object(),
        Field::AuthEvents | Field::PrevEvents => is_array_of_texts(value),
        Field::Depth | Field::OriginServerTs => value.whole().is_some(),
        Field::RoomId => is_id(b'!', value),
        Field::Sender => is_id(b'@', value),
        Field::StateKey | Field::Type => value.text().is_some(),
    }
}

fn is_array_of_texts(value: JsonRef<'_>) -> bool
    ensures { result ≡ is_array_of_texts (seen value.entry) }
{
    value.items().is_some_and(|items| are_texts(items))
}

fn are_texts(items: Items<'_>) -> bool
    ensures { result ≡ list_all is_text (left items.entry) }
{
    for item in items {
        if item.text().is_none() {
            return false;
        }
    }
    true
}

// Whether the value is a text that begins with this character and has a colon.
fn is_id(sigil: u8, value: JsonRef<'_>) -> bool
    ensures { result ≡ is_id sigil (seen value.entry) }
{
    value.text().is_some_and(|text| is_id_text(sigil, text))
}

fn is_id_text(sigil: u8, text: &str) -> bool
    ensures { result ≡ is_id_text sigil text.now }
{
    let bytes = text.as_bytes();
    !bytes.is_empty() && bytes[0] == sigil && bytes.contains(&b':')
}
