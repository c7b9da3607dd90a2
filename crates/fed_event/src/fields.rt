// The fields of an event that has passed the tests.
ghost use Rattle.std.specs.Prelude.{◌≡◌, IsTrue, true, option_map};
ghost use Rattle.fed_json.specs.JsonRef.{seen};
ghost use Rattle.fed_event.specs.EventIds.{ids_left};
ghost use Rattle.fed_event.specs.Fields.{is_needed, has_text, has_whole, has_ids, value_at, text_at, whole_at, texts_at, auth_events_of, content_of, depth_of, hashes_of, origin_server_ts_of, prev_events_of, room_id_of, sender_of, signatures_of, state_key_of, kind_of};
ghost use Rattle.fed_event.specs.Tests.{has_kind};

use crate::event_ids::EventIds;
use crate::field::Field;
use crate::pdu::Pdu;
use crate::validity::part;
use fed_json::JsonRef;

impl Pdu {
    /// The ids of the events that authorise this one, in its order.
    pub fn auth_events(&self) -> EventIds<'_>
        ensures { ids_left result ≡ auth_events_of self.now }
    {
        self.ids_at(Field::AuthEvents)
    }

    /// The content: an object.
    pub fn content(&self) -> JsonRef<'_>
        ensures { seen result ≡ content_of self.now }
    {
        self.value_at(Field::Content)
    }

    /// How deep the event lies in its room's graph.
    pub fn depth(&self) -> i64
        ensures { result ≡ depth_of self.now }
    {
        self.whole_at(Field::Depth)
    }

    /// The hashes of the event: an object.
    pub fn hashes(&self) -> JsonRef<'_>
        ensures { seen result ≡ hashes_of self.now }
    {
        self.value_at(Field::Hashes)
    }

    /// When the event was made, in milliseconds since the Unix epoch.
    pub fn origin_server_ts(&self) -> i64
        ensures { result ≡ origin_server_ts_of self.now }
    {
        self.whole_at(Field::OriginServerTs)
    }

    /// The ids of the events that this one follows, in its order.
    pub fn prev_events(&self) -> EventIds<'_>
        ensures { ids_left result ≡ prev_events_of self.now }
    {
        self.ids_at(Field::PrevEvents)
    }

    /// The id of the room.
    pub fn room_id(&self) -> &str
        ensures { result.now ≡ room_id_of self.now }
    {
        self.text_at(Field::RoomId)
    }

    /// The id of the user who sent the event.
    pub fn sender(&self) -> &str
        ensures { result.now ≡ sender_of self.now }
    {
        self.text_at(Field::Sender)
    }

    /// The signatures of the event: an object.
    pub fn signatures(&self) -> JsonRef<'_>
        ensures { seen result ≡ signatures_of self.now }
    {
        self.value_at(Field::Signatures)
    }

    /// The state key, where the event is a state event.
    pub fn state_key(&self) -> Option<&str>
        ensures { option_map (λ s. s.now) result ≡ state_key_of self.now }
    {
        self.json().member("state_key")?.text()
    }

    /// The type.
    pub fn kind(&self) -> &str
        ensures { result.now ≡ kind_of self.now }
    {
        self.text_at(Field::Type)
    }

    // What stands in a field that no event lacks.
    fn value_at(&self, field: Field) -> JsonRef<'_>
        requires { IsTrue (is_needed field) }
        ensures value { seen result ≡ value_at field self.now.value }
        ensures kind { has_kind field (seen result) ≡ true }
    {
        match part(self.json(), field) {
            Some(value) => value,
            None => unreachable!(),
        }
    }

    // The text in a field that holds a text.
    fn text_at(&self, field: Field) -> &str
        requires { IsTrue (has_text field) }
        ensures { result.now ≡ text_at field self.now.value }
    {
        match self.value_at(field).text() {
            Some(text) => text,
            None => unreachable!(),
        }
    }

    // The number in a field that holds a whole number.
    fn whole_at(&self, field: Field) -> i64
        requires { IsTrue (has_whole field) }
        ensures { result ≡ whole_at field self.now.value }
    {
        match self.value_at(field).whole() {
            Some(whole) => whole,
            None => unreachable!(),
        }
    }

    // The ids in a field that holds ids.
    fn ids_at(&self, field: Field) -> EventIds<'_>
        requires { IsTrue (has_ids field) }
        ensures { ids_left result ≡ texts_at field self.now.value }
    {
        match self.value_at(field).items() {
            Some(items) => EventIds::new(items),
            None => unreachable!(),
        }
    }
}
