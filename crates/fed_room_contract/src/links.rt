// The places of the auth events of each stored event.
ghost use Rattle.std.specs.Prelude.{◌≡◌, ◌++◌, ◌∷◌, [], ℕ, List, OnOk, length, take};
ghost use Rattle.std.specs.List.{concat, filter_map, slice_index_or};
ghost use Rattle.fed_event.specs.EventIds.{ids_left};
ghost use Rattle.fed_event.specs.Fields.{auth_events_of};
ghost use Rattle.fed_room_contract.specs.LinkParts.{AreLinks, HasRoomFor};
ghost use Rattle.fed_room_contract.specs.Places.{place_at};

use crate::places::Places;
use fed_event::{EventIds, Pdu};
use fed_json::NoMemory;
use std::alloc::Global;

/// Lists of places, one after another in one vector, and where each of them starts.
#[derive(Drop)]
pub(crate) struct Links {
    starts: Vec<usize>,
    places: Vec<usize>,
}

impl Links {
    /// No list.
    pub(crate) fn new(alloc: Global) -> Links
        ensures { AreLinks [] result }
    {
        Links {
            starts: Vec::new(alloc),
            places: Vec::new(alloc),
        }
    }

    /// The list at an index; an empty one past the last.
    pub(crate) fn get(&self, index: usize) -> &[usize]
        ensures { (lists : List (List ℕ)) → AreLinks lists self.now → result.now ≡ slice_index_or lists index [] }
    {
        if index >= self.starts.len() {
            return &[];
        }
        let start = self.start(index);
        let end = self.start(index + 1);
        self.places.get(start..end).unwrap_or(&[])
    }

    // How many places stand before the list at an index; past the last, how many there are.
    fn start(&self, index: usize) -> usize
        ensures { (lists : List (List ℕ)) → AreLinks lists self.now → result ≡ length (concat (take index lists)) }
    {
        self.starts.get(index).copied().unwrap_or(self.places.len())
    }

    /// Makes room for one list more of so many places. An error leaves all as it was, and the room that there was.
    pub(crate) fn reserve(&mut self, count: usize) -> Result<(), NoMemory>
        ensures same { (lists : List (List ℕ)) → AreLinks lists self.old → AreLinks lists self.new }
        ensures room { (n : ℕ) → HasRoomFor n self.old → HasRoomFor n self.new }
        ensures ok { OnOk result (HasRoomFor count self.new) }
    {
        self.starts.reserve(1)?;
        self.places.reserve(count)?;
        Ok(())
    }

    /// Adds the list of the places of these ids, for which there is room. It takes no memory.
    pub(crate) fn add(&mut self, places: &Places, ids: EventIds<'_>)
        requires { HasRoomFor (length (ids_left ids)) self.old }
        ensures { (lists : List (List ℕ)) → AreLinks lists self.old
            → AreLinks (lists ++ filter_map (place_at places.now) (ids_left ids.entry) ∷ []) self.new }
    {
        self.starts.push(self.places.len()).unwrap();
        for id in ids {
            if let Some(place) = places.get(id) {
                self.places.push(place).unwrap();
            }
        }
    }
}

/// Adds the places of an event's auth events, for which there is room: it names at most 10.
pub(crate) fn add_auths(auths: &mut Links, places: &Places, event: &Pdu)
    requires { HasRoomFor 10 auths.old }
    ensures { (lists : List (List ℕ)) → AreLinks lists auths.old
        → AreLinks (lists ++ filter_map (place_at places.now) (auth_events_of event.now) ∷ []) auths.new }
{
    // What an event is made of tells how many ids it names at most, which is what there is room for.
    let _json = event.json();
    auths.add(places, event.auth_events());
}
