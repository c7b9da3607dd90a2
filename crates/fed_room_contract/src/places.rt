// Where stored events stand.
ghost use Rattle.std.specs.Prelude.{◌≡◌, Some, None, IsSome, OnOk, OnErr, option_map};
ghost use Rattle.std.specs.FinMap as finite;
ghost use Rattle.fed_room_contract.specs.Places.{place_at, with_room_for, without_room_for, with_room_in_place_of};

use fed_event::EventId;
use fed_json::NoMemory;
use std::alloc::Global;
use std::collections::BTreeMap;
use std::marker::Model;

/// The place of each stored event, by its id, and the ids that room was made for, which have no place yet. Contracts see it as a
/// finite map.
#[derive(Drop)]
pub(crate) struct Places {
    places: BTreeMap<String, Option<usize>>,
}

impl Model for Places {
    ghost use Rattle.std.specs.BTreeMap.{IsOrdered};
    ghost use Rattle.std.specs.String.{string_cmp};
    ghost use Rattle.fed_json.specs.TextMap.{text_map};
    ghost use Rattle.fed_room_contract.specs.Places.{PlaceMap, places_code};

    ghost Value = { PlaceMap };

    ghost coded = { places_code };

    ghost view = { λ p. text_map (λ place. place) p.places.entries };

    ghost invariant = { λ p. IsOrdered string_cmp p.places };
}

impl Places {
    pub(crate) fn new(alloc: Global) -> Places
        ensures { result ≡ finite.empty }
    {
        Places {
            places: BTreeMap::new(alloc),
        }
    }

    /// The place of the event of this id.
    pub(crate) fn get(&self, id: &str) -> Option<usize>
        ensures { result ≡ place_at self.now id.now }
    {
        match self.places.get(id) {
            Some(place) => *place,
            None => None,
        }
    }

    /// Makes room for an id that has none, in place of the room that was made for another one before. An error leaves all as it was.
    pub(crate) fn make_room(
        &mut self,
        alloc: Global,
        id: &EventId,
        before: Option<&EventId>,
    ) -> Result<(), NoMemory>
        ensures ok { OnOk result (self.new ≡ with_room_in_place_of self.old (option_map (λ b. b.now) before.entry) id.now) }
        ensures err { OnErr result (self.new ≡ self.old) }
    {
        self.add_room(alloc, id.as_str())?;
        if let Some(before) = before
            && before != id
        {
            self.take_room_back(before.as_str());
        }
        Ok(())
    }

    // Makes room for an id that has none. An error leaves all as it was.
    fn add_room(&mut self, alloc: Global, id: &str) -> Result<(), NoMemory>
        ensures ok { OnOk result (self.new ≡ with_room_for self.old id.now) }
        ensures err { OnErr result (self.new ≡ self.old) }
    {
        if self.places.contains_key(id) {
            return Ok(());
        }
        let id = String::from_str(alloc, id)?;
        drop(self.places.insert(id, None)?);
        Ok(())
    }

    // Takes back the room for an id, unless a place was entered.
    fn take_room_back(&mut self, id: &str)
        ensures { self.new ≡ without_room_for self.old id.now }
    {
        if self.get(id).is_none() {
            drop(self.places.remove(id));
        }
    }

    /// Enters the place of an id that room was made for.
    pub(crate) fn enter(&mut self, id: &str, place: usize)
        requires { IsSome (finite.get self.old id.now) }
        ensures { self.new ≡ finite.insert self.old id.now (Some place) }
    {
        match self.places.get_mut(id) {
            Some(entry) => *entry = Some(place),
            None => unreachable!(),
        }
    }
}
