// The events and the EDUs of a journal, one after another.
ghost use Rattle.std.specs.Prelude.{◌≡◌};
ghost use Rattle.fed_journal.specs.Journal.{event_in, edu_in, events_of};
ghost use Rattle.fed_journal.specs.Standing.{what_stands};

use crate::entry::Entry;
use fed_event::Checked;
use fed_json::Json;

/// The events addressed to a destination, in order, from the first that is left on.
#[derive(Clone, Copy)]
pub struct Addressed<'a> {
    entries: &'a [Entry],
    places: &'a [usize],
}

impl<'a> Addressed<'a> {
    ghost use Rattle.fed_journal.specs.Left.{addressed_left};

    // The events that stand at these places.
    pub(crate) fn at(entries: &'a [Entry], places: &'a [usize]) -> Addressed<'a>
        ensures { addressed_left result ≡ what_stands event_in entries.now places.now }
    {
        Addressed { entries, places }
    }
}

impl<'a> Iterator for Addressed<'a> {
    ghost use Rattle.std.specs.Iterator.{YieldsFirstRef, item_count};
    ghost use Rattle.fed_journal.specs.Left.{addressed_left};

    type Item = &'a Checked;

    ghost next_gives = { YieldsFirstRef addressed_left };

    ghost remaining = { item_count addressed_left };

    fn next(&mut self) -> Option<&'a Checked> {
        while let Some((place, places)) = self.places.split_first() {
            self.places = places;
            if let Some(Entry::Event(event, _)) = self.entries.get(*place) {
                return Some(event);
            }
        }
        None
    }
}

/// The EDUs addressed to a destination, in order, from the first that is left on.
#[derive(Clone, Copy)]
pub struct AddressedEdus<'a> {
    entries: &'a [Entry],
    places: &'a [usize],
}

impl<'a> AddressedEdus<'a> {
    ghost use Rattle.fed_journal.specs.Left.{addressed_edus_left};

    // The EDUs that stand at these places.
    pub(crate) fn at(entries: &'a [Entry], places: &'a [usize]) -> AddressedEdus<'a>
        ensures { addressed_edus_left result ≡ what_stands edu_in entries.now places.now }
    {
        AddressedEdus { entries, places }
    }
}

impl<'a> Iterator for AddressedEdus<'a> {
    ghost use Rattle.std.specs.Iterator.{YieldsFirstRef, item_count};
    ghost use Rattle.fed_journal.specs.Left.{addressed_edus_left};

    type Item = &'a Json;

    ghost next_gives = { YieldsFirstRef addressed_edus_left };

    ghost remaining = { item_count addressed_edus_left };

    fn next(&mut self) -> Option<&'a Json> {
        while let Some((place, places)) = self.places.split_first() {
            self.places = places;
            if let Some(Entry::Edu(edu, _)) = self.entries.get(*place) {
                return Some(edu);
            }
        }
        None
    }
}

/// All events of a journal, in order, from the first that is left on.
#[derive(Clone, Copy)]
pub struct Events<'a> {
    entries: &'a [Entry],
}

impl<'a> Events<'a> {
    ghost use Rattle.fed_journal.specs.Left.{events_left};

    // The events among these entries.
    pub(crate) fn of(entries: &'a [Entry]) -> Events<'a>
        ensures { events_left result ≡ events_of entries.now }
    {
        Events { entries }
    }
}

impl<'a> Iterator for Events<'a> {
    ghost use Rattle.std.specs.Iterator.{YieldsFirstRef, item_count};
    ghost use Rattle.fed_journal.specs.Left.{events_left};

    type Item = &'a Checked;

    ghost next_gives = { YieldsFirstRef events_left };

    ghost remaining = { item_count events_left };

    fn next(&mut self) -> Option<&'a Checked> {
        while let Some((entry, entries)) = self.entries.split_first() {
            self.entries = entries;
            if let Entry::Event(event, _) = entry {
                return Some(event);
            }
        }
        None
    }
}
