// What of what an outbox accepted is not found yet.
ghost use Rattle.std.specs.Prelude.{◌≡◌, ◌↔◌, IsTrue, Some};
ghost use Rattle.fed_journal.specs.declared.parcel.Load.TheVariants as load;
ghost use Rattle.fed_journal.specs.Journal.{load_for};
ghost use Rattle.fed_hub_kept.specs.Left.{left_in, all_of, is_nothing, with_first, without_first};

use fed_dest::ServerIndex;
use fed_event::Checked;
use fed_journal::{Cause, Entry};
use fed_json::Json;
use fed_outbox::Outbox;

/// Of what an outbox accepted the events, the EDUs and the end that are not found in the journal yet.
#[derive(Drop)]
pub(crate) struct Left<'a> {
    events: &'a [Checked],
    edus: &'a [Json],
    has_end: bool,
}

impl<'a> Left<'a> {
    /// All that an outbox accepted.
    pub(crate) fn of(outbox: &'a Outbox) -> Left<'a>
        ensures { left_in result ≡ all_of outbox.now }
    {
        Left {
            events: outbox.accepted(),
            edus: outbox.accepted_edus(),
            has_end: outbox.has_end(),
        }
    }

    /// Whether nothing is left.
    pub(crate) fn is_empty(&self) -> bool
        ensures { result ≡ is_nothing (left_in self.now) }
    {
        self.events.is_empty() && self.edus.is_empty() && !self.has_end
    }

    /// Takes off what an entry places for a destination, and tells whether that was the first of its kind.
    pub(crate) fn take(&mut self, entry: &Entry, dest: ServerIndex) -> bool
        ensures first { IsTrue result ↔ (left_in self.old ≡ with_first (load_for dest entry.now) (left_in self.new)) }
        ensures rest { left_in self.new ≡ without_first (load_for dest entry.now) (left_in self.old) }
    {
        match entry {
            Entry::Event(event, dests) => !dests.contains(dest) || self.take_event(event),
            Entry::Edu(edu, dests) => !dests.contains(dest) || self.take_edu(edu),
            Entry::Close(closed, Cause::Asked) => *closed != dest || self.take_end(),
            Entry::Close(_, Cause::Lost) => true,
        }
    }

    fn take_event(&mut self, event: &Checked) -> bool
        ensures first { IsTrue result ↔ (left_in self.old ≡ with_first (Some (load.Event event.now)) (left_in self.new)) }
        ensures rest { left_in self.new ≡ without_first (Some (load.Event event.now)) (left_in self.old) }
    {
        let Some((first, rest)) = self.events.split_first() else {
            return false;
        };
        self.events = rest;
        *first == *event
    }

    fn take_edu(&mut self, edu: &Json) -> bool
        ensures first { IsTrue result ↔ (left_in self.old ≡ with_first (Some (load.Edu edu.now)) (left_in self.new)) }
        ensures rest { left_in self.new ≡ without_first (Some (load.Edu edu.now)) (left_in self.old) }
    {
        let Some((first, rest)) = self.edus.split_first() else {
            return false;
        };
        self.edus = rest;
        *first == *edu
    }

    fn take_end(&mut self) -> bool
        ensures first { IsTrue result ↔ (left_in self.old ≡ with_first (Some load.End) (left_in self.new)) }
        ensures rest { left_in self.new ≡ without_first (Some load.End) (left_in self.old) }
    {
        let had_end = self.has_end;
        self.has_end = false;
        had_end
    }
}
