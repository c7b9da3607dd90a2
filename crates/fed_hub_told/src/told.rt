// All that one client was told.
ghost use Rattle.std.specs.Prelude.{◌≡◌, ◌<◌, ◌≤◌, [], IsOk, OnOk, OnErr};
ghost use Rattle.fed_hub_told.specs.Told.{with_event, with_edu};

use crate::told_edu::ToldEdu;
use crate::told_event::ToldEvent;
use fed_json::NoMemory;
use std::alloc::Global;
use std::marker::Model;

/// All that one client was told, in order.
///
/// Contracts see it as the events, the EDUs, and for how many more of each there is room.
#[derive(Drop)]
pub struct Told {
    events: Vec<ToldEvent>,
    edus: Vec<ToldEdu>,
}

impl Model for Told {
    ghost use Rattle.fed_hub_told.specs.Told.{ToldState, told_code};

    ghost Value = { ToldState };

    ghost coded = { told_code };

    ghost use Rattle.fed_hub_told.specs.ToldParts.{told_of};

    ghost view = { told_of };
}

impl Told {
    /// Nothing.
    pub fn new(alloc: Global) -> Told
        ensures events { result.events ≡ [] }
        ensures edus { result.edus ≡ [] }
    {
        Told {
            events: Vec::new(alloc),
            edus: Vec::new(alloc),
        }
    }

    /// The events that it was told of.
    pub fn events(&self) -> &[ToldEvent]
        ensures { result.now ≡ self.now.events }
    {
        self.events.as_slice()
    }

    /// The EDUs that it was told of.
    pub fn edus(&self) -> &[ToldEdu]
        ensures { result.now ≡ self.now.edus }
    {
        self.edus.as_slice()
    }

    /// Makes room for one more event, so that it is noted without memory. Where there is room, nothing is done.
    ///
    /// # Errors
    ///
    /// `NoMemory`; all is then as it was.
    pub fn reserve_event(&mut self) -> Result<(), NoMemory>
        ensures ok { OnOk result (0 < self.new.free_events) }
        ensures err { OnErr result (self.new ≡ self.old) }
        ensures same { (self.new.events ≡ self.old.events) × (self.new.edus ≡ self.old.edus) × (self.new.free_edus ≡ self.old.free_edus) }
        ensures room { self.old.free_events ≤ self.new.free_events }
        ensures reserved { 0 < self.old.free_events → IsOk result }
    {
        self.events.reserve(1)
    }

    /// Makes room for one more EDU, so that it is noted without memory. Where there is room, nothing is done.
    ///
    /// # Errors
    ///
    /// `NoMemory`; all is then as it was.
    pub fn reserve_edu(&mut self) -> Result<(), NoMemory>
        ensures ok { OnOk result (0 < self.new.free_edus) }
        ensures err { OnErr result (self.new ≡ self.old) }
        ensures same { (self.new.events ≡ self.old.events) × (self.new.edus ≡ self.old.edus) × (self.new.free_events ≡ self.old.free_events) }
        ensures room { self.old.free_edus ≤ self.new.free_edus }
        ensures reserved { 0 < self.old.free_edus → IsOk result }
    {
        self.edus.reserve(1)
    }

    /// Notes an event that the client is told of, for which there is room. It takes no memory.
    pub fn note_event(&mut self, event: ToldEvent)
        requires room { 0 < self.old.free_events }
        ensures { self.new ≡ with_event self.old event }
    {
        self.events.push_reserved(event);
    }

    /// Notes an EDU that the client is told of, for which there is room. It takes no memory.
    pub fn note_edu(&mut self, edu: ToldEdu)
        requires room { 0 < self.old.free_edus }
        ensures { self.new ≡ with_edu self.old edu }
    {
        self.edus.push_reserved(edu);
    }
}
