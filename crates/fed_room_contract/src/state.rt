// The state of a room.
ghost use Rattle.std.specs.Prelude.{◌≡◌, IfOk, OnOk, OnErr, option_map};
ghost use Rattle.std.specs.FinMap as map;
ghost use Rattle.fed_room_contract.specs.State.{entry_at, with_entry};

use crate::entry::Entry;
use crate::keyed::Keyed;
use fed_event::EventId;
use fed_json::NoMemory;
use std::alloc::Global;
use std::collections::BTreeMap;
use std::marker::Model;

/// The state of a room (Client-Server API, "Types of room events"): the id of the event that holds at each event type and state key.
///
/// Contracts see it as the finite map from pairs of type and state key.
#[derive(Drop)]
pub struct State {
    kinds: BTreeMap<String, Keyed>,
}

impl Model for State {
    ghost use Rattle.std.specs.BTreeMap.{IsOrdered};
    ghost use Rattle.std.specs.String.{string_cmp};
    ghost use Rattle.fed_room_contract.specs.State.{StateMap, state_code};
    ghost use Rattle.fed_room_contract.specs.StateParts.{state_of};

    ghost Value = { StateMap };

    ghost coded = { state_code };

    ghost view = { λ s. state_of s.kinds.entries };

    ghost invariant = { λ s. IsOrdered string_cmp s.kinds };
}

impl State {
    ghost use Rattle.std.specs.Prelude.{map as map_list};
    ghost use Rattle.fed_room_contract.specs.Entry.{seen};

    /// The state in which nothing holds.
    pub fn new(alloc: Global) -> State
        ensures { result ≡ map.empty }
    {
        State {
            kinds: BTreeMap::new(alloc),
        }
    }

    /// The id of the event that holds at a type and state key.
    pub fn get(&self, kind: &str, state_key: &str) -> Option<&EventId>
        ensures { option_map (λ id. id.now) result ≡ entry_at self.now kind.now state_key.now }
    {
        self.kinds.get(kind)?.get(state_key)
    }

    /// Lays an entry over: the event of this id holds at the type and state key. An error leaves the state as it was.
    pub fn insert(
        &mut self,
        alloc: Global,
        kind: &str,
        state_key: &str,
        id: EventId,
    ) -> Result<(), NoMemory>
        ensures ok { OnOk result (self.new ≡ with_entry self.old kind.now state_key.now id) }
        ensures err { OnErr result (self.new ≡ self.old) }
    {
        if let Some(keyed) = self.kinds.get_mut(kind) {
            return keyed.insert(alloc, state_key, id);
        }
        let mut keyed = Keyed::new(alloc);
        keyed.insert(alloc, state_key, id)?;
        let kind = String::from_str(alloc, kind)?;
        drop(self.kinds.insert(kind, keyed)?);
        Ok(())
    }

    /// Takes the entry at a type and state key away, where there is one.
    pub fn remove(&mut self, kind: &str, state_key: &str)
        ensures { self.new ≡ map.remove self.old (kind.now, state_key.now) }
    {
        if let Some(keyed) = self.kinds.get_mut(kind) {
            keyed.remove(state_key);
        }
    }

    /// The entries, in the order of their types and, within a type, of their state keys.
    pub fn entries(&self, alloc: Global) -> Result<Vec<Entry<'_>>, NoMemory>
        ensures { IfOk result (λ entries. map_list seen entries.items ≡ map.entries self.now) }
    {
        let mut entries = Vec::new(alloc);
        for (kind, keyed) in &self.kinds {
            keyed.append_to(kind.as_str(), &mut entries)?;
        }
        Ok(entries)
    }

    /// An equal state.
    pub fn copy(&self, alloc: Global) -> Result<State, NoMemory>
        ensures { IfOk result (λ copy. copy ≡ self.now) }
    {
        let mut kinds = BTreeMap::new(alloc);
        for (kind, keyed) in &self.kinds {
            let kind = String::from_str(alloc, kind)?;
            drop(kinds.insert(kind, keyed.copy(alloc)?)?);
        }
        Ok(State { kinds })
    }
}
