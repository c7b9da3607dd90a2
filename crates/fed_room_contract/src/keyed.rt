// The events of one type that hold in a room.
ghost use Rattle.std.specs.Prelude.{◌≡◌, IfOk, OnOk, OnErr, string_bytes, option_map};
ghost use Rattle.std.specs.FinMap as map;

use crate::entry::Entry;
use fed_event::EventId;
use fed_json::NoMemory;
use std::alloc::Global;
use std::collections::BTreeMap;
use std::marker::Model;

/// The ids of events, by state key. Contracts see it as a finite map of bytes.
#[derive(Drop)]
pub(crate) struct Keyed {
    ids: BTreeMap<String, EventId>,
}

impl Model for Keyed {
    ghost use Rattle.std.specs.Prelude.{ℕ, List};
    ghost use Rattle.std.specs.Coded.{coded_ℕ, coded_list};
    ghost use Rattle.std.specs.BTreeMap.{IsOrdered};
    ghost use Rattle.std.specs.String.{string_cmp};
    ghost use Rattle.fed_json.specs.TextMap.{TextMap, text_map_code, text_map};

    ghost Value = { TextMap (List ℕ) };

    ghost coded = { text_map_code (coded_list coded_ℕ) };

    ghost view = { λ k. text_map (λ id. id) k.ids.entries };

    ghost invariant = { λ k. IsOrdered string_cmp k.ids };
}

impl Keyed {
    ghost use Rattle.std.specs.Prelude.{◌++◌, map as map_list};
    ghost use Rattle.fed_room_contract.specs.Entry.{seen};
    ghost use Rattle.fed_room_contract.specs.StateParts.{entries_of};

    pub(crate) fn new(alloc: Global) -> Keyed
        ensures { result ≡ map.empty }
    {
        Keyed {
            ids: BTreeMap::new(alloc),
        }
    }

    /// The id of the event that holds at the key.
    pub(crate) fn get(&self, key: &str) -> Option<&EventId>
        ensures { option_map (λ id. id.now) result ≡ map.get self.now key.now }
    {
        self.ids.get(key)
    }

    /// Lays an entry over. An error leaves all as it was.
    pub(crate) fn insert(&mut self, alloc: Global, key: &str, id: EventId) -> Result<(), NoMemory>
        ensures ok { OnOk result (self.new ≡ map.insert self.old key.now id) }
        ensures err { OnErr result (self.new ≡ self.old) }
    {
        let key = String::from_str(alloc, key)?;
        drop(self.ids.insert(key, id)?);
        Ok(())
    }

    /// Takes the entry at the key away, where there is one.
    pub(crate) fn remove(&mut self, key: &str)
        ensures { self.new ≡ map.remove self.old key.now }
    {
        drop(self.ids.remove(key));
    }

    /// Appends the entries, which are those of this type, in the order of their keys.
    pub(crate) fn append_to<'a>(
        &'a self,
        kind: &'a str,
        entries: &mut Vec<Entry<'a>>,
    ) -> Result<(), NoMemory>
        ensures { OnOk result (map_list seen entries.new.items
            ≡ map_list seen entries.old.items ++ entries_of kind.now (map.entries self.now)) }
    {
        for (key, id) in &self.ids {
            entries.push(Entry {
                kind,
                state_key: key.as_str(),
                id,
            })?;
        }
        Ok(())
    }

    /// An equal value.
    pub(crate) fn copy(&self, alloc: Global) -> Result<Keyed, NoMemory>
        ensures { IfOk result (λ copy. copy ≡ self.now) }
    {
        let mut copy = Keyed::new(alloc);
        for (key, id) in &self.ids {
            copy.insert(alloc, key, id.copy(alloc)?)?;
        }
        Ok(copy)
    }
}
