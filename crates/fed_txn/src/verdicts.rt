// The verdicts about the events of a transaction.
ghost use Rattle.std.specs.Prelude.{◌≡◌, ◌==◌, OnOk, OnErr, map as map_list, option_map, string_bytes};
ghost use Rattle.std.specs.FinMap as map;
ghost use Rattle.fed_txn.specs.Verdicts.{with_verdict, HasTextIds};
ghost use Rattle.fed_txn.specs.VerdictEntries.{entry_bytes};

use fed_json::NoMemory;
use std::alloc::Global;
use std::collections::BTreeMap;
use std::collections::btree_map::Iter;
use std::marker::Model;

/// What a server answers about each event of a transaction: nothing, or the text of an error.
///
/// Contracts see it as the finite map from the bytes of an event id to those of the text.
#[derive(Drop)]
pub struct Verdicts {
    entries: BTreeMap<String, Option<String>>,
}

impl Model for Verdicts {
    ghost use Rattle.fed_txn.specs.Verdicts.{VerdictMap, verdict_map_code};

    ghost Value = { VerdictMap };

    ghost coded = { verdict_map_code };

    ghost use Rattle.std.specs.BTreeMap.{IsOrdered};
    ghost use Rattle.std.specs.String.{string_cmp};
    ghost use Rattle.fed_txn.specs.VerdictEntries.{map_of};

    ghost view = { λ v. map_of v.entries.entries };

    ghost invariant = { λ v. IsOrdered string_cmp v.entries };
}

impl Verdicts {
    /// No verdicts.
    #[tactic(auto, using(crate::proofs::Entries::map_of_none))]
    pub fn new(alloc: Global) -> Verdicts
        ensures { result ≡ map.empty }
    {
        Verdicts {
            entries: BTreeMap::new(alloc),
        }
    }

    /// How many events have a verdict.
    #[tactic(auto, using(crate::proofs::Entries::len_map_of))]
    pub fn len(&self) -> usize
        ensures { result ≡ map.len self.now }
    {
        self.entries.len()
    }

    /// Whether no event has one.
    pub fn is_empty(&self) -> bool
        ensures { result ≡ (map.len self.now == 0) }
    {
        self.len() == 0
    }

    /// Whether the event of this id has a verdict.
    pub fn contains(&self, id: &str) -> bool
        ensures { result ≡ map.contains_key self.now id.now }
    {
        self.entries.contains_key(id)
    }

    /// The verdict about the event of this id, where it has one: no error, or the text of one.
    pub fn get(&self, id: &str) -> Option<Option<&str>>
        ensures { option_map (option_map (λ s. s.now)) result ≡ map.get self.now id.now }
    {
        match self.entries.get(id)? {
            Some(error) => Some(Some(error.as_str())),
            None => Some(None),
        }
    }

    /// Enters the verdict about an event: no error, or the text of one. An event that has a verdict keeps it. An error leaves
    /// the verdicts as they were.
    pub fn insert(&mut self, id: String, error: Option<String>) -> Result<(), NoMemory>
        ensures ok { OnOk result
            (self.new ≡ with_verdict self.old (string_bytes id) (option_map string_bytes error)) }
        ensures err { OnErr result (self.new ≡ self.old) }
    {
        if !self.contains(&id) {
            drop(self.entries.insert(id, error)?);
        }
        Ok(())
    }

    /// The ids with their verdicts, in the order of the bytes of the ids.
    #[tactic(auto, using(crate::proofs::Entries::entries_map_of, crate::proofs::Entries::ids_map_of))]
    pub fn iter(&self) -> Iter<'_, String, Option<String>>
        ensures entries { map_list entry_bytes result ≡ map.entries self.now }
        ensures ids { HasTextIds self.now }
    {
        self.entries.iter()
    }
}
