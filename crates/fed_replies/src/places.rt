// Where the replies stand that are kept in a list.
ghost use Rattle.std.specs.Prelude.{◌≡◌, None, OnOk, OnErr, string_bytes};
ghost use Rattle.std.specs.FinMap as map;
ghost use Rattle.fed_replies.specs.Places.{place_at, with_place};

use fed_json::NoMemory;
use std::alloc::Global;
use std::collections::BTreeMap;
use std::marker::Model;

/// The places of the replies to one origin, by the ids of its transactions.
#[derive(Drop)]
struct TxnPlaces {
    places: BTreeMap<String, usize>,
}

impl Model for TxnPlaces {
    ghost use Rattle.fed_replies.specs.Places.{OriginPlaces, origin_places_code};

    ghost Value = { OriginPlaces };

    ghost coded = { origin_places_code };

    ghost use Rattle.std.specs.BTreeMap.{IsOrdered};
    ghost use Rattle.std.specs.String.{string_cmp};
    ghost use Rattle.fed_json.specs.TextMap.{text_map};

    ghost view = { λ o. text_map (λ place. place) o.places.entries };

    ghost invariant = { λ o. IsOrdered string_cmp o.places };
}

impl TxnPlaces {
    // No places.
    #[tactic(auto, using(crate::proofs::Maps::map_of_none))]
    fn new(alloc: Global) -> TxnPlaces
        ensures { result ≡ map.empty }
    {
        TxnPlaces {
            places: BTreeMap::new(alloc),
        }
    }

    // The place of the reply to a transaction.
    fn get(&self, txn: &str) -> Option<usize>
        ensures { result ≡ map.get self.now txn.now }
    {
        self.places.get(txn).copied()
    }

    // Enters the place of the reply to a transaction. An error leaves the places as they were.
    fn insert(&mut self, txn: String, place: usize) -> Result<(), NoMemory>
        ensures ok { OnOk result (self.new ≡ map.insert self.old (string_bytes txn) place) }
        ensures err { OnErr result (self.new ≡ self.old) }
    {
        drop(self.places.insert(txn, place)?);
        Ok(())
    }
}

/// The places of replies, by origin and transaction.
#[derive(Drop)]
pub(crate) struct Places {
    origins: BTreeMap<String, TxnPlaces>,
}

impl Model for Places {
    ghost use Rattle.fed_replies.specs.Places.{AllPlaces, all_places_code};

    ghost Value = { AllPlaces };

    ghost coded = { all_places_code };

    ghost use Rattle.std.specs.BTreeMap.{IsOrdered};
    ghost use Rattle.std.specs.String.{string_cmp};
    ghost use Rattle.fed_json.specs.TextMap.{text_map};

    ghost view = { λ p. text_map (λ places. places) p.origins.entries };

    ghost invariant = { λ p. IsOrdered string_cmp p.origins };
}

impl Places {
    /// No places.
    #[tactic(auto, using(crate::proofs::Maps::map_of_none))]
    pub(crate) fn new(alloc: Global) -> Places
        ensures { result ≡ map.empty }
    {
        Places {
            origins: BTreeMap::new(alloc),
        }
    }

    /// The place of the reply to a transaction of an origin.
    pub(crate) fn get(&self, origin: &str, txn: &str) -> Option<usize>
        ensures { result ≡ place_at self.now origin.now txn.now }
    {
        self.origins.get(origin)?.get(txn)
    }

    /// Enters the place of the reply to a transaction that has none. An error leaves the places as they were.
    pub(crate) fn insert(
        &mut self,
        alloc: Global,
        origin: &str,
        txn: &str,
        place: usize,
    ) -> Result<(), NoMemory>
        ensures ok { OnOk result (self.new ≡ with_place self.old origin.now txn.now place) }
        ensures err { OnErr result (self.new ≡ self.old) }
    {
        let txn = String::from_str(alloc, txn)?;
        if let Some(places) = self.origins.get_mut(origin) {
            return places.insert(txn, place);
        }
        self.insert_first(alloc, String::from_str(alloc, origin)?, txn, place)
    }

    // Enters the first place of an origin. An error leaves the places as they were.
    fn insert_first(
        &mut self,
        alloc: Global,
        origin: String,
        txn: String,
        place: usize,
    ) -> Result<(), NoMemory>
        requires { map.get self.old (string_bytes origin) ≡ None }
        ensures ok { OnOk result
            (self.new ≡ with_place self.old (string_bytes origin) (string_bytes txn) place) }
        ensures err { OnErr result (self.new ≡ self.old) }
    {
        let mut places = TxnPlaces::new(alloc);
        places.insert(txn, place)?;
        drop(self.origins.insert(origin, places)?);
        Ok(())
    }
}
