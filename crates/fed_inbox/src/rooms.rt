// The rooms that a server knows.
ghost use Rattle.std.specs.Prelude.{◌≡◌, map, string_bytes, IfOk};
ghost use Rattle.fed_event.specs.Names.{is_one_of};
ghost use Rattle.fed_inbox.specs.Rooms.{room_set};

use fed_json::NoMemory;
use std::alloc::Global;
use std::collections::BTreeSet;
use std::marker::Model;

/// The ids of the rooms that a server knows, each once.
#[derive(Drop)]
pub(crate) struct Rooms {
    ids: BTreeSet<String>,
}

impl Model for Rooms {
    ghost use Rattle.std.specs.Prelude.{ℕ, List, map, string_bytes};
    ghost use Rattle.std.specs.Coded.{coded_ℕ, coded_list};
    ghost use Rattle.std.specs.BTreeSet.{IsOrdered};
    ghost use Rattle.std.specs.String.{string_cmp};

    ghost Value = { List (List ℕ) };

    ghost coded = { coded_list (coded_list coded_ℕ) };

    ghost view = { λ r. map string_bytes r.ids.keys };

    ghost invariant = { λ r. IsOrdered string_cmp r.ids };
}

impl Rooms {
    #[tactic(auto, using(crate::proofs::RoomSets::inserted))]
    pub(crate) fn new(alloc: Global, rooms: Vec<String>) -> Result<Rooms, NoMemory>
        ensures { IfOk result (λ r. r ≡ room_set (map string_bytes rooms.items)) }
    {
        let mut ids = BTreeSet::new(alloc);
        for room in rooms {
            ids.insert(room)?;
        }
        Ok(Rooms { ids })
    }

    pub(crate) fn contains(&self, room: &str) -> bool
        ensures { result ≡ is_one_of self.now room.now }
    {
        self.ids.contains(room)
    }
}
