// What the events of a transaction come to.
ghost use Rattle.std.specs.Prelude.{◌≡◌, [], OnOk};
ghost use Rattle.fed_event.specs.Texts.{event_texts};
ghost use Rattle.fed_inbox.specs.Elements.{read_as};
ghost use Rattle.fed_inbox.specs.ReceivedParts.{after_element, received};
ghost use Rattle.std.specs.FinMap as finite;

use crate::rooms::Rooms;
use crate::verdict::judged;
use fed_event::{Checked, Keys, Texts, event_id_of_signed};
use fed_json::{Json, NoMemory};
use fed_txn::Verdicts;
use std::alloc::Global;

/// The verdicts on the events so far, by their ids, and the events among them that are handed on to the rooms, in order.
#[derive(Drop)]
pub(crate) struct Received {
    pub(crate) verdicts: Verdicts,
    pub(crate) fresh: Vec<Checked>,
}

impl Received {
    pub(crate) fn new(alloc: Global) -> Received
        ensures { received result ≡ (finite.empty, []) }
    {
        Received {
            verdicts: Verdicts::new(alloc),
            fresh: Vec::new(alloc),
        }
    }

    /// Enters an element of a transaction, which has these texts: an object whose id has no verdict yet gets its verdict, and is
    /// handed on where that is none.
    pub(crate) fn enter<K: Keys>(
        &mut self,
        alloc: Global,
        element: Json,
        texts: &Texts,
        rooms: &Rooms,
        keys: &K,
    ) -> Result<(), NoMemory>
        requires { texts.now ≡ event_texts (read_as element) }
        ensures { OnOk result (received self.new
            ≡ after_element (K.checks keys.now) rooms.now (received self.old) element) }
    {
        if !element.is_object() {
            return Ok(());
        }
        let id = event_id_of_signed(alloc, texts.signed())?;
        if self.verdicts.contains(id.as_str()) {
            return Ok(());
        }
        let key = String::from_str(alloc, id.as_str())?;
        match judged(alloc, element, texts, id, rooms, keys)? {
            Ok(event) => {
                self.verdicts.insert(key, None)?;
                self.fresh.push(event)?;
            }
            Err(fault) => self.verdicts.insert(key, Some(fault.verdict_text(alloc)?))?,
        }
        Ok(())
    }
}
