// Replies that are kept packed.
ghost use Rattle.std.specs.Prelude.{◌≡◌, [], ◌∷◌, ◌++◌, None, IsOk, IfOk, OnOk, OnErr, option_map};
ghost use Rattle.std.specs.FinMap as map;
ghost use Rattle.fed_replies.specs.Kept.{reply_at, with_reply};
ghost use Rattle.fed_replies.specs.PackedReply.{IsPackedCount};

use crate::form::{Form, form_of, packed_count, reply_of};
use crate::pieces::Pieces;
use crate::places::Places;
use crate::store::ReplyStore;
use fed_json::NoMemory;
use std::alloc::Global;
use std::marker::Model;

/// Keeps replies in memory, for as long as it lives. A reply whose event ids are hashes is packed, where its bytes are just those that
/// `write_reply` gives for what it says: its hashes are kept, and for the failed ones the number of their text in a table that has each
/// text once. Any other reply is kept whole, and so is one with a new text once the table has 65,535.
///
/// Contracts see it as the replies that it keeps, and the list of them in the order in which they were kept.
#[derive(Drop)]
pub struct PackedStore {
    places: Places,
    forms: Vec<Form>,
    pieces: Pieces,
}

impl Model for PackedStore {
    ghost use Rattle.fed_replies.specs.PackedReplies.{PackedReplies, packed_replies_code};

    ghost Value = { PackedReplies };

    ghost coded = { packed_replies_code };

    ghost use Rattle.fed_replies.specs.PackedStore.{replies_seen, IsStored};

    ghost view = { replies_seen };

    ghost invariant = { IsStored };
}

impl PackedStore {
    /// A store that keeps nothing yet.
    pub fn new(alloc: Global) -> PackedStore
        ensures kept { result.kept ≡ map.empty }
        ensures replies { result.replies ≡ [] }
    {
        PackedStore {
            places: Places::new(alloc),
            forms: Vec::new(alloc),
            pieces: Pieces::new(alloc),
        }
    }

    /// How many of the replies are packed: those that can be, in the order in which they were kept. It looks at each of them.
    pub fn packed(&self) -> usize
        ensures { IsPackedCount self.now.replies result }
    {
        packed_count(&self.forms)
    }
}

impl ReplyStore for PackedStore {
    ghost kept = { λ s. s.kept };

    fn get(&self, alloc: Global, origin: &str, txn: &str) -> Result<Option<Vec<u8>>, NoMemory> {
        let Some(place) = self.places.get(origin, txn) else {
            return Ok(None);
        };
        Ok(Some(reply_of(alloc, &self.pieces, &self.forms[place])?))
    }

    fn keep(&mut self, alloc: Global, origin: &str, txn: &str, reply: &[u8]) -> Result<(), NoMemory>
        ensures ok { OnOk result (self.new.kept ≡ with_reply self.old.kept origin.now txn.now reply.now) }
        ensures err { OnErr result (self.new.kept ≡ self.old.kept) }
        ensures order { OnOk result (self.new.replies ≡ self.old.replies ++ reply.now ∷ []) }
        ensures same { OnErr result (self.new ≡ self.old) }
    {
        self.forms.reserve(1)?;
        let mark = self.pieces.mark();
        let form = form_of(alloc, &mut self.pieces, reply)?;
        if let Err(fault) = self.places.insert(alloc, origin, txn, self.forms.len()) {
            self.pieces.truncate(mark);
            return Err(fault);
        }
        self.forms.push_reserved(form);
        Ok(())
    }
}
