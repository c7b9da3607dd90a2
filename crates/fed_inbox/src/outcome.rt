// What taking a transaction comes to.
ghost use Rattle.std.specs.Prelude.{◌≡◌, map, filter, IfOk};
ghost use Rattle.fed_json.specs.CanonicalText.{canonical_text};
ghost use Rattle.fed_txn.specs.Transaction.{parts};
ghost use Rattle.fed_inbox.specs.OutcomeParts.{taking};
ghost use Rattle.fed_journal.specs.Edu.{is_edu};
ghost use Rattle.fed_inbox.specs.Taking.{taking_of};

use crate::received::Received;
use crate::rooms::Rooms;
use crate::text_list::TextList;
use fed_event::{Checked, Keys, Texts, Version};
use fed_journal::is_edu;
use fed_json::{Json, NoMemory, canonical};
use fed_txn::{TransactionIn, write_reply};
use std::alloc::Global;

/// The canonical texts of what is taken, in order, the events that are handed on to the rooms, and the text of the reply.
#[derive(Drop)]
pub(crate) struct Outcome {
    pub(crate) pdus: TextList,
    pub(crate) edus: TextList,
    pub(crate) fresh: Vec<Checked>,
    pub(crate) reply: Vec<u8>,
}

impl Outcome {
    /// What taking this transaction comes to: every element of `pdus` is taken, each object among them gets a verdict, those
    /// without a fault are handed on, and the EDUs are taken.
    pub(crate) fn of<K: Keys>(
        alloc: Global,
        transaction: TransactionIn,
        rooms: &Rooms,
        keys: &K,
    ) -> Result<Outcome, NoMemory>
        ensures { IfOk result (λ o. taking o
            ≡ taking_of (K.checks keys.now) rooms.now (parts transaction)) }
    {
        let TransactionIn {
            pdus: elements,
            edus,
            ..
        } = transaction;
        let mut received = Received::new(alloc);
        let mut pdus = TextList::new(alloc);
        let mut texts = Texts::new(alloc);
        for element in elements {
            texts = texts.rewritten(alloc, Version::V10, &element)?;
            received.enter(alloc, element, &texts, rooms, keys)?;
            pdus.push(texts.whole())?;
        }
        let Received { verdicts, fresh } = received;
        let edus = edu_texts(alloc, &edus)?;
        let reply = write_reply(alloc, &verdicts)?;
        Ok(Outcome {
            pdus,
            edus,
            fresh,
            reply,
        })
    }
}

// The texts of the elements that are EDUs; others are dropped.
fn edu_texts(alloc: Global, elements: &Vec<Json>) -> Result<TextList, NoMemory>
    ensures { IfOk result (λ texts. texts ≡ map canonical_text (filter is_edu elements.now.items)) }
{
    let mut texts = TextList::new(alloc);
    for element in elements {
        if is_edu(element) {
            texts.push(&canonical(alloc, element)?)?;
        }
    }
    Ok(texts)
}
