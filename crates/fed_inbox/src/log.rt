// What was taken from one origin.
ghost use Rattle.std.specs.Prelude.{◌≡◌, [], None, OnOk, OnErr, IfOk, option_map};
ghost use Rattle.fed_replies.specs.Kept.{reply_at};
ghost use Rattle.fed_inbox.specs.Taken.{taken_left};
ghost use Rattle.fed_inbox.specs.Log.{with_replies};
ghost use Rattle.fed_inbox.specs.LogParts.{nothing_from, KeepsOthers};
ghost use Rattle.fed_inbox.specs.Answer.{with_taking};
ghost use Rattle.fed_inbox.specs.AnswerParts.{taken_by};
ghost use Rattle.fed_inbox.specs.Delivery.{judged_of, step_by, step_in};
ghost use Rattle.fed_inbox.specs.DeliveryParts.{delivered, judgement, IsStepped};
ghost use Rattle.fed_inbox.specs.OutcomeParts.{taking};

use crate::delivery::{Delivery, Judged};
use crate::outcome::Outcome;
use crate::receiver::Receiver;
use crate::refusal::Refusal;
use crate::taken::Taken;
use crate::text_list::TextList;
use fed_dest::ServerName;
use fed_event::{Checked, Keys};
use fed_json::NoMemory;
use fed_replies::ReplyStore;
use std::alloc::Global;
use std::marker::Model;

/// The body of a 200, and the events that are handed on to the rooms.
#[derive(Drop)]
pub(crate) struct Accepted {
    pub(crate) reply: Vec<u8>,
    pub(crate) fresh: Vec<Checked>,
}

/// What was taken from one origin, in order.
#[derive(Drop)]
pub(crate) struct Log {
    origin: ServerName,
    pdus: Vec<TextList>,
    edus: Vec<TextList>,
}

impl Model for Log {
    ghost use Rattle.fed_inbox.specs.Log.{TakenFrom, taken_from_code};
    ghost use Rattle.fed_inbox.specs.LogParts.{taken_in};

    ghost Value = { TakenFrom };

    ghost coded = { taken_from_code };

    ghost view = { taken_in };
}

impl Log {
    pub(crate) fn new(alloc: Global, origin: ServerName) -> Log
        ensures { result ≡ nothing_from origin }
    {
        Log {
            origin,
            pdus: Vec::new(alloc),
            edus: Vec::new(alloc),
        }
    }

    pub(crate) fn origin(&self) -> &str
        ensures { result.now ≡ self.now.origin }
    {
        self.origin.as_str()
    }

    pub(crate) fn pdus(&self) -> Taken<'_>
        ensures { taken_left result ≡ self.now.pdus }
    {
        Taken::of(&self.pdus)
    }

    pub(crate) fn edus(&self) -> Taken<'_>
        ensures { taken_left result ≡ self.now.edus }
    {
        Taken::of(&self.edus)
    }

    /// Answers a transaction that this origin delivers; what it brings is looked at where no reply is kept for it. A refusal leaves the
    /// log and the store as they were. Replies to other origins stay in any case.
    pub(crate) fn answer<K: Keys, S: ReplyStore>(
        &mut self,
        alloc: Global,
        delivery: Delivery,
        receiver: &Receiver,
        keys: &K,
        store: &mut S,
    ) -> Result<Accepted, Refusal>
        ensures step { IsStepped (with_replies (S.kept store.old) self.old)
            (step_in (with_replies (S.kept store.old) self.old) (judged_of (K.checks keys.now) receiver.now.rooms (delivered delivery))) result
            (with_replies (S.kept store.new) self.new) }
        ensures origin { self.new.origin ≡ self.old.origin }
        ensures others { KeepsOthers self.old.origin (S.kept store.old) (S.kept store.new) }
    {
        if let Some(accepted) = self.repeated(alloc, delivery.txn(), store)? {
            return Ok(accepted);
        }
        let judged = receiver.judge(alloc, delivery, keys)?;
        self.take_new(alloc, judged, store)
    }

    /// Answers a judged transaction of this origin. A refusal leaves the log and the store as they were. Replies to other origins stay
    /// in any case.
    pub(crate) fn take<S: ReplyStore>(
        &mut self,
        alloc: Global,
        judged: Judged,
        store: &mut S,
    ) -> Result<Accepted, Refusal>
        ensures step { IsStepped (with_replies (S.kept store.old) self.old)
            (step_in (with_replies (S.kept store.old) self.old) (judgement judged)) result
            (with_replies (S.kept store.new) self.new) }
        ensures origin { self.new.origin ≡ self.old.origin }
        ensures others { KeepsOthers self.old.origin (S.kept store.old) (S.kept store.new) }
    {
        if let Some(accepted) = self.repeated(alloc, &judged.txn, store)? {
            return Ok(accepted);
        }
        self.take_new(alloc, judged, store)
    }

    // The kept reply to a transaction of this origin.
    fn repeated<S: ReplyStore>(
        &self,
        alloc: Global,
        txn: &str,
        store: &S,
    ) -> Result<Option<Accepted>, NoMemory>
        ensures { IfOk result (λ accepted. option_map taken_by accepted ≡ option_map (λ reply. (reply, [])) (reply_at (S.kept store.now) self.now.origin txn.now)) }
    {
        if let Some(reply) = store.get(alloc, self.origin(), txn)? {
            return Ok(Some(Accepted {
                reply,
                fresh: Vec::new(alloc),
            }));
        }
        Ok(None)
    }

    // Answers a judged transaction for which no reply is kept.
    fn take_new<S: ReplyStore>(
        &mut self,
        alloc: Global,
        judged: Judged,
        store: &mut S,
    ) -> Result<Accepted, Refusal>
        requires { reply_at (S.kept store.old) self.old.origin (judgement judged).txn ≡ None }
        ensures step { IsStepped (with_replies (S.kept store.old) self.old)
            (step_by (with_replies (S.kept store.old) self.old) (judgement judged).txn (judgement judged).comes_to) result
            (with_replies (S.kept store.new) self.new) }
        ensures origin { self.new.origin ≡ self.old.origin }
        ensures others { KeepsOthers self.old.origin (S.kept store.old) (S.kept store.new) }
    {
        let Judged { txn, comes_to, .. } = judged;
        match comes_to {
            Ok(outcome) => Ok(self.keep(alloc, &txn, outcome, store)?),
            Err(refusal) => Err(refusal),
        }
    }

    // Takes what a transaction came to and keeps its reply; answers that and the events for the rooms. An error leaves the log and the
    // store as they were.
    fn keep<S: ReplyStore>(
        &mut self,
        alloc: Global,
        txn: &str,
        outcome: Outcome,
        store: &mut S,
    ) -> Result<Accepted, NoMemory>
        requires { reply_at (S.kept store.old) self.old.origin txn.now ≡ None }
        ensures ok { OnOk result (with_replies (S.kept store.new) self.new
            ≡ with_taking (with_replies (S.kept store.old) self.old) txn.now (taking outcome)) }
        ensures accepted { IfOk result (λ accepted. taken_by accepted
            ≡ ((taking outcome).reply, (taking outcome).fresh)) }
        ensures err { OnErr result (with_replies (S.kept store.new) self.new ≡ with_replies (S.kept store.old) self.old) }
        ensures origin { self.new.origin ≡ self.old.origin }
        ensures others { KeepsOthers self.old.origin (S.kept store.old) (S.kept store.new) }
    {
        let Outcome {
            pdus,
            edus,
            fresh,
            reply,
        } = outcome;
        self.pdus.reserve(1)?;
        self.edus.reserve(1)?;
        store.keep(alloc, self.origin.as_str(), txn, &reply)?;
        // There is room for both.
        self.pdus.push(pdus).unwrap();
        self.edus.push(edus).unwrap();
        Ok(Accepted { reply, fresh })
    }
}
