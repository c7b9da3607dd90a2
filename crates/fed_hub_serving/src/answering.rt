// What an inbox answers to a request that was judged apart from it.
ghost use Rattle.std.specs.Prelude.{◌≡◌, ◌≢◌, ◌⊎◌, [], Result, IfOk, IfSome, OnErr};
ghost use Rattle.fed_inbox.specs.DeliveryParts.{delivered};
ghost use Rattle.fed_hub_serving.specs.JudgedRequest.{reply_to, fresh_of};
ghost use Rattle.fed_hub_serving.specs.Answering.{Answers, IsKeptFor};

use fed_event::{Checked, Keys};
use fed_http::Reply;
use fed_inbox::{Delivery, Inbox, Judged, Refusal};
use fed_json::NoMemory;
use fed_replies::ReplyStore;
use std::alloc::Global;

/// The reply to a request, an equal one, and the events that the request brought for the rooms.
#[derive(Drop)]
pub(crate) struct Answered {
    pub(crate) reply: Reply,
    pub(crate) copy: Reply,
    pub(crate) fresh: Vec<Checked>,
}

/// Answers a request that was judged; `first` is the reply to it where none is kept.
///
/// # Errors
///
/// `NoMemory` where that is the answer, or where memory runs out for the copy of a kept reply; then the inbox is as it was.
pub(crate) fn answer<S: ReplyStore>(
    alloc: Global,
    inbox: &mut Inbox<S>,
    comes_to: Result<Judged, Refusal>,
    first: Reply,
) -> Result<Answered, NoMemory>
    requires { first ≡ reply_to comes_to }
    ensures answers { IfOk result (λ a. Answers comes_to inbox.old.state a.reply inbox.new.state a.fresh.items) }
    ensures served { IfOk result (λ a. a.reply.status ≢ 500) }
    ensures copy { IfOk result (λ a. a.copy ≡ a.reply) }
    ensures fresh { IfOk result (λ a. (a.fresh.items ≡ []) ⊎ (a.fresh.items ≡ fresh_of comes_to)) }
    ensures err { OnErr result (inbox.new.state ≡ inbox.old.state) }
{
    let (reply, fresh) = take(alloc, inbox, comes_to);
    if reply.status() == 500 {
        return Err(NoMemory);
    }
    let copy = copy_of(alloc, &reply, first)?;
    Ok(Answered { reply, copy, fresh })
}

// A body that brings nothing, and is refused where no reply is kept.
const NOTHING: &[u8] = b"null";

/// The reply that an inbox keeps for a transaction that is delivered, and an equal one. There is none where it keeps none, and where memory runs
/// out. The inbox is as it was.
pub(crate) fn kept_reply<K: Keys, S: ReplyStore>(
    alloc: Global,
    inbox: &mut Inbox<S>,
    delivery: &Delivery,
    keys: &K,
) -> Option<(Reply, Reply)>
    ensures kept { IfSome result (λ r. IsKeptFor inbox.old.state (delivered delivery.now) r.0) }
    ensures copy { IfSome result (λ r. r.1 ≡ r.0) }
    ensures same { inbox.new.state ≡ inbox.old.state }
{
    // Whatever the body, a kept reply is the answer.
    let reply = inbox.answer_body(alloc, delivery.origin(), delivery.txn(), NOTHING, keys);
    if reply.status() != 200 {
        return None;
    }
    let copy = reply.copy(alloc).ok()?;
    Some((reply, copy))
}

// The reply to a request that was judged, and the events that it brought for the rooms.
fn take<S: ReplyStore>(
    alloc: Global,
    inbox: &mut Inbox<S>,
    comes_to: Result<Judged, Refusal>,
) -> (Reply, Vec<Checked>)
    ensures { Answers comes_to inbox.old.state result.0 inbox.new.state result.1.items }
{
    match comes_to {
        Ok(judged) => {
            let reply = inbox.take(alloc, judged);
            (reply, inbox.fresh())
        }
        Err(refusal) => (Reply::from(refusal), Vec::new(alloc)),
    }
}

// A reply equal to this one: the first, or where they differ, a copy.
fn copy_of(alloc: Global, reply: &Reply, first: Reply) -> Result<Reply, NoMemory>
    ensures copy { IfOk result (λ copy. copy ≡ reply.now) }
    ensures differ { OnErr result (reply.now ≢ first) }
{
    if reply.status() == first.status() && reply.body() == first.body() {
        return Ok(first);
    }
    reply.copy(alloc)
}
