// The inbox of a server.
ghost use Rattle.std.specs.Prelude.{◌≡◌, ◌<◌, [], None, Option, Err, map, length, position, string_bytes, IfOk, IfSome, IsSome};
ghost use Rattle.fed_event.specs.Names.{is_one_of};
ghost use Rattle.fed_inbox.specs.Taken.{taken_left};
ghost use Rattle.fed_inbox.specs.Reply.{refused};
ghost use Rattle.fed_inbox.specs.Inbox.{new_held, log_at, taken_of, taken_edus_of};
ghost use Rattle.fed_inbox.specs.InboxParts.{nothing_from_all};
ghost use Rattle.fed_inbox.specs.LogParts.{is_from};
ghost use Rattle.fed_inbox.specs.Answer.{IsAnswered, request_of};
ghost use Rattle.fed_inbox.specs.AnswerParts.{IsTried, answer_with, fresh_with};
ghost use Rattle.fed_inbox.specs.SendPath.{path_of, segment_of};
ghost use Rattle.fed_inbox.specs.WholeRequest.{IsAnsweredWhole};
ghost use Rattle.fed_inbox.specs.Receiver.{IsInboxOf};
ghost use Rattle.fed_inbox.specs.Delivery.{IsTaken, judged_of};
ghost use Rattle.fed_inbox.specs.DeliveryParts.{delivered, judgement, IsTriedTake};
ghost use Rattle.fed_inbox.specs.Log.{AreByOrigin};

use crate::delivery::{Delivery, Judged};
use crate::log::{Accepted, Log};
use crate::receiver::Receiver;
use crate::refusal::Refusal;
use crate::taken::Taken;
use fed_dest::{List, ServerName};
use fed_event::{Checked, Keys};
use fed_http::{Reply, Request};
use fed_json::NoMemory;
use fed_replies::ReplyStore;
use fed_txn::MAX_BODY;
use std::alloc::Global;
use std::marker::Model;

/// The transactions that a server was sent: what it took of them, and the replies that it gave, which a store keeps.
///
/// Contracts see it as its state, in which each log has the replies that the store keeps for its origin, and beside it the events that the newest answer took for the rooms and that are not handed out.
#[derive(Drop)]
pub struct Inbox<S: ReplyStore> {
    receiver: Receiver,
    logs: Vec<Log>,
    fresh: Vec<Checked>,
    store: S,
}

impl<S: ReplyStore> Model for Inbox<S> {
    ghost use Rattle.fed_inbox.specs.Inbox.{Held, held_code};
    ghost use Rattle.fed_inbox.specs.InboxParts.{state_of};

    ghost Value = { Held };

    ghost coded = { held_code };

    ghost view = { λ i. record { state = state_of i.receiver.own i.receiver.rooms (S.kept i.store) i.logs.items; fresh = i.fresh.items } };

    ghost use Rattle.fed_inbox.specs.InboxParts.{AreOfReceiver};

    ghost invariant = { λ i. AreOfReceiver i.receiver i.logs.items };
}

impl<S: ReplyStore + Drop> Inbox<S> {
    /// An inbox of the server `own`, which takes from the other servers of the list, and knows these rooms. Nothing was taken, and the
    /// replies are those that the store keeps from before.
    pub fn new(
        alloc: Global,
        own: ServerName,
        servers: List,
        rooms: Vec<String>,
        store: S,
    ) -> Result<Inbox<S>, NoMemory>
        ensures { IfOk result (λ inbox. inbox ≡ new_held (S.kept store) own servers (map string_bytes rooms.items)) }
    {
        let logs = logs_of(alloc, &own, servers.copy(alloc)?)?;
        let receiver = Receiver::new(alloc, own, servers, rooms)?;
        Ok(Inbox {
            receiver,
            logs,
            fresh: Vec::new(alloc),
            store,
        })
    }
}

impl<S: ReplyStore> Inbox<S> {
    /// The name of the server.
    pub fn own(&self) -> &str
        ensures { result.now ≡ self.now.state.own }
    {
        self.receiver.own()
    }

    /// Whether the server knows the room of this id.
    pub fn knows(&self, room: &str) -> bool
        ensures { result ≡ is_one_of self.now.state.rooms room.now }
    {
        self.receiver.knows(room)
    }

    /// What of it receives transactions without what it took and answered.
    pub fn receiver(&self) -> &Receiver
        ensures { IsInboxOf result.now self.now.state }
    {
        &self.receiver
    }

    /// Answers the transaction `txn` of `origin`, and takes it where the answer is its first 200. The first of these decides:
    ///
    /// - 403 where the origin is not another listed server
    /// - 413 where the body has more than 16,777,216 bytes
    /// - 400 where the body is no JSON text, or has no canonical text
    /// - 401 where the body's `origin` is a text other than the origin
    /// - 200 with the kept reply where the transaction was taken before, whatever the body
    /// - 400 where a field of the body is missing or of another kind, or the body has too many PDUs or EDUs
    /// - else 200; the reply has a verdict for every PDU that is an object, and it is kept
    ///
    /// A verdict is the first fault of the event: of its fields, that no key of its sender's server has signed it, or that its room
    /// is not known. The events without a fault wait for `fresh` until the next answer.
    ///
    /// Where memory runs out the answer is 500, and nothing is taken or kept. The first two are answered without memory.
    pub fn answer_body<K: Keys>(
        &mut self,
        alloc: Global,
        origin: &str,
        txn: &str,
        body: &[u8],
        keys: &K,
    ) -> Reply
        ensures answered { IsAnswered (K.checks keys.now) self.old.state
            (request_of origin.now txn.now body.now) result self.new.state self.new.fresh }
        ensures unlisted { log_at origin.now self.old.state.logs ≡ None
            → result ≡ refused Refusal.ServerNotListed }
        ensures large { IsSome (log_at origin.now self.old.state.logs) → MAX_BODY < length body.now
            → result ≡ refused Refusal.BodyTooLarge }
    {
        let tried = self.try_body(alloc, origin, txn, body, keys);
        self.settle(alloc, tried)
    }

    /// Hands out, once, the checked events that the newest answer took, in order, for the rooms: none where it took nothing. It
    /// takes no memory.
    pub fn fresh(&mut self) -> Vec<Checked>
        ensures handed { result.items ≡ self.old.fresh }
        ensures once { self.new.fresh ≡ [] }
        ensures stays { self.new.state ≡ self.old.state }
    {
        let alloc = *self.fresh.allocator();
        std::mem::replace(&mut self.fresh, Vec::new(alloc))
    }

    /// The canonical texts of the PDUs taken from an origin, in order, one after another. It takes no memory.
    pub fn taken(&self, origin: &str) -> Taken<'_>
        ensures { taken_left result ≡ taken_of self.now.state origin.now }
    {
        match place_of(&self.logs, origin) {
            Some(place) => self.logs[place].pdus(),
            None => Taken::of(&[]),
        }
    }

    /// The canonical texts of the EDUs taken from an origin, in order, one after another. It takes no memory.
    pub fn taken_edus(&self, origin: &str) -> Taken<'_>
        ensures { taken_left result ≡ taken_edus_of self.now.state origin.now }
    {
        match place_of(&self.logs, origin) {
            Some(place) => self.logs[place].edus(),
            None => Taken::of(&[]),
        }
    }

    /// Answers a whole request to this server, and takes the transaction that it brings where the answer is its first 200 (Server-Server
    /// API, "Request Authentication" and "Transactions"). The first of these decides:
    ///
    /// - 404 where the target is not `/_matrix/federation/v1/send/` and one segment behind it, the transaction id, with a query or not
    /// - 405 where the method is not PUT
    /// - 401 where it has not exactly one Authorization field, or that is none of the scheme X-Matrix
    /// - 401 where that names a destination other than this server
    /// - what `answer_body` says of the origin that the field names, of that id and of the body. Where the body is read, and before its
    ///   `origin` is compared, it is 401 where the signature in the field does not check for the method, the target, that origin, this
    ///   server and the body
    ///
    /// Where memory runs out the answer is 500, and nothing is taken or kept. The first needs no memory, but where the segment is there
    /// and does not decode to UTF-8.
    pub fn answer<K: Keys>(&mut self, alloc: Global, request: &Request, keys: &K) -> Reply
        ensures answered { IsAnsweredWhole (K.checks keys.now) self.old.state request.now result self.new.state self.new.fresh }
        ensures no_path { segment_of (path_of request.now.target) ≡ None → result ≡ refused Refusal.NoSuchPath }
    {
        let tried = self.try_request(alloc, request, keys);
        self.settle(alloc, tried)
    }

    /// Answers a transaction that was judged apart from the inbox, and takes it where the answer is its first 200. The first of these
    /// decides:
    ///
    /// - 403 where the inbox takes from no such origin
    /// - 200 with the kept reply where the transaction was taken before, whatever it comes to
    /// - the refusal that it comes to
    /// - else 200 with its reply, which is kept
    ///
    /// Where memory runs out the answer is 500, and nothing is taken or kept.
    pub fn take(&mut self, alloc: Global, judged: Judged) -> Reply
        ensures { IsTaken self.old.state (judgement judged) result self.new.state self.new.fresh }
    {
        let tried = self.try_take(alloc, judged);
        self.settle(alloc, tried)
    }

    // The reply to what was tried; its events wait for the rooms.
    fn settle(&mut self, alloc: Global, tried: Result<Accepted, Refusal>) -> Reply
        ensures reply { result ≡ answer_with tried }
        ensures fresh { self.new.fresh ≡ fresh_with tried }
        ensures state { self.new.state ≡ self.old.state }
    {
        match tried {
            Ok(Accepted { reply, fresh }) => {
                self.fresh = fresh;
                Reply::new(200, reply)
            }
            Err(refusal) => {
                self.fresh = Vec::new(alloc);
                Reply::from(refusal)
            }
        }
    }

    // Answers a whole request, and leaves the events for the rooms as they were.
    fn try_request<K: Keys>(
        &mut self,
        alloc: Global,
        request: &Request,
        keys: &K,
    ) -> Result<Accepted, Refusal>
        ensures tried { IsAnsweredWhole (K.checks keys.now) self.old.state request.now (answer_with result) self.new.state (fresh_with result) }
        ensures no_path { segment_of (path_of request.now.target) ≡ None → result ≡ Err Refusal.NoSuchPath }
    {
        let delivery = self.receiver.read(alloc, request, keys)?;
        self.try_delivery(alloc, delivery, keys)
    }

    // The same of a body whose origin is known.
    fn try_body<K: Keys>(
        &mut self,
        alloc: Global,
        origin: &str,
        txn: &str,
        body: &[u8],
        keys: &K,
    ) -> Result<Accepted, Refusal>
        ensures tried { IsTried (K.checks keys.now) self.old.state
            (request_of origin.now txn.now body.now) result self.new.state }
        ensures unlisted { log_at origin.now self.old.state.logs ≡ None → result ≡ Err Refusal.ServerNotListed }
        ensures large { IsSome (log_at origin.now self.old.state.logs) → MAX_BODY < length body.now
            → result ≡ Err Refusal.BodyTooLarge }
    {
        let delivery = self.receiver.read_body(alloc, origin, txn, body)?;
        self.try_delivery(alloc, delivery, keys)
    }

    // The same of what is delivered. What it brings is looked at where no reply is kept for it.
    fn try_delivery<K: Keys>(
        &mut self,
        alloc: Global,
        delivery: Delivery,
        keys: &K,
    ) -> Result<Accepted, Refusal>
        ensures { IsTriedTake self.old.state (judged_of (K.checks keys.now) self.old.state.rooms (delivered delivery)) result self.new.state }
    {
        let Some(place) = place_of(&self.logs, delivery.origin()) else {
            return Err(Refusal::ServerNotListed);
        };
        self.logs[place].answer(alloc, delivery, &self.receiver, keys, &mut self.store)
    }

    // The same of what is judged.
    fn try_take(&mut self, alloc: Global, judged: Judged) -> Result<Accepted, Refusal>
        ensures { IsTriedTake self.old.state (judgement judged) result self.new.state }
    {
        let Some(place) = place_of(&self.logs, &judged.origin) else {
            return Err(Refusal::ServerNotListed);
        };
        self.logs[place].take(alloc, judged, &mut self.store)
    }
}

// Where the log of an origin lies.
fn place_of(logs: &[Log], origin: &str) -> Option<usize>
    requires { AreByOrigin logs.now }
    ensures place { result ≡ position (is_from origin.now) logs.now }
    ensures within { IfSome result (λ place. place < length logs.now) }
{
    logs.binary_search_by(|log| log.origin().cmp(origin)).ok()
}

// An empty log for each of the servers but `own`, in their order.
fn logs_of(alloc: Global, own: &ServerName, servers: List) -> Result<Vec<Log>, NoMemory>
    ensures logs { IfOk result (λ logs. logs.items ≡ nothing_from_all own.now servers) }
    ensures order { IfOk result (λ logs. AreByOrigin logs.items) }
{
    let mut logs: Vec<Log> = Vec::new(alloc);
    for server in servers.into_names() {
        if server.as_str() != own.as_str() {
            logs.push(Log::new(alloc, server))?;
        }
    }
    Ok(logs)
}
