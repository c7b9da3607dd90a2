// What a server needs to receive transactions, apart from its inbox.
ghost use Rattle.std.specs.Prelude.{◌≡◌, ◌≢◌, ◌<◌, ℕ, List, true, false, None, Err, IsOk, IfOk, IfErr, length, map, string_bytes};
ghost use Rattle.fed_inbox.specs.Refusal.{refusal_of};
ghost use Rattle.fed_event.specs.Keys.{Checks};
ghost use Rattle.fed_event.specs.Names.{is_one_of};
ghost use Rattle.fed_inbox.specs.Receiver.{new_receiver};
ghost use Rattle.fed_inbox.specs.LookUps.{is_taken_from};
ghost use Rattle.fed_inbox.specs.SendPath.{path_of, segment_of};
ghost use Rattle.fed_inbox.specs.Answer.{names_other, request_of, request_by};
ghost use Rattle.fed_inbox.specs.WholeRequest.{asked};
ghost use Rattle.fed_inbox.specs.IncomingParts.{heading_of};
ghost use Rattle.fed_inbox.specs.Delivery.{comes_to, judged_of, Settles, Refuses, SettlesBody, RefusesBody};
ghost use Rattle.fed_inbox.specs.DeliveryParts.{delivered, judgement, taking_or};
ghost use Rattle.fed_txn.specs.Transaction.{transaction_of};

use crate::delivery::{Delivery, Judged};
use crate::incoming::Incoming;
use crate::outcome::Outcome;
use crate::refusal::Refusal;
use crate::rooms::Rooms;
use crate::vouching::{Known, Signed, Vouch};
use fed_dest::{List, ServerName};
use fed_event::Keys;
use fed_http::Request;
use fed_json::{Json, NoMemory};
use fed_txn::{MAX_BODY, TransactionIn, TxnFault, read_body};
use std::alloc::Global;
use std::marker::Model;

/// What a server needs to receive transactions, apart from what it took and answered: its name, the servers that it takes from and the
/// rooms that it knows. Threads can share it, and read and judge what reaches them while an inbox is at work.
///
/// Contracts see it as these.
#[derive(Drop)]
pub struct Receiver {
    own: ServerName,
    servers: List,
    rooms: Rooms,
}

impl Model for Receiver {
    ghost use Rattle.fed_inbox.specs.Receiver.{ReceiverState, receiver_code};

    ghost Value = { ReceiverState };

    ghost coded = { receiver_code };

    ghost view = { λ r. record { own = r.own; servers = r.servers; rooms = r.rooms } };
}

impl Receiver {
    /// The server `own`, which takes from the other servers of the list and knows these rooms.
    pub fn new(
        alloc: Global,
        own: ServerName,
        servers: List,
        rooms: Vec<String>,
    ) -> Result<Receiver, NoMemory>
        ensures { IfOk result (λ receiver. receiver ≡ new_receiver own servers (map string_bytes rooms.items)) }
    {
        let rooms = Rooms::new(alloc, rooms)?;
        Ok(Receiver {
            own,
            servers,
            rooms,
        })
    }

    /// The name of the server.
    pub fn own(&self) -> &str
        ensures { result.now ≡ self.now.own }
    {
        self.own.as_str()
    }

    /// Whether the server knows the room of this id.
    pub fn knows(&self, room: &str) -> bool
        ensures { result ≡ is_one_of self.now.rooms room.now }
    {
        self.rooms.contains(room)
    }

    /// Whether the server takes from the server of this name: it is listed, and is not the own.
    pub fn takes_from(&self, server: &str) -> bool
        ensures { result ≡ is_taken_from self.now.own self.now.servers server.now }
    {
        match self.servers.find(server) {
            Some(_) => server != self.own.as_str(),
            None => false,
        }
    }

    /// The transaction that a whole request delivers, or the refusal of the request: the first steps of `Inbox::answer`, which need
    /// no inbox.
    ///
    /// # Errors
    ///
    /// The first of these:
    ///
    /// - `NoSuchPath`, `MethodNotAllowed`, `BadAuthorization`, `WrongDestination` for the beginning of the request
    /// - `ServerNotListed` where the origin is not another listed server
    /// - `BodyTooLarge`, `NotJson`, `NotCanonical` for the body
    /// - `BadSignature` where the signature does not check
    /// - `OriginDiffers` where the body's `origin` is a text other than the origin
    ///
    /// `OutOfMemory` where memory ran out. The first needs no memory, but where the segment is there and does not decode to UTF-8.
    pub fn read<K: Keys>(
        &self,
        alloc: Global,
        request: &Request,
        keys: &K,
    ) -> Result<Delivery, Refusal>
        ensures ok { IfOk result (λ d. Settles (K.checks keys.now) self.now request.now (judged_of (K.checks keys.now) self.now.rooms (delivered d))) }
        ensures err { IfErr result (λ refusal. Refuses (K.checks keys.now) self.now request.now refusal) }
        ensures no_path { segment_of (path_of request.now.target) ≡ None → result ≡ Err Refusal.NoSuchPath }
    {
        let incoming = Incoming::of(alloc, request, self.own())?;
        self.read_incoming(alloc, request, &incoming, keys)
    }

    /// The transaction `txn` that `origin`, which is known by other means, delivers with this body, or its refusal: the first steps of
    /// `Inbox::answer_body`. The first two errors come without memory.
    ///
    /// # Errors
    ///
    /// `ServerNotListed`, `BodyTooLarge`, `NotJson`, `NotCanonical` and `OriginDiffers`, in this order, as of `read`. `OutOfMemory`
    /// where memory ran out.
    pub fn read_body(
        &self,
        alloc: Global,
        origin: &str,
        txn: &str,
        body: &[u8],
    ) -> Result<Delivery, Refusal>
        ensures ok { IfOk result (λ d. (checks : Checks) → SettlesBody checks self.now (request_of origin.now txn.now body.now) (judged_of checks self.now.rooms (delivered d))) }
        ensures err { IfErr result (λ refusal. (checks : Checks) → RefusesBody checks self.now (request_of origin.now txn.now body.now) refusal) }
        ensures unlisted { is_taken_from self.now.own self.now.servers origin.now ≡ false → result ≡ Err Refusal.ServerNotListed }
        ensures large { is_taken_from self.now.own self.now.servers origin.now ≡ true → MAX_BODY < length body.now → result ≡ Err Refusal.BodyTooLarge }
    {
        self.read_vouched(alloc, origin, txn, body, &Known)
    }

    /// What a delivered transaction comes to: the verdicts on its events under the keys, the texts that are taken and the reply, or
    /// the refusal of its fields or counts.
    ///
    /// # Errors
    ///
    /// `NoMemory` where memory ran out.
    pub fn judge<K: Keys>(
        &self,
        alloc: Global,
        delivery: Delivery,
        keys: &K,
    ) -> Result<Judged, NoMemory>
        ensures { IfOk result (λ j. judgement j ≡ judged_of (K.checks keys.now) self.now.rooms (delivered delivery)) }
    {
        let Delivery { origin, txn, body } = delivery;
        let comes_to = self.outcome_of(alloc, body, keys)?;
        Ok(Judged {
            origin,
            txn,
            comes_to,
        })
    }

    /// What a whole request delivers, judged, or its refusal: `read` and `judge`.
    ///
    /// # Errors
    ///
    /// As of `read`, and `OutOfMemory` where memory ran out.
    pub fn receive<K: Keys>(
        &self,
        alloc: Global,
        request: &Request,
        keys: &K,
    ) -> Result<Judged, Refusal>
        ensures ok { IfOk result (λ j. Settles (K.checks keys.now) self.now request.now (judgement j)) }
        ensures err { IfErr result (λ refusal. Refuses (K.checks keys.now) self.now request.now refusal) }
        ensures no_path { segment_of (path_of request.now.target) ≡ None → result ≡ Err Refusal.NoSuchPath }
    {
        let delivery = self.read(alloc, request, keys)?;
        Ok(self.judge(alloc, delivery, keys)?)
    }

    // What the transaction of a body comes to.
    fn outcome_of<K: Keys>(
        &self,
        alloc: Global,
        body: Json,
        keys: &K,
    ) -> Result<Result<Outcome, Refusal>, NoMemory>
        ensures { IfOk result (λ o. taking_or o ≡ comes_to (K.checks keys.now) self.now.rooms (transaction_of body)) }
    {
        match TransactionIn::of_json(alloc, body) {
            Ok(transaction) => Ok(Ok(Outcome::of(alloc, transaction, &self.rooms, keys)?)),
            Err(fault) => {
                let refusal = refusal_by(fault)?;
                Ok(Err(refusal))
            }
        }
    }

    // The same of a request whose beginning is read.
    fn read_incoming<K: Keys>(
        &self,
        alloc: Global,
        request: &Request,
        incoming: &Incoming,
        keys: &K,
    ) -> Result<Delivery, Refusal>
        ensures ok { IfOk result (λ d. SettlesBody (K.checks keys.now) self.now (asked (K.checks keys.now) self.now.own request.now (heading_of incoming.now)) (judged_of (K.checks keys.now) self.now.rooms (delivered d))) }
        ensures err { IfErr result (λ refusal. RefusesBody (K.checks keys.now) self.now (asked (K.checks keys.now) self.now.own request.now (heading_of incoming.now)) refusal) }
    {
        let signed = Signed {
            request,
            header: &incoming.header,
            own: self.own.as_str(),
            keys,
        };
        let origin = incoming.header.origin();
        self.read_vouched(alloc, origin, &incoming.txn, request.body(), &signed)
    }

    // The same of a body for which somebody vouches.
    fn read_vouched<V: Vouch>(
        &self,
        alloc: Global,
        origin: &str,
        txn: &str,
        body: &[u8],
        voucher: &V,
    ) -> Result<Delivery, Refusal>
        ensures ok { IfOk result (λ d. (checks : Checks) → SettlesBody checks self.now (request_by origin.now txn.now body.now (V.vouches voucher.now)) (judged_of checks self.now.rooms (delivered d))) }
        ensures err { IfErr result (λ refusal. (checks : Checks) → RefusesBody checks self.now (request_by origin.now txn.now body.now (V.vouches voucher.now)) refusal) }
        ensures unlisted { is_taken_from self.now.own self.now.servers origin.now ≡ false → result ≡ Err Refusal.ServerNotListed }
        ensures large { is_taken_from self.now.own self.now.servers origin.now ≡ true → MAX_BODY < length body.now → result ≡ Err Refusal.BodyTooLarge }
    {
        if !self.takes_from(origin) {
            return Err(Refusal::ServerNotListed);
        }
        let body = read_body(alloc, body)?;
        if !voucher.vouch(alloc, &body)? {
            return Err(Refusal::BadSignature);
        }
        if names_other_origin(&body, origin) {
            return Err(Refusal::OriginDiffers);
        }
        let origin = String::from_str(alloc, origin)?;
        let txn = String::from_str(alloc, txn)?;
        Ok(Delivery { origin, txn, body })
    }
}

// Whether the body has a text `origin` that is not this one.
fn names_other_origin(body: &Json, origin: &str) -> bool
    ensures { result ≡ names_other body.now origin.now }
{
    body.member("origin")
        .and_then(|part| part.text())
        .is_some_and(|named| named != origin)
}

// The refusal of a body that is no transaction, where it is not memory that ran out.
fn refusal_by(fault: TxnFault) -> Result<Refusal, NoMemory>
    ensures refusal { IfOk result (λ refusal. refusal ≡ refusal_of fault) }
    ensures memory { IsOk result → fault ≢ TxnFault.Memory }
{
    match fault {
        TxnFault::Memory => Err(NoMemory),
        other => Ok(Refusal::from(other)),
    }
}
