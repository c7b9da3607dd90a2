// A request on its whole way: off a reader, into the inbox, and its reply to a writer.
ghost use Rattle.std.specs.Prelude.{◌≡◌, map, string_bytes};
ghost use Rattle.fed_hub_serving.specs.Delivered.{IsDelivered};
ghost use Rattle.fed_hub_serving.specs.Served.{IsInboxReply, IsServed, IsTakenIn};
ghost use Rattle.fed_hub_serving.specs.ServedParts.{IsSent, IsRequestServed};

use crate::access::InboxAccess;
use crate::delivered_request::DeliveredRequest;
use crate::inbox_reply::InboxReply;
use crate::naming::ServingNaming;
use crate::serve_token::{ServeToken, keep, make_room};
use crate::served::Served;
use fed_event::Keys;
use fed_http::{Reply, Request, send_reply_to};
use fed_inbox::{Receiver, Refusal};
use fed_stream::{Unread, read_request};
use std::alloc::Global;
use std::io::{Read, Write};
use std::sync::Wait;

/// What the threads of a server that serves share beside its inbox, and no lock guards: what receives its requests, the ids of its rooms and
/// its keys.
#[derive(Drop)]
pub struct ServingDesk<'a, K: Keys> {
    pub receiver: &'a Receiver,
    pub known: &'a [String],
    pub keys: &'a K,
}

/// Reads one request off a reader, answers it, and writes the reply (Matrix, Server-Server API, "Transactions"). Bytes that are no request are
/// answered 400 or 413. Where memory runs out the answer is 500, and the inbox is as it was. A kept reply is looked for before what the request
/// brings is judged; while that is done, and while the reply is written, the inbox is not locked. A request that was answered is kept in the
/// token with its reply and the number of its point in the history, unless the reply is of 500; and also where the reply could not be written:
/// the transaction is taken then.
///
/// What it tells:
///
/// - `Answered`, the status of the reply, which was written whole, to a HEAD without its body
/// - `ReadFault` where a read failed, and `EndedEarly` where the input ended, before a request was whole; nothing is written then
/// - `WriteFault` where a write failed; a front of the reply was written
pub fn serve_one<N, D, K, R, W, T>(
    rt: &T,
    alloc: Global,
    desk: &ServingDesk<'_, K>,
    inbox: &mut D,
    token: &mut ServeToken<N>,
    reader: &mut R,
    writer: &mut W,
) -> Served
where
    N: ServingNaming,
    D: InboxAccess<N>,
    K: Keys,
    R: Read,
    W: Write,
    T: Wait,
    requires checks { K.checks desk.now.keys.now ≡ N.checks }
    requires receiver { desk.now.receiver.now ≡ N.receiver }
    requires known { map string_bytes desk.now.known.now ≡ N.known }
    ensures { IsServed N.checks N.known N.beginning (record { left = R.remaining reader.old; written = W.contents writer.old; inbox = D.state inbox.old; given = token.old }) (record { left = R.remaining reader.new; written = W.contents writer.new; inbox = D.state inbox.new; given = token.new }) result }
{
    match read_request(alloc, reader) {
        Ok(request) => serve_request(rt, alloc, desk, inbox, token, request, writer),
        Err(Unread::Http(fault)) => send(writer, "", &Reply::from(fault)),
        Err(Unread::EndedEarly) => Served::EndedEarly,
        Err(Unread::Read) => Served::ReadFault,
    }
}

// Answers a request, writes the reply, and keeps both in the token.
fn serve_request<N, D, K, W, T>(
    rt: &T,
    alloc: Global,
    desk: &ServingDesk<'_, K>,
    inbox: &mut D,
    token: &mut ServeToken<N>,
    request: Request,
    writer: &mut W,
) -> Served
where
    N: ServingNaming,
    D: InboxAccess<N>,
    K: Keys,
    W: Write,
    T: Wait,
    requires checks { K.checks desk.now.keys.now ≡ N.checks }
    requires receiver { desk.now.receiver.now ≡ N.receiver }
    requires known { map string_bytes desk.now.known.now ≡ N.known }
    ensures { IsRequestServed N.checks N.known N.beginning request (D.state inbox.old) (D.state inbox.new) token.old token.new (W.contents writer.old) (W.contents writer.new) result }
{
    let Ok(copy) = make_room(alloc, &mut token.answered, &request) else {
        return send(writer, request.method(), &Reply::from(Refusal::OutOfMemory));
    };
    let answer = answer(rt, alloc, desk, inbox, request);
    let served = send(writer, copy.method(), &answer.reply);
    keep(&mut token.answered, copy, answer);
    served
}

// The inbox's reply to a request, which is read apart from it.
#[tactic(auto, using(crate::proofs::Replies::replied_to, crate::proofs::Replies::taken_for))]
fn answer<N, D, K, T>(
    rt: &T,
    alloc: Global,
    desk: &ServingDesk<'_, K>,
    inbox: &mut D,
    request: Request,
) -> InboxReply
where
    N: ServingNaming,
    D: InboxAccess<N>,
    K: Keys,
    T: Wait,
    requires checks { K.checks desk.now.keys.now ≡ N.checks }
    requires receiver { desk.now.receiver.now ≡ N.receiver }
    requires known { map string_bytes desk.now.known.now ≡ N.known }
    ensures reply { IsInboxReply N.checks N.beginning request result.reply }
    ensures taken { IsTakenIn N.checks N.known request result.reply result.number (D.state inbox.old) (D.state inbox.new) }
{
    match DeliveredRequest::new(alloc, desk.receiver, request, desk.keys) {
        Ok(delivered) => answer_delivered(rt, alloc, desk, inbox, delivered),
        Err(refused) => inbox.take(rt, alloc, refused),
    }
}

// The same of a request that delivers a transaction: where that was taken before, the kept reply; else it is judged apart from the inbox and then
// taken.
#[tactic(auto, using(crate::proofs::Replies::replied_to, crate::proofs::Replies::taken_for))]
fn answer_delivered<N, D, K, T>(
    rt: &T,
    alloc: Global,
    desk: &ServingDesk<'_, K>,
    inbox: &mut D,
    delivered: DeliveredRequest,
) -> InboxReply
where
    N: ServingNaming,
    D: InboxAccess<N>,
    K: Keys,
    T: Wait,
    requires checks { K.checks desk.now.keys.now ≡ N.checks }
    requires receiver { desk.now.receiver.now ≡ N.receiver }
    requires known { map string_bytes desk.now.known.now ≡ N.known }
    requires delivered { IsDelivered N.checks N.receiver delivered }
    ensures reply { IsInboxReply N.checks N.beginning delivered.request result.reply }
    ensures taken { IsTakenIn N.checks N.known delivered.request result.reply result.number (D.state inbox.old) (D.state inbox.new) }
{
    match inbox.repeat(rt, alloc, delivered, desk.keys) {
        Ok(reply) => reply,
        Err(delivered) => {
            let judged = delivered.judge(alloc, desk.receiver, desk.known, desk.keys);
            inbox.take(rt, alloc, judged)
        }
    }
}

// Writes the reply to a request of this method, which is empty where there is no request, and tells its status.
fn send<W: Write>(writer: &mut W, method: &str, reply: &Reply) -> Served
    ensures { IsSent method.now (W.contents writer.old) (W.contents writer.new) reply.now result }
{
    match send_reply_to(writer, method, reply) {
        Ok(()) => Served::Answered(reply.status()),
        Err(_) => Served::WriteFault,
    }
}
