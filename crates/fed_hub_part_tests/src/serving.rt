// Requests off readers that end or fail, their replies to writers that fail, and their numbers in the history.
ghost use Rattle.std.specs.Prelude.{◌≡◌, [], IfOk, IfSome};
ghost use Rattle.fed_inbox.specs.Receiver.{IsInboxOf};

use fed_dest::{List, ServerName};
use fed_event::{Checked, Keys};
use fed_http::{signed_request, write_request};
use fed_hub_serving::{
    AnsweredRequest, KeptInbox, KeptPoint, LockedInbox, ServeToken, Served, ServingDesk,
    ServingNaming, SharedInbox, serve_one,
};
use fed_hub_told::Note;
use fed_inbox::{Inbox, Receiver, Taken};
use fed_json::NoMemory;
use fed_keys::{StandIn, Trusting};
use fed_replies::ListStore;
use fed_wires::{AnyMessage, Credits, SendEnd};
use std::alloc::Global;
use std::io;
use std::io::{ErrorKind, Read, Write};
use std::marker::Brand;
use std::process::Abort;
use std::sync::atomic::{AtomicU64, Ordering};
use std::sync::{Mutex, Wait};
use std::test::*;

const TARGET: &str = "/_matrix/federation/v1/send/7-1";

const BODY: &[u8] =
    b"{\"edus\":[{\"content\":{},\"edu_type\":\"m.x\"}],\"origin\":\"a.example\",\"origin_server_ts\":5,\"pdus\":[]}";

const TAKEN: &[u8] =
    b"HTTP/1.1 200 OK\r\nContent-Type: application/json\r\nContent-Length: 11\r\nConnection: close\r\n\r\n{\"pdus\":{}}";

const BAD_HEAD: &[u8] =
    b"HTTP/1.1 400 Bad Request\r\nContent-Type: application/json\r\nContent-Length: 45\r\nConnection: close\r\n\r\n{\"errcode\":\"M_UNKNOWN\",\"error\":\"bad request\"}";

// Gives its bytes in one piece, and fails behind them where it is broken.
#[derive(Drop)]
struct Input<'a> {
    bytes: &'a [u8],
    broken: bool,
}

impl Read for Input<'_> {
    fn read(&mut self, buffer: &mut [u8]) -> io::Result<usize> {
        if self.broken && self.bytes.is_empty() {
            return Err(io::Error::from(ErrorKind::BrokenPipe));
        }
        let count = self.bytes.len().min(buffer.len());
        let (given, rest) = self.bytes.split_at(count);
        buffer[..count].copy_from_slice(given);
        self.bytes = rest;
        Ok(count)
    }
}

// Takes the bytes of so many writes, and fails at the next.
#[derive(Drop)]
struct Output {
    bytes: Vec<u8>,
    writes: u64,
}

impl Write for Output {
    fn write(&mut self, buffer: &[u8]) -> io::Result<usize> {
        if self.writes == 0 || self.bytes.extend_from_slice(buffer).is_err() {
            return Err(io::Error::from(ErrorKind::BrokenPipe));
        }
        self.writes -= 1;
        Ok(buffer.len())
    }

    fn flush(&mut self) -> io::Result<()> {
        Ok(())
    }
}

// An input that ends behind its bytes.
fn plain(bytes: &[u8]) -> Input<'_> {
    Input {
        bytes,
        broken: false,
    }
}

// The inbox of b.example, which takes from a.example and knows no room, and what receives its requests.
fn server(alloc: Global) -> Option<(Inbox<ListStore>, Receiver)>
    ensures { IfSome result (λ s. IsInboxOf s.1 s.0.state) }
{
    let own = ServerName::read(alloc, "b.example").ok()?;
    let other = ServerName::read(alloc, "a.example").ok()?;
    let mut names = Vec::new(alloc);
    names.push(own.copy(alloc).ok()?).ok()?;
    names.push(other).ok()?;
    let servers = List::new(names).ok()?;
    both(alloc, own, servers).ok()
}

// The inbox of a server that knows no room, and what receives its requests.
fn both(
    alloc: Global,
    own: ServerName,
    servers: List,
) -> Result<(Inbox<ListStore>, Receiver), NoMemory>
    ensures { IfOk result (λ s. IsInboxOf s.1 s.0.state) }
{
    let name = own.copy(alloc)?;
    let list = servers.copy(alloc)?;
    let receiver = Receiver::new(alloc, name, list, Vec::new(alloc))?;
    let store = ListStore::new(alloc);
    let inbox = Inbox::new(alloc, own, servers, Vec::new(alloc), store)?;
    Ok((inbox, receiver))
}

// The bytes of a transaction of a.example with one EDU.
fn transaction(alloc: Global) -> Option<Vec<u8>> {
    let keys = StandIn::new(String::from_str(alloc, "a.example").ok()?);
    let body = Vec::from_slice(alloc, BODY).ok()?;
    let request = signed_request(alloc, "PUT", TARGET, "b.example", body, &keys).ok()?;
    write_request(alloc, &request).ok()
}

// What became of what an input holds, and what was written by so many writes.
fn serve<N: ServingNaming, K: Keys, T: Wait>(
    rt: &T,
    alloc: Global,
    desk: &ServingDesk<'_, K>,
    inbox: &mut LockedInbox<'_, N, ListStore>,
    token: &mut ServeToken<N>,
    mut input: Input<'_>,
    writes: u64,
) -> (Served, Vec<u8>)
    requires checks { K.checks desk.now.keys.now ≡ N.checks }
    requires receiver { desk.now.receiver.now ≡ N.receiver }
    requires known { (desk.now.known.now ≡ []) × (N.known ≡ []) }
{
    let mut output = Output {
        bytes: Vec::new(alloc),
        writes,
    };
    let served = serve_one(rt, alloc, desk, inbox, token, &mut input, &mut output);
    (served, output.bytes)
}

// The requests that a thread answered have these numbers.
fn has_numbers<N: ServingNaming>(token: &ServeToken<N>, numbers: &[u64]) -> bool {
    token
        .answered()
        .iter()
        .map(|answered| answered.number())
        .eq(numbers.iter().copied())
}

// Each request that a thread answered is the point of its number, with the reply.
fn are_points<N: ServingNaming>(points: &[KeptPoint], token: &ServeToken<N>) -> bool {
    token
        .answered()
        .iter()
        .all(|answered| is_point(points, answered))
}

fn is_point(points: &[KeptPoint], answered: &AnsweredRequest) -> bool {
    let Some(place) = answered.number().checked_sub(1) else {
        return false;
    };
    match points.get(place as usize) {
        Some(point) => matches!(answered.is_of(point), Ok(true)),
        None => false,
    }
}

// What threads share of an inbox that knows no room.
fn shared<N: ServingNaming>(
    alloc: Global,
    inbox: Inbox<ListStore>,
) -> Result<SharedInbox<N, ListStore>, NoMemory>
    requires server { IsInboxOf N.receiver inbox.state }
    requires beginning { inbox.state ≡ N.beginning }
    requires rooms { (N.known ≡ []) × (N.rooms ≡ []) }
{
    let ends: Vec<SendEnd<Checked, AnyMessage>> = Vec::new(alloc);
    let credits = Credits::new(alloc, &ends)?;
    let inbox = Mutex::new(KeptInbox::<N, ListStore>::new(alloc, inbox, ends)?);
    Ok(SharedInbox { inbox, credits })
}

// The transaction comes ten times, and its reply, which is one write, can not be written at the first; then come bytes that are no request, or too
// few.
fn run<N: ServingNaming, K: Keys, T: Wait + Abort>(
    rt: &T,
    alloc: Global,
    inbox: Inbox<ListStore>,
    receiver: &Receiver,
    keys: &K,
    request: &[u8],
) -> Result<(), Fail>
    requires checks { K.checks keys.now ≡ N.checks }
    requires receiver { receiver.now ≡ N.receiver }
    requires server { IsInboxOf N.receiver inbox.state }
    requires beginning { inbox.state ≡ N.beginning }
    requires rooms { (N.known ≡ []) × (N.rooms ≡ []) }
{
    let shared = shared::<N>(alloc, inbox)?;
    let desk = ServingDesk {
        receiver,
        known: &[],
        keys,
    };
    let mut token = ServeToken::new(alloc);
    serve_ten(rt, alloc, &desk, &shared, &mut token, request)?;
    serve_none(rt, alloc, &desk, &shared, &mut token)?;
    finds_ten(rt, &shared, &token)
}

fn serve_ten<N: ServingNaming, K: Keys, T: Wait + Abort>(
    rt: &T,
    alloc: Global,
    desk: &ServingDesk<'_, K>,
    shared: &SharedInbox<N, ListStore>,
    token: &mut ServeToken<N>,
    request: &[u8],
) -> Result<(), Fail>
    requires checks { K.checks desk.now.keys.now ≡ N.checks }
    requires receiver { desk.now.receiver.now ≡ N.receiver }
    requires known { (desk.now.known.now ≡ []) × (N.known ≡ []) }
{
    for writes in 0..10 {
        let mut inbox = LockedInbox { shared };
        let input = plain(request);
        let (served, written) = serve(rt, alloc, desk, &mut inbox, token, input, writes);
        let whole = writes > 0;
        let expected = if whole {
            Served::Answered(200)
        } else {
            Served::WriteFault
        };
        assert_eq!(rt; served, expected);
        assert_eq!(rt; written.as_slice() == TAKEN, whole);
    }
    assert_eq!(rt; token.answered().len(), 10);
    Ok(())
}

fn serve_none<N: ServingNaming, K: Keys, T: Wait + Abort>(
    rt: &T,
    alloc: Global,
    desk: &ServingDesk<'_, K>,
    shared: &SharedInbox<N, ListStore>,
    token: &mut ServeToken<N>,
) -> Result<(), Fail>
    requires checks { K.checks desk.now.keys.now ≡ N.checks }
    requires receiver { desk.now.receiver.now ≡ N.receiver }
    requires known { (desk.now.known.now ≡ []) × (N.known ≡ []) }
{
    for (bytes, broken, served, written) in [
        (
            b"no request\r\n\r\n".as_slice(),
            false,
            Served::Answered(400),
            BAD_HEAD,
        ),
        (
            b"PUT ".as_slice(),
            false,
            Served::EndedEarly,
            b"".as_slice(),
        ),
        (b"PUT ".as_slice(), true, Served::ReadFault, b"".as_slice()),
    ] {
        let mut inbox = LockedInbox { shared };
        let input = Input { bytes, broken };
        let found = serve(rt, alloc, desk, &mut inbox, token, input, 9);
        assert_eq!(rt; found.0, served);
        assert_eq!(rt; found.1.as_slice(), written);
    }
    Ok(())
}

fn finds_ten<N: ServingNaming, T: Wait + Abort>(
    rt: &T,
    shared: &SharedInbox<N, ListStore>,
    token: &ServeToken<N>,
) -> Result<(), Fail> {
    assert_eq!(rt; token.answered().len(), 10);
    let kept = shared.inbox.lock(rt);
    assert_eq!(rt; kept.points().len(), 10);
    assert!(rt; has_numbers(token, &[1, 2, 3, 4, 5, 6, 7, 8, 9, 10]));
    assert!(rt; are_points(kept.points(), token));
    assert!(rt; are_just_the_edu(kept.inbox().taken_edus("a.example")));
    Ok(())
}

fn are_just_the_edu(mut edus: Taken<'_>) -> bool {
    let first = edus.next();
    first == Some(b"{\"content\":{},\"edu_type\":\"m.x\"}".as_slice()) && edus.next().is_none()
}

#[test]
fn a_transaction_is_served_and_taken_once(rt: HostRuntime) -> Result<(), Fail> {
    let alloc = rt.alloc();
    let keys = StandIn::new(String::from_str(alloc, "b.example")?);
    let Some((inbox, receiver)) = server(alloc) else {
        panic!(rt; "no server");
    };
    let Some(request) = transaction(alloc) else {
        panic!(rt; "no request");
    };
    run::<Brand, _, _>(&rt, alloc, inbox, &receiver, &keys, &request)
}

// The transaction comes to two threads, and after bytes that are no request it comes to the one again.
fn run_two<N: ServingNaming, K: Keys, T: Wait + Abort>(
    rt: &T,
    alloc: Global,
    inbox: Inbox<ListStore>,
    receiver: &Receiver,
    keys: &K,
    request: &[u8],
) -> Result<(), Fail>
    requires checks { K.checks keys.now ≡ N.checks }
    requires receiver { receiver.now ≡ N.receiver }
    requires server { IsInboxOf N.receiver inbox.state }
    requires beginning { inbox.state ≡ N.beginning }
    requires rooms { (N.known ≡ []) × (N.rooms ≡ []) }
{
    let shared = shared::<N>(alloc, inbox)?;
    let mut inbox = LockedInbox { shared: &shared };
    let desk = ServingDesk {
        receiver,
        known: &[],
        keys,
    };
    let mut one = ServeToken::new(alloc);
    let mut other = ServeToken::new(alloc);
    serve(rt, alloc, &desk, &mut inbox, &mut one, plain(request), 9);
    serve(rt, alloc, &desk, &mut inbox, &mut other, plain(request), 9);
    serve(
        rt,
        alloc,
        &desk,
        &mut inbox,
        &mut one,
        plain(b"no request\r\n\r\n"),
        9,
    );
    serve(rt, alloc, &desk, &mut inbox, &mut one, plain(request), 9);
    assert!(rt; has_numbers(&one, &[1, 3]));
    assert!(rt; has_numbers(&other, &[2]));
    let kept = shared.inbox.lock(rt);
    assert_eq!(rt; kept.points().len(), 3);
    assert!(rt; are_points(kept.points(), &one));
    assert!(rt; are_points(kept.points(), &other));
    Ok(())
}

#[test]
fn a_transaction_that_comes_again_has_a_number_of_its_own(rt: HostRuntime) -> Result<(), Fail> {
    let alloc = rt.alloc();
    let keys = StandIn::new(String::from_str(alloc, "b.example")?);
    let Some((inbox, receiver)) = server(alloc) else {
        panic!(rt; "no server");
    };
    let Some(request) = transaction(alloc) else {
        panic!(rt; "no request");
    };
    run_two::<Brand, _, _>(&rt, alloc, inbox, &receiver, &keys, &request)
}

const EVENT_BODY: &[u8] =
    b"{\"origin\":\"a.example\",\"origin_server_ts\":5,\"pdus\":[{\"auth_events\":[],\"content\":{},\"depth\":1,\"hashes\":{},\"origin_server_ts\":1,\"prev_events\":[],\
    \"room_id\":\"!r:a.example\",\"sender\":\"@u:a.example\",\"signatures\":{\"a.example\":{\"k:1\":\"AAAAAAAAAAAAAAAAAAAAAAAAAAAAAAAAAAAAAAAAAAA\
    AAAAAAAAAAAAAAAAAAAAAAAAAAAAAAAAAAAAAAAAAAA\"}},\"type\":\"m.room.message\"}]}";

// Trusts every signature, and counts how many it was asked to check.
#[derive(Drop)]
struct Counting<'a> {
    keys: Trusting,
    count: &'a AtomicU64,
}

impl Keys for Counting<'_> {
    ghost use Rattle.std.specs.Prelude.{refl};
    ghost use Rattle.fed_keys.specs.StandIn.{stand_in_key};
    ghost use Rattle.fed_keys.specs.Trusting.{trusting_signature, trusting_checks};

    ghost own_name = { λ c. c.keys };

    ghost own_key = { λ _. stand_in_key };

    ghost own_signature = { λ _. trusting_signature };

    ghost checks = { λ _. trusting_checks };

    ghost signs = { λ keys message. refl };

    fn own(&self) -> &str {
        self.keys.own()
    }

    fn key_name(&self) -> &str {
        self.keys.key_name()
    }

    fn sign(&self, bytes: &[u8]) -> [u8; 64] {
        self.keys.sign(bytes)
    }

    fn check(&self, server: &str, key: &str, bytes: &[u8], signature: &[u8; 64]) -> bool {
        self.count.fetch_add(1, Ordering::SeqCst);
        self.keys.check(server, key, bytes, signature)
    }
}

// The bytes of a transaction of a.example with one event.
fn event_transaction(alloc: Global) -> Option<Vec<u8>> {
    let keys = StandIn::new(String::from_str(alloc, "a.example").ok()?);
    let body = Vec::from_slice(alloc, EVENT_BODY).ok()?;
    let request = signed_request(alloc, "PUT", TARGET, "b.example", body, &keys).ok()?;
    write_request(alloc, &request).ok()
}

// The transaction comes twice. At first the signatures of the request and of the event are checked, and then that of the request.
fn run_again<N: ServingNaming, K: Keys, T: Wait + Abort>(
    rt: &T,
    alloc: Global,
    inbox: Inbox<ListStore>,
    receiver: &Receiver,
    keys: &K,
    count: &AtomicU64,
    request: &[u8],
) -> Result<(), Fail>
    requires checks { K.checks keys.now ≡ N.checks }
    requires receiver { receiver.now ≡ N.receiver }
    requires server { IsInboxOf N.receiver inbox.state }
    requires beginning { inbox.state ≡ N.beginning }
    requires rooms { (N.known ≡ []) × (N.rooms ≡ []) }
{
    let shared = shared::<N>(alloc, inbox)?;
    let mut inbox = LockedInbox { shared: &shared };
    let desk = ServingDesk {
        receiver,
        known: &[],
        keys,
    };
    let mut token = ServeToken::new(alloc);
    let first = serve(rt, alloc, &desk, &mut inbox, &mut token, plain(request), 9);
    assert_eq!(rt; first.0, Served::Answered(200));
    assert_eq!(rt; count.load(Ordering::SeqCst), 2);
    let again = serve(rt, alloc, &desk, &mut inbox, &mut token, plain(request), 9);
    assert_eq!(rt; again.0, Served::Answered(200));
    assert_eq!(rt; again.1.as_slice(), first.1.as_slice());
    assert_eq!(rt; count.load(Ordering::SeqCst), 3);
    assert!(rt; has_numbers(&token, &[1, 2]));
    assert!(rt; are_points(shared.inbox.lock(rt).points(), &token));
    Ok(())
}

#[test]
fn a_transaction_that_comes_again_is_not_judged(rt: HostRuntime) -> Result<(), Fail> {
    let alloc = rt.alloc();
    let count = AtomicU64::new(0);
    let keys = Counting {
        keys: Trusting::new(String::from_str(alloc, "b.example")?),
        count: &count,
    };
    let Some((inbox, receiver)) = server(alloc) else {
        panic!(rt; "no server");
    };
    let Some(request) = event_transaction(alloc) else {
        panic!(rt; "no request");
    };
    run_again::<Brand, _, _>(&rt, alloc, inbox, &receiver, &keys, &count, &request)
}
