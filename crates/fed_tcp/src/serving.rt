// One request after another, off the connections that a listener accepts.
ghost use Rattle.std.specs.Prelude.{◌≡◌, ◌≤◌, ◌<◌, ◌+◌, ◌^◌, ℕ, List, IfOk, IfErr, IfSome, IfNone};
ghost use Rattle.fed_hub_serving.specs.Answered.{AnsweredValue};
ghost use Rattle.fed_tcp.specs.Serving.{IsServedOff, ServesInTurn, replies_of};

use crate::deadline::Deadline;
use crate::door::Door;
use crate::timed::Timed;
use fed_event::Keys;
use fed_hub::{Hub, Naming, ServeToken, Served, ServingNaming};
use std::alloc::Global;
use std::io::{self, ErrorKind, Read};
use std::net::{Shutdown, SocketAddr, TcpStream};
use std::sync::{Arc, Wait};
use std::time::Clock;

/// For how many seconds a client that was answered may still send, and in how many pieces of how many bytes at most that is thrown away.
const LINGER: u64 = 1;

const PIECES: usize = 256;

const PIECE: usize = 4096;

/// Answers one request after another, each off a connection of its own, until the door is closed: whether it is is looked at whenever a connection
/// was accepted, and the last one is not answered. It tells how many replies were written whole. A connection that fails ends itself alone.
///
/// A request has `within` seconds, from when its connection was accepted to the last byte of its reply: then nothing more is read or written,
/// however slowly the client sends or reads. How long the hub takes isn't bounded; what it took stays taken, and its reply is kept for a repeat.
/// Behind the reply the connection is ended for the client, and what this one still sends is thrown away until it ends it too: for a second at
/// most, and at most 1,048,576 bytes.
///
/// # Errors
///
/// That of the listener, where it accepts no connection for another reason than the connection itself.
pub fn serve<N: Naming + ServingNaming, K: Keys + Drop, R: Wait + Clock + Copy>(
    rt: &R,
    alloc: Global,
    hub: &Hub<N, K>,
    token: &mut ServeToken<N>,
    door: &Door,
    within: u64,
) -> io::Result<u64>
    ensures replies { IfOk result (λ replies. ServesInTurn N.checks N.known N.beginning token.old token.new replies) }
    ensures until_then { IfErr result (λ error. (replies : ℕ) × ServesInTurn N.checks N.known N.beginning token.old token.new replies) }
{
    let mut replies = 0;
    for _ in 0..u64::MAX {
        let accepted = door.listener.accept();
        if door.is_closed() {
            return Ok(replies);
        }
        replies = serve_accepted(rt, alloc, hub, token, within, accepted, replies)?;
    }
    Ok(replies)
}

// Serves a connection, where one was accepted, and tells how many replies were written whole by then.
fn serve_accepted<N: Naming + ServingNaming, K: Keys + Drop, R: Wait + Clock + Copy>(
    rt: &R,
    alloc: Global,
    hub: &Hub<N, K>,
    token: &mut ServeToken<N>,
    within: u64,
    accepted: io::Result<(TcpStream, SocketAddr)>,
    replies: u64,
) -> io::Result<u64>
    requires { replies + 1 < 2 ^ 64 }
    ensures turn { IfOk result (λ count. (first : List AnsweredValue) → ServesInTurn N.checks N.known N.beginning first token.old replies → ServesInTurn N.checks N.known N.beginning first token.new count) }
    ensures one { IfOk result (λ count. count ≤ replies + 1) }
    ensures none { IfErr result (λ error. token.new ≡ token.old) }
{
    match accepted {
        Ok((stream, _)) => {
            let clock = *rt;
            let deadline = Deadline::new(clock, within);
            Ok(serve_next(rt, alloc, hub, token, stream, deadline, replies))
        }
        Err(error) => match error.kind() {
            ErrorKind::ConnectionAborted => Ok(replies),
            _ => Err(error),
        },
    }
}

// Serves one connection more, and tells how many replies were written whole by then.
fn serve_next<N: Naming + ServingNaming, K: Keys + Drop, R: Wait + Clock + Copy>(
    rt: &R,
    alloc: Global,
    hub: &Hub<N, K>,
    token: &mut ServeToken<N>,
    stream: TcpStream,
    deadline: Deadline<R>,
    replies: u64,
) -> u64
    requires { replies + 1 < 2 ^ 64 }
    ensures turn { (first : List AnsweredValue) → ServesInTurn N.checks N.known N.beginning first token.old replies → ServesInTurn N.checks N.known N.beginning first token.new result }
    ensures one { result ≤ replies + 1 }
{
    match answer(rt, alloc, hub, token, stream, deadline) {
        Some(told) => replies + whole_replies(told),
        None => replies,
    }
}

// How many replies were written whole to a client where this became of what it sent.
fn whole_replies(told: Served) -> u64
    ensures replies { result ≡ replies_of told }
    ensures one { result ≤ 1 }
{
    match told {
        Served::Answered(_) => 1,
        Served::ReadFault | Served::EndedEarly | Served::WriteFault => 0,
    }
}

// Answers a request off a connection; `None` where its socket is not as it should be.
fn answer<N: Naming + ServingNaming, K: Keys + Drop, R: Wait + Clock + Copy>(
    rt: &R,
    alloc: Global,
    hub: &Hub<N, K>,
    token: &mut ServeToken<N>,
    stream: TcpStream,
    deadline: Deadline<R>,
) -> Option<Served>
    ensures served { IfSome result (λ told. IsServedOff N.checks N.known N.beginning token.old token.new told) }
    ensures none { IfNone result (token.new ≡ token.old) }
{
    // No small write waits for the next one.
    stream.set_nodelay(true).ok()?;
    let socket = Arc::new(alloc, stream).ok()?;
    let reader = Timed {
        socket: Arc::try_clone(&socket).ok()?,
        deadline,
    };
    let writer = Timed {
        socket: Arc::try_clone(&socket).ok()?,
        deadline,
    };
    let served = answer_over(rt, alloc, hub, token, reader, writer);
    if matches!(served, Served::Answered(_)) {
        linger(rt, &socket);
    }
    Some(served)
}

// Answers a request off a connection.
fn answer_over<N: Naming + ServingNaming, K: Keys + Drop, R: Wait + Clock + Copy>(
    rt: &R,
    alloc: Global,
    hub: &Hub<N, K>,
    token: &mut ServeToken<N>,
    mut reader: Timed<Arc<TcpStream>, R>,
    mut writer: Timed<Arc<TcpStream>, R>,
) -> Served
    ensures { IsServedOff N.checks N.known N.beginning token.old token.new result }
{
    hub.serve_one(rt, alloc, token, &mut reader, &mut writer)
}

// Waits for a client that was answered to end its side. It may have sent more than was read: were the connection closed with that unread, its reply
// could be lost (RFC 9112, section 9.6).
fn linger<R: Clock>(rt: &R, socket: &TcpStream) {
    if socket.shutdown(Shutdown::Write).is_err() {
        return;
    }
    let deadline = Deadline::new(rt, LINGER);
    let mut reader = Timed { socket, deadline };
    let mut piece = [0u8; PIECE];
    for _ in 0..PIECES {
        match reader.read(&mut piece) {
            Ok(0) => return,
            Ok(_) => {}
            Err(error) => {
                if error.kind() != ErrorKind::Interrupted {
                    return;
                }
            }
        }
    }
}
