//! The program `fed_embedding`: a server with its threads, as who writes one puts it together (docs/EMBEDDING.md). It is b.example, and has a room
//! of @u:a.example and @v:b.example.
//!
//!     fed_embedding [ADDRESS [SECONDS [PEERS]]]
//!
//! It serves at an address of the loopback interface, which it names on standard error. Each line of its standard input is the content of a
//! message, an object of JSON, which goes to a.example at the address that is given; it has none where that is `-`. A request and an exchange may take
//! so many seconds, or 30. It lists so many peers, or a.example alone, at most 64, and has a thread that serves for each of them and one more. When its
//! input ends it ends too, and prints how many events it took and sent, and that it finished. Its keys are the stand-in, which gives no security.
//!
//! - `words`: what it is told by its arguments
//! - `setup`: what the server is made of
//! - `server`: the server, from its hub to its end
//! - `threads`: what each of its threads does
//! - `stop`: why it ends early
#![tactic(auto)]

mod server;
mod setup;
mod stop;
mod threads;
mod words;

use std::alloc::Global;
use std::env::Env;
use std::io::{self, BufRead};
use std::net::{Net, TcpListener, TcpStream};
use std::process::ExitCode;
use std::sync::Wait;
use std::thread::Threads;
use std::time::Clock;
use stop::Stop;
use words::Words;

fn main(rt: HostRuntime) -> io::Result<ExitCode> {
    match run(&rt, rt.alloc(), rt.stdin().lock()) {
        Ok(()) => Ok(ExitCode::SUCCESS),
        Err(stop) => {
            eprintln!(rt; "fed_embedding: {stop}")?;
            Ok(ExitCode::from(1))
        }
    }
}

fn run<R, I>(rt: &R, alloc: Global, input: I) -> Result<(), Stop>
where
    R: Threads
        + Wait
        + Clock
        + Env
        + Print
        + Eprint
        + AllocGlobal
        + Net<Stream = TcpStream, Listener = TcpListener>
        + Sync,
    I: BufRead + Send + Drop,
{
    let counts = server::run(rt, alloc, Words::read(rt)?, input)?;
    let (took, sent) = (counts.took, counts.sent);
    println!(rt; "took {took}\nsent {sent}\nfinished")?;
    Ok(())
}
