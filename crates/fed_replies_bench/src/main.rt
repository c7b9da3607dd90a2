//! The program `fed_replies_bench`: work for measuring what kept replies cost. Each line of its input is `STORE VERDICTS REPLIES`: so many
//! replies, each of 50 events, are kept by a `list` or a `packed` store, and each is got again; all events are `accepted`, or each second
//! one has `failed`. It prints how many were got again, and on standard error the times of keeping and of getting in nanoseconds.
//! `bench/replies.sh` measures with it.
#![tactic(auto)]

mod line;
mod replies;
mod stop;
mod work;

use fed_replies::{ListStore, PackedStore};
use line::{Kind, Line, line_of};
use std::io;
use std::process::ExitCode;
use stop::Stop;
use work::{Done, work};

fn main(rt: HostRuntime) -> io::Result<ExitCode> {
    for line in rt.lines(rt.alloc()) {
        match told(&rt, line?.as_str()) {
            Ok(done) => {
                println!(rt; "kept {}", done.kept)?;
                eprintln!(rt; "keep {} get {}", done.keeping, done.getting)?;
            }
            Err(stop) => {
                eprintln!(rt; "fed_replies_bench: {stop}")?;
                return Ok(ExitCode::from(1));
            }
        }
    }
    Ok(ExitCode::SUCCESS)
}

// What the work of a line comes to.
fn told(rt: &HostRuntime, line: &str) -> Result<Done, Stop> {
    let alloc = rt.alloc();
    let Line {
        kind,
        failed,
        replies,
    } = line_of(line).ok_or(Stop::WrongWords)?;
    match kind {
        Kind::List => work(rt, ListStore::new(alloc), failed, replies),
        Kind::Packed => work(rt, PackedStore::new(alloc), failed, replies),
    }
}
