//! The program `fed_hub_play`: plays scripts on real hubs, each with all of its threads, whose carriers bring what they send to one another.
//!
//!     fed_hub_play [NAME..]
//!
//! It plays each `NAME.play`, and tells whether it told what is written in `NAME.out`; without names it plays its standard input and prints what
//! was told. On standard error it prints the times that a script asks for. `docs/SCRIPTS.md` teaches the language.
//!
//! - `playing`: a script with its hubs; `scenes`, `setups`: what the hubs are made of
//! - `script`: the lines of a script; `asking`: what each asks which thread; `words`: their words
//! - `order`, `hall`: what threads are asked, and where; `counts`: by what they wait for one another
//! - `hubs`: the hub of one server; `cast`: its threads, of which `leading`, `clients`, `senders`, `rooms` and `serving` have what each does
//! - `carrier`, `exchange`, `gate`, `dice`: what brings requests, as a script says, and a clock
//! - `paper`, `packs`: servers without a hub, and the requests that they make
//! - `texts`, `reports`, `shown`: what is told
#![tactic(auto)]

mod asking;
mod carrier;
mod cast;
mod clients;
mod counts;
mod dice;
mod exchange;
mod gate;
mod hall;
mod hubs;
mod leading;
mod order;
mod packs;
mod paper;
mod playing;
mod reports;
mod rooms;
mod scenes;
mod script;
mod senders;
mod serving;
mod setups;
mod shown;
mod texts;
mod words;

use crate::playing::play;
use std::alloc::Global;
use std::process::ExitCode;
use std::rt::Files;
use std::sync::Wait;
use std::thread::Threads;
use std::time::Clock;
use std::{env, fs, io};

fn main(rt: HostRuntime) -> io::Result<ExitCode> {
    let mut is_well = true;
    let mut count = 0usize;
    for name in env::args(&rt)?.skip(1) {
        count = count.saturating_add(1);
        is_well = tells_as_written(&rt, rt.alloc(), name.as_str())? && is_well;
    }
    if count == 0 {
        let text = io::read_to_string(rt.alloc(), rt.reader())?;
        is_well = tell(&rt, rt.alloc(), &text)?;
    }
    Ok(if is_well {
        ExitCode::SUCCESS
    } else {
        ExitCode::from(1)
    })
}

// Plays a script and prints what was told; whether all its lines could be played.
fn tell<R>(rt: R, alloc: Global, text: &str) -> io::Result<bool>
where
    R: Threads + Wait + Clock + Print + Eprint + Copy + Sync,
{
    let (told, wrong) = play(rt, alloc, text)?;
    let (out, times) = (told.out, told.times);
    print!(rt; "{out}")?;
    eprint!(rt; "{times}")?;
    if let Some(line) = wrong {
        eprintln!(rt; "fed_hub_play: line {line}: wrong words")?;
    }
    Ok(wrong.is_none())
}

// Whether a script tells what is written beside it.
fn tells_as_written<R>(rt: R, alloc: Global, name: &str) -> io::Result<bool>
where
    R: Threads + Wait + Clock + Files + AllocGlobal + Print + Eprint + Copy + Sync,
{
    let script = fs::read_to_string(&rt, &file_name(alloc, name, ".play")?)?;
    let expected = fs::read_to_string(&rt, &file_name(alloc, name, ".out")?)?;
    let (told, wrong) = play(rt, alloc, &script)?;
    if wrong.is_none() && told.out.as_str() == expected.as_str() {
        println!(rt; "{name}: as written")?;
        return Ok(true);
    }
    let out = told.out;
    println!(rt; "{name}: differs")?;
    eprintln!(rt; "{name} told:\n{out}")?;
    if let Some(line) = wrong {
        eprintln!(rt; "fed_hub_play: {name}: line {line}: wrong words")?;
    }
    Ok(false)
}

// The name of a file.
fn file_name(alloc: Global, name: &str, ending: &str) -> io::Result<String> {
    let mut file = String::from_str(alloc, name)?;
    file.push_str(ending)?;
    Ok(file)
}
