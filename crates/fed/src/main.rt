//! The program `fed`: the inbox of a Matrix server, over lines of transactions; servers that send each other events, by a script; and two servers
//! with many threads, over sockets.
#![tactic(auto)]

use anyhow::Result;
use fed_app::{InboxSetup, RunFault, SetupFault, SimRunFault, inbox_run, sim_run};
use fed_loop::{Load, LoopFault, MAX_CLIENTS, MAX_EVENTS, loop_run};
use fed_words::{Asked, InboxWords, Most, Refused};
use std::alloc::{AllocError, AllocFailed, Global};
use std::fmt::Display;
use std::fs::File;
use std::io;
use std::net::{Net, TcpListener, TcpStream};
use std::process::ExitCode;
use std::sync::Wait;
use std::thread::Threads;
use std::time::Clock;

// The greatest loads that `loop` takes.
const MOST: Most = Most {
    events: MAX_EVENTS as i64,
    clients: MAX_CLIENTS as i64,
};

// Why there is nothing more to answer.
#[derive(Drop)]
enum Stop {
    /// The words are told to be wrong, or ask for this text.
    Told { text: String, is_mistake: bool },
    /// An argument is not UTF-8.
    NotText,
    /// The servers that the words name make no list.
    BadServers,
    Fault(RunFault),
    /// A script was not run.
    NotRun(SimRunFault),
    /// The script of this name can't be opened.
    NotOpened(String),
    /// The two servers did not run to their end.
    Ended(LoopFault),
}

impl From<Refused> for Stop {
    fn from(refused: Refused) -> Stop {
        match refused {
            Refused::Told { text, is_mistake } => Stop::Told { text, is_mistake },
            Refused::Memory => Stop::Fault(RunFault::Memory),
        }
    }
}

impl From<AllocError> for Stop {
    fn from(_error: AllocError) -> Stop {
        Stop::Fault(RunFault::Memory)
    }
}

impl<T: Drop> From<AllocFailed<T>> for Stop {
    fn from(_error: AllocFailed<T>) -> Stop {
        Stop::Fault(RunFault::Memory)
    }
}

impl From<SetupFault> for Stop {
    fn from(fault: SetupFault) -> Stop {
        match fault {
            SetupFault::Memory => Stop::Fault(RunFault::Memory),
            SetupFault::BadServers => Stop::BadServers,
        }
    }
}

impl From<RunFault> for Stop {
    fn from(fault: RunFault) -> Stop {
        Stop::Fault(fault)
    }
}

impl From<SimRunFault> for Stop {
    fn from(fault: SimRunFault) -> Stop {
        Stop::NotRun(fault)
    }
}

impl From<LoopFault> for Stop {
    fn from(fault: LoopFault) -> Stop {
        Stop::Ended(fault)
    }
}

impl From<io::Error> for Stop {
    fn from(error: io::Error) -> Stop {
        Stop::Fault(RunFault::from(error))
    }
}

fn main(rt: HostRuntime) -> Result<ExitCode> {
    let ended = match run(&rt) {
        Ok(Some(load)) => run_loop(&rt, rt.alloc(), load),
        Ok(None) => Ok(()),
        Err(stop) => Err(stop),
    };
    match ended {
        Ok(()) => Ok(ExitCode::SUCCESS),
        Err(Stop::Told { text, is_mistake }) => tell(&rt, &text, is_mistake),
        Err(Stop::NotText) => {
            eprintln!(rt; "error: an argument is not UTF-8")?;
            Ok(ExitCode::from(2))
        }
        Err(Stop::BadServers) => {
            eprintln!(rt; "fed: {}", SetupFault::BadServers)?;
            Ok(ExitCode::from(2))
        }
        Err(Stop::Fault(fault)) => end_by(&rt, fault),
        Err(Stop::NotRun(fault)) => end_by(&rt, fault),
        Err(Stop::NotOpened(name)) => end_by(&rt, format_args!("cannot open {name}")),
        Err(Stop::Ended(fault)) => end_by(&rt, fault),
    }
}

// Prints a text that the words ask for, or that tells what is wrong with them.
fn tell(rt: &HostRuntime, text: &str, is_mistake: bool) -> Result<ExitCode> {
    if is_mistake {
        eprint!(rt; "{text}")?;
        return Ok(ExitCode::from(2));
    }
    match print!(rt; "{text}") {
        Ok(()) => Ok(ExitCode::SUCCESS),
        Err(_) => end_by(rt, RunFault::Io),
    }
}

// Tells a fault.
fn end_by(rt: &HostRuntime, fault: impl Display + Drop) -> Result<ExitCode> {
    eprintln!(rt; "fed: {fault}")?;
    Ok(ExitCode::from(1))
}

// Does what the words ask for, and tells how much two servers are to do where they ask for these.
fn run(rt: &HostRuntime) -> Result<Option<Load>, Stop> {
    let alloc = rt.alloc();
    match fed_words::read(alloc, &words(rt)?, MOST)? {
        Asked::Inbox(words) => inbox_run(
            alloc,
            rt.stdin(),
            &mut rt.stdout(),
            setup_of(alloc, words)?,
        )?,
        Asked::Sim(Some(name)) => run_script(rt, name)?,
        Asked::Sim(None) => sim_run(alloc, rt.stdin(), &mut rt.stdout())?,
        Asked::Loop { events, clients } => return Ok(Some(load_of(events, clients)?)),
    }
    Ok(None)
}

// The setup of an inbox.
fn setup_of(alloc: Global, words: InboxWords) -> Result<InboxSetup, Stop> {
    let mut rooms = Vec::new(alloc);
    rooms.push(words.room)?;
    Ok(InboxSetup::read(alloc, &words.name, &words.servers, rooms)?)
}

// Runs the script of a file.
fn run_script(rt: &HostRuntime, name: String) -> Result<(), Stop> {
    match File::open(rt, &name) {
        Ok(file) => Ok(sim_run(rt.alloc(), file, &mut rt.stdout())?),
        Err(error) if error.kind() == io::ErrorKind::OutOfMemory => {
            Err(Stop::Fault(RunFault::Memory))
        }
        Err(_) => Err(Stop::NotOpened(name)),
    }
}

// How much two servers are to do.
fn load_of(events: u64, clients: u64) -> Result<Load, Stop> {
    match Load::new(events, clients) {
        Some(load) => Ok(load),
        None => Err(Stop::Ended(LoopFault::BadSetup)),
    }
}

// Runs two servers, and prints what comes of it.
fn run_loop<R>(rt: &R, alloc: Global, load: Load) -> Result<(), Stop>
where
    R: Threads + Wait + Clock + Print + Net<Stream = TcpStream, Listener = TcpListener> + Sync,
{
    let counts = loop_run(rt, alloc, load)?;
    print!(rt; "{counts}")?;
    Ok(())
}

// The words of the command line.
fn words(rt: &HostRuntime) -> Result<Vec<String>, Stop> {
    match std::env::args(rt) {
        Ok(words) => Ok(words.collect(rt.alloc())?),
        Err(error) if error.kind() == io::ErrorKind::OutOfMemory => {
            Err(Stop::Fault(RunFault::Memory))
        }
        Err(_) => Err(Stop::NotText),
    }
}
