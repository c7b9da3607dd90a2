// The commands of the program and their arguments.
use crate::asked::Most;
use crate::texts::{INPUT, LOOP, SCRIPT};
use clap::{Arg, Command, value_parser};
use std::alloc::{AllocError, Global};

/// The own name where none is given.
pub(crate) const NAME: &str = "b.example";

/// The other servers where none are given.
pub(crate) const SERVERS: &str = "a.example";

/// The room where none is given.
pub(crate) const ROOM: &str = "!r:a.example";

const EVENTS: &str = "120";

const CLIENTS: &str = "3";

const VERSION: &str = "0.1.0";

/// The program with its commands. `most` are the greatest numbers that `loop` takes.
pub(crate) fn command<'a>(alloc: Global, most: Most) -> Result<Command<'a>, AllocError> {
    let name = Arg::new(alloc, "name")
        .long("name")
        .value_name("N")
        .default_value(NAME)
        .help("The name of the server whose inbox it is");
    let servers = Arg::new(alloc, "servers")
        .long("servers")
        .value_name("A,B")
        .default_value(SERVERS)
        .help(
            "The other servers, which it takes transactions from, each once however often it is named",
        );
    let room = Arg::new(alloc, "room")
        .long("room")
        .value_name("R")
        .default_value(ROOM)
        .help("The room that it knows");
    let inbox = Command::new(alloc, "inbox")
        .about("Answers the lines of standard input: origin, transaction number and body")
        .after_help(INPUT)
        .arg(name)?
        .arg(servers)?
        .arg(room)?;
    let file = Arg::new(alloc, "file")
        .value_name("FILE")
        .help("The script; standard input where none is named");
    let sim = Command::new(alloc, "sim")
        .about("Simulates servers that send each other events, by a script")
        .after_help(SCRIPT)
        .arg(file)?;
    Command::new(alloc, "fed")
        .about("The federation inbox of a Matrix server; with no words, `inbox` with its defaults")
        .after_help(INPUT)
        .version(VERSION)
        .subcommand(inbox)?
        .subcommand(sim)?
        .subcommand(loop_command(alloc, most)?)
}

fn loop_command<'a>(alloc: Global, most: Most) -> Result<Command<'a>, AllocError> {
    let events = Arg::new(alloc, "events")
        .long("events")
        .value_name("N")
        .value_parser(value_parser!(u64).range(1..=most.events))
        .default_value(EVENTS)
        .help("How many events are sent, 1 to 1,000");
    let clients = Arg::new(alloc, "clients")
        .long("clients")
        .value_name("N")
        .value_parser(value_parser!(u64).range(1..=most.clients))
        .default_value(CLIENTS)
        .help("How many clients send them, 1 to 8");
    Command::new(alloc, "loop")
        .about("Runs two servers that send and serve over sockets")
        .after_help(LOOP)
        .arg(events)?
        .arg(clients)
}
