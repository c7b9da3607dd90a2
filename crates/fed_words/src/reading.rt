// From words to what they ask for.
use crate::asked::{Asked, InboxWords, Most};
use crate::command::{NAME, ROOM, SERVERS, command};
use crate::refused::Refused;
use clap::ArgMatches;
use std::alloc::Global;

/// What the words of a command line ask for, of which the first is the program's name. With no others it is `inbox` with its defaults.
///
/// # Errors
///
/// `Told` where they are wrong, ask for help or for the version; `Memory` where memory ran out.
pub fn read(alloc: Global, words: &[String], most: Most) -> Result<Asked, Refused> {
    let matches = match command(alloc, most)?.try_get_matches_from(words) {
        Ok(matches) => matches,
        Err(error) => return Err(Refused::of(alloc, error)),
    };
    match matches.subcommand() {
        Some(("sim", words)) => Ok(Asked::Sim(file_of(alloc, words)?)),
        Some(("loop", words)) => Ok(Asked::Loop {
            events: number(words, "events"),
            clients: number(words, "clients"),
        }),
        inbox => Ok(Asked::Inbox(inbox_of(alloc, inbox.map(|(_, words)| words))?)),
    }
}

// The name of a script's file.
fn file_of(alloc: Global, words: &ArgMatches<'_>) -> Result<Option<String>, Refused> {
    match words.get_str("file") {
        Some(name) => Ok(Some(String::from_str(alloc, name)?)),
        None => Ok(None),
    }
}

// A number, which has a default.
fn number(words: &ArgMatches<'_>, name: &str) -> u64 {
    words.get_one::<u64>(name).unwrap_or(0)
}

// An inbox, with the defaults of `inbox` where its words are none.
fn inbox_of(alloc: Global, words: Option<&ArgMatches<'_>>) -> Result<InboxWords, Refused> {
    let word = |name: &str, default| match words {
        Some(words) => words.get_str(name).unwrap_or(default),
        None => default,
    };
    let mut servers = Vec::new(alloc);
    for server in word("servers", SERVERS).split(',') {
        servers.push(String::from_str(alloc, server)?)?;
    }
    Ok(InboxWords {
        name: String::from_str(alloc, word("name", NAME))?,
        servers,
        room: String::from_str(alloc, word("room", ROOM))?,
    })
}
