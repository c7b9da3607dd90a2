// What the program is told by its arguments.
use crate::stop::Stop;
use fed_tcp::PATIENCE;
use std::env::Env;
use std::net::SocketAddr;

/// How many peers there may be.
const MAX_PEERS: u64 = 64;

/// The address of a.example, where one is given, how many seconds a request and an exchange may take, and how many peers the server has.
#[derive(Clone, Copy)]
pub(crate) struct Words {
    pub(crate) peer: Option<SocketAddr>,
    pub(crate) within: u64,
    pub(crate) peers: u64,
}

impl Words {
    /// Those behind the program's name.
    pub(crate) fn read<R: Env + AllocGlobal>(rt: &R) -> Result<Words, Stop> {
        let mut words = std::env::args(rt)?.skip(1);
        let peer = match words.next() {
            Some(word) => address(&word)?,
            None => None,
        };
        let within = match words.next() {
            Some(word) => number(&word)?,
            None => PATIENCE,
        };
        let peers = match words.next() {
            Some(word) => peers(&word)?,
            None => 1,
        };
        Ok(Words {
            peer,
            within,
            peers,
        })
    }
}

// A count of peers.
fn peers(word: &str) -> Result<u64, Stop> {
    let peers = number(word)?;
    if peers < 1 || MAX_PEERS < peers {
        return Err(Stop::BadNumber);
    }
    Ok(peers)
}

fn number(word: &str) -> Result<u64, Stop> {
    match word.parse::<u64>() {
        Ok(number) => Ok(number),
        Err(_) => Err(Stop::BadNumber),
    }
}

// An address, or none where a `-` stands for it.
fn address(word: &str) -> Result<Option<SocketAddr>, Stop> {
    if word == "-" {
        return Ok(None);
    }
    match word.parse::<SocketAddr>() {
        Ok(address) => Ok(Some(address)),
        Err(_) => Err(Stop::BadAddress),
    }
}
