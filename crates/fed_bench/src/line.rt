// The lines of the input.
use crate::reading::Reading;
use crate::receiving::Receiving;

/// What a line asks for.
#[derive(Clone, Copy)]
pub(crate) enum Line<'a> {
    Send(u64),
    Read(Reading),
    Resolve(&'a str),
    Room(Receiving),
}

/// What a line asks for, where it has the right words.
pub(crate) fn line_of(line: &str) -> Option<Line<'_>> {
    let (name, words) = line.split_once(' ')?;
    match name {
        "send" => Some(Line::Send(words.parse().ok()?)),
        "read" => Some(Line::Read(reading_of(words)?)),
        "resolve" => Some(Line::Resolve(words)),
        "room" => Some(Line::Room(receiving_of(words, false)?)),
        "names" => Some(Line::Room(receiving_of(words, true)?)),
        _ => None,
    }
}

fn receiving_of(words: &str, names: bool) -> Option<Receiving> {
    let (members, numbers) = words.split_once(' ')?;
    let (messages, fork) = numbers.split_once(' ')?;
    Some(Receiving {
        members: members.parse().ok()?,
        messages: messages.parse().ok()?,
        fork: fork.parse().ok()?,
        names,
    })
}

fn reading_of(words: &str) -> Option<Reading> {
    let (coding, numbers) = words.split_once(' ')?;
    let (size, numbers) = numbers.split_once(' ')?;
    let (piece, numbers) = numbers.split_once(' ')?;
    let (times, field) = numbers.split_once(' ')?;
    let chunked = match coding {
        "whole" => false,
        "chunked" => true,
        _ => return None,
    };
    Some(Reading {
        chunked,
        size: size.parse().ok()?,
        piece: piece.parse().ok()?,
        times: times.parse().ok()?,
        field: field.parse().ok()?,
    })
}
