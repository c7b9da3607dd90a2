// The lines of an input.
ghost use Rattle.std.specs.Prelude.{◌≡◌, [], ◌++◌, ◌+◌, ◌<◌, ◌≤◌, ◌*◌, length, position, is_some, true, false, OnOk, IfOk, IfSome};
ghost use Rattle.std.specs.List.{before_first, after_first};
ghost use Rattle.std.specs.Io.KnownBytes.{Keeps, IsAtEnd};
ghost use Rattle.fed_app.specs.Input.{is_newline, ahead_of, left_of, room_of, Spends};
ghost use Rattle.fed_app.specs.Steps.{TakesLine};

use super::Input;
use fed_json::NoMemory;
use memchr::memchr;
use std::alloc::Global;
use std::io;
use std::io::{ErrorKind, Read};

// How many bytes are read at once.
const BUFFER: usize = 65_536;

impl<R: Read> Input<R> {
    pub(crate) fn new(alloc: Global, reader: R, reads: u64) -> Result<Input<R>, NoMemory>
    where
        R: Drop,
        ensures left { IfOk result (λ input. left_of R.remaining input ≡ R.remaining reader) }
        ensures room { IfOk result (λ input. room_of input ≡ reads * 65536) }
    {
        let mut buffer = Vec::new(alloc);
        buffer.resize(BUFFER, 0)?;
        Ok(Input {
            reader,
            reads,
            buffer,
            start: 0,
            end: 0,
        })
    }

    /// Reads a line without its newline, in the place of the one before. False where nothing is left.
    pub(crate) fn read_line(&mut self, line: &mut Vec<u8>) -> io::Result<bool>
        ensures line { IfSome (left_of R.remaining self.old) (λ bytes.
            TakesLine bytes (left_of R.remaining self.new) line.new.items result) }
        ensures spends { OnOk result (Spends (left_of R.remaining self.old) (left_of R.remaining self.new)
            (room_of self.old) (room_of self.new)) }
        ensures falls { IfOk result (λ more. more ≡ true → room_of self.new < room_of self.old) }
    {
        line.clear();
        while !self.take_piece(line)? {
            if !self.refill()? {
                return Ok(!line.is_empty());
            }
        }
        Ok(true)
    }

    /// Reads all that is left, and puts it behind what the text holds.
    pub(crate) fn read_rest(&mut self, text: &mut Vec<u8>) -> io::Result<()>
        ensures text { OnOk result (IfSome (left_of R.remaining self.old) (λ bytes. text.new.items ≡ text.old.items ++ bytes)) }
        ensures limit { OnOk result (IfSome (left_of R.remaining self.old) (λ bytes. length bytes ≤ room_of self.old)) }
    {
        self.take_all(text)?;
        while self.refill()? {
            self.take_all(text)?;
        }
        Ok(())
    }

    // Takes all that was read.
    fn take_all(&mut self, text: &mut Vec<u8>) -> Result<(), NoMemory>
        ensures text { OnOk result (text.new.items ≡ text.old.items ++ ahead_of self.old) }
        ensures rest { OnOk result (ahead_of self.new ≡ []) }
        ensures reader { self.new.reader ≡ self.old.reader }
        ensures reads { self.new.reads ≡ self.old.reads }
        ensures room { OnOk result (length text.new.items + room_of self.new ≤ length text.old.items + room_of self.old) }
        ensures empty { OnOk result (self.new.start ≡ self.new.end) }
    {
        text.extend_from_slice(&self.buffer[self.start..self.end])?;
        self.start = self.end;
        Ok(())
    }

    // Takes what was read up to a newline, which is dropped, or all of it. Tells whether there was a newline.
    fn take_piece(&mut self, line: &mut Vec<u8>) -> Result<bool, NoMemory>
        ensures piece { OnOk result (line.new.items ≡ line.old.items ++ before_first is_newline (ahead_of self.old)) }
        ensures rest { OnOk result (ahead_of self.new ≡ after_first is_newline (ahead_of self.old)) }
        ensures found { IfOk result (λ found. found ≡ is_some (position is_newline (ahead_of self.old))) }
        ensures reader { self.new.reader ≡ self.old.reader }
        ensures reads { self.new.reads ≡ self.old.reads }
        ensures ends { IfOk result (λ found. found ≡ true →
            length line.new.items + room_of self.new + 1 ≤ length line.old.items + room_of self.old) }
        ensures room { IfOk result (λ found. found ≡ false →
            length line.new.items + room_of self.new ≤ length line.old.items + room_of self.old) }
        ensures empty { IfOk result (λ found. found ≡ false → self.new.start ≡ self.new.end) }
    {
        let (piece, rest, found) = split_at_newline(&self.buffer[self.start..self.end]);
        line.extend_from_slice(piece)?;
        self.start = self.end - rest.len();
        Ok(found)
    }

    // Reads on where all was taken. False at the end of the input; an interrupted read gives nothing.
    fn refill(&mut self) -> io::Result<bool>
        requires { self.old.start ≡ self.old.end }
        ensures left { OnOk result (Keeps (left_of R.remaining self.old) (left_of R.remaining self.new)) }
        ensures end { IfOk result (λ more. more ≡ false → IsAtEnd (left_of R.remaining self.new)) }
        ensures reads { OnOk result (self.new.reads + 1 ≡ self.old.reads) }
        ensures room { OnOk result (room_of self.new ≤ room_of self.old) }
    {
        if self.reads == 0 {
            return Err(io::Error::from(ErrorKind::Other));
        }
        self.reads -= 1;
        self.start = 0;
        self.end = 0;
        match self.reader.read(&mut self.buffer) {
            Ok(count) => {
                self.end = count;
                Ok(count > 0)
            }
            Err(error) if error.kind() == ErrorKind::Interrupted => Ok(true),
            Err(error) => Err(error),
        }
    }
}

// What stands before the first newline, what stands after it, and whether there is one: all and nothing where there is none.
fn split_at_newline(bytes: &[u8]) -> (&[u8], &[u8], bool)
    ensures piece { result.0.now ≡ before_first is_newline bytes.now }
    ensures rest { result.1.now ≡ after_first is_newline bytes.now }
    ensures found { result.2 ≡ is_some (position is_newline bytes.now) }
    ensures len { result.2 ≡ true → length result.0.now + length result.1.now + 1 ≡ length bytes.now }
    ensures all { result.2 ≡ false → (length result.0.now ≡ length bytes.now) × (length result.1.now ≡ 0) }
{
    match newline_in(bytes) {
        Some(place) => (&bytes[..place], &bytes[place + 1..], true),
        None => (bytes, &[], false),
    }
}

// Where the first newline lies.
fn newline_in(bytes: &[u8]) -> Option<usize>
    ensures place { result ≡ position is_newline bytes.now }
    ensures within { IfSome result (λ place. place < length bytes.now) }
{
    memchr(b'\n', bytes)
}
