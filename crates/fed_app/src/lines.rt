// Lines of transactions in, lines of replies out.
ghost use Rattle.std.specs.Prelude.{◌≡◌, ◌++◌, ◌<◌, ◌≤◌, ◌*◌, ◌^◌, length, OnOk, IfSome};
ghost use Rattle.fed_http.specs.Sending.{WritesWhole};
ghost use Rattle.fed_app.specs.Input.{left_of, room_of};
ghost use Rattle.fed_app.specs.Lines.{words_in};
ghost use Rattle.fed_app.specs.Output.{line_of};
ghost use Rattle.fed_app.specs.Ends.{IsEnd};
ghost use Rattle.fed_app.specs.Setup.{first_inbox};

use crate::fault::RunFault;
use crate::input::Input;
use crate::setup::InboxSetup;
use crate::words::words_of;
use fed_event::Trusting;
use fed_http::write_whole;
use fed_inbox::{Inbox, Reply};
use fed_json::NoMemory;
use fed_replies::PackedStore;
use std::alloc::Global;
use std::io;
use std::io::{Read, Write};

/// How often the input is read at most.
pub const MAX_READS: u64 = 40_000_000;

/// Reads lines `<origin> <txnId> <body>` and writes, for each of them, the line `<status> <reply body>` of an inbox that begins
/// empty (Server-Server API, "Transactions"). Every signature of an event that decodes counts as right. Each line is written and
/// flushed before the next one is read. The first two spaces of a line end its first two parts, and the end of the input ends a line
/// too.
///
/// # Errors
///
/// - `WrongWords` at the first line with an empty or missing part, or whose first two parts are not both UTF-8. The lines before it
///   are answered.
/// - `Io` where a read or a write fails, a writer takes nothing, or the input was read `MAX_READS` times; `Memory` where there is no
///   memory to begin, for a line or for its reply. What was written is a front of the replies.
pub fn inbox_run<R: Read + Drop, W: Write>(
    alloc: Global,
    reader: R,
    writer: &mut W,
    setup: InboxSetup,
) -> Result<(), RunFault>
    ensures run { IfSome (R.remaining reader) (λ input.
        IsEnd (first_inbox setup) (words_in input) (W.contents writer.old) (W.contents writer.new) result) }
    ensures limit { OnOk result (IfSome (R.remaining reader) (λ input. length input ≤ MAX_READS * 65536)) }
{
    let InboxSetup {
        own,
        servers,
        rooms,
    } = setup;
    let keys = Trusting::new(String::from_str(alloc, own.as_str())?);
    let inbox = Inbox::new(alloc, own, servers, rooms, PackedStore::new(alloc))?;
    let mut input = Input::new(alloc, reader, MAX_READS)?;
    answer_lines(alloc, inbox, &keys, &mut input, writer)
}

// Answers the lines of an input, one after another.
fn answer_lines<R: Read, W: Write>(
    alloc: Global,
    mut inbox: Inbox<PackedStore>,
    keys: &Trusting,
    input: &mut Input<R>,
    writer: &mut W,
) -> Result<(), RunFault>
    requires { room_of input.old < 2 ^ 63 }
    ensures run { IfSome (left_of R.remaining input.old) (λ bytes.
        IsEnd inbox.state (words_in bytes) (W.contents writer.old) (W.contents writer.new) result) }
    ensures limit { OnOk result (IfSome (left_of R.remaining input.old) (λ bytes. length bytes ≤ room_of input.old)) }
{
    let mut line = Vec::new(alloc);
    let mut out = Vec::new(alloc);
    let mut number: u64 = 1;
    while input.read_line(&mut line)? {
        let Some(words) = words_of(&line) else {
            return Err(RunFault::WrongWords { line: number });
        };
        let reply = inbox.answer_body(alloc, words.origin, words.txn, words.body, keys);
        write_reply(writer, &mut out, &reply)?;
        number += 1;
    }
    Ok(())
}

// Writes and flushes the line of a reply. `out` is room for it.
fn write_reply<W: Write>(writer: &mut W, out: &mut Vec<u8>, reply: &Reply) -> io::Result<()>
    ensures { WritesWhole (W.contents writer.old) (W.contents writer.new) (line_of reply.now) result }
{
    out.clear();
    append_line(out, reply)?;
    write_whole(writer, out)?;
    writer.flush()
}

// Appends the line of a reply.
fn append_line(out: &mut Vec<u8>, reply: &Reply) -> Result<(), NoMemory>
    ensures { OnOk result (out.new.items ≡ out.old.items ++ line_of reply.now) }
{
    let mut digits = itoa::Buffer::new();
    out.extend_from_slice(digits.format(reply.status()).as_bytes())?;
    out.push(b' ')?;
    out.extend_from_slice(reply.body())?;
    out.push(b'\n')?;
    Ok(())
}
