// The lines of what commands of a script answer.
use fed_dest::{ServerName, ServerSet};
use fed_http::write_whole;
use fed_journal::EduFault;
use fed_json::NoMemory;
use fed_outbox::Settlement;
use fed_room_contract::{Receipt, Refusal, Verdict};
use fed_sim::{Collected, EduRefusal, Listener, Outcome, SendRefusal};
use std::alloc::Global;
use std::io;
use std::io::Write;

/// Writes lines, each of which is flushed before the next one.
#[derive(Drop)]
pub(crate) struct Lines<'a, W> {
    writer: &'a mut W,
    line: String,
}

impl<'a, W: Write> Lines<'a, W> {
    pub(crate) fn new(alloc: Global, writer: &'a mut W) -> Lines<'a, W> {
        Lines {
            writer,
            line: String::new(alloc),
        }
    }

    /// Writes the lines of so many commands that tell what a world begins with.
    pub(crate) fn write_oks(&mut self, count: usize) -> io::Result<()> {
        for _ in 0..count {
            self.line.clear();
            self.line.push_str("ok")?;
            self.write_line()?;
        }
        Ok(())
    }

    // Writes the line that is made.
    fn write_line(&mut self) -> io::Result<()> {
        self.line.push('\n')?;
        write_whole(self.writer, self.line.as_bytes())?;
        self.writer.flush()
    }
}

/// Each step has a line.
impl<W: Write> Listener for Lines<'_, W> {
    type Fault = io::Error;

    fn tell(&mut self, names: &[ServerName], outcome: &Outcome) -> io::Result<()> {
        self.line.clear();
        append_outcome(&mut self.line, outcome, names)?;
        self.write_line()
    }
}

// Appends the text of an outcome. The names of the servers stand in the order of their places.
fn append_outcome(
    out: &mut String,
    outcome: &Outcome,
    names: &[ServerName],
) -> Result<(), NoMemory> {
    match outcome {
        Outcome::NoMemory => out.push_str("no memory"),
        Outcome::NoSuchServer => out.push_str("no such server"),
        Outcome::Sent { number, dests } => append_sent(out, *number, dests, names),
        Outcome::NotSent(refusal) => append_refusal(out, *refusal),
        Outcome::EduSent { dests } => append_edu_sent(out, dests, names),
        Outcome::EduNotSent(refusal) => append_edu_refusal(out, *refusal),
        Outcome::Closed => out.push_str("closed"),
        Outcome::WasClosed => out.push_str("was closed"),
        Outcome::NotClosed => out.push_str("refused limit"),
        Outcome::Collected(kind) => out.push_str(collected_text(*kind)),
        Outcome::NothingCollected => out.push_str("nothing"),
        Outcome::Cut { number, pdus, edus } => {
            write!(out, "cut {number}: {pdus} pdus {edus} edus")
        }
        Outcome::NoCut => out.push_str("no cut"),
        Outcome::Due { at_ms } => write!(out, "due {at_ms}"),
        Outcome::NotFailed => out.push_str("ignored"),
        Outcome::Posted { packet } => write!(out, "packet {packet}"),
        Outcome::NothingToPost => out.push_str("nothing to post"),
        Outcome::NotDue { at_ms } => write!(out, "not due until {at_ms}"),
        Outcome::Answered { packet, status } => write!(out, "packet {packet} status {status}"),
        Outcome::NoSuchRequest => out.push_str("no such request"),
        Outcome::Settled(settlement) => out.push_str(settlement_text(*settlement)),
        Outcome::NoSuchAnswer => out.push_str("no such answer"),
        Outcome::Applied { receipt, more } => append_applied(out, *receipt, *more),
        Outcome::NothingApplied => out.push_str("nothing"),
        Outcome::Now { at_ms } => write!(out, "now {at_ms}"),
        Outcome::TooLate => out.push_str("too late"),
        Outcome::Shown {
            taken,
            taken_edus,
            acked,
            acked_edus,
        } => write!(out, "taken {taken} {taken_edus} acked {acked} {acked_edus}"),
        Outcome::Calm { at_ms } => write!(out, "calm now {at_ms}"),
    }
}

// An event that was sent.
fn append_sent(
    out: &mut String,
    number: u64,
    dests: &ServerSet,
    names: &[ServerName],
) -> Result<(), NoMemory> {
    write!(out, "sent {number} to ")?;
    append_servers(out, dests, names)
}

// An ephemeral data unit that was sent.
fn append_edu_sent(
    out: &mut String,
    dests: &ServerSet,
    names: &[ServerName],
) -> Result<(), NoMemory> {
    out.push_str("edu to ")?;
    append_servers(out, dests, names)
}

// The names of servers with commas between them; `-` where there are none.
fn append_servers(
    out: &mut String,
    servers: &ServerSet,
    names: &[ServerName],
) -> Result<(), NoMemory> {
    if servers.is_empty() {
        return out.push_str("-");
    }
    let mut separator = "";
    for server in servers.as_slice() {
        out.push_str(separator)?;
        out.push_str(name_at(names, server.place()))?;
        separator = ",";
    }
    Ok(())
}

// The name at a place.
fn name_at(names: &[ServerName], place: usize) -> &str {
    match names.get(place) {
        Some(name) => name.as_str(),
        None => "",
    }
}

// Why an event was not sent.
fn append_refusal(out: &mut String, refusal: SendRefusal) -> Result<(), NoMemory> {
    match refusal {
        SendRefusal::UnknownRoom => out.push_str("refused unknown room"),
        SendRefusal::NotMade(refusal) => append_not_made(out, refusal),
        SendRefusal::Limit => out.push_str("refused limit"),
    }
}

// Why a room made no event.
fn append_not_made(out: &mut String, refusal: Refusal) -> Result<(), NoMemory> {
    match refusal {
        Refusal::Memory => out.push_str("no memory"),
        Refusal::NotOwnUser => out.push_str("refused not own user"),
        Refusal::BadDraft(_) => out.push_str("refused bad draft"),
        Refusal::NotAllowed(rule) => write!(out, "refused rule {rule}"),
    }
}

// Why an ephemeral data unit was not sent.
fn append_edu_refusal(out: &mut String, refusal: EduRefusal) -> Result<(), NoMemory> {
    match refusal {
        EduRefusal::NotEdu(EduFault::BadEdu) => out.push_str("refused bad edu"),
        EduRefusal::NotEdu(EduFault::TooLarge) => out.push_str("refused edu too large"),
        EduRefusal::NotEdu(EduFault::TooDeep) => out.push_str("refused edu too deep"),
        EduRefusal::Limit => out.push_str("refused limit"),
    }
}

// What was collected.
fn collected_text(kind: Collected) -> &'static str {
    match kind {
        Collected::Event => "collected event",
        Collected::Edu => "collected edu",
        Collected::End => "collected end",
    }
}

// What an answer made of its transaction.
fn settlement_text(settlement: Settlement) -> &'static str {
    match settlement {
        Settlement::Settled => "settled",
        Settlement::Ignored => "ignored",
        Settlement::Failed => "failed",
    }
}

// What became of an event, and how many were stored after it.
fn append_applied(out: &mut String, receipt: Receipt, more: usize) -> Result<(), NoMemory> {
    append_receipt(out, receipt)?;
    if more == 0 {
        return Ok(());
    }
    write!(out, " and {more} more")
}

// What became of an event.
fn append_receipt(out: &mut String, receipt: Receipt) -> Result<(), NoMemory> {
    match receipt {
        Receipt::Stored(verdict) => append_verdict(out, verdict),
        Receipt::Known => out.push_str("known"),
        Receipt::Waiting => out.push_str("waiting"),
        Receipt::Dropped => out.push_str("dropped"),
    }
}

// What a room made of an event.
fn append_verdict(out: &mut String, verdict: Verdict) -> Result<(), NoMemory> {
    match verdict {
        Verdict::Accepted => out.push_str("accepted"),
        Verdict::Rejected(rule) => write!(out, "rejected rule {rule}"),
        Verdict::SoftFailed(rule) => write!(out, "soft-failed rule {rule}"),
    }
}
