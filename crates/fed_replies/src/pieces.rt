// What packed replies lie in.
ghost use Rattle.std.specs.Prelude.{◌≡◌, ◌<◌, ◌≤◌, [], ◌∷◌, true, IfOk, OnOk, OnErr, if◌then◌else◌, length, option_map, string_bytes, vec_len, vec_capacity};
ghost use Rattle.std.specs.FinMap as map;
ghost use Rattle.fed_json.specs.CanonicalText.{canonical_text};
ghost use Rattle.fed_txn.specs.Reply.{reply_value};
ghost use Rattle.fed_replies.specs.Plain.{IsPlain};

use crate::hash_id::{Hash, hash_of};
use crate::marks::{ACCEPTED, mark_for, push_large};
use crate::members::write_members;
use crate::plain::{behind, read_member};
use crate::symbols::SymbolPairs;
use crate::text_table::TextTable;
use fed_json::NoMemory;
use fed_txn::Verdicts;
use std::alloc::Global;
use std::marker::Model;

/// An event by its hash, and the mark of the verdict about it.
#[derive(Clone, Copy)]
pub(crate) struct Event {
    pub(crate) hash: Hash,
    pub(crate) mark: u8,
}

/// How many events stand before a place, and how many numbers.
#[derive(Clone, Copy)]
pub(crate) struct Ends {
    pub(crate) events: usize,
    pub(crate) numbers: usize,
}

/// How far the pieces reach.
#[derive(Clone, Copy)]
pub(crate) struct Mark {
    pub(crate) ends: Ends,
    pub(crate) texts: usize,
}

/// The events of packed replies, one after another, the numbers that their marks have no room for, and the texts of their errors. Beside
/// them lie the pairs of symbols that they are written with.
#[derive(Drop)]
pub(crate) struct Pieces {
    events: Vec<Event>,
    numbers: Vec<u16>,
    texts: TextTable,
    pairs: SymbolPairs,
}

impl Model for Pieces {
    ghost use Rattle.fed_replies.specs.Pieces.{Content, content_code};

    ghost Value = { Content };

    ghost coded = { content_code };

    ghost view = { λ p. record { events = p.events.items; numbers = p.numbers.items; texts = p.texts } };
}

impl Pieces {
    ghost use Rattle.fed_replies.specs.Pieces.{
      cut,
      mark_of,
      unpacked,
      with_accepted,
      AreWithin,
      IsEntry,
      IsFailedEntry,
      IsPlainEntry,
    };

    /// No pieces.
    pub(crate) fn new(alloc: Global) -> Pieces
        ensures { result ≡ record { events = []; numbers = []; texts = [] } }
    {
        Pieces {
            events: Vec::new(alloc),
            numbers: Vec::new(alloc),
            texts: TextTable::new(alloc),
            pairs: SymbolPairs::new(alloc),
        }
    }

    /// Makes what replies are written with, where it is not made yet. The pieces stay as they were.
    pub(crate) fn prepare(&mut self, alloc: Global) -> Result<(), NoMemory>
        ensures { self.new ≡ self.old }
    {
        self.pairs.make(alloc)
    }

    /// How far they reach. They have at most 65,535 texts.
    pub(crate) fn mark(&self) -> Mark
        ensures mark { result ≡ mark_of self.now }
        ensures few { length self.now.texts ≤ 65535 }
    {
        Mark {
            ends: Ends {
                events: self.events.len(),
                numbers: self.numbers.len(),
            },
            texts: self.texts.len(),
        }
    }

    /// Takes away what lies behind a mark. It takes no memory.
    pub(crate) fn truncate(&mut self, mark: Mark)
        ensures { self.new ≡ cut self.old mark }
    {
        self.events.truncate(mark.ends.events);
        self.numbers.truncate(mark.ends.numbers);
        self.texts.truncate(mark.texts);
    }

    /// Enters verdicts, and tells whether all could be entered: their ids are hashes, and there are numbers for their texts. Where not,
    /// and where memory ran out, the pieces are as they were.
    pub(crate) fn enter_all(&mut self, alloc: Global, verdicts: &Verdicts) -> Result<bool, NoMemory>
        ensures all { IfOk result (λ all. IsEntry self.old (map.entries verdicts.now) all self.new) }
        ensures err { OnErr result (self.new ≡ self.old) }
    {
        let mark = self.mark();
        let all = self.enter_each(alloc, verdicts);
        if !matches!(all, Ok(true)) {
            self.truncate(mark);
        }
        all
    }

    // Enters verdicts, and tells whether all could be entered. Where not, and where memory ran out, those before lie there.
    fn enter_each(&mut self, alloc: Global, verdicts: &Verdicts) -> Result<bool, NoMemory>
        ensures all { IfOk result
            (λ all. IsEntry self.old (map.entries verdicts.now) all (if all then self.new else self.old)) }
        ensures front { cut self.new (mark_of self.old) ≡ self.old }
    {
        for (id, error) in verdicts.iter() {
            if !self.enter(alloc, id.as_bytes(), error_text(error))? {
                return Ok(false);
            }
        }
        Ok(true)
    }

    /// Enters the verdicts of a reply of which nothing is escaped, and tells whether it is such a reply with verdicts that can be entered.
    /// Where not, and where memory ran out, the pieces are as they were.
    pub(crate) fn enter_plain(&mut self, alloc: Global, reply: &[u8]) -> Result<bool, NoMemory>
        ensures all { IfOk result (λ all. IsPlainEntry self.old reply.now all self.new) }
        ensures err { OnErr result (self.new ≡ self.old) }
    {
        let before = self.mark();
        let all = self.enter_members(alloc, reply);
        if !matches!(all, Ok(true)) {
            self.truncate(before);
        }
        all
    }

    // Enters the verdicts of a reply of which nothing is escaped. Where it is none, and where memory ran out, those before lie there.
    fn enter_members(&mut self, alloc: Global, reply: &[u8]) -> Result<bool, NoMemory>
        ensures all { IfOk result (λ all. IsPlainEntry self.old reply.now all (if all then self.new else self.old)) }
        ensures front { cut self.new (mark_of self.old) ≡ self.old }
    {
        let Some(members) = behind(reply, b"{\"pdus\":{") else {
            return Ok(false);
        };
        let mut rest = members;
        let mut last: &[u8] = &[];
        let mut later = false;
        'members: while rest != b"}}".as_slice() {
            let Some(member) = read_member(rest, later, last) else {
                return Ok(false);
            };
            if !self.enter(alloc, member.id, member.error)? {
                return Ok(false);
            }
            rest = member.rest;
            last = member.id;
            later = true;
        }
        Ok(true)
    }

    // Enters a verdict, and tells whether it could be entered. Where not, and where memory ran out, the pieces are as they were.
    fn enter(&mut self, alloc: Global, id: &[u8], error: Option<&str>) -> Result<bool, NoMemory>
        ensures all { IfOk result
            (λ all. IsEntry self.old ((id.now, option_map (λ text. text.now) error.entry) ∷ []) all self.new) }
        ensures plain { IfOk result (λ all. all ≡ true → IsPlain id.now) }
        ensures err { OnErr result (self.new ≡ self.old) }
    {
        let Some(hash) = hash_of(id) else {
            return Ok(false);
        };
        match error {
            Some(text) => self.fail(alloc, hash, text),
            None => {
                self.accept(hash)?;
                Ok(true)
            }
        }
    }

    // Enters an event that was accepted. An error leaves the pieces as they were.
    fn accept(&mut self, hash: Hash) -> Result<(), NoMemory>
        ensures ok { OnOk result (self.new ≡ with_accepted self.old hash) }
        ensures err { OnErr result (self.new ≡ self.old) }
    {
        make_room(&mut self.events)?;
        let mark = ACCEPTED;
        self.events.push_reserved(Event { hash, mark });
        Ok(())
    }

    // Enters an event that has failed, where there is a number for the text. Else, and where memory ran out, the pieces are as they were.
    fn fail(&mut self, alloc: Global, hash: Hash, text: &str) -> Result<bool, NoMemory>
        ensures all { IfOk result (λ all. IsFailedEntry self.old hash text.now all self.new) }
        ensures err { OnErr result (self.new ≡ self.old) }
    {
        make_room(&mut self.events)?;
        make_room(&mut self.numbers)?;
        let Some(number) = self.texts.number_for(alloc, text)? else {
            return Ok(false);
        };
        push_large(&mut self.numbers, number);
        let mark = mark_for(number);
        self.events.push_reserved(Event { hash, mark });
        Ok(true)
    }

    /// The bytes of the reply whose verdicts were entered between two ends. It is written into a buffer of `size` bytes, which grows where
    /// these are too few.
    pub(crate) fn reply(
        &self,
        alloc: Global,
        start: Ends,
        end: Ends,
        size: usize,
    ) -> Result<Vec<u8>, NoMemory>
        requires { AreWithin self.now start end }
        ensures { IfOk result (λ reply. reply.items ≡ canonical_text (reply_value (unpacked self.now start end))) }
    {
        let events = &self.events[start.events..end.events];
        let numbers = &self.numbers[start.numbers..end.numbers];
        let mut out = Vec::with_capacity(alloc, size)?;
        out.extend_from_slice(b"{\"pdus\":{")?;
        write_members(&mut out, events, numbers, &self.texts, &self.pairs)?;
        out.extend_from_slice(b"}}")?;
        Ok(out)
    }
}

// The text of an error, where there is one.
fn error_text(error: &Option<String>) -> Option<&str>
    ensures { option_map (λ text. text.now) result ≡ option_map string_bytes error.now }
{
    match error {
        Some(text) => Some(text.as_str()),
        None => None,
    }
}

// Makes room for one more item: where there is none, for a sixteenth more than there are.
fn make_room<T>(items: &mut Vec<T>) -> Result<(), NoMemory>
    ensures items { items.new.items ≡ items.old.items }
    ensures room { OnOk result (vec_len items.new < vec_capacity items.new) }
{
    if items.len() < items.capacity() {
        return Ok(());
    }
    items.reserve_exact(items.len() / 16 + 1)?;
    Ok(())
}
