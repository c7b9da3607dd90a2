// The lines of a script, one after another.
ghost use Rattle.std.specs.Prelude.{◌≡◌, None, IfOk, IfErr, OnOk, map, string_bytes};
ghost use Rattle.std.specs.List.{All};
ghost use Rattle.fed_dest.specs.ServerName.{IsServerName};
ghost use Rattle.fed_sim.specs.Script.{is_skipped, nothing, servers, room, step, IsRoom, IsSaid, Says, Takes, words_in};
ghost use Rattle.fed_sim.specs.ScriptReadings.{command_of, said_by, IsWrongThere, HasLineFault, AreNoNames};
ghost use Rattle.fed_sim.specs.ScriptTexts.{text_of};
ghost use Rattle.fed_sim.specs.declared.script.faults.ScriptError.TheVariants.{WrongWords};

use super::command::Command;
use super::faults::{LineFault, ScriptError, ScriptFault};
use super::step_words::StepWords;
use crate::setup::{RoomSetup, Setup};
use crate::setup_check::{list_of, room_fault};
use crate::step::Step;
use fed_dest::{List, ServerName};
use fed_json::NoMemory;
use std::alloc::Global;

/// The first part of the number of every transaction.
const EPOCH: u64 = 1;

/// What the lines of a script have said so far. The servers are listed from the first command on.
#[derive(Drop)]
pub(crate) struct Reading {
    names: Vec<ServerName>,
    listed: Option<List>,
    rooms: Vec<RoomSetup>,
    steps: Vec<Step>,
}

impl Reading {
    /// Before the first line.
    pub(crate) fn new(alloc: Global) -> Reading
        ensures { said_by result ≡ nothing }
    {
        Reading {
            names: Vec::new(alloc),
            listed: None,
            rooms: Vec::new(alloc),
            steps: Vec::new(alloc),
        }
    }

    /// Takes a line without its newline.
    pub(crate) fn take_line(&mut self, alloc: Global, line: &[u8]) -> Result<(), LineFault>
        ensures ok { OnOk result (Takes (said_by self.old) line.now (said_by self.new)) }
        ensures wrong { IfErr result (HasLineFault (said_by self.old) line.now) }
    {
        if is_skipped(line) {
            return Ok(());
        }
        let command = Command::read(line)?;
        self.take_command(alloc, command)
    }

    /// What all lines said.
    pub(crate) fn end(self) -> Result<(Setup, Vec<Step>), ScriptFault>
        ensures ok { IfOk result (λ read. IsSaid (said_by self) read.0 read.1.items) }
        ensures none { IfErr result (λ fault. (fault ≡ ScriptFault.At 1 WrongWords) × (self.listed ≡ None)) }
    {
        let Reading {
            names,
            listed,
            rooms,
            steps,
        } = self;
        if listed.is_none() {
            return Err(ScriptFault::At {
                line: 1,
                what: ScriptError::WrongWords,
            });
        }
        let setup = Setup {
            servers: names,
            rooms,
            epoch: EPOCH,
        };
        Ok((setup, steps))
    }

    // Takes a command.
    fn take_command(&mut self, alloc: Global, command: Command<'_>) -> Result<(), LineFault>
        ensures ok { OnOk result (Says (said_by self.old) (command_of command.entry) (said_by self.new)) }
        ensures wrong { IfErr result (IsWrongThere (said_by self.old) (command_of command.entry)) }
    {
        match command {
            Command::Servers { names } => self.take_servers(alloc, names),
            Command::Room { id, users } => self.take_room(alloc, id, users),
            Command::Step(words) => self.take_step(alloc, words),
        }
    }

    // Takes the servers, which are the first command.
    fn take_servers(&mut self, alloc: Global, names: &str) -> Result<(), LineFault>
        ensures ok { OnOk result (Says (said_by self.old) (servers (words_in names.now)) (said_by self.new)) }
        ensures wrong { IfErr result (IsWrongThere (said_by self.old) (servers (words_in names.now))) }
    {
        if self.listed.is_some() {
            return Err(LineFault::Wrong(ScriptError::WrongWords));
        }
        let names = names_of(alloc, names)?;
        self.listed = Some(list_of(alloc, &names)?);
        self.names = names;
        Ok(())
    }

    // Takes a room, which stands before the first step.
    fn take_room(&mut self, alloc: Global, id: &str, users: &str) -> Result<(), LineFault>
        ensures ok { OnOk result (Says (said_by self.old) (room id.now (words_in users.now)) (said_by self.new)) }
        ensures wrong { IfErr result (IsWrongThere (said_by self.old) (room id.now (words_in users.now))) }
    {
        let Some(servers) = &self.listed else {
            return Err(LineFault::Wrong(ScriptError::WrongWords));
        };
        if !self.steps.is_empty() {
            return Err(LineFault::Wrong(ScriptError::WrongWords));
        }
        let room = room_of(alloc, id, users)?;
        if let Some(fault) = room_fault(&room, &self.rooms, servers.names()) {
            return Err(LineFault::from(fault));
        }
        self.rooms.push(room)?;
        Ok(())
    }

    // Takes a step.
    fn take_step(&mut self, alloc: Global, words: StepWords<'_>) -> Result<(), LineFault>
        ensures ok { OnOk result (Says (said_by self.old) (step (text_of words.entry)) (said_by self.new)) }
        ensures wrong { IfErr result (IsWrongThere (said_by self.old) (step (text_of words.entry))) }
    {
        let Some(servers) = &self.listed else {
            return Err(LineFault::Wrong(ScriptError::WrongWords));
        };
        let step = words.step(alloc, servers)?;
        self.steps.push(step)?;
        Ok(())
    }
}

// Whether a line is empty or a comment.
fn is_skipped(line: &[u8]) -> bool
    ensures { result ≡ is_skipped line.now }
{
    line.is_empty() || line.starts_with(b"#")
}

// The room of this id and these users.
fn room_of(alloc: Global, id: &str, users: &str) -> Result<RoomSetup, NoMemory>
    ensures { IfOk result (IsRoom id.now (words_in users.now)) }
{
    Ok(RoomSetup {
        id: String::from_str(alloc, id)?,
        users: texts_of(alloc, users)?,
    })
}

// The names of servers, which have a space between them.
fn names_of(alloc: Global, text: &str) -> Result<Vec<ServerName>, LineFault>
    ensures ok { IfOk result (λ names. names.items ≡ words_in text.now) }
    ensures names { OnOk result (All IsServerName (words_in text.now)) }
    ensures bad { IfErr result (AreNoNames (words_in text.now)) }
{
    let mut names = Vec::new(alloc);
    for name in text.split(' ') {
        names.push(ServerName::read(alloc, name)?)?;
    }
    Ok(names)
}

// The words that have a space between them.
fn texts_of(alloc: Global, text: &str) -> Result<Vec<String>, NoMemory>
    ensures { IfOk result (λ texts. map string_bytes texts.items ≡ words_in text.now) }
{
    let mut texts = Vec::new(alloc);
    for word in text.split(' ') {
        texts.push(String::from_str(alloc, word)?)?;
    }
    Ok(texts)
}
