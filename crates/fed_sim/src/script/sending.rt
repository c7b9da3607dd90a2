// The words of what is sent.
ghost use Rattle.std.specs.Prelude.{◌≡◌, ◌<◌, Some, None, IfOk, IfErr, option_map, option_copied, string_bytes};
ghost use Rattle.fed_sim.specs.ScriptSteps.{IsStep, edu_of, send_words, edu_words};
ghost use Rattle.fed_sim.specs.ScriptFaults.{HasStepFault};
ghost use Rattle.fed_sim.specs.ScriptTexts.{send_text, edu_text};
ghost use Rattle.fed_sim.specs.declared.script.faults.ScriptError.TheVariants.{WrongWords};
ghost use Rattle.serde_json.specs.Data.{depth};
ghost use Rattle.serde_json.specs.Read.{max_depth};

use super::faults::{LineFault, ScriptError};
use super::places::{is_named, place_of, set_of};
use super::words::{first_word, state_key_of, whole_rest};
use crate::step::Step;
use fed_dest::List;
use fed_json::{Json, MAX_LEVELS, NoMemory, read_within};
use fed_room_contract::Draft;
use std::alloc::Global;

/// An event that a user of a server sends, by its words.
#[derive(Clone, Copy)]
pub(crate) struct SendWords<'a> {
    server: &'a str,
    room: &'a str,
    sender: &'a str,
    kind: &'a str,
    state_key: Option<&'a str>,
    content: &'a str,
}

impl<'a> SendWords<'a> {
    /// The words of a line behind the name of the command.
    pub(crate) fn read(rest: &'a str) -> Result<SendWords<'a>, ScriptError>
        ensures ok { IfOk result (λ words. send_words rest.now ≡ Some (send_text words)) }
        ensures wrong { IfErr result (λ fault. (fault ≡ WrongWords) × (send_words rest.now ≡ None)) }
    {
        let (server, rest) = first_word(rest)?;
        let (room, rest) = first_word(rest)?;
        let (sender, rest) = first_word(rest)?;
        let (kind, rest) = first_word(rest)?;
        let (key, rest) = first_word(rest)?;
        Ok(SendWords {
            server,
            room,
            sender,
            kind,
            state_key: state_key_of(key)?,
            content: whole_rest(rest)?,
        })
    }

    /// The step, among these servers.
    pub(crate) fn step(self, alloc: Global, servers: &List) -> Result<Step, LineFault>
        ensures ok { IfOk result (IsStep servers.now (send_text self.entry)) }
        ensures wrong { IfErr result (HasStepFault servers.now (send_text self.entry)) }
    {
        let server = place_of(servers, self.server)?;
        let content = read_within(alloc, self.content.as_bytes(), MAX_LEVELS)?;
        let draft = Draft {
            room: String::from_str(alloc, self.room)?,
            sender: String::from_str(alloc, self.sender)?,
            kind: String::from_str(alloc, self.kind)?,
            state_key: kept(alloc, self.state_key)?,
            content,
            at_ms: 0,
        };
        Ok(Step::Offer { server, draft })
    }
}

/// An ephemeral data unit that a server sends, by its words.
#[derive(Clone, Copy)]
pub(crate) struct EduWords<'a> {
    server: &'a str,
    kind: &'a str,
    dests: &'a str,
    content: &'a str,
}

impl<'a> EduWords<'a> {
    /// The words of a line behind the name of the command.
    pub(crate) fn read(rest: &'a str) -> Result<EduWords<'a>, ScriptError>
        ensures ok { IfOk result (λ words. edu_words rest.now ≡ Some (edu_text words)) }
        ensures wrong { IfErr result (λ fault. (fault ≡ WrongWords) × (edu_words rest.now ≡ None)) }
    {
        let (server, rest) = first_word(rest)?;
        let (kind, rest) = first_word(rest)?;
        let (dests, rest) = first_word(rest)?;
        let content = whole_rest(rest)?;
        if is_named(dests, server) {
            return Err(ScriptError::WrongWords);
        }
        Ok(EduWords {
            server,
            kind,
            dests,
            content,
        })
    }

    /// The step, among these servers.
    pub(crate) fn step(self, alloc: Global, servers: &List) -> Result<Step, LineFault>
        ensures ok { IfOk result (IsStep servers.now (edu_text self.entry)) }
        ensures wrong { IfErr result (HasStepFault servers.now (edu_text self.entry)) }
    {
        let server = place_of(servers, self.server)?;
        let dests = set_of(alloc, servers, self.dests)?;
        // The object nests one level more than its content.
        let content = read_within(alloc, self.content.as_bytes(), MAX_LEVELS - 1)?;
        let edu = edu_of(alloc, self.kind, content)?;
        Ok(Step::OfferEdu { server, edu, dests })
    }
}

// A text that may be missing, to keep.
fn kept(alloc: Global, text: Option<&str>) -> Result<Option<String>, NoMemory>
    ensures { IfOk result (λ kept. option_map string_bytes kept ≡ option_copied text.entry) }
{
    match text {
        Some(text) => Ok(Some(String::from_str(alloc, text)?)),
        None => Ok(None),
    }
}

// The ephemeral data unit of this type and content.
fn edu_of(alloc: Global, kind: &str, content: Json) -> Result<Json, NoMemory>
    requires { depth content < max_depth }
    ensures { IfOk result (λ edu. edu ≡ edu_of kind.now content) }
{
    let kind = Json::from(String::from_str(alloc, kind)?);
    let mut edu = Json::empty_object(alloc);
    edu.put(String::from_str(alloc, "content")?, content)?;
    edu.put(String::from_str(alloc, "edu_type")?, kind)?;
    Ok(edu)
}
