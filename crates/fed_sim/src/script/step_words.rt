// The words of steps.
ghost use Rattle.std.specs.Prelude.{◌≡◌, Ok, Err, IfOk, IfErr};
ghost use Rattle.fed_sim.specs.ScriptSteps.{IsStep, step_text};
ghost use Rattle.fed_sim.specs.ScriptFaults.{HasStepFault};
ghost use Rattle.fed_sim.specs.ScriptTexts.{text_of};

use super::faults::{LineFault, ScriptError};
use super::places::{Pair, place_of};
use super::sending::{EduWords, SendWords};
use super::words::{number_of, two_words};
use crate::step::Step;
use fed_dest::List;
use std::alloc::Global;

/// A step, by its words.
#[derive(Drop)]
pub(crate) enum StepWords<'a> {
    Send(SendWords<'a>),
    Edu(EduWords<'a>),
    Close(Pair<'a>),
    Collect(Pair<'a>),
    Cut(Pair<'a>),
    Failed(Pair<'a>),
    Post(Pair<'a>),
    Arrive { packet: u64 },
    Answer { packet: u64 },
    Apply { server: &'a str, room: &'a str },
    Tick { ms: u64 },
    Calm { rounds: u64 },
    Show(Pair<'a>),
}

impl<'a> StepWords<'a> {
    /// The step that the first word of a line and the rest of it name.
    pub(crate) fn read(name: &str, rest: &'a str) -> Result<StepWords<'a>, ScriptError>
        ensures ok { IfOk result (λ words. step_text name.now rest.now ≡ Ok (text_of words)) }
        ensures wrong { IfErr result (λ fault. step_text name.now rest.now ≡ Err fault) }
    {
        match name {
            "send" => Ok(StepWords::Send(SendWords::read(rest)?)),
            "edu" => Ok(StepWords::Edu(EduWords::read(rest)?)),
            "close" => Ok(StepWords::Close(Pair::read(rest)?)),
            "collect" => Ok(StepWords::Collect(Pair::read(rest)?)),
            "cut" => Ok(StepWords::Cut(Pair::read(rest)?)),
            "failed" => Ok(StepWords::Failed(Pair::read(rest)?)),
            "post" => Ok(StepWords::Post(Pair::read(rest)?)),
            "arrive" => Ok(StepWords::Arrive {
                packet: number_of(rest)?,
            }),
            "answer" => Ok(StepWords::Answer {
                packet: number_of(rest)?,
            }),
            "apply" => {
                let (server, room) = two_words(rest)?;
                Ok(StepWords::Apply { server, room })
            }
            "tick" => Ok(StepWords::Tick {
                ms: number_of(rest)?,
            }),
            "calm" => Ok(StepWords::Calm {
                rounds: number_of(rest)?,
            }),
            "show" => Ok(StepWords::Show(Pair::read(rest)?)),
            _ => Err(ScriptError::UnknownCommand),
        }
    }

    /// The step, among these servers.
    pub(crate) fn step(self, alloc: Global, servers: &List) -> Result<Step, LineFault>
        ensures ok { IfOk result (IsStep servers.now (text_of self.entry)) }
        ensures wrong { IfErr result (HasStepFault servers.now (text_of self.entry)) }
    {
        match self {
            StepWords::Send(words) => words.step(alloc, servers),
            StepWords::Edu(words) => words.step(alloc, servers),
            StepWords::Close(pair) => {
                let (server, dest) = pair.places(servers)?;
                Ok(Step::Close { server, dest })
            }
            StepWords::Collect(pair) => {
                let (server, dest) = pair.places(servers)?;
                Ok(Step::Collect { server, dest })
            }
            StepWords::Cut(pair) => {
                let (server, dest) = pair.places(servers)?;
                Ok(Step::Cut { server, dest })
            }
            StepWords::Failed(pair) => {
                let (server, dest) = pair.places(servers)?;
                Ok(Step::Failed { server, dest })
            }
            StepWords::Post(pair) => {
                let (server, dest) = pair.places(servers)?;
                Ok(Step::Post { server, dest })
            }
            StepWords::Arrive { packet } => Ok(Step::Take { packet }),
            StepWords::Answer { packet } => Ok(Step::Settle { packet }),
            StepWords::Apply { server, room } => Ok(Step::Apply {
                server: place_of(servers, server)?,
                room: String::from_str(alloc, room)?,
            }),
            StepWords::Tick { ms } => Ok(Step::Tick { ms }),
            StepWords::Calm { rounds } => Ok(Step::Calm { rounds }),
            StepWords::Show(pair) => {
                let (server, origin) = pair.places(servers)?;
                Ok(Step::Show { server, origin })
            }
        }
    }
}
