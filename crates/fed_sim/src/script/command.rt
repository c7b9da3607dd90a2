// Commands of a script.
ghost use Rattle.std.specs.Prelude.{◌≡◌, Ok, Err, IfOk, IfErr};
ghost use Rattle.std.specs.List.{before_first, after_first};
ghost use Rattle.fed_sim.specs.Script.{command_text, line_text};
ghost use Rattle.fed_sim.specs.ScriptWords.{is_space};
ghost use Rattle.fed_sim.specs.ScriptReadings.{command_of};

use super::faults::ScriptError;
use super::step_words::StepWords;
use super::words::first_word;

/// A command of a script, by its words.
#[derive(Drop)]
pub(crate) enum Command<'a> {
    /// The servers, by names with a space between them.
    Servers { names: &'a str },
    /// A room, by its id and its users with a space between them.
    Room { id: &'a str, users: &'a str },
    /// A step.
    Step(StepWords<'a>),
}

impl<'a> Command<'a> {
    /// The command of a line. What needs the list of servers or memory is not looked at.
    pub(crate) fn read(line: &'a [u8]) -> Result<Command<'a>, ScriptError>
        ensures ok { IfOk result (λ command. line_text line.now ≡ Ok (command_of command)) }
        ensures wrong { IfErr result (λ fault. line_text line.now ≡ Err fault) }
    {
        let Ok(line) = std::str::from_utf8(line) else {
            return Err(ScriptError::WrongWords);
        };
        let (name, rest) = name_and_rest(line);
        Command::named(name, rest)
    }

    // The command of this name.
    fn named(name: &str, rest: &'a str) -> Result<Command<'a>, ScriptError>
        ensures ok { IfOk result (λ command. command_text name.now rest.now ≡ Ok (command_of command)) }
        ensures wrong { IfErr result (λ fault. command_text name.now rest.now ≡ Err fault) }
    {
        match name {
            "servers" => Ok(Command::Servers { names: rest }),
            "room" => {
                let (id, users) = first_word(rest)?;
                Ok(Command::Room { id, users })
            }
            _ => Ok(Command::Step(StepWords::read(name, rest)?)),
        }
    }
}

// The name of the command of a line, and what stands behind it.
fn name_and_rest(line: &str) -> (&str, &str)
    ensures name { result.0.now ≡ before_first is_space line.now }
    ensures rest { result.1.now ≡ after_first is_space line.now }
{
    match line.split_once(' ') {
        Some((name, rest)) => (name, rest),
        None => (line, ""),
    }
}
