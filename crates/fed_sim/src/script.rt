// The steps that a text names.
ghost use Rattle.std.specs.Prelude.{IfOk, IfErr};
ghost use Rattle.fed_sim.specs.Script.{IsScript, IsNoScriptBy};

mod command;
mod faults;
mod places;
mod reading;
mod sending;
mod step_words;
mod words;

use crate::setup::Setup;
use crate::step::Step;
pub use faults::{ScriptError, ScriptFault};
use reading::Reading;
use std::alloc::Global;

/// What a world begins with, and its steps, by a text with a command a line. Empty lines and lines that begin with `#` are skipped. The
/// words of a line are separated by one space, and none is empty.
///
/// - `servers <name>..` is the first command, and stands there once.
/// - `room <id> <user>..` stands before all that follow.
/// - `send <server> <room> <sender> <type> <key> <content>` offers an event dated 0. A key is `-` for none, or `=` and the state key.
///   The content is the rest of the line.
/// - `edu <server> <type> <servers> <content>` offers an ephemeral data unit to the servers that are named with commas between them.
/// - `close`, `collect`, `cut`, `failed` and `post`, each with a server and another one, the destination, are the steps of these names.
/// - `arrive <packet>` is `Take`, and `answer <packet>` is `Settle`.
/// - `apply <server> <room>`, `tick <ms>`, `calm <rounds>` and `show <server> <origin>` are the steps of these names.
///
/// A number has 1 to 16 digits. The epoch is 1.
///
/// # Errors
///
/// `At` with the first line that is wrong, counted from 1, and what is wrong there. A text without commands has wrong words at line 1.
/// `Memory` where memory ran out before such a line.
pub fn read_script(alloc: Global, text: &[u8]) -> Result<(Setup, Vec<Step>), ScriptFault>
    ensures script { IfOk result (λ read. IsScript text.now read.0 read.1.items) }
    ensures wrong { IfErr result (IsNoScriptBy text.now) }
{
    let mut reading = Reading::new(alloc);
    for (place, line) in text.split(|byte| *byte == b'\n').enumerate() {
        if let Err(fault) = reading.take_line(alloc, line) {
            return Err(fault.at(place as u64 + 1));
        }
    }
    reading.end()
}
