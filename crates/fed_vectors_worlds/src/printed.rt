// Calls on what the program prints.

use crate::inboxes::setup;
use fed_app::{inbox_run, sim_run};
use fed_json::Json;
use fed_vectors_call::{Answer, Arguments, Object, text_of_bytes};
use std::alloc::Global;
use std::fmt::Display;

/// What the program prints for lines of transactions.
pub fn run(call: Arguments<'_>) -> Answer {
    let alloc = call.alloc;
    let setup = setup(call)?;
    let input = call.bytes()?;
    let mut output = Vec::new(alloc);
    let end = inbox_run(alloc, input.as_slice(), &mut output, setup);
    ended(alloc, end, &output)
}

/// What the program prints for a script.
pub fn script(call: Arguments<'_>) -> Answer {
    let alloc = call.alloc;
    let input = call.bytes()?;
    let mut output = Vec::new(alloc);
    let end = sim_run(alloc, input.as_slice(), &mut output);
    ended(alloc, end, &output)
}

// How a run ended, and what it wrote.
fn ended<E: Display + Drop>(alloc: Global, end: Result<(), E>, output: &[u8]) -> Answer {
    let end = match end {
        Ok(()) => String::from_str(alloc, "ok")?,
        Err(fault) => format!(in alloc; "{fault}")?,
    };
    Object::new(alloc)
        .with("end", Ok(Json::from(end)))
        .with("output", text_of_bytes(alloc, output))
        .into_answer()
}
