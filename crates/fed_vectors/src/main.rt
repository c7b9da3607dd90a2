//! The program `fed_vectors`: calls of the library, a JSON object a line in, and their answers, a line a line out. docs/VECTORS.md says
//! which calls there are. It has no logic of its own: it reads arguments, makes the call and prints what the call gives.
//!
//! - `lines`: from the line of a call to the line of its answer, and which call a name names
#![tactic(auto)]

mod lines;

use lines::answer_line;
use std::alloc::Global;
use std::io;
use std::io::{BufRead, BufReader, Write};
use std::process::ExitCode;

// What is printed where there is no memory for a call or its answer.
const OUT_OF_MEMORY: &[u8] = b"{\"error\":\"out of memory\"}";

fn main(rt: HostRuntime) -> io::Result<ExitCode> {
    match answer_lines(&rt) {
        Ok(()) => Ok(ExitCode::SUCCESS),
        Err(error) => {
            eprintln!(rt; "fed_vectors: {error}")?;
            Ok(ExitCode::from(1))
        }
    }
}

fn answer_lines(rt: &HostRuntime) -> io::Result<()> {
    let alloc = rt.alloc();
    let mut output = rt.stdout();
    for line in BufReader::new(alloc, rt.stdin())?.split(alloc, b'\n') {
        let line = line?;
        if !line.is_empty() && !line.starts_with(b"#") {
            write_answer(alloc, &mut output, &line)?;
        }
    }
    Ok(())
}

fn write_answer<W: Write>(alloc: Global, output: &mut W, line: &[u8]) -> io::Result<()> {
    match answer_line(alloc, line) {
        Ok(answer) => output.write_all(&answer)?,
        Err(_) => output.write_all(OUT_OF_MEMORY)?,
    }
    output.write_all(b"\n")
}
