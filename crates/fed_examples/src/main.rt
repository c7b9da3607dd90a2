//! The program `fed_examples`: runs the scripts of `examples/`, and tells of each whether it prints what is written beside it.
#![tactic(auto)]

use fed_app::sim_run;
use std::alloc::Global;
use std::fs::File;
use std::{fs, io};

/// The scripts, `NAME.sim` each with its output `NAME.out`.
const NAMES: [&str; 7] = [
    "lost_answer",
    "late_request",
    "ban_against_topic",
    "closed_outbox",
    "leaving_and_joining",
    "calm_rounds",
    "calm_after_losses",
];

fn main(rt: HostRuntime) -> io::Result<()> {
    for name in NAMES {
        let told = if prints(&rt, name)? {
            "as written"
        } else {
            "differs"
        };
        println!(rt; "{name}: {told}")?;
    }
    Ok(())
}

// Whether a script prints what is written beside it.
fn prints(rt: &HostRuntime, name: &str) -> io::Result<bool> {
    let alloc = rt.alloc();
    let script = File::open(rt, &file_name(alloc, name, ".sim")?)?;
    let expected = fs::read(rt, &file_name(alloc, name, ".out")?)?;
    let mut output = Vec::new(alloc);
    match sim_run(alloc, script, &mut output) {
        Ok(()) => Ok(output.as_slice() == expected.as_slice()),
        Err(fault) => {
            println!(rt; "{name}: {fault}")?;
            Ok(false)
        }
    }
}

// The name of a file.
fn file_name(alloc: Global, name: &str, ending: &str) -> io::Result<String> {
    let mut file = String::from_str(alloc, name)?;
    file.push_str(ending)?;
    Ok(file)
}
