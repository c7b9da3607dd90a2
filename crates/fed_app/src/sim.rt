// A script in, what its commands answered out.
ghost use Rattle.std.specs.Prelude.{◌≡◌, ◌≤◌, ◌*◌, length, IfOk, OnOk, IfSome};
ghost use Rattle.fed_app.specs.SimEnd.{IsSimEnd};

use crate::input::Input;
use crate::lines::MAX_READS;
use crate::sim_fault::SimRunFault;
use crate::sim_lines::Lines;
use fed_sim::{Step, World, begin, read_script, run_on};
use std::alloc::Global;
use std::io;
use std::io::{Read, Write};

/// Reads a script to its end, runs it, and writes a line for each of its commands. The line of a step is written and flushed when the step is made, and
/// before the next one is.
///
/// # Errors
///
/// - `At` with the first line of the script that is wrong, counted from 1, and what is wrong there, as `fed_sim::read_script` tells it; and with line 1 and
///   wrong words where no world begins with what the script says. Then nothing is written.
/// - `Io` where a read or a write fails, a writer takes nothing, or the input was read `MAX_READS` times; `Memory` where there is no
///   memory for the script, for the beginning of its world or for the lines. What was written is a front of the lines, and no later step is made.
pub fn sim_run<R: Read + Drop, W: Write>(
    alloc: Global,
    reader: R,
    writer: &mut W,
) -> Result<(), SimRunFault>
    ensures end { IfSome (R.remaining reader) (λ input. IsSimEnd input (W.contents writer.old) (W.contents writer.new) result) }
    ensures limit { OnOk result (IfSome (R.remaining reader) (λ input. length input ≤ MAX_READS * 65536)) }
{
    let text = whole_text(alloc, reader)?;
    let (setup, steps) = read_script(alloc, &text)?;
    let world = begin(alloc, &setup)?;
    write_lines(alloc, world, 1 + setup.rooms.len(), &steps, writer)?;
    Ok(())
}

// All bytes of a reader.
fn whole_text<R: Read + Drop>(alloc: Global, reader: R) -> io::Result<Vec<u8>>
    ensures text { IfOk result (λ text. IfSome (R.remaining reader) (λ input. text.items ≡ input)) }
    ensures limit { OnOk result (IfSome (R.remaining reader) (λ input. length input ≤ MAX_READS * 65536)) }
{
    let mut input = Input::new(alloc, reader, MAX_READS)?;
    let mut text = Vec::new(alloc);
    input.read_rest(&mut text)?;
    Ok(text)
}

// Writes the lines of a script, each as soon as what it tells is done: so many commands tell what the world begins with, and each of the others is a step.
fn write_lines<W: Write>(
    alloc: Global,
    world: World,
    beginnings: usize,
    steps: &[Step],
    writer: &mut W,
) -> io::Result<()> {
    let mut lines = Lines::new(alloc, writer);
    lines.write_oks(beginnings)?;
    run_on(alloc, world, steps, &mut lines)?;
    Ok(())
}
