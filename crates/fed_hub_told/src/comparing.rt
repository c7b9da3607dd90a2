// Numbered things, compared with what was noted of them.
ghost use Rattle.std.specs.Prelude.{◌≡◌, ◌↔◌, ℕ, Bool, List, IsTrue, IfOk, IsSomeAnd, MatchBool, map, option_map};
ghost use Rattle.fed_hub_told.specs.AsTold.{AreAsTold};
ghost use Rattle.fed_hub_told.specs.Marking.{IsMarked};
ghost use Rattle.fed_hub_told.specs.Numbers.{numbered};

use crate::marks::Marks;
use crate::note::Note;
use fed_json::NoMemory;
use std::alloc::Global;

/// Whether things are as all were told who hold notes of them: the numbers that each holder noted rise; over all holders they are those from 1
/// to the count of the things, each once; and the thing of each number is the one that the note is of. `told` has the notes of each holder.
///
/// Its steps are linear in the count of the things and of the notes, beside those of `Note::is_of`.
///
/// # Errors
///
/// `NoMemory`, where the marks or a note has no memory.
pub fn are_as_told<X, N: Note<X>>(
    alloc: Global,
    told: &[&[N]],
    things: &[X],
) -> Result<bool, NoMemory>
    ensures { IfOk result (λ are. IsTrue are ↔ AreAsTold N.number N.IsOf things.now (map (λ notes. notes.now) told.now)) }
{
    let mut marks = Marks::new(alloc, things.len())?;
    for notes in told {
        if !mark_notes(notes, things, &mut marks)? {
            return Ok(false);
        }
    }
    Ok(marks.all_marked())
}

// Marks the numbers that one holder noted, and says whether the things are as it was told.
fn mark_notes<X, N: Note<X>>(notes: &[N], things: &[X], marks: &mut Marks) -> Result<bool, NoMemory>
    ensures { IfOk result (λ is. MatchBool is
        (IsMarked N.number N.IsOf things.now notes.now marks.old marks.new)
        ((after : List Bool) → ¬ IsMarked N.number N.IsOf things.now notes.now marks.old after)) }
{
    if !notes.is_sorted_by(|note, next| note.number() < next.number()) {
        return Ok(false);
    }
    for note in notes {
        if !marks.mark(note.number()) || !is_among(note, things)? {
            return Ok(false);
        }
    }
    Ok(true)
}

// Whether the thing of a note's number is the one that the note is of.
fn is_among<X, N: Note<X>>(note: &N, things: &[X]) -> Result<bool, NoMemory>
    ensures { IfOk result (λ is. IsTrue is ↔ IsSomeAnd (numbered things.now (N.number note.now)) (N.IsOf note.now)) }
{
    match at_number(things, note.number()) {
        Some(thing) => note.is_of(thing),
        None => Ok(false),
    }
}

// The thing of a number, from 1.
fn at_number<X>(things: &[X], number: u64) -> Option<&X>
    ensures { option_map (λ thing. thing.now) result ≡ numbered things.now number }
{
    let place = number.checked_sub(1)?;
    things.get(place as usize)
}
