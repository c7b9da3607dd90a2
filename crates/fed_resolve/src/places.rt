// Sets of places as marks: one for each place.
ghost use Rattle.std.specs.Prelude.{◌≡◌, ◌<◌, ℕ, List, Bool, ◌||◌, ◌&&◌, not, All, IfOk, length};
ghost use Rattle.fed_room_contract.specs.declared.graph.Stored.{Stored};
ghost use Rattle.fed_resolve.specs.Chain.{members};
ghost use Rattle.fed_resolve.specs.Marks.{AreMarks};
ghost use Rattle.fed_resolve.specs.ChainParts.{is_marked, or_among};

use fed_json::NoMemory;
use std::alloc::Global;

// Marks also what others mark.
pub(crate) fn add_marks(marks: &mut [bool], others: &[bool])
    requires { length marks.old ≡ length others.now }
    ensures { AreMarks (length others.now) (λ place. is_marked marks.old place || is_marked others.now place) marks.new }
{
    for (place, other) in others.iter().enumerate() {
        if *other {
            marks[place] = true;
        }
    }
}

// Marks some places.
pub(crate) fn mark_all(places: &[usize], marks: &mut [bool])
    requires { All (λ place. place < length marks.old) places.now }
    ensures { AreMarks (length marks.old) (or_among places.now marks.old) marks.new }
{
    for place in places {
        marks[*place] = true;
    }
}

// Leaves the marks that others have too.
pub(crate) fn keep_marks(marks: &mut [bool], others: &[bool])
    requires { length marks.old ≡ length others.now }
    ensures { AreMarks (length others.now) (λ place. is_marked marks.old place && is_marked others.now place) marks.new }
{
    for (place, other) in others.iter().enumerate() {
        if !*other {
            marks[place] = false;
        }
    }
}

// Takes away the marks that others have.
pub(crate) fn remove_marks(marks: &mut [bool], others: &[bool])
    requires { length marks.old ≡ length others.now }
    ensures { AreMarks (length others.now) (λ place. is_marked marks.old place && not (is_marked others.now place)) marks.new }
{
    for (place, other) in others.iter().enumerate() {
        if *other {
            marks[place] = false;
        }
    }
}

/// The places that are marked, in their order.
///
/// # Errors
///
/// `NoMemory`.
pub fn members(alloc: Global, marks: &[bool]) -> Result<Vec<usize>, NoMemory>
    ensures members { IfOk result (λ places. (events : List Stored) (test : ℕ → Bool) → AreMarks (length events) test marks.now → places.items ≡ members events test) }
    ensures within { IfOk result (λ places. All (λ place. place < length marks.now) places.items) }
{
    let mut places = Vec::new(alloc);
    for (place, mark) in marks.iter().enumerate() {
        if *mark {
            places.push(place)?;
        }
    }
    Ok(places)
}
