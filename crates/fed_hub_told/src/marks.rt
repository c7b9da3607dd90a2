// Marks for numbers.
ghost use Rattle.std.specs.Prelude.{◌≡◌, ℕ, Bool, ◌↔◌, IsTrue, Some, None, List, IfOk};
ghost use Rattle.fed_hub_told.specs.Numbers.{AreEachOnce};
ghost use Rattle.fed_hub_told.specs.Marks.{no_marks, is_free, with_mark, are_all_marked, marks_after};

use fed_json::NoMemory;
use std::alloc::Global;
use std::marker::Model;

/// Marks for the numbers from 1 to a count, by which one sees that each of them comes once.
///
/// Contracts see, for each number in turn, whether it is marked.
#[derive(Drop)]
pub struct Marks {
    marked: Vec<bool>,
}

impl Model for Marks {
    ghost use Rattle.std.specs.Prelude.{Bool, List};
    ghost use Rattle.std.specs.Coded.{coded_bool, coded_list};

    ghost Value = { List Bool };

    ghost coded = { coded_list coded_bool };

    ghost view = { λ m. m.marked.items };
}

impl Marks {
    /// Marks for the numbers from 1 to a count, of which none is marked.
    ///
    /// # Errors
    ///
    /// `NoMemory`.
    pub fn new(alloc: Global, count: usize) -> Result<Marks, NoMemory>
        ensures { IfOk result (λ marks. marks ≡ no_marks count) }
    {
        let marked = vec![in alloc; false; count]?;
        Ok(Marks { marked })
    }

    /// Marks a number, and says whether that was possible: not where it is 0 or beyond the count, nor where it was marked before. It takes no
    /// memory.
    pub fn mark(&mut self, number: u64) -> bool
        ensures free { result ≡ is_free self.old number }
        ensures marks { self.new ≡ with_mark self.old number }
    {
        if number == 0 || number > self.marked.len() as u64 {
            return false;
        }
        let place = (number - 1) as usize;
        if self.marked[place] {
            return false;
        }
        self.marked[place] = true;
        true
    }

    /// Whether all numbers are marked. It takes no memory.
    pub fn all_marked(&self) -> bool
        ensures { result ≡ are_all_marked self.now }
    {
        self.marked.iter().all(|is_marked| *is_marked)
    }
}

/// Where numbers are marked one after another, among those from 1 to a count, and in the end all are marked, they are these, each once. Where
/// one of them could not be marked, or one is not marked in the end, they are not.
pub fn what_marks_tell()
    ensures all { (n : ℕ) (numbers : List ℕ) (marks : List Bool) → marks_after (no_marks n) numbers ≡ Some marks
        → (IsTrue (are_all_marked marks) ↔ AreEachOnce n numbers) }
    ensures refused { (n : ℕ) (numbers : List ℕ) → marks_after (no_marks n) numbers ≡ None → ¬ AreEachOnce n numbers }
{}
