// What holds of a board between any two steps, and what each step tells who makes it.
use atomic_table::{Join, Play, Split, TableRule};
use std::collections::LinkedList;

/// The words from `from` up to, and without, `until`, each of which is `count`. No value of it is made.
pub struct Owned {
    pub from: usize,
    pub until: usize,
    pub count: u64,
}

/// What a seat knows: the words that it owns, the last value that it found in each word, and how often it loaded one. No value of it is
/// made.
pub struct Look {
    pub owned: Owned,
    pub seen: LinkedList<u64>,
    pub loads: u64,
}

/// The rule of a board, whose key is the number of its words.
pub struct Counts;

impl TableRule<(), Look, usize> for Counts {
    ghost use Rattle.fed_wires.specs.BoardRule.{Counted, all_words};

    ghost holds = { Counted };

    ghost first = { all_words };
}

// A load, by any seat.
pub(crate) struct Loads;

impl Play<(), Look> for Loads {
    ghost use Rattle.fed_wires.specs.BoardRule.{Loaded};

    ghost then = { Loaded };
}

// The owner of a word raises it.
pub(crate) struct Raises;

impl Play<(), Look> for Raises {
    ghost use Rattle.fed_wires.specs.BoardRule.{Raised};

    ghost then = { Raised };
}

// A new seat owns the first of the words that a seat owns.
pub(crate) struct Deal;

impl Split<Look> for Deal {
    ghost use Rattle.fed_wires.specs.BoardRule.{without_first, first_alone};

    ghost left = { without_first };

    ghost right = { first_alone };
}

// A new seat that owns no word.
pub(crate) struct Admit;

impl Split<Look> for Admit {
    ghost use Rattle.fed_wires.specs.BoardRule.{looker};

    ghost left = { λ v. v };

    ghost right = { λ v. looker v.seen 0 };
}

// A seat that owns a word takes in what another has seen.
pub(crate) struct Judge;

impl Join<Look> for Judge {
    ghost use Rattle.std.specs.Prelude.{[]};
    ghost use Rattle.fed_wires.specs.BoardRule.{look, looker};

    ghost both = { λ v w. look v.owned w.seen v.loads };

    ghost spent = { looker [] 0 };
}

// A seat takes in what another owns.
pub(crate) struct Own;

impl Join<Look> for Own {
    ghost use Rattle.std.specs.Prelude.{[]};
    ghost use Rattle.fed_wires.specs.BoardRule.{look, looker};

    ghost both = { λ v w. look w.owned v.seen v.loads };

    ghost spent = { looker [] 0 };
}

// A seat ends.
pub(crate) struct End;

impl Join<Look> for End {
    ghost use Rattle.std.specs.Prelude.{[]};
    ghost use Rattle.fed_wires.specs.BoardRule.{looker};

    ghost both = { λ v w. v };

    ghost spent = { looker [] 0 };
}
