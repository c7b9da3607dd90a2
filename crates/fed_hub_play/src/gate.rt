// A clock that a script moves, and that notes what it was asked.
ghost use Rattle.std.specs.Prelude.{◌≡◌, ◌≤◌};

use fed_dest::ServerIndex;
use fed_hub::Gate;
use std::alloc::{AllocError, Global};
use std::mem;

/// A clock that stands at 0, but for pauses, which it passes at once; with a note of each transaction that was brought, and of each pause.
#[derive(Drop)]
pub(crate) struct NotingGate {
    clock: Clock,
    notes: Notes,
}

#[derive(Drop)]
struct Clock {
    moment: u64,
    ghost within: { moment ≤ 9007199254740991 },
}

#[derive(Drop)]
struct Notes {
    alloc: Global,
    text: String,
}

impl NotingGate {
    pub(crate) fn new(alloc: Global) -> NotingGate {
        NotingGate {
            clock: Clock { moment: 0 },
            notes: Notes {
                alloc,
                text: String::new(alloc),
            },
        }
    }

    /// What was noted since this was asked last.
    pub(crate) fn notes(&mut self) -> String {
        let none = String::new(self.notes.alloc);
        mem::replace(&mut self.notes.text, none)
    }
}

impl Notes {
    fn add(&mut self, word: &str, number: u64) {
        let Ok(note) = note(self.alloc, word, number) else {
            return;
        };
        if !self.text.is_empty() {
            let _ = self.text.push_str(", ");
        }
        let _ = self.text.push_str(&note);
    }
}

fn note(alloc: Global, word: &str, number: u64) -> Result<String, AllocError> {
    format!(in alloc; "{word} {number}")
}

impl Gate for NotingGate {
    ghost moment = { λ g. g.clock.moment };

    fn now(&mut self) -> u64 {
        self.clock.moment
    }

    fn before(&mut self, _dest: ServerIndex, n: u64) {
        self.notes.add("transaction", n);
    }

    fn pause(&mut self, until: u64) {
        self.notes.add("pause until", until);
        self.clock.moment = until.min(9_007_199_254_740_991);
    }
}
