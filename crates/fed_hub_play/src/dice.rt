// Numbers by a seed.

/// Numbers that follow from a seed: a linear congruential generator's upper bits, with Knuth's multiplier.
#[derive(Clone, Copy)]
pub(crate) struct Dice {
    state: u64,
}

impl Dice {
    pub(crate) fn new(seed: u64, part: u64) -> Dice {
        let mut dice = Dice {
            state: seed.wrapping_mul(64).wrapping_add(part),
        };
        dice.throw();
        dice
    }

    /// The next number, below 2^31.
    pub(crate) fn throw(&mut self) -> u64 {
        self.state = self
            .state
            .wrapping_mul(6_364_136_223_846_793_005)
            .wrapping_add(1_442_695_040_888_963_407);
        self.state >> 33
    }
}

impl Dice {
    /// No seed was given yet.
    pub(crate) fn none() -> Dice {
        Dice { state: 0 }
    }

    /// Whether no seed was given yet.
    pub(crate) fn is_unused(&self) -> bool {
        self.state == 0
    }
}
