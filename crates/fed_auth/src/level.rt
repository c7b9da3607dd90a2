// Power levels.
ghost use Rattle.std.specs.Prelude.{◌≡◌};
ghost use Rattle.fed_json.specs.JsonRef.{seen, as_whole};

use fed_json::JsonRef;
use std::marker::Model;

/// A power level (Client-Server API, "m.room.power_levels"): a whole number. Contracts see it as that number.
#[derive(Clone, Copy, Debug, PartialEq, Eq, PartialOrd, Ord)]
pub struct Level(i64);

impl Model for Level {
    ghost use Rattle.std.specs.Prelude.{ℤ};

    ghost Value = { ℤ };

    ghost view = { λ level. level.0 };

    ghost inverse = { λ number. record { 0 = number } };
}

impl Level {
    /// The level of this number.
    pub fn new(number: i64) -> Level
        ensures { result ≡ number }
    {
        Level(number)
    }

    /// The number.
    pub fn number(self) -> i64
        ensures { result ≡ self }
    {
        self.0
    }

    /// The level that a value is, where it is a whole number.
    pub fn of_json(value: JsonRef<'_>) -> Option<Level>
        ensures { result ≡ as_whole (seen value.entry) }
    {
        Some(Level(value.whole()?))
    }
}
