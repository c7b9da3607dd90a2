// The numbers of authorization rules.
ghost use Rattle.std.specs.Prelude.{◌≡◌, Some};

use std::fmt;

/// The number of an authorization rule (room version 10, "Authorization rules"): the rule, a condition of it, and a branch of that
/// condition. A part that is 0 is left away: rule 5 is `5`, and the fourth condition of rule 2 is `2.4`.
#[derive(Clone, Copy, Debug, PartialEq, Eq)]
pub struct Rule {
    pub section: u8,
    pub condition: u8,
    pub branch: u8,
}

impl Rule {
    /// A rule that has no conditions, as `5`.
    pub const fn whole(section: u8) -> Rule
        ensures { result ≡ record { section = section; condition = 0; branch = 0 } }
    {
        Rule {
            section,
            condition: 0,
            branch: 0,
        }
    }

    /// A condition of a rule, as `2.4`.
    pub const fn condition(section: u8, condition: u8) -> Rule
        ensures { result ≡ record { section = section; condition = condition; branch = 0 } }
    {
        Rule {
            section,
            condition,
            branch: 0,
        }
    }

    /// A branch of a condition, as `4.3.7`.
    pub const fn branch(section: u8, condition: u8, branch: u8) -> Rule
        ensures { result ≡ record { section = section; condition = condition; branch = branch } }
    {
        Rule {
            section,
            condition,
            branch,
        }
    }
}

impl fmt::Display for Rule {
    ghost use Rattle.fed_room_contract.specs.Rule.{rule_text};

    ghost output = { λ rule. Some (rule_text rule) };

    fn fmt<W: fmt::Write>(&self, f: &mut fmt::Formatter<W>) -> fmt::Result {
        let Rule {
            section,
            condition,
            branch,
        } = *self;
        if branch != 0 {
            write!(f, "{section}.{condition}.{branch}")
        } else if condition != 0 {
            write!(f, "{section}.{condition}")
        } else {
            write!(f, "{section}")
        }
    }
}
