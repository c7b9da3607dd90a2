// What a room makes of an event.
ghost use Rattle.std.specs.Prelude.{◌≡◌};

use crate::rule::Rule;

/// What a room makes of an event that it stores (Server-Server API, "Checks performed on receipt of a PDU", checks 4 to 6).
#[derive(Clone, Copy, Debug, PartialEq, Eq)]
pub enum Verdict {
    /// It passes the authorization rules.
    Accepted,
    /// By this rule it fails them by its auth events or by the state before it.
    Rejected(Rule),
    /// By this rule it fails them by the current state alone.
    SoftFailed(Rule),
}

impl Verdict {
    ghost use Rattle.fed_room_contract.specs.Room.{is_accepted, is_rejection, rule_of};

    /// Whether the event is accepted.
    pub fn is_accepted(self) -> bool
        ensures { result ≡ is_accepted self }
    {
        self.rule().is_none()
    }

    /// Whether the event is rejected: it fails by its auth events or by the state before it.
    pub fn is_rejected(self) -> bool
        ensures { result ≡ is_rejection self }
    {
        matches!(self, Verdict::Rejected(_))
    }

    /// The rule by which the event fails.
    pub fn rule(self) -> Option<Rule>
        ensures { result ≡ rule_of self }
    {
        match self {
            Verdict::Accepted => None,
            Verdict::Rejected(rule) | Verdict::SoftFailed(rule) => Some(rule),
        }
    }
}
