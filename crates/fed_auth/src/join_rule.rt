// Who may join a room.
ghost use Rattle.std.specs.Prelude.{◌≡◌};
ghost use Rattle.fed_json.specs.JsonRef.{seen};
ghost use Rattle.fed_auth.specs.JoinRule.{join_rule_named, join_rule_in, is_public, is_invite_or_knock, is_restricted, may_knock};

use fed_json::JsonRef;

/// Who may join a room (Client-Server API, "m.room.join_rules"). A `join_rule` that is none of these, or no text, is `Other`.
#[derive(Clone, Copy, Debug, PartialEq, Eq)]
pub enum JoinRule {
    Public,
    Invite,
    Knock,
    Restricted,
    KnockRestricted,
    Other,
}

impl JoinRule {
    /// The join rule of this name.
    pub fn named(name: &str) -> JoinRule
        ensures { result ≡ join_rule_named name.now }
    {
        match name {
            "public" => JoinRule::Public,
            "invite" => JoinRule::Invite,
            "knock" => JoinRule::Knock,
            "restricted" => JoinRule::Restricted,
            "knock_restricted" => JoinRule::KnockRestricted,
            _ => JoinRule::Other,
        }
    }

    /// The `join_rule` of the content of a join rules event.
    #[tactic(auto, unfolding(crate::specs::JoinRule::join_rule_in))]
    pub fn of_content(content: JsonRef<'_>) -> JoinRule
        ensures { result ≡ join_rule_in (seen content.entry) }
    {
        match content.member("join_rule").and_then(|value| value.text()) {
            Some(name) => JoinRule::named(name),
            None => JoinRule::Other,
        }
    }

    /// Whether anyone may join.
    pub fn is_public(self) -> bool
        ensures { result ≡ is_public self }
    {
        matches!(self, JoinRule::Public)
    }

    /// Whether an invited user may join, and no other.
    pub fn is_invite_or_knock(self) -> bool
        ensures { result ≡ is_invite_or_knock self }
    {
        matches!(self, JoinRule::Invite | JoinRule::Knock)
    }

    /// Whether a user may join whom a member authorises.
    pub fn is_restricted(self) -> bool
        ensures { result ≡ is_restricted self }
    {
        matches!(self, JoinRule::Restricted | JoinRule::KnockRestricted)
    }

    /// Whether a user may knock.
    pub fn may_knock(self) -> bool
        ensures { result ≡ may_knock self }
    {
        matches!(self, JoinRule::Knock | JoinRule::KnockRestricted)
    }
}
