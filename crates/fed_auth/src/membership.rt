// What a member event makes of a user.
ghost use Rattle.std.specs.Prelude.{◌≡◌};
ghost use Rattle.fed_json.specs.JsonRef.{seen};
ghost use Rattle.fed_auth.specs.Membership.{membership_named, membership_in, is_joined, is_banned, is_invited_or_joined, is_knocking};

use fed_json::JsonRef;

/// What a member event makes of a user (Client-Server API, "m.room.member"). A user without member event, and one whose
/// `membership` is none of these or no text, is `Other`.
#[derive(Clone, Copy, Debug, PartialEq, Eq)]
pub enum Membership {
    Join,
    Invite,
    Leave,
    Ban,
    Knock,
    Other,
}

impl Membership {
    /// The membership of this name.
    pub fn named(name: &str) -> Membership
        ensures { result ≡ membership_named name.now }
    {
        match name {
            "join" => Membership::Join,
            "invite" => Membership::Invite,
            "leave" => Membership::Leave,
            "ban" => Membership::Ban,
            "knock" => Membership::Knock,
            _ => Membership::Other,
        }
    }

    /// The `membership` of the content of a member event.
    #[tactic(auto, unfolding(crate::specs::Membership::membership_in))]
    pub fn of_content(content: JsonRef<'_>) -> Membership
        ensures { result ≡ membership_in (seen content.entry) }
    {
        match content.member("membership").and_then(|value| value.text()) {
            Some(name) => Membership::named(name),
            None => Membership::Other,
        }
    }

    /// Whether the user is in the room.
    pub fn is_joined(self) -> bool
        ensures { result ≡ is_joined self }
    {
        matches!(self, Membership::Join)
    }

    /// Whether the user is banned.
    pub fn is_banned(self) -> bool
        ensures { result ≡ is_banned self }
    {
        matches!(self, Membership::Ban)
    }

    /// Whether the user is invited or in the room.
    pub fn is_invited_or_joined(self) -> bool
        ensures { result ≡ is_invited_or_joined self }
    {
        matches!(self, Membership::Invite | Membership::Join)
    }

    /// Whether the user knocks.
    pub fn is_knocking(self) -> bool
        ensures { result ≡ is_knocking self }
    {
        matches!(self, Membership::Knock)
    }
}
