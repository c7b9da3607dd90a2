// What redaction keeps, by the version of the room.
ghost use Rattle.std.specs.Prelude.{◌≡◌, Some, [], ◌&&◌, not, map, option_map};
ghost use Rattle.fed_redaction.specs.Names.{is_one_of};
ghost use Rattle.fed_redaction.specs.declared.version.Version.TheVariants.{V10, V11};
ghost use Rattle.fed_redaction.specs.Version.{event_keys, members_under};
ghost use Rattle.fed_redaction.specs.Redaction.{kept_of, stays_whole};
ghost use Rattle.fed_redaction.specs.EventId.{unsigned_keys};
ghost use Rattle.fed_redaction.specs.TextsParts.{kept_by};

use crate::version::Version;

static CREATE: [&str; 1] = ["creator"];

static HISTORY_VISIBILITY: [&str; 1] = ["history_visibility"];

static JOIN_RULES: [&str; 2] = ["allow", "join_rule"];

static MEMBER: [&str; 2] = ["join_authorised_via_users_server", "membership"];

static MEMBER_SIGNED: [&str; 1] = ["third_party_invite"];

static POWER_LEVELS_10: [&str; 8] = [
    "ban",
    "events",
    "events_default",
    "kick",
    "redact",
    "state_default",
    "users",
    "users_default",
];

static POWER_LEVELS_11: [&str; 9] = [
    "ban",
    "events",
    "events_default",
    "invite",
    "kick",
    "redact",
    "state_default",
    "users",
    "users_default",
];

static REDACTION: [&str; 1] = ["redacts"];

// What redaction keeps of a content: all of it, or the members under `keys`, and of an object under one of `signed` its `signed` alone.
#[derive(Clone, Copy)]
pub(crate) struct ContentRule {
    pub(crate) all: bool,
    pub(crate) keys: &'static [&'static str],
    pub(crate) signed: &'static [&'static str],
}

impl ContentRule {
    // The rule that keeps the members under these keys.
    fn members_under(keys: &'static [&'static str]) -> ContentRule
        ensures { kept_by result ≡ members_under (map (λ key. key.now) keys.now) }
    {
        ContentRule {
            all: false,
            keys,
            signed: &[],
        }
    }

    // The rule that keeps no member.
    fn nothing() -> ContentRule
        ensures { kept_by result ≡ members_under [] }
    {
        ContentRule {
            all: false,
            keys: &[],
            signed: &[],
        }
    }

    // Whether a member stays as it is.
    pub(crate) fn keeps(self, name: &str) -> bool
        ensures { result ≡ stays_whole (kept_by self) name.now }
    {
        self.all || is_among(self.keys, name)
    }

    // Whether of an object under the name its `signed` stays, where the member does not stay as it is.
    pub(crate) fn keeps_signed(self, name: &str) -> bool
        ensures { result ≡ is_one_of (kept_by self).signed name.now }
    {
        is_among(self.signed, name)
    }
}

// Whether redaction keeps the top-level key.
pub(crate) fn is_kept(version: Version, name: &str) -> bool
    ensures { result ≡ is_one_of (event_keys version) name.now }
{
    match version {
        Version::V10 => is_kept_in_10(name),
        Version::V11 => is_kept_in_11(name),
    }
}

fn is_kept_in_10(name: &str) -> bool
    ensures { result ≡ is_one_of (event_keys V10) name.now }
{
    matches!(
        name,
        "auth_events"
            | "content"
            | "depth"
            | "event_id"
            | "hashes"
            | "membership"
            | "origin"
            | "origin_server_ts"
            | "prev_events"
            | "prev_state"
            | "room_id"
            | "sender"
            | "signatures"
            | "state_key"
            | "type"
    )
}

fn is_kept_in_11(name: &str) -> bool
    ensures { result ≡ is_one_of (event_keys V11) name.now }
{
    matches!(
        name,
        "auth_events"
            | "content"
            | "depth"
            | "event_id"
            | "hashes"
            | "origin_server_ts"
            | "prev_events"
            | "room_id"
            | "sender"
            | "signatures"
            | "state_key"
            | "type"
    )
}

// Whether the top-level key is signed.
pub(crate) fn is_signed(version: Version, name: &str) -> bool
    ensures { result ≡ (is_one_of (event_keys version) name.now && not (is_one_of unsigned_keys name.now)) }
{
    is_kept(version, name) && name != "signatures" && name != "unsigned"
}

// What redaction keeps of the content, by the type of the event.
pub(crate) fn content_rule(version: Version, kind: Option<&str>) -> ContentRule
    ensures { kept_by result ≡ kept_of version (option_map (λ s. s.now) kind.entry) }
{
    let Some(kind) = kind else {
        return ContentRule::nothing();
    };
    match version {
        Version::V10 => rule_in_10(kind),
        Version::V11 => rule_in_11(kind),
    }
}

fn rule_in_10(kind: &str) -> ContentRule
    ensures { kept_by result ≡ kept_of V10 (Some kind.now) }
{
    match kind {
        "m.room.create" => ContentRule::members_under(&CREATE),
        "m.room.history_visibility" => ContentRule::members_under(&HISTORY_VISIBILITY),
        "m.room.join_rules" => ContentRule::members_under(&JOIN_RULES),
        "m.room.member" => ContentRule::members_under(&MEMBER),
        "m.room.power_levels" => ContentRule::members_under(&POWER_LEVELS_10),
        _ => ContentRule::nothing(),
    }
}

fn rule_in_11(kind: &str) -> ContentRule
    ensures { kept_by result ≡ kept_of V11 (Some kind.now) }
{
    match kind {
        "m.room.create" => ContentRule {
            all: true,
            keys: &[],
            signed: &[],
        },
        "m.room.history_visibility" => ContentRule::members_under(&HISTORY_VISIBILITY),
        "m.room.join_rules" => ContentRule::members_under(&JOIN_RULES),
        "m.room.member" => ContentRule {
            all: false,
            keys: &MEMBER,
            signed: &MEMBER_SIGNED,
        },
        "m.room.power_levels" => ContentRule::members_under(&POWER_LEVELS_11),
        "m.room.redaction" => ContentRule::members_under(&REDACTION),
        _ => ContentRule::nothing(),
    }
}

// Whether the name is one of these keys.
pub(crate) fn is_among(keys: &[&str], name: &str) -> bool
    ensures { result ≡ is_one_of (map (λ key. key.now) keys.now) name.now }
{
    keys.contains(&name)
}
