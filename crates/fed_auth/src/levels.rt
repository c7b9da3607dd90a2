// Power levels, as the state of a room gives them.
ghost use Rattle.std.specs.Prelude.{◌≡◌, is_some, option_map};
ghost use Rattle.fed_json.specs.JsonRef.{seen};

use crate::level::Level;
use fed_json::JsonRef;
use std::marker::Model;

/// The power levels of a room (Client-Server API, "m.room.power_levels"; room version 10, "Authorization rules"): a view of the content
/// of the power levels event, where there is one, and of the creator, where the create event names one. Levels are whole numbers;
/// what stands at the place of a level and is none counts as missing.
///
/// Contracts see it as that content and that creator.
#[derive(Drop)]
pub struct Levels<'a> {
    content: Option<JsonRef<'a>>,
    creator: Option<&'a str>,
}

impl<'a> Model for Levels<'a> {
    ghost use Rattle.std.specs.Prelude.{option_map};
    ghost use Rattle.fed_json.specs.JsonRef.{seen};
    ghost use Rattle.fed_auth.specs.Levels.{LevelsGiven, levels_code};

    ghost Value = { LevelsGiven };

    ghost coded = { levels_code };

    ghost view = { λ l. record { content = option_map seen l.content; creator = option_map (λ s. s.now) l.creator } };
}

impl<'a> Levels<'a> {
    ghost use Rattle.fed_auth.specs.Levels.{user_level, required_level, state_default_level, events_default_level, ban_level, kick_level, redact_level, invite_level, LevelsGiven};

    /// The levels that the content of a power levels event gives, or with none those of a room without one.
    pub fn new(content: Option<JsonRef<'a>>, creator: Option<&'a str>) -> Levels<'a>
        ensures { result ≡ record { content = option_map seen content.entry; creator = option_map (λ s. s.now) creator.entry } }
    {
        Levels { content, creator }
    }

    /// The level of a user: their entry in `users`, else `users_default`, else 0. Without a power levels event the creator has 100.
    #[tactic(auto, unfolding(crate::specs::Levels::user_level))]
    pub fn user(&self, user: &str) -> Level
        ensures { result ≡ user_level self.now user.now }
    {
        if self.content.is_none() {
            return self.first(user);
        }
        let default = self.level_or("users_default", 0);
        self.entry("users", user).unwrap_or(default)
    }

    /// The level that an event of this type needs: the type's entry in `events`, else `state_default` where it has a state key, else
    /// `events_default`.
    #[tactic(auto, unfolding(crate::specs::Levels::required_level))]
    pub fn required(&self, kind: &str, state_key: Option<&str>) -> Level
        ensures { result ≡ required_level self.now kind.now (option_map (λ s. s.now) state_key.entry) }
    {
        let default = if state_key.is_some() {
            self.state_default()
        } else {
            self.events_default()
        };
        self.entry("events", kind).unwrap_or(default)
    }

    /// The level that a state event needs whose type has no entry: 50, and without a power levels event 0.
    pub fn state_default(&self) -> Level
        ensures { result ≡ state_default_level self.now }
    {
        let default = if self.content.is_some() { 50 } else { 0 };
        self.level_or("state_default", default)
    }

    /// The level that an event without state key needs whose type has no entry: 0.
    pub fn events_default(&self) -> Level
        ensures { result ≡ events_default_level self.now }
    {
        self.level_or("events_default", 0)
    }

    /// The level to ban: 50.
    pub fn ban(&self) -> Level
        ensures { result ≡ ban_level self.now }
    {
        self.level_or("ban", 50)
    }

    /// The level to kick: 50.
    pub fn kick(&self) -> Level
        ensures { result ≡ kick_level self.now }
    {
        self.level_or("kick", 50)
    }

    /// The level to redact what others sent: 50.
    pub fn redact(&self) -> Level
        ensures { result ≡ redact_level self.now }
    {
        self.level_or("redact", 50)
    }

    /// The level to invite: 0.
    pub fn invite(&self) -> Level
        ensures { result ≡ invite_level self.now }
    {
        self.level_or("invite", 0)
    }
}

// Parts of the content.
impl<'a> Levels<'a> {
    ghost use Rattle.fed_auth.specs.Levels.{first_level, level_or, level_of, entry_level};

    // The level of a user of a room without a power levels event.
    fn first(&self, user: &str) -> Level
        ensures { result ≡ first_level user.now self.now }
    {
        if self.creator == Some(user) {
            Level::new(100)
        } else {
            Level::new(0)
        }
    }

    // The level of this name, or the default.
    fn level_or(&self, name: &str, default: i64) -> Level
        ensures { result ≡ level_or name.now default self.now }
    {
        self.level(name).unwrap_or(Level::new(default))
    }

    // The level of this name.
    fn level(&self, name: &str) -> Option<Level>
        ensures { result ≡ level_of name.now self.now }
    {
        Level::of_json(self.content?.member(name)?)
    }

    // The level under this name in a group of levels.
    fn entry(&self, group: &str, name: &str) -> Option<Level>
        ensures { result ≡ entry_level group.now name.now self.now }
    {
        Level::of_json(self.content?.member(group)?.member(name)?)
    }
}
