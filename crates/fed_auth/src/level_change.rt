// What a power levels event may change: rule 9 of the authorization rules, by its parts.
ghost use Rattle.std.specs.Prelude.{◌≡◌, [], map, option_map, option_and_then, unwrap_or};
ghost use Rattle.std.specs.List.{list_all, list_any};
ghost use Rattle.serde_json.specs.Find.{get};
ghost use Rattle.fed_json.specs.JsonRef.{seen, as_whole};
ghost use Rattle.fed_json.specs.Members.{members_left};
ghost use Rattle.fed_auth.specs.Levels.{whole_in};
ghost use Rattle.fed_auth.specs.LevelChange.{entries_in, is_other_kind, is_other_group, is_level_entry, is_user_entry, has_other_single, has_other_group, has_other_users, differs, is_above, is_not_below, single_names, is_single_above, has_above, changes_single_above, removes_entry_above, adds_entry_above, removes_user_not_below, adds_user_above};

use crate::level::Level;
use fed_event::is_user_id;
use fed_json::{JsonRef, Members};

// 9.1: one of the levels that stand alone is there and no whole number.
#[tactic(auto, unfolding(crate::specs::LevelChange::has_other_single))]
pub(crate) fn has_other_single(new: JsonRef<'_>) -> bool
    ensures { result ≡ has_other_single (seen new.entry) }
{
    for name in single_levels() {
        if is_other_kind(new, name) {
            return true;
        }
    }
    false
}

// 9.2: `events` or `notifications` is there and no object of whole numbers.
#[tactic(auto, unfolding(crate::specs::LevelChange::has_other_group))]
pub(crate) fn has_other_group(new: JsonRef<'_>) -> bool
    ensures { result ≡ has_other_group (seen new.entry) }
{
    is_other_group(new, "events") || is_other_group(new, "notifications")
}

// 9.3: `users` is there and no object from user ids to whole numbers.
#[tactic(auto, unfolding(crate::specs::LevelChange::has_other_users))]
pub(crate) fn has_other_users(new: JsonRef<'_>) -> bool
    ensures { result ≡ has_other_users (seen new.entry) }
{
    match new.member("users") {
        Some(users) => !users.members().is_some_and(|entries| are_users(entries)),
        None => false,
    }
}

// 9.5: a level that stands alone differs, and the old or the new one is above the sender's level.
#[tactic(auto, unfolding(crate::specs::LevelChange::changes_single_above))]
pub(crate) fn changes_single_above(level: Level, old: JsonRef<'_>, new: JsonRef<'_>) -> bool
    ensures { result ≡ changes_single_above level (seen old.entry) (seen new.entry) }
{
    for name in single_levels() {
        if is_single_above(level, old, new, name) {
            return true;
        }
    }
    false
}

// 9.6: an entry of `events` or `notifications` that was above the sender's level is changed or removed.
#[tactic(auto, unfolding(crate::specs::LevelChange::removes_entry_above))]
pub(crate) fn removes_entry_above(level: Level, old: JsonRef<'_>, new: JsonRef<'_>) -> bool
    ensures { result ≡ removes_entry_above level (seen old.entry) (seen new.entry) }
{
    has_above(level, "events", old, new) || has_above(level, "notifications", old, new)
}

// 9.7: an entry of `events` or `notifications` that is above it is added, or made of another.
#[tactic(auto, unfolding(crate::specs::LevelChange::adds_entry_above))]
pub(crate) fn adds_entry_above(level: Level, old: JsonRef<'_>, new: JsonRef<'_>) -> bool
    ensures { result ≡ adds_entry_above level (seen old.entry) (seen new.entry) }
{
    has_above(level, "events", new, old) || has_above(level, "notifications", new, old)
}

// 9.8: an entry of `users` for another user that was not below the sender's level is changed or removed.
#[tactic(auto, unfolding(crate::specs::LevelChange::removes_user_not_below))]
pub(crate) fn removes_user_not_below(
    level: Level,
    sender: &str,
    old: JsonRef<'_>,
    new: JsonRef<'_>,
) -> bool
    ensures { result ≡ removes_user_not_below level sender.now (seen old.entry) (seen new.entry) }
{
    let Some(entries) = entries_in("users", old) else {
        return false;
    };
    for (user, value) in entries {
        if user != sender
            && is_changed_in("users", new, user, value)
            && is_not_below(level, Level::of_json(value))
        {
            return true;
        }
    }
    false
}

// 9.9: an entry of `users` that is above it is added, or made of another.
#[tactic(auto, unfolding(crate::specs::LevelChange::adds_user_above))]
pub(crate) fn adds_user_above(level: Level, old: JsonRef<'_>, new: JsonRef<'_>) -> bool
    ensures { result ≡ adds_user_above level (seen old.entry) (seen new.entry) }
{
    has_above(level, "users", new, old)
}

// The names of the levels that stand alone: the defaults, and those of actions.
fn single_levels() -> [&'static str; 7]
    ensures { map (λ name. name.now) result ≡ single_names }
{
    [
        "users_default",
        "events_default",
        "state_default",
        "ban",
        "redact",
        "kick",
        "invite",
    ]
}

// Whether the level of this name is there and no whole number.
fn is_other_kind(content: JsonRef<'_>, name: &str) -> bool
    ensures { result ≡ is_other_kind (seen content.entry) name.now }
{
    content
        .member(name)
        .is_some_and(|value| value.whole().is_none())
}

// Whether the group of this name is there and no object of whole numbers.
fn is_other_group(content: JsonRef<'_>, group: &str) -> bool
    ensures { result ≡ is_other_group is_level_entry (seen content.entry) group.now }
{
    match content.member(group) {
        Some(value) => !value.members().is_some_and(|entries| are_levels(entries)),
        None => false,
    }
}

fn are_levels(entries: Members<'_>) -> bool
    ensures { result ≡ list_all is_level_entry (members_left entries.entry) }
{
    for (_, value) in entries {
        if value.whole().is_none() {
            return false;
        }
    }
    true
}

fn are_users(entries: Members<'_>) -> bool
    ensures { result ≡ list_all is_user_entry (members_left entries.entry) }
{
    for (user, value) in entries {
        if !is_user_id(user) || value.whole().is_none() {
            return false;
        }
    }
    true
}

// Whether the level of this name differs, and the old or the new one is above the sender's level.
#[tactic(auto, unfolding(crate::specs::LevelChange::is_single_above))]
fn is_single_above(level: Level, old: JsonRef<'_>, new: JsonRef<'_>, name: &str) -> bool
    ensures { result ≡ is_single_above level (seen old.entry) (seen new.entry) name.now }
{
    let was = level_in(name, old);
    let is = level_in(name, new);
    was != is && (is_above(level, was) || is_above(level, is))
}

// Whether some entry of the group in the one content is not in the other and above the sender's level.
#[tactic(auto, unfolding(crate::specs::LevelChange::has_above))]
fn has_above(level: Level, group: &str, one: JsonRef<'_>, other: JsonRef<'_>) -> bool
    ensures { result ≡ has_above level group.now (seen one.entry) (seen other.entry) }
{
    let Some(entries) = entries_in(group, one) else {
        return false;
    };
    for (name, value) in entries {
        if is_changed_in(group, other, name, value) && is_above(level, Level::of_json(value)) {
            return true;
        }
    }
    false
}

// Whether the other content has another level than this or none in its place.
fn is_changed_in(group: &str, other: JsonRef<'_>, name: &str, value: JsonRef<'_>) -> bool
    ensures { result ≡ differs (as_whole (seen value.entry)) (option_and_then (whole_in name.now) (get group.now (seen other.entry))) }
{
    let there = other.member(group).and_then(|group| level_in(name, group));
    Level::of_json(value) != there
}

// The entries of a group.
fn entries_in<'a>(group: &str, content: JsonRef<'a>) -> Option<Members<'a>>
    ensures { unwrap_or (option_map members_left result) [] ≡ entries_in group.now (seen content.entry) }
{
    content.member(group)?.members()
}

fn level_in(name: &str, value: JsonRef<'_>) -> Option<Level>
    ensures { result ≡ whole_in name.now (seen value.entry) }
{
    Level::of_json(value.member(name)?)
}

fn is_above(level: Level, value: Option<Level>) -> bool
    ensures { result ≡ is_above level value }
{
    value.is_some_and(|value| level < value)
}

fn is_not_below(level: Level, value: Option<Level>) -> bool
    ensures { result ≡ is_not_below level value }
{
    value.is_some_and(|value| level <= value)
}
