// What rule 9 makes of a power levels event.
ghost use Rattle.std.specs.Prelude.{◌≡◌, option_map};
ghost use Rattle.fed_json.specs.JsonRef.{seen};
ghost use Rattle.fed_auth.specs.Table.{decide};
ghost use Rattle.fed_auth.specs.PowerRules.{power_table};

use crate::level::Level;
use crate::level_change::{
    adds_entry_above, adds_user_above, changes_single_above, has_other_group, has_other_single,
    has_other_users, removes_entry_above, removes_user_not_below,
};
use fed_json::JsonRef;
use fed_room_contract::Rule;

/// Whether a sender of this level may replace the content of the power levels event, where there is one, by a new one (rule 9).
///
/// # Errors
///
/// 9.1 to 9.3 where the new content is malformed, 9.5 to 9.9 where a change is above the sender's level.
#[tactic(auto, unfolding(crate::specs::PowerRules::power_table))]
pub(crate) fn allow_levels(
    level: Level,
    sender: &str,
    old: Option<JsonRef<'_>>,
    new: JsonRef<'_>,
) -> Result<(), Rule>
    ensures { result ≡ decide (power_table level sender.now (option_map seen old.entry) (seen new.entry)) }
{
    if has_other_single(new) {
        return Err(Rule::condition(9, 1));
    }
    if has_other_group(new) {
        return Err(Rule::condition(9, 2));
    }
    if has_other_users(new) {
        return Err(Rule::condition(9, 3));
    }
    let Some(old) = old else {
        return Ok(());
    };
    if changes_single_above(level, old, new) {
        return Err(Rule::condition(9, 5));
    }
    if removes_entry_above(level, old, new) {
        return Err(Rule::condition(9, 6));
    }
    if adds_entry_above(level, old, new) {
        return Err(Rule::condition(9, 7));
    }
    if removes_user_not_below(level, sender, old, new) {
        return Err(Rule::condition(9, 8));
    }
    if adds_user_above(level, old, new) {
        return Err(Rule::condition(9, 9));
    }
    Ok(())
}
