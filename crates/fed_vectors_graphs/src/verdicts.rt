// Verdicts, receipts and rules as words.

use fed_json::NoMemory;
use fed_room_contract::{Receipt, Rule, Verdict};
use std::alloc::Global;

/// The verdict of these words.
pub fn verdict_in(words: &str) -> Option<Verdict> {
    if words == "accepted" {
        return Some(Verdict::Accepted);
    }
    let (word, rule) = words.split_once(' ')?;
    match word {
        "rejected" => Some(Verdict::Rejected(rule_in(rule)?)),
        "soft-failed" => Some(Verdict::SoftFailed(rule_in(rule)?)),
        _ => None,
    }
}

// The rule of this number, as `4.3.2`.
fn rule_in(number: &str) -> Option<Rule> {
    let (section, rest) = number.split_once('.').unwrap_or((number, "0"));
    let (condition, branch) = rest.split_once('.').unwrap_or((rest, "0"));
    Some(Rule {
        section: section.parse().ok()?,
        condition: condition.parse().ok()?,
        branch: branch.parse().ok()?,
    })
}

pub fn verdict_words(alloc: Global, verdict: Verdict) -> Result<String, NoMemory> {
    match verdict {
        Verdict::Accepted => String::from_str(alloc, "accepted"),
        Verdict::Rejected(rule) => format!(in alloc; "rejected {rule}"),
        Verdict::SoftFailed(rule) => format!(in alloc; "soft-failed {rule}"),
    }
}

pub fn receipt_words(alloc: Global, receipt: Receipt) -> Result<String, NoMemory> {
    match receipt {
        Receipt::Stored(verdict) => verdict_words(alloc, verdict),
        Receipt::Known => String::from_str(alloc, "known"),
        Receipt::Waiting => String::from_str(alloc, "waiting"),
        Receipt::Dropped => String::from_str(alloc, "dropped"),
    }
}
