// What is counted of two servers that have ended.
ghost use Rattle.std.specs.Prelude.{◌≡◌, ◌^◌, ◌-◌, length, min};
ghost use Rattle.fed_inbox.specs.Taken.{taken_left};
ghost use Rattle.fed_journal.specs.Journal.{events_of};

use fed_inbox::Taken;
use fed_journal::Entry;

/// How many events are among the entries of a journal.
pub(crate) fn events_among(entries: &[Entry]) -> usize
    ensures { result ≡ length (events_of entries.now) }
{
    let mut count = 0;
    for entry in entries {
        if let Entry::Event(..) = entry {
            count += 1;
        }
    }
    count
}

/// How many texts are left, 2^64 - 1 at most.
pub(crate) fn texts_left(texts: Taken<'_>) -> u64
    ensures { result ≡ min (length (taken_left texts.entry)) (2 ^ 64 - 1) }
{
    let mut count = 0u64;
    for _ in texts {
        count = count.saturating_add(1);
    }
    count
}
