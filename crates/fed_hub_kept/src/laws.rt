// What holds of an outbox that is of a journal.
ghost use Rattle.std.specs.Prelude.{◌≡◌, ◌+◌, ℕ, List, take, true};
ghost use Rattle.std.specs.List.{filter_map, list_any};
ghost use mathlib.Core.List.{IsPrefix};
ghost use Rattle.fed_journal.specs.declared.entry.Entry.{Entry};
ghost use Rattle.fed_journal.specs.Journal.{addressed, addressed_edus, loads, placed};
ghost use Rattle.fed_journal.specs.Loads.{event_in_load, edu_in_load, is_end};
ghost use Rattle.fed_outbox.specs.Outbox.{OutboxState, new_outbox, accepted, accepted_edus, accepted_count, expected};
ghost use Rattle.fed_hub_kept.specs.OfJournal.{IsOfJournal};

use fed_outbox::nothing_is_lost_on_the_way;

/// An outbox that has accepted nothing is of every journal. What an outbox of a journal accepted is held by as many of the first loads that were
/// placed for its destination. So its events are the first of those that are addressed to the destination, and its EDUs likewise; and once an end
/// was accepted they are all of them, and all that was ever placed for the destination was accepted.
pub fn outboxes_of_a_journal()
    ensures new { (entries : List Entry) (d : ℕ) → IsOfJournal entries (new_outbox d) }
    ensures loads { (entries : List Entry) (o : OutboxState) → IsOfJournal entries o → let front = take (accepted_count o) (loads entries o.dest) in
        (accepted o ≡ filter_map event_in_load front) × ((accepted_edus o ≡ filter_map edu_in_load front) × (o.has_end ≡ list_any is_end front)) }
    ensures events { (entries : List Entry) (o : OutboxState) → IsOfJournal entries o → IsPrefix (accepted o) (addressed entries o.dest) }
    ensures edus { (entries : List Entry) (o : OutboxState) → IsOfJournal entries o → IsPrefix (accepted_edus o) (addressed_edus entries o.dest) }
    ensures ended { (entries : List Entry) (o : OutboxState) → IsOfJournal entries o → o.has_end ≡ true
        → (accepted o ≡ addressed entries o.dest) × ((accepted_edus o ≡ addressed_edus entries o.dest) × (expected o ≡ placed entries o.dest + 1)) }
{
    nothing_is_lost_on_the_way();
}
