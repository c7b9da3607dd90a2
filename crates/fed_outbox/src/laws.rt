// What holds of all outboxes, over every list of calls.
ghost use Rattle.std.specs.Prelude.{◌≡◌, ◌≢◌, ◌≤◌, ◌<◌, ◌+◌, ◌*◌, ℕ, List, [], ◌∷◌, ◌++◌, Some, None, length, map, true, false};
ghost use Rattle.std.specs.Option.{option_to_list};
ghost use Rattle.serde_json.specs.Data.{Data};
ghost use Rattle.fed_event.specs.Checked.{CheckedEvent};
ghost use Rattle.fed_journal.specs.declared.parcel.Parcel.{Parcel};
ghost use Rattle.fed_journal.specs.declared.entry.Entry.{Entry};
ghost use Rattle.fed_journal.specs.Journal.{numbered, parcels, addressed, addressed_edus};
ghost use Rattle.fed_journal.specs.Queues.{queue_after};
ghost use Rattle.fed_outbox.specs.Transaction.{TransactionValue};
ghost use Rattle.fed_outbox.specs.Outbox.{OutboxState, new_outbox, accepted, accepted_edus, expected, unanswered_pdus, unanswered_edus, is_unanswered, fits, cut, failed, delay};
ghost use Rattle.fed_outbox.specs.Collecting.{Way, collected};
ghost use Rattle.fed_outbox.specs.Following.{Follows};
ghost use Rattle.fed_outbox.specs.Together.{HoldsTogether};
ghost use Rattle.fed_outbox.specs.Accepted.{HasAccepted};
ghost use Rattle.fed_outbox.specs.Runs.{Call, Settle, after_call, after, accepted_by, accepted_parcels, events_of, edus_of, places_from, settles};

use fed_journal::{places_count, what_an_entry_places, what_is_addressed_is_placed};

/// What a parcel holds that an outbox accepts comes behind all that was accepted before, and the next number is one more; no other
/// call changes what was accepted, or the next number.
pub fn what_accept_adds()
    ensures events { (o : OutboxState) (call : Call) (parcel : Parcel) → accepted_by o call ≡ Some parcel
        → accepted (after_call o call) ≡ accepted o ++ events_of (parcel ∷ []) }
    ensures edus { (o : OutboxState) (call : Call) (parcel : Parcel) → accepted_by o call ≡ Some parcel
        → accepted_edus (after_call o call) ≡ accepted_edus o ++ edus_of (parcel ∷ []) }
    ensures number { (o : OutboxState) (call : Call) (parcel : Parcel) → accepted_by o call ≡ Some parcel
        → expected (after_call o call) ≡ expected o + 1 }
    ensures others { (o : OutboxState) (call : Call) → accepted_by o call ≡ None
        → (accepted (after_call o call) ≡ accepted o) × (accepted_edus (after_call o call) ≡ accepted_edus o) × (expected (after_call o call) ≡ expected o) }
{}

/// The parcels that a new outbox accepts over any calls have the places of its destination from number 1 on, in order and without a
/// gap, and what was accepted is what they hold, in order.
pub fn accepted_places_have_no_gap()
    ensures places { (d : ℕ) (calls : List Call) → let parcels = accepted_parcels (new_outbox d) calls in
        map (λ parcel. parcel.place) parcels ≡ places_from d 1 (length parcels) }
    ensures parcels { (d : ℕ) (calls : List Call) → let parcels = accepted_parcels (new_outbox d) calls in
        parcels ≡ numbered d 0 (map (λ parcel. parcel.load) parcels) }
    ensures events { (d : ℕ) (calls : List Call) → accepted (after (new_outbox d) calls) ≡ events_of (accepted_parcels (new_outbox d) calls) }
    ensures edus { (d : ℕ) (calls : List Call) → accepted_edus (after (new_outbox d) calls) ≡ edus_of (accepted_parcels (new_outbox d) calls) }
    ensures number { (d : ℕ) (calls : List Call) → expected (after (new_outbox d) calls) ≡ length (accepted_parcels (new_outbox d) calls) + 1 }
    ensures dest { (d : ℕ) (calls : List Call) → (after (new_outbox d) calls).dest ≡ d }
{}

/// A new outbox has accepted no parcel; a call adds the parcel that it makes the outbox accept, if any, behind those before.
pub fn what_was_accepted()
    ensures new { (d : ℕ) → HasAccepted d [] (new_outbox d) }
    ensures call { (d : ℕ) (parcels : List Parcel) (o : OutboxState) (call : Call) → HasAccepted d parcels o
        → HasAccepted d (parcels ++ option_to_list (accepted_by o call)) (after_call o call) }
    ensures calls { (d : ℕ) (calls : List Call) → HasAccepted d (accepted_parcels (new_outbox d) calls) (after (new_outbox d) calls) }
{}

/// The unanswered transaction stays, with its number and all that it has, until it is answered with 200: so what is sent again is the
/// same. While it stays a cut changes nothing.
pub fn the_unanswered_stays()
    ensures stays { (o : OutboxState) (call : Call) (t : TransactionValue) → o.unanswered ≡ Some t → ((now : ℕ) → call ≢ Settle t.number 200 now)
        → (after_call o call).unanswered ≡ Some t }
    ensures cut { (o : OutboxState) (now : ℕ) → is_unanswered o.unanswered ≡ true → cut o now ≡ o }
{}

/// What is settled stays, and grows only by what the unanswered transaction has, by an answer of 200 to that one.
pub fn what_is_settled_stays()
    ensures settled { (o : OutboxState) (call : Call) → settles o call ≡ true
        → ((after_call o call).settled ≡ o.settled ++ unanswered_pdus o.unanswered) × ((after_call o call).settled_edus ≡ o.settled_edus ++ unanswered_edus o.unanswered) }
    ensures others { (o : OutboxState) (call : Call) → settles o call ≡ false
        → ((after_call o call).settled ≡ o.settled) × ((after_call o call).settled_edus ≡ o.settled_edus) }
    ensures events { (o : OutboxState) (calls : List Call) → (more : List CheckedEvent) × ((after o calls).settled ≡ o.settled ++ more) }
    ensures edus { (o : OutboxState) (calls : List Call) → (more : List Data) × ((after o calls).settled_edus ≡ o.settled_edus ++ more) }
{}

/// Over any calls of a new outbox the unanswered transaction is the newest, with at most 50 events and 100 EDUs and at least one of
/// them; at most 13 failures are counted; where none is unanswered nothing is due and no failure is counted; and there are no more
/// transactions than events and EDUs that were sent.
pub fn outboxes_hold_together()
    ensures new { (d : ℕ) → HoldsTogether (new_outbox d) }
    ensures call { (o : OutboxState) (call : Call) → HoldsTogether o → HoldsTogether (after_call o call) }
    ensures calls { (o : OutboxState) (calls : List Call) → HoldsTogether o → HoldsTogether (after o calls) }
    ensures runs { (d : ℕ) (calls : List Call) → HoldsTogether (after (new_outbox d) calls) }
{}

/// The delay after a failure is a second, doubles with each further failure in a row, and is an hour from the thirteenth on.
pub fn delays_double_up_to_an_hour()
    ensures first { delay 1 ≡ 1000 }
    ensures doubled { (failures : ℕ) → 0 < failures → failures < 12 → delay (failures + 1) ≡ 2 * delay failures }
    ensures twelfth { delay 12 ≡ 2048000 }
    ensures most { (failures : ℕ) → 13 ≤ failures → delay failures ≡ 3600000 }
    ensures counted { (o : OutboxState) (n now : ℕ) → o.failures ≡ 13 → (failed o n now).failures ≡ 13 }
{}

/// What is placed for a destination goes, in order and each parcel once, through the queue into the outbox: what was placed is at all times
/// what the outbox has accepted, and then what the queue holds. So the first parcel of a queue always comes next, and what was addressed
/// to the destination is what was accepted, and then what the queue holds; once an end was accepted nothing waits in the queue, and all
/// that was addressed was accepted.
pub fn nothing_is_lost_on_the_way()
    ensures new { (d : ℕ) → Follows d (parcels [] d) (record { queue = []; outbox = new_outbox d }) }
    ensures entered { (d : ℕ) (entries : List Entry) (entry : Entry) (way : Way) → Follows d (parcels entries d) way
        → Follows d (parcels (entries ++ entry ∷ []) d) (record { queue = queue_after entries entry d way.queue; outbox = way.outbox }) }
    ensures next { (d : ℕ) (entries : List Entry) (parcel : Parcel) (later : List Parcel) (o : OutboxState)
        → Follows d (parcels entries d) (record { queue = parcel ∷ later; outbox = o }) → fits o parcel.place ≡ true }
    ensures collected { (d : ℕ) (entries : List Entry) (way : Way) → Follows d (parcels entries d) way → Follows d (parcels entries d) (collected way) }
    ensures others { (d : ℕ) (placed : List Parcel) (way : Way) (call : Call) → accepted_by way.outbox call ≡ None → Follows d placed way
        → Follows d placed (record { queue = way.queue; outbox = after_call way.outbox call }) }
    ensures events { (d : ℕ) (entries : List Entry) (way : Way) → Follows d (parcels entries d) way
        → addressed entries d ≡ accepted way.outbox ++ events_of way.queue }
    ensures edus { (d : ℕ) (entries : List Entry) (way : Way) → Follows d (parcels entries d) way
        → addressed_edus entries d ≡ accepted_edus way.outbox ++ edus_of way.queue }
    ensures accepted { (d : ℕ) (entries : List Entry) (way : Way) → Follows d (parcels entries d) way
        → (front : List Parcel) × ((parcels entries d ≡ front ++ way.queue) × HasAccepted d front way.outbox) }
    ensures ended { (d : ℕ) (entries : List Entry) (way : Way) → Follows d (parcels entries d) way → way.outbox.has_end ≡ true
        → (way.queue ≡ []) × ((accepted way.outbox ≡ addressed entries d) × (accepted_edus way.outbox ≡ addressed_edus entries d)) }
{
    what_an_entry_places();
    what_is_addressed_is_placed();
    places_count();
}
