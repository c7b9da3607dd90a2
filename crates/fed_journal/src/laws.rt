// What holds of all journals.
ghost use Rattle.std.specs.Prelude.{◌≡◌, ◌≢◌, ◌≤◌, ◌+◌, ◌||◌, ℕ, List, [], ◌∷◌, ◌++◌, length, Some, None, true, slice_get, if◌then◌else◌};
ghost use Rattle.std.specs.List.{filter_map, list_any};
ghost use Rattle.std.specs.Option.{option_map, option_to_list};
ghost use Rattle.fed_journal.specs.declared.entry.Cause.{Cause};
ghost use Rattle.fed_journal.specs.declared.entry.Cause.TheVariants.{Asked, Lost};
ghost use Rattle.fed_journal.specs.declared.entry.Entry.{Entry};
ghost use Rattle.fed_journal.specs.declared.entry.Entry.TheVariants.{Close};
ghost use Rattle.fed_journal.specs.declared.offered.Offered.{Offered};
ghost use Rattle.fed_journal.specs.declared.parcel.Load.TheVariants.{End};
ghost use Rattle.fed_journal.specs.declared.parcel.Parcel.{Parcel};
ghost use Rattle.fed_journal.specs.Place.{PlaceValue};
ghost use Rattle.fed_dest.specs.ServerSet.{is_among};
ghost use Rattle.fed_journal.specs.Journal.{closes, is_closed, event_for, edu_for, event_in, edu_in, events_of, edus_of, load_for, addressed, addressed_edus, loads, placed, next_place, parcels};
ghost use Rattle.fed_journal.specs.Loads.{event_in_load, edu_in_load, is_end};
ghost use Rattle.fed_journal.specs.Offered.{entry_of, load_of};
ghost use Rattle.fed_journal.specs.Queues.{parcel_after, parcel_to, placed_beyond};

/// One more entry adds, at the end of what is addressed to a destination and placed for it, what it gives that destination; where the
/// outbox is closed it adds nothing.
pub fn what_one_more_entry_adds()
    ensures closed { (entries : List Entry) (entry : Entry) (d : ℕ)
        → is_closed (entries ++ entry ∷ []) d ≡ (is_closed entries d || closes d entry) }
    ensures addressed { (entries : List Entry) (entry : Entry) (d : ℕ) → addressed (entries ++ entry ∷ []) d
        ≡ (if is_closed entries d then addressed entries d else addressed entries d ++ filter_map (event_for d) (entry ∷ [])) }
    ensures edus { (entries : List Entry) (entry : Entry) (d : ℕ) → addressed_edus (entries ++ entry ∷ []) d
        ≡ (if is_closed entries d then addressed_edus entries d else addressed_edus entries d ++ filter_map (edu_for d) (entry ∷ [])) }
    ensures loads { (entries : List Entry) (entry : Entry) (d : ℕ) → loads (entries ++ entry ∷ []) d
        ≡ (if is_closed entries d then loads entries d else loads entries d ++ filter_map (load_for d) (entry ∷ [])) }
    ensures placed { (entries : List Entry) (entry : Entry) (d : ℕ) → placed (entries ++ entry ∷ []) d
        ≡ (if is_closed entries d then placed entries d else placed entries d + length (filter_map (load_for d) (entry ∷ []))) }
    ensures all_events { (entries : List Entry) (entry : Entry) → events_of (entries ++ entry ∷ []) ≡ events_of entries ++ option_to_list (event_in entry) }
    ensures all_edus { (entries : List Entry) (entry : Entry) → edus_of (entries ++ entry ∷ []) ≡ edus_of entries ++ option_to_list (edu_in entry) }
{}

/// The events among what was placed for a destination, in the order of the places, are the events addressed to it, and the EDUs
/// likewise.
pub fn what_is_addressed_is_placed()
    ensures events { (entries : List Entry) (d : ℕ) → filter_map event_in_load (loads entries d) ≡ addressed entries d }
    ensures edus { (entries : List Entry) (d : ℕ) → filter_map edu_in_load (loads entries d) ≡ addressed_edus entries d }
{}

/// Once an outbox is closed no parcel is placed for its destination, and nothing is addressed to it, whatever entries follow.
pub fn nothing_after_the_close()
    ensures place { (entries : List Entry) (d : ℕ) → is_closed entries d ≡ true → next_place entries d ≡ None }
    ensures closed { (entries more : List Entry) (d : ℕ) → is_closed entries d ≡ true → is_closed (entries ++ more) d ≡ true }
    ensures addressed { (entries more : List Entry) (d : ℕ) → is_closed entries d ≡ true
        → addressed (entries ++ more) d ≡ addressed entries d }
    ensures edus { (entries more : List Entry) (d : ℕ) → is_closed entries d ≡ true
        → addressed_edus (entries ++ more) d ≡ addressed_edus entries d }
    ensures loads { (entries more : List Entry) (d : ℕ) → is_closed entries d ≡ true → loads (entries ++ more) d ≡ loads entries d }
{}

/// An entry places at most one parcel for a destination. The parcels bear the numbers from 1 on in their order, and the next one bears
/// the next number.
pub fn places_count()
    ensures within { (entries : List Entry) (d : ℕ) → placed entries d ≤ length entries }
    ensures next { (entries : List Entry) (d : ℕ) (place : PlaceValue) → next_place entries d ≡ Some place
        → (place.dest ≡ d) × (place.number ≡ placed entries d + 1) }
    ensures numbers { (entries : List Entry) (d k : ℕ) → slice_get (parcels entries d) k
        ≡ option_map (λ load. record { place = record { dest = d; number = k + 1 }; load = load }) (slice_get (loads entries d) k) }
{}

/// Closing one outbox leaves all others: whether they are closed, what is addressed to their destinations, and their parcels and places.
pub fn a_close_leaves_the_others()
    ensures closed { (entries : List Entry) (dest : ℕ) (cause : Cause) (d : ℕ) → d ≢ dest
        → is_closed (entries ++ Close dest cause ∷ []) d ≡ is_closed entries d }
    ensures addressed { (entries : List Entry) (dest : ℕ) (cause : Cause) (d : ℕ) → d ≢ dest
        → addressed (entries ++ Close dest cause ∷ []) d ≡ addressed entries d }
    ensures edus { (entries : List Entry) (dest : ℕ) (cause : Cause) (d : ℕ) → d ≢ dest
        → addressed_edus (entries ++ Close dest cause ∷ []) d ≡ addressed_edus entries d }
    ensures parcels { (entries : List Entry) (dest : ℕ) (cause : Cause) (d : ℕ) → d ≢ dest
        → parcels (entries ++ Close dest cause ∷ []) d ≡ parcels entries d }
    ensures place { (entries : List Entry) (dest : ℕ) (cause : Cause) (d : ℕ) → d ≢ dest
        → next_place (entries ++ Close dest cause ∷ []) d ≡ next_place entries d }
{}

/// One more entry adds to the parcels that were placed for a destination the one that it places, if it places one, and none is placed
/// behind an end. What is offered places a parcel at the next place of each of its destinations whose outbox is open; closing an outbox
/// that is open places the end there where it was asked for, and nothing where the outbox was lost.
pub fn what_an_entry_places()
    ensures parcels { (entries : List Entry) (entry : Entry) (d : ℕ)
        → parcels (entries ++ entry ∷ []) d ≡ parcels entries d ++ option_to_list (parcel_after entries entry d) }
    ensures end { (entries : List Entry) (d : ℕ) (before after : List Parcel) → parcels entries d ≡ before ++ after
        → list_any (λ parcel. is_end parcel.load) before ≡ true → after ≡ [] }
    ensures beyond { (entries : List Entry) (entry : Entry) (d : ℕ)
        → placed_beyond entries (entries ++ entry ∷ []) d ≡ option_to_list (parcel_after entries entry d) }
    ensures nothing { (entries : List Entry) (d : ℕ) → placed_beyond entries entries d ≡ [] }
    ensures offered { (entries : List Entry) (offered : Offered) (dests : List ℕ) (d : ℕ)
        → parcel_after entries (entry_of offered dests) d ≡ (if is_among dests d then parcel_to entries (load_of offered) d else None) }
    ensures closing { (entries : List Entry) (d : ℕ) → parcel_after entries (Close d Asked) d ≡ parcel_to entries End d }
    ensures losing { (entries : List Entry) (dest d : ℕ) → parcel_after entries (Close dest Lost) d ≡ None }
{}
