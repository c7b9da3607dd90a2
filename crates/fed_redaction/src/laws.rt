// What holds of all redactions and ids.
ghost use Rattle.std.specs.Prelude.{◌≡◌, ◌≢◌, ℕ, List, [], ◌∷◌, true, false, None, IsSome, is_some, codes, option_map};
ghost use Rattle.serde_json.specs.Data.{Data};
ghost use Rattle.serde_json.specs.Find.{as_object, get};
ghost use Rattle.fed_redaction.specs.Names.{is_one_of, leave_out};
ghost use Rattle.fed_redaction.specs.declared.version.Version.{Version};
ghost use Rattle.fed_redaction.specs.Version.{Kept, event_keys};
ghost use Rattle.fed_redaction.specs.Event.{Event, event_in};
ghost use Rattle.fed_redaction.specs.Redaction.{redacted, redacted_in, type_of, kept_of, stays_whole, kept_content};
ghost use Rattle.fed_redaction.specs.EventId.{unsigned_keys, signed_part, id_of_signed, IsIdText, event_id_of};
ghost use Rattle.fed_redaction.specs.ContentHash.{uncovered_keys, covered_part, content_hash_of};
ghost use Rattle.fed_redaction.specs.Laws.{AreUnsigned, AreUncovered};

/// Redacting twice is redacting once.
pub fn redacted_once()
    ensures { (event : Event) → redacted (redacted event) ≡ redacted event }
{}

/// What redaction leaves under a key of an object: nothing where the key is dropped, of the content what stays of it, and every other
/// value as it was. An object is left exactly of an object. Of a content the members that stay as they are do, and of the others at
/// most an object with a `signed`.
pub fn what_redaction_keeps()
    ensures object { (version : Version) (d : Data) → is_some (as_object (redacted_in version d)) ≡ is_some (as_object d) }
    ensures dropped { (version : Version) (d : Data) (k : List ℕ) → IsSome (as_object d) → is_one_of (event_keys version) k ≡ false
        → get k (redacted_in version d) ≡ None }
    ensures kept { (version : Version) (d : Data) (k : List ℕ) → is_one_of (event_keys version) k ≡ true → k ≢ codes "content"
        → get k (redacted_in version d) ≡ get k d }
    ensures content { (version : Version) (d : Data) → get (codes "content") (redacted_in version d)
        ≡ option_map (kept_content (kept_of version (type_of d))) (get (codes "content") d) }
    ensures content_dropped { (kept : Kept) (d : Data) (k : List ℕ) → stays_whole kept k ≡ false → is_one_of kept.signed k ≡ false
        → get k (kept_content kept d) ≡ None }
    ensures content_kept { (kept : Kept) (d : Data) (k : List ℕ) → stays_whole kept k ≡ true → get k (kept_content kept d) ≡ get k d }
{}

/// An event and its redaction have one id.
pub fn ids_of_redactions()
    ensures signed { (event : Event) → signed_part (redacted event) ≡ signed_part event }
    ensures id { (event : Event) → event_id_of (redacted event) ≡ event_id_of event }
{}

/// `unsigned`, `signatures` and the top-level keys that redaction drops change neither what is signed nor the id: an event has
/// those of the event without them, and two events that differ in them alone have the same.
pub fn unsigned_changes()
    ensures signed { (version : Version) (names : List (List ℕ)) (d : Data) → AreUnsigned version names
        → signed_part (event_in version (leave_out names d)) ≡ signed_part (event_in version d) }
    ensures id { (version : Version) (names : List (List ℕ)) (d e : Data) → AreUnsigned version names → leave_out names d ≡ leave_out names e
        → event_id_of (event_in version d) ≡ event_id_of (event_in version e) }
    ensures unsigned { (version : Version) (d : Data)
        → event_id_of (event_in version (leave_out (codes "unsigned" ∷ []) d)) ≡ event_id_of (event_in version d) }
    ensures signatures { (version : Version) (d : Data)
        → event_id_of (event_in version (leave_out (codes "signatures" ∷ []) d)) ≡ event_id_of (event_in version d) }
{}

/// What is signed of an event decides its id, and all that redaction leaves of it but what is under `signatures` and `unsigned`.
pub fn what_is_signed()
    ensures id { (one other : Event) → signed_part one ≡ signed_part other → event_id_of one ≡ event_id_of other }
    ensures left { (one other : Event) (k : List ℕ) → signed_part one ≡ signed_part other → is_one_of unsigned_keys k ≡ false
        → get k (redacted one).value ≡ get k (redacted other).value }
{}

/// Every id is `$` and 43 characters of the URL-safe alphabet of base64.
pub fn what_ids_are()
    ensures { (text : List ℕ) → IsIdText (id_of_signed text) }
{}

/// `unsigned`, `signatures` and `hashes` do not change the content hash: an event has that of the event without them. What else stands
/// in an event decides it.
pub fn what_the_hash_covers()
    ensures hash { (names : List (List ℕ)) (d : Data) → AreUncovered names → content_hash_of (leave_out names d) ≡ content_hash_of d }
    ensures same { (d e : Data) → covered_part d ≡ covered_part e → content_hash_of d ≡ content_hash_of e }
    ensures left { (d e : Data) (k : List ℕ) → covered_part d ≡ covered_part e → is_one_of uncovered_keys k ≡ false → get k d ≡ get k e }
{}
