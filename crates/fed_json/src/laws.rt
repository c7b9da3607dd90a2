// What holds of all values and their canonical texts.
ghost use Rattle.std.specs.Prelude.{◌≡◌, ◌≢◌, ℕ, List, true, Some, None, IsSome, is_some, IsUtf8};
ghost use Rattle.std.specs.Ordering.{nat_cmp};
ghost use Rattle.std.specs.Str.{chars};
ghost use Rattle.std.specs.Cmp.Lexicographic.{slice_cmp};
ghost use Rattle.serde_json.specs.Data.{Data};
ghost use Rattle.serde_json.specs.Find.{get, as_object};
ghost use Rattle.serde_json.specs.Read.{max_depth, read};
ghost use Rattle.fed_json.specs.Profile.{IsProfile, IsWithin};
ghost use Rattle.fed_json.specs.CanonicalText.{canonical_text, have_one_text, IsCanonicalText};
ghost use Rattle.fed_json.specs.Editing.{with_member, without};

/// A value of the profile has one canonical text.
pub fn one_text()
    ensures has { (d : Data) → IsProfile d → IsCanonicalText d (canonical_text d) }
    ensures no_other { (d : Data) (s : List ℕ) → IsCanonicalText d s → s ≡ canonical_text d }
{}

/// Two values of the profile never share a canonical text.
pub fn texts_differ()
    ensures { (d e : Data) (s : List ℕ) → IsProfile d → IsProfile e → IsCanonicalText d s
        → IsCanonicalText e s → d ≡ e }
{}

/// Values of the profile that `==` finds equal are one value.
pub fn one_value()
    ensures { (d e : Data) → IsProfile d → IsProfile e → have_one_text d e ≡ true → d ≡ e }
{}

/// The canonical text of a value of the profile that nests at most 127 levels deep is read as that value.
pub fn texts_are_read()
    ensures { (d : Data) → IsWithin max_depth d → read (canonical_text d) ≡ Some d }
{}

/// The order of texts by code point is that of their bytes in UTF-8.
pub fn key_order()
    ensures { (s t : List ℕ) → IsUtf8 s → IsUtf8 t
        → slice_cmp nat_cmp (chars s) (chars t) ≡ slice_cmp nat_cmp s t }
{}

/// What stands in a value that a member was put into: at its name the member, where the value is an object, and under every other name
/// what stood there. It is an object exactly where it was one.
pub fn what_is_put()
    ensures there { (k : List ℕ) (d v : Data) → IsSome (as_object v) → get k (with_member k d v) ≡ Some d }
    ensures others { (k l : List ℕ) (d v : Data) → l ≢ k → get l (with_member k d v) ≡ get l v }
    ensures object { (k : List ℕ) (d v : Data) → is_some (as_object (with_member k d v)) ≡ is_some (as_object v) }
{}

/// What stands in a value of the profile that a member was taken out of: nothing at its name, and under every other name what stood
/// there. It is an object exactly where it was one.
pub fn what_is_taken()
    ensures there { (k : List ℕ) (v : Data) → IsProfile v → get k (without k v) ≡ None }
    ensures others { (k l : List ℕ) (v : Data) → l ≢ k → get l (without k v) ≡ get l v }
    ensures object { (k : List ℕ) (v : Data) → is_some (as_object (without k v)) ≡ is_some (as_object v) }
{}
