// What holds of all messages, and of all their texts; and the plain program that reads one.
ghost use Rattle.std.specs.Prelude.{◌≡◌, ◌≢◌, ℕ, List, ◌++◌};
ghost use Rattle.std.specs.List.{flat_map};
ghost use Rattle.fed_http.specs.Text.{IsText, HasNoText};
ghost use Rattle.fed_http.specs.Reader.{Reading};
ghost use Rattle.fed_http.specs.Streams.{GivesInPieces};
ghost use Rattle.fed_http.specs.Faults.{IsFault};
ghost use Rattle.fed_http.specs.Waiting.{IsWaiting};
ghost use Rattle.fed_http.specs.declared.fault.HttpFault.{HttpFault};
ghost use Rattle.fed_http.specs.declared.fault.HttpFault.TheVariants.{Memory};
ghost use Rattle.fed_http.specs.declared.message.Kind.{Kind};
ghost use Rattle.fed_http.specs.declared.message.Message.{Message};

mod plain;

pub use plain::read_message;

/// Bytes begin with the text of one message at most: two texts at their front are one text of one message.
pub fn texts_are_read_in_one_way()
    ensures { (kind : Kind) (m n : Message) (bytes text other rest after : List ℕ) → IsText kind m text → IsText kind n other
        → bytes ≡ text ++ rest → bytes ≡ other ++ after → (m ≡ n) × (text ≡ other) }
{}

/// Where a fault holds of bytes, no bytes can follow that make a message of them: no fault is told that another cutting would not tell.
pub fn faults_are_final()
    ensures { (kind : Kind) (bytes : List ℕ) (fault : HttpFault) → fault ≢ Memory → IsFault kind bytes fault
        → (more : List ℕ) → HasNoText kind (bytes ++ more) }
{}

/// Where a reader waits, no message is there.
pub fn who_waits_has_no_message()
    ensures { (kind : Kind) (bytes : List ℕ) → IsWaiting kind bytes → HasNoText kind bytes }
{}

/// Of any bytes at most one fault holds: the fault is the same however they were cut.
pub fn bytes_have_one_fault()
    ensures { (kind : Kind) (bytes : List ℕ) (fault other : HttpFault) → fault ≢ Memory → other ≢ Memory → IsFault kind bytes fault → IsFault kind bytes other → fault ≡ other }
{}

/// A fault of bytes stays their fault, whatever bytes follow.
pub fn faults_stay()
    ensures { (kind : Kind) (bytes more : List ℕ) (fault : HttpFault) → IsFault kind bytes fault → IsFault kind (bytes ++ more) fault }
{}

/// Where a fault holds, no reader waits: of such bytes `Reader::feed` tells this fault or want of memory, and nothing else.
pub fn who_waits_has_no_fault()
    ensures { (kind : Kind) (bytes : List ℕ) (fault : HttpFault) → fault ≢ Memory → IsFault kind bytes fault → IsWaiting kind bytes → ⊥ }
{}

/// What a reader gives does not depend on how its stream is cut: of two cuttings of the same bytes, in which a reader that stands for the
/// same bytes waits until it gives a message, both give the same message, and at the same place.
pub fn cutting_does_not_matter()
    ensures { (old : Reading) (bytes : List ℕ) (pieces others : List (List ℕ)) (m n : Message) (place other : ℕ) → flat_map (λ piece. piece) pieces ≡ flat_map (λ piece. piece) others
        → GivesInPieces m old bytes pieces place → GivesInPieces n old bytes others other → (m ≡ n) × (place ≡ other) }
{}
