// Which parcel may be the k-th of a wire.
ghost use Rattle.std.specs.Prelude.{◌≡◌};

use fed_journal::Parcel;
use fed_wires::Numbering;

/// The k-th parcel ever sent over the wire to a destination bears the number k.
pub struct InPlace;

impl Numbering<Parcel> for InPlace {
    ghost fits = { λ k parcel. parcel.place.number ≡ k };
}
