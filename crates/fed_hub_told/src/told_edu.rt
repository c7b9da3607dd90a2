// An ephemeral data unit that a client was told of.
ghost use Rattle.std.specs.Prelude.{◌≡◌};

use crate::note::Note;
use crate::offers::Offer;
use fed_dest::ServerSet;
use fed_json::{Json, NoMemory};

/// An EDU that a client was told of: the EDU, and the servers that it goes to and the number among the EDUs of the journal, from 1, that it was
/// told.
#[derive(Drop)]
pub struct ToldEdu {
    pub edu: Json,
    pub dests: ServerSet,
    pub number: u64,
}

impl Note<Offer<'_>> for ToldEdu {
    ghost use Rattle.fed_hub_told.specs.AsTold.{IsEduOf};
    ghost use Rattle.fed_hub_told.specs.Offers.{edu_of};

    ghost number = { λ told. told.number };

    ghost IsOf = { λ told offer. IsEduOf told (edu_of offer) };

    fn number(&self) -> u64
        ensures { result ≡ self.now.number }
    {
        self.number
    }

    fn is_of(&self, offer: &Offer<'_>) -> Result<bool, NoMemory> {
        Ok(*offer.edu == self.edu && *offer.dests == self.dests)
    }
}
