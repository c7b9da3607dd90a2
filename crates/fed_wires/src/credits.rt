// Where threads wait for room in wires.
ghost use Rattle.std.specs.Prelude.{◌≡◌, ◌<◌, length, IfOk, IfSome};

use crate::ends::SendEnd;
use crate::numbering::Numbering;
use crate::returns::Returns;
use std::alloc::{AllocError, Global};
use std::marker::Model;
use std::sync::Wait;

/// Where threads that hold no lock wait for room in wires, each known by its place.
///
/// Of each wire there are [`CAPACITY`] credits: in the hand of its end that sends, with the messages in the wire, given back and found here, and
/// in the hands of those who waited. None is lost: whoever gets one here lays it in, by [`SendEnd::give`], when it tries again, whatever comes of
/// that, and only a message that is sent takes one out. The end that sends takes in no more than one call asks for. So a thread that waits gets
/// the credit of a message that is received, as long as far fewer than `CAPACITY` threads wait for the same wire at once.
///
/// Contracts see it as the count of its wires.
///
/// [`CAPACITY`]: crate::CAPACITY
#[derive(Drop)]
pub struct Credits {
    wires: Vec<Returns>,
}

impl Model for Credits {
    ghost use Rattle.std.specs.Prelude.{ℕ, length};

    ghost Value = { ℕ };

    ghost view = { λ credits. length credits.wires.items };
}

impl Credits {
    /// Where to wait for room in the wires of these ends, in the order of their places.
    ///
    /// # Errors
    ///
    /// Where memory runs out.
    pub fn new<T: Drop, N: Numbering<T>>(
        alloc: Global,
        ends: &[SendEnd<T, N>],
    ) -> Result<Credits, AllocError>
        ensures { IfOk result (λ credits. credits ≡ length ends.now) }
    {
        let mut wires = Vec::with_capacity(alloc, ends.len())?;
        for end in ends {
            wires.push(end.credits.share()?)?;
        }
        Ok(Credits { wires })
    }

    /// Waits until the other end of the wire at this place gives a credit back, and takes it; or until that end is gone, and then there is
    /// none. Whoever waits here holds no lock that the other end's thread takes.
    pub fn wait<R: Wait>(&self, rt: &R, place: usize) -> Option<Credit>
        requires { place < self.now }
        ensures { IfSome result (λ credit. credit ≡ place) }
    {
        let credits = &self.wires[place];
        credits.wait(rt).then_some(Credit { place })
    }
}

/// A credit of the wire at a place: there is room in it for one message more.
///
/// Contracts see it as the place.
#[derive(Drop)]
pub struct Credit {
    place: usize,
}

impl Model for Credit {
    ghost use Rattle.std.specs.Prelude.{ℕ};

    ghost Value = { ℕ };

    ghost view = { λ credit. credit.place };
}

impl Credit {
    /// The place of the wire.
    pub fn place(&self) -> usize
        ensures { result ≡ self.now }
    {
        self.place
    }
}
