// What shows that a wire had no room.
ghost use Rattle.std.specs.Prelude.{◌≡◌};
ghost use Rattle.fed_wires.specs.WireId.{wire_of};

use crate::returns::NoneBack;
use crate::rule::Log;
use crossbeam_channel::Pass;
use std::fmt;
use std::marker::Model;

/// Shows that a wire had no room for so many messages: at one moment its end that sends had fewer credits in hand, and none had come back. Only
/// [`SendEnd::reserve`] makes one.
///
/// Contracts see the wire, and for how many messages it had no room.
///
/// [`SendEnd::reserve`]: crate::SendEnd::reserve
#[derive(Drop)]
pub struct NoRoom<T> {
    pass: Pass<T, Log<T>>,
    count: usize,
}

impl<T> Model for NoRoom<T> {
    ghost use Rattle.fed_wires.specs.NoRoom.{Lack};
    ghost use Rattle.fed_wires.specs.WireId.{wire_of};

    ghost Value = { Lack T };

    ghost view = { λ n. record { wire = wire_of n.pass; count = n.count } };
}

impl<T> NoRoom<T> {
    /// Shows it of the wire of this pass, where fewer credits than `count` were in hand and none had come back.
    pub(crate) fn new(pass: Pass<T, Log<T>>, count: usize, _none: NoneBack) -> NoRoom<T>
        ensures { result ≡ record { wire = wire_of pass; count = count } }
    {
        NoRoom { pass, count }
    }
}

impl<T> fmt::Debug for NoRoom<T> {
    fn fmt<W: fmt::Write>(&self, f: &mut fmt::Formatter<W>) -> fmt::Result {
        f.write_str("NoRoom")
    }
}
