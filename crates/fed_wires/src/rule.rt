// What holds of a wire between any two steps, and what each step tells who makes it.
ghost use Rattle.std.specs.Prelude.{◌≡◌, ◌+◌, ◌++◌, [], ◌∷◌, length, ⊤};
ghost use Rattle.fed_wires.specs.Wire.{log};

use crate::numbering::Numbering;
use crossbeam_channel::protocol::{Join, Lesson, Outcome, Protocol, Split};
use std::collections::LinkedList;
use std::marker::PhantomData;

/// How many messages a wire holds at most.
pub const CAPACITY: usize = 1024;

/// What a pass knows: whether it is the one that sends, whether it is the one that receives, all that was sent, all that was received,
/// and how many messages came back. No value of it is made.
pub struct Log<T> {
    pub sends: bool,
    pub receives: bool,
    pub sent: LinkedList<T>,
    pub received: LinkedList<T>,
    pub returned: u64,
}

/// The rule of a wire.
pub struct Relay<T, N>(PhantomData<(T, N)>);

impl<T, N: Numbering<T>> Protocol<T, Log<T>> for Relay<T, N> {
    ghost use Rattle.std.specs.Prelude.{true, []};
    ghost use Rattle.fed_wires.specs.declared.rule.TheConstants.{CAPACITY};
    ghost use Rattle.fed_wires.specs.Wire.{log, Relays};

    ghost holds = { Relays N.fits CAPACITY };

    ghost first = { log true true [] [] 0 };
}

// A pass that receives leaves that to a new one.
pub(crate) struct Parting;

impl<T> Split<Log<T>> for Parting {
    ghost use Rattle.std.specs.Prelude.{true, false, []};
    ghost use Rattle.fed_wires.specs.Wire.{log};

    ghost left = { λ v. log v.sends false v.sent [] v.returned };

    ghost right = { λ v. log false true [] v.received 0 };
}

// A pass that sends takes in the one that receives.
pub(crate) struct Meeting;

impl<T> Join<Log<T>> for Meeting {
    ghost use Rattle.fed_wires.specs.Wire.{log, idle};

    ghost both = { λ v w. log v.sends w.receives v.sent w.received v.returned };

    ghost spent = { idle };
}

// The pass that is cut off knows nothing but which wire it is of.
pub(crate) struct Shows;

impl<T> Split<Log<T>> for Shows {
    ghost use Rattle.fed_wires.specs.Wire.{idle};

    ghost left = { λ v. v };

    ghost right = { λ v. idle };
}

// A message came back: the count of these rises and no list changes. The pass that is cut off knows nothing.
pub(crate) struct Returned;

impl<T> Split<Log<T>> for Returned {
    ghost use Rattle.std.specs.Prelude.{◌+◌};
    ghost use Rattle.fed_wires.specs.Wire.{log, idle};

    ghost left = { λ v. log v.sends v.receives v.sent v.received (v.returned + 1) };

    ghost right = { λ v. idle };
}

// The message stands at the end of what was sent.
pub(crate) struct Sends;

impl<T> Outcome<T, Log<T>> for Sends {
    ghost then = { λ v x w. w ≡ log v.sends v.receives (v.sent ++ x ∷ []) v.received v.returned };
}

impl<T> Lesson<T, Log<T>> for Sends {
    ghost fact = { λ v queue. ⊤ };
}

// The message stands at the end of what was received, and fits its number.
pub(crate) struct Receives<N>(PhantomData<N>);

impl<T, N: Numbering<T>> Outcome<T, Log<T>> for Receives<N> {
    ghost then = { λ v x w. (w ≡ log v.sends v.receives v.sent (v.received ++ x ∷ []) v.returned) × N.fits (length v.received + 1) x };
}

impl<T, N> Lesson<T, Log<T>> for Receives<N> {
    ghost fact = { λ v queue. ⊤ };
}

// What was sent is what was received, followed by what the wire holds.
pub(crate) struct Compares;

impl<T> Lesson<T, Log<T>> for Compares {
    ghost use Rattle.fed_wires.specs.declared.rule.TheConstants.{CAPACITY};
    ghost use Rattle.fed_wires.specs.Wire.{Follows};

    ghost fact = { λ v queue. Follows v.sent v.received queue CAPACITY };
}
