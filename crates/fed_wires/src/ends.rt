// The two ends of a wire.
ghost use Rattle.std.specs.Prelude.{◌≡◌, ℕ, ◌+◌, ◌++◌, ◌<◌, ◌≤◌, List, [], ◌∷◌, length, IsTrue, IfOk, OnOk, IfErr};
ghost use mathlib.Core.List.{IsPrefix};
ghost use Rattle.fed_wires.specs.Wire.{Follows};
ghost use Rattle.fed_wires.specs.SendEnd.{new_sender, with_sent, with_returned, with_room, with_credit};
ghost use Rattle.fed_wires.specs.ReceiveEnd.{new_receiver};
ghost use Rattle.fed_wires.specs.Received.{Receives as ReceivesAs, IsWaited};

use crate::credits::Credit;
use crate::no_room::NoRoom;
use crate::numbering::Numbering;
use crate::received::Received;
use crate::returns::{Found, Returns};
use crate::rule::{
    CAPACITY, Compares, Log, Meeting, Parting, Receives, Relay, Returned, Sends, Shows,
};
use crossbeam_channel::{
    Pass, RuledReceiver, RuledSender, Sender, TryRecvError, bounded, bounded_with,
};
use std::alloc::{AllocError, Global};
use std::marker::Model;
use std::sync::Wait;

/// The end of a wire that sends. It has credits in hand, one for each message that the wire is known to have room for: a new end has
/// [`CAPACITY`], a message that is sent takes one, and the other end gives one back for each message that it receives.
///
/// Contracts see its wire, the list of all that was sent over it, how many messages were handed back, and how many credits are in hand.
#[derive(Drop)]
pub struct SendEnd<T: Drop, N: Numbering<T>> {
    channel: RuledSender<T, Log<T>, Relay<T, N>>,
    pass: Pass<T, Log<T>>,
    pub(crate) credits: Returns,
    room: usize,
}

impl<T: Drop, N: Numbering<T>> Model for SendEnd<T, N> {
    ghost use Rattle.std.specs.Prelude.{◌≡◌, true};
    ghost use Rattle.crossbeam_channel.specs.Claims.{IsSeatAt};
    ghost use Rattle.crossbeam_channel.specs.Ends.{sends_on, ruled_capacity};
    ghost use Rattle.fed_wires.specs.declared.rule.TheConstants.{CAPACITY};
    ghost use Rattle.fed_wires.specs.WireId.{log_of};
    ghost use Rattle.fed_wires.specs.SendEnd.{Sender, sender_of};

    ghost Value = { Sender T };

    ghost view = { λ s. sender_of s.pass s.room };

    ghost invariant = { λ s. IsSeatAt (sends_on s.channel) s.pass × ((log_of s.pass).sends ≡ true) × (ruled_capacity (sends_on s.channel) ≡ CAPACITY) };
}

/// The end of a wire that receives.
///
/// Contracts see its wire, the list of all that was received over it, and whether a receive ever answered `Gone`.
#[derive(Drop)]
pub struct ReceiveEnd<T: Drop, N: Numbering<T>> {
    channel: RuledReceiver<T, Log<T>, Relay<T, N>>,
    pass: Pass<T, Log<T>>,
    gone: bool,
    // Where credits are given back. It ends behind the channel: whoever finds it gone is handed back all that it sends.
    back: Sender<()>,
}

impl<T: Drop, N: Numbering<T>> Model for ReceiveEnd<T, N> {
    ghost use Rattle.std.specs.Prelude.{◌≡◌, true};
    ghost use Rattle.crossbeam_channel.specs.Claims.{IsSeatAt};
    ghost use Rattle.crossbeam_channel.specs.Ends.{receives_on};
    ghost use Rattle.fed_wires.specs.WireId.{log_of};
    ghost use Rattle.fed_wires.specs.ReceiveEnd.{Receiver, receiver_of};

    ghost Value = { Receiver T };

    ghost view = { λ r. receiver_of r.pass r.gone };

    ghost invariant = { λ r. IsSeatAt (receives_on r.channel) r.pass × ((log_of r.pass).receives ≡ true) };
}

/// What is left of an end that sends and has ended. Contracts see in it what they saw in the end.
#[derive(Drop)]
pub struct SendPass<T> {
    pass: Pass<T, Log<T>>,
    room: usize,
}

impl<T> Model for SendPass<T> {
    ghost use Rattle.fed_wires.specs.SendEnd.{Sender, sender_of};

    ghost Value = { Sender T };

    ghost view = { λ s. sender_of s.pass s.room };
}

/// What is left of an end that receives and has ended. Contracts see in it what they saw in the end.
#[derive(Drop)]
pub struct ReceivePass<T> {
    pass: Pass<T, Log<T>>,
    gone: bool,
}

impl<T> Model for ReceivePass<T> {
    ghost use Rattle.fed_wires.specs.ReceiveEnd.{Receiver, receiver_of};

    ghost Value = { Receiver T };

    ghost view = { λ r. receiver_of r.pass r.gone };
}

/// The two ends of a new wire, which holds at most [`CAPACITY`] messages.
///
/// # Errors
///
/// Where memory runs out.
pub fn wire<T: Drop, N: Numbering<T>>(
    alloc: Global,
) -> Result<(SendEnd<T, N>, ReceiveEnd<T, N>), AllocError>
    ensures send { IfOk result (λ r. r.0 ≡ new_sender r.0.wire) }
    ensures receive { IfOk result (λ r. r.1 ≡ new_receiver r.0.wire) }
{
    let (back, credits) = bounded(alloc, CAPACITY)?;
    let (sender, receiver, mut pass) = bounded_with::<T, Log<T>, Relay<T, N>, Global>(
        alloc, CAPACITY,
    )?;
    let other = sender.another::<Parting>(&mut pass);
    Ok((
        SendEnd {
            channel: sender,
            pass,
            credits: Returns::new(credits),
            room: CAPACITY,
        },
        ReceiveEnd {
            channel: receiver,
            pass: other,
            gone: false,
            back,
        },
    ))
}

impl<T: Drop, N: Numbering<T>> SendEnd<T, N> {
    /// Takes in credits that came back, without waiting, until so many are in hand. Where the other end is gone there is always room: what is
    /// sent comes back then, and waits for nobody.
    ///
    /// # Errors
    ///
    /// Where fewer are in hand and none is found that came back. One that is just being given back may be missed: it is found by the next call,
    /// or by who waits for one ([`Credits`]).
    ///
    /// [`Credits`]: crate::Credits
    pub fn reserve<R: Wait>(&mut self, rt: &R, count: usize) -> Result<(), NoRoom<T>>
        ensures same { self.new ≡ with_room self.old self.new.room }
        ensures more { self.old.room ≤ self.new.room }
        ensures room { OnOk result (count ≤ self.new.room) }
        ensures full { IfErr result (λ no_room. (self.new.room < count) × (no_room ≡ record { wire = self.old.wire; count = count })) }
    {
        while self.room < count {
            match self.credits.take(rt) {
                Found::Credit => self.room += 1,
                Found::Nothing(none) => {
                    let shown = self.channel.another::<Shows>(&mut self.pass);
                    return Err(NoRoom::new(shown, count, none));
                }
                Found::Gone => self.room = count,
            }
        }
        Ok(())
    }

    /// Waits for a credit and takes it in, or waits until the other end is gone. It is for who has this end alone: one that lies under a lock
    /// is waited for by [`Credits`](crate::Credits), without the lock.
    pub fn wait<R: Wait>(&mut self, rt: &R)
        ensures same { self.new ≡ with_room self.old self.new.room }
        ensures more { self.old.room ≤ self.new.room }
    {
        let came = self.credits.wait(rt);
        self.room = self.room.saturating_add(usize::from(came));
    }

    /// Takes in a credit that was waited for.
    pub fn give(&mut self, _credit: Credit)
        ensures given { self.new ≡ with_credit self.old }
        ensures more { self.old.room ≤ self.new.room }
    {
        self.room = self.room.saturating_add(1);
    }

    /// Sends a message. The message has to fit the number that it gets, and a credit for it is in hand: so the wire has room, and the call
    /// waits for nobody but the thread that is just taking an earlier message out of its slot.
    ///
    /// # Errors
    ///
    /// The message comes back where the other end is gone. It was not sent then, and the credit stays in hand.
    pub fn send<R: Wait>(&mut self, rt: &R, message: T) -> Result<(), T>
        requires fits { N.fits (length self.old.sent + 1) message }
        requires room { 0 < self.old.room }
        ensures sent { OnOk result (self.new ≡ with_sent self.old message) }
        ensures returned { IfErr result (λ m. (m ≡ message) × (self.new ≡ with_returned self.old)) }
    {
        match self
            .channel
            .send_as::<Sends, R>(rt, &mut self.pass, message)
        {
            Ok(()) => {
                self.room -= 1;
                Ok(())
            }
            Err(error) => {
                let _idle = self.channel.another::<Returned>(&mut self.pass);
                Err(error.into_inner())
            }
        }
    }

    /// Compares what was sent with what the other end received: the first is the second, followed by what the wire holds.
    pub fn compare(&mut self, other: &mut ReceiveEnd<T, N>)
        requires { other.old.wire ≡ self.old.wire }
        ensures same { (self.new ≡ self.old) × (other.new ≡ other.old) }
        ensures follows { (queue : List T) × Follows self.old.sent other.old.received queue CAPACITY }
        ensures prefix { IsPrefix other.old.received self.old.sent }
    {
        let theirs = self.channel.another::<Parting>(&mut other.pass);
        self.channel.absorb::<Meeting>(&mut self.pass, theirs);
        self.channel.learn_as::<Compares>(&mut self.pass);
        other.pass = self.channel.another::<Parting>(&mut self.pass);
    }

    /// Ends this end. What it knew stays in what it leaves.
    pub fn finish(self) -> SendPass<T>
        ensures { result ≡ self }
    {
        let SendEnd {
            channel,
            pass,
            credits: _,
            room,
        } = self;
        drop(channel);
        SendPass { pass, room }
    }
}

impl<T: Drop, N: Numbering<T>> ReceiveEnd<T, N> {
    /// Receives the first message that the wire holds, and gives a credit back for it. With `wait` it waits for one, or until the other end is
    /// gone.
    pub fn receive<R: Wait>(&mut self, rt: &R, wait: bool) -> Received<T>
        ensures received { ReceivesAs N.fits result self.old self.new }
        ensures waited { IsTrue wait → IsWaited result }
    {
        let found = if wait {
            self.channel
                .recv_as::<Receives<N>, R>(rt, &mut self.pass)
                .map_err(|_| TryRecvError::Disconnected)
        } else {
            self.channel
                .try_recv_as::<Receives<N>, R>(rt, &mut self.pass)
        };
        match found {
            Ok(message) => {
                give_back(rt, &self.back);
                Received::Message(message)
            }
            Err(TryRecvError::Empty) => Received::Empty,
            Err(TryRecvError::Disconnected) => {
                self.gone = true;
                Received::Gone
            }
        }
    }

    /// Whether a receive ever answered `Gone`.
    pub fn gone(&self) -> bool
        ensures { result ≡ self.now.gone }
    {
        self.gone
    }

    /// Ends this end. What it knew stays in what it leaves.
    pub fn finish(self) -> ReceivePass<T>
        ensures { result ≡ self }
    {
        let ReceiveEnd {
            channel,
            pass,
            gone,
            back,
        } = self;
        drop(channel);
        drop(back);
        ReceivePass { pass, gone }
    }
}

// Gives a credit back. There are no more credits than the channel has places, so this waits for nobody but the thread that is just taking
// one out. Where all who could take it are gone, it is let go.
fn give_back<R: Wait>(rt: &R, back: &Sender<()>) {
    let _ = back.send(rt, ());
}
