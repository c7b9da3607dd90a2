// Where the credits of a wire come back.
use crossbeam_channel::{Receiver, TryRecvError};
use std::alloc::AllocError;
use std::sync::Wait;

/// Those credits of one wire that came back and are in nobody's hand.
#[derive(Drop)]
pub(crate) struct Returns {
    credits: Receiver<()>,
}

/// What was found where credits come back.
#[derive(Drop)]
pub(crate) enum Found {
    /// A credit, which is taken.
    Credit,
    /// None was there at one moment of the call.
    Nothing(NoneBack),
    /// None was there, and the end that gives them back was seen to be gone.
    Gone,
}

/// Shows that of some wire no credit was there. Only [`Returns::take`] makes one.
#[derive(Drop)]
pub(crate) struct NoneBack {
    _found: (),
}

impl Returns {
    /// What comes back over this channel.
    pub(crate) fn new(credits: Receiver<()>) -> Returns {
        Returns { credits }
    }

    /// The same, for who waits for room.
    pub(crate) fn share(&self) -> Result<Returns, AllocError> {
        let credits = self.credits.clone()?;
        Ok(Returns { credits })
    }

    /// Takes a credit, if one is there. It does not wait.
    pub(crate) fn take<R: Wait>(&self, rt: &R) -> Found {
        match self.credits.try_recv(rt) {
            Ok(()) => Found::Credit,
            Err(TryRecvError::Empty) => Found::Nothing(NoneBack { _found: () }),
            Err(TryRecvError::Disconnected) => Found::Gone,
        }
    }

    /// Waits for a credit and takes it; or until the end that gives them back is gone, and then there is none.
    pub(crate) fn wait<R: Wait>(&self, rt: &R) -> bool {
        self.credits.recv(rt).is_ok()
    }
}
