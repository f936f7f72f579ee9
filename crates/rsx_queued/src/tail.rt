//! The ending of a node behind the items of its queue.

ghost use Rattle.std.specs.Prelude.{◌≡◌};
ghost use Rattle.rsx_queued.specs.Held.{is_open, tail_front, tail_signal, tail_taken};

use rsx_sources::Front;
use rsx_types::{Cause, Signal};

/// Where the ending of a node is.
#[derive(Clone, Copy, Debug, PartialEq, Eq)]
pub enum Tail {
    /// Not in the queue yet.
    Open,
    /// The completion stands behind the items of the queue.
    Completion,
    /// The failure with this cause stands behind the items of the queue.
    Failure(Cause),
    /// The receiver took it.
    Taken,
}

impl Tail {
    /// Whether the ending isn't in the queue yet.
    #[inline]
    pub fn is_open(&self) -> bool
        ensures { result ≡ is_open self.now }
    {
        match self {
            Tail::Open => true,
            Tail::Completion | Tail::Failure(_) | Tail::Taken => false,
        }
    }

    /// Which ending waits, if one does.
    pub fn front(&self) -> Option<Front>
        ensures { result ≡ tail_front self.now }
    {
        match self {
            Tail::Completion => Some(Front::Completion),
            Tail::Failure(cause) => Some(Front::Failure(*cause)),
            Tail::Open | Tail::Taken => None,
        }
    }

    /// Takes the ending that waits, if one does.
    pub fn take<T>(&mut self) -> Option<Signal<T>>
        ensures signal { result ≡ tail_signal self.old }
        ensures tail { self.new ≡ tail_taken self.old }
    {
        match *self {
            Tail::Completion => {
                *self = Tail::Taken;
                Some(Signal::Complete)
            }
            Tail::Failure(cause) => {
                *self = Tail::Taken;
                Some(Signal::Error(cause))
            }
            Tail::Open | Tail::Taken => None,
        }
    }
}
