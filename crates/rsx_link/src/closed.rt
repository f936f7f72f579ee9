//! What is left of a link once both ends are in one thread.

use rsx_types::Signal;
use rtrb::Consumer;
use std::marker::Model;

/// The signals that were sent and not taken, the oldest first. Contracts see it as their list.
#[derive(Drop)]
pub struct Remaining<T> {
    pub(crate) consumer: Consumer<Signal<T>>,
}

impl<T> Model for Remaining<T> {
    ghost use Rattle.std.specs.Prelude.{List};
    ghost use Rattle.rtrb.specs.Ring.{known_items};
    ghost use Rattle.rsx_types.specs.declared.signal.Signal.{Signal};

    ghost Value = { List (Signal T) };

    ghost view = { λ r. known_items r.consumer };
}

impl<T> Remaining<T> {
    ghost use Rattle.std.specs.Prelude.{◌≡◌, [], ◌∷◌, length, IfSome, IfNone, IsTrue, ◌↔◌};

    /// How many signals are left.
    pub fn len(&self) -> usize
        ensures { result ≡ length self.now }
    {
        self.consumer.cached_slots()
    }

    /// Whether no signal is left.
    pub fn is_empty(&self) -> bool
        ensures { IsTrue result ↔ (self.now ≡ []) }
    {
        self.len() == 0
    }

    /// Takes the oldest signal, or `None` where none is left.
    pub fn pop(&mut self) -> Option<Signal<T>>
        ensures some { IfSome result (λ signal. self.old ≡ signal ∷ self.new) }
        ensures none { IfNone result ((self.old ≡ []) × (self.new ≡ [])) }
    {
        if self.is_empty() {
            return None;
        }
        Some(self.consumer.pop_known())
    }
}

/// What is left of a link: what its words said last, and the signals in its queue.
#[derive(Drop)]
pub struct Closed<T> {
    /// The items asked for, with those from before the link was made: at most 2^63 - 1.
    pub asked: u64,
    /// Some canceller cancelled.
    pub cancelled: bool,
    /// The receiving end made a bad request.
    pub refused: bool,
    /// The signals that were sent and not taken.
    pub remaining: Remaining<T>,
}
