//! The queue of a root edge.

ghost use Rattle.std.specs.Prelude.{◌≡◌, ◌∷◌, ◌++◌, [], length, IfOk, IfSome, IfNone, ◌<◌, slice_index_or};

use crate::Prefetch;
use rsx_types::{CAPACITY, NoMemory, Signal};
use std::alloc::Global;
use std::marker::Model;

/// The signals on a root edge, at most [`CAPACITY`], first in, first out. Contracts see a list.
///
/// The memory for them is taken when the queue is made, and no later call takes any.
#[derive(Drop)]
pub struct SignalQueue<T> {
    signals: Prefetch<Signal<T>>,
}

impl<T> Model for SignalQueue<T> {
    ghost use Rattle.std.specs.Prelude.{◌≡◌, List};
    ghost use Rattle.rsx_types.specs.declared.limits.TheConstants.{CAPACITY};
    ghost use Rattle.rsx_types.specs.declared.signal.Signal.{Signal};

    ghost Value = { List (Signal T) };

    ghost view = { λ q. q.signals.items };

    ghost invariant = { λ q. q.signals.capacity ≡ CAPACITY };
}

impl<T: Drop> SignalQueue<T> {
    /// An empty queue with memory for [`CAPACITY`] signals.
    ///
    /// # Errors
    /// [`NoMemory`] where that memory was refused.
    pub fn new(alloc: Global) -> Result<SignalQueue<T>, NoMemory>
        ensures { IfOk result (λ q. q ≡ []) }
    {
        let signals = Prefetch::new(alloc, CAPACITY)?;
        Ok(SignalQueue { signals })
    }

    /// How many signals wait, 0 to [`CAPACITY`].
    pub fn len(&self) -> usize
        ensures { result ≡ length self.now }
    {
        self.signals.len()
    }

    /// The signal with this index, counted from the front.
    pub fn at(&self, index: usize) -> &Signal<T>
        requires { index < length self.now }
        ensures { result.now ≡ slice_index_or self.now index result.now }
    {
        self.signals.get(index).unwrap()
    }

    /// Puts a signal at the back. The queue has room for it, which [`SignalQueue::len`] tells.
    pub fn push(&mut self, signal: Signal<T>)
        requires { length self.old < CAPACITY }
        ensures { self.new ≡ self.old ++ signal ∷ [] }
    {
        self.signals.put(signal);
    }

    /// Takes the front signal. An empty queue stays as it is.
    pub fn pop(&mut self) -> Option<Signal<T>>
        ensures some { IfSome result (λ s. self.old ≡ s ∷ self.new) }
        ensures none { IfNone result ((self.old ≡ []) × (self.new ≡ self.old)) }
    {
        self.signals.take()
    }

    /// Drops all signals.
    pub fn clear(&mut self)
        ensures { self.new ≡ [] }
    {
        self.signals.clear();
    }
}
