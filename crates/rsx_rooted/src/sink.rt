//! What takes the signals that go over the edge from a tree's root.

ghost use Rattle.std.specs.Prelude.{◌≡◌, ◌∷◌, ◌++◌, [], Bool, List, true, false};
ghost use Rattle.rsx_types.specs.declared.signal.Signal.{Signal as SignalSpec};
ghost use Rattle.rsx_rooted.specs.Output.{has_room};

use rsx_prefetch::{CAPACITY, SignalQueue};
use rsx_types::Signal;

/// What takes the signals that go over a root edge, each in the move that sends it: a queue, or nothing at all. It takes a signal
/// only while it has room, and never wants memory for it.
pub trait Sink<T> {
    /// Whether it takes a signal now.
    ghost room: { Self → Bool };

    /// The signals that stand in it, from the first to the last.
    ghost signals: { Self → List (SignalSpec T) };

    /// Whether it takes a signal now.
    fn has_room(&self) -> bool
        ensures { result ≡ room self.now };

    /// Puts a signal behind those that stand in it, where it has room for one ([`Sink::has_room`]). Where it has none, the signal is
    /// dropped, and the sink stays as it was.
    fn put(&mut self, signal: Signal<T>)
        ensures put { room self.old ≡ true → signals self.new ≡ signals self.old ++ signal ∷ [] }
        ensures full { room self.old ≡ false → self.new ≡ self.old };
}

impl<T: Drop> Sink<T> for SignalQueue<T> {
    ghost room = { λ queue. has_room queue };

    ghost signals = { λ queue. queue };

    #[inline]
    fn has_room(&self) -> bool {
        self.len() < CAPACITY
    }

    #[inline]
    fn put(&mut self, signal: Signal<T>)
        ensures put { has_room self.old ≡ true → self.new ≡ self.old ++ signal ∷ [] }
        ensures full { has_room self.old ≡ false → self.new ≡ self.old }
    {
        if self.len() < CAPACITY {
            self.push(signal);
        }
    }
}

/// A sink that never has room. Over it a tree makes the moves inside it, and nothing goes over its root edge.
#[derive(Clone, Copy, Debug, PartialEq, Eq)]
pub struct NoRoom;

impl<T: Drop> Sink<T> for NoRoom {
    ghost room = { λ none. false };

    ghost signals = { λ none. [] };

    #[inline]
    fn has_room(&self) -> bool {
        false
    }

    #[inline]
    fn put(&mut self, signal: Signal<T>)
        ensures put { false ≡ true → [] ≡ [] ++ signal ∷ [] }
        ensures full { false ≡ false → self.new ≡ self.old }
    {
        let _dropped = signal;
    }
}
