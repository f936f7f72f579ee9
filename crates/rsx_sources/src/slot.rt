//! The out slot of a node.

ghost use Rattle.std.specs.Prelude.{◌≡◌, ◌∷◌, [], ◌++◌, ◌<◌, ◌≤◌, ◌==◌, IfSome, IfNone, IsSome, true, false, length, slice_get};
ghost use Rattle.std.specs.Option.{option_copied, option_to_list};
ghost use Rattle.rsx_types.specs.declared.signal.Signal.TheVariants.{Next};
ghost use Rattle.rsx_sources.specs.Slot.{is_nil, is_item_first};

use rsx_types::Signal;
use std::marker::Model;

/// The signals that a node has put out and its receiver has not taken yet: at most two, the oldest in front. Contracts see
/// the list of the signals.
#[derive(Drop)]
pub struct OutSlot<T> {
    first: Option<Signal<T>>,
    second: Option<Signal<T>>,
}

impl<T> Model for OutSlot<T> {
    ghost use Rattle.std.specs.Prelude.{◌≡◌, List, ◌++◌, None};
    ghost use Rattle.std.specs.Option.{option_to_list};
    ghost use Rattle.rsx_types.specs.declared.signal.Signal.{Signal};

    ghost Value = { List (Signal T) };

    ghost view = { λ s. option_to_list s.first ++ option_to_list s.second };

    ghost invariant = { λ s. s.first ≡ None → s.second ≡ None };
}

impl<T: Drop> OutSlot<T> {
    /// An empty slot. It takes no memory.
    #[inline]
    pub fn new() -> OutSlot<T>
        ensures { result ≡ [] }
    {
        OutSlot {
            first: None,
            second: None,
        }
    }

    /// Whether there is no signal.
    #[inline]
    pub fn is_empty(&self) -> bool
        ensures { result ≡ is_nil self.now }
    {
        self.first.is_none()
    }

    /// The number of signals: 0 to 2.
    #[inline]
    pub fn len(&self) -> usize
        ensures { result ≡ length self.now }
    {
        match (&self.first, &self.second) {
            (None, _) => 0,
            (Some(_), None) => 1,
            (Some(_), Some(_)) => 2,
        }
    }

    /// The oldest signal, if there is one.
    #[inline]
    pub fn front(&self) -> Option<&Signal<T>>
        ensures { option_copied result ≡ slice_get self.now 0 }
    {
        self.first.as_ref()
    }

    /// The signal with so many older ones before it, if there is one.
    #[inline]
    pub fn get(&self, at: usize) -> Option<&Signal<T>>
        ensures signal { option_copied result ≡ slice_get self.now at }
        ensures most { length self.now ≤ 2 }
    {
        match at {
            0 => self.front(),
            1 => self.second.as_ref(),
            _ => None,
        }
    }

    /// Puts a signal behind the others. It takes no memory.
    #[inline]
    pub fn put(&mut self, signal: Signal<T>)
        requires { length self.old < 2 }
        ensures { self.new ≡ self.old ++ signal ∷ [] }
    {
        if self.is_empty() {
            self.first = Some(signal);
        } else {
            self.second = Some(signal);
        }
    }

    /// Takes the oldest signal, if there is one.
    #[inline]
    pub fn pop(&mut self) -> Option<Signal<T>>
        ensures after { self.old ≡ option_to_list result ++ self.new }
        ensures value { result ≡ slice_get self.old 0 }
        ensures room { length self.new < 2 }
    {
        let signal = self.first.take();
        // Mostly there is no second signal, and then nothing has to be moved.
        if self.second.is_some() {
            self.first = self.second.take();
        }
        signal
    }

    /// Takes the oldest signal where that is an item, and answers the item. Otherwise nothing has changed.
    #[inline]
    pub fn pop_item(&mut self) -> Option<T>
        ensures some { IfSome result (λ x. self.old ≡ Next x ∷ self.new) }
        ensures room { IfSome result (λ x. length self.new < 2) }
        ensures none { IfNone result (is_item_first self.old ≡ false) }
        ensures same { IfNone result (self.new ≡ self.old) }
    {
        match &self.first {
            Some(Signal::Next(_)) => self.take_item(),
            _ => None,
        }
    }

    // An item seldom waits here, so this isn't inlined.
    #[inline(never)]
    fn take_item(&mut self) -> Option<T>
        requires { is_item_first self.old ≡ true }
        ensures some { IfSome result (λ x. (self.old ≡ Next x ∷ self.new) × (length self.new < 2)) }
        ensures none { IsSome result }
    {
        match self.pop() {
            Some(Signal::Next(item)) => Some(item),
            _ => None,
        }
    }

    /// Puts a signal in front of the others. It takes no memory.
    #[inline]
    pub fn put_back(&mut self, signal: Signal<T>)
        requires { length self.old < 2 }
        ensures { self.new ≡ signal ∷ self.old }
    {
        self.second = self.first.take();
        self.first = Some(signal);
    }
}
