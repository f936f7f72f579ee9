//! Signals that wait to be taken, one by one.

ghost use Rattle.std.specs.Prelude.{◌≡◌, List, IfOk};
ghost use Rattle.rsx_types.specs.Stream.{signals_then};
ghost use Rattle.rsx_types.specs.declared.signal.Signal.{Signal as SignalSpec};

use rsx_types::{Ending, NoMemory, Ops, Signal, StreamValue};
use std::alloc::Global;
use std::marker::Model;

/// Signals that wait to be taken, the oldest first. Contracts see the list of them, and how many there is memory for.
///
/// It takes memory only when it is made: from then on each signal is moved in and out.
#[derive(Drop)]
pub struct PendingSignals<T> {
    // The signals that wait, the last one first.
    reversed: Vec<Signal<T>>,
}

impl<T> Model for PendingSignals<T> {
    ghost use Rattle.std.specs.Prelude.{reverse, vec_capacity};
    ghost use Rattle.rsx_collections.specs.Signals.{SignalsLeft};

    ghost Value = { SignalsLeft T };

    ghost view = { λ p. record { left = reverse p.reversed.items; room = vec_capacity p.reversed } };
}

impl<T: Drop> PendingSignals<T> {
    ghost use Rattle.std.specs.Prelude.{◌≡◌, ℕ, ◌+◌, ◌<◌, ◌≤◌, false, [], ◌∷◌, ◌++◌, length, map, slice_get, IfOk, IfSome, IfNone};
    ghost use Rattle.std.specs.Option.{option_copied, option_to_list, OnSome};
    ghost use Rattle.rsx_types.specs.declared.signal.Signal.TheVariants.{Next};
    ghost use Rattle.rsx_types.specs.Stream.{ending_signals};
    ghost use Rattle.rsx_sources.specs.Slot.{is_nil, is_item_first};
    ghost use Rattle.rsx_collections.specs.Signals.{HasRoom, has_ending, item_signals, put_out};

    /// No signals, and memory for so many.
    ///
    /// # Errors
    /// [`NoMemory`] where that memory was refused.
    pub fn with_room(alloc: Global, room: usize) -> Result<PendingSignals<T>, NoMemory>
        ensures { IfOk result (λ p. (p.left ≡ []) × (p.room ≡ room)) }
    {
        let reversed = Vec::with_capacity(alloc, room)?;
        Ok(PendingSignals { reversed })
    }

    /// An empty list with memory for so many, where there is memory for fewer here.
    ///
    /// # Errors
    /// [`NoMemory`] where that memory was refused.
    pub fn spare(&self, alloc: Global, room: usize) -> Result<Option<PendingSignals<T>>, NoMemory>
        ensures { IfOk result (λ s. HasRoom s self.now room) }
    {
        if room <= self.room() {
            return Ok(None);
        }
        let spare = PendingSignals::with_room(alloc, room)?;
        Ok(Some(spare))
    }

    /// Puts the spare list, if there is one, in the place of this one, in which nothing waits.
    pub fn take_over(&mut self, spare: Option<PendingSignals<T>>)
        requires { self.old.left ≡ [] }
        ensures { (n : ℕ) → HasRoom spare self.old n → (self.new.left ≡ []) × (n ≤ self.new.room) }
    {
        if let Some(pending) = spare {
            *self = pending;
        }
    }

    /// How many signals there is memory for.
    pub fn room(&self) -> usize
        ensures { result ≡ self.now.room }
    {
        self.reversed.capacity()
    }

    /// How many signals wait.
    pub fn len(&self) -> usize
        ensures { result ≡ length self.now.left }
    {
        self.reversed.len()
    }

    /// Whether no signal waits.
    pub fn is_empty(&self) -> bool
        ensures { result ≡ is_nil self.now.left }
    {
        self.reversed.is_empty()
    }

    /// The oldest signal, if there is one.
    pub fn front(&self) -> Option<&Signal<T>>
        ensures { option_copied result ≡ slice_get self.now.left 0 }
    {
        self.reversed.last()
    }

    /// Puts the signal of an ending, if it is one, into an empty list.
    fn put_ending(&mut self, ending: Ending)
        requires nothing { self.old.left ≡ [] }
        requires room { 1 ≤ self.old.room }
        ensures left { self.new.left ≡ ending_signals ending }
        ensures room { self.new.room ≡ self.old.room }
    {
        match ending {
            Ending::Open => {}
            Ending::Done => self.put_front(Signal::Complete),
            Ending::Failed(cause) => self.put_front(Signal::Error(cause)),
        }
    }

    /// Puts an item, if there is one, in front of the others.
    fn put_item(&mut self, item: Option<T>)
        requires { length self.old.left < self.old.room }
        ensures left { self.new.left ≡ item_signals item ++ self.old.left }
        ensures room { self.new.room ≡ self.old.room }
    {
        if let Some(item) = item {
            self.put_front(Signal::Next(item));
        }
    }

    /// Puts these items, this one behind them, and the signal of this ending, if it is one, into an empty list.
    pub fn put_all(&mut self, items: Vec<T>, item: Option<T>, ending: Ending)
        requires nothing { self.old.left ≡ [] }
        requires room { length items.items + 2 ≤ self.old.room }
        ensures left { self.new.left ≡ put_out items.items item ending }
        ensures room { self.new.room ≡ self.old.room }
    {
        self.put_ending(ending);
        self.put_item(item);
        self.put_items_front(items);
    }

    /// Whether an ending is among the signals.
    pub fn has_ending(&self) -> bool
        ensures { result ≡ has_ending self.now.left }
    {
        for at in (0..self.len()).rev() {
            match &self.reversed[at] {
                Signal::Next(_) => {}
                Signal::Complete | Signal::Error(_) => return true,
            }
        }
        false
    }

    /// Takes the oldest signal, if there is one. Then there is memory to put it back.
    pub fn pop(&mut self) -> Option<Signal<T>>
        ensures signal { result ≡ slice_get self.old.left 0 }
        ensures left { self.old.left ≡ option_to_list result ++ self.new.left }
        ensures room { self.new.room ≡ self.old.room }
        ensures space { OnSome result (length self.new.left < self.new.room) }
    {
        self.reversed.pop()
    }

    /// Takes the oldest signal where that is an item, and answers the item. Then there is memory to put it back. Otherwise
    /// nothing has changed.
    pub fn pop_item(&mut self) -> Option<T>
        ensures left { IfSome result (λ x. self.old.left ≡ Next x ∷ self.new.left) }
        ensures room { self.new.room ≡ self.old.room }
        ensures space { OnSome result (length self.new.left < self.new.room) }
        ensures none { IfNone result (self.new ≡ self.old) }
        ensures other { IfNone result (is_item_first self.old.left ≡ false) }
    {
        match self.reversed.pop() {
            Some(Signal::Next(item)) => Some(item),
            Some(ending) => {
                self.reversed.push_reserved(ending);
                None
            }
            None => None,
        }
    }

    /// Puts a signal in front of the others.
    pub fn put_front(&mut self, signal: Signal<T>)
        requires { length self.old.left < self.old.room }
        ensures left { self.new.left ≡ signal ∷ self.old.left }
        ensures room { self.new.room ≡ self.old.room }
    {
        self.reversed.push_reserved(signal);
    }

    /// Puts items in front of the others, in their order.
    pub fn put_items_front(&mut self, items: Vec<T>)
        requires { length items.items + length self.old.left ≤ self.old.room }
        ensures left { self.new.left ≡ map Next items.items ++ self.old.left }
        ensures room { self.new.room ≡ self.old.room }
    {
        let mut items = items;
        while let Some(item) = items.pop() {
            self.put_front(Signal::Next(item));
        }
    }
}

/// What waits, copied in front of a value.
pub trait InFront<T: Drop> {
    ghost signals: { Self → List (SignalSpec T) };

    /// Copies of the items that wait, up to an ending, and behind them this value where there is no ending.
    ///
    /// # Errors
    /// [`NoMemory`] where a growth was refused.
    fn in_front<O: Ops<Item = T>>(
        &self,
        alloc: Global,
        ops: &O,
        behind: StreamValue<T>,
    ) -> Result<StreamValue<T>, NoMemory>
        ensures { IfOk result (λ v. v ≡ signals_then (signals self.now) behind) };
}

impl<T: Drop> InFront<T> for PendingSignals<T> {
    ghost signals = { λ p. p.left };

    fn in_front<O: Ops<Item = T>>(
        &self,
        alloc: Global,
        ops: &O,
        behind: StreamValue<T>,
    ) -> Result<StreamValue<T>, NoMemory>
        ensures { IfOk result (λ v. v ≡ signals_then self.now.left behind) }
    {
        let mut items = Vec::new(alloc);
        for at in (0..self.len()).rev() {
            match &self.reversed[at] {
                Signal::Next(item) => {
                    let copy = ops.copy(alloc, item)?;
                    items.push(copy)?;
                }
                Signal::Complete => return Ok(StreamValue::new(items, Ending::Done)),
                Signal::Error(cause) => return Ok(StreamValue::new(items, Ending::Failed(*cause))),
            }
        }
        let ending = behind.ending();
        for item in behind.into_items() {
            items.push(item)?;
        }
        Ok(StreamValue::new(items, ending))
    }
}
