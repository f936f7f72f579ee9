//! The signals that a graph delivered.

ghost use Rattle.std.specs.Prelude.{◌≡◌, ◌∷◌, ◌++◌, [], ◌+◌, ◌<◌, ◌≤◌, ◌^◌, length, map, OnOk, OnErr, vec_capacity};
ghost use Rattle.std.specs.Iterator.Runs.{EveryRun, ItemsMapTo};
ghost use Rattle.std.specs.Slice.Iter.{iter_rest, iter_steps};
ghost use Rattle.rsx_types.specs.declared.names.SubId.{SubId as SubIdSpec};
ghost use Rattle.rsx_types.specs.declared.signal.Signal.{Signal as SignalSpec};
ghost use Rattle.rsx_subscriber.specs.Delivered.{IsFull, to};
ghost use Rattle.rsx_types.specs.declared.signal.Signal.TheVariants.{Next};

use rsx_types::{NoMemory, Signal, SubId};
use std::alloc::Global;
use std::marker::Model;
use std::slice;

/// The signals that a graph delivered, each with its subscriber, in their order. Contracts see the list of the signals,
/// and for how many there is memory.
#[derive(Debug, Drop)]
pub struct Deliveries<T> {
    signals: Vec<(SubId, Signal<T>)>,
}

impl<T> Model for Deliveries<T> {
    ghost use Rattle.std.specs.Prelude.{vec_capacity};
    ghost use Rattle.rsx_subscriber.specs.Delivered.{Delivered};

    ghost Value = { Delivered T };

    ghost view = { λ d. record { signals = d.signals.items; room = vec_capacity d.signals } };
}

impl<T: Drop> Deliveries<T> {
    /// No signal. It takes no memory.
    pub fn new(alloc: Global) -> Deliveries<T>
        ensures { result.signals ≡ [] }
    {
        Deliveries {
            signals: Vec::new(alloc),
        }
    }

    /// The signals of a list, in their order. Its memory is used and none is taken, so that a list that
    /// [`Deliveries::into_vec`] gave and that was emptied is used again, with no growth.
    pub fn from_vec(signals: Vec<(SubId, Signal<T>)>) -> Deliveries<T>
        ensures signals { result.signals ≡ signals.items }
        ensures room { result.room ≡ vec_capacity signals }
    {
        Deliveries { signals }
    }

    /// How many signals there are.
    pub fn len(&self) -> usize
        ensures { result ≡ length self.now.signals }
    {
        self.signals.len()
    }

    /// The signals, in their order.
    pub fn as_slice(&self) -> &[(SubId, Signal<T>)]
        ensures { result.now ≡ self.now.signals }
    {
        self.signals.as_slice()
    }

    /// The signals one after the other, each with its subscriber, in their order. A `for` goes over `&deliveries`, too.
    pub fn iter(&self) -> slice::Iter<'_, (SubId, Signal<T>)>
        ensures rest { iter_rest result ≡ self.now.signals }
        ensures bound { length (iter_rest result) < 2 ^ 64 }
        ensures runs { EveryRun (iter_steps {A = SubIdSpec × SignalSpec T}) (λ p. ItemsMapTo p (λ x. x.now) (iter_rest p.from)) }
    {
        self.signals.as_slice().iter()
    }

    /// The list of the signals, with the memory for them. It takes no memory.
    pub fn into_vec(self) -> Vec<(SubId, Signal<T>)>
        ensures signals { result.items ≡ self.signals }
        ensures room { vec_capacity result ≡ self.room }
    {
        let Deliveries { signals } = self;
        signals
    }

    /// Lets all signals go. Their memory stays, so that a list is used again with no growth.
    pub fn clear(&mut self)
        ensures signals { self.new.signals ≡ [] }
        ensures room { self.new.room ≡ self.old.room }
    {
        self.signals.clear();
    }

    /// Makes room for one signal more. Where there is room already it takes no memory.
    ///
    /// # Errors
    /// [`NoMemory`] where a growth was refused: there was no room. The list is as it was.
    pub fn reserve(&mut self) -> Result<(), NoMemory>
        ensures signals { self.new.signals ≡ self.old.signals }
        ensures room { OnOk result (length self.new.signals < self.new.room) }
        ensures full { OnErr result (IsFull self.old) }
        ensures same { OnErr result (self.new ≡ self.old) }
    {
        self.signals.reserve(1)?;
        Ok(())
    }

    /// Makes room for so many signals more. Where there is room already it takes no memory.
    ///
    /// # Errors
    /// [`NoMemory`] where a growth was refused. The list is as it was.
    pub fn reserve_many(&mut self, count: usize) -> Result<(), NoMemory>
        ensures signals { self.new.signals ≡ self.old.signals }
        ensures room { OnOk result (length self.new.signals + count ≤ self.new.room) }
        ensures same { OnErr result (self.new ≡ self.old) }
    {
        self.signals.reserve(count)?;
        Ok(())
    }

    /// Puts items to one subscriber at the end, in their order. It takes no memory, and the list of the items is empty then.
    pub fn append(&mut self, sub: SubId, items: &mut Vec<T>)
        requires { length self.old.signals + length items.old.items ≤ self.old.room }
        ensures signals { self.new.signals ≡ self.old.signals ++ to sub (map Next items.old.items) }
        ensures items { items.new.items ≡ [] }
    {
        items.reverse();
        while let Some(item) = items.pop() {
            self.signals.push_reserved((sub, Signal::Next(item)));
        }
    }

    /// Puts a signal at the end. It takes no memory.
    pub fn push(&mut self, sub: SubId, signal: Signal<T>)
        requires { length self.old.signals < self.old.room }
        ensures { self.new.signals ≡ self.old.signals ++ (sub, signal) ∷ [] }
    {
        self.signals.push_reserved((sub, signal));
    }
}

impl<'a, T: Drop> IntoIterator for &'a Deliveries<T> {
    type Item = &'a (SubId, Signal<T>);

    type IntoIter = slice::Iter<'a, (SubId, Signal<T>)>;

    ghost into_iter_gives = { λ d it. (iter_rest it ≡ d.now.signals) × (length (iter_rest it) < 2 ^ 64)
        × EveryRun (iter_steps {A = SubIdSpec × SignalSpec T}) (λ p. ItemsMapTo p (λ x. x.now) (iter_rest p.from)) };

    fn into_iter(self) -> slice::Iter<'a, (SubId, Signal<T>)> {
        self.iter()
    }
}
