//! The lanes that are live, each with the signals that it has left.

ghost use Rattle.std.specs.Prelude.{◌≡◌, ℕ, ◌<◌, false, List, [], ◌∷◌, ◌++◌, length, slice_get, slice_index_or, IfSome, IfNone, OnOk, OnErr, IfOk, option_map};
ghost use Rattle.rsx_types.specs.Stream.{signals};
ghost use Rattle.rsx_sources.specs.Machine.{front_of};
ghost use Rattle.rsx_values.specs.Pick.{InputLeft};
ghost use Rattle.rsx_values.specs.Steps.{TakesAt, TakesNext};
ghost use Rattle.rsx_merging.specs.Lanes.{items_in, next_front, may_take, IsPlaceOf, waiting_after};

use rsx_demand::saturating_total;
use rsx_sources::Front;
use rsx_types::{Ending, NoMemory, Ops, Signal, StreamValue};
use rsx_values::Input;
use std::alloc::Global;
use std::marker::Model;
use std::mem;

/// Whether a signal that is next may be taken, where an item may be taken only if `items` says so.
pub(crate) fn may_take(front: Option<Front>, items: bool) -> bool
    ensures { result ≡ may_take front items }
{
    match front {
        Some(Front::Item) => items,
        Some(Front::Completion) | Some(Front::Failure(_)) => true,
        None => false,
    }
}

/// A lane, or Main: its number, and the signals that it has left. Contracts see a pair of these.
#[derive(Drop)]
pub struct Lane<T> {
    number: u64,
    // The items that are left, the last one first.
    reversed: Vec<T>,
    ending: Ending,
}

impl<T> Model for Lane<T> {
    ghost use Rattle.std.specs.Prelude.{reverse};
    ghost use Rattle.rsx_values.specs.Pick.{InputLeft};
    ghost use Rattle.rsx_types.specs.Stream.{signals};

    ghost Value = { InputLeft T };

    ghost view = { λ l. (l.number, signals (record { items = reverse l.reversed.items; ending = l.ending })) };
}

impl<T: Drop> Lane<T> {
    ghost use Rattle.std.specs.Prelude.{◌≡◌, ◌∷◌, ◌++◌, slice_get, option_map, Some, IfSome, IfNone};
    ghost use Rattle.std.specs.Option.{option_to_list};
    ghost use Rattle.rsx_types.specs.Stream.{signals};
    ghost use Rattle.rsx_types.specs.declared.signal.Signal.TheVariants.{Next};
    ghost use Rattle.rsx_sources.specs.declared.machine.Front.TheVariants.{Item};
    ghost use Rattle.rsx_sources.specs.Machine.{front_of};
    ghost use Rattle.rsx_merging.specs.Lanes.{items_in};

    /// The lane with this number and the signals of this value: its items, and then its ending. It takes no memory.
    pub fn new(number: u64, value: StreamValue<T>) -> Lane<T>
        ensures { result ≡ (number, signals value) }
    {
        let ending = value.ending();
        let mut reversed = value.into_items();
        reversed.reverse();
        Lane {
            number,
            reversed,
            ending,
        }
    }

    /// The signals that it has left, as a value. It takes no memory.
    pub fn into_value(self) -> StreamValue<T>
        ensures { signals result ≡ self.1 }
    {
        let Lane {
            number: _,
            reversed,
            ending,
        } = self;
        let mut items = reversed;
        items.reverse();
        StreamValue::new(items, ending)
    }

    /// The number by which a choice names the lane.
    pub(crate) fn number(&self) -> u64
        ensures { result ≡ self.now.0 }
    {
        self.number
    }

    /// Which signal is next, if one is left.
    pub(crate) fn front(&self) -> Option<Front>
        ensures { result ≡ option_map front_of (slice_get self.now.1 0) }
    {
        match self.reversed.last() {
            Some(_) => Some(Front::Item),
            None => match self.ending {
                Ending::Open => None,
                Ending::Done => Some(Front::Completion),
                Ending::Failed(cause) => Some(Front::Failure(cause)),
            },
        }
    }

    /// How many items it has left.
    pub(crate) fn waiting(&self) -> u64
        ensures { result ≡ items_in self.now.1 }
    {
        self.reversed.len() as u64
    }

    /// Takes the next signal, if that is an item.
    #[inline]
    fn take_item(&mut self) -> Option<T>
        ensures item { IfSome result (λ x. self.old.1 ≡ Next x ∷ self.new.1) }
        ensures none { IfNone result (option_map front_of (slice_get self.old.1 0) ≡ Some Item → ⊥) }
        ensures number { self.new.0 ≡ self.old.0 }
    {
        self.reversed.pop()
    }

    /// Takes the next signal, if one is left.
    pub(crate) fn take(&mut self) -> Option<Signal<T>>
        ensures signal { result ≡ slice_get self.old.1 0 }
        ensures left { self.old.1 ≡ option_to_list result ++ self.new.1 }
        ensures number { self.new.0 ≡ self.old.0 }
    {
        match self.reversed.pop() {
            Some(item) => Some(Signal::Next(item)),
            None => match mem::replace(&mut self.ending, Ending::Open) {
                Ending::Open => None,
                Ending::Done => Some(Signal::Complete),
                Ending::Failed(cause) => Some(Signal::Error(cause)),
            },
        }
    }
}

/// How many items wait in these lanes, beside `count` others; at most 2^63-1.
fn waiting_after<T: Drop>(lanes: &[Lane<T>], count: u64) -> u64
    ensures { result ≡ waiting_after count lanes.now }
{
    match lanes.split_first() {
        None => count,
        Some((lane, behind)) => waiting_after(behind, saturating_total(count, lane.waiting())),
    }
}

/// The lanes that are live, in the order in which they were made; Main is the last of them once the input has ended. Contracts
/// see the list of them.
#[derive(Drop)]
pub struct Lanes<T> {
    list: Vec<Lane<T>>,
}

impl<T> Model for Lanes<T> {
    ghost use Rattle.std.specs.Prelude.{List};
    ghost use Rattle.rsx_values.specs.Pick.{InputLeft};

    ghost Value = { List (InputLeft T) };

    ghost view = { λ l. l.list.items };
}

impl<T: Drop> Lanes<T> {
    ghost use Rattle.std.specs.Prelude.{◌≡◌, ◌<◌, ℕ, true, false, [], ◌∷◌, ◌++◌, length, slice_index_or, Some, IfSome, IfNone, OnOk, OnErr};
    ghost use Rattle.rsx_sources.specs.Slot.{is_nil};
    ghost use Rattle.rsx_sources.specs.declared.machine.Front.TheVariants.{Item};
    ghost use Rattle.rsx_values.specs.Pick.{InputLeft};
    ghost use Rattle.rsx_values.specs.Steps.{TakesAt, TakesNext};
    ghost use Rattle.rsx_merging.specs.Lanes.{next_front, may_take, IsPlaceOf, TakesItem, waiting_after};

    /// No lanes. It takes no memory.
    pub fn new(alloc: Global) -> Lanes<T>
        ensures { result ≡ [] }
    {
        Lanes {
            list: Vec::new(alloc),
        }
    }

    /// How many lanes are live.
    pub(crate) fn len(&self) -> usize
        ensures { result ≡ length self.now }
    {
        self.list.len()
    }

    /// How many items wait in all lanes; at most 2^63-1.
    pub(crate) fn waiting(&self) -> u64
        ensures { result ≡ waiting_after 0 self.now }
    {
        waiting_after(self.list.as_slice(), 0)
    }

    /// Whether no lane is live.
    pub(crate) fn is_empty(&self) -> bool
        ensures { result ≡ is_nil self.now }
    {
        self.list.is_empty()
    }

    /// The lanes one by one, in their order. It takes no memory.
    pub fn into_lanes(self) -> Vec<Lane<T>>
        ensures { result.items ≡ self }
    {
        self.list
    }

    /// Lets all lanes go.
    pub(crate) fn clear(&mut self)
        ensures { self.new ≡ [] }
    {
        self.list.clear();
    }

    /// Puts a lane behind the others.
    ///
    /// # Errors
    /// [`NoMemory`] where the growth was refused. Nothing has changed.
    #[inline(always)]
    pub fn push(&mut self, lane: Lane<T>) -> Result<(), NoMemory>
        ensures ok { OnOk result (self.new ≡ self.old ++ lane ∷ []) }
        ensures err { OnErr result (self.new ≡ self.old) }
    {
        self.list.push(lane)?;
        Ok(())
    }

    /// The place of the first lane with this number, if there is one.
    fn place_of(&self, number: u64) -> Option<usize>
        ensures { IsPlaceOf number self.now result }
    {
        let mut at = 0;
        while at < self.list.len() {
            if self.list[at].number() == number {
                return Some(at);
            }
            at += 1;
        }
        None
    }

    /// Which signal is next in the lane with this number, if there is one.
    pub(crate) fn front(&self, number: u64) -> Option<Front>
        ensures { result ≡ next_front number self.now }
    {
        match self.place_of(number) {
            Some(at) => self.list[at].front(),
            None => None,
        }
    }

    /// Takes the next signal of the lane at this place. A lane whose ending was taken is gone.
    pub(crate) fn take_at(&mut self, at: usize) -> Option<Signal<T>>
        requires { at < length self.old }
        ensures { (i : InputLeft T) → slice_index_or self.old at i ≡ i → TakesAt self.old at i result self.new }
    {
        match self.list[at].front() {
            Some(Front::Item) => self.list[at].take(),
            Some(_) => self.list.remove(at).take(),
            None => None,
        }
    }

    /// Takes the next signal of the lane with this number, if there is one. A lane whose ending was taken is gone.
    pub fn take(&mut self, number: u64) -> Option<Signal<T>>
        ensures { TakesNext number self.old result self.new }
    {
        match self.place_of(number) {
            Some(at) => self.take_at(at),
            None => None,
        }
    }

    /// Takes the next item of the first lane, if an item is next there.
    #[inline]
    pub fn take_first_item(&mut self) -> Option<T>
        ensures { (i : ℕ) → IsPlaceOf i self.old (Some 0) → next_front i self.old ≡ Some Item → TakesItem i self.old result self.new }
    {
        if self.list.is_empty() {
            return None;
        }
        self.list[0].take_item()
    }

    /// The number of the first lane, where an item is next there.
    pub fn first_with_item(&self) -> Option<u64>
        ensures item { IfSome result (λ i. next_front i self.now ≡ Some Item) }
        ensures first { IfSome result (λ i. IsPlaceOf i self.now (Some 0)) }
    {
        match self.list.first() {
            Some(lane) => match lane.front() {
                Some(Front::Item) => Some(lane.number()),
                _ => None,
            },
            None => None,
        }
    }

    /// The place of the lane with this number, if its next signal may be taken; an item may be where `items` says so.
    pub(crate) fn ready_place(&self, number: u64, items: bool) -> Option<usize>
        ensures place { IfSome result (λ k. IsPlaceOf number self.now (Some k)) }
        ensures ready { IfSome result (λ k. may_take (next_front number self.now) items ≡ true) }
        ensures none { IfNone result (may_take (next_front number self.now) items ≡ false) }
    {
        match self.place_of(number) {
            Some(at) => {
                if may_take(self.list[at].front(), items) {
                    Some(at)
                } else {
                    None
                }
            }
            None => None,
        }
    }

    /// The first lane whose next signal may be taken, if there is one; an item may be where `items` says so.
    pub(crate) fn first_ready(&self, items: bool) -> Option<u64>
        ensures some { IfSome result (λ i. may_take (next_front i self.now) items ≡ true) }
        ensures none { IfNone result ((i : ℕ) → may_take (next_front i self.now) items ≡ false) }
    {
        for at in 0..self.list.len() {
            let number = self.list[at].number();
            if may_take(self.front(number), items) {
                return Some(number);
            }
        }
        None
    }
}

/// Copies of lanes.
pub trait CopyingLanes<T: Drop> {
    ghost lanes: { Self → List (InputLeft T) };

    /// The same lanes once more.
    ///
    /// # Errors
    /// [`NoMemory`] where a growth was refused, in `Ops::copy` too.
    fn copied<O: Ops<Item = T>>(&self, alloc: Global, ops: &O) -> Result<Lanes<T>, NoMemory>
        ensures { IfOk result (λ l. l ≡ lanes self.now) };

    /// Puts copies of the lanes, as the inputs of a pick, behind the inputs that are there.
    ///
    /// # Errors
    /// [`NoMemory`] where a growth was refused, in `Ops::copy` too.
    fn copy_lanes<O: Ops<Item = T>>(
        &self,
        alloc: Global,
        ops: &O,
        inputs: &mut Vec<Input<T>>,
    ) -> Result<(), NoMemory>
        ensures { OnOk result (inputs.new.items ≡ inputs.old.items ++ lanes self.now) };
}

/// Copies of a lane.
trait CopyingLane<T: Drop> {
    ghost lane: { Self → InputLeft T };

    /// A copy of the signals that the lane has left.
    fn copied_value<O: Ops<Item = T>>(
        &self,
        alloc: Global,
        ops: &O,
    ) -> Result<StreamValue<T>, NoMemory>
        ensures { IfOk result (λ v. signals v ≡ (lane self.now).1) };

    /// A copy of the lane, as an input of a pick.
    fn copied<O: Ops<Item = T>>(&self, alloc: Global, ops: &O) -> Result<Input<T>, NoMemory>
        ensures { IfOk result (λ i. i ≡ lane self.now) };
}

impl<T: Drop> CopyingLane<T> for Lane<T> {
    ghost lane = { λ l. l };

    fn copied_value<O: Ops<Item = T>>(
        &self,
        alloc: Global,
        ops: &O,
    ) -> Result<StreamValue<T>, NoMemory>
        ensures { IfOk result (λ v. signals v ≡ self.now.1) }
    {
        let mut items = Vec::new(alloc);
        for at in (0..self.reversed.len()).rev() {
            let copy = ops.copy(alloc, &self.reversed[at])?;
            items.push(copy)?;
        }
        Ok(StreamValue::new(items, self.ending))
    }

    fn copied<O: Ops<Item = T>>(&self, alloc: Global, ops: &O) -> Result<Input<T>, NoMemory>
        ensures { IfOk result (λ i. i ≡ self.now) }
    {
        let value = self.copied_value(alloc, ops)?;
        Input::new(alloc, self.number, value)
    }
}

impl<T: Drop> CopyingLanes<T> for Lanes<T> {
    ghost lanes = { λ l. l };

    fn copied<O: Ops<Item = T>>(&self, alloc: Global, ops: &O) -> Result<Lanes<T>, NoMemory>
        ensures { IfOk result (λ l. l ≡ self.now) }
    {
        let mut copy = Lanes::new(alloc);
        for at in 0..self.list.len() {
            let value = self.list[at].copied_value(alloc, ops)?;
            copy.push(Lane::new(self.list[at].number(), value))?;
        }
        Ok(copy)
    }

    fn copy_lanes<O: Ops<Item = T>>(
        &self,
        alloc: Global,
        ops: &O,
        inputs: &mut Vec<Input<T>>,
    ) -> Result<(), NoMemory>
        ensures { OnOk result (inputs.new.items ≡ inputs.old.items ++ self.now) }
    {
        for at in 0..self.list.len() {
            let input = self.list[at].copied(alloc, ops)?;
            inputs.push(input)?;
        }
        Ok(())
    }
}
