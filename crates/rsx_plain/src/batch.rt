//! Items that go through a plain operator one after the other, in the list in which they stand.
//!
//! For each operator there is a loop of its own, so that no item asks which operator it is. Who tries a batch copies the operator first, so
//! one that keeps many items or keys takes no part.

ghost use Rattle.std.specs.Prelude.{◌≡◌, ◌∷◌, [], ℕ, List, true, IfSome};
ghost use Rattle.rsx_types.specs.Meaning.{Meaning};
ghost use Rattle.rsx_types.specs.declared.signal.Signal.TheVariants.{Next};
ghost use Rattle.rsx_plain.specs.Passes.{GoThrough, PutsOut};
ghost use Rattle.rsx_plain.specs.declared.state.PlainState.{PlainState as PlainStateSpec};
ghost use Rattle.rsx_plain.specs.declared.state.PlainState.TheVariants.{Map as MapFrom, Filter as FilterFrom, Take as TakeFrom, Scan as ScanFrom, Buffer as BufferFrom, Distinct as DistinctFrom};

use crate::pass::Through;
use crate::state::PlainState;
use rsx_collections::{Buffered, Copied, Keys};
use rsx_sources::Passed;
use rsx_types::{NoMemory, Ops};
use std::alloc::Global;
use std::mem;

/// The longest list that a `buffer` makes, and the most keys that a `distinct` has seen, that takes part in batches.
const FEW: u64 = 16;

/// An operator through which items go one after the other.
pub trait PassingAll<T: Drop> {
    /// The operator's state.
    ghost state: { Self → PlainStateSpec T };

    /// For how many items at most it is worth to try a batch: none where it keeps many items or keys. The answer promises nothing.
    fn most(&self) -> u64;

    /// The same operator once more, on which a batch is tried. None where it isn't worth that, and for want of memory.
    fn copy_for_batch<O: Ops<Item = T>>(&self, alloc: Global, ops: &O) -> Option<Self>
        ensures { IfSome result (λ copy. copy ≡ self.now) };

    /// Takes items in, one after the other. What is put out for them is in `items` then: for each an item, or nothing. `spare` is
    /// room for that. It answers no where an item is declined, as [`Machine::pass`](rsx_sources::Machine::pass) declines it, where
    /// all that are left of a `take` would go through, and for want of memory; then neither the operator nor the items are of use.
    fn pass_all<O: Ops<Item = T>>(
        &mut self,
        alloc: Global,
        ops: &O,
        items: &mut Vec<T>,
        spare: &mut Vec<T>,
    ) -> bool
        ensures { result ≡ true → GoThrough (O.meaning ops.now) (state self.old) items.old.items items.new.items (state self.new) };
}

impl<T: Drop> PassingAll<T> for PlainState<T> {
    ghost state = { λ s. s };

    fn most(&self) -> u64 {
        match self {
            PlainState::Take { count: _, left } => left.saturating_sub(1),
            PlainState::Buffer { size, gathered: _ } => most_if(*size <= FEW),
            PlainState::Distinct {
                function: _,
                keys,
                repeated: _,
            } => most_if(keys.len() <= FEW),
            _ => u64::MAX,
        }
    }

    fn copy_for_batch<O: Ops<Item = T>>(&self, alloc: Global, ops: &O) -> Option<PlainState<T>> {
        if self.most() == 0 {
            return None;
        }
        match self.copied(alloc, ops) {
            Ok(copy) => Some(copy),
            Err(NoMemory) => None,
        }
    }

    #[inline(always)]
    fn pass_all<O: Ops<Item = T>>(
        &mut self,
        alloc: Global,
        ops: &O,
        items: &mut Vec<T>,
        spare: &mut Vec<T>,
    ) -> bool {
        match self {
            PlainState::Map { function } => items.map_all(alloc, ops, *function),
            PlainState::Filter { function, dropped } => {
                items.filter_all(ops, *function, dropped, spare)
            }
            PlainState::Take { count: _, left } => let_all_through(left, items.as_slice()),
            PlainState::Scan { function, last } => items.scan_all(alloc, ops, *function, last),
            PlainState::Buffer { size, gathered } => {
                items.buffer_all(alloc, ops, *size, gathered, spare)
            }
            PlainState::Distinct {
                function,
                keys,
                repeated,
            } => items.distinct_all(ops, *function, keys, repeated, spare),
        }
    }
}

/// As many items as there are, or none.
fn most_if(worth: bool) -> u64 {
    if worth { u64::MAX } else { 0 }
}

/// An item in whose place another one is put.
trait InPlace: Drop {
    /// Puts the answer of a function in its place. It answers no for a fault and for want of memory.
    fn map_in_place<O: Ops<Item = Self>>(&mut self, alloc: Global, ops: &O, function: u16) -> bool
        ensures { result ≡ true → PutsOut (O.meaning ops.now) (MapFrom function) self.old (Next self.new ∷ []) (MapFrom function) };

    /// Puts the accumulation in its place, and a copy of that in the place of the last one. It answers no for a fault and for want of
    /// memory.
    fn scan_in_place<O: Ops<Item = Self>>(
        &mut self,
        alloc: Global,
        ops: &O,
        function: u16,
        last: &mut Self,
    ) -> bool
        ensures { result ≡ true → PutsOut (O.meaning ops.now) (ScanFrom function last.old) self.old (Next self.new ∷ []) (ScanFrom function last.new) };
}

impl<T: Drop> InPlace for T {
    #[inline(always)]
    fn map_in_place<O: Ops<Item = T>>(&mut self, alloc: Global, ops: &O, function: u16) -> bool {
        match ops.map(alloc, function, self) {
            Ok(answer) => {
                *self = answer;
                true
            }
            Err(_) => false,
        }
    }

    #[inline(always)]
    fn scan_in_place<O: Ops<Item = T>>(
        &mut self,
        alloc: Global,
        ops: &O,
        function: u16,
        last: &mut T,
    ) -> bool {
        match ops.fold(alloc, function, last, self) {
            Ok(next) => match ops.copy(alloc, &next) {
                Ok(copy) => {
                    *last = next;
                    *self = copy;
                    true
                }
                Err(NoMemory) => false,
            },
            Err(_) => false,
        }
    }
}

/// A list of items, through each of the operators. The answer is no for a fault and for want of memory.
trait AllThrough<T: Drop> {
    /// The items.
    ghost items: { Self → List T };

    /// Puts the answer of a function in the place of each item.
    fn map_all<O: Ops<Item = T>>(&mut self, alloc: Global, ops: &O, function: u16) -> bool
        ensures { result ≡ true → GoThrough (O.meaning ops.now) (MapFrom function) (items self.old) (items self.new) (MapFrom function) };

    /// Leaves the items whose test is true, and counts the others.
    fn filter_all<O: Ops<Item = T>>(
        &mut self,
        ops: &O,
        function: u16,
        dropped: &mut u64,
        spare: &mut Vec<T>,
    ) -> bool
        ensures { result ≡ true → GoThrough (O.meaning ops.now) (FilterFrom function dropped.old) (items self.old) (items self.new) (FilterFrom function dropped.new) };

    /// Puts the accumulation up to each item in its place.
    fn scan_all<O: Ops<Item = T>>(
        &mut self,
        alloc: Global,
        ops: &O,
        function: u16,
        last: &mut T,
    ) -> bool
        ensures { result ≡ true → GoThrough (O.meaning ops.now) (ScanFrom function last.old) (items self.old) (items self.new) (ScanFrom function last.new) };

    /// Leaves the lists that become full with the items in their place.
    fn buffer_all<O: Ops<Item = T>>(
        &mut self,
        alloc: Global,
        ops: &O,
        size: u64,
        gathered: &mut Buffered<T>,
        spare: &mut Vec<T>,
    ) -> bool
        ensures { result ≡ true → GoThrough (O.meaning ops.now) (BufferFrom size gathered.old) (items self.old) (items self.new) (BufferFrom size gathered.new) };

    /// Leaves the items whose key is new, and counts the others.
    fn distinct_all<O: Ops<Item = T>>(
        &mut self,
        ops: &O,
        function: u16,
        keys: &mut Keys,
        repeated: &mut u64,
        spare: &mut Vec<T>,
    ) -> bool
        ensures { result ≡ true → GoThrough (O.meaning ops.now) (DistinctFrom function keys.old repeated.old) (items self.old) (items self.new) (DistinctFrom function keys.new repeated.new) };
}

impl<T: Drop> AllThrough<T> for Vec<T> {
    ghost items = { λ v. v.items };

    #[inline]
    fn map_all<O: Ops<Item = T>>(&mut self, alloc: Global, ops: &O, function: u16) -> bool {
        for item in self.iter_mut() {
            if !item.map_in_place(alloc, ops, function) {
                return false;
            }
        }
        true
    }

    #[inline]
    fn filter_all<O: Ops<Item = T>>(
        &mut self,
        ops: &O,
        function: u16,
        dropped: &mut u64,
        spare: &mut Vec<T>,
    ) -> bool {
        spare.clear();
        if spare.reserve(self.len()).is_err() {
            return false;
        }
        self.reverse();
        while let Some(item) = self.pop() {
            match item.through_filter(ops, function, dropped) {
                Passed::Item(out) => spare.push_reserved(out),
                Passed::Kept => {}
                Passed::Declined(_) => return false,
            }
        }
        mem::swap(self, spare);
        true
    }

    #[inline]
    fn scan_all<O: Ops<Item = T>>(
        &mut self,
        alloc: Global,
        ops: &O,
        function: u16,
        last: &mut T,
    ) -> bool {
        for item in self.iter_mut() {
            if !item.scan_in_place(alloc, ops, function, last) {
                return false;
            }
        }
        true
    }

    #[inline]
    fn buffer_all<O: Ops<Item = T>>(
        &mut self,
        alloc: Global,
        ops: &O,
        size: u64,
        gathered: &mut Buffered<T>,
        spare: &mut Vec<T>,
    ) -> bool {
        spare.clear();
        if spare.reserve(self.len()).is_err() {
            return false;
        }
        self.reverse();
        while let Some(item) = self.pop() {
            match item.through_buffer(alloc, ops, size, gathered) {
                Passed::Item(list) => spare.push_reserved(list),
                Passed::Kept => {}
                Passed::Declined(_) => return false,
            }
        }
        mem::swap(self, spare);
        true
    }

    #[inline]
    fn distinct_all<O: Ops<Item = T>>(
        &mut self,
        ops: &O,
        function: u16,
        keys: &mut Keys,
        repeated: &mut u64,
        spare: &mut Vec<T>,
    ) -> bool {
        spare.clear();
        if spare.reserve(self.len()).is_err() {
            return false;
        }
        self.reverse();
        while let Some(item) = self.pop() {
            match item.through_distinct(ops, function, keys, repeated) {
                Passed::Item(out) => spare.push_reserved(out),
                Passed::Kept => {}
                Passed::Declined(_) => return false,
            }
        }
        mem::swap(self, spare);
        true
    }
}

/// Counts these items as let through, where more are left. They stay as they are.
fn let_all_through<T: Drop>(left: &mut u64, items: &[T]) -> bool
    ensures { result ≡ true → ((m : Meaning T) (count : ℕ) → GoThrough m (TakeFrom count left.old) items.now items.now (TakeFrom count left.new)) }
{
    let through = items.len() as u64;
    if through >= *left {
        return false;
    }
    *left -= through;
    true
}
