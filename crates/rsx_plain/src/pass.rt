//! An item that goes through a plain operator in one go, without its out slot.
//!
//! An operator declines what it would answer with more than an item: a fault of the caller's function, and the last item of
//! a `take`. It answers those by [`react`](crate::Operator::react).

ghost use Rattle.std.specs.Prelude.{◌+◌, ◌≤◌, ℕ, length, IfOk, IfErr};
ghost use Rattle.rsx_types.specs.Meaning.{Meaning};
ghost use Rattle.rsx_plain.specs.Passes.{GoesThrough};
ghost use Rattle.rsx_plain.specs.declared.state.PlainState.TheVariants.{Map as MapFrom, Filter as FilterFrom, Take as TakeFrom, Scan as ScanFrom, Buffer as BufferFrom, Distinct as DistinctFrom};

use rsx_collections::{Buffered, Keys};
use rsx_demand::UNBOUNDED;
use rsx_sources::Passed;
use rsx_types::{NoMemory, Ops};
use std::alloc::Global;

/// An item, through each of the operators.
pub(crate) trait Through: Drop {
    /// The answer of a function.
    fn through_map<O: Ops<Item = Self>>(self, alloc: Global, ops: &O, function: u16) -> Passed<Self>
        ensures { GoesThrough (O.meaning ops.now) (MapFrom function) self result (MapFrom function) };

    /// The item where its test is true; where it is false it is counted.
    fn through_filter<O: Ops<Item = Self>>(
        self,
        ops: &O,
        function: u16,
        dropped: &mut u64,
    ) -> Passed<Self>
        ensures { GoesThrough (O.meaning ops.now) (FilterFrom function dropped.old) self result (FilterFrom function dropped.new) };

    /// The item where it isn't the last of those that are left.
    fn through_take(self, left: &mut u64) -> Passed<Self>
        ensures { (m : Meaning Self) (count : ℕ) → GoesThrough m (TakeFrom count left.old) self result (TakeFrom count left.new) };

    /// The accumulation, of which a copy is kept as the last one.
    fn through_scan<O: Ops<Item = Self>>(
        self,
        alloc: Global,
        ops: &O,
        function: u16,
        last: &mut Self,
    ) -> Passed<Self>
        ensures { GoesThrough (O.meaning ops.now) (ScanFrom function last.old) self result (ScanFrom function last.new) };

    /// The list that becomes full with the item, if it does.
    fn through_buffer<O: Ops<Item = Self>>(
        self,
        alloc: Global,
        ops: &O,
        size: u64,
        gathered: &mut Buffered<Self>,
    ) -> Passed<Self>
        ensures { GoesThrough (O.meaning ops.now) (BufferFrom size gathered.old) self result (BufferFrom size gathered.new) };

    /// The list that becomes full with the item. For want of memory the item comes back.
    fn through_full_buffer<O: Ops<Item = Self>>(
        self,
        alloc: Global,
        ops: &O,
        size: u64,
        gathered: &mut Buffered<Self>,
    ) -> Result<Self, Self>
        requires { size ≤ length gathered.old + 1 }
        ensures ok { IfOk result (λ list.
            GoesThrough (O.meaning ops.now) (BufferFrom size gathered.old) self (Passed.Item list) (BufferFrom size gathered.new)) }
        ensures err { IfErr result (λ item.
            GoesThrough (O.meaning ops.now) (BufferFrom size gathered.old) self (Passed.Declined item) (BufferFrom size gathered.new)) };

    /// The item where its key is new; where its key was seen it is counted.
    fn through_distinct<O: Ops<Item = Self>>(
        self,
        ops: &O,
        function: u16,
        keys: &mut Keys,
        repeated: &mut u64,
    ) -> Passed<Self>
        ensures { GoesThrough (O.meaning ops.now) (DistinctFrom function keys.old repeated.old) self result
            (DistinctFrom function keys.new repeated.new) };
}

impl<T: Drop> Through for T {
    fn through_map<O: Ops<Item = T>>(self, alloc: Global, ops: &O, function: u16) -> Passed<T> {
        match ops.map(alloc, function, &self) {
            Ok(answer) => Passed::Item(answer),
            Err(_) => Passed::Declined(self),
        }
    }

    fn through_filter<O: Ops<Item = T>>(
        self,
        ops: &O,
        function: u16,
        dropped: &mut u64,
    ) -> Passed<T> {
        match ops.test(function, &self) {
            Ok(true) => Passed::Item(self),
            Ok(false) => {
                *dropped = dropped.saturating_add(1).min(UNBOUNDED);
                Passed::Kept
            }
            Err(_) => Passed::Declined(self),
        }
    }

    fn through_take(self, left: &mut u64) -> Passed<T> {
        if *left <= 1 {
            return Passed::Declined(self);
        }
        *left -= 1;
        Passed::Item(self)
    }

    fn through_scan<O: Ops<Item = T>>(
        self,
        alloc: Global,
        ops: &O,
        function: u16,
        last: &mut T,
    ) -> Passed<T> {
        match ops.fold(alloc, function, last, &self) {
            Ok(next) => match ops.copy(alloc, &next) {
                Ok(copy) => {
                    *last = next;
                    Passed::Item(copy)
                }
                Err(NoMemory) => Passed::Declined(self),
            },
            Err(_) => Passed::Declined(self),
        }
    }

    #[inline]
    fn through_buffer<O: Ops<Item = T>>(
        self,
        alloc: Global,
        ops: &O,
        size: u64,
        gathered: &mut Buffered<T>,
    ) -> Passed<T> {
        if (gathered.items().len() as u64) >= size.saturating_sub(1) {
            return match self.through_full_buffer(alloc, ops, size, gathered) {
                Ok(list) => Passed::Item(list),
                Err(item) => Passed::Declined(item),
            };
        }
        match gathered.push(self) {
            Ok(()) => Passed::Kept,
            Err(item) => Passed::Declined(item),
        }
    }

    // A list seldom becomes full, so this isn't inlined. It answers a `Result`: a call that answers `Passed` as it is makes the
    // compiler join the answers of all operators, and test again which of the three came.
    #[inline(never)]
    fn through_full_buffer<O: Ops<Item = T>>(
        self,
        alloc: Global,
        ops: &O,
        size: u64,
        gathered: &mut Buffered<T>,
    ) -> Result<T, T> {
        gathered.push(self)?;
        match ops.list(alloc, gathered.items()) {
            Ok(list) => {
                gathered.clear();
                Ok(list)
            }
            Err(NoMemory) => Err(gathered.pop().unwrap()),
        }
    }

    #[inline(always)]
    fn through_distinct<O: Ops<Item = T>>(
        self,
        ops: &O,
        function: u16,
        keys: &mut Keys,
        repeated: &mut u64,
    ) -> Passed<T> {
        match ops.key(function, &self) {
            Ok(key) => match keys.note(key) {
                Ok(false) => Passed::Item(self),
                Ok(true) => {
                    *repeated = repeated.saturating_add(1).min(UNBOUNDED);
                    Passed::Kept
                }
                Err(NoMemory) => Passed::Declined(self),
            },
            Err(_) => Passed::Declined(self),
        }
    }
}
