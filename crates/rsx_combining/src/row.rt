//! The items of one row.

ghost use Rattle.std.specs.Prelude.{◌≡◌, ◌≤◌, ◌+◌, ◌++◌, ◌∷◌, [], ℕ, List, true, false, length, vec_capacity, IsOk, IfOk, IfSome, IfNone, OnOk, OnErr};
ghost use Rattle.rsx_queued.specs.Input.{next_signal};
ghost use Rattle.rsx_values.specs.Zip.{heads};
ghost use Rattle.rsx_combining.specs.Inputs.{IsNextRow, all_have_items, all_shortened, is_item, queued};

use rsx_queued::QueuedInput;
use rsx_sources::Front;
use rsx_types::{NoMemory, Ops};
use std::alloc::Global;

/// Whether an item is next at this input.
fn is_item_next<T: Drop>(input: &QueuedInput<T>) -> bool
    ensures { result ≡ is_item (next_signal input.now) }
{
    matches!(input.front(), Some(Front::Item))
}

/// Whether an item is next at each input.
pub(crate) fn all_have_items<T: Drop>(inputs: &[QueuedInput<T>]) -> bool
    ensures { result ≡ all_have_items inputs.now }
{
    match inputs.split_first() {
        None => true,
        Some((first, others)) => is_item_next(first) && all_have_items(others),
    }
}

/// The items of one row, gathered input by input.
pub trait Gathered<T: Drop> {
    /// The items so far.
    ghost so_far: { Self → List T };

    /// How many items fit in all without a growth.
    ghost capacity: { Self → ℕ };

    /// The row of the items so far and of the next item of each of these inputs, in their order. Those items are taken out
    /// of the inputs.
    ///
    /// # Errors
    /// [`NoMemory`] where `Ops::row` answers it. Then the inputs are as they were, and so are the items so far.
    fn row_with<O: Ops<Item = T>>(
        &mut self,
        alloc: Global,
        ops: &O,
        inputs: &mut [QueuedInput<T>],
    ) -> Result<T, NoMemory>
        requires items { all_have_items inputs.old ≡ true }
        requires fits { length (so_far self.old) + length inputs.old ≤ capacity self.old }
        ensures row { IfOk result (λ y. y ≡ (O.meaning ops.now).row_of (so_far self.old ++ heads (queued inputs.old))) }
        ensures taken { OnOk result (inputs.new ≡ all_shortened inputs.old) }
        ensures same { OnErr result (inputs.new ≡ inputs.old) }
        ensures kept { OnErr result (so_far self.new ≡ so_far self.old) }
        ensures room { capacity self.old ≤ capacity self.new }
        ensures memory { (O.allocates ops.now).row_of ≡ false → IsOk result };

    /// The row of the next item of each of these two inputs, where each has one. Those items are taken out of the inputs. Without a
    /// row nothing has changed. Nothing is gathered before or after.
    fn row_of_two<O: Ops<Item = T>>(
        &mut self,
        alloc: Global,
        ops: &O,
        first: &mut QueuedInput<T>,
        second: &mut QueuedInput<T>,
    ) -> Option<T>
        requires empty { so_far self.old ≡ [] }
        requires fits { 2 ≤ capacity self.old }
        ensures row { IfSome result (λ y. IsNextRow (O.meaning ops.now) (first.old ∷ second.old ∷ []) y (first.new ∷ second.new ∷ [])) }
        ensures first { IfNone result (first.new ≡ first.old) }
        ensures second { IfNone result (second.new ≡ second.old) }
        ensures empty { so_far self.new ≡ [] }
        ensures room { capacity self.old ≤ capacity self.new };

    /// The same, where the second input is the only one of these others.
    fn row_with_other<O: Ops<Item = T>>(
        &mut self,
        alloc: Global,
        ops: &O,
        first: &mut QueuedInput<T>,
        others: &mut [QueuedInput<T>],
    ) -> Option<T>
        requires empty { so_far self.old ≡ [] }
        requires fits { 2 ≤ capacity self.old }
        requires one { length others.old ≡ 1 }
        ensures row { IfSome result (λ y. IsNextRow (O.meaning ops.now) (first.old ∷ others.old) y (first.new ∷ others.new)) }
        ensures first { IfNone result (first.new ≡ first.old) }
        ensures others { IfNone result (others.new ≡ others.old) }
        ensures empty { so_far self.new ≡ [] }
        ensures room { capacity self.old ≤ capacity self.new };

    /// The same of any number of inputs, where there are some and each has an item.
    fn row_of_all<O: Ops<Item = T>>(
        &mut self,
        alloc: Global,
        ops: &O,
        inputs: &mut [QueuedInput<T>],
    ) -> Option<T>
        requires empty { so_far self.old ≡ [] }
        requires fits { length inputs.old ≤ capacity self.old }
        ensures row { IfSome result (λ y. IsNextRow (O.meaning ops.now) inputs.old y inputs.new) }
        ensures same { IfNone result (inputs.new ≡ inputs.old) }
        ensures empty { so_far self.new ≡ [] }
        ensures room { capacity self.old ≤ capacity self.new };

    /// The same, by a shorter way where there are two inputs, as most zips have.
    fn next_row<O: Ops<Item = T>>(
        &mut self,
        alloc: Global,
        ops: &O,
        inputs: &mut [QueuedInput<T>],
    ) -> Option<T>
        requires empty { so_far self.old ≡ [] }
        requires fits { length inputs.old ≤ capacity self.old }
        ensures row { IfSome result (λ y. IsNextRow (O.meaning ops.now) inputs.old y inputs.new) }
        ensures same { IfNone result (inputs.new ≡ inputs.old) }
        ensures empty { so_far self.new ≡ [] }
        ensures room { capacity self.old ≤ capacity self.new };
}

impl<T: Drop> Gathered<T> for Vec<T> {
    ghost so_far = { λ r. r.items };

    ghost capacity = { vec_capacity };

    fn row_with<O: Ops<Item = T>>(
        &mut self,
        alloc: Global,
        ops: &O,
        inputs: &mut [QueuedInput<T>],
    ) -> Result<T, NoMemory> {
        match inputs.split_first_mut() {
            None => ops.row(alloc, self.as_slice()),
            Some((first, others)) => match first.queue.lift() {
                None => unreachable!(),
                Some(item) => {
                    self.push_reserved(item);
                    match self.row_with(alloc, ops, others) {
                        Ok(row) => {
                            first.queue.count_taken();
                            Ok(row)
                        }
                        Err(NoMemory) => {
                            match self.pop() {
                                None => unreachable!(),
                                Some(item) => first.queue.put_front(item),
                            }
                            Err(NoMemory)
                        }
                    }
                }
            },
        }
    }

    #[inline(always)]
    fn row_of_two<O: Ops<Item = T>>(
        &mut self,
        alloc: Global,
        ops: &O,
        first: &mut QueuedInput<T>,
        second: &mut QueuedInput<T>,
    ) -> Option<T> {
        if !is_item_next(first) || !is_item_next(second) {
            return None;
        }
        let (Some(one), Some(two)) = (first.queue.lift(), second.queue.lift()) else {
            unreachable!()
        };
        self.push_reserved(one);
        self.push_reserved(two);
        match ops.row(alloc, self.as_slice()) {
            Ok(row) => {
                self.clear();
                first.queue.count_taken();
                second.queue.count_taken();
                Some(row)
            }
            Err(NoMemory) => {
                let (Some(two), Some(one)) = (self.pop(), self.pop()) else {
                    unreachable!()
                };
                first.queue.put_front(one);
                second.queue.put_front(two);
                None
            }
        }
    }

    #[inline(always)]
    fn row_with_other<O: Ops<Item = T>>(
        &mut self,
        alloc: Global,
        ops: &O,
        first: &mut QueuedInput<T>,
        others: &mut [QueuedInput<T>],
    ) -> Option<T> {
        self.row_of_two(alloc, ops, first, &mut others[0])
    }

    fn row_of_all<O: Ops<Item = T>>(
        &mut self,
        alloc: Global,
        ops: &O,
        inputs: &mut [QueuedInput<T>],
    ) -> Option<T> {
        if inputs.is_empty() || !all_have_items(inputs) {
            return None;
        }
        match self.row_with(alloc, ops, inputs) {
            Ok(row) => {
                self.clear();
                Some(row)
            }
            Err(NoMemory) => None,
        }
    }

    #[inline(always)]
    fn next_row<O: Ops<Item = T>>(
        &mut self,
        alloc: Global,
        ops: &O,
        inputs: &mut [QueuedInput<T>],
    ) -> Option<T> {
        if inputs.len() != 2 {
            return self.row_of_all(alloc, ops, inputs);
        }
        match inputs.split_first_mut() {
            None => unreachable!(),
            Some((first, others)) => self.row_with_other(alloc, ops, first, others),
        }
    }
}
