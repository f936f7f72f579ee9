//! The row of the latest items, and the choice that goes with it.

ghost use Rattle.std.specs.Prelude.{◌≡◌, ◌≤◌, ◌+◌, ◌++◌, ◌∷◌, [], Some, ℕ, List, true, length, slice_set, option_map, IfSome, IfNone, IfOk, IfErr, OnOk, OnErr};
ghost use Rattle.rsx_values.specs.Latest.{all_latest};
ghost use Rattle.rsx_values.specs.Record.{written};
ghost use Rattle.rsx_combining.specs.Latest.{all_there, gives_row};

use rsx_types::{NoMemory, Ops};
use rsx_values::Record;
use std::alloc::Global;
use std::mem;

/// The items of one row of latest items.
pub trait LatestRow<T: Drop> {
    /// The items so far.
    ghost so_far: { Self → List T };

    /// How many items fit in all without a growth.
    ghost capacity: { Self → ℕ };

    /// The row of these items, where it could be made and the choice of this input be added. Else the choices are as they
    /// were.
    fn chosen_row<O: Ops<Item = T>>(
        &self,
        alloc: Global,
        ops: &O,
        choices: &mut Record,
        input: u64,
    ) -> Option<T>
        ensures row { IfSome result (λ y. y ≡ (O.meaning ops.now).row_of (so_far self.now)) }
        ensures choice { IfSome result (λ y. written choices.new ≡ written choices.old ++ input ∷ []) }
        ensures none { IfNone result (choices.new ≡ choices.old) };

    /// The same for the items so far and all of these latest items behind them, which are moved there. Where there is no row
    /// nothing has changed.
    fn first_row<O: Ops<Item = T>>(
        &mut self,
        alloc: Global,
        ops: &O,
        choices: &mut Record,
        input: u64,
        latest: &mut [Option<T>],
    ) -> Option<T>
        requires fits { length (so_far self.old) + length latest.old ≤ capacity self.old }
        requires there { all_there latest.old ≡ true }
        ensures row { IfSome result (λ y. y ≡ (O.meaning ops.now).row_of (so_far self.new)) }
        ensures moved { IfSome result (λ y.
            Some (so_far self.new) ≡ option_map (λ xs. so_far self.old ++ xs) (all_latest latest.old)) }
        ensures choice { IfSome result (λ y. written choices.new ≡ written choices.old ++ input ∷ []) }
        ensures kept { IfNone result (so_far self.new ≡ so_far self.old) }
        ensures latest { IfNone result (latest.new ≡ latest.old) }
        ensures none { IfNone result (choices.new ≡ choices.old) }
        ensures room { capacity self.old ≤ capacity self.new };

    /// The first row: that of these latest items with the item of this input among them, which is the last that was missing.
    /// They are moved here, and the choice of the input is added.
    ///
    /// # Errors
    /// The item, where `Ops::row` or a growth for the choice was refused. Nothing has changed.
    fn row_of_last<O: Ops<Item = T>>(
        &mut self,
        alloc: Global,
        ops: &O,
        choices: &mut Record,
        latest: &mut Vec<Option<T>>,
        at: usize,
        item: T,
    ) -> Result<T, T>
        requires empty { so_far self.old ≡ [] }
        requires fits { length latest.old.items ≤ capacity self.old }
        requires gives { gives_row latest.old.items at ≡ true }
        ensures row { IfOk result (λ y. y ≡ (O.meaning ops.now).row_of (so_far self.new)) }
        ensures moved { OnOk result (Some (so_far self.new) ≡ all_latest (slice_set latest.old.items at (Some item))) }
        ensures cleared { OnOk result (latest.new.items ≡ []) }
        ensures choice { OnOk result (written choices.new ≡ written choices.old ++ at ∷ []) }
        ensures item { IfErr result (λ x. x ≡ item) }
        ensures kept { OnErr result (so_far self.new ≡ so_far self.old) }
        ensures latest { OnErr result (latest.new.items ≡ latest.old.items) }
        ensures choices { OnErr result (choices.new ≡ choices.old) }
        ensures room { capacity self.old ≤ capacity self.new };
}

impl<T: Drop> LatestRow<T> for Vec<T> {
    ghost use Rattle.std.specs.Prelude.{vec_capacity};

    ghost so_far = { λ r. r.items };

    ghost capacity = { vec_capacity };

    #[inline]
    fn chosen_row<O: Ops<Item = T>>(
        &self,
        alloc: Global,
        ops: &O,
        choices: &mut Record,
        input: u64,
    ) -> Option<T> {
        match ops.row(alloc, self.as_slice()) {
            Ok(row) => match choices.push(input) {
                Ok(()) => Some(row),
                Err(_) => None,
            },
            Err(_) => None,
        }
    }

    #[tactic(auto, using(crate::proofs::Gives::moved_more))]
    fn first_row<O: Ops<Item = T>>(
        &mut self,
        alloc: Global,
        ops: &O,
        choices: &mut Record,
        input: u64,
        latest: &mut [Option<T>],
    ) -> Option<T> {
        match latest.split_first_mut() {
            None => self.chosen_row(alloc, ops, choices, input),
            Some((first, others)) => match first.take() {
                None => unreachable!(),
                Some(item) => {
                    self.push_reserved(item);
                    match self.first_row(alloc, ops, choices, input, others) {
                        Some(row) => Some(row),
                        None => {
                            *first = self.pop();
                            None
                        }
                    }
                }
            },
        }
    }

    // Not inlined, so that what makes the later rows stays small.
    #[inline(never)]
    #[tactic(auto, using(crate::proofs::Gives::there_with))]
    fn row_of_last<O: Ops<Item = T>>(
        &mut self,
        alloc: Global,
        ops: &O,
        choices: &mut Record,
        latest: &mut Vec<Option<T>>,
        at: usize,
        item: T,
    ) -> Result<T, T> {
        let before = mem::replace(&mut latest[at], Some(item));
        match self.first_row(alloc, ops, choices, at as u64, latest.as_mut_slice()) {
            Some(row) => {
                latest.clear();
                Ok(row)
            }
            None => match mem::replace(&mut latest[at], before) {
                Some(item) => Err(item),
                None => unreachable!(),
            },
        }
    }
}
