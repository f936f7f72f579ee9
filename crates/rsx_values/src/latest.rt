//! Rows of the latest items of several stream values.

ghost use Rattle.std.specs.Prelude.{◌≡◌, List, Option, IfOk, OnOk, option_map, slice_get, slice_set, Some};
ghost use Rattle.rsx_types.specs.Stream.{Stream, items_then};
ghost use Rattle.rsx_values.specs.Latest as spec;
ghost use Rattle.rsx_values.specs.Latest.{all_latest, row_first};

use crate::{Input, pick};
use rsx_types::{Ending, NoMemory, Ops, Signal, StreamValue};
use std::alloc::Global;

/// The latest item of each input, by its number; none of an input that had none.
pub trait Latest<T: Drop> {
    /// The latest items.
    ghost latest: { Self → List (Option T) };

    /// The value of `combineLatest` from these latest items on, over numbered inputs: the signals of a pick, and a row at each
    /// item once every input has had one. It is done where all inputs are, or one is without any item, failed at the failure
    /// that was taken, and else open.
    ///
    /// The answer is none where the choices don't fit: one of them finds no signal, or follows a failure. Behind the completion that
    /// ends the rows a choice has only to find a signal.
    ///
    /// # Errors
    ///
    /// [`NoMemory`] where a growth was refused, in `Ops::copy` and `Ops::row` too.
    fn combine<O: Ops<Item = T>>(
        &mut self,
        alloc: Global,
        ops: &O,
        inputs: Vec<Input<T>>,
        choices: &[u64],
    ) -> Result<Option<StreamValue<T>>, NoMemory>
        ensures { IfOk result (λ v. v ≡ spec.combine (O.meaning ops.now).row_of (latest self.old) choices.now inputs.items) };

    /// The rows over the signals that were taken, where so many inputs had not completed.
    ///
    /// # Errors
    ///
    /// [`NoMemory`] where a growth was refused, in `Ops::copy` and `Ops::row` too.
    fn walk<O: Ops<Item = T>>(
        &mut self,
        alloc: Global,
        ops: &O,
        left: usize,
        taken: Vec<(u64, Signal<T>)>,
    ) -> Result<StreamValue<T>, NoMemory>
        ensures { IfOk result (λ v. v ≡ spec.walk (O.meaning ops.now).row_of (latest self.old) left taken.items) };

    /// Puts the row of the latest items behind others, once every input has had one.
    ///
    /// # Errors
    ///
    /// [`NoMemory`] where a growth was refused, in `Ops::copy` and `Ops::row` too.
    fn push_row<O: Ops<Item = T>>(
        &self,
        alloc: Global,
        ops: &O,
        rows: &mut Vec<T>,
    ) -> Result<(), NoMemory>
        ensures { OnOk result ((v : Stream T) →
            items_then rows.new.items v
            ≡ items_then rows.old.items (row_first (O.meaning ops.now).row_of (all_latest (latest self.now)) v)) };

    /// Copies of the latest items, once every input has had one.
    ///
    /// # Errors
    ///
    /// [`NoMemory`] where a growth was refused, in `Ops::copy` too.
    fn copies<O: Ops<Item = T>>(&self, alloc: Global, ops: &O) -> Result<Option<Vec<T>>, NoMemory>
        ensures { IfOk result (λ o. option_map (λ v. v.items) o ≡ all_latest (latest self.now)) };
}

impl<T: Drop> Latest<T> for Vec<Option<T>> {
    ghost latest = { λ v. v.items };

    fn combine<O: Ops<Item = T>>(
        &mut self,
        alloc: Global,
        ops: &O,
        inputs: Vec<Input<T>>,
        choices: &[u64],
    ) -> Result<Option<StreamValue<T>>, NoMemory>
        ensures { IfOk result (λ v. v ≡ spec.combine (O.meaning ops.now).row_of self.old.items choices.now inputs.items) }
    {
        let left = inputs.len();
        match pick(alloc, inputs, choices)? {
            Some(taken) => Ok(Some(self.walk(alloc, ops, left, taken)?)),
            None => Ok(None),
        }
    }

    #[tactic(auto, using(crate::proofs::Walks::walked_item, crate::proofs::Walks::walked_completion, crate::proofs::Walks::walked_stop, crate::proofs::Walks::walked_failure, crate::proofs::Walks::walked_end))]
    fn walk<O: Ops<Item = T>>(
        &mut self,
        alloc: Global,
        ops: &O,
        left: usize,
        taken: Vec<(u64, Signal<T>)>,
    ) -> Result<StreamValue<T>, NoMemory>
        ensures { IfOk result (λ v. v ≡ spec.walk (O.meaning ops.now).row_of self.old.items left taken.items) }
    {
        let mut rows = Vec::new(alloc);
        let mut left = left;
        for (number, signal) in taken {
            match signal {
                Signal::Next(item) => {
                    set_latest(self, number, item);
                    self.push_row(alloc, ops, &mut rows)?;
                }
                Signal::Complete => {
                    if stops(self.as_slice(), number, left) {
                        return Ok(StreamValue::new(rows, Ending::Done));
                    }
                    left = left.saturating_sub(1);
                }
                Signal::Error(cause) => {
                    return Ok(StreamValue::new(rows, Ending::Failed(cause)));
                }
            }
        }
        if left == 0 {
            return Ok(StreamValue::new(rows, Ending::Done));
        }
        Ok(StreamValue::new(rows, Ending::Open))
    }

    #[tactic(auto, using(crate::proofs::Walks::row_pushed, crate::proofs::Walks::no_row))]
    fn push_row<O: Ops<Item = T>>(
        &self,
        alloc: Global,
        ops: &O,
        rows: &mut Vec<T>,
    ) -> Result<(), NoMemory>
        ensures { OnOk result ((v : Stream T) →
            items_then rows.new.items v
            ≡ items_then rows.old.items (row_first (O.meaning ops.now).row_of (all_latest self.now.items) v)) }
    {
        match self.copies(alloc, ops)? {
            Some(items) => {
                let row = ops.row(alloc, items.as_slice())?;
                rows.push(row)?;
                Ok(())
            }
            None => Ok(()),
        }
    }

    #[tactic(auto, using(crate::proofs::Walks::copied, crate::proofs::Walks::copied_none, crate::proofs::Walks::copied_all))]
    fn copies<O: Ops<Item = T>>(&self, alloc: Global, ops: &O) -> Result<Option<Vec<T>>, NoMemory>
        ensures { IfOk result (λ o. option_map (λ v. v.items) o ≡ all_latest self.now.items) }
    {
        let mut items = Vec::new(alloc);
        for latest in self.iter() {
            match latest {
                Some(item) => {
                    let copy = ops.copy(alloc, item)?;
                    items.push(copy)?;
                }
                None => return Ok(None),
            }
        }
        Ok(Some(items))
    }
}

/// Keeps an item as the latest of its input, if there is one of this number.
fn set_latest<T: Drop>(latest: &mut Vec<Option<T>>, number: u64, item: T)
    ensures { latest.new.items ≡ slice_set latest.old.items number (Some item) }
{
    let at = number as usize;
    if at < latest.len() {
        latest[at] = Some(item);
    }
}

/// Whether a completion of this input ends the rows: it had no item, or it is the last that had not completed.
fn stops<T: Drop>(latest: &[Option<T>], number: u64, left: usize) -> bool
    ensures { result ≡ spec.stops latest.now number left }
{
    if left <= 1 {
        return true;
    }
    match latest.get(number as usize) {
        Some(Some(_)) => false,
        Some(None) | None => true,
    }
}
