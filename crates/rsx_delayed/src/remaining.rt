//! What a merge that delays failures still gives where nothing more is chosen.

ghost use Rattle.std.specs.Prelude.{◌≡◌, List, length, IfOk};
ghost use Rattle.rsx_types.specs.Stream.{Stream};
ghost use Rattle.rsx_delayed.specs.Rest.{all_values};

use rsx_queued::{QueuedInput, Remaining};
use rsx_types::{Cause, Ending, NoMemory, Ops, StreamValue};
use rsx_values::{ending_behind, first_cause};
use std::alloc::Global;

/// What still comes out of inputs whose endings were not taken out.
pub(crate) trait ValuesLeft<T: Drop> {
    /// The values so far.
    ghost so_far: { Self → List (Stream T) };

    ghost use Rattle.std.specs.Prelude.{◌≡◌, ◌++◌, [], OnOk};
    ghost use Rattle.rsx_queued.specs.Input.{still};
    ghost use Rattle.rsx_delayed.specs.Rest.{value_before, values_left};

    /// Puts what still comes out of an input behind those so far, where these items with this ending still come in, unless its
    /// ending was taken out.
    ///
    /// # Errors
    /// [`NoMemory`] where a growth was refused, in `Ops::copy` too.
    fn push_value<O: Ops<Item = T>>(
        &mut self,
        alloc: Global,
        ops: &O,
        input: &QueuedInput<T>,
        items: &[T],
        ending: Ending,
    ) -> Result<(), NoMemory>
        ensures { OnOk result
            (so_far self.new ≡ so_far self.old ++ value_before (still input.now (record { items = items.now; ending = ending })) []) };

    /// Puts what still comes out of each input behind those so far, where these values still come in; at an input without a
    /// value nothing does.
    ///
    /// # Errors
    /// [`NoMemory`] where a growth was refused, in `Ops::copy` too.
    fn push_values<O: Ops<Item = T>>(
        &mut self,
        alloc: Global,
        ops: &O,
        inputs: &[QueuedInput<T>],
        incoming: &[StreamValue<T>],
    ) -> Result<(), NoMemory>
        ensures { OnOk result (so_far self.new ≡ so_far self.old ++ values_left inputs.now incoming.now) };
}

impl<T: Drop> ValuesLeft<T> for Vec<StreamValue<T>> {
    ghost so_far = { λ v. v.items };

    fn push_value<O: Ops<Item = T>>(
        &mut self,
        alloc: Global,
        ops: &O,
        input: &QueuedInput<T>,
        items: &[T],
        ending: Ending,
    ) -> Result<(), NoMemory> {
        match input.rest(alloc, ops, items, ending)? {
            Some(value) => {
                self.push(value)?;
                Ok(())
            }
            None => Ok(()),
        }
    }

    fn push_values<O: Ops<Item = T>>(
        &mut self,
        alloc: Global,
        ops: &O,
        inputs: &[QueuedInput<T>],
        incoming: &[StreamValue<T>],
    ) -> Result<(), NoMemory> {
        match inputs.split_first() {
            None => Ok(()),
            Some((first, others)) => match incoming.split_first() {
                None => {
                    self.push_value(alloc, ops, first, &[], Ending::Open)?;
                    self.push_values(alloc, ops, others, incoming)
                }
                Some((value, behind)) => {
                    self.push_value(alloc, ops, first, value.items(), value.ending())?;
                    self.push_values(alloc, ops, others, behind)
                }
            },
        }
    }
}

/// One value behind the other: their items, failed at the first failure, where this one was taken before them, and done where
/// there is none; open where one of them is.
///
/// # Errors
/// [`NoMemory`] where a growth was refused.
pub(crate) fn all_values<T: Drop>(
    alloc: Global,
    kept: Option<Cause>,
    values: Vec<StreamValue<T>>,
) -> Result<StreamValue<T>, NoMemory>
    ensures { IfOk result (λ v. v ≡ all_values (length values.items) kept values.items) }
{
    let mut left = values.len();
    let mut first = kept;
    let mut all = Vec::new(alloc);
    for value in values {
        match value.ending() {
            Ending::Open => {}
            Ending::Done => left = left.saturating_sub(1),
            Ending::Failed(cause) => {
                left = left.saturating_sub(1);
                first = first_cause(first, cause);
            }
        }
        let mut items = value.into_items();
        all.append(&mut items)?;
    }
    Ok(StreamValue::new(all, ending_behind(left, first)))
}
