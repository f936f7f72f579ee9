//! What is still to come of the inputs of a node.

ghost use Rattle.std.specs.Prelude.{◌≡◌, ◌++◌, [], ◌∷◌, List, OnOk};
ghost use Rattle.rsx_types.specs.Stream.{Stream};
ghost use Rattle.rsx_combining.specs.Inputs.{left, lefts};

use rsx_queued::{QueuedInput, Remaining};
use rsx_types::{Ending, NoMemory, Ops, StreamValue};
use std::alloc::Global;

/// The stream values that are still to come of inputs.
pub trait ToCome<T: Drop> {
    /// The values so far.
    ghost so_far: { Self → List (Stream T) };

    /// Puts what is still to come of an input behind the values so far, where these items with this ending still come in.
    ///
    /// # Errors
    /// [`NoMemory`] where a growth was refused, in `Ops::copy` too.
    fn push_left<O: Ops<Item = T>>(
        &mut self,
        alloc: Global,
        ops: &O,
        input: &QueuedInput<T>,
        items: &[T],
        ending: Ending,
    ) -> Result<(), NoMemory>
        ensures { OnOk result
            (so_far self.new ≡ so_far self.old ++ left input.now (record { items = items.now; ending = ending }) ∷ []) };

    /// Puts what is still to come of each input behind the values so far, where these values still come in; at an input
    /// without a value nothing does.
    ///
    /// # Errors
    /// [`NoMemory`] where a growth was refused, in `Ops::copy` too.
    fn push_lefts<O: Ops<Item = T>>(
        &mut self,
        alloc: Global,
        ops: &O,
        inputs: &[QueuedInput<T>],
        incoming: &[StreamValue<T>],
    ) -> Result<(), NoMemory>
        ensures { OnOk result (so_far self.new ≡ so_far self.old ++ lefts inputs.now incoming.now) };
}

impl<T: Drop> ToCome<T> for Vec<StreamValue<T>> {
    ghost so_far = { λ v. v.items };

    fn push_left<O: Ops<Item = T>>(
        &mut self,
        alloc: Global,
        ops: &O,
        input: &QueuedInput<T>,
        items: &[T],
        ending: Ending,
    ) -> Result<(), NoMemory> {
        match input.rest(alloc, ops, items, ending)? {
            Some(value) => {
                self.push(value)?;
                Ok(())
            }
            None => {
                self.push(StreamValue::new(Vec::new(alloc), Ending::Open))?;
                Ok(())
            }
        }
    }

    fn push_lefts<O: Ops<Item = T>>(
        &mut self,
        alloc: Global,
        ops: &O,
        inputs: &[QueuedInput<T>],
        incoming: &[StreamValue<T>],
    ) -> Result<(), NoMemory> {
        match inputs.split_first() {
            None => Ok(()),
            Some((first, others)) => match incoming.split_first() {
                None => {
                    self.push_left(alloc, ops, first, &[], Ending::Open)?;
                    self.push_lefts(alloc, ops, others, incoming)
                }
                Some((value, behind)) => {
                    self.push_left(alloc, ops, first, value.items(), value.ending())?;
                    self.push_lefts(alloc, ops, others, behind)
                }
            },
        }
    }
}
