//! The inputs of a node: what each takes, and what can still be picked of them.

ghost use Rattle.std.specs.Prelude.{◌≡◌, ◌<◌, ◌+◌, ◌^◌, ◌++◌, [], ℕ, List, length, slice_get, option_map, OnOk};
ghost use Rattle.rsx_values.specs.Pick.{InputLeft};
ghost use Rattle.rsx_sources.specs.Machine.{front_of};
ghost use Rattle.rsx_queued.specs.Input.{still};
ghost use Rattle.rsx_queued.specs.Inputs.{takes_at, next_signal_at, credits_at, waiting_at, are_gone, here, inputs_left};

use crate::input::{QueuedInput, Remaining};
use rsx_sources::Front;
use rsx_types::{Ending, NoMemory, Ops, StreamValue};
use rsx_values::Input;
use std::alloc::Global;

/// Whether the input with this number takes such a signal. One that isn't there takes none.
pub fn takes_at<T: Drop>(inputs: &[QueuedInput<T>], input: u64, front: Front) -> bool
    ensures { result ≡ takes_at (slice_get inputs.now input) front }
{
    match inputs.get(input as usize) {
        Some(queued) => queued.can_take(front),
        None => false,
    }
}

/// Which signal is next at the input with this number, if one is.
pub fn front_at<T: Drop>(inputs: &[QueuedInput<T>], input: u64) -> Option<Front>
    ensures { result ≡ option_map front_of (next_signal_at (slice_get inputs.now input)) }
{
    match inputs.get(input as usize) {
        Some(queued) => queued.front(),
        None => None,
    }
}

/// The total to be asked of the input with this number, 0 where there is none.
pub fn credits_at<T: Drop>(inputs: &[QueuedInput<T>], input: u64) -> u64
    ensures { result ≡ credits_at (slice_get inputs.now input) }
{
    match inputs.get(input as usize) {
        Some(queued) => queued.credits(),
        None => 0,
    }
}

/// How many signals wait at the input with this number, its ending too. None where there is no such input.
pub fn waiting_at<T: Drop>(inputs: &[QueuedInput<T>], input: u64) -> Option<u64>
    ensures { result ≡ waiting_at (slice_get inputs.now input) }
{
    match inputs.get(input as usize) {
        Some(queued) => Some(queued.waiting()),
        None => None,
    }
}

/// Whether the endings of all inputs were taken out.
pub fn are_gone<T: Drop>(inputs: &[QueuedInput<T>]) -> bool
    ensures { result ≡ are_gone inputs.now }
{
    match inputs.split_first() {
        None => true,
        Some((first, others)) => first.is_gone() && are_gone(others),
    }
}

/// Inputs with what can still be picked of each.
pub trait ToPick<T: Drop> {
    /// The inputs so far.
    ghost so_far: { Self → List (InputLeft T) };

    /// Puts an input behind those so far, where these items with this ending still come in, unless its ending was picked.
    ///
    /// # Errors
    /// [`NoMemory`] where a growth was refused, in `Ops::copy` too.
    fn push_input<O: Ops<Item = T>>(
        &mut self,
        alloc: Global,
        ops: &O,
        number: u64,
        input: &QueuedInput<T>,
        items: &[T],
        ending: Ending,
    ) -> Result<(), NoMemory>
        ensures { OnOk result
            (so_far self.new ≡ so_far self.old ++ here number (still input.now (record { items = items.now; ending = ending })) []) };

    /// Puts inputs, numbered from this number on, behind those so far, where these values still come in; at an input without
    /// a value nothing does.
    ///
    /// # Errors
    /// [`NoMemory`] where a growth was refused, in `Ops::copy` too.
    fn push_inputs<O: Ops<Item = T>>(
        &mut self,
        alloc: Global,
        ops: &O,
        number: u64,
        inputs: &[QueuedInput<T>],
        incoming: &[StreamValue<T>],
    ) -> Result<(), NoMemory>
        requires { number + length inputs.now < 2 ^ 64 }
        ensures { OnOk result (so_far self.new ≡ so_far self.old ++ inputs_left number inputs.now incoming.now) };
}

impl<T: Drop> ToPick<T> for Vec<Input<T>> {
    ghost so_far = { λ v. v.items };

    fn push_input<O: Ops<Item = T>>(
        &mut self,
        alloc: Global,
        ops: &O,
        number: u64,
        input: &QueuedInput<T>,
        items: &[T],
        ending: Ending,
    ) -> Result<(), NoMemory> {
        match input.rest(alloc, ops, items, ending)? {
            Some(value) => {
                self.push(Input::new(alloc, number, value)?)?;
                Ok(())
            }
            None => Ok(()),
        }
    }

    #[tactic(auto, using(crate::proofs::Picks::here_first))]
    fn push_inputs<O: Ops<Item = T>>(
        &mut self,
        alloc: Global,
        ops: &O,
        number: u64,
        inputs: &[QueuedInput<T>],
        incoming: &[StreamValue<T>],
    ) -> Result<(), NoMemory> {
        match inputs.split_first() {
            None => Ok(()),
            Some((first, others)) => match incoming.split_first() {
                None => {
                    self.push_input(alloc, ops, number, first, &[], Ending::Open)?;
                    self.push_inputs(alloc, ops, number + 1, others, incoming)
                }
                Some((value, behind)) => {
                    self.push_input(alloc, ops, number, first, value.items(), value.ending())?;
                    self.push_inputs(alloc, ops, number + 1, others, behind)
                }
            },
        }
    }
}
