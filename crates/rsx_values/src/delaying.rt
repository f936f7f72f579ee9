//! The merge that delays failures, of whole stream values under recorded choices.

ghost use Rattle.std.specs.Prelude.{◌≡◌, None, IfOk};
ghost use Rattle.rsx_values.specs.Delayed.{ending_behind, first_cause, merge_delay, merge_delayed_inputs, merged_delayed};

use crate::picking::{Input, pick_all};
use rsx_types::{Cause, Ending, NoMemory, Signal, StreamValue};
use std::alloc::Global;

/// The merge of the values under these choices, where the first value has the number 0: all items of the pick, in which choices
/// may follow a failure. It is open unless the endings of all values were taken; then it failed at the failure that was taken
/// first, and is done where there was none.
///
/// The answer is none where the choices don't fit: one of them finds no signal.
///
/// # Errors
/// [`NoMemory`] where a growth was refused.
pub fn merge_delay<T: Drop>(
    alloc: Global,
    values: Vec<StreamValue<T>>,
    choices: &[u64],
) -> Result<Option<StreamValue<T>>, NoMemory>
    ensures { IfOk result (λ o. o ≡ merge_delay choices.now values.items) }
{
    let mut inputs = Vec::new(alloc);
    for value in values {
        let number = inputs.len() as u64;
        inputs.push(Input::new(alloc, number, value)?)?;
    }
    merge_delay_inputs(alloc, inputs, choices)
}

/// The same of inputs that have numbers of their own.
///
/// # Errors
/// [`NoMemory`] where a growth was refused.
pub fn merge_delay_inputs<T: Drop>(
    alloc: Global,
    inputs: Vec<Input<T>>,
    choices: &[u64],
) -> Result<Option<StreamValue<T>>, NoMemory>
    ensures { IfOk result (λ o. o ≡ merge_delayed_inputs None choices.now inputs.items) }
{
    let left = inputs.len();
    match pick_all(alloc, inputs, choices)? {
        Some(taken) => {
            let value = merged_of(alloc, left, taken)?;
            Ok(Some(value))
        }
        None => Ok(None),
    }
}

/// The items of a pick with its ending, where so many inputs had not ended.
fn merged_of<T: Drop>(
    alloc: Global,
    left: usize,
    taken: Vec<(u64, Signal<T>)>,
) -> Result<StreamValue<T>, NoMemory>
    ensures { IfOk result (λ v. v ≡ merged_delayed left None taken.items) }
{
    let mut left = left;
    let mut kept = None;
    let mut items = Vec::new(alloc);
    for (_, signal) in taken {
        match signal {
            Signal::Next(item) => items.push(item)?,
            Signal::Complete => left = left.saturating_sub(1),
            Signal::Error(cause) => {
                left = left.saturating_sub(1);
                kept = first_cause(kept, cause);
            }
        }
    }
    Ok(StreamValue::new(items, ending_behind(left, kept)))
}

/// The failure that was taken first, after one with this cause was taken.
pub fn first_cause(kept: Option<Cause>, cause: Cause) -> Option<Cause>
    ensures { result ≡ first_cause kept cause }
{
    match kept {
        None => Some(cause),
        Some(first) => Some(first),
    }
}

/// The ending of a merge of which so many inputs have not ended, and of which this failure was taken first.
pub fn ending_behind(left: usize, first: Option<Cause>) -> Ending
    ensures { result ≡ ending_behind left first }
{
    if left > 0 {
        return Ending::Open;
    }
    match first {
        None => Ending::Done,
        Some(cause) => Ending::Failed(cause),
    }
}
