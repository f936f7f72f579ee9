//! The merge of whole stream values under recorded choices.

ghost use Rattle.std.specs.Prelude.{◌≡◌, IfOk};
ghost use Rattle.rsx_values.specs.Merge.{merge, merge_inputs, merged};

use crate::picking::{Input, pick};
use rsx_types::{Ending, NoMemory, Signal, StreamValue};
use std::alloc::Global;

/// The merge of the values under these choices, where the first value has the number 0: the items of the pick. It is done where
/// the completions of all values were taken, failed at the failure that was taken, and else open.
///
/// The answer is none where the choices don't fit: one of them finds no signal, or follows a failure.
///
/// # Errors
/// [`NoMemory`] where a growth was refused.
pub fn merge<T: Drop>(
    alloc: Global,
    values: Vec<StreamValue<T>>,
    choices: &[u64],
) -> Result<Option<StreamValue<T>>, NoMemory>
    ensures { IfOk result (λ o. o ≡ merge choices.now values.items) }
{
    let mut inputs = Vec::new(alloc);
    for value in values {
        let number = inputs.len() as u64;
        inputs.push(Input::new(alloc, number, value)?)?;
    }
    merge_inputs(alloc, inputs, choices)
}

/// The same of inputs that have numbers of their own.
///
/// # Errors
/// [`NoMemory`] where a growth was refused.
pub fn merge_inputs<T: Drop>(
    alloc: Global,
    inputs: Vec<Input<T>>,
    choices: &[u64],
) -> Result<Option<StreamValue<T>>, NoMemory>
    ensures { IfOk result (λ o. o ≡ merge_inputs choices.now inputs.items) }
{
    let left = inputs.len();
    match pick(alloc, inputs, choices)? {
        Some(taken) => {
            let value = merged_of(alloc, left, taken)?;
            Ok(Some(value))
        }
        None => Ok(None),
    }
}

/// The items of a pick with its ending, where so many inputs had not completed.
fn merged_of<T: Drop>(
    alloc: Global,
    left: usize,
    taken: Vec<(u64, Signal<T>)>,
) -> Result<StreamValue<T>, NoMemory>
    ensures { IfOk result (λ v. v ≡ merged left taken.items) }
{
    let mut left = left;
    let mut items = Vec::new(alloc);
    for (_, signal) in taken {
        match signal {
            Signal::Next(item) => items.push(item)?,
            Signal::Complete => left = left.saturating_sub(1),
            Signal::Error(cause) => return Ok(StreamValue::new(items, Ending::Failed(cause))),
        }
    }
    let ending = if left == 0 {
        Ending::Done
    } else {
        Ending::Open
    };
    Ok(StreamValue::new(items, ending))
}
