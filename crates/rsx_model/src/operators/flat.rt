//! `flatMap`: a lane for each item.

ghost use Rattle.std.specs.Prelude.{◌≡◌, IfOk, map};
ghost use Rattle.rsx_types.specs.Plain.{listed};
ghost use Rattle.rsx_values.specs.Flat.{IsExpanded, expanded_items, flat_map, flat_map_delay};

use crate::operators::lanes::{chain_each, merge_lanes, merge_lanes_delay};
use rsx_types::{Cause, Ending, Fault, NoMemory, Ops, Stage, StreamValue};
use std::alloc::Global;

/// What the items were expanded to: a value for each item, and how the input ended.
#[derive(Drop)]
pub(crate) struct Expanded<T> {
    /// The items of each expansion, and the completion.
    pub(crate) values: Vec<StreamValue<T>>,
    /// The ending of the input, or the fault at which it was cut.
    pub(crate) ending: Ending,
}

/// The value that `flatMap` gives for a whole input under these choices. Item j is expanded by the function `f`, and what it is
/// expanded to goes through a chain of these operators: that is lane j. The value is the merge of the lanes and
/// [`MAIN`](rsx_values::MAIN), which has the ending of the input; a fault of `f` is that ending, at its item.
///
/// The answer is none where the choices don't fit: one of them finds no signal, or follows a failure.
///
/// # Errors
/// [`NoMemory`] where a growth was refused, in a function of the caller too.
pub(crate) fn flat_map<O: Ops>(
    alloc: Global,
    ops: &O,
    f: u16,
    stages: &[Stage<O::Item>],
    choices: &[u64],
    input: StreamValue<O::Item>,
) -> Result<Option<StreamValue<O::Item>>, NoMemory>
    ensures { IfOk result (λ o. o ≡ flat_map (O.meaning ops.now) f stages.now choices.now input) }
{
    let ending = input.ending();
    let Expanded { values, ending } = expand_each(alloc, ops, f, input.items(), ending)?;
    let lanes = chain_each(alloc, ops, stages, values)?;
    merge_lanes(alloc, lanes, ending, choices)
}

/// The value that `flatMapDelayError` gives: as [`flat_map`], but a failure ends its lane alone, and choices may follow it. The
/// value is open unless the endings of all lanes and of [`MAIN`](rsx_values::MAIN) were taken; then it failed at the failure that was
/// taken first, and is done where there was none. A fault of `f` is the failure of Main, and no item behind it has a lane.
///
/// The answer is none where the choices don't fit: one of them finds no signal.
///
/// # Errors
/// [`NoMemory`] where a growth was refused, in a function of the caller too.
pub(crate) fn flat_map_delay<O: Ops>(
    alloc: Global,
    ops: &O,
    f: u16,
    stages: &[Stage<O::Item>],
    choices: &[u64],
    input: StreamValue<O::Item>,
) -> Result<Option<StreamValue<O::Item>>, NoMemory>
    ensures { IfOk result (λ o. o ≡ flat_map_delay (O.meaning ops.now) f stages.now choices.now input) }
{
    let ending = input.ending();
    let Expanded { values, ending } = expand_each(alloc, ops, f, input.items(), ending)?;
    let lanes = chain_each(alloc, ops, stages, values)?;
    merge_lanes_delay(alloc, lanes, ending, choices)
}

/// What each item is expanded to, up to the first fault.
fn expand_each<O: Ops>(
    alloc: Global,
    ops: &O,
    f: u16,
    items: &[O::Item],
    ending: Ending,
) -> Result<Expanded<O::Item>, NoMemory>
    ensures { IfOk result (λ r. IsExpanded (expanded_items ((O.meaning ops.now).expanded f) items.now ending) r.values.items r.ending) }
{
    let mut values = Vec::new(alloc);
    for item in items {
        match ops.expand(alloc, f, item) {
            Ok(list) => values.push(StreamValue::new(list, Ending::Done))?,
            Err(Fault::Code(fault)) => {
                return Ok(Expanded {
                    values,
                    ending: Ending::Failed(Cause::Function(fault)),
                });
            }
            Err(Fault::Memory) => return Err(NoMemory),
        }
    }
    Ok(Expanded { values, ending })
}
