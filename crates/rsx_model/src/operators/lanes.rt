//! Lanes through their chains, and together with Main.

ghost use Rattle.std.specs.Prelude.{◌≡◌, IfOk, map};
ghost use Rattle.rsx_types.specs.Plain.{chained};
ghost use Rattle.rsx_values.specs.Lanes.{lanes_and_main, merged_lanes, merged_lanes_delay};

use crate::operators::plain::apply;
use rsx_types::{Ending, NoMemory, Ops, Stage, StreamValue};
use rsx_values::{Input, MAIN, merge_delay_inputs, merge_inputs};
use std::alloc::Global;

/// What the operators of a chain give for a value, the first one innermost.
pub(crate) fn chain<O: Ops>(
    alloc: Global,
    ops: &O,
    stages: &[Stage<O::Item>],
    input: StreamValue<O::Item>,
) -> Result<StreamValue<O::Item>, NoMemory>
    ensures { IfOk result (λ v. v ≡ chained (O.meaning ops.now) stages.now input) }
{
    let mut value = input;
    for stage in stages {
        value = apply(alloc, ops, stage, value)?;
    }
    Ok(value)
}

/// The same of each value.
pub(crate) fn chain_each<O: Ops>(
    alloc: Global,
    ops: &O,
    stages: &[Stage<O::Item>],
    inputs: Vec<StreamValue<O::Item>>,
) -> Result<Vec<StreamValue<O::Item>>, NoMemory>
    ensures { IfOk result (λ vs. vs.items ≡ map (chained (O.meaning ops.now) stages.now) inputs.items) }
{
    let mut values = Vec::new(alloc);
    for input in inputs {
        values.push(chain(alloc, ops, stages, input)?)?;
    }
    Ok(values)
}

/// The lanes, numbered from 0 on, and Main, which has this ending, as the inputs of a pick.
fn lane_inputs<T: Drop>(
    alloc: Global,
    lanes: Vec<StreamValue<T>>,
    ending: Ending,
) -> Result<Vec<Input<T>>, NoMemory>
    ensures { IfOk result (λ v. v.items ≡ lanes_and_main lanes.items ending) }
{
    let mut inputs = Vec::new(alloc);
    for lane in lanes {
        let number = inputs.len() as u64;
        inputs.push(Input::new(alloc, number, lane)?)?;
    }
    let main = StreamValue::new(Vec::new(alloc), ending);
    inputs.push(Input::new(alloc, MAIN, main)?)?;
    Ok(inputs)
}

/// The merge of the lanes and Main under these choices. The answer is none where they don't fit.
pub(crate) fn merge_lanes<T: Drop>(
    alloc: Global,
    lanes: Vec<StreamValue<T>>,
    ending: Ending,
    choices: &[u64],
) -> Result<Option<StreamValue<T>>, NoMemory>
    ensures { IfOk result (λ o. o ≡ merged_lanes choices.now lanes.items ending) }
{
    merge_inputs(alloc, lane_inputs(alloc, lanes, ending)?, choices)
}

/// The same where failures are delayed.
pub(crate) fn merge_lanes_delay<T: Drop>(
    alloc: Global,
    lanes: Vec<StreamValue<T>>,
    ending: Ending,
    choices: &[u64],
) -> Result<Option<StreamValue<T>>, NoMemory>
    ensures { IfOk result (λ o. o ≡ merged_lanes_delay choices.now lanes.items ending) }
{
    merge_delay_inputs(alloc, lane_inputs(alloc, lanes, ending)?, choices)
}
