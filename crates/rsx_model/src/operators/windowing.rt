//! `window`: lanes of so many items, one behind the other.

ghost use Rattle.std.specs.Prelude.{◌≡◌, [], IfOk};
ghost use Rattle.rsx_values.specs.Window.{window, windows};

use crate::operators::concatenation::concat;
use crate::operators::lanes::chain_each;
use rsx_types::{Ending, NoMemory, Ops, Stage, StreamValue};
use std::alloc::Global;

/// The value that `window` gives for a whole input: its windows of `size` items, at least 1, each through a chain of these
/// operators, one behind the other, and then the ending of the input. A full window is done, and a shorter last one has the
/// input's ending; none is empty. What doesn't end in a completion is the last that comes.
///
/// # Errors
/// [`NoMemory`] where a growth was refused, in a function of the caller too.
pub(crate) fn window<O: Ops>(
    alloc: Global,
    ops: &O,
    size: u64,
    stages: &[Stage<O::Item>],
    input: StreamValue<O::Item>,
) -> Result<StreamValue<O::Item>, NoMemory>
    ensures { IfOk result (λ v. v ≡ window (O.meaning ops.now) size stages.now input) }
{
    let ending = input.ending();
    let lanes = windows(alloc, size, input.into_items(), ending)?;
    let mut values = chain_each(alloc, ops, stages, lanes)?;
    values.push(StreamValue::new(Vec::new(alloc), ending))?;
    concat(alloc, values)
}

/// The items in windows of this size.
fn windows<T: Drop>(
    alloc: Global,
    size: u64,
    items: Vec<T>,
    ending: Ending,
) -> Result<Vec<StreamValue<T>>, NoMemory>
    ensures { IfOk result (λ ws. ws.items ≡ windows size [] items.items ending) }
{
    let mut full = Vec::new(alloc);
    let mut started = Vec::new(alloc);
    for item in items {
        started.push(item)?;
        if started.len() as u64 >= size {
            full.push(StreamValue::new(started, Ending::Done))?;
            started = Vec::new(alloc);
        }
    }
    if !started.is_empty() {
        full.push(StreamValue::new(started, ending))?;
    }
    Ok(full)
}
