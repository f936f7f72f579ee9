//! The plain operators over whole lists.

ghost use Rattle.std.specs.Prelude.{◌≡◌, ◌⊎◌, ◌≤◌, pos, ◌+ℤ◌, ◌≤ℤ◌, IfOk, []};
ghost use Rattle.rsx_types.specs.Plain.{mapped_items, filtered_items, taken_items, scanned_items, buffered_items, last_list, distinct_items, plain, range_items};
ghost use Rattle.rsx_types.specs.Stream.{item_then, items_then};

use rsx_collections::Keys;
use rsx_types::{Cause, Ending, Fault, NoMemory, Ops, Stage, StreamValue};
use std::alloc::Global;

/// The value that a plain operator gives for a whole input. A fault of a function of the caller is its ending.
///
/// # Errors
///
/// [`NoMemory`] where a growth was refused, in a function of the caller too.
pub(crate) fn apply<O: Ops>(
    alloc: Global,
    ops: &O,
    stage: &Stage<O::Item>,
    input: StreamValue<O::Item>,
) -> Result<StreamValue<O::Item>, NoMemory>
    ensures { IfOk result (λ v. v ≡ plain (O.meaning ops.now) stage.now input) }
{
    let ending = input.ending();
    match stage {
        Stage::Map(f) => map_items(alloc, ops, *f, input.items(), ending),
        Stage::Filter(f) => filter_items(alloc, ops, *f, input.into_items(), ending),
        Stage::Take(count) => Ok(take_items(*count, input.into_items(), ending)),
        Stage::Scan(f, seed) => scan_items(alloc, ops, *f, seed, input.items(), ending),
        Stage::Buffer(size) => buffer_items(alloc, ops, *size, input.into_items(), ending),
        Stage::Distinct(f) => distinct_items(alloc, ops, *f, input.into_items(), ending),
    }
}

/// The answers in order, up to the first fault.
fn map_items<O: Ops>(
    alloc: Global,
    ops: &O,
    f: u16,
    items: &[O::Item],
    ending: Ending,
) -> Result<StreamValue<O::Item>, NoMemory>
    ensures { IfOk result (λ v. v ≡ mapped_items ((O.meaning ops.now).mapped f) items.now ending) }
{
    let mut out = Vec::new(alloc);
    for x in items {
        match ops.map(alloc, f, x) {
            Ok(y) => out.push(y)?,
            Err(Fault::Code(fault)) => return Ok(cut_by(out, fault)),
            Err(Fault::Memory) => return Err(NoMemory),
        }
    }
    Ok(StreamValue::new(out, ending))
}

/// The items whose test is true, up to the first fault.
fn filter_items<O: Ops>(
    alloc: Global,
    ops: &O,
    f: u16,
    items: Vec<O::Item>,
    ending: Ending,
) -> Result<StreamValue<O::Item>, NoMemory>
    ensures { IfOk result (λ v. v ≡ filtered_items ((O.meaning ops.now).tested f) items.items ending) }
{
    let mut out = Vec::new(alloc);
    for x in items {
        match ops.test(f, &x) {
            Ok(true) => out.push(x)?,
            Ok(false) => {}
            Err(Fault::Code(fault)) => return Ok(cut_by(out, fault)),
            Err(Fault::Memory) => return Err(NoMemory),
        }
    }
    Ok(StreamValue::new(out, ending))
}

/// The first items and the completion; where there are fewer, all of them and their ending. It takes no memory.
fn take_items<T: Drop>(count: u64, items: Vec<T>, ending: Ending) -> StreamValue<T>
    ensures { result ≡ taken_items count items.items ending }
{
    if (items.len() as u64) < count {
        return StreamValue::new(items, ending);
    }
    let mut first = items;
    first.truncate(count as usize);
    StreamValue::new(first, Ending::Done)
}

/// The seed, and then the accumulations in order, up to the first fault.
fn scan_items<O: Ops>(
    alloc: Global,
    ops: &O,
    f: u16,
    seed: &O::Item,
    items: &[O::Item],
    ending: Ending,
) -> Result<StreamValue<O::Item>, NoMemory>
    ensures { IfOk result (λ v. v ≡ item_then seed.now (scanned_items ((O.meaning ops.now).folded f) seed.now items.now ending)) }
{
    let mut out = Vec::new(alloc);
    let mut latest = ops.copy(alloc, seed)?;
    for x in items {
        match ops.fold(alloc, f, &latest, x) {
            Ok(next) => {
                out.push(latest)?;
                latest = next;
            }
            Err(Fault::Code(fault)) => {
                out.push(latest)?;
                return Ok(cut_by(out, fault));
            }
            Err(Fault::Memory) => return Err(NoMemory),
        }
    }
    out.push(latest)?;
    Ok(StreamValue::new(out, ending))
}

/// The items in lists of this size. A shorter last list is there only where the items are complete.
fn buffer_items<O: Ops>(
    alloc: Global,
    ops: &O,
    size: u64,
    items: Vec<O::Item>,
    ending: Ending,
) -> Result<StreamValue<O::Item>, NoMemory>
    ensures { IfOk result (λ v. v ≡ buffered_items (O.meaning ops.now).list_of size [] items.items ending) }
{
    let mut out = Vec::new(alloc);
    let mut started = Vec::new(alloc);
    for x in items {
        started.push(x)?;
        if started.len() as u64 >= size {
            out.push(ops.list(alloc, started.as_slice())?)?;
            started.clear();
        }
    }
    with_last_list(alloc, ops, out, started, ending)
}

/// The lists so far, and then the list that was started where the items are complete.
fn with_last_list<O: Ops>(
    alloc: Global,
    ops: &O,
    lists: Vec<O::Item>,
    started: Vec<O::Item>,
    ending: Ending,
) -> Result<StreamValue<O::Item>, NoMemory>
    ensures { IfOk result (λ v. v ≡ items_then lists.items (last_list (O.meaning ops.now).list_of started.items ending)) }
{
    if started.is_empty() {
        return Ok(StreamValue::new(lists, ending));
    }
    match ending {
        Ending::Done => {
            let mut out = lists;
            out.push(ops.list(alloc, started.as_slice())?)?;
            Ok(StreamValue::new(out, ending))
        }
        Ending::Open | Ending::Failed(_) => Ok(StreamValue::new(lists, ending)),
    }
}

/// The first item of each key, up to the first fault.
fn distinct_items<O: Ops>(
    alloc: Global,
    ops: &O,
    f: u16,
    items: Vec<O::Item>,
    ending: Ending,
) -> Result<StreamValue<O::Item>, NoMemory>
    ensures { IfOk result (λ v. v ≡ distinct_items ((O.meaning ops.now).keyed f) [] items.items ending) }
{
    let mut seen = Keys::new(alloc);
    let mut out = Vec::new(alloc);
    for x in items {
        match ops.key(f, &x) {
            Ok(key) => {
                if !seen.note(key)? {
                    out.push(x)?;
                }
            }
            Err(Fault::Code(fault)) => return Ok(cut_by(out, fault)),
            Err(Fault::Memory) => return Err(NoMemory),
        }
    }
    Ok(StreamValue::new(out, ending))
}

/// The items, and then the failure by a fault.
fn cut_by<T>(items: Vec<T>, fault: u32) -> StreamValue<T>
    ensures items { result.items ≡ items.items }
    ensures ending { result.ending ≡ Ending.Failed (Cause.Function fault) }
{
    StreamValue::new(items, Ending::Failed(Cause::Function(fault)))
}

/// Copies of the items, in their order.
///
/// # Errors
///
/// [`NoMemory`] where a growth was refused, in `Ops::copy` too.
pub(crate) fn copies_of<O: Ops>(
    alloc: Global,
    ops: &O,
    items: &[O::Item],
) -> Result<Vec<O::Item>, NoMemory>
    ensures { IfOk result (λ v. v.items ≡ items.now) }
{
    let mut out = Vec::new(alloc);
    for x in items {
        out.push(ops.copy(alloc, x)?)?;
    }
    Ok(out)
}

/// The items of so many numbers, from the first on: at most 1,000,000, the last at most 2^63-1.
///
/// # Errors
///
/// [`NoMemory`] where a growth was refused, in `Ops::from_i64` too.
pub(crate) fn range_list<O: Ops>(
    alloc: Global,
    ops: &O,
    first: i64,
    count: u64,
) -> Result<Vec<O::Item>, NoMemory>
    requires few { count ≤ 1000000 }
    requires fits { count ≡ 0 ⊎ (first +ℤ pos count) ≤ℤ pos 9223372036854775808 }
    ensures { IfOk result (λ v. v.items ≡ range_items (O.meaning ops.now) first count) }
{
    let mut out = Vec::new(alloc);
    for k in 0..count {
        out.push(ops.from_i64(alloc, first + k as i64)?)?;
    }
    Ok(out)
}
