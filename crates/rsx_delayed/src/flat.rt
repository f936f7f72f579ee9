//! What still comes out of lanes where failures are delayed.

ghost use Rattle.std.specs.Prelude.{◌≡◌, [], ◌++◌, List, Some, IfOk, OnOk};
ghost use Rattle.rsx_merging.specs.Coming.{lanes_to_come};
ghost use Rattle.rsx_values.specs.Lanes.{main_input};
ghost use Rattle.rsx_values.specs.Pick.{InputLeft};
ghost use Rattle.rsx_values.specs.Delayed.{merge_delayed_inputs};
ghost use Rattle.rsx_delayed.specs.FlatDelayed.{item_of, kept_after};

use crate::remaining::all_values;
use rsx_merging::{Expanding, Expansion, Lane, Lanes};
use rsx_types::{Cause, Ending, Fault, NoMemory, Ops, Signal, StreamValue};
use rsx_values::{MAIN, first_cause};
use std::alloc::Global;

/// Lanes of what an input gives.
pub(crate) trait LanesToCome<T: Drop> {
    /// The lanes so far.
    ghost so_far: { Self → List (InputLeft T) };

    /// Puts the lanes of these items, numbered from this number on, behind those so far, up to the first fault, and Main behind
    /// them.
    ///
    /// # Errors
    /// [`NoMemory`] where a growth was refused, in a function of the caller too, or no number is left.
    fn push_lanes<O: Ops<Item = T>>(
        &mut self,
        alloc: Global,
        ops: &O,
        expansion: &Expansion<T>,
        number: u64,
        items: &[T],
        ending: Ending,
    ) -> Result<(), NoMemory>
        ensures { OnOk result (so_far self.new ≡ so_far self.old ++ lanes_to_come (O.meaning ops.now) expansion.now.function expansion.now.stages.items number (record { items = items.now; ending = ending })) };
}

impl<T: Drop> LanesToCome<T> for Lanes<T> {
    ghost so_far = { λ l. l };

    fn push_lanes<O: Ops<Item = T>>(
        &mut self,
        alloc: Global,
        ops: &O,
        expansion: &Expansion<T>,
        number: u64,
        items: &[T],
        ending: Ending,
    ) -> Result<(), NoMemory>
        ensures { OnOk result (self.new ≡ self.old ++ lanes_to_come (O.meaning ops.now) expansion.now.function expansion.now.stages.items number (record { items = items.now; ending = ending })) }
    {
        let mut next = number;
        for item in items {
            // No lane has the number of Main.
            if next == MAIN {
                return Err(NoMemory);
            }
            match expansion.lane_of(alloc, ops, item) {
                Ok(value) => self.push(Lane::new(next, value))?,
                Err(Fault::Code(fault)) => {
                    return push_main(alloc, Ending::Failed(Cause::Function(fault)), self);
                }
                Err(Fault::Memory) => return Err(NoMemory),
            }
            next += 1;
        }
        push_main(alloc, ending, self)
    }
}

/// Puts Main, which has this ending, behind the lanes that are there.
fn push_main<T: Drop>(alloc: Global, ending: Ending, lanes: &mut Lanes<T>) -> Result<(), NoMemory>
    ensures { OnOk result (lanes.new ≡ lanes.old ++ main_input ending) }
{
    let main = StreamValue::new(Vec::new(alloc), ending);
    lanes.push(Lane::new(MAIN, main))
}

/// The merge of these lanes under these choices, where this failure was taken first so far. The answer is none where the choices
/// don't fit.
///
/// # Errors
/// [`NoMemory`] where a growth was refused.
pub(crate) fn merge_delayed_lanes<T: Drop>(
    alloc: Global,
    kept: Option<Cause>,
    mut lanes: Lanes<T>,
    choices: &[u64],
) -> Result<Option<StreamValue<T>>, NoMemory>
    ensures { IfOk result (λ o. o ≡ merge_delayed_inputs kept choices.now lanes) }
{
    let mut first = kept;
    let mut items = Vec::new(alloc);
    for choice in choices {
        match lanes.take(*choice) {
            Some(signal) => {
                let now = add_signal(signal, first, &mut items)?;
                first = now;
            }
            None => return Ok(None),
        }
    }
    let rest = all_left(alloc, first, lanes)?;
    let ending = rest.ending();
    let mut others = rest.into_items();
    items.append(&mut others)?;
    Ok(Some(StreamValue::new(items, ending)))
}

/// Puts a signal that was taken behind these items, where it is an item. The answer is the failure that was taken first, where it was
/// this one before.
///
/// # Errors
/// [`NoMemory`] where a growth was refused.
fn add_signal<T: Drop>(
    signal: Signal<T>,
    kept: Option<Cause>,
    items: &mut Vec<T>,
) -> Result<Option<Cause>, NoMemory>
    ensures items { OnOk result (items.new.items ≡ items.old.items ++ item_of signal) }
    ensures kept { IfOk result (λ now. now ≡ kept_after signal kept) }
{
    match signal {
        Signal::Next(item) => {
            items.push(item)?;
            Ok(kept)
        }
        Signal::Complete => Ok(kept),
        Signal::Error(cause) => Ok(first_cause(kept, cause)),
    }
}

/// What is left of these lanes, lane by lane, where this failure was taken first so far.
fn all_left<T: Drop>(
    alloc: Global,
    kept: Option<Cause>,
    lanes: Lanes<T>,
) -> Result<StreamValue<T>, NoMemory>
    ensures { IfOk result (λ v. merge_delayed_inputs kept [] lanes ≡ Some v) }
{
    let mut values = Vec::new(alloc);
    for lane in lanes.into_lanes() {
        values.push(lane.into_value())?;
    }
    all_values(alloc, kept, values)
}
