//! Rows of the items of several stream values.

ghost use Rattle.std.specs.Prelude.{◌≡◌, List, IfOk};
ghost use Rattle.rsx_types.specs.Stream.{Stream};
ghost use Rattle.rsx_values.specs.Zip as spec;
ghost use Rattle.rsx_values.specs.Zip.{items_of, rows};
ghost use Rattle.rsx_values.specs.Rows.{at_each};

use rsx_types::{Ending, NoMemory, Ops, StreamValue};
use std::alloc::Global;

/// The values of several inputs, of whose items rows are made by `Ops::row`.
pub trait Zip<T: Drop> {
    /// The values, in the order of the inputs.
    ghost values: { Self → List (Stream T) };

    /// The value of `zip`: rows up to the shortest of the values, and then the ending of the recorded one, which is numbered
    /// from 0; where none is recorded, that of the first which has ended with all its items used, or Open where none has.
    /// The answer is none where the recorded one isn't there, or hasn't ended with all its items used.
    ///
    /// # Errors
    ///
    /// [`NoMemory`] where a growth was refused, in `Ops::copy` and `Ops::row` too.
    fn zip<O: Ops<Item = T>>(
        &self,
        alloc: Global,
        ops: &O,
        recorded: Option<u32>,
    ) -> Result<Option<StreamValue<T>>, NoMemory>
        ensures { IfOk result (λ v. v ≡ spec.zip (O.meaning ops.now).row_of recorded (values self.now)) };

    /// The first rows, so many.
    ///
    /// # Errors
    ///
    /// [`NoMemory`] where a growth was refused, in `Ops::copy` and `Ops::row` too.
    fn rows<O: Ops<Item = T>>(
        &self,
        alloc: Global,
        ops: &O,
        count: usize,
    ) -> Result<Vec<T>, NoMemory>
        ensures { IfOk result (λ v. v.items ≡ rows (O.meaning ops.now).row_of count (items_of (values self.now))) };

    /// Copies of the items of one row: of each value that has an item at this place, counted from 0.
    ///
    /// # Errors
    ///
    /// [`NoMemory`] where a growth was refused, in `Ops::copy` too.
    fn row_items<O: Ops<Item = T>>(
        &self,
        alloc: Global,
        ops: &O,
        at: usize,
    ) -> Result<Vec<T>, NoMemory>
        ensures { IfOk result (λ v. v.items ≡ at_each at (items_of (values self.now))) };
}

impl<T: Drop> Zip<T> for Vec<StreamValue<T>> {
    ghost values = { λ v. v.items };

    fn zip<O: Ops<Item = T>>(
        &self,
        alloc: Global,
        ops: &O,
        recorded: Option<u32>,
    ) -> Result<Option<StreamValue<T>>, NoMemory>
        ensures { IfOk result (λ v. v ≡ spec.zip (O.meaning ops.now).row_of recorded self.now.items) }
    {
        let count = shortest(self.as_slice());
        match ending_of(self.as_slice(), count, recorded) {
            None => Ok(None),
            Some(ending) => {
                let items = self.rows(alloc, ops, count)?;
                Ok(Some(StreamValue::new(items, ending)))
            }
        }
    }

    #[tactic(auto, using(crate::proofs::JoiningPlaces::dropped_none, crate::proofs::JoiningPlaces::rows_step))]
    fn rows<O: Ops<Item = T>>(
        &self,
        alloc: Global,
        ops: &O,
        count: usize,
    ) -> Result<Vec<T>, NoMemory>
        ensures { IfOk result (λ v. v.items ≡ rows (O.meaning ops.now).row_of count (items_of self.now.items)) }
    {
        let mut out = Vec::new(alloc);
        for at in 0..count {
            let items = self.row_items(alloc, ops, at)?;
            let row = ops.row(alloc, items.as_slice())?;
            out.push(row)?;
        }
        Ok(out)
    }

    #[tactic(auto, using(crate::proofs::JoiningPlaces::row_pushed, crate::proofs::JoiningPlaces::row_passed, crate::proofs::JoiningPlaces::row_over))]
    fn row_items<O: Ops<Item = T>>(
        &self,
        alloc: Global,
        ops: &O,
        at: usize,
    ) -> Result<Vec<T>, NoMemory>
        ensures { IfOk result (λ v. v.items ≡ at_each at (items_of self.now.items)) }
    {
        let mut items = Vec::new(alloc);
        for value in self.iter() {
            let Some(item) = value.items().get(at) else {
                continue;
            };
            let copy = ops.copy(alloc, item)?;
            items.push(copy)?;
        }
        Ok(items)
    }
}

/// How many rows there are: the items of the shortest value.
#[tactic(auto, using(crate::proofs::JoiningPlaces::shortest_more))]
fn shortest<T: Drop>(values: &[StreamValue<T>]) -> usize
    ensures { result ≡ spec.shortest (items_of values.now) }
{
    match values.split_first() {
        None => 0,
        Some((first, others)) => {
            if others.is_empty() {
                return first.items().len();
            }
            let least = shortest(others);
            if first.items().len() <= least {
                first.items().len()
            } else {
                least
            }
        }
    }
}

/// The ending after so many rows, if the recorded value allows one.
fn ending_of<T: Drop>(
    values: &[StreamValue<T>],
    count: usize,
    recorded: Option<u32>,
) -> Option<Ending>
    ensures { result ≡ spec.zip_ending count recorded values.now }
{
    match recorded {
        None => Some(first_ending(values, count)),
        Some(number) => match values.get(number as usize) {
            Some(value) => {
                if ends_after(value, count) {
                    return Some(value.ending());
                }
                None
            }
            None => None,
        },
    }
}

/// The ending of the first value that has ended after just so many items; Open where none has.
fn first_ending<T: Drop>(values: &[StreamValue<T>], count: usize) -> Ending
    ensures { result ≡ spec.first_ending count values.now }
{
    match values.split_first() {
        None => Ending::Open,
        Some((first, others)) => {
            if ends_after(first, count) {
                return first.ending();
            }
            first_ending(others, count)
        }
    }
}

/// Whether a value has ended and just so many items.
fn ends_after<T: Drop>(value: &StreamValue<T>, count: usize) -> bool
    ensures { result ≡ spec.ends_after count value.now }
{
    if value.items().len() != count {
        return false;
    }
    match value.ending() {
        Ending::Open => false,
        Ending::Done | Ending::Failed(_) => true,
    }
}
