//! The latest item of each input of a combineLatest.

ghost use Rattle.std.specs.Prelude.{◌≡◌, ◌<◌, ◌++◌, ◌∷◌, [], Some, List, Option, true, not, length, slice_get, slice_set, map, option_map, IfSome, IfOk, IfErr, OnOk, OnErr};
ghost use Rattle.rsx_queued.specs.Input.{next_signal, without};
ghost use Rattle.rsx_values.specs.Latest.{all_latest, is_itemless};
ghost use Rattle.rsx_values.specs.Record.{written};
ghost use Rattle.rsx_combining.specs.Latest.{all_there, gives_row, row_is_next, row_given, latest_with};

use crate::copies::LatestCopies;
use crate::given::LatestRow;
use rsx_queued::QueuedInput;
use rsx_types::{NoMemory, Ops};
use rsx_values::Record;
use std::alloc::Global;
use std::marker::Model;
use std::mem;

/// The latest item of each input, none where an input has had none. Contracts see a list.
///
/// Once each input has had an item, they stand side by side, so that a row is made of them where they are. Only
/// [`LatestItems::new`] takes memory.
#[derive(Drop)]
pub struct LatestItems<T> {
    before: Vec<Option<T>>,
    all: Vec<T>,
}

impl<T> Model for LatestItems<T> {
    ghost use Rattle.std.specs.Prelude.{◌≡◌, ◌≤◌, ◌⊎◌, ◌++◌, [], List, Option, Some, map, length, vec_capacity};

    ghost Value = { List (Option T) };

    ghost view = { λ n. n.before.items ++ map Some n.all.items };

    ghost invariant = { λ n.
        (n.before.items ≡ [] ⊎ n.all.items ≡ []) × (length (n.before.items ++ map Some n.all.items) ≤ vec_capacity n.all) };
}

/// Whether this input has had an item.
fn had_item<T: Drop>(latest: &[Option<T>], at: usize) -> bool
    ensures { result ≡ not (is_itemless (slice_get latest.now at)) }
{
    match latest.get(at) {
        Some(Some(_)) => true,
        Some(None) | None => false,
    }
}

/// Whether every input has had an item.
fn all_there<T: Drop>(latest: &[Option<T>]) -> bool
    ensures { result ≡ all_there latest.now }
{
    match latest.split_first() {
        None => true,
        Some((first, others)) => first.is_some() && all_there(others),
    }
}

/// Whether every input but this one has had an item.
fn gives_row<T: Drop>(latest: &[Option<T>], input: u64) -> bool
    ensures { result ≡ gives_row latest.now input }
{
    match latest.split_first() {
        None => false,
        Some((first, others)) => {
            if input == 0 {
                return all_there(others);
            }
            first.is_some() && gives_row(others, input - 1)
        }
    }
}

impl<T: Drop> LatestItems<T> {
    ghost use Rattle.std.specs.Prelude.{◌≡◌, ◌<◌, not, false, None, Some, length, slice_get, slice_set, IfOk};
    ghost use Rattle.std.proofs.Math.ListN.{replicate};
    ghost use Rattle.rsx_values.specs.Latest.{is_itemless};

    /// Those of so many inputs, none of which has had an item.
    ///
    /// # Errors
    /// [`NoMemory`] where a growth was refused.
    #[tactic(auto, using(std::proofs::lemmas::List::replicate_more))]
    pub fn new(alloc: Global, inputs: u32) -> Result<LatestItems<T>, NoMemory>
        ensures { IfOk result (λ n. n ≡ replicate inputs None) }
    {
        let mut before = Vec::new(alloc);
        for _ in 0..inputs {
            before.push(None)?;
        }
        let all = Vec::with_capacity(alloc, before.len())?;
        Ok(LatestItems { before, all })
    }

    /// Whether this input has had an item.
    #[inline]
    pub fn has_item(&self, at: usize) -> bool
        ensures { result ≡ not (is_itemless (slice_get self.now at)) }
    {
        if !self.all.is_empty() {
            return at < self.all.len();
        }
        had_item(self.before.as_slice(), at)
    }

    /// Whether an item of this input gives a row: every other input has had one.
    #[inline]
    pub fn gives_row(&self, input: u64) -> bool
        ensures { result ≡ gives_row self.now input }
    {
        if !self.all.is_empty() {
            return input < self.all.len() as u64;
        }
        gives_row(self.before.as_slice(), input)
    }

    /// Whether the items stand side by side, which they do from the first row on. The answer no promises nothing.
    #[inline]
    pub fn had_row(&self) -> bool
        ensures { result ≡ true → all_there self.now ≡ true }
    {
        !self.all.as_slice().is_empty()
    }

    /// Keeps this item as the latest of this input.
    pub fn keep(&mut self, at: usize, latest: T)
        requires { at < length self.old }
        ensures { self.new ≡ slice_set self.old at (Some latest) }
    {
        if !self.all.is_empty() {
            self.all[at] = latest;
            return;
        }
        self.before[at] = Some(latest);
    }

    /// Keeps an item of this input that gives no row.
    pub fn put(&mut self, at: usize, item: T)
        requires there { at < length self.old }
        requires no_row { gives_row self.old at ≡ false }
        ensures { self.new ≡ slice_set self.old at (Some item) }
    {
        self.before[at] = Some(item);
    }
}

/// The rows that items give, and copies of the items.
pub trait ItemRows<T: Drop> {
    /// The latest item of each input.
    ghost latest: { Self → List (Option T) };

    /// Keeps this item of this input, adds the choice of the input, and answers the row that the item gives.
    ///
    /// # Errors
    /// The item, where `Ops::row` or a growth for the choice was refused. Nothing has changed.
    fn row_with<O: Ops<Item = T>>(
        &mut self,
        alloc: Global,
        ops: &O,
        choices: &mut Record,
        at: usize,
        item: T,
    ) -> Result<T, T>
        requires { gives_row (latest self.old) at ≡ true }
        ensures row { IfOk result (λ y.
            Some y ≡ option_map (O.meaning ops.now).row_of (all_latest (slice_set (latest self.old) at (Some item)))) }
        ensures latest { OnOk result (latest self.new ≡ slice_set (latest self.old) at (Some item)) }
        ensures choice { OnOk result (written choices.new ≡ written choices.old ++ at ∷ []) }
        ensures item { IfErr result (λ x. x ≡ item) }
        ensures same { OnErr result (latest self.new ≡ latest self.old) }
        ensures choices { OnErr result (choices.new ≡ choices.old) };

    /// Takes the next item of the input with this number, which gives a row, and answers the row. The choice of the input is
    /// added.
    ///
    /// # Errors
    /// [`NoMemory`] where `Ops::row` or a growth for the choice was refused. Nothing has changed.
    fn row_of_next<O: Ops<Item = T>>(
        &mut self,
        alloc: Global,
        ops: &O,
        choices: &mut Record,
        at: usize,
        input: &mut QueuedInput<T>,
    ) -> Result<T, NoMemory>
        requires { row_is_next (next_signal input.old) (gives_row (latest self.old) at) ≡ true }
        ensures row { IfOk result (λ y.
            Some y ≡ row_given (O.meaning ops.now).row_of (latest self.old) at (next_signal input.old)) }
        ensures latest { OnOk result (latest self.new ≡ latest_with (latest self.old) at (next_signal input.old)) }
        ensures input { OnOk result (input.new ≡ without input.old (next_signal input.old)) }
        ensures choice { OnOk result (written choices.new ≡ written choices.old ++ at ∷ []) }
        ensures same { OnErr result (latest self.new ≡ latest self.old) }
        ensures unread { OnErr result (input.new ≡ input.old) }
        ensures choices { OnErr result (choices.new ≡ choices.old) };

    /// Copies of them.
    ///
    /// # Errors
    /// [`NoMemory`] where a growth was refused, in `Ops::copy` too.
    fn copies<O: Ops<Item = T>>(&self, alloc: Global, ops: &O) -> Result<Vec<Option<T>>, NoMemory>
        ensures { IfOk result (λ v. v.items ≡ latest self.now) };

    /// Copies of them side by side. None where an input has had no item yet, or where a growth was refused, in `Ops::copy` too.
    fn all_copies<O: Ops<Item = T>>(&self, alloc: Global, ops: &O) -> Option<Vec<T>>
        ensures { IfSome result (λ v. map Some v.items ≡ latest self.now) };
}

impl<T: Drop> ItemRows<T> for LatestItems<T> {
    ghost latest = { λ n. n };

    #[inline]
    fn row_with<O: Ops<Item = T>>(
        &mut self,
        alloc: Global,
        ops: &O,
        choices: &mut Record,
        at: usize,
        item: T,
    ) -> Result<T, T> {
        if self.all.is_empty() {
            return self
                .all
                .row_of_last(alloc, ops, choices, &mut self.before, at, item);
        }
        let before = mem::replace(&mut self.all[at], item);
        match self.all.chosen_row(alloc, ops, choices, at as u64) {
            Some(row) => Ok(row),
            None => Err(mem::replace(&mut self.all[at], before)),
        }
    }

    #[inline]
    fn row_of_next<O: Ops<Item = T>>(
        &mut self,
        alloc: Global,
        ops: &O,
        choices: &mut Record,
        at: usize,
        input: &mut QueuedInput<T>,
    ) -> Result<T, NoMemory> {
        match input.queue.lift() {
            None => unreachable!(),
            Some(item) => match self.row_with(alloc, ops, choices, at, item) {
                Ok(row) => {
                    input.queue.count_taken();
                    Ok(row)
                }
                Err(item) => {
                    input.queue.put_front(item);
                    Err(NoMemory)
                }
            },
        }
    }

    fn copies<O: Ops<Item = T>>(&self, alloc: Global, ops: &O) -> Result<Vec<Option<T>>, NoMemory> {
        let mut latest = Vec::new(alloc);
        latest.push_copies(alloc, ops, self.before.as_slice())?;
        latest.push_item_copies(alloc, ops, self.all.as_slice())?;
        Ok(latest)
    }

    fn all_copies<O: Ops<Item = T>>(&self, alloc: Global, ops: &O) -> Option<Vec<T>> {
        if !self.before.is_empty() {
            return None;
        }
        let items = self.all.as_slice();
        let mut copies = Vec::new(alloc);
        for item in items {
            let copy = ops.copy(alloc, item).ok()?;
            copies.push(copy).ok()?;
        }
        Some(copies)
    }
}
