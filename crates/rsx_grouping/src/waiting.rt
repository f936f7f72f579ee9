//! Items that wait to be taken, one by one.

ghost use Rattle.std.specs.Prelude.{◌≡◌, List, ◌++◌, map, IfOk, OnOk};

use rsx_demand::saturating_total;
use rsx_types::{NoMemory, Ops};
use std::alloc::Global;
use std::marker::Model;

/// Items that wait to be taken, the oldest first. Contracts see the list of them. No call takes memory.
#[derive(Drop)]
pub struct WaitingItems<T> {
    // The oldest item. Where there is none, nothing waits.
    first: Option<T>,
    // The items behind it, the last one first.
    behind: Vec<T>,
}

impl<T> Model for WaitingItems<T> {
    ghost use Rattle.std.specs.Prelude.{List};
    ghost use Rattle.rsx_grouping.specs.Waiting.{waiting_of};

    ghost Value = { List T };

    ghost view = { λ w. waiting_of w.first w.behind.items };
}

impl<T: Drop> WaitingItems<T> {
    ghost use Rattle.std.specs.Prelude.{◌≡◌, [], ◌++◌, length, slice_get};
    ghost use Rattle.std.specs.Option.{option_copied, option_to_list};
    ghost use Rattle.rsx_demand.specs.Demand.{saturating_total};
    ghost use Rattle.rsx_sources.specs.Slot.{is_nil};

    /// These items.
    pub fn of(items: Vec<T>) -> WaitingItems<T>
        ensures { result ≡ items.items }
    {
        let mut behind = items;
        behind.reverse();
        let first = behind.pop();
        WaitingItems { first, behind }
    }

    /// How many items wait, and `count` others; at most 2^63-1.
    #[tactic(auto, using(crate::proofs::Waits::counted))]
    pub fn count_with(&self, count: u64) -> u64
        ensures { result ≡ saturating_total count (length self.now) }
    {
        let behind = self.behind.len() as u64;
        match &self.first {
            None => saturating_total(count, 0),
            Some(_) => saturating_total(saturating_total(count, 1), behind),
        }
    }

    /// Whether no item waits.
    pub fn is_empty(&self) -> bool
        ensures { result ≡ is_nil self.now }
    {
        self.first.is_none()
    }

    /// The oldest item, if there is one.
    pub fn front(&self) -> Option<&T>
        ensures { option_copied result ≡ slice_get self.now 0 }
    {
        self.first.as_ref()
    }

    /// Puts an item, if there is one, where none waits.
    pub fn put(&mut self, item: Option<T>)
        requires { self.old ≡ [] }
        ensures { self.new ≡ option_to_list item }
    {
        self.behind.clear();
        self.first = item;
    }

    /// Takes the oldest item, if there is one.
    pub fn pop(&mut self) -> Option<T>
        ensures item { result ≡ slice_get self.old 0 }
        ensures left { self.old ≡ option_to_list result ++ self.new }
    {
        match self.first.take() {
            Some(item) => {
                self.first = self.behind.pop();
                Some(item)
            }
            None => None,
        }
    }
}

/// Items that get the tag of a key.
pub(crate) trait Tagging<T: Drop> {
    ghost items: { Self → List T };

    /// Copies of the items, each with the tag of this key.
    ///
    /// # Errors
    /// [`NoMemory`] where a growth was refused, in `Ops::tag` too.
    fn tagged<O: Ops<Item = T>>(&self, alloc: Global, ops: &O, key: u64) -> Result<Vec<T>, NoMemory>
        ensures { IfOk result (λ v. v.items ≡ map ((O.meaning ops.now).tagged key) (items self.now)) };
}

impl<T: Drop> Tagging<T> for WaitingItems<T> {
    ghost items = { λ w. w };

    fn tagged<O: Ops<Item = T>>(&self, alloc: Global, ops: &O, key: u64) -> Result<Vec<T>, NoMemory>
        ensures { IfOk result (λ v. v.items ≡ map ((O.meaning ops.now).tagged key) self.now) }
    {
        let mut tagged = Vec::new(alloc);
        let Some(first) = &self.first else {
            return Ok(tagged);
        };
        tagged.push(ops.tag(alloc, key, first)?)?;
        for at in (0..self.behind.len()).rev() {
            let item = ops.tag(alloc, key, &self.behind[at])?;
            tagged.push(item)?;
        }
        Ok(tagged)
    }
}

/// Tagged items that came out so far.
pub(crate) trait TaggingBehind<T: Drop> {
    ghost so_far: { Self → List T };

    /// Puts copies of these items behind, each with the tag of this key.
    ///
    /// # Errors
    /// [`NoMemory`] where a growth was refused, in `Ops::tag` too.
    fn tag_behind<O: Ops<Item = T>>(
        &mut self,
        alloc: Global,
        ops: &O,
        key: u64,
        items: &[T],
    ) -> Result<(), NoMemory>
        ensures { OnOk result (so_far self.new ≡ so_far self.old ++ map ((O.meaning ops.now).tagged key) items.now) };
}

impl<T: Drop> TaggingBehind<T> for Vec<T> {
    ghost so_far = { λ v. v.items };

    fn tag_behind<O: Ops<Item = T>>(
        &mut self,
        alloc: Global,
        ops: &O,
        key: u64,
        items: &[T],
    ) -> Result<(), NoMemory>
        ensures { OnOk result (self.new.items ≡ self.old.items ++ map ((O.meaning ops.now).tagged key) items.now) }
    {
        for item in items {
            let tagged = ops.tag(alloc, key, item)?;
            self.push(tagged)?;
        }
        Ok(())
    }
}
