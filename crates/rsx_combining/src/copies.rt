//! Copies of latest items.

ghost use Rattle.std.specs.Prelude.{◌≡◌, ◌++◌, List, Option, Some, map, OnOk};

use rsx_types::{NoMemory, Ops};
use std::alloc::Global;

/// Latest items.
pub trait LatestCopies<T: Drop> {
    /// The latest items so far.
    ghost so_far: { Self → List (Option T) };

    /// Puts copies of these behind those so far.
    ///
    /// # Errors
    /// [`NoMemory`] where a growth was refused, in `Ops::copy` too.
    fn push_copies<O: Ops<Item = T>>(
        &mut self,
        alloc: Global,
        ops: &O,
        latest: &[Option<T>],
    ) -> Result<(), NoMemory>
        ensures { OnOk result (so_far self.new ≡ so_far self.old ++ latest.now) };

    /// Puts copies of these items, one of each input, behind those so far.
    ///
    /// # Errors
    /// [`NoMemory`] where a growth was refused, in `Ops::copy` too.
    fn push_item_copies<O: Ops<Item = T>>(
        &mut self,
        alloc: Global,
        ops: &O,
        items: &[T],
    ) -> Result<(), NoMemory>
        ensures { OnOk result (so_far self.new ≡ so_far self.old ++ map Some items.now) };
}

impl<T: Drop> LatestCopies<T> for Vec<Option<T>> {
    ghost so_far = { λ v. v.items };

    fn push_copies<O: Ops<Item = T>>(
        &mut self,
        alloc: Global,
        ops: &O,
        latest: &[Option<T>],
    ) -> Result<(), NoMemory> {
        match latest.split_first() {
            None => Ok(()),
            Some((first, others)) => match first {
                Some(item) => {
                    let copy = ops.copy(alloc, item)?;
                    self.push(Some(copy))?;
                    self.push_copies(alloc, ops, others)
                }
                None => {
                    self.push(None)?;
                    self.push_copies(alloc, ops, others)
                }
            },
        }
    }

    fn push_item_copies<O: Ops<Item = T>>(
        &mut self,
        alloc: Global,
        ops: &O,
        items: &[T],
    ) -> Result<(), NoMemory> {
        match items.split_first() {
            None => Ok(()),
            Some((first, others)) => {
                let copy = ops.copy(alloc, first)?;
                self.push(Some(copy))?;
                self.push_item_copies(alloc, ops, others)
            }
        }
    }
}
