//! `skip`: all items but the first ones.

ghost use Rattle.std.specs.Prelude.{◌≡◌};

use rsx_demand::saturating_total;
use rsx_processor::Processor;
use rsx_types::{NoMemory, Ops};
use std::alloc::Global;
use std::marker::PhantomData;

/// Leaves out the first items that come in.
#[derive(Drop)]
pub struct Skip<T> {
    /// How many items are left out.
    count: u64,
    /// How many of them have not come yet.
    left: u64,
    /// The type of the items.
    item: PhantomData<T>,
}

impl<T: Drop> Skip<T> {
    ghost use Rattle.std.specs.Prelude.{◌≡◌};
    ghost use Rattle.test_skip.specs.Skip.{balanced};

    /// Leaves out so many. It takes no memory.
    pub fn new(count: u64) -> Skip<T>
        ensures left { result.left ≡ count }
        ensures balanced { balanced result 0 0 }
    {
        Skip {
            count,
            left: count,
            item: PhantomData,
        }
    }
}

impl<T: Drop> Processor for Skip<T> {
    type Item = T;

    ghost use Rattle.std.specs.Prelude.{false, drop};
    ghost use Rattle.test_skip.specs.Skip.{balanced, nothing, wanted, wants_more};

    ghost from = { λ m s items. drop s.left items };

    ghost balanced = { balanced };

    ghost wanted = { wanted };

    ghost allocates = { λ a s. false };

    fn on_next<O: Ops<Item = T>>(
        &mut self,
        alloc: Global,
        ops: &O,
        item: T,
    ) -> Result<Option<T>, T> {
        if self.left == 0 {
            return Ok(Some(item));
        }
        self.left -= 1;
        Ok(None)
    }

    fn want(&self, asked: u64) -> u64 {
        saturating_total(asked, self.count)
    }

    fn rest<O: Ops<Item = T>>(
        &self,
        alloc: Global,
        ops: &O,
        items: &[T],
        out: &mut Vec<T>,
    ) -> Result<(), NoMemory> {
        let mut left = self.left;
        for item in items {
            if left == 0 {
                out.push(ops.copy(alloc, item)?)?;
            } else {
                left -= 1;
            }
        }
        Ok(())
    }

    ghost nothing = { λ m s. nothing s.left };

    ghost wants_more = { wants_more };
}
