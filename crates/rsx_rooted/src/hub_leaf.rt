//! The node that reads a hub takes in several items of it at once, and lets several that wait out at once. A node above it may decline
//! an item of a batch, so it makes a batch of copies, and only of items so small that a copy costs next to nothing.

ghost use Rattle.std.specs.Prelude.{◌≡◌};
ghost use Rattle.rsx_hub.specs.Leaf.{leaf_spaces};
ghost use Rattle.rsx_rooted.specs.Went.{leaf_went};

use crate::batch::{After, Batches, Noted};
use rsx_hub::{Holds, HubLeaf};
use rsx_sources::Machine;
use rsx_types::Ops;
use std::alloc::Global;
use std::mem::size_of_val;

/// The most bytes of an item that is copied for a batch: a number has no more. What has more may well own memory.
const MOST_COPIED: usize = 8;

impl<T: Drop> Batches for HubLeaf<T> {
    ghost went = { λ old noted new. leaf_went old noted.after new };

    ghost spaces_of = { leaf_spaces };

    #[inline]
    fn most(&self) -> u64 {
        match self.first() {
            Some(item) if size_of_val(item) <= MOST_COPIED => self.len() as u64,
            _ => 0,
        }
    }

    #[inline(always)]
    fn peek<O: Ops<Item = T>>(
        &self,
        alloc: Global,
        ops: &O,
        most: u64,
        items: &mut Vec<T>,
    ) -> Option<Noted<T>> {
        match self.copy_first(alloc, ops, most, items) {
            Ok(()) => Some(Noted {
                took: 0,
                steps: 0,
                by_step: false,
                after: After::Gave(most),
            }),
            Err(_) => None,
        }
    }

    fn try_pass<O: Ops<Item = T>>(
        &self,
        alloc: Global,
        ops: &O,
        input: u64,
        items: &mut Vec<T>,
        spare: &mut Vec<T>,
    ) -> Option<Noted<T>> {
        None
    }

    fn take_out<O: Ops<Item = T>>(
        &mut self,
        alloc: Global,
        ops: &O,
        most: u64,
        items: &mut Vec<T>,
    ) -> bool {
        let fewer = most.min(self.len() as u64);
        if fewer == 0 {
            return false;
        }
        let mut out = match Vec::with_capacity(alloc, fewer as usize) {
            Ok(out) => out,
            Err(_) => return false,
        };
        for gone in 0..fewer {
            match self.pop_item(alloc, ops) {
                Some(item) => out.push_reserved(item),
                None => break,
            }
        }
        *items = out;
        true
    }

    #[inline(always)]
    fn go_on(&mut self, noted: Noted<T>)
        ensures { leaf_went self.old noted.after self.new }
    {
        if let After::Gave(count) = noted.after {
            self.skip(count);
        }
    }

    fn spaces(&self) -> u64 {
        HubLeaf::spaces(self)
    }

    fn take_in_many(&mut self, items: &mut Vec<T>, count: u64) {
        HubLeaf::take_in_many(self, items, count);
    }
}
