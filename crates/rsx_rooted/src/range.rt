//! Batches of a range. While a batch is tried, a range of its own goes on in the place of the node.

ghost use Rattle.std.specs.Prelude.{◌≡◌};
ghost use Rattle.rsx_rooted.specs.Went.{range_went};

use crate::batch::{After, Batches, Noted};
use rsx_sources::{Machine, RangeNode};
use rsx_types::Ops;
use std::alloc::Global;
use std::marker::PhantomData;

impl<T: Drop> Batches for RangeNode<T> {
    ghost went = { λ old noted new. range_went old noted.after new };

    ghost spaces_of = { λ n. 0 };

    #[inline]
    fn most(&self) -> u64 {
        self.count - self.at
    }

    fn peek<O: Ops<Item = T>>(
        &self,
        alloc: Global,
        ops: &O,
        most: u64,
        items: &mut Vec<T>,
    ) -> Option<Noted<T>> {
        let mut node: RangeNode<T> = RangeNode {
            first: self.first,
            count: self.count,
            at: self.at,
            item: PhantomData,
        };
        if items.reserve(most as usize).is_err() {
            return None;
        }
        for made in 0..most {
            match node.pop_item(alloc, ops) {
                Some(item) => items.push_reserved(item),
                None => break,
            }
        }
        Some(Noted {
            took: 0,
            steps: 0,
            by_step: false,
            after: After::Gave(items.len() as u64),
        })
    }

    fn try_pass<O: Ops<Item = T>>(
        &self,
        alloc: Global,
        ops: &O,
        input: u64,
        items: &mut Vec<T>,
        spare: &mut Vec<T>,
    ) -> Option<Noted<T>> {
        None
    }

    fn go_on(&mut self, noted: Noted<T>)
        ensures { range_went self.old noted.after self.new }
    {
        if let After::Gave(count) = noted.after {
            self.at = self.at.saturating_add(count).min(self.count);
        }
    }

    fn spaces(&self) -> u64 {
        0
    }

    fn take_in_many(&mut self, items: &mut Vec<T>, count: u64) {}
}
