//! Batches through plain operators. While a batch is tried, a node of its own goes on in the place of the operator's.

ghost use Rattle.std.specs.Prelude.{◌≡◌, ◌≤◌, [], length, true, IfSome};
ghost use Rattle.rsx_rooted.specs.Items.{IsIn, ArePassed, IsOut};
ghost use Rattle.rsx_rooted.specs.Machines.{plain_machine};
ghost use Rattle.rsx_rooted.specs.Went.{plain_went};
ghost use Rattle.rsx_plain.specs.declared.node.PlainNode.{PlainNode as PlainNodeSpec};
ghost use Rattle.rsx_plain.specs.declared.state.PlainState.{PlainState as PlainStateSpec};

use crate::batch::{After, Batches, Noted};
use rsx_plain::{PassingAll, PlainNode};
use rsx_sources::{Machine, OutSlot};
use rsx_types::Ops;
use std::alloc::Global;

impl<T: Drop> Batches for PlainNode<T> {
    ghost went = { λ old noted new. plain_went old noted.after new };

    ghost spaces_of = { λ n. 0 };

    #[inline]
    fn most(&self) -> u64 {
        if !self.slot.is_empty() {
            return 0;
        }
        self.state.most()
    }

    fn peek<O: Ops<Item = T>>(
        &self,
        alloc: Global,
        ops: &O,
        most: u64,
        items: &mut Vec<T>,
    ) -> Option<Noted<T>> {
        None
    }

    fn try_pass<O: Ops<Item = T>>(
        &self,
        alloc: Global,
        ops: &O,
        input: u64,
        items: &mut Vec<T>,
        spare: &mut Vec<T>,
    ) -> Option<Noted<T>> {
        if input != 0 || !self.slot.is_empty() {
            return None;
        }
        let took = items.len() as u64;
        let mut state = match self.state.copy_for_batch(alloc, ops) {
            Some(state) => state,
            None => return None,
        };
        match state.pass_all(alloc, ops, items, spare) {
            true => Some(Noted {
                took,
                steps: 0,
                by_step: false,
                after: After::Plain(PlainNode {
                    state,
                    slot: OutSlot::new(),
                }),
            }),
            false => None,
        }
    }

    fn go_on(&mut self, noted: Noted<T>)
        ensures { plain_went self.old noted.after self.new }
    {
        if let After::Plain(node) = noted.after {
            *self = node;
        }
    }

    fn spaces(&self) -> u64 {
        0
    }

    fn take_in_many(&mut self, items: &mut Vec<T>, count: u64) {}
}
