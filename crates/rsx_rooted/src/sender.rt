//! Batches through a node, and over the queue of its edge, where that crosses and the queue is empty: then each item goes into the
//! queue and out of it, which is a row.

ghost use Rattle.std.specs.Prelude.{◌≡◌, [], true, false, IfSome};
ghost use Rattle.rsx_queued.specs.Held.{is_open};
ghost use Rattle.rsx_rooted.specs.Went.{inside, sender_spaces, sender_went};

use crate::batch::{Batches, Noted};
use crate::resting::want_of_resting;
use rsx_queued::{Queued, Sender};
use rsx_types::Ops;
use std::alloc::Global;

impl<M: Batches<Item = T>, T: Drop> Batches for Sender<M, T> {
    ghost went = { sender_went M.went };

    ghost spaces_of = { sender_spaces M.spaces_of };

    #[inline]
    fn want_at_rest(&self, asked: u64, sent: u64) -> Option<u64> {
        match self {
            Sender::Direct(node) => node.want_at_rest(asked, sent),
            Sender::Crossing(_) => want_of_resting(self, asked, sent),
        }
    }

    #[inline]
    fn most(&self) -> u64 {
        match self {
            Sender::Direct(node) => node.most(),
            Sender::Crossing(crossing) => crossing.node.most(),
        }
    }

    fn peek<O: Ops<Item = T>>(
        &self,
        alloc: Global,
        ops: &O,
        most: u64,
        items: &mut Vec<T>,
    ) -> Option<Noted<T>> {
        match self {
            Sender::Direct(node) => node.peek(alloc, ops, most, items),
            Sender::Crossing(crossing) => {
                if !is_free(crossing) {
                    return None;
                }
                match crossing.node.peek(alloc, ops, most, items) {
                    Some(noted) => over_queue(noted, items.len() as u64),
                    None => None,
                }
            }
        }
    }

    fn try_pass<O: Ops<Item = T>>(
        &self,
        alloc: Global,
        ops: &O,
        input: u64,
        items: &mut Vec<T>,
        spare: &mut Vec<T>,
    ) -> Option<Noted<T>> {
        match self {
            Sender::Direct(node) => node.try_pass(alloc, ops, input, items, spare),
            Sender::Crossing(crossing) => {
                if !is_free(crossing) {
                    return None;
                }
                match crossing.node.try_pass(alloc, ops, input, items, spare) {
                    Some(noted) => over_queue(noted, items.len() as u64),
                    None => None,
                }
            }
        }
    }

    #[inline]
    fn take_out<O: Ops<Item = T>>(
        &mut self,
        alloc: Global,
        ops: &O,
        most: u64,
        items: &mut Vec<T>,
    ) -> bool {
        match self {
            Sender::Direct(node) => node.take_out(alloc, ops, most, items),
            Sender::Crossing(_) => false,
        }
    }

    #[inline]
    fn step_items<O: Ops<Item = T>>(
        &mut self,
        alloc: Global,
        ops: &O,
        most: u64,
        items: &mut Vec<T>,
    ) -> bool {
        match self {
            Sender::Direct(node) => node.step_items(alloc, ops, most, items),
            Sender::Crossing(_) => false,
        }
    }

    fn go_on(&mut self, noted: Noted<T>)
        ensures { sender_went M.went self.old noted self.new }
    {
        match self {
            Sender::Direct(node) => node.go_on(noted),
            Sender::Crossing(crossing) => {
                let inner = Noted {
                    took: noted.took,
                    steps: 0,
                    by_step: false,
                    after: noted.after,
                };
                crossing.node.go_on(inner);
            }
        }
    }

    fn spaces(&self) -> u64 {
        match self {
            Sender::Direct(node) => node.spaces(),
            Sender::Crossing(_) => 0,
        }
    }

    fn take_in_many(&mut self, items: &mut Vec<T>, count: u64) {
        match self {
            Sender::Direct(node) => node.take_in_many(items, count),
            Sender::Crossing(_) => {}
        }
    }
}

/// Whether items can go over the queue at once: it is empty, and no ending stands in it.
fn is_free<M: Batches<Item = T>, T: Drop>(crossing: &Queued<M, T>) -> bool
    ensures { result ≡ true → (crossing.now.queue ≡ []) × (is_open crossing.now.tail ≡ true) }
{
    crossing.queue.is_empty() && crossing.tail.is_open()
}

/// What a node noted with the rows by which so many items that it put out went over its queue. None where it puts them out by steps of
/// its own.
fn over_queue<T: Drop>(noted: Noted<T>, items: u64) -> Option<Noted<T>>
    requires { noted.by_step ≡ false → noted.steps ≡ 0 }
    ensures { IfSome result (λ all. (inside all ≡ noted) × (noted.by_step ≡ false) × (all.took ≡ noted.took) × (all.steps ≡ items) × (all.by_step ≡ true)) }
{
    if noted.by_step {
        return None;
    }
    Some(Noted {
        took: noted.took,
        steps: items,
        by_step: true,
        after: noted.after,
    })
}
