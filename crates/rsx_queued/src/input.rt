//! One input of a node that queues what comes in there.

ghost use Rattle.std.specs.Prelude.{◌≡◌, ◌≤◌, ℕ, List, Option, Some, true, IfOk, IfSome, OnOk, ◌++◌, option_map};
ghost use Rattle.rsx_types.specs.Stream.{Stream, signal_then};
ghost use Rattle.rsx_sources.specs.Machine.{front_of};
ghost use Rattle.rsx_prefetch.specs.declared.TheConstants.{LARGEST};
ghost use Rattle.rsx_queued.specs.Input.{fresh_input, still, takes, is_gone, next_signal, waiting_count, with_signal, without, Gives, input_credits};

use crate::Tail;
use rsx_prefetch::{LARGEST, Prefetch};
use rsx_sources::Front;
use rsx_types::{Ending, NoMemory, Ops, Signal, StreamValue};
use std::alloc::Global;

/// One input of a node that queues what comes in there: the signals that came in and were not taken out yet, the oldest in
/// front.
///
/// The items stand in a queue of a capacity, and an ending stands beside them, so it needs no room. Only
/// [`QueuedInput::new`] and [`Remaining::rest`] take memory.
#[derive(Drop)]
pub struct QueuedInput<T> {
    /// The items that came in and were not taken out yet.
    pub queue: Prefetch<T>,
    /// The input's ending behind them: `Open` as long as none came in, `Taken` once it was taken out.
    pub tail: Tail,
}

impl<T: Drop> QueuedInput<T> {
    /// An input at which nothing came in, with room for so many items, 1 to [`LARGEST`].
    ///
    /// # Errors
    /// [`NoMemory`] where the growth for its queue was refused.
    pub fn new(alloc: Global, capacity: usize) -> Result<QueuedInput<T>, NoMemory>
        requires positive { 1 ≤ capacity }
        requires within { capacity ≤ LARGEST }
        ensures { IfOk result (λ q. q ≡ fresh_input capacity) }
    {
        let queue = Prefetch::new(alloc, capacity)?;
        Ok(QueuedInput {
            queue,
            tail: Tail::Open,
        })
    }

    /// Whether such a signal can be put in: no ending came in, and the signal is an ending or the queue has room.
    pub fn can_take(&self, front: Front) -> bool
        ensures { result ≡ takes self.now front }
    {
        if !self.tail.is_open() {
            return false;
        }
        match front {
            Front::Item => self.queue.has_room(),
            Front::Completion | Front::Failure(_) => true,
        }
    }

    /// Whether the ending was taken out, so that nothing comes any more.
    pub fn is_gone(&self) -> bool
        ensures { result ≡ is_gone self.now }
    {
        match self.tail {
            Tail::Taken => true,
            Tail::Open | Tail::Completion | Tail::Failure(_) => false,
        }
    }

    /// Which signal is next, if one is there: an item, or the ending behind the items.
    pub fn front(&self) -> Option<Front>
        ensures { result ≡ option_map front_of (next_signal self.now) }
    {
        if self.is_gone() {
            return None;
        }
        if !self.queue.is_empty() {
            return Some(Front::Item);
        }
        self.tail.front()
    }

    /// How many signals wait: the items that came in and were not taken out yet, and the ending, where it came in and was not taken
    /// out.
    pub fn waiting(&self) -> u64
        ensures { result ≡ waiting_count self.now }
    {
        // So there is a number for one more.
        prove!(self.queue.capacity() <= LARGEST);
        let items = self.queue.len() as u64;
        match self.tail {
            Tail::Completion | Tail::Failure(_) => items + 1,
            Tail::Open | Tail::Taken => items,
        }
    }

    /// How many items are to be asked of the input in all, so that each finds room.
    pub fn credits(&self) -> u64
        ensures { result ≡ input_credits self.now }
    {
        self.queue.credits()
    }

    /// Puts a signal behind those that are there. It can be put in ([`QueuedInput::can_take`]).
    ///
    /// What still comes out is then what came out before, had the signal come in first.
    pub fn put(&mut self, signal: Signal<T>)
        requires { takes self.old (front_of signal) ≡ true }
        ensures state { self.new ≡ with_signal self.old signal }
        ensures value { (v : Stream T) → still self.new v ≡ still self.old (signal_then signal v) }
    {
        match signal {
            Signal::Next(item) => self.queue.put(item),
            Signal::Complete => self.tail = Tail::Completion,
            Signal::Error(cause) => self.tail = Tail::Failure(cause),
        }
    }

    /// Takes the next signal out, if one is there. After the ending nothing comes any more.
    ///
    /// The signal and then what still comes out is what came out before.
    #[tactic(auto, using(crate::proofs::Queues::gives_item, crate::proofs::Queues::gives_ending))]
    pub fn take(&mut self) -> Option<Signal<T>>
        ensures signal { result ≡ next_signal self.old }
        ensures state { self.new ≡ without self.old result }
        ensures value { IfSome result (λ s. Gives self.old s self.new) }
    {
        if self.is_gone() {
            return None;
        }
        if self.queue.is_empty() {
            return self.tail.take();
        }
        match self.queue.take() {
            Some(item) => Some(Signal::Next(item)),
            None => None,
        }
    }
}

/// What still comes out of an input, copied.
pub trait Remaining<T: Drop> {
    ghost queued: { Self → List T };

    ghost remaining: { Self → Stream T → Option (Stream T) };

    ghost use Rattle.std.specs.Prelude.{◌≡◌, ◌++◌, IfOk, OnOk};

    /// Puts copies of the items of its queue behind `all`.
    fn copy_queue<O: Ops<Item = T>>(
        &self,
        alloc: Global,
        ops: &O,
        all: &mut Vec<T>,
    ) -> Result<(), NoMemory>
        ensures { OnOk result (all.new.items ≡ all.old.items ++ queued self.now) };

    /// What still comes out, where these items with this ending still come in; none where its ending was taken out.
    ///
    /// # Errors
    /// [`NoMemory`] where a growth was refused.
    fn rest<O: Ops<Item = T>>(
        &self,
        alloc: Global,
        ops: &O,
        items: &[T],
        ending: Ending,
    ) -> Result<Option<StreamValue<T>>, NoMemory>
        ensures { IfOk result (λ o. o ≡ remaining self.now (record { items = items.now; ending = ending })) };
}

impl<T: Drop> Remaining<T> for QueuedInput<T> {
    ghost queued = { λ q. q.queue.items };

    ghost remaining = { still };

    #[tactic(auto, using(crate::proofs::Queues::copied_more))]
    fn copy_queue<O: Ops<Item = T>>(
        &self,
        alloc: Global,
        ops: &O,
        all: &mut Vec<T>,
    ) -> Result<(), NoMemory> {
        for at in 0..self.queue.len() {
            match self.queue.get(at) {
                Some(item) => {
                    let copy = ops.copy(alloc, item)?;
                    all.push(copy)?;
                }
                None => unreachable!(),
            }
        }
        Ok(())
    }

    fn rest<O: Ops<Item = T>>(
        &self,
        alloc: Global,
        ops: &O,
        items: &[T],
        ending: Ending,
    ) -> Result<Option<StreamValue<T>>, NoMemory> {
        if self.is_gone() {
            return Ok(None);
        }
        let mut all = Vec::new(alloc);
        self.copy_queue(alloc, ops, &mut all)?;
        match self.tail {
            Tail::Open => {
                for item in items {
                    let copy = ops.copy(alloc, item)?;
                    all.push(copy)?;
                }
                Ok(Some(StreamValue::new(all, ending)))
            }
            Tail::Completion => Ok(Some(StreamValue::new(all, Ending::Done))),
            Tail::Failure(cause) => Ok(Some(StreamValue::new(all, Ending::Failed(cause)))),
            Tail::Taken => Ok(None),
        }
    }
}
