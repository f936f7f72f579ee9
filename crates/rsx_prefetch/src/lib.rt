#![tactic(auto)]
//! The queue between an operator and one of its inputs, and how much it lets be asked for.
//!
//! A [`Prefetch`] holds at most its capacity of items, first in, first out. What it credits is the
//! total to ask of the input: at first the whole capacity, and then a batch more each time that a
//! batch was taken. A batch is three quarters of the capacity, rounded up, as `prefetch` means it in
//! Project Reactor:
//!
//! ```text
//! batch   = capacity - capacity / 4
//! credits = capacity + batch * (taken / batch)        at most 2^63 - 1
//! ```
//!
//! An input that sends no more than was credited always finds room ([`Prefetch::credits`], `room`).
//!
//! The ring is made with the queue. No later call takes memory, and none refuses.
//!
//! # The queue of an edge
//!
//! The signals that wait on an edge.
//!
//! - [`queue`]: [`SignalQueue`], the signals on an edge that crosses, as the edge from a root to a subscriber does.

pub mod queue;

ghost use Rattle.std.specs.Prelude.{◌≡◌, ℕ, ◌+◌, ◌<◌, ◌≤◌, [], ◌∷◌, ◌++◌, length, drop, min, slice_get, option_copied, IfSome, IfNone, IfOk, IsTrue, ◌↔◌};
ghost use Rattle.rsx_demand.specs.Demand.{saturating_total};
ghost use Rattle.rsx_prefetch.specs.Credits as spec;
ghost use Rattle.rsx_prefetch.specs.Queue.{queue};

use circular_buffer::HeapCircularBuffer;
pub use queue::SignalQueue;
use rsx_demand::{UNBOUNDED, saturating_total};
pub use rsx_types::CAPACITY;
use rsx_types::NoMemory;
use std::alloc::Global;
use std::marker::Model;

/// The largest capacity of a queue, in items.
pub const LARGEST: usize = 2_048;

/// A queue of 1 to [`LARGEST`] items, which counts the items taken from it.
///
/// A contract sees its `items` from the front to the back, its `capacity`, and how many were `taken`
/// so far. That count stops at 2^63 - 1, from where on it makes no difference to the credits.
#[derive(Drop)]
pub struct Prefetch<T> {
    ring: HeapCircularBuffer<T>,
    taken: u64,
}

impl<T> Model for Prefetch<T> {
    ghost use Rattle.rsx_prefetch.specs.Queue.{Queue, IsPrefetch, queue, queue_code};

    ghost Value = { Queue T };

    ghost coded = { queue_code T.code };

    ghost view = { λ q. queue q.ring.items q.ring.capacity q.taken };

    ghost invariant = { λ q. IsPrefetch (queue q.ring.items q.ring.capacity q.taken) };
}

/// The credits of a queue of this capacity from which so many items were taken.
fn credits_after(capacity: u64, taken: u64) -> u64
    requires { 1 ≤ capacity }
    ensures { result ≡ spec.credits capacity taken }
{
    let batch = capacity - capacity / 4;
    saturating_total(capacity, batch * (taken / batch))
}

impl<T: Drop> Prefetch<T> {
    /// An empty queue of this capacity, from which nothing was taken.
    ///
    /// # Errors
    /// [`NoMemory`] where the growth for its ring was refused.
    pub fn new(alloc: Global, capacity: usize) -> Result<Self, NoMemory>
        requires positive { 1 ≤ capacity }
        requires within { capacity ≤ LARGEST }
        ensures { IfOk result (λ q. q ≡ queue [] capacity 0) }
    {
        let ring = HeapCircularBuffer::with_capacity(alloc, capacity)?;
        Ok(Prefetch { ring, taken: 0 })
    }

    /// Puts an item behind the others. The queue has room for it ([`Prefetch::has_room`]).
    pub fn put(&mut self, item: T)
        requires { length self.old.items < self.old.capacity }
        ensures { self.new ≡ queue (self.old.items ++ item ∷ []) self.old.capacity self.old.taken }
    {
        // There is room, so the item is not handed back.
        let _ = self.ring.try_push_back(item);
    }

    /// Takes the front item and counts it. An empty queue stays as it is.
    pub fn take(&mut self) -> Option<T>
        ensures front { IfSome result (λ item. self.old.items ≡ item ∷ self.new.items) }
        ensures empty { IfNone result (self.old.items ≡ []) }
        ensures taken { self.new ≡ queue (drop 1 self.old.items) self.old.capacity
            (saturating_total self.old.taken (min 1 (length self.old.items))) }

        // What was credited stays so.
        ensures credited { spec.credits self.old.capacity self.old.taken ≤ spec.credits self.new.capacity self.new.taken }
    {
        let item = self.ring.pop_front()?;
        self.count_taken();
        Some(item)
    }

    /// Takes the front item out and doesn't count it. It can be put back ([`Prefetch::put_front`]), or be counted after all
    /// ([`Prefetch::count_taken`]). An empty queue stays as it is.
    pub fn lift(&mut self) -> Option<T>
        ensures front { IfSome result (λ item. self.old.items ≡ item ∷ self.new.items) }
        ensures empty { IfNone result (self.old.items ≡ []) }
        ensures state { self.new ≡ queue (drop 1 self.old.items) self.old.capacity self.old.taken }
        ensures room { IfSome result (λ item. length self.new.items < self.new.capacity) }
    {
        self.ring.pop_front()
    }

    /// Puts an item in front of the others. The queue has room for it ([`Prefetch::has_room`]).
    pub fn put_front(&mut self, item: T)
        requires { length self.old.items < self.old.capacity }
        ensures { self.new ≡ queue (item ∷ self.old.items) self.old.capacity self.old.taken }
    {
        // There is room, so the item is not handed back.
        let _ = self.ring.try_push_front(item);
    }

    /// Counts one more item as taken. The count stops at 2^63 - 1.
    pub fn count_taken(&mut self)
        ensures { self.new ≡ queue self.old.items self.old.capacity (saturating_total self.old.taken 1) }
    {
        self.taken += (self.taken < UNBOUNDED) as u64;
    }

    /// Counts so many items more as taken, which never stood in the queue: what putting each of them in and taking it out again counts.
    /// The count stops at 2^63 - 1.
    pub fn count_passed(&mut self, items: u64)
        ensures { self.new ≡ queue self.old.items self.old.capacity (saturating_total self.old.taken items) }
    {
        let taken = saturating_total(self.taken, items);
        self.taken = taken;
    }

    /// The front item, the next that [`Prefetch::take`] gives.
    pub fn front(&self) -> Option<&T>
        ensures { option_copied result ≡ slice_get self.now.items 0 }
    {
        self.ring.front()
    }

    /// The item with `index` others in front of it, or none where there are no more items than that.
    pub fn get(&self, index: usize) -> Option<&T>
        ensures { option_copied result ≡ slice_get self.now.items index }
    {
        self.ring.get(index)
    }

    /// Drops all items. They don't count as taken: the capacity, the count of the items taken and the
    /// credits stay as they are.
    pub fn clear(&mut self)
        ensures { self.new ≡ queue [] self.old.capacity self.old.taken }
    {
        self.ring.clear();
    }

    /// How many items the queue holds.
    pub fn len(&self) -> usize
        ensures len { result ≡ length self.now.items }
        ensures within { result ≤ self.now.capacity }
    {
        self.ring.len()
    }

    /// Whether the queue holds no item.
    pub fn is_empty(&self) -> bool
        ensures { IsTrue result ↔ (self.now.items ≡ []) }
    {
        self.ring.is_empty()
    }

    /// Whether [`Prefetch::put`] may be called.
    pub fn has_room(&self) -> bool
        ensures { IsTrue result ↔ (length self.now.items < self.now.capacity) }
    {
        !self.ring.is_full()
    }

    /// How many items the queue can hold, 1 to [`LARGEST`].
    pub fn capacity(&self) -> usize
        ensures capacity { result ≡ self.now.capacity }
        ensures positive { 1 ≤ result }
        ensures within { result ≤ LARGEST }
    {
        self.ring.capacity()
    }

    /// How many items were taken so far. The count stops at 2^63 - 1.
    pub fn taken(&self) -> u64
        ensures taken { result ≡ self.now.taken }
        ensures within { result ≤ UNBOUNDED }
    {
        self.taken
    }

    /// The total to ask of the input, since the beginning.
    pub fn credits(&self) -> u64
        ensures credits { result ≡ spec.credits self.now.capacity self.now.taken }

        // The same by the whole count, where the one that is kept has stopped.
        ensures counted { (t : ℕ) → self.now.taken ≡ min t UNBOUNDED → result ≡ spec.credits self.now.capacity t }

        // An input that sends no more than this finds room, and until the limit it may send more than
        // was taken.
        ensures room { result ≤ self.now.taken + self.now.capacity }
        ensures more { self.now.taken < UNBOUNDED → self.now.taken < result }
    {
        credits_after(self.ring.capacity() as u64, self.taken)
    }
}
