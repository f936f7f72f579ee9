//! The items that wait on an edge between two regions.

ghost use Rattle.std.specs.Prelude.{◌≡◌, List, ◌∷◌, ◌++◌, [], length, IfOk, IfSome, IfNone, ◌<◌, ◌≤◌};
ghost use Rattle.rsx_sources.specs.Slot.{is_nil};

use circular_buffer::HeapCircularBuffer;
use rsx_types::{CAPACITY, NoMemory, Ops};
use std::alloc::Global;
use std::marker::Model;

/// At most [`CAPACITY`] items, first in, first out. Contracts see a list.
///
/// The memory for them is taken when the queue is made, and no later call takes any.
#[derive(Drop)]
pub struct ItemQueue<T> {
    ring: HeapCircularBuffer<T>,
}

impl<T> Model for ItemQueue<T> {
    ghost use Rattle.std.specs.Prelude.{◌≡◌, ◌≤◌, List, length};
    ghost use Rattle.rsx_types.specs.declared.limits.TheConstants.{CAPACITY};

    ghost Value = { List T };

    ghost view = { λ q. q.ring.items };

    ghost invariant = { λ q. (q.ring.capacity ≡ CAPACITY) × (length q.ring.items ≤ CAPACITY) };
}

impl<T: Drop> ItemQueue<T> {
    /// An empty queue with memory for [`CAPACITY`] items.
    ///
    /// # Errors
    /// [`NoMemory`] where that memory was refused.
    pub fn new(alloc: Global) -> Result<ItemQueue<T>, NoMemory>
        ensures { IfOk result (λ q. q ≡ []) }
    {
        let ring = HeapCircularBuffer::with_capacity(alloc, CAPACITY)?;
        Ok(ItemQueue { ring })
    }

    /// How many items wait, 0 to [`CAPACITY`].
    pub fn len(&self) -> usize
        ensures len { result ≡ length self.now }
        ensures within { result ≤ CAPACITY }
    {
        self.ring.len()
    }

    /// Whether no item waits.
    pub fn is_empty(&self) -> bool
        ensures { result ≡ is_nil self.now }
    {
        self.ring.is_empty()
    }

    /// Puts an item at the back. The queue has room for it, which [`ItemQueue::len`] tells.
    pub fn push(&mut self, item: T)
        requires { length self.old < CAPACITY }
        ensures { self.new ≡ self.old ++ item ∷ [] }
    {
        // There is room, so the item is not handed back.
        let _ = self.ring.try_push_back(item);
    }

    /// Takes the front item. An empty queue stays as it is. Afterwards there is room for the item at the front again.
    pub fn pop(&mut self) -> Option<T>
        ensures some { IfSome result (λ x. self.old ≡ x ∷ self.new) }
        ensures none { IfNone result ((self.old ≡ []) × (self.new ≡ [])) }
        ensures room { IfSome result (λ x. length self.new < CAPACITY) }
    {
        self.ring.pop_front()
    }

    /// Puts an item in front of the others. The queue has room for it.
    pub fn put_back(&mut self, item: T)
        requires { length self.old < CAPACITY }
        ensures { self.new ≡ item ∷ self.old }
    {
        let _ = self.ring.try_push_front(item);
    }
}

/// What the caller's function copies.
pub(crate) trait Copied<T: Drop> {
    ghost items: { Self → List T };

    ghost use Rattle.std.specs.Prelude.{◌≡◌, IfOk};

    /// A list of copies of the items, from the front to the back. For want of memory the answer is [`NoMemory`].
    fn copied<O: Ops<Item = T>>(&self, alloc: Global, ops: &O) -> Result<Vec<T>, NoMemory>
        ensures { IfOk result (λ v. v.items ≡ items self.now) };
}

impl<T: Drop> Copied<T> for ItemQueue<T> {
    ghost items = { λ q. q };

    fn copied<O: Ops<Item = T>>(&self, alloc: Global, ops: &O) -> Result<Vec<T>, NoMemory> {
        let mut items = Vec::new(alloc);
        for item in &self.ring {
            let copy = ops.copy(alloc, item)?;
            items.push(copy)?;
        }
        Ok(items)
    }
}
