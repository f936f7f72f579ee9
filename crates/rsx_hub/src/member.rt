//! One reader of a hub.

ghost use Rattle.std.specs.Prelude.{◌≡◌, ◌+◌, ◌<◌, ◌≤◌, ◌↔◌, ◌∷◌, ◌++◌, [], true, false, length, drop, IfOk, IfErr, OnOk, OnErr, IfSome, IfNone, IsTrue, option_copied, option_map, slice_get, List, ℕ, max, min};
ghost use Rattle.rsx_types.specs.Stream.{Stream, signal_then};
ghost use Rattle.rsx_sources.specs.Machine.{front_of};
ghost use Rattle.rsx_hub.specs.Member as spec;
ghost use Rattle.rsx_hub.specs.Member.{MemberState, empty_member, GivesFirst, rest, is_reading, takes_items, takes, took, took_all, AreMoved, IsNextAt, offered, given, left, IsGiven, rest_before};
ghost use Rattle.rsx_types.specs.declared.signal.Ending.TheVariants.{Open};
ghost use Rattle.rsx_hub.specs.declared.TheConstants.{LARGEST, MOST_ACCEPTED};

use crate::{MOST_ACCEPTED, ending};
use circular_buffer::HeapCircularBuffer;
use rsx_sources::Front;
use rsx_types::{Ending, NoMemory, Ops, Signal, StreamValue};
use std::alloc::Global;
use std::marker::Model;

/// One reader of a hub, with a queue of the items that it took in and hasn't given out.
///
/// Contracts see a record: the `queue`, the `ending` behind it (`Open` as long as the hub's wasn't taken in), whether that
/// is `gone` (given out, or the member left), how far into the hub's value it `reached`, and its `capacity` and `places`.
#[derive(Drop)]
pub struct Member<T> {
    queue: HeapCircularBuffer<T>,
    ending: Ending,
    gone: bool,
    reached: u64,
    capacity: u64,
}

impl<T> Model for Member<T> {
    ghost use Rattle.rsx_hub.specs.Member.{MemberState, IsMember};

    ghost Value = { MemberState T };

    ghost view = { λ m. record { queue = m.queue.items; ending = m.ending; gone = m.gone; reached = m.reached; capacity = m.capacity; places = m.queue.capacity } };

    ghost invariant = { λ m. IsMember (record { queue = m.queue.items; ending = m.ending; gone = m.gone; reached = m.reached; capacity = m.capacity; places = m.queue.capacity }) };
}

impl<T: Drop> Member<T> {
    /// A member that has taken in nothing, of what hasn't published anything yet. It has room for `capacity` items, 1 at least.
    ///
    /// # Errors
    /// [`NoMemory`] where the growth for its queue was refused.
    pub fn new(alloc: Global, capacity: u64) -> Result<Member<T>, NoMemory>
        requires { 1 ≤ capacity }
        ensures { IfOk result (λ m. m ≡ empty_member capacity 0 0) }
    {
        Member::empty(alloc, capacity, 0, 0)
    }

    /// A member that has joined where the hub took in so many items, without those that a replay keeps.
    ///
    /// # Errors
    /// [`NoMemory`] where the growth for its queue was refused.
    pub(crate) fn empty(
        alloc: Global,
        capacity: u64,
        replayed: u64,
        reached: u64,
    ) -> Result<Member<T>, NoMemory>
        requires positive { 1 ≤ capacity }
        requires reached { reached ≤ MOST_ACCEPTED }
        ensures { IfOk result (λ m. m ≡ empty_member capacity replayed reached) }
    {
        let queue = HeapCircularBuffer::with_capacity(alloc, capacity.max(replayed) as usize)?;
        Ok(Member {
            queue,
            ending: Ending::Open,
            gone: false,
            reached,
            capacity,
        })
    }

    /// Puts an item of a replay behind the others. There is storage for it.
    pub(crate) fn replay(&mut self, item: T)
        requires fits { length self.old.queue < self.old.places }
        requires stays { self.old.gone ≡ false }
        ensures { self.new ≡ record self.old { queue = self.old.queue ++ item ∷ [] } }
    {
        let _ = self.queue.try_push_back(item);
    }

    /// Puts the hub's ending behind the items.
    pub(crate) fn end(&mut self, ending: Ending)
        ensures { self.new ≡ record self.old { ending = ending } }
    {
        self.ending = ending;
    }

    /// Whether it takes in signals of its hub: it has not left, and the hub's ending was not taken in.
    pub fn is_reading(&self) -> bool
        ensures { result ≡ is_reading self.now.gone self.now.ending }
    {
        !self.gone && ending::is_open(self.ending)
    }

    /// Whether it takes in an item: it has not left, the hub's ending was not taken in, and fewer items wait than the hub's
    /// capacity, which is one at least. A member that has taken in 2^63 - 1 items takes in no more.
    pub fn can_take_in(&self) -> bool
        ensures room { result ≡ takes_items self.now }
        ensures positive { 1 ≤ self.now.capacity }
    {
        self.is_reading()
            && (self.queue.len() as u64) < self.capacity
            && self.reached < MOST_ACCEPTED
    }

    /// For how many items of the hub it has room: so many of them can be taken in one after the other, with nothing given out.
    pub fn spaces(&self) -> u64
        ensures { result ≡ spec.spaces self.now }
    {
        if !self.is_reading() {
            return 0;
        }
        let room = self.capacity.saturating_sub(self.queue.len() as u64);
        room.min(MOST_ACCEPTED - self.reached)
    }

    /// Takes in a signal of the hub: an item where [`Member::can_take_in`], an ending where it has not left and none was
    /// taken in yet. It takes no memory.
    ///
    /// # Errors
    /// The signal comes back where it is not taken in. Nothing has changed.
    pub fn take_in(&mut self, signal: Signal<T>) -> Result<(), Signal<T>>
        ensures enabled { OnOk result (takes self.old signal ≡ true) }
        ensures ok { OnOk result (self.new ≡ took self.old signal) }
        // Over each value in which this signal comes next, what it still gives out is the same as before.
        ensures value { OnOk result ((w : Stream T) → IsNextAt self.old.reached w signal → rest self.new w ≡ rest self.old w) }
        ensures refused { OnErr result (takes self.old signal ≡ false) }
        ensures positive { 1 ≤ self.old.capacity }
        ensures err { IfErr result (λ s. s ≡ signal) }
        ensures same { OnErr result (self.new ≡ self.old) }
    {
        match signal {
            Signal::Next(item) => {
                if !self.can_take_in() {
                    return Err(Signal::Next(item));
                }
                let _ = self.queue.try_push_back(item);
                self.reached += 1;
            }
            Signal::Complete => {
                if !self.is_reading() {
                    return Err(Signal::Complete);
                }
                self.ending = Ending::Done;
            }
            Signal::Error(cause) => {
                if !self.is_reading() {
                    return Err(Signal::Error(cause));
                }
                self.ending = Ending::Failed(cause);
            }
        }
        Ok(())
    }

    /// Takes in at most so many items of the hub from the end of a list, the last one first, as far as it has room for them. The others
    /// stay in the list. It takes no memory.
    pub fn take_in_many(&mut self, items: &mut Vec<T>, count: u64)
        ensures { AreMoved (min count (min (spec.spaces self.old) (length items.old.items))) items.old.items items.new.items (λ xs. self.new ≡ took_all self.old xs) }
    {
        let fewer = count.min(self.spaces().min(items.len() as u64));
        for taken in 0..fewer {
            if let Some(item) = items.pop() {
                let _ = self.queue.try_push_back(item);
            }
        }
        self.reached += fewer;
    }

    /// Which signal it offers: an item, or the hub's ending behind the items.
    pub fn front(&self) -> Option<Front>
        ensures { result ≡ option_map front_of (offered self.now) }
    {
        if !self.queue.is_empty() {
            return Some(Front::Item);
        }
        if self.gone {
            return None;
        }
        ending::front(self.ending)
    }

    /// Takes the signal out that it offers, if it offers one. Once that is the ending, the member is no longer live.
    pub fn advance(&mut self) -> Option<Signal<T>>
        ensures signal { result ≡ offered self.old }
        ensures state { self.new ≡ given self.old result }
        // Over each value, the signal and then what it still gives out is what it gave out before.
        ensures value { IfSome result (λ s. GivesFirst self.old s self.new) }
        ensures given { IfSome result (λ s. IsGiven self.old s self.new) }
    {
        match self.queue.pop_front() {
            Some(item) => Some(Signal::Next(item)),
            None => self.take_ending(),
        }
    }

    /// Takes out the oldest item that waits, if there is one. All else stays.
    pub(crate) fn take(&mut self) -> Option<T>
        ensures some { IfSome result (λ x. self.old ≡ record self.new { queue = x ∷ self.new.queue }) }
        ensures none { IfNone result ((self.old.queue ≡ []) × (self.new ≡ self.old)) }
    {
        self.queue.pop_front()
    }

    /// The oldest of the items that wait, if there is one.
    pub(crate) fn first(&self) -> Option<&T>
        ensures { option_copied result ≡ slice_get self.now.queue 0 }
    {
        self.queue.front()
    }

    /// Drops the oldest of the items that wait, at most so many. All else stays.
    pub(crate) fn skip(&mut self, count: u64)
        ensures { self.new ≡ record self.old { queue = drop count self.old.queue } }
    {
        let left = (self.queue.len() as u64).saturating_sub(count);
        self.queue.truncate_front(left as usize);
    }

    fn take_ending(&mut self) -> Option<Signal<T>>
        requires { self.old.queue ≡ [] }
        ensures signal { result ≡ offered self.old }
        ensures state { self.new ≡ given self.old result }
    {
        if self.gone {
            return None;
        }
        let signal = ending::signal(self.ending);
        self.gone = signal.is_some();
        signal
    }

    /// Puts the signal back that was taken out last. Then the member is as it was before that. It takes no memory.
    pub fn put_back(&mut self, signal: Signal<T>)
        ensures state { (before : MemberState T) → IsGiven before signal self.old → self.new ≡ before }
        ensures value { (before : MemberState T) → IsGiven before signal self.old → GivesFirst self.new signal self.old }
        ensures live { self.old.gone ≡ false → self.new.gone ≡ false }
    {
        match signal {
            Signal::Next(item) => {
                if !self.gone {
                    let _ = self.queue.try_push_front(item);
                }
            }
            Signal::Complete => {
                self.gone = false;
                self.ending = Ending::Done;
            }
            Signal::Error(cause) => {
                self.gone = false;
                self.ending = Ending::Failed(cause);
            }
        }
    }

    /// Lets the member leave (rule 3.12): what waits is dropped, and from now on it takes nothing in and holds no other
    /// member back.
    pub fn leave(&mut self)
        ensures { self.new ≡ left self.old }
    {
        self.queue.clear();
        self.gone = true;
    }

    /// Whether it has neither left nor given out the hub's ending.
    pub fn is_live(&self) -> bool
        ensures { IsTrue result ↔ (self.now.gone ≡ false) }
    {
        !self.gone
    }

    /// The hub's ending, where that was taken in, whether it was given out or not; open as long as it wasn't.
    pub fn ending(&self) -> Ending
        ensures { result ≡ self.now.ending }
    {
        self.ending
    }

    /// How far into the hub's value it got: how many of its items it took in or missed, counted from the hub's first.
    pub fn reached(&self) -> u64
        ensures reached { result ≡ self.now.reached }
        ensures within { result ≤ MOST_ACCEPTED }
    {
        self.reached
    }

    /// How many items wait.
    pub fn len(&self) -> usize
        ensures { result ≡ length self.now.queue }
    {
        self.queue.len()
    }

    /// Whether no item waits. The hub's ending may.
    pub fn is_empty(&self) -> bool
        ensures { IsTrue result ↔ (self.now.queue ≡ []) }
    {
        self.queue.is_empty()
    }
}

/// What a reader of a hub still gives out.
pub trait Remaining<T: Drop> {
    ghost queued: { Self → List T };

    ghost remaining: { Self → Stream T → Stream T };

    ghost use Rattle.std.specs.Prelude.{◌≡◌, ◌++◌, IfOk, OnOk};

    /// Puts copies of the items of its queue behind `all`.
    fn copy_queue<O: Ops<Item = T>>(
        &self,
        alloc: Global,
        ops: &O,
        all: &mut Vec<T>,
    ) -> Result<(), NoMemory>
        ensures { OnOk result (all.new.items ≡ all.old.items ++ queued self.now) };

    /// What it still gives out, where these items with this ending stand behind what it took in of its hub: copies of the items
    /// of its queue, and then of those, or the hub's ending where that was taken in. A member that has left, or gave out the
    /// hub's ending, gives out nothing, Open.
    ///
    /// # Errors
    /// [`NoMemory`] where a growth was refused.
    fn rest<O: Ops<Item = T>>(
        &self,
        alloc: Global,
        ops: &O,
        items: &[T],
        ending: Ending,
    ) -> Result<StreamValue<T>, NoMemory>
        ensures { IfOk result (λ v. v ≡ remaining self.now (record { items = items.now; ending = ending })) };
}

impl<T: Drop> Remaining<T> for Member<T> {
    ghost queued = { λ m. m.queue };

    ghost remaining = { rest_before };

    fn copy_queue<O: Ops<Item = T>>(
        &self,
        alloc: Global,
        ops: &O,
        all: &mut Vec<T>,
    ) -> Result<(), NoMemory> {
        for item in &self.queue {
            let copy = ops.copy(alloc, item)?;
            all.push(copy)?;
        }
        Ok(())
    }

    fn rest<O: Ops<Item = T>>(
        &self,
        alloc: Global,
        ops: &O,
        items: &[T],
        ending: Ending,
    ) -> Result<StreamValue<T>, NoMemory> {
        let mut all = Vec::new(alloc);
        self.copy_queue(alloc, ops, &mut all)?;
        if self.gone {
            return Ok(StreamValue::new(all, Ending::Open));
        }
        if !ending::is_open(self.ending) {
            return Ok(StreamValue::new(all, self.ending));
        }
        for item in items {
            let copy = ops.copy(alloc, item)?;
            all.push(copy)?;
        }
        Ok(StreamValue::new(all, ending))
    }
}

/// A reader of a hub, of whose items copies can be made.
pub trait Holds<T: Drop> {
    ghost held: { Self → MemberState T };

    ghost use Rattle.std.specs.Prelude.{◌≡◌, ◌+◌, ◌≤◌, ◌++◌, length, take, OnOk};
    ghost use Rattle.rsx_hub.specs.Member.{IsMember};

    /// Puts copies of the oldest of the items that wait behind `all`, at most so many.
    ///
    /// # Errors
    /// [`NoMemory`] where a growth was refused.
    fn copy_first<O: Ops<Item = T>>(
        &self,
        alloc: Global,
        ops: &O,
        count: u64,
        all: &mut Vec<T>,
    ) -> Result<(), NoMemory>
        ensures ok { OnOk result (all.new.items ≡ all.old.items ++ take count (held self.now).queue) }
        ensures most { length all.new.items ≤ length all.old.items + count }

        // What holds of each member: who looks at its items may see what giving them out makes of it.
        ensures member { IsMember (held self.now) };
}

impl<T: Drop> Holds<T> for Member<T> {
    ghost held = { λ m. m };

    fn copy_first<O: Ops<Item = T>>(
        &self,
        alloc: Global,
        ops: &O,
        count: u64,
        all: &mut Vec<T>,
    ) -> Result<(), NoMemory> {
        let fewer = count.min(self.queue.len() as u64) as usize;
        all.reserve(fewer)?;
        for at in 0..fewer {
            if let Some(item) = self.queue.get(at) {
                all.push_reserved(ops.copy(alloc, item)?);
            }
        }
        Ok(())
    }
}
