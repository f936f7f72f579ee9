//! Nodes through which several items can go at once.

ghost use Rattle.std.specs.Prelude.{◌≡◌, ℕ, [], length, IfSome};
ghost use Rattle.rsx_rooted.specs.Made.{moves_of};
ghost use Rattle.rsx_rooted.specs.declared.batch.Noted.{Noted as NotedSpec};

use crate::resting::want_of_resting;
use rsx_plain::PlainNode;
use rsx_sources::Machine;
use rsx_types::Ops;
use std::alloc::Global;

/// The most items of a batch.
pub const MOST_IN_BATCH: u64 = 256;

/// The fewest items for which a batch is tried.
pub const FEWEST_IN_BATCH: u64 = 8;

/// What a node is after a batch.
#[derive(Drop)]
pub enum After<T> {
    /// This plain operator.
    Plain(PlainNode<T>),
    /// The same, which counted the items that it took in.
    Counted,
    /// The same, which took them in at this input and picked them.
    Picked(u64),
    /// The same, which took them in at this input and picked them, the last of which is this.
    Latest(u64, T),
    /// The same, without so many of the items that it offered, one after the other.
    Gave(u64),
}

/// What a node noted of a batch that was tried.
#[derive(Drop)]
pub struct Noted<T> {
    /// How many items it takes in. None of a source.
    pub took: u64,
    /// How many picks and rows it makes.
    pub steps: u64,
    /// Whether it puts out each item by one of these.
    pub by_step: bool,
    /// What it is after it.
    pub after: After<T>,
}

/// A node through which several items can go at once, and that may take in several items of a hub at once.
pub trait Batches: Machine {
    /// The second is the first after a batch of which it noted this.
    ghost went: { Self → NotedSpec Self.Item → Self → Type 0 };

    /// For how many items of the hub that it reads it has room at once.
    ghost spaces_of: { Self → ℕ };

    ghost use Rattle.std.specs.Prelude.{◌≡◌, ◌≤◌, ℕ, true, false, [], length, IfSome};
    ghost use Rattle.rsx_rooted.specs.Items.{IsIn, IsOutBy, ArePassed, ArePopped, steps_for, IsOut};
    ghost use Rattle.rsx_rooted.specs.Taking.{IsItemTaken, IsTakenOff};
    ghost use Rattle.rsx_tree.specs.Runs.{Leads};
    ghost use Rattle.rsx_rooted.specs.Resting.{IsAtRest};

    /// Where it rests with a live edge of which `asked` is asked, and which carried `sent` items: what it wants of its first input in
    /// all, as [`want_of_resting`] says.
    #[inline(always)]
    fn want_at_rest(&self, asked: u64, sent: u64) -> Option<u64>
        ensures { IfSome result (λ want. IsAtRest Self.Machine self.now asked sent want) }
    {
        want_of_resting(self, asked, sent)
    }

    /// For how many items at most it is worth to try a batch. The answer promises nothing.
    fn most(&self) -> u64;

    /// Makes the items that come out of it next, at most so many, and leaves it as it is. None where it makes no batch now.
    fn peek<O: Ops<Item = Self::Item>>(
        &self,
        alloc: Global,
        ops: &O,
        most: u64,
        items: &mut Vec<Self::Item>,
    ) -> Option<Noted<Self::Item>>
        requires { items.old.items ≡ [] }
        ensures took { IfSome result (λ noted. noted.took ≡ 0) }
        ensures steps { IfSome result (λ noted. noted.steps ≡ steps_for noted.by_step (length items.new.items)) }
        ensures most { length items.new.items ≤ most }
        ensures goes_on { IfSome result (λ noted. Self.ended self.now ≡ false) }
        ensures popped { IfSome result (λ noted. (new : Self) → went self.now noted new →
            ArePopped (IsOutBy Self.Machine (O.meaning ops.now) noted.by_step) self.now items.new.items new) };

    /// Makes of items of an input what the node puts out for them, and leaves it as it is. None where it declines one of them.
    fn try_pass<O: Ops<Item = Self::Item>>(
        &self,
        alloc: Global,
        ops: &O,
        input: u64,
        items: &mut Vec<Self::Item>,
        spare: &mut Vec<Self::Item>,
    ) -> Option<Noted<Self::Item>>
        ensures took { IfSome result (λ noted. noted.took ≡ length items.old.items) }
        ensures steps { IfSome result (λ noted. noted.steps ≡ steps_for noted.by_step (length items.new.items)) }
        ensures most { IfSome result (λ noted. length items.new.items ≤ length items.old.items) }
        ensures passed { IfSome result (λ noted. (new : Self) → went self.now noted new →
            ArePassed (IsIn Self.Machine (O.meaning ops.now) input) (IsOutBy Self.Machine (O.meaning ops.now) noted.by_step) self.now items.old.items items.new.items new) };

    /// Takes out of it the items that it offers next, at most so many, and puts them into the list, which is empty. It answers no where
    /// it doesn't do so at once, as for want of memory. Then nothing has changed.
    #[inline(always)]
    fn take_out<O: Ops<Item = Self::Item>>(
        &mut self,
        alloc: Global,
        ops: &O,
        most: u64,
        items: &mut Vec<Self::Item>,
    ) -> bool
        requires { items.old.items ≡ [] }
        ensures yes { result ≡ true → ArePopped (IsOut Self.Machine (O.meaning ops.now)) self.old items.new.items self.new }
        ensures most { length items.new.items ≤ most }
        ensures no { result ≡ false → (self.new ≡ self.old) × (items.new.items ≡ []) }
    {
        false
    }

    /// Makes a pick or a row for each of at most so many items that wait in it, as [`Machine::step_item`] does, and puts the items that
    /// come of them into the list, which is empty. It answers no where it doesn't do so at once, as for want of memory. Then nothing has
    /// changed.
    #[inline(always)]
    fn step_items<O: Ops<Item = Self::Item>>(
        &mut self,
        alloc: Global,
        ops: &O,
        most: u64,
        items: &mut Vec<Self::Item>,
    ) -> bool
        requires { items.old.items ≡ [] }
        ensures yes { result ≡ true → ArePopped (IsOutBy Self.Machine (O.meaning ops.now) true) self.old items.new.items self.new }
        ensures most { length items.new.items ≤ most }
        ensures no { result ≡ false → (self.new ≡ self.old) × (items.new.items ≡ []) }
    {
        false
    }

    /// Goes on by a batch, as it noted.
    fn go_on(&mut self, noted: Noted<Self::Item>)
        ensures { went self.old noted self.new };

    /// For how many items of the hub that it reads it has room at once. 0 where it reads none, or takes them in one by one.
    fn spaces(&self) -> u64
        ensures { result ≡ spaces_of self.now };

    /// Takes in so many items from the end of a list, the last one first, as the next ones of the hub that it reads. It has room for
    /// them ([`Batches::spaces`]). It takes no memory.
    fn take_in_many(&mut self, items: &mut Vec<Self::Item>, count: u64)
        ensures { IsTakenOff count (spaces_of self.old) items.old.items items.new.items (λ xs. Leads (IsItemTaken Self.Machine) self.old xs self.new) };
}

/// A batch of items on its way.
#[derive(Drop)]
pub struct Batch<T> {
    /// The items.
    pub items: Vec<T>,
    /// Room for the next ones.
    pub spare: Vec<T>,
    /// What the nodes noted, from the lowest one up.
    pub notes: Vec<Noted<T>>,
}

impl<T: Drop> Batch<T> {
    /// No items. It takes no memory.
    pub fn new(alloc: Global) -> Batch<T>
        ensures items { result.items.items ≡ [] }
        ensures notes { result.notes.items ≡ [] }
    {
        Batch {
            items: Vec::new(alloc),
            spare: Vec::new(alloc),
            notes: Vec::new(alloc),
        }
    }

    /// Lets go of all items and notes. Their memory stays.
    pub fn clear(&mut self)
        ensures items { self.new.items.items ≡ [] }
        ensures notes { self.new.notes.items ≡ [] }
    {
        self.items.clear();
        self.spare.clear();
        self.notes.clear();
    }

    /// How many items go over the edges, and how many picks and rows the nodes make, in all, where that is less than 2^64.
    pub fn moves(&self) -> Option<u64>
        ensures { IfSome result (λ n. n ≡ moves_of self.now.notes.items) }
    {
        moves_in(self.notes.as_slice())
    }
}

/// How many items go over the edges by these notes, and how many picks and rows are made, in all, where that is less than 2^64.
fn moves_in<T>(notes: &[Noted<T>]) -> Option<u64>
    ensures { IfSome result (λ n. n ≡ moves_of notes.now) }
{
    match notes.split_first() {
        Some((first, others)) => match moves_in(others) {
            Some(moves) => first.took.checked_add(first.steps)?.checked_add(moves),
            None => None,
        },
        None => Some(0),
    }
}
