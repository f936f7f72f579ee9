//! A node behind a pointer.

ghost use Rattle.std.specs.Prelude.{◌≡◌, IfOk};

use rsx_rooted::{Batches, Noted};
use rsx_sources::{Front, Machine, NotMade, NotTaken, Passed};
use rsx_types::{NoMemory, Note, Ops, Signal, StreamValue};
use std::alloc::Global;
use std::marker::Model;
use std::mem;

/// A node behind a pointer. To contracts it is the node.
#[derive(Drop)]
pub struct Boxed<N> {
    node: Box<N>,
}

impl<N> Model for Boxed<N> {
    ghost Value = { N };

    ghost view = { λ b. b.node.value };
}

impl<N: Drop> Boxed<N> {
    /// The node in a place of its own.
    ///
    /// # Errors
    ///
    /// [`NoMemory`] where the memory for that place was refused.
    pub fn new(alloc: Global, node: N) -> Result<Boxed<N>, NoMemory>
        ensures { IfOk result (λ b. b ≡ node) }
    {
        let node = Box::new(alloc, node)?;
        Ok(Boxed { node })
    }

    /// The node, where it stands.
    pub fn node(&self) -> &N
        ensures { result.now ≡ self.now }
    {
        &self.node
    }

    /// Puts another node into the place, and hands out the one that was there. It takes no memory.
    pub(crate) fn replace(&mut self, node: N) -> N
        ensures out { result ≡ self.old }
        ensures put { self.new ≡ node }
    {
        mem::replace(&mut *self.node, node)
    }

    /// The node, out of its place.
    pub fn into_node(self) -> N
        ensures { result ≡ self }
    {
        Box::into_inner(self.node)
    }
}

impl<N: Machine> Machine for Boxed<N> {
    type Item = N::Item;

    ghost use Rattle.std.specs.Prelude.{◌≡◌, true, false, IfErr, OnOk, OnErr};
    ghost use Rattle.rsx_sources.specs.Counts.{CountsIn, CountsStep};
    ghost use Rattle.rsx_sources.specs.Machine.{TakesIn, front_of};
    ghost use Rattle.rsx_sources.specs.Reading.{IsReadOn, takes_published};
    ghost use Rattle.rsx_sources.specs.Steps.{IsSameKind, IsNotTaken, StaysAlike};

    ghost comes_out = { N.comes_out };

    ghost waiting = { N.waiting };

    ghost shown = { N.shown };

    ghost takes = { N.takes };

    ghost picks = { N.picks };

    ghost rows = { N.rows };

    ghost rowed = { N.rowed };

    ghost took = { N.took };

    ghost heard = { N.heard };

    ghost picked = { N.picked };

    ghost recording = { N.recording };

    ghost recorded = { N.recorded };

    ghost popping = { N.popping };

    ghost ended = { N.ended };

    ghost done = { N.done };

    ghost counted = { N.counted };

    ghost wanted = { N.wanted };

    ghost accepts = { N.accepts };

    ghost popped = { N.popped };

    ghost reads = { N.reads };

    ghost rooms = { N.rooms };

    ghost crosses = { N.crosses };

    ghost pop_allocates = { N.pop_allocates };

    ghost signal_allocates = { N.signal_allocates };

    ghost step_allocates = { N.step_allocates };

    #[inline]
    fn front(&self) -> Option<Front> {
        self.node.front()
    }

    #[inline]
    fn pop_front<O: Ops<Item = Self::Item>>(
        &mut self,
        alloc: Global,
        ops: &O,
    ) -> Result<Option<Signal<Self::Item>>, NoMemory> {
        self.node.pop_front(alloc, ops)
    }

    #[inline]
    fn records_pop(&self) -> bool {
        self.node.records_pop()
    }

    fn put_back(&mut self, signal: Signal<Self::Item>)
        ensures { (before : N) → N.popped before signal self.old → self.new ≡ before }
    {
        self.node.put_back(signal)
    }

    #[inline]
    fn has_ended(&self) -> bool {
        self.node.has_ended()
    }

    #[inline]
    fn can_take(&self, input: u64, front: Front) -> bool {
        self.node.can_take(input, front)
    }

    #[inline]
    fn on_signal<O: Ops<Item = Self::Item>>(
        &mut self,
        alloc: Global,
        ops: &O,
        input: u64,
        signal: Signal<Self::Item>,
    ) -> Result<(), NotTaken<Self::Item>>
        ensures ok { OnOk result (TakesIn (N.comes_out (O.meaning ops.now)) self.old input signal self.new) }
        ensures enabled { OnOk result (N.takes self.old input (front_of signal) ≡ true) }
        ensures made { OnOk result (N.took self.old input signal self.new) }
        ensures recorded { N.recorded self.new ≡ N.recorded self.old }
        ensures counts { OnOk result (CountsIn N.counted N.ended N.done self.old input signal self.new) }
        ensures err { IfErr result (IsNotTaken (N.takes self.old input (front_of signal)) signal) }
        ensures memory { N.signal_allocates (O.allocates ops.now) self.old ≡ false → IfErr result (λ e. e ≡ NotTaken.Busy signal) }
        ensures alike { StaysAlike N.reads N.crosses N.pop_allocates N.signal_allocates N.step_allocates self.old self.new }
        ensures same { OnErr result (self.new ≡ self.old) }
    {
        self.node.on_signal(alloc, ops, input, signal)
    }

    #[inline(always)]
    fn pop_item<O: Ops<Item = Self::Item>>(
        &mut self,
        alloc: Global,
        ops: &O,
    ) -> Option<Self::Item> {
        self.node.pop_item(alloc, ops)
    }

    #[inline(always)]
    fn pass<O: Ops<Item = Self::Item>>(
        &mut self,
        alloc: Global,
        ops: &O,
        input: u64,
        item: Self::Item,
    ) -> Passed<Self::Item> {
        self.node.pass(alloc, ops, input, item)
    }

    fn hub(&self) -> Option<u64> {
        self.node.hub()
    }

    fn has_room(&self) -> bool {
        self.node.has_room()
    }

    fn on_published(&mut self, signal: Signal<Self::Item>) -> Result<(), Signal<Self::Item>>
        ensures ok { OnOk result (IsReadOn N.comes_out N.reads self.old signal self.new) }
        ensures enabled { OnOk result (takes_published (N.reads self.old) (N.rooms self.old) signal ≡ true) }
        ensures made { OnOk result (N.heard self.old signal self.new) }
        ensures recorded { N.recorded self.new ≡ N.recorded self.old }
        ensures counts { OnOk result (CountsStep N.counted N.ended N.done self.old self.new) }
        ensures refused { OnErr result (takes_published (N.reads self.old) (N.rooms self.old) signal ≡ false) }
        ensures err { IfErr result (λ s. s ≡ signal) }
        ensures alike { IsSameKind N.crosses N.pop_allocates N.signal_allocates N.step_allocates self.old self.new }
        ensures same { OnErr result (self.new ≡ self.old) }
    {
        self.node.on_published(signal)
    }

    #[inline]
    fn can_pick(&self, input: u64, asked: u64, sent: u64) -> bool {
        self.node.can_pick(input, asked, sent)
    }

    #[inline(always)]
    fn next_pick(&self, asked: u64, sent: u64) -> Option<u64> {
        self.node.next_pick(asked, sent)
    }

    fn on_pick<O: Ops<Item = Self::Item>>(
        &mut self,
        alloc: Global,
        ops: &O,
        input: u64,
        asked: u64,
        sent: u64,
    ) -> Result<(), NotMade> {
        self.node.on_pick(alloc, ops, input, asked, sent)
    }

    #[inline(always)]
    fn can_row(&self, asked: u64, sent: u64) -> bool {
        self.node.can_row(asked, sent)
    }

    #[inline]
    fn on_row<O: Ops<Item = Self::Item>>(
        &mut self,
        alloc: Global,
        ops: &O,
        asked: u64,
        sent: u64,
    ) -> Result<(), NotMade> {
        self.node.on_row(alloc, ops, asked, sent)
    }

    #[inline(always)]
    fn never_steps(&self) -> bool {
        self.node.never_steps()
    }

    #[inline(always)]
    fn steps_out(&self) -> bool {
        self.node.steps_out()
    }

    #[inline]
    fn step_item<O: Ops<Item = Self::Item>>(
        &mut self,
        alloc: Global,
        ops: &O,
        asked: u64,
        sent: u64,
    ) -> Option<Self::Item> {
        self.node.step_item(alloc, ops, asked, sent)
    }

    #[inline]
    fn want(&self, input: u64, asked: u64, sent: u64) -> u64 {
        self.node.want(input, asked, sent)
    }

    #[inline(always)]
    fn accepts_demand(&self, asked: u64, sent: u64) -> bool {
        self.node.accepts_demand(asked, sent)
    }

    fn note(&self, alloc: Global) -> Result<Note, NoMemory> {
        self.node.note(alloc)
    }

    fn residual<O: Ops<Item = Self::Item>>(
        &self,
        alloc: Global,
        ops: &O,
        inboxes: &[StreamValue<Self::Item>],
        incoming: &[StreamValue<Self::Item>],
    ) -> Result<StreamValue<Self::Item>, NoMemory> {
        self.node.residual(alloc, ops, inboxes, incoming)
    }

    ghost shows = { N.shows };

    ghost popped_alike = { N.popped_alike };

    ghost drops = { N.drops };

    ghost ends = { N.ends };

    ghost done_drops = { N.done_drops };

    ghost ends_reading = { N.ends_reading };

    ghost settles = { N.settles };

    ghost ending_waits = { N.ending_waits };

    ghost hungry = { N.hungry };

    ghost asked_enough = { N.asked_enough };
}

impl<N: Batches> Batches for Boxed<N> {
    ghost went = { N.went };

    ghost spaces_of = { N.spaces_of };

    #[inline]
    fn want_at_rest(&self, asked: u64, sent: u64) -> Option<u64> {
        self.node.want_at_rest(asked, sent)
    }

    #[inline]
    fn most(&self) -> u64 {
        self.node.most()
    }

    fn peek<O: Ops<Item = Self::Item>>(
        &self,
        alloc: Global,
        ops: &O,
        most: u64,
        items: &mut Vec<Self::Item>,
    ) -> Option<Noted<Self::Item>> {
        self.node.peek(alloc, ops, most, items)
    }

    fn try_pass<O: Ops<Item = Self::Item>>(
        &self,
        alloc: Global,
        ops: &O,
        input: u64,
        items: &mut Vec<Self::Item>,
        spare: &mut Vec<Self::Item>,
    ) -> Option<Noted<Self::Item>> {
        self.node.try_pass(alloc, ops, input, items, spare)
    }

    #[inline]
    fn take_out<O: Ops<Item = Self::Item>>(
        &mut self,
        alloc: Global,
        ops: &O,
        most: u64,
        items: &mut Vec<Self::Item>,
    ) -> bool {
        self.node.take_out(alloc, ops, most, items)
    }

    #[inline]
    fn step_items<O: Ops<Item = Self::Item>>(
        &mut self,
        alloc: Global,
        ops: &O,
        most: u64,
        items: &mut Vec<Self::Item>,
    ) -> bool {
        self.node.step_items(alloc, ops, most, items)
    }

    fn go_on(&mut self, noted: Noted<Self::Item>)
        ensures { N.went self.old noted self.new }
    {
        self.node.go_on(noted)
    }

    #[inline]
    fn spaces(&self) -> u64 {
        self.node.spaces()
    }

    #[inline]
    fn take_in_many(&mut self, items: &mut Vec<Self::Item>, count: u64) {
        self.node.take_in_many(items, count)
    }
}
