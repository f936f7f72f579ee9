//! A node that is of one of two kinds.

use rsx_sources::{Front, Machine, NotMade, NotTaken, Passed};
use rsx_types::{NoMemory, Note, Ops, Signal, StreamValue};
use std::alloc::Global;

/// A node that is of one of two kinds. It is what the node is that it holds: each of its calls is that node's, and so are its laws.
/// A sum of more kinds is a nest of these.
#[derive(Drop)]
pub enum EitherNode<A, B> {
    /// A node of the first kind.
    Left(A),
    /// A node of the second kind.
    Right(B),
}

impl<A: Machine, B: Machine<Item = A::Item>> Machine for EitherNode<A, B> {
    type Item = A::Item;

    ghost use Rattle.std.specs.Prelude.{◌≡◌, true, false, OnOk, OnErr, IfErr};
    ghost use Rattle.rsx_sources.specs.Counts.{CountsIn, CountsStep};
    ghost use Rattle.rsx_sources.specs.Machine.{TakesIn, front_of};
    ghost use Rattle.rsx_sources.specs.Reading.{IsReadOn, takes_published};
    ghost use Rattle.rsx_sources.specs.Steps.{IsSameKind, IsNotTaken, StaysAlike};
    ghost use Rattle.rsx_processor.specs.Either.{either, left_hungry, right_hungry};
    ghost use Rattle.rsx_processor.specs.declared.either.EitherNode.{EitherNode};
    ghost use Rattle.rsx_processor.specs.declared.either.EitherNode.TheVariants.{Left, Right};

    ghost comes_out = { (either A.Machine B.Machine).comes_out };

    ghost waiting = { (either A.Machine B.Machine).waiting };

    ghost shown = { (either A.Machine B.Machine).shown };

    ghost takes = { (either A.Machine B.Machine).takes };

    ghost picks = { (either A.Machine B.Machine).picks };

    ghost rows = { (either A.Machine B.Machine).rows };

    ghost rowed = { (either A.Machine B.Machine).rowed };

    ghost took = { (either A.Machine B.Machine).took };

    ghost heard = { (either A.Machine B.Machine).heard };

    ghost picked = { (either A.Machine B.Machine).picked };

    ghost recording = { (either A.Machine B.Machine).recording };

    ghost recorded = { (either A.Machine B.Machine).recorded };

    ghost popping = { (either A.Machine B.Machine).popping };

    ghost ended = { (either A.Machine B.Machine).ended };

    ghost done = { (either A.Machine B.Machine).done };

    ghost counted = { (either A.Machine B.Machine).counted };

    ghost wanted = { (either A.Machine B.Machine).wanted };

    ghost accepts = { (either A.Machine B.Machine).accepts };

    ghost popped = { (either A.Machine B.Machine).popped };

    ghost reads = { (either A.Machine B.Machine).reads };

    ghost rooms = { (either A.Machine B.Machine).rooms };

    ghost crosses = { (either A.Machine B.Machine).crosses };

    ghost pop_allocates = { (either A.Machine B.Machine).pop_allocates };

    ghost signal_allocates = { (either A.Machine B.Machine).signal_allocates };

    ghost step_allocates = { (either A.Machine B.Machine).step_allocates };

    #[inline]
    fn front(&self) -> Option<Front> {
        match self {
            EitherNode::Left(node) => node.front(),
            EitherNode::Right(node) => node.front(),
        }
    }

    fn pop_front<O: Ops<Item = A::Item>>(
        &mut self,
        alloc: Global,
        ops: &O,
    ) -> Result<Option<Signal<A::Item>>, NoMemory> {
        match self {
            EitherNode::Left(node) => node.pop_front(alloc, ops),
            EitherNode::Right(node) => node.pop_front(alloc, ops),
        }
    }

    #[inline]
    fn records_pop(&self) -> bool {
        match self {
            EitherNode::Left(node) => node.records_pop(),
            EitherNode::Right(node) => node.records_pop(),
        }
    }

    fn put_back(&mut self, signal: Signal<A::Item>)
        ensures { (before : EitherNode A B) → (either A.Machine B.Machine).popped before signal self.old → self.new ≡ before }
    {
        match self {
            EitherNode::Left(node) => node.put_back(signal),
            EitherNode::Right(node) => node.put_back(signal),
        }
    }

    #[inline]
    fn has_ended(&self) -> bool {
        match self {
            EitherNode::Left(node) => node.has_ended(),
            EitherNode::Right(node) => node.has_ended(),
        }
    }

    #[inline]
    fn can_take(&self, input: u64, front: Front) -> bool {
        match self {
            EitherNode::Left(node) => node.can_take(input, front),
            EitherNode::Right(node) => node.can_take(input, front),
        }
    }

    fn on_signal<O: Ops<Item = A::Item>>(
        &mut self,
        alloc: Global,
        ops: &O,
        input: u64,
        signal: Signal<A::Item>,
    ) -> Result<(), NotTaken<A::Item>>
        ensures ok { OnOk result (TakesIn ((either A.Machine B.Machine).comes_out (O.meaning ops.now)) self.old input signal self.new) }
        ensures enabled { OnOk result ((either A.Machine B.Machine).takes self.old input (front_of signal) ≡ true) }
        ensures made { OnOk result ((either A.Machine B.Machine).took self.old input signal self.new) }
        ensures recorded { (either A.Machine B.Machine).recorded self.new ≡ (either A.Machine B.Machine).recorded self.old }
        ensures counts { OnOk result (CountsIn (either A.Machine B.Machine).counted (either A.Machine B.Machine).ended (either A.Machine B.Machine).done self.old input signal self.new) }
        ensures err { IfErr result (IsNotTaken ((either A.Machine B.Machine).takes self.old input (front_of signal)) signal) }
        ensures memory { (either A.Machine B.Machine).signal_allocates (O.allocates ops.now) self.old ≡ false → IfErr result (λ e. e ≡ NotTaken.Busy signal) }
        ensures alike { StaysAlike (either A.Machine B.Machine).reads (either A.Machine B.Machine).crosses (either A.Machine B.Machine).pop_allocates (either A.Machine B.Machine).signal_allocates (either A.Machine B.Machine).step_allocates self.old self.new }
        ensures same { OnErr result (self.new ≡ self.old) }
    {
        match self {
            EitherNode::Left(node) => node.on_signal(alloc, ops, input, signal),
            EitherNode::Right(node) => node.on_signal(alloc, ops, input, signal),
        }
    }

    #[inline(always)]
    fn pop_item<O: Ops<Item = A::Item>>(&mut self, alloc: Global, ops: &O) -> Option<A::Item> {
        match self {
            EitherNode::Left(node) => node.pop_item(alloc, ops),
            EitherNode::Right(node) => node.pop_item(alloc, ops),
        }
    }

    #[inline(always)]
    fn pass<O: Ops<Item = A::Item>>(
        &mut self,
        alloc: Global,
        ops: &O,
        input: u64,
        item: A::Item,
    ) -> Passed<A::Item> {
        match self {
            EitherNode::Left(node) => node.pass(alloc, ops, input, item),
            EitherNode::Right(node) => node.pass(alloc, ops, input, item),
        }
    }

    fn hub(&self) -> Option<u64> {
        match self {
            EitherNode::Left(node) => node.hub(),
            EitherNode::Right(node) => node.hub(),
        }
    }

    fn has_room(&self) -> bool {
        match self {
            EitherNode::Left(node) => node.has_room(),
            EitherNode::Right(node) => node.has_room(),
        }
    }

    fn on_published(&mut self, signal: Signal<A::Item>) -> Result<(), Signal<A::Item>>
        ensures ok { OnOk result (IsReadOn (either A.Machine B.Machine).comes_out (either A.Machine B.Machine).reads self.old signal self.new) }
        ensures enabled { OnOk result (takes_published ((either A.Machine B.Machine).reads self.old) ((either A.Machine B.Machine).rooms self.old) signal ≡ true) }
        ensures made { OnOk result ((either A.Machine B.Machine).heard self.old signal self.new) }
        ensures recorded { (either A.Machine B.Machine).recorded self.new ≡ (either A.Machine B.Machine).recorded self.old }
        ensures counts { OnOk result (CountsStep (either A.Machine B.Machine).counted (either A.Machine B.Machine).ended (either A.Machine B.Machine).done self.old self.new) }
        ensures refused { OnErr result (takes_published ((either A.Machine B.Machine).reads self.old) ((either A.Machine B.Machine).rooms self.old) signal ≡ false) }
        ensures err { IfErr result (λ s. s ≡ signal) }
        ensures alike { IsSameKind (either A.Machine B.Machine).crosses (either A.Machine B.Machine).pop_allocates (either A.Machine B.Machine).signal_allocates (either A.Machine B.Machine).step_allocates self.old self.new }
        ensures same { OnErr result (self.new ≡ self.old) }
    {
        match self {
            EitherNode::Left(node) => node.on_published(signal),
            EitherNode::Right(node) => node.on_published(signal),
        }
    }

    fn can_pick(&self, input: u64, asked: u64, sent: u64) -> bool {
        match self {
            EitherNode::Left(node) => node.can_pick(input, asked, sent),
            EitherNode::Right(node) => node.can_pick(input, asked, sent),
        }
    }

    fn next_pick(&self, asked: u64, sent: u64) -> Option<u64> {
        match self {
            EitherNode::Left(node) => node.next_pick(asked, sent),
            EitherNode::Right(node) => node.next_pick(asked, sent),
        }
    }

    fn on_pick<O: Ops<Item = A::Item>>(
        &mut self,
        alloc: Global,
        ops: &O,
        input: u64,
        asked: u64,
        sent: u64,
    ) -> Result<(), NotMade> {
        match self {
            EitherNode::Left(node) => node.on_pick(alloc, ops, input, asked, sent),
            EitherNode::Right(node) => node.on_pick(alloc, ops, input, asked, sent),
        }
    }

    fn can_row(&self, asked: u64, sent: u64) -> bool {
        match self {
            EitherNode::Left(node) => node.can_row(asked, sent),
            EitherNode::Right(node) => node.can_row(asked, sent),
        }
    }

    fn on_row<O: Ops<Item = A::Item>>(
        &mut self,
        alloc: Global,
        ops: &O,
        asked: u64,
        sent: u64,
    ) -> Result<(), NotMade> {
        match self {
            EitherNode::Left(node) => node.on_row(alloc, ops, asked, sent),
            EitherNode::Right(node) => node.on_row(alloc, ops, asked, sent),
        }
    }

    #[inline(always)]
    fn never_steps(&self) -> bool {
        match self {
            EitherNode::Left(node) => node.never_steps(),
            EitherNode::Right(node) => node.never_steps(),
        }
    }

    #[inline(always)]
    fn steps_out(&self) -> bool {
        match self {
            EitherNode::Left(node) => node.steps_out(),
            EitherNode::Right(node) => node.steps_out(),
        }
    }

    #[inline]
    fn step_item<O: Ops<Item = A::Item>>(
        &mut self,
        alloc: Global,
        ops: &O,
        asked: u64,
        sent: u64,
    ) -> Option<A::Item> {
        match self {
            EitherNode::Left(node) => node.step_item(alloc, ops, asked, sent),
            EitherNode::Right(node) => node.step_item(alloc, ops, asked, sent),
        }
    }

    #[inline]
    fn want(&self, input: u64, asked: u64, sent: u64) -> u64 {
        match self {
            EitherNode::Left(node) => node.want(input, asked, sent),
            EitherNode::Right(node) => node.want(input, asked, sent),
        }
    }

    #[inline(always)]
    fn accepts_demand(&self, asked: u64, sent: u64) -> bool {
        match self {
            EitherNode::Left(node) => node.accepts_demand(asked, sent),
            EitherNode::Right(node) => node.accepts_demand(asked, sent),
        }
    }

    fn note(&self, alloc: Global) -> Result<Note, NoMemory> {
        match self {
            EitherNode::Left(node) => node.note(alloc),
            EitherNode::Right(node) => node.note(alloc),
        }
    }

    fn residual<O: Ops<Item = A::Item>>(
        &self,
        alloc: Global,
        ops: &O,
        inboxes: &[StreamValue<A::Item>],
        incoming: &[StreamValue<A::Item>],
    ) -> Result<StreamValue<A::Item>, NoMemory> {
        match self {
            EitherNode::Left(node) => node.residual(alloc, ops, inboxes, incoming),
            EitherNode::Right(node) => node.residual(alloc, ops, inboxes, incoming),
        }
    }

    ghost shows = { λ m. elim [ Left x ↦ A.shows m x | Right y ↦ B.shows m y ] };

    ghost popped_alike = { elim [ Left x ↦ λ s. elim [ Left y ↦ A.popped_alike x s y | Right y ↦ λ h. absurd h ] | Right x ↦ λ s. elim [ Left y ↦ λ h. absurd h | Right y ↦ B.popped_alike x s y ] ] };

    ghost drops = { λ m. elim [ Left x ↦ A.drops m x | Right y ↦ B.drops m y ] };

    ghost ends = { λ m. elim [ Left x ↦ A.ends m x | Right y ↦ B.ends m y ] };

    ghost done_drops = { λ m. elim [ Left x ↦ A.done_drops m x | Right y ↦ B.done_drops m y ] };

    ghost ends_reading = { λ m. elim [ Left x ↦ A.ends_reading m x | Right y ↦ B.ends_reading m y ] };

    ghost settles = { λ m. elim [ Left x ↦ A.settles m x | Right y ↦ B.settles m y ] };

    ghost ending_waits = { λ m. elim [ Left x ↦ A.ending_waits m x | Right y ↦ B.ending_waits m y ] };

    ghost hungry = { λ m. elim [ Left x ↦ λ taken asked sent still counted none more within. left_hungry A.Machine.own B.Machine.own x taken asked sent (A.hungry m x taken asked sent still counted none more within) | Right y ↦ λ taken asked sent still counted none more within. right_hungry A.Machine.own B.Machine.own y taken asked sent (B.hungry m y taken asked sent still counted none more within) ] };

    ghost asked_enough = { elim [ Left x ↦ A.asked_enough x | Right y ↦ B.asked_enough y ] };
}
