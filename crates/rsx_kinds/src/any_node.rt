//! A node of any kind.

ghost use Rattle.std.specs.Prelude.{◌≡◌};

use crate::SeveralNode;
use crate::source_node::SourceNode;
use rsx_delayed::{FlatMapDelayNode, PublishOnEagerNode};
use rsx_grouping::GroupByNode;
use rsx_merging::{FlatMapNode, PublishOnNode};
use rsx_plain::PlainNode;
use rsx_sources::{Front, Machine, NotMade, NotTaken, Passed};
use rsx_types::{NoMemory, Note, Ops, Signal, StreamValue};
use rsx_window::WindowNode;
use std::alloc::Global;

/// A node of any kind.
#[derive(Drop)]
pub enum AnyNode<T> {
    /// A source.
    Source(SourceNode<T>),
    /// A plain operator.
    Plain(PlainNode<T>),
    /// A node of several inputs.
    Several(SeveralNode<T>),
    /// `publishOn`: its one input, from a queue.
    PublishOn(PublishOnNode<T>),
    /// `publishOnEager`: the same, but a failure may overtake items.
    PublishOnEager(PublishOnEagerNode<T>),
    /// `window`: its one input in windows, each through a chain of its own.
    Window(WindowNode<T>),
    /// `flatMap`: each item of its one input made a lane of its own, and the lanes merged.
    FlatMap(FlatMapNode<T>),
    /// `flatMapDelayError`: the same, but a failure ends its lane alone.
    FlatMapDelay(FlatMapDelayNode<T>),
    /// `groupBy`: its one input in lanes by key, each through a chain of its own, and the lanes merged.
    GroupBy(GroupByNode<T>),
}

impl<T: Drop> Machine for AnyNode<T> {
    type Item = T;

    ghost use Rattle.std.specs.Prelude.{◌≡◌, ⊤, true, false, IfOk, IfErr, IsOk, OnOk, OnErr, Some};
    ghost use Rattle.rsx_types.specs.Notes.{note_then};
    ghost use Rattle.rsx_sources.specs.Counts.{CountsIn, CountsOut, CountsStep};
    ghost use Rattle.rsx_sources.specs.Machine.{TakesIn, front_of};
    ghost use Rattle.rsx_sources.specs.Popping.{IsPoppedBy, IsRecordedBy};
    ghost use Rattle.rsx_sources.specs.Reading.{IsReadOn, IsResidualOf, takes_published};
    ghost use Rattle.rsx_sources.specs.Steps.{IsNotTaken, IsSameKind, StaysAlike};
    ghost use Rattle.rsx_kinds.specs.Any.{any_comes_out, any_waiting, any_shown, any_takes, any_picks, any_rows, any_rowed, any_took, any_picked, any_recording, any_recorded, any_popping, any_ended, any_done, any_counted, any_wanted, any_popped, any_reads, any_rooms, any_pop_allocates, any_signal_allocates, any_step_allocates};
    ghost use Rattle.rsx_kinds.specs.Laws.{any_shows, any_drops, any_ends, any_ends_reading, any_done_drops, any_settles, any_ending_waits, any_hungry, any_popped_alike};
    ghost use Rattle.rsx_kinds.specs.declared.any_node.AnyNode.{AnyNode};
    ghost use Rattle.std.proofs.lemmas.Bool.{true≢false};

    ghost comes_out = { any_comes_out };

    ghost waiting = { any_waiting };

    ghost shown = { any_shown };

    ghost takes = { any_takes };

    ghost picks = { any_picks };

    ghost rows = { any_rows };

    ghost rowed = { any_rowed };

    ghost took = { any_took };

    ghost heard = { λ n s new. ⊤ };

    ghost picked = { any_picked };

    ghost recording = { any_recording };

    ghost recorded = { any_recorded };

    ghost popping = { any_popping };

    ghost ended = { any_ended };

    ghost done = { any_done };

    ghost counted = { any_counted };

    ghost wanted = { any_wanted };

    ghost accepts = { λ n a s. true };

    ghost popped = { any_popped };

    ghost reads = { any_reads };

    ghost rooms = { any_rooms };

    ghost crosses = { λ n. false };

    ghost pop_allocates = { any_pop_allocates };

    ghost signal_allocates = { any_signal_allocates };

    ghost step_allocates = { any_step_allocates };

    #[inline]
    fn front(&self) -> Option<Front> {
        match self {
            AnyNode::Source(node) => node.front(),
            AnyNode::Plain(node) => node.front(),
            AnyNode::Several(node) => node.front(),
            AnyNode::PublishOn(node) => node.front(),
            AnyNode::PublishOnEager(node) => node.front(),
            AnyNode::Window(node) => node.front(),
            AnyNode::FlatMap(node) => node.front(),
            AnyNode::FlatMapDelay(node) => node.front(),
            AnyNode::GroupBy(node) => node.front(),
        }
    }

    #[inline]
    fn pop_front<O: Ops<Item = T>>(
        &mut self,
        alloc: Global,
        ops: &O,
    ) -> Result<Option<Signal<T>>, NoMemory>
        ensures ok { IfOk result (λ s.
            IsPoppedBy (any_comes_out (O.meaning ops.now)) any_popped any_recorded any_ended (any_popping self.old)
            (any_waiting (O.meaning ops.now) self.old) self.old s self.new) }
        ensures recorded { IsRecordedBy (any_popping self.old) (any_recorded self.old) (any_recorded self.new) }
        ensures counts { IfOk result (λ s. CountsOut any_counted any_ended any_done self.old s self.new) }
        ensures err { OnErr result (self.new ≡ self.old) }
        ensures memory { any_pop_allocates (O.allocates ops.now) self.old ≡ false → IsOk result }
        ensures alike { StaysAlike any_reads (λ n. false) any_pop_allocates any_signal_allocates any_step_allocates self.old self.new }
    {
        match self {
            AnyNode::Source(node) => node.pop_front(alloc, ops),
            AnyNode::Plain(node) => node.pop_front(alloc, ops),
            AnyNode::Several(node) => node.pop_front(alloc, ops),
            AnyNode::PublishOn(node) => node.pop_front(alloc, ops),
            AnyNode::PublishOnEager(node) => node.pop_front(alloc, ops),
            AnyNode::Window(node) => node.pop_front(alloc, ops),
            AnyNode::FlatMap(node) => node.pop_front(alloc, ops),
            AnyNode::FlatMapDelay(node) => node.pop_front(alloc, ops),
            AnyNode::GroupBy(node) => node.pop_front(alloc, ops),
        }
    }

    #[inline]
    fn records_pop(&self) -> bool {
        match self {
            AnyNode::PublishOnEager(node) => node.records_pop(),
            AnyNode::Source(_)
            | AnyNode::Plain(_)
            | AnyNode::Several(_)
            | AnyNode::PublishOn(_)
            | AnyNode::Window(_)
            | AnyNode::FlatMap(_)
            | AnyNode::FlatMapDelay(_)
            | AnyNode::GroupBy(_) => false,
        }
    }

    fn put_back(&mut self, signal: Signal<T>)
        ensures { (before : AnyNode T) → any_popped before signal self.old → self.new ≡ before }
    {
        match self {
            AnyNode::Source(node) => node.put_back(signal),
            AnyNode::Plain(node) => node.put_back(signal),
            AnyNode::Several(node) => node.put_back(signal),
            AnyNode::PublishOn(node) => node.put_back(signal),
            AnyNode::PublishOnEager(node) => node.put_back(signal),
            AnyNode::Window(node) => node.put_back(signal),
            AnyNode::FlatMap(node) => node.put_back(signal),
            AnyNode::FlatMapDelay(node) => node.put_back(signal),
            AnyNode::GroupBy(node) => node.put_back(signal),
        }
    }

    #[inline]
    fn has_ended(&self) -> bool {
        match self {
            AnyNode::Source(node) => node.has_ended(),
            AnyNode::Plain(node) => node.has_ended(),
            AnyNode::Several(node) => node.has_ended(),
            AnyNode::PublishOn(node) => node.has_ended(),
            AnyNode::PublishOnEager(node) => node.has_ended(),
            AnyNode::Window(node) => node.has_ended(),
            AnyNode::FlatMap(node) => node.has_ended(),
            AnyNode::FlatMapDelay(node) => node.has_ended(),
            AnyNode::GroupBy(node) => node.has_ended(),
        }
    }

    #[inline]
    fn can_take(&self, input: u64, front: Front) -> bool {
        match self {
            AnyNode::Source(node) => node.can_take(input, front),
            AnyNode::Plain(node) => node.can_take(input, front),
            AnyNode::Several(node) => node.can_take(input, front),
            AnyNode::PublishOn(node) => node.can_take(input, front),
            AnyNode::PublishOnEager(node) => node.can_take(input, front),
            AnyNode::Window(node) => node.can_take(input, front),
            AnyNode::FlatMap(node) => node.can_take(input, front),
            AnyNode::FlatMapDelay(node) => node.can_take(input, front),
            AnyNode::GroupBy(node) => node.can_take(input, front),
        }
    }

    #[inline]
    fn on_signal<O: Ops<Item = T>>(
        &mut self,
        alloc: Global,
        ops: &O,
        input: u64,
        signal: Signal<T>,
    ) -> Result<(), NotTaken<T>>
        ensures ok { OnOk result (TakesIn (any_comes_out (O.meaning ops.now)) self.old input signal self.new) }
        ensures enabled { OnOk result (any_takes self.old input (front_of signal) ≡ true) }
        ensures made { OnOk result (any_took self.old input signal self.new) }
        ensures recorded { any_recorded self.new ≡ any_recorded self.old }
        ensures counts { OnOk result (CountsIn any_counted any_ended any_done self.old input signal self.new) }
        ensures err { IfErr result (IsNotTaken (any_takes self.old input (front_of signal)) signal) }
        ensures memory { any_signal_allocates (O.allocates ops.now) self.old ≡ false → IfErr result (λ e. e ≡ NotTaken.Busy signal) }
        ensures alike { StaysAlike any_reads (λ n. false) any_pop_allocates any_signal_allocates any_step_allocates self.old self.new }
        ensures same { OnErr result (self.new ≡ self.old) }
    {
        match self {
            AnyNode::Source(_) => Err(NotTaken::Busy(signal)),
            AnyNode::Plain(node) => node.on_signal(alloc, ops, input, signal),
            AnyNode::Several(node) => node.on_signal(alloc, ops, input, signal),
            AnyNode::PublishOn(node) => node.on_signal(alloc, ops, input, signal),
            AnyNode::PublishOnEager(node) => node.on_signal(alloc, ops, input, signal),
            AnyNode::Window(node) => node.on_signal(alloc, ops, input, signal),
            AnyNode::FlatMap(node) => node.on_signal(alloc, ops, input, signal),
            AnyNode::FlatMapDelay(node) => node.on_signal(alloc, ops, input, signal),
            AnyNode::GroupBy(node) => node.on_signal(alloc, ops, input, signal),
        }
    }

    #[inline(always)]
    fn pop_item<O: Ops<Item = T>>(&mut self, alloc: Global, ops: &O) -> Option<T> {
        match self {
            AnyNode::Source(node) => node.pop_item(alloc, ops),
            AnyNode::Plain(node) => node.pop_item(alloc, ops),
            AnyNode::Several(node) => node.pop_item(alloc, ops),
            AnyNode::PublishOn(node) => node.pop_item(alloc, ops),
            // Told apart here, so that the compiler doesn't ask again behind the other kinds.
            AnyNode::PublishOnEager(node) => match node.pop_item(alloc, ops) {
                Some(item) => Some(item),
                None => None,
            },
            AnyNode::Window(node) => node.pop_item(alloc, ops),
            AnyNode::FlatMap(node) => node.pop_item(alloc, ops),
            AnyNode::FlatMapDelay(node) => node.pop_item(alloc, ops),
            AnyNode::GroupBy(node) => node.pop_item(alloc, ops),
        }
    }

    #[inline(always)]
    fn pass<O: Ops<Item = T>>(&mut self, alloc: Global, ops: &O, input: u64, item: T) -> Passed<T> {
        match self {
            AnyNode::Source(_) => Passed::Declined(item),
            AnyNode::Plain(node) => node.pass(alloc, ops, input, item),
            AnyNode::Several(node) => node.pass(alloc, ops, input, item),
            AnyNode::PublishOn(node) => node.pass(alloc, ops, input, item),
            AnyNode::PublishOnEager(node) => node.pass(alloc, ops, input, item),
            AnyNode::Window(node) => node.pass(alloc, ops, input, item),
            AnyNode::FlatMap(node) => node.pass(alloc, ops, input, item),
            AnyNode::FlatMapDelay(node) => node.pass(alloc, ops, input, item),
            AnyNode::GroupBy(node) => node.pass(alloc, ops, input, item),
        }
    }

    fn hub(&self) -> Option<u64> {
        match self {
            AnyNode::Source(node) => node.hub(),
            AnyNode::Plain(node) => node.hub(),
            AnyNode::Several(node) => node.hub(),
            AnyNode::PublishOn(node) => node.hub(),
            AnyNode::PublishOnEager(node) => node.hub(),
            AnyNode::Window(node) => node.hub(),
            AnyNode::FlatMap(node) => node.hub(),
            AnyNode::FlatMapDelay(node) => node.hub(),
            AnyNode::GroupBy(node) => node.hub(),
        }
    }

    fn has_room(&self) -> bool {
        match self {
            AnyNode::Source(node) => node.has_room(),
            AnyNode::Plain(node) => node.has_room(),
            AnyNode::Several(node) => node.has_room(),
            AnyNode::PublishOn(node) => node.has_room(),
            AnyNode::PublishOnEager(node) => node.has_room(),
            AnyNode::Window(node) => node.has_room(),
            AnyNode::FlatMap(node) => node.has_room(),
            AnyNode::FlatMapDelay(node) => node.has_room(),
            AnyNode::GroupBy(node) => node.has_room(),
        }
    }

    fn on_published(&mut self, signal: Signal<T>) -> Result<(), Signal<T>>
        ensures ok { OnOk result (IsReadOn any_comes_out any_reads self.old signal self.new) }
        ensures enabled { OnOk result (takes_published (any_reads self.old) (any_rooms self.old) signal ≡ true) }
        ensures recorded { any_recorded self.new ≡ any_recorded self.old }
        ensures counts { OnOk result (CountsStep any_counted any_ended any_done self.old self.new) }
        ensures refused { OnErr result (takes_published (any_reads self.old) (any_rooms self.old) signal ≡ false) }
        ensures err { IfErr result (λ s. s ≡ signal) }
        ensures alike { IsSameKind (λ n. false) any_pop_allocates any_signal_allocates any_step_allocates self.old self.new }
        ensures same { OnErr result (self.new ≡ self.old) }
    {
        match self {
            AnyNode::Source(node) => node.on_published(signal),
            AnyNode::Plain(node) => node.on_published(signal),
            AnyNode::Several(node) => node.on_published(signal),
            AnyNode::PublishOn(node) => node.on_published(signal),
            AnyNode::PublishOnEager(node) => node.on_published(signal),
            AnyNode::Window(node) => node.on_published(signal),
            AnyNode::FlatMap(node) => node.on_published(signal),
            AnyNode::FlatMapDelay(node) => node.on_published(signal),
            AnyNode::GroupBy(node) => node.on_published(signal),
        }
    }

    #[inline]
    fn can_pick(&self, input: u64, asked: u64, sent: u64) -> bool {
        match self {
            AnyNode::Source(_) | AnyNode::Plain(_) | AnyNode::PublishOn(_) | AnyNode::Window(_) =>
                false,
            AnyNode::Several(node) => node.can_pick(input, asked, sent),
            AnyNode::PublishOnEager(node) => node.can_pick(input, asked, sent),
            AnyNode::FlatMap(node) => node.can_pick(input, asked, sent),
            AnyNode::FlatMapDelay(node) => node.can_pick(input, asked, sent),
            AnyNode::GroupBy(node) => node.can_pick(input, asked, sent),
        }
    }

    #[inline(always)]
    fn next_pick(&self, asked: u64, sent: u64) -> Option<u64> {
        match self {
            AnyNode::Source(_) | AnyNode::Plain(_) | AnyNode::PublishOn(_) | AnyNode::Window(_) =>
                None,
            AnyNode::Several(node) => node.next_pick(asked, sent),
            AnyNode::PublishOnEager(node) => node.next_pick(asked, sent),
            AnyNode::FlatMap(node) => node.next_pick(asked, sent),
            AnyNode::FlatMapDelay(node) => node.next_pick(asked, sent),
            AnyNode::GroupBy(node) => node.next_pick(asked, sent),
        }
    }

    fn on_pick<O: Ops<Item = T>>(
        &mut self,
        alloc: Global,
        ops: &O,
        input: u64,
        asked: u64,
        sent: u64,
    ) -> Result<(), NotMade> {
        match self {
            AnyNode::Source(_) | AnyNode::Plain(_) | AnyNode::PublishOn(_) | AnyNode::Window(_) =>
                Err(NotMade::NotEnabled),
            AnyNode::Several(node) => node.on_pick(alloc, ops, input, asked, sent),
            AnyNode::PublishOnEager(node) => node.on_pick(alloc, ops, input, asked, sent),
            AnyNode::FlatMap(node) => node.on_pick(alloc, ops, input, asked, sent),
            AnyNode::FlatMapDelay(node) => node.on_pick(alloc, ops, input, asked, sent),
            AnyNode::GroupBy(node) => node.on_pick(alloc, ops, input, asked, sent),
        }
    }

    #[inline(always)]
    fn can_row(&self, asked: u64, sent: u64) -> bool {
        match self {
            AnyNode::Source(_)
            | AnyNode::Plain(_)
            | AnyNode::PublishOn(_)
            | AnyNode::PublishOnEager(_)
            | AnyNode::Window(_)
            | AnyNode::FlatMap(_)
            | AnyNode::FlatMapDelay(_)
            | AnyNode::GroupBy(_) => false,
            AnyNode::Several(node) => node.can_row(asked, sent),
        }
    }

    #[inline]
    fn on_row<O: Ops<Item = T>>(
        &mut self,
        alloc: Global,
        ops: &O,
        asked: u64,
        sent: u64,
    ) -> Result<(), NotMade> {
        match self {
            AnyNode::Source(_)
            | AnyNode::Plain(_)
            | AnyNode::PublishOn(_)
            | AnyNode::PublishOnEager(_)
            | AnyNode::Window(_)
            | AnyNode::FlatMap(_)
            | AnyNode::FlatMapDelay(_)
            | AnyNode::GroupBy(_) => Err(NotMade::NotEnabled),
            AnyNode::Several(node) => node.on_row(alloc, ops, asked, sent),
        }
    }

    #[inline(always)]
    fn never_steps(&self) -> bool {
        match self {
            AnyNode::Source(_) | AnyNode::Plain(_) | AnyNode::PublishOn(_) | AnyNode::Window(_) =>
                true,
            AnyNode::Several(node) => node.never_steps(),
            AnyNode::GroupBy(node) => node.never_steps(),
            AnyNode::PublishOnEager(_) | AnyNode::FlatMap(_) | AnyNode::FlatMapDelay(_) => false,
        }
    }

    #[inline(always)]
    fn steps_out(&self) -> bool {
        match self {
            AnyNode::Several(_)
            | AnyNode::FlatMap(_)
            | AnyNode::FlatMapDelay(_)
            | AnyNode::GroupBy(_) => true,
            AnyNode::Source(_)
            | AnyNode::Plain(_)
            | AnyNode::PublishOn(_)
            | AnyNode::PublishOnEager(_)
            | AnyNode::Window(_) => false,
        }
    }

    #[inline]
    fn step_item<O: Ops<Item = T>>(
        &mut self,
        alloc: Global,
        ops: &O,
        asked: u64,
        sent: u64,
    ) -> Option<T> {
        match self {
            AnyNode::Source(_)
            | AnyNode::Plain(_)
            | AnyNode::PublishOn(_)
            | AnyNode::PublishOnEager(_)
            | AnyNode::Window(_) => None,
            AnyNode::Several(node) => node.step_item(alloc, ops, asked, sent),
            AnyNode::FlatMap(node) => node.step_item(alloc, ops, asked, sent),
            AnyNode::FlatMapDelay(node) => node.step_item(alloc, ops, asked, sent),
            AnyNode::GroupBy(node) => node.step_item(alloc, ops, asked, sent),
        }
    }

    #[inline]
    fn want(&self, input: u64, asked: u64, sent: u64) -> u64 {
        match self {
            AnyNode::Source(node) => node.want(input, asked, sent),
            AnyNode::Plain(node) => node.want(input, asked, sent),
            AnyNode::Several(node) => node.want(input, asked, sent),
            AnyNode::PublishOn(node) => node.want(input, asked, sent),
            AnyNode::PublishOnEager(node) => node.want(input, asked, sent),
            AnyNode::Window(node) => node.want(input, asked, sent),
            AnyNode::FlatMap(node) => node.want(input, asked, sent),
            AnyNode::FlatMapDelay(node) => node.want(input, asked, sent),
            AnyNode::GroupBy(node) => node.want(input, asked, sent),
        }
    }

    #[inline(always)]
    fn accepts_demand(&self, asked: u64, sent: u64) -> bool {
        true
    }

    fn note(&self, alloc: Global) -> Result<Note, NoMemory> {
        match self {
            AnyNode::Source(_) | AnyNode::Plain(_) | AnyNode::PublishOn(_) | AnyNode::Window(_) =>
                Ok(Note::Nothing),
            AnyNode::Several(node) => node.note(alloc),
            AnyNode::PublishOnEager(node) => node.note(alloc),
            AnyNode::FlatMap(node) => node.note(alloc),
            AnyNode::FlatMapDelay(node) => node.note(alloc),
            AnyNode::GroupBy(node) => node.note(alloc),
        }
    }

    fn residual<O: Ops<Item = T>>(
        &self,
        alloc: Global,
        ops: &O,
        inboxes: &[StreamValue<T>],
        incoming: &[StreamValue<T>],
    ) -> Result<StreamValue<T>, NoMemory>
        ensures { IfOk result (λ v.
            IsResidualOf (any_comes_out (O.meaning ops.now)) any_recorded any_reads self.now inboxes.now incoming.now v) }
    {
        match self {
            AnyNode::Source(node) => node.residual(alloc, ops, inboxes, incoming),
            AnyNode::Plain(node) => node.residual(alloc, ops, inboxes, incoming),
            AnyNode::Several(node) => node.residual(alloc, ops, inboxes, incoming),
            AnyNode::PublishOn(node) => node.residual(alloc, ops, inboxes, incoming),
            AnyNode::PublishOnEager(node) => node.residual(alloc, ops, inboxes, incoming),
            AnyNode::Window(node) => node.residual(alloc, ops, inboxes, incoming),
            AnyNode::FlatMap(node) => node.residual(alloc, ops, inboxes, incoming),
            AnyNode::FlatMapDelay(node) => node.residual(alloc, ops, inboxes, incoming),
            AnyNode::GroupBy(node) => node.residual(alloc, ops, inboxes, incoming),
        }
    }

    ghost shows = { any_shows };

    ghost popped_alike = { any_popped_alike };

    ghost drops = { any_drops };

    ghost ends = { any_ends };

    ghost done_drops = { any_done_drops };

    ghost ends_reading = { any_ends_reading };

    ghost settles = { any_settles };

    ghost ending_waits = { any_ending_waits };

    ghost hungry = { any_hungry };

    ghost asked_enough = { λ n a s e. absurd (true≢false e) };
}
