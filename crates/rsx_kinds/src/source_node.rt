//! A source of any kind.

ghost use Rattle.std.specs.Prelude.{◌≡◌};

use rsx_hub::HubLeaf;
use rsx_sources::{Front, ItemsNode, Machine, NotMade, NotTaken, Passed, RangeNode};
use rsx_types::{NoMemory, Note, Ops, Signal, StreamValue};
use std::alloc::Global;

/// A source of any kind: a node with no input.
#[derive(Drop)]
pub enum SourceNode<T> {
    /// The source `items`.
    Items(ItemsNode<T>),
    /// The source `range`.
    Range(RangeNode<T>),
    /// A node that reads a hub.
    Hub(HubLeaf<T>),
}

impl<T: Drop> Machine for SourceNode<T> {
    type Item = T;

    ghost use Rattle.std.specs.Prelude.{◌≡◌, ⊤, true, false, None, IfOk, IfErr, IsOk, OnOk, OnErr, Some};
    ghost use Rattle.rsx_types.specs.declared.note.Note.TheVariants.{Nothing};
    ghost use Rattle.rsx_sources.specs.Counts.{CountsOut, CountsStep};
    ghost use Rattle.rsx_sources.specs.Machine.{TakesIn};
    ghost use Rattle.rsx_sources.specs.Reading.{IsReadOn, IsResidualOf, takes_published};
    ghost use Rattle.rsx_sources.specs.Steps.{IsPopped, IsNotTaken, IsSameKind, StaysAlike};
    ghost use Rattle.rsx_kinds.specs.Source.{source_comes_out, source_waiting, source_shown, source_popped, source_counted, source_reads, source_rooms, source_pop_allocates};
    ghost use Rattle.rsx_kinds.specs.SourceLaws.{source_shows, source_popped_alike, source_ends, source_ends_reading, source_settles, source_hungry};
    ghost use Rattle.rsx_kinds.specs.declared.source_node.SourceNode.{SourceNode};
    ghost use Rattle.std.proofs.Common.{rules};
    ghost use Rattle.std.proofs.lemmas.Bool.{true≢false};

    ghost comes_out = { source_comes_out };

    ghost waiting = { source_waiting };

    ghost shown = { source_shown };

    ghost takes = { λ n i f. false };

    ghost picks = { λ n i a s. false };

    ghost rows = { λ n a s. false };

    ghost rowed = { λ n a s k. ⊥ };

    ghost took = { λ n i s new. ⊤ };

    ghost heard = { λ n s new. ⊤ };

    ghost picked = { λ n i new. ⊤ };

    ghost recording = { λ n i. Nothing };

    ghost recorded = { λ n. Nothing };

    ghost popping = { λ n. None };

    ghost ended = { λ n. false };

    ghost done = { λ n i. false };

    ghost counted = { source_counted };

    ghost wanted = { λ n i a s. 0 };

    ghost accepts = { λ n a s. true };

    ghost popped = { source_popped };

    ghost reads = { source_reads };

    ghost rooms = { source_rooms };

    ghost crosses = { λ n. false };

    ghost pop_allocates = { source_pop_allocates };

    ghost signal_allocates = { λ a n. false };

    ghost step_allocates = { λ a n. false };

    #[inline]
    fn front(&self) -> Option<Front> {
        match self {
            SourceNode::Items(node) => node.front(),
            SourceNode::Range(node) => node.front(),
            SourceNode::Hub(node) => node.front(),
        }
    }

    #[inline]
    fn pop_front<O: Ops<Item = T>>(
        &mut self,
        alloc: Global,
        ops: &O,
    ) -> Result<Option<Signal<T>>, NoMemory>
        ensures ok { IfOk result (λ s.
            IsPopped (source_comes_out (O.meaning ops.now)) source_popped (source_waiting (O.meaning ops.now) self.old) self.old s self.new) }
        ensures counts { IfOk result (λ s. CountsOut source_counted (λ n. false) (λ n i. false) self.old s self.new) }
        ensures err { OnErr result (self.new ≡ self.old) }
        ensures memory { source_pop_allocates (O.allocates ops.now) self.old ≡ false → IsOk result }
        ensures alike { StaysAlike source_reads (λ n. false) source_pop_allocates (λ a n. false) (λ a n. false) self.old self.new }
    {
        match self {
            SourceNode::Items(node) => node.pop_front(alloc, ops),
            SourceNode::Range(node) => node.pop_front(alloc, ops),
            SourceNode::Hub(node) => node.pop_front(alloc, ops),
        }
    }

    fn records_pop(&self) -> bool {
        false
    }

    fn put_back(&mut self, signal: Signal<T>)
        ensures { (before : SourceNode T) → source_popped before signal self.old → self.new ≡ before }
    {
        match self {
            SourceNode::Items(node) => node.put_back(signal),
            SourceNode::Range(node) => node.put_back(signal),
            SourceNode::Hub(node) => node.put_back(signal),
        }
    }

    #[inline]
    fn has_ended(&self) -> bool {
        false
    }

    #[inline]
    fn can_take(&self, input: u64, front: Front) -> bool {
        false
    }

    fn on_signal<O: Ops<Item = T>>(
        &mut self,
        alloc: Global,
        ops: &O,
        input: u64,
        signal: Signal<T>,
    ) -> Result<(), NotTaken<T>>
        ensures ok { OnOk result (TakesIn (source_comes_out (O.meaning ops.now)) self.old input signal self.new) }
        ensures enabled { OnOk result (false ≡ true) }
        ensures err { IfErr result (IsNotTaken false signal) }
        ensures memory { IfErr result (λ e. e ≡ NotTaken.Busy signal) }
        ensures same { OnErr result (self.new ≡ self.old) }
    {
        Err(NotTaken::Busy(signal))
    }

    #[inline]
    fn pop_item<O: Ops<Item = T>>(&mut self, alloc: Global, ops: &O) -> Option<T> {
        match self {
            SourceNode::Items(node) => node.pop_item(alloc, ops),
            SourceNode::Range(node) => node.pop_item(alloc, ops),
            SourceNode::Hub(node) => node.pop_item(alloc, ops),
        }
    }

    fn pass<O: Ops<Item = T>>(&mut self, alloc: Global, ops: &O, input: u64, item: T) -> Passed<T> {
        Passed::Declined(item)
    }

    fn hub(&self) -> Option<u64> {
        match self {
            SourceNode::Items(_) | SourceNode::Range(_) => None,
            SourceNode::Hub(node) => node.hub(),
        }
    }

    fn has_room(&self) -> bool {
        match self {
            SourceNode::Items(_) | SourceNode::Range(_) => false,
            SourceNode::Hub(node) => node.has_room(),
        }
    }

    fn on_published(&mut self, signal: Signal<T>) -> Result<(), Signal<T>>
        ensures ok { OnOk result (IsReadOn source_comes_out source_reads self.old signal self.new) }
        ensures enabled { OnOk result (takes_published (source_reads self.old) (source_rooms self.old) signal ≡ true) }
        ensures counts { OnOk result (CountsStep source_counted (λ n. false) (λ n i. false) self.old self.new) }
        ensures refused { OnErr result (takes_published (source_reads self.old) (source_rooms self.old) signal ≡ false) }
        ensures err { IfErr result (λ s. s ≡ signal) }
        ensures alike { IsSameKind (λ n. false) source_pop_allocates (λ a n. false) (λ a n. false) self.old self.new }
        ensures same { OnErr result (self.new ≡ self.old) }
    {
        match self {
            SourceNode::Items(_) | SourceNode::Range(_) => Err(signal),
            SourceNode::Hub(node) => node.on_published(signal),
        }
    }

    fn can_pick(&self, input: u64, asked: u64, sent: u64) -> bool {
        false
    }

    fn next_pick(&self, asked: u64, sent: u64) -> Option<u64> {
        None
    }

    fn on_pick<O: Ops<Item = T>>(
        &mut self,
        alloc: Global,
        ops: &O,
        input: u64,
        asked: u64,
        sent: u64,
    ) -> Result<(), NotMade> {
        Err(NotMade::NotEnabled)
    }

    fn can_row(&self, asked: u64, sent: u64) -> bool {
        false
    }

    fn on_row<O: Ops<Item = T>>(
        &mut self,
        alloc: Global,
        ops: &O,
        asked: u64,
        sent: u64,
    ) -> Result<(), NotMade> {
        Err(NotMade::NotEnabled)
    }

    #[inline]
    fn want(&self, input: u64, asked: u64, sent: u64) -> u64 {
        0
    }

    #[inline(always)]
    fn accepts_demand(&self, asked: u64, sent: u64) -> bool {
        true
    }

    fn note(&self, alloc: Global) -> Result<Note, NoMemory> {
        Ok(Note::Nothing)
    }

    fn residual<O: Ops<Item = T>>(
        &self,
        alloc: Global,
        ops: &O,
        inboxes: &[StreamValue<T>],
        incoming: &[StreamValue<T>],
    ) -> Result<StreamValue<T>, NoMemory>
        ensures { IfOk result (λ v.
            IsResidualOf (source_comes_out (O.meaning ops.now)) (λ n. Nothing) source_reads self.now inboxes.now incoming.now v) }
    {
        match self {
            SourceNode::Items(node) => node.residual(alloc, ops, inboxes, incoming),
            SourceNode::Range(node) => node.residual(alloc, ops, inboxes, incoming),
            SourceNode::Hub(node) => node.residual(alloc, ops, inboxes, incoming),
        }
    }

    ghost shows = { source_shows };

    ghost popped_alike = { source_popped_alike };

    ghost drops = { λ m n inc other further e. Prim.search rules };

    ghost ends = { source_ends };

    ghost done_drops = { λ m n hubs before after v w further d. Prim.search rules };

    ghost ends_reading = { source_ends_reading };

    ghost settles = { source_settles };

    ghost ending_waits = { λ m n asked sent e none more. Prim.search rules };

    ghost hungry = { source_hungry };

    ghost asked_enough = { λ n a s e. absurd (true≢false e) };
}
