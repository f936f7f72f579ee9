//! A node of several inputs of any kind.

ghost use Rattle.std.specs.Prelude.{◌≡◌};

use crate::kind::SeveralKind;
use crate::zip_rows::RowsOut;
use rsx_combining::{CombineLatestNode, ZipNode};
use rsx_delayed::MergeDelayNode;
use rsx_merging::{ConcatNode, MergeNode};
use rsx_sources::{Front, Machine, NotMade, NotTaken, Passed};
use rsx_types::{NoMemory, Note, Ops, Signal, StreamValue};
use std::alloc::Global;

/// A node of several inputs of any kind.
#[derive(Drop)]
pub enum SeveralNode<T> {
    /// The inputs one behind the other.
    Concat(ConcatNode<T>),
    /// The items of all inputs, as they are picked.
    Merge(MergeNode<T>),
    /// The same, but a failure ends its input alone.
    MergeDelay(MergeDelayNode<T>),
    /// Rows of one item of each input.
    Zip(ZipNode<T>),
    /// Rows of the latest items of the inputs.
    Latest(CombineLatestNode<T>),
}

impl<T: Drop> SeveralNode<T> {
    ghost use Rattle.std.specs.Prelude.{◌≡◌, ◌≤◌, ◌<◌, ℕ, false, IfOk};
    ghost use Rattle.std.proofs.Math.ListN.{replicate};
    ghost use Rattle.rsx_kinds.specs.Kind.{GivesKind, IsWithin, recorded_first, first_wanted};
    ghost use Rattle.rsx_kinds.specs.Several.{several_counted, several_ended, several_recorded, several_wanted};

    /// A node of this kind with so many inputs, at which nothing came in: what comes out of it is the operator of what comes in,
    /// and it has recorded nothing. With some inputs it has not ended, and it asks each for as many items as the prefetch says.
    ///
    /// # Errors
    /// [`NoMemory`] where a growth was refused.
    pub fn new(alloc: Global, kind: SeveralKind, inputs: u32) -> Result<SeveralNode<T>, NoMemory>
        requires { IsWithin kind }
        ensures fresh { IfOk result (λ n. GivesKind n kind inputs) }
        ensures recorded { IfOk result (λ n. several_recorded n ≡ recorded_first kind) }
        ensures ended { IfOk result (λ n. 1 ≤ inputs → several_ended n ≡ false) }
        ensures counted { IfOk result (λ n. 1 ≤ inputs → several_counted n (replicate inputs 0) 0) }
        ensures wanted { IfOk result (λ n. (i asked : ℕ) → i < inputs → several_wanted n i asked 0 ≡ first_wanted kind i asked) }
    {
        match kind {
            SeveralKind::Concat => Ok(SeveralNode::Concat(ConcatNode::new(alloc, inputs)?)),
            SeveralKind::Merge(prefetch) => {
                let node = MergeNode::new(alloc, inputs, prefetch as usize)?;
                Ok(SeveralNode::Merge(node))
            }
            SeveralKind::MergeDelay(prefetch) => {
                let node = MergeDelayNode::new(alloc, inputs, prefetch as usize)?;
                Ok(SeveralNode::MergeDelay(node))
            }
            SeveralKind::Zip(prefetch) => {
                let node = ZipNode::new(alloc, inputs, prefetch as usize)?;
                Ok(SeveralNode::Zip(node))
            }
            SeveralKind::Latest(prefetch) => {
                let node = CombineLatestNode::new(alloc, inputs, prefetch as usize)?;
                Ok(SeveralNode::Latest(node))
            }
        }
    }
}

impl<T: Drop> Machine for SeveralNode<T> {
    type Item = T;

    ghost use Rattle.std.specs.Prelude.{◌≡◌, ⊤, true, false, refl, None, IfOk, IfErr, IsOk, OnOk, OnErr};
    ghost use Rattle.rsx_types.specs.Notes.{note_then};
    ghost use Rattle.rsx_sources.specs.Counts.{CountsIn, CountsOut, CountsStep};
    ghost use Rattle.rsx_sources.specs.Machine.{TakesIn, Records, Keeps, IsComposed, front_of};
    ghost use Rattle.rsx_sources.specs.Reading.{IsReadOn, IsResidualOf};
    ghost use Rattle.rsx_sources.specs.Steps.{IsPopped, IsNotTaken, IsNotMade, StaysAlike};
    ghost use Rattle.rsx_kinds.specs.SeveralLaws.{several_shows, several_popped_alike, several_drops, several_ends, several_done_drops, several_settles, several_ending_waits, several_hungry};
    ghost use Rattle.rsx_kinds.specs.Several.{several_comes_out, several_waiting, several_shown, several_takes, several_picks, several_rows, several_rowed, several_took, several_picked, several_recording, several_recorded, several_ended, several_done, several_counted, several_wanted, several_popped, several_step_allocates};
    ghost use Rattle.rsx_kinds.specs.declared.several_node.SeveralNode.{SeveralNode};
    ghost use Rattle.std.proofs.lemmas.Bool.{true≢false};

    ghost comes_out = { several_comes_out };

    ghost waiting = { several_waiting };

    ghost shown = { several_shown };

    ghost takes = { several_takes };

    ghost picks = { several_picks };

    ghost rows = { several_rows };

    ghost rowed = { several_rowed };

    ghost took = { several_took };

    ghost heard = { λ n s new. ⊤ };

    ghost picked = { several_picked };

    ghost recording = { several_recording };

    ghost recorded = { several_recorded };

    ghost popping = { λ n. None };

    ghost ended = { several_ended };

    ghost done = { several_done };

    ghost counted = { several_counted };

    ghost wanted = { several_wanted };

    ghost accepts = { λ n a s. true };

    ghost popped = { several_popped };

    ghost reads = { λ n. None };

    ghost rooms = { λ n. false };

    ghost crosses = { λ n. false };

    ghost pop_allocates = { λ a n. false };

    ghost signal_allocates = { λ a n. false };

    ghost step_allocates = { several_step_allocates };

    #[inline]
    fn front(&self) -> Option<Front> {
        match self {
            SeveralNode::Concat(node) => node.front(),
            SeveralNode::Merge(node) => node.front(),
            SeveralNode::MergeDelay(node) => node.front(),
            SeveralNode::Zip(node) => node.front(),
            SeveralNode::Latest(node) => node.front(),
        }
    }

    #[inline]
    fn pop_front<O: Ops<Item = T>>(
        &mut self,
        alloc: Global,
        ops: &O,
    ) -> Result<Option<Signal<T>>, NoMemory> {
        match self {
            SeveralNode::Concat(node) => node.pop_front(alloc, ops),
            SeveralNode::Merge(node) => node.pop_front(alloc, ops),
            SeveralNode::MergeDelay(node) => node.pop_front(alloc, ops),
            SeveralNode::Zip(node) => node.pop_front(alloc, ops),
            SeveralNode::Latest(node) => node.pop_front(alloc, ops),
        }
    }

    fn records_pop(&self) -> bool {
        false
    }

    fn put_back(&mut self, signal: Signal<T>)
        ensures { (before : SeveralNode T) → several_popped before signal self.old → self.new ≡ before }
    {
        match self {
            SeveralNode::Concat(node) => node.put_back(signal),
            SeveralNode::Merge(node) => node.put_back(signal),
            SeveralNode::MergeDelay(node) => node.put_back(signal),
            SeveralNode::Zip(node) => node.put_back(signal),
            SeveralNode::Latest(node) => node.put_back(signal),
        }
    }

    #[inline]
    fn has_ended(&self) -> bool {
        match self {
            SeveralNode::Concat(node) => node.has_ended(),
            SeveralNode::Merge(node) => node.has_ended(),
            SeveralNode::MergeDelay(node) => node.has_ended(),
            SeveralNode::Zip(node) => node.has_ended(),
            SeveralNode::Latest(node) => node.has_ended(),
        }
    }

    #[inline]
    fn can_take(&self, input: u64, front: Front) -> bool {
        match self {
            SeveralNode::Concat(node) => node.can_take(input, front),
            SeveralNode::Merge(node) => node.can_take(input, front),
            SeveralNode::MergeDelay(node) => node.can_take(input, front),
            SeveralNode::Zip(node) => node.can_take(input, front),
            SeveralNode::Latest(node) => node.can_take(input, front),
        }
    }

    #[inline]
    fn on_signal<O: Ops<Item = T>>(
        &mut self,
        alloc: Global,
        ops: &O,
        input: u64,
        signal: Signal<T>,
    ) -> Result<(), NotTaken<T>>
        ensures ok { OnOk result (TakesIn (several_comes_out (O.meaning ops.now)) self.old input signal self.new) }
        ensures enabled { OnOk result (several_takes self.old input (front_of signal) ≡ true) }
        ensures made { OnOk result (several_took self.old input signal self.new) }
        ensures recorded { several_recorded self.new ≡ several_recorded self.old }
        ensures counts { OnOk result (CountsIn several_counted several_ended several_done self.old input signal self.new) }
        ensures err { IfErr result (IsNotTaken (several_takes self.old input (front_of signal)) signal) }
        ensures memory { IfErr result (λ e. e ≡ NotTaken.Busy signal) }
        ensures alike { StaysAlike (λ n. None) (λ n. false) (λ a n. false) (λ a n. false) several_step_allocates self.old self.new }
        ensures same { OnErr result (self.new ≡ self.old) }
    {
        match self {
            SeveralNode::Concat(node) => node.on_signal(alloc, ops, input, signal),
            SeveralNode::Merge(node) => node.on_signal(alloc, ops, input, signal),
            SeveralNode::MergeDelay(node) => node.on_signal(alloc, ops, input, signal),
            SeveralNode::Zip(node) => node.on_signal(alloc, ops, input, signal),
            SeveralNode::Latest(node) => node.on_signal(alloc, ops, input, signal),
        }
    }

    #[inline]
    fn pop_item<O: Ops<Item = T>>(&mut self, alloc: Global, ops: &O) -> Option<T> {
        match self {
            SeveralNode::Concat(node) => node.pop_item(alloc, ops),
            SeveralNode::Merge(node) => node.pop_item(alloc, ops),
            SeveralNode::MergeDelay(node) => node.pop_item(alloc, ops),
            SeveralNode::Zip(node) => node.pop_item(alloc, ops),
            SeveralNode::Latest(node) => node.pop_item(alloc, ops),
        }
    }

    #[inline]
    fn pass<O: Ops<Item = T>>(&mut self, alloc: Global, ops: &O, input: u64, item: T) -> Passed<T> {
        match self {
            SeveralNode::Concat(node) => node.pass(alloc, ops, input, item),
            SeveralNode::Merge(node) => node.pass(alloc, ops, input, item),
            SeveralNode::MergeDelay(node) => node.pass(alloc, ops, input, item),
            SeveralNode::Zip(node) => node.pass(alloc, ops, input, item),
            SeveralNode::Latest(node) => node.pass(alloc, ops, input, item),
        }
    }

    fn hub(&self) -> Option<u64> {
        None
    }

    fn has_room(&self) -> bool {
        false
    }

    fn on_published(&mut self, signal: Signal<T>) -> Result<(), Signal<T>>
        ensures ok { OnOk result (IsReadOn several_comes_out (λ n. None) self.old signal self.new) }
        ensures enabled { OnOk result (false ≡ true) }
        ensures err { IfErr result (λ s. s ≡ signal) }
        ensures same { OnErr result (self.new ≡ self.old) }
    {
        Err(signal)
    }

    #[inline]
    fn can_pick(&self, input: u64, asked: u64, sent: u64) -> bool {
        match self {
            SeveralNode::Concat(_) => false,
            SeveralNode::Merge(node) => node.can_pick(input, asked, sent),
            SeveralNode::MergeDelay(node) => node.can_pick(input, asked, sent),
            SeveralNode::Zip(node) => node.can_pick(input, asked, sent),
            SeveralNode::Latest(node) => node.can_pick(input, asked, sent),
        }
    }

    #[inline]
    fn next_pick(&self, asked: u64, sent: u64) -> Option<u64> {
        match self {
            SeveralNode::Concat(_) => None,
            SeveralNode::Merge(node) => node.next_pick(asked, sent),
            SeveralNode::MergeDelay(node) => node.next_pick(asked, sent),
            SeveralNode::Zip(node) => node.next_pick(asked, sent),
            SeveralNode::Latest(node) => node.next_pick(asked, sent),
        }
    }

    fn on_pick<O: Ops<Item = T>>(
        &mut self,
        alloc: Global,
        ops: &O,
        input: u64,
        asked: u64,
        sent: u64,
    ) -> Result<(), NotMade> {
        match self {
            SeveralNode::Concat(_) => Err(NotMade::NotEnabled),
            SeveralNode::Merge(node) => node.on_pick(alloc, ops, input, asked, sent),
            SeveralNode::MergeDelay(node) => node.on_pick(alloc, ops, input, asked, sent),
            SeveralNode::Zip(node) => node.on_pick(alloc, ops, input, asked, sent),
            SeveralNode::Latest(node) => node.on_pick(alloc, ops, input, asked, sent),
        }
    }

    #[inline]
    fn can_row(&self, asked: u64, sent: u64) -> bool {
        match self {
            SeveralNode::Zip(node) => node.can_row(asked, sent),
            SeveralNode::Concat(_) | SeveralNode::Merge(_) => false,
            SeveralNode::MergeDelay(_) | SeveralNode::Latest(_) => false,
        }
    }

    #[inline]
    fn on_row<O: Ops<Item = T>>(
        &mut self,
        alloc: Global,
        ops: &O,
        asked: u64,
        sent: u64,
    ) -> Result<(), NotMade> {
        match self {
            SeveralNode::Zip(node) => node.on_row(alloc, ops, asked, sent),
            SeveralNode::Concat(_) | SeveralNode::Merge(_) => Err(NotMade::NotEnabled),
            SeveralNode::MergeDelay(_) | SeveralNode::Latest(_) => Err(NotMade::NotEnabled),
        }
    }

    #[inline(always)]
    fn never_steps(&self) -> bool {
        match self {
            SeveralNode::Concat(_) => true,
            SeveralNode::Merge(_)
            | SeveralNode::MergeDelay(_)
            | SeveralNode::Zip(_)
            | SeveralNode::Latest(_) => false,
        }
    }

    #[inline]
    fn step_item<O: Ops<Item = T>>(
        &mut self,
        alloc: Global,
        ops: &O,
        asked: u64,
        sent: u64,
    ) -> Option<T> {
        match self {
            SeveralNode::Concat(_) => None,
            SeveralNode::Merge(node) => node.step_item(alloc, ops, asked, sent),
            SeveralNode::MergeDelay(node) => node.step_item(alloc, ops, asked, sent),
            SeveralNode::Zip(node) => node.row_out(alloc, ops, asked, sent),
            SeveralNode::Latest(node) => node.step_item(alloc, ops, asked, sent),
        }
    }

    #[inline]
    fn want(&self, input: u64, asked: u64, sent: u64) -> u64 {
        match self {
            SeveralNode::Concat(node) => node.want(input, asked, sent),
            SeveralNode::Merge(node) => node.want(input, asked, sent),
            SeveralNode::MergeDelay(node) => node.want(input, asked, sent),
            SeveralNode::Zip(node) => node.want(input, asked, sent),
            SeveralNode::Latest(node) => node.want(input, asked, sent),
        }
    }

    #[inline(always)]
    fn accepts_demand(&self, asked: u64, sent: u64) -> bool {
        true
    }

    fn note(&self, alloc: Global) -> Result<Note, NoMemory> {
        match self {
            SeveralNode::Concat(_) => Ok(Note::Nothing),
            SeveralNode::Merge(node) => node.note(alloc),
            SeveralNode::MergeDelay(node) => node.note(alloc),
            SeveralNode::Zip(node) => node.note(alloc),
            SeveralNode::Latest(node) => node.note(alloc),
        }
    }

    fn residual<O: Ops<Item = T>>(
        &self,
        alloc: Global,
        ops: &O,
        inboxes: &[StreamValue<T>],
        incoming: &[StreamValue<T>],
    ) -> Result<StreamValue<T>, NoMemory>
        ensures { IfOk result (λ v.
            IsResidualOf (several_comes_out (O.meaning ops.now)) several_recorded (λ n. None) self.now inboxes.now incoming.now v) }
    {
        match self {
            SeveralNode::Concat(node) => node.residual(alloc, ops, inboxes, incoming),
            SeveralNode::Merge(node) => node.residual(alloc, ops, inboxes, incoming),
            SeveralNode::MergeDelay(node) => node.residual(alloc, ops, inboxes, incoming),
            SeveralNode::Zip(node) => node.residual(alloc, ops, inboxes, incoming),
            SeveralNode::Latest(node) => node.residual(alloc, ops, inboxes, incoming),
        }
    }

    ghost shows = { several_shows };

    ghost popped_alike = { several_popped_alike };

    ghost drops = { several_drops };

    ghost ends = { several_ends };

    ghost done_drops = { several_done_drops };

    ghost ends_reading = { λ m n s w e. refl };

    ghost settles = { several_settles };

    ghost ending_waits = { several_ending_waits };

    ghost hungry = { several_hungry };

    ghost asked_enough = { λ n a s e. absurd (true≢false e) };
}
