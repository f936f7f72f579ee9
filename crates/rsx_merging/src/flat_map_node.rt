//! The node `flatMap`.

ghost use Rattle.std.specs.Prelude.{◌≡◌, IfOk};
ghost use Rattle.rsx_sources.specs.Heads.{head_of};
ghost use Rattle.rsx_merging.specs.FlatMap.{left_of};
ghost use Rattle.rsx_merging.specs.declared.flat_map_node.FlatMapNode.{FlatMapNode as FlatMapSpec};

use crate::expansion::{Expanding, Expansion};
use crate::lanes::{CopyingLanes, Lane, Lanes, may_take};
use rsx_demand::saturating_total;
use rsx_queued::{InFront, Output};
use rsx_sources::{Front, Machine, NotMade, NotTaken, Passed, first_ending, first_items};
use rsx_types::{Cause, Ending, Fault, NoMemory, Note, Ops, Signal, Stage, StreamValue};
use rsx_values::{Input, MAIN, Record, Run, merge_inputs};
use std::alloc::Global;

/// The lanes of its input's items, in the order in which they are picked. It completes when the completions of all lanes and of
/// Main were picked, and fails when a failure is picked.
///
/// Main has the ending of the input, and that can be picked as soon as the input has ended, before the lanes. A fault of an
/// expansion is that ending, and what comes in behind it is let go. A lane is gone once its completion was picked, so the node holds
/// memory for the live lanes alone, at most as many as its concurrency where its input gives no more than is asked.
#[derive(Drop)]
pub struct FlatMapNode<T> {
    /// How an item becomes a lane.
    pub expansion: Expansion<T>,
    /// How many lanes are live at most: 1 to 64.
    pub concurrency: u64,
    /// The lanes that are live, and behind them Main once the input has ended.
    pub lanes: Lanes<T>,
    /// The number of the next lane: how many were made.
    pub next: u64,
    /// Whether the input has ended, or an expansion had a fault.
    pub closed: bool,
    /// What it has put out and its receiver has not taken yet.
    pub output: Output<T>,
    /// The choices made.
    pub choices: Record,
}

impl<T: Drop> FlatMapNode<T> {
    ghost use Rattle.std.specs.Prelude.{◌≡◌, ◌≤◌, ◌<◌, ◌&&◌, [], ◌∷◌, OnOk, OnErr};
    ghost use Rattle.rsx_values.specs.declared.limits.TheConstants.{MAIN};
    ghost use Rattle.rsx_sources.specs.Slot.{is_nil};
    ghost use Rattle.rsx_queued.specs.declared.output.Output.TheVariants.{Empty};
    ghost use Rattle.rsx_merging.specs.FlatMap.{GivesFlatMap, IsGoing, with_lane, with_main};
    ghost use Rattle.rsx_merging.specs.Lanes.{waiting_after};

    /// The node at which nothing came in. It takes no memory.
    pub fn new(
        alloc: Global,
        function: u16,
        concurrency: u64,
        stages: Vec<Stage<T>>,
    ) -> FlatMapNode<T>
        ensures fresh { GivesFlatMap result function stages.items }
        ensures counted { 1 ≤ concurrency → IsGoing result (0 ∷ []) 0 }
        ensures concurrency { result.concurrency ≡ concurrency }
        ensures choices { result.choices ≡ [] }
        ensures next { result.next ≡ 0 }
        ensures nothing { result.output ≡ Empty }
    {
        FlatMapNode {
            expansion: Expansion { function, stages },
            concurrency,
            lanes: Lanes::new(alloc),
            next: 0,
            closed: false,
            output: Output::Empty,
            choices: Record::new(alloc),
        }
    }

    /// The choices made, as runs. It takes no memory.
    pub fn records(&self) -> &[Run]
        ensures { result.now ≡ self.now.choices }
    {
        self.choices.runs()
    }

    /// How many items wait in its lanes to be picked; at most 2^63-1.
    pub fn waiting(&self) -> u64
        ensures { result ≡ waiting_after 0 self.now.lanes }
    {
        self.lanes.waiting()
    }

    /// Whether the completions of all lanes and of Main were picked.
    pub fn is_gone(&self) -> bool
        ensures { result ≡ (self.now.closed && is_nil self.now.lanes) }
    {
        self.closed && self.lanes.is_empty()
    }

    /// Puts a lane of this value behind the others. No lane has the number of Main: where that would be next, the lane is refused as
    /// for want of memory.
    ///
    /// # Errors
    /// [`NoMemory`] where the growth was refused, or no number is left. Nothing has changed.
    // Inlined where an item comes in, as are `lane_of` and `push`, so that a lane is written once, into its place.
    #[inline(always)]
    pub fn add_lane(&mut self, value: StreamValue<T>) -> Result<(), NoMemory>
        ensures ok { OnOk result (self.new ≡ with_lane self.old value) }
        ensures number { OnOk result (self.old.next < MAIN) }
        ensures err { OnErr result (self.new ≡ self.old) }
    {
        if self.next == MAIN {
            return Err(NoMemory);
        }
        self.lanes.push(Lane::new(self.next, value))?;
        self.next += 1;
        Ok(())
    }

    /// Puts Main behind the lanes: the input has this ending.
    ///
    /// # Errors
    /// [`NoMemory`] where the growth was refused. Nothing has changed.
    pub fn close(&mut self, alloc: Global, ending: Ending) -> Result<(), NoMemory>
        ensures ok { OnOk result (self.new ≡ with_main self.old ending) }
        ensures err { OnErr result (self.new ≡ self.old) }
    {
        let main = StreamValue::new(Vec::new(alloc), ending);
        self.lanes.push(Lane::new(MAIN, main))?;
        self.closed = true;
        Ok(())
    }
}

/// What is left to pick.
trait Leaving<T: Drop> {
    ghost node: { Self → FlatMapSpec T };

    /// Copies of the lanes that are live, and behind them the lanes of what comes in, where just these values come in.
    fn left<O: Ops<Item = T>>(
        &self,
        alloc: Global,
        ops: &O,
        incoming: &[StreamValue<T>],
    ) -> Result<Vec<Input<T>>, NoMemory>
        ensures { IfOk result (λ is. is.items ≡ left_of (O.meaning ops.now) (node self.now) (head_of incoming.now)) };
}

impl<T: Drop> Leaving<T> for FlatMapNode<T> {
    ghost node = { λ n. n };

    fn left<O: Ops<Item = T>>(
        &self,
        alloc: Global,
        ops: &O,
        incoming: &[StreamValue<T>],
    ) -> Result<Vec<Input<T>>, NoMemory>
        ensures { IfOk result (λ is. is.items ≡ left_of (O.meaning ops.now) self.now (head_of incoming.now)) }
    {
        let mut inputs = Vec::new(alloc);
        self.lanes.copy_lanes(alloc, ops, &mut inputs)?;
        if self.closed {
            return Ok(inputs);
        }
        let items = first_items(incoming);
        let ending = first_ending(incoming);
        self.expansion
            .push_lanes(alloc, ops, self.next, items, ending, &mut inputs)?;
        Ok(inputs)
    }
}

impl<T: Drop> Machine for FlatMapNode<T> {
    type Item = T;

    ghost use Rattle.std.specs.Prelude.{◌≡◌, ⊤, true, false, refl, None, IfOk, IfErr, IsOk, OnOk, OnErr};
    ghost use Rattle.rsx_types.specs.Notes.{note_then};
    ghost use Rattle.rsx_sources.specs.Counts.{CountsIn, CountsOut, CountsStep};
    ghost use Rattle.rsx_sources.specs.Machine.{TakesIn, Records, IsComposed, front_of};
    ghost use Rattle.rsx_sources.specs.Reading.{IsReadOn, IsResidualOf};
    ghost use Rattle.rsx_sources.specs.Steps.{IsPopped, IsNotTaken, IsNotMade};
    ghost use Rattle.rsx_values.specs.Record.{joins_last};
    ghost use Rattle.rsx_merging.specs.FlatMap.{flat_comes_out, flat_waiting, flat_shown, flat_takes, flat_picks, flat_recording, flat_recorded, flat_ended, flat_done, flat_wanted, flat_popped, IsGoing};
    ghost use Rattle.rsx_merging.specs.FlatMapLaws.{flat_drops, flat_ends, flat_done_drops, flat_settles, flat_ending_waits, flat_hungry};
    ghost use Rattle.rsx_merging.specs.declared.flat_map_node.FlatMapNode.{FlatMapNode};
    ghost use Rattle.std.proofs.lemmas.Bool.{true≢false};

    ghost comes_out = { flat_comes_out };

    ghost waiting = { flat_waiting };

    ghost shown = { flat_shown };

    ghost takes = { flat_takes };

    ghost picks = { flat_picks };

    ghost rows = { λ n a s. false };

    ghost rowed = { λ n a s k. ⊥ };

    ghost took = { λ n i s new. ⊤ };

    ghost heard = { λ n s new. ⊤ };

    ghost picked = { λ n i new. ⊤ };

    ghost recording = { flat_recording };

    ghost recorded = { flat_recorded };

    ghost popping = { λ n. None };

    ghost ended = { flat_ended };

    ghost done = { flat_done };

    ghost counted = { IsGoing };

    ghost wanted = { flat_wanted };

    ghost accepts = { λ n a s. true };

    ghost popped = { flat_popped };

    ghost reads = { λ n. None };

    ghost rooms = { λ n. false };

    ghost crosses = { λ n. false };

    ghost pop_allocates = { λ a n. false };

    ghost signal_allocates = { λ a n. true };

    ghost step_allocates = { λ a n. true };

    fn front(&self) -> Option<Front> {
        self.output.front()
    }

    fn pop_front<O: Ops<Item = T>>(
        &mut self,
        alloc: Global,
        ops: &O,
    ) -> Result<Option<Signal<T>>, NoMemory>
        ensures ok { IfOk result (λ s.
            IsPopped (flat_comes_out (O.meaning ops.now)) flat_popped (flat_waiting (O.meaning ops.now) self.old) self.old s self.new) }
        ensures recorded { flat_recorded self.new ≡ flat_recorded self.old }
        ensures counts { IfOk result (λ s. CountsOut IsGoing flat_ended flat_done self.old s self.new) }
        ensures err { OnErr result (self.new ≡ self.old) }
        ensures memory { IsOk result }
    {
        Ok(self.output.pop())
    }

    fn records_pop(&self) -> bool {
        false
    }

    fn put_back(&mut self, signal: Signal<T>)
        ensures { (before : FlatMapNode T) → flat_popped before signal self.old → self.new ≡ before }
    {
        self.output.put_back(signal);
    }

    fn has_ended(&self) -> bool {
        self.output.has_ending()
    }

    fn can_take(&self, input: u64, front: Front) -> bool {
        input == 0
    }

    fn on_signal<O: Ops<Item = T>>(
        &mut self,
        alloc: Global,
        ops: &O,
        input: u64,
        signal: Signal<T>,
    ) -> Result<(), NotTaken<T>>
        ensures ok { OnOk result (TakesIn (flat_comes_out (O.meaning ops.now)) self.old input signal self.new) }
        ensures enabled { OnOk result (flat_takes self.old input (front_of signal) ≡ true) }
        ensures recorded { flat_recorded self.new ≡ flat_recorded self.old }
        ensures counts { OnOk result (CountsIn IsGoing flat_ended flat_done self.old input signal self.new) }
        ensures err { IfErr result (IsNotTaken (flat_takes self.old input (front_of signal)) signal) }
        ensures same { OnErr result (self.new ≡ self.old) }
    {
        if input != 0 {
            return Err(NotTaken::Busy(signal));
        }
        if self.closed {
            return Ok(());
        }
        match signal {
            Signal::Next(item) => match self.expansion.lane_of(alloc, ops, &item) {
                Ok(value) => match self.add_lane(value) {
                    Ok(()) => Ok(()),
                    Err(_) => Err(NotTaken::NoMemory(Signal::Next(item))),
                },
                Err(Fault::Code(fault)) => {
                    match self.close(alloc, Ending::Failed(Cause::Function(fault))) {
                        Ok(()) => Ok(()),
                        Err(_) => Err(NotTaken::NoMemory(Signal::Next(item))),
                    }
                }
                Err(Fault::Memory) => Err(NotTaken::NoMemory(Signal::Next(item))),
            },
            Signal::Complete => match self.close(alloc, Ending::Done) {
                Ok(()) => Ok(()),
                Err(_) => Err(NotTaken::NoMemory(Signal::Complete)),
            },
            Signal::Error(cause) => match self.close(alloc, Ending::Failed(cause)) {
                Ok(()) => Ok(()),
                Err(_) => Err(NotTaken::NoMemory(Signal::Error(cause))),
            },
        }
    }

    fn pop_item<O: Ops<Item = T>>(&mut self, alloc: Global, ops: &O) -> Option<T> {
        self.output.pop_item()
    }

    // Not inlined, so that what drives a node of any kind has no room for a lane set up.
    #[inline(never)]
    fn pass<O: Ops<Item = T>>(&mut self, alloc: Global, ops: &O, input: u64, item: T) -> Passed<T> {
        if input != 0 || self.closed || self.has_ended() {
            return Passed::Declined(item);
        }
        match self.expansion.lane_of(alloc, ops, &item) {
            Ok(value) => match self.add_lane(value) {
                Ok(()) => Passed::Kept,
                Err(_) => Passed::Declined(item),
            },
            Err(_) => Passed::Declined(item),
        }
    }

    fn hub(&self) -> Option<u64> {
        None
    }

    fn has_room(&self) -> bool {
        false
    }

    fn on_published(&mut self, signal: Signal<T>) -> Result<(), Signal<T>>
        ensures ok { OnOk result (IsReadOn flat_comes_out (λ n. None) self.old signal self.new) }
        ensures enabled { OnOk result (false ≡ true) }
        ensures recorded { flat_recorded self.new ≡ flat_recorded self.old }
        ensures counts { OnOk result (CountsStep IsGoing flat_ended flat_done self.old self.new) }
        ensures err { IfErr result (λ s. s ≡ signal) }
        ensures same { OnErr result (self.new ≡ self.old) }
    {
        Err(signal)
    }

    // Not inlined, so that what looks for the next step of a node of any kind stays small.
    #[inline(never)]
    fn can_pick(&self, input: u64, asked: u64, sent: u64) -> bool {
        self.output.is_empty() && may_take(self.lanes.front(input), sent < asked)
    }

    #[inline(never)]
    fn next_pick(&self, asked: u64, sent: u64) -> Option<u64> {
        if !self.output.is_empty() {
            return None;
        }
        self.lanes.first_ready(sent < asked)
    }

    fn on_pick<O: Ops<Item = T>>(
        &mut self,
        alloc: Global,
        ops: &O,
        input: u64,
        asked: u64,
        sent: u64,
    ) -> Result<(), NotMade>
        ensures ok { OnOk result (Records (flat_comes_out (O.meaning ops.now)) self.old (flat_recording self.old input) self.new) }
        ensures enabled { OnOk result (flat_picks self.old input asked sent ≡ true) }
        ensures recorded { OnOk result (flat_recorded self.new ≡ note_then (flat_recorded self.old) (flat_recording self.old input)) }
        ensures composes { OnOk result (IsComposed (flat_recorded self.old) (flat_recording self.old input)) }
        ensures counts { OnOk result (CountsStep IsGoing flat_ended flat_done self.old self.new) }
        ensures err { IfErr result (IsNotMade (flat_picks self.old input asked sent)) }
        ensures same { OnErr result (self.new ≡ self.old) }
        // A pick that is one more of the last run takes no memory.
        ensures joined { joins_last self.old.choices input ≡ true → IfErr result (λ e. e ≡ NotMade.NotEnabled) }
    {
        if !self.output.is_empty() {
            return Err(NotMade::NotEnabled);
        }
        let at = match self.lanes.ready_place(input, sent < asked) {
            Some(at) => at,
            None => return Err(NotMade::NotEnabled),
        };
        if let Err(_) = self.choices.push(input) {
            return Err(NotMade::NoMemory);
        }
        match self.lanes.take_at(at) {
            Some(Signal::Next(item)) => {
                self.output.put(Signal::Next(item));
                Ok(())
            }
            Some(Signal::Complete) => {
                if self.is_gone() {
                    self.output.put(Signal::Complete);
                    return Ok(());
                }
                Ok(())
            }
            Some(Signal::Error(cause)) => {
                // Nothing can be picked any more, so what waits is dropped, and so is what still comes in.
                self.lanes.clear();
                self.closed = true;
                self.output.put(Signal::Error(cause));
                Ok(())
            }
            None => unreachable!(),
        }
    }

    fn can_row(&self, asked: u64, sent: u64) -> bool {
        false
    }

    fn on_row<O: Ops<Item = T>>(
        &mut self,
        alloc: Global,
        ops: &O,
        asked: u64,
        sent: u64,
    ) -> Result<(), NotMade> {
        Err(NotMade::NotEnabled)
    }

    /// Picks the first lane, where an item is next there; that is the lane that `next_pick` names.
    fn step_item<O: Ops<Item = T>>(
        &mut self,
        alloc: Global,
        ops: &O,
        asked: u64,
        sent: u64,
    ) -> Option<T> {
        if sent >= asked || !self.output.is_empty() {
            return None;
        }
        let number = match self.lanes.first_with_item() {
            Some(number) => number,
            None => return None,
        };
        if self.choices.push(number).is_err() {
            return None;
        }
        match self.lanes.take_first_item() {
            Some(item) => Some(item),
            None => unreachable!(),
        }
    }

    fn want(&self, input: u64, asked: u64, sent: u64) -> u64 {
        saturating_total(
            self.concurrency,
            self.next.saturating_sub(self.lanes.len() as u64),
        )
    }

    #[inline(always)]
    fn accepts_demand(&self, asked: u64, sent: u64) -> bool {
        true
    }

    fn note(&self, alloc: Global) -> Result<Note, NoMemory> {
        let choices = self.choices.choices(alloc)?;
        Ok(Note::Picks(choices))
    }

    fn residual<O: Ops<Item = T>>(
        &self,
        alloc: Global,
        ops: &O,
        inboxes: &[StreamValue<T>],
        incoming: &[StreamValue<T>],
    ) -> Result<StreamValue<T>, NoMemory>
        ensures { IfOk result (λ v.
            IsResidualOf (flat_comes_out (O.meaning ops.now)) flat_recorded (λ n. None) self.now inboxes.now incoming.now v) }
    {
        let left = self.left(alloc, ops, incoming)?;
        match merge_inputs(alloc, left, &[])? {
            Some(rest) => self.output.in_front(alloc, ops, rest),
            None => unreachable!(),
        }
    }

    ghost shows = { λ m n. refl };

    ghost popped_alike = { λ old s new h. (refl, (refl, λ a. (refl, refl, refl))) };

    ghost drops = { flat_drops };

    ghost ends = { flat_ends };

    ghost done_drops = { flat_done_drops };

    ghost ends_reading = { λ m n s w e. refl };

    ghost settles = { flat_settles };

    ghost ending_waits = { flat_ending_waits };

    ghost hungry = { flat_hungry };

    ghost asked_enough = { λ n a s e. absurd (true≢false e) };
}
