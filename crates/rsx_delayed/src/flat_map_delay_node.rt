//! The node `flatMapDelayError`.

ghost use Rattle.std.specs.Prelude.{◌≡◌, true, ◌&&◌, IfOk};
ghost use Rattle.rsx_sources.specs.Heads.{head_of};
ghost use Rattle.rsx_sources.specs.Slot.{is_nil};
ghost use Rattle.rsx_merging.specs.FlatMap.{left_of};
ghost use Rattle.rsx_merging.specs.declared.flat_map_node.FlatMapNode.{FlatMapNode as FlatMapSpec};
ghost use Rattle.rsx_queued.specs.Output.{is_empty};
ghost use Rattle.rsx_delayed.specs.MergeDelay.{ending_out};

use crate::flat::{LanesToCome, merge_delayed_lanes};
use crate::merge_delay_node::last_signal;
use rsx_merging::{CopyingLanes, Expanding, Expansion, FlatMapNode, Lanes};
use rsx_queued::{InFront, Output};
use rsx_sources::{Front, Machine, NotMade, NotTaken, Passed, first_ending, first_items};
use rsx_types::{Cause, Ending, Fault, NoMemory, Note, Ops, Signal, Stage, StreamValue};
use rsx_values::{Record, Run, first_cause};
use std::alloc::Global;

/// The lanes of its input's items, in the order in which they are picked, whatever fails. A failure that is picked ends its lane
/// alone: it puts nothing out, and the other lanes go on. Once the endings of all lanes and of Main were picked it fails with the
/// failure that was picked first, or completes where none was.
///
/// Main has the ending of the input, and that can be picked as soon as the input has ended, before the lanes. A fault of an
/// expansion is that ending, and what comes in behind it is let go. A lane is gone once its ending was picked, a failure too, so the
/// node holds memory for the live lanes alone, at most as many as its concurrency where its input gives no more than is asked.
#[derive(Drop)]
pub struct FlatMapDelayNode<T> {
    /// The lanes, what was put out and the choices made, as a `flatMap` holds them.
    pub flat: FlatMapNode<T>,
    /// The failure that was picked first, if one was.
    pub kept: Option<Cause>,
}

impl<T: Drop> FlatMapDelayNode<T> {
    ghost use Rattle.std.specs.Prelude.{◌≡◌, ◌≤◌, ◌&&◌, true, [], ◌∷◌, None};
    ghost use Rattle.rsx_sources.specs.Slot.{is_nil};
    ghost use Rattle.rsx_queued.specs.Output.{is_empty};
    ghost use Rattle.rsx_queued.specs.declared.output.Output.TheVariants.{Empty};
    ghost use Rattle.rsx_delayed.specs.FlatMapDelay.{GivesFlatMapDelay, flat_delay_counted};
    ghost use Rattle.rsx_merging.specs.Lanes.{waiting_after};
    ghost use Rattle.rsx_delayed.specs.MergeDelay.{ending_out};

    /// The node at which nothing came in: of items that this function of the caller expands, through a chain of these operators, with
    /// at most so many live lanes, 1 to 64. It takes no memory.
    pub fn new(
        alloc: Global,
        function: u16,
        concurrency: u64,
        stages: Vec<Stage<T>>,
    ) -> FlatMapDelayNode<T>
        ensures fresh { GivesFlatMapDelay result function stages.items }
        ensures counted { 1 ≤ concurrency → flat_delay_counted result (0 ∷ []) 0 }
        ensures concurrency { result.flat.concurrency ≡ concurrency }
        ensures choices { result.flat.choices ≡ [] }
        ensures next { result.flat.next ≡ 0 }
        ensures nothing { result.flat.output ≡ Empty }
        ensures kept { result.kept ≡ None }
    {
        FlatMapDelayNode {
            flat: FlatMapNode {
                expansion: Expansion { function, stages },
                concurrency,
                lanes: Lanes::new(alloc),
                next: 0,
                closed: false,
                output: Output::Empty,
                choices: Record::new(alloc),
            },
            kept: None,
        }
    }

    /// The choices made, as runs. It takes no memory.
    pub fn records(&self) -> &[Run]
        ensures { result.now ≡ self.now.flat.choices }
    {
        self.flat.records()
    }

    /// How many items wait in its lanes to be picked; at most 2^63-1.
    pub fn waiting(&self) -> u64
        ensures { result ≡ waiting_after 0 self.now.flat.lanes }
    {
        self.flat.waiting()
    }

    /// The ending of a lane, or of Main, was picked: where it was the last, the ending of the node is put out. Nothing waits.
    fn end_lane(&mut self)
        requires { is_empty self.old.flat.output ≡ true }
        ensures output { self.new.flat.output ≡ ending_out (self.old.flat.closed && is_nil self.old.flat.lanes) self.old.kept }
        ensures flat { self.new.flat ≡ record self.old.flat { output = self.new.flat.output } }
        ensures kept { self.new.kept ≡ self.old.kept }
    {
        if self.flat.is_gone() {
            self.flat.output.put(last_signal(self.kept));
        }
    }
}

/// What is left to pick.
trait LeavingLanes<T: Drop> {
    ghost node: { Self → FlatMapSpec T };

    /// Copies of the lanes that are live, and behind them the lanes of what comes in, where just these values come in.
    ///
    /// # Errors
    /// [`NoMemory`] where a growth was refused, in a function of the caller too.
    fn lanes_left<O: Ops<Item = T>>(
        &self,
        alloc: Global,
        ops: &O,
        incoming: &[StreamValue<T>],
    ) -> Result<Lanes<T>, NoMemory>
        ensures { IfOk result (λ l. l ≡ left_of (O.meaning ops.now) (node self.now) (head_of incoming.now)) };
}

impl<T: Drop> LeavingLanes<T> for FlatMapNode<T> {
    ghost node = { λ n. n };

    fn lanes_left<O: Ops<Item = T>>(
        &self,
        alloc: Global,
        ops: &O,
        incoming: &[StreamValue<T>],
    ) -> Result<Lanes<T>, NoMemory>
        ensures { IfOk result (λ l. l ≡ left_of (O.meaning ops.now) self.now (head_of incoming.now)) }
    {
        let mut lanes = self.lanes.copied(alloc, ops)?;
        if self.closed {
            return Ok(lanes);
        }
        let items = first_items(incoming);
        let ending = first_ending(incoming);
        lanes.push_lanes(alloc, ops, &self.expansion, self.next, items, ending)?;
        Ok(lanes)
    }
}

impl<T: Drop> Machine for FlatMapDelayNode<T> {
    type Item = T;

    ghost use Rattle.std.specs.Prelude.{◌≡◌, ⊤, true, false, refl, None, IfOk, IfErr, IsOk, OnOk, OnErr};
    ghost use Rattle.rsx_types.specs.Notes.{note_then};
    ghost use Rattle.rsx_sources.specs.Counts.{CountsIn, CountsOut, CountsStep};
    ghost use Rattle.rsx_sources.specs.Machine.{TakesIn, Records, IsComposed, front_of};
    ghost use Rattle.rsx_sources.specs.Reading.{IsReadOn, IsResidualOf};
    ghost use Rattle.rsx_sources.specs.Steps.{IsPopped, IsNotTaken, IsNotMade};
    ghost use Rattle.rsx_values.specs.Record.{joins_last};
    ghost use Rattle.rsx_delayed.specs.FlatMapDelayLaws.{flat_delay_drops, flat_delay_ends, flat_delay_done_drops, flat_delay_settles, flat_delay_ending_waits, flat_delay_hungry};
    ghost use Rattle.rsx_delayed.specs.FlatMapDelay.{flat_delay_comes_out, flat_delay_waiting, flat_delay_shown, flat_delay_takes, flat_delay_picks, flat_delay_recording, flat_delay_recorded, flat_delay_ended, flat_delay_done, flat_delay_counted, flat_delay_wanted, flat_delay_popped};
    ghost use Rattle.rsx_delayed.specs.declared.flat_map_delay_node.FlatMapDelayNode.{FlatMapDelayNode};
    ghost use Rattle.std.proofs.lemmas.Bool.{true≢false};

    ghost comes_out = { flat_delay_comes_out };

    ghost waiting = { flat_delay_waiting };

    ghost shown = { flat_delay_shown };

    ghost takes = { flat_delay_takes };

    ghost picks = { flat_delay_picks };

    ghost rows = { λ n a s. false };

    ghost rowed = { λ n a s k. ⊥ };

    ghost took = { λ n i s new. ⊤ };

    ghost heard = { λ n s new. ⊤ };

    ghost picked = { λ n i new. ⊤ };

    ghost recording = { flat_delay_recording };

    ghost recorded = { flat_delay_recorded };

    ghost popping = { λ n. None };

    ghost ended = { flat_delay_ended };

    ghost done = { flat_delay_done };

    ghost counted = { flat_delay_counted };

    ghost wanted = { flat_delay_wanted };

    ghost accepts = { λ n a s. true };

    ghost popped = { flat_delay_popped };

    ghost reads = { λ n. None };

    ghost rooms = { λ n. false };

    ghost crosses = { λ n. false };

    ghost pop_allocates = { λ a n. false };

    ghost signal_allocates = { λ a n. true };

    ghost step_allocates = { λ a n. true };

    fn front(&self) -> Option<Front> {
        self.flat.front()
    }

    fn pop_front<O: Ops<Item = T>>(
        &mut self,
        alloc: Global,
        ops: &O,
    ) -> Result<Option<Signal<T>>, NoMemory>
        ensures ok { IfOk result (λ s.
            IsPopped (flat_delay_comes_out (O.meaning ops.now)) flat_delay_popped (flat_delay_waiting (O.meaning ops.now) self.old) self.old s self.new) }
        ensures recorded { flat_delay_recorded self.new ≡ flat_delay_recorded self.old }
        ensures counts { IfOk result (λ s. CountsOut flat_delay_counted flat_delay_ended flat_delay_done self.old s self.new) }
        ensures err { OnErr result (self.new ≡ self.old) }
        ensures memory { IsOk result }
    {
        Ok(self.flat.output.pop())
    }

    fn records_pop(&self) -> bool {
        false
    }

    fn put_back(&mut self, signal: Signal<T>)
        ensures { (before : FlatMapDelayNode T) → flat_delay_popped before signal self.old → self.new ≡ before }
    {
        self.flat.put_back(signal);
    }

    fn has_ended(&self) -> bool {
        self.flat.has_ended()
    }

    fn can_take(&self, input: u64, front: Front) -> bool {
        self.flat.can_take(input, front)
    }

    fn on_signal<O: Ops<Item = T>>(
        &mut self,
        alloc: Global,
        ops: &O,
        input: u64,
        signal: Signal<T>,
    ) -> Result<(), NotTaken<T>>
        ensures ok { OnOk result (TakesIn (flat_delay_comes_out (O.meaning ops.now)) self.old input signal self.new) }
        ensures enabled { OnOk result (flat_delay_takes self.old input (front_of signal) ≡ true) }
        ensures recorded { flat_delay_recorded self.new ≡ flat_delay_recorded self.old }
        ensures counts { OnOk result (CountsIn flat_delay_counted flat_delay_ended flat_delay_done self.old input signal self.new) }
        ensures err { IfErr result (IsNotTaken (flat_delay_takes self.old input (front_of signal)) signal) }
        ensures same { OnErr result (self.new ≡ self.old) }
    {
        if input != 0 {
            return Err(NotTaken::Busy(signal));
        }
        if self.flat.closed {
            return Ok(());
        }
        match signal {
            Signal::Next(item) => match self.flat.expansion.lane_of(alloc, ops, &item) {
                Ok(value) => match self.flat.add_lane(value) {
                    Ok(()) => Ok(()),
                    Err(_) => Err(NotTaken::NoMemory(Signal::Next(item))),
                },
                Err(Fault::Code(fault)) => {
                    match self
                        .flat
                        .close(alloc, Ending::Failed(Cause::Function(fault)))
                    {
                        Ok(()) => Ok(()),
                        Err(_) => Err(NotTaken::NoMemory(Signal::Next(item))),
                    }
                }
                Err(Fault::Memory) => Err(NotTaken::NoMemory(Signal::Next(item))),
            },
            Signal::Complete => match self.flat.close(alloc, Ending::Done) {
                Ok(()) => Ok(()),
                Err(_) => Err(NotTaken::NoMemory(Signal::Complete)),
            },
            Signal::Error(cause) => match self.flat.close(alloc, Ending::Failed(cause)) {
                Ok(()) => Ok(()),
                Err(_) => Err(NotTaken::NoMemory(Signal::Error(cause))),
            },
        }
    }

    fn pop_item<O: Ops<Item = T>>(&mut self, alloc: Global, ops: &O) -> Option<T> {
        self.flat.pop_item(alloc, ops)
    }

    // Not inlined, so that what drives a node of any kind has no room for a lane set up.
    #[inline(never)]
    fn pass<O: Ops<Item = T>>(&mut self, alloc: Global, ops: &O, input: u64, item: T) -> Passed<T> {
        if input != 0 || self.flat.closed || self.has_ended() {
            return Passed::Declined(item);
        }
        match self.flat.expansion.lane_of(alloc, ops, &item) {
            Ok(value) => match self.flat.add_lane(value) {
                Ok(()) => Passed::Kept,
                Err(_) => Passed::Declined(item),
            },
            Err(_) => Passed::Declined(item),
        }
    }

    fn hub(&self) -> Option<u64> {
        None
    }

    fn has_room(&self) -> bool {
        false
    }

    fn on_published(&mut self, signal: Signal<T>) -> Result<(), Signal<T>>
        ensures ok { OnOk result (IsReadOn flat_delay_comes_out (λ n. None) self.old signal self.new) }
        ensures enabled { OnOk result (false ≡ true) }
        ensures recorded { flat_delay_recorded self.new ≡ flat_delay_recorded self.old }
        ensures counts { OnOk result (CountsStep flat_delay_counted flat_delay_ended flat_delay_done self.old self.new) }
        ensures err { IfErr result (λ s. s ≡ signal) }
        ensures same { OnErr result (self.new ≡ self.old) }
    {
        Err(signal)
    }

    fn can_pick(&self, input: u64, asked: u64, sent: u64) -> bool {
        self.flat.can_pick(input, asked, sent)
    }

    fn next_pick(&self, asked: u64, sent: u64) -> Option<u64> {
        self.flat.next_pick(asked, sent)
    }

    fn on_pick<O: Ops<Item = T>>(
        &mut self,
        alloc: Global,
        ops: &O,
        input: u64,
        asked: u64,
        sent: u64,
    ) -> Result<(), NotMade>
        ensures ok { OnOk result (Records (flat_delay_comes_out (O.meaning ops.now)) self.old (flat_delay_recording self.old input) self.new) }
        ensures enabled { OnOk result (flat_delay_picks self.old input asked sent ≡ true) }
        ensures recorded { OnOk result (flat_delay_recorded self.new ≡ note_then (flat_delay_recorded self.old) (flat_delay_recording self.old input)) }
        ensures composes { OnOk result (IsComposed (flat_delay_recorded self.old) (flat_delay_recording self.old input)) }
        ensures counts { OnOk result (CountsStep flat_delay_counted flat_delay_ended flat_delay_done self.old self.new) }
        ensures err { IfErr result (IsNotMade (flat_delay_picks self.old input asked sent)) }
        ensures same { OnErr result (self.new ≡ self.old) }
        // A pick that is one more of the last run takes no memory.
        ensures joined { joins_last self.old.flat.choices input ≡ true → IfErr result (λ e. e ≡ NotMade.NotEnabled) }
    {
        if !self.can_pick(input, asked, sent) {
            return Err(NotMade::NotEnabled);
        }
        if let Err(_) = self.flat.choices.push(input) {
            return Err(NotMade::NoMemory);
        }
        match self.flat.lanes.take(input) {
            Some(Signal::Next(item)) => {
                self.flat.output.put(Signal::Next(item));
                Ok(())
            }
            Some(Signal::Complete) => {
                self.end_lane();
                Ok(())
            }
            Some(Signal::Error(cause)) => {
                // The other lanes go on, and the failure waits for them.
                self.kept = first_cause(self.kept, cause);
                self.end_lane();
                Ok(())
            }
            None => unreachable!(),
        }
    }

    fn can_row(&self, asked: u64, sent: u64) -> bool {
        false
    }

    fn on_row<O: Ops<Item = T>>(
        &mut self,
        alloc: Global,
        ops: &O,
        asked: u64,
        sent: u64,
    ) -> Result<(), NotMade> {
        Err(NotMade::NotEnabled)
    }

    /// Picks the first lane, where an item is next there; that is the lane that `next_pick` names.
    fn step_item<O: Ops<Item = T>>(
        &mut self,
        alloc: Global,
        ops: &O,
        asked: u64,
        sent: u64,
    ) -> Option<T> {
        if sent >= asked || !self.flat.output.is_empty() {
            return None;
        }
        let number = match self.flat.lanes.first_with_item() {
            Some(number) => number,
            None => return None,
        };
        if self.flat.choices.push(number).is_err() {
            return None;
        }
        match self.flat.lanes.take_first_item() {
            Some(item) => Some(item),
            None => unreachable!(),
        }
    }

    fn want(&self, input: u64, asked: u64, sent: u64) -> u64 {
        self.flat.want(input, asked, sent)
    }

    #[inline(always)]
    fn accepts_demand(&self, asked: u64, sent: u64) -> bool {
        true
    }

    fn note(&self, alloc: Global) -> Result<Note, NoMemory> {
        self.flat.note(alloc)
    }

    fn residual<O: Ops<Item = T>>(
        &self,
        alloc: Global,
        ops: &O,
        inboxes: &[StreamValue<T>],
        incoming: &[StreamValue<T>],
    ) -> Result<StreamValue<T>, NoMemory>
        ensures { IfOk result (λ v.
            IsResidualOf (flat_delay_comes_out (O.meaning ops.now)) flat_delay_recorded (λ n. None) self.now inboxes.now incoming.now v) }
    {
        let lanes = self.flat.lanes_left(alloc, ops, incoming)?;
        match merge_delayed_lanes(alloc, self.kept, lanes, &[])? {
            Some(rest) => self.flat.output.in_front(alloc, ops, rest),
            None => unreachable!(),
        }
    }

    ghost shows = { λ m n. refl };

    ghost popped_alike = { λ old s new h. (refl, (refl, λ a. (refl, refl, refl))) };

    ghost drops = { flat_delay_drops };

    ghost ends = { flat_delay_ends };

    ghost done_drops = { flat_delay_done_drops };

    ghost ends_reading = { λ m n s w e. refl };

    ghost settles = { flat_delay_settles };

    ghost ending_waits = { flat_delay_ending_waits };

    ghost hungry = { flat_delay_hungry };

    ghost asked_enough = { λ n a s e. absurd (true≢false e) };
}
