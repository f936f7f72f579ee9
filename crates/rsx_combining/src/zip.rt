//! The zip of several inputs.

ghost use Rattle.std.specs.Prelude.{◌≡◌};
ghost use Rattle.rsx_queued.specs.Input.{next_signal};
ghost use Rattle.rsx_combining.specs.Inputs.{ending_only};

use crate::row::{Gathered, all_have_items};
use crate::values::ToCome;
use rsx_prefetch::LARGEST;
use rsx_queued::{InFront, Output, QueuedInput, credits_at, front_of, takes_at, waiting_at};
use rsx_sources::{Front, Machine, NotMade, NotTaken, Passed};
use rsx_types::{NoMemory, Note, Ops, Signal, StreamValue};
use rsx_values::Zip;
use std::alloc::Global;
use std::marker::Model;

/// Rows of the items of its inputs: the first item of each, then the second of each, and so on. Contracts see its inputs as a
/// list, what it has put out, and the number of the input whose ending it took, if it took one.
///
/// A row is made where an item of each input is there, and it needs no memory beside that of `Ops::row`. The node ends by a
/// pick: it takes the ending of an input whose items are all used, and records the number of that input.
#[derive(Drop)]
pub struct ZipNode<T> {
    inputs: Vec<QueuedInput<T>>,
    output: Output<T>,
    chosen: Option<u32>,
    row: Vec<T>,
}

impl<T> Model for ZipNode<T> {
    ghost use Rattle.std.specs.Prelude.{◌≡◌, ◌≤◌, [], length, vec_capacity};
    ghost use Rattle.rsx_combining.specs.Zip.{ZipState};

    ghost Value = { ZipState T };

    ghost view = { λ n. record { inputs = n.inputs.items; output = n.output; chosen = n.chosen } };

    ghost invariant = { λ n. (n.row.items ≡ []) × (length n.inputs.items ≤ vec_capacity n.row) };
}

/// The next signal of an input, where that is an ending.
#[tactic(auto, using(crate::proofs::Heads::ending_shown))]
fn next_ending<T: Drop>(input: &QueuedInput<T>) -> Option<Signal<T>>
    ensures { result ≡ ending_only (next_signal input.now) }
{
    match input.front() {
        Some(Front::Completion) => Some(Signal::Complete),
        Some(Front::Failure(cause)) => Some(Signal::Error(cause)),
        Some(Front::Item) | None => None,
    }
}

impl<T: Drop> ZipNode<T> {
    ghost use Rattle.std.specs.Prelude.{◌≡◌, ◌≤◌, None, IfOk};
    ghost use Rattle.rsx_prefetch.specs.declared.TheConstants.{LARGEST};
    ghost use Rattle.rsx_queued.specs.declared.output.Output.TheVariants.{Empty};
    ghost use Rattle.rsx_queued.specs.Input.{fresh_input};
    ghost use Rattle.std.proofs.Math.ListN.{replicate};
    ghost use Rattle.rsx_combining.specs.Inputs.{ending_at};
    ghost use Rattle.rsx_sources.specs.declared.machine.Front.TheVariants.{Item};
    ghost use Rattle.rsx_combining.specs.Zip.{GivesZip, IsZipCounted, is_chosen, may_end, zip_queued, zip_takes};

    /// The zip of so many inputs, each with a queue for so many items, 1 to [`LARGEST`].
    ///
    /// # Errors
    /// [`NoMemory`] where a growth was refused.
    #[tactic(auto, using(std::proofs::lemmas::List::replicate_more, crate::proofs::Filled::fresh_lefts))]
    pub fn new(alloc: Global, inputs: u32, capacity: usize) -> Result<ZipNode<T>, NoMemory>
        requires positive { 1 ≤ capacity }
        requires within { capacity ≤ LARGEST }
        ensures inputs { IfOk result (λ n. n.inputs ≡ replicate inputs (fresh_input capacity)) }
        ensures output { IfOk result (λ n. n.output ≡ Empty) }
        ensures chosen { IfOk result (λ n. n.chosen ≡ None) }
        ensures fresh { IfOk result (λ n. GivesZip n inputs) }
        ensures counted { IfOk result (λ n. 1 ≤ inputs → IsZipCounted n (replicate inputs 0) 0) }
    {
        let mut queues = Vec::new(alloc);
        for _ in 0..inputs {
            queues.push(QueuedInput::new(alloc, capacity)?)?;
        }
        let row = Vec::with_capacity(alloc, queues.len())?;
        Ok(ZipNode {
            inputs: queues,
            output: Output::Empty,
            chosen: None,
            row,
        })
    }

    /// Whether the ending of this input was taken.
    fn is_chosen(&self, input: u64) -> bool
        ensures { result ≡ is_chosen self.now.chosen input }
    {
        match self.chosen {
            Some(chosen) => chosen as u64 == input,
            None => false,
        }
    }

    /// How many signals of this input wait, its ending too until it was taken. None where there is no such input.
    pub fn queued_at(&self, input: u64) -> Option<u64>
        ensures { result ≡ zip_queued self.now input }
    {
        match waiting_at(self.inputs.as_slice(), input) {
            Some(waiting) if !self.is_chosen(input) => Some(waiting),
            Some(_) => Some(0),
            None => None,
        }
    }

    /// Whether nothing waits in the out slot, and no ending was taken.
    fn may_end(&self) -> bool
        ensures { result ≡ may_end self.now }
    {
        self.output.is_empty() && self.chosen.is_none()
    }

    /// Whether an item can be put in at this input.
    fn has_room_at(&self, input: u64) -> bool
        ensures { result ≡ zip_takes self.now input Item }
    {
        // By the comparison that `Prefetch::put` makes, too, so that the compiler makes one of the two.
        match self.inputs.get(input as usize) {
            Some(queued) => queued.tail.is_open() && queued.queue.len() < queued.queue.capacity(),
            None => false,
        }
    }

    /// The ending that is next at this input, if one is.
    fn ending_at(&self, input: u64) -> Option<Signal<T>>
        ensures { result ≡ ending_at self.now.inputs input }
    {
        if input > u32::MAX as u64 {
            return None;
        }
        match self.inputs.get(input as usize) {
            Some(queued) => next_ending(queued),
            None => None,
        }
    }
}

impl<T: Drop> Machine for ZipNode<T> {
    type Item = T;

    ghost use Rattle.std.specs.Prelude.{◌≡◌, ⊤, true, false, refl, None, IfOk, IfErr, OnOk, OnErr};
    ghost use Rattle.rsx_types.specs.Notes.{note_then};
    ghost use Rattle.rsx_sources.specs.Counts.{CountsIn, CountsStep};
    ghost use Rattle.rsx_sources.specs.Machine.{TakesIn, Keeps, Records, IsComposed, front_of};
    ghost use Rattle.rsx_sources.specs.Reading.{IsReadOn, IsResidualOf};
    ghost use Rattle.rsx_sources.specs.Steps.{IsNotTaken, IsNotMade, StaysAlike};
    ghost use Rattle.rsx_sources.specs.Passed.{IsPassed};
    ghost use Rattle.rsx_combining.specs.Zip.{ZipState, zip_comes_out, zip_waiting, zip_shown, zip_takes, zip_with_signal, IsZipPassed, zip_picks, IsZipPick, zip_rows, IsZipRow, zip_recording, zip_recorded, zip_ended, zip_done, IsZipCounted, zip_wanted, zip_popped, zip_step_allocates};
    ghost use Rattle.rsx_combining.specs.ZipLaws.{zip_popped_alike, zip_drops, zip_ends, zip_done_drops, zip_settles, zip_ending_waits, zip_hungry};
    ghost use Rattle.std.proofs.lemmas.Bool.{true≢false};

    ghost comes_out = { zip_comes_out };

    ghost waiting = { zip_waiting };

    ghost shown = { zip_shown };

    ghost takes = { zip_takes };

    ghost picks = { zip_picks };

    ghost rows = { zip_rows };

    ghost rowed = { IsZipRow };

    ghost took = { λ n i s new. new ≡ zip_with_signal n i s };

    ghost heard = { λ n s new. ⊤ };

    ghost picked = { IsZipPick };

    ghost recording = { zip_recording };

    ghost recorded = { zip_recorded };

    ghost popping = { λ n. None };

    ghost ended = { zip_ended };

    ghost done = { zip_done };

    ghost counted = { IsZipCounted };

    ghost wanted = { zip_wanted };

    ghost accepts = { λ n a s. true };

    ghost popped = { zip_popped };

    ghost reads = { λ n. None };

    ghost rooms = { λ n. false };

    ghost crosses = { λ n. false };

    ghost pop_allocates = { λ a n. false };

    ghost signal_allocates = { λ a n. false };

    ghost step_allocates = { zip_step_allocates };

    fn front(&self) -> Option<Front> {
        self.output.front()
    }

    fn pop_front<O: Ops<Item = T>>(
        &mut self,
        alloc: Global,
        ops: &O,
    ) -> Result<Option<Signal<T>>, NoMemory> {
        Ok(self.output.pop())
    }

    fn records_pop(&self) -> bool {
        false
    }

    fn put_back(&mut self, signal: Signal<T>)
        ensures { (before : ZipState T) → zip_popped before signal self.old → self.new ≡ before }
    {
        self.output.put_back(signal);
    }

    fn has_ended(&self) -> bool {
        self.output.has_ending()
    }

    fn can_take(&self, input: u64, front: Front) -> bool {
        takes_at(self.inputs.as_slice(), input, front)
    }

    #[tactic(auto, using(rsx_queued::proofs::Changed::takes_there))]
    fn on_signal<O: Ops<Item = T>>(
        &mut self,
        alloc: Global,
        ops: &O,
        input: u64,
        signal: Signal<T>,
    ) -> Result<(), NotTaken<T>>
        ensures ok { OnOk result (TakesIn (zip_comes_out (O.meaning ops.now)) self.old input signal self.new) }
        ensures made { OnOk result (self.new ≡ zip_with_signal self.old input signal) }
        ensures enabled { OnOk result (zip_takes self.old input (front_of signal) ≡ true) }
        ensures recorded { zip_recorded self.new ≡ zip_recorded self.old }
        ensures counts { OnOk result (CountsIn IsZipCounted zip_ended zip_done self.old input signal self.new) }
        ensures err { IfErr result (IsNotTaken (zip_takes self.old input (front_of signal)) signal) }
        ensures memory { IfErr result (λ e. e ≡ NotTaken.Busy signal) }
        ensures same { OnErr result (self.new ≡ self.old) }
    {
        if !self.can_take(input, front_of(&signal)) {
            return Err(NotTaken::Busy(signal));
        }
        self.inputs[input as usize].put(signal);
        Ok(())
    }

    fn pop_item<O: Ops<Item = T>>(&mut self, alloc: Global, ops: &O) -> Option<T> {
        self.output.pop_item()
    }

    fn pass<O: Ops<Item = T>>(&mut self, alloc: Global, ops: &O, input: u64, item: T) -> Passed<T>
        ensures passed { IsPassed (zip_comes_out (O.meaning ops.now)) (zip_waiting (O.meaning ops.now))
            zip_takes zip_popped zip_recorded IsZipCounted zip_ended zip_done self.old input item result self.new }
        ensures made { IsZipPassed self.old input item result self.new }
        ensures alike { StaysAlike (λ n. None) (λ n. false) (λ a n. false) (λ a n. false) zip_step_allocates self.old self.new }
    {
        if self.has_ended() || !self.has_room_at(input) {
            return Passed::Declined(item);
        }
        self.inputs[input as usize].put(Signal::Next(item));
        Passed::Kept
    }

    fn hub(&self) -> Option<u64> {
        None
    }

    fn has_room(&self) -> bool {
        false
    }

    fn on_published(&mut self, signal: Signal<T>) -> Result<(), Signal<T>>
        ensures ok { OnOk result (IsReadOn zip_comes_out (λ n. None) self.old signal self.new) }
        ensures enabled { OnOk result (false ≡ true) }
        ensures err { IfErr result (λ s. s ≡ signal) }
        ensures same { OnErr result (self.new ≡ self.old) }
    {
        Err(signal)
    }

    fn can_pick(&self, input: u64, asked: u64, sent: u64) -> bool {
        self.may_end() && self.ending_at(input).is_some()
    }

    fn next_pick(&self, asked: u64, sent: u64) -> Option<u64> {
        for at in 0..self.inputs.len() {
            if self.can_pick(at as u64, asked, sent) {
                return Some(at as u64);
            }
        }
        None
    }

    #[tactic(auto, using(crate::proofs::Zips::ending_taken))]
    fn on_pick<O: Ops<Item = T>>(
        &mut self,
        alloc: Global,
        ops: &O,
        input: u64,
        asked: u64,
        sent: u64,
    ) -> Result<(), NotMade>
        ensures ok { OnOk result (Records (zip_comes_out (O.meaning ops.now)) self.old (zip_recording self.old input) self.new) }
        ensures made { OnOk result (IsZipPick self.old input self.new) }
        ensures enabled { OnOk result (zip_picks self.old input asked sent ≡ true) }
        ensures recorded { OnOk result (zip_recorded self.new ≡ note_then (zip_recorded self.old) (zip_recording self.old input)) }
        ensures composes { OnOk result (IsComposed (zip_recorded self.old) (zip_recording self.old input)) }
        ensures counts { OnOk result (CountsStep IsZipCounted zip_ended zip_done self.old self.new) }
        ensures err { IfErr result (λ e. e ≡ NotMade.NotEnabled) }
        ensures not_enabled { OnErr result (zip_picks self.old input asked sent ≡ false) }
        ensures same { OnErr result (self.new ≡ self.old) }
    {
        if !self.may_end() {
            return Err(NotMade::NotEnabled);
        }
        match self.ending_at(input) {
            Some(ending) => {
                self.output.put(ending);
                self.chosen = Some(input as u32);
                Ok(())
            }
            None => Err(NotMade::NotEnabled),
        }
    }

    fn can_row(&self, asked: u64, sent: u64) -> bool {
        if !self.output.is_empty() || sent >= asked || self.inputs.is_empty() {
            return false;
        }
        all_have_items(self.inputs.as_slice())
    }

    #[tactic(auto, using(crate::proofs::Zips::row_made, crate::proofs::Zips::row_counts))]
    fn on_row<O: Ops<Item = T>>(
        &mut self,
        alloc: Global,
        ops: &O,
        asked: u64,
        sent: u64,
    ) -> Result<(), NotMade>
        ensures ok { OnOk result (Keeps (zip_comes_out (O.meaning ops.now)) self.old self.new) }
        ensures enabled { OnOk result (zip_rows self.old asked sent ≡ true) }
        ensures rowed { OnOk result (IsZipRow self.old asked sent self.new) }
        ensures recorded { zip_recorded self.new ≡ zip_recorded self.old }
        ensures counts { OnOk result (CountsStep IsZipCounted zip_ended zip_done self.old self.new) }
        ensures err { IfErr result (IsNotMade (zip_rows self.old asked sent)) }
        ensures memory { zip_step_allocates (O.allocates ops.now) self.old ≡ false → IfErr result (λ e. e ≡ NotMade.NotEnabled) }
        ensures same { OnErr result (self.new ≡ self.old) }
    {
        if !self.can_row(asked, sent) {
            return Err(NotMade::NotEnabled);
        }
        match self.row.row_with(alloc, ops, self.inputs.as_mut_slice()) {
            Ok(row) => {
                self.row.clear();
                self.output.put(Signal::Next(row));
                Ok(())
            }
            Err(NoMemory) => Err(NotMade::NoMemory),
        }
    }

    /// Makes a row, where one can be made, and hands it out at once.
    #[inline(always)]
    fn step_item<O: Ops<Item = T>>(
        &mut self,
        alloc: Global,
        ops: &O,
        asked: u64,
        sent: u64,
    ) -> Option<T> {
        if !self.output.is_empty() || sent >= asked {
            return None;
        }
        self.row.next_row(alloc, ops, self.inputs.as_mut_slice())
    }

    fn want(&self, input: u64, asked: u64, sent: u64) -> u64 {
        credits_at(self.inputs.as_slice(), input)
    }

    #[inline(always)]
    fn accepts_demand(&self, asked: u64, sent: u64) -> bool {
        true
    }

    fn note(&self, alloc: Global) -> Result<Note, NoMemory> {
        Ok(Note::Ended(self.chosen))
    }

    #[tactic(auto, using(crate::proofs::Zips::rest_out))]
    fn residual<O: Ops<Item = T>>(
        &self,
        alloc: Global,
        ops: &O,
        inboxes: &[StreamValue<T>],
        incoming: &[StreamValue<T>],
    ) -> Result<StreamValue<T>, NoMemory>
        ensures { IfOk result (λ v.
            IsResidualOf (zip_comes_out (O.meaning ops.now)) zip_recorded (λ n. None) self.now inboxes.now incoming.now v) }
    {
        let mut values = Vec::new(alloc);
        values.push_lefts(alloc, ops, self.inputs.as_slice(), incoming)?;
        match values.zip(alloc, ops, None)? {
            Some(rest) => self.output.in_front(alloc, ops, rest),
            None => unreachable!(),
        }
    }

    ghost shows = { λ m n. refl };

    ghost popped_alike = { zip_popped_alike };

    ghost drops = { zip_drops };

    ghost ends = { zip_ends };

    ghost done_drops = { zip_done_drops };

    ghost ends_reading = { λ m n s w e. refl };

    ghost settles = { zip_settles };

    ghost ending_waits = { zip_ending_waits };

    ghost hungry = { zip_hungry };

    ghost asked_enough = { λ n a s e. absurd (true≢false e) };
}
