//! The combineLatest of several inputs.

ghost use Rattle.std.specs.Prelude.{◌≡◌, option_map};
ghost use Rattle.rsx_sources.specs.Machine.{front_of};
ghost use Rattle.rsx_queued.specs.Output.{first_output};
ghost use Rattle.rsx_combining.specs.Latest.{LatestState};

use crate::latest_items::{ItemRows, LatestItems};
use crate::latest_rows::LatestRows;
use rsx_prefetch::LARGEST;
use rsx_queued::{
    InFront, Output, QueuedInput, ToPick, are_gone, credits_at, first_output, front_at, front_of,
    takes_at, waiting_at,
};
use rsx_sources::{Front, Machine, NotMade, NotTaken, Passed};
use rsx_types::{NoMemory, Note, Ops, Signal, StreamValue};
use rsx_values::{Latest, Record, Run};
use std::alloc::Global;
use std::marker::Model;

/// Rows of the latest items of its inputs: one at each item that is picked, once every input has had one. Contracts see its
/// inputs and their latest items as lists, what it has put out, and the choices made, as runs.
///
/// It completes where all inputs did, or one without any item, and fails as an input does whose failure is picked.
#[derive(Drop)]
pub struct CombineLatestNode<T> {
    inputs: Vec<QueuedInput<T>>,
    latest: LatestItems<T>,
    output: Output<T>,
    choices: Record,
}

impl<T> Model for CombineLatestNode<T> {
    ghost use Rattle.std.specs.Prelude.{◌≡◌, length};
    ghost use Rattle.rsx_combining.specs.Latest.{LatestState};

    ghost Value = { LatestState T };

    ghost view = { λ n. record { inputs = n.inputs.items; latest = n.latest; output = n.output; choices = n.choices } };

    ghost invariant = { λ n. length n.inputs.items ≡ length n.latest };
}

impl<T: Drop> CombineLatestNode<T> {
    ghost use Rattle.std.specs.Prelude.{◌≡◌, ◌≤◌, ◌<◌, ◌||◌, true, false, [], List, None, Some, length, slice_get, IfOk, IfSome};
    ghost use Rattle.rsx_values.specs.Latest.{is_itemless};
    ghost use Rattle.std.proofs.Math.ListN.{replicate};
    ghost use Rattle.rsx_prefetch.specs.declared.TheConstants.{LARGEST};
    ghost use Rattle.rsx_queued.specs.Input.{fresh_input};
    ghost use Rattle.rsx_queued.specs.Inputs.{are_gone, next_signal_at};
    ghost use Rattle.rsx_queued.specs.Output.{is_empty};
    ghost use Rattle.rsx_combining.specs.Latest.{GivesLatest, IsLatestCounted, after_pick, gives_row, latest_queued, row_is_next};
    ghost use Rattle.rsx_combining.specs.LatestRows.{after_rows, is_zero, last_item, rows_counted, rows_through};

    /// The combineLatest of so many inputs, each with a queue for so many items, 1 to [`LARGEST`]. That of no inputs completes
    /// at once.
    ///
    /// # Errors
    /// [`NoMemory`] where a growth was refused.
    #[tactic(auto, using(std::proofs::lemmas::List::replicate_more, crate::proofs::Fresh::long))]
    pub fn new(
        alloc: Global,
        inputs: u32,
        capacity: usize,
    ) -> Result<CombineLatestNode<T>, NoMemory>
        requires positive { 1 ≤ capacity }
        requires within { capacity ≤ LARGEST }
        ensures inputs { IfOk result (λ n. n.inputs ≡ replicate inputs (fresh_input capacity)) }
        ensures latest { IfOk result (λ n. n.latest ≡ replicate inputs None) }
        ensures output { IfOk result (λ n. n.output ≡ first_output inputs) }
        ensures choices { IfOk result (λ n. n.choices ≡ []) }
        ensures fresh { IfOk result (λ n. GivesLatest n inputs) }
        ensures counted { IfOk result (λ n. 1 ≤ inputs → IsLatestCounted n (replicate inputs 0) 0) }
    {
        let mut queues = Vec::new(alloc);
        for _ in 0..inputs {
            queues.push(QueuedInput::new(alloc, capacity)?)?;
        }
        let latest = LatestItems::new(alloc, inputs)?;
        Ok(CombineLatestNode {
            inputs: queues,
            latest,
            output: first_output(inputs),
            choices: Record::new(alloc),
        })
    }

    /// How many signals of this input wait to be picked, its ending too. None where there is no such input.
    pub fn queued_at(&self, input: u64) -> Option<u64>
        ensures { result ≡ latest_queued self.now input }
    {
        waiting_at(self.inputs.as_slice(), input)
    }

    /// The choices made, as runs. It takes no memory.
    pub fn records(&self) -> &[Run]
        ensures { result.now ≡ self.now.choices }
    {
        self.choices.runs()
    }

    /// Whether so many items of this input go through one after the other, each as a row: nothing waits, each of them gives a
    /// row, and the choices of them are more of the last run.
    pub fn rows_through(&self, input: u64, items: u64) -> bool
        ensures { result ≡ rows_through self.now input items }
    {
        self.output.is_empty()
            && takes_at(self.inputs.as_slice(), input, Front::Item)
            && self.none_waits(input)
            && self.latest.gives_row(input)
            && items <= self.choices.room_of_last(input)
    }

    /// Counts so many items of the input, of which this is the last, as taken in and picked, and their rows as sent: what is
    /// left of the node where each came in and its row went out, one after the other. It takes no memory.
    pub fn count_rows(&mut self, input: u64, items: u64, last: T)
        requires { rows_through self.old input items ≡ true }
        ensures state { self.new ≡ rows_counted self.old input items last }
        ensures rows { (xs : List T) → length xs ≡ items → last_item xs ≡ Some last → self.new ≡ after_rows self.old input xs }
    {
        let at = input as usize;
        self.inputs[at].queue.count_passed(items);
        self.latest.keep(at, last);
        self.choices.push_times(input, items);
    }

    /// Whether this input is there and no signal waits there.
    fn none_waits(&self, input: u64) -> bool
        ensures { result ≡ is_zero (latest_queued self.now input) }
    {
        match self.queued_at(input) {
            Some(waiting) => waiting == 0,
            None => false,
        }
    }

    /// Whether the completion of this input ends the node: the input had no item, or no other input is left.
    fn completes(&self, at: usize) -> bool
        ensures { result ≡ is_itemless (slice_get self.now.latest at) || are_gone self.now.inputs }
    {
        !self.latest.has_item(at) || are_gone(self.inputs.as_slice())
    }

    /// Whether an item is next at this input that gives a row.
    #[inline]
    fn row_is_next(&self, input: u64) -> bool
        ensures { result ≡
            row_is_next (next_signal_at (slice_get self.now.inputs input)) (gives_row self.now.latest input) }
    {
        match front_at(self.inputs.as_slice(), input) {
            Some(Front::Item) => self.latest.gives_row(input),
            Some(Front::Completion) | Some(Front::Failure(_)) | None => false,
        }
    }

    /// Takes the next signal of this input, which gives no row, and puts out what it gives.
    fn take_picked(&mut self, at: usize)
        requires free { is_empty self.old.output ≡ true }
        requires there { at < length self.old.inputs }
        requires no_row { row_is_next (next_signal_at (slice_get self.old.inputs at)) (gives_row self.old.latest at) ≡ false }
        ensures { self.new ≡ after_pick self.old at None }
    {
        match self.inputs[at].take() {
            Some(Signal::Next(item)) => self.latest.put(at, item),
            Some(Signal::Complete) => {
                if self.completes(at) {
                    self.output.put(Signal::Complete);
                }
            }
            Some(Signal::Error(cause)) => self.output.put(Signal::Error(cause)),
            None => {}
        }
    }
}

/// Items of one input of a combineLatest as rows, many at once.
pub trait PassingRows<T: Drop> {
    /// What contracts see of the node.
    ghost node: { Self → LatestState T };

    ghost use Rattle.std.specs.Prelude.{◌≡◌, Some, true, length, IfSome};
    ghost use Rattle.rsx_combining.specs.LatestRows.{AreRows, last_item, rows_through};

    /// Puts into the place of each of these items of the input the row that it gives, one after the other, and answers the last
    /// item. The node stays as it is; [`CombineLatestNode::count_rows`] lets them go through.
    ///
    /// None where there is no item, where they don't go through ([`CombineLatestNode::rows_through`]), where an input has had
    /// no item yet, and where memory was refused. What `items` holds then is open.
    fn try_rows<O: Ops<Item = T>>(
        &self,
        alloc: Global,
        ops: &O,
        input: u64,
        items: &mut Vec<T>,
    ) -> Option<T>
        ensures through { IfSome result (λ last. rows_through (node self.now) input (length items.old.items) ≡ true) }
        ensures rows { IfSome result (λ last.
            AreRows (O.meaning ops.now).row_of (node self.now).latest input items.old.items items.new.items) }
        ensures last { IfSome result (λ last. last_item items.old.items ≡ Some last) };
}

impl<T: Drop> PassingRows<T> for CombineLatestNode<T> {
    ghost node = { λ n. n };

    fn try_rows<O: Ops<Item = T>>(
        &self,
        alloc: Global,
        ops: &O,
        input: u64,
        items: &mut Vec<T>,
    ) -> Option<T> {
        if items.is_empty() || !self.rows_through(input, items.len() as u64) {
            return None;
        }
        let mut latest = self.latest.all_copies(alloc, ops)?;
        latest.put_rows(alloc, ops, input as usize, items)
    }
}

impl<T: Drop> Machine for CombineLatestNode<T> {
    type Item = T;

    ghost use Rattle.std.specs.Prelude.{◌≡◌, ⊤, true, false, refl, None, IfOk, IfErr, OnOk, OnErr};
    ghost use Rattle.rsx_types.specs.Notes.{note_then};
    ghost use Rattle.rsx_sources.specs.Counts.{CountsIn, CountsStep};
    ghost use Rattle.rsx_sources.specs.Machine.{TakesIn, Keeps, Records, IsComposed, front_of};
    ghost use Rattle.rsx_sources.specs.Reading.{IsReadOn, IsResidualOf};
    ghost use Rattle.rsx_sources.specs.Passed.{IsPassed};
    ghost use Rattle.rsx_sources.specs.Steps.{IsNotTaken, IsNotMade, StaysAlike};
    ghost use Rattle.rsx_combining.specs.Latest.{LatestState, latest_comes_out, latest_waiting, latest_shown, latest_takes, latest_with_signal, IsLatestPassed, latest_picks, latest_recording, latest_recorded, latest_ended, latest_done, IsLatestCounted, latest_wanted, latest_popped};
    ghost use Rattle.rsx_combining.specs.LatestLaws.{latest_drops, latest_ends, latest_done_drops, latest_settles, latest_ending_waits, latest_hungry};
    ghost use Rattle.std.proofs.lemmas.Bool.{true≢false};

    ghost comes_out = { latest_comes_out };

    ghost waiting = { latest_waiting };

    ghost shown = { latest_shown };

    ghost takes = { latest_takes };

    ghost picks = { latest_picks };

    ghost rows = { λ n a s. false };

    ghost rowed = { λ n a s k. ⊥ };

    ghost took = { λ n i s new. new ≡ latest_with_signal n i s };

    ghost heard = { λ n s new. ⊤ };

    ghost picked = { λ n i new. ⊤ };

    ghost recording = { latest_recording };

    ghost recorded = { latest_recorded };

    ghost popping = { λ n. None };

    ghost ended = { latest_ended };

    ghost done = { latest_done };

    ghost counted = { IsLatestCounted };

    ghost wanted = { latest_wanted };

    ghost accepts = { λ n a s. true };

    ghost popped = { latest_popped };

    ghost reads = { λ n. None };

    ghost rooms = { λ n. false };

    ghost crosses = { λ n. false };

    ghost pop_allocates = { λ a n. false };

    ghost signal_allocates = { λ a n. false };

    ghost step_allocates = { λ a n. true };

    fn front(&self) -> Option<Front> {
        self.output.front()
    }

    fn pop_front<O: Ops<Item = T>>(
        &mut self,
        alloc: Global,
        ops: &O,
    ) -> Result<Option<Signal<T>>, NoMemory> {
        Ok(self.output.pop())
    }

    fn records_pop(&self) -> bool {
        false
    }

    fn put_back(&mut self, signal: Signal<T>)
        ensures { (before : LatestState T) → latest_popped before signal self.old → self.new ≡ before }
    {
        self.output.put_back(signal);
    }

    fn has_ended(&self) -> bool {
        self.output.has_ending()
    }

    fn can_take(&self, input: u64, front: Front) -> bool {
        takes_at(self.inputs.as_slice(), input, front)
    }

    fn on_signal<O: Ops<Item = T>>(
        &mut self,
        alloc: Global,
        ops: &O,
        input: u64,
        signal: Signal<T>,
    ) -> Result<(), NotTaken<T>>
        ensures ok { OnOk result (TakesIn (latest_comes_out (O.meaning ops.now)) self.old input signal self.new) }
        ensures made { OnOk result (self.new ≡ latest_with_signal self.old input signal) }
        ensures enabled { OnOk result (latest_takes self.old input (front_of signal) ≡ true) }
        ensures recorded { latest_recorded self.new ≡ latest_recorded self.old }
        ensures counts { OnOk result (CountsIn IsLatestCounted latest_ended latest_done self.old input signal self.new) }
        ensures err { IfErr result (IsNotTaken (latest_takes self.old input (front_of signal)) signal) }
        ensures memory { IfErr result (λ e. e ≡ NotTaken.Busy signal) }
        ensures same { OnErr result (self.new ≡ self.old) }
    {
        if !self.can_take(input, front_of(&signal)) {
            return Err(NotTaken::Busy(signal));
        }
        self.inputs[input as usize].put(signal);
        Ok(())
    }

    fn pop_item<O: Ops<Item = T>>(&mut self, alloc: Global, ops: &O) -> Option<T> {
        self.output.pop_item()
    }

    fn pass<O: Ops<Item = T>>(&mut self, alloc: Global, ops: &O, input: u64, item: T) -> Passed<T>
        ensures passed { IsPassed (latest_comes_out (O.meaning ops.now)) (latest_waiting (O.meaning ops.now))
            latest_takes latest_popped latest_recorded IsLatestCounted latest_ended latest_done self.old input item result self.new }
        ensures made { IsLatestPassed self.old input item result self.new }
        ensures alike { StaysAlike (λ n. None) (λ n. false) (λ a n. false) (λ a n. false) (λ a n. true) self.old self.new }
    {
        if self.has_ended() || !self.can_take(input, Front::Item) {
            return Passed::Declined(item);
        }
        self.inputs[input as usize].put(Signal::Next(item));
        Passed::Kept
    }

    fn hub(&self) -> Option<u64> {
        None
    }

    fn has_room(&self) -> bool {
        false
    }

    fn on_published(&mut self, signal: Signal<T>) -> Result<(), Signal<T>>
        ensures ok { OnOk result (IsReadOn latest_comes_out (λ n. None) self.old signal self.new) }
        ensures enabled { OnOk result (false ≡ true) }
        ensures err { IfErr result (λ s. s ≡ signal) }
        ensures same { OnErr result (self.new ≡ self.old) }
    {
        Err(signal)
    }

    fn can_pick(&self, input: u64, asked: u64, sent: u64) -> bool {
        if !self.output.is_empty() {
            return false;
        }
        match front_at(self.inputs.as_slice(), input) {
            Some(Front::Item) => sent < asked || !self.latest.gives_row(input),
            Some(Front::Completion) | Some(Front::Failure(_)) => true,
            None => false,
        }
    }

    fn next_pick(&self, asked: u64, sent: u64) -> Option<u64> {
        for at in 0..self.inputs.len() {
            if self.can_pick(at as u64, asked, sent) {
                return Some(at as u64);
            }
        }
        None
    }

    fn on_pick<O: Ops<Item = T>>(
        &mut self,
        alloc: Global,
        ops: &O,
        input: u64,
        asked: u64,
        sent: u64,
    ) -> Result<(), NotMade>
        ensures ok { OnOk result (Records (latest_comes_out (O.meaning ops.now)) self.old (latest_recording self.old input) self.new) }
        ensures enabled { OnOk result (latest_picks self.old input asked sent ≡ true) }
        ensures recorded { OnOk result
            (latest_recorded self.new ≡ note_then (latest_recorded self.old) (latest_recording self.old input)) }
        ensures composes { OnOk result (IsComposed (latest_recorded self.old) (latest_recording self.old input)) }
        ensures counts { OnOk result (CountsStep IsLatestCounted latest_ended latest_done self.old self.new) }
        ensures err { IfErr result (IsNotMade (latest_picks self.old input asked sent)) }
        ensures same { OnErr result (self.new ≡ self.old) }
    {
        if !self.can_pick(input, asked, sent) {
            return Err(NotMade::NotEnabled);
        }
        let at = input as usize;
        if self.row_is_next(input) {
            return match self
                .latest
                .row_of_next(alloc, ops, &mut self.choices, at, &mut self.inputs[at])
            {
                Ok(row) => {
                    self.output.put(Signal::Next(row));
                    Ok(())
                }
                Err(NoMemory) => Err(NotMade::NoMemory),
            };
        }
        if let Err(_) = self.choices.push(input) {
            return Err(NotMade::NoMemory);
        }
        self.take_picked(at);
        Ok(())
    }

    fn can_row(&self, asked: u64, sent: u64) -> bool {
        false
    }

    fn on_row<O: Ops<Item = T>>(
        &mut self,
        alloc: Global,
        ops: &O,
        asked: u64,
        sent: u64,
    ) -> Result<(), NotMade> {
        Err(NotMade::NotEnabled)
    }

    /// Picks the input that `next_pick` names, where an item is next there that gives a row. `on_pick` makes the first row of
    /// all, so as long as no item gives one there is nothing to look for.
    fn step_item<O: Ops<Item = T>>(
        &mut self,
        alloc: Global,
        ops: &O,
        asked: u64,
        sent: u64,
    ) -> Option<T> {
        if !self.latest.had_row() {
            return None;
        }
        let input = match self.next_pick(asked, sent) {
            Some(input) => input,
            None => return None,
        };
        if !self.row_is_next(input) {
            return None;
        }
        let at = input as usize;
        if let Ok(row) = self
            .latest
            .row_of_next(alloc, ops, &mut self.choices, at, &mut self.inputs[at])
        {
            return Some(row);
        }
        None
    }

    fn want(&self, input: u64, asked: u64, sent: u64) -> u64 {
        credits_at(self.inputs.as_slice(), input)
    }

    #[inline(always)]
    fn accepts_demand(&self, asked: u64, sent: u64) -> bool {
        true
    }

    fn note(&self, alloc: Global) -> Result<Note, NoMemory> {
        let choices = self.choices.choices(alloc)?;
        Ok(Note::Picks(choices))
    }

    fn residual<O: Ops<Item = T>>(
        &self,
        alloc: Global,
        ops: &O,
        inboxes: &[StreamValue<T>],
        incoming: &[StreamValue<T>],
    ) -> Result<StreamValue<T>, NoMemory>
        ensures { IfOk result (λ v.
            IsResidualOf (latest_comes_out (O.meaning ops.now)) latest_recorded (λ n. None) self.now inboxes.now incoming.now v) }
    {
        let mut inputs = Vec::new(alloc);
        inputs.push_inputs(alloc, ops, 0, self.inputs.as_slice(), incoming)?;
        let mut latest = self.latest.copies(alloc, ops)?;
        match latest.combine(alloc, ops, inputs, &[])? {
            Some(rest) => self.output.in_front(alloc, ops, rest),
            None => unreachable!(),
        }
    }

    ghost shows = { λ m n. refl };

    ghost popped_alike = { λ old s new h. (refl, (refl, λ a. (refl, refl, refl))) };

    ghost drops = { latest_drops };

    ghost ends = { latest_ends };

    ghost done_drops = { latest_done_drops };

    ghost ends_reading = { λ m n s w e. refl };

    ghost settles = { latest_settles };

    ghost ending_waits = { latest_ending_waits };

    ghost hungry = { latest_hungry };

    ghost asked_enough = { λ n a s e. absurd (true≢false e) };
}
