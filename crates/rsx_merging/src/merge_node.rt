//! The merge of several inputs.

ghost use Rattle.std.specs.Prelude.{◌≡◌};
ghost use Rattle.rsx_queued.specs.Output.{first_output};

use rsx_queued::{
    InFront, Output, QueuedInput, ToPick, are_gone, credits_at, first_output, front_at, front_of,
    takes_at, waiting_at,
};
use rsx_sources::{Front, Machine, NotMade, NotTaken, Passed};
use rsx_types::{NoMemory, Note, Ops, Signal, StreamValue};
use rsx_values::{Record, Run, merge_inputs};
use std::alloc::Global;

/// The items of its inputs, in the order in which they are picked. It completes when the completions of all inputs were picked,
/// and fails when a failure is picked.
///
/// Any order is right. [`next_pick`](Machine::next_pick) names the lowest-numbered input that can be picked, so that choices of
/// the same input stand together; a pick that is one more of the last run takes no memory.
#[derive(Drop)]
pub struct MergeNode<T> {
    /// What came in at each input and was not picked yet.
    pub inputs: Vec<QueuedInput<T>>,
    /// What it has put out and its receiver has not taken yet.
    pub output: Output<T>,
    /// The choices made.
    pub choices: Record,
}

impl<T: Drop> MergeNode<T> {
    ghost use Rattle.std.specs.Prelude.{◌≡◌, ◌≤◌, ℕ, List, [], ◌∷◌, true, Some, slice_get, option_map, IfOk, IfSome};
    ghost use Rattle.std.proofs.Math.ListN.{replicate};
    ghost use Rattle.rsx_types.specs.Meaning.{Meaning};
    ghost use Rattle.rsx_types.specs.declared.note.Note.{Note as NoteSpec};
    ghost use Rattle.rsx_sources.specs.Machine.{Incoming, front_of};
    ghost use Rattle.rsx_sources.specs.declared.machine.Front.TheVariants.{Item};
    ghost use Rattle.rsx_prefetch.specs.declared.TheConstants.{LARGEST};
    ghost use Rattle.rsx_values.specs.Merge.{merge};
    ghost use Rattle.rsx_queued.specs.Input.{fresh_input};
    ghost use Rattle.rsx_queued.specs.Values.{first_values};
    ghost use Rattle.rsx_queued.specs.Inputs.{next_signal_at, picked};
    ghost use Rattle.rsx_merging.specs.Merge.{merge_comes_out, merge_counted, merge_picks, merge_queued, merges_through, after_all_merged};

    /// The merge of so many inputs, each with a queue of this capacity, 1 to [`LARGEST`](rsx_prefetch::LARGEST). That of no inputs
    /// completes at once.
    ///
    /// # Errors
    /// [`NoMemory`] where a growth was refused.
    #[tactic(auto, using(std::proofs::lemmas::List::replicate_more, crate::proofs::Fresh::fresh_merge, crate::proofs::Fresh::fresh_going))]
    pub fn new(alloc: Global, inputs: u32, capacity: usize) -> Result<MergeNode<T>, NoMemory>
        requires positive { 1 ≤ capacity }
        requires within { capacity ≤ LARGEST }
        ensures fresh { IfOk result (λ n. (m : Meaning T) (inc : Incoming T) (further : NoteSpec) →
            merge_comes_out m n inc further ≡ picked further (λ cs. merge cs (first_values inputs (inc.first ∷ inc.others)))) }
        ensures counted { IfOk result (λ n. 1 ≤ inputs → merge_counted n (replicate inputs 0) 0) }
        ensures inputs { IfOk result (λ n. n.inputs.items ≡ replicate inputs (fresh_input capacity)) }
        ensures output { IfOk result (λ n. n.output ≡ first_output inputs) }
        ensures choices { IfOk result (λ n. n.choices ≡ []) }
    {
        let mut row = Vec::new(alloc);
        for _ in 0..inputs {
            row.push(QueuedInput::new(alloc, capacity)?)?;
        }
        Ok(MergeNode {
            inputs: row,
            output: first_output(inputs),
            choices: Record::new(alloc),
        })
    }

    /// How many signals of this input wait to be picked, its ending too. None where there is no such input.
    pub fn queued_at(&self, input: u64) -> Option<u64>
        ensures { result ≡ merge_queued self.now input }
    {
        waiting_at(self.inputs.as_slice(), input)
    }

    /// The choices made, as runs. It takes no memory.
    pub fn records(&self) -> &[Run]
        ensures { result.now ≡ self.now.choices }
    {
        self.choices.runs()
    }

    /// Whether so many items of an input can go through, one after the other, so that taking in, picking and sending each takes no
    /// memory: nothing waits to go out, the input takes an item and has none yet, and the choices are all more of the last run.
    pub fn merges_through(&self, input: u64, items: u64) -> bool
        ensures { result ≡ merges_through self.now input items }
    {
        self.output.is_empty()
            && takes_at(self.inputs.as_slice(), input, Front::Item)
            && front_at(self.inputs.as_slice(), input).is_none()
            && items <= self.choices.room_of_last(input)
    }

    /// Counts so many items as gone through from an input: what taking in, picking and sending one after the other leaves. It takes
    /// no memory. What the inputs hold and what waits to go out stay as they are.
    pub fn count_merged(&mut self, input: u64, items: u64)
        requires { merges_through self.old input items ≡ true }
        ensures { self.new ≡ after_all_merged self.old input items }
    {
        if items == 0 {
            return;
        }
        self.inputs[input as usize].queue.count_passed(items);
        self.choices.push_times(input, items);
    }

    /// The lowest-numbered input that can be picked, where an item is next there.
    fn next_item(&self, asked: u64, sent: u64) -> Option<u64>
        ensures picks { IfSome result (λ i. merge_picks self.now i asked sent ≡ true) }
        ensures item { IfSome result (λ i. option_map front_of (next_signal_at (slice_get self.now.inputs.items i)) ≡ Some Item) }
    {
        if sent >= asked || !self.output.is_empty() {
            return None;
        }
        for place in 0..self.inputs.len() {
            match front_at(self.inputs.as_slice(), place as u64) {
                Some(Front::Item) => return Some(place as u64),
                Some(_) => return None,
                None => {}
            }
        }
        None
    }
}

impl<T: Drop> Machine for MergeNode<T> {
    type Item = T;

    ghost use Rattle.std.specs.Prelude.{◌≡◌, ⊤, true, false, refl, None, IfOk, IfErr, IsOk, OnOk, OnErr};
    ghost use Rattle.rsx_types.specs.Notes.{note_then};
    ghost use Rattle.rsx_sources.specs.Counts.{CountsIn, CountsOut, CountsStep};
    ghost use Rattle.rsx_sources.specs.Machine.{TakesIn, Records, IsComposed, front_of};
    ghost use Rattle.rsx_sources.specs.Reading.{IsReadOn, IsResidualOf};
    ghost use Rattle.rsx_sources.specs.Steps.{IsPopped, IsNotTaken, IsNotMade};
    ghost use Rattle.rsx_values.specs.Record.{joins_last};
    ghost use Rattle.rsx_merging.specs.MergeLaws.{merge_drops, merge_ends, merge_done_drops, merge_settles, merge_ending_waits, merge_hungry};
    ghost use Rattle.rsx_merging.specs.Merge.{merge_comes_out, merge_waiting, merge_shown, merge_takes, merge_picks, merge_recording, merge_recorded, merge_ended, merge_done, merge_counted, merge_wanted, merge_popped};
    ghost use Rattle.rsx_merging.specs.declared.merge_node.MergeNode.{MergeNode};
    ghost use Rattle.std.proofs.lemmas.Bool.{true≢false};

    ghost comes_out = { merge_comes_out };

    ghost waiting = { merge_waiting };

    ghost shown = { merge_shown };

    ghost takes = { merge_takes };

    ghost picks = { merge_picks };

    ghost rows = { λ n a s. false };

    ghost rowed = { λ n a s k. ⊥ };

    ghost took = { λ n i s new. ⊤ };

    ghost heard = { λ n s new. ⊤ };

    ghost picked = { λ n i new. ⊤ };

    ghost recording = { merge_recording };

    ghost recorded = { merge_recorded };

    ghost popping = { λ n. None };

    ghost ended = { merge_ended };

    ghost done = { merge_done };

    ghost counted = { merge_counted };

    ghost wanted = { merge_wanted };

    ghost accepts = { λ n a s. true };

    ghost popped = { merge_popped };

    ghost reads = { λ n. None };

    ghost rooms = { λ n. false };

    ghost crosses = { λ n. false };

    ghost pop_allocates = { λ a n. false };

    ghost signal_allocates = { λ a n. false };

    ghost step_allocates = { λ a n. true };

    fn front(&self) -> Option<Front> {
        self.output.front()
    }

    fn pop_front<O: Ops<Item = T>>(
        &mut self,
        alloc: Global,
        ops: &O,
    ) -> Result<Option<Signal<T>>, NoMemory>
        ensures ok { IfOk result (λ s.
            IsPopped (merge_comes_out (O.meaning ops.now)) merge_popped (merge_waiting (O.meaning ops.now) self.old) self.old s self.new) }
        ensures recorded { merge_recorded self.new ≡ merge_recorded self.old }
        ensures counts { IfOk result (λ s. CountsOut merge_counted merge_ended merge_done self.old s self.new) }
        ensures err { OnErr result (self.new ≡ self.old) }
        ensures memory { IsOk result }
    {
        Ok(self.output.pop())
    }

    fn records_pop(&self) -> bool {
        false
    }

    fn put_back(&mut self, signal: Signal<T>)
        ensures { (before : MergeNode T) → merge_popped before signal self.old → self.new ≡ before }
    {
        self.output.put_back(signal);
    }

    fn has_ended(&self) -> bool {
        self.output.has_ending()
    }

    fn can_take(&self, input: u64, front: Front) -> bool {
        takes_at(self.inputs.as_slice(), input, front)
    }

    fn on_signal<O: Ops<Item = T>>(
        &mut self,
        alloc: Global,
        ops: &O,
        input: u64,
        signal: Signal<T>,
    ) -> Result<(), NotTaken<T>>
        ensures ok { OnOk result (TakesIn (merge_comes_out (O.meaning ops.now)) self.old input signal self.new) }
        ensures enabled { OnOk result (merge_takes self.old input (front_of signal) ≡ true) }
        ensures recorded { merge_recorded self.new ≡ merge_recorded self.old }
        ensures counts { OnOk result (CountsIn merge_counted merge_ended merge_done self.old input signal self.new) }
        ensures err { IfErr result (IsNotTaken (merge_takes self.old input (front_of signal)) signal) }
        ensures memory { IfErr result (λ e. e ≡ NotTaken.Busy signal) }
        ensures same { OnErr result (self.new ≡ self.old) }
    {
        if !self.can_take(input, front_of(&signal)) {
            return Err(NotTaken::Busy(signal));
        }
        self.inputs[input as usize].put(signal);
        Ok(())
    }

    fn pop_item<O: Ops<Item = T>>(&mut self, alloc: Global, ops: &O) -> Option<T> {
        self.output.pop_item()
    }

    fn pass<O: Ops<Item = T>>(&mut self, alloc: Global, ops: &O, input: u64, item: T) -> Passed<T> {
        if self.has_ended() || !self.can_take(input, Front::Item) {
            return Passed::Declined(item);
        }
        self.inputs[input as usize].put(Signal::Next(item));
        Passed::Kept
    }

    fn hub(&self) -> Option<u64> {
        None
    }

    fn has_room(&self) -> bool {
        false
    }

    fn on_published(&mut self, signal: Signal<T>) -> Result<(), Signal<T>>
        ensures ok { OnOk result (IsReadOn merge_comes_out (λ n. None) self.old signal self.new) }
        ensures enabled { OnOk result (false ≡ true) }
        ensures recorded { merge_recorded self.new ≡ merge_recorded self.old }
        ensures counts { OnOk result (CountsStep merge_counted merge_ended merge_done self.old self.new) }
        ensures err { IfErr result (λ s. s ≡ signal) }
        ensures same { OnErr result (self.new ≡ self.old) }
    {
        Err(signal)
    }

    fn can_pick(&self, input: u64, asked: u64, sent: u64) -> bool {
        if !self.output.is_empty() {
            return false;
        }
        match front_at(self.inputs.as_slice(), input) {
            Some(Front::Item) => sent < asked,
            Some(Front::Completion) | Some(Front::Failure(_)) => true,
            None => false,
        }
    }

    fn next_pick(&self, asked: u64, sent: u64) -> Option<u64> {
        for at in 0..self.inputs.len() {
            if self.can_pick(at as u64, asked, sent) {
                return Some(at as u64);
            }
        }
        None
    }

    fn on_pick<O: Ops<Item = T>>(
        &mut self,
        alloc: Global,
        ops: &O,
        input: u64,
        asked: u64,
        sent: u64,
    ) -> Result<(), NotMade>
        ensures ok { OnOk result (Records (merge_comes_out (O.meaning ops.now)) self.old (merge_recording self.old input) self.new) }
        ensures enabled { OnOk result (merge_picks self.old input asked sent ≡ true) }
        ensures recorded { OnOk result (merge_recorded self.new ≡ note_then (merge_recorded self.old) (merge_recording self.old input)) }
        ensures composes { OnOk result (IsComposed (merge_recorded self.old) (merge_recording self.old input)) }
        ensures counts { OnOk result (CountsStep merge_counted merge_ended merge_done self.old self.new) }
        ensures err { IfErr result (IsNotMade (merge_picks self.old input asked sent)) }
        ensures same { OnErr result (self.new ≡ self.old) }
        // A pick that is one more of the last run takes no memory.
        ensures joined { joins_last self.old.choices input ≡ true → IfErr result (λ e. e ≡ NotMade.NotEnabled) }
    {
        if !self.can_pick(input, asked, sent) {
            return Err(NotMade::NotEnabled);
        }
        let at = input as usize;
        if let Err(_) = self.choices.push(input) {
            return Err(NotMade::NoMemory);
        }
        match self.inputs[at].take() {
            Some(Signal::Next(item)) => {
                self.output.put(Signal::Next(item));
                Ok(())
            }
            Some(Signal::Complete) => {
                if are_gone(self.inputs.as_slice()) {
                    self.output.put(Signal::Complete);
                    return Ok(());
                }
                Ok(())
            }
            Some(Signal::Error(cause)) => {
                // Nothing can be picked any more, so what waits is dropped.
                self.inputs.clear();
                self.output.put(Signal::Error(cause));
                Ok(())
            }
            None => unreachable!(),
        }
    }

    fn can_row(&self, asked: u64, sent: u64) -> bool {
        false
    }

    fn on_row<O: Ops<Item = T>>(
        &mut self,
        alloc: Global,
        ops: &O,
        asked: u64,
        sent: u64,
    ) -> Result<(), NotMade> {
        Err(NotMade::NotEnabled)
    }

    /// Picks the input that `next_pick` names, where an item is next there.
    fn step_item<O: Ops<Item = T>>(
        &mut self,
        alloc: Global,
        ops: &O,
        asked: u64,
        sent: u64,
    ) -> Option<T> {
        let input = match self.next_item(asked, sent) {
            Some(input) => input,
            None => return None,
        };
        if self.choices.push(input).is_err() {
            return None;
        }
        match self.inputs[input as usize].take() {
            Some(Signal::Next(item)) => Some(item),
            Some(Signal::Complete) | Some(Signal::Error(_)) | None => unreachable!(),
        }
    }

    fn want(&self, input: u64, asked: u64, sent: u64) -> u64 {
        credits_at(self.inputs.as_slice(), input)
    }

    #[inline(always)]
    fn accepts_demand(&self, asked: u64, sent: u64) -> bool {
        true
    }

    fn note(&self, alloc: Global) -> Result<Note, NoMemory> {
        let choices = self.choices.choices(alloc)?;
        Ok(Note::Picks(choices))
    }

    fn residual<O: Ops<Item = T>>(
        &self,
        alloc: Global,
        ops: &O,
        inboxes: &[StreamValue<T>],
        incoming: &[StreamValue<T>],
    ) -> Result<StreamValue<T>, NoMemory>
        ensures { IfOk result (λ v.
            IsResidualOf (merge_comes_out (O.meaning ops.now)) merge_recorded (λ n. None) self.now inboxes.now incoming.now v) }
    {
        let mut left = Vec::new(alloc);
        left.push_inputs(alloc, ops, 0, self.inputs.as_slice(), incoming)?;
        match merge_inputs(alloc, left, &[])? {
            Some(rest) => self.output.in_front(alloc, ops, rest),
            None => unreachable!(),
        }
    }

    ghost shows = { λ m n. refl };

    ghost popped_alike = { λ old s new h. (refl, (refl, λ a. (refl, refl, refl))) };

    ghost drops = { merge_drops };

    ghost ends = { merge_ends };

    ghost done_drops = { merge_done_drops };

    ghost ends_reading = { λ m n s w e. refl };

    ghost settles = { merge_settles };

    ghost ending_waits = { merge_ending_waits };

    ghost hungry = { merge_hungry };

    ghost asked_enough = { λ n a s e. absurd (true≢false e) };
}
