//! The concat of several inputs.

ghost use Rattle.std.specs.Prelude.{◌≡◌, ◌≤◌, length};
ghost use Rattle.rsx_merging.specs.Concat.{turn, ending_out};

use crate::behind::LeftBehind;
use rsx_demand::saturating_total;
use rsx_queued::{Output, front_of};
use rsx_sources::{Front, Machine, NotMade, NotTaken, Passed};
use rsx_types::{Ending, NoMemory, Note, Ops, Signal, StreamValue};
use std::alloc::Global;

/// The items of its first input and, behind its completion, those of the next. It completes when all inputs have completed, and
/// fails when an input fails whose turn it is.
///
/// It takes an item of the input whose turn it is alone, and asks no other. An ending that comes in early is kept until the turn
/// of its input.
#[derive(Drop)]
pub struct ConcatNode<T> {
    /// How each input has ended so far.
    pub endings: Vec<Ending>,
    /// What it has put out and its receiver has not taken yet.
    pub output: Output<T>,
    /// How many items it got from the inputs before the one whose turn it is. The count stops at 2^63 - 1.
    pub earlier: u64,
    /// How many it got from that one. The count stops at 2^63 - 1.
    pub current: u64,
}

/// The number of the input whose turn it is: the first that isn't done.
fn turn(endings: &[Ending]) -> usize
    ensures turn { result ≡ turn endings.now }
    ensures within { result ≤ length endings.now }
{
    match endings.split_first() {
        Some((Ending::Done, others)) => 1 + turn(others),
        _ => 0,
    }
}

/// What the endings that came in put out: the failure of the input whose turn it is, or the completion where all are done.
fn ending_out<T: Drop>(endings: &[Ending]) -> Output<T>
    ensures { result ≡ ending_out endings.now }
{
    match endings.split_first() {
        Some((Ending::Open, _)) => Output::Empty,
        Some((Ending::Done, others)) => ending_out(others),
        Some((Ending::Failed(cause), _)) => Output::Waiting(Signal::Error(*cause)),
        None => Output::Waiting(Signal::Complete),
    }
}

impl<T: Drop> ConcatNode<T> {
    ghost use Rattle.std.specs.Prelude.{◌≡◌, ◌≤◌, ◌<◌, ◌∷◌, length, slice_set, IfOk};
    ghost use Rattle.std.proofs.Math.ListN.{replicate};
    ghost use Rattle.rsx_types.specs.Meaning.{Meaning};
    ghost use Rattle.rsx_types.specs.declared.note.Note.{Note as NoteSpec};
    ghost use Rattle.rsx_types.specs.declared.signal.Ending.TheVariants.{Open};
    ghost use Rattle.rsx_sources.specs.Machine.{Incoming, quiet};
    ghost use Rattle.rsx_values.specs.Concat.{concat};
    ghost use Rattle.rsx_queued.specs.Values.{first_values};
    ghost use Rattle.rsx_merging.specs.Concat.{concat_comes_out, ending_out, earlier_after, current_after, after_all_passed, IsInTurn};

    /// The concat of so many inputs. That of no inputs completes at once.
    ///
    /// # Errors
    /// [`NoMemory`] where a growth was refused.
    pub fn new(alloc: Global, inputs: u32) -> Result<ConcatNode<T>, NoMemory>
        ensures fresh { IfOk result (λ n. (m : Meaning T) (inc : Incoming T) (further : NoteSpec) →
            concat_comes_out m n inc further ≡ quiet further (concat (first_values inputs (inc.first ∷ inc.others)))) }
        ensures counted { IfOk result (λ n. 1 ≤ inputs → IsInTurn n (replicate inputs 0) 0) }
        ensures endings { IfOk result (λ n. n.endings.items ≡ replicate inputs Open) }
        ensures output { IfOk result (λ n. n.output ≡ ending_out (replicate inputs Open)) }
        ensures counts { IfOk result (λ n. (n.earlier ≡ 0) × (n.current ≡ 0)) }
    {
        let mut endings = Vec::new(alloc);
        for _ in 0..inputs {
            endings.push(Ending::Open)?;
        }
        let output = ending_out(&endings);
        Ok(ConcatNode {
            endings,
            output,
            earlier: 0,
            current: 0,
        })
    }

    /// Counts what was got from an input as got earlier, where it was its turn.
    fn count_earlier(&mut self, input: usize)
        ensures endings { self.new.endings ≡ self.old.endings }
        ensures output { self.new.output ≡ self.old.output }
        ensures earlier { self.new.earlier ≡ earlier_after self.old.endings.items input self.old.earlier self.old.current }
        ensures current { self.new.current ≡ current_after self.old.endings.items input self.old.current }
    {
        if turn(&self.endings) == input {
            self.earlier = saturating_total(self.earlier, self.current);
            self.current = 0;
        }
    }

    /// Counts so many items as got from the input whose turn it is: what [`Machine::pass`] counts when it is called for one after the
    /// other, and each of them goes through.
    pub fn count_passed(&mut self, items: u64)
        ensures { self.new ≡ after_all_passed self.old items }
    {
        if items == 0 {
            return;
        }
        self.current = saturating_total(self.current, items);
    }

    /// Notes how an input has ended.
    fn end(&mut self, input: usize, ending: Ending)
        requires { input < length self.old.endings.items }
        ensures endings { self.new.endings.items ≡ slice_set self.old.endings.items input ending }
        ensures output { self.new.output ≡ ending_out (slice_set self.old.endings.items input ending) }
        ensures earlier { self.new.earlier ≡ earlier_after self.old.endings.items input self.old.earlier self.old.current }
        ensures current { self.new.current ≡ current_after self.old.endings.items input self.old.current }
    {
        self.count_earlier(input);
        self.endings[input] = ending;
        self.output = ending_out(&self.endings);
    }
}

impl<T: Drop> Machine for ConcatNode<T> {
    type Item = T;

    ghost use Rattle.std.specs.Prelude.{◌≡◌, ⊤, true, false, refl, None, IfOk, IfErr, IsOk, OnOk, OnErr};
    ghost use Rattle.rsx_types.specs.declared.note.Note.TheVariants.{Nothing};
    ghost use Rattle.rsx_sources.specs.Counts.{CountsIn, CountsOut, CountsStep};
    ghost use Rattle.rsx_sources.specs.Machine.{TakesIn, front_of};
    ghost use Rattle.rsx_sources.specs.Reading.{IsReadOn, IsResidualOf};
    ghost use Rattle.rsx_sources.specs.Steps.{IsPopped, IsNotTaken};
    ghost use Rattle.rsx_merging.specs.ConcatLaws.{concat_drops, concat_ends, concat_done_drops, concat_settles, concat_ending_waits, concat_hungry};
    ghost use Rattle.rsx_merging.specs.Concat.{concat_comes_out, concat_waiting, concat_shown, concat_takes, concat_ended, concat_done, concat_wanted, concat_popped, IsInTurn};
    ghost use Rattle.rsx_merging.specs.declared.concat_node.ConcatNode.{ConcatNode};
    ghost use Rattle.std.proofs.lemmas.Bool.{true≢false};

    ghost comes_out = { concat_comes_out };

    ghost waiting = { concat_waiting };

    ghost shown = { concat_shown };

    ghost takes = { concat_takes };

    ghost picks = { λ n i a s. false };

    ghost rows = { λ n a s. false };

    ghost rowed = { λ n a s k. ⊥ };

    ghost took = { λ n i s new. ⊤ };

    ghost heard = { λ n s new. ⊤ };

    ghost picked = { λ n i new. ⊤ };

    ghost recording = { λ n i. Nothing };

    ghost recorded = { λ n. Nothing };

    ghost popping = { λ n. None };

    ghost ended = { concat_ended };

    ghost done = { concat_done };

    ghost counted = { IsInTurn };

    ghost wanted = { concat_wanted };

    ghost accepts = { λ n a s. true };

    ghost popped = { concat_popped };

    ghost reads = { λ n. None };

    ghost rooms = { λ n. false };

    ghost crosses = { λ n. false };

    ghost pop_allocates = { λ a n. false };

    ghost signal_allocates = { λ a n. false };

    ghost step_allocates = { λ a n. false };

    fn front(&self) -> Option<Front> {
        self.output.front()
    }

    fn pop_front<O: Ops<Item = T>>(
        &mut self,
        alloc: Global,
        ops: &O,
    ) -> Result<Option<Signal<T>>, NoMemory>
        ensures ok { IfOk result (λ s.
            IsPopped (concat_comes_out (O.meaning ops.now)) concat_popped (concat_waiting (O.meaning ops.now) self.old) self.old s self.new) }
        ensures counts { IfOk result (λ s. CountsOut IsInTurn concat_ended concat_done self.old s self.new) }
        ensures err { OnErr result (self.new ≡ self.old) }
        ensures memory { IsOk result }
    {
        Ok(self.output.pop())
    }

    fn records_pop(&self) -> bool {
        false
    }

    fn put_back(&mut self, signal: Signal<T>)
        ensures { (before : ConcatNode T) → concat_popped before signal self.old → self.new ≡ before }
    {
        self.output.put_back(signal);
    }

    fn has_ended(&self) -> bool {
        self.output.has_ending()
    }

    fn can_take(&self, input: u64, front: Front) -> bool {
        if !self.output.is_empty() {
            return false;
        }
        match self.endings.get(input as usize) {
            Some(Ending::Open) => match front {
                Front::Item => input as usize == turn(&self.endings),
                Front::Completion | Front::Failure(_) => true,
            },
            _ => false,
        }
    }

    fn on_signal<O: Ops<Item = T>>(
        &mut self,
        alloc: Global,
        ops: &O,
        input: u64,
        signal: Signal<T>,
    ) -> Result<(), NotTaken<T>>
        ensures ok { OnOk result (TakesIn (concat_comes_out (O.meaning ops.now)) self.old input signal self.new) }
        ensures enabled { OnOk result (concat_takes self.old input (front_of signal) ≡ true) }
        ensures counts { OnOk result (CountsIn IsInTurn concat_ended concat_done self.old input signal self.new) }
        ensures err { IfErr result (IsNotTaken (concat_takes self.old input (front_of signal)) signal) }
        ensures memory { IfErr result (λ e. e ≡ NotTaken.Busy signal) }
        ensures same { OnErr result (self.new ≡ self.old) }
    {
        if !self.can_take(input, front_of(&signal)) {
            return Err(NotTaken::Busy(signal));
        }
        match signal {
            Signal::Next(item) => {
                self.current = saturating_total(self.current, 1);
                self.output.put(Signal::Next(item));
                Ok(())
            }
            Signal::Complete => {
                self.end(input as usize, Ending::Done);
                Ok(())
            }
            Signal::Error(cause) => {
                self.end(input as usize, Ending::Failed(cause));
                Ok(())
            }
        }
    }

    fn pop_item<O: Ops<Item = T>>(&mut self, alloc: Global, ops: &O) -> Option<T> {
        self.output.pop_item()
    }

    fn pass<O: Ops<Item = T>>(&mut self, alloc: Global, ops: &O, input: u64, item: T) -> Passed<T> {
        if !self.can_take(input, Front::Item) {
            return Passed::Declined(item);
        }
        let counted = saturating_total(self.current, 1);
        self.current = counted;
        Passed::Item(item)
    }

    fn hub(&self) -> Option<u64> {
        None
    }

    fn has_room(&self) -> bool {
        false
    }

    fn on_published(&mut self, signal: Signal<T>) -> Result<(), Signal<T>>
        ensures ok { OnOk result (IsReadOn concat_comes_out (λ n. None) self.old signal self.new) }
        ensures enabled { OnOk result (false ≡ true) }
        ensures counts { OnOk result (CountsStep IsInTurn concat_ended concat_done self.old self.new) }
        ensures err { IfErr result (λ s. s ≡ signal) }
        ensures same { OnErr result (self.new ≡ self.old) }
    {
        Err(signal)
    }

    fn can_pick(&self, input: u64, asked: u64, sent: u64) -> bool {
        false
    }

    fn next_pick(&self, asked: u64, sent: u64) -> Option<u64> {
        None
    }

    fn on_pick<O: Ops<Item = T>>(
        &mut self,
        alloc: Global,
        ops: &O,
        input: u64,
        asked: u64,
        sent: u64,
    ) -> Result<(), NotMade> {
        Err(NotMade::NotEnabled)
    }

    fn can_row(&self, asked: u64, sent: u64) -> bool {
        false
    }

    fn on_row<O: Ops<Item = T>>(
        &mut self,
        alloc: Global,
        ops: &O,
        asked: u64,
        sent: u64,
    ) -> Result<(), NotMade> {
        Err(NotMade::NotEnabled)
    }

    fn want(&self, input: u64, asked: u64, sent: u64) -> u64 {
        if input as usize == turn(&self.endings) {
            return asked.saturating_sub(self.earlier);
        }
        0
    }

    #[inline(always)]
    fn accepts_demand(&self, asked: u64, sent: u64) -> bool {
        true
    }

    fn note(&self, alloc: Global) -> Result<Note, NoMemory> {
        Ok(Note::Nothing)
    }

    fn residual<O: Ops<Item = T>>(
        &self,
        alloc: Global,
        ops: &O,
        inboxes: &[StreamValue<T>],
        incoming: &[StreamValue<T>],
    ) -> Result<StreamValue<T>, NoMemory>
        ensures { IfOk result (λ v.
            IsResidualOf (concat_comes_out (O.meaning ops.now)) (λ n. Nothing) (λ n. None) self.now inboxes.now incoming.now v) }
    {
        match &self.output {
            Output::Empty => self.left_behind(alloc, ops, Vec::new(alloc), incoming),
            Output::Waiting(Signal::Next(item)) => {
                let first = ops.copy(alloc, item)?;
                let mut items = Vec::new(alloc);
                items.push(first)?;
                self.left_behind(alloc, ops, items, incoming)
            }
            Output::Waiting(Signal::Complete) => {
                Ok(StreamValue::new(Vec::new(alloc), Ending::Done))
            }
            Output::Waiting(Signal::Error(cause)) => {
                Ok(StreamValue::new(Vec::new(alloc), Ending::Failed(*cause)))
            }
            Output::Over => Ok(StreamValue::new(Vec::new(alloc), Ending::Done)),
        }
    }

    ghost shows = { λ m n. refl };

    ghost popped_alike = { λ old s new h. (refl, (refl, λ a. (refl, refl, refl))) };

    ghost drops = { concat_drops };

    ghost ends = { concat_ends };

    ghost done_drops = { concat_done_drops };

    ghost ends_reading = { λ m n s w e. refl };

    ghost settles = { concat_settles };

    ghost ending_waits = { concat_ending_waits };

    ghost hungry = { concat_hungry };

    ghost asked_enough = { λ n a s e. absurd (true≢false e) };
}
