//! Plain operators as nodes of a tree.

ghost use Rattle.std.specs.Prelude.{◌≡◌};

use crate::state::Passing;
use crate::{Operator, PlainState};
use rsx_sources::{Front, Machine, NotMade, NotTaken, OutSlot, Passed};
use rsx_types::{Ending, NoMemory, Note, Ops, Signal, Stage, StreamValue};
use std::alloc::Global;

/// A plain operator with its out slot. It takes a signal of its one input where the slot is empty.
#[derive(Drop)]
pub struct PlainNode<T> {
    /// The operator.
    pub state: PlainState<T>,
    /// What it has put out and its receiver has not taken yet.
    pub slot: OutSlot<T>,
}

impl<T: Drop> PlainNode<T> {
    ghost use Rattle.std.specs.Prelude.{◌≡◌, IfOk, IsTrue};
    ghost use Rattle.rsx_plain.specs.State.{plain_start};
    ghost use Rattle.rsx_plain.specs.Node.{GivesOperator, start_slot, plain_ended};

    /// The node of an operator before it has taken anything. Its slot begins with the seed of `scan`, or the completion of
    /// `take 0`. It takes memory for copies of a seed alone; for want of it the answer is [`NoMemory`].
    pub fn new<O: Ops<Item = T>>(
        alloc: Global,
        ops: &O,
        stage: &Stage<T>,
    ) -> Result<PlainNode<T>, NoMemory>
        ensures state { IfOk result (λ n. n.state ≡ plain_start stage.now) }
        ensures slot { IfOk result (λ n. n.slot ≡ start_slot stage.now) }
        ensures fresh { IfOk result (λ n. GivesOperator n stage.now) }
    {
        let state = PlainState::new(alloc, ops, stage)?;
        let mut slot = OutSlot::new();
        match stage {
            Stage::Take(0) => slot.put(Signal::Complete),
            Stage::Scan(_, seed) => {
                let copy = ops.copy(alloc, seed)?;
                slot.put(Signal::Next(copy));
            }
            _ => {}
        }
        Ok(PlainNode { state, slot })
    }
}

impl<T: Drop> Machine for PlainNode<T> {
    type Item = T;

    ghost use Rattle.std.specs.Prelude.{◌≡◌, ⊤, true, false, refl, None, IfOk, IfErr, IsOk, IsTrue, OnOk, OnErr};
    ghost use Rattle.rsx_plain.specs.Laws.{plain_drops, plain_ends, plain_ending_waits, plain_hungry, plain_popped_alike};
    ghost use Rattle.rsx_types.specs.Meaning.{Meaning, Allocates};
    ghost use Rattle.rsx_types.specs.Notes.{note_then};
    ghost use Rattle.rsx_types.specs.declared.note.Note.{Note};
    ghost use Rattle.rsx_types.specs.declared.note.Note.TheVariants.{Nothing};
    ghost use Rattle.rsx_sources.specs.Counts.{CountsIn, CountsOut};
    ghost use Rattle.rsx_sources.specs.Machine.{Incoming, TakesIn};
    ghost use Rattle.rsx_sources.specs.Reading.{IsReadOn, IsResidualOf};
    ghost use Rattle.rsx_sources.specs.Steps.{IsPopped, IsNotTaken};
    ghost use Rattle.rsx_plain.specs.Laws.{plain_done_drops};
    ghost use Rattle.rsx_plain.specs.Node.{plain_comes_out, plain_waiting, plain_shown, plain_takes, plain_wanted, plain_popped, plain_ended, plain_allocates, plain_counted, NeedsNothing};
    ghost use Rattle.rsx_plain.specs.State.{is_over, after_signal, Counts};
    ghost use Rattle.rsx_plain.specs.declared.node.PlainNode.{PlainNode};
    ghost use Rattle.std.proofs.lemmas.Bool.{true≢false};

    ghost comes_out = { plain_comes_out };

    ghost waiting = { plain_waiting };

    ghost shown = { plain_shown };

    ghost takes = { λ n i f. plain_takes n i };

    ghost picks = { λ n i a s. false };

    ghost rows = { λ n a s. false };

    ghost rowed = { λ n a s k. ⊥ };

    ghost took = { λ n i s new. ⊤ };

    ghost heard = { λ n s new. ⊤ };

    ghost picked = { λ n i new. ⊤ };

    ghost recording = { λ n i. Nothing };

    ghost recorded = { λ n. Nothing };

    ghost popping = { λ n. None };

    ghost ended = { plain_ended };

    ghost done = { λ n i. false };

    ghost counted = { plain_counted };

    ghost wanted = { plain_wanted };

    ghost accepts = { λ n a s. true };

    ghost popped = { plain_popped };

    ghost reads = { λ n. None };

    ghost rooms = { λ n. false };

    ghost crosses = { λ n. false };

    ghost pop_allocates = { λ a n. false };

    ghost signal_allocates = { plain_allocates };

    ghost step_allocates = { λ a n. false };

    #[inline]
    fn front(&self) -> Option<Front> {
        match self.slot.front() {
            Some(Signal::Next(_)) => Some(Front::Item),
            Some(Signal::Complete) => Some(Front::Completion),
            Some(Signal::Error(cause)) => Some(Front::Failure(*cause)),
            None => None,
        }
    }

    #[inline]
    fn pop_front<O: Ops<Item = T>>(
        &mut self,
        alloc: Global,
        ops: &O,
    ) -> Result<Option<Signal<T>>, NoMemory>
        ensures ok { IfOk result (λ s.
            IsPopped (plain_comes_out (O.meaning ops.now)) plain_popped (plain_waiting (O.meaning ops.now) self.old) self.old s self.new) }
        ensures counted { IfOk result (λ s. CountsOut plain_counted plain_ended (λ n i. false) self.old s self.new) }
        ensures err { OnErr result (self.new ≡ self.old) }
        ensures state { self.new.state ≡ self.old.state }
        ensures memory { IsOk result }
    {
        match self.slot.pop() {
            Some(signal) => Ok(Some(signal)),
            None => Ok(None),
        }
    }

    fn records_pop(&self) -> bool {
        false
    }

    #[inline]
    fn put_back(&mut self, signal: Signal<T>)
        ensures { (before : PlainNode T) → plain_popped before signal self.old → self.new ≡ before }
    {
        if self.slot.len() < 2 {
            self.slot.put_back(signal);
        }
    }

    #[inline]
    fn has_ended(&self) -> bool
        ensures ended { result ≡ plain_ended self.now }
        ensures closed { IsTrue result → NeedsNothing self.now }
    {
        match self.slot.front() {
            None => false,
            Some(Signal::Complete) => true,
            Some(Signal::Error(_)) => true,
            Some(Signal::Next(_)) => match self.slot.get(1) {
                None => false,
                Some(Signal::Complete) => true,
                Some(Signal::Error(_)) => true,
                Some(Signal::Next(_)) => false,
            },
        }
    }

    #[inline]
    fn can_take(&self, input: u64, front: Front) -> bool {
        input == 0 && self.slot.is_empty()
    }

    fn on_signal<O: Ops<Item = T>>(
        &mut self,
        alloc: Global,
        ops: &O,
        input: u64,
        signal: Signal<T>,
    ) -> Result<(), NotTaken<T>>
        ensures ok { OnOk result (TakesIn (plain_comes_out (O.meaning ops.now)) self.old input signal self.new) }
        ensures enabled { OnOk result (plain_takes self.old input ≡ true) }
        ensures over { OnOk result (is_over self.new.state ≡ true → plain_ended self.new ≡ true) }
        ensures state { OnOk result (self.new.state ≡ after_signal (O.meaning ops.now) self.old.state signal) }
        ensures counts { OnOk result (Counts self.old.state signal self.new.slot self.new.state) }
        ensures counted { OnOk result (CountsIn plain_counted plain_ended (λ n i. false) self.old input signal self.new) }
        ensures err { IfErr result (IsNotTaken (plain_takes self.old input) signal) }
        ensures memory { plain_allocates (O.allocates ops.now) self.old ≡ false → IfErr result (λ e. e ≡ NotTaken.Busy signal) }
        ensures alike { (a : Allocates) → plain_allocates a self.new ≡ plain_allocates a self.old }
        ensures same { OnErr result (self.new ≡ self.old) }
    {
        if input != 0 || !self.slot.is_empty() {
            return Err(NotTaken::Busy(signal));
        }
        match self.state.react(alloc, ops, signal, &mut self.slot) {
            Ok(()) => Ok(()),
            Err(signal) => Err(NotTaken::NoMemory(signal)),
        }
    }

    #[inline]
    fn pop_item<O: Ops<Item = T>>(&mut self, alloc: Global, ops: &O) -> Option<T> {
        self.slot.pop_item()
    }

    #[inline(always)]
    fn pass<O: Ops<Item = T>>(&mut self, alloc: Global, ops: &O, input: u64, item: T) -> Passed<T> {
        if !self.can_take(input, Front::Item) {
            return Passed::Declined(item);
        }
        self.state.pass(alloc, ops, item)
    }

    fn hub(&self) -> Option<u64> {
        None
    }

    fn has_room(&self) -> bool {
        false
    }

    fn on_published(&mut self, signal: Signal<T>) -> Result<(), Signal<T>>
        ensures ok { OnOk result (IsReadOn plain_comes_out (λ n. None) self.old signal self.new) }
        ensures enabled { OnOk result (false ≡ true) }
        ensures err { IfErr result (λ s. s ≡ signal) }
        ensures same { OnErr result (self.new ≡ self.old) }
    {
        Err(signal)
    }

    fn can_pick(&self, input: u64, asked: u64, sent: u64) -> bool {
        false
    }

    fn next_pick(&self, asked: u64, sent: u64) -> Option<u64> {
        None
    }

    fn on_pick<O: Ops<Item = T>>(
        &mut self,
        alloc: Global,
        ops: &O,
        input: u64,
        asked: u64,
        sent: u64,
    ) -> Result<(), NotMade> {
        Err(NotMade::NotEnabled)
    }

    fn can_row(&self, asked: u64, sent: u64) -> bool {
        false
    }

    fn on_row<O: Ops<Item = T>>(
        &mut self,
        alloc: Global,
        ops: &O,
        asked: u64,
        sent: u64,
    ) -> Result<(), NotMade> {
        Err(NotMade::NotEnabled)
    }

    #[inline]
    fn want(&self, input: u64, asked: u64, sent: u64) -> u64 {
        self.state.want(asked, sent)
    }

    #[inline(always)]
    fn accepts_demand(&self, asked: u64, sent: u64) -> bool {
        true
    }

    fn note(&self, alloc: Global) -> Result<Note, NoMemory> {
        Ok(Note::Nothing)
    }

    fn residual<O: Ops<Item = T>>(
        &self,
        alloc: Global,
        ops: &O,
        inboxes: &[StreamValue<T>],
        incoming: &[StreamValue<T>],
    ) -> Result<StreamValue<T>, NoMemory>
        ensures { IfOk result (λ v.
            IsResidualOf (plain_comes_out (O.meaning ops.now)) (λ n. Nothing) (λ n. None) self.now inboxes.now incoming.now v) }
    {
        let mut out = Vec::new(alloc);
        for at in 0..self.slot.len() {
            match self.slot.get(at) {
                Some(Signal::Next(item)) => {
                    let copy = ops.copy(alloc, item)?;
                    out.push(copy)?;
                }
                Some(Signal::Complete) => return Ok(StreamValue::new(out, Ending::Done)),
                Some(Signal::Error(cause)) => {
                    return Ok(StreamValue::new(out, Ending::Failed(*cause)));
                }
                None => {}
            }
        }
        match incoming.first() {
            Some(value) => self
                .state
                .rest(alloc, ops, out, value.items(), value.ending()),
            None => self.state.rest(alloc, ops, out, &[], Ending::Open),
        }
    }

    ghost shows = { λ m n. refl };

    ghost popped_alike = { plain_popped_alike };

    ghost drops = { plain_drops };

    ghost ends = { plain_ends };

    ghost done_drops = { λ m n hubs before after v w further d. plain_done_drops m n hubs before after v w further d };

    ghost ends_reading = { λ m n s w e. refl };

    ghost settles = { λ m n inc. (_, refl) };

    ghost ending_waits = { plain_ending_waits };

    ghost hungry = { plain_hungry };

    ghost asked_enough = { λ n a s e. absurd (true≢false e) };
}
