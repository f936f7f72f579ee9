//! An operator with its out slot, as a node of a tree.

ghost use Rattle.std.specs.Prelude.{◌≡◌, Some, option_map};
ghost use Rattle.rsx_types.specs.declared.signal.Signal.TheVariants.{Next};

use crate::Processor;
use rsx_sources::{Front, Machine, NotMade, NotTaken, Passed};
use rsx_types::{Ending, NoMemory, Note, Ops, Signal, StreamValue};
use std::alloc::Global;

/// An operator with its out slot. It takes a signal of its one input where the slot is empty, and is in one region with its input.
#[derive(Drop)]
pub struct ProcessorNode<P, T> {
    /// The operator.
    processor: P,
    /// The signal that it has put out and its receiver has not taken yet.
    slot: Option<Signal<T>>,
}

impl<P: Processor<Item = T>, T: Drop> ProcessorNode<P, T> {
    ghost use Rattle.std.specs.Prelude.{◌≡◌, None};
    ghost use Rattle.rsx_types.specs.Meaning.{Meaning};
    ghost use Rattle.rsx_types.specs.declared.note.Note.{Note as NoteSpec};
    ghost use Rattle.rsx_sources.specs.Machine.{Incoming, quiet};
    ghost use Rattle.rsx_processor.specs.Node.{node_comes_out, processed};

    /// The node of an operator, before it has taken anything. It takes no memory.
    pub fn new(processor: P) -> ProcessorNode<P, T>
        ensures fresh { (m : Meaning T) (inc : Incoming T) (further : NoteSpec) → node_comes_out P.Processor m result inc further ≡ quiet further (processed P.Processor m processor inc.first) }
        ensures processor { result.processor ≡ processor }
        ensures slot { result.slot ≡ None }
    {
        ProcessorNode {
            processor,
            slot: None,
        }
    }
}

/// Puts what was answered into the slot.
fn put<T: Drop>(slot: &mut Option<Signal<T>>, answer: Option<T>)
    ensures { slot.new ≡ option_map Next answer }
{
    *slot = match answer {
        Some(item) => Some(Signal::Next(item)),
        None => None,
    };
}

/// Puts an ending there.
fn end<T: Drop>(slot: &mut Option<Signal<T>>, ending: Signal<T>)
    ensures { slot.new ≡ Some ending }
{
    *slot = Some(ending);
}

impl<P: Processor<Item = T>, T: Drop> Machine for ProcessorNode<P, T> {
    type Item = T;

    ghost use Rattle.std.specs.Prelude.{◌≡◌, ⊤, true, false, refl, None, IfOk, IfErr, OnOk, OnErr};
    ghost use Rattle.rsx_types.specs.Meaning.{Allocates};
    ghost use Rattle.rsx_types.specs.declared.note.Note.TheVariants.{Nothing};
    ghost use Rattle.rsx_sources.specs.Counts.{CountsIn};
    ghost use Rattle.rsx_sources.specs.Machine.{TakesIn, front_of};
    ghost use Rattle.rsx_sources.specs.Reading.{IsReadOn, IsResidualOf};
    ghost use Rattle.rsx_sources.specs.Steps.{IsNotTaken};
    ghost use Rattle.rsx_processor.specs.Node.{node_comes_out, node_waiting, node_shown, node_takes, node_ended, node_counted, node_wanted, node_popped, node_allocates};
    ghost use Rattle.rsx_processor.specs.Laws.{nothing_done, node_alike, node_drops, node_ends, node_ending_waits, node_hungry};
    ghost use Rattle.rsx_processor.specs.declared.node.ProcessorNode.{ProcessorNode};
    ghost use Rattle.std.proofs.lemmas.Bool.{true≢false};

    ghost comes_out = { node_comes_out P.Processor };

    ghost waiting = { node_waiting };

    ghost shown = { node_shown };

    ghost takes = { node_takes };

    ghost picks = { λ n i a s. false };

    ghost rows = { λ n a s. false };

    ghost rowed = { λ n a s k. ⊥ };

    ghost took = { λ n i s new. ⊤ };

    ghost heard = { λ n s new. ⊤ };

    ghost picked = { λ n i new. ⊤ };

    ghost recording = { λ n i. Nothing };

    ghost recorded = { λ n. Nothing };

    ghost popping = { λ n. None };

    ghost ended = { node_ended };

    ghost done = { λ n i. false };

    ghost counted = { node_counted P.Processor };

    ghost wanted = { node_wanted P.Processor };

    ghost accepts = { λ n a s. true };

    ghost popped = { node_popped };

    ghost reads = { λ n. None };

    ghost rooms = { λ n. false };

    ghost crosses = { λ n. false };

    ghost pop_allocates = { λ a n. false };

    ghost signal_allocates = { node_allocates P.Processor };

    ghost step_allocates = { λ a n. false };

    fn front(&self) -> Option<Front> {
        match &self.slot {
            Some(Signal::Next(_)) => Some(Front::Item),
            Some(Signal::Complete) => Some(Front::Completion),
            Some(Signal::Error(cause)) => Some(Front::Failure(*cause)),
            None => None,
        }
    }

    fn pop_front<O: Ops<Item = T>>(
        &mut self,
        alloc: Global,
        ops: &O,
    ) -> Result<Option<Signal<T>>, NoMemory> {
        Ok(self.slot.take())
    }

    fn records_pop(&self) -> bool {
        false
    }

    fn put_back(&mut self, signal: Signal<T>)
        ensures { (before : ProcessorNode P T) → node_popped before signal self.old → self.new ≡ before }
    {
        self.slot = Some(signal);
    }

    fn has_ended(&self) -> bool {
        match &self.slot {
            Some(Signal::Complete) | Some(Signal::Error(_)) => true,
            Some(Signal::Next(_)) | None => false,
        }
    }

    fn can_take(&self, input: u64, front: Front) -> bool {
        input == 0 && self.slot.is_none()
    }

    #[tactic(auto, using(crate::proofs::Taken::item_counts, crate::proofs::Taken::ending_counts))]
    fn on_signal<O: Ops<Item = T>>(
        &mut self,
        alloc: Global,
        ops: &O,
        input: u64,
        signal: Signal<T>,
    ) -> Result<(), NotTaken<T>>
        ensures ok { OnOk result (TakesIn (node_comes_out P.Processor (O.meaning ops.now)) self.old input signal self.new) }
        ensures enabled { OnOk result (node_takes self.old input (front_of signal) ≡ true) }
        ensures counts { OnOk result (CountsIn (node_counted P.Processor) node_ended (λ n i. false) self.old input signal self.new) }
        ensures err { IfErr result (IsNotTaken (node_takes self.old input (front_of signal)) signal) }
        ensures memory { node_allocates P.Processor (O.allocates ops.now) self.old ≡ false → IfErr result (λ e. e ≡ NotTaken.Busy signal) }
        ensures alike { (a : Allocates) → node_allocates P.Processor a self.new ≡ node_allocates P.Processor a self.old }
        ensures same { OnErr result (self.new ≡ self.old) }
    {
        if input != 0 || self.slot.is_some() {
            return Err(NotTaken::Busy(signal));
        }
        match signal {
            Signal::Next(item) => match self.processor.on_next(alloc, ops, item) {
                Ok(answer) => {
                    put(&mut self.slot, answer);
                    Ok(())
                }
                Err(item) => Err(NotTaken::NoMemory(Signal::Next(item))),
            },
            ending => {
                end(&mut self.slot, ending);
                Ok(())
            }
        }
    }

    fn pop_item<O: Ops<Item = T>>(&mut self, alloc: Global, ops: &O) -> Option<T> {
        None
    }

    fn pass<O: Ops<Item = T>>(&mut self, alloc: Global, ops: &O, input: u64, item: T) -> Passed<T> {
        Passed::Declined(item)
    }

    fn hub(&self) -> Option<u64> {
        None
    }

    fn has_room(&self) -> bool {
        false
    }

    fn on_published(&mut self, signal: Signal<T>) -> Result<(), Signal<T>>
        ensures ok { OnOk result (IsReadOn (node_comes_out P.Processor) (λ n. None) self.old signal self.new) }
        ensures enabled { OnOk result (false ≡ true) }
        ensures err { IfErr result (λ s. s ≡ signal) }
        ensures same { OnErr result (self.new ≡ self.old) }
    {
        Err(signal)
    }

    fn can_pick(&self, input: u64, asked: u64, sent: u64) -> bool {
        false
    }

    fn next_pick(&self, asked: u64, sent: u64) -> Option<u64> {
        None
    }

    fn on_pick<O: Ops<Item = T>>(
        &mut self,
        alloc: Global,
        ops: &O,
        input: u64,
        asked: u64,
        sent: u64,
    ) -> Result<(), NotMade> {
        Err(NotMade::NotEnabled)
    }

    fn can_row(&self, asked: u64, sent: u64) -> bool {
        false
    }

    fn on_row<O: Ops<Item = T>>(
        &mut self,
        alloc: Global,
        ops: &O,
        asked: u64,
        sent: u64,
    ) -> Result<(), NotMade> {
        Err(NotMade::NotEnabled)
    }

    fn want(&self, input: u64, asked: u64, sent: u64) -> u64 {
        self.processor.want(asked)
    }

    #[inline(always)]
    fn accepts_demand(&self, asked: u64, sent: u64) -> bool {
        true
    }

    fn note(&self, alloc: Global) -> Result<Note, NoMemory> {
        Ok(Note::Nothing)
    }

    fn residual<O: Ops<Item = T>>(
        &self,
        alloc: Global,
        ops: &O,
        inboxes: &[StreamValue<T>],
        incoming: &[StreamValue<T>],
    ) -> Result<StreamValue<T>, NoMemory>
        ensures { IfOk result (λ v.
            IsResidualOf (node_comes_out P.Processor (O.meaning ops.now)) (λ n. Nothing) (λ n. None) self.now inboxes.now incoming.now v) }
    {
        let mut out = Vec::new(alloc);
        match &self.slot {
            Some(Signal::Next(item)) => out.push(ops.copy(alloc, item)?)?,
            Some(Signal::Complete) => return Ok(StreamValue::new(out, Ending::Done)),
            Some(Signal::Error(cause)) => return Ok(StreamValue::new(out, Ending::Failed(*cause))),
            None => {}
        }
        let Some(value) = incoming.first() else {
            return Ok(StreamValue::new(out, Ending::Open));
        };
        self.processor.rest(alloc, ops, value.items(), &mut out)?;
        Ok(StreamValue::new(out, value.ending()))
    }

    ghost shows = { λ m n. refl };

    ghost popped_alike = { λ old s new h. (refl, (refl, λ a. (refl, node_alike P.Processor.own old s new h a, refl))) };

    ghost drops = { λ m n inc other further e. node_drops P.Processor.own m n inc other further e };

    ghost ends = { λ m n s inc other further w e. node_ends P.Processor.own m n s inc other further w e };

    ghost done_drops = { λ m n hubs before after v w further d. nothing_done d };

    ghost ends_reading = { λ m n s w e. refl };

    ghost settles = { λ m n inc. (_, refl) };

    ghost ending_waits = { λ m n asked sent e none more. absurd (node_ending_waits n e none) };

    ghost hungry = { λ m n taken asked sent still counted none more within. node_hungry P.Processor.own P.wants_more n taken asked sent counted none more within };

    ghost asked_enough = { λ n a s e. absurd (true≢false e) };
}
