//! The identity over a queue.

ghost use Rattle.std.specs.Prelude.{◌≡◌, ◌≤◌};
ghost use Rattle.rsx_prefetch.specs.Credits.{credits};

use rsx_demand::saturating_total;
use rsx_queued::{QueuedInput, Remaining, Tail, front_of};
use rsx_sources::{Front, Machine, NotMade, NotTaken, Passed};
use rsx_types::{Ending, NoMemory, Note, Ops, Signal, StreamValue};
use std::alloc::Global;

/// The signals of its one input, as they came in.
///
/// They wait in a queue, and the oldest of them is what the node offers. It asks for items ahead of what is asked of it: at
/// first as many as the queue holds, and then a batch more each time that a batch was sent, so an item always finds room
/// ([`credits`](rsx_prefetch::Prefetch::credits)). The ending stands behind the items, so a failure overtakes none, and needs
/// no room.
///
/// Only [`PublishOnNode::new`] and [`residual`](Machine::residual) take memory.
#[derive(Drop)]
pub struct PublishOnNode<T> {
    /// What came in and its receiver has not taken yet. Its own count of the items that were taken out stays 0: each of them was
    /// sent, and how many were is told by whoever calls.
    pub input: QueuedInput<T>,
}

/// The total to ask of the input of a queue of this capacity, from which so many items were sent.
fn credits_after(capacity: u64, sent: u64) -> u64
    requires { 1 ≤ capacity }
    ensures { result ≡ credits capacity sent }
{
    let batch = capacity - capacity / 4;
    saturating_total(capacity, batch * (sent / batch))
}

impl<T: Drop> PublishOnNode<T> {
    ghost use Rattle.std.specs.Prelude.{◌≡◌, ◌≤◌, [], ◌∷◌, IfOk};
    ghost use Rattle.rsx_types.specs.Meaning.{Meaning};
    ghost use Rattle.rsx_types.specs.declared.note.Note.{Note as NoteSpec};
    ghost use Rattle.rsx_sources.specs.Machine.{Incoming, quiet};
    ghost use Rattle.rsx_prefetch.specs.declared.TheConstants.{LARGEST};
    ghost use Rattle.rsx_queued.specs.Input.{fresh_input};
    ghost use Rattle.rsx_merging.specs.PublishOn.{publish_comes_out, publish_counted, publish_queued};

    /// The identity over a queue of this capacity, 1 to [`LARGEST`](rsx_prefetch::LARGEST).
    ///
    /// # Errors
    /// [`NoMemory`] where the growth for the queue was refused.
    pub fn new(alloc: Global, capacity: usize) -> Result<PublishOnNode<T>, NoMemory>
        requires positive { 1 ≤ capacity }
        requires within { capacity ≤ LARGEST }
        ensures fresh { IfOk result (λ n. (m : Meaning T) (inc : Incoming T) (further : NoteSpec) →
            publish_comes_out m n inc further ≡ quiet further inc.first) }
        ensures counted { IfOk result (λ n. publish_counted n (0 ∷ []) 0) }
        ensures input { IfOk result (λ n. n.input ≡ fresh_input capacity) }
    {
        let input = QueuedInput::new(alloc, capacity)?;
        Ok(PublishOnNode { input })
    }

    /// How many signals of its one input wait, its ending too. None of another input.
    pub fn queued_at(&self, input: u64) -> Option<u64>
        ensures { result ≡ publish_queued self.now input }
    {
        if input == 0 {
            Some(self.input.waiting())
        } else {
            None
        }
    }
}

impl<T: Drop> Machine for PublishOnNode<T> {
    type Item = T;

    ghost use Rattle.std.specs.Prelude.{◌≡◌, ⊤, true, false, refl, [], None, IfOk, IfErr, IfSome, IfNone, IsOk, OnOk, OnErr};
    ghost use Rattle.rsx_types.specs.declared.note.Note.TheVariants.{Nothing};
    ghost use Rattle.rsx_sources.specs.Counts.{CountsIn, CountsOut, CountsStep};
    ghost use Rattle.rsx_sources.specs.Machine.{TakesIn, front_of};
    ghost use Rattle.rsx_sources.specs.Passed.{IsItemOut, IsPassed};
    ghost use Rattle.rsx_sources.specs.Reading.{IsReadOn, IsResidualOf};
    ghost use Rattle.rsx_sources.specs.Steps.{IsPopped, IsNotTaken};
    ghost use Rattle.rsx_merging.specs.PublishOnLaws.{publish_drops, publish_ends, publish_done_drops, publish_settles, publish_ending_waits, publish_hungry};
    ghost use Rattle.rsx_queued.specs.Input.{next_signal};
    ghost use Rattle.rsx_merging.specs.PublishOn.{item_of, publish_comes_out, publish_waiting, publish_shown, publish_takes, publish_ended, publish_counted, publish_wanted, publish_popped};
    ghost use Rattle.rsx_merging.specs.declared.publish_on_node.PublishOnNode.{PublishOnNode};
    ghost use Rattle.std.proofs.lemmas.Bool.{true≢false};

    ghost comes_out = { publish_comes_out };

    ghost waiting = { publish_waiting };

    ghost shown = { publish_shown };

    ghost takes = { publish_takes };

    ghost picks = { λ n i a s. false };

    ghost rows = { λ n a s. false };

    ghost rowed = { λ n a s k. ⊥ };

    ghost took = { λ n i s new. ⊤ };

    ghost heard = { λ n s new. ⊤ };

    ghost picked = { λ n i new. ⊤ };

    ghost recording = { λ n i. Nothing };

    ghost recorded = { λ n. Nothing };

    ghost popping = { λ n. None };

    ghost ended = { publish_ended };

    ghost done = { λ n i. false };

    ghost counted = { publish_counted };

    ghost wanted = { publish_wanted };

    ghost accepts = { λ n a s. true };

    ghost popped = { publish_popped };

    ghost reads = { λ n. None };

    ghost rooms = { λ n. false };

    ghost crosses = { λ n. false };

    ghost pop_allocates = { λ a n. false };

    ghost signal_allocates = { λ a n. false };

    ghost step_allocates = { λ a n. false };

    fn front(&self) -> Option<Front> {
        self.input.front()
    }

    fn pop_front<O: Ops<Item = T>>(
        &mut self,
        alloc: Global,
        ops: &O,
    ) -> Result<Option<Signal<T>>, NoMemory>
        ensures ok { IfOk result (λ s.
            IsPopped (publish_comes_out (O.meaning ops.now)) publish_popped (publish_waiting (O.meaning ops.now) self.old) self.old s self.new) }
        ensures counts { IfOk result (λ s. CountsOut publish_counted publish_ended (λ n i. false) self.old s self.new) }
        ensures err { OnErr result (self.new ≡ self.old) }
        ensures memory { IsOk result }
    {
        if self.input.is_gone() {
            return Ok(None);
        }
        match self.input.queue.lift() {
            Some(item) => Ok(Some(Signal::Next(item))),
            None => Ok(self.input.tail.take()),
        }
    }

    fn records_pop(&self) -> bool {
        false
    }

    fn put_back(&mut self, signal: Signal<T>)
        ensures { (before : PublishOnNode T) → publish_popped before signal self.old → self.new ≡ before }
    {
        match signal {
            Signal::Next(item) => {
                if self.input.queue.has_room() {
                    self.input.queue.put_front(item);
                }
            }
            Signal::Complete => self.input.tail = Tail::Completion,
            Signal::Error(cause) => self.input.tail = Tail::Failure(cause),
        }
    }

    fn has_ended(&self) -> bool {
        match self.input.tail {
            Tail::Completion | Tail::Failure(_) => true,
            Tail::Open | Tail::Taken => false,
        }
    }

    fn can_take(&self, input: u64, front: Front) -> bool {
        input == 0 && self.input.can_take(front)
    }

    fn on_signal<O: Ops<Item = T>>(
        &mut self,
        alloc: Global,
        ops: &O,
        input: u64,
        signal: Signal<T>,
    ) -> Result<(), NotTaken<T>>
        ensures ok { OnOk result (TakesIn (publish_comes_out (O.meaning ops.now)) self.old input signal self.new) }
        ensures enabled { OnOk result (publish_takes self.old input (front_of signal) ≡ true) }
        ensures counts { OnOk result (CountsIn publish_counted publish_ended (λ n i. false) self.old input signal self.new) }
        ensures err { IfErr result (IsNotTaken (publish_takes self.old input (front_of signal)) signal) }
        ensures memory { IfErr result (λ e. e ≡ NotTaken.Busy signal) }
        ensures same { OnErr result (self.new ≡ self.old) }
    {
        if !self.can_take(input, front_of(&signal)) {
            return Err(NotTaken::Busy(signal));
        }
        self.input.put(signal);
        Ok(())
    }

    fn pop_item<O: Ops<Item = T>>(&mut self, alloc: Global, ops: &O) -> Option<T>
        ensures some { IfSome result (λ x.
            IsItemOut (publish_comes_out (O.meaning ops.now)) (publish_waiting (O.meaning ops.now))
            publish_popped (λ n. Nothing) publish_counted publish_ended (λ n i. false) self.old x self.new) }
        ensures none { IfNone result (self.new ≡ self.old) }

        // Wherever an item is offered, it comes.
        ensures offered { result ≡ item_of (next_signal self.old.input) }
    {
        if self.input.is_gone() {
            return None;
        }
        self.input.queue.lift()
    }

    /// An item that would be the only one in the queue goes on without a stay in it.
    fn pass<O: Ops<Item = T>>(&mut self, alloc: Global, ops: &O, input: u64, item: T) -> Passed<T>
        ensures passed { IsPassed (publish_comes_out (O.meaning ops.now)) (publish_waiting (O.meaning ops.now))
            publish_takes publish_popped (λ n. Nothing) publish_counted publish_ended (λ n i. false) self.old input item result self.new }
        ensures same { self.new ≡ self.old }
        ensures through { self.old.input.queue.items ≡ [] → publish_takes self.old input Front.Item ≡ true → result ≡ Passed.Item item }
    {
        if self.input.queue.is_empty() && self.can_take(input, Front::Item) {
            return Passed::Item(item);
        }
        Passed::Declined(item)
    }

    fn hub(&self) -> Option<u64> {
        None
    }

    fn has_room(&self) -> bool {
        false
    }

    fn on_published(&mut self, signal: Signal<T>) -> Result<(), Signal<T>>
        ensures ok { OnOk result (IsReadOn publish_comes_out (λ n. None) self.old signal self.new) }
        ensures enabled { OnOk result (false ≡ true) }
        ensures counts { OnOk result (CountsStep publish_counted publish_ended (λ n i. false) self.old self.new) }
        ensures err { IfErr result (λ s. s ≡ signal) }
        ensures same { OnErr result (self.new ≡ self.old) }
    {
        Err(signal)
    }

    fn can_pick(&self, input: u64, asked: u64, sent: u64) -> bool {
        false
    }

    fn next_pick(&self, asked: u64, sent: u64) -> Option<u64> {
        None
    }

    fn on_pick<O: Ops<Item = T>>(
        &mut self,
        alloc: Global,
        ops: &O,
        input: u64,
        asked: u64,
        sent: u64,
    ) -> Result<(), NotMade> {
        Err(NotMade::NotEnabled)
    }

    fn can_row(&self, asked: u64, sent: u64) -> bool {
        false
    }

    fn on_row<O: Ops<Item = T>>(
        &mut self,
        alloc: Global,
        ops: &O,
        asked: u64,
        sent: u64,
    ) -> Result<(), NotMade> {
        Err(NotMade::NotEnabled)
    }

    fn want(&self, input: u64, asked: u64, sent: u64) -> u64 {
        if input == 0 {
            return credits_after(self.input.queue.capacity() as u64, sent);
        }
        0
    }

    #[inline(always)]
    fn accepts_demand(&self, asked: u64, sent: u64) -> bool {
        true
    }

    fn note(&self, alloc: Global) -> Result<Note, NoMemory> {
        Ok(Note::Nothing)
    }

    fn residual<O: Ops<Item = T>>(
        &self,
        alloc: Global,
        ops: &O,
        inboxes: &[StreamValue<T>],
        incoming: &[StreamValue<T>],
    ) -> Result<StreamValue<T>, NoMemory>
        ensures { IfOk result (λ v.
            IsResidualOf (publish_comes_out (O.meaning ops.now)) (λ n. Nothing) (λ n. None) self.now inboxes.now incoming.now v) }
    {
        let rest = match incoming.first() {
            Some(value) => self.input.rest(alloc, ops, value.items(), value.ending())?,
            None => self.input.rest(alloc, ops, &[], Ending::Open)?,
        };
        match rest {
            Some(value) => Ok(value),
            None => Ok(StreamValue::new(Vec::new(alloc), Ending::Done)),
        }
    }

    ghost shows = { λ m n. refl };

    ghost popped_alike = { λ old s new h. (refl, (refl, λ a. (refl, refl, refl))) };

    ghost drops = { publish_drops };

    ghost ends = { publish_ends };

    ghost done_drops = { publish_done_drops };

    ghost ends_reading = { λ m n s w e. refl };

    ghost settles = { publish_settles };

    ghost ending_waits = { publish_ending_waits };

    ghost hungry = { publish_hungry };

    ghost asked_enough = { λ n a s e. absurd (true≢false e) };
}
