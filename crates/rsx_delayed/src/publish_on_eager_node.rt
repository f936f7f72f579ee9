//! The identity over a queue whose failure may overtake items.

ghost use Rattle.std.specs.Prelude.{◌≡◌};
ghost use Rattle.rsx_delayed.specs.PublishOnEager.{chosen_after};

use crate::two_runs::TwoRuns;
use rsx_merging::PublishOnNode;
use rsx_queued::{Tail, front_of};
use rsx_sources::{Front, Machine, NotMade, NotTaken, Passed};
use rsx_types::{NoMemory, Note, Ops, Signal, StreamValue};
use rsx_values::Run;
use std::alloc::Global;

/// What was chosen and did not go out yet.
#[derive(Clone, Copy, Debug, PartialEq, Eq)]
pub enum Chosen {
    /// Nothing: an item that waits goes out where no failure stands behind it, and an ending where no item stands before it.
    Nothing,
    /// The next item, which is going out. No call leaves the node so: contracts alone name it.
    Item,
    /// The failure: the items before it are gone, and nothing more can be chosen.
    Failure,
    /// The failure went out unchosen, since no item stood before it.
    Over,
}

/// The signals of its one input, as they came in, but for a failure, which may overtake the items before it.
///
/// They wait in a queue, as those of a `publishOn` do, and so it asks for items ahead of what is asked of it
/// ([`PublishOnNode`]). As long as no failure came in, an item goes out as it is, and is recorded as choice 0 then. Once a failure
/// came in behind items, none of them goes out any more: the failure can be picked, as choice 1, whatever is asked, and drops them. So
/// what was recorded tells how many items the failure left in front of it. An ending that no item stands before goes out with
/// nothing recorded.
#[derive(Drop)]
pub struct PublishOnEagerNode<T> {
    /// What came in and did not go out yet, as a `publishOn` holds it.
    pub held: PublishOnNode<T>,
    /// What was chosen and did not go out yet.
    pub chosen: Chosen,
    /// The choices made.
    pub choices: TwoRuns,
}

impl Chosen {
    /// What is chosen once such a signal went out.
    fn after(self, front: Front) -> Chosen
        ensures { result ≡ chosen_after self front }
    {
        match (self, front) {
            (Chosen::Item, Front::Item) => Chosen::Nothing,
            (Chosen::Nothing, Front::Failure(_)) => Chosen::Over,
            _ => self,
        }
    }
}

impl<T: Drop> PublishOnEagerNode<T> {
    ghost use Rattle.std.specs.Prelude.{◌≡◌, ◌≤◌, ◌&&◌, [], ◌∷◌, IfOk};
    ghost use Rattle.rsx_types.specs.Meaning.{Meaning};
    ghost use Rattle.rsx_types.specs.declared.note.Note.{Note as NoteSpec};
    ghost use Rattle.rsx_sources.specs.Machine.{Incoming};
    ghost use Rattle.rsx_prefetch.specs.declared.TheConstants.{LARGEST};
    ghost use Rattle.rsx_queued.specs.Input.{fresh_input};
    ghost use Rattle.rsx_queued.specs.Inputs.{picked};
    ghost use Rattle.rsx_values.specs.Eager.{eager_of};
    ghost use Rattle.rsx_delayed.specs.TwoRuns.{fits};
    ghost use Rattle.rsx_delayed.specs.PublishOnEager.{choices_before, chosen_before, goes_out, eager_comes_out, eager_queued, IsEagerCounted};

    /// The node at which nothing came in, over a queue of this capacity, 1 to [`LARGEST`](rsx_prefetch::LARGEST).
    ///
    /// # Errors
    /// [`NoMemory`] where the growth for the queue was refused.
    pub fn new(alloc: Global, capacity: usize) -> Result<PublishOnEagerNode<T>, NoMemory>
        requires positive { 1 ≤ capacity }
        requires within { capacity ≤ LARGEST }
        ensures fresh { IfOk result (λ n. (m : Meaning T) (inc : Incoming T) (further : NoteSpec) →
            eager_comes_out m n inc further ≡ picked further (λ cs. eager_of cs inc.first)) }
        ensures counted { IfOk result (λ n. IsEagerCounted n (0 ∷ []) 0) }
        ensures input { IfOk result (λ n. n.held.input ≡ fresh_input capacity) }
        ensures chosen { IfOk result (λ n. n.chosen ≡ Chosen.Nothing) }
        ensures choices { IfOk result (λ n. n.choices ≡ []) }
    {
        let held = PublishOnNode::new(alloc, capacity)?;
        let choices = TwoRuns::new(alloc)?;
        Ok(PublishOnEagerNode {
            held,
            chosen: Chosen::Nothing,
            choices,
        })
    }

    /// How many signals of its one input wait, its ending too. None of another input.
    pub fn queued_at(&self, input: u64) -> Option<u64>
        ensures { result ≡ eager_queued self.now input }
    {
        self.held.queued_at(input)
    }

    /// The choices made, as runs. It takes no memory.
    pub fn records(&self) -> &[Run]
        ensures { result.now ≡ self.now.choices }
    {
        self.choices.runs()
    }

    /// Whether items go out: no failure stands behind them, and the choice of one more can be recorded.
    fn lets_items_go(&self) -> bool
        ensures { result ≡ goes_out self.now.held.input.tail && fits self.now.choices 0 }
    {
        match self.held.input.tail {
            Tail::Open | Tail::Completion => self.choices.fits(0),
            Tail::Failure(_) | Tail::Taken => false,
        }
    }

    /// Forgets what was chosen and recorded as this signal went out.
    fn forget(&mut self, signal: &Signal<T>)
        ensures held { self.new.held ≡ self.old.held }
        ensures chosen { self.new.chosen ≡ chosen_before signal.now self.old.chosen }
        ensures choices { self.new.choices ≡ choices_before signal.now self.old.chosen self.old.choices }
    {
        match (self.chosen, signal) {
            (Chosen::Nothing, Signal::Next(_)) => self.choices.pop(),
            (Chosen::Over, Signal::Error(_)) => self.chosen = Chosen::Nothing,
            _ => {}
        }
    }
}

impl<T: Drop> Machine for PublishOnEagerNode<T> {
    type Item = T;

    ghost use Rattle.std.specs.Prelude.{◌≡◌, ⊤, true, false, refl, None, IfOk, IfErr, IfSome, IfNone, IsOk, OnOk, OnErr};
    ghost use Rattle.rsx_types.specs.Notes.{note_then};
    ghost use Rattle.rsx_sources.specs.Counts.{CountsIn, CountsOut, CountsStep};
    ghost use Rattle.rsx_sources.specs.Machine.{TakesIn, Records, IsComposed, front_of};
    ghost use Rattle.rsx_sources.specs.Passed.{IsPassed};
    ghost use Rattle.rsx_sources.specs.Popping.{IsItemOutBy, IsPoppedBy, IsRecordedBy};
    ghost use Rattle.rsx_sources.specs.Reading.{IsReadOn, IsResidualOf};
    ghost use Rattle.rsx_sources.specs.Steps.{IsNotTaken, IsNotMade};
    ghost use Rattle.rsx_merging.specs.PublishOn.{item_of};
    ghost use Rattle.rsx_delayed.specs.PublishOnEagerLaws.{eager_drops, eager_ends, eager_done_drops, eager_settles, eager_ending_waits, eager_hungry};
    ghost use Rattle.rsx_delayed.specs.PublishOnEager.{eager_comes_out, eager_waiting, eager_shown, eager_takes, eager_picks, eager_recording, eager_recorded, eager_popping, eager_ended, eager_done, eager_wanted, eager_popped, IsEagerCounted};
    ghost use Rattle.rsx_delayed.specs.declared.publish_on_eager_node.PublishOnEagerNode.{PublishOnEagerNode};
    ghost use Rattle.std.proofs.lemmas.Bool.{true≢false};

    ghost comes_out = { eager_comes_out };

    ghost waiting = { eager_waiting };

    ghost shown = { eager_shown };

    ghost takes = { eager_takes };

    ghost picks = { eager_picks };

    ghost rows = { λ n a s. false };

    ghost rowed = { λ n a s k. ⊥ };

    ghost took = { λ n i s new. ⊤ };

    ghost heard = { λ n s new. ⊤ };

    ghost picked = { λ n i new. ⊤ };

    ghost recording = { eager_recording };

    ghost recorded = { eager_recorded };

    ghost popping = { eager_popping };

    ghost ended = { eager_ended };

    ghost done = { eager_done };

    ghost counted = { IsEagerCounted };

    ghost wanted = { eager_wanted };

    ghost accepts = { λ n a s. true };

    ghost popped = { eager_popped };

    ghost reads = { λ n. None };

    ghost rooms = { λ n. false };

    ghost crosses = { λ n. false };

    ghost pop_allocates = { λ a n. false };

    ghost signal_allocates = { λ a n. false };

    ghost step_allocates = { λ a n. false };

    fn front(&self) -> Option<Front> {
        match self.chosen {
            Chosen::Nothing => match self.held.front() {
                Some(Front::Item) => {
                    if self.lets_items_go() {
                        Some(Front::Item)
                    } else {
                        None
                    }
                }
                ending => ending,
            },
            Chosen::Failure => self.held.front(),
            Chosen::Item | Chosen::Over => None,
        }
    }

    fn pop_front<O: Ops<Item = T>>(
        &mut self,
        alloc: Global,
        ops: &O,
    ) -> Result<Option<Signal<T>>, NoMemory>
        ensures ok { IfOk result (λ s.
            IsPoppedBy (eager_comes_out (O.meaning ops.now)) eager_popped eager_recorded eager_ended (eager_popping self.old)
            (eager_waiting (O.meaning ops.now) self.old) self.old s self.new) }
        ensures recorded { IsRecordedBy (eager_popping self.old) (eager_recorded self.old) (eager_recorded self.new) }
        ensures counts { IfOk result (λ s. CountsOut IsEagerCounted eager_ended eager_done self.old s self.new) }
        ensures err { OnErr result (self.new ≡ self.old) }
        ensures memory { IsOk result }
    {
        if let Some(item) = self.pop_item(alloc, ops) {
            return Ok(Some(Signal::Next(item)));
        }
        match self.front() {
            None => Ok(None),
            Some(ending) => {
                self.chosen = self.chosen.after(ending);
                Ok(self.held.input.tail.take())
            }
        }
    }

    fn records_pop(&self) -> bool {
        self.chosen == Chosen::Nothing && !self.held.input.queue.is_empty() && self.lets_items_go()
    }

    fn put_back(&mut self, signal: Signal<T>)
        ensures { (before : PublishOnEagerNode T) → eager_popped before signal self.old → self.new ≡ before }
    {
        self.forget(&signal);
        self.held.put_back(signal);
    }

    fn has_ended(&self) -> bool {
        self.chosen == Chosen::Failure && self.held.has_ended()
    }

    fn can_take(&self, input: u64, front: Front) -> bool {
        self.held.can_take(input, front)
    }

    fn on_signal<O: Ops<Item = T>>(
        &mut self,
        alloc: Global,
        ops: &O,
        input: u64,
        signal: Signal<T>,
    ) -> Result<(), NotTaken<T>>
        ensures ok { OnOk result (TakesIn (eager_comes_out (O.meaning ops.now)) self.old input signal self.new) }
        ensures enabled { OnOk result (eager_takes self.old input (front_of signal) ≡ true) }
        ensures recorded { eager_recorded self.new ≡ eager_recorded self.old }
        ensures counts { OnOk result (CountsIn IsEagerCounted eager_ended eager_done self.old input signal self.new) }
        ensures err { IfErr result (IsNotTaken (eager_takes self.old input (front_of signal)) signal) }
        ensures memory { IfErr result (λ e. e ≡ NotTaken.Busy signal) }
        ensures same { OnErr result (self.new ≡ self.old) }
    {
        if !self.can_take(input, front_of(&signal)) {
            return Err(NotTaken::Busy(signal));
        }
        self.held.input.put(signal);
        Ok(())
    }

    fn pop_item<O: Ops<Item = T>>(&mut self, alloc: Global, ops: &O) -> Option<T>
        ensures some { IfSome result (λ x.
            IsItemOutBy (eager_comes_out (O.meaning ops.now)) (eager_waiting (O.meaning ops.now))
            eager_popped eager_recorded IsEagerCounted eager_ended eager_done (eager_popping self.old) self.old x self.new) }
        ensures none { IfNone result (self.new ≡ self.old) }

        // Wherever an item is offered, it comes.
        ensures offered { result ≡ item_of (eager_waiting (O.meaning ops.now) self.old) }
    {
        if self.records_pop() {
            let item = self.held.pop_item(alloc, ops)?;
            self.choices.push(0);
            return Some(item);
        }
        match self.chosen {
            Chosen::Failure => self.held.pop_item(alloc, ops),
            Chosen::Nothing | Chosen::Item | Chosen::Over => None,
        }
    }

    fn pass<O: Ops<Item = T>>(&mut self, alloc: Global, ops: &O, input: u64, item: T) -> Passed<T>
        ensures passed { IsPassed (eager_comes_out (O.meaning ops.now)) (eager_waiting (O.meaning ops.now))
            eager_takes eager_popped eager_recorded IsEagerCounted eager_ended eager_done self.old input item result self.new }
    {
        if !self.can_take(input, Front::Item) {
            return Passed::Declined(item);
        }
        self.held.input.put(Signal::Next(item));
        Passed::Kept
    }

    fn hub(&self) -> Option<u64> {
        None
    }

    fn has_room(&self) -> bool {
        false
    }

    fn on_published(&mut self, signal: Signal<T>) -> Result<(), Signal<T>>
        ensures ok { OnOk result (IsReadOn eager_comes_out (λ n. None) self.old signal self.new) }
        ensures enabled { OnOk result (false ≡ true) }
        ensures recorded { eager_recorded self.new ≡ eager_recorded self.old }
        ensures counts { OnOk result (CountsStep IsEagerCounted eager_ended eager_done self.old self.new) }
        ensures err { IfErr result (λ s. s ≡ signal) }
        ensures same { OnErr result (self.new ≡ self.old) }
    {
        Err(signal)
    }

    fn can_pick(&self, input: u64, asked: u64, sent: u64) -> bool {
        if self.chosen != Chosen::Nothing || self.held.input.queue.is_empty() {
            return false;
        }
        match self.held.input.tail {
            Tail::Failure(_) => input == 1 && self.choices.fits(input),
            Tail::Open | Tail::Completion | Tail::Taken => false,
        }
    }

    fn next_pick(&self, asked: u64, sent: u64) -> Option<u64> {
        if self.can_pick(1, asked, sent) {
            return Some(1);
        }
        None
    }

    fn on_pick<O: Ops<Item = T>>(
        &mut self,
        alloc: Global,
        ops: &O,
        input: u64,
        asked: u64,
        sent: u64,
    ) -> Result<(), NotMade>
        ensures ok { OnOk result (Records (eager_comes_out (O.meaning ops.now)) self.old (eager_recording self.old input) self.new) }
        ensures enabled { OnOk result (eager_picks self.old input asked sent ≡ true) }
        ensures recorded { OnOk result (eager_recorded self.new ≡ note_then (eager_recorded self.old) (eager_recording self.old input)) }
        ensures composes { OnOk result (IsComposed (eager_recorded self.old) (eager_recording self.old input)) }
        ensures counts { OnOk result (CountsStep IsEagerCounted eager_ended eager_done self.old self.new) }
        ensures err { IfErr result (IsNotMade (eager_picks self.old input asked sent)) }
        ensures memory { IfErr result (λ e. e ≡ NotMade.NotEnabled) }
        ensures same { OnErr result (self.new ≡ self.old) }
    {
        if !self.can_pick(input, asked, sent) {
            return Err(NotMade::NotEnabled);
        }
        self.choices.push(input);
        // The failure overtakes the items that stand before it.
        self.held.input.queue.clear();
        self.chosen = Chosen::Failure;
        Ok(())
    }

    fn can_row(&self, asked: u64, sent: u64) -> bool {
        false
    }

    fn on_row<O: Ops<Item = T>>(
        &mut self,
        alloc: Global,
        ops: &O,
        asked: u64,
        sent: u64,
    ) -> Result<(), NotMade> {
        Err(NotMade::NotEnabled)
    }

    fn want(&self, input: u64, asked: u64, sent: u64) -> u64 {
        self.held.want(input, asked, sent)
    }

    #[inline(always)]
    fn accepts_demand(&self, asked: u64, sent: u64) -> bool {
        true
    }

    fn note(&self, alloc: Global) -> Result<Note, NoMemory> {
        let choices = self.choices.choices(alloc)?;
        Ok(Note::Picks(choices))
    }

    fn residual<O: Ops<Item = T>>(
        &self,
        alloc: Global,
        ops: &O,
        inboxes: &[StreamValue<T>],
        incoming: &[StreamValue<T>],
    ) -> Result<StreamValue<T>, NoMemory>
        ensures { IfOk result (λ v.
            IsResidualOf (eager_comes_out (O.meaning ops.now)) eager_recorded (λ n. None) self.now inboxes.now incoming.now v) }
    {
        self.held.residual(alloc, ops, inboxes, incoming)
    }

    ghost shows = { λ m n. refl };

    ghost popped_alike = { λ old s new h. (refl, (refl, λ a. (refl, refl, refl))) };

    ghost drops = { eager_drops };

    ghost ends = { eager_ends };

    ghost done_drops = { eager_done_drops };

    ghost ends_reading = { λ m n s w e. refl };

    ghost settles = { eager_settles };

    ghost ending_waits = { eager_ending_waits };

    ghost hungry = { eager_hungry };

    ghost asked_enough = { λ n a s e. absurd (true≢false e) };
}
