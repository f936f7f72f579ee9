//! The node `window`.

ghost use Rattle.std.specs.Prelude.{◌≡◌, IfOk};

use crate::current::{CurrentWindow, Windowing};
use crate::rest::Collecting;
use rsx_collections::{InFront, PendingSignals};
use rsx_demand::saturating_total;
use rsx_plain::copy_stages;
use rsx_sources::{Front, Machine, NotMade, NotTaken, Passed, first_ending, first_items};
use rsx_types::{Ending, NoMemory, Note, Ops, Signal, Stage, StreamValue};
use std::alloc::Global;

/// The windows of its input, each of so many items, through a chain of plain operators of its own; one behind the other. A full
/// window is done, a shorter last one has the input's ending, and none is empty.
///
/// What a window's chain puts out waits here, and moves into an out slot of two signals: into the empty slot the next two, or as
/// many as there are. The node takes a signal where none waits.
#[derive(Drop)]
pub struct WindowNode<T> {
    /// How many items a window has. 0 is read as 1.
    pub size: u64,
    /// The operators of the chain, the first one innermost.
    pub stages: Vec<Stage<T>>,
    /// The window that is started.
    pub current: CurrentWindow<T>,
    /// What the windows have put out and the node's receiver has not taken yet.
    pub pending: PendingSignals<T>,
    /// Whether one of the two signals of the out slot went out.
    pub halfway: bool,
    /// How many items the node got. The count stops at 2^63 - 1.
    pub got: u64,
}

impl<T: Drop> WindowNode<T> {
    ghost use Rattle.std.specs.Prelude.{◌≡◌, [], ◌∷◌, ◌&&◌, not, IfOk};
    ghost use Rattle.rsx_sources.specs.Slot.{is_nil};
    ghost use Rattle.rsx_window.specs.Cut.{is_over};
    ghost use Rattle.rsx_window.specs.Window.{fits_slot, GivesWindows, CountsItems};

    /// The windows of so many items, through a chain of copies of these operators.
    ///
    /// # Errors
    /// [`NoMemory`] where a growth was refused.
    pub fn new<O: Ops<Item = T>>(
        alloc: Global,
        ops: &O,
        size: u64,
        stages: &[Stage<T>],
    ) -> Result<WindowNode<T>, NoMemory>
        ensures fresh { IfOk result (λ n. GivesWindows n size stages.now) }
        ensures counted { IfOk result (λ n. CountsItems n (0 ∷ []) 0) }
        ensures nothing { IfOk result (λ n. n.pending.left ≡ []) }
    {
        let stages = copy_stages(alloc, ops, stages)?;
        let pending = PendingSignals::with_room(alloc, 2)?;
        Ok(WindowNode {
            size,
            stages,
            current: CurrentWindow::Passing(0),
            pending,
            halfway: false,
            got: 0,
        })
    }

    /// Whether no signal waits but those in the out slot.
    fn fits_slot(&self) -> bool
        ensures { result ≡ fits_slot self.now }
    {
        let most = if self.halfway { 1 } else { 2 };
        self.pending.len() <= most
    }

    /// Whether a signal of the input can be taken.
    fn is_ready(&self) -> bool
        ensures { result ≡ (is_nil self.now.pending.left && not (is_over self.now.current)) }
    {
        self.pending.is_empty() && !self.current.is_over()
    }
}

impl<T: Drop> Machine for WindowNode<T> {
    type Item = T;

    ghost use Rattle.std.specs.Prelude.{◌≡◌, ⊤, true, false, refl, None, IfOk, IfErr, IsOk, OnOk, OnErr};
    ghost use Rattle.rsx_types.specs.declared.note.Note.TheVariants.{Nothing};
    ghost use Rattle.rsx_sources.specs.Counts.{CountsIn, CountsOut, CountsStep};
    ghost use Rattle.rsx_sources.specs.Machine.{TakesIn};
    ghost use Rattle.rsx_sources.specs.Reading.{IsReadOn, IsResidualOf};
    ghost use Rattle.rsx_sources.specs.Steps.{IsPopped, IsNotTaken};
    ghost use Rattle.rsx_window.specs.Laws.{window_drops, window_ends, window_done_drops, window_ending_waits, window_hungry};
    ghost use Rattle.rsx_window.specs.Window.{window_comes_out, window_waiting, window_shown, window_takes, window_ended, window_done, window_wanted, IsPoppedWindow, CountsItems};
    ghost use Rattle.rsx_window.specs.declared.node.WindowNode.{WindowNode};
    ghost use Rattle.std.proofs.lemmas.Bool.{true≢false};

    ghost comes_out = { window_comes_out };

    ghost waiting = { window_waiting };

    ghost shown = { window_shown };

    ghost takes = { λ n i f. window_takes n i };

    ghost picks = { λ n i a s. false };

    ghost rows = { λ n a s. false };

    ghost rowed = { λ n a s k. ⊥ };

    ghost took = { λ n i s new. ⊤ };

    ghost heard = { λ n s new. ⊤ };

    ghost picked = { λ n i new. ⊤ };

    ghost recording = { λ n i. Nothing };

    ghost recorded = { λ n. Nothing };

    ghost popping = { λ n. None };

    ghost ended = { window_ended };

    ghost done = { window_done };

    ghost counted = { CountsItems };

    ghost wanted = { window_wanted };

    ghost accepts = { λ n a s. true };

    ghost popped = { IsPoppedWindow };

    ghost reads = { λ n. None };

    ghost rooms = { λ n. false };

    ghost crosses = { λ n. false };

    ghost pop_allocates = { λ a n. false };

    ghost signal_allocates = { λ a n. true };

    ghost step_allocates = { λ a n. false };

    fn front(&self) -> Option<Front> {
        match self.pending.front() {
            Some(Signal::Next(_)) => Some(Front::Item),
            Some(Signal::Complete) => Some(Front::Completion),
            Some(Signal::Error(cause)) => Some(Front::Failure(*cause)),
            None => None,
        }
    }

    fn pop_front<O: Ops<Item = T>>(
        &mut self,
        alloc: Global,
        ops: &O,
    ) -> Result<Option<Signal<T>>, NoMemory>
        ensures ok { IfOk result (λ s.
            IsPopped (window_comes_out (O.meaning ops.now)) IsPoppedWindow (window_waiting (O.meaning ops.now) self.old) self.old s self.new) }
        ensures counts { IfOk result (λ s. CountsOut CountsItems window_ended window_done self.old s self.new) }
        ensures err { OnErr result (self.new ≡ self.old) }
        ensures memory { IsOk result }
    {
        match self.pending.pop() {
            Some(signal) => {
                self.halfway = !self.halfway;
                Ok(Some(signal))
            }
            None => Ok(None),
        }
    }

    fn records_pop(&self) -> bool {
        false
    }

    fn put_back(&mut self, signal: Signal<T>)
        ensures { (before : WindowNode T) → IsPoppedWindow before signal self.old → self.new ≡ before }
    {
        if self.pending.len() < self.pending.room() {
            self.pending.put_front(signal);
            self.halfway = !self.halfway;
        }
    }

    fn has_ended(&self) -> bool {
        self.pending.has_ending()
    }

    fn can_take(&self, input: u64, front: Front) -> bool {
        input == 0 && self.is_ready()
    }

    fn on_signal<O: Ops<Item = T>>(
        &mut self,
        alloc: Global,
        ops: &O,
        input: u64,
        signal: Signal<T>,
    ) -> Result<(), NotTaken<T>>
        ensures ok { OnOk result (TakesIn (window_comes_out (O.meaning ops.now)) self.old input signal self.new) }
        ensures enabled { OnOk result (window_takes self.old input ≡ true) }
        ensures counts { OnOk result (CountsIn CountsItems window_ended window_done self.old input signal self.new) }
        ensures err { IfErr result (IsNotTaken (window_takes self.old input) signal) }
        ensures same { OnErr result (self.new ≡ self.old) }
    {
        if input != 0 || !self.is_ready() {
            return Err(NotTaken::Busy(signal));
        }
        match signal {
            Signal::Next(item) => {
                match self.current.take_item(
                    alloc,
                    ops,
                    self.size,
                    &self.stages,
                    item,
                    &mut self.pending,
                ) {
                    Ok(()) => {
                        self.halfway = false;
                        self.got = saturating_total(self.got, 1);
                        Ok(())
                    }
                    Err(item) => Err(NotTaken::NoMemory(Signal::Next(item))),
                }
            }
            Signal::Complete => {
                match self
                    .current
                    .end(alloc, ops, Ending::Done, &mut self.pending)
                {
                    Ok(()) => {
                        self.halfway = false;
                        Ok(())
                    }
                    Err(_) => Err(NotTaken::NoMemory(Signal::Complete)),
                }
            }
            Signal::Error(cause) => {
                match self
                    .current
                    .end(alloc, ops, Ending::Failed(cause), &mut self.pending)
                {
                    Ok(()) => {
                        self.halfway = false;
                        Ok(())
                    }
                    Err(_) => Err(NotTaken::NoMemory(Signal::Error(cause))),
                }
            }
        }
    }

    fn pop_item<O: Ops<Item = T>>(&mut self, alloc: Global, ops: &O) -> Option<T> {
        let item = self.pending.pop_item()?;
        self.halfway = !self.halfway;
        Some(item)
    }

    fn pass<O: Ops<Item = T>>(&mut self, alloc: Global, ops: &O, input: u64, item: T) -> Passed<T> {
        if input != 0 || !self.pending.is_empty() || self.pending.room() == 0 {
            return Passed::Declined(item);
        }
        match self.current.pass(self.size, &self.stages, item) {
            Passed::Item(item) => {
                self.halfway = true;
                self.got = saturating_total(self.got, 1);
                Passed::Item(item)
            }
            Passed::Kept => {
                self.halfway = false;
                self.got = saturating_total(self.got, 1);
                Passed::Kept
            }
            Passed::Declined(item) => Passed::Declined(item),
        }
    }

    fn hub(&self) -> Option<u64> {
        None
    }

    fn has_room(&self) -> bool {
        false
    }

    fn on_published(&mut self, signal: Signal<T>) -> Result<(), Signal<T>>
        ensures ok { OnOk result (IsReadOn window_comes_out (λ n. None) self.old signal self.new) }
        ensures enabled { OnOk result (false ≡ true) }
        ensures counts { OnOk result (CountsStep CountsItems window_ended window_done self.old self.new) }
        ensures err { IfErr result (λ s. s ≡ signal) }
        ensures same { OnErr result (self.new ≡ self.old) }
    {
        Err(signal)
    }

    fn can_pick(&self, input: u64, asked: u64, sent: u64) -> bool {
        false
    }

    fn next_pick(&self, asked: u64, sent: u64) -> Option<u64> {
        None
    }

    fn on_pick<O: Ops<Item = T>>(
        &mut self,
        alloc: Global,
        ops: &O,
        input: u64,
        asked: u64,
        sent: u64,
    ) -> Result<(), NotMade> {
        Err(NotMade::NotEnabled)
    }

    fn can_row(&self, asked: u64, sent: u64) -> bool {
        false
    }

    fn on_row<O: Ops<Item = T>>(
        &mut self,
        alloc: Global,
        ops: &O,
        asked: u64,
        sent: u64,
    ) -> Result<(), NotMade> {
        Err(NotMade::NotEnabled)
    }

    fn want(&self, input: u64, asked: u64, sent: u64) -> u64 {
        if sent < asked && self.fits_slot() {
            return saturating_total(self.got, 1);
        }
        self.got
    }

    #[inline(always)]
    fn accepts_demand(&self, asked: u64, sent: u64) -> bool {
        true
    }

    fn note(&self, alloc: Global) -> Result<Note, NoMemory> {
        Ok(Note::Nothing)
    }

    fn residual<O: Ops<Item = T>>(
        &self,
        alloc: Global,
        ops: &O,
        inboxes: &[StreamValue<T>],
        incoming: &[StreamValue<T>],
    ) -> Result<StreamValue<T>, NoMemory>
        ensures { IfOk result (λ v.
            IsResidualOf (window_comes_out (O.meaning ops.now)) (λ n. Nothing) (λ n. None) self.now inboxes.now incoming.now v) }
    {
        let items = first_items(incoming);
        let ending = first_ending(incoming);
        let mut out = Vec::new(alloc);
        let last = out.left_behind(
            alloc,
            ops,
            self.size,
            &self.stages,
            &self.current,
            items,
            ending,
        )?;
        self.pending
            .in_front(alloc, ops, StreamValue::new(out, last))
    }

    ghost shows = { λ m n. refl };

    ghost popped_alike = { λ old s new h. (refl, (refl, λ a. (refl, refl, refl))) };

    ghost drops = { window_drops };

    ghost ends = { window_ends };

    ghost done_drops = { window_done_drops };

    ghost ends_reading = { λ m n s w e. refl };

    ghost settles = { λ m n inc. (_, refl) };

    ghost ending_waits = { window_ending_waits };

    ghost hungry = { window_hungry };

    ghost asked_enough = { λ n a s e. absurd (true≢false e) };
}
