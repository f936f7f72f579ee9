//! The source of a range of numbers.

ghost use Rattle.std.specs.Prelude.{◌≡◌, pos, ◌+ℤ◌, ◌≤ℤ◌, ◌<◌, ◌≤◌, ◌^◌};

use crate::machine::{Front, Machine, NotMade, NotTaken, Passed};
use rsx_types::{Ending, NoMemory, Note, Ops, Signal, StreamValue};
use std::alloc::Global;
use std::marker::PhantomData;

/// A source that puts out the items of `first`, `first + 1` and so on, `count` of them, and then the completion. Each
/// item is made when it is taken.
#[derive(Drop)]
pub struct RangeNode<T> {
    /// The first number.
    pub first: i64,
    /// How many numbers there are: 0 to 1,000,000.
    pub count: u64,
    /// How many of them came out: 0 to `count`.
    pub at: u64,
    /// The type of the items.
    pub item: PhantomData<T>,
    ghost within: { at ≤ count },
    ghost limited: { count ≤ 1000000 },
    ghost fits: { 0 < count → (first +ℤ pos count) ≤ℤ pos (2 ^ 63) },
}

impl<T: Drop> RangeNode<T> {
    ghost use Rattle.std.specs.Prelude.{◌≡◌, pos, ◌+ℤ◌, ◌≤ℤ◌, ◌<◌, ◌≤◌, ◌^◌};
    ghost use Rattle.rsx_sources.specs.Range.{GivesRange};

    /// The source of `count` numbers from `first` on. The last of them is at most the greatest `i64`.
    pub fn new(first: i64, count: u64) -> RangeNode<T>
        requires limited { count ≤ 1000000 }
        requires fits { 0 < count → (first +ℤ pos count) ≤ℤ pos (2 ^ 63) }
        ensures first { result.first ≡ first }
        ensures count { result.count ≡ count }
        ensures at { result.at ≡ 0 }
        ensures fresh { GivesRange result first count }
    {
        RangeNode {
            first,
            count,
            at: 0,
            item: PhantomData,
        }
    }
}

/// The number with the index `at` in a range.
fn number_at(first: i64, at: u64) -> i64
    requires limited { at ≤ 1000000 }
    requires fits { (first +ℤ pos at +ℤ pos 1) ≤ℤ pos (2 ^ 63) }
    ensures { result ≡ first +ℤ pos at }
{
    first + at as i64
}

impl<T: Drop> Machine for RangeNode<T> {
    type Item = T;

    ghost use Rattle.std.specs.Prelude.{◌≡◌, ⊤, refl, Some, None, true, false, IfOk, IfErr, OnOk, OnErr};
    ghost use Rattle.rsx_types.specs.Notes.{note_then};
    ghost use Rattle.rsx_types.specs.declared.note.Note.{Note};
    ghost use Rattle.rsx_types.specs.declared.note.Note.TheVariants.{Nothing};
    ghost use Rattle.rsx_sources.specs.Machine.{TakesIn, incoming_of};
    ghost use Rattle.rsx_sources.specs.Reading.{IsReadOn, IsResidualOf};
    ghost use Rattle.rsx_sources.specs.Steps.{IsNotTaken};
    ghost use Rattle.rsx_sources.specs.Range.{range_comes_out, range_waiting, range_shown, range_shows, range_popped, range_pop_allocates};
    ghost use Rattle.rsx_sources.specs.declared.range.RangeNode.{RangeNode};
    ghost use Rattle.std.proofs.Common.{rules};
    ghost use Rattle.std.proofs.lemmas.Bool.{true≢false};

    ghost comes_out = { range_comes_out };

    ghost waiting = { range_waiting };

    ghost shown = { range_shown };

    ghost takes = { λ n i f. false };

    ghost picks = { λ n i a s. false };

    ghost rows = { λ n a s. false };

    ghost rowed = { λ n a s k. ⊥ };

    ghost took = { λ n i s new. ⊤ };

    ghost heard = { λ n s new. ⊤ };

    ghost picked = { λ n i new. ⊤ };

    ghost recording = { λ n i. Nothing };

    ghost recorded = { λ n. Nothing };

    ghost popping = { λ n. None };

    ghost ended = { λ n. false };

    ghost done = { λ n i. false };

    ghost counted = { λ n taken sent. ⊤ };

    ghost wanted = { λ n i a s. 0 };

    ghost accepts = { λ n a s. true };

    ghost popped = { range_popped };

    ghost reads = { λ n. None };

    ghost rooms = { λ n. false };

    ghost crosses = { λ n. false };

    ghost pop_allocates = { range_pop_allocates };

    ghost signal_allocates = { λ a n. false };

    ghost step_allocates = { λ a n. false };

    fn front(&self) -> Option<Front> {
        if self.at < self.count {
            Some(Front::Item)
        } else {
            Some(Front::Completion)
        }
    }

    fn pop_front<O: Ops<Item = T>>(
        &mut self,
        alloc: Global,
        ops: &O,
    ) -> Result<Option<Signal<T>>, NoMemory> {
        if self.at == self.count {
            return Ok(Some(Signal::Complete));
        }
        let item = ops.from_i64(alloc, number_at(self.first, self.at))?;
        self.at += 1;
        Ok(Some(Signal::Next(item)))
    }

    fn records_pop(&self) -> bool {
        false
    }

    fn put_back(&mut self, signal: Signal<T>)
        ensures { (before : RangeNode T) → range_popped before signal self.old → self.new ≡ before }
    {
        if let Signal::Next(_) = signal {
            if self.at > 0 {
                self.at -= 1;
            }
        }
    }

    fn has_ended(&self) -> bool {
        false
    }

    fn can_take(&self, input: u64, front: Front) -> bool {
        false
    }

    fn on_signal<O: Ops<Item = T>>(
        &mut self,
        alloc: Global,
        ops: &O,
        input: u64,
        signal: Signal<T>,
    ) -> Result<(), NotTaken<T>>
        ensures ok { OnOk result (TakesIn (range_comes_out (O.meaning ops.now)) self.old input signal self.new) }
        ensures enabled { OnOk result (false ≡ true) }
        ensures err { IfErr result (IsNotTaken false signal) }
        ensures memory { IfErr result (λ e. e ≡ NotTaken.Busy signal) }
        ensures same { OnErr result (self.new ≡ self.old) }
    {
        Err(NotTaken::Busy(signal))
    }

    #[inline]
    fn pop_item<O: Ops<Item = T>>(&mut self, alloc: Global, ops: &O) -> Option<T> {
        if self.at >= self.count {
            return None;
        }
        match ops.from_i64(alloc, number_at(self.first, self.at)) {
            Ok(item) => {
                self.at += 1;
                Some(item)
            }
            Err(NoMemory) => None,
        }
    }

    fn pass<O: Ops<Item = T>>(&mut self, alloc: Global, ops: &O, input: u64, item: T) -> Passed<T> {
        Passed::Declined(item)
    }

    fn hub(&self) -> Option<u64> {
        None
    }

    fn has_room(&self) -> bool {
        false
    }

    fn on_published(&mut self, signal: Signal<T>) -> Result<(), Signal<T>>
        ensures ok { OnOk result (IsReadOn range_comes_out (λ n. None) self.old signal self.new) }
        ensures enabled { OnOk result (false ≡ true) }
        ensures err { IfErr result (λ s. s ≡ signal) }
        ensures same { OnErr result (self.new ≡ self.old) }
    {
        Err(signal)
    }

    fn can_pick(&self, input: u64, asked: u64, sent: u64) -> bool {
        false
    }

    fn next_pick(&self, asked: u64, sent: u64) -> Option<u64> {
        None
    }

    fn on_pick<O: Ops<Item = T>>(
        &mut self,
        alloc: Global,
        ops: &O,
        input: u64,
        asked: u64,
        sent: u64,
    ) -> Result<(), NotMade> {
        Err(NotMade::NotEnabled)
    }

    fn can_row(&self, asked: u64, sent: u64) -> bool {
        false
    }

    fn on_row<O: Ops<Item = T>>(
        &mut self,
        alloc: Global,
        ops: &O,
        asked: u64,
        sent: u64,
    ) -> Result<(), NotMade> {
        Err(NotMade::NotEnabled)
    }

    fn want(&self, input: u64, asked: u64, sent: u64) -> u64 {
        0
    }

    #[inline(always)]
    fn accepts_demand(&self, asked: u64, sent: u64) -> bool {
        true
    }

    fn note(&self, alloc: Global) -> Result<Note, NoMemory> {
        Ok(Note::Nothing)
    }

    fn residual<O: Ops<Item = T>>(
        &self,
        alloc: Global,
        ops: &O,
        inboxes: &[StreamValue<T>],
        incoming: &[StreamValue<T>],
    ) -> Result<StreamValue<T>, NoMemory>
        ensures { IfOk result (λ v.
            IsResidualOf (range_comes_out (O.meaning ops.now)) (λ n. Nothing) (λ n. None) self.now inboxes.now incoming.now v) }
    {
        let mut left = Vec::with_capacity(alloc, (self.count - self.at) as usize)?;
        for at in self.at..self.count {
            let item = ops.from_i64(alloc, number_at(self.first, at))?;
            left.push_reserved(item);
        }
        Ok(StreamValue::new(left, Ending::Done))
    }

    ghost shows = { range_shows };

    ghost popped_alike = { λ old s new h. (refl, (refl, λ a. (refl, refl, refl))) };

    ghost drops = { λ m n inc other further e. Prim.search rules };

    ghost ends = { λ m n s inc other further w e. Prim.search rules };

    ghost done_drops = { λ m n hubs before after v w further d. Prim.search rules };

    ghost ends_reading = { λ m n s w e. refl };

    ghost settles = { λ m n inc. (_, refl) };

    ghost ending_waits = { λ m n asked sent e none more. Prim.search rules };

    ghost hungry = { λ m n taken asked sent still counts none more within. Prim.search rules };

    ghost asked_enough = { λ n a s e. absurd (true≢false e) };
}
