//! The source of a list of items.

ghost use Rattle.std.specs.Prelude.{◌≡◌, IfOk, length};

use crate::machine::{Front, Machine, NotMade, NotTaken, Passed};
use rsx_types::{Ending, NoMemory, Note, Ops, Signal, StreamValue};
use std::alloc::Global;
use std::marker::Model;

/// A source that puts out its items in order, and then the completion. Contracts see the items that are left, and how
/// many items it has memory for.
///
/// It takes memory only when it is made: from then on each item is moved out, and moved back in by
/// [`put_back`](Machine::put_back).
#[derive(Drop)]
pub struct ItemsNode<T> {
    // The items that are left, the last one first.
    reversed: Vec<T>,
}

impl<T> Model for ItemsNode<T> {
    ghost use Rattle.std.specs.Prelude.{List, reverse, vec_capacity};
    ghost use Rattle.rsx_sources.specs.Items.{ItemsLeft};

    ghost Value = { ItemsLeft T };

    ghost view = { λ n. record { left = reverse n.reversed.items; room = vec_capacity n.reversed } };
}

impl<T: Drop> ItemsNode<T> {
    ghost use Rattle.std.specs.Prelude.{◌≡◌, IfOk, length};
    ghost use Rattle.rsx_sources.specs.Items.{GivesItems};

    /// The source of a copy of the items.
    pub fn new<O: Ops<Item = T>>(
        alloc: Global,
        ops: &O,
        items: &[T],
    ) -> Result<ItemsNode<T>, NoMemory>
        ensures made { IfOk result (λ n. n ≡ record { left = items.now; room = length items.now }) }
        ensures fresh { IfOk result (λ n. GivesItems n items.now) }
    {
        let mut reversed = Vec::with_capacity(alloc, items.len())?;
        for at in (0..items.len()).rev() {
            let copy = ops.copy(alloc, &items[at])?;
            reversed.push_reserved(copy);
        }
        Ok(ItemsNode { reversed })
    }
}

impl<T: Drop> Machine for ItemsNode<T> {
    type Item = T;

    ghost use Rattle.std.specs.Prelude.{◌≡◌, ⊤, refl, Some, None, true, false, IfOk, IfErr, OnOk, OnErr};
    ghost use Rattle.rsx_types.specs.Notes.{note_then};
    ghost use Rattle.rsx_types.specs.declared.note.Note.{Note};
    ghost use Rattle.rsx_types.specs.declared.note.Note.TheVariants.{Nothing};
    ghost use Rattle.rsx_sources.specs.Machine.{TakesIn, incoming_of};
    ghost use Rattle.rsx_sources.specs.Reading.{IsReadOn, IsResidualOf};
    ghost use Rattle.rsx_sources.specs.Steps.{IsNotTaken};
    ghost use Rattle.rsx_sources.specs.Items.{ItemsLeft, items_comes_out, items_waiting, items_shown, items_popped};
    ghost use Rattle.std.proofs.Common.{rules};
    ghost use Rattle.std.proofs.lemmas.Bool.{true≢false};

    ghost comes_out = { items_comes_out };

    ghost waiting = { items_waiting };

    ghost shown = { items_shown };

    ghost takes = { λ n i f. false };

    ghost picks = { λ n i a s. false };

    ghost rows = { λ n a s. false };

    ghost rowed = { λ n a s k. ⊥ };

    ghost took = { λ n i s new. ⊤ };

    ghost heard = { λ n s new. ⊤ };

    ghost picked = { λ n i new. ⊤ };

    ghost recording = { λ n i. Nothing };

    ghost recorded = { λ n. Nothing };

    ghost popping = { λ n. None };

    ghost ended = { λ n. false };

    ghost done = { λ n i. false };

    ghost counted = { λ n taken sent. ⊤ };

    ghost wanted = { λ n i a s. 0 };

    ghost accepts = { λ n a s. true };

    ghost popped = { items_popped };

    ghost reads = { λ n. None };

    ghost rooms = { λ n. false };

    ghost crosses = { λ n. false };

    ghost pop_allocates = { λ a n. false };

    ghost signal_allocates = { λ a n. false };

    ghost step_allocates = { λ a n. false };

    fn front(&self) -> Option<Front> {
        if self.reversed.is_empty() {
            Some(Front::Completion)
        } else {
            Some(Front::Item)
        }
    }

    fn pop_front<O: Ops<Item = T>>(
        &mut self,
        alloc: Global,
        ops: &O,
    ) -> Result<Option<Signal<T>>, NoMemory> {
        match self.reversed.pop() {
            Some(item) => Ok(Some(Signal::Next(item))),
            None => Ok(Some(Signal::Complete)),
        }
    }

    fn records_pop(&self) -> bool {
        false
    }

    fn put_back(&mut self, signal: Signal<T>)
        ensures { (before : ItemsLeft T) → items_popped before signal self.old → self.new ≡ before }
    {
        if let Signal::Next(item) = signal {
            if self.reversed.len() < self.reversed.capacity() {
                self.reversed.push_reserved(item);
            }
        }
    }

    fn has_ended(&self) -> bool {
        false
    }

    fn can_take(&self, input: u64, front: Front) -> bool {
        false
    }

    fn on_signal<O: Ops<Item = T>>(
        &mut self,
        alloc: Global,
        ops: &O,
        input: u64,
        signal: Signal<T>,
    ) -> Result<(), NotTaken<T>>
        ensures ok { OnOk result (TakesIn (items_comes_out (O.meaning ops.now)) self.old input signal self.new) }
        ensures enabled { OnOk result (false ≡ true) }
        ensures err { IfErr result (IsNotTaken false signal) }
        ensures memory { IfErr result (λ e. e ≡ NotTaken.Busy signal) }
        ensures same { OnErr result (self.new ≡ self.old) }
    {
        Err(NotTaken::Busy(signal))
    }

    #[inline]
    fn pop_item<O: Ops<Item = T>>(&mut self, alloc: Global, ops: &O) -> Option<T> {
        self.reversed.pop()
    }

    fn pass<O: Ops<Item = T>>(&mut self, alloc: Global, ops: &O, input: u64, item: T) -> Passed<T> {
        Passed::Declined(item)
    }

    fn hub(&self) -> Option<u64> {
        None
    }

    fn has_room(&self) -> bool {
        false
    }

    fn on_published(&mut self, signal: Signal<T>) -> Result<(), Signal<T>>
        ensures ok { OnOk result (IsReadOn items_comes_out (λ n. None) self.old signal self.new) }
        ensures enabled { OnOk result (false ≡ true) }
        ensures err { IfErr result (λ s. s ≡ signal) }
        ensures same { OnErr result (self.new ≡ self.old) }
    {
        Err(signal)
    }

    fn can_pick(&self, input: u64, asked: u64, sent: u64) -> bool {
        false
    }

    fn next_pick(&self, asked: u64, sent: u64) -> Option<u64> {
        None
    }

    fn on_pick<O: Ops<Item = T>>(
        &mut self,
        alloc: Global,
        ops: &O,
        input: u64,
        asked: u64,
        sent: u64,
    ) -> Result<(), NotMade> {
        Err(NotMade::NotEnabled)
    }

    fn can_row(&self, asked: u64, sent: u64) -> bool {
        false
    }

    fn on_row<O: Ops<Item = T>>(
        &mut self,
        alloc: Global,
        ops: &O,
        asked: u64,
        sent: u64,
    ) -> Result<(), NotMade> {
        Err(NotMade::NotEnabled)
    }

    fn want(&self, input: u64, asked: u64, sent: u64) -> u64 {
        0
    }

    #[inline(always)]
    fn accepts_demand(&self, asked: u64, sent: u64) -> bool {
        true
    }

    fn note(&self, alloc: Global) -> Result<Note, NoMemory> {
        Ok(Note::Nothing)
    }

    fn residual<O: Ops<Item = T>>(
        &self,
        alloc: Global,
        ops: &O,
        inboxes: &[StreamValue<T>],
        incoming: &[StreamValue<T>],
    ) -> Result<StreamValue<T>, NoMemory>
        ensures { IfOk result (λ v.
            IsResidualOf (items_comes_out (O.meaning ops.now)) (λ n. Nothing) (λ n. None) self.now inboxes.now incoming.now v) }
    {
        let reversed = self.reversed.as_slice();
        let mut left = Vec::with_capacity(alloc, reversed.len())?;
        for at in (0..reversed.len()).rev() {
            let copy = ops.copy(alloc, &reversed[at])?;
            left.push_reserved(copy);
        }
        Ok(StreamValue::new(left, Ending::Done))
    }

    ghost shows = { λ m n. refl };

    ghost popped_alike = { λ old s new h. (refl, (refl, λ a. (refl, refl, refl))) };

    ghost drops = { λ m n inc other further e. Prim.search rules };

    ghost ends = { λ m n s inc other further w e. Prim.search rules };

    ghost done_drops = { λ m n hubs before after v w further d. Prim.search rules };

    ghost ends_reading = { λ m n s w e. refl };

    ghost settles = { λ m n inc. (_, refl) };

    ghost ending_waits = { λ m n asked sent e none more. Prim.search rules };

    ghost hungry = { λ m n taken asked sent still counts none more within. Prim.search rules };

    ghost asked_enough = { λ n a s e. absurd (true≢false e) };
}
