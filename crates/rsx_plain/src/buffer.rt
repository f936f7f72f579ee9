//! `buffer`: lists of the items.

ghost use Rattle.std.specs.Prelude.{◌≡◌, ◌*◌, min, List, [], IfOk, IfErr};
ghost use Rattle.rsx_types.specs.declared.signal.Signal.{Signal};
ghost use Rattle.rsx_types.specs.declared.signal.Signal.TheVariants.{Next, Complete, Error};
ghost use Rattle.rsx_plain.specs.Emission.{item_ended};
ghost use Rattle.rsx_plain.specs.Prepared.{IsPreparation, list_at_end as at_end, list_due as due};
ghost use Rattle.rsx_plain.specs.State.{IsReaction};
ghost use Rattle.rsx_plain.specs.declared.prepared.Emission.{Emission as EmissionSpec};
ghost use Rattle.rsx_plain.specs.declared.state.PlainState.TheVariants.{Buffer as BufferFrom};

use crate::prepared::{Arrival, Emission, Pending, Prepared, without_item};
use rsx_collections::Buffered;
use rsx_demand::UNBOUNDED;
use rsx_sources::OutSlot;
use rsx_types::{Cause, Ending, NoMemory, Ops, Signal};
use std::alloc::Global;

/// What a `buffer` puts out.
pub(crate) trait BufferReaction<T: Drop> {
    ghost slot: { Self → List (Signal T) };

    /// Gathers an item, and puts the list into the empty slot once it is full. Without memory for the list the item goes back, and
    /// nothing has changed.
    fn gather<O: Ops<Item = T>>(
        &mut self,
        alloc: Global,
        ops: &O,
        size: u64,
        gathered: &mut Buffered<T>,
        item: T,
    ) -> Result<(), Signal<T>>
        requires { slot self.old ≡ [] }
        ensures { IsReaction (O.meaning ops.now) (O.allocates ops.now) (BufferFrom size gathered.old) (Next item)
            result (slot self.new) (BufferFrom size gathered.new) };

    /// Puts the list of the gathered items into the empty slot, if there are any, and then the completion. For want of memory the
    /// completion comes back, and nothing has changed.
    fn complete_list<O: Ops<Item = T>>(
        &mut self,
        alloc: Global,
        ops: &O,
        size: u64,
        gathered: &mut Buffered<T>,
    ) -> Result<(), Signal<T>>
        requires { slot self.old ≡ [] }
        ensures { IsReaction (O.meaning ops.now) (O.allocates ops.now) (BufferFrom size gathered.old) Complete
            result (slot self.new) (BufferFrom size gathered.new) };

    /// Lets the gathered items go, and puts the failure into the empty slot.
    fn fail<O: Ops<Item = T>>(
        &mut self,
        alloc: Global,
        ops: &O,
        size: u64,
        gathered: &mut Buffered<T>,
        cause: Cause,
    ) -> Result<(), Signal<T>>
        requires { slot self.old ≡ [] }
        ensures { IsReaction (O.meaning ops.now) (O.allocates ops.now) (BufferFrom size gathered.old) (Error cause)
            result (slot self.new) (BufferFrom size gathered.new) };
}

impl<T: Drop> BufferReaction<T> for OutSlot<T> {
    ghost slot = { λ s. s };

    fn gather<O: Ops<Item = T>>(
        &mut self,
        alloc: Global,
        ops: &O,
        size: u64,
        gathered: &mut Buffered<T>,
        item: T,
    ) -> Result<(), Signal<T>> {
        if let Err(item) = gathered.push(item) {
            return Err(Signal::Next(item));
        }
        if (gathered.items().len() as u64) < size {
            return Ok(());
        }
        match ops.list(alloc, gathered.items()) {
            Ok(list) => {
                gathered.clear();
                self.put(Signal::Next(list));
                Ok(())
            }
            Err(NoMemory) => match gathered.pop() {
                Some(item) => Err(Signal::Next(item)),
                None => Ok(()),
            },
        }
    }

    fn complete_list<O: Ops<Item = T>>(
        &mut self,
        alloc: Global,
        ops: &O,
        size: u64,
        gathered: &mut Buffered<T>,
    ) -> Result<(), Signal<T>> {
        if !gathered.items().is_empty() {
            match ops.list(alloc, gathered.items()) {
                Ok(list) => self.put(Signal::Next(list)),
                Err(NoMemory) => return Err(Signal::Complete),
            }
        }
        gathered.clear();
        self.put(Signal::Complete);
        Ok(())
    }

    fn fail<O: Ops<Item = T>>(
        &mut self,
        alloc: Global,
        ops: &O,
        size: u64,
        gathered: &mut Buffered<T>,
        cause: Cause,
    ) -> Result<(), Signal<T>> {
        self.put(Signal::Error(cause));
        gathered.clear();
        Ok(())
    }
}

/// A list needs as many items as it has.
#[inline]
pub(crate) fn want(asked: u64, size: u64) -> u64
    ensures { result ≡ min UNBOUNDED (asked * size) }
{
    asked.saturating_mul(size).min(UNBOUNDED)
}

/// What a `buffer` in a chain answers.
pub(crate) trait BufferAnswer<T: Drop> {
    ghost came: { Self → EmissionSpec T };

    ghost item: { Self → T };

    /// What it answers to an item, and to the ending behind it: the list, where it is full or the items are complete. The gathered
    /// items stay for now. For want of memory the item comes back, and nothing has changed.
    fn answer_buffer<O: Ops<Item = T>>(
        self,
        alloc: Global,
        ops: &O,
        size: u64,
        gathered: &mut Buffered<T>,
    ) -> Result<Prepared<T>, T>
        ensures answer { IsPreparation (O.meaning ops.now) (O.allocates ops.now) (BufferFrom size gathered.old)
            (came self) result (BufferFrom size gathered.new) }
        ensures err { IfErr result (λ x. x ≡ item self) };
}

impl<T: Drop> BufferAnswer<T> for Arrival<T> {
    ghost came = { λ a. item_ended a.item a.ending };

    ghost item = { λ a. a.item };

    #[tactic(auto, using(crate::proofs::Prepares::gathers_by))]
    fn answer_buffer<O: Ops<Item = T>>(
        self,
        alloc: Global,
        ops: &O,
        size: u64,
        gathered: &mut Buffered<T>,
    ) -> Result<Prepared<T>, T> {
        let Arrival { item, ending } = self;
        if let Err(item) = gathered.push(item) {
            return Err(item);
        }
        match gathered.list_due(alloc, ops, size, ending) {
            Ok(item) => Ok(Prepared {
                pending: Pending::Gathered,
                answer: Emission { item, ending },
            }),
            Err(NoMemory) => match gathered.pop() {
                Some(item) => Err(item),
                None => Ok(without_item(None, ending)),
            },
        }
    }
}

/// The lists that a `buffer` in a chain answers.
pub(crate) trait GatheredLists<T: Drop> {
    ghost gathered: { Self → List T };

    /// The list of the gathered items, where it is full or the items are complete.
    fn list_due<O: Ops<Item = T>>(
        &self,
        alloc: Global,
        ops: &O,
        size: u64,
        ending: Ending,
    ) -> Result<Option<T>, NoMemory>
        ensures { IfOk result (λ out. out ≡ due (O.meaning ops.now).list_of size (gathered self.now) ending) };

    /// The list of the gathered items, where there are any and the items are complete.
    fn list_at_end<O: Ops<Item = T>>(
        &self,
        alloc: Global,
        ops: &O,
        ending: Ending,
    ) -> Result<Option<T>, NoMemory>
        ensures { IfOk result (λ out. out ≡ at_end (O.meaning ops.now).list_of (gathered self.now) ending) };
}

impl<T: Drop> GatheredLists<T> for Buffered<T> {
    ghost gathered = { λ b. b };

    fn list_due<O: Ops<Item = T>>(
        &self,
        alloc: Global,
        ops: &O,
        size: u64,
        ending: Ending,
    ) -> Result<Option<T>, NoMemory> {
        if self.items().len() as u64 >= size {
            let list = ops.list(alloc, self.items())?;
            return Ok(Some(list));
        }
        self.list_at_end(alloc, ops, ending)
    }

    fn list_at_end<O: Ops<Item = T>>(
        &self,
        alloc: Global,
        ops: &O,
        ending: Ending,
    ) -> Result<Option<T>, NoMemory> {
        match (ending, self.items().is_empty()) {
            (Ending::Done, false) => {
                let list = ops.list(alloc, self.items())?;
                Ok(Some(list))
            }
            (Ending::Done, true) => Ok(None),
            (Ending::Open, _) => Ok(None),
            (Ending::Failed(_), _) => Ok(None),
        }
    }
}
