//! `scan`: the accumulations.

ghost use Rattle.std.specs.Prelude.{◌≡◌, ◌-◌, List, [], IfErr};
ghost use Rattle.rsx_types.specs.declared.signal.Signal.{Signal};
ghost use Rattle.rsx_types.specs.declared.signal.Signal.TheVariants.{Next};
ghost use Rattle.rsx_plain.specs.Emission.{item_ended};
ghost use Rattle.rsx_plain.specs.Prepared.{IsPreparation};
ghost use Rattle.rsx_plain.specs.State.{IsReaction};
ghost use Rattle.rsx_plain.specs.declared.prepared.Emission.{Emission as EmissionSpec};
ghost use Rattle.rsx_plain.specs.declared.state.PlainState.TheVariants.{Scan as ScanFrom};

use crate::prepared::{Arrival, Emission, Pending, Prepared, failed};
use rsx_sources::OutSlot;
use rsx_types::{Cause, Ending, Fault, NoMemory, Ops, Signal};
use std::alloc::Global;

/// What a `scan` puts out.
pub(crate) trait ScanReaction<T: Drop> {
    ghost slot: { Self → List (Signal T) };

    /// Puts the accumulation after an item into the empty slot, and keeps a copy of it as the last one. For want of memory the item
    /// comes back, and nothing has changed.
    fn scan<O: Ops<Item = T>>(
        &mut self,
        alloc: Global,
        ops: &O,
        function: u16,
        last: &mut T,
        item: T,
    ) -> Result<(), Signal<T>>
        requires { slot self.old ≡ [] }
        ensures { IsReaction (O.meaning ops.now) (O.allocates ops.now) (ScanFrom function last.old) (Next item)
            result (slot self.new) (ScanFrom function last.new) };
}

impl<T: Drop> ScanReaction<T> for OutSlot<T> {
    ghost slot = { λ s. s };

    fn scan<O: Ops<Item = T>>(
        &mut self,
        alloc: Global,
        ops: &O,
        function: u16,
        last: &mut T,
        item: T,
    ) -> Result<(), Signal<T>> {
        match ops.fold(alloc, function, last, &item) {
            Ok(next) => match ops.copy(alloc, &next) {
                Ok(copy) => {
                    *last = next;
                    self.put(Signal::Next(copy));
                }
                Err(NoMemory) => return Err(Signal::Next(item)),
            },
            Err(Fault::Code(code)) => self.put(Signal::Error(Cause::Function(code))),
            Err(Fault::Memory) => return Err(Signal::Next(item)),
        }
        Ok(())
    }
}

/// The seed of a `scan` needs no item.
// Were it inlined, its subtraction would be made for each operator.
#[inline(never)]
pub(crate) fn want(asked: u64) -> u64
    ensures { result ≡ asked - 1 }
{
    asked.saturating_sub(1)
}

/// What a `scan` in a chain answers.
pub(crate) trait ScanAnswer<T: Drop> {
    ghost came: { Self → EmissionSpec T };

    ghost item: { Self → T };

    /// What it answers to an item, and to the ending behind it. For want of memory the item comes back.
    fn answer_scan<O: Ops<Item = T>>(
        self,
        alloc: Global,
        ops: &O,
        function: u16,
        last: &T,
    ) -> Result<Prepared<T>, T>
        ensures answer { IsPreparation (O.meaning ops.now) (O.allocates ops.now) (ScanFrom function last.now)
            (came self) result (ScanFrom function last.now) }
        ensures err { IfErr result (λ x. x ≡ item self) };
}

impl<T: Drop> ScanAnswer<T> for Arrival<T> {
    ghost came = { λ a. item_ended a.item a.ending };

    ghost item = { λ a. a.item };

    fn answer_scan<O: Ops<Item = T>>(
        self,
        alloc: Global,
        ops: &O,
        function: u16,
        last: &T,
    ) -> Result<Prepared<T>, T> {
        let Arrival { item, ending } = self;
        match ops.fold(alloc, function, last, &item) {
            Ok(next) => match ops.copy(alloc, &next) {
                Ok(copy) => Ok(Prepared {
                    pending: Pending::Accumulated(item, next),
                    answer: Emission {
                        item: Some(copy),
                        ending,
                    },
                }),
                Err(NoMemory) => Err(item),
            },
            Err(Fault::Code(code)) => Ok(failed(item, code)),
            Err(Fault::Memory) => Err(item),
        }
    }
}
