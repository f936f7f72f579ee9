//! `map`: the answers of a function.

ghost use Rattle.std.specs.Prelude.{◌≡◌, List, [], IfErr};
ghost use Rattle.rsx_types.specs.declared.signal.Signal.{Signal};
ghost use Rattle.rsx_types.specs.declared.signal.Signal.TheVariants.{Next};
ghost use Rattle.rsx_plain.specs.Emission.{item_ended};
ghost use Rattle.rsx_plain.specs.Prepared.{IsPreparation};
ghost use Rattle.rsx_plain.specs.State.{IsReaction};
ghost use Rattle.rsx_plain.specs.declared.prepared.Emission.{Emission as EmissionSpec};
ghost use Rattle.rsx_plain.specs.declared.state.PlainState.TheVariants.{Map as MapFrom};

use crate::prepared::{Arrival, Prepared, failed, kept};
use rsx_sources::OutSlot;
use rsx_types::{Cause, Ending, Fault, Ops, Signal};
use std::alloc::Global;

/// What a `map` puts out.
pub(crate) trait MapReaction<T: Drop> {
    ghost slot: { Self → List (Signal T) };

    /// Puts the answer to an item into the empty slot. For want of memory the item comes back, and nothing has changed.
    fn map<O: Ops<Item = T>>(
        &mut self,
        alloc: Global,
        ops: &O,
        function: u16,
        item: T,
    ) -> Result<(), Signal<T>>
        requires { slot self.old ≡ [] }
        ensures { IsReaction (O.meaning ops.now) (O.allocates ops.now) (MapFrom function) (Next item)
            result (slot self.new) (MapFrom function) };
}

impl<T: Drop> MapReaction<T> for OutSlot<T> {
    ghost slot = { λ s. s };

    fn map<O: Ops<Item = T>>(
        &mut self,
        alloc: Global,
        ops: &O,
        function: u16,
        item: T,
    ) -> Result<(), Signal<T>> {
        match ops.map(alloc, function, &item) {
            Ok(answer) => self.put(Signal::Next(answer)),
            Err(Fault::Code(code)) => self.put(Signal::Error(Cause::Function(code))),
            Err(Fault::Memory) => return Err(Signal::Next(item)),
        }
        Ok(())
    }
}

/// What a `map` in a chain answers.
pub(crate) trait MapAnswer<T: Drop> {
    ghost came: { Self → EmissionSpec T };

    ghost item: { Self → T };

    /// What it answers to an item, and to the ending behind it. For want of memory the item comes back.
    fn answer_map<O: Ops<Item = T>>(
        self,
        alloc: Global,
        ops: &O,
        function: u16,
    ) -> Result<Prepared<T>, T>
        ensures answer { IsPreparation (O.meaning ops.now) (O.allocates ops.now) (MapFrom function)
            (came self) result (MapFrom function) }
        ensures err { IfErr result (λ x. x ≡ item self) };
}

impl<T: Drop> MapAnswer<T> for Arrival<T> {
    ghost came = { λ a. item_ended a.item a.ending };

    ghost item = { λ a. a.item };

    fn answer_map<O: Ops<Item = T>>(
        self,
        alloc: Global,
        ops: &O,
        function: u16,
    ) -> Result<Prepared<T>, T> {
        let Arrival { item, ending } = self;
        match ops.map(alloc, function, &item) {
            Ok(answer) => Ok(kept(item, Some(answer), ending)),
            Err(Fault::Code(code)) => Ok(failed(item, code)),
            Err(Fault::Memory) => Err(item),
        }
    }
}
