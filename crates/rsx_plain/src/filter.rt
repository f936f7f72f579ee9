//! `filter`: the items whose test is true.

ghost use Rattle.std.specs.Prelude.{◌≡◌, ◌+◌, min, List, [], IfErr};
ghost use Rattle.rsx_types.specs.declared.signal.Signal.{Signal};
ghost use Rattle.rsx_types.specs.declared.signal.Signal.TheVariants.{Next};
ghost use Rattle.rsx_plain.specs.Emission.{item_ended};
ghost use Rattle.rsx_plain.specs.Prepared.{IsPreparation};
ghost use Rattle.rsx_plain.specs.State.{IsReaction};
ghost use Rattle.rsx_plain.specs.declared.prepared.Emission.{Emission as EmissionSpec};
ghost use Rattle.rsx_plain.specs.declared.state.PlainState.TheVariants.{Filter as FilterFrom};

use crate::prepared::{Arrival, Prepared, failed, forwarded, kept};
use rsx_demand::UNBOUNDED;
use rsx_sources::OutSlot;
use rsx_types::{Cause, Ending, Fault, Ops, Signal};

/// What a `filter` puts out.
pub(crate) trait FilterReaction<T: Drop> {
    ghost slot: { Self → List (Signal T) };

    /// Puts an item whose test is true into the empty slot, and counts one whose test is false. For want of memory the item comes
    /// back, and nothing has changed.
    fn filter<O: Ops<Item = T>>(
        &mut self,
        ops: &O,
        function: u16,
        dropped: &mut u64,
        item: T,
    ) -> Result<(), Signal<T>>
        requires { slot self.old ≡ [] }
        ensures { IsReaction (O.meaning ops.now) (O.allocates ops.now) (FilterFrom function dropped.old) (Next item)
            result (slot self.new) (FilterFrom function dropped.new) };
}

impl<T: Drop> FilterReaction<T> for OutSlot<T> {
    ghost slot = { λ s. s };

    fn filter<O: Ops<Item = T>>(
        &mut self,
        ops: &O,
        function: u16,
        dropped: &mut u64,
        item: T,
    ) -> Result<(), Signal<T>> {
        match ops.test(function, &item) {
            Ok(true) => self.put(Signal::Next(item)),
            Ok(false) => *dropped = dropped.saturating_add(1).min(UNBOUNDED),
            Err(Fault::Code(code)) => self.put(Signal::Error(Cause::Function(code))),
            Err(Fault::Memory) => return Err(Signal::Next(item)),
        }
        Ok(())
    }
}

/// An item that was dropped is asked for again.
#[inline]
pub(crate) fn want(asked: u64, dropped: u64) -> u64
    ensures { result ≡ min UNBOUNDED (asked + dropped) }
{
    asked.saturating_add(dropped).min(UNBOUNDED)
}

/// What a `filter` in a chain answers.
pub(crate) trait FilterAnswer<T: Drop> {
    ghost came: { Self → EmissionSpec T };

    ghost item: { Self → T };

    /// What it answers to an item, and to the ending behind it. A chain asks for nothing, so what is dropped isn't counted. For
    /// want of memory the item comes back.
    fn answer_filter<O: Ops<Item = T>>(
        self,
        ops: &O,
        function: u16,
        dropped: u64,
    ) -> Result<Prepared<T>, T>
        ensures answer { IsPreparation (O.meaning ops.now) (O.allocates ops.now) (FilterFrom function dropped)
            (came self) result (FilterFrom function dropped) }
        ensures err { IfErr result (λ x. x ≡ item self) };
}

impl<T: Drop> FilterAnswer<T> for Arrival<T> {
    ghost came = { λ a. item_ended a.item a.ending };

    ghost item = { λ a. a.item };

    fn answer_filter<O: Ops<Item = T>>(
        self,
        ops: &O,
        function: u16,
        dropped: u64,
    ) -> Result<Prepared<T>, T> {
        let Arrival { item, ending } = self;
        match ops.test(function, &item) {
            Ok(true) => Ok(forwarded(item, ending)),
            Ok(false) => Ok(kept(item, None, ending)),
            Err(Fault::Code(code)) => Ok(failed(item, code)),
            Err(Fault::Memory) => Err(item),
        }
    }
}
