//! `distinct`: the first item of each key.

ghost use Rattle.std.specs.Prelude.{◌≡◌, ◌+◌, min, List, [], IfErr};
ghost use Rattle.rsx_types.specs.declared.signal.Signal.{Signal};
ghost use Rattle.rsx_types.specs.declared.signal.Signal.TheVariants.{Next};
ghost use Rattle.rsx_plain.specs.Emission.{item_ended};
ghost use Rattle.rsx_plain.specs.Prepared.{IsPreparation};
ghost use Rattle.rsx_plain.specs.State.{IsReaction};
ghost use Rattle.rsx_plain.specs.declared.prepared.Emission.{Emission as EmissionSpec};
ghost use Rattle.rsx_plain.specs.declared.state.PlainState.TheVariants.{Distinct as DistinctFrom};

use crate::prepared::{Arrival, Prepared, failed, forwarded, kept};
use rsx_collections::Keys;
use rsx_demand::UNBOUNDED;
use rsx_sources::OutSlot;
use rsx_types::{Cause, Ending, Fault, NoMemory, Ops, Signal};

/// What a `distinct` puts out.
pub(crate) trait DistinctReaction<T: Drop> {
    ghost slot: { Self → List (Signal T) };

    /// Puts an item whose key is new into the empty slot, and counts one whose key is not. For want of memory the item comes back,
    /// and nothing has changed.
    fn distinct<O: Ops<Item = T>>(
        &mut self,
        ops: &O,
        function: u16,
        keys: &mut Keys,
        repeated: &mut u64,
        item: T,
    ) -> Result<(), Signal<T>>
        requires { slot self.old ≡ [] }
        ensures { IsReaction (O.meaning ops.now) (O.allocates ops.now) (DistinctFrom function keys.old repeated.old) (Next item)
            result (slot self.new) (DistinctFrom function keys.new repeated.new) };
}

impl<T: Drop> DistinctReaction<T> for OutSlot<T> {
    ghost slot = { λ s. s };

    fn distinct<O: Ops<Item = T>>(
        &mut self,
        ops: &O,
        function: u16,
        keys: &mut Keys,
        repeated: &mut u64,
        item: T,
    ) -> Result<(), Signal<T>> {
        match ops.key(function, &item) {
            Ok(key) => match keys.note(key) {
                Ok(false) => self.put(Signal::Next(item)),
                Ok(true) => *repeated = repeated.saturating_add(1).min(UNBOUNDED),
                Err(NoMemory) => return Err(Signal::Next(item)),
            },
            Err(Fault::Code(code)) => self.put(Signal::Error(Cause::Function(code))),
            Err(Fault::Memory) => return Err(Signal::Next(item)),
        }
        Ok(())
    }
}

/// An item whose key was known is asked for again.
#[inline]
pub(crate) fn want(asked: u64, repeated: u64) -> u64
    ensures { result ≡ min UNBOUNDED (asked + repeated) }
{
    asked.saturating_add(repeated).min(UNBOUNDED)
}

/// What a `distinct` in a chain answers.
pub(crate) trait DistinctAnswer<T: Drop> {
    ghost came: { Self → EmissionSpec T };

    ghost item: { Self → T };

    /// What it answers to an item, and to the ending behind it. A chain asks for nothing, so an item whose key is known isn't
    /// counted. For want of memory the item comes back, and nothing has changed.
    fn answer_distinct<O: Ops<Item = T>>(
        self,
        ops: &O,
        function: u16,
        keys: &mut Keys,
        repeated: u64,
    ) -> Result<Prepared<T>, T>
        ensures answer { IsPreparation (O.meaning ops.now) (O.allocates ops.now) (DistinctFrom function keys.old repeated)
            (came self) result (DistinctFrom function keys.new repeated) }
        ensures err { IfErr result (λ x. x ≡ item self) };
}

impl<T: Drop> DistinctAnswer<T> for Arrival<T> {
    ghost came = { λ a. item_ended a.item a.ending };

    ghost item = { λ a. a.item };

    #[tactic(auto, using(crate::proofs::Prepares::without_last_after))]
    fn answer_distinct<O: Ops<Item = T>>(
        self,
        ops: &O,
        function: u16,
        keys: &mut Keys,
        repeated: u64,
    ) -> Result<Prepared<T>, T> {
        let Arrival { item, ending } = self;
        match ops.key(function, &item) {
            Ok(key) => match keys.note(key) {
                Ok(false) => Ok(forwarded(item, ending)),
                Ok(true) => Ok(kept(item, None, ending)),
                Err(NoMemory) => Err(item),
            },
            Err(Fault::Code(code)) => Ok(failed(item, code)),
            Err(Fault::Memory) => Err(item),
        }
    }
}
