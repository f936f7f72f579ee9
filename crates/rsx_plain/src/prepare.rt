//! Answers that can still go back, for chains: prepare, and then commit or roll back.

ghost use Rattle.std.specs.Prelude.{◌≡◌, false, IfOk, IfErr, IsOk, OnErr};
ghost use Rattle.rsx_plain.specs.Prepared.{IsPrepared};
ghost use Rattle.rsx_plain.specs.State.{allocates_from};
ghost use Rattle.rsx_plain.specs.declared.state.PlainState.{PlainState as PlainStateSpec};

use crate::prepared::{Emission, Prepared};
use crate::state::{Answering, PlainState};
use rsx_types::{NoMemory, Ops};
use std::alloc::Global;

/// The answers of an operator in a chain, in two steps, like a transaction.
pub trait Preparing<T: Drop> {
    ghost state: { Self → PlainStateSpec T };

    /// What the operator answers to an emission. The answer stands once it is committed ([`PlainState::commit`]), and
    /// [`PlainState::roll_back`] undoes it; until then the operator takes nothing more. For want of memory the emission comes
    /// back, and nothing has changed; that comes only where the operator may allocate.
    fn prepare<O: Ops<Item = T>>(
        &mut self,
        alloc: Global,
        ops: &O,
        emission: Emission<T>,
    ) -> Result<Prepared<T>, Emission<T>>
        ensures ok { IfOk result (λ a. IsPrepared (O.meaning ops.now) (state self.old) emission (state self.new) a) }
        ensures err { IfErr result (λ p. p ≡ emission) }
        ensures same { OnErr result (self.new ≡ self.old) }
        ensures memory { allocates_from (O.allocates ops.now) (state self.old) ≡ false → IsOk result };
}

impl<T: Drop> Preparing<T> for PlainState<T> {
    ghost state = { λ s. s };

    fn prepare<O: Ops<Item = T>>(
        &mut self,
        alloc: Global,
        ops: &O,
        emission: Emission<T>,
    ) -> Result<Prepared<T>, Emission<T>>
        ensures ok { IfOk result (λ a. IsPrepared (O.meaning ops.now) self.old emission self.new a) }
        ensures err { IfErr result (λ p. p ≡ emission) }
        ensures same { OnErr result (self.new ≡ self.old) }
        ensures memory { allocates_from (O.allocates ops.now) self.old ≡ false → IsOk result }
    {
        let ending = emission.ending;
        match emission.item {
            Some(item) => match self.to_item(alloc, ops, item, ending) {
                Ok(prepared) => Ok(prepared),
                Err(item) => Err(Emission {
                    item: Some(item),
                    ending,
                }),
            },
            None => match self.to_ending(alloc, ops, ending) {
                Ok(prepared) => Ok(prepared),
                Err(NoMemory) => Err(Emission { item: None, ending }),
            },
        }
    }
}
