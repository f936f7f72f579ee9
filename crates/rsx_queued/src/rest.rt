//! What an out slot puts in front of what follows.

ghost use Rattle.std.specs.Prelude.{◌≡◌, Option, Some, IfOk};
ghost use Rattle.rsx_types.specs.declared.signal.Ending.TheVariants.{Done};
ghost use Rattle.rsx_types.specs.Stream.{Stream, ended_by};
ghost use Rattle.rsx_queued.specs.Output.{output_then};

use crate::output::Output;
use rsx_types::{Ending, NoMemory, Ops, Signal, StreamValue};
use std::alloc::Global;

/// What stands in an out slot, in front of what follows.
pub trait InFront<T: Drop> {
    /// What comes out, where this follows; an ending cuts it.
    ghost then: { Self → Stream T → Option (Stream T) };

    /// The value that comes out, where this value follows what stands in the slot.
    ///
    /// # Errors
    /// [`NoMemory`] where a growth was refused, in `Ops::copy` too.
    fn in_front<O: Ops<Item = T>>(
        &self,
        alloc: Global,
        ops: &O,
        rest: StreamValue<T>,
    ) -> Result<StreamValue<T>, NoMemory>
        ensures { IfOk result (λ v. then self.now rest ≡ Some v) };
}

impl<T: Drop> InFront<T> for Output<T> {
    ghost then = { λ out v. output_then out (Some v) (Some (ended_by Done)) };

    fn in_front<O: Ops<Item = T>>(
        &self,
        alloc: Global,
        ops: &O,
        rest: StreamValue<T>,
    ) -> Result<StreamValue<T>, NoMemory>
        ensures { IfOk result (λ v. output_then self.now (Some rest) (Some (ended_by Done)) ≡ Some v) }
    {
        match self {
            Output::Empty => Ok(rest),
            Output::Waiting(Signal::Next(item)) => {
                let ending = rest.ending();
                let mut items = rest.into_items();
                let copy = ops.copy(alloc, item)?;
                items.insert(0, copy)?;
                Ok(StreamValue::new(items, ending))
            }
            Output::Waiting(Signal::Complete) => Ok(StreamValue::new(
                Vec::new(alloc),
                Ending::Done,
            )),
            Output::Waiting(Signal::Error(cause)) => {
                Ok(StreamValue::new(Vec::new(alloc), Ending::Failed(*cause)))
            }
            Output::Over => Ok(StreamValue::new(Vec::new(alloc), Ending::Done)),
        }
    }
}
