//! Copies of what holds items of the caller.

use rsx_types::{NoMemory, Ops};
use std::alloc::Global;

/// What can be made once more with the caller's copies of items.
pub trait Copied<T: Drop> {
    ghost use Rattle.std.specs.Prelude.{◌≡◌, IfOk};

    /// The same once more. For want of memory the answer is [`NoMemory`].
    fn copied<O: Ops<Item = T>>(&self, alloc: Global, ops: &O) -> Result<Self, NoMemory>
        ensures { IfOk result (λ copy. copy ≡ self.now) };
}
