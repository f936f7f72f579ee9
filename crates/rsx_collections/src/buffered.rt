//! The items that `buffer` has gathered.

ghost use Rattle.std.specs.Prelude.{◌≡◌, [], ◌∷◌, ◌++◌, IfErr, OnOk, OnErr};
ghost use Rattle.std.specs.Option.{option_to_list, IfNone};

use crate::copied::Copied;
use rsx_types::{NoMemory, Ops};
use std::alloc::Global;
use std::marker::Model;

/// The items that came in since the last list came out, in their order. Contracts see the list of them.
#[derive(Drop)]
pub struct Buffered<T> {
    items: Vec<T>,
}

impl<T> Model for Buffered<T> {
    ghost use Rattle.std.specs.Prelude.{List};

    ghost Value = { List T };

    ghost view = { λ b. b.items.items };
}

impl<T: Drop> Buffered<T> {
    /// No items. It takes no memory.
    pub fn new(alloc: Global) -> Buffered<T>
        ensures { result ≡ [] }
    {
        Buffered {
            items: Vec::new(alloc),
        }
    }

    /// The items, in their order.
    pub fn items(&self) -> &[T]
        ensures { result.now ≡ self.now }
    {
        self.items.as_slice()
    }

    /// Puts an item behind the others. For want of memory it comes back, and nothing has changed.
    pub fn push(&mut self, item: T) -> Result<(), T>
        ensures ok { OnOk result (self.new ≡ self.old ++ item ∷ []) }
        ensures err { IfErr result (λ x. x ≡ item) }
        ensures same { OnErr result (self.new ≡ self.old) }
    {
        match self.items.push(item) {
            Ok(()) => Ok(()),
            Err(failed) => Err(failed.value),
        }
    }

    /// Takes the last item, if there is one.
    pub fn pop(&mut self) -> Option<T>
        ensures rest { self.old ≡ self.new ++ option_to_list result }
        ensures none { IfNone result (self.old ≡ []) }
    {
        self.items.pop()
    }

    /// Lets all items go. It keeps its memory.
    pub fn clear(&mut self)
        ensures { self.new ≡ [] }
    {
        self.items.clear();
    }
}

impl<T: Drop> Copied<T> for Buffered<T> {
    fn copied<O: Ops<Item = T>>(&self, alloc: Global, ops: &O) -> Result<Buffered<T>, NoMemory> {
        let mut items = Vec::with_capacity(alloc, self.items.capacity())?;
        for item in &self.items {
            let copy = ops.copy(alloc, item)?;
            items.push(copy)?;
        }
        Ok(Buffered { items })
    }
}
