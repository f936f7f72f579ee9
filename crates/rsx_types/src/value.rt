//! Stream values as the slow evaluator and `owed` answer them.

ghost use Rattle.std.specs.Prelude.{◌≡◌};

use crate::signal::Ending;
use std::marker::Model;

/// A stream value: a list of items with an ending. Two are equal where their items are, one by one, and their endings.
#[derive(Debug, Drop)]
pub struct StreamValue<T> {
    items: Vec<T>,
    ending: Ending,
}

impl<T> Model for StreamValue<T> {
    ghost use Rattle.rsx_types.specs.Stream.{Stream};

    ghost Value = { Stream T };

    ghost view = { λ v. record { items = v.items.items; ending = v.ending } };
}

impl<T> StreamValue<T> {
    /// The value with these items and this ending. It takes no memory.
    pub fn new(items: Vec<T>, ending: Ending) -> StreamValue<T>
        ensures items { result.items ≡ items.items }
        ensures ending { result.ending ≡ ending }
    {
        StreamValue { items, ending }
    }

    /// The items, in their order.
    pub fn items(&self) -> &[T]
        ensures { result.now ≡ self.now.items }
    {
        self.items.as_slice()
    }

    /// How the value ends.
    pub fn ending(&self) -> Ending
        ensures { result ≡ self.now.ending }
    {
        self.ending
    }

    /// The list of the items. It takes no memory.
    pub fn into_items(self) -> Vec<T>
        ensures { result.items ≡ self.items }
    {
        self.items
    }
}

impl<T: PartialEq> PartialEq for StreamValue<T> {
    ghost use Rattle.std.specs.Ordering.{on, eq_of_both};
    ghost use Rattle.std.specs.Cmp.Lexicographic.{pointwise, lists_per};
    ghost use Rattle.std.specs.Cmp.{and_per, on_per};
    ghost use Rattle.std.specs.Cmp.Rules.{comparing};
    ghost use Rattle.std.proofs.Common.{rules};

    ghost eq = { eq_of_both (on (λ v. v.items) (pointwise T.eq)) (on (λ v. v.ending) ⟦<Ending as PartialEq>⟧.eq) };

    ghost laws = { and_per (on_per (λ v. v.items) (lists_per T.laws)) (on_per (λ v. v.ending) (Prim.search (comparing, rules))) };

    fn eq(&self, other: &StreamValue<T>) -> bool {
        let has_equal_items = self.items == other.items;
        has_equal_items && self.ending == other.ending
    }
}

impl<T: Eq> Eq for StreamValue<T> {
    ghost use Rattle.std.specs.Cmp.{and_equiv, on_equiv};
    ghost use Rattle.std.specs.Cmp.Lexicographic.{lists_equiv};
    ghost use Rattle.std.specs.Cmp.Rules.{comparing};
    ghost use Rattle.std.proofs.Common.{rules};

    ghost laws = { and_equiv (on_equiv (λ v. v.items) (lists_equiv T.Eq.laws)) (on_equiv (λ v. v.ending) (Prim.search (comparing, rules))) };
}
