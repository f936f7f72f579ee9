//! The functions of the caller.

ghost use Rattle.std.specs.Prelude.{◌≡◌, ◌≢◌, false, IfOk, IfErr, IsOk};
ghost use Rattle.rsx_types.specs.Meaning.{Meaning, Allocates, Answers, AnswersList, IsLawful};

use crate::fault::{Fault, NoMemory};
use std::alloc::Global;

/// What the operators do to items: the functions of the caller, each named by a number.
///
/// `meaning` says what each function answers, want of memory aside; so an answer depends on nothing but the arguments.
/// A copy equals its original. `lawful` keeps the limits: an expansion has at most 1,024 items, and the number of a fault
/// is at most 4,294,967,294.
///
/// `allocates` says which functions may allocate: the others never answer want of memory, and no operator answers it for
/// them.
pub trait Ops: Copy + Send + Sync {
    /// An item of a stream.
    type Item: Drop + Send;

    ghost meaning: { Self → Meaning Self.Item };

    ghost allocates: { Self → Allocates };

    /// The answer of `map` for `x`.
    fn map(&self, alloc: Global, f: u16, x: &Self::Item) -> Result<Self::Item, Fault>
        ensures answer { Answers result ((meaning self.now).mapped f x.now) }
        ensures memory { (allocates self.now).mapped ≡ false → IfErr result (λ e. e ≢ Fault.Memory) };

    /// Whether `filter` keeps `x`.
    fn test(&self, f: u16, x: &Self::Item) -> Result<bool, Fault>
        ensures answer { Answers result ((meaning self.now).tested f x.now) }
        ensures memory { (allocates self.now).tested ≡ false → IfErr result (λ e. e ≢ Fault.Memory) };

    /// The accumulation of `scan` after `acc`, with `x`.
    fn fold(
        &self,
        alloc: Global,
        f: u16,
        acc: &Self::Item,
        x: &Self::Item,
    ) -> Result<Self::Item, Fault>
        ensures answer { Answers result ((meaning self.now).folded f acc.now x.now) }
        ensures memory { (allocates self.now).folded ≡ false → IfErr result (λ e. e ≢ Fault.Memory) };

    /// The key of `x` for `distinct` and `groupBy`.
    fn key(&self, f: u16, x: &Self::Item) -> Result<u64, Fault>
        ensures answer { Answers result ((meaning self.now).keyed f x.now) }
        ensures memory { (allocates self.now).keyed ≡ false → IfErr result (λ e. e ≢ Fault.Memory) };

    /// The inner stream that `flatMap` makes of `x`: at most 1,024 items.
    fn expand(&self, alloc: Global, f: u16, x: &Self::Item) -> Result<Vec<Self::Item>, Fault>
        ensures answer { AnswersList result ((meaning self.now).expanded f x.now) }
        ensures memory { (allocates self.now).expanded ≡ false → IfErr result (λ e. e ≢ Fault.Memory) };

    /// One item of the items of a row, for `zip` and `combineLatest`.
    fn row(&self, alloc: Global, xs: &[Self::Item]) -> Result<Self::Item, NoMemory>
        ensures answer { IfOk result (λ y. y ≡ (meaning self.now).row_of xs.now) }
        ensures memory { (allocates self.now).row_of ≡ false → IsOk result };

    /// One item of a list of items, for `buffer`.
    fn list(&self, alloc: Global, xs: &[Self::Item]) -> Result<Self::Item, NoMemory>
        ensures answer { IfOk result (λ y. y ≡ (meaning self.now).list_of xs.now) }
        ensures memory { (allocates self.now).list_of ≡ false → IsOk result };

    /// The item `x` with the key of its lane, for `groupBy`.
    fn tag(&self, alloc: Global, key: u64, x: &Self::Item) -> Result<Self::Item, NoMemory>
        ensures answer { IfOk result (λ y. y ≡ (meaning self.now).tagged key x.now) }
        ensures memory { (allocates self.now).tagged ≡ false → IsOk result };

    /// A copy of `x`.
    fn copy(&self, alloc: Global, x: &Self::Item) -> Result<Self::Item, NoMemory>
        ensures answer { IfOk result (λ y. y ≡ x.now) }
        ensures memory { (allocates self.now).copied ≡ false → IsOk result };

    /// The item of a number, for `range`.
    fn from_i64(&self, alloc: Global, v: i64) -> Result<Self::Item, NoMemory>
        ensures answer { IfOk result (λ y. y ≡ (meaning self.now).number v) }
        ensures memory { (allocates self.now).number ≡ false → IsOk result };

    ghost lawful: { (o : Self) → IsLawful Self.Item (meaning o) };
}
