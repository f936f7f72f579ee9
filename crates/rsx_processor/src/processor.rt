//! What an operator with one input does with each item.

ghost use Rattle.std.specs.Prelude.{◌≡◌, ℕ, Bool, List};
ghost use Rattle.rsx_types.specs.Meaning.{Meaning, Allocates};

use rsx_types::{NoMemory, Ops};
use std::alloc::Global;

/// An operator with one input, which puts out at most one item for each that comes in, and hands the ending on.
pub trait Processor {
    /// An item of its streams.
    type Item: Drop;

    /// The items that come out from this state on, where these come in.
    ghost from: { Meaning Self.Item → Self → List Self.Item → List Self.Item };

    /// Whether so many items may have come in, and so many have been put out.
    ghost balanced: { Self → ℕ → ℕ → Type 0 };

    /// How many items of the input are to be asked for, where so many are asked of the operator.
    ghost wanted: { Self → ℕ → ℕ };

    /// Whether taking an item may allocate, where these of the caller's functions may.
    ghost allocates: { Allocates → Self → Bool };

    ghost use Rattle.std.specs.Prelude.{◌≡◌, ◌+◌, ◌<◌, ◌∷◌, ◌++◌, [], length, false, OnErr, IfOk, IfErr, IsOk};
    ghost use Rattle.std.specs.Option.{option_to_list};
    ghost use Rattle.rsx_demand.specs.declared.TheConstants.{UNBOUNDED};

    /// Takes an item, and answers what is put out for it. For want of memory the item comes back, and the operator is as it was.
    fn on_next<O: Ops<Item = Self::Item>>(
        &mut self,
        alloc: Global,
        ops: &O,
        item: Self::Item,
    ) -> Result<Option<Self::Item>, Self::Item>
        ensures next { IfOk result (λ o. (more : List Self.Item) →
            from (O.meaning ops.now) self.old (item ∷ more) ≡ option_to_list o ++ from (O.meaning ops.now) self.new more) }
        ensures balanced { IfOk result (λ o. (taken put : ℕ) →
            balanced self.old taken put → balanced self.new (taken + 1) (put + length (option_to_list o))) }
        ensures err { IfErr result (λ x. x ≡ item) }
        ensures memory { allocates (O.allocates ops.now) self.old ≡ false → IsOk result }
        ensures alike { (a : Allocates) → allocates a self.new ≡ allocates a self.old }
        ensures same { OnErr result (self.new ≡ self.old) };

    /// How many items of the input are to be asked for, where so many are asked of the operator.
    fn want(&self, asked: u64) -> u64
        ensures { result ≡ wanted self.now asked };

    /// Puts copies of the items that come out, where these come in, behind these.
    fn rest<O: Ops<Item = Self::Item>>(
        &self,
        alloc: Global,
        ops: &O,
        items: &[Self::Item],
        out: &mut Vec<Self::Item>,
    ) -> Result<(), NoMemory>
        ensures { IfOk result (λ done. out.new.items ≡ out.old.items ++ from (O.meaning ops.now) self.now items.now) };

    /// Where nothing comes in, nothing comes out.
    ghost nothing: { (m : Meaning Self.Item) (p : Self) → from m p [] ≡ [] };

    /// Where more is asked of it than it put out, it wants more than it took in.
    ghost wants_more: { (p : Self) (taken put asked : ℕ) → balanced p taken put → put < asked → taken < UNBOUNDED → taken < wanted p asked };
}
