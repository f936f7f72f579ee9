//! The inputs of an operator that has several.

ghost use Rattle.std.specs.Prelude.{◌≡◌, List, Option, IfOk, map};
ghost use Rattle.rsx.specs.Built.{built};
ghost use Rattle.rsx_model.specs.declared.expr.Expr.{Expr as ExprSpec};

use crate::flux::Flux;
use rsx_model::Expr;
use rsx_types::NoMemory;
use std::alloc::Global;

/// The inputs of an operator that has several, in their order: an array or a `Vec` of what was built.
pub trait Inputs<T> {
    ghost inputs: { Self → List (Option (ExprSpec T)) };

    /// The list of the inputs.
    fn into_list(self, alloc: Global) -> Result<Vec<Flux<T>>, NoMemory>
        ensures { IfOk result (λ v. map built v.items ≡ inputs self) };
}

impl<T: Drop, const N: usize> Inputs<T> for [Flux<T>; N] {
    ghost inputs = { λ list. map built list };

    fn into_list(self, alloc: Global) -> Result<Vec<Flux<T>>, NoMemory> {
        Ok(Vec::from_array(alloc, self)?)
    }
}

impl<T: Drop> Inputs<T> for Vec<Flux<T>> {
    ghost inputs = { λ list. map built list.items };

    fn into_list(self, _alloc: Global) -> Result<Vec<Flux<T>>, NoMemory> {
        Ok(self)
    }
}
