//! Laws above the definitions of the operators. Each is the contract of a function that does nothing.

ghost use Rattle.std.specs.Prelude.{◌≡◌, ℕ, List, map, Ok, Some};
ghost use Rattle.rsx_types.specs.Meaning.{Meaning};
ghost use Rattle.rsx_types.specs.Stream.{Stream};
ghost use Rattle.rsx_types.specs.declared.note.Note.{Note};
ghost use Rattle.rsx_model.specs.Eval.{Environment, environment, environment_until_stop, eval};
ghost use Rattle.rsx_model.specs.Laws.{ScanFolds, IsCut, BufferCuts, DistinctKeepsFirst, NoBadRequest};

use crate::Expr;

/// The k-th item of a `scan`, counted from 0, is the fold of the first k items of its input from the seed, where that has
/// no fault; there are no others; and its ending is the input's, or the failure by the first fault.
pub fn scan_folds<T>()
    ensures { (m : Meaning T) (f : ℕ) (seed : T) (v : Stream T) → ScanFolds m f seed v }
{}

/// However the items are cut into lists of n and a rest that is shorter, a `buffer` of n gives these lists, and the rest
/// only at a completion, if there is one; and its ending is the input's.
pub fn buffer_cuts<T>()
    ensures { (m : Meaning T) (n : ℕ) (v : Stream T) (lists : List (List T)) (rest : List T)
        → IsCut n v.items lists rest → BufferCuts m n v lists rest }
{}

/// Behind items that have these keys, a further item stays in a `distinct` exactly where none of them is its key; where
/// its key is a fault, nothing more comes but the failure by this fault.
pub fn distinct_keeps_first<T>()
    ensures { (m : Meaning T) (f : ℕ) (xs : List T) (keys : List ℕ) (x : T)
        → map (m.keyed f) xs ≡ map Ok keys → DistinctKeepsFirst m f xs keys x }
{}

/// The value of an expression never fails as a subscription does after a bad request, with
/// `Cause::NonPositiveRequest`, where no hub's value does.
pub fn never_a_bad_request<T>()
    ensures { (w : Environment T) (e : Expr T) → NoBadRequest w e }
{}

/// Where an expression has a value with nothing chosen behind the point where the rows of a `combineLatest` stop, that is its value.
/// So nodes choose, which have ended there: what is said of graphs by that value is said of the value from scratch.
pub fn value_until_stop<T>()
    ensures { (m : Meaning T) (hubs : List (Stream T)) (joins : List ℕ) (notes : List Note) (e : Expr T) (s : Stream T)
        → eval (environment_until_stop m hubs joins notes) e ≡ Some s → eval (environment m hubs joins notes) e ≡ Some s }
{}
