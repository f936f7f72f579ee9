//! The region of an expression: the number of the worker that serves its root, and so delivers its signals.
//!
//! A `publishOn` is in the region of its worker, each other node in that of its first input, and a leaf in region 0. The definition,
//! `region_of` of expressions, stands in `specs/Region`.

ghost use Rattle.std.specs.Prelude.{◌≡◌};
ghost use Rattle.rsx_model.specs.declared.expr.Expr.TheViews.{out-Expr};
ghost use Rattle.rsx_model.specs.Region.{region_of, worker_here};

use crate::{Below, Expr, below_of};

/// The region of an expression's root. It takes no memory, and goes as deep as the first inputs do, down to a `publishOn`.
pub fn region_of<T>(expr: &Expr<T>) -> u8
    ensures { result ≡ region_of expr.now }
{
    if let Some(worker) = own_worker(expr) {
        return worker;
    }
    match below_of(expr) {
        Below::One(input) => region_of(input),
        Below::Inputs([first, ..]) => region_of(first),
        Below::Inputs(_) => 0,
    }
}

/// The worker of a `publishOn`.
fn own_worker<T>(expr: &Expr<T>) -> Option<u8>
    ensures { result ≡ worker_here (out-Expr T expr.now) }
{
    match expr {
        Expr::On(worker, _, _) => Some(*worker),
        Expr::OnEager(worker, _, _) => Some(*worker),
        Expr::Items(_) | Expr::Range(_, _) | Expr::Hub(_) => None,
        Expr::Plain(_, _) | Expr::Concat(_) => None,
        Expr::Merge(_, _) | Expr::MergeDelay(_, _) => None,
        Expr::Zip(_, _) | Expr::Latest(_, _) => None,
        Expr::Group(_, _, _) | Expr::Window(_, _, _) => None,
        Expr::Flat(_, _, _, _) | Expr::FlatDelay(_, _, _, _) => None,
    }
}
