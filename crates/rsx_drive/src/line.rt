//! Expressions as lines.

ghost use Rattle.std.specs.Fmt.{WritesOnOk};
ghost use Rattle.rsx_script.specs.Orders.{tree_of, trees_of};
ghost use Rattle.rsx_drive.specs.Text.{tree_text, trees_text};
ghost use Rattle.std.specs.Prelude.{map};

use crate::operator::{Operator, inputs_of};
use rsx_demo::Val;
use rsx_model::Expr;
use std::fmt;

/// An expression as the line of a script that is it, as `(map double (range 1 5))`.
///
/// A function that has no name in scripts is written by its number, and an item that is a list in brackets, as `[1 2]`. Scripts have no
/// way to write these, so no line is such an expression; nor is one an expression with an operator of several inputs that has none. Printing
/// takes some stack for each level of the expression.
#[derive(Clone, Copy)]
pub struct Line<'e>(pub &'e Expr<Val>);

impl fmt::Display for Line<'_> {
    ghost use Rattle.std.specs.Prelude.{Some};
    ghost use Rattle.rsx_script.specs.Orders.{tree_of};
    ghost use Rattle.rsx_drive.specs.Text.{tree_text};

    ghost output = { λ line. Some (tree_text (tree_of line.0.now)) };

    fn fmt<W: fmt::Write>(&self, f: &mut fmt::Formatter<W>) -> fmt::Result {
        write_tree(f, self.0)
    }
}

/// An expression.
#[cycle(tree)]
fn write_tree<W: fmt::Write>(f: &mut fmt::Formatter<W>, expr: &Expr<Val>) -> fmt::Result
    ensures { WritesOnOk W.write_str_gives f.old result (tree_text (tree_of expr.now)) f.new }
{
    write!(f, "({}", Operator(expr))?;
    write_trees(f, inputs_of(expr))?;
    f.write_str(")")
}

/// Each expression behind a space.
#[cycle(tree)]
fn write_trees<W: fmt::Write>(f: &mut fmt::Formatter<W>, exprs: &[Expr<Val>]) -> fmt::Result
    ensures { WritesOnOk W.write_str_gives f.old result (trees_text (trees_of (map tree_of exprs.now))) f.new }
{
    for expr in exprs {
        f.write_str(" ")?;
        write_tree(f, expr)?;
    }
    Ok(())
}
