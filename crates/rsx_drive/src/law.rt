//! What the text is for.

ghost use Rattle.rsx_script.specs.Orders.{tree_of};
ghost use Rattle.rsx_drive.specs.Text.{ReadsBack};

use rsx_demo::Val;
use rsx_model::Expr;

/// The line of an expression is read as that expression ([`rsx_script::parse_expr`] answers what its contract says of the line), where
/// scripts can write it and the line isn't too long: each function has a name, each item and each seed is a number, an operator of
/// several inputs has one at least, and the line has at most 4,096 bytes. It does nothing.
pub fn reads_back(expr: &Expr<Val>)
    ensures { ReadsBack (tree_of expr.now) }
{}
