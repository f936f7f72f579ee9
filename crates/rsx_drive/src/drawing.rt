//! The drawing of an expression: its nodes, each on a line of its own.

ghost use Rattle.std.specs.Prelude.{◌≡◌, ◌≤◌, ◌<◌, ◌+◌, ◌++◌, length, map, IfOk, OnOk};
ghost use Rattle.std.specs.String.{string_bytes};
ghost use Rattle.rsx_script.specs.Orders.{tree_of, trees_of};
ghost use Rattle.rsx_drive.specs.Drawn.{all_nodes, all_rows_text, drawn_text, indent_text, nodes, row_text, rows_text};

use crate::operator::{Operator, inputs_of};
use rsx_demo::Val;
use rsx_model::Expr;
use rsx_types::NoMemory;
use std::alloc::Global;
use std::fmt;

/// The drawing of an expression: a line for each node, in pre-order, with its number from 0 and its operator, two spaces further in
/// than the node to which it sends. An operator is written as in [`Line`](crate::Line), without its parentheses and its inputs.
///
/// ```text
/// 0 zip 2
///   1 map double
///     2 range 1 5
///   3 hub 0
/// ```
///
/// # Errors
/// [`NoMemory`] where a growth was refused.
pub fn drawn(alloc: Global, expr: &Expr<Val>) -> Result<String, NoMemory>
    ensures { IfOk result (λ text. string_bytes text ≡ drawn_text (tree_of expr.now)) }
{
    let mut text = String::new(alloc);
    add_tree(0, 0, expr, &mut text)?;
    Ok(text)
}

/// Adds the lines of an expression whose root has this number, and stands so many levels below the root of the whole. Answers the
/// number behind its last.
#[cycle(tree)]
fn add_tree(
    depth: usize,
    number: usize,
    expr: &Expr<Val>,
    text: &mut String,
) -> Result<usize, NoMemory>
    requires deep { depth ≤ number }
    requires small { number ≤ length (string_bytes text.old) }
    ensures added { OnOk result (string_bytes text.new ≡ string_bytes text.old ++ rows_text depth number (tree_of expr.now)) }
    ensures counted { IfOk result (λ next. next ≡ number + nodes (tree_of expr.now)) }
    ensures small { IfOk result (λ next. next ≤ length (string_bytes text.new)) }
{
    add_row(depth, number, expr, text)?;
    add_trees(depth + 1, number + 1, inputs_of(expr), text)
}

/// The same of several expressions, one after the other.
#[cycle(tree)]
fn add_trees(
    depth: usize,
    number: usize,
    exprs: &[Expr<Val>],
    text: &mut String,
) -> Result<usize, NoMemory>
    requires deep { depth ≤ number }
    requires small { number ≤ length (string_bytes text.old) }
    ensures added { OnOk result (string_bytes text.new ≡ string_bytes text.old ++ all_rows_text depth number (trees_of (map tree_of exprs.now))) }
    ensures counted { IfOk result (λ next. next ≡ number + all_nodes (trees_of (map tree_of exprs.now))) }
    ensures small { IfOk result (λ next. next ≤ length (string_bytes text.new)) }
{
    let mut next = number;
    for expr in exprs {
        next = add_tree(depth, next, expr, text)?;
    }
    Ok(next)
}

/// Adds the line of one node.
fn add_row(depth: usize, number: usize, expr: &Expr<Val>, text: &mut String) -> Result<(), NoMemory>
    ensures added { OnOk result (string_bytes text.new ≡ string_bytes text.old ++ row_text depth number (tree_of expr.now)) }
    ensures longer { OnOk result (length (string_bytes text.old) < length (string_bytes text.new)) }
{
    let operator = Operator(expr);
    write!(text, "{}{number} {operator}\n", Indent(depth))?;
    Ok(())
}

/// How far a line is indented.
#[derive(Clone, Copy)]
struct Indent(usize);

/// Two spaces for each level.
impl fmt::Display for Indent {
    ghost use Rattle.std.specs.Prelude.{Some};
    ghost use Rattle.rsx_drive.specs.Drawn.{indent_text};

    ghost output = { λ indent. Some (indent_text indent.0) };

    fn fmt<W: fmt::Write>(&self, f: &mut fmt::Formatter<W>) -> fmt::Result {
        for _ in 0..self.0 {
            f.write_str("  ")?;
        }
        Ok(())
    }
}
