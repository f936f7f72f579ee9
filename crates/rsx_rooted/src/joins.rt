//! How many items the leaves of an expression miss that join their hubs now.

ghost use Rattle.std.specs.Prelude.{◌≡◌, ◌++◌, map, IfOk, OnOk};
ghost use Rattle.rsx_rooted.specs.Built.{in_a_row, join_at, joins_now, new_joins};

use rsx_hub::Hub;
use rsx_model::Expr;
use rsx_types::NoMemory;
use std::alloc::Global;

/// How many items a leaf misses that joins the hub with this number now; 0 where there is no such hub.
fn join_at<T: Drop>(hubs: &[Hub<T>], number: u32) -> u64
    ensures { result ≡ join_at (joins_now hubs.now) number }
{
    match hubs.get(number as usize) {
        Some(hub) => hub.join(),
        None => 0,
    }
}

/// The joins of an expression's leaves that read a hub, from left to right, where they join these hubs now.
///
/// # Errors
/// [`NoMemory`] where a growth was refused.
pub fn joins_of<T: Drop>(
    alloc: Global,
    expr: &Expr<T>,
    hubs: &[Hub<T>],
) -> Result<Vec<u64>, NoMemory>
    ensures { IfOk result (λ v. v.items ≡ new_joins hubs.now expr.now) }
{
    let mut joins = Vec::new(alloc);
    add_joins(expr, hubs, &mut joins)?;
    Ok(joins)
}

/// Puts them behind these.
#[cycle(joins)]
fn add_joins<T: Drop>(expr: &Expr<T>, hubs: &[Hub<T>], joins: &mut Vec<u64>) -> Result<(), NoMemory>
    ensures { OnOk result (joins.new.items ≡ joins.old.items ++ new_joins hubs.now expr.now) }
{
    match expr {
        Expr::Items(_) | Expr::Range(_, _) => Ok(()),
        Expr::Hub(number) => {
            joins.push(join_at(hubs, number.0))?;
            Ok(())
        }
        Expr::Plain(_, input) => add_joins(input, hubs, joins),
        Expr::Concat(inputs) => add_joins_of(inputs, hubs, joins),
        Expr::Merge(_, inputs) => add_joins_of(inputs, hubs, joins),
        Expr::MergeDelay(_, inputs) => add_joins_of(inputs, hubs, joins),
        Expr::Zip(_, inputs) => add_joins_of(inputs, hubs, joins),
        Expr::Latest(_, inputs) => add_joins_of(inputs, hubs, joins),
        Expr::Group(_, _, input) => add_joins(input, hubs, joins),
        Expr::Window(_, _, input) => add_joins(input, hubs, joins),
        Expr::Flat(_, _, _, input) => add_joins(input, hubs, joins),
        Expr::FlatDelay(_, _, _, input) => add_joins(input, hubs, joins),
        Expr::On(_, _, input) => add_joins(input, hubs, joins),
        Expr::OnEager(_, _, input) => add_joins(input, hubs, joins),
    }
}

/// The same of several inputs.
#[cycle(joins)]
fn add_joins_of<T: Drop>(
    inputs: &[Expr<T>],
    hubs: &[Hub<T>],
    joins: &mut Vec<u64>,
) -> Result<(), NoMemory>
    ensures { OnOk result (joins.new.items ≡ joins.old.items ++ in_a_row (map (new_joins hubs.now) inputs.now)) }
{
    for input in inputs {
        add_joins(input, hubs, joins)?;
    }
    Ok(())
}
