//! The members of hubs: whether each hub has place for the leaves of an expression, and how they are counted in.

ghost use Rattle.std.specs.Prelude.{◌≡◌, ◌<◌, ◌≤◌, ◌+◌, ◌^◌, true, length, map};
ghost use Rattle.rsx_model.specs.Shape.{nodes, sum_of};
ghost use Rattle.rsx_model.specs.declared.check.TheConstants.{MOST_NODES};
ghost use Rattle.rsx_rooted.specs.Leaves.{HaveJoined, have_places, leaves_on};

use rsx_hub::Hub;
use rsx_model::Expr;

/// How many leaves of an expression read the hub with this number.
#[cycle(leaves)]
fn leaves_on<T>(expr: &Expr<T>, hub: u32) -> u64
    requires { nodes expr.now ≤ MOST_NODES }
    ensures { result ≡ leaves_on hub expr.now }
{
    match expr {
        Expr::Items(_) | Expr::Range(_, _) => 0,
        Expr::Hub(number) => match number.0 == hub {
            true => 1,
            false => 0,
        },
        Expr::Plain(_, input) => leaves_on(input, hub),
        Expr::Concat(inputs) => leaves_on_all(inputs, hub),
        Expr::Merge(_, inputs) => leaves_on_all(inputs, hub),
        Expr::MergeDelay(_, inputs) => leaves_on_all(inputs, hub),
        Expr::Zip(_, inputs) => leaves_on_all(inputs, hub),
        Expr::Latest(_, inputs) => leaves_on_all(inputs, hub),
        Expr::Group(_, _, input) => leaves_on(input, hub),
        Expr::Window(_, _, input) => leaves_on(input, hub),
        Expr::Flat(_, _, _, input) => leaves_on(input, hub),
        Expr::FlatDelay(_, _, _, input) => leaves_on(input, hub),
        Expr::On(_, _, input) => leaves_on(input, hub),
        Expr::OnEager(_, _, input) => leaves_on(input, hub),
    }
}

/// The same of several inputs.
#[cycle(leaves)]
fn leaves_on_all<T>(inputs: &[Expr<T>], hub: u32) -> u64
    requires { sum_of (map nodes inputs.now) ≤ MOST_NODES }
    ensures { result ≡ sum_of (map (leaves_on hub) inputs.now) }
{
    let mut count = 0;
    for input in inputs {
        count += leaves_on(input, hub);
    }
    count
}

/// Whether each hub has place for the expression's leaves that read it.
pub fn have_places<T: Drop>(expr: &Expr<T>, hubs: &[Hub<T>]) -> bool
    requires few { length hubs.now < 2 ^ 32 }
    requires small { nodes expr.now ≤ MOST_NODES }
    ensures { result ≡ have_places 0 expr.now hubs.now }
{
    have_places_from(0, expr, hubs)
}

/// The same of the hubs from this number on.
fn have_places_from<T: Drop>(number: u32, expr: &Expr<T>, hubs: &[Hub<T>]) -> bool
    requires few { number + length hubs.now < 2 ^ 32 }
    requires small { nodes expr.now ≤ MOST_NODES }
    ensures { result ≡ have_places number expr.now hubs.now }
{
    match hubs.split_first() {
        Some((hub, others)) => {
            hub.has_place_for(leaves_on(expr, number)) && have_places_from(number + 1, expr, others)
        }
        None => true,
    }
}

/// Counts the leaves of an expression in at the hubs that they read, each of which has place for them.
pub fn count_in<T: Drop>(expr: &Expr<T>, hubs: &mut Vec<Hub<T>>)
    requires places { have_places 0 expr.now hubs.old.items ≡ true }
    requires few { length hubs.old.items < 2 ^ 32 }
    requires small { nodes expr.now ≤ MOST_NODES }
    ensures joined { HaveJoined expr.now hubs.old.items hubs.new.items }
    ensures count { length hubs.new.items ≡ length hubs.old.items }
{
    for number in 0..hubs.len() {
        let leaves = leaves_on(expr, number as u32);
        hubs[number].count_in(leaves);
    }
}
