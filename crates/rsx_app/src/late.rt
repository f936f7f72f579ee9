//! Why a subscription is refused that comes while a script's graph is live.

use rsx_demo::Val;
use rsx_model::{Below, Expr, below_of, refusal_of};
use rsx_types::HubId;

/// What `subscribe` answers then where a node of the expression would be in another region than 0.
const OTHER_REGION: &str = "K4";

/// The same where two leaves of the expression read one hub.
const TOO_MANY: &str = "G5";

/// The same where no place is left.
const NO_PLACE: &str = "L1";

/// Why a subscription to an expression is refused over so many hubs, with so many places left, if it is. A bad expression is
/// refused for that, and not here.
pub fn late_refusal(expr: &Expr<Val>, hubs: usize, places: u64) -> Option<&'static str> {
    if refusal_of(expr, hubs as u64).is_some() {
        return None;
    }
    if has_other_region(expr) {
        return Some(OTHER_REGION);
    }
    if reads_one_twice(expr, hubs) {
        return Some(TOO_MANY);
    }
    if places == 0 {
        return Some(NO_PLACE);
    }
    None
}

/// Whether some node of an expression is in another region than 0: whether it has a `publishOn` or a `publishOnEager` of another worker.
#[cycle(regions)]
fn has_other_region<T>(expr: &Expr<T>) -> bool {
    let worker = match expr {
        Expr::On(worker, _, _) => *worker,
        Expr::OnEager(worker, _, _) => *worker,
        _ => 0,
    };
    if worker != 0 {
        return true;
    }
    match below_of(expr) {
        Below::One(input) => has_other_region(input),
        Below::Inputs(inputs) => have_other_regions(inputs),
    }
}

/// The same of several expressions.
#[cycle(regions)]
fn have_other_regions<T>(exprs: &[Expr<T>]) -> bool {
    for expr in exprs {
        if has_other_region(expr) {
            return true;
        }
    }
    false
}

/// Whether two leaves of an expression read one of so many hubs.
fn reads_one_twice<T>(expr: &Expr<T>, hubs: usize) -> bool {
    for hub in 0..hubs {
        if leaves_at(expr, hub as u64) > 1 {
            return true;
        }
    }
    false
}

/// How many leaves of an expression read this hub.
#[cycle(leaves)]
fn leaves_at<T>(expr: &Expr<T>, hub: u64) -> u64 {
    if let Expr::Hub(HubId(read)) = expr {
        return u64::from(u64::from(*read) == hub);
    }
    match below_of(expr) {
        Below::One(input) => leaves_at(input, hub),
        Below::Inputs(inputs) => leaves_of_all(inputs, hub),
    }
}

/// The same of several expressions.
#[cycle(leaves)]
fn leaves_of_all<T>(exprs: &[Expr<T>], hub: u64) -> u64 {
    let mut count: u64 = 0;
    for expr in exprs {
        count = count.saturating_add(leaves_at(expr, hub));
    }
    count
}
