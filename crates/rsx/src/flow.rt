//! Where an expression begins.

ghost use Rattle.std.specs.Prelude.{◌≡◌, Some, IsSomeAnd, map};
ghost use Rattle.rsx.specs.Built.{built};
ghost use Rattle.rsx.specs.Flow.{IfMade, Makes, Unwraps, all_of, made_of, made_items, root, items as of_items, range as of_range, hub as of_hub, concat as of_concat, merge as of_merge, merge_delay as of_merge_delay, zip as of_zip, latest as of_latest};

use crate::flux::Flux;
use crate::inputs::Inputs;
use crate::names::Prefetch;
use rsx_model::Expr;
use rsx_types::{HubId, NoMemory};
use std::alloc::Global;

/// Begins expressions, each over the allocator that it has.
#[derive(Clone, Copy)]
pub struct Flow {
    alloc: Global,
}

impl Flow {
    /// Expressions over this allocator.
    pub fn new(alloc: Global) -> Flow {
        Flow { alloc }
    }

    /// These items, and then the completion: at most 1,024.
    pub fn items<T: Drop, const N: usize>(self, list: [T; N]) -> Flux<T>
        ensures { IfMade (of_items list) (built result) }
    {
        Flux::new(self.alloc, items_of(self.alloc, list))
    }

    /// The items of a list, and then the completion: at most 1,024. It takes no memory.
    pub fn from_vec<T: Drop>(self, list: Vec<T>) -> Flux<T>
        ensures { IsSomeAnd (built result) (λ e. root e ≡ of_items list.items) }
    {
        Flux::new(self.alloc, Ok(Expr::Items(list)))
    }

    /// So many numbers, from the first on, and then the completion: at most 1,000,000, the last at most 2^63-1. It takes no memory.
    pub fn range<T: Drop>(self, first: i64, count: u64) -> Flux<T>
        ensures { IsSomeAnd (built result) (λ e. root e ≡ of_range first count) }
    {
        Flux::new(self.alloc, Ok(Expr::Range(first, count)))
    }

    /// What this hub publishes, from the join on. It takes no memory.
    pub fn hub<T: Drop>(self, hub: HubId) -> Flux<T>
        ensures { IsSomeAnd (built result) (λ e. root e ≡ of_hub hub) }
    {
        Flux::new(self.alloc, Ok(Expr::Hub(hub)))
    }

    /// An expression that was made without a builder. It takes no memory.
    pub fn expr<T: Drop>(self, expr: Expr<T>) -> Flux<T>
        ensures { built result ≡ Some expr }
    {
        Flux::new(self.alloc, Ok(expr))
    }

    /// The inputs one behind the other: each begins once those before it have completed. There are 1 to 16, as of each operator that
    /// follows.
    pub fn concat<T: Drop, I: Inputs<T>>(self, inputs: I) -> Flux<T>
        ensures { Makes of_concat (all_of (I.inputs inputs)) (built result) }
    {
        Flux::new(self.alloc, concat_of(exprs_of(self.alloc, inputs)))
    }

    /// The items of all inputs, in an order that is chosen while they come and recorded.
    pub fn merge<T: Drop, I: Inputs<T>>(self, prefetch: Prefetch, inputs: I) -> Flux<T>
        ensures { Makes (of_merge prefetch.0) (all_of (I.inputs inputs)) (built result) }
    {
        Flux::new(
            self.alloc,
            merge_of(prefetch.0, exprs_of(self.alloc, inputs)),
        )
    }

    /// As [`merge`](Flow::merge), but a failure ends its input alone: the first one taken goes out once all inputs have ended.
    pub fn merge_delay_error<T: Drop, I: Inputs<T>>(self, prefetch: Prefetch, inputs: I) -> Flux<T>
        ensures { Makes (of_merge_delay prefetch.0) (all_of (I.inputs inputs)) (built result) }
    {
        Flux::new(
            self.alloc,
            merge_delay_of(prefetch.0, exprs_of(self.alloc, inputs)),
        )
    }

    /// Rows of one item of each input, by `Ops::row`, as long as all have one.
    pub fn zip<T: Drop, I: Inputs<T>>(self, prefetch: Prefetch, inputs: I) -> Flux<T>
        ensures { Makes (of_zip prefetch.0) (all_of (I.inputs inputs)) (built result) }
    {
        Flux::new(self.alloc, zip_of(prefetch.0, exprs_of(self.alloc, inputs)))
    }

    /// A row of the latest items of the inputs at each item, by `Ops::row`, once every input has had one. The order of the items is
    /// chosen and recorded.
    pub fn combine_latest<T: Drop, I: Inputs<T>>(self, prefetch: Prefetch, inputs: I) -> Flux<T>
        ensures { Makes (of_latest prefetch.0) (all_of (I.inputs inputs)) (built result) }
    {
        Flux::new(
            self.alloc,
            latest_of(prefetch.0, exprs_of(self.alloc, inputs)),
        )
    }
}

/// An expression of these items.
fn items_of<T: Drop, const N: usize>(alloc: Global, list: [T; N]) -> Result<Expr<T>, NoMemory>
    ensures { IfMade (of_items list) (made_of result) }
{
    Ok(Expr::Items(Vec::from_array(alloc, list)?))
}

/// The expressions of the inputs, in their order.
fn exprs_of<T: Drop, I: Inputs<T>>(alloc: Global, inputs: I) -> Result<Vec<Expr<T>>, NoMemory>
    ensures { Unwraps (I.inputs inputs) result }
{
    all_built(alloc, inputs.into_list(alloc)?)
}

/// The expressions that were built, in their order.
fn all_built<T: Drop>(alloc: Global, inputs: Vec<Flux<T>>) -> Result<Vec<Expr<T>>, NoMemory>
    ensures { Unwraps (map built inputs.items) result }
{
    let mut exprs = Vec::new(alloc);
    for input in inputs {
        exprs.push(input.build()?)?;
    }
    Ok(exprs)
}

/// A `concat` of these.
fn concat_of<T: Drop>(inputs: Result<Vec<Expr<T>>, NoMemory>) -> Result<Expr<T>, NoMemory>
    ensures { Makes of_concat (made_items inputs) (made_of result) }
{
    Ok(Expr::Concat(inputs?))
}

/// A `merge` of these.
fn merge_of<T: Drop>(
    prefetch: u64,
    inputs: Result<Vec<Expr<T>>, NoMemory>,
) -> Result<Expr<T>, NoMemory>
    ensures { Makes (of_merge prefetch) (made_items inputs) (made_of result) }
{
    Ok(Expr::Merge(prefetch, inputs?))
}

/// A `mergeDelayError` of these.
fn merge_delay_of<T: Drop>(
    prefetch: u64,
    inputs: Result<Vec<Expr<T>>, NoMemory>,
) -> Result<Expr<T>, NoMemory>
    ensures { Makes (of_merge_delay prefetch) (made_items inputs) (made_of result) }
{
    Ok(Expr::MergeDelay(prefetch, inputs?))
}

/// A `zip` of these.
fn zip_of<T: Drop>(
    prefetch: u64,
    inputs: Result<Vec<Expr<T>>, NoMemory>,
) -> Result<Expr<T>, NoMemory>
    ensures { Makes (of_zip prefetch) (made_items inputs) (made_of result) }
{
    Ok(Expr::Zip(prefetch, inputs?))
}

/// A `combineLatest` of these.
fn latest_of<T: Drop>(
    prefetch: u64,
    inputs: Result<Vec<Expr<T>>, NoMemory>,
) -> Result<Expr<T>, NoMemory>
    ensures { Makes (of_latest prefetch) (made_items inputs) (made_of result) }
{
    Ok(Expr::Latest(prefetch, inputs?))
}
