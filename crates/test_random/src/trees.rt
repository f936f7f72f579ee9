//! Small trees, made at random.

use crate::numbers::Numbers;
use anyhow::Result;
use rsx_demo::Val;
use rsx_model::Expr;
use rsx_types::{HubId, Stage};
use std::alloc::Global;

/// A kind of leaf.
#[derive(Clone, Copy)]
pub enum Leaf {
    /// A list of items.
    Items,
    /// Numbers one after the other.
    Range,
    /// What a hub publishes.
    Hub,
}

/// A kind of plain operator.
#[derive(Clone, Copy)]
pub enum Plain {
    /// A function's answer for each item.
    Map,
    /// The items that pass a test.
    Filter,
    /// The first items.
    Take,
    /// The accumulation after each item.
    Scan,
    /// Lists of items.
    Buffer,
    /// The first item of each key.
    Distinct,
}

/// A kind of operator that keeps what comes from its inputs in queues.
#[derive(Clone, Copy)]
pub enum Queued {
    /// The inputs one behind the other.
    Concat,
    /// The items of all inputs.
    Merge,
    /// The same, where a failure ends its input alone.
    MergeDelay,
    /// Rows of one item of each input.
    Zip,
    /// Rows of the latest items.
    CombineLatest,
    /// The one input, unchanged.
    PublishOn,
    /// The one input, whose failure may overtake items.
    PublishOnEager,
}

/// A kind of operator with lanes, each of which goes through a chain of plain operators.
#[derive(Clone, Copy)]
pub enum Laned {
    /// So many items each.
    Window,
    /// The items of each key.
    GroupBy,
    /// What each item is expanded to.
    FlatMap,
    /// The same, where a failure ends its lane alone.
    FlatMapDelay,
}

/// A kind of node.
#[derive(Clone, Copy)]
pub enum Kind {
    /// A leaf.
    Leaf(Leaf),
    /// A plain operator.
    Plain(Plain),
    /// An operator with queues.
    Queued(Queued),
    /// An operator with lanes.
    Laned(Laned),
}

/// All kinds of nodes, each with the name that a script has for it.
pub const KINDS: [(&'static str, Kind); 20] = [
    ("items", Kind::Leaf(Leaf::Items)),
    ("range", Kind::Leaf(Leaf::Range)),
    ("hub", Kind::Leaf(Leaf::Hub)),
    ("map", Kind::Plain(Plain::Map)),
    ("filter", Kind::Plain(Plain::Filter)),
    ("take", Kind::Plain(Plain::Take)),
    ("scan", Kind::Plain(Plain::Scan)),
    ("buffer", Kind::Plain(Plain::Buffer)),
    ("distinct", Kind::Plain(Plain::Distinct)),
    ("concat", Kind::Queued(Queued::Concat)),
    ("merge", Kind::Queued(Queued::Merge)),
    ("mergeDelayError", Kind::Queued(Queued::MergeDelay)),
    ("zip", Kind::Queued(Queued::Zip)),
    ("combineLatest", Kind::Queued(Queued::CombineLatest)),
    ("publishOn", Kind::Queued(Queued::PublishOn)),
    ("window", Kind::Laned(Laned::Window)),
    ("groupBy", Kind::Laned(Laned::GroupBy)),
    ("flatMap", Kind::Laned(Laned::FlatMap)),
    ("flatMapDelayError", Kind::Laned(Laned::FlatMapDelay)),
    ("publishOnEager", Kind::Queued(Queued::PublishOnEager)),
];

/// A node of this kind over leaves that may have plain operators over them, with up to two operators of any kind over it.
pub fn tree(alloc: Global, numbers: &mut Numbers, kind: Kind) -> Result<Expr<Val>> {
    let mut expr = match kind {
        Kind::Leaf(leaf) => source(alloc, numbers, leaf)?,
        Kind::Plain(operator) => {
            let below = branch(alloc, numbers)?;
            plain_over(alloc, numbers, operator, below)?
        }
        Kind::Queued(operator) => {
            let below = branch(alloc, numbers)?;
            queued_over(alloc, numbers, operator, below)?
        }
        Kind::Laned(operator) => {
            let below = branch(alloc, numbers)?;
            laned_over(alloc, numbers, operator, below)?
        }
    };
    for _ in 0..numbers.below(3) {
        expr = over(alloc, numbers, expr)?;
    }
    Ok(expr)
}

/// A leaf with up to two plain operators over it. Every other leaf reads a hub.
fn branch(alloc: Global, numbers: &mut Numbers) -> Result<Expr<Val>> {
    let leaf = match numbers.below(4) {
        0 => Leaf::Items,
        1 => Leaf::Range,
        _ => Leaf::Hub,
    };
    let mut expr = source(alloc, numbers, leaf)?;
    for _ in 0..numbers.below(3) {
        let operator = any_plain(numbers);
        expr = plain_over(alloc, numbers, operator, expr)?;
    }
    Ok(expr)
}

/// An operator of any kind over this expression.
fn over(alloc: Global, numbers: &mut Numbers, below: Expr<Val>) -> Result<Expr<Val>> {
    if numbers.below(2) == 0 {
        let operator = any_plain(numbers);
        plain_over(alloc, numbers, operator, below)
    } else {
        let operator = any_queued(numbers);
        queued_over(alloc, numbers, operator, below)
    }
}

/// A kind of plain operator.
fn any_plain(numbers: &mut Numbers) -> Plain {
    match numbers.below(6) {
        0 => Plain::Map,
        1 => Plain::Filter,
        2 => Plain::Take,
        3 => Plain::Scan,
        4 => Plain::Buffer,
        _ => Plain::Distinct,
    }
}

/// A kind of operator with queues.
fn any_queued(numbers: &mut Numbers) -> Queued {
    match numbers.below(6) {
        0 => Queued::Concat,
        1 => Queued::Merge,
        2 => Queued::MergeDelay,
        3 => Queued::Zip,
        4 => Queued::CombineLatest,
        _ => Queued::PublishOn,
    }
}

/// A leaf of this kind: up to three numbers, a range of up to five, or one of the two hubs.
fn source(alloc: Global, numbers: &mut Numbers, leaf: Leaf) -> Result<Expr<Val>> {
    match leaf {
        Leaf::Items => Ok(Expr::Items(items(alloc, numbers)?)),
        Leaf::Range => Ok(Expr::Range(1, u64::from(numbers.below(6)))),
        Leaf::Hub => Ok(Expr::Hub(HubId(numbers.below(2)))),
    }
}

/// Up to three numbers from 0 to 8.
fn items(alloc: Global, numbers: &mut Numbers) -> Result<Vec<Val>> {
    let mut items = Vec::new(alloc);
    for _ in 0..numbers.below(4) {
        items.push(Val::Int(i64::from(numbers.below(9))))?;
    }
    Ok(items)
}

/// A plain operator of this kind over this expression.
fn plain_over(
    alloc: Global,
    numbers: &mut Numbers,
    operator: Plain,
    below: Expr<Val>,
) -> Result<Expr<Val>> {
    let stage = stage(numbers, operator);
    Ok(Expr::Plain(stage, Box::new(alloc, below)?))
}

/// A plain operator of this kind. Its function fails where it gets a list in place of a number, or the other way round.
fn stage(numbers: &mut Numbers, operator: Plain) -> Stage<Val> {
    match operator {
        Plain::Map => match numbers.below(4) {
            0 => Stage::Map(4),
            _ => Stage::Map(2),
        },
        Plain::Filter => Stage::Filter(1),
        Plain::Take => Stage::Take(u64::from(numbers.below(5))),
        Plain::Scan => Stage::Scan(1, Val::Int(100)),
        Plain::Buffer => Stage::Buffer(1 + u64::from(numbers.below(3))),
        Plain::Distinct => Stage::Distinct(1),
    }
}

/// An operator of this kind over this expression, which stands beside one or two others unless the operator has one input.
fn queued_over(
    alloc: Global,
    numbers: &mut Numbers,
    operator: Queued,
    below: Expr<Val>,
) -> Result<Expr<Val>> {
    let prefetch = prefetch(numbers);
    match operator {
        Queued::Concat => Ok(Expr::Concat(inputs(alloc, numbers, below)?)),
        Queued::Merge => Ok(Expr::Merge(prefetch, inputs(alloc, numbers, below)?)),
        Queued::MergeDelay => Ok(Expr::MergeDelay(prefetch, inputs(alloc, numbers, below)?)),
        Queued::Zip => Ok(Expr::Zip(prefetch, inputs(alloc, numbers, below)?)),
        Queued::CombineLatest => Ok(Expr::Latest(prefetch, inputs(alloc, numbers, below)?)),
        Queued::PublishOn => Ok(Expr::On(1, prefetch, Box::new(alloc, below)?)),
        Queued::PublishOnEager => Ok(Expr::OnEager(1, prefetch, Box::new(alloc, below)?)),
    }
}

/// An operator of this kind over this expression: windows of one to three items, lanes of two keys or more, or one to three
/// expansions at a time.
fn laned_over(
    alloc: Global,
    numbers: &mut Numbers,
    operator: Laned,
    below: Expr<Val>,
) -> Result<Expr<Val>> {
    let stages = chain(alloc, numbers)?;
    let count = 1 + u64::from(numbers.below(3));
    let function = match numbers.below(2) {
        0 => 1,
        _ => 2,
    };
    let below = Box::new(alloc, below)?;
    match operator {
        Laned::Window => Ok(Expr::Window(count, stages, below)),
        Laned::GroupBy => Ok(Expr::Group(function, stages, below)),
        Laned::FlatMap => Ok(Expr::Flat(function, count, stages, below)),
        Laned::FlatMapDelay => Ok(Expr::FlatDelay(function, count, stages, below)),
    }
}

/// Up to two plain operators, for each lane.
fn chain(alloc: Global, numbers: &mut Numbers) -> Result<Vec<Stage<Val>>> {
    let mut stages = Vec::new(alloc);
    for _ in 0..numbers.below(3) {
        let operator = any_plain(numbers);
        stages.push(stage(numbers, operator))?;
    }
    Ok(stages)
}

/// How many items are asked for in advance: 1 to 4.
fn prefetch(numbers: &mut Numbers) -> u64 {
    match numbers.below(4) {
        0 => 1,
        1 => 2,
        2 => 3,
        _ => 4,
    }
}

/// This expression, and one or two others behind it.
fn inputs(alloc: Global, numbers: &mut Numbers, first: Expr<Val>) -> Result<Vec<Expr<Val>>> {
    let mut inputs = Vec::new(alloc);
    inputs.push(first)?;
    inputs.push(branch(alloc, numbers)?)?;
    if numbers.below(2) == 0 {
        inputs.push(branch(alloc, numbers)?)?;
    }
    Ok(inputs)
}
