//! Which expressions are refused, and why.

ghost use Rattle.std.specs.Prelude.{◌≡◌, ◌+◌, min, map, nat_le, MatchResult, Some, None};
ghost use Rattle.rsx_model.specs.Shape.{nodes, leaves, leaf_here, depth, sum_of, max_of};
ghost use Rattle.rsx_model.specs.Check.{refusal, first_fault, first_of, own_fault, queued_fault, window_fault, flat_fault, chain_fault, stages_fit, inputs_fit, worker_fits, window_fits, concurrency_fits, unless, range_fits, stage_fits, kind_number};
ghost use Rattle.rsx_model.specs.declared.expr.Expr.TheViews.{out-Expr};

use crate::expr::{Below, Expr, below_of};
use rsx_types::{MOST_ITEMS, Stage};
use thiserror::Error;

/// The most nodes that an expression is deep. A source alone is 1 deep.
pub const MOST_DEPTH: u64 = 32;

/// The most nodes of an expression.
pub const MOST_NODES: u64 = 256;

/// The most numbers of a range, and the most items of a `take`.
pub const MOST_COUNT: u64 = 1_000_000;

/// The most inputs of one node. It has at least one, unless it is a source.
pub const MOST_INPUTS: u64 = 16;

/// The most items of one input that are asked for in advance.
pub const MOST_PREFETCH: u64 = 1_024;

/// The most items of one window.
pub const MOST_WINDOW: u64 = 1_024;

/// The most lanes that a `flatMap` has at a time.
pub const MOST_CONCURRENCY: u64 = 64;

/// The most operators of a chain that a node has for each of its lanes, as `window` for each window.
pub const MOST_STAGES: u64 = 8;

/// The largest number of a worker. The least is 0.
pub const MOST_WORKER: u8 = 15;

/// Why an expression is refused. The first two speak of the whole expression, in this order; the others of the first
/// faulty node in pre-order.
#[derive(Clone, Copy, Debug, PartialEq, Eq, Error)]
pub enum BadExpr {
    /// It is deeper than 32 nodes.
    #[error("the expression is deeper than 32 nodes")]
    Depth,
    /// It has more than 256 nodes.
    #[error("the expression has more than 256 nodes")]
    Nodes,
    /// A node of several inputs has none, or more than 16.
    #[error("a node has no inputs, or more than 16")]
    Inputs,
    /// A number is out of its limit: a range of more than 1,000,000 numbers, or whose last one is above 2^63-1; a `take`
    /// of more than 1,000,000 items; a `buffer` whose lists aren't of 1 to 1,024 items; a prefetch that isn't 1 to 1,024; a
    /// window whose size isn't 1 to 1,024; a concurrency that isn't 1 to 64; a worker's number above 15.
    #[error("a number is out of its limit")]
    Number,
    /// A chain of a node has more than 8 operators, or one of them has a number out of its limit.
    #[error("a chain has more than 8 operators, or one with a number out of its limit")]
    Chain,
    /// A leaf names a hub that isn't there: its number isn't below the number of hubs.
    #[error("no such hub")]
    Hub,
    /// A list has more than 1,024 items.
    #[error("a list has more than 1024 items")]
    Length,
}

impl BadExpr {
    /// The number of this kind: 1 for the depth, 2 for the nodes, 3 for the inputs, 4 for a number, 5 for a chain, 6 for a hub, 7 for a list's length.
    pub fn number(self) -> u8
        ensures { result ≡ kind_number self }
    {
        match self {
            BadExpr::Depth => 1,
            BadExpr::Nodes => 2,
            BadExpr::Inputs => 3,
            BadExpr::Number => 4,
            BadExpr::Chain => 5,
            BadExpr::Hub => 6,
            BadExpr::Length => 7,
        }
    }
}

/// Whether an expression keeps the limits, in a graph of so many hubs: at most 32 nodes deep, at most 256 nodes, and no
/// node with a fault of its own. It takes no memory. The error is the kind of the first limit that is broken.
pub fn check_expr<T>(expr: &Expr<T>, hubs: u32) -> Result<(), BadExpr>
    ensures { MatchResult result (λ _. refusal hubs expr.now ≡ None) (λ k. refusal hubs expr.now ≡ Some k) }
{
    match refusal_of(expr, u64::from(hubs)) {
        Some(kind) => Err(kind),
        None => Ok(()),
    }
}

/// Why an expression is refused in a graph of so many hubs, if it is: the kind of the first limit that is broken, as
/// [`check_expr`] has it. It takes no memory.
pub fn refusal_of<T>(expr: &Expr<T>, hubs: u64) -> Option<BadExpr>
    ensures { result ≡ refusal hubs expr.now }
{
    if !is_within_depth(expr, MOST_DEPTH) {
        return Some(BadExpr::Depth);
    }
    if nodes_of(expr) > MOST_NODES {
        return Some(BadExpr::Nodes);
    }
    first_fault_of(expr, hubs)
}

/// Whether the depth is at most this. It goes no deeper than that.
#[cycle(depth)]
fn is_within_depth<T>(expr: &Expr<T>, most: u64) -> bool
    ensures { result ≡ nat_le (depth expr.now) most }
{
    if most == 0 {
        return false;
    }
    match below_of(expr) {
        Below::One(input) => is_within_depth(input, most - 1),
        Below::Inputs(inputs) => are_within_depth(inputs, most - 1),
    }
}

/// Whether the depth of each input is at most this. It goes no deeper than that.
#[cycle(depth)]
fn are_within_depth<T>(inputs: &[Expr<T>], most: u64) -> bool
    ensures { result ≡ nat_le (max_of (map depth inputs.now)) most }
{
    for input in inputs {
        if !is_within_depth(input, most) {
            return false;
        }
    }
    true
}

/// How many nodes there are, or 257 if there are more than [`MOST_NODES`].
#[cycle(nodes)]
pub fn nodes_of<T>(expr: &Expr<T>) -> u64
    ensures { result ≡ min (nodes expr.now) (MOST_NODES + 1) }
{
    let below = match below_of(expr) {
        Below::One(input) => nodes_of(input),
        Below::Inputs(inputs) => nodes_of_all(inputs),
    };
    (1 + below).min(MOST_NODES + 1)
}

/// How many nodes the inputs have together, or 257 if there are more than [`MOST_NODES`].
#[cycle(nodes)]
fn nodes_of_all<T>(inputs: &[Expr<T>]) -> u64
    ensures { result ≡ min (sum_of (map nodes inputs.now)) (MOST_NODES + 1) }
{
    let mut count = 0;
    for input in inputs {
        count = (count + nodes_of(input)).min(MOST_NODES + 1);
    }
    count
}

/// How many leaves are hubs, or 257 if there are more than [`MOST_NODES`].
#[cycle(leaves)]
pub fn leaves_of<T>(expr: &Expr<T>) -> u64
    ensures { result ≡ min (leaves expr.now) (MOST_NODES + 1) }
{
    let below = match below_of(expr) {
        Below::One(input) => leaves_of(input),
        Below::Inputs(inputs) => leaves_of_all(inputs),
    };
    (own_leaf(expr) + below).min(MOST_NODES + 1)
}

/// How many leaves of the inputs are hubs, or 257 if there are more than [`MOST_NODES`].
#[cycle(leaves)]
fn leaves_of_all<T>(inputs: &[Expr<T>]) -> u64
    ensures { result ≡ min (sum_of (map leaves inputs.now)) (MOST_NODES + 1) }
{
    let mut count = 0;
    for input in inputs {
        count = (count + leaves_of(input)).min(MOST_NODES + 1);
    }
    count
}

/// 1 if the root is a hub leaf, and else 0.
fn own_leaf<T>(expr: &Expr<T>) -> u64
    ensures { result ≡ leaf_here (out-Expr T expr.now) }
{
    match expr {
        Expr::Items(_) | Expr::Range(_, _) => 0,
        Expr::Hub(_) => 1,
        Expr::Plain(_, _) | Expr::Concat(_) => 0,
        Expr::Merge(_, _) | Expr::MergeDelay(_, _) | Expr::Zip(_, _) | Expr::Latest(_, _) => 0,
        Expr::Group(_, _, _) | Expr::Window(_, _, _) | Expr::Flat(_, _, _, _) => 0,
        Expr::FlatDelay(_, _, _, _) | Expr::On(_, _, _) | Expr::OnEager(_, _, _) => 0,
    }
}

/// The fault of the first faulty node in pre-order.
#[cycle(fault)]
fn first_fault_of<T>(expr: &Expr<T>, hubs: u64) -> Option<BadExpr>
    ensures { result ≡ first_fault hubs expr.now }
{
    let own = own_fault_of(expr, hubs);
    if own.is_some() {
        return own;
    }
    match below_of(expr) {
        Below::One(input) => first_fault_of(input, hubs),
        Below::Inputs(inputs) => first_fault_of_all(inputs, hubs),
    }
}

/// The fault of the first faulty node of the inputs, one behind the other.
#[cycle(fault)]
fn first_fault_of_all<T>(inputs: &[Expr<T>], hubs: u64) -> Option<BadExpr>
    ensures { result ≡ first_of (map (first_fault hubs) inputs.now) }
{
    for input in inputs {
        let fault = first_fault_of(input, hubs);
        if fault.is_some() {
            return fault;
        }
    }
    None
}

/// What is wrong with one node, leaving out its children.
fn own_fault_of<T>(expr: &Expr<T>, hubs: u64) -> Option<BadExpr>
    ensures { result ≡ own_fault hubs (out-Expr T expr.now) }
{
    match expr {
        Expr::Items(items) => unless_ok(items.len() as u64 <= MOST_ITEMS, BadExpr::Length),
        Expr::Range(first, count) => unless_ok(is_range(*first, *count), BadExpr::Number),
        Expr::Hub(hub) => unless_ok(u64::from(hub.0) < hubs, BadExpr::Hub),
        Expr::Plain(stage, _) => unless_ok(is_stage(stage), BadExpr::Number),
        Expr::Concat(inputs) => unless_ok(is_input_count(inputs.len()), BadExpr::Inputs),
        Expr::Merge(prefetch, inputs) => queued_fault_of(*prefetch, inputs.len()),
        Expr::MergeDelay(prefetch, inputs) => queued_fault_of(*prefetch, inputs.len()),
        Expr::Zip(prefetch, inputs) => queued_fault_of(*prefetch, inputs.len()),
        Expr::Latest(prefetch, inputs) => queued_fault_of(*prefetch, inputs.len()),
        Expr::Group(_, stages, _) => chain_fault_of(stages),
        Expr::Window(size, stages, _) => window_fault_of(*size, stages),
        Expr::Flat(_, concurrency, stages, _) => flat_fault_of(*concurrency, stages),
        Expr::FlatDelay(_, concurrency, stages, _) => flat_fault_of(*concurrency, stages),
        Expr::On(worker, prefetch, _) => unless_ok(is_worker(*worker, *prefetch), BadExpr::Number),
        Expr::OnEager(worker, prefetch, _) => {
            unless_ok(is_worker(*worker, *prefetch), BadExpr::Number)
        }
    }
}

/// What is wrong with a node of so many inputs, whose items are asked for in advance.
fn queued_fault_of(prefetch: u64, inputs: usize) -> Option<BadExpr>
    ensures { result ≡ queued_fault prefetch inputs }
{
    if !is_input_count(inputs) {
        return Some(BadExpr::Inputs);
    }
    unless_ok(1 <= prefetch && prefetch <= MOST_PREFETCH, BadExpr::Number)
}

/// What is wrong with a node of windows of this size, each through a chain of these operators.
fn window_fault_of<T>(size: u64, stages: &[Stage<T>]) -> Option<BadExpr>
    ensures { result ≡ window_fault size stages.now }
{
    if !is_window(size) {
        return Some(BadExpr::Number);
    }
    chain_fault_of(stages)
}

/// What is wrong with a node of so many lanes at a time, each through a chain of these operators.
fn flat_fault_of<T>(concurrency: u64, stages: &[Stage<T>]) -> Option<BadExpr>
    ensures { result ≡ flat_fault concurrency stages.now }
{
    if !is_concurrency(concurrency) {
        return Some(BadExpr::Number);
    }
    chain_fault_of(stages)
}

/// What is wrong with a chain of these operators.
fn chain_fault_of<T>(stages: &[Stage<T>]) -> Option<BadExpr>
    ensures { result ≡ chain_fault stages.now }
{
    if stages.len() as u64 > MOST_STAGES {
        return Some(BadExpr::Chain);
    }
    unless_ok(are_stages(stages), BadExpr::Chain)
}

/// Whether a window may have this size.
fn is_window(size: u64) -> bool
    ensures { result ≡ window_fits size }
{
    1 <= size && size <= MOST_WINDOW
}

/// Whether there may be so many lanes at a time.
fn is_concurrency(concurrency: u64) -> bool
    ensures { result ≡ concurrency_fits concurrency }
{
    1 <= concurrency && concurrency <= MOST_CONCURRENCY
}

/// Whether there may be a worker of this number, and this is a prefetch.
fn is_worker(worker: u8, prefetch: u64) -> bool
    ensures { result ≡ worker_fits worker prefetch }
{
    worker <= MOST_WORKER && 1 <= prefetch && prefetch <= MOST_PREFETCH
}

/// Whether a node may have so many inputs.
fn is_input_count(inputs: usize) -> bool
    ensures { result ≡ inputs_fit inputs }
{
    1 <= inputs && inputs as u64 <= MOST_INPUTS
}

/// The refusal, unless the limit is kept.
fn unless_ok(ok: bool, refusal: BadExpr) -> Option<BadExpr>
    ensures { result ≡ unless ok refusal }
{
    if ok { None } else { Some(refusal) }
}

/// Whether a range has at most [`MOST_COUNT`] numbers, and its last one is at most 2^63-1.
fn is_range(first: i64, count: u64) -> bool
    ensures { result ≡ range_fits first count }
{
    count <= MOST_COUNT
        && (count == 0 || i128::from(first) + i128::from(count) <= i128::from(i64::MAX) + 1)
}

/// Whether the number of each operator is within its limit.
fn are_stages<T>(stages: &[Stage<T>]) -> bool
    ensures { result ≡ stages_fit stages.now }
{
    for stage in stages {
        if !is_stage(stage) {
            return false;
        }
    }
    true
}

/// Whether the number of an operator is within its limit.
fn is_stage<T>(stage: &Stage<T>) -> bool
    ensures { result ≡ stage_fits stage.now }
{
    match stage {
        Stage::Take(items) => *items <= MOST_COUNT,
        Stage::Buffer(size) => 1 <= *size && *size <= MOST_ITEMS,
        _ => true,
    }
}
