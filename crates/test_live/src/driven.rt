//! Graphs before they go live, as they do, and once they have come back.

ghost use Rattle.std.specs.Prelude.{IfOk};
ghost use Rattle.rsx_live.specs.Starts.{IsStarted};

use crate::numbers::Numbers;
use anyhow::{Result, bail};
use rsx_demo::Val;
use rsx_graph::{Deliveries, Graph, Pumped};
use rsx_live::{LiveGraph, NotStarted, StartedGraph};
use rsx_model::Expr;
use rsx_script::parse_expr;
use rsx_types::{Ops, Signal, SubId};
use std::alloc::Global;

/// How many workers there are, but for the expressions that tell how many they want. It is enough for all others.
pub const WORKERS: u8 = 5;

/// More moves than any graph makes.
const MOST_MOVES: u32 = 100_000;

/// More items than any expression gives.
const ALL: i64 = 1_000;

/// What was received, by which subscription.
pub type Log<T> = Vec<(SubId, Signal<T>)>;

/// What is done now and then beside requests, takes and pokes.
#[derive(Clone, Copy, Debug)]
pub enum Extra {
    /// Nothing.
    Nothing,
    /// A cancel.
    Cancel,
    /// A request of 0.
    BadRequest,
}

/// The expression that this text is.
///
/// # Errors
/// Where it isn't one.
pub fn parsed(alloc: Global, text: &str) -> Result<Expr<Val>> {
    match parse_expr(alloc, text.as_bytes()) {
        Ok(expr) => Ok(expr),
        Err(why) => bail!("{text}: {why}"),
    }
}

/// A graph with so many subscriptions to this expression, of each of which some items were requested, after some moves. What was
/// delivered is put behind what was received.
///
/// # Errors
/// For want of memory.
pub fn begin<O: Ops>(
    alloc: Global,
    ops: O,
    expr: &Expr<O::Item>,
    subs: u32,
    numbers: &mut Numbers,
    received: &mut Log<O::Item>,
) -> Result<Graph<O>> {
    let mut graph = Graph::new(alloc, ops)?;
    for _ in 0..subs {
        let sub = graph.subscribe(alloc, expr)?;
        graph.request(sub, i64::from(numbers.below(4)) + 1)?;
    }
    pump(alloc, &mut graph, numbers.below(24), received)?;
    Ok(graph)
}

/// Makes at most so many moves, puts what was delivered behind what was received, and answers whether none is left to make.
fn pump<O: Ops>(
    alloc: Global,
    graph: &mut Graph<O>,
    budget: u32,
    received: &mut Log<O::Item>,
) -> Result<bool> {
    let mut deliveries = Deliveries::new(alloc);
    let pumped = graph.pump(alloc, budget, &mut deliveries)?;
    for delivery in deliveries.into_vec() {
        received.push(delivery)?;
    }
    Ok(matches!(pumped, Pumped::Idle))
}

/// Requests all of each subscription, and makes all moves.
///
/// # Errors
/// For want of memory, and where there is no end of it.
pub fn finish<O: Ops>(
    alloc: Global,
    graph: &mut Graph<O>,
    subs: u32,
    received: &mut Log<O::Item>,
) -> Result<()> {
    for number in 0..subs {
        graph.request(SubId(number), ALL)?;
    }
    if !pump(alloc, graph, MOST_MOVES, received)? {
        bail!("there is no end of it")
    }
    Ok(())
}

/// The graph goes live.
///
/// # Errors
/// For want of memory, where there are too few workers, and where a join is refused.
pub fn start<O: Ops>(alloc: Global, graph: Graph<O>) -> Result<StartedGraph<O>>
    ensures { IfOk result (λ s. IsStarted s) }
{
    start_with(alloc, graph, WORKERS)
}

/// The graph goes live with so many workers.
///
/// # Errors
/// As those of [`start`].
pub fn start_with<O: Ops>(alloc: Global, graph: Graph<O>, workers: u8) -> Result<StartedGraph<O>>
    ensures { IfOk result (λ s. IsStarted s) }
{
    match LiveGraph::go_live(alloc, graph, workers) {
        Ok(started) => Ok(started),
        Err(NotStarted::TooFewWorkers(_)) => bail!("there are too few workers"),
        Err(NotStarted::NoMemory(_)) => bail!("there is no memory"),
        Err(NotStarted::NotJoined) => bail!("a join is refused"),
    }
}
