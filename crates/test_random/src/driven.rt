//! A graph behind its gate, which one thread drives.

ghost use Rattle.std.specs.Prelude.{IfOk};
ghost use Rattle.rsx_serialized.specs.Started.{IsStarted};

use anyhow::{Result, bail};
use rsx_graph::Graph;
use rsx_model::Expr;
use rsx_serialized::{SerializedGraph, StartedGraph};
use rsx_types::{Cause, HubId, Ops, Signal, SubId};
use std::alloc::Global;

/// A call of a tap.
#[derive(Clone, Copy)]
pub enum Call {
    /// The next signal is taken.
    Take,
    /// So many items more are requested.
    Request(i64),
    /// The subscription is cancelled.
    Cancel,
}

/// Subscribes to each of these expressions, and puts the graph behind a gate.
///
/// # Errors
/// For want of memory, and where an expression is refused.
pub fn start<O: Ops>(
    alloc: Global,
    graph: Graph<O>,
    exprs: &[Expr<O::Item>],
) -> Result<StartedGraph<O>>
    ensures { IfOk result (λ s. IsStarted s) }
{
    let mut graph = graph;
    for expr in exprs {
        graph.subscribe(alloc, expr)?;
    }
    match SerializedGraph::start(alloc, graph) {
        Ok(started) => Ok(started),
        Err(_) => bail!("there is no memory"),
    }
}

/// Puts a graph behind a gate, with so many places for subscriptions to come.
///
/// # Errors
/// For want of memory.
pub fn start_with_places<O: Ops>(
    alloc: Global,
    graph: Graph<O>,
    places: u32,
) -> Result<StartedGraph<O>>
    ensures { IfOk result (λ s. IsStarted s) }
{
    match SerializedGraph::start_with_places(alloc, graph, places) {
        Ok(started) => Ok(started),
        Err(_) => bail!("there is no memory"),
    }
}

/// Publishes a signal at this hub, and answers whether its emitter took it. The error is one with a number.
pub fn publish_at<O: Ops>(graph: &mut StartedGraph<O>, hub: u32, signal: Signal<O::Item>) -> bool
    requires { IsStarted graph.old }
    ensures { IsStarted graph.new }
{
    let hub = HubId(hub);
    match signal {
        Signal::Next(item) => graph.emit(hub, item).is_ok(),
        Signal::Complete => graph.complete(hub).is_ok(),
        Signal::Error(Cause::User(number)) => graph.fail(hub, number).is_ok(),
        Signal::Error(_) => false,
    }
}

/// Makes a call of the tap of this subscription, and answers what it gave.
pub fn call_tap<O: Ops>(
    graph: &mut StartedGraph<O>,
    sub: u32,
    call: Call,
) -> Option<Signal<O::Item>>
    requires { IsStarted graph.old }
    ensures { IsStarted graph.new }
{
    let sub = SubId(sub);
    match call {
        Call::Take => graph.take(sub),
        Call::Request(n) => graph.request(sub, n),
        Call::Cancel => {
            graph.cancel(sub);
            None
        }
    }
}
