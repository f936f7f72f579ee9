//! Graphs that go live with each region served on a thread of its own.
//!
//! A graph with two subscriptions goes live at once, and the calling thread requests and takes until both have ended. Which worker moves
//! when is up to the system. What the subscribers receive isn't, but for what the last nine expressions choose.

use crate::compared::compare;
use crate::driven::{Log, parsed, start};
use crate::serving::{Requests, serve};
use anyhow::{Result, bail};
use rsx_demo::{Demo, Val};
use rsx_graph::Graph;
use std::alloc::Global;
use std::sync::Wait;
use std::thread::Threads;
use std::time::Clock;

/// How many subscriptions there are.
const SUBSCRIPTIONS: u32 = 2;

/// Makes a run of an expression on threads, in which items are requested so, and compares what was received.
///
/// # Errors
/// Where a comparison differs, where a join is refused, and where the text isn't an expression.
pub fn try_on_threads<R: Threads + Wait + Sync + Clock>(
    rt: &R,
    alloc: Global,
    text: &str,
    requests: Requests,
) -> Result<()> {
    let expr = parsed(alloc, text)?;
    let mut graph = Graph::new(alloc, Demo)?;
    for _ in 0..SUBSCRIPTIONS {
        graph.subscribe(alloc, &expr)?;
    }
    let (graph, received) = live_on_threads(rt, alloc, graph, requests)?;
    match compare(alloc, &graph, &expr, SUBSCRIPTIONS, &received, true) {
        Ok(()) => Ok(()),
        Err(why) => bail!("{text}: on threads: {why}"),
    }
}

/// The graph goes live, its regions are served on threads until all is taken, and it comes back, with what was received.
fn live_on_threads<R: Threads + Wait + Sync + Clock>(
    rt: &R,
    alloc: Global,
    graph: Graph<Demo>,
    requests: Requests,
) -> Result<(Graph<Demo>, Log<Val>)> {
    let started = start(alloc, graph)?;
    let (started, received) = serve(rt, alloc, started, requests)?;
    match started.close() {
        Ok(graph) => Ok((graph, received)),
        Err(_) => bail!("a join is refused"),
    }
}
