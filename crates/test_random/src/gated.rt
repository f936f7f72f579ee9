//! Times a graph behind its gate, which one thread drives: the hub's emitter publishes a batch of items, the graph is poked, and then the
//! taps give all that was delivered. A batch is half of what the link of a tap has room for.

ghost use Rattle.rsx_serialized.specs.Started.{IsStarted};

use crate::timed::{Sum, Weight, rest};
use anyhow::{Result, bail};
use rsx_graph::Graph;
use rsx_model::Expr;
use rsx_serialized::{SerializedGraph, StartedGraph};
use rsx_types::{HubId, HubKind, Ops, Signal, SubId};
use std::alloc::Global;

/// How many items are published before each poke.
const BATCH: u64 = 32;

/// How many items wait at the hub, at most.
const BOUND: u64 = 64;

/// One run of a hub behind a gate with so many readers, to which the numbers are published, beside so many idle subscriptions.
///
/// # Errors
/// For want of memory, and where the graph refuses a call.
pub fn serve<O: Ops>(
    alloc: Global,
    ops: O,
    readers: u32,
    idle: u32,
    count: u64,
    budget: u32,
) -> Result<Sum>
where
    O::Item: Weight,
{
    let mut graph = Graph::new(alloc, ops)?;
    let hub = graph.hub(alloc, HubKind::Multicast, BOUND)?;
    for _ in 0..readers {
        graph.subscribe(alloc, &Expr::Hub(hub))?;
    }
    rest(alloc, &ops, &mut graph, idle)?;
    let Ok(mut started) = SerializedGraph::start(alloc, graph) else {
        bail!("no memory")
    };
    request_all(&mut started, readers);
    let mut sum = Sum { items: 0, sum: 0 };
    for batch in 0..count.div_ceil(BATCH) {
        let first = batch.saturating_mul(BATCH);
        let behind = count.min(first.saturating_add(BATCH));
        emit(alloc, &ops, &mut started, hub, first, behind)?;
        let _ = started.poke(alloc, budget);
        take_all(&mut started, readers, &mut sum);
    }
    Ok(sum)
}

/// Requests all of each of so many subscriptions, the first ones.
fn request_all<O: Ops>(started: &mut StartedGraph<O>, subs: u32)
    requires { IsStarted started.old }
    ensures { IsStarted started.new }
{
    for sub in 0..subs {
        let _ = started.request(SubId(sub), i64::MAX);
    }
}

/// Publishes the numbers from one on, up to another one.
fn emit<O: Ops>(
    alloc: Global,
    ops: &O,
    started: &mut StartedGraph<O>,
    hub: HubId,
    first: u64,
    behind: u64,
) -> Result<()>
    requires { IsStarted started.old }
    ensures { IsStarted started.new }
{
    for number in first..behind {
        let Ok(item) = ops.from_i64(alloc, i64::try_from(number).unwrap_or(i64::MAX)) else {
            bail!("no memory")
        };
        if started.emit(hub, item).is_err() {
            bail!("refused")
        }
    }
    Ok(())
}

/// Takes all that was delivered to each of so many subscriptions, the first ones.
fn take_all<O: Ops>(started: &mut StartedGraph<O>, subs: u32, sum: &mut Sum)
where
    O::Item: Weight,
    requires { IsStarted started.old }
    ensures { IsStarted started.new }
{
    for sub in 0..subs {
        take_of(started, SubId(sub), sum);
    }
}

/// Takes all that was delivered to a subscription.
fn take_of<O: Ops>(started: &mut StartedGraph<O>, sub: SubId, sum: &mut Sum)
where
    O::Item: Weight,
    requires { IsStarted started.old }
    ensures { IsStarted started.new }
{
    for _ in 0..u64::MAX {
        match started.take(sub) {
            Some(Signal::Next(item)) => sum.add_item(&item),
            Some(_) => {}
            None => break,
        }
    }
}
