//! Prices that are published one after the other.

use crate::prices::{CHEAP, Prices};
use crate::received;
use anyhow::Result;
use rsx::{Deliveries, Flow, Graph, HubId, HubKind, Refusal};
use std::alloc::Global;

/// Publishes a price, and drives the graph until it is idle.
pub fn publish(
    alloc: Global,
    graph: &mut Graph<Prices>,
    hub: HubId,
    price: i64,
    out: &mut Deliveries<i64>,
) -> Result<(), Refusal> {
    if let Err(back) = graph.emit(hub, price) {
        return Err(back.refusal);
    }
    graph.pump(alloc, 1000, out)?;
    Ok(())
}

/// Publishes three prices, keeps the cheap ones, and prints what a subscriber got.
pub fn run(rt: &HostRuntime) -> Result<()> {
    let alloc = rt.alloc();
    let mut graph = Graph::new(alloc, Prices)?;
    let hub = graph.hub(alloc, HubKind::Multicast, 16)?;
    let cheap = Flow::new(alloc).hub(hub).filter(CHEAP).build()?;
    let sub = graph.subscribe(alloc, &cheap)?;
    graph.request_items(sub, 9)?;
    let mut out = Deliveries::new(alloc);
    for price in [250, 3000, 1200] {
        publish(alloc, &mut graph, hub, price, &mut out)?;
    }
    graph.complete(hub)?;
    graph.pump(alloc, 1000, &mut out)?;
    received::print(rt, &out)
}
