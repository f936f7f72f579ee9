//! Totals of prices and their postage.

use crate::prices::{PARTS, Prices, WITHIN_BUDGET};
use crate::received;
use anyhow::Result;
use rsx::{Concurrency, Deliveries, Flow, Graph};

/// Puts the price and its postage in the place of each price, and prints the running total, up to a budget.
pub fn run(rt: &HostRuntime) -> Result<()> {
    let alloc = rt.alloc();
    let flow = Flow::new(alloc);
    let totals = flow
        .items([250, 3000, 1200, 700])
        .flat_map(PARTS, Concurrency(1), |parts| parts)
        .scan(WITHIN_BUDGET, 0)
        .build()?;

    let mut graph = Graph::new(alloc, Prices)?;
    let sub = graph.subscribe(alloc, &totals)?;
    graph.request_items(sub, 9)?;
    let mut out = Deliveries::new(alloc);
    graph.pump(alloc, 1000, &mut out)?;
    received::print(rt, &out)
}
