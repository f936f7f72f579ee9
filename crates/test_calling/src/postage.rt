//! Prices with their postage.

use crate::prices::{CHEAP, Prices, WITH_POSTAGE};
use crate::received;
use anyhow::Result;
use rsx::{Deliveries, Flow, Graph};

/// Adds the postage to each price, keeps the cheap ones, and prints what a subscriber got and is still owed.
pub fn run(rt: &HostRuntime) -> Result<()> {
    let alloc = rt.alloc();
    let flow = Flow::new(alloc);
    let cheap = flow
        .items([250, 3000, 1200, 700])
        .map(WITH_POSTAGE)
        .filter(CHEAP)
        .build()?;

    let mut graph = Graph::new(alloc, Prices)?;
    let sub = graph.subscribe(alloc, &cheap)?;
    graph.request_items(sub, 2)?;
    let mut out = Deliveries::new(alloc);
    graph.pump(alloc, 1000, &mut out)?;
    let owed = graph.owed(alloc, sub)?;

    received::print(rt, &out)?;
    for price in owed.items() {
        println!(rt; "owed {price}")?;
    }
    println!(rt; "and then {:?}", owed.ending())?;
    Ok(())
}
