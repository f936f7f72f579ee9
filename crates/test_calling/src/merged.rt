//! The prices at two shops as one stream.

use crate::prices::Prices;
use crate::published::publish;
use crate::received;
use anyhow::Result;
use rsx::{
    Deliveries, Ending, Expr, Graph, HubKind, Move, NodeId, Note, StreamValue, Tree, scratch,
};

/// Merges the prices at two shops in an order of its own, and prints what came and what was recorded.
pub fn run(rt: &HostRuntime) -> Result<()> {
    let alloc = rt.alloc();
    let mut graph = Graph::new(alloc, Prices)?;
    let near = graph.hub(alloc, HubKind::Multicast, 16)?;
    let far = graph.hub(alloc, HubKind::Multicast, 16)?;
    let both = Expr::Merge(4, vec![in alloc; Expr::Hub(near), Expr::Hub(far)]?);
    let sub = graph.subscribe(alloc, &both)?;
    let tree = Tree::Sub(sub);
    let mut out = Deliveries::new(alloc);
    publish(alloc, &mut graph, near, 250, &mut out)?;
    publish(alloc, &mut graph, far, 1200, &mut out)?;

    graph.request_items(sub, 2)?;
    graph.make(alloc, Move::Pick(tree, NodeId(0), 1))?;
    graph.pump(alloc, 1000, &mut out)?;
    received::print(rt, &out)?;

    let notes = graph.notes(alloc, tree)?;
    for note in &notes {
        match note {
            Note::Picks(choices) => println!(rt; "picked {:?}", choices.as_slice())?,
            Note::Ended(_) | Note::Nothing => {}
        }
    }
    let joins = graph.joins(alloc, tree)?;
    let published = vec![in alloc;
        StreamValue::new(vec![in alloc; 250]?, Ending::Open),
        StreamValue::new(vec![in alloc; 1200]?, Ending::Open),
    ]?;
    let value = scratch(alloc, &Prices, &both, &published, &joins, &notes)?;
    for price in value.items() {
        println!(rt; "from scratch {price}")?;
    }
    Ok(())
}
