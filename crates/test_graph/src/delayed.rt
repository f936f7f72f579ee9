//! Which failure a merge that delays failures owes: the first of those that were picked, and else the first input's.

use rsx_demo::{Demo, Val};
use rsx_graph::{Graph, Refusal};
use rsx_model::Expr;
use rsx_types::{Cause, Ending, HubId, HubKind, Move, NoMemory, NodeId, SubId, Tree};
use std::alloc::Global;

// The tests need no facts of what they call, so these functions have no clause.

const SUB: SubId = SubId(0);

const TREE: Tree = Tree::Sub(SUB);

/// Hub 1 hands its failure over, the merge takes it in, and picks it.
const MOVES: [Move; 3] = [
    Move::Accept(HubId(1)),
    Move::Send(TREE, NodeId(2)),
    Move::Pick(TREE, NodeId(0), 1),
];

/// `mergeDelayError 4 (hub 0) (hub 1)`.
fn delayed(alloc: Global) -> Result<Expr<Val>, NoMemory> {
    let mut inputs = Vec::new(alloc);
    inputs.push(Expr::Hub(HubId(0)))?;
    inputs.push(Expr::Hub(HubId(1)))?;
    Ok(Expr::MergeDelay(4, inputs))
}

/// A graph in which it reads two hubs that have failed.
fn failed(alloc: Global, expr: &Expr<Val>) -> Result<Graph<Demo>, Refusal> {
    let mut graph = Graph::new(alloc, Demo)?;
    graph.hub(alloc, HubKind::Multicast, 8)?;
    graph.hub(alloc, HubKind::Multicast, 8)?;
    graph.subscribe(alloc, expr)?;
    graph.fail(HubId(0), 7)?;
    graph.fail(HubId(1), 8)?;
    Ok(graph)
}

#[test]
fn the_failure_that_is_picked_first_is_owed(rt: HostRuntime) -> Result<(), Refusal> {
    let Ok(expr) = delayed(rt.alloc()) else {
        return Err(Refusal::NoMemory);
    };
    let mut graph = failed(rt.alloc(), &expr)?;
    let before = graph.owed(rt.alloc(), SUB)?;
    assert!(rt; before.items().is_empty() && before.ending() == Ending::Failed(Cause::User(7)));
    for step in &MOVES {
        let sent = graph.make(rt.alloc(), *step)?;
        assert!(rt; sent.is_none());
    }
    let after = graph.owed(rt.alloc(), SUB)?;
    assert!(rt; after.items().is_empty() && after.ending() == Ending::Failed(Cause::User(8)));
    Ok(())
}
