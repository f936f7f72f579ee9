//! A graph that a list of steps is replayed on, each call and each move of which is answered, and the region of a subscription.

use rsx_demo::{Demo, Val};
use rsx_graph::{Answer, Graph, Refusal, Step, replay};
use rsx_model::Expr;
use rsx_types::{HubId, Move, NoMemory, NodeId, Signal, Stage, SubId, Tree};
use std::alloc::Global;

// The test needs no facts of what it calls, so these functions have no clause.

const SUB: SubId = SubId(0);

const TREE: Tree = Tree::Sub(SUB);

/// A Take before an item has come up, the moves that bring the first one up to the root's queue, and two Takes, of which the
/// second finds the queue empty. The last move is one that no graph without hubs has.
const MOVES: [Move; 7] = [
    Move::Take(TREE, NodeId(0)),
    Move::Ask(TREE, NodeId(1)),
    Move::Send(TREE, NodeId(1)),
    Move::Send(TREE, NodeId(0)),
    Move::Take(TREE, NodeId(0)),
    Move::Take(TREE, NodeId(0)),
    Move::Ask(Tree::Feed(HubId(0)), NodeId(0)),
];

/// A subscription to `map double (range 2 3)`, which puts out 4, 6 and 8, a request, those moves, and a cancel.
fn listed(alloc: Global) -> Result<Vec<Step<Val>>, NoMemory> {
    let mut steps = Vec::new(alloc);
    let range = Box::new(alloc, Expr::Range(2, 3))?;
    steps.push(Step::Subscribe(Expr::Plain(Stage::Map(2), range)))?;
    steps.push(Step::Request(SUB, 2))?;
    for step in &MOVES {
        steps.push(Step::Make(*step))?;
    }
    steps.push(Step::Cancel(SUB))?;
    Ok(steps)
}

/// Whether these are the answers of those steps.
fn are_answers(answers: &[Answer<Val>]) -> bool {
    matches!(
        answers,
        [
            Answer::Subscribed(SubId(0)),
            Answer::Requested(None),
            Answer::Refused(Refusal::NotEnabled),
            Answer::Made(None),
            Answer::Made(None),
            Answer::Made(None),
            Answer::Made(Some((SubId(0), Signal::Next(Val::Int(4))))),
            Answer::Refused(Refusal::NotEnabled),
            Answer::Refused(Refusal::UnknownHub),
            Answer::Cancelled
        ]
    )
}

#[test]
fn a_list_of_steps_is_answered(rt: HostRuntime) -> Result<(), NoMemory> {
    match replay(rt.alloc(), Demo, listed(rt.alloc())?) {
        Ok((_graph, answers)) => assert!(rt; are_answers(answers.as_slice())),
        Err(_steps) => assert!(rt; false, "the steps came back"),
    }
    Ok(())
}

/// `publishOn 1 4 (range 1 5)`.
fn on_a_worker(alloc: Global) -> Result<Expr<Val>, NoMemory> {
    let range = Box::new(alloc, Expr::Range(1, 5))?;
    Ok(Expr::On(1, 4, range))
}

/// The region of a subscription to this.
fn region(alloc: Global, expr: &Expr<Val>) -> Result<u8, Refusal> {
    let mut graph = Graph::new(alloc, Demo)?;
    let sub = graph.subscribe(alloc, expr)?;
    graph.region(sub)
}

#[test]
fn a_subscription_is_in_the_region_of_its_root(rt: HostRuntime) -> Result<(), NoMemory> {
    let expr = on_a_worker(rt.alloc())?;
    assert_eq!(rt; region(rt.alloc(), &expr), Ok(1));
    Ok(())
}
