//! What is made many times: a move in one call, and the picks of a merge.

use rsx_demo::{Demo, Val};
use rsx_graph::{Deliveries, Graph, Refusal};
use rsx_model::Expr;
use rsx_types::{Move, NoMemory, NodeId, Note, Signal, SubId, Tree};
use std::alloc::Global;

// The tests need no facts of what they call, so these functions have no clause.

const SUB: SubId = SubId(0);

const TREE: Tree = Tree::Sub(SUB);

/// Sends over the root edge until its queue of 64 signals is full, Takes of as many as one call makes, and none of a tree that isn't
/// there.
const CALLS: [(Move, u32); 5] = [
    (Move::Send(TREE, NodeId(0)), 40),
    (Move::Send(TREE, NodeId(0)), 40),
    (Move::Send(TREE, NodeId(0)), 40),
    (Move::Take(TREE, NodeId(0)), 64),
    (Move::Take(Tree::Sub(SubId(1)), NodeId(0)), 0),
];

/// What these calls answer, where all of `range 1 100` is asked for.
fn made(alloc: Global, out: &mut Deliveries<Val>) -> Result<Vec<Result<u32, Refusal>>, Refusal> {
    let mut graph = Graph::new(alloc, Demo)?;
    graph.subscribe(alloc, &Expr::Range(1, 100))?;
    graph.request(SUB, 100)?;
    let mut answers = Vec::new(alloc);
    for (step, n) in &CALLS {
        let answer = graph.make_many(alloc, *step, *n, out);
        if answers.push(answer).is_err() {
            return Err(Refusal::NoMemory);
        }
    }
    Ok(answers)
}

/// Whether just the numbers from 1 to 32 were delivered.
fn are_delivered(out: &Deliveries<Val>) -> bool {
    let mut next = 1i64;
    for (sub, signal) in out.as_slice() {
        if *sub != SUB || *signal != Signal::Next(Val::Int(next)) {
            return false;
        }
        next = next.wrapping_add(1);
    }
    next == 33
}

#[test]
fn a_move_is_made_many_times_in_one_call(rt: HostRuntime) -> Result<(), Refusal> {
    let mut out = Deliveries::new(rt.alloc());
    let answers = made(rt.alloc(), &mut out)?;
    assert!(rt;
        matches!(
            answers.as_slice(),
            [Ok(32), Ok(32), Err(Refusal::NotEnabled), Ok(32), Ok(0)]
        )
    );
    assert!(rt; are_delivered(&out));
    Ok(())
}

/// `merge 64 (range 1 100000) (items)`.
fn merged(alloc: Global) -> Result<Expr<Val>, NoMemory> {
    let mut inputs = Vec::new(alloc);
    inputs.push(Expr::Range(1, 100_000))?;
    inputs.push(Expr::Items(Vec::new(alloc)))?;
    Ok(Expr::Merge(64, inputs))
}

/// What the merge recorded, once all of it was delivered.
fn recorded(alloc: Global, expr: &Expr<Val>) -> Result<Vec<Note>, Refusal> {
    let mut graph = Graph::new(alloc, Demo)?;
    graph.subscribe(alloc, expr)?;
    graph.request(SUB, 100_000)?;
    graph.pump(alloc, u32::MAX, &mut Deliveries::new(alloc))?;
    graph.notes(alloc, TREE)
}

/// How many runs of one choice these are.
fn runs(choices: &[u64]) -> u64 {
    let mut runs = 0u64;
    let mut last = None;
    for choice in choices {
        if last != Some(*choice) {
            runs = runs.wrapping_add(1);
        }
        last = Some(*choice);
    }
    runs
}

/// A long stream and an empty one are picked in a few runs, so that their record stays small.
#[test]
fn an_input_is_picked_on_and_on(rt: HostRuntime) -> Result<(), Refusal> {
    let Ok(expr) = merged(rt.alloc()) else {
        return Err(Refusal::NoMemory);
    };
    let notes = recorded(rt.alloc(), &expr)?;
    let Some(Note::Picks(choices)) = notes.first() else {
        assert!(rt; false, "nothing was recorded");
        return Ok(());
    };
    let few = runs(choices.as_slice()) <= 3;
    assert!(rt; choices.as_slice().len() == 100_002 && few);
    Ok(())
}
