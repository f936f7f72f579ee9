#![tactic(auto)]
//! Puts a kind of node that the library doesn't have, `skip`, into a graph: over nodes of the library, in two subscriptions. It does a
//! few things to the graph, and writes for each of them what was delivered and what is still owed, which is stored beside it.

mod rows;

use crate::rows::{Act, run};
use anyhow::{Result, bail};
use rsx_demo::{Demo, Val};
use rsx_graph_state::MOST_HUBS;
use rsx_hub::Hub;
use rsx_kinds::{TreeNode, build};
use rsx_model::{Expr, check_expr};
use rsx_processor::{EitherNode, ProcessorNode, left};
use rsx_tree::{Inputs, Node};
use rsx_types::{HubId, HubKind, Move, NoMemory, NodeId, Stage, SubId, Tree};
use std::alloc::Global;
use test_skip::Skip;

/// A node of the library, or a `skip`.
type OwnNode = EitherNode<TreeNode<Val>, ProcessorNode<Skip<Val>, Val>>;

/// The function that doubles a number.
const DOUBLE: u16 = 2;

const FIRST: SubId = SubId(0);

const SECOND: SubId = SubId(1);

/// What is done.
const ACTS: [Act; 14] = [
    Act::Request(FIRST, 2),
    Act::Make(Move::Ask(Tree::Sub(FIRST), NodeId(1))),
    Act::Make(Move::Ask(Tree::Sub(FIRST), NodeId(2))),
    Act::Make(Move::Send(Tree::Sub(FIRST), NodeId(2))),
    Act::Make(Move::Send(Tree::Sub(FIRST), NodeId(1))),
    Act::Pump(100),
    Act::Request(SECOND, 1),
    Act::Emit(10),
    Act::Emit(20),
    Act::Emit(30),
    Act::Pump(100),
    Act::Cancel(SECOND),
    Act::Request(FIRST, 9),
    Act::Pump(100),
];

/// The tree of `skip` over an expression of the library.
fn skip_over(
    alloc: Global,
    hubs: &Vec<Hub<Val>>,
    count: u64,
    expr: &Expr<Val>,
) -> Result<Node<OwnNode>, NoMemory> {
    if hubs.len() > MOST_HUBS || check_expr(expr, hubs.len() as u32).is_err() {
        return Err(NoMemory);
    }
    let below = build(alloc, &Demo, expr, hubs)?;
    let below: Node<OwnNode> = left(alloc, below)?;
    let inputs = below.join(alloc, Inputs::End)?;
    let machine = EitherNode::Right(ProcessorNode::new(Skip::new(count)));
    Ok(Node { machine, inputs })
}

fn main(rt: HostRuntime) -> Result<()> {
    let alloc = rt.alloc();
    let mut hubs = Vec::new(alloc);
    match Hub::new(alloc, HubKind::Multicast, 8) {
        Ok(hub) => hubs.push(hub)?,
        Err(_) => bail!("no hub"),
    }
    let doubled = Expr::Plain(Stage::Map(DOUBLE), Box::new(alloc, Expr::Range(1, 6))?);
    let published = Expr::Hub(HubId(0));
    let mut trees = Vec::new(alloc);
    for (count, expr) in [(2, doubled), (1, published)] {
        let Ok(tree) = skip_over(alloc, &hubs, count, &expr) else {
            bail!("no memory")
        };
        trees.push((expr, tree))?;
    }
    let lines = run(alloc, hubs, trees, &ACTS)?;
    print!(rt; "{lines}")?;
    Ok(())
}
