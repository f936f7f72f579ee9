//! The moves that let many items come at once.

ghost use Rattle.std.specs.Prelude.{◌≡◌, ◌<◌, None, true, false};
ghost use Rattle.rsx_pipe.specs.Fetched.{IsFetched};

use rsx_rooted::{Batches, NoRoom, Nodes, Rooted};
use rsx_sources::Front;
use rsx_tree::{Inputs, NodeMove};
use rsx_types::Ops;
use std::alloc::Global;

/// How many nodes stand over these edges, and below them. None where they are 2^32 or more.
#[cycle(count)]
fn count<M>(inputs: &Inputs<M>) -> Option<u32> {
    match inputs {
        Inputs::End => Some(0),
        Inputs::More(_, _, below, beside) => {
            let inside = count(below)?;
            let others = count(beside)?;
            inside.checked_add(others)?.checked_add(1)
        }
    }
}

/// The first move on the way down to the items without which many can't be pulled at once, where the first of these edges has the
/// number `at`: the Send of a completion that is all that is left of an input, or the Ask over an edge that has no demand left. None
/// where this node, or one on the way, lets no items through at once. It is only where to look, so nothing is promised of it.
#[cycle(move_ahead)]
fn move_ahead<M: Batches>(node: &M, inputs: &Inputs<M>, at: u32) -> Option<NodeMove> {
    if node.most() == 0 {
        return None;
    }
    match inputs {
        Inputs::End => None,
        Inputs::More(edge, sender, below, beside) => {
            let next = at.checked_add(1)?;
            if !edge.is_live() {
                let behind = next.checked_add(count(below)?)?;
                return move_ahead(node, beside, behind);
            }
            if let Some(Front::Completion) = sender.front() {
                return Some(NodeMove::Send(at));
            }
            if edge.can_carry(Front::Item) {
                return move_ahead(sender, below, next);
            }
            Some(NodeMove::Ask(at))
        }
    }
}

/// How many signals wait in the first queue that holds some, on the way down to the items: of an input of a node, or of an edge that
/// crosses. The first of these edges is this input of the node. It is a hint, so nothing is promised of it.
#[cycle(waiting)]
pub fn waiting<N: Nodes>(node: &N, inputs: &Inputs<N>, input: u64) -> u64 {
    match inputs {
        Inputs::End => 0,
        Inputs::More(edge, sender, below, beside) => {
            if !edge.is_live() {
                return match input.checked_add(1) {
                    Some(next) => waiting(node, beside, next),
                    None => 0,
                };
            }
            let queued = node.queued_at(input).unwrap_or(0);
            if queued > 0 {
                return queued;
            }
            let crossing = sender.crossing().unwrap_or(0);
            if crossing > 0 {
                return crossing;
            }
            waiting(sender, below, 0)
        }
    }
}

/// Makes a move on the way down to the items, so that many of them may be pulled at once: sends the completion of an input that has
/// nothing else left, or asks over the first edge that has no demand left. That takes one of the budget that is `left`. It answers no
/// where there is nothing of either to do, and where no budget is left. Then nothing has changed.
pub fn make_ahead<M: Batches, O: Ops<Item = M::Item>>(
    alloc: Global,
    ops: &O,
    tree: &mut Rooted<M>,
    left: &mut u32,
) -> bool
    ensures made { IsFetched M.Machine (O.meaning ops.now) left.old tree.old None left.new tree.new }
    ensures yes { result ≡ true → left.new < left.old }
    ensures no { result ≡ false → (tree.new ≡ tree.old) × (left.new ≡ left.old) }
{
    if *left == 0 {
        return false;
    }
    let step = match move_ahead(&tree.tree.machine, &tree.tree.inputs, 1) {
        Some(step) => step,
        None => return false,
    };
    match tree.make(alloc, ops, step, &mut NoRoom) {
        Ok(()) => {
            *left -= 1;
            true
        }
        Err(_) => false,
    }
}
