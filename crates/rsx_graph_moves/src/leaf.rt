//! The node of a tree that waits for the hub that it reads.

ghost use Rattle.std.specs.Prelude.{◌≡◌, ◌+◌, ◌<◌, ◌^◌, ℕ, min, IfSome, IfNone};
ghost use Rattle.rsx_tree.specs.Inputs.{size};
ghost use Rattle.rsx_tree.specs.Stepped.{over};
ghost use Rattle.rsx_types.specs.Meaning.{Meaning};
ghost use Rattle.rsx_graph_moves.specs.Idle.{LacksAll};
ghost use Rattle.rsx_graph_moves.specs.Waiting as spec;
ghost use Rattle.rsx_graph_moves.specs.Waiting.{IsLeafIn, IsLeafOf, Waits, WaitsIn};

use rsx_sources::Machine;
use rsx_tree::{Edge, Inputs, Node};

/// A node of a tree that waits for the hub that it reads.
#[derive(Clone, Copy, Debug, PartialEq, Eq)]
pub struct WaitingLeaf {
    /// The number of the node; the root has the number 0.
    pub node: u32,
    /// The number of the hub.
    pub hub: u64,
}

/// How many nodes a row has, but at most `most`.
fn count_up_to<M>(row: &Inputs<M>, most: u32) -> u32
    ensures { result ≡ min (size row.now) most }
{
    match row {
        Inputs::End => 0,
        Inputs::More(_, _, below, beside) => {
            if most == 0 {
                return 0;
            }
            let inside = count_up_to(below, most - 1);
            let others = count_up_to(beside, most - 1 - inside);
            inside + others + 1
        }
    }
}

/// Whether a node lacks a signal: its edge is live, more was asked over it than was sent, and the node offers nothing.
fn lacks<M: Machine>(edge: &Edge, node: &M) -> bool
    ensures { result ≡ spec.lacks M.Machine (over edge.now node.now) }
{
    if !edge.is_live() || edge.demand.sent >= edge.demand.asked {
        return false;
    }
    match node.front() {
        Some(_) => false,
        None => true,
    }
}

/// The first node of a row in pre-order that waits for the hub that it reads, where the row's first node has the number `first`.
/// None where no node of the row does that has a number.
fn leaf_in<M: Machine>(row: &Inputs<M>, first: u32) -> Option<WaitingLeaf>
    ensures some { IfSome result (λ leaf. IsLeafIn M.Machine row.now first leaf) }
    ensures none { IfNone result ((at hub : ℕ) → first + at < 2 ^ 32 → WaitsIn M.Machine row.now at hub → ⊥) }
{
    match row {
        Inputs::End => None,
        Inputs::More(edge, machine, below, beside) => {
            let room = u32::MAX - first;
            if lacks(edge, machine) {
                if let Some(hub) = machine.hub() {
                    return Some(WaitingLeaf { node: first, hub });
                }
                if room > 0 {
                    if let Some(leaf) = leaf_in(below, first + 1) {
                        return Some(leaf);
                    }
                }
            }
            if room == 0 {
                return None;
            }
            let inside = count_up_to(below, room);
            if inside == room {
                return None;
            }
            leaf_in(beside, first + 1 + inside)
        }
    }
}

/// The first node of a tree in pre-order that waits for the hub that it reads: it, and each node between it and the root, lacks a
/// signal. `root` is the tree's own edge. None exactly where no node with a number does. It takes no memory.
pub fn waiting_leaf<M: Machine>(root: &Edge, tree: &Node<M>) -> Option<WaitingLeaf>
    ensures some { IfSome result (λ leaf. IsLeafOf M.Machine root.now tree.now leaf) }
    ensures none { IfNone result ((at hub : ℕ) → at < 2 ^ 32 → Waits M.Machine root.now tree.now at hub → ⊥) }

    // An idle tree of which more is asked than it sent waits for a hub.
    ensures idle { (m : Meaning M.Item) → IfNone result (LacksAll M.Machine m root.now tree.now → ⊥) }
{
    if !lacks(root, &tree.machine) {
        return None;
    }
    if let Some(hub) = tree.machine.hub() {
        return Some(WaitingLeaf { node: 0, hub });
    }
    leaf_in(&tree.inputs, 1)
}
