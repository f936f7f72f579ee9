//! Which move inside a tree a move of a graph names, and how such a move is named.
//!
//! An edge that crosses to another region has a queue, which belongs to its sender: a Send puts the sender's next signal into
//! the queue, and a Take hands the queue's first signal to the receiver. To the tree, the first is a row of the sender, or a pick of
//! its input 0 where the sender records the signal, and the second a Send over the edge.

ghost use Rattle.std.specs.Prelude.{◌≡◌};
ghost use Rattle.rsx_subscriber.specs.Moves as spec;

use rsx_pipe::{NodeMove, Route};
use rsx_types::{Move, NodeId, Tree};

/// The number of the node that a move names; 0 for an Accept, which names none.
pub fn node_of(step: Move) -> u32
    ensures { result ≡ spec.node_of step }
{
    match step {
        Move::Ask(_, node) | Move::Send(_, node) | Move::Take(_, node) => node.0,
        Move::Pick(_, node, _) | Move::Row(_, node) => node.0,
        Move::Accept(_) => 0,
    }
}

/// The move inside the tree that a move names, where the edge of its node goes by this route; none where there's no such move.
pub fn node_move(step: Move, route: Route) -> Option<NodeMove>
    ensures { result ≡ spec.node_move route step }
{
    match step {
        Move::Ask(_, node) => Some(NodeMove::Ask(node.0)),
        Move::Send(_, node) => match route {
            Route::Straight => Some(NodeMove::Send(node.0)),
            Route::Queued(true) => Some(NodeMove::Row(node.0)),
            Route::Queued(false) => None,
            Route::Recorded => Some(NodeMove::Pick(node.0, 0)),
        },
        Move::Take(_, node) => match route {
            Route::Straight => None,
            Route::Queued(_) | Route::Recorded => Some(NodeMove::Send(node.0)),
        },
        Move::Pick(_, node, input) => match route {
            Route::Recorded if input == 0 => None,
            _ => Some(NodeMove::Pick(node.0, input)),
        },
        Move::Row(_, node) => match route {
            Route::Queued(true) => None,
            Route::Straight | Route::Queued(false) | Route::Recorded => {
                Some(NodeMove::Row(node.0))
            }
        },
        Move::Accept(_) => None,
    }
}

/// The number of the node of a move inside a tree.
pub fn inside_node(inside: NodeMove) -> u32
    ensures { result ≡ spec.inside_node inside }
{
    match inside {
        NodeMove::Ask(node) | NodeMove::Send(node) => node,
        NodeMove::Pick(node, _) | NodeMove::Row(node) => node,
    }
}

/// The name of a move inside this tree, where the edge of its node goes by this route.
pub fn name_of(tree: Tree, inside: NodeMove, route: Route) -> Move
    ensures { result ≡ spec.name_of route tree inside }
{
    match inside {
        NodeMove::Ask(node) => Move::Ask(tree, NodeId(node)),
        NodeMove::Send(node) => match route {
            Route::Straight => Move::Send(tree, NodeId(node)),
            Route::Queued(_) | Route::Recorded => Move::Take(tree, NodeId(node)),
        },
        NodeMove::Pick(node, input) => match route {
            Route::Recorded if input == 0 => Move::Send(tree, NodeId(node)),
            _ => Move::Pick(tree, NodeId(node), input),
        },
        NodeMove::Row(node) => match route {
            Route::Queued(true) => Move::Send(tree, NodeId(node)),
            Route::Straight | Route::Queued(false) | Route::Recorded => {
                Move::Row(tree, NodeId(node))
            }
        },
    }
}
