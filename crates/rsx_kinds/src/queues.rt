//! How many signals wait in the queues of a node.

ghost use Rattle.std.specs.Prelude.{◌≡◌};
ghost use Rattle.rsx_kinds.specs.Queues.{any_lanes, any_queued, several_queued, waiting_behind};

use crate::{AnyNode, SeveralNode};
use rsx_queued::{Queued, Tail};

/// How many signals wait in the queue of an edge that crosses, the ending too.
pub(crate) fn waiting_behind<T: Drop>(queued: &Queued<AnyNode<T>, T>) -> u64
    ensures { result ≡ waiting_behind queued.now }
{
    let items = queued.queue.len() as u64;
    match queued.tail {
        Tail::Completion | Tail::Failure(_) => items + 1,
        Tail::Open | Tail::Taken => items,
    }
}

/// How many items wait in the node's lanes to be picked. None of a node without lanes.
pub(crate) fn in_lanes_of<T: Drop>(node: &AnyNode<T>) -> Option<u64>
    ensures { result ≡ any_lanes node.now }
{
    match node {
        AnyNode::FlatMap(node) => Some(node.waiting()),
        AnyNode::FlatMapDelay(node) => Some(node.waiting()),
        AnyNode::GroupBy(node) => Some(node.waiting()),
        AnyNode::Source(_)
        | AnyNode::Plain(_)
        | AnyNode::Several(_)
        | AnyNode::PublishOn(_)
        | AnyNode::PublishOnEager(_)
        | AnyNode::Window(_) => None,
    }
}

/// How many signals of this input wait in the node's queue for it. None where it has no such queue.
pub(crate) fn queued_at_any<T: Drop>(node: &AnyNode<T>, input: u64) -> Option<u64>
    ensures { result ≡ any_queued node.now input }
{
    match node {
        AnyNode::Several(node) => queued_at_several(node, input),
        AnyNode::PublishOn(node) => node.queued_at(input),
        AnyNode::PublishOnEager(node) => node.queued_at(input),
        AnyNode::Source(_)
        | AnyNode::Plain(_)
        | AnyNode::Window(_)
        | AnyNode::FlatMap(_)
        | AnyNode::FlatMapDelay(_)
        | AnyNode::GroupBy(_) => None,
    }
}

/// How many signals of this input wait in the queue for it of a node of several inputs. None where it has no such queue.
fn queued_at_several<T: Drop>(node: &SeveralNode<T>, input: u64) -> Option<u64>
    ensures { result ≡ several_queued node.now input }
{
    match node {
        SeveralNode::Concat(_) => None,
        SeveralNode::Merge(node) => node.queued_at(input),
        SeveralNode::MergeDelay(node) => node.queued_at(input),
        SeveralNode::Zip(node) => node.queued_at(input),
        SeveralNode::Latest(node) => node.queued_at(input),
    }
}
