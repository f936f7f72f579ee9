//! The names of hubs, subscriptions and nodes, and the moves of a graph.

/// A hub of a graph, counted from 0 in the order of their making.
#[derive(Clone, Copy, Debug, PartialEq, Eq)]
pub struct HubId(pub u32);

/// A subscription of a graph, counted from 0 in the order of their making.
#[derive(Clone, Copy, Debug, PartialEq, Eq)]
pub struct SubId(pub u32);

/// A node of a tree, counted from 0 in pre-order; its output edge has the same name.
#[derive(Clone, Copy, Debug, PartialEq, Eq)]
pub struct NodeId(pub u32);

/// A tree of nodes in a graph.
#[derive(Clone, Copy, Debug, PartialEq, Eq)]
pub enum Tree {
    /// The tree of a subscription.
    Sub(SubId),
    /// The tree that feeds a hub.
    Feed(HubId),
}

/// What a new member of a hub gets.
#[derive(Clone, Copy, Debug, PartialEq, Eq)]
pub enum HubKind {
    /// Nothing of what the hub took in before.
    Multicast,
    /// The last items that the hub took in before, at most this many: 1 to 1,024.
    Replay(u64),
}

/// One single step of a graph.
#[derive(Clone, Copy, Debug, PartialEq, Eq)]
pub enum Move {
    /// What is asked of the node's output edge rises to what its receiver wants.
    Ask(Tree, NodeId),
    /// The next signal of the node goes over its output edge.
    Send(Tree, NodeId),
    /// The first signal in the queue of the node's output edge goes to the receiver; at the root of a subscription it is
    /// delivered to the subscriber.
    Take(Tree, NodeId),
    /// The node takes the next signal of its input with this number, counted from 0, and records the choice. Of a `zip` it is the
    /// ending of that input.
    Pick(Tree, NodeId, u64),
    /// The node, a `zip`, takes the next item of each input and makes a row of them.
    Row(Tree, NodeId),
    /// The hub takes the signal in that waits in front of its inbox, and each node that reads the hub gets it.
    Accept(HubId),
}
