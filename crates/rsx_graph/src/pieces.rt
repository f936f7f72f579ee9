//! A graph taken apart: what it is made of, each for itself.

ghost use Rattle.std.specs.Prelude.{◌≡◌, ◌≤◌, length};
ghost use Rattle.rsx_graph_calls.specs.Edits.{NameHubs};
ghost use Rattle.rsx_graph.specs.Stands.{NameHubs-prop};
ghost use Rattle.rsx_graph_state.specs.declared.TheConstants.{MOST_HUBS, MOST_SUBSCRIPTIONS};

use crate::graph::Graph;
use rsx_graph_calls::Regions;
use rsx_graph_moves::IdleSet;
use rsx_graph_state::Feed;
use rsx_hub::Hub;
use rsx_kinds::TreeNode;
use rsx_subscriber::Subscription;
use rsx_types::Ops;

/// The pieces of a graph. They stand for what the graph stands for, and [`Pieces::put_together`] makes the graph of them again.
///
/// Hubs and subscriptions stand in the order of their numbers, which are their places, and feeds in that of their making. Whoever
/// changes pieces keeps as many joins and regions as there are trees of each sort, and lets each feed name a hub that is there.
#[derive(Drop)]
pub struct Pieces<O: Ops> {
    /// The functions of the caller.
    pub ops: O,
    /// The hubs, at most [`MOST_HUBS`](crate::MOST_HUBS).
    pub hubs: Vec<Hub<O::Item>>,
    /// The feeds of those hubs that expressions feed. Each names its hub.
    pub feeds: Vec<Feed<TreeNode<O::Item>>>,
    /// The joins of each feed's leaves that read a hub, from left to right.
    pub feed_joins: Vec<Vec<u64>>,
    /// The subscriptions, at most [`MOST_SUBSCRIPTIONS`](crate::MOST_SUBSCRIPTIONS), each with its part, its queue, its state and its demand.
    pub subs: Vec<Subscription<TreeNode<O::Item>, O::Item>>,
    /// The joins of each subscription's leaves that read a hub, from left to right.
    pub joins: Vec<Vec<u64>>,
    /// The regions of the trees of the subscriptions and of the feeds.
    pub regions: Regions,
    pub ghost few: { length subs.items ≤ MOST_SUBSCRIPTIONS },
    pub ghost few_hubs: { length hubs.items ≤ MOST_HUBS },
    pub ghost named: { NameHubs (length hubs.items) feeds.items } by { NameHubs-prop (length hubs.items) feeds.items },
    pub ghost beside: { length feed_joins.items ≡ length feeds.items },
    pub ghost sent: { length regions.feed_senders.items ≡ length feeds.items },
    pub ghost joined: { length joins.items ≡ length subs.items },
    pub ghost rooted: { length regions.roots.items ≡ length subs.items },
}

impl<O: Ops> Graph<O> {
    ghost use Rattle.std.specs.Prelude.{◌≡◌};
    ghost use Rattle.rsx_graph.specs.InGraph.{IfStandsFor, state_of};
    ghost use Rattle.rsx_graph.specs.Pieces.{ArePiecesOf, IfPiecesStand, PiecesStand, pieces_of};
    ghost use Rattle.rsx_graph.specs.Stands.{GraphStands};

    /// The pieces of the graph, each as it is. They stand for just the histories for which the graph stands. It takes no memory.
    pub fn take_apart(self) -> Pieces<O>
        ensures pieces { ArePiecesOf self result }
        ensures state { pieces_of result ≡ state_of self }
        ensures stands { IfStandsFor self (λ h. PiecesStand result h) }
        ensures only { IfPiecesStand result (λ h. GraphStands (O.meaning self.ops) (state_of self) h) }
    {
        let graph = self;
        Pieces {
            ops: graph.ops,
            hubs: graph.hubs,
            feeds: graph.feeds,
            feed_joins: graph.feed_joins,
            subs: graph.subscriptions,
            joins: graph.joins,
            regions: graph.regions,
        }
    }
}

impl<O: Ops> Pieces<O> {
    ghost use Rattle.std.specs.Prelude.{◌≡◌};
    ghost use Rattle.rsx_graph.specs.InGraph.{IfStandsFor, state_of};
    ghost use Rattle.rsx_graph.specs.Pieces.{ArePiecesOf, IfPiecesStand, PiecesStand, pieces_of};
    ghost use Rattle.rsx_graph.specs.Stands.{GraphStands};

    /// The graph of these pieces, each as it is: of the pieces of a graph ([`Graph::take_apart`]) that graph again. It stands for just
    /// the histories for which the pieces stand. It takes no memory.
    pub fn put_together(self) -> Graph<O>
        ensures pieces { ArePiecesOf result self }
        ensures state { state_of result ≡ pieces_of self }
        ensures stands { IfPiecesStand self (λ h. GraphStands (O.meaning result.ops) (state_of result) h) }
        ensures only { IfStandsFor result (λ h. PiecesStand self h) }
    {
        let pieces = self;
        Graph {
            ops: pieces.ops,
            hubs: pieces.hubs,
            feeds: pieces.feeds,
            feed_joins: pieces.feed_joins,
            subscriptions: pieces.subs,
            joins: pieces.joins,
            regions: pieces.regions,
            idle: IdleSet::new(),
        }
    }
}
