//! How the edges of a part join their two ends.

ghost use Rattle.std.specs.Prelude.{◌≡◌, option_map};
ghost use Rattle.rsx_pipe.specs.Crossing.{edge_over, route, route_below};
ghost use Rattle.rsx_tree.specs.Edges.{edge_view};
ghost use Rattle.rsx_tree.specs.Stepped.{station_of};

use crate::part::Part;
use rsx_rooted::{Nodes, Route};
use rsx_tree::Edge;

impl<N: Nodes> Part<N> {
    /// The edge over which the node `at` sends, 0 for the root's. None where there is no such node.
    pub fn edge(&self, at: u32) -> Option<Edge>
        ensures { option_map edge_view result ≡ option_map edge_over (station_of self.now.tree (edge_view self.now.root) at) }
    {
        match self.rooted.tree.node(&self.rooted.root, at) {
            Some((edge, _)) => Some(*edge),
            None => None,
        }
    }

    /// How the edge `at` joins its two ends. The edge of a node that isn't there goes straight.
    pub fn route(&self, at: u32) -> Route
        ensures { result ≡ route N.Nodes.own self.now at }
    {
        match self.rooted.tree.node(&self.rooted.root, at) {
            Some((edge, node)) => node.route(edge),
            None => Route::Straight,
        }
    }

    /// The same of a part whose root edge has a queue that belongs to its receiver: of that edge it answers [`Route::Straight`].
    pub fn route_below(&self, at: u32) -> Route
        ensures { result ≡ route_below N.Nodes.own self.now at }
    {
        match at {
            0 => Route::Straight,
            _ => self.route(at),
        }
    }
}
