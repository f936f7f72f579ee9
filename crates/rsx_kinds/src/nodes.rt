//! The nodes that there are, as those of a graph.

use crate::TreeNode;
use crate::operators::operator_of_any;
use crate::queues::{in_lanes_of, queued_at_any, waiting_behind};
use rsx_queued::Sender;
use rsx_rooted::{Nodes, Route};
use rsx_tree::Edge;
use rsx_waits::Operator;

impl<T: Drop> Nodes for TreeNode<T> {
    ghost use Rattle.rsx_kinds.specs.Crossings.{is_crossing};
    ghost use Rattle.rsx_kinds.specs.Local.{any_local};
    ghost use Rattle.rsx_kinds.specs.Operators.{operator_of};
    ghost use Rattle.rsx_kinds.specs.Queues.{crossing_of, lanes_of, queued_of};
    ghost use Rattle.rsx_kinds.specs.Rests.{any_rests};
    ghost use Rattle.rsx_kinds.specs.Room.{any_full};
    ghost use Rattle.rsx_kinds.specs.Routes.{route_by};

    ghost route_by = { route_by };

    ghost operator_of = { operator_of };

    ghost queued_of = { queued_of };

    ghost crossing_of = { crossing_of };

    ghost lanes_of = { lanes_of };

    fn route(&self, edge: &Edge) -> Route {
        match self.node() {
            Sender::Direct(_) => Route::Straight,
            Sender::Crossing(queued) => {
                if !edge.is_live() || !queued.can_transfer(edge.demand.asked, edge.demand.sent) {
                    return Route::Queued(false);
                }
                if queued.records_transfer() {
                    Route::Recorded
                } else {
                    Route::Queued(true)
                }
            }
        }
    }

    fn operator(&self) -> Operator {
        match self.node() {
            Sender::Direct(node) => operator_of_any(node),
            Sender::Crossing(queued) => operator_of_any(&queued.node),
        }
    }

    fn queued_at(&self, input: u64) -> Option<u64> {
        match self.node() {
            Sender::Direct(node) => queued_at_any(node, input),
            Sender::Crossing(queued) => queued_at_any(&queued.node, input),
        }
    }

    fn crossing(&self) -> Option<u64> {
        match self.node() {
            Sender::Direct(_) => None,
            Sender::Crossing(queued) => Some(waiting_behind(queued)),
        }
    }

    fn lanes(&self) -> Option<u64> {
        match self.node() {
            Sender::Direct(node) => in_lanes_of(node),
            Sender::Crossing(queued) => in_lanes_of(&queued.node),
        }
    }

    ghost rests = { any_rests };

    ghost full = { any_full };

    ghost local = { any_local };
}
