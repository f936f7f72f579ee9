//! The edge between a node and its receiver.

ghost use Rattle.std.specs.Prelude.{◌≡◌, ◌<◌, true};
ghost use Rattle.rsx_tree.specs.Edges.{IsAsked, IsPassed, can_ask_for, can_pass, closed_edge, closed_view, edge_view, is_live};
ghost use Rattle.rsx_demand.specs.declared.TheConstants.{UNBOUNDED};

use rsx_demand::{Demand, UNBOUNDED};
use rsx_sources::Front;

/// Whether signals still go over an edge.
#[derive(Clone, Copy, Debug, PartialEq, Eq)]
pub enum EdgeState {
    /// They do.
    Live,
    /// The ending went over it.
    Ended,
    /// Its receiver closed it.
    Closed,
}

/// The edge between a node and its receiver: what the receiver asked for and was sent (rule 1.1), and whether signals
/// still go over it.
#[derive(Clone, Copy, Debug)]
pub struct Edge {
    /// What was asked and sent.
    pub demand: Demand,
    /// Whether signals still go over the edge.
    pub state: EdgeState,
}

impl Edge {
    /// A live edge over which nothing was asked and nothing sent.
    pub fn new() -> Edge
        ensures asked { result.demand.asked ≡ 0 }
        ensures sent { result.demand.sent ≡ 0 }
        ensures state { result.state ≡ EdgeState.Live }
    {
        Edge {
            demand: Demand::new(),
            state: EdgeState::Live,
        }
    }

    /// Whether signals still go over the edge.
    #[inline]
    pub fn is_live(&self) -> bool
        ensures { result ≡ is_live self.now.state }
    {
        matches!(self.state, EdgeState::Live)
    }

    /// Whether the receiver, which wants `want` items in all, has more to ask.
    pub fn can_ask(&self, want: u64) -> bool
        ensures { result ≡ can_ask_for (edge_view self.now) want }
    {
        self.is_live() && self.demand.asked < want
    }

    /// Raises what was asked to `want`, at most 2^63 - 1 (rule 3.17).
    pub fn ask_up_to(&mut self, want: u64)
        requires { self.old.demand.asked < want }
        ensures { IsAsked want (edge_view self.old) (edge_view self.new) }
    {
        self.demand.asked = want.min(UNBOUNDED);
    }

    /// Whether such a signal can go over the edge: the edge is live, and an item was asked for (rule 1.1).
    pub fn can_carry(&self, front: Front) -> bool
        ensures { result ≡ can_pass (edge_view self.now) front }
    {
        match front {
            Front::Item => self.is_live() && self.demand.sent < self.demand.asked,
            Front::Completion | Front::Failure(_) => self.is_live(),
        }
    }

    /// A signal goes over the edge: an item is counted, an ending ends the edge (rule 1.7).
    pub fn carry(&mut self, front: Front)
        requires { can_pass (edge_view self.old) front ≡ true }
        ensures { IsPassed front (edge_view self.old) (edge_view self.new) }
    {
        match front {
            Front::Item => self.demand.spend(),
            Front::Completion | Front::Failure(_) => self.state = EdgeState::Ended,
        }
    }

    /// The receiver takes no more. An edge that has ended stays so.
    pub fn close(&mut self)
        ensures view { edge_view self.new ≡ closed_view (edge_view self.old) }
        ensures whole { self.new ≡ closed_edge self.old }
    {
        if self.is_live() {
            self.state = EdgeState::Closed;
        }
    }
}
