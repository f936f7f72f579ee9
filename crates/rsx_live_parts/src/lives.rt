//! Subscriptions that are live come back.

ghost use Rattle.std.specs.Prelude.{◌≡◌, ◌+◌, ◌<◌, ◌≤◌, ℕ, List, [], length, IfOk, OnErr, OnOk};
ghost use Rattle.std.specs.List.{AllZip};
ghost use Rattle.std.specs.Vec.{vec_capacity};
ghost use Rattle.rsx_types.specs.Stream.{Stream};
ghost use Rattle.rsx_gate.specs.Machine.{all_parts};
ghost use Rattle.rsx_gate.specs.Seats.{IsSeatOf};
ghost use Rattle.rsx_live_parts.specs.Kept.{AreTapsFrom, CameBack, CanComeBack};
ghost use Rattle.rsx_region.specs.Trees.{CanBeJoined, HaveGoneSince, LastCannotJoin, Stage};
ghost use Rattle.rsx_subscriber.specs.declared.subscription.Subscription.{Subscription as SubscriptionSpec};
ghost use Rattle.rsx_types.specs.Meaning.{Meaning};

use crate::kept::{Kept, come_back_each};
use rsx_pipe::{CrossingNodes, Nodes};
use rsx_region::{CutTrees, NotJoined};
use rsx_runtime::{Live, Plan, RegionSeat, Tap};
use rsx_subscriber::Subscription;
use rsx_types::Ops;

/// Subscriptions of which some have their parts in the regions of a live graph.
#[derive(Drop)]
pub struct LiveSubscriptions<N: Nodes<Item = T>, T: Drop, O: Ops<Item = T>> {
    /// The regions with their gates, and the links.
    pub(crate) live: Live<N, T, O>,
    /// What is kept of the trees that were cut.
    pub(crate) plan: Plan<N, T>,
    /// What is kept of each subscription.
    pub(crate) kept: Vec<Kept<N, T>>,
    /// The list in which the subscriptions come back. It is empty.
    pub(crate) room: Vec<Subscription<N, T>>,
    pub ghost none: { room.items ≡ [] },
    pub ghost fits: { length kept.items ≤ vec_capacity room },
    pub ghost gates: { length live.gates.items ≤ vec_capacity plan.regions },
}

impl<N: CrossingNodes<Item = T> + Drop, T: Drop, O: Ops<Item = T>> LiveSubscriptions<N, T, O> {
    ghost use Rattle.rsx_live_parts.specs.Lives.{AreNotJoined, CameBackFrom, IsLive, IsLiveFor};

    /// The regions with their gates, and the links, by which threads poke, request, take and cancel.
    pub fn live(&self) -> &Live<N, T, O>
        ensures { result.now ≡ self.now.live }
    {
        &self.live
    }

    /// At how many edges the trees were cut, in all.
    pub fn cuts(&self) -> usize
        ensures { result ≡ length self.now.plan.edges.items }
    {
        self.plan.edges.len()
    }

    /// Ends the regions, and makes subscriptions again of their pieces. Whatever all threads did, in any order, each stands for what it
    /// stood for as it went live, with what its tap gave. There is the tap of each subscription that has one, and one seat for each
    /// region, which has all parts, both in their orders. It takes no memory.
    ///
    /// # Errors
    /// Only where pieces can't be joined, which [`Piece::join`](rsx_region::Piece::join) says of: this is not proved never to come, and
    /// no test met it. Nothing comes back then.
    pub fn close(
        self,
        taps: Vec<Tap<T>>,
        seats: Vec<RegionSeat<N, T, O>>,
    ) -> Result<(Vec<Subscription<N, T>>, O), NotJoined>
        requires live { IsLive N.Machine N.CrossingNodes.own O.meaning self }
        requires taps { AreTapsFrom self.live.links.items 0 self.kept.items taps.items }
        requires seats { AllZip (λ g s. IsSeatOf g s × (all_parts ≤ s.me.0.parts)) self.live.gates.items seats.items }
        ensures back { IfOk result (λ r. CameBackFrom N.Machine N.CrossingNodes.own O.meaning self taps.items r.0.items) }
        ensures count { IfOk result (λ r. length r.0.items ≡ length self.kept.items) }
        ensures ops { IfOk result (λ r. r.1 ≡ self.live.ops) }
        ensures err { OnErr result ((subs : List (SubscriptionSpec N T)) → IsLiveFor N.Machine N.CrossingNodes.own O.meaning subs self → AreNotJoined N.Machine N.CrossingNodes.own (O.meaning self.live.ops) subs self.kept.items) }
    {
        let LiveSubscriptions {
            live,
            plan,
            kept,
            room,
        } = self;
        let (mut trees, ops) = live.close(seats, plan);
        join_trees(&mut trees)?;
        Ok((come_back_all(trees, taps, kept, room), ops))
    }
}

/// Joins trees at all edges, by [`CutTrees::join_all`]. Where that is refused an edge is left, at which they can't be joined.
pub(crate) fn join_trees<N: CrossingNodes<Item = T> + Drop, T: Drop>(
    trees: &mut CutTrees<N, T>,
) -> Result<(), NotJoined>
    requires { CanBeJoined N.Machine N.CrossingNodes.own trees.old }
    ensures whole { OnOk result ((m : Meaning T) (first hubs : List (Stream T)) (whole opening : Stage N T) → HaveGoneSince N.Machine N.CrossingNodes.own m first hubs whole opening trees.old → HaveGoneSince N.Machine N.CrossingNodes.own m first hubs whole whole trees.new) }
    ensures refused { OnErr result ((0 < length trees.new.edges.items) × LastCannotJoin N.Machine N.CrossingNodes.own trees.new) }
    ensures since { (m : Meaning T) (first hubs : List (Stream T)) (whole opening : Stage N T) → HaveGoneSince N.Machine N.CrossingNodes.own m first hubs whole opening trees.old → (before : Stage N T) × HaveGoneSince N.Machine N.CrossingNodes.own m first hubs whole before trees.new }
{
    let joined = trees.join_all();
    // With no edge left, they are joined.
    if trees.edges.is_empty() {
        return Ok(());
    }
    joined
}

/// Makes subscriptions again of what was kept of them, of trees that are not cut, and of the taps, in a list that has room for them.
pub(crate) fn come_back_all<N: CrossingNodes<Item = T> + Drop, T: Drop>(
    trees: CutTrees<N, T>,
    taps: Vec<Tap<T>>,
    kept: Vec<Kept<N, T>>,
    room: Vec<Subscription<N, T>>,
) -> Vec<Subscription<N, T>>
    requires can { CanComeBack N.Machine kept.items trees.pieces.items trees.links.items taps.items }
    requires none { room.items ≡ [] }
    requires room { length kept.items ≤ vec_capacity room }
    ensures { CameBack N.Machine kept.items trees.pieces.items trees.links.items taps.items result.items }
{
    let CutTrees { pieces, links, .. } = trees;
    let mut subs = room;
    come_back_each(
        &mut kept.into_iter(),
        &mut pieces.into_iter(),
        &mut links.into_iter(),
        &mut taps.into_iter(),
        &mut subs,
    );
    subs
}
