//! A graph goes live, and comes back.

ghost use Rattle.std.specs.Prelude.{◌≡◌, ◌<◌, ◌≤◌, [], length, IfErr, IfOk, OnErr};
ghost use Rattle.std.specs.List.{AllZip};
ghost use Rattle.rsx_gate.specs.Machine.{all_parts};
ghost use Rattle.rsx_gate.specs.Seats.{IsSeatOf};
ghost use Rattle.rsx_graph.specs.Stands.{NameHubs-prop};
ghost use Rattle.rsx_graph_calls.specs.Edits.{NameHubs};
ghost use Rattle.rsx_graph_state.specs.declared.TheConstants.{MOST_HUBS, MOST_SUBSCRIPTIONS};
ghost use Rattle.rsx_kinds.specs.Any.{any_machine};
ghost use Rattle.rsx_live_parts.specs.Kept.{AllMustStay, AreTapsFrom};

use crate::workers::has_regions;
use rsx_graph::{Graph, Pieces, Regions, Subscription};
use rsx_graph_state::Feed;
use rsx_hub::Hub;
use rsx_kinds::TreeNode;
use rsx_live_parts::{LiveSubscriptions, NotLive, Started, go_live};
use rsx_region::NotJoined;
use rsx_runtime::{Live, RegionSeat, Tap};
use rsx_types::Ops;
use std::alloc::Global;

/// A graph that is live: the parts of its open subscriptions that read no hub are in regions, which threads poke. All else of it stays as it
/// is until the close: hubs with their feeds, and the other subscriptions.
#[derive(Drop)]
pub struct LiveGraph<O: Ops> {
    pub(crate) subs: LiveSubscriptions<TreeNode<O::Item>, O::Item, O>,
    rest: GraphRest<O>,
    ghost few: { length subs.kept.items ≤ MOST_SUBSCRIPTIONS },
    ghost joined: { length rest.joins.items ≡ length subs.kept.items },
    ghost rooted: { length rest.regions.roots.items ≡ length subs.kept.items },
}

/// What stays of a graph, beside its subscriptions and functions.
#[derive(Drop)]
struct GraphRest<O: Ops> {
    hubs: Vec<Hub<O::Item>>,
    feeds: Vec<Feed<TreeNode<O::Item>>>,
    feed_joins: Vec<Vec<u64>>,
    joins: Vec<Vec<u64>>,
    regions: Regions,
    ghost few_hubs: { length hubs.items ≤ MOST_HUBS },
    ghost named: { NameHubs (length hubs.items) feeds.items } by { NameHubs-prop (length hubs.items) feeds.items },
    ghost beside: { length feed_joins.items ≡ length feeds.items },
    ghost sent: { length regions.feed_senders.items ≡ length feeds.items },
}

/// A graph that has gone live.
#[derive(Drop)]
pub struct StartedGraph<O: Ops> {
    /// The graph.
    pub live: LiveGraph<O>,
    /// The taps of the subscriptions whose parts are in regions, in the order of their numbers. The others have none until the close.
    pub taps: Vec<Tap<O::Item>>,
    /// A seat for each region, in their order. Each has all parts.
    pub seats: Vec<RegionSeat<TreeNode<O::Item>, O::Item, O>>,
}

/// A graph did not go live.
#[derive(Drop)]
pub enum NotStarted<O: Ops> {
    /// There are no workers or more than [`MOST_WORKERS`](rsx_runtime::MOST_WORKERS), or some node is to be in a region that isn't below their number. The graph
    /// comes back as it was.
    TooFewWorkers(Graph<O>),
    /// A growth was refused. The graph comes back, and stands for what it stood for.
    NoMemory(Graph<O>),
    /// A growth was refused, and then pieces could not be joined, which is not proved never to come, and no test met it. No graph comes
    /// back.
    NotJoined,
}

impl<O: Ops> LiveGraph<O> {
    ghost use Rattle.rsx_live.specs.Graphs.{ComesBack, GraphBack, IsLiveGraph, IsNotJoined, any_crossing};
    ghost use Rattle.rsx_live_parts.specs.Lives.{AreAllCut};
    ghost use Rattle.rsx_live.specs.Starts.{IsStartedOf};
    ghost use Rattle.rsx_live.specs.Workers.{HaveRegions};

    /// Puts the parts of a graph's subscriptions into `workers` regions, each behind a gate: where its root and the senders of its crossing
    /// edges are, as the expressions tell. That is the part of each that is open, whose root has not ended, and which reads no hub
    /// ([`go_out`](crate::go_out) says of each); the others stay as they are. [`LiveGraph::close`] gives the graph back.
    ///
    /// # Errors
    /// [`NotStarted::TooFewWorkers`] exactly where there are none or more than [`MOST_WORKERS`](rsx_runtime::MOST_WORKERS), or some region
    /// isn't below that number, else [`NotStarted::NoMemory`] where a growth was refused. [`NotStarted::NotJoined`] in place of that only
    /// where pieces that were cut can't be joined again ([`CutTrees::join_all`](rsx_region::CutTrees::join_all)): this is not proved never
    /// to come, and no test met it. No graph comes back then.
    pub fn go_live(
        alloc: Global,
        graph: Graph<O>,
        workers: u8,
    ) -> Result<StartedGraph<O>, NotStarted<O>>
        ensures started { IfOk result (IsStartedOf graph) }
        ensures gates { IfOk result (λ s. length s.live.subs.live.gates.items ≡ workers) }
        ensures workers { IfOk result (λ s. HaveRegions workers graph.regions) }
        ensures stay { IfOk result (λ s. AllMustStay any_machine s.live.subs.kept.items) }
        ensures cut { IfOk result (λ s. AreAllCut any_machine any_crossing graph.subscriptions.items s.live.subs.kept.items s.live.subs.live.links.items) }
        ensures err { IfErr result (ComesBack workers graph) }
    {
        let pieces = graph.take_apart();
        if !has_regions(&pieces.regions, workers) {
            return Err(NotStarted::TooFewWorkers(pieces.put_together()));
        }
        let Pieces {
            ops,
            hubs,
            feeds,
            feed_joins,
            subs,
            joins,
            regions,
        } = pieces;
        let rest = GraphRest {
            hubs,
            feeds,
            feed_joins,
            joins,
            regions,
        };
        let started = go_live(
            alloc,
            ops,
            subs,
            &rest.regions.roots,
            &rest.regions.senders,
            workers,
        );
        match started {
            Ok(Started { live, taps, seats }) => {
                let live = LiveGraph { subs: live, rest };
                Ok(StartedGraph { live, taps, seats })
            }
            Err(NotLive::NoMemory(ops, subs)) => {
                Err(NotStarted::NoMemory(rest.together(ops, subs)))
            }
            Err(NotLive::NotJoined) => Err(NotStarted::NotJoined),
        }
    }

    /// The regions with their gates, and the links, by which threads poke, request, take and cancel.
    pub fn live(&self) -> &Live<TreeNode<O::Item>, O::Item, O>
        ensures { result.now ≡ self.now.subs.live }
    {
        self.subs.live()
    }

    /// At how many edges its trees were cut, in all.
    pub fn cuts(&self) -> usize
        ensures { result ≡ length self.now.subs.plan.edges.items }
    {
        self.subs.cuts()
    }

    /// Ends the regions, and makes a graph again. Whatever all threads did, in any order, it stands for what the graph stood for that went
    /// live, with what the taps gave: each of their subscribers received that, asked for what its tap asked for, is refused where that
    /// gave the error of a bad request, has ended where it gave an ending, and is cancelled where a flag of its link was set. There are
    /// the taps and the seats that [`LiveGraph::go_live`] gave, each seat with all parts. It takes no memory.
    ///
    /// # Errors
    /// Only where pieces can't be joined, which [`Piece::join`](rsx_region::Piece::join) says of: this is not proved never to come, and
    /// no test met it. Nothing comes back then.
    pub fn close(
        self,
        taps: Vec<Tap<O::Item>>,
        seats: Vec<RegionSeat<TreeNode<O::Item>, O::Item, O>>,
    ) -> Result<Graph<O>, NotJoined>
        requires live { IsLiveGraph self }
        requires taps { AreTapsFrom self.subs.live.links.items 0 self.subs.kept.items taps.items }
        requires seats { AllZip (λ g s. IsSeatOf g s × (all_parts ≤ s.me.0.parts)) self.subs.live.gates.items seats.items }
        ensures back { IfOk result (GraphBack self taps.items) }
        ensures err { OnErr result (IsNotJoined self) }
    {
        let LiveGraph { subs, rest } = self;
        let (subs, ops) = subs.close(taps, seats)?;
        Ok(rest.together(ops, subs))
    }
}

impl<O: Ops> GraphRest<O> {
    ghost use Rattle.rsx_live.specs.Graphs.{IsTogether};

    /// The graph of these functions and subscriptions, and of what stayed.
    fn together(self, ops: O, subs: Vec<Subscription<TreeNode<O::Item>, O::Item>>) -> Graph<O>
        requires few { length subs.items ≤ MOST_SUBSCRIPTIONS }
        requires joined { length self.joins.items ≡ length subs.items }
        requires rooted { length self.regions.roots.items ≡ length subs.items }
        ensures { IsTogether ops subs.items self result }
    {
        let pieces = Pieces {
            ops,
            hubs: self.hubs,
            feeds: self.feeds,
            feed_joins: self.feed_joins,
            subs,
            joins: self.joins,
            regions: self.regions,
        };
        pieces.put_together()
    }
}
