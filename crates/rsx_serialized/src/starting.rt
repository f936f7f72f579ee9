//! A graph is put behind a gate, with emitters and taps.

ghost use Rattle.std.specs.Prelude.{◌≡◌, ◌-◌, ◌≤◌, IfErr, IfOk, length, min};
ghost use Rattle.rsx_graph_state.specs.declared.TheConstants.{MOST_HUBS, MOST_SUBSCRIPTIONS};
ghost use Rattle.rsx_serialized.specs.declared.starting.TheConstants.{MOST_PLACES};
ghost use Rattle.rsx_serialized.specs.Starting.{AreEmitterLinks, AreTapLinks, IsStartedOf};

use crate::emitter_links::EmitterLinks;
use crate::region::{GraphRegion, Links};
use crate::serialized::{GraphSeat, SerializedGraph};
use crate::tap_links::TapLinks;
use rsx_graph::{Graph, MOST_SUBSCRIPTIONS, Subscription};
use rsx_graph_state::Feed;
use rsx_hub::Hub;
use rsx_runtime::{Emitter, Tap};
use rsx_types::{NoMemory, Ops};
use std::alloc::Global;
use std::collections::VecDeque;

/// How many places for subscriptions to come a graph may be started with.
pub const MOST_PLACES: u32 = 64;

/// A graph behind its gate, with what its callers work by.
#[derive(Drop)]
pub struct StartedGraph<O: Ops> {
    /// The graph. It is shared by reference.
    pub graph: SerializedGraph<O>,
    /// The first seat of the gate, with all parts.
    pub seat: GraphSeat<O>,
    /// The emitters: one for each hub that no feed feeds, in the order of the hubs' numbers. Each stands at the place of its link.
    pub emitters: Vec<Emitter<O::Item>>,
    /// The taps: one for each subscription, at the place of its number.
    pub taps: Vec<Tap<O::Item>>,
}

impl<O: Ops> SerializedGraph<O> {
    ghost use Rattle.std.specs.Prelude.{◌≡◌, IfErr, IfOk};
    ghost use Rattle.rsx_serialized.specs.Starting.{ComesBack, IsStartedOf, places_in};

    /// Puts a graph behind a gate, with a link for each hub that no feed feeds and for each subscription. The emitter of a hub counts on
    /// from the items that the hub accepted, and the hub has ended for it where an emitter ended it. The tap of a subscription counts on
    /// from what its subscriber asked for and was delivered, and is over where the subscription isn't open.
    ///
    /// # Errors
    /// The graph comes back as it was where a growth was refused.
    pub fn start(alloc: Global, graph: Graph<O>) -> Result<StartedGraph<O>, Graph<O>>
        ensures started { IfOk result (λ s. IsStartedOf graph 0 s) }
        ensures err { IfErr result (λ g. ComesBack graph g) }
    {
        SerializedGraph::start_with_places(alloc, graph, 0)
    }

    /// Puts a graph behind a gate, as [`SerializedGraph::start`] does, with places for so many subscriptions to come
    /// ([`SerializedGraph::subscribe`]): a link is opened for each. There are fewer where so many are more than [`MOST_PLACES`], or more
    /// than the graph has room for.
    ///
    /// # Errors
    /// The graph comes back as it was where a growth was refused.
    pub fn start_with_places(
        alloc: Global,
        graph: Graph<O>,
        places: u32,
    ) -> Result<StartedGraph<O>, Graph<O>>
        ensures started { IfOk result (λ s. IsStartedOf graph (places_in graph places) s) }
        ensures err { IfErr result (λ g. ComesBack graph g) }
    {
        let pieces = graph.take_apart();
        let links = open_links(
            alloc,
            &pieces.ops,
            &pieces.hubs,
            &pieces.feeds,
            &pieces.subs,
            places,
        );
        let graph = pieces.put_together();
        match links {
            Ok((emitters, taps)) => begin(alloc, graph, emitters, taps),
            Err(NoMemory) => Err(graph),
        }
    }
}

/// Opens the links of the emitters and of the taps, and as many for subscriptions to come as are wanted and there is room for.
///
/// # Errors
/// [`NoMemory`] where a growth was refused.
fn open_links<N, O: Ops>(
    alloc: Global,
    ops: &O,
    hubs: &[Hub<O::Item>],
    feeds: &[Feed<N>],
    subs: &[Subscription<N, O::Item>],
    places: u32,
) -> Result<(EmitterLinks<O::Item>, TapLinks<O::Item>), NoMemory>
    requires hubs { length hubs.now ≤ MOST_HUBS }
    requires subs { length subs.now ≤ MOST_SUBSCRIPTIONS }
    ensures emitters { IfOk result (λ r. AreEmitterLinks hubs.now feeds.now (length hubs.now) r.0) }
    ensures taps { IfOk result (λ r. AreTapLinks subs.now (length subs.now) (min places (min MOST_PLACES (MOST_SUBSCRIPTIONS - length subs.now))) r.1) }
{
    let emitters = EmitterLinks::of(alloc, ops, hubs, feeds)?;
    let mut taps = TapLinks::of(alloc, subs)?;
    let room = MOST_SUBSCRIPTIONS - subs.len();
    taps.open_places(alloc, subs, places.min(MOST_PLACES.min(room as u32)))?;
    Ok((emitters, taps))
}

/// Puts a graph behind a gate, between links that were opened for it.
///
/// # Errors
/// The graph comes back where there was no memory for the gate.
fn begin<O: Ops>(
    alloc: Global,
    graph: Graph<O>,
    emitters: EmitterLinks<O::Item>,
    taps: TapLinks<O::Item>,
) -> Result<StartedGraph<O>, Graph<O>>
    requires emitters { AreEmitterLinks graph.hubs.items graph.feeds.items (length graph.hubs.items) emitters }
    requires taps { AreTapLinks graph.subscriptions.items (length graph.subscriptions.items) (length taps.spare.items) taps }
    ensures started { IfOk result (λ s. IsStartedOf graph (length taps.spare.items) s) }
    ensures err { IfErr result (λ g. g ≡ graph) }
{
    let region = GraphRegion {
        graph,
        inlets: emitters.inlets,
        outlets: taps.outlets,
        pending: VecDeque::new(alloc),
        spare: taps.spare,
    };
    let links = Links {
        emitters: emitters.links,
        taps: taps.links,
    };
    match SerializedGraph::new(alloc, region, links) {
        Ok((graph, seat)) => Ok(StartedGraph {
            graph,
            seat,
            emitters: emitters.emitters,
            taps: taps.taps,
        }),
        Err((region, _)) => {
            let GraphRegion {
                graph,
                inlets: _,
                outlets: _,
                pending: _,
                spare: _,
            } = region;
            Err(graph)
        }
    }
}
