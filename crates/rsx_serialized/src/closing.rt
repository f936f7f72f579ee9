//! A graph that came back from behind its gate gives its links up.

ghost use Rattle.std.specs.Prelude.{◌≡◌, ◌+◌, ◌*◌, ◌<◌, ◌≤◌, ◌++◌, ◌∷◌, ◌||◌, [], IfNone, IfSome, length};
ghost use Rattle.std.specs.Option.{option_to_list};
ghost use Rattle.std.specs.Vec.{vec_capacity};
ghost use Rattle.std.specs.Vec.Iter.{into_iter_items, into_iter_len};
ghost use Rattle.rsx_types.specs.declared.limits.TheConstants.{CAPACITY};
ghost use Rattle.rsx_graph.specs.InGraph.{state_of};
ghost use Rattle.rsx_graph_state.specs.declared.TheConstants.{MOST_SUBSCRIPTIONS};
ghost use Rattle.rsx_link.specs.Ends.{capacity_of};
ghost use Rattle.rsx_serialized.specs.Closing.{AreEmitterEnds, AreTapEnds, EmitterCloses, EmittersClose, IsEmitterEnd, IsTapEnd, Publishes, TapCloses, TapsClose, named};

use crate::ends::{FromEmitter, ToTap};
use crate::publishing::{ask, publish, stop};
use crate::region::{GraphRegion, Links};
use crate::serialized::{GraphSeat, SerializedGraph};
use crate::starting::StartedGraph;
use rsx_graph::Graph;
use rsx_link::{Closed as ClosedLink, Link, Remaining};
use rsx_runtime::{Emitter, Tap, TapEnds};
use rsx_types::{CAPACITY, HubId, NoMemory, Ops, Signal, SubId};
use std::alloc::Global;
use std::vec::IntoIter;

/// A graph that came back from behind its gate, without its links.
#[derive(Drop)]
pub struct Closed<O: Ops> {
    /// The graph.
    pub graph: Graph<O>,
    /// What was delivered to subscribers and no tap took: those of each subscription in their order.
    pub untaken: Vec<(SubId, Signal<O::Item>)>,
    /// What emitters sent and their hubs didn't take, since their inboxes are full or they have ended: those of each hub in their order.
    pub unpublished: Vec<(HubId, Signal<O::Item>)>,
}

/// A graph that came back from behind its gate, between its links still, with all ends of these.
#[derive(Drop)]
pub struct Stopped<O: Ops> {
    /// The graph, with the ends that its holder has.
    pub region: GraphRegion<O>,
    /// The links.
    pub links: Links<O::Item>,
    /// The emitters.
    pub emitters: Vec<Emitter<O::Item>>,
    /// The taps.
    pub taps: Vec<Tap<O::Item>>,
}

/// The lists for what is left of links, with room for all that may be.
#[derive(Drop)]
struct Room<T> {
    untaken: Vec<(SubId, Signal<T>)>,
    unpublished: Vec<(HubId, Signal<T>)>,
}

impl<O: Ops> SerializedGraph<O> {
    ghost use Rattle.std.specs.Prelude.{◌≡◌, ◌≤◌, IfErr, IfOk};
    ghost use Rattle.rsx_gate.specs.Machine.{all_parts};
    ghost use Rattle.rsx_gate.specs.Seats.{IsSeatOf};
    ghost use Rattle.rsx_serialized.specs.Closing.{AreAllThere, IsClosedSince};
    ghost use Rattle.rsx_serialized.specs.Opened.{HasStopped};
    ghost use Rattle.rsx_serialized.specs.Started.{AreEmittersOf, AreTapsOf, IsFresh, opened};

    /// Ends the gate, by a seat that has all parts, and the links of these emitters and taps: all emitters, and the tap of each
    /// subscription, in the order of their numbers. Whatever all threads did, in any order, the graph that comes back stands for what the
    /// graph stood for that was put behind the gate, with what has happened since: at each hub was published what its emitter sent, but for
    /// what is left of that; each subscriber received what its tap took and what that left, asked for what its tap asked for, and was
    /// cancelled where its tap or a canceller cancelled, or its tap made a bad request. What is left comes back beside the graph.
    ///
    /// # Errors
    /// Where a growth was refused, and where the tap of some subscription is not among these ([`Stopped::has_all_taps`]), all comes back but
    /// the gate, and [`Stopped::close`] may be called again.
    pub fn close(
        self,
        alloc: Global,
        seat: GraphSeat<O>,
        emitters: Vec<Emitter<O::Item>>,
        taps: Vec<Tap<O::Item>>,
    ) -> Result<Closed<O>, Stopped<O>>
        requires seat { IsSeatOf self.gate seat × (all_parts ≤ seat.me.0.parts) }
        requires fresh { IsFresh self.links (opened self) }
        requires emitters { AreEmittersOf self.links.emitters.items (opened self).inlets.items emitters.items }
        requires taps { AreTapsOf self.links.taps.items taps.items }
        ensures closed { IfOk result (IsClosedSince (opened self) emitters.items taps.items) }
        ensures stopped { IfErr result (λ s. HasStopped self.links (opened self) s.region × AreAllThere s) }
        ensures same { IfErr result (λ s. (s.links ≡ self.links) × (s.emitters ≡ emitters) × (s.taps ≡ taps)) }
    {
        let (region, links) = self.stop(seat);
        let stopped = Stopped {
            region,
            links,
            emitters,
            taps,
        };
        stopped.close(alloc)
    }
}

impl<O: Ops> StartedGraph<O> {
    ghost use Rattle.std.specs.Prelude.{◌≡◌, IfErr, IfOk};
    ghost use Rattle.rsx_serialized.specs.Closing.{AreAllThere, IsClosedSince};
    ghost use Rattle.rsx_serialized.specs.Opened.{HasStopped};
    ghost use Rattle.rsx_serialized.specs.Started.{IsStarted, opened};

    /// Ends the gate and the links, as [`SerializedGraph::close`] does.
    ///
    /// # Errors
    /// As of [`SerializedGraph::close`].
    pub fn close(self, alloc: Global) -> Result<Closed<O>, Stopped<O>>
        requires { IsStarted self }
        ensures closed { IfOk result (IsClosedSince (opened self.graph) self.emitters.items self.taps.items) }
        ensures stopped { IfErr result (λ s. HasStopped self.graph.links (opened self.graph) s.region × AreAllThere s) }
    {
        let StartedGraph {
            graph,
            seat,
            emitters,
            taps,
        } = self;
        graph.close(alloc, seat, emitters, taps)
    }
}

impl<O: Ops> Stopped<O> {
    ghost use Rattle.std.specs.Prelude.{◌≡◌, ◌+◌, ◌*◌, ◌≤◌, [], length, IfErr, IfOk, MatchBool, OnOk};
    ghost use Rattle.std.specs.Vec.{vec_capacity};
    ghost use Rattle.rsx_types.specs.declared.limits.TheConstants.{CAPACITY};
    ghost use Rattle.rsx_serialized.specs.Closing.{AreAllThere, HasAllTaps, HasClosed, HaveRoomFor};

    /// Whether the tap of each subscription is there: those of the start, and those that [`SerializedGraph::subscribe`] answered.
    pub fn has_all_taps(&self) -> bool
        requires { AreAllThere self.now }
        ensures { MatchBool result (HasAllTaps self.now) (HasAllTaps self.now → ⊥) }
    {
        let subscribed = self.region.outlets.len() - self.region.spare.len();
        self.taps.len() == subscribed
    }

    /// Ends the links, as [`SerializedGraph::close`] does: what is left of an emitter's link is published as far as its hub takes it.
    ///
    /// # Errors
    /// All comes back as it was where not all taps are there, and where a growth was refused.
    pub fn close(self, alloc: Global) -> Result<Closed<O>, Stopped<O>>
        requires { AreAllThere self }
        ensures closed { IfOk result (HasClosed self) }
        ensures taps { OnOk result (HasAllTaps self) }
        ensures err { IfErr result (λ s. s ≡ self) }
    {
        if !self.has_all_taps() {
            return Err(self);
        }
        match self.room(alloc) {
            Ok(room) => Ok(self.close_into(room)),
            Err(NoMemory) => Err(self),
        }
    }

    /// Lists with room for all that may be left of the links.
    fn room(&self, alloc: Global) -> Result<Room<O::Item>, NoMemory>
        ensures { IfOk result (λ r. HaveRoomFor self.now r) }
    {
        let on_taps = self.taps.len().checked_mul(CAPACITY).ok_or(NoMemory)?;
        let untaken = on_taps
            .checked_add(self.region.pending.len())
            .ok_or(NoMemory)?;
        let unpublished = self
            .emitters
            .len()
            .checked_mul(CAPACITY + 1)
            .ok_or(NoMemory)?;
        Ok(Room {
            untaken: Vec::with_capacity(alloc, untaken)?,
            unpublished: Vec::with_capacity(alloc, unpublished)?,
        })
    }

    /// Ends the links, and puts what is left of them into lists that have room for it.
    fn close_into(self, room: Room<O::Item>) -> Closed<O>
        requires there { AreAllThere self }
        requires taps { HasAllTaps self }
        requires room { HaveRoomFor self room }
        ensures { HasClosed self result }
    {
        let Stopped {
            region,
            links,
            emitters,
            taps,
        } = self;
        let GraphRegion {
            mut graph,
            inlets,
            outlets,
            pending,
            spare: _,
        } = region;
        let Links {
            emitters: emitter_links,
            taps: tap_links,
        } = links;
        let Room {
            mut untaken,
            mut unpublished,
        } = room;
        close_taps(
            &mut graph,
            0,
            &mut outlets.into_iter(),
            &mut tap_links.into_iter(),
            &mut taps.into_iter(),
            &mut untaken,
        );
        close_emitters(
            &mut graph,
            &mut inlets.into_iter(),
            &mut emitter_links.into_iter(),
            &mut emitters.into_iter(),
            &mut unpublished,
        );
        put_behind(&mut pending.into_vec().into_iter(), &mut untaken);
        Closed {
            graph,
            untaken,
            unpublished,
        }
    }
}

/// Closes the links of these emitters, publishes what is left of them as far as the hubs take it, and puts the rest behind what is in the
/// list, which has room for it. It calls itself once for each.
fn close_emitters<O: Ops>(
    graph: &mut Graph<O>,
    inlets: &mut IntoIter<FromEmitter<O::Item>>,
    links: &mut IntoIter<Link<O::Item>>,
    emitters: &mut IntoIter<Emitter<O::Item>>,
    unpublished: &mut Vec<(HubId, Signal<O::Item>)>,
)
    requires ends { AreEmitterEnds (into_iter_items inlets.old) (into_iter_items links.old) (into_iter_items emitters.old) }
    requires len { into_iter_len inlets.old ≡ length (into_iter_items inlets.old) }
    requires room { length unpublished.old.items + length (into_iter_items inlets.old) * (CAPACITY + 1) ≤ vec_capacity unpublished.old }
    ensures ops { graph.new.ops ≡ graph.old.ops }
    ensures closed { EmittersClose (O.meaning graph.old.ops) (into_iter_items inlets.old) (into_iter_items emitters.old) (state_of graph.old) (state_of graph.new) unpublished.old.items unpublished.new.items }
{
    let Some(inlet) = inlets.next() else {
        return;
    };
    let link = links.next().unwrap();
    let emitter = emitters.next().unwrap();
    close_emitter(graph, inlet, link, emitter, unpublished);
    close_emitters(graph, inlets, links, emitters, unpublished);
}

/// The same of one emitter.
fn close_emitter<O: Ops>(
    graph: &mut Graph<O>,
    inlet: FromEmitter<O::Item>,
    link: Link<O::Item>,
    emitter: Emitter<O::Item>,
    unpublished: &mut Vec<(HubId, Signal<O::Item>)>,
)
    requires end { IsEmitterEnd inlet link emitter }
    requires room { length unpublished.old.items + (CAPACITY + 1) ≤ vec_capacity unpublished.old }
    ensures ops { graph.new.ops ≡ graph.old.ops }
    ensures closed { EmitterCloses (O.meaning graph.old.ops) inlet emitter (state_of graph.old) (state_of graph.new) unpublished.old.items unpublished.new.items }
    ensures room { length unpublished.new.items ≤ length unpublished.old.items + (CAPACITY + 1) }
    ensures capacity { vec_capacity unpublished.new ≡ vec_capacity unpublished.old }
{
    let FromEmitter {
        hub,
        down,
        waiting,
        seat,
    } = inlet;
    let ClosedLink { mut remaining, .. } = link.close(emitter.into_end(), down, seat);
    publish_left(graph, hub, waiting, &mut remaining, unpublished);
}

/// Publishes the signal that waits, and then what remains of a link, as far as the hub takes it. The rest it puts behind what is in the
/// list, which has room for it. It calls itself once for each signal.
fn publish_left<O: Ops>(
    graph: &mut Graph<O>,
    hub: HubId,
    waiting: Option<Signal<O::Item>>,
    remaining: &mut Remaining<O::Item>,
    unpublished: &mut Vec<(HubId, Signal<O::Item>)>,
)
    requires { length unpublished.old.items + (length (option_to_list waiting) + length remaining.old) ≤ vec_capacity unpublished.old }
    ensures ops { graph.new.ops ≡ graph.old.ops }
    ensures published { Publishes (O.meaning graph.old.ops) hub (option_to_list waiting ++ remaining.old) (state_of graph.old) (state_of graph.new) unpublished.old.items unpublished.new.items }
    ensures room { length unpublished.new.items ≤ length unpublished.old.items + (length (option_to_list waiting) + length remaining.old) }
    ensures capacity { vec_capacity unpublished.new ≡ vec_capacity unpublished.old }
{
    let Some(signal) = next_left(waiting, remaining) else {
        return;
    };
    match publish(graph, hub, signal) {
        Ok(()) => publish_left(graph, hub, None, remaining, unpublished),
        Err(signal) => {
            unpublished.push_reserved((hub, signal));
            put_rest(hub, remaining, unpublished);
        }
    }
}

/// The signal that waits, or else the first that remains. It is no more there.
fn next_left<T: Drop>(waiting: Option<Signal<T>>, remaining: &mut Remaining<T>) -> Option<Signal<T>>
    ensures some { IfSome result (λ s. option_to_list waiting ++ remaining.old ≡ s ∷ remaining.new) }
    ensures none { IfNone result (option_to_list waiting ++ remaining.old ≡ []) }
{
    match waiting {
        Some(signal) => Some(signal),
        None => remaining.pop(),
    }
}

/// Closes the links of these taps, tells the graph what they asked for and whether flags were set, and puts what was delivered and they
/// didn't take behind what is in the list, which has room for it. The first is the tap of the subscription with the number `first`. Links
/// for subscriptions that were never made are left over. It calls itself once for each tap.
fn close_taps<O: Ops>(
    graph: &mut Graph<O>,
    first: u32,
    outlets: &mut IntoIter<ToTap<O::Item>>,
    links: &mut IntoIter<Link<O::Item>>,
    taps: &mut IntoIter<Tap<O::Item>>,
    untaken: &mut Vec<(SubId, Signal<O::Item>)>,
)
    requires ends { AreTapEnds (into_iter_items outlets.old) (into_iter_items links.old) (into_iter_items taps.old) }
    requires len { into_iter_len taps.old ≡ length (into_iter_items taps.old) }
    requires there { first + length (into_iter_items taps.old) ≤ length (state_of graph.old).joins }
    requires few { length (state_of graph.old).joins ≤ MOST_SUBSCRIPTIONS }
    requires room { length untaken.old.items + length (into_iter_items taps.old) * CAPACITY ≤ vec_capacity untaken.old }
    ensures ops { graph.new.ops ≡ graph.old.ops }
    ensures closed { TapsClose (O.meaning graph.old.ops) first (into_iter_items outlets.old) (into_iter_items taps.old) (state_of graph.old) (state_of graph.new) untaken.old.items untaken.new.items }
    ensures room { length untaken.new.items ≤ length untaken.old.items + length (into_iter_items taps.old) * CAPACITY }
    ensures capacity { vec_capacity untaken.new ≡ vec_capacity untaken.old }
{
    let Some(tap) = taps.next() else {
        return;
    };
    let link = links.next().unwrap();
    let outlet = outlets.next().unwrap();
    close_tap(graph, SubId(first), outlet, link, tap, untaken);
    close_taps(graph, first + 1, outlets, links, taps, untaken);
}

/// The same of the tap of one subscription.
fn close_tap<O: Ops>(
    graph: &mut Graph<O>,
    sub: SubId,
    outlet: ToTap<O::Item>,
    link: Link<O::Item>,
    tap: Tap<O::Item>,
    untaken: &mut Vec<(SubId, Signal<O::Item>)>,
)
    requires end { IsTapEnd outlet link tap }
    requires there { sub.0 < length (state_of graph.old).joins }
    requires room { length untaken.old.items + CAPACITY ≤ vec_capacity untaken.old }
    ensures ops { graph.new.ops ≡ graph.old.ops }
    ensures joins { (state_of graph.new).joins ≡ (state_of graph.old).joins }
    ensures closed { TapCloses (O.meaning graph.old.ops) sub outlet tap (state_of graph.old) (state_of graph.new) untaken.old.items untaken.new.items }
    ensures room { length untaken.new.items ≤ length untaken.old.items + CAPACITY }
    ensures capacity { vec_capacity untaken.new ≡ vec_capacity untaken.old }
{
    let TapEnds { down, seat, .. } = tap.into_ends();
    let ToTap { up, asked } = outlet;
    let ClosedLink {
        asked: total,
        cancelled,
        refused,
        mut remaining,
    } = link.close(up, down, seat);
    ask(graph, sub, total - asked);
    stop(graph, sub, is_flag(cancelled, refused));
    put_rest(sub, &mut remaining, untaken);
}

/// Whether one of the two flags of a link is set.
fn is_flag(cancelled: bool, refused: bool) -> bool
    ensures { result ≡ (cancelled || refused) }
{
    cancelled || refused
}

/// Puts what remains of a link behind what is in the list, which has room for it, each signal with this name. It calls itself once for
/// each signal.
fn put_rest<A: Copy, T>(name: A, remaining: &mut Remaining<T>, list: &mut Vec<(A, Signal<T>)>)
    requires { length list.old.items + length remaining.old ≤ vec_capacity list.old }
    ensures put { list.new.items ≡ list.old.items ++ named name remaining.old }
    ensures capacity { vec_capacity list.new ≡ vec_capacity list.old }
{
    if let Some(signal) = remaining.pop() {
        list.push_reserved((name, signal));
        put_rest(name, remaining, list);
    }
}

/// Puts these behind what is in the list, which has room for them. It calls itself once for each.
fn put_behind<A>(others: &mut IntoIter<A>, list: &mut Vec<A>)
    requires len { into_iter_len others.old ≡ length (into_iter_items others.old) }
    requires room { length list.old.items + length (into_iter_items others.old) ≤ vec_capacity list.old }
    ensures { list.new.items ≡ list.old.items ++ into_iter_items others.old }
{
    if let Some(other) = others.next() {
        list.push_reserved(other);
        put_behind(others, list);
    }
}
