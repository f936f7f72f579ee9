//! A piece is cut in two, with a link between the halves.

ghost use Rattle.std.specs.Prelude.{◌≡◌, ◌+◌, ◌<◌, ◌≤◌, ◌∷◌, ◌++◌, ℕ, List, [], length, map, true, false, None, Some, IfErr, IfNone, IfOk, IfSome, OnErr};
ghost use Rattle.rsx_link.specs.declared.link.Link.{Link as LinkSpec};
ghost use Rattle.rsx_link.specs.Ends.{IsUpOf, SameUp, free_slots, items_sent, seen_total, sent_signals};
ghost use Rattle.rsx_region.specs.Joined.{IsReader};
ghost use Rattle.rsx_region.specs.Cuts.{AsksAsMuch, CannotFit, FitsBelow, HasNumbers, HasTakenNothing, IsCutOff, IsMadeFor, NoneReadsIn, NoneHasNumber, ReadsNone, SamePiece, StaysWhole};
ghost use Rattle.rsx_region.specs.Halves.{AreHalves, halves_of};
ghost use Rattle.rsx_region.specs.Joins.{IsCutFrom};
ghost use Rattle.rsx_region.specs.Pieces.{IsBlankAt, IsPieceOf, StandsSince};
ghost use Rattle.rsx_types.specs.Meaning.{Meaning};
ghost use Rattle.rsx_types.specs.Stream.{Stream};
ghost use Rattle.rsx_types.specs.declared.signal.Signal.TheVariants.{Next};

use crate::halves::{Below, LINK_PLACES, READER_PLACES};
use crate::inlet::Inlet;
use crate::piece::{Incoming, Piece};
use rsx_hub::Member;
use rsx_link::{Link, Up};
use rsx_pipe::{CrossingNodes, CutOff, Edge, Part};
use rsx_queued::ItemQueue;
use rsx_types::{NoMemory, Signal};
use std::alloc::Global;

/// Why a piece was not cut.
#[derive(Clone, Copy, Debug, PartialEq, Eq)]
pub enum NotCut {
    /// It isn't cut at that edge ([`Piece::cut`] says at which it is), or the number of the link is in use.
    Whole,
    /// A growth was refused.
    NoMemory,
}

/// What takes the place of an edge.
#[derive(Drop)]
struct Made<N, T> {
    /// The node that reads the link.
    reader: N,
    /// The link.
    link: Link<T>,
    /// Its sending end.
    up: Up<T>,
    /// Its receiving end, for the piece above.
    inlet: Inlet<T>,
}

impl<N: CrossingNodes<Item = T> + Drop, T: Drop> Piece<N, T> {
    /// Cuts the piece at the edge `at`, 1 at least. A node that reads the new link, under the number `hub`, takes the place of the
    /// edge's; the link has the number `link`, which comes behind those of the other links. What the queue of the edge held is sent into
    /// the link. Both halves stand for what they begin with, where nothing came over the links of the piece yet. [`Piece::join`]
    /// undoes it.
    ///
    /// An edge is cut where it has a queue with at most [`LINK_PLACES`] items in it and no ending, it and all edges above it are live,
    /// and no node below it reads a link that comes in. So cut an edge before those that come behind it in pre-order.
    ///
    /// # Errors
    /// Nothing changed, with the first of these reasons: [`NotCut::Whole`] where there is no such edge, and where a hub or a link is read
    /// under that number; [`NotCut::NoMemory`] where a growth was refused; [`NotCut::Whole`] where the edge isn't one that is cut.
    pub fn cut(
        &mut self,
        alloc: Global,
        at: u32,
        link: u32,
        hub: u32,
    ) -> Result<Below<N, T>, NotCut>
        ensures cut { IfOk result (λ b. IsCutFrom N.Machine N.CrossingNodes.own self.old (halves_of self.new b)) }
        ensures fit { IfOk result (λ b. AreHalves self.new b) }
        ensures numbers { IfOk result (λ b. HasNumbers at link hub self.new b) }
        ensures ends { IfOk result (λ b. (links : List (LinkSpec T)) → link ≡ length links → IsPieceOf links self.old →
            IsPieceOf (links ++ b.link ∷ []) self.new × IsPieceOf (links ++ b.link ∷ []) b.piece) }
        ensures stands { IfOk result (λ b. (m : Meaning T) (hubs : List (Stream T)) → IsBlankAt hubs hub → HasTakenNothing self.old → StandsSince N.Machine m hubs self.old self.old →
            StandsSince N.Machine m hubs self.new self.new × StandsSince N.Machine m hubs b.piece b.piece) }
        ensures fresh { IfOk result (λ b. HasTakenNothing self.old → HasTakenNothing self.new × HasTakenNothing b.piece) }
        ensures whole { IfErr result (λ e. e ≡ NotCut.Whole → StaysWhole N.Machine N.CrossingNodes.own self.old at hub) }
        ensures same { OnErr result (SamePiece self.old self.new) }
    {
        let Some(edge) = self.part.edge(at) else {
            return Err(NotCut::Whole);
        };
        if at == 0 || !self.is_unread(hub) {
            return Err(NotCut::Whole);
        }
        let Ok(made) = make_link(alloc, edge, hub) else {
            return Err(NotCut::NoMemory);
        };
        if self.inlets.reserve(1).is_err() {
            return Err(NotCut::NoMemory);
        }
        let Made {
            reader,
            link: between,
            up: mut sends,
            inlet,
        } = made;
        let hub = u64::from(hub);
        let Some(below) = cut_part(&mut self.part, at, hub, edge, reader, &self.inlets) else {
            return Err(NotCut::Whole);
        };
        let CutOff { part, mut queue } = below;
        send_all(&mut sends, &between, &mut queue);
        self.inlets.push_reserved(Incoming { link, inlet });
        let piece = Piece {
            part,
            link,
            up: sends,
            inlets: Vec::new(alloc),
        };
        Ok(Below {
            piece,
            link: between,
            at,
            queue,
        })
    }

    /// Whether no node of the piece reads a hub or a link with this number, and none that comes in has it.
    fn is_unread(&self, hub: u32) -> bool
        ensures free { result ≡ true → NoneReadsIn N.Machine hub self.now.part × NoneHasNumber hub self.now.inlets.items }
        ensures used { result ≡ false → NoneReadsIn N.Machine hub self.now.part → NoneHasNumber hub self.now.inlets.items → ⊥ }
    {
        is_read_by_none(hub, &self.part) && has_no_number(hub, &self.inlets)
    }
}

/// Whether no link that comes in is read under this number.
fn has_no_number<T>(hub: u32, inlets: &[Incoming<T>]) -> bool
    ensures free { result ≡ true → NoneHasNumber hub inlets.now }
    ensures used { result ≡ false → NoneHasNumber hub inlets.now → ⊥ }
{
    let Some((first, others)) = inlets.split_first() else {
        return true;
    };
    first.inlet.hub != hub && has_no_number(hub, others)
}

/// Whether no node of the part reads one of these links.
fn reads_none<N: CrossingNodes<Item = T>, T: Drop>(part: &Part<N>, inlets: &[Incoming<T>]) -> bool
    ensures free { result ≡ true → ReadsNone N.Machine inlets.now part.now }
    ensures used { result ≡ false → ReadsNone N.Machine inlets.now part.now → ⊥ }
{
    let Some((first, others)) = inlets.split_first() else {
        return true;
    };
    is_read_by_none(first.inlet.hub, part) && reads_none(part, others)
}

/// Whether no node of the part reads the hub or the link with this number.
fn is_read_by_none<N: CrossingNodes>(hub: u32, part: &Part<N>) -> bool
    ensures free { result ≡ true → NoneReadsIn N.Machine hub part.now }
    ensures used { result ≡ false → NoneReadsIn N.Machine hub part.now → ⊥ }
{
    match part.reader_edge(u64::from(hub)) {
        Some(_) => false,
        None => true,
    }
}

/// A link with the counts of this edge, and a node that reads it.
fn make_link<N: CrossingNodes<Item = T> + Drop, T: Drop>(
    alloc: Global,
    edge: Edge,
    hub: u32,
) -> Result<Made<N, T>, NoMemory>
    ensures { IfOk result (λ k. IsMadeFor N.Machine N.CrossingNodes.own edge hub k.reader k.link k.up k.inlet) }
{
    let member = Member::new(alloc, READER_PLACES as u64)?;
    let reader = N::reader(alloc, hub, member, edge.demand.sent)?;
    let (link, up, down, closer) = Link::open(alloc, LINK_PLACES, edge.demand)?;
    let inlet = Inlet::new(alloc, hub, down, closer)?;
    Ok(Made {
        reader,
        link,
        up,
        inlet,
    })
}

/// Cuts the part at this edge, where a link takes what is in the queue there, and no node below reads one of these links.
fn cut_part<N: CrossingNodes<Item = T> + Drop, T: Drop>(
    part: &mut Part<N>,
    at: u32,
    hub: u64,
    edge: Edge,
    reader: N,
    inlets: &[Incoming<T>],
) -> Option<CutOff<N, T>>
    requires { IsReader N.Machine N.CrossingNodes.own hub edge.demand.sent reader }
    ensures some { IfSome result (λ c. IsCutOff N.Machine N.CrossingNodes.own part.old at hub reader edge inlets.now c.part c.queue part.new) }
    ensures none { IfNone result (part.new ≡ part.old) }
    ensures whole { IfNone result (CannotFit N.Machine N.CrossingNodes.own part.old at hub reader edge inlets.now) }
{
    let Ok(below) = part.cut(at, reader) else {
        return None;
    };
    let count = below.queue.len();
    if asks_as_much(part, hub, edge) && fits_below(&below.part, count, edge, inlets) {
        return Some(below);
    }
    // It was cut there just now, so it is joined again.
    let _ = part.rejoin(at, hub, below);
    None
}

/// Whether a link takes so many items, which were in the queue of the edge, the part counts them with what went over the edge, and none
/// of its nodes reads one of these links.
fn fits_below<N: CrossingNodes<Item = T> + Drop, T: Drop>(
    part: &Part<N>,
    count: usize,
    edge: Edge,
    inlets: &[Incoming<T>],
) -> bool
    ensures fits { result ≡ true → FitsBelow N.Machine edge inlets.now part.now count }
    ensures other { result ≡ false → FitsBelow N.Machine edge inlets.now part.now count → ⊥ }
{
    let root = part.root_edge();
    if !root.is_live() || count > LINK_PLACES || root.demand.asked != edge.demand.asked {
        return false;
    }
    edge.demand.sent + count as u64 == root.demand.sent && reads_none(part, inlets)
}

/// Whether as much is asked over the edge of the node that reads the hub or the link with this number as over that edge.
fn asks_as_much<N: CrossingNodes>(part: &Part<N>, hub: u64, edge: Edge) -> bool
    ensures asks { result ≡ true → AsksAsMuch N.Machine hub edge part.now }
    ensures less { result ≡ false → AsksAsMuch N.Machine hub edge part.now → ⊥ }
{
    match part.reader_edge(hub) {
        Some(reader) => edge.demand.asked <= reader.demand.asked,
        None => true,
    }
}

/// Sends all items of the queue into the link, which has room for them. It calls itself at most [`LINK_PLACES`] deep.
fn send_all<T: Drop>(up: &mut Up<T>, link: &Link<T>, queue: &mut ItemQueue<T>)
    requires end { IsUpOf link.now up.old }
    requires room { length queue.old ≤ free_slots up.old }
    requires asked { items_sent up.old + length queue.old ≤ seen_total up.old }
    ensures same { SameUp link.now up.old up.new }
    ensures sent { sent_signals up.new ≡ sent_signals up.old ++ map Next queue.old }
    ensures empty { queue.new ≡ [] }
{
    if let Some(item) = queue.pop() {
        send_one(up, link, item);
        send_all(up, link, queue);
    }
}

/// Sends an item into the link, which has room for it.
fn send_one<T: Drop>(up: &mut Up<T>, link: &Link<T>, item: T)
    requires end { IsUpOf link.now up.old }
    requires room { 0 < free_slots up.old }
    requires asked { items_sent up.old < seen_total up.old }
    ensures same { SameUp link.now up.old up.new }
    ensures sent { sent_signals up.new ≡ sent_signals up.old ++ Next item ∷ [] }
    ensures count { items_sent up.new ≡ items_sent up.old + 1 }
    ensures seen { seen_total up.new ≡ seen_total up.old }
    ensures room { free_slots up.old ≤ free_slots up.new + 1 }
{
    // It doesn't come back.
    let _ = up.send(link, Signal::Next(item));
}
