//! Trees are cut at one edge after the other, and joined again.

ghost use Rattle.std.specs.Prelude.{◌≡◌, ◌+◌, ◌<◌, ◌≤◌, ◌∷◌, ◌++◌, ℕ, List, [], true, false, length, IfErr, OnErr, OnOk};
ghost use Rattle.std.specs.Vec.{vec_capacity};
ghost use Rattle.rsx_types.specs.Meaning.{Meaning};
ghost use Rattle.rsx_types.specs.Stream.{Stream};
ghost use Rattle.rsx_region.specs.Cuts.{AreWhole, IsWhole};
ghost use Rattle.rsx_region.specs.Regions.{ArePiecesOf, IsServedAt, RegionGoes};

use crate::cutting::NotCut;
use crate::halves::Below;
use crate::piece::Piece;
use crate::serving::{Answer, PieceServed};
use rsx_link::Link;
use rsx_pipe::CrossingNodes;
use rsx_queued::ItemQueue;
use rsx_rooted::Batches;
use rsx_types::Ops;
use std::alloc::Global;

/// An edge that was cut.
#[derive(Drop)]
pub struct CutEdge<T> {
    /// The place of the piece above the edge, among all pieces.
    pub above: usize,
    /// The number of the edge in that piece as it was then, 1 at least.
    pub at: u32,
    /// The queue of the edge, which is empty.
    pub queue: ItemQueue<T>,
    pub ghost empty: { queue ≡ [] },
}

/// Trees that were cut at one edge after the other: the pieces of them, and the links between and behind these.
///
/// What was cut off at an edge stands behind the pieces that there were then, and its link behind the links. So the last piece and the
/// last link belong to the last edge.
#[derive(Drop)]
pub struct CutTrees<N, T> {
    /// The pieces.
    pub pieces: Vec<Piece<N, T>>,
    /// The links, in the order of their numbers.
    pub links: Vec<Link<T>>,
    /// The edges, in the order in which they were cut.
    pub edges: Vec<CutEdge<T>>,
}

/// A join was refused. [`Piece::join`] says when.
#[derive(Clone, Copy, Debug, PartialEq, Eq)]
pub struct NotJoined;

impl<N: CrossingNodes<Item = T> + Drop, T: Drop> CutTrees<N, T> {
    ghost use Rattle.rsx_region.specs.Pieces.{IsBlankAt};
    ghost use Rattle.rsx_region.specs.Trees.{AreCutFrom, CanBeJoined, HaveGoneSince, IsOneCut, IsOpen, IsReadUnder, LastCannotJoin, SameStage, Stage, StaysWholeAt, names_of, stage_of};

    /// Trees none of which is cut. Each piece has one.
    pub fn new(alloc: Global, pieces: Vec<Piece<N, T>>, links: Vec<Link<T>>) -> CutTrees<N, T>
        ensures made { (result.pieces ≡ pieces) × (result.links ≡ links) × (result.edges.items ≡ []) }
        ensures from { (m : Meaning T) (hubs : List (Stream T)) → IsOpen N.Machine m hubs (stage_of result) → AreCutFrom N.Machine N.CrossingNodes.own m hubs (stage_of result) result }
    {
        CutTrees {
            pieces,
            links,
            edges: Vec::new(alloc),
        }
    }

    /// Whether none is cut, no link comes into a piece, and the edge of each root is live. Then they can be cut, whatever was done before.
    pub fn are_whole(&self) -> bool
        ensures from { result ≡ true → (m : Meaning T) (first hubs : List (Stream T)) (whole opening : Stage N T) → HaveGoneSince N.Machine N.CrossingNodes.own m first hubs whole opening self.now → AreCutFrom N.Machine N.CrossingNodes.own m hubs (stage_of self.now) self.now }
        ensures yes { result ≡ true → (self.now.edges.items ≡ []) × AreWhole self.now.pieces.items }
        ensures no { result ≡ false → self.now.edges.items ≡ [] → AreWhole self.now.pieces.items → ⊥ }
    {
        self.edges.is_empty() && are_whole(&self.pieces)
    }

    /// Cuts the piece at the place `above` at its edge `at` by [`Piece::cut`], with a link that is read under the number `hub`. Where the
    /// trees have been cut and nothing was done since, that is so afterwards, whether it is refused or not.
    ///
    /// # Errors
    /// As of [`Piece::cut`]; and [`NotCut::Whole`] where there are 2^32 links. Nothing changed but the room that lists have.
    pub fn cut(&mut self, alloc: Global, above: usize, at: u32, hub: u32) -> Result<(), NotCut>
        requires { above < length self.old.pieces.items }
        ensures cut { OnOk result (IsOneCut N.Machine N.CrossingNodes.own (stage_of self.old) above at (stage_of self.new)) }
        ensures hub { OnOk result (IsReadUnder hub above self.new.pieces.items) }
        ensures named { OnOk result (names_of self.new.edges.items ≡ names_of self.old.edges.items ++ record { above = above; at = at } ∷ []) }
        ensures from { (m : Meaning T) (hubs : List (Stream T)) (whole : Stage N T) → IsBlankAt hubs hub → AreCutFrom N.Machine N.CrossingNodes.own m hubs whole self.old → AreCutFrom N.Machine N.CrossingNodes.own m hubs whole self.new }
        ensures whole { IfErr result (λ e. e ≡ NotCut.Whole → StaysWholeAt N.Machine N.CrossingNodes.own self.old above at hub) }
        ensures same { OnErr result (SameStage (stage_of self.old) (stage_of self.new) × (names_of self.new.edges.items ≡ names_of self.old.edges.items)) }
    {
        let Ok(number) = u32::try_from(self.links.len()) else {
            return Err(NotCut::Whole);
        };
        if !self.has_room() {
            return Err(NotCut::NoMemory);
        }
        match self.pieces[above].cut(alloc, at, number, hub) {
            Ok(made) => {
                self.put_behind(above, made);
                Ok(())
            }
            Err(why) => Err(why),
        }
    }

    /// Whether there is room for what one cut more makes, which it takes.
    fn has_room(&mut self) -> bool
        ensures pieces { self.new.pieces.items ≡ self.old.pieces.items }
        ensures links { self.new.links.items ≡ self.old.links.items }
        ensures edges { self.new.edges.items ≡ self.old.edges.items }
        ensures room { result ≡ true → (length self.new.pieces.items < vec_capacity self.new.pieces) × (length self.new.links.items < vec_capacity self.new.links) × (length self.new.edges.items < vec_capacity self.new.edges) }
    {
        self.pieces.reserve(1).is_ok()
            && self.links.reserve(1).is_ok()
            && self.edges.reserve(1).is_ok()
    }

    /// Joins what was cut off at the last edge to the piece above it, by [`Piece::join`]. Whatever all pieces did since they were cut, each
    /// stands for what it stood for before that cut. It takes no memory.
    ///
    /// # Errors
    /// Where [`Piece::join`] refuses it. Nothing changed.
    pub fn join_last(&mut self) -> Result<(), NotJoined>
        requires since { CanBeJoined N.Machine N.CrossingNodes.own self.old }
        requires some { 0 < length self.old.edges.items }
        ensures count { OnOk result (length self.new.edges.items + 1 ≡ length self.old.edges.items) }
        ensures since { OnOk result ((m : Meaning T) (first hubs : List (Stream T)) (whole opening : Stage N T) → HaveGoneSince N.Machine N.CrossingNodes.own m first hubs whole opening self.old →
            (before : Stage N T) × HaveGoneSince N.Machine N.CrossingNodes.own m first hubs whole before self.new) }
        ensures refused { OnErr result (LastCannotJoin N.Machine N.CrossingNodes.own self.old) }
        ensures same { OnErr result ((stage_of self.new ≡ stage_of self.old) × (names_of self.new.edges.items ≡ names_of self.old.edges.items)) }
    {
        let Some(edge) = self.edges.pop() else {
            return Err(NotJoined);
        };
        let Some(piece) = self.pieces.pop() else {
            return Err(NotJoined);
        };
        let Some(link) = self.links.pop() else {
            return Err(NotJoined);
        };
        let CutEdge { above, at, queue } = edge;
        let below = Below {
            piece,
            link,
            at,
            queue,
        };
        match self.pieces[above].join(below) {
            Ok(()) => Ok(()),
            Err(below) => {
                self.put_behind(above, below);
                Err(NotJoined)
            }
        }
    }

    /// Puts what was cut off a piece behind the others, for which there is room.
    fn put_behind(&mut self, above: usize, below: Below<N, T>)
        requires empty { below.queue ≡ [] }
        requires room { (length self.old.pieces.items < vec_capacity self.old.pieces) × (length self.old.links.items < vec_capacity self.old.links) × (length self.old.edges.items < vec_capacity self.old.edges) }
        ensures pieces { self.new.pieces.items ≡ self.old.pieces.items ++ below.piece ∷ [] }
        ensures links { self.new.links.items ≡ self.old.links.items ++ below.link ∷ [] }
        ensures edges { names_of self.new.edges.items ≡ names_of self.old.edges.items ++ record { above = above; at = below.at } ∷ [] }
    {
        let Below {
            piece,
            link,
            at,
            queue,
        } = below;
        self.pieces.push_reserved(piece);
        self.links.push_reserved(link);
        self.edges.push_reserved(CutEdge { above, at, queue });
    }

    /// Joins at all edges, the last first. Each tree stands for what it stood for before it was cut. It takes no memory.
    ///
    /// # Errors
    /// Where [`Piece::join`] refuses it at an edge. The edges behind that were joined, and what is left stands as before for what it stood
    /// for.
    pub fn join_all(&mut self) -> Result<(), NotJoined>
        requires { CanBeJoined N.Machine N.CrossingNodes.own self.old }
        ensures none { OnOk result (self.new.edges.items ≡ []) }
        ensures refused { OnErr result (LastCannotJoin N.Machine N.CrossingNodes.own self.new) }
        ensures whole { OnOk result ((m : Meaning T) (first hubs : List (Stream T)) (whole opening : Stage N T) → HaveGoneSince N.Machine N.CrossingNodes.own m first hubs whole opening self.old → HaveGoneSince N.Machine N.CrossingNodes.own m first hubs whole whole self.new) }
        ensures since { (m : Meaning T) (first hubs : List (Stream T)) (whole opening : Stage N T) → HaveGoneSince N.Machine N.CrossingNodes.own m first hubs whole opening self.old → (before : Stage N T) × HaveGoneSince N.Machine N.CrossingNodes.own m first hubs whole before self.new }
    {
        for _ in 0..self.edges.len() {
            self.join_last()?;
        }
        Ok(())
    }
}

impl<N: CrossingNodes<Item = T> + Batches + Drop, T: Drop> CutTrees<N, T> {
    ghost use Rattle.rsx_region.specs.Trees.{HaveGoneSince, Stage};

    /// Serves the piece at this place by [`Piece::serve`]. What the pieces stand for stays.
    pub fn serve<O: Ops<Item = T>>(
        &mut self,
        at: usize,
        alloc: Global,
        ops: &O,
        budget: u32,
    ) -> PieceServed
        requires ends { ArePiecesOf self.old.links.items self.old.pieces.items }
        requires there { at < length self.old.pieces.items }
        ensures ends { ArePiecesOf self.new.links.items self.new.pieces.items }
        ensures run { RegionGoes N.Machine (O.meaning ops.now) self.new.links.items result.moves result.pops self.old.pieces.items self.new.pieces.items }
        ensures most { result.moves + result.pops ≤ budget }
        ensures budget { result.answer ≡ Answer.Budget → result.moves + result.pops ≡ budget }
        ensures idle { result.answer ≡ Answer.Idle → IsServedAt N.Machine (O.meaning ops.now) at self.old.pieces.items self.new.pieces.items }
        ensures since { (first hubs : List (Stream T)) (whole opening : Stage N T) → HaveGoneSince N.Machine N.CrossingNodes.own (O.meaning ops.now) first hubs whole opening self.old → HaveGoneSince N.Machine N.CrossingNodes.own (O.meaning ops.now) first hubs whole opening self.new }
        ensures same { (self.new.links ≡ self.old.links) × (self.new.edges ≡ self.old.edges) }
    {
        self.pieces[at].serve(alloc, ops, &self.links, budget)
    }
}

/// Whether no link comes into one of these pieces, and the edge of each root is live.
fn are_whole<N: CrossingNodes<Item = T>, T: Drop>(pieces: &[Piece<N, T>]) -> bool
    ensures yes { result ≡ true → AreWhole pieces.now }
    ensures no { result ≡ false → AreWhole pieces.now → ⊥ }
{
    let Some((first, others)) = pieces.split_first() else {
        return true;
    };
    is_whole(first) && are_whole(others)
}

/// Whether no link comes into the piece, and the edge of its root is live.
fn is_whole<N: CrossingNodes<Item = T>, T: Drop>(piece: &Piece<N, T>) -> bool
    ensures yes { result ≡ true → IsWhole piece.now }
    ensures no { result ≡ false → IsWhole piece.now → ⊥ }
{
    piece.part.root_edge().is_live() && piece.inlets.is_empty()
}
