//! The pieces that one holder of a gate at a time works on.

ghost use Rattle.std.specs.Prelude.{◌≡◌, ◌+◌, ◌<◌, ◌≤◌, ℕ, List, false, length};
ghost use Rattle.rsx_types.specs.Stream.{Stream};
ghost use Rattle.rsx_region.specs.Regions.{AreAtRest, ArePiecesOf, IsServedAt, RegionGoes, RegionStands};
ghost use Rattle.rsx_region.specs.declared.piece.Piece.{Piece as PieceSpec};

use crate::piece::Piece;
use crate::serving::{Answer, PieceServed, outcome};
use crate::touched::PieceEnds;
use rsx_link::Link;
use rsx_pipe::Nodes;
use rsx_rooted::{Batch, Batches};
use rsx_types::Ops;
use std::alloc::Global;

/// What a serve of a region did.
#[derive(Clone, Copy, Debug, PartialEq, Eq)]
pub struct Served {
    /// Why it ended.
    pub answer: Answer,
    /// How many moves it made.
    pub moves: u32,
    /// How many signals it took from links.
    pub pops: u32,
    /// Which regions have to be poked: the bit of 2^w is set exactly where a link with region w was touched, that is where a signal was
    /// put into it or taken from it, or where it was asked for more or cancelled. A link between two pieces of the region sets the
    /// region's own bit, and one with a tap sets none.
    pub rouse: u16,
}

/// A region: the pieces of a graph that one holder of a gate at a time works on.
///
/// Where a piece reads what another one of them sends, put it in front, so that what it asks for is seen in the same round.
#[derive(Drop)]
pub struct Region<N, T> {
    /// The number of the region.
    pub number: u8,
    /// The pieces.
    pub pieces: Vec<Piece<N, T>>,
    // What is known of the ends of each piece, once the region was spread into.
    pub(crate) ends: Vec<PieceEnds>,
    // Room for items on their way, which is kept from one call to the next.
    batch: Batch<T>,
}

impl<N, T: Drop> Region<N, T> {
    /// A region with this number and these pieces. Which regions are at the other ends of their links it knows once [`spread`](crate::spread)
    /// has put pieces into it; before that no call says that a link was touched.
    pub fn new(alloc: Global, number: u8, pieces: Vec<Piece<N, T>>) -> Region<N, T>
        ensures { (result.number ≡ number) × (result.pieces ≡ pieces) }
    {
        Region {
            number,
            pieces,
            ends: Vec::new(alloc),
            batch: Batch::new(alloc),
        }
    }
}

impl<N: Nodes<Item = T> + Batches, T: Drop> Region<N, T> {
    /// Serves the pieces one after the other by [`Piece::serve`], and again, until none of them makes a move or takes a signal, or
    /// the budget is used up, which they share. A single piece is served once.
    ///
    /// After [`Answer::Budget`] call it again. After [`Answer::NoMemory`] what was done before stands, and it may be called again,
    /// too.
    pub fn serve<O: Ops<Item = T>>(
        &mut self,
        alloc: Global,
        ops: &O,
        links: &[Link<T>],
        budget: u32,
    ) -> Served
        requires { ArePiecesOf links.now self.old.pieces.items }
        ensures ends { ArePiecesOf links.now self.new.pieces.items }
        ensures number { self.new.number ≡ self.old.number }
        ensures run { RegionGoes N.Machine (O.meaning ops.now) links.now result.moves result.pops self.old.pieces.items self.new.pieces.items }
        ensures most { result.moves + result.pops ≤ budget }
        ensures budget { result.answer ≡ Answer.Budget → result.moves + result.pops ≡ budget }
        ensures idle { result.answer ≡ Answer.Idle → AreAtRest N.Machine (O.meaning ops.now) self.new.pieces.items }
        ensures stands { (hubs : List (Stream T)) (opening : List (PieceSpec N T)) → RegionStands N.Machine (O.meaning ops.now) hubs opening self.old.pieces.items → RegionStands N.Machine (O.meaning ops.now) hubs opening self.new.pieces.items }
    {
        let PieceServed {
            answer,
            moves,
            pops,
        } = self.serve_pieces(alloc, ops, links, budget);
        Served {
            answer,
            moves,
            pops,
            rouse: self.touched(),
        }
    }

    /// The same, without what it touched.
    fn serve_pieces<O: Ops<Item = T>>(
        &mut self,
        alloc: Global,
        ops: &O,
        links: &[Link<T>],
        budget: u32,
    ) -> PieceServed
        requires { ArePiecesOf links.now self.old.pieces.items }
        ensures ends { ArePiecesOf links.now self.new.pieces.items }
        ensures number { self.new.number ≡ self.old.number }
        ensures run { RegionGoes N.Machine (O.meaning ops.now) links.now result.moves result.pops self.old.pieces.items self.new.pieces.items }
        ensures most { result.moves + result.pops ≤ budget }
        ensures budget { result.answer ≡ Answer.Budget → result.moves + result.pops ≡ budget }
        ensures idle { result.answer ≡ Answer.Idle → AreAtRest N.Machine (O.meaning ops.now) self.new.pieces.items }
        ensures stands { (hubs : List (Stream T)) (opening : List (PieceSpec N T)) → RegionStands N.Machine (O.meaning ops.now) hubs opening self.old.pieces.items → RegionStands N.Machine (O.meaning ops.now) hubs opening self.new.pieces.items }
    {
        let mut moves = 0;
        let mut pops = 0;
        while moves + pops < budget {
            let round = self.round(alloc, ops, links, budget - moves - pops);
            moves += round.moves;
            pops += round.pops;
            match round.answer {
                Answer::NoMemory => return outcome(Answer::NoMemory, moves, pops),
                Answer::Idle => {
                    if self.is_enough(round) {
                        return outcome(Answer::Idle, moves, pops);
                    }
                }
                Answer::Budget => {}
            }
        }
        outcome(Answer::Budget, moves, pops)
    }

    /// Whether no further round is made after this one: where it made no move and took no signal, and where there is a single piece, to
    /// which no other one can have sent anything meanwhile.
    fn is_enough(&self, round: PieceServed) -> bool
        ensures { result ≡ false → 0 < round.moves + round.pops }
    {
        self.pieces.len() == 1 || (round.moves == 0 && round.pops == 0)
    }

    /// Serves each piece once.
    fn round<O: Ops<Item = T>>(
        &mut self,
        alloc: Global,
        ops: &O,
        links: &[Link<T>],
        budget: u32,
    ) -> PieceServed
        requires { ArePiecesOf links.now self.old.pieces.items }
        ensures ends { ArePiecesOf links.now self.new.pieces.items }
        ensures number { self.new.number ≡ self.old.number }
        ensures run { RegionGoes N.Machine (O.meaning ops.now) links.now result.moves result.pops self.old.pieces.items self.new.pieces.items }
        ensures most { result.moves + result.pops ≤ budget }
        ensures budget { result.answer ≡ Answer.Budget → result.moves + result.pops ≡ budget }
        ensures idle { result.answer ≡ Answer.Idle → AreAtRest N.Machine (O.meaning ops.now) self.new.pieces.items }
        ensures stands { (hubs : List (Stream T)) (opening : List (PieceSpec N T)) → RegionStands N.Machine (O.meaning ops.now) hubs opening self.old.pieces.items → RegionStands N.Machine (O.meaning ops.now) hubs opening self.new.pieces.items }
    {
        let mut moves = 0;
        let mut pops = 0;
        for at in 0..self.pieces.len() {
            let one = self.serve_at(at, alloc, ops, links, budget - moves - pops);
            moves += one.moves;
            pops += one.pops;
            match one.answer {
                Answer::NoMemory => return outcome(Answer::NoMemory, moves, pops),
                Answer::Budget => return outcome(Answer::Budget, moves, pops),
                Answer::Idle => {}
            }
        }
        outcome(Answer::Idle, moves, pops)
    }

    /// Serves the piece at this place.
    fn serve_at<O: Ops<Item = T>>(
        &mut self,
        at: usize,
        alloc: Global,
        ops: &O,
        links: &[Link<T>],
        budget: u32,
    ) -> PieceServed
        requires ends { ArePiecesOf links.now self.old.pieces.items }
        requires there { at < length self.old.pieces.items }
        ensures ends { ArePiecesOf links.now self.new.pieces.items }
        ensures number { self.new.number ≡ self.old.number }
        ensures run { RegionGoes N.Machine (O.meaning ops.now) links.now result.moves result.pops self.old.pieces.items self.new.pieces.items }
        ensures most { result.moves + result.pops ≤ budget }
        ensures budget { result.answer ≡ Answer.Budget → result.moves + result.pops ≡ budget }
        ensures idle { result.answer ≡ Answer.Idle → IsServedAt N.Machine (O.meaning ops.now) at self.old.pieces.items self.new.pieces.items }
        ensures count { length self.new.pieces.items ≡ length self.old.pieces.items }
        ensures stands { (hubs : List (Stream T)) (opening : List (PieceSpec N T)) → RegionStands N.Machine (O.meaning ops.now) hubs opening self.old.pieces.items → RegionStands N.Machine (O.meaning ops.now) hubs opening self.new.pieces.items }
    {
        self.pieces[at].serve_by(alloc, ops, links, budget, &mut self.batch)
    }
}
