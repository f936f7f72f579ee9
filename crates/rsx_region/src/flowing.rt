//! Items that go through a piece, many at once where they can.

ghost use Rattle.std.specs.Prelude.{◌≡◌, ◌+◌, ◌≤◌, ℕ, List};
ghost use Rattle.rsx_types.specs.Stream.{Stream};
ghost use Rattle.rsx_region.specs.Pieces.{IsPieceOf, StandsSince};
ghost use Rattle.rsx_region.specs.Steps.{Goes};
ghost use Rattle.rsx_region.specs.declared.piece.Piece.{Piece as PieceSpec};

use crate::piece::Piece;
use crate::serving::{Answer, PieceServed, outcome};
use rsx_link::Link;
use rsx_pipe::Nodes;
use rsx_rooted::{Batch, Batches};
use rsx_types::Ops;
use std::alloc::Global;

impl<N: Nodes<Item = T> + Batches, T: Drop> Piece<N, T> {
    /// Lets items go through the piece, until nothing goes on. No link that goes out is looked at, and no request passed down, so nothing
    /// is said of what is left to do.
    ///
    /// Items are pulled through the whole part, each in one go or many at once, and sent into the link that goes out, as long as some come.
    /// Then signals are taken from each link that comes in, and so on.
    pub(crate) fn flow<O: Ops<Item = T>>(
        &mut self,
        alloc: Global,
        ops: &O,
        links: &[Link<T>],
        budget: u32,
        batch: &mut Batch<T>,
    ) -> PieceServed
        requires { IsPieceOf links.now self.old }
        ensures ends { IsPieceOf links.now self.new }
        ensures run { Goes N.Machine (O.meaning ops.now) links.now result.moves result.pops self.old self.new }
        ensures most { result.moves + result.pops ≤ budget }
        ensures budget { result.answer ≡ Answer.Budget → result.moves + result.pops ≡ budget }
        ensures stands { (hubs : List (Stream T)) (opening : PieceSpec N T) → StandsSince N.Machine (O.meaning ops.now) hubs opening self.old → StandsSince N.Machine (O.meaning ops.now) hubs opening self.new }
    {
        let mut singles = 0;
        let mut moves = 0;
        let mut pops = 0;
        while moves + pops < budget {
            let left = budget - moves - pops;
            let round = self.pass(alloc, ops, links, left, batch, &mut singles);
            moves += round.moves;
            pops += round.pops;
            match round.answer {
                Answer::NoMemory => return outcome(Answer::NoMemory, moves, pops),
                Answer::Idle => {
                    if round.moves + round.pops == 0 {
                        return outcome(Answer::Idle, moves, pops);
                    }
                }
                Answer::Budget => {}
            }
        }
        outcome(Answer::Budget, moves, pops)
    }

    /// Items into the link that goes out, as long as some come, and then signals from each link that comes in.
    fn pass<O: Ops<Item = T>>(
        &mut self,
        alloc: Global,
        ops: &O,
        links: &[Link<T>],
        budget: u32,
        batch: &mut Batch<T>,
        singles: &mut u32,
    ) -> PieceServed
        requires { IsPieceOf links.now self.old }
        ensures ends { IsPieceOf links.now self.new }
        ensures run { Goes N.Machine (O.meaning ops.now) links.now result.moves result.pops self.old self.new }
        ensures most { result.moves + result.pops ≤ budget }
        ensures budget { result.answer ≡ Answer.Budget → result.moves + result.pops ≡ budget }
        ensures stands { (hubs : List (Stream T)) (opening : PieceSpec N T) → StandsSince N.Machine (O.meaning ops.now) hubs opening self.old → StandsSince N.Machine (O.meaning ops.now) hubs opening self.new }
    {
        let moves = self.pull_all(alloc, ops, links, budget, batch, singles);
        let popped = self.pop_each(links, budget - moves);
        outcome(popped.answer, moves, popped.pops)
    }
}
