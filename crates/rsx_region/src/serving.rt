//! A piece served under a budget.

ghost use Rattle.std.specs.Prelude.{◌≡◌, ◌+◌, ◌<◌, ◌≤◌, ℕ, List, IfOk, length};
ghost use Rattle.rsx_types.specs.Meaning.{Meaning};
ghost use Rattle.rsx_types.specs.Stream.{Stream};
ghost use Rattle.rsx_region.specs.Pieces.{Each, IsPieceOf, StandsSince};
ghost use Rattle.rsx_region.specs.Steps.{Goes, count_of};
ghost use Rattle.rsx_region.specs.Serving.{AllPassedOn, HasLeftAll, HasLeftOne, HasRested, HasSeen, HasStayed, IsAtRest};
ghost use Rattle.rsx_region.specs.declared.piece.Piece.{Piece as PieceSpec};

use crate::piece::Piece;
use rsx_link::Link;
use rsx_pipe::{EdgeState, Nodes};
use rsx_rooted::{Batch, Batches};
use rsx_types::{NoMemory, Ops};
use std::alloc::Global;

/// Why a call ended.
#[derive(Clone, Copy, Debug, PartialEq, Eq)]
pub enum Answer {
    /// Nothing is left to do, as far as the ends of the links know.
    Idle,
    /// The budget is used up. There may be more to do.
    Budget,
    /// A growth was refused. What was done before stands.
    NoMemory,
}

/// What a call did for a piece.
#[derive(Clone, Copy, Debug, PartialEq, Eq)]
pub struct PieceServed {
    /// Why it ended.
    pub answer: Answer,
    /// How many moves it made.
    pub moves: u32,
    /// How many signals it took from links.
    pub pops: u32,
}

impl<N: Nodes<Item = T> + Batches, T: Drop> Piece<N, T> {
    /// Does what there is to do for the piece, until nothing is left or the budget is used up. It looks at the link that goes out,
    /// passes requests and cancels down the links that come in, takes from each the signals that its reader has room for, and makes
    /// the moves that are enabled; and so on, from the start. After a move that a search found it pulls items through the piece, many at
    /// once or one after the other, as long as some come. A signal that is taken from a link counts as a move does, so that what one call
    /// does is bounded.
    ///
    /// Where it answers [`Answer::Idle`], the link that goes out was looked at, and all requests were passed on. After
    /// [`Answer::Budget`] call it again. After [`Answer::NoMemory`] what was done before stands, and it may be called again, too. Of a
    /// piece whose root edge isn't live nothing changes, but requests and cancels are passed on.
    pub fn serve<O: Ops<Item = T>>(
        &mut self,
        alloc: Global,
        ops: &O,
        links: &[Link<T>],
        budget: u32,
    ) -> PieceServed
        requires { IsPieceOf links.now self.old }
        ensures ends { IsPieceOf links.now self.new }
        ensures run { Goes N.Machine (O.meaning ops.now) links.now result.moves result.pops self.old self.new }
        ensures most { result.moves + result.pops ≤ budget }
        ensures budget { result.answer ≡ Answer.Budget → result.moves + result.pops ≡ budget }
        ensures idle { result.answer ≡ Answer.Idle → IsAtRest N.Machine (O.meaning ops.now) self.new }
        ensures looked { result.answer ≡ Answer.Idle → self.new.part.root.state ≡ EdgeState.Live → HasSeen self.old self.new }
        ensures still { (self.old.part.root.state ≡ EdgeState.Live → ⊥) → HasRested self.old self.new }
        ensures stands { (hubs : List (Stream T)) (opening : PieceSpec N T) → StandsSince N.Machine (O.meaning ops.now) hubs opening self.old → StandsSince N.Machine (O.meaning ops.now) hubs opening self.new }
    {
        self.serve_by(alloc, ops, links, budget, &mut Batch::new(alloc))
    }

    /// The same, with room for items on their way. What is in it stands for nothing.
    pub(crate) fn serve_by<O: Ops<Item = T>>(
        &mut self,
        alloc: Global,
        ops: &O,
        links: &[Link<T>],
        budget: u32,
        batch: &mut Batch<T>,
    ) -> PieceServed
        requires { IsPieceOf links.now self.old }
        ensures ends { IsPieceOf links.now self.new }
        ensures run { Goes N.Machine (O.meaning ops.now) links.now result.moves result.pops self.old self.new }
        ensures most { result.moves + result.pops ≤ budget }
        ensures budget { result.answer ≡ Answer.Budget → result.moves + result.pops ≡ budget }
        ensures idle { result.answer ≡ Answer.Idle → IsAtRest N.Machine (O.meaning ops.now) self.new }
        ensures looked { result.answer ≡ Answer.Idle → self.new.part.root.state ≡ EdgeState.Live → HasSeen self.old self.new }
        ensures still { (self.old.part.root.state ≡ EdgeState.Live → ⊥) → HasRested self.old self.new }
        ensures stands { (hubs : List (Stream T)) (opening : PieceSpec N T) → StandsSince N.Machine (O.meaning ops.now) hubs opening self.old → StandsSince N.Machine (O.meaning ops.now) hubs opening self.new }
    {
        let mut moves = 0;
        let mut pops = 0;
        while moves + pops < budget {
            let turn = self.turn(alloc, ops, links, budget - moves - pops, batch);
            moves += turn.moves;
            pops += turn.pops;
            match turn.answer {
                Answer::NoMemory => return outcome(Answer::NoMemory, moves, pops),
                Answer::Idle => {
                    if turn.moves + turn.pops == 0 {
                        return outcome(Answer::Idle, moves, pops);
                    }
                }
                Answer::Budget => {}
            }
        }
        outcome(Answer::Budget, moves, pops)
    }

    /// A look, a request down each link, a signal from each, and then moves. Where nothing was taken and no move made, and it answers
    /// [`Answer::Idle`], nothing is left to do.
    fn turn<O: Ops<Item = T>>(
        &mut self,
        alloc: Global,
        ops: &O,
        links: &[Link<T>],
        budget: u32,
        batch: &mut Batch<T>,
    ) -> PieceServed
        requires { IsPieceOf links.now self.old }
        ensures ends { IsPieceOf links.now self.new }
        ensures run { Goes N.Machine (O.meaning ops.now) links.now result.moves result.pops self.old self.new }
        ensures most { result.moves + result.pops ≤ budget }
        ensures budget { result.answer ≡ Answer.Budget → result.moves + result.pops ≡ budget }
        ensures idle { result.answer ≡ Answer.Idle → result.moves + result.pops ≡ 0 → IsAtRest N.Machine (O.meaning ops.now) self.new }
        ensures seen { result.answer ≡ Answer.Idle → result.moves + result.pops ≡ 0 → self.new.part.root.state ≡ EdgeState.Live → HasSeen self.old self.new }
        ensures stands { (hubs : List (Stream T)) (opening : PieceSpec N T) → StandsSince N.Machine (O.meaning ops.now) hubs opening self.old → StandsSince N.Machine (O.meaning ops.now) hubs opening self.new }
    {
        self.look(links);
        self.ask_each(links);
        let popped = self.pop_each(links, budget);
        match popped.answer {
            Answer::Idle => {
                let rest = self.move_on(alloc, ops, links, budget - popped.pops, batch);
                outcome(rest.answer, rest.moves, popped.pops + rest.pops)
            }
            Answer::Budget => popped,
            Answer::NoMemory => popped,
        }
    }

    /// Passes what was asked of each reader's edge down its link.
    fn ask_each(&mut self, links: &[Link<T>])
        requires { IsPieceOf links.now self.old }
        ensures ends { IsPieceOf links.now self.new }
        ensures run { (m : Meaning T) → Goes N.Machine m links.now 0 0 self.old self.new }
        ensures asked { AllPassedOn N.Machine self.new }
        ensures same { (self.new.part ≡ self.old.part) × (self.new.up ≡ self.old.up) }
        ensures stands { (m : Meaning T) (hubs : List (Stream T)) (opening : PieceSpec N T) → StandsSince N.Machine m hubs opening self.old → StandsSince N.Machine m hubs opening self.new }
    {
        for at in 0..self.inlets.len() {
            self.ask_at(at, links);
        }
    }

    /// Takes signals from each link whose reader has room for one, but at most `budget`. Answers [`Answer::Idle`] where each was
    /// tried.
    #[inline]
    pub(crate) fn pop_each(&mut self, links: &[Link<T>], budget: u32) -> PieceServed
        requires { IsPieceOf links.now self.old }
        ensures ends { IsPieceOf links.now self.new }
        ensures run { (m : Meaning T) → Goes N.Machine m links.now 0 result.pops self.old self.new }
        ensures moves { result.moves ≡ 0 }
        ensures most { result.pops ≤ budget }
        ensures budget { result.answer ≡ Answer.Budget → result.pops ≡ budget }
        ensures idle { result.answer ≡ Answer.Idle → result.pops ≡ 0 → HasLeftAll N.Machine self.old self.new }
        ensures stands { (m : Meaning T) (hubs : List (Stream T)) (opening : PieceSpec N T) → StandsSince N.Machine m hubs opening self.old → StandsSince N.Machine m hubs opening self.new }
    {
        let mut pops = 0;
        for at in 0..self.inlets.len() {
            if pops == budget {
                return outcome(Answer::Budget, 0, pops);
            }
            match self.pop_all(at, links, budget - pops) {
                Ok(popped) => pops += popped,
                Err(NoMemory) => return outcome(Answer::NoMemory, 0, pops),
            }
        }
        outcome(Answer::Idle, 0, pops)
    }

    /// Takes a signal from the link at this place, where one can be taken, and then items as long as some can be, but at most `budget`.
    /// Answers how many it took.
    ///
    /// # Errors
    /// [`NoMemory`] where a growth was refused. Then nothing changed.
    fn pop_all(&mut self, at: usize, links: &[Link<T>], budget: u32) -> Result<u32, NoMemory>
        requires ends { IsPieceOf links.now self.old }
        requires there { at < length self.old.inlets.items }
        requires some { 0 < budget }
        ensures ends { IsPieceOf links.now self.new }
        ensures run { (m : Meaning T) → Goes N.Machine m links.now 0 (count_of result) self.old self.new }
        ensures most { count_of result ≤ budget }
        ensures count { length self.new.inlets.items ≡ length self.old.inlets.items }
        ensures stands { (m : Meaning T) (hubs : List (Stream T)) (opening : PieceSpec N T) → StandsSince N.Machine m hubs opening self.old → StandsSince N.Machine m hubs opening self.new }
        ensures left { IfOk result (λ n. n ≡ 0 → HasLeftOne N.Machine at self.old self.new) }
    {
        if !self.pop_at(at, links)? {
            return Ok(0);
        }
        Ok(1 + self.pop_many_at(at, links, budget - 1))
    }

    /// Makes moves until none is enabled, but at most `budget`, and takes signals where items go through.
    fn move_on<O: Ops<Item = T>>(
        &mut self,
        alloc: Global,
        ops: &O,
        links: &[Link<T>],
        budget: u32,
        batch: &mut Batch<T>,
    ) -> PieceServed
        requires { IsPieceOf links.now self.old }
        ensures ends { IsPieceOf links.now self.new }
        ensures run { Goes N.Machine (O.meaning ops.now) links.now result.moves result.pops self.old self.new }
        ensures most { result.moves + result.pops ≤ budget }
        ensures budget { result.answer ≡ Answer.Budget → result.moves + result.pops ≡ budget }
        ensures idle { result.answer ≡ Answer.Idle → result.moves + result.pops ≡ 0 → HasStayed N.Machine (O.meaning ops.now) self.old self.new }
        ensures stands { (hubs : List (Stream T)) (opening : PieceSpec N T) → StandsSince N.Machine (O.meaning ops.now) hubs opening self.old → StandsSince N.Machine (O.meaning ops.now) hubs opening self.new }
    {
        let mut made = 0;
        let mut taken = 0;
        while made + taken < budget {
            let some = self.go_on(alloc, ops, links, budget - made - taken, batch);
            made += some.moves;
            taken += some.pops;
            match some.answer {
                Answer::NoMemory => return outcome(Answer::NoMemory, made, taken),
                Answer::Idle => {
                    if some.moves + some.pops == 0 {
                        return outcome(Answer::Idle, made, taken);
                    }
                }
                Answer::Budget => {}
            }
        }
        outcome(Answer::Budget, made, taken)
    }

    /// Makes the first enabled move, which a search finds, and lets items go through after it. Where no move is enabled, nothing changes.
    fn go_on<O: Ops<Item = T>>(
        &mut self,
        alloc: Global,
        ops: &O,
        links: &[Link<T>],
        budget: u32,
        batch: &mut Batch<T>,
    ) -> PieceServed
        requires some { 0 < budget }
        requires ends { IsPieceOf links.now self.old }
        ensures ends { IsPieceOf links.now self.new }
        ensures run { Goes N.Machine (O.meaning ops.now) links.now result.moves result.pops self.old self.new }
        ensures most { result.moves + result.pops ≤ budget }
        ensures budget { result.answer ≡ Answer.Budget → result.moves + result.pops ≡ budget }
        ensures idle { result.answer ≡ Answer.Idle → result.moves + result.pops ≡ 0 → HasStayed N.Machine (O.meaning ops.now) self.old self.new }
        ensures stands { (hubs : List (Stream T)) (opening : PieceSpec N T) → StandsSince N.Machine (O.meaning ops.now) hubs opening self.old → StandsSince N.Machine (O.meaning ops.now) hubs opening self.new }
    {
        match self.step(alloc, ops, links) {
            Ok(true) => {
                let rest = self.flow(alloc, ops, links, budget - 1, batch);
                outcome(rest.answer, 1 + rest.moves, rest.pops)
            }
            Ok(false) => outcome(Answer::Idle, 0, 0),
            Err(NoMemory) => outcome(Answer::NoMemory, 0, 0),
        }
    }
}

/// So much was done.
pub(crate) fn outcome(answer: Answer, moves: u32, pops: u32) -> PieceServed
    ensures { (result.answer ≡ answer) × (result.moves ≡ moves) × (result.pops ≡ pops) }
{
    PieceServed {
        answer,
        moves,
        pops,
    }
}
