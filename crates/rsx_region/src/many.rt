//! Many items at once: out of a link that comes in, and through a piece into the link that goes out.

ghost use Rattle.std.specs.Prelude.{◌≡◌, ◌+◌, ◌≤◌, ◌<◌, ℕ, List, [], length};
ghost use Rattle.rsx_types.specs.Meaning.{Meaning};
ghost use Rattle.rsx_types.specs.Stream.{Stream};
ghost use Rattle.rsx_link.specs.Ends.{IsUpOf, SameUp, free_slots, items_sent, seen_total};
ghost use Rattle.rsx_tree.specs.Runs.{Leads};
ghost use Rattle.rsx_region.specs.Moves.{IsItemSent};
ghost use Rattle.rsx_region.specs.Pieces.{IsPieceOf, StandsSince};
ghost use Rattle.rsx_region.specs.Steps.{Goes};
ghost use Rattle.rsx_region.specs.declared.piece.Piece.{Piece as PieceSpec};

use crate::piece::{Piece, link_at};
use rsx_link::{Link, Up};
use rsx_pipe::Nodes;
use rsx_rooted::{Batch, Batches, FEWEST_IN_BATCH};
use rsx_types::{Ops, Signal};
use std::alloc::Global;

/// How many items more than one are pulled one by one before many at once are tried again, where none wait in a queue on the way.
const SINGLES: u32 = 31;

impl<N: Nodes<Item = T> + Batches, T: Drop> Piece<N, T> {
    /// Takes items from the link at this place, at most so many, as long as items can be taken and the node that reads it has room for
    /// them. Answers how many it took. An ending stays in the link.
    pub(crate) fn pop_many_at(&mut self, at: usize, links: &[Link<T>], most: u32) -> u32
        requires ends { IsPieceOf links.now self.old }
        requires there { at < length self.old.inlets.items }
        ensures ends { IsPieceOf links.now self.new }
        ensures run { (m : Meaning T) → Goes N.Machine m links.now 0 result self.old self.new }
        ensures most { result ≤ most }
        ensures count { length self.new.inlets.items ≡ length self.old.inlets.items }
        ensures stands { (m : Meaning T) (hubs : List (Stream T)) (opening : PieceSpec N T) → StandsSince N.Machine m hubs opening self.old → StandsSince N.Machine m hubs opening self.new }
    {
        let incoming = &mut self.inlets[at];
        let link = link_at(links, incoming.link);
        incoming.inlet.pop_many(&mut self.part, link, most)
    }

    /// Pulls items through the part, into the link that goes out, until none comes, many at once where they come so. Answers how many moves
    /// it made. What is in `batch` stands for nothing, and `singles` counts how many items are to be pulled one by one before many are
    /// tried again.
    pub(crate) fn pull_all<O: Ops<Item = T>>(
        &mut self,
        alloc: Global,
        ops: &O,
        links: &[Link<T>],
        budget: u32,
        batch: &mut Batch<T>,
        singles: &mut u32,
    ) -> u32
        requires { IsPieceOf links.now self.old }
        ensures ends { IsPieceOf links.now self.new }
        ensures run { Goes N.Machine (O.meaning ops.now) links.now result 0 self.old self.new }
        ensures most { result ≤ budget }
        ensures stands { (hubs : List (Stream T)) (opening : PieceSpec N T) → StandsSince N.Machine (O.meaning ops.now) hubs opening self.old → StandsSince N.Machine (O.meaning ops.now) hubs opening self.new }
    {
        let mut made = 0;
        while made < budget {
            let some = self.pull_on(alloc, ops, links, budget - made, batch, singles);
            if some == 0 {
                return made;
            }
            made += some;
        }
        made
    }

    /// Pulls many items at once, or where that can't be done a single one. So many single ones are pulled before many are tried again.
    fn pull_on<O: Ops<Item = T>>(
        &mut self,
        alloc: Global,
        ops: &O,
        links: &[Link<T>],
        budget: u32,
        batch: &mut Batch<T>,
        singles: &mut u32,
    ) -> u32
        requires { IsPieceOf links.now self.old }
        ensures ends { IsPieceOf links.now self.new }
        ensures run { Goes N.Machine (O.meaning ops.now) links.now result 0 self.old self.new }
        ensures most { result ≤ budget }
        ensures stands { (hubs : List (Stream T)) (opening : PieceSpec N T) → StandsSince N.Machine (O.meaning ops.now) hubs opening self.old → StandsSince N.Machine (O.meaning ops.now) hubs opening self.new }
    {
        if *singles > 0 {
            *singles -= 1;
            return self.pull(alloc, ops, links, budget);
        }
        let many = self.pull_many(alloc, ops, links, budget, batch);
        if many > 0 {
            return many;
        }
        let sent = self.part.root_edge().demand.sent;
        let moves = self.pull(alloc, ops, links, budget);
        if self.part.root_edge().demand.sent > sent {
            *singles = singles_after(self.part.waiting());
        }
        moves
    }

    /// Pulls items through the part many at once, as many as the link has room for, and sends them into it; where none come so, it makes a
    /// move by which they may. Answers how many moves it made. Of a piece whose root edge isn't live nothing changes.
    fn pull_many<O: Ops<Item = T>>(
        &mut self,
        alloc: Global,
        ops: &O,
        links: &[Link<T>],
        budget: u32,
        batch: &mut Batch<T>,
    ) -> u32
        requires { IsPieceOf links.now self.old }
        ensures ends { IsPieceOf links.now self.new }
        ensures run { Goes N.Machine (O.meaning ops.now) links.now result 0 self.old self.new }
        ensures most { result ≤ budget }
        ensures stands { (hubs : List (Stream T)) (opening : PieceSpec N T) → StandsSince N.Machine (O.meaning ops.now) hubs opening self.old → StandsSince N.Machine (O.meaning ops.now) hubs opening self.new }
    {
        if !self.part.root_edge().is_live() {
            return 0;
        }
        let link = link_at(links, self.link);
        let room = self.up.free(link) as u64;
        if room < FEWEST_IN_BATCH {
            return 0;
        }
        batch.clear();
        let mut left = budget;
        if self.part.fetch_batch(alloc, ops, room, &mut left, batch) {
            put_all(&mut self.up, link, &mut batch.items);
            return budget - left;
        }
        let _ = self.part.make_ahead(alloc, ops, &mut left);
        budget - left
    }
}

/// How many items more than one are pulled one by one, where so many signals wait in a queue on the way.
fn singles_after(waiting: u64) -> u32 {
    match u32::try_from(waiting) {
        Ok(0) | Err(_) => SINGLES,
        Ok(some) => some - 1,
    }
}

/// Sends all of these items into the link, which has room for them.
fn put_all<T: Drop>(up: &mut Up<T>, link: &Link<T>, items: &mut Vec<T>)
    requires end { IsUpOf link.now up.old }
    requires room { length items.old.items ≤ free_slots up.old }
    requires asked { items_sent up.old + length items.old.items ≤ seen_total up.old }
    ensures same { SameUp link.now up.old up.new }
    ensures sent { Leads IsItemSent up.old items.old.items up.new }
    ensures empty { items.new.items ≡ [] }
{
    items.reverse();
    while let Some(item) = items.pop() {
        up.put(link, Signal::Next(item));
    }
}
