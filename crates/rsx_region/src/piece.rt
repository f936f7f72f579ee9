//! A piece with the ends of its links, and its single steps.

ghost use Rattle.std.specs.Prelude.{◌≡◌, ◌<◌, ◌≤◌, ℕ, List, [], false, Some, IfOk, ⊤, length, slice_get};
ghost use Rattle.rsx_types.specs.Meaning.{Meaning};
ghost use Rattle.rsx_types.specs.Stream.{Stream};
ghost use Rattle.rsx_link.specs.Ends.{IsUpOf};
ghost use Rattle.rsx_link.specs.declared.link.Link.{Link as LinkSpec};
ghost use Rattle.rsx_tree.specs.Reads.{IsTreeReadAt};
ghost use Rattle.rsx_region.specs.Piece.{IsInStep};
ghost use Rattle.rsx_region.specs.Pieces.{IsAt, IsPieceOf, StandsSince};
ghost use Rattle.rsx_region.specs.Steps.{Goes, done};
ghost use Rattle.rsx_region.specs.Serving.{HasLeftOne, HasPassedOn, HasSeen, HasStayed};
ghost use Rattle.rsx_region.specs.declared.piece.Piece.{Piece as PieceSpec};

use crate::inlet::Inlet;
use crate::outgoing::{look, pull};
use crate::part_steps::step;
use rsx_link::{Link, Up};
use rsx_pipe::{EdgeState, Nodes, Part};
use rsx_types::{NoMemory, Ops};
use std::alloc::Global;

/// A link that comes into a piece.
#[derive(Drop)]
pub struct Incoming<T> {
    /// The number of the link.
    pub link: u32,
    /// What the piece has of it.
    pub inlet: Inlet<T>,
}

/// A piece of a tree that was cut, with the ends of its links.
#[derive(Drop)]
pub struct Piece<N, T> {
    /// The nodes, with the edge from their root.
    pub part: Part<N>,
    /// The number of the link that the root sends into.
    pub link: u32,
    /// The sending end of that link.
    pub up: Up<T>,
    /// The links that come in. No two are read under one number.
    pub inlets: Vec<Incoming<T>>,
}

/// The link with this number.
pub(crate) fn link_at<T>(links: &[Link<T>], number: u32) -> &Link<T>
    requires { IsAt links.now number (λ l. ⊤) }
    ensures { slice_get links.now number ≡ Some result.now }
{
    &links[number as usize]
}

impl<N: Nodes<Item = T>, T: Drop> Piece<N, T> {
    /// A piece into which no link comes. Where the edge of its root is live and none of its nodes reads a hub or a link, it stands for what
    /// it begins with.
    pub fn new(alloc: Global, part: Part<N>, link: u32, up: Up<T>) -> Piece<N, T>
        ensures made { (result.part ≡ part) × (result.link ≡ link) × (result.up ≡ up) × (result.inlets.items ≡ []) }
        ensures ends { (links : List (LinkSpec T)) → IsAt links link (λ l. IsUpOf l up) → IsInStep part up → IsPieceOf links result }
        ensures stands { (m : Meaning T) (hubs : List (Stream T)) → part.root.state ≡ EdgeState.Live → IsInStep part up → IsTreeReadAt N.Machine [] part.tree → StandsSince N.Machine m hubs result result }
    {
        Piece {
            part,
            link,
            up,
            inlets: Vec::new(alloc),
        }
    }

    /// Looks at the link that goes out.
    pub(crate) fn look(&mut self, links: &[Link<T>])
        requires { IsPieceOf links.now self.old }
        ensures ends { IsPieceOf links.now self.new }
        ensures run { (m : Meaning T) → Goes N.Machine m links.now 0 0 self.old self.new }
        ensures stands { (m : Meaning T) (hubs : List (Stream T)) (opening : PieceSpec N T) → StandsSince N.Machine m hubs opening self.old → StandsSince N.Machine m hubs opening self.new }
        ensures seen { (m : Meaning T) → self.new.part.root.state ≡ EdgeState.Live → HasSeen self.old self.new }
    {
        let link = link_at(links, self.link);
        look(&mut self.part, &mut self.up, link);
    }

    /// Passes what was asked of a reader's edge down the link at this place.
    pub(crate) fn ask_at(&mut self, at: usize, links: &[Link<T>])
        requires ends { IsPieceOf links.now self.old }
        requires there { at < length self.old.inlets.items }
        ensures ends { IsPieceOf links.now self.new }
        ensures run { (m : Meaning T) → Goes N.Machine m links.now 0 0 self.old self.new }
        ensures stands { (m : Meaning T) (hubs : List (Stream T)) (opening : PieceSpec N T) → StandsSince N.Machine m hubs opening self.old → StandsSince N.Machine m hubs opening self.new }
        ensures asked { HasPassedOn N.Machine at self.old self.new }
    {
        let incoming = &mut self.inlets[at];
        let link = link_at(links, incoming.link);
        incoming.inlet.ask(&self.part, link);
    }

    /// Takes a signal from the link at this place, where one can be taken, and answers whether it did.
    ///
    /// # Errors
    /// [`NoMemory`] where a growth was refused. Then nothing changed.
    #[inline(never)]
    pub(crate) fn pop_at(&mut self, at: usize, links: &[Link<T>]) -> Result<bool, NoMemory>
        requires ends { IsPieceOf links.now self.old }
        requires there { at < length self.old.inlets.items }
        ensures ends { IsPieceOf links.now self.new }
        ensures run { (m : Meaning T) → Goes N.Machine m links.now 0 (done result) self.old self.new }
        ensures count { length self.new.inlets.items ≡ length self.old.inlets.items }
        ensures stands { (m : Meaning T) (hubs : List (Stream T)) (opening : PieceSpec N T) → StandsSince N.Machine m hubs opening self.old → StandsSince N.Machine m hubs opening self.new }
        ensures left { IfOk result (λ b. b ≡ false → HasLeftOne N.Machine at self.old self.new) }
    {
        let incoming = &mut self.inlets[at];
        let link = link_at(links, incoming.link);
        incoming.inlet.pop(&mut self.part, link)
    }

    /// Makes a move, where one is enabled, and answers whether it did. Of a piece whose root edge isn't live nothing changes.
    ///
    /// # Errors
    /// [`NoMemory`] where a growth was refused. Then no move was made.
    pub(crate) fn step<O: Ops<Item = T>>(
        &mut self,
        alloc: Global,
        ops: &O,
        links: &[Link<T>],
    ) -> Result<bool, NoMemory>
        requires { IsPieceOf links.now self.old }
        ensures ends { IsPieceOf links.now self.new }
        ensures run { Goes N.Machine (O.meaning ops.now) links.now (done result) 0 self.old self.new }
        ensures stands { (hubs : List (Stream T)) (opening : PieceSpec N T) → StandsSince N.Machine (O.meaning ops.now) hubs opening self.old → StandsSince N.Machine (O.meaning ops.now) hubs opening self.new }
        ensures still { IfOk result (λ b. b ≡ false → HasStayed N.Machine (O.meaning ops.now) self.old self.new) }
    {
        if !self.part.root_edge().is_live() {
            return Ok(false);
        }
        let link = link_at(links, self.link);
        step(alloc, ops, &mut self.part, &mut self.up, link)
    }

    /// Pulls an item through the part, into the link that goes out, and answers how many moves it made. With no item nothing is sent, and
    /// it may have made moves inside the part.
    #[inline]
    pub(crate) fn pull<O: Ops<Item = T>>(
        &mut self,
        alloc: Global,
        ops: &O,
        links: &[Link<T>],
        budget: u32,
    ) -> u32
        requires { IsPieceOf links.now self.old }
        ensures ends { IsPieceOf links.now self.new }
        ensures run { Goes N.Machine (O.meaning ops.now) links.now result 0 self.old self.new }
        ensures most { result ≤ budget }
        ensures stands { (hubs : List (Stream T)) (opening : PieceSpec N T) → StandsSince N.Machine (O.meaning ops.now) hubs opening self.old → StandsSince N.Machine (O.meaning ops.now) hubs opening self.new }
    {
        let link = link_at(links, self.link);
        pull(alloc, ops, &mut self.part, &mut self.up, link, budget)
    }
}
