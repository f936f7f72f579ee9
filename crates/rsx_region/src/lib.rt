#![tactic(auto)]
//! Regions: the pieces of a graph that one thread at a time works on, each with the ends of its links.
//!
//! Where a tree crosses to another region it is cut: the node over the edge goes on, with all below it, as a part of its own, whose
//! root sends into a [`Link`](rsx_link::Link). In its place stands a node that reads the link as it would read a hub. Such a part
//! with the ends of its links is a piece. What a piece stands for is told relative to its opening, as what went out since then, and
//! each call keeps it.
//!
//! A call of [`outgoing`], [`part_steps`] and [`inlet`] is handed a part and the ends of its links one by one, and is one step of a
//! piece: a look at the link that goes out, a move inside the part, a signal sent into the link, a signal taken from a link that
//! comes in and handed on, and a request passed on down such a link; or it is many moves, as where an item is pulled through the part.
//! Where several items can be taken from a link or go through the part at once, a piece does what so many of these calls would do.
//! A [`Piece`] has its part with those ends, so that [`Piece::serve`] can do all that there is to do for it, within a budget, by such
//! steps.
//!
//! - [`cutting`]: [`Piece::cut`], by which a piece is cut in two.
//! - [`flowing`]: items that go through a piece, many at once where they can.
//! - [`halves`]: [`Below`], what was cut off a piece, and [`Piece::join`], by which it is joined to it again.
//! - [`inlet`]: [`Inlet`], what a piece has of a link that comes in, with [`Inlet::pop`] and [`Inlet::ask`].
//! - [`law`]: [`law::opens`], what a piece is at its opening; [`law::joins`], [`law::joins_again`] and [`law::joins_ended`], what two
//!   give that are joined again; [`law::joins_whole`], that these are a piece; [`law::cuts`] and [`law::rejoins`], that the counts
//!   along the edges belong together through a cut and a join, and what the nodes have taken in; [`law::gives_back`], what a piece
//!   gave whose ending is put back; [`law::cancels`], where a link is cancelled.
//! - [`opening`]: [`Opening`], what a region began with.
//! - [`outgoing`]: [`outgoing::look`], [`outgoing::work`] and [`outgoing::send`], which a piece does at its root, with
//!   [`outgoing::work_at`], a move inside that is named, and [`outgoing::pull`], by which an item goes through the part in one go.
//! - [`part_steps`]: [`part_steps::serve`], many moves of a part in a row, each as [`part_steps::step`] makes one.
//! - [`piece`]: [`Piece`] and [`Incoming`].
//! - [`region`]: [`Region`], the pieces of a region, and [`Served`], what a serve of them did.
//! - [`step`]: [`Step`], by which contracts tell what was done.
//! - [`serving`]: [`Piece::serve`], with its answer [`PieceServed`].
//! - [`spreading`]: [`spread`] and [`gather`], by which pieces are put into regions and taken out again.
//! - [`trees`]: [`CutTrees`], trees that are cut at one edge after the other, and joined again.
//!
//! The definitions stand in `specs/`. Of a part and the ends of its links one by one: `Piece` (what a piece stands for), `Moves` (what
//! each call changes), `Inlet`, `Taken`, `Endings` and `Readers` (what it has of a link that comes in, and who reads that), `Open` (what
//! stands over an edge), and `Joining`, `Joined` and `Whole` (what two are that are joined). Of a [`Piece`]: `Pieces` (the ends of a piece,
//! and what it stands for), `Steps` (what each step changes), `Serving` (when a piece is at rest), `Cuts` (how a piece is cut),
//! `Halves` (both halves), `Joins` (when they can be joined, and to what), `Regions` (the same of all pieces of a region), `Trees`
//! (what trees were before they were cut at many edges) and `Spread` (pieces that were put into regions).

pub mod cutting;
pub mod flowing;
pub mod halves;
pub mod inlet;
pub mod law;
mod many;
pub mod opening;
pub mod outgoing;
pub mod part_steps;
pub mod piece;
mod readers;
pub mod region;
pub mod serving;
pub mod spreading;
pub mod step;
mod touched;
pub mod trees;

pub use cutting::NotCut;
pub use halves::{Below, LINK_PLACES, READER_PLACES};
pub use inlet::Inlet;
pub use opening::Opening;
pub use piece::{Incoming, Piece};
pub use region::{Region, Served};
pub use serving::{Answer, PieceServed};
pub use spreading::{gather, spread};
pub use step::Step;
pub use trees::{CutEdge, CutTrees, NotJoined};
