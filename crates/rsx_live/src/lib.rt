#![tactic(auto)]
//! A graph goes live, and comes back.
//!
//! - [`graph`]: [`LiveGraph`], a graph that is live: [`LiveGraph::go_live`] and [`LiveGraph::close`].
//! - [`serving`]: [`serve_regions`], by which the regions are served on threads.
//! - [`started`]: the calls of [`StartedGraph`] by which one thread drives a live graph, and those of [`LiveGraph`] by which a thread
//!   takes, requests and cancels while others have its seats.
//!
//! What is done with the parts of its subscriptions is the same over any nodes, and stands in `rsx_live_parts`: [`go_live`] and what it
//! is made of.
//!
//! The definitions stand in `specs/`: `Graphs` (graphs that are live, and come back), `Starts` (a live graph with its taps and seats) and
//! `Workers` (how many workers are enough).

pub mod graph;
pub mod serving;
pub mod started;
mod workers;

pub use graph::{LiveGraph, NotStarted, StartedGraph};
pub use serving::serve_regions;

// The parts of subscriptions that go live, and come back.
pub use rsx_live_parts::{
    Kept, LiveSubscriptions, NotLive, Outgoing, Parted, Started, Stay, come_back, cut_all, go_live,
    go_out,
};

// What the calls of a live graph answer, and the taps of its subscriptions.
pub use rsx_runtime::{PokeAnswer, Poked, Tap};
