#![tactic(auto)]
//! A graph whose regions are worked on by several threads, each behind a gate of its own.
//!
//! [`Live`] has a gate for each region, and the links between the regions. A thread has a seat for each region that it works on, and
//! pokes it by [`Live::poke`]: where no other thread works on the region, this one does what there is to do there, and else leaves a
//! note for the one that does. By [`Live::enter`] it gets the pass of a region, with which it makes the same steps one by one
//! ([`RegionPass`]).
//!
//! A poke answers which regions have to be poked behind it ([`Poked`]): those with which it touched a link.
//!
//! [`work`] is the loop of a worker: it pokes one region again and again, rouses the workers of the regions that a poke named, and rests
//! where nothing is left to do. [`ParkRest`] rests on a parker, and a [`Rouser`] rouses and stops such workers from other threads.
//!
//! [`serve_seats`] starts a thread for each region, on which a function of the caller's works by the region's seat and rests on a parker
//! ([`Parkers`]), and runs `main` on the calling thread meanwhile. As `main` returns all workers are stopped, and once they have ended all
//! seats come back, so that the graph may be closed. Only this, `work` and the rest of a `ParkRest` wait.
//!
//! [`Live::begin`] puts the pieces of trees that were cut into regions, and opens a gate for each. By [`Live::close`] the gates end, and
//! the trees come back; by [`Live::stop`] the regions do.
//!
//! A thread publishes at a hub by an [`Emitter`], and a subscriber requests, takes and cancels by a [`Tap`]; each is an end of a link
//! of the graph.
//!
//! A live graph has pieces and no hubs. Emitters and taps stand over any link; `rsx_live_parts` makes the pieces and taps of a graph.
//!
//! The definitions stand in `specs/`: `Poking` (what a poke does), `Passing` (what the calls of a pass change), `Resting` and `Tokens`
//! (parkers with their tokens, and who is roused), `Beginning` (the gates that are made), `Closing` (trees that were cut, with their
//! pieces in regions), `Stopping` (the regions that come back), `Emitting` and `Tapping` (what the calls of emitters and taps change),
//! `Standing` (how a tap stands), `Ordered` (nothing follows an ending) and `Seated` (seats at their places).

pub mod beginning;
pub mod closing;
mod each;
pub mod emitter;
pub mod live;
pub mod park;
pub mod parkers;
pub mod pass;
pub mod rest;
pub mod stopping;
pub mod tap;
pub mod threads;
pub mod tokens;
pub mod worker;

pub use beginning::Begun;
pub use closing::Plan;
pub use emitter::{Emitter, NotEnded};
pub use live::{Live, PokeAnswer, Poked, RegionGate, RegionSeat};
pub use park::{ParkRest, Rouser};
pub use parkers::Parkers;
pub use pass::{RegionLeft, RegionPass};
pub use rest::{Rest, Rested};
pub use stopping::Stopped;
pub use tap::{Canceller, Tap, TapEnds, Tapped};
pub use threads::serve_seats;
pub use worker::work;

/// How often a poke serves its region before it gives up the gate.
pub const ROUNDS: u8 = 8;

/// How many moves and signals from links a poke of a worker may count before it ends.
pub const BUDGET: u32 = 1_024;

/// How many workers there may be.
pub const MOST_WORKERS: u8 = 16;
