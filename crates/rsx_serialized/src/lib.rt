#![tactic(auto)]
//! A whole graph, hubs and feeds included, that many threads publish to, request from, take from and cancel, while one of them at a time
//! moves it.
//!
//! - [`ends`]: [`FromEmitter`] and [`ToTap`], the ends of links that the graph's holder has: what comes from emitters, and what goes to
//!   taps.
//! - [`region`]: [`GraphRegion`], the graph between its links, and [`GraphRegion::serve`], by which its holder moves it.
//! - [`calls`]: the calls of [`SerializedGraph`] by which threads publish, request, take and cancel.
//! - [`links`]: [`EmitterLink`] and [`TapLink`], a link with both of its ends.
//! - [`opening`]: [`Opening`], what the gate of a graph keeps.
//! - [`serialized`]: [`SerializedGraph`], the graph behind its gate: [`SerializedGraph::new`], [`SerializedGraph::poke`], by which a thread
//!   works on it, [`SerializedGraph::split`] and [`SerializedGraph::join`], by which each such thread has a seat of its own, and
//!   [`SerializedGraph::stop`], by which it comes back.
//! - [`starting`]: [`StartedGraph`], a graph behind its gate with its emitters and taps: [`SerializedGraph::start`] opens a link for each.
//! - [`subscribing`]: [`SerializedGraph::subscribe`], by which a thread subscribes while others run: [`SerializedGraph::start_with_places`] opens
//!   links for such subscriptions.
//! - [`driven`]: the calls of [`StartedGraph`] by which one thread drives it.
//! - [`closing`]: [`SerializedGraph::close`] ends the gate and the links, and gives the graph back, with what was on its way.
//!
//! Of what a tap asked for, the graph is told only so much as the queue of its link has room for, beside an ending. So a subscriber that
//! asked for more than it takes holds up no other one, but for those that read its hubs.
//!
//! The definitions stand in `specs/`: `Events` (what has happened to a graph, call by call), `Told` (what its holder tells it), `Ends`
//! (what the ends have passed on), `Opens` (links as they are opened), `Sending` (the signal that was delivered first is sent), `Regions`
//! (a graph between its links), `Resting` (when nothing is left to do for it), `Rounds` (rounds in which something was done), `Since`
//! (what has happened to its hubs and subscribers), `Gates` (a graph behind its gate), `Opened` (it is put there, and comes back),
//! `Calls` (the link of an emitter or a tap), `Started` (a graph behind its gate with its emitters and taps), `Starting` (which of them
//! there are, and how they count on), `Subscribing` (an expression is subscribed to while others run), `Driven` (what the calls of one thread change) and `Closing` (the links are closed, and what has
//! happened by then).

pub mod calls;
pub mod closing;
pub mod driven;
mod emitter_links;
pub mod ends;
pub mod links;
pub mod opening;
mod publishing;
pub mod region;
mod sending;
pub mod serialized;
pub mod starting;
pub mod subscribing;
mod tap_links;

pub use closing::{Closed, Stopped};
pub use driven::{NoEnding, NotPublished};
pub use ends::{FromEmitter, ToTap};
pub use links::{EmitterLink, TapLink};
pub use opening::Opening;
pub use region::{GraphRegion, Links, Served};
pub use rsx_runtime::{Emitter, Tap};
pub use serialized::{GraphGate, GraphSeat, SerializedGraph};
pub use starting::{MOST_PLACES, StartedGraph};
pub use subscribing::{NotAdded, NotSubscribed};
