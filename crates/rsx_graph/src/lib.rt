#![tactic(auto)]
//! Graphs of hubs and of subscriptions to expressions, driven by edits (a new hub, what is published there, subscribe, request,
//! cancel) and moves (Ask, Send, Take, Pick, Row, Accept).
//!
//! - [`explain`]: `explain`, what a subscriber waits for, `explain_feed`, what the feed of a hub waits for, and `picture`, what the
//!   nodes of a subscriber's tree do.
//! - [`graph`]: [`Graph`], with every edit and look of a subscription, and every move; `run` makes a list of steps.
//! - [`hubs`]: its hubs: `hub`, `feed_hub`, `emit`, `complete` and `fail`.
//! - [`many`]: `make_many`, one move made many times.
//! - [`pieces`]: [`Pieces`], of which a graph is made: `take_apart` and `put_together`.
//! - [`replays`]: [`replay`], a list of steps from nothing, whose contract is the headline with no premise.
//! - [`step`]: [`Step`], one edit or one move.
//! - [`headline`], [`all_delivered`], [`idle_means_delivered`] and [`read_all`]: what is proved of all graphs, each as the contract of
//!   one function.
//!
//! The definitions stand in `specs/`: `Stands` (what a graph stands for), `Limits` (the limits that it keeps), `Steps` (what has
//! happened by steps with their answers), `Done` (what each step did), `Pumped`, `Many` (one move, made many times), `Delivered`
//! (idle means delivered), `Read` (what is read of hubs), `Replayed`, `InGraph`, which puts them into words of a [`Graph`], and
//! `Pieces`, which does so for [`Pieces`]. Those of rows of hubs, feeds and subscriptions are in `rsx_graph_state` and in the crates
//! over it, those of one subscription in `rsx_subscriber`.

pub mod explain;
pub mod graph;
pub mod hubs;
pub mod law;
pub mod many;
pub mod pieces;
pub mod replays;
pub mod step;

pub use graph::{Graph, MOST_HUBS, MOST_SUBSCRIPTIONS};
pub use law::{all_delivered, read_all};
pub use pieces::Pieces;
pub use replays::replay;
pub use rsx_graph_calls::{NotEmitted, Regions};
pub use rsx_graph_moves::idle_means_delivered;
pub use rsx_graph_state::{Answer, Pumped, Refusal, headline, refusal};
pub use rsx_pipe::MOST_AT_ONCE;
pub use rsx_subscriber::{Deliveries, Subscription, SubscriptionState};
pub use rsx_waits::{EdgeLook, FeedWait, HubWait, NodeLook, Offer, Picture, Recorded, Wait};
pub use step::Step;
