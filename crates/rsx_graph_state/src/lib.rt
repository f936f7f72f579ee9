#![tactic(auto)]
//! What has happened to a graph, what its hubs, feeds and subscriptions stand for, and the moves of its hubs and feeds.
//!
//! # What a hub takes in
//!
//! What a hub takes in, and all feeds and subscriptions get.
//!
//! - [`feed`]: [`Feed`], a part whose signals a hub takes in.
//! - [`publishing`]: [`accept`] takes the signal in that waits in front of a hub's inbox, and hands it to each node that reads the
//!   hub; [`can_accept`] tells whether that can be done.
//! - [`sending`]: [`send_to_hub`] takes the next signal of a feed into its hub, and hands it to each node that reads the hub;
//!   [`can_feed`] tells whether that can be done.
//!
//! A hub has one inbox, and each node that reads it has a queue of its own. An item is taken in only where all these nodes have
//! room for it, so a slow one holds the others back and none loses an item. An ending needs no room.
//!
//! - [`subscription_set`]: [`SubscriptionSet`], some of the first subscriptions, by their numbers.
//! - [`skipped`]: [`Skipped`], the subscriptions of which it is known that they don't read a hub. What is done for the readers of the
//!   hub doesn't look at them.
//!
//! # Steps and answers
//!
//! What the calls of a graph answer, and what its subscriptions stand for, one beside the other.
//!
//! - [`step`], [`refusal`]: what an edit or a move answers, and why a call is refused.
//!
//! The definitions stand in `specs/`: `Answers` (the pasts of all subscribers, and why calls are refused), `Subscriptions` (what
//! the subscriptions stand for, and the effect of a move), `Hubs` (what an edit changes of a hub), `Begun`, `Pumped`, `Served` and
//! `Holding` (the sentence for each subscriber). Those of one subscription are in `rsx_subscriber`, and those of parts, trees and
//! edges below it.
//!
//! # Histories, and moves of hubs and feeds
//!
//! Graphs whose hubs are published to by emitters or fed by expressions: what they stand for, the headline of them, and the moves
//! of their hubs and feeds.
//!
//! - [`accepting`]: [`accept`], by which a hub with an emitter takes in what waits in its inbox.
//! - [`at_once`]: [`accept_all`], by which it takes in all that waits there at once.
//! - [`feed_moves`]: [`make_in_feed`], a move of a hub's feed.
//! - [`feeds`]: [`place_of`], the feed of a hub among all.
//! - [`feeding_many`]: [`send_many`], by which a feed sends many items into its hub at once.
//! - [`law`]: [`headline`], what is proved of such graphs, as the contract of one function.
//!
//! The hubs, the feeds and the subscriptions stand in rows, the feeds in any order: each names its hub. The definitions stand in
//! `specs/`: `History` (what has happened), `Stands` (what the rows stand for), `Moves` (when a move is enabled, and what it
//! changes) and `Headline`.

pub mod accepting;
pub mod at_once;
pub mod feed;
pub mod feed_moves;
pub mod feeding_many;
pub mod feeds;
pub mod law;
pub mod publishing;
pub mod refusal;
pub mod sending;
pub mod skipped;
pub mod step;
pub mod subscription_set;

pub use accepting::{accept, accept_unfed};
pub use at_once::accept_all;
pub use feed::{Feed, HUB_REGION};
pub use feed_moves::{make_in_feed, send_from_feed, work_in_feed};
pub use feeding_many::{may_send_many, send_many};
pub use feeds::place_of;
pub use law::headline;
pub use publishing::can_accept;
pub use refusal::Refusal;
pub use sending::{can_feed, send_to_hub};
pub use skipped::Skipped;
pub use step::{Answer, Pumped};
pub use subscription_set::{MOST_IN_SET, SubscriptionSet};

/// The most subscriptions of a graph.
pub const MOST_SUBSCRIPTIONS: usize = 256;

/// The most hubs of a graph.
pub const MOST_HUBS: usize = 64;
