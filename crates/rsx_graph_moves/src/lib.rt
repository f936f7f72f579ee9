#![tactic(auto)]
//! Moves over the rows of hubs, feeds and subscriptions of a graph: one of them, or as many as a budget allows; and what a subscriber
//! or the feed of a hub waits for where none is enabled.
//!
//! # Subscriptions
//!
//! The moves of subscriptions that stand in a row and are named by their numbers.
//!
//! - [`trees`]: [`make_in_tree`] and [`take`], one move of a subscription.
//! - [`idle_set`]: [`IdleSet`], which subscriptions are known to be idle, and which hubs they are known not to read.
//! - [`subscriptions`]: [`drive`], moves of subscriptions until none is enabled.
//!
//! # Hubs, feeds and subscriptions
//!
//! The moves of hubs, feeds and subscriptions that stand in rows and are named by their numbers.
//!
//! - [`law`]: [`idle_means_delivered`] and [`feeds_keep_their_hubs`], each as the contract of one function.
//! - [`many`]: [`make_many`], one move made many times.
//! - [`moves`]: [`make`], one move of a subscription, of a hub or of a hub's feed.
//! - [`rounds`]: [`pump`], moves of subscriptions, hubs and feeds until none is enabled.
//!
//! # Why nothing comes
//!
//! - [`explaining`]: [`explain`], what a subscriber waits for first.
//! - [`feed_waits`]: [`explain_feed`], what the feed of a hub waits for first.
//! - [`leaf`]: [`waiting_leaf`], the first node of a tree that waits for the hub that it reads, over nodes of any kind.
//! - [`picturing`]: [`picture`], what the nodes of a subscriber's tree do.
//!
//! The definitions stand in `specs/`: `Moves` (when a move is enabled, what it changes, and why it is refused), `Many` (one
//! move, made many times), `Pumped` (many moves, one after the other) and `Served` (what was got where no move is enabled);
//! `Waiting` (which node of a tree waits for which hub), `Idle` (an idle tree of which more is asked than it sent: some node of it
//! waits for a hub), `Hubs` (why nothing comes from a hub), `Explained` (what a subscriber waits for), `FeedWaits` (what the feed of a
//! hub waits for), `IdleSet` (which numbers are in the set, and what is known of them), `Resting` (no move is enabled of the
//! subscriptions in it, and they don't read the hubs of which that is known) and `Pictures` (what the nodes of a tree do).

pub mod explaining;
pub mod feed_waits;
mod hub_waits;
mod hubs;
pub mod idle_set;
pub mod law;
pub mod leaf;
pub mod many;
pub mod moves;
pub mod picturing;
pub mod rounds;
pub mod subscriptions;
pub mod trees;
mod waking;

pub use explaining::explain;
pub use feed_waits::explain_feed;
pub use idle_set::IdleSet;
pub use law::{feeds_keep_their_hubs, idle_means_delivered};
pub use leaf::{WaitingLeaf, waiting_leaf};
pub use many::make_many;
pub use moves::make;
pub use picturing::picture;
pub use rounds::pump;
pub use subscriptions::drive;
pub use trees::{make_in_tree, take};
