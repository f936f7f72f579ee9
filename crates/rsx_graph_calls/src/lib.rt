#![tactic(auto)]
//! Edits of the rows of hubs, feeds and subscriptions of a graph, and looks at them.
//!
//! # Edits
//!
//! The edits of hubs, feeds and subscriptions that stand in rows and are named by their numbers.
//!
//! - [`feed_hubs`]: [`feed_hub`], a new hub that is fed by an expression, and [`admit_fed`], whether there may be one.
//! - [`feeds`]: where the feed of a hub stands.
//! - [`hubs`]: [`hub`], a new hub with an emitter.
//! - [`publishing`]: [`emit`], [`complete`] and [`fail`], at a hub with an emitter.
//! - [`regions`]: [`Regions`], which are kept beside the rows.
//! - [`requests`]: [`request`] and [`cancel`] of a subscription.
//! - [`senders`]: [`senders_of`], from which regions signals go over the edges of a tree that cross.
//! - [`subscribing`]: [`subscribe`], a new subscription, and [`admit`], whether there may be one.
//!
//! The definitions stand in `specs/`: `Edits` and `Subscribing` (what has happened by each edit, and why it is refused), `Publishes`
//! (the same of what is published), `Requests` (what a subscriber did), `Senders` (the senders of an expression's edges that cross)
//! and `Regions` (the regions that are kept beside the subscriptions and the feeds).
//!
//! What changes hubs with emitters alone ([`hub`], [`emit`], [`complete`] and [`fail`]) asks nothing of the nodes, and so do
//! [`joins`]: these calls are cheap to prove at any type of nodes. Their contracts say what changed. That the rows then stand for the
//! history with the edit follows from that, as `proofs/Published`, `proofs/Behind` and `proofs/Noted` show.
//!
//! # Looks
//!
//! The looks at hubs, feeds and subscriptions that stand in rows and are named by their numbers.
//!
//! - [`free_places`]: [`places`], for how many more subscriptions there is place.
//! - [`still_owed`]: [`owed`], what is still owed to a subscriber.
//! - [`to_come`]: what is still to come of each hub.
//! - [`trees`]: [`notes`] and [`joins`] of a tree, of a subscription or of a hub's feed.
//!
//! The definitions stand in `specs/`: `Looks` (what a look answers, and why it is refused), `Places` (the places that are left) and
//! `ToCome` (what is still to come of the hubs).

pub mod feed_hubs;
mod feeds;
pub mod free_places;
pub mod hubs;
pub mod publishing;
pub mod regions;
pub mod requests;
pub mod senders;
pub mod still_owed;
pub mod subscribing;
mod to_come;
pub mod trees;

pub use feed_hubs::{admit_fed, feed_hub};
pub use free_places::places;
pub use hubs::hub;
pub use publishing::{NotEmitted, complete, emit, emit_copy, fail};
pub use regions::Regions;
pub use requests::{cancel, request};
pub use senders::{one_sender_for_each, senders_of};
pub use still_owed::owed;
pub use subscribing::{admit, subscribe};
pub use trees::{joins, notes};
