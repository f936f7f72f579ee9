#![tactic(auto)]
//! One subscription to an expression: its part, the queue behind it, and where it stands in the subscription table.
//!
//! - [`subscription`]: [`Subscription`], with its edits (request, cancel), its moves and `pump`.
//! - [`apart`]: [`SubscriptionParts`], what a subscription is made of.
//! - [`taking`]: the Take of the root, whose signal goes into a list of deliveries.
//! - [`naming`]: which move inside a tree a [`Move`](rsx_types::Move) of a graph names.
//! - [`published`]: what a hub published is handed to the nodes of a subscription's part that read it.
//! - [`deliveries`]: [`Deliveries`], the signals that were handed to subscribers.
//! - [`state`]: [`SubscriptionState`], how a subscription stands.
//!
//! The definitions stand in `specs/`, apart from the code: `Past` (what has happened to a subscriber), `Stands` (what a
//! subscription stands for, its enabled moves and their effect), `Moves` (the names of moves), `Edited` (what a request and a
//! cancel change), `Standing` (where it stands in the table of `rsx_subscription`), `Begun`, `Pumped`, `Taken`, `Published`, `Apart`, and
//! `Holds` (what holds of a subscriber whose subscription stands for its past). Those of parts, trees and edges are in the crates
//! below.

pub mod apart;
pub mod deliveries;
pub mod naming;
pub mod published;
pub mod replay;
pub mod state;
pub mod subscription;
pub mod taking;

pub use apart::SubscriptionParts;
pub use deliveries::Deliveries;
pub use replay::equal_records_give_equal_values;
pub use state::SubscriptionState;
pub use subscription::Subscription;
