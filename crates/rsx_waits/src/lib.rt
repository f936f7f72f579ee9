#![tactic(auto)]
//! What a subscriber waits for and what the nodes of its tree do, with the words for it.
//!
//! - [`wait`]: [`Wait`], what a subscriber waits for, [`FeedWait`], what the feed of a hub waits for, and [`HubWait`], why nothing
//!   comes from a hub. Each is printed in plain words.
//! - [`operator`]: [`Operator`], which operator a node is. It is printed as the word that a script has for it.
//! - [`look`]: [`Picture`], the nodes of a tree, each as a [`NodeLook`]: its operator, what was asked of it and sent, what
//!   waits in queues and lanes, what it offers, and what it recorded last.
//!
//! The definitions stand in `specs/`: `Texts` (the words for a wait), `Operators` (those for operators) and `Looks` (those for a
//! picture).

pub mod look;
pub mod operator;
pub mod wait;

pub use look::{EdgeLook, NodeLook, Offer, Picture, Recorded};
pub use operator::Operator;
pub use wait::{FeedWait, HubWait, Wait};
