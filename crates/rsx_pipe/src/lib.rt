#![tactic(auto)]
//! Parts: trees of nodes, each with the edge from its root.
//!
//! - [`part`]: [`Part`], one tree with the edge from its root: every move of it, as a [`NodeMove`], and `pump`.
//! - [`ahead`]: the moves that let many items come at once.
//! - [`crossing`]: how an edge joins its two ends.
//! - [`cutting`]: a part is cut at an edge that crosses to another region, and joined there again.
//! - [`feeding`]: signals go over the root edge into the hands of the caller.
//! - [`law`]: what is proved of parts that were cut and joined again.
//! - [`many`]: one move, made many times in one call.
//! - [`published`]: what a hub published is handed to the nodes of a part that read it.
//! - [`root`]: the edge from the root of a part.
//! - [`steps`]: whether nodes make steps of their own.
//! - [`taking`]: several items of a hub are handed to those nodes at once.
//!
//! The definitions stand in `specs/`, apart from the code: `Part` (what a part stands for, which of its moves are enabled,
//! what they change, and what is delivered where it is idle), `Tree` (what `rsx_tree` says of the tree of a part), `Output`
//! (what has gone out, and what was published), `Crossing` (the edges of a part, and which go through a queue), `Cutting` and
//! `Rejoined` (where a part is cut and joined), `Joined` (what is proved of that), `Published` (what the hubs took in and handed
//! on), `Taking` (several items of a hub at once), `Feeding` (what goes out into the hands of the caller, and the moves inside a tree)
//! and `Many` (one move, made many times).

pub mod ahead;
pub mod crossing;
pub mod cutting;
pub mod feeding;
pub mod law;
pub mod many;
pub mod part;
pub mod published;
pub mod root;
pub mod steps;
pub mod taking;

pub use cutting::CutOff;
pub use law::{joined_after_ending, joined_after_moves, joined_at_end, joined_at_once};
pub use many::MOST_AT_ONCE;
pub use part::{Part, Pumped};
pub use rsx_prefetch::SignalQueue;
pub use rsx_rooted::{CrossingNodes, NoRoom, Nodes, Route, Sink};
pub use rsx_tree::{Edge, EdgeState, NodeMove};
