#![tactic(auto)]
//! The nodes `concat`, `merge`, `publishOn` and `flatMap`.
//!
//! # merge
//!
//! The node that takes the items of several inputs as they come.
//!
//! [`MergeNode`] takes the signals of its inputs in an order that is chosen while it runs, and records that order: under the
//! recorded choices what comes out of it is the merge of what comes in.
//!
//! # concat
//!
//! The node that takes one input after the other.
//!
//! What comes out of a [`ConcatNode`] is the concat of what comes in. It asks only the input whose turn it is.
//!
//! # publishOn
//!
//! The node that hands its input on from a queue.
//!
//! What comes out of a [`PublishOnNode`] is what comes in. The queue lets it be served at another time than its input is.
//!
//! # flatMap
//!
//! The node `flatMap`: each item of its input is expanded to a list, the list goes through a chain of plain operators, and what
//! comes out is a lane. The signals of the lanes are taken in an order that is chosen while the node runs, and recorded.
//!
//! An item is expanded and its lane made when it arrives, so a lane is a list of signals that wait. A lane whose completion was
//! picked is gone: memory is held for the lanes that are live, and never for items that passed.
//!
//! The definitions stand in `specs/`: `Lanes` (what the calls of the list of lanes answer), `FlatMap` (the node) and `Laws`. What
//! `flatMap` gives for a whole input under choices is `flat_map` of `rsx_values`; that is what a new node gives.

mod behind;
pub mod concat_node;
pub mod expansion;
pub mod flat_map_node;
pub mod lanes;
pub mod merge_node;
pub mod publish_on_node;

pub use concat_node::ConcatNode;
pub use expansion::{Expanding, Expansion};
pub use flat_map_node::FlatMapNode;
pub use lanes::{CopyingLanes, Lane, Lanes};
pub use merge_node::MergeNode;
pub use publish_on_node::PublishOnNode;
