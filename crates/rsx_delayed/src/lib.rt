#![tactic(auto)]
//! The nodes `mergeDelayError` and `flatMapDelayError`, the merge of several inputs and `flatMap` that delay failures, and
//! `publishOnEager`, whose failure overtakes items.
//!
//! # mergeDelayError
//!
//! It is `merge` but for failures. A failure that is picked ends its input alone. It puts nothing out, the other inputs go on,
//! and choices may follow it. Once the endings of all inputs were picked, the failure that was picked first goes out, or the
//! completion where none was.
//!
//! [`MergeDelayNode`] takes the signals of its inputs in an order that is chosen while it runs, and records that order: under the
//! recorded choices what comes out of it is `merge_delay` of what comes in. That is the definition in `specs/Delayed` of
//! `rsx_values`; `law` says what it comes to. `specs/MergeDelay` describes the node, and `specs/MergeDelayLaws` has its laws.
//!
//! # flatMapDelayError
//!
//! It is `flatMap` but for failures. A failure that is picked ends its lane alone, and Main's failure, a fault of the expansion too,
//! ends Main alone. Once the endings of all lanes and of Main were picked, the failure that was picked first goes out, or the
//! completion where none was.
//!
//! [`FlatMapDelayNode`] holds what the node `flatMap` holds, and the failure that was picked first. The definition is
//! `flat_map_delay` in `specs/Flat` of `rsx_values`; `flat_law` says what it comes to. `specs/FlatMapDelay` describes the node, and
//! `specs/FlatMapDelayLaws` has its laws.
//!
//! # publishOnEager
//!
//! It is `publishOn` but for a failure, which overtakes the items that wait before it.
//!
//! [`PublishOnEagerNode`] holds what the node `publishOn` holds. It offers an item as long as no failure stands behind it, and records
//! choice 0 as the item goes out. A failure that stands behind items can be picked, which is recorded as choice 1 and drops them. So
//! under what it recorded what comes out is `eager_of` of what comes in; `eager_law` says what that comes to. The record has memory for
//! its two runs from the start ([`TwoRuns`]), so neither an item nor a pick takes any. `specs/PublishOnEager` describes the node, and
//! `specs/PublishOnEagerLaws` has its laws.

pub mod eager_law;
mod flat;
pub mod flat_law;
pub mod flat_map_delay_node;
pub mod law;
pub mod merge_delay_node;
pub mod publish_on_eager_node;
mod remaining;
pub mod two_runs;

pub use flat_map_delay_node::FlatMapDelayNode;
pub use merge_delay_node::MergeDelayNode;
pub use publish_on_eager_node::{Chosen, PublishOnEagerNode};
pub use two_runs::TwoRuns;
