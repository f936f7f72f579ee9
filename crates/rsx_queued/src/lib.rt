#![tactic(auto)]
//! Queues in front of nodes and behind them: what nodes with several inputs have in common, and edges between two regions.
//!
//! # Inputs and the out slot
//!
//! What nodes with several inputs have in common.
//!
//! A [`QueuedInput`] is one input: what came in there and was not taken out yet, an ending too. It says how much may be asked
//! of the input, so an item always finds room. An [`Output`] is what such a node has put out: one signal at a time, and
//! nothing behind an ending. [`takes_at`], [`front_at`], [`credits_at`], [`waiting_at`] and [`are_gone`] speak of the inputs in a
//! row, and [`ToPick`] makes whole stream values of them, from which a node evaluates what still comes out of it.
//!
//! # Edges between two regions
//!
//! Edges between two regions.
//!
//! Such an edge has a queue between its ends. The queue belongs to the sender: [`Queued`] is a node with the queue behind
//! it, and itself a node, proved once over any kind of node. So a tree needs no edge of another kind. A tree in which some
//! edges cross and others don't has a [`Sender`] at each place.

pub mod input;
pub mod inputs;
pub mod item_queue;
pub mod law;
pub mod output;
pub mod queued;
pub mod rest;
pub mod sender;
pub mod tail;

pub use input::{QueuedInput, Remaining};
pub use inputs::{ToPick, are_gone, credits_at, front_at, takes_at, waiting_at};
pub use item_queue::ItemQueue;
pub use law::edge;
pub use output::{Output, first_output, front_of};
pub use queued::Queued;
pub use rest::InFront;
pub use rsx_types::CAPACITY;
pub use sender::Sender;
pub use tail::Tail;
