#![tactic(auto)]
//! What every node of a tree promises, and the sources.
//!
//! A node takes the signals of its inputs and offers the signals of its output; the trait [`Machine`] says how each of
//! its calls moves the stream value that still comes out. The sources have no input: [`ItemsNode`] puts out a list of
//! items, and [`RangeNode`] the numbers from a first one on. [`OutSlot`] holds what a node has put out and its receiver
//! has not taken yet.
//!
//! No call waits, and each answers the same for the same node (rule 1.3: the calls of one node come one after another).

pub mod firsts;
pub mod items;
pub mod machine;
pub mod range;
pub mod slot;

pub use firsts::{first_ending, first_items};
pub use items::ItemsNode;
pub use machine::{Front, Machine, NotMade, NotTaken, Passed};
pub use range::RangeNode;
pub use slot::OutSlot;
