#![tactic(auto)]
//! Trees of nodes of any kind, with their edges.
//!
//! A node is anything that keeps the laws of [`Machine`](rsx_sources::Machine); what is proved here is proved of all kinds at
//! once, with any number of inputs.

pub mod edge;
pub mod fetch;
pub mod inputs;
pub mod look;
pub mod node;
mod published;
mod step;
mod swap;

pub use edge::{Edge, EdgeState};
pub use inputs::{Inputs, Pass};
pub use look::NodeMove;
pub use node::Node;
