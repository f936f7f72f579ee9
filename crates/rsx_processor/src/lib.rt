#![tactic(auto)]
//! Operators of a caller's own as nodes of a graph, and nodes that are of one of two kinds, for graphs in which kinds of nodes
//! stand that this library doesn't have.
//!
//! - [`processor`]: [`Processor`], what an operator with one input does with each item.
//! - [`node`]: [`ProcessorNode`], such an operator with its out slot, as a node of a tree.
//! - [`either`]: [`EitherNode`], a node of one of two kinds, as a node of a tree.
//! - [`trees`]: [`left`], a tree of nodes of the first kind as one of such nodes.
//!
//! A [`ProcessorNode`] is one of a graph's [`Nodes`](rsx_rooted::Nodes), and so is an [`EitherNode`], where both kinds are. The
//! definitions stand in `specs/`: `Node` (what still comes out of an operator with its out slot), `Laws` (the laws that it keeps),
//! `Either` (what a node of one of two kinds means) and `Trees` (what a tree of such nodes is).

mod batches;
pub mod either;
mod either_nodes;
pub mod node;
mod nodes;
pub mod processor;
pub mod trees;

pub use either::EitherNode;
pub use node::ProcessorNode;
pub use processor::Processor;
pub use trees::left;
