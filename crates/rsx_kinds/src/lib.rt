#![tactic(auto)]
//! The kinds of nodes as one, and the tree of an expression. This is the one crate that names all nodes.
//!
//! # Nodes of several inputs
//!
//! The nodes of several inputs as one.
//!
//! [`SeveralNode`] is a concat, a merge, a merge that delays failures, a zip or a combineLatest. Each of its calls is that of its kind, and
//! [`SeveralNode::new`] makes one of any [`SeveralKind`].
//!
//! The definitions stand in `specs/`: `Kind` (what each kind gives of what comes in), `Several` (what a node of any kind means),
//! and `Laws` (the laws that it keeps).
//!
//! # Nodes of any kind
//!
//! The nodes of all kinds as one.
//!
//! - [`any_node`]: [`AnyNode`], a node of any kind. Each of its calls is that of its kind.
//! - [`source_node`]: [`SourceNode`], a source of any kind: a list of items, a range, or a node that reads a hub.
//!
//! The definitions stand in `specs/`: `Any` (what a node of any kind means), `Laws` (the laws that it keeps), `Source` and
//! `SourceLaws` (the same of a source). The tree of an expression is made in `rsx_kinds`.
//!
//! # A node behind a pointer
//!
//! A node of a tree, kept behind a pointer.
//!
//! A tree moves its nodes as a whole where inputs are added, and a node of any kind is as large as the largest kind. Behind a
//! pointer it is one word, and it is the same node: each call of [`Boxed`] is that of the node inside.
//!
//! # The tree of an expression
//!
//! The tree of an expression.
//!
//! [`build`] makes the nodes of an expression, each over those of its inputs. The definitions stand in `specs/`: `Built` has
//! what a tree is that has just begun, `Crossings` which of its edges have a queue, `Operators` which operator a node is, `Queues`
//! how many signals wait in a node's queues, and `Routes` how an edge joins its two ends. The nodes of a tree are a graph's [`Nodes`](rsx_rooted::Nodes); `Rests` and `Room`
//! have the laws that this asks for.

pub mod any_node;
mod batches;
mod boxed;
mod crossing_nodes;
pub mod kind;
mod nodes;
mod operators;
mod queues;
pub mod several_node;
pub mod source_node;
mod trees;
mod zip_rows;

pub use any_node::AnyNode;
pub use boxed::Boxed;
pub use kind::SeveralKind;
use rsx_queued::Sender;
pub use several_node::SeveralNode;
pub use source_node::SourceNode;
pub use trees::{build, build_for};

/// A node of a tree, with the queue of its edge where that crosses to another region. It stands behind a pointer: a tree of
/// nodes is moved as a whole where inputs are added to it, and a node of any kind is as large as the largest kind.
pub type TreeNode<T> = Boxed<Sender<AnyNode<T>, T>>;
