#![tactic(auto)]
//! The plain operators `map`, `filter`, `take`, `scan`, `buffer` and `distinct`: each by itself, in chains, and as nodes of
//! a tree.
//!
//! # Operators
//!
//! The plain operators `map`, `filter`, `take`, `scan`, `buffer` and `distinct`, apart from nodes and chains.
//!
//! [`PlainState`] is the state of one operator, and [`Operator`] what it does with the signals of its input. It answers each
//! signal with at most two signals (rule 1.1: what it may send is what was asked of it), and puts nothing behind a completion
//! or a failure (rule 1.7).
//!
//! For a chain of operators it answers in two steps, like a transaction: [`Preparing::prepare`] computes the answer, and once
//! the operators behind it have taken that, [`PlainState::commit`] goes on; where they refused it, [`PlainState::roll_back`]
//! goes back.
//!
//! Each operator has a file: `map.rt`, `filter.rt`, `take.rt`, `scan.rt`, `buffer.rt` and `distinct.rt`. It has what the
//! operator does with an item (`react`), how many items it wants (`want`), and what it answers in a chain (a trait of its own). What is
//! the same for all, by one line each, stands in `state.rt`, `prepare.rt` and `rest.rt`; items go one after the other through an
//! operator in `batch.rt` ([`PassingAll`]).
//!
//! # Nodes
//!
//! The plain operators as nodes of a tree: `map`, `filter`, `take`, `scan`, `buffer` and `distinct`, with one input each.
//!
//! [`PlainNode`] is an operator of `rsx_plain` with its out slot.
//!
//! # Chains
//!
//! Chains of plain operators: operators one behind another, each of whose output is the input of the next.
//!
//! [`ChainState`] is for an operator that gives each of its lanes a chain of its own. It has no out slot, no edge and no demand
//! inside: a signal that goes in is answered at once, by at most two signals.
//!
//! - [`Chaining::new`] makes a chain. What the operators give for a whole stream value, one after the other, is what comes
//!   out at the start, and then what the chain gives for that value.
//! - [`Chaining::react`] takes one signal, and [`Chaining::take`] an item and the ending behind it. What came out of the chain
//!   before is the answer, and then what comes out of it now.
//! - [`Chaining::rest`] computes what still comes out.
//! - [`copy_stages`] copies operators, for a node that makes chains of them.
//!
//! For want of memory a signal comes back, and the whole chain is as it was, though the operators in front may have answered
//! before the one that found no memory. So an operator answers in two steps, `prepare` and then `commit` or `roll_back` of
//! `rsx_plain`: it goes on, which can't fail, once the operators behind it have taken its answer, and goes back where they
//! refused it. No operator is copied for that.
//!
//! The definitions stand in `specs/`: `Chain` (what comes out of a chain) and `Emissions` (what goes from one operator to the
//! next at once). A chain over whole stream values is `chained` of `rsx_types`.

pub mod batch;
mod buffer;
pub mod chain;
mod distinct;
mod emission;
mod filter;
mod map;
pub mod node;
pub mod operator;
mod pass;
mod prepare;
pub mod prepared;
mod rest;
mod scan;
pub mod state;
mod take;

pub use batch::PassingAll;
pub use chain::{ChainState, Chaining, NewChain};
pub use node::PlainNode;
pub use operator::Operator;
pub use prepare::Preparing;
pub use prepared::{Emission, Pending, Prepared};
pub use state::{PlainState, Starting, copy_stages};
