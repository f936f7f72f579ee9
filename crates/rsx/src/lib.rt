#![tactic(auto)]
//! Operators on reactive streams, proved: a builder of expressions, and the other names that a program needs.
//!
//! - Functions of the caller, as operators call them: [`Ops`], with [`Fault`] and [`NoMemory`].
//! - Expressions of operators: [`Expr`] and [`Stage`], with the limits; [`check_expr`] says what is wrong with one ([`BadExpr`]),
//!   and [`scratch`] evaluates one.
//! - A graph of hubs and subscriptions: [`Graph`], with its edits, moves and looks; [`Step`] and [`Answer`] for lists of
//!   edits and moves, and [`replay`], which makes such a list from nothing.
//! - What goes over an edge and what a subscriber got: [`Signal`], [`Ending`], [`Cause`], [`Deliveries`], [`StreamValue`].
//! - Names: of hubs ([`HubId`], [`HubKind`]), subscriptions ([`SubId`]), trees, nodes and moves ([`Tree`], [`NodeId`], [`Move`]).
//! - What nodes recorded: [`Note`] and [`Choices`].
//! - Why nothing comes: [`Wait`], [`FeedWait`] and [`HubWait`]; what the nodes of a tree do: [`Picture`], [`NodeLook`], [`EdgeLook`], [`Offer`] and [`Recorded`].
//! - Refusals: [`Refusal`], and [`NotEmitted`], which hands an item back.
//! - Laws, each as the contract of a function that does nothing: [`headline`], [`idle_means_delivered`] and [`read_all`].
//!
//! These names stand in the crates whose pages describe them: `rsx_types`, `rsx_model` and `rsx_graph`. A program whose proofs speak of
//! graphs names those crates beside this one.
//!
//! # The builder of expressions
//!
//! Operators stand one behind the other, as in Reactor.
//!
//! - [`Flow`] has the allocator, and begins an expression: items, a range, a hub, or several expressions ([`Inputs`]) as one.
//! - [`Flux`] is an expression that is being built; each operator is a method, and [`Flux::build`] gives the expression.
//! - [`Stages`] is a chain of plain operators, for each lane of a `groupBy`, a `window` or a `flatMap`.
//! - [`MapFn`], [`TestFn`], [`FoldFn`], [`KeyFn`] and [`ExpandFn`] name functions of the caller, so that none is taken for another;
//!   [`Prefetch`], [`Worker`] and [`Concurrency`] do so for numbers.
//!
//! A growth that is refused ends nothing: the builder keeps that, and what is built of it is refused at [`Flux::build`]. So one `?`
//! stands behind a whole expression. Whether the expression keeps the limits is judged where it is subscribed to.
//!
//! The definitions that its contracts cite stand in `specs/`: `Flow` (an operator over what it stands over) and `Built` (what was built).

mod flow;
mod flux;
mod inputs;
mod names;
mod stages;

pub use flow::Flow;
pub use flux::Flux;
pub use inputs::Inputs;
pub use names::{Concurrency, ExpandFn, FoldFn, KeyFn, MapFn, Prefetch, TestFn, Worker};
pub use rsx_graph::{
    Answer, Deliveries, EdgeLook, FeedWait, Graph, HubWait, MOST_AT_ONCE, MOST_HUBS,
    MOST_SUBSCRIPTIONS, NodeLook, NotEmitted, Offer, Picture, Pumped, Recorded, Refusal, Step,
    SubscriptionState, Wait, headline, idle_means_delivered, read_all, replay,
};
pub use rsx_model::{
    BadExpr, Expr, MOST_CONCURRENCY, MOST_COUNT, MOST_DEPTH, MOST_INPUTS, MOST_NODES,
    MOST_PREFETCH, MOST_STAGES, MOST_WINDOW, MOST_WORKER, ScratchRefusal, check_expr, scratch,
};
pub use rsx_types::{
    CAPACITY, Cause, Choices, Ending, Fault, HubId, HubKind, MOST_ITEMS, Move, NoMemory, NodeId,
    Note, Ops, Signal, Stage, StreamValue, SubId, Tree,
};
pub use stages::Stages;
