#![tactic(auto)]
//! Expressions: which of them are refused, what they mean, and the slow evaluator, which computes that.
//!
//! # Expressions
//!
//! Expressions, which of them are refused, and what they mean.
//!
//! An expression is a tree of operators over lists, ranges and hubs. Its nodes are counted from 0 in pre-order, and what
//! a node recorded stands in a list of notes at its number. The definitions that contracts cite stand in `specs/`:
//! `Shape` (nodes, depth, leaves), `Check` (which expressions are refused, and why) and `Eval` (the value of an expression; the
//! slow evaluator `scratch` of `rsx_model` has it as its contract). `proofs/Unfold` has each definition one level down, and
//! the induction by the children; `proofs/Inputs` has the steps of a loop over the inputs.
//!
//! # The slow evaluator
//!
//! The slow evaluator, whose contract is the meaning of expressions.
//!
//! It finds the value of an expression from scratch, over the hubs' values and what the nodes recorded. What that value is
//! says `Eval` in the `specs/` of `rsx_model`. The definitions of its own stand in `specs/`: `Kinds` (what the nodes of an
//! expression record), `Answer` (what the evaluator answers) and `Laws` (what `scan`, `buffer` and `distinct` give, in the
//! words of lists; and that no expression fails with a bad request where no hub does).
//!
//! # Operators over whole stream values
//!
//! The evaluators that no node shares: the plain operators, `concat`, `publishOnEager`, `window`, `flatMap` and `groupBy`.
//!
//! Each calls the caller's functions in the order of the items. The definitions that their contracts cite stand in
//! `rsx_types` and `rsx_values`, where `merge`, `zip` and `combineLatest` are computed too; `proofs/Steps` has one item of
//! each loop over a value, and `Worked` of `specs/` cases worked by hand.
//!
//! Several streams are made of one by `window`, `flatMap` and `groupBy`. Each of these streams is a lane: it goes through a
//! chain of plain operators, and what comes out of the lanes is put together again. Beside them stands Main, which has no
//! items and the ending of the input. A `window` has one lane behind the other, and Main behind them; `flatMap` and `groupBy`
//! take their lanes' signals in an order of their own, which is recorded, and evaluated here under that record.

mod check;
mod evaluate;
mod expr;
pub mod joining_law;
mod kinds;
mod lanes;
pub mod lanes_law;
mod law;
mod operators;
pub mod region;
mod several;

pub use check::{
    BadExpr, MOST_CONCURRENCY, MOST_COUNT, MOST_DEPTH, MOST_INPUTS, MOST_NODES, MOST_PREFETCH,
    MOST_STAGES, MOST_WINDOW, MOST_WORKER, check_expr, leaves_of, nodes_of, refusal_of,
};
pub use evaluate::{ScratchRefusal, scratch};
pub use expr::{Below, Expr, below_of};
pub use law::{
    buffer_cuts, distinct_keeps_first, never_a_bad_request, scan_folds, value_until_stop,
};
pub use region::region_of;
pub use rsx_types::{Choices, Note, Stage, StreamValue};
