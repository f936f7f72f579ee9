#![tactic(auto)]
//! What nodes and the slow evaluator share of operators over whole stream values: the definitions of those with several inputs
//! and with lanes, choices as runs, and what computes a pick. They know nothing of nodes, queues and demand.
//!
//! # Choices and merge
//!
//! Several inputs as whole stream values, and the choices among them.
//!
//! A node that takes its inputs' signals in an order of its own records which input it took each from. [`Record`] keeps
//! these choices as runs. [`pick`] takes the signals of whole stream values in a recorded order, and [`merge`] is what a
//! `merge` of them gives: it evaluates from scratch. [`merge_delay`] is `mergeDelayError`, a merge in which a failure ends its
//! input alone and goes out behind all others; its definition is in `specs/Delayed`.
//!
//! # zip and combineLatest
//!
//! Stream values joined into one: `zip` and `combineLatest` over whole values, as the slow evaluator applies them.
//!
//! The definitions stand in `specs/Zip` and `specs/Latest`.
//!
//! # Definitions alone
//!
//! Of `concat`, `publishOnEager`, `window`, `flatMap` and `groupBy` the definitions stand here, in `specs/`: `Concat`, `Eager`,
//! `Lanes`, `Window`, `Flat` and `Group`, with lemmas that their nodes cite. The slow evaluator computes them, in `rsx_model`.
//! `specs/WorkedDelayed` and `specs/WorkedLanes` have cases worked by hand; functions above have them as their contracts.

pub mod delaying;
pub mod latest;
pub mod limits;
pub mod merging;
pub mod picking;
pub mod record;
pub mod rows;

pub use delaying::{ending_behind, first_cause, merge_delay, merge_delay_inputs};
pub use latest::Latest;
pub use limits::{MAIN, MOST_KEYS, TOO_MANY_KEYS};
pub use merging::{merge, merge_inputs};
pub use picking::{Input, pick};
pub use record::{Record, Run};
pub use rows::Zip;
