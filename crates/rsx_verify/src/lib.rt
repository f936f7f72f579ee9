#![tactic(auto)]
//! Verifies an expression: runs of subscriptions to it, each on a fresh graph and recorded as a trace.
//!
//! - [`act`]: [`Act`], what a run does.
//! - [`recording`]: [`record`], the events of a run of one subscription, and [`process`], those of a run of two subscriptions to a
//!   hub that the expression feeds.
//! - [`runs`]: the four runs by which an expression is verified, and [`verify`], what they say of the rules.
//! - [`line`]: [`Line`], what the runs say of a rule, and [`print_lines`].
//! - [`refusal`]: [`VerifyRefusal`], why an expression isn't run.

pub mod act;
pub mod line;
mod note;
pub mod recording;
pub mod refusal;
mod reports;
pub mod runs;

pub use act::Act;
pub use line::{Line, print_lines};
pub use recording::{process, record};
pub use refusal::VerifyRefusal;
pub use runs::{bad_request_run, cancel_run, processor_run, publisher_run, verify};

/// The most moves of one pump of a run.
pub const BUDGET: u32 = 10_000;

/// How many items may wait at each reader of the hub of a processor.
pub const CAPACITY: u64 = 4;
