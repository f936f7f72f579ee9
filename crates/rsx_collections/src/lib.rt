#![tactic(auto)]
//! Lists that operators keep, each of which takes back what was put in or taken last.
//!
//! # Keys and items
//!
//! What plain operators gather: the keys that `distinct` has seen, and the items of the list that `buffer` hasn't put out yet.
//!
//! Both take back what was put into them last, for an operator that has to undo an answer.
//!
//! # Signals that wait
//!
//! The signals that an operator with lanes has put out, and that wait until it is their turn.
//!
//! One signal of the input may bring several signals of the output: a window's chain begins with the seeds of its `scan`
//! operators, and `flatMap` expands an item to a list. They wait in [`PendingSignals`]. Once that is made no call takes memory:
//! a signal that was taken can always be put back.

pub mod buffered;
pub mod copied;
pub mod keys;
pub mod signals;

pub use buffered::Buffered;
pub use copied::Copied;
pub use keys::Keys;
pub use signals::{InFront, PendingSignals};
