#![tactic(auto)]
//! The words that every crate of the library speaks: signals and stream values, names, moves, the caller's functions,
//! plain operators, and the records of choices.
//!
//! The definitions that contracts cite stand in `specs/`: `Stream` (stream values and what stands in front of them),
//! `Meaning` (what the caller's functions mean), `Plain` (the plain operators over whole stream values) and `Notes`
//! (recorded choices, and more choices after them).
//!
//! # Small facts
//!
//! What the proofs of several crates need of booleans, numbers, lists and options, and std does not state, stands in `proofs/`:
//! `Booleans`, `Numbers`, `Lists`, `Options` and `Places`. None of it speaks of a type of this library.

pub mod fault;
pub mod limits;
pub mod names;
pub mod note;
pub mod ops;
pub mod signal;
pub mod stage;
pub mod value;

pub use fault::{Fault, NoMemory};
pub use limits::{CAPACITY, MOST_ITEMS};
pub use names::{HubId, HubKind, Move, NodeId, SubId, Tree};
pub use note::{Choices, Note};
pub use ops::Ops;
pub use signal::{Cause, Ending, Signal};
pub use stage::Stage;
pub use value::StreamValue;
