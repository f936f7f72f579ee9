#![tactic(auto)]
//! Items and functions for demonstrations: what scripts and tests run the library with.
//!
//! An item is a number of type `i64` or a list of items (`Val`). `Demo` has a fixed choice of functions, each with a
//! number and a name; `specs/Demo.antt` says what each of them answers.

pub mod demo;
pub mod names;
pub mod val;

pub use demo::Demo;
pub use names::{Role, function_number};
pub use val::{Val, Vals, copy_items, copy_val, is_same_val};
