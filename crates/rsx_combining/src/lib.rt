#![tactic(auto)]
//! The nodes `zip` and `combineLatest`, which make one item of an item of each input.
//!
//! # zip
//!
//! The node that makes rows of the first items of several inputs, then of the second, and so on.
//!
//! [`ZipNode`] makes a row where an item of each input is there, and ends by a pick. What it gives is defined in `rsx_values`;
//! `specs/Zip` says what still comes out of it, and `specs/Laws` that it keeps the laws of a node.
//!
//! # combineLatest
//!
//! The node that makes rows of the latest items of several inputs.
//!
//! [`CombineLatestNode`] makes a row at each item that is picked, once every input has had one. What it gives is defined in
//! `rsx_values`; `specs/Latest` says what still comes out of it, and `specs/Laws` that it keeps the laws of a node.

mod copies;
mod given;
pub mod latest;
mod latest_items;
mod latest_rows;
mod row;
mod values;
pub mod zip;

pub use latest::{CombineLatestNode, PassingRows};
pub use zip::ZipNode;
