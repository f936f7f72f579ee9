#![tactic(auto)]
//! An operator that the library doesn't have: [`Skip`], all items but the first ones.

pub mod skip;

pub use skip::Skip;
