//! Operators over whole stream values: what the slow evaluator applies, and no node does.
//!
//! Each computes its definition in `specs/` of `rsx_types` and `rsx_values`. Those with a pick stand in `rsx_values`, beside
//! the records that nodes share with them.

pub(crate) mod concatenation;
pub(crate) mod eager;
pub(crate) mod flat;
pub(crate) mod group;
mod lanes;
pub(crate) mod plain;
pub(crate) mod windowing;
