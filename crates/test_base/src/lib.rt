#![tactic(auto)]
//! Tests of what stands below a tree, as a caller meets it. They stand in one crate, since what a crate of tests costs before its first
//! test is that of many tests. What contracts promise isn't repeated here; nodes, chains, hubs and queues are exercised by the scripts of
//! `test_scripts` and by the trees that `test_random` draws.
//!
//! - The slow evaluator over the demonstration's items: worked values, choices and refusals. `proofs/Examples` has the definitions at
//!   small expressions.
//! - The texts of what callers get back, and the example of a rule table.
//! - Traces as text and the judge: each kind of line, texts that are no traces, and peers that break a rule.

#[cfg(test)]
mod evaluator;
#[cfg(test)]
mod peers;
#[cfg(test)]
mod refusals;
#[cfg(test)]
mod texts;
#[cfg(test)]
mod words;
