//! Tests of what threads share, where no contract says it: the gate, the link and the places, pokes of regions, and rests on parkers.
//!
//! Of the first two they test the answers of one thread's calls in a row, and two threads at one gate and three at one row of places.
//! The regions have no pieces, so nothing moves in them; `test_live` has workers over regions with pieces.
#![tactic(auto)]

#[cfg(test)]
mod answers;
#[cfg(test)]
mod ends;
#[cfg(test)]
mod places;
#[cfg(test)]
mod regions;
#[cfg(test)]
mod rests;
#[cfg(test)]
mod visits;
