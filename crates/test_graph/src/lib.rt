#![tactic(auto)]
//! Tests of scripts, of expressions, of traces and of command lines: what ends a run, reads and writes that fail, want of memory, and calls
//! that no row of `test_scripts` reaches. They stand in one crate, since what a crate of tests costs before its first test is that of many
//! tests.

#[cfg(test)]
mod command_lines;
#[cfg(test)]
mod delayed;
#[cfg(test)]
mod driven;
#[cfg(test)]
mod explained;
#[cfg(test)]
mod graphs;
#[cfg(test)]
mod many;
#[cfg(test)]
mod recorded;
#[cfg(test)]
mod scripts;
#[cfg(test)]
mod verified;
