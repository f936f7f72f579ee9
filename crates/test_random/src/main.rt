#![tactic(auto)]
//! Makes moves and calls at random over small trees of all operators, and compares after each of them: what a subscriber
//! received, with what it is still owed behind it, is the value of its expression, evaluated from scratch over what the hubs
//! published, under what its nodes recorded. What a subscriber that cancelled received is the beginning of that value.
//!
//! It writes a line for each kind of tree, with how many trees there were, how many moves were made, how many signals were
//! received, and how many comparisons were equal, one for each subscriber after each move and each call. The numbers come from
//! fixed seeds, so the lines are the same in every run. The first comparison that differs ends it with status 1 and a line
//! that names the kind of tree, the seed and the step.
//!
//! Before that it writes what calls of a graph come to that are made again where memory is refused for them; with a word as its
//! argument, this alone. Then it drives graphs behind a gate ([`serialized`]), and writes two lines of counts. Then threads work on such
//! graphs, and it writes a line for each kind of work ([`threaded`]); with the word `threads` as its argument, these alone. Last it writes
//! how many items come of some cases that `bench/graph.sh` times, and their sum; with five words it times such a case and does nothing
//! else ([`timed`]).

mod beside;
mod cases;
mod driven;
mod ends;
mod gated;
mod integers;
mod memory;
mod numbers;
mod plans;
mod returned;
mod serialized;
mod threaded;
mod timed;
mod trees;
mod trial;
mod work;

use crate::memory::report;
use crate::numbers::Numbers;
use crate::serialized::{When, try_runs};
use crate::threaded::{GRAPHS, try_bad_requests, try_cancellers, try_numbers, try_threads};
use crate::timed::{summed, time};
use crate::trees::{KINDS, Kind, tree};
use crate::trial::{Tally, Trial};
use anyhow::{Result, bail};
use std::alloc::Global;
use std::env;
use std::thread::Threads;

/// How many trees are made of each kind.
const TREES: u32 = 100;

/// How many steps are tried with each tree.
const STEPS: u32 = 4_000;

/// The timed cases that are summed: the items, and the case. What they come to is known without a graph.
const CASES: [(&'static str, &'static str); 7] = [
    ("numbers", "filter"),
    ("numbers", "half"),
    ("numbers", "concat"),
    ("values", "filter"),
    ("values", "buffer"),
    ("values", "fan8"),
    ("numbers", "serial8"),
];

/// Tries the steps of this seed over a tree of this kind, and counts them. Answers the step after which a comparison differs,
/// if any does.
fn try_seed(alloc: Global, kind: Kind, seed: u32, tally: &mut Tally) -> Result<Option<u32>> {
    let mut numbers = Numbers::new(seed);
    let expr = tree(alloc, &mut numbers, kind)?;
    let has_lanes = matches!(kind, Kind::Laned(_));
    let mut trial = Trial::new(alloc, expr, has_lanes)?;
    for step in 0..STEPS {
        if !trial.advance(alloc, &mut numbers)? {
            return Ok(Some(step));
        }
    }
    trial.add_to(tally);
    Ok(None)
}

/// Tries all seeds over trees of this kind, and counts what was done.
fn try_kind(alloc: Global, name: &str, kind: Kind) -> Result<Tally> {
    let mut tally = Tally {
        moves: 0,
        received: 0,
        equal: 0,
    };
    for seed in 1..=TREES {
        if let Some(step) = try_seed(alloc, kind, seed, &mut tally)? {
            bail!("{name}: seed {seed}, step {step}: a comparison differs");
        }
    }
    Ok(tally)
}

/// Writes how many items come of some timed cases, and their sum.
fn sum_cases(rt: &(impl Print + AllocGlobal)) -> Result<()> {
    for (items, case) in &CASES {
        let sum = summed(rt.alloc(), items, case, 1_000, 64)?;
        println!(rt; "{items}, {case}: {} items, sum {}", sum.items, sum.sum)?;
    }
    Ok(())
}

/// Does all but the timing.
fn try_all<R: Print + AllocGlobal + Threads + Sync>(rt: &R) -> Result<()> {
    println!(rt; "{}", report(rt.alloc())?)?;
    for (name, kind) in &KINDS {
        let tally = try_kind(rt.alloc(), name, *kind)?;
        println!(rt;
            "{name}: {TREES} trees, {} moves, {} signals received, {} comparisons equal",
            tally.moves, tally.received, tally.equal
        )?;
    }
    for (name, when) in [
        ("graphs behind a gate", When::First),
        ("graphs that are subscribed to behind a gate", When::Later),
    ] {
        let done = try_runs(rt.alloc(), when)?;
        println!(rt;
            "{name}: {} runs, {} signals sent by {} emitters, {} of {} signals given by {} taps, equal",
            done.runs, done.sent, done.emitters, done.given, done.received, done.taps
        )?;
    }
    try_on_threads(rt)?;
    sum_cases(rt)
}

/// Has threads work on graphs behind a gate, and writes a line for each kind of work.
fn try_on_threads<R: Print + AllocGlobal + Threads + Sync>(rt: &R) -> Result<()> {
    let received = try_numbers(rt, rt.alloc())?;
    println!(rt; "a graph that four threads poke: {received} signals received, equal")?;
    try_cancellers(rt, rt.alloc())?;
    println!(rt; "{GRAPHS} graphs that four threads cancel: each cancelled, equal")?;
    try_bad_requests(rt, rt.alloc())?;
    println!(rt; "{GRAPHS} graphs with two bad requests: one error each, equal")?;
    for threads in [2, 4, 8] {
        try_threads(rt, rt.alloc(), threads)?;
        println!(rt; "{GRAPHS} graphs that {threads} threads poke: equal")?;
    }
    Ok(())
}

/// The number of an argument, or this one where it is left out.
fn number(word: Option<String>, otherwise: u64) -> u64 {
    match word {
        Some(word) => word.as_str().parse::<u64>().unwrap_or(otherwise),
        None => otherwise,
    }
}

fn main(rt: HostRuntime) -> Result<()> {
    let mut words = env::args(&rt)?.skip(1);
    match (words.next(), words.next()) {
        (Some(items), Some(case)) => {
            let count = number(words.next(), 100_000);
            let budget = number(words.next(), 65_536).min(u64::from(u32::MAX)) as u32;
            let rounds = number(words.next(), 1);
            time(&rt, items.as_str(), case.as_str(), count, budget, rounds)
        }
        (Some(word), None) => match word.as_str() {
            "threads" => try_on_threads(&rt),
            _ => {
                println!(rt; "{}", report(rt.alloc())?)?;
                Ok(())
            }
        },
        (None, _) => try_all(&rt),
    }
}
