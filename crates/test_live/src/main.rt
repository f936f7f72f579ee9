#![tactic(auto)]
//! Graphs go live, with each of their regions served on a thread of its own, and come back.
//!
//! Of each expression a graph is made twice that goes live at once, until all its subscriptions have ended. Then, for each seed, a graph
//! is made with one or two subscriptions, and some moves are made before it goes live: its trees are cut at their edges that cross, and
//! the pieces are put into the regions of workers. The calling thread makes calls by chance: it takes, requests and, in some runs, cancels
//! or makes a bad request. It stops at some moment, and closes the graph. What each subscriber received before, while it was live and
//! after, with what the graph still owes, has to be the value of the expression, evaluated from scratch under what the nodes recorded:
//! right after the close, and at the end. What one received that cancelled or made a bad request has to be the beginning of that value.
//!
//! It writes a line for each expression: in how many random runs how many taps there were, and at how many edges they were cut. What came
//! by the close is up to the system, and isn't written. Further expressions do so with fewer workers and with more. The first comparison
//! that differs, and the first join that is refused, end the program with status 1.
//!
//! Before its runs one thread drives a graph of each expression by what its pokes answer: it pokes only the regions that a poke named. The
//! first line says which regions two pokes of one more graph name.
//!
//! `test_live WAY COUNT` does none of that: it sends so many numbers through a graph, and prints how many items came and their sum, and no
//! time, so that `bench/live.sh` counts its instructions. WAY is `queue`, where the graph is pumped, or `link`, where it is live.

mod beside;
mod chance;
mod compared;
mod driven;
mod numbers;
mod roused;
mod serving;
mod stopped;
mod threaded;
mod timed;

use crate::driven::WORKERS;
use crate::roused::{MERGE, poke_merge, try_roused};
use crate::serving::Requests;
use crate::stopped::{SEEDS, Tried, try_stopped};
use crate::threaded::try_on_threads;
use crate::timed::{lived, pumped};
use anyhow::Result;
use std::env;
use std::sync::Wait;
use std::thread::Threads;
use std::time::Clock;

/// The expressions. Each has an edge that crosses. The last nine choose between what they have to put out.
const EXPRESSIONS: [&'static str; 22] = [
    "(publishOn 1 2 (range 1 6))",
    "(publishOn 0 2 (publishOn 1 2 (range 1 9)))",
    "(publishOn 1 3 (map double (publishOn 2 2 (filter even (range 1 9)))))",
    "(zip 2 (publishOn 1 2 (range 1 6)) (publishOn 2 1 (items 7 8 9)))",
    "(concat (publishOn 1 2 (items 7 8)) (publishOn 2 2 (range 1 5)))",
    "(groupBy mod3 ((scan add 0)) (publishOn 1 2 (range 1 9)))",
    "(window 2 ((scan add 0)) (publishOn 1 2 (range 1 7)))",
    "(take 3 (publishOn 1 4 (range 1 9)))",
    "(publishOn 1 2 (take 3 (publishOn 2 4 (range 1 20))))",
    "(publishOn 1 2 (publishOn 2 2 (publishOn 3 2 (publishOn 4 2 (range 1 9)))))",
    "(zip 2 (publishOn 1 2 (publishOn 2 2 (range 1 6))) (concat (publishOn 2 1 (publishOn 1 2 (items 7 8))) (publishOn 1 2 (range 1 5))))",
    "(publishOn 1 2 (map inc (publishOn 2 2 (items 1 9223372036854775807 3))))",
    "(publishOn 1 4 (take 5 (publishOn 2 2 (items 3))))",
    "(merge 2 (publishOn 1 2 (range 1 6)) (publishOn 2 2 (items 7 8 9)))",
    "(merge 2 (publishOn 1 2 (map inc (items 5 9223372036854775807 6))) (publishOn 2 2 (range 1 9)))",
    "(mergeDelayError 2 (publishOn 1 2 (map inc (items 5 9223372036854775807 6))) (publishOn 2 2 (range 1 9)))",
    "(combineLatest 2 (publishOn 1 2 (range 1 5)) (publishOn 2 1 (items 7 8 9)))",
    "(flatMap upto 2 ((map double)) (publishOn 1 2 (range 1 4)))",
    "(publishOn 2 2 (flatMap upto 1 () (publishOn 1 1 (range 1 4))))",
    "(publishOn 1 2 (groupBy mod3 ((map inc)) (publishOn 2 3 (range 1 9))))",
    "(groupBy mod3 ((scan add 0)) (merge 2 (publishOn 1 2 (range 1 9)) (publishOn 2 2 (items 4 5 6))))",
    "(publishOnEager 1 4 (map inc (publishOn 2 4 (items 1 2 3 9223372036854775807 4))))",
];

/// Expressions with so many regions, each of which a worker of its own serves.
const BY_WORKERS: [(u8, &'static str); 3] = [
    (2, "(publishOn 1 2 (range 1 12))"),
    (
        4,
        "(publishOn 1 2 (publishOn 2 1 (publishOn 3 3 (range 1 12))))",
    ),
    (
        8,
        "(publishOn 1 2 (publishOn 2 1 (publishOn 3 2 (publishOn 4 3 (publishOn 5 2 (publishOn 6 1 (publishOn 7 2 (range 1 12))))))))",
    ),
];

/// Tries all expressions, with items requested in two ways and then by chance, and writes a line for each.
fn try_all<R: Print + AllocGlobal + Threads + Wait + Sync + Clock>(rt: &R) -> Result<()> {
    let (first, second) = poke_merge(rt.alloc())?;
    println!(rt; "{MERGE}: a poke of region 1 names {first}, and one of region 0 then {second}")?;
    for text in &EXPRESSIONS {
        try_roused(rt.alloc(), text, WORKERS)?;
        let by_one_and_two = Requests::InTurns([(0, 1), (1, 2)]);
        try_on_threads(rt, rt.alloc(), text, by_one_and_two)?;
        let by_five_and_three = Requests::InTurns([(1, 5), (0, 3)]);
        try_on_threads(rt, rt.alloc(), text, by_five_and_three)?;
        let Tried { taps, edges } = try_stopped(rt, rt.alloc(), text, WORKERS)?;
        println!(rt;
            "{text}: twice on threads, and {SEEDS} random runs, cut at {edges} edges, with {taps} taps, equal"
        )?;
    }
    for (workers, text) in BY_WORKERS {
        try_roused(rt.alloc(), text, workers)?;
        let Tried { taps, edges } = try_stopped(rt, rt.alloc(), text, workers)?;
        println!(rt;
            "{text}: {SEEDS} random runs on {workers} threads, cut at {edges} edges, with {taps} taps, equal"
        )?;
    }
    Ok(())
}

/// Sends so many numbers through a graph that is pumped, or that is live.
fn time(rt: &(impl Print + AllocGlobal), way: &str, count: &str) -> Result<()> {
    let count = count.parse::<u64>().unwrap_or(0);
    let sum = match way {
        "queue" => pumped(rt.alloc(), count)?,
        _ => lived(rt.alloc(), count)?,
    };
    println!(rt; "{} items, sum {}", sum.items, sum.sum)?;
    Ok(())
}

fn main(rt: HostRuntime) -> Result<()> {
    let mut words = env::args(&rt)?.skip(1);
    match (words.next(), words.next()) {
        (Some(way), Some(count)) => time(&rt, way.as_str(), count.as_str()),
        _ => try_all(&rt),
    }
}
