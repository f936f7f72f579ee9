//! Graphs with each region served on a thread of its own, which stop at some moment.
//!
//! Of each seed, a graph is made with one or two subscriptions, and some moves are made before it goes live. The calling thread makes some
//! calls by chance, and then the workers are stopped and the graph is closed, whatever is still under way. In some of the runs it also
//! cancels or makes a bad request, and in some a thread of its own cancels. Which worker moves when is up to the system, and so is what had
//! come by then; what is compared isn't.

use crate::chance::Chance;
use crate::compared::compare;
use crate::driven::{Extra, begin, finish, parsed, start_with};
use crate::numbers::Numbers;
use crate::serving::{Requests, serve};
use anyhow::{Result, bail};
use rsx_demo::{Demo, Val};
use rsx_model::Expr;
use std::alloc::Global;
use std::sync::Wait;
use std::thread::Threads;
use std::time::Clock;

/// How many seeds are tried.
pub const SEEDS: u32 = 20;

/// A thread of its own cancels before so many microseconds have passed.
const LONGEST_WAIT: u32 = 1_500;

/// What was tried, in all runs.
#[derive(Clone, Copy, Debug)]
pub struct Tried {
    /// How many taps there were.
    pub taps: usize,
    /// At how many edges the graphs were cut.
    pub edges: usize,
}

/// Makes a run of an expression on so many threads for each seed.
///
/// # Errors
/// Where a comparison differs, where a join is refused, and where the text isn't an expression.
pub fn try_stopped<R: Threads + Wait + Sync + Clock>(
    rt: &R,
    alloc: Global,
    text: &str,
    workers: u8,
) -> Result<Tried> {
    let expr = parsed(alloc, text)?;
    let mut tried = Tried { taps: 0, edges: 0 };
    for seed in 1..=SEEDS {
        match try_once(rt, alloc, &expr, workers, seed) {
            Ok(run) => {
                tried.taps = tried.taps.saturating_add(run.taps);
                tried.edges = tried.edges.saturating_add(run.edges);
            }
            Err(why) => bail!("{text}: on {workers} threads, seed {seed}: {why}"),
        }
    }
    Ok(tried)
}

/// Makes one run, as this seed tells.
fn try_once<R: Threads + Wait + Sync + Clock>(
    rt: &R,
    alloc: Global,
    expr: &Expr<Val>,
    workers: u8,
    seed: u32,
) -> Result<Tried> {
    let mut numbers = Numbers::new(seed);
    let subs = numbers.below(2).saturating_add(1);
    let mut received = Vec::new(alloc);
    let graph = begin(alloc, Demo, expr, subs, &mut numbers, &mut received)?;
    let requests = requests_of(numbers, subs, seed);
    let started = start_with(alloc, graph, workers)?;
    let tried = Tried {
        taps: started.tapped(),
        edges: started.live.cuts(),
    };
    let (started, given) = serve(rt, alloc, started, requests)?;
    let Ok(mut graph) = started.close() else {
        bail!("a join is refused")
    };
    for delivery in given {
        received.push(delivery)?;
    }
    compare(alloc, &graph, expr, subs, &received, false)?;
    finish(alloc, &mut graph, subs, &mut received)?;
    compare(alloc, &graph, expr, subs, &received, true)?;
    Ok(tried)
}

/// What is requested with so many subscriptions, as this seed tells.
fn requests_of(mut numbers: Numbers, subs: u32, seed: u32) -> Requests {
    match seed % 5 {
        1 => Requests::ByChance(Chance::new(numbers, subs, Extra::Cancel)),
        2 => Requests::ByChance(Chance::new(numbers, subs, Extra::BadRequest)),
        3 => {
            let pause = numbers.below(LONGEST_WAIT);
            Requests::Beside(Chance::new(numbers, subs, Extra::Nothing), pause)
        }
        _ => Requests::ByChance(Chance::new(numbers, subs, Extra::Nothing)),
    }
}
