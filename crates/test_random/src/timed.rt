//! Times graphs, without a script. With five words the program does this alone: ITEMS CASE COUNT BUDGET ROUNDS.
//!
//! It pumps an expression over the numbers from 1 to COUNT to its end, with so much of a budget in each call, and does so ROUNDS times.
//! Where COUNT is more than a million, it pumps an expression over the numbers from 1 on for each million of them, one after the other.
//! ITEMS is `numbers` (64-bit integers) or `values` (the items of the demonstration). CASE is `range`; `map` (doubles); `filter` (the
//! even ones of the doubled); `half` (the doubled of the even ones); `single` (as `filter`, each item asked for and pumped by itself);
//! `buffer` (lists of 10); `scan` (as many as there are of the totals); `keys3` and `keys` (distinct, with three keys and with a key for
//! each number); `concat`, `merge`, `zip` and `latest` (of two ranges, each to a half of COUNT, with a prefetch of 64); `publish` (a
//! `publishOn` with a prefetch of 64); `window` (of 10), `group` (a `groupBy` with three keys), of integers `groups` (one with 1,000 keys)
//! and, of the items of the demonstration, `flat` (a `flatMap` of each number twice, four lanes at a time), each with an empty chain;
//! `fan1`, `fan8` and `fan64` (the numbers published to a hub, 64 before each pump, with so many readers that have asked for all);
//! `fanmap` (as `fan1`, and the reader doubles each); `beside` (as `fan1`, beside 255 subscriptions of ranges, of which nothing is
//! asked); `among` (as `single`, among 255 of these); `fed` (`map` feeds a hub with one reader, for each million of the numbers a hub)
//! and `fedbeside` (the same beside 255 of these); `serial1` and `serial8` (a hub behind a gate, with so many readers,
//! [`crate::gated`]); `serialidle` (as `serial1`, beside 32 subscriptions of ranges, of which nothing is asked).
//!
//! How many items came and their sum go to standard output, which is the same in every run, and the least time to standard error.

use crate::cases::{expression, reading};
use crate::gated::serve;
use crate::integers::Integers;
use anyhow::{Result, bail};
use rsx_demo::{Demo, Val};
use rsx_graph::{Deliveries, Graph, Pumped};
use rsx_model::Expr;
use rsx_types::{HubKind, Ops, Signal, SubId};
use std::alloc::Global;
use std::rt::Clock;
use std::time::Instant;

/// The longest range of an expression.
const LONGEST: u64 = 1_000_000;

/// How many items are published before each pump.
const BATCH: u64 = 64;

/// What an item adds to the sum.
pub trait Weight {
    /// So much.
    fn weight(&self) -> i64;
}

impl Weight for Val {
    fn weight(&self) -> i64 {
        match self {
            Val::Int(n) => *n,
            Val::List(items) => i64::try_from(items.len()).unwrap_or(0),
        }
    }
}

impl Weight for i64 {
    fn weight(&self) -> i64 {
        *self
    }
}

/// What was delivered.
#[derive(Clone, Copy, Debug)]
pub struct Sum {
    /// How many items.
    pub items: u64,
    /// What they come to.
    pub sum: i64,
}

impl Sum {
    /// Takes in what was delivered.
    fn add<T: Weight + Drop>(&mut self, deliveries: &Deliveries<T>) {
        for (_, signal) in deliveries.as_slice() {
            if let Signal::Next(item) = signal {
                self.add_item(item);
            }
        }
    }

    /// Takes in an item.
    pub fn add_item<T: Weight>(&mut self, item: &T) {
        self.items = self.items.wrapping_add(1);
        self.sum = self.sum.wrapping_add(item.weight());
    }
}

/// Subscribes to a case: to its expression, or to a hub that this feeds.
fn subscribed<O: Ops>(
    alloc: Global,
    ops: &O,
    graph: &mut Graph<O>,
    case: &str,
    count: u64,
) -> Result<SubId> {
    let mut expr = expression(alloc, ops, case, count)?;
    if case == "fed" || case == "fedbeside" {
        expr = Expr::Hub(graph.feed_hub(alloc, HubKind::Multicast, BATCH, &expr)?);
    }
    match graph.subscribe(alloc, &expr) {
        Ok(sub) => Ok(sub),
        Err(_) => bail!("refused"),
    }
}

/// Pumps until the graph is idle. The list of deliveries is used again by each call.
fn pump<O: Ops>(
    alloc: Global,
    graph: &mut Graph<O>,
    budget: u32,
    out: &mut Deliveries<O::Item>,
    sum: &mut Sum,
)
where
    O::Item: Weight,
{
    for _ in 0..u64::MAX {
        let pumped = graph.pump(alloc, budget, out);
        sum.add(out);
        out.clear();
        match pumped {
            Ok(Pumped::Budget) => {}
            _ => break,
        }
    }
}

/// How many subscriptions are idle throughout this case: nothing is asked of them.
fn idle_in(case: &str) -> u32 {
    match case {
        "beside" | "among" | "fedbeside" => 255,
        "serialidle" => 32,
        _ => 0,
    }
}

/// Subscribes to ranges, of which nothing is asked.
pub fn rest<O: Ops>(alloc: Global, ops: &O, graph: &mut Graph<O>, count: u32) -> Result<()> {
    for _ in 0..count {
        subscribed(alloc, ops, graph, "range", 1)?;
    }
    Ok(())
}

/// How many readers share a hub in this case, if it is one of a hub.
fn readers_of(case: &str) -> Option<u32> {
    match case {
        "fan1" | "fanmap" | "beside" => Some(1),
        "fan8" => Some(8),
        "fan64" => Some(64),
        _ => None,
    }
}

/// How many readers share a hub behind a gate in this case, if it is one of that.
fn gated_readers_of(case: &str) -> Option<u32> {
    match case {
        "serial1" | "serialidle" => Some(1),
        "serial8" => Some(8),
        _ => None,
    }
}

/// One run of a case of a hub with so many readers, to which the numbers are published.
fn publish<O: Ops>(
    alloc: Global,
    ops: O,
    case: &str,
    readers: u32,
    count: u64,
    budget: u32,
) -> Result<Sum>
where
    O::Item: Weight,
{
    let mut graph = Graph::new(alloc, ops)?;
    rest(alloc, &ops, &mut graph, idle_in(case))?;
    let hub = graph.hub(alloc, HubKind::Multicast, BATCH)?;
    for _ in 0..readers {
        let sub = graph.subscribe(alloc, &reading(alloc, case, hub)?)?;
        graph.request(sub, i64::MAX)?;
    }
    let mut out = Deliveries::new(alloc);
    let mut sum = Sum { items: 0, sum: 0 };
    for number in 0..count {
        let Ok(item) = ops.from_i64(alloc, i64::try_from(number).unwrap_or(i64::MAX)) else {
            bail!("no memory")
        };
        if graph.emit(hub, item).is_err() {
            bail!("refused")
        }
        if number % BATCH == BATCH - 1 {
            pump(alloc, &mut graph, budget, &mut out, &mut sum);
        }
    }
    pump(alloc, &mut graph, budget, &mut out, &mut sum);
    Ok(sum)
}

/// One run of a case: a subscription for each million of the numbers, one after the other.
fn run<O: Ops>(alloc: Global, ops: O, case: &str, count: u64, budget: u32) -> Result<Sum>
where
    O::Item: Weight,
{
    if let Some(readers) = readers_of(case) {
        return publish(alloc, ops, case, readers, count, budget);
    }
    if let Some(readers) = gated_readers_of(case) {
        return serve(alloc, ops, readers, idle_in(case), count, budget);
    }
    let Ok(mut graph) = Graph::new(alloc, ops) else {
        bail!("no memory")
    };
    rest(alloc, &ops, &mut graph, idle_in(case))?;
    let mut out = Deliveries::new(alloc);
    let mut sum = Sum { items: 0, sum: 0 };
    let mut left = count;
    for _ in 0..count.div_ceil(LONGEST) {
        let size = left.min(LONGEST);
        left -= size;
        let sub = subscribed(alloc, &ops, &mut graph, case, size)?;
        let (requests, n) = match case {
            "single" | "among" => (size, 1),
            _ => (1, i64::MAX),
        };
        for _ in 0..requests {
            let _ = graph.request(sub, n);
            pump(alloc, &mut graph, budget, &mut out, &mut sum);
        }
    }
    Ok(sum)
}

/// How many items come, and their sum.
///
/// # Errors
/// For want of memory, and where there is no such case.
pub fn summed(alloc: Global, items: &str, case: &str, count: u64, budget: u32) -> Result<Sum> {
    match items {
        "numbers" => run(alloc, Integers, case, count, budget),
        _ => run(alloc, Demo, case, count, budget),
    }
}

/// Does so many rounds, and writes what came to standard output and the least time to standard error.
///
/// # Errors
/// As of [`summed`], and where there is no clock or nothing can be written.
pub fn time(
    rt: &(impl Print + Eprint + Clock + AllocGlobal),
    items: &str,
    case: &str,
    count: u64,
    budget: u32,
    rounds: u64,
) -> Result<()> {
    let mut least = u128::MAX;
    let mut sum = Sum { items: 0, sum: 0 };
    for _ in 0..rounds {
        let start = Instant::now(rt)?;
        sum = summed(rt.alloc(), items, case, count, budget)?;
        least = least.min(start.elapsed(rt)?.as_nanos());
    }
    println!(rt; "{} items, sum {}", sum.items, sum.sum)?;
    eprintln!(rt; "{} ns", least)?;
    Ok(())
}
