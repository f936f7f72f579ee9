//! Which regions have to be poked behind a poke.
//!
//! No clause says so. One thread pokes the regions of a live graph. Of one graph what two pokes answer is given back. Others are driven by
//! these answers alone: behind each request and each take all regions are poked once, and from then on only those that a poke named. So a
//! graph in which a poke names too few never ends.

ghost use Rattle.std.specs.Prelude.{IfOk};
ghost use Rattle.rsx_live.specs.Starts.{IsStarted};

use crate::driven::{parsed, start_with};
use anyhow::{Result, bail};
use rsx_demo::Demo;
use rsx_graph::Graph;
use rsx_live::{PokeAnswer, Poked, StartedGraph};
use rsx_types::{Signal, SubId};
use std::alloc::Global;

/// More moves than a region makes at once.
const BUDGET: u32 = 100_000;

/// More pokes than a graph needs between two calls of its tap.
const POKES: u32 = 10_000;

/// More calls of its tap than a graph needs.
const CALLS: u32 = 1_000;

/// A merge in region 1 of two edges that cross from region 0.
pub const MERGE: &'static str =
    "(buffer 10 (merge 8 (publishOn 1 8 (filter even (range 1 500))) (publishOn 0 8 (range 501 500))))";

/// A live graph with one subscription to this expression.
fn start_one(alloc: Global, text: &str, workers: u8, n: i64) -> Result<(StartedGraph<Demo>, SubId)>
    ensures { IfOk result (λ r. IsStarted r.0) }
{
    let expr = parsed(alloc, text)?;
    let mut graph = Graph::new(alloc, Demo)?;
    let sub = graph.subscribe(alloc, &expr)?;
    graph.request(sub, n)?;
    let started = start_with(alloc, graph, workers)?;
    Ok((started, sub))
}

/// What a poke of this region answers.
fn poked(alloc: Global, started: &mut StartedGraph<Demo>, region: u8) -> Result<Poked>
    requires { IsStarted started.old }
    ensures { IsStarted started.new }
{
    match started.poke(alloc, region, BUDGET) {
        Some(poked) => Ok(poked),
        None => bail!("there is no region {region}"),
    }
}

/// Pokes region 1 of the merge and then region 0, and answers which regions each of them named.
///
/// # Errors
/// For want of memory, and where the graph can't be closed.
pub fn poke_merge(alloc: Global) -> Result<(u16, u16)> {
    let (mut started, _) = start_one(alloc, MERGE, 2, i64::MAX)?;
    let first = poked(alloc, &mut started, 1)?;
    let second = poked(alloc, &mut started, 0)?;
    match started.close() {
        Ok(_) => Ok((first.rouse, second.rouse)),
        Err(_) => bail!("a join is refused"),
    }
}

/// Drives a graph of this expression by what the pokes answer, until its subscription has ended. It asks for one item after the other.
///
/// # Errors
/// For want of memory, where the subscription doesn't end, and where a poke that finds nothing to do names a region.
pub fn try_roused(alloc: Global, text: &str, workers: u8) -> Result<()> {
    let (mut started, sub) = start_one(alloc, text, workers, 1)?;
    match drive(alloc, &mut started, sub) {
        Ok(()) => {}
        Err(why) => bail!("{text}: by what the pokes answer: {why}"),
    }
    match started.close() {
        Ok(_) => Ok(()),
        Err(_) => bail!("a join is refused"),
    }
}

/// Pokes, takes and requests until the subscription has ended.
fn drive(alloc: Global, started: &mut StartedGraph<Demo>, sub: SubId) -> Result<()>
    requires { IsStarted started.old }
    ensures { IsStarted started.new }
{
    for _ in 0..CALLS {
        if has_ended(alloc, started, sub)? {
            return Ok(());
        }
    }
    bail!("the subscription hasn't ended")
}

/// Pokes, and takes a signal or requests an item. It answers whether the signal was the ending.
fn has_ended(alloc: Global, started: &mut StartedGraph<Demo>, sub: SubId) -> Result<bool>
    requires { IsStarted started.old }
    ensures { IsStarted started.new }
{
    poke_named(alloc, started)?;
    match started.take(sub) {
        Some(Signal::Next(_)) => Ok(false),
        Some(Signal::Complete | Signal::Error(_)) => Ok(true),
        None => {
            started.request(sub, 1);
            Ok(false)
        }
    }
}

/// Pokes all regions, and then those that are named, until none is. Then a poke finds nothing to do.
fn poke_named(alloc: Global, started: &mut StartedGraph<Demo>) -> Result<()>
    requires { IsStarted started.old }
    ensures { IsStarted started.new }
{
    let mut named = u16::MAX;
    for _ in 0..POKES {
        let Some(region) = first_of(named, started.regions()) else {
            return poke_idle(alloc, started);
        };
        named &= !bit_of(region);
        named |= poked(alloc, started, region)?.rouse;
    }
    bail!("the pokes don't end")
}

/// The bit of this region. There is none for one behind the first 16.
fn bit_of(region: u8) -> u16 {
    1u16.checked_shl(u32::from(region)).unwrap_or(0)
}

/// The first region whose bit is set, among so many.
fn first_of(named: u16, regions: u8) -> Option<u8> {
    for region in 0..regions {
        if named & bit_of(region) != 0 {
            return Some(region);
        }
    }
    None
}

/// Pokes each region, in which nothing is left to do.
fn poke_idle(alloc: Global, started: &mut StartedGraph<Demo>) -> Result<()>
    requires { IsStarted started.old }
    ensures { IsStarted started.new }
{
    for region in 0..started.regions() {
        let Poked { answer, rouse } = poked(alloc, started, region)?;
        if !matches!(answer, PokeAnswer::Idle) || rouse != 0 {
            bail!("region {region} has something to do")
        }
    }
    Ok(())
}
