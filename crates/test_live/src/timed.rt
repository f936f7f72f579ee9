//! Times a graph that is live beside one that is not, on one thread.
//!
//! The numbers from 1 on, items of the demonstration, go through a `publishOn` with a prefetch of 64, which is in another region: where the
//! graph is pumped the edge between the regions has its queue, and where it goes live there is a link, and its two regions are poked in
//! turns, each with a large budget.

ghost use Rattle.rsx_live.specs.Starts.{IsStarted};

use crate::driven::{parsed, start_with};
use anyhow::{Result, bail};
use rsx_demo::{Demo, Val};
use rsx_graph::{Deliveries, Graph, Pumped};
use rsx_live::StartedGraph;
use rsx_types::{Signal, SubId};
use std::alloc::Global;

/// The budget of a pump, and of a poke.
const BUDGET: u32 = 65_536;

/// More items than any run has.
const ALL: i64 = 1_000_000_000;

/// What came.
#[derive(Clone, Copy, Debug)]
pub struct Sum {
    /// How many items.
    pub items: u64,
    /// What they come to.
    pub sum: i64,
    ended: bool,
}

impl Sum {
    /// Nothing came.
    fn new() -> Sum {
        Sum {
            items: 0,
            sum: 0,
            ended: false,
        }
    }

    /// Takes in what was delivered.
    fn add_all(&mut self, deliveries: &Deliveries<Val>) {
        for (_, signal) in deliveries.as_slice() {
            self.add(signal);
        }
    }

    /// Takes in a signal.
    fn add(&mut self, signal: &Signal<Val>) {
        match signal {
            Signal::Next(Val::Int(n)) => {
                self.items = self.items.wrapping_add(1);
                self.sum = self.sum.wrapping_add(*n);
            }
            Signal::Next(Val::List(_)) => {}
            Signal::Complete | Signal::Error(_) => self.ended = true,
        }
    }
}

/// A graph with a subscription that has asked for all.
fn subscribed(alloc: Global, count: u64) -> Result<(Graph<Demo>, SubId)> {
    let text = format!(in alloc; "(publishOn 1 64 (range 1 {count}))")?;
    let expr = parsed(alloc, text.as_str())?;
    let mut graph = Graph::new(alloc, Demo)?;
    let sub = graph.subscribe(alloc, &expr)?;
    graph.request(sub, ALL)?;
    Ok((graph, sub))
}

/// What comes where the graph is pumped.
pub fn pumped(alloc: Global, count: u64) -> Result<Sum> {
    let (mut graph, _) = subscribed(alloc, count)?;
    let mut out = Deliveries::new(alloc);
    let mut sum = Sum::new();
    for _ in 0..u64::MAX {
        let pumped = graph.pump(alloc, BUDGET, &mut out);
        sum.add_all(&out);
        out.clear();
        match pumped {
            Ok(Pumped::Budget) => {}
            _ => break,
        }
    }
    Ok(sum)
}

/// What comes where the graph is live, and its regions are poked in turns. The lower one comes first.
pub fn lived(alloc: Global, count: u64) -> Result<Sum> {
    let (graph, sub) = subscribed(alloc, count)?;
    let mut started = start_with(alloc, graph, 2)?;
    let mut sum = Sum::new();
    for _ in 0..u64::MAX {
        if sum.ended {
            break;
        }
        poke_both(alloc, &mut started);
        take_all(&mut started, sub, &mut sum);
    }
    let Ok(_) = started.close() else {
        bail!("it didn't come back")
    };
    Ok(sum)
}

/// Pokes the two regions.
fn poke_both(alloc: Global, started: &mut StartedGraph<Demo>)
    requires { IsStarted started.old }
    ensures { IsStarted started.new }
{
    let _ = started.poke(alloc, 0, BUDGET);
    let _ = started.poke(alloc, 1, BUDGET);
}

/// Takes all that waits.
fn take_all(started: &mut StartedGraph<Demo>, sub: SubId, sum: &mut Sum)
    requires { IsStarted started.old }
    ensures { IsStarted started.new }
{
    for _ in 0..BUDGET {
        match started.take(sub) {
            Some(signal) => sum.add(&signal),
            None => break,
        }
    }
}
