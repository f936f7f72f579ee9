//! The regions of a live graph are served on threads, while the calling thread requests and takes.

ghost use Rattle.std.specs.Prelude.{◌≡◌, ◌≤◌, length, IfOk};
ghost use Rattle.std.specs.List.{AllZip};
ghost use Rattle.rsx_gate.specs.Machine.{all_parts};
ghost use Rattle.rsx_gate.specs.Seats.{IsSeatOf};
ghost use Rattle.rsx_runtime.specs.declared.TheConstants.{MOST_WORKERS};
ghost use Rattle.rsx_live.specs.Starts.{AreTapsOf, IsStarted};

use crate::beside::take_beside;
use crate::chance::{Chance, take_by_chance};
use crate::driven::Log;
use anyhow::{Result, bail};
use rsx_demo::{Demo, Val};
use rsx_kinds::TreeNode;
use rsx_live::{LiveGraph, StartedGraph, Tap, serve_regions};
use rsx_runtime::{Parkers, RegionSeat, Rouser};
use rsx_types::{Ops, Signal};
use std::alloc::Global;
use std::sync::Wait;
use std::thread;
use std::thread::Threads;
use std::time::{Clock, Duration};

/// More turns than any graph needs. With a pause in each in which nothing comes, they take some seconds.
const TURNS: u32 = 100_000;

/// How long such a pause is, in microseconds.
const PAUSE: u64 = 100;

/// More items than any expression gives.
const ALL: u32 = 1_000;

/// Which subscriptions request in a turn, one after the other, by the places of their taps, and how many items each.
pub type Turn = [(usize, i64); 2];

/// What the calling thread requests, and when all is taken.
#[derive(Drop)]
pub enum Requests {
    /// So in each turn, until all subscriptions have ended.
    InTurns(Turn),
    /// By chance, until as many turns were made as that tells.
    ByChance(Chance),
    /// The same, while a thread of its own cancels after so many microseconds.
    Beside(Chance, u32),
}

/// What the calling thread has once all is taken.
#[derive(Drop)]
pub struct Taken<T> {
    /// The taps.
    pub taps: Vec<Tap<T>>,
    /// What they gave.
    pub received: Log<T>,
    /// What went wrong.
    pub outcome: Result<()>,
}

/// What comes back from the regions and from the calling thread.
struct Back {
    seats: Vec<RegionSeat<TreeNode<Val>, Val, Demo>>,
    answer: Taken<Val>,
}

/// Serves the regions on threads until all is taken.
///
/// # Errors
/// For want of memory, and where a subscription doesn't end.
pub fn serve<R: Threads + Wait + Sync + Clock>(
    rt: &R,
    alloc: Global,
    started: StartedGraph<Demo>,
    requests: Requests,
) -> Result<(StartedGraph<Demo>, Log<Val>)>
    requires { IsStarted started }
    ensures { IfOk result (λ r. IsStarted r.0) }
{
    let StartedGraph { live, taps, seats } = started;
    let back = serve_and_take(rt, alloc, &live, &live, taps, seats, requests)?;
    put_together(live, back)
}

/// The live graph with its taps and seats again, and what was received.
fn put_together(live: LiveGraph<Demo>, back: Back) -> Result<(StartedGraph<Demo>, Log<Val>)>
    ensures { IfOk result (λ r. (r.0.live ≡ live) × (r.0.taps ≡ back.answer.taps) × (r.0.seats ≡ back.seats)) }
{
    let Back { seats, answer } = back;
    let Taken {
        taps,
        received,
        outcome,
    } = answer;
    outcome?;
    Ok((StartedGraph { live, taps, seats }, received))
}

/// Serves the regions of this graph on threads until all is taken, by these taps and seats. It is borrowed twice: by the calling thread,
/// and by the workers.
fn serve_and_take<R: Threads + Wait + Sync + Clock>(
    rt: &R,
    alloc: Global,
    graph: &LiveGraph<Demo>,
    served: &LiveGraph<Demo>,
    taps: Vec<Tap<Val>>,
    seats: Vec<RegionSeat<TreeNode<Val>, Val, Demo>>,
    requests: Requests,
) -> Result<Back>
    requires same { served.now ≡ graph.now }
    requires taps { AreTapsOf graph.now taps.items }
    requires seats { AllZip (λ g s. IsSeatOf g s × (all_parts ≤ s.me.0.parts)) served.now.subs.live.gates.items seats.items }
    requires few { length seats.items ≤ MOST_WORKERS }
    ensures taps { IfOk result (λ b. AreTapsOf graph.now b.answer.taps.items) }
    ensures seats { IfOk result (λ b. AllZip (λ g s. IsSeatOf g s × (all_parts ≤ s.me.0.parts)) served.now.subs.live.gates.items b.seats.items) }
{
    let parkers = Parkers::new(alloc, seats.len() as u8)?;
    let main = |rouser: &mut Rouser| -> Taken<Val>
        requires { AreTapsOf graph.now taps.items }
        ensures { AreTapsOf graph.entry.now result.taps.items }
    { take_all(rt, alloc, graph, taps, requests, rouser) };
    let (seats, answer) = serve_regions(rt, alloc, served, seats, parkers, main);
    Ok(Back { seats, answer })
}

/// Requests and takes so, until all is taken.
fn take_all<R: Threads + Sync + Clock>(
    rt: &R,
    alloc: Global,
    graph: &LiveGraph<Demo>,
    taps: Vec<Tap<Val>>,
    requests: Requests,
    rouser: &mut Rouser,
) -> Taken<Val>
    requires { AreTapsOf graph.now taps.items }
    ensures { AreTapsOf graph.now result.taps.items }
{
    match requests {
        Requests::InTurns(turn) => take_in_turns(rt, alloc, graph, taps, turn, rouser),
        Requests::ByChance(chance) => take_by_chance(rt, alloc, graph, taps, chance, rouser),
        Requests::Beside(chance, pause) => {
            take_beside(rt, alloc, graph, taps, chance, pause, rouser)
        }
    }
}

/// Requests and takes, in turns, until all subscriptions have ended.
fn take_in_turns<R: Clock, O: Ops>(
    rt: &R,
    alloc: Global,
    graph: &LiveGraph<O>,
    mut taps: Vec<Tap<O::Item>>,
    turn: Turn,
    rouser: &mut Rouser,
) -> Taken<O::Item>
    requires { AreTapsOf graph.now taps.items }
    ensures { AreTapsOf graph.now result.taps.items }
{
    let mut received = Vec::new(alloc);
    let outcome = take_turns(rt, graph, &mut taps, turn, rouser, &mut received);
    Taken {
        taps,
        received,
        outcome,
    }
}

/// Makes the turns, each with a pause where nothing came in it.
fn take_turns<R: Clock, O: Ops>(
    rt: &R,
    graph: &LiveGraph<O>,
    taps: &mut Vec<Tap<O::Item>>,
    turn: Turn,
    rouser: &mut Rouser,
    received: &mut Log<O::Item>,
) -> Result<()>
    requires { AreTapsOf graph.now taps.old.items }
    ensures { AreTapsOf graph.now taps.new.items }
{
    for _ in 0..TURNS {
        let before = received.len();
        take_turn(graph, taps, turn[0], rouser, received)?;
        take_turn(graph, taps, turn[1], rouser, received)?;
        if endings(received) >= taps.len() {
            return Ok(());
        }
        if received.len() == before {
            thread::sleep(rt, Duration::from_micros(PAUSE));
        }
    }
    bail!("a subscription hasn't ended")
}

/// How many endings were received.
fn endings<T>(received: &Log<T>) -> usize {
    let mut count = 0usize;
    for (_, signal) in received {
        if !matches!(signal, Signal::Next(_)) {
            count = count.saturating_add(1);
        }
    }
    count
}

/// Requests so many items by the tap at a place, rouses the workers, and takes what waits. What was taken in a turn makes room, for which
/// the workers are roused in the next one.
fn take_turn<O: Ops>(
    graph: &LiveGraph<O>,
    taps: &mut Vec<Tap<O::Item>>,
    request: (usize, i64),
    rouser: &mut Rouser,
    received: &mut Log<O::Item>,
) -> Result<()>
    requires { AreTapsOf graph.now taps.old.items }
    ensures { AreTapsOf graph.now taps.new.items }
{
    let (place, n) = request;
    let Some(tap) = taps.get(place) else {
        bail!("a subscription has no tap")
    };
    let sub = tap.sub();
    if let Some(signal) = graph.request(taps, sub, n) {
        received.push((sub, signal))?;
    }
    rouser.rouse(u16::MAX);
    for _ in 0..ALL {
        match graph.take(taps, sub) {
            Some(signal) => received.push((sub, signal))?,
            None => break,
        }
    }
    Ok(())
}
