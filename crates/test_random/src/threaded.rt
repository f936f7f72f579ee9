//! Graphs behind a gate, on which threads work without any order.
//!
//! Some threads poke the graph, others publish by its emitters, cancel its subscriptions, and request and take by its taps. Then the graph
//! comes back, wherever it is, and all is compared as in [`serialized`](crate::serialized). What was done when is up to the system, and
//! what is written isn't.

ghost use Rattle.std.specs.Prelude.{◌≡◌, ◌≤◌, IfOk, IfSome};
ghost use Rattle.std.specs.Thread.{IsSync};
ghost use Rattle.rsx_gate.specs.Machine.{all_parts};
ghost use Rattle.rsx_gate.specs.Seats.{IsSeatOf};
ghost use Rattle.rsx_link.specs.Ends.{IsUpOf};
ghost use Rattle.rsx_serialized.specs.Started.{IsStarted};
ghost use Rattle.test_random.specs.Ends.{AreCancellersOf, AreTapsOf, IsCancellerOf, IsReady};
ghost use Rattle.test_random.specs.Returned.{Along, HasRest};

use crate::beside::{Cancellers, Pokes, Work, Worked, poke_on_threads, work_beside};
use crate::driven::start;
use crate::ends::{canceller_at, pop_emitter};
use crate::numbers::Numbers;
use crate::plans::{Plan, new_graph};
use crate::returned::Returned;
use crate::serialized::{Told, compare, finish, taken_out, without};
use crate::work::{Emits, Takes, any_signal};
use anyhow::{Result, bail};
use rsx_demo::{Demo, Val};
use rsx_graph::{Graph, SubscriptionState};
use rsx_link::Link;
use rsx_runtime::Canceller;
use rsx_serialized::{Emitter, GraphSeat, Links, SerializedGraph, StartedGraph, Tap};
use rsx_types::{NoMemory, Signal, SubId};
use std::alloc::Global;
use std::thread::Threads;

/// How many numbers are published where nobody cancels.
const NUMBERS: u32 = 1_000;

/// How often each thread pokes there.
const POKES: u32 = 10_000;

/// How often is tried to take there.
const TAKES: u32 = 500_000;

/// How many graphs there are of each other kind.
pub const GRAPHS: u32 = 50;

/// More rounds than are left to make once the threads have ended.
const MOST_ROUNDS: u32 = 10_000;

/// What threads do.
#[derive(Clone, Copy)]
struct Jobs {
    pokes: Pokes,
    cancellers: u32,
    emits: Emits,
    takes: Takes,
    // The budget of a last poke, once the threads have ended.
    last: u32,
}

/// A graph that came back from threads.
#[derive(Drop)]
struct Back {
    graph: Graph<Demo>,
    /// What was sent and received.
    told: Told,
    /// What the graph didn't take of that.
    left: Vec<(u32, Signal<Val>)>,
    /// How many errors of bad requests came.
    errors: u32,
}

/// Four threads poke a graph with a budget of one round while a fifth publishes numbers. Answers how many signals were received.
///
/// # Errors
/// Where a comparison differs, or for want of memory.
pub fn try_numbers<R: Threads + Sync>(rt: &R, alloc: Global) -> Result<usize> {
    let plan = Plan::over_hub(alloc, "(filter even (map inc (hub 0)))")?;
    let jobs = Jobs {
        pokes: Pokes {
            threads: 4,
            times: POKES,
            budget: 1,
        },
        cancellers: 0,
        emits: Emits::Numbers(NUMBERS),
        takes: Takes::First(i64::from(NUMBERS), TAKES),
        last: 0,
    };
    let mut back = on_threads(rt, alloc, &plan, jobs)?;
    let sent = u32::try_from(back.told.sent.len()).unwrap_or(NUMBERS);
    for number in sent..NUMBERS {
        // The threads that poke had ended before.
        back.told.sent.push((0, any_signal(2, number)))?;
        back.left.push((0, any_signal(2, number)))?;
    }
    let told = compared(alloc, &plan, back)?;
    Ok(told.received.len())
}

/// Four threads cancel a subscription, one of them twice, while numbers are published.
///
/// # Errors
/// Where a comparison differs, where it isn't cancelled, or for want of memory.
pub fn try_cancellers<R: Threads + Sync>(rt: &R, alloc: Global) -> Result<()> {
    let plan = Plan::over_hub(alloc, "(publishOn 1 2 (map inc (hub 0)))")?;
    for number in 0..GRAPHS {
        let jobs = Jobs {
            pokes: pokes_of(2, number),
            cancellers: 4,
            emits: Emits::Numbers(40),
            takes: Takes::First(30, number),
            last: MOST_ROUNDS,
        };
        let back = on_threads(rt, alloc, &plan, jobs)?;
        expect_cancelled(&back, 0)?;
        compared(alloc, &plan, back)?;
    }
    Ok(())
}

/// A tap makes two bad requests, while numbers are published.
///
/// # Errors
/// Where a comparison differs, where there isn't one error, or for want of memory.
pub fn try_bad_requests<R: Threads + Sync>(rt: &R, alloc: Global) -> Result<()> {
    let plan = Plan::over_hub(alloc, "(publishOn 1 2 (map inc (hub 0)))")?;
    for number in 0..GRAPHS {
        let jobs = Jobs {
            pokes: pokes_of(2, number),
            cancellers: 0,
            emits: Emits::Numbers(40),
            takes: Takes::Badly,
            last: MOST_ROUNDS,
        };
        let back = on_threads(rt, alloc, &plan, jobs)?;
        expect_cancelled(&back, 1)?;
        compared(alloc, &plan, back)?;
    }
    Ok(())
}

/// Threads do what is drawn from a seed, for each of some seeds, while so many of them poke.
///
/// # Errors
/// Where a comparison differs, or for want of memory.
pub fn try_threads<R: Threads + Sync>(rt: &R, alloc: Global, threads: u8) -> Result<()> {
    for seed in 1..=GRAPHS {
        let mut numbers = Numbers::new(seed ^ (u32::from(threads) << 16));
        let plan = Plan::new(alloc, &mut numbers)?;
        let jobs = Jobs {
            pokes: pokes_of(threads, numbers.below(GRAPHS)),
            cancellers: u32::from(numbers.below(4) == 0),
            emits: Emits::Any(numbers.below(u32::MAX)),
            takes: Takes::Any(numbers.below(u32::MAX)),
            last: 0,
        };
        let back = on_threads(rt, alloc, &plan, jobs)?;
        match compared(alloc, &plan, back) {
            Ok(_) => {}
            Err(why) => bail!("a graph on {threads} threads, seed {seed}: {why}"),
        }
    }
    Ok(())
}

/// How so many threads poke a graph, more often and with more budget where the number is larger.
fn pokes_of(threads: u8, number: u32) -> Pokes {
    Pokes {
        threads,
        times: number.saturating_mul(16),
        budget: number % 7 + 1,
    }
}

/// Whether the first subscription was cancelled, and so many errors came.
fn expect_cancelled(back: &Back, errors: u32) -> Result<()> {
    if back.errors != errors {
        bail!("{} errors came in place of {errors}", back.errors)
    }
    match back.graph.standing(SubId(0))? {
        SubscriptionState::Cancelled => Ok(()),
        _ => bail!("the subscription isn't cancelled"),
    }
}

/// Puts a graph behind a gate, has threads work on it, and takes it out.
fn on_threads<R: Threads + Sync>(rt: &R, alloc: Global, plan: &Plan, jobs: Jobs) -> Result<Back> {
    let graph = new_graph(alloc, plan)?;
    let started = start(alloc, graph, &plan.exprs)?;
    let (returned, mut told, errors) = worked(rt, alloc, started, jobs)?;
    let (graph, left) = taken_out(alloc, returned, plan, &mut told)?;
    Ok(Back {
        graph,
        told,
        left,
        errors,
    })
}

/// Has threads work on the graph, and takes it out of its gate. Answers how many errors of bad requests came, too.
fn worked<R: Threads + Sync>(
    rt: &R,
    alloc: Global,
    started: StartedGraph<Demo>,
    jobs: Jobs,
) -> Result<(Returned<Demo>, Told, u32)>
    requires { IsStarted started }
    ensures { IfOk result (λ r. HasRest r.0) }
{
    let StartedGraph {
        graph,
        seat,
        emitters,
        taps,
    } = started;
    let work = work_of(graph.links(), emitters, taps, jobs);
    let (mut seat, answer) = work_on(rt, alloc, &graph, seat, jobs.pokes, work);
    let _ = graph.poke(alloc, &mut seat, jobs.last);
    let (region, links) = graph.stop(seat);
    let Worked { sent, taken } = answer?;
    let told = Told {
        sent,
        received: taken.received,
        refused: taken.refused,
    };
    let returned = Returned {
        region,
        links,
        taps: taken.taps,
    };
    Ok((returned, told, taken.errors))
}

/// The work at the ends of these links.
fn work_of(
    links: &Links<Val>,
    mut emitters: Vec<Emitter<Val>>,
    mut taps: Vec<Tap<Val>>,
    jobs: Jobs,
) -> Work
    requires emitters { Along links.now.emitters.items emitters.items (λ k l e. (e.link ≡ k) × IsUpOf l e.up) }
    requires taps { AreTapsOf links.now.taps.items taps.items }
    ensures { IsReady links.now result }
{
    let cancellers = cancellers_of(&links.taps, &mut taps, jobs.cancellers);
    let second = pop_emitter(&links.emitters, &mut emitters);
    let first = pop_emitter(&links.emitters, &mut emitters);
    Work {
        first,
        second,
        emits: jobs.emits,
        cancellers,
        taps,
        takes: jobs.takes,
    }
}

/// Has threads work on the graph.
fn work_on<R: Threads + Sync>(
    rt: &R,
    alloc: Global,
    graph: &SerializedGraph<Demo>,
    seat: GraphSeat<Demo>,
    pokes: Pokes,
    work: Work,
) -> (GraphSeat<Demo>, Result<Worked, NoMemory>)
    requires seat { IsSeatOf graph.now.gate seat × (all_parts ≤ seat.me.0.parts) }
    requires work { IsReady graph.now.links work }
    ensures seat { IsSeatOf graph.now.gate result.0 × (all_parts ≤ result.0.me.0.parts) }
    ensures taps { IfOk result.1 (λ w. AreTapsOf graph.now.links.taps.items w.taken.taps.items) }
{
    let links = graph.links();
    let main = || -> Result<Worked, NoMemory>
        requires { IsSync R.row × IsReady links.now work }
        ensures { IfOk result (λ w. AreTapsOf links.entry.now.taps.items w.taken.taps.items) }
    { work_beside(rt, alloc, links, work) };
    poke_on_threads(rt, alloc, graph, seat, pokes, main)
}

/// So many cancellers of the first tap.
fn cancellers_of(links: &Vec<Link<Val>>, taps: &mut Vec<Tap<Val>>, count: u32) -> Cancellers
    requires { AreTapsOf links.now.items taps.old.items }
    ensures taps { AreTapsOf links.now.items taps.new.items }
    ensures own { AreCancellersOf links.now.items result }
{
    let first = canceller_of(links, taps, count > 0);
    let second = canceller_of(links, taps, count > 1);
    let third = canceller_of(links, taps, count > 2);
    let fourth = canceller_of(links, taps, count > 3);
    Cancellers {
        first,
        second,
        third,
        fourth,
    }
}

/// A canceller of the first tap, where this says so.
fn canceller_of(links: &Vec<Link<Val>>, taps: &mut Vec<Tap<Val>>, wanted: bool) -> Option<Canceller>
    requires { AreTapsOf links.now.items taps.old.items }
    ensures taps { AreTapsOf links.now.items taps.new.items }
    ensures own { IfSome result (λ c. IsCancellerOf links.now.items c) }
{
    match wanted {
        true => canceller_at(links, taps, 0),
        false => None,
    }
}

/// Compares what was received, has the graph go on to its end, and compares again.
fn compared(alloc: Global, plan: &Plan, back: Back) -> Result<Told> {
    let Back {
        mut graph,
        mut told,
        left,
        errors: _,
    } = back;
    let mut published = without(alloc, plan, &told.sent, &left)?;
    compare(alloc, &graph, plan, &published, &told)?;
    finish(alloc, &mut graph, plan, left, &mut published, &mut told)?;
    compare(alloc, &graph, plan, &published, &told)?;
    Ok(told)
}
