//! A graph that is live for one use of it.

ghost use Rattle.std.specs.Prelude.{IfOk};
ghost use Rattle.rsx_live.specs.Starts.{IsStarted};

use crate::threads::{Order, serve_order};
use rsx_demo::{Demo, Val};
use rsx_live::{LiveGraph, NotStarted, PokeAnswer, Poked, StartedGraph};
use rsx_session::{Session, SessionRest};
use rsx_types::{Move, NoMemory, NodeId, Signal, SubId, Tree};
use std::alloc::Global;
use std::sync::Wait;
use std::thread::Threads;
use std::time::Clock;

/// The most moves of one poke.
const BUDGET: u32 = 65_536;

/// What is done to a live graph.
#[derive(Clone, Copy, Debug)]
pub enum Use {
    /// Nothing: it is only seen whether the graph can go live.
    Look,
    /// Its regions are poked, and nothing else.
    Nothing,
    /// At most so many signals of this subscription are taken.
    Take(SubId, u64),
    /// So many items more are requested for this subscription.
    Request(SubId, i64),
    /// This subscription is cancelled.
    Cancel(SubId),
}

/// What a use of a live graph came to.
#[derive(Clone, Copy, Debug)]
pub enum Served {
    /// The graph could not go live: there are too few workers, or too many.
    TooFewWorkers,
    /// The subscription has no tap to be requested or cancelled by, or none was named. Only the regions were poked.
    NoTap,
    /// It was done, and so many signals were taken.
    Done(u64),
}

/// Has the graph of a session go live, uses it, and joins it again. What taps gave is kept with the rest of the session. Where a
/// subscription without a tap is to be taken from, it gives what waits on its root edge.
///
/// # Errors
///
/// `NoMemory` where a growth was refused, and where the pieces can't be joined. Nothing comes back then.
pub fn serve<R: Threads + Wait + Sync + Clock>(
    rt: &R,
    alloc: Global,
    session: Session,
    workers: u8,
    used: Use,
) -> Result<(Session, Served), NoMemory> {
    let (graph, mut rest) = session.take_apart();
    let started = match LiveGraph::go_live(alloc, graph, workers) {
        Ok(started) => started,
        Err(NotStarted::TooFewWorkers(graph)) => {
            return Ok((rest.put_together(graph), Served::TooFewWorkers));
        }
        Err(NotStarted::NoMemory(_)) => return Err(NoMemory),
        Err(NotStarted::NotJoined) => return Err(NoMemory),
    };
    let (started, served) = use_live(rt, alloc, started, &mut rest, used)?;
    let mut graph = match started.close() {
        Ok(graph) => graph,
        Err(_) => return Err(NoMemory),
    };
    let (Use::Take(sub, count), Served::NoTap) = (used, served) else {
        return Ok((rest.put_together(graph), served));
    };
    // Once its tree has ended a subscription has no tap any more. What waits on its root edge is taken of the graph then.
    let mut taken: u64 = 0;
    for _ in 0..count {
        let Ok(Some((_, signal))) = graph.make(alloc, Move::Take(Tree::Sub(sub), NodeId(0))) else {
            break;
        };
        rest.receive(sub, signal)?;
        taken = taken.saturating_add(1);
    }
    Ok((rest.put_together(graph), Served::Done(taken)))
}

/// Serves the regions until none makes a move, does what is to be done, and serves them again.
fn use_live<R: Threads + Wait + Sync + Clock>(
    rt: &R,
    alloc: Global,
    started: StartedGraph<Demo>,
    rest: &mut SessionRest,
    used: Use,
) -> Result<(StartedGraph<Demo>, Served), NoMemory>
    requires { IsStarted started }
    ensures { IfOk result (λ r. IsStarted r.0) }
{
    if let Use::Look = used {
        return Ok((started, Served::NoTap));
    }
    let started = serve_until_idle(rt, alloc, started)?;
    let (started, served) = use_tap(rt, alloc, started, rest, used)?;
    let started = serve_until_idle(rt, alloc, started)?;
    Ok((started, served))
}

/// Serves the regions on threads until none makes a move. What is only passed on at the end is passed on by the calling thread.
fn serve_until_idle<R: Threads + Wait + Sync + Clock>(
    rt: &R,
    alloc: Global,
    started: StartedGraph<Demo>,
) -> Result<StartedGraph<Demo>, NoMemory>
    requires { IsStarted started }
    ensures { IfOk result IsStarted }
{
    let nothing = Order {
        sub: SubId(0),
        count: 0,
    };
    let mut started = started;
    for _ in 0..u64::MAX {
        let (served, _) = serve_order(rt, alloc, started, nothing)?;
        started = served;
        if !poke_each(alloc, &mut started, 1)?.busy {
            return passed_on(alloc, started);
        }
    }
    Ok(started)
}

/// Has the calling thread pass on what is only passed on.
fn passed_on(alloc: Global, started: StartedGraph<Demo>) -> Result<StartedGraph<Demo>, NoMemory>
    requires { IsStarted started }
    ensures { IfOk result IsStarted }
{
    let mut started = started;
    poke_until_idle(alloc, &mut started)?;
    Ok(started)
}

/// Does what is to be done by the subscription's tap.
fn use_tap<R: Threads + Wait + Sync + Clock>(
    rt: &R,
    alloc: Global,
    started: StartedGraph<Demo>,
    rest: &mut SessionRest,
    used: Use,
) -> Result<(StartedGraph<Demo>, Served), NoMemory>
    requires { IsStarted started }
    ensures { IfOk result (λ r. IsStarted r.0) }
{
    let mut started = started;
    match used {
        Use::Take(sub, count) if has_tap(&started, sub) => {
            let (started, taken) = take_signals(rt, alloc, started, rest, sub, count)?;
            Ok((started, Served::Done(taken)))
        }
        Use::Request(sub, count) if has_tap(&started, sub) => {
            if let Some(error) = started.request(sub, count) {
                rest.receive(sub, error)?;
            }
            Ok((started, Served::Done(0)))
        }
        Use::Cancel(sub) if has_tap(&started, sub) => {
            started.cancel(sub);
            Ok((started, Served::Done(0)))
        }
        Use::Look | Use::Nothing | Use::Take(_, _) | Use::Request(_, _) | Use::Cancel(_) => Ok((
            started,
            Served::NoTap,
        )),
    }
}

/// Whether a subscription has a tap.
fn has_tap(started: &StartedGraph<Demo>, sub: SubId) -> bool {
    started.taps.iter().any(|tap| tap.sub() == sub)
}

/// Takes at most so many signals while the regions are served on threads, and answers how many were taken. It is fewer only where none
/// came once no region had anything to do.
fn take_signals<R: Threads + Wait + Sync + Clock>(
    rt: &R,
    alloc: Global,
    started: StartedGraph<Demo>,
    rest: &mut SessionRest,
    sub: SubId,
    count: u64,
) -> Result<(StartedGraph<Demo>, u64), NoMemory>
    requires { IsStarted started }
    ensures { IfOk result (λ r. IsStarted r.0) }
{
    let mut started = started;
    let mut taken: u64 = 0;
    for _ in 0..count {
        let left = count.saturating_sub(taken);
        if left == 0 {
            return Ok((started, taken));
        }
        let (served, came) = take_some(rt, alloc, started, rest, sub, left)?;
        started = served;
        if came == 0 {
            return Ok((started, taken));
        }
        taken = taken.saturating_add(came);
    }
    Ok((started, taken))
}

/// Takes some of so many signals while the regions are served on threads, and answers how many were taken: none only where none came once
/// no region had anything to do.
fn take_some<R: Threads + Wait + Sync + Clock>(
    rt: &R,
    alloc: Global,
    started: StartedGraph<Demo>,
    rest: &mut SessionRest,
    sub: SubId,
    count: u64,
) -> Result<(StartedGraph<Demo>, u64), NoMemory>
    requires { IsStarted started }
    ensures { IfOk result (λ r. IsStarted r.0) }
{
    let (served, signals) = serve_order(rt, alloc, started, Order { sub, count })?;
    let came = signals.len() as u64;
    receive_all(rest, sub, signals)?;
    if came > 0 {
        return Ok((served, came));
    }
    let served = passed_on(alloc, served)?;
    take_one(served, rest, sub)
}

/// Takes the next signal, if one waits, and answers how many were taken.
fn take_one(
    started: StartedGraph<Demo>,
    rest: &mut SessionRest,
    sub: SubId,
) -> Result<(StartedGraph<Demo>, u64), NoMemory>
    requires { IsStarted started }
    ensures { IfOk result (λ r. IsStarted r.0) }
{
    let mut started = started;
    match started.take(sub) {
        Some(signal) => {
            rest.receive(sub, signal)?;
            Ok((started, 1))
        }
        None => Ok((started, 0)),
    }
}

/// Keeps these signals of a subscription with the rest of the session.
fn receive_all(
    rest: &mut SessionRest,
    sub: SubId,
    signals: Vec<Signal<Val>>,
) -> Result<(), NoMemory> {
    for signal in signals {
        rest.receive(sub, signal)?;
    }
    Ok(())
}

/// What a round of pokes came to.
#[derive(Clone, Copy)]
struct Round {
    /// Some poke used its budget up. With a budget of 1 it made a move, or took a signal from a link.
    busy: bool,
    /// Some poke touched a link with a region, which has to be poked behind it.
    touched: bool,
}

/// Pokes the regions in turns until none has anything to do: until a round in which no budget was used up, and no link with a region was
/// touched.
fn poke_until_idle(alloc: Global, started: &mut StartedGraph<Demo>) -> Result<(), NoMemory>
    requires { IsStarted started.old }
    ensures { IsStarted started.new }
{
    for _ in 0..u64::MAX {
        let round = poke_each(alloc, started, BUDGET)?;
        if !round.busy && !round.touched {
            break;
        }
    }
    Ok(())
}

/// Pokes each region once.
fn poke_each(
    alloc: Global,
    started: &mut StartedGraph<Demo>,
    budget: u32,
) -> Result<Round, NoMemory>
    requires { IsStarted started.old }
    ensures { IsStarted started.new }
{
    let regions = started.regions();
    let mut round = Round {
        busy: false,
        touched: false,
    };
    for region in 0..regions {
        let Some(Poked { answer, rouse }) = started.poke(alloc, region, budget) else {
            continue;
        };
        round.touched |= rouse != 0;
        match answer {
            PokeAnswer::Idle => {}
            PokeAnswer::NoMemory => return Err(NoMemory),
            PokeAnswer::Noted | PokeAnswer::More | PokeAnswer::Budget => round.busy = true,
        }
    }
    Ok(round)
}
