//! Graphs behind a gate, which one thread drives in turns that have no pattern.
//!
//! A run has a graph with one to three hubs, of which one may be fed by an expression over the others, and some subscriptions. Links are
//! opened for its emitters and its taps, and it goes behind a gate. Then emitters publish, complete and fail, taps request, take, cancel
//! and make bad requests, and the graph is poked. Once it was closed, what each tap gave, with what was delivered and not taken, and with
//! what the graph owes, has to be the value of the expression, evaluated from scratch over what was published at the hubs
//! under what the nodes recorded. Of one that cancelled, what it got has to be the beginning of that value. What was published at a hub
//! is what its emitter sent, but for what the graph didn't take. Then that is published, too, the graph goes on to its end, and all is
//! compared again.
//!
//! In other runs nothing is subscribed to at the start: the expressions are subscribed to while the turns are made, one after the other.

ghost use Rattle.std.specs.Prelude.{IfOk};
ghost use Rattle.rsx_serialized.specs.Started.{IsStarted};
ghost use Rattle.test_random.specs.Returned.{HasRest};

use crate::driven::{Call, call_tap, publish_at, start, start_with_places};
use crate::numbers::Numbers;
use crate::plans::{Plan, new_graph};
use crate::returned::Returned;
use crate::trial::{Log, agrees, begins, from_scratch, joined, value_in};
use anyhow::{Result, bail};
use rsx_demo::{Demo, Val, copy_val};
use rsx_graph::{Deliveries, Graph, Pumped};
use rsx_model::scratch;
use rsx_serialized::{Closed, GraphRegion, NotAdded, NotSubscribed, StartedGraph};
use rsx_types::{Cause, HubId, Signal, StreamValue, SubId, Tree};
use std::alloc::Global;

/// How many runs there are.
const RUNS: u32 = 2_000;

/// How many turns are made while a graph is behind its gate.
const TURNS: u32 = 80;

/// Every how many turns an expression is subscribed to, in a run in which none is at the start.
const LATER: u32 = 12;

/// When the expressions are subscribed to.
#[derive(Clone, Copy, PartialEq, Eq)]
pub enum When {
    /// Before the graph goes behind its gate.
    First,
    /// While the turns are made.
    Later,
}

/// More moves than any graph makes at once.
const MOST_MOVES: u32 = 100_000;

/// More items than any expression gives.
const ALL: i64 = 1_000;

/// More signals than remain on any link.
const MOST_LEFT: u32 = 1_000;

/// What was done, in all runs.
#[derive(Clone, Copy)]
pub struct Done {
    /// How many runs there were.
    pub runs: u32,
    /// How many emitters.
    pub emitters: u32,
    /// How many signals they sent.
    pub sent: usize,
    /// How many taps.
    pub taps: u32,
    /// How many signals they gave.
    pub given: usize,
    /// How many signals were received in all.
    pub received: usize,
}

/// What happened at the ends of the links.
#[derive(Drop)]
pub struct Told {
    /// What the emitters sent.
    pub sent: Log,
    /// What the taps gave, and what was delivered behind that.
    pub received: Log,
    /// The subscriptions whose taps made a bad request.
    pub refused: Vec<u32>,
}

/// Makes a run for each seed.
///
/// # Errors
/// Where a comparison differs, or for want of memory.
pub fn try_runs(alloc: Global, when: When) -> Result<Done> {
    let mut done = Done {
        runs: 0,
        emitters: 0,
        sent: 0,
        taps: 0,
        given: 0,
        received: 0,
    };
    for seed in 1..=RUNS {
        match try_run(alloc, seed, when, &mut done) {
            Ok(()) => {}
            Err(why) => bail!("a graph behind a gate, seed {seed}: {why}"),
        }
    }
    Ok(done)
}

/// Makes the run of this seed.
fn try_run(alloc: Global, seed: u32, when: When, done: &mut Done) -> Result<()> {
    let mut numbers = Numbers::new(seed);
    let plan = Plan::new(alloc, &mut numbers)?;
    let mut told = Told {
        sent: Vec::new(alloc),
        received: Vec::new(alloc),
        refused: Vec::new(alloc),
    };
    let started = turned(alloc, &plan, when, &mut numbers, &mut told)?;
    let given = told.received.len();
    let (mut graph, left) = closed(alloc, started, &mut told)?;
    let mut published = without(alloc, &plan, &told.sent, &left)?;
    compare(alloc, &graph, &plan, &published, &told)?;
    finish(alloc, &mut graph, &plan, left, &mut published, &mut told)?;
    compare(alloc, &graph, &plan, &published, &told)?;
    done.runs = done.runs.saturating_add(1);
    done.emitters = done.emitters.saturating_add(plan.emitters);
    done.sent = done.sent.saturating_add(told.sent.len());
    done.taps = done.taps.saturating_add(plan.subs());
    done.given = done.given.saturating_add(given);
    done.received = done.received.saturating_add(told.received.len());
    Ok(())
}

/// Puts the graph behind a gate, and makes the turns.
fn turned(
    alloc: Global,
    plan: &Plan,
    when: When,
    numbers: &mut Numbers,
    told: &mut Told,
) -> Result<StartedGraph<Demo>>
    ensures { IfOk result (λ s. IsStarted s) }
{
    let graph = new_graph(alloc, plan)?;
    let mut started = match when {
        When::First => start(alloc, graph, &plan.exprs)?,
        When::Later => start_with_places(alloc, graph, plan.subs())?,
    };
    for at in 0..TURNS {
        if when == When::Later && at % LATER == 0 {
            subscribe(alloc, &mut started, plan, at / LATER)?;
        }
        turn(alloc, &mut started, plan, numbers, told)?;
    }
    Ok(started)
}

/// Subscribes to the expression with this number, if there is one. If there is none, all places were given out, and one expression more is
/// refused for want of a place.
///
/// # Errors
/// Where the graph refuses the expression, or takes one more.
fn subscribe(
    alloc: Global,
    started: &mut StartedGraph<Demo>,
    plan: &Plan,
    number: u32,
) -> Result<()>
    requires { IsStarted started.old }
    ensures { IsStarted started.new }
{
    let is_there = (number as usize) < plan.exprs.len();
    let at = if is_there { number } else { 0 };
    let Some(expr) = plan.exprs.get(at as usize) else {
        return Ok(());
    };
    match started.subscribe(alloc, expr) {
        Ok(_) if is_there => Ok(()),
        Err(NotAdded::NotSubscribed(NotSubscribed::NoPlace)) if !is_there => Ok(()),
        _ => bail!("expression {number} was taken and should not be, or was not"),
    }
}

/// Closes the graph, and answers it with what its hubs didn't take of what the emitters sent. What no tap took counts as received.
///
/// # Errors
/// For want of memory.
fn closed(alloc: Global, started: StartedGraph<Demo>, told: &mut Told) -> Result<(Graph<Demo>, Log)>
    requires { IsStarted started }
{
    let Ok(closed) = started.close(alloc) else {
        bail!("there is no memory")
    };
    let Closed {
        graph,
        untaken,
        unpublished,
    } = closed;
    for (sub, signal) in untaken {
        told.received.push((sub.0, signal))?;
    }
    let mut left = Vec::new(alloc);
    for (hub, signal) in unpublished {
        left.push((hub.0, signal))?;
    }
    Ok((graph, left))
}

/// Makes a turn: mostly an emitter publishes, a tap takes or requests, or the graph is poked.
fn turn(
    alloc: Global,
    started: &mut StartedGraph<Demo>,
    plan: &Plan,
    numbers: &mut Numbers,
    told: &mut Told,
) -> Result<()>
    requires { IsStarted started.old }
    ensures { IsStarted started.new }
{
    let sub = numbers.below(plan.subs());
    if sub as usize >= started.taps.len() {
        let _ = started.poke(alloc, 1);
        return Ok(());
    }
    let call = match numbers.below(64) {
        0..=21 => {
            let _ = started.poke(alloc, numbers.below(8));
            return Ok(());
        }
        22..=38 => return publish(
            started,
            numbers.below(plan.emitters),
            numbers,
            &mut told.sent,
        ),
        39 => Call::Cancel,
        40 => Call::Request(0),
        41..=50 => Call::Request(i64::from(numbers.below(3)) + 1),
        _ => Call::Take,
    };
    if let Call::Request(0) = call {
        told.refused.push(sub)?;
    }
    match call_tap(started, sub, call) {
        None | Some(Signal::Error(Cause::NonPositiveRequest)) => {}
        Some(signal) => told.received.push((sub, signal))?,
    }
    Ok(())
}

/// Publishes a number by the emitter of a hub, or now and then an ending, and notes what it took.
fn publish(
    started: &mut StartedGraph<Demo>,
    hub: u32,
    numbers: &mut Numbers,
    sent: &mut Log,
) -> Result<()>
    requires { IsStarted started.old }
    ensures { IsStarted started.new }
{
    let number = i64::from(numbers.below(9));
    let signal = match numbers.below(64) {
        0 => Signal::Complete,
        1 => Signal::Error(Cause::User(7)),
        _ => Signal::Next(Val::Int(number)),
    };
    let noted = match &signal {
        Signal::Next(_) => Signal::Next(Val::Int(number)),
        Signal::Complete => Signal::Complete,
        Signal::Error(cause) => Signal::Error(*cause),
    };
    if publish_at(started, hub, signal) {
        sent.push((hub, noted))?;
    }
    Ok(())
}

/// Takes what remains on the links of the taps and what waits to be sent there, as received, and what remains on those of the emitters;
/// and answers the graph and that.
pub fn taken_out(
    alloc: Global,
    returned: Returned<Demo>,
    plan: &Plan,
    told: &mut Told,
) -> Result<(Graph<Demo>, Log)>
    requires { HasRest returned }
{
    let mut back = returned;
    for sub in 0..plan.subs() {
        take_all(&mut back, sub, &mut told.received)?;
    }
    let mut left = Vec::new(alloc);
    for hub in 0..plan.emitters {
        take_unpublished(&mut back, hub, &mut left)?;
    }
    let Returned {
        region,
        links: _,
        taps: _,
    } = back;
    let GraphRegion {
        graph,
        inlets: _,
        outlets: _,
        pending,
        spare: _,
    } = region;
    for (sub, signal) in pending.into_vec() {
        told.received.push((sub.0, signal))?;
    }
    Ok((graph, left))
}

/// Takes all that remains on the link of a tap.
fn take_all(returned: &mut Returned<Demo>, sub: u32, received: &mut Log) -> Result<()>
    requires { HasRest returned.old }
    ensures { HasRest returned.new }
{
    for _ in 0..MOST_LEFT {
        match returned.take_rest(sub) {
            Some(signal) => received.push((sub, signal))?,
            None => break,
        }
    }
    Ok(())
}

/// Takes all that an emitter sent and the graph didn't take.
fn take_unpublished(returned: &mut Returned<Demo>, hub: u32, left: &mut Log) -> Result<()>
    requires { HasRest returned.old }
    ensures { HasRest returned.new }
{
    for _ in 0..MOST_LEFT {
        match returned.take_unpublished(hub) {
            Some(signal) => left.push((hub, signal))?,
            None => break,
        }
    }
    Ok(())
}

/// What was sent, but for what is left: the last signals of each emitter.
///
/// # Errors
/// Where what is left isn't that, or for want of memory.
pub fn without(alloc: Global, plan: &Plan, sent: &Log, left: &Log) -> Result<Log> {
    let mut published = Vec::new(alloc);
    for hub in 0..plan.emitters {
        let count = count(sent, hub).saturating_sub(count(left, hub));
        push_first(alloc, sent, hub, count, &mut published)?;
        let before = value_in(alloc, &published, hub)?;
        let all = joined(before, value_in(alloc, left, hub)?)?;
        if all != value_in(alloc, sent, hub)? {
            bail!("what is left of emitter {hub} is not what it sent last")
        }
    }
    Ok(published)
}

/// How many signals there are with this number.
fn count(log: &Log, number: u32) -> u32 {
    let mut count = 0u32;
    for (at, _) in log {
        if *at == number {
            count = count.saturating_add(1);
        }
    }
    count
}

/// Puts so many of the first signals with this number behind the others.
fn push_first(alloc: Global, log: &Log, number: u32, count: u32, out: &mut Log) -> Result<()> {
    let mut more = count;
    for (at, signal) in log {
        if *at == number && more > 0 {
            out.push((number, copied(alloc, signal)?))?;
            more -= 1;
        }
    }
    Ok(())
}

/// A copy of a signal.
fn copied(alloc: Global, signal: &Signal<Val>) -> Result<Signal<Val>> {
    match signal {
        Signal::Next(item) => Ok(Signal::Next(copy_val(alloc, item)?)),
        Signal::Complete => Ok(Signal::Complete),
        Signal::Error(cause) => Ok(Signal::Error(*cause)),
    }
}

/// Compares for each subscription.
///
/// # Errors
/// Where a comparison differs, or for want of memory.
pub fn compare(
    alloc: Global,
    graph: &Graph<Demo>,
    plan: &Plan,
    published: &Log,
    told: &Told,
) -> Result<()> {
    let hubs = hub_values(alloc, graph, plan, published)?;
    let mut number = 0u32;
    for expr in &plan.exprs {
        let sub = SubId(number);
        let value = from_scratch(alloc, graph, sub, expr, &hubs)?;
        let received = value_in(alloc, &told.received, number)?;
        let is_right = match told.refused.iter().any(|refused| *refused == number) {
            true => begins(received, value),
            false => agrees(alloc, graph, sub, received, value)?,
        };
        if !is_right {
            bail!("what subscription {number} received differs")
        }
        number = number.saturating_add(1);
    }
    Ok(())
}

/// The values of the hubs: what was published, and the value of the expression that feeds the last one.
fn hub_values(
    alloc: Global,
    graph: &Graph<Demo>,
    plan: &Plan,
    published: &Log,
) -> Result<Vec<StreamValue<Val>>> {
    let mut values = Vec::new(alloc);
    for hub in 0..plan.emitters {
        values.push(value_in(alloc, published, hub)?)?;
    }
    if let Some(feed) = &plan.feed {
        let tree = Tree::Feed(HubId(plan.emitters));
        let joins = graph.joins(alloc, tree)?;
        let notes = graph.notes(alloc, tree)?;
        let value = scratch(alloc, &Demo, feed, &values, &joins, &notes)?;
        values.push(value)?;
    }
    Ok(values)
}

/// Cancels where a bad request was made, requests all else, publishes what is left and completes the hubs, and makes all moves.
pub fn finish(
    alloc: Global,
    graph: &mut Graph<Demo>,
    plan: &Plan,
    left: Log,
    published: &mut Log,
    told: &mut Told,
) -> Result<()> {
    // The graph may not have seen it. What is on the link then nobody takes.
    for number in &told.refused {
        graph.cancel(SubId(*number))?;
    }
    for number in 0..plan.subs() {
        graph.request(SubId(number), ALL)?;
    }
    pump(alloc, graph, &mut told.received)?;
    for (hub, signal) in left {
        // A reader that waits for another hub may keep this one from taking more.
        if !is_published(alloc, graph, HubId(hub), &signal)? {
            break;
        }
        published.push((hub, signal))?;
        pump(alloc, graph, &mut told.received)?;
    }
    for hub in 0..plan.emitters {
        if graph.complete(HubId(hub)).is_ok() {
            published.push((hub, Signal::Complete))?;
        }
    }
    pump(alloc, graph, &mut told.received)
}

/// Publishes a signal, and answers whether the hub took it.
fn is_published(
    alloc: Global,
    graph: &mut Graph<Demo>,
    hub: HubId,
    signal: &Signal<Val>,
) -> Result<bool> {
    Ok(match signal {
        Signal::Next(item) => graph.emit(hub, copy_val(alloc, item)?).is_ok(),
        Signal::Complete => graph.complete(hub).is_ok(),
        Signal::Error(Cause::User(number)) => graph.fail(hub, *number).is_ok(),
        Signal::Error(_) => false,
    })
}

/// Makes moves until none is left to make, and puts what was delivered behind what was received.
fn pump(alloc: Global, graph: &mut Graph<Demo>, received: &mut Log) -> Result<()> {
    let mut deliveries = Deliveries::new(alloc);
    let pumped = graph.pump(alloc, MOST_MOVES, &mut deliveries)?;
    for (sub, signal) in deliveries.into_vec() {
        received.push((sub.0, signal))?;
    }
    match pumped {
        Pumped::Idle => Ok(()),
        Pumped::Budget => bail!("there is no end of it"),
    }
}
