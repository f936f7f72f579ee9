//! What each thread does while a graph is behind its gate.

ghost use Rattle.std.specs.Prelude.{◌≡◌, IfOk, IfSome};
ghost use Rattle.rsx_gate.specs.Seats.{IsSeatOf};
ghost use Rattle.rsx_link.specs.Ends.{IsUpOf};
ghost use Rattle.test_random.specs.Ends.{AreTapsOf, IsEmitterOf};

use crate::driven::Call;
use crate::ends::{call_at, link_at, publish_over};
use crate::numbers::Numbers;
use crate::trial::Log;
use rsx_demo::Val;
use rsx_link::Link;
use rsx_serialized::{Emitter, GraphSeat, SerializedGraph, Tap};
use rsx_types::{Cause, NoMemory, Ops, Signal};
use std::alloc::Global;

/// How often an emitter tries at most to publish numbers, since those that poke the graph may have ended.
const TRIES: u32 = 1_000_000;

/// How many numbers a thread draws at most between two calls, so that others get on meanwhile.
const MOST_DRAWN: u32 = 2_000;

/// How many signals an emitter tries to publish at most, where it draws them.
const MOST_SENT: u32 = 24;

/// How many calls a tap makes at most, where it draws them.
const MOST_CALLS: u32 = 64;

/// What an emitter publishes.
#[derive(Clone, Copy)]
pub enum Emits {
    /// So many numbers, from 0 on, each again where the queue has no room.
    Numbers(u32),
    /// Signals that are drawn from this seed, for each emitter others, each once.
    Any(u32),
}

/// What calls are made of the taps.
#[derive(Clone, Copy)]
pub enum Takes {
    /// The first requests so many items, and tries so often to take one.
    First(i64, u32),
    /// The first requests an item, and then 0 twice.
    Badly,
    /// Calls of all of them, which are drawn from this seed.
    Any(u32),
}

/// What comes back from the thread that has the taps.
#[derive(Drop)]
pub struct Taken {
    /// The taps.
    pub taps: Vec<Tap<Val>>,
    /// What they gave, but for errors of bad requests.
    pub received: Log,
    /// The subscriptions whose taps made a bad request, once for each.
    pub refused: Vec<u32>,
    /// How many errors of bad requests they gave.
    pub errors: u32,
}

/// Pokes a graph so many times with this budget.
pub fn poke_times<O: Ops>(
    alloc: Global,
    graph: &SerializedGraph<O>,
    mut seat: GraphSeat<O>,
    times: u32,
    budget: u32,
) -> GraphSeat<O>
    requires { IsSeatOf graph.now.gate seat }
    ensures seat { IsSeatOf graph.now.gate result }
    ensures parts { result.me.0.parts ≡ seat.me.0.parts }
{
    for _ in 0..times {
        let _ = graph.poke(alloc, &mut seat, budget);
    }
    seat
}

/// Publishes by this emitter, if there is one, and answers what it took.
///
/// # Errors
/// [`NoMemory`] where a growth was refused.
pub fn emit(
    alloc: Global,
    links: &Vec<Link<Val>>,
    emitter: Option<Emitter<Val>>,
    emits: Emits,
) -> Result<Log, NoMemory>
    requires { IfSome emitter (λ e. IsEmitterOf links.now.items e) }
{
    match emitter {
        Some(emitter) => emit_by(alloc, links, emitter, emits),
        None => Ok(Vec::new(alloc)),
    }
}

/// The same of one emitter.
fn emit_by(
    alloc: Global,
    links: &Vec<Link<Val>>,
    emitter: Emitter<Val>,
    emits: Emits,
) -> Result<Log, NoMemory>
    requires { IsEmitterOf links.now.items emitter }
{
    let link = link_at(links, emitter.link());
    let hub = emitter.hub().0;
    match emits {
        Emits::Numbers(count) => emit_numbers(alloc, link, emitter, count),
        Emits::Any(seed) => emit_any(alloc, link, emitter, seed ^ hub),
    }
}

/// Publishes the numbers from 0 on, each again where the queue has no room, until so many were taken.
fn emit_numbers(
    alloc: Global,
    link: &Link<Val>,
    mut emitter: Emitter<Val>,
    count: u32,
) -> Result<Log, NoMemory>
    requires { IsUpOf link.now emitter.up }
{
    let mut sent = Vec::new(alloc);
    let mut next = 0u32;
    for _ in 0..TRIES {
        if next >= count {
            break;
        }
        if publish_over(link, &mut emitter, any_signal(2, next)) {
            sent.push((emitter.hub().0, any_signal(2, next)))?;
            next += 1;
        }
    }
    Ok(sent)
}

/// Publishes signals that are drawn from this seed, and answers those that were taken.
fn emit_any(
    alloc: Global,
    link: &Link<Val>,
    mut emitter: Emitter<Val>,
    seed: u32,
) -> Result<Log, NoMemory>
    requires { IsUpOf link.now emitter.up }
{
    let mut sent = Vec::new(alloc);
    let mut numbers = Numbers::new(seed);
    for _ in 0..numbers.below(MOST_SENT) {
        let kind = numbers.below(64);
        let number = numbers.below(9);
        if publish_over(link, &mut emitter, any_signal(kind, number)) {
            sent.push((emitter.hub().0, any_signal(kind, number)))?;
        }
        draw_some(&mut numbers);
    }
    Ok(sent)
}

/// A number as an item, or now and then an ending.
pub fn any_signal(kind: u32, number: u32) -> Signal<Val> {
    match kind {
        0 => Signal::Complete,
        1 => Signal::Error(Cause::User(7)),
        _ => Signal::Next(Val::Int(i64::from(number))),
    }
}

/// Makes the calls of the taps.
///
/// # Errors
/// [`NoMemory`] where a growth was refused.
pub fn take(
    alloc: Global,
    links: &Vec<Link<Val>>,
    taps: Vec<Tap<Val>>,
    takes: Takes,
) -> Result<Taken, NoMemory>
    requires { AreTapsOf links.now.items taps.items }
    ensures { IfOk result (λ r. AreTapsOf links.now.items r.taps.items) }
{
    let mut taken = Taken {
        taps,
        received: Vec::new(alloc),
        refused: Vec::new(alloc),
        errors: 0,
    };
    taken.make(links, takes)?;
    Ok(taken)
}

impl Taken {
    ghost use Rattle.std.specs.Prelude.{◌≡◌};
    ghost use Rattle.test_random.specs.Ends.{AreTapsOf};

    /// Makes the calls, and keeps what they gave.
    fn make(&mut self, links: &Vec<Link<Val>>, takes: Takes) -> Result<(), NoMemory>
        requires { AreTapsOf links.now.items self.old.taps.items }
        ensures { AreTapsOf links.now.items self.new.taps.items }
    {
        match takes {
            Takes::First(request, tries) => {
                self.call(links, 0, Call::Request(request))?;
                self.take_first(links, tries)
            }
            Takes::Badly => {
                self.call(links, 0, Call::Request(1))?;
                self.call(links, 0, Call::Request(0))?;
                self.call(links, 0, Call::Request(0))
            }
            Takes::Any(seed) => self.call_any(links, seed),
        }
    }

    /// Makes a call of the tap of this subscription, and keeps what it gave.
    fn call(&mut self, links: &Vec<Link<Val>>, sub: u32, call: Call) -> Result<(), NoMemory>
        requires { AreTapsOf links.now.items self.old.taps.items }
        ensures { AreTapsOf links.now.items self.new.taps.items }
    {
        if let Call::Request(0) = call {
            self.refused.push(sub)?;
        }
        match call_at(links, &mut self.taps, sub as usize, call) {
            None => {}
            Some(Signal::Error(Cause::NonPositiveRequest)) => {
                self.errors = self.errors.saturating_add(1);
            }
            Some(signal) => self.received.push((sub, signal))?,
        }
        Ok(())
    }

    /// Tries so often to take by the first tap.
    fn take_first(&mut self, links: &Vec<Link<Val>>, tries: u32) -> Result<(), NoMemory>
        requires { AreTapsOf links.now.items self.old.taps.items }
        ensures { AreTapsOf links.now.items self.new.taps.items }
    {
        for _ in 0..tries {
            self.call(links, 0, Call::Take)?;
        }
        Ok(())
    }

    /// Makes calls of all taps, which are drawn from this seed.
    fn call_any(&mut self, links: &Vec<Link<Val>>, seed: u32) -> Result<(), NoMemory>
        requires { AreTapsOf links.now.items self.old.taps.items }
        ensures { AreTapsOf links.now.items self.new.taps.items }
    {
        let mut numbers = Numbers::new(seed);
        let subs = u32::try_from(self.taps.len()).unwrap_or(0);
        for _ in 0..numbers.below(MOST_CALLS) {
            let sub = numbers.below(subs);
            let call = any_call(&mut numbers);
            self.call(links, sub, call)?;
            draw_some(&mut numbers);
        }
        Ok(())
    }
}

/// Draws some numbers, which takes a while.
fn draw_some(numbers: &mut Numbers) {
    for _ in 0..numbers.below(MOST_DRAWN) {
        numbers.below(2);
    }
}

/// A call of a tap, mostly a take.
fn any_call(numbers: &mut Numbers) -> Call {
    match numbers.below(64) {
        0 => Call::Cancel,
        1 => Call::Request(0),
        2..=19 => Call::Request(i64::from(numbers.below(3)) + 1),
        _ => Call::Take,
    }
}
