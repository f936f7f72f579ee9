//! Threads that work on a graph behind its gate, beside each other.

ghost use Rattle.std.specs.Prelude.{◌≡◌, ◌<◌, IfOk, IfSome};
ghost use Rattle.std.specs.Thread.{IsSync};
ghost use Rattle.rsx_gate.specs.Seats.{IsSeatOf};
ghost use Rattle.test_random.specs.Ends.{AreCancellersOf, AreTapsOf, IsCancellerOf, IsEmitterOf, IsReady};

use crate::ends::cancel_times;
use crate::trial::Log;
use crate::work::{Emits, Taken, Takes, emit, poke_times, take};
use rsx_demo::{Demo, Val};
use rsx_link::Link;
use rsx_runtime::Canceller;
use rsx_serialized::{Emitter, GraphSeat, Links, SerializedGraph, Tap};
use rsx_types::NoMemory;
use std::alloc::Global;
use std::thread;
use std::thread::Threads;

/// How a graph is poked.
#[derive(Clone, Copy)]
pub struct Pokes {
    /// By how many threads.
    pub threads: u8,
    /// How often by each.
    pub times: u32,
    /// With which budget.
    pub budget: u32,
}

/// Some cancellers, which cancel at once.
#[derive(Drop)]
pub struct Cancellers {
    /// This one is called twice.
    pub first: Option<Canceller>,
    /// A further one.
    pub second: Option<Canceller>,
    /// A further one.
    pub third: Option<Canceller>,
    /// A further one.
    pub fourth: Option<Canceller>,
}

/// What threads have that work at the ends of links, and what they do there.
#[derive(Drop)]
pub struct Work {
    /// An emitter.
    pub first: Option<Emitter<Val>>,
    /// Another one.
    pub second: Option<Emitter<Val>>,
    /// What the two publish.
    pub emits: Emits,
    /// The cancellers.
    pub cancellers: Cancellers,
    /// The taps.
    pub taps: Vec<Tap<Val>>,
    /// What calls are made of them.
    pub takes: Takes,
}

/// What comes back from these threads.
#[derive(Drop)]
pub struct Worked {
    /// What the emitters took.
    pub sent: Log,
    /// What comes back from the taps.
    pub taken: Taken,
}

/// Pokes a graph on threads, and runs `main` on the calling thread meanwhile. It calls itself once for each thread, and so each thread is
/// joined by the call that started it. The seat comes back with all its parts.
pub fn poke_on_threads<R: Threads + Sync, A, F: FnOnce() -> A>(
    rt: &R,
    alloc: Global,
    graph: &SerializedGraph<Demo>,
    mut seat: GraphSeat<Demo>,
    pokes: Pokes,
    main: F,
) -> (GraphSeat<Demo>, A)
    requires seat { IsSeatOf graph.now.gate seat }
    requires parts { pokes.threads < seat.me.0.parts }
    requires main { F.pre main }
    ensures seat { IsSeatOf graph.now.gate result.0 }
    ensures parts { result.0.me.0.parts ≡ seat.me.0.parts }
    ensures answer { F.post main result.1 }
{
    let Some(threads) = pokes.threads.checked_sub(1) else {
        return (seat, main());
    };
    let fewer = Pokes { threads, ..pokes };
    let other = graph.split(&mut seat);
    let (other, (mut seat, answer)) = thread::join(
        rt,
        || -> GraphSeat<Demo>
            requires { IsSeatOf graph.now.gate other }
            ensures { IsSeatOf graph.entry.now.gate result × (result.me.0.parts ≡ other.me.0.parts) }
        { poke_times(alloc, graph, other, pokes.times, pokes.budget) },
        || -> (GraphSeat<Demo>, A)
            requires { IsSync R.row × IsSeatOf graph.now.gate seat × (fewer.threads < seat.me.0.parts) × F.pre main }
            ensures { IsSeatOf graph.entry.now.gate result.0 × (result.0.me.0.parts ≡ seat.me.0.parts) × F.post main result.1 }
        { poke_on_threads(rt, alloc, graph, seat, fewer, main) },
    );
    graph.join(&mut seat, other);
    (seat, answer)
}

/// Publishes by the emitters on a thread each, while the cancellers cancel on theirs, and calls of the taps are made on this one.
///
/// # Errors
/// [`NoMemory`] where a growth was refused.
pub fn work_beside<R: Threads + Sync>(
    rt: &R,
    alloc: Global,
    links: &Links<Val>,
    work: Work,
) -> Result<Worked, NoMemory>
    requires { IsReady links.now work }
    ensures { IfOk result (λ w. AreTapsOf links.now.taps.items w.taken.taps.items) }
{
    let Work {
        first,
        second,
        emits,
        cancellers,
        taps,
        takes,
    } = work;
    let emitters = &links.emitters;
    let tapped = &links.taps;
    let (sent, taken) = thread::join(
        rt,
        || -> Result<Log, NoMemory>
            requires { IsSync R.row × IfSome first (λ e. IsEmitterOf emitters.now.items e) × IfSome second (λ e. IsEmitterOf emitters.now.items e) }
        { emit_beside(rt, alloc, emitters, first, second, emits) },
        || -> Result<Taken, NoMemory>
            requires { IsSync R.row × AreCancellersOf tapped.now.items cancellers × AreTapsOf tapped.now.items taps.items }
            ensures { IfOk result (λ t. AreTapsOf tapped.entry.now.items t.taps.items) }
        { take_beside(rt, alloc, tapped, cancellers, taps, takes) },
    );
    let sent = sent?;
    let taken = taken?;
    Ok(Worked { sent, taken })
}

/// Publishes by the emitters on a thread each, and answers what they took, that of the first in front.
fn emit_beside<R: Threads + Sync>(
    rt: &R,
    alloc: Global,
    links: &Vec<Link<Val>>,
    first: Option<Emitter<Val>>,
    second: Option<Emitter<Val>>,
    emits: Emits,
) -> Result<Log, NoMemory>
    requires first { IfSome first (λ e. IsEmitterOf links.now.items e) }
    requires second { IfSome second (λ e. IsEmitterOf links.now.items e) }
{
    let (all, more) = thread::join(
        rt,
        || -> Result<Log, NoMemory>
            requires { IfSome first (λ e. IsEmitterOf links.now.items e) }
        { emit(alloc, links, first, emits) },
        || -> Result<Log, NoMemory>
            requires { IfSome second (λ e. IsEmitterOf links.now.items e) }
        { emit(alloc, links, second, emits) },
    );
    let mut all = all?;
    for signal in more? {
        all.push(signal)?;
    }
    Ok(all)
}

/// Makes calls of the taps, while the cancellers cancel on threads.
fn take_beside<R: Threads + Sync>(
    rt: &R,
    alloc: Global,
    links: &Vec<Link<Val>>,
    cancellers: Cancellers,
    taps: Vec<Tap<Val>>,
    takes: Takes,
) -> Result<Taken, NoMemory>
    requires cancellers { AreCancellersOf links.now.items cancellers }
    requires taps { AreTapsOf links.now.items taps.items }
    ensures { IfOk result (λ t. AreTapsOf links.now.items t.taps.items) }
{
    let ((), taken) = thread::join(
        rt,
        || -> ()
            requires { IsSync R.row × AreCancellersOf links.now.items cancellers }
        { cancel_all(rt, links, cancellers) },
        || -> Result<Taken, NoMemory>
            requires { AreTapsOf links.now.items taps.items }
            ensures { IfOk result (λ t. AreTapsOf links.entry.now.items t.taps.items) }
        { take(alloc, links, taps, takes) },
    );
    taken
}

/// Cancels by all of them, each on a thread of its own.
fn cancel_all<R: Threads + Sync>(rt: &R, links: &Vec<Link<Val>>, cancellers: Cancellers)
    requires { AreCancellersOf links.now.items cancellers }
{
    let Cancellers {
        first,
        second,
        third,
        fourth,
    } = cancellers;
    thread::join(
        rt,
        || -> ()
            requires { IsSync R.row × IfSome first (λ c. IsCancellerOf links.now.items c) × IfSome second (λ c. IsCancellerOf links.now.items c) }
        { cancel_beside(rt, links, first, second, 2) },
        || -> ()
            requires { IsSync R.row × IfSome third (λ c. IsCancellerOf links.now.items c) × IfSome fourth (λ c. IsCancellerOf links.now.items c) }
        { cancel_beside(rt, links, third, fourth, 1) },
    );
}

/// Cancels by two of them on two threads, by the first so many times.
fn cancel_beside<R: Threads + Sync>(
    rt: &R,
    links: &Vec<Link<Val>>,
    first: Option<Canceller>,
    second: Option<Canceller>,
    times: u32,
)
    requires first { IfSome first (λ c. IsCancellerOf links.now.items c) }
    requires second { IfSome second (λ c. IsCancellerOf links.now.items c) }
{
    thread::join(
        rt,
        || -> ()
            requires { IfSome first (λ c. IsCancellerOf links.now.items c) }
        { cancel_times(links, first, times) },
        || -> ()
            requires { IfSome second (λ c. IsCancellerOf links.now.items c) }
        { cancel_times(links, second, 1) },
    );
}
