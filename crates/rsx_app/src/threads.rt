//! The regions of a live graph are served on threads.

ghost use Rattle.std.specs.Prelude.{◌≡◌, ◌≤◌, length, IfOk};
ghost use Rattle.std.specs.List.{AllZip};
ghost use Rattle.rsx_gate.specs.Machine.{all_parts};
ghost use Rattle.rsx_gate.specs.Seats.{IsSeatOf};
ghost use Rattle.rsx_runtime.specs.declared.TheConstants.{MOST_WORKERS};
ghost use Rattle.rsx_live.specs.Starts.{AreTapsOf, IsStarted};

use rsx_demo::{Demo, Val};
use rsx_kinds::TreeNode;
use rsx_live::{LiveGraph, StartedGraph, Tap, serve_regions};
use rsx_runtime::{Parkers, RegionSeat, Rouser};
use rsx_types::{NoMemory, Signal, SubId};
use std::alloc::Global;
use std::sync::Wait;
use std::thread;
use std::thread::Threads;
use std::time::{Clock, Duration};

/// How long the calling thread pauses where nothing came, in microseconds.
const PAUSE: u64 = 50;

/// In how many turns one after the other the calling thread finds nothing before it stops the workers.
const QUIET_TURNS: u32 = 8;

/// What the calling thread takes while the workers serve: at most so many signals of a subscription. An order of none is never met, so
/// the calling thread waits until it found nothing for some turns.
#[derive(Clone, Copy, Debug)]
pub struct Order {
    /// The subscription. One without a tap gives nothing.
    pub sub: SubId,
    /// How many signals at most.
    pub count: u64,
}

impl Order {
    /// Whether so many signals are all that are ordered.
    fn is_met(self, taken: usize) -> bool {
        self.count > 0 && taken as u64 >= self.count
    }
}

/// What the calling thread has once it stops the workers.
#[derive(Drop)]
struct Taken {
    taps: Vec<Tap<Val>>,
    signals: Result<Vec<Signal<Val>>, NoMemory>,
}

/// What comes back from the regions and from the calling thread.
struct Back {
    seats: Vec<RegionSeat<TreeNode<Val>, Val, Demo>>,
    answer: Taken,
}

/// Serves each region by a worker on a thread of its own, while the calling thread takes what is ordered. It stops the workers once it
/// has all of that, or found nothing for some turns. Then each worker ends once it finds nothing to do in its region; another may still
/// put something there.
///
/// # Errors
///
/// `NoMemory` where a growth was refused. Nothing comes back then.
pub fn serve_order<R: Threads + Wait + Sync + Clock>(
    rt: &R,
    alloc: Global,
    started: StartedGraph<Demo>,
    order: Order,
) -> Result<(StartedGraph<Demo>, Vec<Signal<Val>>), NoMemory>
    requires { IsStarted started }
    ensures { IfOk result (λ r. IsStarted r.0) }
{
    let StartedGraph { live, taps, seats } = started;
    let back = serve_and_take(rt, alloc, &live, &live, taps, seats, order)?;
    put_together(live, back)
}

/// The live graph with its taps and seats again, and what was taken.
fn put_together(
    live: LiveGraph<Demo>,
    back: Back,
) -> Result<(StartedGraph<Demo>, Vec<Signal<Val>>), NoMemory>
    ensures { IfOk result (λ r. (r.0.live ≡ live) × (r.0.taps ≡ back.answer.taps) × (r.0.seats ≡ back.seats)) }
{
    let Back { seats, answer } = back;
    let Taken { taps, signals } = answer;
    let signals = signals?;
    Ok((StartedGraph { live, taps, seats }, signals))
}

/// Serves the regions of this graph so, by these taps and seats. It is borrowed twice: by the calling thread, and by the workers.
fn serve_and_take<R: Threads + Wait + Sync + Clock>(
    rt: &R,
    alloc: Global,
    graph: &LiveGraph<Demo>,
    served: &LiveGraph<Demo>,
    taps: Vec<Tap<Val>>,
    seats: Vec<RegionSeat<TreeNode<Val>, Val, Demo>>,
    order: Order,
) -> Result<Back, NoMemory>
    requires same { served.now ≡ graph.now }
    requires taps { AreTapsOf graph.now taps.items }
    requires seats { AllZip (λ g s. IsSeatOf g s × (all_parts ≤ s.me.0.parts)) served.now.subs.live.gates.items seats.items }
    requires few { length seats.items ≤ MOST_WORKERS }
    ensures taps { IfOk result (λ b. AreTapsOf graph.now b.answer.taps.items) }
    ensures seats { IfOk result (λ b. AllZip (λ g s. IsSeatOf g s × (all_parts ≤ s.me.0.parts)) served.now.subs.live.gates.items b.seats.items) }
{
    let parkers = Parkers::new(alloc, seats.len() as u8)?;
    let main = |rouser: &mut Rouser| -> Taken
        requires { AreTapsOf graph.now taps.items }
        ensures { AreTapsOf graph.entry.now result.taps.items }
    { take_all(rt, alloc, graph, taps, order, rouser) };
    let (seats, answer) = serve_regions(rt, alloc, served, seats, parkers, main);
    Ok(Back { seats, answer })
}

/// Takes what is ordered.
fn take_all<R: Clock>(
    rt: &R,
    alloc: Global,
    graph: &LiveGraph<Demo>,
    mut taps: Vec<Tap<Val>>,
    order: Order,
    rouser: &mut Rouser,
) -> Taken
    requires { AreTapsOf graph.now taps.items }
    ensures { AreTapsOf graph.now result.taps.items }
{
    let mut signals = Vec::new(alloc);
    let ended = take_turns(rt, graph, &mut taps, order, rouser, &mut signals);
    let signals = match ended {
        Ok(()) => Ok(signals),
        Err(NoMemory) => Err(NoMemory),
    };
    Taken { taps, signals }
}

/// Takes in turns, each with a pause where nothing came in it. The workers are roused in each turn, since a tap that took makes room.
fn take_turns<R: Clock>(
    rt: &R,
    graph: &LiveGraph<Demo>,
    taps: &mut Vec<Tap<Val>>,
    order: Order,
    rouser: &mut Rouser,
    signals: &mut Vec<Signal<Val>>,
) -> Result<(), NoMemory>
    requires { AreTapsOf graph.now taps.old.items }
    ensures { AreTapsOf graph.now taps.new.items }
{
    let mut quiet = 0;
    for _ in 0..u64::MAX {
        if quiet >= QUIET_TURNS {
            break;
        }
        rouser.rouse(u16::MAX);
        let before = signals.len();
        take_waiting(graph, taps, order, signals)?;
        if order.is_met(signals.len()) {
            break;
        }
        if signals.len() > before {
            quiet = 0;
        } else {
            quiet += 1;
            thread::sleep(rt, Duration::from_micros(PAUSE));
        }
    }
    Ok(())
}

/// Takes what waits of what is ordered.
fn take_waiting(
    graph: &LiveGraph<Demo>,
    taps: &mut Vec<Tap<Val>>,
    order: Order,
    signals: &mut Vec<Signal<Val>>,
) -> Result<(), NoMemory>
    requires { AreTapsOf graph.now taps.old.items }
    ensures { AreTapsOf graph.now taps.new.items }
{
    for _ in signals.len() as u64..order.count {
        match graph.take(taps, order.sub) {
            Some(signal) => signals.push(signal)?,
            None => break,
        }
    }
    Ok(())
}
