//! A thread of its own cancels a subscription of a live graph, while the calling thread makes calls and others serve the regions.

ghost use Rattle.std.specs.Prelude.{◌<◌, length};
ghost use Rattle.std.specs.Thread.{IsSync};
ghost use Rattle.rsx_live.specs.Starts.{AreTapsOf};
ghost use Rattle.test_live.specs.Cancelling.{IsCancellerOf};

use crate::chance::{Chance, take_by_chance};
use crate::serving::Taken;
use rsx_demo::{Demo, Val};
use rsx_kinds::TreeNode;
use rsx_live::LiveGraph;
use rsx_runtime::{Canceller, Live, Rouser, Tap};
use std::alloc::Global;
use std::thread;
use std::thread::Threads;
use std::time::{Clock, Duration};

/// Makes calls by chance, while the subscription of the first tap, if there is one, is cancelled after so many microseconds.
pub fn take_beside<R: Threads + Sync + Clock>(
    rt: &R,
    alloc: Global,
    graph: &LiveGraph<Demo>,
    mut taps: Vec<Tap<Val>>,
    chance: Chance,
    pause: u32,
    rouser: &mut Rouser,
) -> Taken<Val>
    requires { AreTapsOf graph.now taps.items }
    ensures { AreTapsOf graph.now result.taps.items }
{
    if taps.is_empty() {
        return take_by_chance(rt, alloc, graph, taps, chance, rouser);
    }
    let canceller = canceller_at(graph, &mut taps, 0);
    let live = graph.live();
    let ((), taken) = thread::join(
        rt,
        || -> ()
            requires { IsSync R.row × IsCancellerOf live.now canceller }
        { cancel_after(rt, live, canceller, pause) },
        || -> Taken<Val>
            requires { AreTapsOf graph.now taps.items }
            ensures { AreTapsOf graph.entry.now result.taps.items }
        { take_by_chance(rt, alloc, graph, taps, chance, rouser) },
    );
    taken
}

/// Makes a canceller of the tap at this place.
fn canceller_at(graph: &LiveGraph<Demo>, taps: &mut Vec<Tap<Val>>, place: usize) -> Canceller
    requires there { place < length taps.old.items }
    requires taps { AreTapsOf graph.now taps.old.items }
    ensures taps { AreTapsOf graph.now taps.new.items }
    ensures canceller { IsCancellerOf graph.now.subs.live result }
{
    let tap = &mut taps[place];
    tap.canceller(graph.live())
}

/// Cancels after so many microseconds.
fn cancel_after<R: Clock>(
    rt: &R,
    live: &Live<TreeNode<Val>, Val, Demo>,
    mut canceller: Canceller,
    pause: u32,
)
    requires { IsCancellerOf live.now canceller }
{
    thread::sleep(rt, Duration::from_micros(u64::from(pause)));
    canceller.cancel(live);
}
