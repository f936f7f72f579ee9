//! The regions of a live graph are served on threads.

ghost use Rattle.std.specs.Prelude.{◌≡◌, ◌≤◌, length};
ghost use Rattle.std.specs.Fn.{FnOnceReturnsAtMut};
ghost use Rattle.std.specs.List.{AllZip};
ghost use Rattle.rsx_gate.specs.Machine.{all_parts};
ghost use Rattle.rsx_gate.specs.Seats.{IsSeatOf};
ghost use Rattle.rsx_runtime.specs.Poking.{IsAmong};
ghost use Rattle.rsx_runtime.specs.declared.TheConstants.{MOST_WORKERS};
ghost use Rattle.rsx_runtime.specs.declared.park.Rouser.{Rouser as RouserSpec};

use crate::graph::LiveGraph;
use rsx_kinds::TreeNode;
use rsx_runtime::{Live, ParkRest, Parkers, RegionSeat, Rouser, serve_seats, work};
use rsx_types::Ops;
use std::alloc::Global;
use std::sync::Wait;
use std::thread::Threads;

/// Serves each region of the graph by a worker on a thread of its own, and runs `main` on the calling thread meanwhile, as
/// [`serve_seats`] says. Worker w works on region w by [`work`]. There is a seat for each region, in their order, each with all parts, and a
/// parker for each. The seats come back so, with what `main` answered, so that the graph may be closed.
pub fn serve_regions<
    R: Threads + Wait + Sync,
    T: Send + Drop,
    O: Ops<Item = T> + Sync,
    A,
    F: FnOnce(&mut Rouser) -> A,
>(
    rt: &R,
    alloc: Global,
    graph: &LiveGraph<O>,
    seats: Vec<RegionSeat<TreeNode<T>, T, O>>,
    parkers: Parkers,
    main: F,
) -> (Vec<RegionSeat<TreeNode<T>, T, O>>, A)
    requires seats { AllZip (λ g s. IsSeatOf g s × (all_parts ≤ s.me.0.parts)) graph.now.subs.live.gates.items seats.items }
    requires few { length seats.items ≤ MOST_WORKERS }
    requires parkers { length parkers.rests.items ≡ length seats.items }
    requires main { F.IsAlwaysCallable main }
    ensures seats { AllZip (λ g s. IsSeatOf g s × (all_parts ≤ s.me.0.parts)) graph.now.subs.live.gates.items result.0.items }
    ensures answer { (was : RouserSpec) × (is : RouserSpec) × (length was.unparkers.items ≡ length seats.items) × FnOnceReturnsAtMut F.FnOnce main was result.1 is }
{
    serve_live(rt, alloc, graph.live(), seats, parkers, main)
}

/// The same, by the regions themselves.
fn serve_live<
    R: Threads + Wait + Sync,
    T: Send + Drop,
    O: Ops<Item = T> + Sync,
    A,
    F: FnOnce(&mut Rouser) -> A,
>(
    rt: &R,
    alloc: Global,
    live: &Live<TreeNode<T>, T, O>,
    seats: Vec<RegionSeat<TreeNode<T>, T, O>>,
    parkers: Parkers,
    main: F,
) -> (Vec<RegionSeat<TreeNode<T>, T, O>>, A)
    requires seats { AllZip (λ g s. IsSeatOf g s × (all_parts ≤ s.me.0.parts)) live.now.gates.items seats.items }
    requires few { length seats.items ≤ MOST_WORKERS }
    requires parkers { length parkers.rests.items ≡ length seats.items }
    requires main { F.IsAlwaysCallable main }
    ensures seats { AllZip (λ g s. IsSeatOf g s × (all_parts ≤ s.me.0.parts)) live.now.gates.items result.0.items }
    ensures answer { (was : RouserSpec) × (is : RouserSpec) × (length was.unparkers.items ≡ length seats.items) × FnOnceReturnsAtMut F.FnOnce main was result.1 is }
{
    let serve = |region: u8, seat: RegionSeat<TreeNode<T>, T, O>, rest: ParkRest| -> RegionSeat<
        TreeNode<T>,
        T,
        O,
    >
        requires { IsAmong live.now.gates.items region (λ g. IsSeatOf g seat) }
        ensures { IsAmong live.entry.now.gates.items region (λ g. IsSeatOf g result) × (result.me.0.parts ≡ seat.me.0.parts) }
    { worked(rt, alloc, live, region, seat, rest) };
    serve_seats(rt, &serve, seats, parkers, main)
}

/// Works by this seat until the rest says stop, and gives the seat back.
// In a function of its own, since here the prover compares what the nodes of a graph are with what is asked of nodes.
fn worked<R: Wait, T: Drop, O: Ops<Item = T>>(
    rt: &R,
    alloc: Global,
    live: &Live<TreeNode<T>, T, O>,
    region: u8,
    mut seat: RegionSeat<TreeNode<T>, T, O>,
    mut rest: ParkRest,
) -> RegionSeat<TreeNode<T>, T, O>
    requires { IsAmong live.now.gates.items region (λ g. IsSeatOf g seat) }
    ensures seat { IsAmong live.now.gates.items region (λ g. IsSeatOf g result) }
    ensures parts { result.me.0.parts ≡ seat.me.0.parts }
{
    work(rt, alloc, live, region, &mut seat, &mut rest);
    seat
}
