//! The regions of a live graph are served on threads.

ghost use Rattle.std.specs.Prelude.{◌≡◌, ◌≤◌, length};
ghost use Rattle.std.specs.Fn.{FnOnceReturnsAtMut};
ghost use Rattle.rsx_runtime.specs.Seated.{HaveServed, MayServe};
ghost use Rattle.rsx_runtime.specs.declared.TheConstants.{MOST_WORKERS};
ghost use Rattle.rsx_runtime.specs.declared.park.Rouser.{Rouser as RouserSpec};

use crate::each::serve_each;
use crate::park::{ParkRest, Rouser};
use crate::parkers::Parkers;
use std::sync::Wait;
use std::thread::Threads;

/// Serves each region by a worker on a thread of its own, and runs `main` on the calling thread meanwhile. There is a seat for each
/// region, in their order, no more than [`MOST_WORKERS`](crate::MOST_WORKERS), and a parker for each. `serve` is called with a region,
/// its seat and what rests on its parker: it works by them, by [`work`](crate::work), and gives the seat back.
///
/// `main` is given what rouses the workers: it does so after a request, a take or a cancel, since these calls don't say which region
/// they touched. As it returns, the workers are stopped: each ends after its next rest, and has that once nothing is left to do in its
/// region. The call returns once all have ended, which may be never.
///
/// The seats come back as `serve` gave them back. Where the system refuses a thread, its worker works on the calling thread once `main`
/// has returned.
///
/// Nothing is asked of the seats but that they may go to another thread, since at a call with a bound on the nodes the prover compares all
/// that stands there: `serve` is made where the type of the nodes is known.
pub fn serve_seats<
    R: Threads + Wait + Sync,
    S: Send + Drop,
    L: Fn(u8, S, ParkRest) -> S + Sync,
    A,
    F: FnOnce(&mut Rouser) -> A,
>(rt: &R, serve: &L, seats: Vec<S>, parkers: Parkers, main: F) -> (Vec<S>, A)
    requires seats { MayServe L.Fn serve.now seats.items }
    requires few { length seats.items ≤ MOST_WORKERS }
    requires parkers { length parkers.rests.items ≡ length seats.items }
    requires main { F.IsAlwaysCallable main }
    ensures seats { HaveServed L.Fn serve.now seats.items result.0.items }
    ensures answer { (was : RouserSpec) × (is : RouserSpec) × (length was.unparkers.items ≡ length seats.items) × FnOnceReturnsAtMut F.FnOnce main was result.1 is }
{
    let Parkers { rouser, rests } = parkers;
    serve_each(rt, serve, seats, rests, rouser, main)
}
