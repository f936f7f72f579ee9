//! A thread for each of several seats.

ghost use Rattle.std.specs.Prelude.{◌≡◌, ◌≤◌, ℕ, length};
ghost use Rattle.std.specs.Fn.{FnOnceReturnsAtMut};
ghost use Rattle.std.specs.Thread.{IsSend, IsSync};
ghost use Rattle.std.specs.Vec.{vec_capacity};
ghost use Rattle.rsx_runtime.specs.declared.park.Rouser.{Rouser as RouserSpec};
ghost use Rattle.rsx_runtime.specs.Seated.{HaveServed, MayServe};

use crate::park::Rouser;
use std::sync::Wait;
use std::thread;
use std::thread::Threads;

/// Serves each place on a thread of its own, and runs `main` on this one; as that returns, it stops the workers. The last seats come
/// first. It calls itself once for each seat, and so each thread is joined by the call that started it. Where no thread can be made for a
/// seat, its place is served after `main`.
pub(crate) fn serve_each<
    R: Threads + Wait + Sync,
    S: Send + Drop,
    W: Send + Drop,
    L: Fn(u8, S, W) -> S + Sync,
    A,
    F: FnOnce(&mut Rouser) -> A,
>(
    rt: &R,
    serve: &L,
    mut seats: Vec<S>,
    mut rests: Vec<W>,
    mut rouser: Rouser,
    main: F,
) -> (Vec<S>, A)
    requires seats { MayServe L.Fn serve.now seats.items }
    requires rests { length rests.items ≡ length seats.items }
    requires few { length seats.items ≤ 256 }
    requires main { F.IsAlwaysCallable main }
    ensures seats { HaveServed L.Fn serve.now seats.items result.0.items }
    ensures room { vec_capacity result.0 ≡ vec_capacity seats }
    ensures answer { (is : RouserSpec) × FnOnceReturnsAtMut F.FnOnce main rouser result.1 is }
{
    let Some(seat) = seats.pop() else {
        let answer = call(main, &mut rouser);
        rouser.stop();
        return (seats, answer);
    };
    let Some(rest) = rests.pop() else {
        unreachable!()
    };
    let place = seats.len() as u8;
    let (seat, (mut seats, answer)) = thread::join(
        rt,
        || -> S
            requires { L.pre serve.now place seat rest }
            ensures { L.post serve.entry.now place seat rest result }
        { serve(place, seat, rest) },
        || -> (Vec<S>, A)
            requires { IsSync R.row × IsSync L.row × IsSend S.row × IsSend W.row × MayServe L.Fn serve.now seats.items × (length rests.items ≡ length seats.items) × (length seats.items ≤ 256) × F.IsAlwaysCallable main }
            ensures { HaveServed L.Fn serve.entry.now seats.items result.0.items × (vec_capacity result.0 ≡ vec_capacity seats) × ((is : RouserSpec) × FnOnceReturnsAtMut F.FnOnce main rouser result.1 is) }
        { serve_each(rt, serve, seats, rests, rouser, main) },
    );
    seats.push_reserved(seat);
    (seats, answer)
}

/// Calls it once.
fn call<A, F: FnOnce(&mut Rouser) -> A>(main: F, rouser: &mut Rouser) -> A
    requires { F.IsAlwaysCallable main }
    ensures { FnOnceReturnsAtMut F.FnOnce main rouser.old result rouser.new }
{
    main(rouser)
}
