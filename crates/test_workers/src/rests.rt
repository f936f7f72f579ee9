//! Rests on parkers: one thread rests, and another rouses or stops it. A rest from which no one wakes would hang.

use rsx_runtime::{ParkRest, Rest, Rested, Rouser};
use std::alloc::Global;
use std::sync::Wait;
use std::test::Fail;
use std::thread;
use std::thread::Threads;

// What two rests of one worker answered: one that is roused from another thread, and one that is stopped.
fn rest_twice<R: Threads + Wait + Sync>(
    rt: &R,
    mut rouser: Rouser,
    mut rest: ParkRest,
) -> (Rested, Rested) {
    let (roused, ()) = thread::join(rt, || rest.rest(rt), || rouser.rouse(1));
    let (stopped, ()) = thread::join(rt, || rest.rest(rt), || rouser.stop());
    (roused, stopped)
}

// What rouses a worker, and its rest.
fn one_rest(alloc: Global) -> Option<(Rouser, ParkRest)> {
    let (rouser, mut rests) = ParkRest::all(alloc, 1).ok()?;
    let rest = rests.pop()?;
    Some((rouser, rest))
}

#[test]
fn a_rest_ends_where_another_thread_rouses_or_stops_it(rt: HostRuntime) -> Result<(), Fail> {
    for _ in 0..100 {
        let Some((rouser, rest)) = one_rest(rt.alloc()) else {
            return Err(Fail::from("memory"));
        };
        assert_eq!(rt;
            rest_twice(&rt, rouser, rest),
            (Rested::Again, Rested::Stop)
        );
    }
    Ok(())
}
