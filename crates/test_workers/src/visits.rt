//! Two threads add to one count. What each found at the gate depends on the schedule, and the sum does not.

ghost use Rattle.std.specs.Prelude.{◌≡◌, ◌≤◌, IfOk};
ghost use Rattle.rsx_gate.specs.Seats.{IsSeatOf};

use rsx_gate::{Gate, Seat};
use std::alloc::Global;
use std::test::Fail;
use std::thread;
use std::thread::Threads;
use test_gate::{Count, Outcome, visit, visit_by_steps};

// By which calls a thread has the value.
#[derive(Clone, Copy)]
enum By {
    Pass,
    Steps,
}

// Adds one, and tries again until it has had the value.
fn add_one(gate: &Gate<Count, u64>, seat: &mut Seat<Count, u64>, by: By)
    requires { IsSeatOf gate.now seat.old }
    ensures seat { IsSeatOf gate.now seat.new }
    ensures parts { seat.new.me.0.parts ≡ seat.old.me.0.parts }
{
    for _ in 0..u64::MAX {
        let outcome = match by {
            By::Pass => visit(gate, seat),
            By::Steps => visit_by_steps(gate, seat),
        };
        match outcome {
            Outcome::Noted => thread::yield_now(),
            Outcome::Gone | Outcome::More => return,
        }
    }
}

// Adds one that many times.
fn add_many(
    gate: &Gate<Count, u64>,
    mut seat: Seat<Count, u64>,
    times: u32,
    by: By,
) -> Seat<Count, u64>
    requires { IsSeatOf gate.now seat }
    ensures seat { IsSeatOf gate.now result }
    ensures parts { result.me.0.parts ≡ seat.me.0.parts }
{
    for _ in 0..times {
        add_one(gate, &mut seat, by);
    }
    seat
}

// Two threads add one that many times each. At `Err` there was no memory.
fn add_by_two<R: Threads + Sync>(
    rt: &R,
    alloc: Global,
    begin: u64,
    times: u32,
    by: (By, By),
) -> Result<Count, Count>
    ensures { IfOk result (λ count. begin ≤ count.0) }
{
    let (gate, mut mine) = Gate::new(alloc, Count(begin), &begin)?;
    let theirs = gate.split(&mut mine);
    let (mut mine, theirs) = thread::join(
        rt,
        || -> Seat<Count, u64>
            requires { IsSeatOf gate mine }
            ensures { IsSeatOf gate result × (result.me.0.parts ≡ mine.me.0.parts) }
        { add_many(&gate, mine, times, by.0) },
        || -> Seat<Count, u64>
            requires { IsSeatOf gate theirs }
            ensures { IsSeatOf gate result × (result.me.0.parts ≡ theirs.me.0.parts) }
        { add_many(&gate, theirs, times, by.1) },
    );
    gate.join(&mut mine, theirs);
    match gate.close(mine) {
        Ok(count) => Ok(count),
        Err(_) => unreachable!(),
    }
}

#[test]
fn two_threads_add_each_time(rt: HostRuntime) -> Result<(), Fail> {
    for by in [
        (By::Pass, By::Pass),
        (By::Steps, By::Steps),
        (By::Pass, By::Steps),
    ] {
        match add_by_two(&rt, rt.alloc(), 0, 10_000, by) {
            Ok(count) => assert_eq!(rt; count.0, 20_000),
            Err(_) => return Err(Fail::from("memory")),
        }
    }
    Ok(())
}
