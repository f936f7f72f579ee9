//! Regions without pieces: pokes of one, and of one while a thread keeps the pass of another.

ghost use Rattle.std.specs.Prelude.{◌≡◌, ◌≤◌, [], ◌∷◌, IfSome};
ghost use Rattle.std.specs.List.{AllZip};
ghost use Rattle.rsx_gate.specs.Machine.{all_parts};
ghost use Rattle.rsx_gate.specs.Seats.{IsSeatOf};
ghost use Rattle.rsx_runtime.specs.Poking.{IsAmong};

use rsx_demo::{Demo, Val};
use rsx_gate::More;
use rsx_pipe::Nodes;
use rsx_processor::ProcessorNode;
use rsx_region::{Answer, Region};
use rsx_rooted::Batches;
use rsx_runtime::{Live, PokeAnswer, Poked, RegionLeft, RegionSeat};
use rsx_types::Ops;
use std::alloc::Global;
use std::test::Fail;
use std::thread;
use std::thread::Threads;
use test_skip::Skip;

// Any nodes do, since no region has a piece.
type DemoNode = ProcessorNode<Skip<Val>, Val>;

type DemoLive = Live<DemoNode, Val, Demo>;

type DemoSeat = RegionSeat<DemoNode, Val, Demo>;

// A graph of one region, which has no pieces. At `None` there was no memory.
fn one_region(alloc: Global) -> Option<(DemoLive, DemoSeat)>
    ensures first { IfSome result (λ r. IsAmong r.0.gates.items 0 (λ g. IsSeatOf g r.1) × (r.1.me.0.parts ≡ all_parts)) }
    ensures only { IfSome result (λ r. AllZip (λ g s. IsSeatOf g s × (all_parts ≤ s.me.0.parts)) r.0.gates.items (r.1 ∷ [])) }
{
    let mut live = Live::new(alloc, Demo, Vec::new(alloc));
    let region = Region::new(alloc, 0, Vec::new(alloc));
    match live.add(alloc, 0, region) {
        Ok(seat) => Some((live, seat)),
        Err(_) => None,
    }
}

// What a poke comes to that touched no link.
fn touched_none(answer: PokeAnswer) -> Poked {
    Poked { answer, rouse: 0 }
}

// What one poke of a region of its own answers under this budget.
fn pokes(alloc: Global, budget: u32) -> Option<Poked> {
    let (live, mut seat) = one_region(alloc)?;
    Some(live.poke(alloc, 0, &mut seat, budget))
}

// How many regions come back where the only seat ends the gate.
fn stops(alloc: Global) -> Option<usize> {
    let (live, seat) = one_region(alloc)?;
    let Ok(mut seats) = Vec::with_capacity(alloc, 1) else {
        return None;
    };
    seats.push_reserved(seat);
    match live.stop(alloc, seats) {
        Ok(stopped) => Some(stopped.regions.len()),
        Err(_) => None,
    }
}

// A graph of two regions, which have no pieces. At `None` there was no memory.
fn two_regions(alloc: Global) -> Option<(DemoLive, DemoSeat, DemoSeat)>
    ensures first { IfSome result (λ r. IsAmong r.0.gates.items 0 (λ g. IsSeatOf g r.1)) }
    ensures second { IfSome result (λ r. IsAmong r.0.gates.items 1 (λ g. IsSeatOf g r.2)) }
{
    let mut live = Live::new(alloc, Demo, Vec::new(alloc));
    let region = Region::new(alloc, 0, Vec::new(alloc));
    let Ok(first) = live.add(alloc, 0, region) else {
        return None;
    };
    let region = Region::new(alloc, 1, Vec::new(alloc));
    match live.add(alloc, 0, region) {
        Ok(second) => Some((live, first, second)),
        Err(_) => None,
    }
}

// Pokes region 1 on a thread of its own.
fn poke_beside<
    R: Threads,
    N: Nodes<Item = T> + Batches + Send,
    T: Send + Drop,
    O: Ops<Item = T> + Sync,
>(rt: &R, alloc: Global, live: &Live<N, T, O>, seat: RegionSeat<N, T, O>) -> Poked
    requires { IsAmong live.now.gates.items 1 (λ g. IsSeatOf g seat) }
{
    let (poked, ()) = thread::join(
        rt,
        || -> Poked
            requires { IsAmong live.now.gates.items 1 (λ g. IsSeatOf g seat) }
        { poke_once(alloc, live, seat) },
        || {},
    );
    poked
}

// Pokes region 1 by this seat.
fn poke_once<N: Nodes<Item = T> + Batches, T: Drop, O: Ops<Item = T>>(
    alloc: Global,
    live: &Live<N, T, O>,
    mut seat: RegionSeat<N, T, O>,
) -> Poked
    requires { IsAmong live.now.gates.items 1 (λ g. IsSeatOf g seat) }
{
    live.poke(alloc, 1, &mut seat, 10)
}

// Keeps the pass of region 0 until another thread has poked region 1, and then gives it up where this says so, or leaves. It answers
// what that poke was answered; none where the region was held, or the pass doesn't end.
fn poke_while_held<R: Threads>(
    rt: &R,
    alloc: Global,
    live: &DemoLive,
    first: &mut DemoSeat,
    second: DemoSeat,
    gives_up: bool,
) -> Option<Poked>
    requires first { IsAmong live.now.gates.items 0 (λ g. IsSeatOf g first.old) }
    requires second { IsAmong live.now.gates.items 1 (λ g. IsSeatOf g second) }
{
    let Ok(mut pass) = Live::enter(first, live, 0) else {
        return None;
    };
    let poked = poke_beside(rt, alloc, live, second);
    pass.mark(live);
    let served = pass.serve(alloc, live, 10);
    if gives_up || !matches!(served.answer, Answer::Idle) {
        let More = pass.give_up(live);
        return gives_up.then_some(poked);
    }
    match pass.leave(live) {
        RegionLeft::Gone => Some(poked),
        RegionLeft::Missed(pass) => {
            let More = pass.give_up(live);
            None
        }
    }
}

#[test]
fn a_poke_uses_its_budget_up_or_is_idle(rt: HostRuntime) -> Result<(), Fail> {
    assert_eq!(rt;
        pokes(rt.alloc(), 0),
        Some(touched_none(PokeAnswer::Budget))
    );
    assert_eq!(rt; pokes(rt.alloc(), 10), Some(touched_none(PokeAnswer::Idle)));
    Ok(())
}

#[test]
fn the_regions_come_back_where_their_gates_end(rt: HostRuntime) -> Result<(), Fail> {
    assert_eq!(rt; stops(rt.alloc()), Some(1));
    Ok(())
}

#[test]
fn a_region_is_poked_while_another_is_held(rt: HostRuntime) -> Result<(), Fail> {
    for round in 0..100 {
        let Some((live, mut first, second)) = two_regions(rt.alloc()) else {
            return Err(Fail::from("memory"));
        };
        let gives_up = round % 2 == 0;
        assert_eq!(rt;
            poke_while_held(&rt, rt.alloc(), &live, &mut first, second, gives_up),
            Some(touched_none(PokeAnswer::Idle))
        );
    }
    Ok(())
}
