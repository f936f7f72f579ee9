//! Places that two threads offer parts at, and a third collects from. Which thread gets which place depends on the schedule,
//! and what is collected does not.

ghost use Rattle.std.specs.Prelude.{◌≡◌, ◌<◌, ◌^◌, IfOk, length};
ghost use Rattle.std.specs.Thread.{IsSync};
ghost use Rattle.rsx_link.specs.PlaceSeats.{IsCollectorOf, IsPlaceSeatOf};

use rsx_demand::Demand;
use rsx_link::{Collector, Ends, Link, NoPlace, Place, PlaceSeat, Places};
use rsx_types::NoMemory;
use std::alloc::Global;
use std::test::Fail;
use std::thread;
use std::thread::Threads;

type Row = Places<u64, u64>;

// The ends of that many links. Over the edge of each as many items went before as its number says, which tells the ends apart.
fn ends(alloc: Global, count: u64) -> Result<Vec<Ends<u64>>, NoMemory>
    requires { count < 2 ^ 32 }
    ensures { IfOk result (λ all. length all.items ≡ count) }
{
    let mut all = Vec::with_capacity(alloc, count as usize)?;
    for number in 0..count {
        let used = Demand {
            asked: number,
            sent: number,
        };
        let (_, _, down, cancel) = Link::open(alloc, 1, used)?;
        all.push_reserved(Ends { down, cancel });
    }
    Ok(all)
}

// The place's number, where the ends are those that were made for it; else the part.
fn offers(places: &Row, seat: &mut PlaceSeat<u64, u64>, part: u64) -> Result<u64, u64>
    requires { IsPlaceSeatOf places.now seat.old }
    ensures { IsPlaceSeatOf places.now seat.new }
{
    match places.offer(seat, part) {
        Ok((ticket, ends)) if ends.down.asked() == ticket => Ok(ticket),
        Ok(_) => Err(0),
        Err(NoPlace { part }) => Err(part),
    }
}

// Offers that many parts, numbered from the first on, and says how many of them were taken.
fn offer_each(
    places: &Row,
    mut seat: PlaceSeat<u64, u64>,
    first: u64,
    count: u32,
) -> (PlaceSeat<u64, u64>, u64)
    requires { IsPlaceSeatOf places.now seat }
    ensures { IsPlaceSeatOf places.now result.0 }
{
    let mut taken: u64 = 0;
    for number in 0..count {
        let part = first.wrapping_add(u64::from(number));
        if offers(places, &mut seat, part).is_ok() {
            taken = taken.wrapping_add(1);
        }
    }
    (seat, taken)
}

// Collects until it has that many parts, and adds them up.
fn collect_all(
    places: &Row,
    mut collector: Collector<u64, u64>,
    count: u64,
) -> (Collector<u64, u64>, u64)
    requires { IsCollectorOf places.now collector }
    ensures { IsCollectorOf places.now result.0 }
{
    let mut sum: u64 = 0;
    let mut got: u64 = 0;
    for _ in 0..u64::MAX {
        if got == count {
            break;
        }
        match places.collect(&mut collector) {
            Some((_, part)) => {
                sum = sum.wrapping_add(part);
                got = got.wrapping_add(1);
            }
            None => thread::yield_now(),
        }
    }
    (collector, sum)
}

// Two threads offer that many parts each at 64 places, and a third collects as many parts as there are places. Answers how many
// were taken, the sum of what was collected, and what is left.
fn offer_by_two<R: Threads + Sync>(
    rt: &R,
    places: Row,
    collector: Collector<u64, u64>,
    mut mine: PlaceSeat<u64, u64>,
    theirs: PlaceSeat<u64, u64>,
    each: u32,
) -> (u64, u64, Vec<Place<Ends<u64>, u64>>)
    requires collector { IsCollectorOf places collector }
    requires mine { IsPlaceSeatOf places mine }
    requires theirs { IsPlaceSeatOf places theirs }
{
    let ((seat, first), ((other, second), (collector, sum))) = thread::join(
        rt,
        || -> (PlaceSeat<u64, u64>, u64)
            requires { IsPlaceSeatOf places mine }
            ensures { IsPlaceSeatOf places result.0 }
        { offer_each(&places, mine, 100, each) },
        || -> ((PlaceSeat<u64, u64>, u64), (Collector<u64, u64>, u64))
            requires { IsSync R.row × IsPlaceSeatOf places theirs × IsCollectorOf places collector }
            ensures { IsPlaceSeatOf places result.0.0 × IsCollectorOf places result.1.0 }
        {
            thread::join(
                rt,
                || -> (PlaceSeat<u64, u64>, u64)
                    requires { IsPlaceSeatOf places theirs }
                    ensures { IsPlaceSeatOf places result.0 }
                { offer_each(&places, theirs, 200, each) },
                || -> (Collector<u64, u64>, u64)
                    requires { IsCollectorOf places collector }
                    ensures { IsCollectorOf places result.0 }
                { collect_all(&places, collector, 64) },
            )
        },
    );
    mine = seat;
    places.join(&mut mine, other);
    (
        first.wrapping_add(second),
        sum,
        places.close(collector, mine),
    )
}

#[test]
fn two_threads_offer(rt: HostRuntime) -> Result<(), Fail> {
    for each in [32, 40] {
        let (places, collector, mut mine) = match Places::new(rt.alloc(), ends(rt.alloc(), 64)?) {
            Ok(made) => made,
            Err(_) => return Err(Fail::from("memory")),
        };
        let theirs = places.split(&mut mine);
        let (taken, sum, left) = offer_by_two(&rt, places, collector, mine, theirs, each);
        assert_eq!(rt; taken, 64);
        if each == 32 {
            assert_eq!(rt; sum, 10_592);
        }
        for place in left {
            assert!(rt; matches!(place, Place::Taken));
        }
    }
    Ok(())
}
