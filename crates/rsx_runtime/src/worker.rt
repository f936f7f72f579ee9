//! The loop of a worker.

ghost use Rattle.std.specs.Prelude.{◌≡◌};
ghost use Rattle.rsx_gate.specs.Seats.{IsSeatOf};
ghost use Rattle.rsx_runtime.specs.Poking.{IsAmong};

use crate::BUDGET;
use crate::live::{Live, PokeAnswer, RegionSeat};
use crate::rest::{Rest, Rested};
use rsx_pipe::Nodes;
use rsx_rooted::Batches;
use rsx_types::Ops;
use std::alloc::Global;
use std::sync::Wait;

/// Works on the region at this place, by a seat of its gate, until a rest says stop: pokes the region with a budget of [`BUDGET`], and
/// rests where nothing was left to do, where another seat had the region, and where a growth was refused. After a poke it rouses the
/// workers of the regions whose links were touched, where worker w is the one that works on region w. It rouses itself, too, where a link
/// between two pieces of its own region was touched, and so pokes that once more before it rests.
///
/// It may never return. Where it does, the seat has no pass, as before, and keeps its parts.
pub fn work<R: Wait, N: Nodes<Item = T> + Batches, T: Drop, O: Ops<Item = T>, W: Rest>(
    rt: &R,
    alloc: Global,
    live: &Live<N, T, O>,
    region: u8,
    seat: &mut RegionSeat<N, T, O>,
    rest: &mut W,
)
    requires { IsAmong live.now.gates.items region (λ g. IsSeatOf g seat.old) }
    ensures seat { IsAmong live.now.gates.items region (λ g. IsSeatOf g seat.new) }
    ensures parts { seat.new.me.0.parts ≡ seat.old.me.0.parts }
{
    for _ in rt.forever() {
        let poked = live.poke(alloc, region, seat, BUDGET);
        rest.rouse(poked.rouse);
        match poked.answer {
            PokeAnswer::More | PokeAnswer::Budget => {}
            PokeAnswer::Idle | PokeAnswer::Noted | PokeAnswer::NoMemory => {
                if matches!(rest.rest(rt), Rested::Stop) {
                    return;
                }
            }
        }
    }
}
