//! The pass of a region, by which a thread works on it in steps of its own.

ghost use Rattle.std.specs.Prelude.{◌≡◌, true, false, IfOk};
ghost use Rattle.std.specs.Borrow.{sem};
ghost use Rattle.rsx_gate.specs.Seats.{Entered, GaveUp, IsMissed, IsSeatOf, Marked};
ghost use Rattle.rsx_runtime.specs.Passing.{HasServed, IsPassOf, IsSamePass, OnLeftMissed, idle_after, lender_in, region_rests_if_gone, region_rests_if_noted, seat_in};
ghost use Rattle.rsx_runtime.specs.Poking.{Fits, IsAmong};

use crate::live::{Live, RegionSeat, leave_held, mark_held};
use rsx_gate::{More, Noted};
use rsx_pipe::Nodes;
use rsx_region::{Answer, Served};
use rsx_rooted::Batches;
use rsx_types::Ops;
use std::alloc::Global;

/// The right to serve a region, which at most one seat of its gate has. It borrows that seat, and lends nothing.
///
/// It has no `Drop`, and ends by [`RegionPass::leave`] with Gone or by [`RegionPass::give_up`], so the region can't stay held by
/// oversight.
pub struct RegionPass<'a, N, T, O> {
    seat: &'a mut RegionSeat<N, T, O>,
    region: u8,
    // A serve answered Idle, and no mark came after it.
    idle: bool,
    // The region was served.
    served: bool,
}

/// What a leave found.
pub enum RegionLeft<'a, N, T, O> {
    /// Someone entered since the last mark, or none was made: the pass stays.
    Missed(RegionPass<'a, N, T, O>),
    /// No one entered since the last mark: the region is free.
    Gone,
}

impl<N: Nodes<Item = T>, T: Drop, O: Ops<Item = T>> Live<N, T, O> {
    /// The pass of the region at this place, by a seat of its gate, where no other seat has it. It never waits.
    ///
    /// The seat stands first, since the pass borrows it. [`Live::poke`] enters, serves and leaves in one call.
    ///
    /// # Errors
    ///
    /// [`Noted`] where another seat has the region: a note stands there for it, and the seat is free again at once.
    pub fn enter<'a>(
        seat: &'a mut RegionSeat<N, T, O>,
        live: &Live<N, T, O>,
        region: u8,
    ) -> Result<RegionPass<'a, N, T, O>, Noted>
        requires { IsAmong live.now.gates.items region (λ g. IsSeatOf g seat.old) }
        ensures* noted { sem 𝓛 (region_rests_if_noted N.row T.row O.row live.now.gates.items region seat.entry result) }
        ensures pass { IfOk result (λ p. (lender_in p ≡ seat.entry.ghost_name) × (p.region ≡ region) × (p.idle ≡ false) × (p.served ≡ false)) }
        ensures entered { IfOk result (λ p. IsAmong live.now.gates.items region (λ g. Entered (Fits N.Machine O.meaning) g seat.old (seat_in p))) }
        ensures fits { IfOk result (λ p. IsPassOf N.Machine O.meaning live.now.gates.items p) }
    {
        if live.gate(region).take(seat) {
            Ok(RegionPass {
                seat,
                region,
                idle: false,
                served: false,
            })
        } else {
            Err(Noted)
        }
    }
}

impl<'a, N: Nodes<Item = T> + Batches, T: Drop, O: Ops<Item = T>> RegionPass<'a, N, T, O> {
    /// Serves the region as [`Region::serve`](rsx_region::Region::serve) does: what is left to do, until the budget is used up. It
    /// makes no step of the gate.
    ///
    /// After [`Answer::Budget`] call it again. After [`Answer::NoMemory`] what was done before stands, and it may be called again,
    /// too.
    pub fn serve(&mut self, alloc: Global, live: &Live<N, T, O>, budget: u32) -> Served
        requires { IsPassOf N.Machine O.meaning live.now.gates.items self.old }
        ensures pass { IsPassOf N.Machine O.meaning live.now.gates.items self.new }
        ensures same { IsSamePass self.old self.new }
        ensures idle { self.new.idle ≡ idle_after result.answer self.old.idle }
        ensures served { self.new.served ≡ true }
        ensures region { IsAmong live.now.gates.items self.old.region (λ g. HasServed N.Machine O.meaning live.now.ops live.now.links.items budget result g (seat_in self.old) (seat_in self.new)) }
    {
        let served = live.serve_seat(alloc, self.region, self.seat, budget);
        self.served = true;
        self.idle = match served.answer {
            Answer::Idle => true,
            Answer::Budget | Answer::NoMemory => self.idle,
        };
        served
    }
}

impl<'a, N: Nodes<Item = T>, T: Drop, O: Ops<Item = T>> RegionPass<'a, N, T, O> {
    /// Counts the notes so far as seen. Serve the region after this call: what was put before an enter that came earlier is there.
    ///
    /// The region stays as it is. A note that comes later is found by the next [`RegionPass::leave`].
    pub fn mark(&mut self, live: &Live<N, T, O>)
        requires { IsPassOf N.Machine O.meaning live.now.gates.items self.old }
        ensures pass { IsPassOf N.Machine O.meaning live.now.gates.items self.new }
        ensures same { IsSamePass self.old self.new }
        ensures idle { self.new.idle ≡ false }
        ensures served { self.new.served ≡ self.old.served }
        ensures marked { Marked (seat_in self.old) (seat_in self.new) }
    {
        self.idle = false;
        mark_held(live.gate(self.region), self.seat);
    }

    /// Ends the pass where no one entered since the last mark: Gone, and the seat and the region are free. Else Missed, with the pass
    /// and its region as they were.
    ///
    /// It is Missed too where no mark was made since the pass was got. Before it a serve has to have answered [`Answer::Idle`], and no
    /// mark have come after that.
    pub fn leave(self, live: &Live<N, T, O>) -> RegionLeft<'a, N, T, O>
        requires pass { IsPassOf N.Machine O.meaning live.now.gates.items self }
        requires idle { self.idle ≡ true }
        ensures* gone { sem 𝓛 (region_rests_if_gone N.row T.row O.row live.now.gates.items self.entry result) }
        ensures missed { OnLeftMissed result (λ p. IsSamePass self.entry p × (p.idle ≡ true) × (p.served ≡ self.entry.served) × IsMissed (seat_in self.entry) (seat_in p)) }
        ensures pass { OnLeftMissed result (λ p. IsPassOf N.Machine O.meaning live.now.gates.items p) }
    {
        let RegionPass {
            seat,
            region,
            idle,
            served,
        } = self;
        if leave_held(live.gate(region), seat) {
            return RegionLeft::Gone;
        }
        RegionLeft::Missed(RegionPass {
            seat,
            region,
            idle,
            served,
        })
    }

    /// Ends the pass whatever was noted, as a holder does that has worked long enough. Before it the region has to have been served.
    ///
    /// The seat and the region are free afterwards.
    pub fn give_up(self, live: &Live<N, T, O>) -> More
        requires pass { IsPassOf N.Machine O.meaning live.now.gates.items self }
        requires served { self.served ≡ true }
        ensures { IsAmong live.now.gates.items self.entry.region (λ g. GaveUp g (seat_in self.entry) self.exit.0.now) }
    {
        let RegionPass {
            seat,
            region,
            idle: _,
            served: _,
        } = self;
        live.gate(region).release(seat);
        More
    }
}
