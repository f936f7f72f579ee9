//! Holders of the gate: a count to which threads add, one at a time, by a pass or by the steps on a seat itself.
#![tactic(auto)]

ghost use Rattle.std.specs.Prelude.{◌≡◌, ◌+◌, ◌-◌, ◌^◌, ◌≤◌, min};
ghost use Rattle.rsx_gate.specs.Seats.{IsSeatOf};
ghost use Rattle.test_gate.specs.Outcome.{Visited};

use rsx_gate::{Gate, Kept, Left, More, Noted, Pass, Seat};

/// A count, which is never below what it began at: the key of its gate.
#[derive(Drop)]
pub struct Count(pub u64);

impl Kept<u64> for Count {
    ghost use Rattle.std.specs.Prelude.{◌≤◌};

    ghost fits = { λ key count. key ≤ count.0 };
}

/// How often a holder marks and leaves before it gives up.
pub const ROUNDS: u8 = 8;

/// What a visit to the gate came to.
#[derive(Clone, Copy)]
pub enum Outcome {
    /// Another seat had the pass.
    Noted,
    /// The work was done, and no one entered since the last mark.
    Gone,
    /// The work was done, and others entered up to the end.
    More,
}

/// Counts one more, up to the largest number.
fn add(count: &mut Count)
    ensures one_more { count.new.0 ≡ min (2 ^ 64 - 1) (count.old.0 + 1) }
    ensures no_less { count.old.0 ≤ count.new.0 }
{
    count.0 = count.0.saturating_add(1);
}

/// Adds one where it gets the pass, then marks and leaves until no one entered in between, and after [`ROUNDS`] such rounds gives up. The seat has no pass before or after, and keeps its parts; it made just the steps that the outcome tells of.
pub fn visit(gate: &Gate<Count, u64>, seat: &mut Seat<Count, u64>) -> Outcome
    requires { IsSeatOf gate.now seat.old }
    ensures seat { IsSeatOf gate.now seat.new }
    ensures parts { seat.new.me.0.parts ≡ seat.old.me.0.parts }
    ensures steps { Visited result seat.old.me.0.steps seat.new.me.0.steps }
{
    let mut pass = match Pass::enter(seat, gate) {
        Ok(pass) => pass,
        Err(Noted) => return Outcome::Noted,
    };
    add(pass.value(gate));
    for round in 0..ROUNDS {
        pass.mark(gate);
        match pass.leave(gate) {
            Left::Gone => return Outcome::Gone,
            Left::Missed(again) => pass = again,
        }
    }
    let More = pass.give_up(gate);
    Outcome::More
}

/// The same by the steps on the seat itself.
pub fn visit_by_steps(gate: &Gate<Count, u64>, seat: &mut Seat<Count, u64>) -> Outcome
    requires { IsSeatOf gate.now seat.old }
    ensures seat { IsSeatOf gate.now seat.new }
    ensures parts { seat.new.me.0.parts ≡ seat.old.me.0.parts }
    ensures steps { Visited result seat.old.me.0.steps seat.new.me.0.steps }
{
    if !gate.take(seat) {
        return Outcome::Noted;
    }
    add(Gate::value_of(seat, gate));
    for round in 0..ROUNDS {
        gate.mark(seat);
        if gate.try_leave(seat) {
            return Outcome::Gone;
        }
    }
    gate.release(seat);
    Outcome::More
}
