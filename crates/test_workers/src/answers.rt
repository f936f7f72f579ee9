//! The answers of one thread's calls, in a row, which no clause says: a seat knows nothing of the others' steps.

ghost use Rattle.std.specs.Prelude.{◌≡◌};
ghost use Rattle.rsx_gate.specs.Seats.{IsSeatOf};

use rsx_gate::{Gate, Kept, Left, More, Noted, Pass, Seat};
use std::test::Fail;

#[derive(Drop)]
struct Count(u64);

impl Kept<u64> for Count {
    ghost fits = { λ key count. Unit {0} };
}

#[derive(Clone, Copy, PartialEq, Debug)]
enum Answer {
    Noted,
    Missed,
    Gone,
    More,
}

// Enters, adds one, and gives up.
fn add_one(gate: &Gate<Count, u64>, seat: &mut Seat<Count, u64>) -> Answer
    requires { IsSeatOf gate.now seat.old }
    ensures { IsSeatOf gate.now seat.new }
{
    match Pass::enter(seat, gate) {
        Ok(mut pass) => {
            let count = pass.value(gate);
            count.0 = count.0.wrapping_add(1);
            let More = pass.give_up(gate);
            Answer::More
        }
        Err(Noted) => Answer::Noted,
    }
}

// One enters and marks, the other enters, and the first leaves, marks and leaves.
fn note_between(
    gate: &Gate<Count, u64>,
    seat: &mut Seat<Count, u64>,
    other: &mut Seat<Count, u64>,
) -> (Answer, Answer, Answer)
    requires one { IsSeatOf gate.now seat.old }
    requires two { IsSeatOf gate.now other.old }
    ensures one { IsSeatOf gate.now seat.new }
    ensures two { IsSeatOf gate.now other.new }
{
    let mut pass = match Pass::enter(seat, gate) {
        Ok(pass) => pass,
        Err(Noted) => return (Answer::Noted, Answer::Noted, Answer::Noted),
    };
    pass.mark(gate);
    let noted = add_one(gate, other);
    let mut pass = match pass.leave(gate) {
        Left::Missed(pass) => pass,
        Left::Gone => return (noted, Answer::Gone, Answer::Gone),
    };
    pass.mark(gate);
    match pass.leave(gate) {
        Left::Missed(pass) => {
            let More = pass.give_up(gate);
            (noted, Answer::Missed, Answer::Missed)
        }
        Left::Gone => (noted, Answer::Missed, Answer::Gone),
    }
}

#[test]
fn answers_in_a_row(rt: HostRuntime) -> Result<(), Fail> {
    let (gate, mut a) = match Gate::new(rt.alloc(), Count(7), &0u64) {
        Ok(made) => made,
        Err(_) => return Err(Fail::from("memory")),
    };
    let mut b = gate.split(&mut a);
    assert_eq!(rt;
        note_between(&gate, &mut a, &mut b),
        (Answer::Noted, Answer::Missed, Answer::Gone)
    );
    assert_eq!(rt; add_one(&gate, &mut b), Answer::More);
    gate.join(&mut a, b);
    match gate.close(a) {
        Ok(count) => assert_eq!(rt; count.0, 8),
        Err(_) => return Err(Fail::from("the pass was out")),
    }
    Ok(())
}
