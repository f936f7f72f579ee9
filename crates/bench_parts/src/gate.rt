//! One seat enters a gate, adds one, marks and leaves, again and again.

ghost use Rattle.rsx_gate.specs.Seats.{IsSeatOf};

use anyhow::{Result, bail};
use rsx_gate::{Gate, Seat};
use test_gate::{Count, visit};

fn visit_often(gate: &Gate<Count, u64>, seat: &mut Seat<Count, u64>, times: u64)
    requires { IsSeatOf gate.now seat.old }
    ensures { IsSeatOf gate.now seat.new }
{
    for _ in 0..times {
        visit(gate, seat);
    }
}

/// Makes so many rounds, and prints the count.
pub fn make_rounds(rt: &HostRuntime, times: u64) -> Result<()> {
    let Ok((gate, mut seat)) = Gate::new(rt.alloc(), Count(0), &0u64) else {
        bail!("out of memory");
    };
    visit_often(&gate, &mut seat, times);
    match gate.close(seat) {
        Ok(count) | Err(count) => println!(rt; "{}", count.0)?,
    }
    Ok(())
}
