//! The two ends of a link in threads of their own: one sends the numbers from 0 up, the other takes them.

ghost use Rattle.std.specs.Prelude.{◌≡◌};
ghost use Rattle.rsx_link.specs.Ends.{IsDownOf, IsUpOf};

use anyhow::bail;
use rsx_link::{Down, Link, Up};
use rsx_types::{NoMemory, Signal};
use std::alloc::Global;
use std::thread;
use std::thread::{Threads, join};

/// How the two ends use the link.
#[derive(Clone, Copy, Debug, PartialEq, Eq)]
struct Mode {
    // The items asked for before any was taken.
    first: u32,
    // After so many items were taken, as many are asked for again.
    batch: u32,
    // The sending end looks before each item.
    looks_always: bool,
}

const BATCHES: Mode = Mode {
    first: 64,
    batch: 48,
    looks_always: false,
};

const SINGLE: Mode = Mode {
    first: 64,
    batch: 1,
    looks_always: true,
};

const LOCKSTEP: Mode = Mode {
    first: 1,
    batch: 1,
    looks_always: false,
};

// Sends the numbers below `count`, and then the completion.
fn send_numbers(link: &Link<u64>, mut up: Up<u64>, mode: Mode, count: u64) -> Up<u64>
    requires { IsUpOf link.now up }
    ensures { IsUpOf link.now result }
{
    let mut next = 0;
    for _ in 0..u64::MAX {
        if next >= count {
            break;
        }
        if mode.looks_always || up.room() == 0 {
            up.look(link);
        }
        if up.room() > 0 && up.send(link, Signal::Next(next)).is_ok() {
            next += 1;
        } else {
            thread::yield_now();
        }
    }
    complete(link, up)
}

// Sends the completion, which needs no demand.
fn complete(link: &Link<u64>, mut up: Up<u64>) -> Up<u64>
    requires { IsUpOf link.now up }
    ensures { IsUpOf link.now result }
{
    for _ in 0..u64::MAX {
        if up.send(link, Signal::Complete).is_ok() {
            break;
        }
        thread::yield_now();
    }
    up
}

// Takes signals up to the ending, and says how many numbers came in order from 0 up.
fn take_numbers(link: &Link<u64>, mut down: Down<u64>, mode: Mode) -> (Down<u64>, u64)
    requires { IsDownOf link.now down }
    ensures { IsDownOf link.now result.0 }
{
    let mut in_order = 0;
    let mut since = 0;
    down.ask(link, i64::from(mode.first));
    for _ in 0..u64::MAX {
        match down.take(link) {
            Some(Signal::Next(number)) => {
                if number == in_order {
                    in_order = number.saturating_add(1);
                }
                since += 1;
                if since >= mode.batch {
                    down.ask(link, i64::from(since));
                    since = 0;
                }
            }
            Some(Signal::Complete | Signal::Error(_)) => break,
            None => thread::yield_now(),
        }
    }
    (down, in_order)
}

/// What came of one run.
#[derive(Clone, Copy, Debug, PartialEq, Eq)]
pub struct Outcome {
    /// How many numbers came in order from 0 up.
    pub in_order: u64,
    /// How many items were taken.
    pub taken: u64,
    /// How many signals remained in the queue.
    pub remaining: usize,
}

fn run<R: Threads + Sync>(
    rt: &R,
    alloc: Global,
    mode: Mode,
    count: u64,
) -> Result<Outcome, NoMemory> {
    let (link, up, down, cancel) = Link::new(alloc, 64)?;
    let shared = &link;
    let (up, (down, in_order)) = join(
        rt,
        move || -> Up<u64>
            requires { IsUpOf shared.now up }
            ensures { IsUpOf shared.entry.now result }
        { send_numbers(shared, up, mode, count) },
        move || -> (Down<u64>, u64)
            requires { IsDownOf shared.now down }
            ensures { IsDownOf shared.entry.now result.0 }
        { take_numbers(shared, down, mode) },
    );
    let taken = down.taken();
    let closed = link.close(up, down, cancel);
    Ok(Outcome {
        in_order,
        taken,
        remaining: closed.remaining.len(),
    })
}

// The mode of that name.
fn mode_of(name: &str) -> Option<Mode> {
    match name {
        "batches" => Some(BATCHES),
        "single" => Some(SINGLE),
        "lockstep" => Some(LOCKSTEP),
        _ => None,
    }
}

/// Sends so many numbers over a link whose queue has room for 64, in the mode of that name, and says what came of it.
///
/// # Errors
/// Where no mode has that name, and where there was no memory for the link.
pub fn send_over<R: Threads + Sync>(
    rt: &R,
    alloc: Global,
    name: &str,
    count: u64,
) -> anyhow::Result<Outcome> {
    let Some(mode) = mode_of(name) else {
        bail!("a link is used in batches, single or lockstep");
    };
    Ok(run(rt, alloc, mode, count)?)
}
