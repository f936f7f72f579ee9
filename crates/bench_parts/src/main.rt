//! Times parts of the library, each with a word for it: `bench_parts gate ROUNDS`, `bench_parts link MODE COUNT`, `bench_parts tck read`
//! or `bench_parts tck EVENTS SUBSCRIBERS`. Further such words are further runs.
//!
//! - `gate`: one seat enters a gate, adds one, marks and leaves, so many times. It prints the count. `bench/gate_rounds.sh` takes its
//!   time.
//! - `link`: sends COUNT numbers over a link whose queue has room for 64, and prints how many came in order. MODE is `batches` (48 items
//!   are asked for at a time, as a prefetch of 64 does, and the sending end looks once it has sent all that it saw), `single` (each item
//!   taken is asked for again, and the sending end looks before each) or `lockstep` (one item is asked for at a time, so that each waits
//!   for the one before it). `bench/link.sh` takes its time.
//! - `tck read`: reads a trace as text from standard input, of either format, and judges it by every rule. `tck EVENTS SUBSCRIBERS`
//!   judges a trace in memory that breaks no rule. The number of events and of broken rules goes to standard output, and the times to
//!   standard error.
//!
//! So standard output is the same in every run.
#![tactic(auto)]

mod gate;
mod link;
mod tck;

use anyhow::{Result, bail};
use std::alloc::Global;
use std::env::{self, Args};
use std::iter::Skip;
use std::thread::Threads;

/// The words behind the program's name.
type Words = Skip<Args<Global>>;

/// What the words of the command line are.
const USAGE: &str =
    "usage: bench_parts [gate ROUNDS|link MODE COUNT|tck read|tck EVENTS SUBSCRIBERS]..";

/// The next word.
///
/// # Errors
/// Where none is left.
fn word(words: &mut Words) -> Result<String> {
    match words.next() {
        Some(word) => Ok(word),
        None => bail!("{USAGE}"),
    }
}

/// The number that a word is.
///
/// # Errors
/// Where it is none.
fn number(word: &str) -> Result<u32> {
    match word.parse::<u32>() {
        Ok(number) => Ok(number),
        Err(_) => bail!("{USAGE}"),
    }
}

/// Sends so many numbers over a link, from a thread of its own.
fn time_link<R: Threads + Sync>(
    rt: &HostRuntime,
    threads: &R,
    mode: &str,
    count: u32,
) -> Result<()> {
    let outcome = link::send_over(threads, rt.alloc(), mode, u64::from(count))?;
    println!(rt;
        "{} in order, {} taken, {} remaining",
        outcome.in_order, outcome.taken, outcome.remaining
    )?;
    Ok(())
}

/// Times the part with this word, as the words behind it say.
fn time<R: Threads + Sync>(
    rt: &HostRuntime,
    threads: &R,
    part: &str,
    words: &mut Words,
) -> Result<()> {
    let first = word(words)?;
    match (part, first.as_str()) {
        ("gate", rounds) => gate::make_rounds(rt, u64::from(number(rounds)?)),
        ("link", mode) => time_link(rt, threads, mode, number(word(words)?.as_str())?),
        ("tck", "read") => tck::read_and_judge(rt),
        ("tck", events) => {
            tck::judge_in_memory(rt, number(events)?, number(word(words)?.as_str())?)
        }
        _ => bail!("{USAGE}"),
    }
}

fn main(rt: HostRuntime) -> Result<()> {
    let mut words = env::args(&rt)?.skip(1);
    for _ in 0..u64::MAX {
        let Some(part) = words.next() else {
            break;
        };
        time(&rt, &rt, part.as_str(), &mut words)?;
    }
    Ok(())
}
