//! Traces are read and judged.

use anyhow::Result;
use rsx_tck::{Event, Rule, Stamped, Verdict, parse_trace, report};
use std::alloc::{AllocError, Global};
use std::io::Read;
use std::time::Instant;

/// So many events, of subscribers in turn: each is subscribed, and then requests an item and gets it, again and again.
fn quiet_trace(alloc: Global, events: u32, subscribers: u32) -> Result<Vec<Stamped>, AllocError> {
    let subscribers = subscribers.max(1);
    let mut trace = Vec::new(alloc);
    for position in 0..events {
        let turn = position / 3;
        let subscriber = turn % subscribers;
        let event = match position % 3 {
            0 if turn < subscribers => Event::Subscribe(subscriber),
            0 => Event::Request(subscriber, 1),
            1 if turn < subscribers => Event::OnSubscribe(subscriber),
            1 => Event::Next(subscriber),
            _ => Event::Exit(subscriber),
        };
        trace.push(Stamped {
            worker: (subscriber % 16) as u8,
            event,
        })?;
    }
    Ok(trace)
}

/// How many rules of a report are broken.
fn broken(lines: &[(Rule, Verdict)]) -> usize {
    lines
        .iter()
        .filter(|(_, verdict)| matches!(verdict, Verdict::Broken(_)))
        .count()
}

/// Judges the trace, prints the two numbers, and gives the nanoseconds that judging took.
fn judge_all(rt: &HostRuntime, trace: &[Stamped]) -> Result<u128> {
    let start = Instant::now(rt)?;
    let lines = report(trace);
    let took = start.elapsed(rt)?;
    let (events, rules) = (trace.len(), broken(&lines));
    println!(rt; "{events} events, {rules} rules broken")?;
    Ok(took.as_nanos())
}

/// Times a trace that is read as text from standard input.
pub fn read_and_judge(rt: &HostRuntime) -> Result<()> {
    let start = Instant::now(rt)?;
    let mut text = Vec::new(rt.alloc());
    rt.reader().read_to_end(&mut text)?;
    let taken_in = start.elapsed(rt)?.as_nanos();
    let start = Instant::now(rt)?;
    let trace = parse_trace(rt.alloc(), &text)?;
    let read = start.elapsed(rt)?.as_nanos();
    let judged = judge_all(rt, &trace)?;
    let events = trace.len();
    eprintln!(rt;
        "{taken_in} ns to take in, {read} ns to read and {judged} ns to judge {events} events"
    )?;
    Ok(())
}

/// Times a trace in memory that breaks no rule.
pub fn judge_in_memory(rt: &HostRuntime, events: u32, subscribers: u32) -> Result<()> {
    let trace = quiet_trace(rt.alloc(), events, subscribers)?;
    let nanoseconds = judge_all(rt, &trace)?;
    eprintln!(rt; "{nanoseconds} ns for {events} events of {subscribers} subscribers")?;
    Ok(())
}
