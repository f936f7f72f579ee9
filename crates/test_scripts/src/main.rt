#![tactic(auto)]
//! Runs scripts and traces, those of `examples/` first, and writes their answers; then it cuts the trees of graphs and joins them again.
//! What it writes is stored beside it. Both stand in one program, since what a program costs before its first function is much.
//!
//! A line `run`, `scratch`, `draw` or `tck` begins an input for the mode of that name, which goes on up to the next such line. The
//! input is written, then a line `answers`, its answers, and the line of the fault that ended it. So the first part of what is stored is
//! a table of the script language and of reports.
//!
//! Of each expression of the second part two graphs are made, in which a hub is fed by it, and in which it is subscribed to. The same is
//! done to both, move by move. Before each move the second is taken apart, and the tree of each feed and of each subscription is cut at
//! each edge where it can be cut, one after the other, and joined at once. Then the graph is put together again. After each move both
//! have to be alike: what was delivered, what is still owed, and what was recorded. It writes a line for each expression, with what was
//! done to it. The first comparison that differs ends the program with status 1.

mod cuts;
mod trial;

use crate::trial::{Compared, compare};
use anyhow::Result;
use rsx_modes::drive;
use rsx_script::{Mode, mode_named};
use std::io;
use std::io::Write;

/// Writes a script, its answers, and the line of the fault that ended it.
fn write_row(rt: &(impl Print + AllocGlobal), mode: Mode, script: &str) -> io::Result<()> {
    if script.is_empty() {
        return Ok(());
    }
    let heading = match mode {
        Mode::Run => "run\n",
        Mode::Scratch => "scratch\n",
        Mode::Draw => "draw\n",
        Mode::Tck => "tck\n",
    };
    let mut out = io::writer(rt);
    out.write_all(heading.as_bytes())?;
    out.write_all(script.as_bytes())?;
    out.write_all(b"answers\n")?;
    let mut input = script.as_bytes();
    if let Err(fault) = drive(rt.alloc(), mode, &mut input, &mut out) {
        let text = format!(in rt.alloc(); "{fault}\n")?;
        out.write_all(text.as_bytes())?;
    }
    Ok(())
}

/// The expressions. Of the hubs that they read the first is fed by another expression, and the second has an emitter.
const EXPRESSIONS: [&'static str; 25] = [
    "(publishOn 1 2 (range 1 6))",
    "(publishOn 0 2 (publishOn 1 2 (range 1 6)))",
    "(publishOn 1 2 (hub 0))",
    "(publishOn 2 3 (map double (publishOn 1 2 (hub 1))))",
    "(merge 2 (publishOn 1 2 (range 1 4)) (publishOn 2 2 (hub 1)) (hub 0))",
    "(publishOn 3 4 (merge 2 (publishOn 1 2 (range 1 4)) (publishOn 3 2 (hub 0))))",
    "(zip 2 (publishOn 1 2 (range 1 6)) (publishOn 2 1 (hub 1)))",
    "(concat (publishOn 1 2 (items 7 8)) (publishOn 2 2 (hub 0)) (publishOn 1 1 (hub 1)))",
    "(combineLatest 2 (publishOn 1 1 (hub 0)) (publishOn 2 2 (hub 1)))",
    "(groupBy mod3 ((scan add 0)) (publishOn 1 2 (range 1 7)))",
    "(publishOn 1 2 (groupBy mod3 ((map inc)) (publishOn 2 3 (hub 0))))",
    "(flatMap upto 2 ((map double)) (publishOn 1 2 (range 1 3)))",
    "(publishOn 1 3 (flatMap upto 1 () (publishOn 2 1 (hub 1))))",
    "(window 2 ((scan add 0)) (publishOn 1 2 (hub 0)))",
    "(publishOn 1 2 (take 3 (publishOn 2 2 (range 1 9))))",
    "(publishOn 1 2 (map inc (publishOn 2 2 (items 1 9223372036854775807 3))))",
    "(publishOnEager 1 2 (map inc (publishOn 2 2 (items 1 2 3 9223372036854775807 4))))",
    "(publishOn 2 2 (publishOnEager 1 2 (merge 2 (hub 1) (map inc (items 1 9223372036854775807)))))",
    "(publishOn 1 4 (hub 0))",
    "(publishOn 1 4 (range 1 9))",
    "(publishOn 2 1 (range 1 5))",
    "(publishOn 2 1024 (range 1 5))",
    "(publishOn 15 1024 (items))",
    "(publishOn 15 1 (zip 4 (publishOn 0 1024 (range 1 3)) (publishOn 1 2 (range 5 9))))",
    "(buffer 10 (merge 8 (publishOn 1 8 (filter even (range 1 50))) (publishOn 0 8 (range 501 50))))",
];

/// Cuts and joins the graphs of each expression, and writes what was done to them.
fn cut_each(rt: &(impl Print + AllocGlobal)) -> Result<()> {
    for text in &EXPRESSIONS {
        let Compared { moves, feeds, subs } = compare(rt.alloc(), text)?;
        println!(rt;
            "{text}: {moves} moves, equal; of feeds {} cuts with {} items queued, {} joins, {} refused; of subscriptions {} cuts with {} items queued, {} joins, {} refused",
            feeds.cuts,
            feeds.items,
            feeds.joins,
            feeds.refusals,
            subs.cuts,
            subs.items,
            subs.joins,
            subs.refusals
        )?;
    }
    Ok(())
}

fn main(rt: HostRuntime) -> Result<()> {
    let mut mode = Mode::Run;
    let mut script = String::new(rt.alloc());
    for line in rt.lines(rt.alloc()) {
        let line = line?;
        if let Some(begun) = mode_named(line.as_str()) {
            write_row(&rt, mode, script.as_str())?;
            mode = begun;
            script.clear();
        } else {
            script.push_str(line.as_str())?;
            script.push('\n')?;
        }
    }
    write_row(&rt, mode, script.as_str())?;
    cut_each(&rt)
}
