//! What the calling thread does by chance while the regions of a live graph are served on threads.

ghost use Rattle.rsx_live.specs.Starts.{AreTapsOf};

use crate::driven::{Extra, Log};
use crate::numbers::Numbers;
use crate::serving::Taken;
use anyhow::Result;
use rsx_live::LiveGraph;
use rsx_runtime::{Rouser, Tap};
use rsx_types::{Ops, Signal, SubId};
use std::alloc::Global;
use std::thread;
use std::time::{Clock, Duration};

/// There are fewer turns than this.
const MOST_TURNS: u32 = 60;

/// A pause is shorter than so many microseconds.
const LONGEST_PAUSE: u32 = 120;

/// What is done by chance.
#[derive(Drop)]
pub struct Chance {
    numbers: Numbers,
    // How many subscriptions there are.
    subs: u32,
    // How many turns are made.
    turns: u32,
    // What is done once beside the other calls, and in which turn.
    extra: Extra,
    extra_turn: u32,
}

impl Chance {
    /// What these numbers tell to do with so many subscriptions, in some turns or in none.
    pub fn new(mut numbers: Numbers, subs: u32, extra: Extra) -> Chance {
        let turns = numbers.below(MOST_TURNS);
        let extra_turn = numbers.below(turns);
        Chance {
            numbers,
            subs,
            turns,
            extra,
            extra_turn,
        }
    }
}

/// Makes calls by chance, and stops whatever is still under way.
pub fn take_by_chance<R: Clock, O: Ops>(
    rt: &R,
    alloc: Global,
    graph: &LiveGraph<O>,
    mut taps: Vec<Tap<O::Item>>,
    chance: Chance,
    rouser: &mut Rouser,
) -> Taken<O::Item>
    requires { AreTapsOf graph.now taps.items }
    ensures { AreTapsOf graph.now result.taps.items }
{
    let mut received = Vec::new(alloc);
    let outcome = take_turns(rt, graph, &mut taps, chance, rouser, &mut received);
    Taken {
        taps,
        received,
        outcome,
    }
}

/// Makes the turns.
fn take_turns<R: Clock, O: Ops>(
    rt: &R,
    graph: &LiveGraph<O>,
    taps: &mut Vec<Tap<O::Item>>,
    chance: Chance,
    rouser: &mut Rouser,
    received: &mut Log<O::Item>,
) -> Result<()>
    requires { AreTapsOf graph.now taps.old.items }
    ensures { AreTapsOf graph.now taps.new.items }
{
    let mut numbers = chance.numbers;
    for turn in 0..chance.turns {
        let sub = SubId(numbers.below(chance.subs));
        let extra = match turn == chance.extra_turn {
            true => chance.extra,
            false => Extra::Nothing,
        };
        let answer = do_extra(graph, taps, sub, extra);
        add(received, sub, answer)?;
        take_turn(rt, graph, taps, sub, &mut numbers, rouser, received)?;
    }
    Ok(())
}

/// Requests some items, takes some, or does something else than a call.
fn take_turn<R: Clock, O: Ops>(
    rt: &R,
    graph: &LiveGraph<O>,
    taps: &mut Vec<Tap<O::Item>>,
    sub: SubId,
    numbers: &mut Numbers,
    rouser: &mut Rouser,
    received: &mut Log<O::Item>,
) -> Result<()>
    requires { AreTapsOf graph.now taps.old.items }
    ensures { AreTapsOf graph.now taps.new.items }
{
    match numbers.below(16) {
        0..=3 => request_some(graph, taps, sub, numbers, received),
        4..=7 => take_some(graph, taps, sub, numbers, received),
        _ => {
            rouse_or_pause(rt, numbers, rouser);
            Ok(())
        }
    }
}

/// Requests one to four items. The workers are not roused, so that some requests stay unseen for a while, or until the end.
fn request_some<O: Ops>(
    graph: &LiveGraph<O>,
    taps: &mut Vec<Tap<O::Item>>,
    sub: SubId,
    numbers: &mut Numbers,
    received: &mut Log<O::Item>,
) -> Result<()>
    requires { AreTapsOf graph.now taps.old.items }
    ensures { AreTapsOf graph.now taps.new.items }
{
    let n = i64::from(numbers.below(4)) + 1;
    let answer = graph.request(taps, sub, n);
    add(received, sub, answer)
}

/// Takes one to four signals, if they wait.
fn take_some<O: Ops>(
    graph: &LiveGraph<O>,
    taps: &mut Vec<Tap<O::Item>>,
    sub: SubId,
    numbers: &mut Numbers,
    received: &mut Log<O::Item>,
) -> Result<()>
    requires { AreTapsOf graph.now taps.old.items }
    ensures { AreTapsOf graph.now taps.new.items }
{
    for _ in 0..=numbers.below(4) {
        let answer = graph.take(taps, sub);
        add(received, sub, answer)?;
    }
    Ok(())
}

/// Rouses some workers, or lets a moment pass.
fn rouse_or_pause<R: Clock>(rt: &R, numbers: &mut Numbers, rouser: &mut Rouser) {
    match numbers.below(2) {
        0 => rouser.rouse(u16::try_from(numbers.below(65_536)).unwrap_or(u16::MAX)),
        _ => {
            let pause = numbers.below(LONGEST_PAUSE);
            thread::sleep(rt, Duration::from_micros(u64::from(pause)));
        }
    }
}

/// Does what is done once.
fn do_extra<O: Ops>(
    graph: &LiveGraph<O>,
    taps: &mut Vec<Tap<O::Item>>,
    sub: SubId,
    extra: Extra,
) -> Option<Signal<O::Item>>
    requires { AreTapsOf graph.now taps.old.items }
    ensures { AreTapsOf graph.now taps.new.items }
{
    match extra {
        Extra::Nothing => None,
        Extra::Cancel => {
            graph.cancel(taps, sub);
            None
        }
        Extra::BadRequest => graph.request(taps, sub, 0),
    }
}

/// Puts what a subscription was given behind what was received.
fn add<T: Drop>(received: &mut Log<T>, sub: SubId, answer: Option<Signal<T>>) -> Result<()> {
    if let Some(signal) = answer {
        received.push((sub, signal))?;
    }
    Ok(())
}
