//! Calls of a graph for which memory is refused.
//!
//! The script `bench/refused.sh` runs these calls again and again over an allocator that refuses one growth, another one in each run. A
//! call that was refused for want of memory is made again, once it is seen that nothing changed. So what is written is the same in every
//! run, unless the growth was refused to the test itself.

use anyhow::{Result, bail};
use rsx_demo::{Demo, Val};
use rsx_graph::{Answer, Deliveries, Graph, Pumped, Refusal, Step};
use rsx_model::{Expr, scratch};
use rsx_script::parse_expr;
use rsx_types::{Ending, HubId, HubKind, Move, NodeId, StreamValue, SubId, Tree};
use std::alloc::Global;

/// The expression that feeds the second hub.
const FEED: &'static str = "(publishOn 1 2 (map inc (hub 0)))";

/// The expressions that are subscribed to.
const EXPRESSIONS: [&'static str; 5] = [
    "(groupBy mod3 ((scan add 0)) (hub 1))",
    "(merge 2 (zip 2 (hub 0) (range 1 6)) (flatMap upto 2 ((map double)) (hub 1)))",
    "(combineLatest 2 (buffer 2 (hub 0)) (window 2 ((map inc)) (distinct mod3 (hub 1))))",
    "(concat (publishOn 2 2 (items 4 5 6)) (take 2 (filter even (hub 0))))",
    "(range 1 20)",
];

/// How many subscriptions there are.
const SUBS: u32 = 5;

/// How many edits are made: two hubs, the subscriptions, a request of each, and items.
const EDITS: u32 = 18;

/// The first edit that publishes an item.
const FIRST_ITEM: u32 = 12;

/// No more moves than these are made until none is enabled.
const MOST_MOVES: u32 = 2_000;

/// No more than so many times two Sends are made.
const MOST_SENDS: u32 = 40;

/// Makes the calls, and answers what the graph owes at the end, what was recorded, and what was delivered.
pub fn report(alloc: Global) -> Result<String> {
    let mut graph = new_graph(alloc)?;
    let mut out = Deliveries::new(alloc);
    for number in 0..EDITS {
        edit(alloc, &mut graph, number)?;
        pump(alloc, &mut graph, &mut out)?;
    }
    let sent = send_many(alloc, &mut graph, &mut out)?;
    run_steps(alloc, &mut graph)?;
    pump(alloc, &mut graph, &mut out)?;
    let looks = looks(alloc, &graph)?;
    let value = from_scratch(alloc, &graph)?;
    Ok(format!(in alloc;
        "{looks}\nsent {sent}, value {value:?}\n{:?}",
        out.as_slice()
    )?)
}

/// A graph, in a second call where memory is refused for the first.
fn new_graph(alloc: Global) -> Result<Graph<Demo>> {
    match Graph::new(alloc, Demo) {
        Ok(graph) => Ok(graph),
        Err(_) => Ok(Graph::new(alloc, Demo)?),
    }
}

/// The expression that this text is.
fn parsed(alloc: Global, text: &str) -> Result<Expr<Val>> {
    match parse_expr(alloc, text.as_bytes()) {
        Ok(expr) => Ok(expr),
        Err(_) => match parse_expr(alloc, text.as_bytes()) {
            Ok(expr) => Ok(expr),
            Err(why) => bail!("{text}: {why}"),
        },
    }
}

/// The edit with this number.
fn edit_at(alloc: Global, number: u32) -> Result<Step<Val>> {
    Ok(match number {
        0 => Step::Hub(HubKind::Replay(2), 3),
        1 => Step::FeedHub(HubKind::Multicast, 3, parsed(alloc, FEED)?),
        2..=6 => Step::Subscribe(parsed(alloc, EXPRESSIONS[number as usize - 2])?),
        7..=11 => Step::Request(SubId(number - 7), 3),
        _ => Step::Emit(HubId(0), Val::Int(i64::from(number))),
    })
}

/// Makes an edit, twice where memory is refused for it.
fn edit(alloc: Global, graph: &mut Graph<Demo>, number: u32) -> Result<()> {
    let before = looks(alloc, graph)?;
    match graph.step(alloc, edit_at(alloc, number)?) {
        Answer::Refused(Refusal::NoMemory) => {}
        Answer::Refused(why) => bail!("edit {number} is refused: {why}"),
        _ => return Ok(()),
    }
    if looks(alloc, graph)? != before {
        bail!("edit {number} changed the graph though it was refused");
    }
    match graph.step(alloc, edit_at(alloc, number)?) {
        Answer::Refused(why) => bail!("edit {number} is refused again: {why}"),
        _ => Ok(()),
    }
}

/// Makes moves one by one until none is enabled. One that memory is refused for is the next again, since nothing changed.
fn pump(alloc: Global, graph: &mut Graph<Demo>, out: &mut Deliveries<Val>) -> Result<()> {
    for round in 0..MOST_MOVES {
        match graph.pump(alloc, 1, out) {
            Ok(Pumped::Idle) => return Ok(()),
            Ok(Pumped::Budget) | Err(Refusal::NoMemory) => {}
            Err(why) => bail!("a pump is refused: {why}"),
        }
    }
    bail!("a pump doesn't end")
}

/// Asks for more, makes one Send as often as it can be made, and answers how often.
fn send_many(alloc: Global, graph: &mut Graph<Demo>, out: &mut Deliveries<Val>) -> Result<u32> {
    let sub = SubId(4);
    graph.request(sub, 5)?;
    let step = Move::Send(Tree::Sub(sub), NodeId(0));
    let mut sent = 0u32;
    for round in 0..MOST_SENDS {
        let before = looks(alloc, graph)?;
        match graph.make_many(alloc, step, 2, out) {
            Ok(count) => sent = sent.saturating_add(count),
            Err(Refusal::NotEnabled) => return Ok(sent),
            Err(Refusal::NoMemory) => {
                if looks(alloc, graph)? != before {
                    bail!("a Send changed the graph though it was refused");
                }
            }
            Err(why) => bail!("a Send is refused: {why}"),
        }
    }
    bail!("a Send can be made for ever")
}

/// Makes a list of edits that take no memory of their own.
fn run_steps(alloc: Global, graph: &mut Graph<Demo>) -> Result<()> {
    let mut steps = Vec::new(alloc);
    for number in 0..SUBS {
        steps.push(Step::Request(SubId(number), 2))?;
    }
    steps.push(Step::Complete(HubId(0)))?;
    let Err(again) = graph.run(alloc, steps) else {
        return Ok(());
    };
    match graph.run(alloc, again) {
        Ok(_) => Ok(()),
        Err(_) => bail!("a list of steps is refused again"),
    }
}

/// What the graph owes each subscriber, what was asked, what the nodes recorded and how leaves joined, in a second try where memory is
/// refused for the first.
fn looks(alloc: Global, graph: &Graph<Demo>) -> Result<String> {
    match try_looks(alloc, graph) {
        Ok(text) => Ok(text),
        Err(_) => try_looks(alloc, graph),
    }
}

/// The same, once.
fn try_looks(alloc: Global, graph: &Graph<Demo>) -> Result<String> {
    let mut text = String::new(alloc);
    for number in 0..SUBS {
        let sub = SubId(number);
        let tree = Tree::Sub(sub);
        let Ok(asked) = graph.asked(sub) else {
            continue;
        };
        let owed = graph.owed(alloc, sub)?;
        let notes = graph.notes(alloc, tree)?;
        let joins = graph.joins(alloc, tree)?;
        text.push_str(&format!(in alloc;
            "{number}: asked {asked}, owed {owed:?}, {notes:?}, {joins:?}; "
        )?)?;
    }
    Ok(text)
}

/// The value of the first expression from scratch, over what was published at the first hub, in a second try where memory is refused.
fn from_scratch(alloc: Global, graph: &Graph<Demo>) -> Result<StreamValue<Val>> {
    match try_scratch(alloc, graph) {
        Ok(value) => Ok(value),
        Err(_) => try_scratch(alloc, graph),
    }
}

/// The same, once.
fn try_scratch(alloc: Global, graph: &Graph<Demo>) -> Result<StreamValue<Val>> {
    let tree = Tree::Sub(SubId(3));
    let joins = graph.joins(alloc, tree)?;
    let notes = graph.notes(alloc, tree)?;
    let mut items = Vec::new(alloc);
    for number in FIRST_ITEM..EDITS {
        items.push(Val::Int(i64::from(number)))?;
    }
    let mut hubs = Vec::new(alloc);
    hubs.push(StreamValue::new(items, Ending::Done))?;
    Ok(scratch(
        alloc,
        &Demo,
        &parsed(alloc, EXPRESSIONS[3])?,
        &hubs,
        &joins,
        &notes,
    )?)
}
