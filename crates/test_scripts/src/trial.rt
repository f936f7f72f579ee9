//! Two graphs of an expression, one of which is cut and joined before each move.

use crate::cuts::{Tally, cut_trees};
use anyhow::{Result, bail};
use rsx_demo::{Demo, Val};
use rsx_graph::{Deliveries, Graph, Pieces, Pumped};
use rsx_model::{Expr, Note};
use rsx_script::parse_expr;
use rsx_types::{HubId, HubKind, SubId, Tree};
use std::alloc::Global;

/// The most moves.
const MOST_MOVES: u32 = 10_000;

/// After so many moves nothing is done to a graph but moves.
const LAST_CALL: u32 = 60;

/// The hub that another expression feeds.
const FED: HubId = HubId(0);

/// The hub with an emitter.
const EMITTED: HubId = HubId(1);

/// The hub that the expression feeds.
const OF_EXPRESSION: HubId = HubId(2);

/// The subscription to what that hub publishes.
const TO_HUB: SubId = SubId(0);

/// The subscription to the expression itself.
const TO_EXPRESSION: SubId = SubId(1);

/// The expression that feeds the first hub.
const FIRST: &'static str = "(publishOn 1 2 (map inc (publishOn 2 2 (range 1 6))))";

/// How many items may wait at a reader of a hub.
const CAPACITY: u64 = 3;

/// What was done to the second of two graphs.
#[derive(Clone, Copy, Debug)]
pub struct Compared {
    /// How many moves it made.
    pub moves: u64,
    /// What was done to the parts of its feeds.
    pub feeds: Tally,
    /// What was done to the parts of its subscriptions.
    pub subs: Tally,
}

/// Does the same to two graphs of an expression, of which the second is cut and joined before each move.
///
/// # Errors
/// Where they aren't alike after a move, and where the text isn't an expression.
pub fn compare(alloc: Global, text: &str) -> Result<Compared> {
    let mut tally = Compared {
        moves: 0,
        feeds: Tally::new(),
        subs: Tally::new(),
    };
    let expr = parsed(alloc, text)?;
    let mut whole = graph_of(alloc, &expr)?;
    let mut cut = graph_of(alloc, &expr)?;
    for step in 0..MOST_MOVES {
        cut = cut_and_joined(alloc, cut, &mut tally)?;
        let done = advance(alloc, &mut whole, step)?;
        let also_done = advance(alloc, &mut cut, step)?;
        if !is_alike(alloc, &whole, &cut)? || !is_same_done(&done, &also_done) {
            bail!("{text}: the graphs differ after {step} moves");
        }
        if done.0 == Pumped::Idle && step > LAST_CALL {
            return Ok(tally);
        }
        tally.moves = tally.moves.wrapping_add(1);
    }
    bail!("{text}: there is no end of it")
}

/// The expression that this text is.
///
/// # Errors
/// Where it isn't one.
pub fn parsed(alloc: Global, text: &str) -> Result<Expr<Val>> {
    match parse_expr(alloc, text.as_bytes()) {
        Ok(expr) => Ok(expr),
        Err(why) => bail!("{text}: {why}"),
    }
}

/// A graph with a hub that this expression feeds, over two others, and with a subscription to what it publishes and another one to
/// the expression itself.
fn graph_of(alloc: Global, expr: &Expr<Val>) -> Result<Graph<Demo>> {
    let mut graph = Graph::new(alloc, Demo)?;
    graph.feed_hub(alloc, HubKind::Replay(2), CAPACITY, &parsed(alloc, FIRST)?)?;
    graph.hub(alloc, HubKind::Multicast, CAPACITY)?;
    graph.feed_hub(alloc, HubKind::Multicast, CAPACITY, expr)?;
    graph.subscribe(alloc, &Expr::Hub(OF_EXPRESSION))?;
    graph.subscribe(alloc, expr)?;
    Ok(graph)
}

/// The same graph: taken apart, its feeds and subscriptions cut and joined, and put together again.
fn cut_and_joined(alloc: Global, graph: Graph<Demo>, tally: &mut Compared) -> Result<Graph<Demo>> {
    let Pieces {
        ops,
        hubs,
        mut feeds,
        feed_joins,
        mut subs,
        joins,
        regions,
    } = graph.take_apart();
    cut_trees(
        alloc,
        &mut feeds,
        &mut subs,
        &mut tally.feeds,
        &mut tally.subs,
    )?;
    let pieces = Pieces {
        ops,
        hubs,
        feeds,
        feed_joins,
        subs,
        joins,
        regions,
    };
    Ok(pieces.put_together())
}

/// Now and then calls the graph, and makes a move of it. Answers whether there was one, and what was delivered.
fn advance(alloc: Global, graph: &mut Graph<Demo>, step: u32) -> Result<(Pumped, Deliveries<Val>)> {
    if step <= LAST_CALL {
        call(graph, step)?;
    }
    let mut out = Deliveries::new(alloc);
    let pumped = graph.pump(alloc, 1, &mut out)?;
    Ok((pumped, out))
}

/// What is done to the graph before this move: items are requested and published, and at last all is completed.
fn call(graph: &mut Graph<Demo>, step: u32) -> Result<()> {
    if step % 6 == 0 {
        graph.request_items(TO_HUB, 2)?;
    }
    if step % 9 == 4 {
        graph.request_items(TO_EXPRESSION, 1)?;
    }
    if step % 8 == 3 {
        // Where the inbox is full, the number isn't published.
        let _ = graph.emit(EMITTED, Val::Int(i64::from(step % 5)));
    }
    if step == LAST_CALL {
        graph.complete(EMITTED)?;
        graph.request_items(TO_HUB, 1_000)?;
        graph.request_items(TO_EXPRESSION, 1_000)?;
    }
    Ok(())
}

/// Whether the two graphs owe the same, and recorded the same.
fn is_alike(alloc: Global, whole: &Graph<Demo>, cut: &Graph<Demo>) -> Result<bool> {
    for sub in [TO_HUB, TO_EXPRESSION] {
        if whole.owed(alloc, sub)? != cut.owed(alloc, sub)? {
            return Ok(false);
        }
    }
    for tree in [
        Tree::Sub(TO_HUB),
        Tree::Sub(TO_EXPRESSION),
        Tree::Feed(FED),
        Tree::Feed(OF_EXPRESSION),
    ] {
        if !are_same_notes(&whole.notes(alloc, tree)?, &cut.notes(alloc, tree)?) {
            return Ok(false);
        }
    }
    Ok(true)
}

/// Whether two graphs answered alike, and delivered the same.
fn is_same_done(one: &(Pumped, Deliveries<Val>), other: &(Pumped, Deliveries<Val>)) -> bool {
    one.0 == other.0 && one.1.as_slice() == other.1.as_slice()
}

/// Whether the same was recorded.
fn are_same_notes(some: &[Note], others: &[Note]) -> bool {
    some.len() == others.len()
        && some
            .iter()
            .zip(others)
            .all(|(one, other)| is_same_note(one, other))
}

/// Whether two nodes recorded the same.
fn is_same_note(one: &Note, other: &Note) -> bool {
    match (one, other) {
        (Note::Nothing, Note::Nothing) => true,
        (Note::Picks(some), Note::Picks(others)) => some.as_slice() == others.as_slice(),
        (Note::Ended(one), Note::Ended(other)) => one == other,
        _ => false,
    }
}
