//! A graph with two hubs and up to three subscribers to one expression, and what was published and received.

use crate::numbers::Numbers;
use anyhow::Result;
use rsx_demo::{Demo, Val, copy_val};
use rsx_graph::{Graph, SubscriptionState};
use rsx_model::{Expr, nodes_of, scratch};
use rsx_types::{Cause, Ending, HubId, HubKind, Move, NodeId, Signal, StreamValue, SubId, Tree};
use rsx_values::MAIN;
use std::alloc::Global;

/// How many hubs there are: a multicast, and a replay.
const HUBS: u32 = 2;

/// How many items the replay keeps for late subscribers.
const KEPT: u64 = 2;

/// How many items wait at most in the inbox of a hub, and at each of its readers.
const CAPACITY: u64 = 3;

/// The most subscribers.
const MOST_SUBSCRIBERS: u32 = 3;

/// The most inputs of a node.
const MOST_INPUTS: u32 = 3;

/// The most lanes of a node that are picked.
const MOST_LANES: u32 = 12;

/// Signals in their order, each with the number of the hub that it was published at, or of the subscriber that received it.
pub type Log = Vec<(u32, Signal<Val>)>;

/// How many moves were made, how many signals were received, and how many comparisons were equal.
#[derive(Clone, Copy)]
pub struct Tally {
    /// The moves.
    pub moves: u64,
    /// The signals.
    pub received: u64,
    /// The comparisons.
    pub equal: u64,
}

/// A graph with two hubs and some subscribers to one expression, with what was published and received.
#[derive(Drop)]
pub struct Trial {
    expr: Expr<Val>,
    nodes: u32,
    has_lanes: bool,
    graph: Graph<Demo>,
    subscribers: u32,
    published: Log,
    received: Log,
    moves: u64,
    equal: u64,
}

impl Trial {
    /// A graph with one subscriber to this expression, which may have a node with lanes.
    pub fn new(alloc: Global, expr: Expr<Val>, has_lanes: bool) -> Result<Trial> {
        let graph = graph_with(alloc, &expr)?;
        let nodes = nodes_of(&expr) as u32;
        Ok(Trial {
            expr,
            nodes,
            has_lanes,
            graph,
            subscribers: 1,
            published: Vec::new(alloc),
            received: Vec::new(alloc),
            moves: 0,
            equal: 0,
        })
    }

    /// Adds what was counted.
    pub fn add_to(&self, tally: &mut Tally) {
        tally.moves = tally.moves.wrapping_add(self.moves);
        tally.received = tally.received.wrapping_add(self.received.len() as u64);
        tally.equal = tally.equal.wrapping_add(self.equal);
    }

    /// Tries one step, and compares for each subscriber where it did something. Answers whether nothing differs.
    pub fn advance(&mut self, alloc: Global, numbers: &mut Numbers) -> Result<bool> {
        if !self.step(alloc, numbers)? {
            return Ok(true);
        }
        self.equal = self.equal.wrapping_add(u64::from(self.subscribers));
        self.is_right(alloc)
    }

    /// Tries one step, mostly a move. Answers whether anything was done.
    fn step(&mut self, alloc: Global, numbers: &mut Numbers) -> Result<bool> {
        match numbers.below(512) {
            0 => self.subscribe(alloc),
            1 => Ok(cancel(numbers, &mut self.graph)),
            2..=11 => Ok(request(numbers, &mut self.graph)),
            12..=23 => publish(numbers, &mut self.graph, &mut self.published),
            _ => {
                let step = any_move(numbers, self.nodes, self.has_lanes);
                let is_made = make(alloc, step, &mut self.graph, &mut self.received)?;
                self.moves = self.moves.wrapping_add(u64::from(is_made));
                Ok(is_made)
            }
        }
    }

    /// Subscribes one more, unless there are enough.
    fn subscribe(&mut self, alloc: Global) -> Result<bool> {
        if self.subscribers >= MOST_SUBSCRIBERS {
            return Ok(false);
        }
        self.graph.subscribe(alloc, &self.expr)?;
        self.subscribers += 1;
        Ok(true)
    }

    /// Whether the comparison for each subscriber is equal.
    fn is_right(&self, alloc: Global) -> Result<bool> {
        let hubs = hub_values(alloc, &self.published)?;
        for number in 0..self.subscribers {
            let sub = SubId(number);
            let value = from_scratch(alloc, &self.graph, sub, &self.expr, &hubs)?;
            let received = value_in(alloc, &self.received, number)?;
            if !agrees(alloc, &self.graph, sub, received, value)? {
                return Ok(false);
            }
        }
        Ok(true)
    }
}

/// A graph with the two hubs and one subscriber to this expression.
fn graph_with(alloc: Global, expr: &Expr<Val>) -> Result<Graph<Demo>> {
    let mut graph = Graph::new(alloc, Demo)?;
    graph.hub(alloc, HubKind::Multicast, CAPACITY)?;
    graph.hub(alloc, HubKind::Replay(KEPT), CAPACITY)?;
    graph.subscribe(alloc, expr)?;
    Ok(graph)
}

/// Now and then cancels a subscription. Answers whether it did.
fn cancel(numbers: &mut Numbers, graph: &mut Graph<Demo>) -> bool {
    let sub = SubId(numbers.below(MOST_SUBSCRIBERS * 8));
    graph.cancel(sub).is_ok()
}

/// Requests one to three items more for a subscriber, if it is there. Answers whether it is.
fn request(numbers: &mut Numbers, graph: &mut Graph<Demo>) -> bool {
    let sub = any_subscriber(numbers);
    let count = 1 + i64::from(numbers.below(3));
    graph.request(sub, count).is_ok()
}

/// Publishes a number, or now and then an ending. Answers whether the hub accepted it.
fn publish(numbers: &mut Numbers, graph: &mut Graph<Demo>, published: &mut Log) -> Result<bool> {
    let hub = HubId(numbers.below(HUBS));
    let number = i64::from(numbers.below(9));
    let (is_accepted, signal) = match numbers.below(40) {
        0 => (graph.complete(hub).is_ok(), Signal::Complete),
        1 => (graph.fail(hub, 7).is_ok(), Signal::Error(Cause::User(7))),
        _ => (
            graph.emit(hub, Val::Int(number)).is_ok(),
            Signal::Next(Val::Int(number)),
        ),
    };
    if is_accepted {
        published.push((hub.0, signal))?;
    }
    Ok(is_accepted)
}

/// Makes this move where it is enabled, and keeps what it delivers. Answers whether it was made.
fn make(alloc: Global, step: Move, graph: &mut Graph<Demo>, received: &mut Log) -> Result<bool> {
    match graph.make(alloc, step) {
        Ok(Some((sub, signal))) => {
            received.push((sub.0, signal))?;
            Ok(true)
        }
        Ok(None) => Ok(true),
        Err(_) => Ok(false),
    }
}

/// A subscriber, which may not be there yet.
fn any_subscriber(numbers: &mut Numbers) -> SubId {
    SubId(numbers.below(MOST_SUBSCRIBERS))
}

/// A move of any kind, which may be one that isn't enabled, in trees of so many nodes, with lanes or without.
fn any_move(numbers: &mut Numbers, nodes: u32, has_lanes: bool) -> Move {
    let tree = Tree::Sub(any_subscriber(numbers));
    let node = NodeId(numbers.below(nodes));
    match numbers.below(9) {
        0 | 1 => Move::Ask(tree, node),
        2 | 3 => Move::Send(tree, node),
        4 => Move::Take(tree, NodeId(0)),
        5 => Move::Take(tree, node),
        6 => Move::Pick(tree, node, any_input(numbers, has_lanes)),
        7 => Move::Row(tree, node),
        _ => Move::Accept(HubId(numbers.below(HUBS))),
    }
}

/// An input of a node, or a lane or Main, which may not be there.
fn any_input(numbers: &mut Numbers, has_lanes: bool) -> u64 {
    if !has_lanes {
        return u64::from(numbers.below(MOST_INPUTS));
    }
    let lane = numbers.below(MOST_LANES + 1);
    if lane == MOST_LANES {
        return MAIN;
    }
    u64::from(lane)
}

/// The items and the ending of the signals with this number.
///
/// # Errors
/// For want of memory.
pub fn value_in(
    alloc: Global,
    log: &[(u32, Signal<Val>)],
    number: u32,
) -> Result<StreamValue<Val>> {
    let mut items = Vec::new(alloc);
    let mut ending = Ending::Open;
    for (at, signal) in log {
        if *at == number {
            match signal {
                Signal::Next(item) => items.push(copy_val(alloc, item)?)?,
                Signal::Complete => ending = Ending::Done,
                Signal::Error(cause) => ending = Ending::Failed(*cause),
            }
        }
    }
    Ok(StreamValue::new(items, ending))
}

/// The values of the hubs.
fn hub_values(alloc: Global, published: &[(u32, Signal<Val>)]) -> Result<Vec<StreamValue<Val>>> {
    let mut values = Vec::new(alloc);
    for number in 0..HUBS {
        values.push(value_in(alloc, published, number)?)?;
    }
    Ok(values)
}

/// The value of a subscriber's expression from scratch, over these values of the hubs.
///
/// # Errors
/// For want of memory, and where there is no such subscriber.
pub fn from_scratch(
    alloc: Global,
    graph: &Graph<Demo>,
    sub: SubId,
    expr: &Expr<Val>,
    hubs: &[StreamValue<Val>],
) -> Result<StreamValue<Val>> {
    let joins = graph.joins(alloc, Tree::Sub(sub))?;
    let notes = graph.notes(alloc, Tree::Sub(sub))?;
    Ok(scratch(alloc, &Demo, expr, hubs, &joins, &notes)?)
}

/// Whether what a subscriber received, with what it is owed behind it, is this value; or, where it cancelled, whether what it
/// received is the beginning of the value.
///
/// # Errors
/// For want of memory, and where there is no such subscriber.
pub fn agrees(
    alloc: Global,
    graph: &Graph<Demo>,
    sub: SubId,
    received: StreamValue<Val>,
    value: StreamValue<Val>,
) -> Result<bool> {
    if graph.standing(sub)? == SubscriptionState::Cancelled {
        return Ok(begins(received, value));
    }
    let owed = graph.owed(alloc, sub)?;
    Ok(joined(received, owed)? == value)
}

/// Whether what was received is the beginning of this value.
pub fn begins(received: StreamValue<Val>, value: StreamValue<Val>) -> bool {
    let received = received.into_items();
    let mut beginning = value.into_items();
    beginning.truncate(received.len());
    received == beginning
}

/// A value, and behind it another, which is empty and open where the first has an ending.
///
/// # Errors
/// For want of memory.
pub fn joined(first: StreamValue<Val>, second: StreamValue<Val>) -> Result<StreamValue<Val>> {
    let ending = match first.ending() {
        Ending::Open => second.ending(),
        ending => ending,
    };
    let mut items = first.into_items();
    for item in second.into_items() {
        items.push(item)?;
    }
    Ok(StreamValue::new(items, ending))
}
