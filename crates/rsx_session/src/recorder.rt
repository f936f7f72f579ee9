//! The recorder of a script.

ghost use Rattle.std.specs.Prelude.{◌≡◌, ◌≤◌, [], All, IfOk};

use crate::note::Events;
use rsx_demo::{Demo, Val};
use rsx_graph::{Deliveries, Graph, Pumped, Refusal};
use rsx_model::Expr;
use rsx_script::Command;
use rsx_tck::{Event, Stamped};
use rsx_types::{Move, NoMemory, Signal, SubId, Tree};
use std::alloc::Global;

/// The most moves of one call of `Graph::pump`, so that what it delivers is written down before it grows large.
const SLICE: u32 = 65_536;

/// A graph of its own, to which the commands of a script are given, and what happened to its subscriptions so far.
#[derive(Drop)]
pub struct Recorder {
    graph: Graph<Demo>,
    events: Events,
}

/// Nothing, unless memory was wanted: a command that a graph refuses leaves no event.
fn unless_memory(refusal: Refusal) -> Result<(), NoMemory> {
    match refusal {
        Refusal::NoMemory => Err(NoMemory),
        _ => Ok(()),
    }
}

impl Recorder {
    /// Of an empty graph, to which nothing has happened.
    ///
    /// # Errors
    ///
    /// `NoMemory` where a growth was refused.
    pub fn new(alloc: Global) -> Result<Recorder, NoMemory>
        ensures { IfOk result (λ r. r.events.list.items ≡ []) }
    {
        match Graph::new(alloc, Demo) {
            Ok(graph) => Ok(Recorder {
                graph,
                events: Events {
                    list: Vec::new(alloc),
                },
            }),
            Err(_) => Err(NoMemory),
        }
    }

    /// What happened so far, in its order. Each event is on a worker from 0 to 15.
    pub fn events(&self) -> &[Stamped]
        ensures events { result.now ≡ self.now.events.list.items }
        ensures fitting { All (λ e. e.worker ≤ 15) result.now }
    {
        self.events.list.as_slice()
    }

    /// Carries the command out, and writes down what happened to subscriptions: a subscription as Subscribe, OnSubscribe and Exit, a
    /// request and a cancel before their effect, and each signal that was delivered as itself and Exit, in their order. A signal
    /// that a move delivers, and its Exit, happen on the worker whose number is the region of the subscription
    /// ([`Graph::region`]), all else on worker 0. Of a command that the graph refuses, and of one that only looks, nothing is
    /// written down.
    ///
    /// # Errors
    ///
    /// `NoMemory` where a growth was refused.
    pub fn take_in(&mut self, alloc: Global, command: &Command) -> Result<(), NoMemory> {
        match command {
            Command::Subscribe(expr) => self.subscribe(alloc, expr),
            Command::Request(sub, count) => self.request(*sub, *count),
            Command::Cancel(sub) => self.cancel(*sub),
            Command::Pump(budget) => self.pump(alloc, *budget),
            other => self.change(alloc, other),
        }
    }

    /// Carries out a command that delivers nothing.
    fn change(&mut self, alloc: Global, command: &Command) -> Result<(), NoMemory> {
        let graph = &mut self.graph;
        let refused = match command {
            Command::Hub(kind, capacity) => graph.hub(alloc, *kind, *capacity).err(),
            Command::Feed(kind, capacity, expr) => {
                graph.feed_hub(alloc, *kind, *capacity, expr).err()
            }
            Command::Emit(hub, number) => match graph.emit(*hub, Val::Int(*number)) {
                Ok(()) => None,
                Err(back) => Some(back.refusal),
            },
            Command::Complete(hub) => graph.complete(*hub).err(),
            Command::Fail(hub, number) => graph.fail(*hub, *number).err(),
            Command::Pick(sub, node, input) => {
                graph
                    .make(alloc, Move::Pick(Tree::Sub(*sub), *node, *input))
                    .err()
            }
            _ => None,
        };
        match refused {
            Some(refusal) => unless_memory(refusal),
            None => Ok(()),
        }
    }

    /// Subscribes.
    fn subscribe(&mut self, alloc: Global, expr: &Expr<Val>) -> Result<(), NoMemory> {
        match self.graph.subscribe(alloc, expr) {
            Ok(sub) => self.events.note_subscription(sub),
            Err(refusal) => unless_memory(refusal),
        }
    }

    /// Requests; the error of a bad request is delivered at once.
    fn request(&mut self, sub: SubId, count: i64) -> Result<(), NoMemory> {
        match self.graph.request(sub, count) {
            Ok(answer) => {
                self.events.note(0, Event::Request(sub.0, count))?;
                match answer {
                    Some(signal) => self.events.note_delivery(0, sub, &signal),
                    None => Ok(()),
                }
            }
            Err(refusal) => unless_memory(refusal),
        }
    }

    /// Cancels.
    fn cancel(&mut self, sub: SubId) -> Result<(), NoMemory> {
        match self.graph.cancel(sub) {
            Ok(()) => self.events.note(0, Event::Cancel(sub.0)),
            Err(refusal) => unless_memory(refusal),
        }
    }

    /// Makes at most so many moves, a slice of them at a time.
    fn pump(&mut self, alloc: Global, budget: u32) -> Result<(), NoMemory> {
        for _ in 0..budget / SLICE {
            if let Pumped::Idle = self.pump_slice(alloc, SLICE)? {
                return Ok(());
            }
        }
        self.pump_slice(alloc, budget % SLICE)?;
        Ok(())
    }

    /// Makes at most so many moves, and writes down what they delivered.
    fn pump_slice(&mut self, alloc: Global, budget: u32) -> Result<Pumped, NoMemory> {
        let mut delivered = Deliveries::new(alloc);
        match self.graph.pump(alloc, budget, &mut delivered) {
            Ok(pumped) => {
                self.note_deliveries(delivered.as_slice())?;
                Ok(pumped)
            }
            Err(_) => Err(NoMemory),
        }
    }

    /// Writes down what moves delivered, in its order.
    fn note_deliveries(&mut self, delivered: &[(SubId, Signal<Val>)]) -> Result<(), NoMemory> {
        for (sub, signal) in delivered {
            let worker = self.graph.region(*sub).unwrap_or(0);
            self.events.note_delivery(worker, *sub, signal)?;
        }
        Ok(())
    }
}
