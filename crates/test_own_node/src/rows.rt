//! A graph of nodes of any kind, in rows, and what is done to it.

use anyhow::{Result, bail};
use rsx_demo::{Demo, Val};
use rsx_graph_calls::{Regions, admit, cancel, emit, owed, request, subscribe};
use rsx_graph_moves::{IdleSet, make, pump};
use rsx_graph_state::{Feed, MOST_HUBS, MOST_SUBSCRIPTIONS};
use rsx_hub::Hub;
use rsx_model::Expr;
use rsx_rooted::{Batches, Nodes};
use rsx_subscriber::{Deliveries, Subscription};
use rsx_tree::Node;
use rsx_types::{Ending, HubId, Move, Signal, SubId};
use std::alloc::Global;

/// What is done to a graph.
#[derive(Clone, Copy, Debug)]
pub enum Act {
    /// This subscriber requests so many items.
    Request(SubId, i64),
    /// This number is published at the hub.
    Emit(i64),
    /// This move is made.
    Make(Move),
    /// Enabled moves are made, at most so many.
    Pump(u32),
    /// This subscriber cancels.
    Cancel(SubId),
}

/// The hub of the graph.
const HUB: HubId = HubId(0);

/// The rows of a graph of nodes of this kind.
#[derive(Drop)]
pub struct Rows<N> {
    hubs: Vec<Hub<Val>>,
    feeds: Vec<Feed<N>>,
    subscriptions: Vec<Subscription<N, Val>>,
    joins: Vec<Vec<u64>>,
    regions: Regions,
}

impl<N: Nodes<Item = Val> + Batches + Drop> Rows<N> {
    /// A graph of these hubs and no subscription.
    fn new(alloc: Global, hubs: Vec<Hub<Val>>) -> Rows<N> {
        Rows {
            hubs,
            feeds: Vec::new(alloc),
            subscriptions: Vec::new(alloc),
            joins: Vec::new(alloc),
            regions: Regions::new(alloc),
        }
    }

    /// Subscribes to what comes out of this tree, whose leaves that read a hub are those of the expression.
    fn subscribe(&mut self, alloc: Global, expr: &Expr<Val>, tree: Node<N>) -> Result<()> {
        if self.hubs.len() > MOST_HUBS {
            bail!("too many hubs")
        }
        admit(expr, &self.hubs, self.subscriptions.len())?;
        let subscribed = subscribe(
            alloc,
            &mut self.hubs,
            &mut self.subscriptions,
            &mut self.joins,
            &mut self.regions,
            expr,
            tree,
        );
        match subscribed {
            Ok(_) => Ok(()),
            Err(_) => bail!("no memory"),
        }
    }

    /// Does this, and answers what was delivered by it.
    fn act(&mut self, alloc: Global, act: Act) -> Result<Deliveries<Val>> {
        let mut out = Deliveries::new(alloc);
        match act {
            Act::Request(sub, items) => {
                request(&mut self.subscriptions, sub, items)?;
            }
            Act::Emit(number) => {
                if emit(&mut self.hubs, &self.feeds, HUB, Val::Int(number)).is_err() {
                    bail!("refused")
                }
            }
            Act::Make(step) => self.make(alloc, step, &mut out)?,
            Act::Pump(budget) => self.pump(alloc, budget, &mut out)?,
            Act::Cancel(sub) => cancel(&mut self.subscriptions, sub)?,
        }
        Ok(out)
    }

    /// Makes one move.
    fn make(&mut self, alloc: Global, step: Move, out: &mut Deliveries<Val>) -> Result<()> {
        let made = make(
            alloc,
            &Demo,
            &mut self.hubs,
            &mut self.feeds,
            &mut self.subscriptions,
            step,
        )?;
        if let Some((sub, signal)) = made {
            if out.reserve().is_err() {
                bail!("no memory")
            }
            out.push(sub, signal);
        }
        Ok(())
    }

    /// Makes enabled moves.
    fn pump(&mut self, alloc: Global, budget: u32, out: &mut Deliveries<Val>) -> Result<()> {
        if self.hubs.len() > MOST_HUBS || self.subscriptions.len() > MOST_SUBSCRIPTIONS {
            bail!("too many")
        }
        let mut idle = IdleSet::new();
        pump(
            alloc,
            &Demo,
            &mut self.hubs,
            &mut self.feeds,
            &mut self.subscriptions,
            &mut idle,
            budget,
            out,
        )?;
        Ok(())
    }

    /// What is still owed to each subscriber, as text.
    fn owed(&self, alloc: Global, line: &mut String) -> Result<()> {
        if self.hubs.len() > MOST_HUBS || self.subscriptions.len() > MOST_SUBSCRIPTIONS {
            bail!("too many")
        }
        for at in 0..self.subscriptions.len() as u32 {
            let value = owed(
                alloc,
                &Demo,
                &self.hubs,
                &self.feeds,
                &self.subscriptions,
                SubId(at),
            )?;
            line.push_str(format!(in alloc; "; owed to {at}:")?.as_str())?;
            for item in value.items() {
                line.push_str(format!(in alloc; " {item}")?.as_str())?;
            }
            let ending = match value.ending() {
                Ending::Open => ", open",
                Ending::Done => ", done",
                Ending::Failed(_) => ", failed",
            };
            line.push_str(ending)?;
        }
        Ok(())
    }
}

/// What was delivered, as text.
fn delivered(alloc: Global, out: &Deliveries<Val>, line: &mut String) -> Result<()> {
    for (sub, signal) in out.as_slice() {
        let text = match signal {
            Signal::Next(item) => format!(in alloc; ", {item} to {}", sub.0)?,
            Signal::Complete => format!(in alloc; ", completion to {}", sub.0)?,
            Signal::Error(_) => format!(in alloc; ", failure to {}", sub.0)?,
        };
        line.push_str(text.as_str())?;
    }
    Ok(())
}

/// Does all this to a graph of these hubs, with a subscription to each tree, and answers what was delivered by each act and what is
/// still owed after it, a line for each.
pub fn run<N: Nodes<Item = Val> + Batches + Drop>(
    alloc: Global,
    hubs: Vec<Hub<Val>>,
    trees: Vec<(Expr<Val>, Node<N>)>,
    acts: &[Act],
) -> Result<String> {
    let mut rows = Rows::new(alloc, hubs);
    for (expr, tree) in trees {
        rows.subscribe(alloc, &expr, tree)?;
    }
    let mut lines = String::new(alloc);
    for act in acts {
        let out = rows.act(alloc, *act)?;
        lines.push_str(format!(in alloc; "{act:?}")?.as_str())?;
        delivered(alloc, &out, &mut lines)?;
        rows.owed(alloc, &mut lines)?;
        lines.push('\n')?;
    }
    Ok(lines)
}
