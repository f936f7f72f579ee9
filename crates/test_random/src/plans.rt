//! Graphs that go behind a gate: their hubs, and what is subscribed to.

ghost use Rattle.std.specs.Prelude.{◌≡◌, [], IfOk};
ghost use Rattle.rsx_graph.specs.InGraph.{state_of};

use crate::numbers::Numbers;
use crate::trees::{KINDS, tree};
use anyhow::{Result, bail};
use rsx_demo::{Demo, Val};
use rsx_graph::Graph;
use rsx_model::Expr;
use rsx_script::parse_expr;
use rsx_types::{HubId, HubKind};
use std::alloc::Global;

/// Expressions over one hub.
const OVER_ONE: [&'static str; 6] = [
    "(hub 0)",
    "(publishOn 1 2 (map inc (hub 0)))",
    "(filter even (hub 0))",
    "(groupBy mod3 ((scan add 0)) (hub 0))",
    "(merge 2 (hub 0) (publishOn 2 2 (hub 0)) (range 1 4))",
    "(zip 2 (hub 0) (concat (items 7 8) (hub 0)))",
];

/// How many items wait at most in the inbox of a hub, and at each of its readers.
const CAPACITY: u64 = 3;

/// The kinds of its hubs, and what is subscribed to.
#[derive(Drop)]
pub struct Plan {
    /// How many hubs have emitters. They come first.
    pub emitters: u32,
    /// The kinds of the hubs that have emitters.
    kinds: Vec<HubKind>,
    /// The kind of a hub behind them that is fed.
    fed: HubKind,
    /// The expression that feeds it, if there is one.
    pub feed: Option<Expr<Val>>,
    /// The expressions that are subscribed to.
    pub exprs: Vec<Expr<Val>>,
}

impl Plan {
    /// One of four shapes: a hub; two hubs; a hub, and one that is fed by an expression over it; two hubs, and one that is fed by a tree
    /// over both, which is subscribed to alone, too. There are one to three other subscriptions.
    ///
    /// # Errors
    /// For want of memory.
    pub fn new(alloc: Global, numbers: &mut Numbers) -> Result<Plan> {
        let shape = numbers.below(4);
        let feed = match shape {
            2 => Some(over_one(alloc, numbers)?),
            3 => Some(any_tree(alloc, numbers)?),
            _ => None,
        };
        let emitters = match shape {
            0 | 2 => 1,
            _ => 2,
        };
        let mut kinds = Vec::new(alloc);
        for _ in 0..emitters {
            kinds.push(any_kind(numbers))?;
        }
        let mut exprs = Vec::new(alloc);
        for _ in 0..numbers.below(3).saturating_add(1) {
            exprs.push(match shape {
                0 => over_one(alloc, numbers)?,
                _ => any_tree(alloc, numbers)?,
            })?;
        }
        if shape == 3 {
            exprs.push(Expr::Hub(HubId(2)))?;
        }
        Ok(Plan {
            emitters,
            kinds,
            fed: any_kind(numbers),
            feed,
            exprs,
        })
    }

    /// One hub with an emitter, and a subscription to this expression over it.
    ///
    /// # Errors
    /// For want of memory, and where the text isn't an expression.
    pub fn over_hub(alloc: Global, text: &str) -> Result<Plan> {
        let mut kinds = Vec::new(alloc);
        kinds.push(HubKind::Multicast)?;
        let mut exprs = Vec::new(alloc);
        exprs.push(parsed(alloc, text)?)?;
        Ok(Plan {
            emitters: 1,
            kinds,
            fed: HubKind::Multicast,
            feed: None,
            exprs,
        })
    }

    /// How many subscriptions there are.
    pub fn subs(&self) -> u32 {
        u32::try_from(self.exprs.len()).unwrap_or(0)
    }
}

/// A graph with these hubs.
///
/// # Errors
/// For want of memory.
pub fn new_graph(alloc: Global, plan: &Plan) -> Result<Graph<Demo>>
    ensures { IfOk result (λ g. (state_of g).joins ≡ []) }
{
    let mut graph = Graph::new(alloc, Demo)?;
    for kind in &plan.kinds {
        graph.hub(alloc, *kind, CAPACITY)?;
    }
    let Some(feed) = &plan.feed else {
        return Ok(graph);
    };
    graph.feed_hub(alloc, plan.fed, CAPACITY, feed)?;
    Ok(graph)
}

/// A kind of hub.
fn any_kind(numbers: &mut Numbers) -> HubKind {
    match numbers.below(3) {
        0 => HubKind::Replay(2),
        _ => HubKind::Multicast,
    }
}

/// One of the expressions over one hub.
fn over_one(alloc: Global, numbers: &mut Numbers) -> Result<Expr<Val>> {
    let Some(text) = OVER_ONE.get(numbers.below(6) as usize) else {
        bail!("there is no such expression")
    };
    parsed(alloc, text)
}

/// The expression with this text.
fn parsed(alloc: Global, text: &str) -> Result<Expr<Val>> {
    match parse_expr(alloc, text.as_bytes()) {
        Ok(expr) => Ok(expr),
        Err(why) => bail!("{text}: {why}"),
    }
}

/// A tree of any kind, over two hubs.
fn any_tree(alloc: Global, numbers: &mut Numbers) -> Result<Expr<Val>> {
    match KINDS.get(numbers.below(17) as usize) {
        Some((_, kind)) => tree(alloc, numbers, *kind),
        None => bail!("there is no such kind"),
    }
}
