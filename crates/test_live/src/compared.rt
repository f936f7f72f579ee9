//! What subscribers received, compared with the values of their expressions.

use anyhow::{Result, bail};
use rsx_demo::{Demo, Val, copy_val};
use rsx_graph::{Graph, SubscriptionState};
use rsx_model::{Expr, scratch};
use rsx_types::{Ending, Signal, StreamValue, SubId, Tree};
use std::alloc::Global;

/// Compares for each of so many subscriptions to this expression. `is_over` says whether none of them may be open still.
///
/// # Errors
/// Where a comparison differs, or a subscription is open still.
pub fn compare(
    alloc: Global,
    graph: &Graph<Demo>,
    expr: &Expr<Val>,
    subs: u32,
    received: &[(SubId, Signal<Val>)],
    is_over: bool,
) -> Result<()> {
    for number in 0..subs {
        let sub = SubId(number);
        if is_over && graph.standing(sub)? == SubscriptionState::Open {
            bail!("subscription {number} has not ended")
        }
        let received = value_in(alloc, received, sub)?;
        if !agrees(alloc, graph, sub, expr, received)? {
            bail!("what subscription {number} received differs")
        }
    }
    Ok(())
}

/// Whether what a subscriber received, with what it is owed behind it, is the value of its expression; or, where it cancelled or made a
/// bad request, whether what it received is the beginning of the value.
fn agrees(
    alloc: Global,
    graph: &Graph<Demo>,
    sub: SubId,
    expr: &Expr<Val>,
    received: StreamValue<Val>,
) -> Result<bool> {
    let joins = graph.joins(alloc, Tree::Sub(sub))?;
    let notes = graph.notes(alloc, Tree::Sub(sub))?;
    let value = scratch(alloc, &Demo, expr, &[], &joins, &notes)?;
    match graph.standing(sub)? {
        SubscriptionState::Open | SubscriptionState::Ended => {
            let owed = graph.owed(alloc, sub)?;
            Ok(joined(received, owed)? == value)
        }
        SubscriptionState::Cancelled | SubscriptionState::Refused => {
            let received = received.into_items();
            let mut beginning = value.into_items();
            beginning.truncate(received.len());
            Ok(received == beginning)
        }
    }
}

/// The items and the ending that a subscriber received.
fn value_in(
    alloc: Global,
    received: &[(SubId, Signal<Val>)],
    sub: SubId,
) -> Result<StreamValue<Val>> {
    let mut items = Vec::new(alloc);
    let mut ending = Ending::Open;
    for (at, signal) in received {
        if *at == sub {
            match signal {
                Signal::Next(item) => items.push(copy_val(alloc, item)?)?,
                Signal::Complete => ending = Ending::Done,
                Signal::Error(cause) => ending = Ending::Failed(*cause),
            }
        }
    }
    Ok(StreamValue::new(items, ending))
}

/// A value, and behind it another, which is empty and open where the first has an ending.
fn joined(first: StreamValue<Val>, second: StreamValue<Val>) -> Result<StreamValue<Val>> {
    let ending = match first.ending() {
        Ending::Open => second.ending(),
        ending => ending,
    };
    let mut items = first.into_items();
    for item in second.into_items() {
        items.push(item)?;
    }
    Ok(StreamValue::new(items, ending))
}
