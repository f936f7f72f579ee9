//! What is still owed to subscribers.

ghost use Rattle.std.specs.Prelude.{◌<◌, ◌^◌, length, IfOk, IfErr};
ghost use Rattle.rsx_graph_state.specs.History.{History};
ghost use Rattle.rsx_graph_state.specs.Moves.{rows_of};
ghost use Rattle.rsx_graph_state.specs.Stands.{StandsFor};
ghost use Rattle.rsx_graph_state.specs.Answers.{IsLookRefusal};
ghost use Rattle.rsx_graph_calls.specs.Looks.{IsOwed};

use crate::to_come::all_to_come;
use rsx_graph_state::{Feed, Refusal};
use rsx_hub::Hub;
use rsx_pipe::Nodes;
use rsx_subscriber::{Subscription, SubscriptionState};
use rsx_types::{Ending, NoMemory, Ops, StreamValue, SubId};
use std::alloc::Global;

/// What is still owed to a subscriber: what is on its root edge, and then what comes out of its tree, where at each hub just what
/// is still to come there comes, and nothing more is chosen. Still to come is, of a hub with an emitter, what stands in its inbox;
/// of a hub with a feed, what still comes out of the feed, where that is still to come of the hubs before it. For a subscriber that
/// got its ending or isn't live it is nothing, Open.
///
/// # Errors
/// G2 exactly where there is no such subscription, else G8 where a growth was refused.
pub fn owed<N: Nodes<Item = O::Item>, O: Ops>(
    alloc: Global,
    ops: &O,
    hubs: &[Hub<O::Item>],
    feeds: &[Feed<N>],
    subscriptions: &[Subscription<N, O::Item>],
    sub: SubId,
) -> Result<StreamValue<O::Item>, Refusal>
    requires few { length hubs.now < 2 ^ 32 }
    ensures owes { IfOk result (λ v. (h : History O.Item) →
        StandsFor N.Machine (O.meaning ops.now) (rows_of hubs.now feeds.now subscriptions.now) h →
        IsOwed N.Machine (O.meaning ops.now) (rows_of hubs.now feeds.now subscriptions.now) h sub v) }
    ensures err { IfErr result (λ r. IsLookRefusal (length subscriptions.now) sub r) }
{
    let at = sub.0 as usize;
    if at >= subscriptions.len() {
        return Err(Refusal::UnknownSub);
    }
    let subscription = &subscriptions[at];
    match subscription.standing() {
        SubscriptionState::Open => {}
        _ => return Ok(StreamValue::new(Vec::new(alloc), Ending::Open)),
    }
    let to_come = match all_to_come(alloc, ops, hubs, feeds) {
        Ok(to_come) => to_come,
        Err(NoMemory) => return Err(Refusal::NoMemory),
    };
    match subscription.owed(alloc, ops, &to_come) {
        Ok(value) => Ok(value),
        Err(NoMemory) => Err(Refusal::NoMemory),
    }
}
