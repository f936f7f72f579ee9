//! What the trees of subscriptions and of hubs' feeds recorded, and how their leaves joined.

ghost use Rattle.std.specs.Prelude.{◌≡◌, ◌<◌, List, Some, length, map, slice_get, OnOk, IfOk, IfErr};
ghost use Rattle.rsx_graph_state.specs.Moves.{rows_of};
ghost use Rattle.rsx_graph_state.specs.Joins.{AreFeedJoins};
ghost use Rattle.rsx_graph_state.specs.Answers.{IsLookRefusal};
ghost use Rattle.rsx_graph_state.specs.Subscriptions.{HasNotesAt};
ghost use Rattle.rsx_subscriber.specs.declared.subscription.Subscription.{Subscription as SubscriptionOf};
ghost use Rattle.rsx_graph_calls.specs.Looks.{AreJoins, HasFeedNotes, HasNotes, IsFeedLookRefusal, IsTreeLookRefusal};

use crate::feeds::place_of;
use rsx_graph_state::{Feed, Refusal};
use rsx_hub::Hub;
use rsx_pipe::Nodes;
use rsx_subscriber::Subscription;
use rsx_types::{HubId, NoMemory, Note, SubId, Tree};
use std::alloc::Global;

/// What the nodes of a tree recorded, in pre-order: of a subscription's tree, or of that of a hub's feed.
///
/// # Errors
/// G1 exactly for the tree of a hub that isn't there or has no feed, G2 exactly where there is no such subscription, and G8 where a
/// growth was refused.
pub fn notes<N: Nodes<Item = T>, T: Drop>(
    alloc: Global,
    hubs: &[Hub<T>],
    feeds: &[Feed<N>],
    subscriptions: &[Subscription<N, T>],
    tree: Tree,
) -> Result<Vec<Note>, Refusal>
    ensures notes { IfOk result (λ v. HasNotes N.Machine (rows_of hubs.now feeds.now subscriptions.now) tree v.items) }
    ensures err { IfErr result (λ r. IsTreeLookRefusal (rows_of hubs.now feeds.now subscriptions.now) (length subscriptions.now) tree r) }
{
    match tree {
        Tree::Feed(hub) => match notes_of_feed(alloc, hubs, feeds, hub) {
            Ok(notes) => Ok(notes),
            Err(why) => Err(why),
        },
        Tree::Sub(sub) => match notes_of_sub(alloc, subscriptions, sub) {
            Ok(notes) => Ok(notes),
            Err(why) => Err(why),
        },
    }
}

/// Those of a hub's feed.
fn notes_of_feed<N: Nodes<Item = T>, T: Drop>(
    alloc: Global,
    hubs: &[Hub<T>],
    feeds: &[Feed<N>],
    hub: HubId,
) -> Result<Vec<Note>, Refusal>
    ensures notes { IfOk result (λ v. (subs : List (SubscriptionOf N T)) → HasFeedNotes N.Machine (rows_of hubs.now feeds.now subs) hub.0 v.items) }
    ensures err { IfErr result (λ r. (subs : List (SubscriptionOf N T)) → IsFeedLookRefusal (rows_of hubs.now feeds.now subs) hub.0 r) }
{
    if hub.0 as usize >= hubs.len() {
        return Err(Refusal::UnknownHub);
    }
    let Some(at) = place_of(feeds, hub.0) else {
        return Err(Refusal::UnknownHub);
    };
    let feed = &feeds[at];
    match feed.part.notes(alloc) {
        Ok(notes) => Ok(notes),
        Err(NoMemory) => Err(Refusal::NoMemory),
    }
}

/// Those of a subscription.
fn notes_of_sub<N: Nodes<Item = T>, T: Drop>(
    alloc: Global,
    subscriptions: &[Subscription<N, T>],
    sub: SubId,
) -> Result<Vec<Note>, Refusal>
    ensures notes { IfOk result (λ v. HasNotesAt N.Machine subscriptions.now sub v.items) }
    ensures err { IfErr result (λ r. IsLookRefusal (length subscriptions.now) sub r) }
{
    let at = sub.0 as usize;
    if at >= subscriptions.len() {
        return Err(Refusal::UnknownSub);
    }
    let subscription = &subscriptions[at];
    match subscription.notes(alloc) {
        Ok(notes) => Ok(notes),
        Err(NoMemory) => Err(Refusal::NoMemory),
    }
}

/// The joins of a tree's leaves that read a hub, from left to right: how many items of its hub each of them misses. Those of all
/// trees are kept beside the subscriptions and beside the feeds, each at the same place.
///
/// # Errors
/// G1 exactly for the tree of a hub that isn't there or has no feed, G2 exactly where there is no such subscription, and G8 where a
/// growth was refused.
pub fn joins<N, T: Drop>(
    alloc: Global,
    hubs: &[Hub<T>],
    feeds: &[Feed<N>],
    sub_joins: &[Vec<u64>],
    feed_joins: &[Vec<u64>],
    tree: Tree,
) -> Result<Vec<u64>, Refusal>
    requires beside { length feed_joins.now ≡ length feeds.now }
    ensures joins { IfOk result (λ v. AreJoins hubs.now feeds.now (map (λ js. js.items) sub_joins.now) (map (λ js. js.items) feed_joins.now) tree v.items) }
    ensures err { IfErr result (λ r. (subs : List (SubscriptionOf N T)) → IsTreeLookRefusal (rows_of hubs.now feeds.now subs) (length sub_joins.now) tree r) }
{
    match tree {
        Tree::Feed(hub) => match joins_of_feed(alloc, hubs, feeds, feed_joins, hub) {
            Ok(joins) => Ok(joins),
            Err(why) => Err(why),
        },
        Tree::Sub(sub) => match joins_of_sub(alloc, sub_joins, sub) {
            Ok(joins) => Ok(joins),
            Err(why) => Err(why),
        },
    }
}

/// Those of a hub's feed.
fn joins_of_feed<N, T: Drop>(
    alloc: Global,
    hubs: &[Hub<T>],
    feeds: &[Feed<N>],
    feed_joins: &[Vec<u64>],
    hub: HubId,
) -> Result<Vec<u64>, Refusal>
    requires beside { length feed_joins.now ≡ length feeds.now }
    ensures known { OnOk result (hub.0 < length hubs.now) }
    ensures joins { IfOk result (λ v. AreFeedJoins feeds.now (map (λ js. js.items) feed_joins.now) hub.0 v.items) }
    ensures err { IfErr result (λ r. (subs : List (SubscriptionOf N T)) → IsFeedLookRefusal (rows_of hubs.now feeds.now subs) hub.0 r) }
{
    if hub.0 as usize >= hubs.len() {
        return Err(Refusal::UnknownHub);
    }
    let Some(at) = place_of(feeds, hub.0) else {
        return Err(Refusal::UnknownHub);
    };
    match copied_at(alloc, feed_joins, at) {
        Ok(joins) => Ok(joins),
        Err(NoMemory) => Err(Refusal::NoMemory),
    }
}

/// Those of a subscription.
fn joins_of_sub(alloc: Global, sub_joins: &[Vec<u64>], sub: SubId) -> Result<Vec<u64>, Refusal>
    ensures joins { IfOk result (λ v. slice_get (map (λ js. js.items) sub_joins.now) sub.0 ≡ Some v.items) }
    ensures err { IfErr result (λ r. IsLookRefusal (length sub_joins.now) sub r) }
{
    let at = sub.0 as usize;
    if at >= sub_joins.len() {
        return Err(Refusal::UnknownSub);
    }
    let kept = &sub_joins[at];
    match copied(alloc, kept) {
        Ok(joins) => Ok(joins),
        Err(NoMemory) => Err(Refusal::NoMemory),
    }
}

/// A copy of the list with this index.
fn copied_at(alloc: Global, lists: &[Vec<u64>], at: usize) -> Result<Vec<u64>, NoMemory>
    requires { at < length lists.now }
    ensures { IfOk result (λ v. slice_get (map (λ js. js.items) lists.now) at ≡ Some v.items) }
{
    let kept = &lists[at];
    match copied(alloc, kept) {
        Ok(numbers) => Ok(numbers),
        Err(NoMemory) => Err(NoMemory),
    }
}

/// A copy of a list of numbers.
fn copied(alloc: Global, numbers: &[u64]) -> Result<Vec<u64>, NoMemory>
    ensures { IfOk result (λ v. v.items ≡ numbers.now) }
{
    let mut all = Vec::with_capacity(alloc, numbers.len())?;
    for number in numbers {
        all.push(*number)?;
    }
    Ok(all)
}
