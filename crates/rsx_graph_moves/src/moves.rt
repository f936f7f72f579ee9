//! One move of a subscription, of a hub or of a hub's feed.

ghost use Rattle.std.specs.Prelude.{◌≡◌, ◌≢◌, List, length, true, false, OnOk, OnErr, IfOk, IfErr};
ghost use Rattle.rsx_graph_state.specs.History.{History, with_delivery, with_made, with_sent};
ghost use Rattle.rsx_graph_state.specs.Moves.{IsFeedRefusal, has_feed, rows_of};
ghost use Rattle.rsx_graph_state.specs.Stands.{StandsFor};
ghost use Rattle.rsx_graph_state.specs.Answers.{IsSubMoveRefusal};
ghost use Rattle.rsx_graph_state.specs.Subscriptions.{IsAloneAt, IsMadeAt, allocates_at, enabled_at};
ghost use Rattle.rsx_hub.specs.Hub.{HubState};
ghost use Rattle.rsx_graph_state.specs.declared.feed.Feed.{Feed as FeedOf};
ghost use Rattle.rsx_subscriber.specs.declared.subscription.Subscription.{Subscription as SubscriptionOf};
ghost use Rattle.rsx_subscriber.specs.Stands.{IsMadeAnswer};
ghost use Rattle.rsx_graph_moves.specs.Moves.{IsAloneByFeed, IsMadeAlone, IsMakeRefusal, IsMoved, IsMovedInFeed, feed_move, feed_move_allocates, feed_move_enabled, is_enabled, may_allocate, sent, sent_by_feed};

use crate::{make_in_tree, take};
use rsx_graph_state::{Feed, Refusal, accept, make_in_feed, place_of};
use rsx_hub::Hub;
use rsx_pipe::{NodeMove, Nodes};
use rsx_subscriber::Subscription;
use rsx_subscriber::naming::{node_move, node_of};
use rsx_types::{HubId, Move, NodeId, Ops, Signal, SubId, Tree};
use std::alloc::Global;

/// Makes one move. The Take from the root edge of a subscription answers the signal that it delivered. An Accept takes the signal
/// in that waits in front of the inbox of a hub with an emitter; the Send over the root edge of a feed, or where that edge crosses
/// the Take from its queue, takes a signal straight into its hub. Either way each node that reads the hub gets it.
///
/// # Errors
/// G1 for a hub that isn't there and for the tree of a hub that has no feed, G2 for a subscription that isn't there, else G7
/// exactly where the move isn't enabled, and G8 where a growth was refused, of a move that may allocate; nothing changed.
pub fn make<N: Nodes<Item = O::Item>, O: Ops>(
    alloc: Global,
    ops: &O,
    hubs: &mut Vec<Hub<O::Item>>,
    feeds: &mut Vec<Feed<N>>,
    subscriptions: &mut Vec<Subscription<N, O::Item>>,
    step: Move,
) -> Result<Option<(SubId, Signal<O::Item>)>, Refusal>
    ensures hubs { length hubs.new.items ≡ length hubs.old.items }
    ensures feeds { length feeds.new.items ≡ length feeds.old.items }
    ensures subscriptions { length subscriptions.new.items ≡ length subscriptions.old.items }
    ensures stands { IfOk result (λ o. (h : History O.Item) →
        StandsFor N.Machine (O.meaning ops.now) (rows_of hubs.old.items feeds.old.items subscriptions.old.items) h →
        StandsFor N.Machine (O.meaning ops.now) (rows_of hubs.new.items feeds.new.items subscriptions.new.items)
        (with_made step o (sent N.Machine N.Nodes.own (O.meaning ops.now) (rows_of hubs.old.items feeds.old.items subscriptions.old.items) step) h)) }
    ensures answer { IfOk result (λ o. IsMadeAnswer step o) }
    ensures enabled { OnOk result (is_enabled N.Machine N.Nodes.own (O.meaning ops.now) (rows_of hubs.old.items feeds.old.items subscriptions.old.items) step ≡ true) }
    ensures effect { IfOk result (λ o. IsMoved N.Machine N.Nodes.own (O.meaning ops.now) step (rows_of hubs.old.items feeds.old.items subscriptions.old.items) (rows_of hubs.new.items feeds.new.items subscriptions.new.items) o) }
    ensures alone { OnOk result (IsMadeAlone N.Machine N.Nodes.own (O.meaning ops.now) step (rows_of hubs.old.items feeds.old.items subscriptions.old.items) (rows_of hubs.new.items feeds.new.items subscriptions.new.items)) }
    ensures err { IfErr result (λ r. IsMakeRefusal (rows_of hubs.old.items feeds.old.items subscriptions.old.items)
        (is_enabled N.Machine N.Nodes.own (O.meaning ops.now) (rows_of hubs.old.items feeds.old.items subscriptions.old.items) step) step r) }

    // An enabled move that takes no memory is made.
    ensures memory { IfErr result (λ r. may_allocate N.Machine N.Nodes.own (O.allocates ops.now) (rows_of hubs.old.items feeds.old.items subscriptions.old.items) step ≡ false → r ≢ Refusal.NoMemory) }
    ensures same { OnErr result ((hubs.new.items ≡ hubs.old.items) × (feeds.new.items ≡ feeds.old.items) × (subscriptions.new.items ≡ subscriptions.old.items)) }
{
    match step {
        Move::Ask(Tree::Sub(sub), _)
        | Move::Send(Tree::Sub(sub), _)
        | Move::Pick(Tree::Sub(sub), _, _)
        | Move::Row(Tree::Sub(sub), _) => match make_in_tree(alloc, ops, subscriptions, sub, step) {
            Ok(()) => Ok(None),
            Err(why) => Err(why),
        },
        Move::Take(Tree::Sub(sub), node) => {
            match take_in_tree(alloc, ops, subscriptions, sub, node) {
                Ok(taken) => Ok(taken),
                Err(why) => Err(why),
            }
        }
        Move::Accept(hub) => match accept(alloc, ops, hubs, feeds, subscriptions, hub) {
            Ok(()) => Ok(None),
            Err(why) => Err(why),
        },
        Move::Ask(Tree::Feed(hub), _)
        | Move::Send(Tree::Feed(hub), _)
        | Move::Take(Tree::Feed(hub), _)
        | Move::Pick(Tree::Feed(hub), _, _)
        | Move::Row(Tree::Feed(hub), _) => {
            match make_of_feed(alloc, ops, hubs, feeds, subscriptions, hub, step) {
                Ok(()) => Ok(None),
                Err(why) => Err(why),
            }
        }
    }
}

/// The move inside its part that a move of the feed of a hub names, if there is one.
fn move_in_feed<N: Nodes<Item = T>, T: Drop>(
    feeds: &Vec<Feed<N>>,
    hub: HubId,
    step: Move,
) -> Option<NodeMove>
    ensures { result ≡ feed_move N.Nodes.own feeds.now.items hub.0 step }
{
    match place_of(feeds, hub.0) {
        Some(at) => {
            let route = feeds[at].part.route(node_of(step));
            node_move(step, route)
        }
        None => None,
    }
}

/// Makes a Take in the tree of a subscription: that of the root hands the front signal of its queue to the subscriber, and any
/// other one hands that of an edge's queue to the edge's receiver.
fn take_in_tree<N: Nodes<Item = O::Item>, O: Ops>(
    alloc: Global,
    ops: &O,
    subscriptions: &mut Vec<Subscription<N, O::Item>>,
    sub: SubId,
    node: NodeId,
) -> Result<Option<(SubId, Signal<O::Item>)>, Refusal>
    ensures count { length subscriptions.new.items ≡ length subscriptions.old.items }
    ensures stands { IfOk result (λ o. (hubs : List (HubState O.Item)) (feeds : List (FeedOf N)) (h : History O.Item) →
        StandsFor N.Machine (O.meaning ops.now) (rows_of hubs feeds subscriptions.old.items) h → StandsFor N.Machine (O.meaning ops.now) (rows_of hubs feeds subscriptions.new.items) (with_delivery o h)) }
    ensures answer { IfOk result (λ o. IsMadeAnswer (Move.Take (Tree.Sub sub) node) o) }
    ensures enabled { OnOk result (enabled_at N.Machine N.Nodes.own (O.meaning ops.now) subscriptions.old.items sub.0 (Move.Take (Tree.Sub sub) node) ≡ true) }
    ensures effect { IfOk result (λ o. IsMadeAt N.Machine N.Nodes.own (O.meaning ops.now) (Move.Take (Tree.Sub sub) node) sub.0 subscriptions.old.items subscriptions.new.items o) }
    ensures alone { OnOk result (IsAloneAt N.Machine N.Nodes.own (O.meaning ops.now) (Move.Take (Tree.Sub sub) node) sub.0 subscriptions.old.items subscriptions.new.items) }
    ensures err { IfErr result (λ r. IsSubMoveRefusal (length subscriptions.old.items)
        (enabled_at N.Machine N.Nodes.own (O.meaning ops.now) subscriptions.old.items sub.0 (Move.Take (Tree.Sub sub) node)) sub r) }
    ensures memory { allocates_at N.Machine N.Nodes.own (O.allocates ops.now) subscriptions.old.items sub.0 (Move.Take (Tree.Sub sub) node) ≡ false → IfErr result (λ r. r ≢ Refusal.NoMemory) }
    ensures same { OnErr result (subscriptions.new.items ≡ subscriptions.old.items) }
{
    if node.0 > 0 {
        let step = Move::Take(Tree::Sub(sub), node);
        return match make_in_tree(alloc, ops, subscriptions, sub, step) {
            Ok(()) => Ok(None),
            Err(why) => Err(why),
        };
    }
    match take(subscriptions, sub) {
        Ok(signal) => Ok(Some((sub, signal))),
        Err(why) => Err(why),
    }
}

/// Makes a move of the feed of a hub.
fn make_of_feed<N: Nodes<Item = O::Item>, O: Ops>(
    alloc: Global,
    ops: &O,
    hubs: &mut Vec<Hub<O::Item>>,
    feeds: &mut Vec<Feed<N>>,
    subscriptions: &mut Vec<Subscription<N, O::Item>>,
    hub: HubId,
    step: Move,
) -> Result<(), Refusal>
    ensures hubs { length hubs.new.items ≡ length hubs.old.items }
    ensures feeds { length feeds.new.items ≡ length feeds.old.items }
    ensures subscriptions { length subscriptions.new.items ≡ length subscriptions.old.items }
    ensures stands { OnOk result ((h : History O.Item) →
        StandsFor N.Machine (O.meaning ops.now) (rows_of hubs.old.items feeds.old.items subscriptions.old.items) h →
        StandsFor N.Machine (O.meaning ops.now) (rows_of hubs.new.items feeds.new.items subscriptions.new.items)
        (with_sent (sent_by_feed N.Machine (O.meaning ops.now) (rows_of hubs.old.items feeds.old.items subscriptions.old.items) hub.0 (feed_move N.Nodes.own feeds.old.items hub.0 step)) hub.0 h)) }
    ensures enabled { OnOk result (feed_move_enabled N.Machine (O.meaning ops.now) (rows_of hubs.old.items feeds.old.items subscriptions.old.items) hub.0 (feed_move N.Nodes.own feeds.old.items hub.0 step) ≡ true) }
    ensures effect { OnOk result (IsMovedInFeed N.Machine (O.meaning ops.now) (feed_move N.Nodes.own feeds.old.items hub.0 step) hub.0 (rows_of hubs.old.items feeds.old.items subscriptions.old.items) (rows_of hubs.new.items feeds.new.items subscriptions.new.items)) }
    ensures alone { OnOk result (IsAloneByFeed N.Machine (O.meaning ops.now) (feed_move N.Nodes.own feeds.old.items hub.0 step) hub.0 feeds.old.items feeds.new.items) }
    ensures err { IfErr result (IsFeedRefusal (has_feed (rows_of hubs.old.items feeds.old.items subscriptions.old.items) hub.0)
        (feed_move_enabled N.Machine (O.meaning ops.now) (rows_of hubs.old.items feeds.old.items subscriptions.old.items) hub.0 (feed_move N.Nodes.own feeds.old.items hub.0 step))) }
    ensures memory { feed_move_allocates N.Machine (O.allocates ops.now) feeds.old.items hub.0 (feed_move N.Nodes.own feeds.old.items hub.0 step) ≡ false → IfErr result (λ r. r ≢ Refusal.NoMemory) }
    ensures same { OnErr result ((hubs.new.items ≡ hubs.old.items) × (feeds.new.items ≡ feeds.old.items) × (subscriptions.new.items ≡ subscriptions.old.items)) }
{
    match move_in_feed(feeds, hub, step) {
        Some(inside) => match make_in_feed(alloc, ops, hubs, feeds, subscriptions, hub, inside) {
            Ok(()) => Ok(()),
            Err(why) => Err(why),
        },
        None => match is_fed(hubs, feeds, hub) {
            true => Err(Refusal::NotEnabled),
            false => Err(Refusal::UnknownHub),
        },
    }
}

/// Whether the hub with this number is there and has a feed.
fn is_fed<N: Nodes<Item = T>, T: Drop>(hubs: &Vec<Hub<T>>, feeds: &Vec<Feed<N>>, hub: HubId) -> bool
    ensures { (subscriptions : List (SubscriptionOf N T)) → result ≡ has_feed (rows_of hubs.now.items feeds.now.items subscriptions) hub.0 }
{
    if hub.0 as usize >= hubs.len() {
        return false;
    }
    match place_of(feeds, hub.0) {
        Some(_) => true,
        None => false,
    }
}
