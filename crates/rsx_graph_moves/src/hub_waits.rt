//! Why nothing comes from a hub.

ghost use Rattle.std.specs.Prelude.{◌≡◌, ◌<◌, ◌^◌, List, None, Some, IfSome, IfNone, length, slice_get, true};
ghost use Rattle.rsx_hub.specs.Hub.{HubState};
ghost use Rattle.rsx_types.specs.Meaning.{Meaning};
ghost use Rattle.rsx_graph_state.specs.Moves.{rows_of};
ghost use Rattle.rsx_graph_state.specs.Publishing.{all_have_room, feeds_have_room, have_room};
ghost use Rattle.rsx_graph_state.specs.Stands as spec;
ghost use Rattle.rsx_graph_moves.specs.Moves.{name_in};
ghost use Rattle.rsx_graph_moves.specs.Hubs.{IsFull, IsFullFeed, IsFullSub, IsHubWait, IsWhy};

use rsx_graph_state::{Feed, can_feed, place_of};
use rsx_hub::Hub;
use rsx_pipe::{NodeMove, Nodes};
use rsx_sources::Front;
use rsx_subscriber::Subscription;
use rsx_subscriber::naming::{inside_node, name_of};
use rsx_types::{HubId, Move, SubId, Tree};
use rsx_waits::HubWait;

/// Why nothing comes from the hub with this number. It takes no memory.
pub(crate) fn hub_wait<N: Nodes<Item = T>, T: Drop>(
    hubs: &[Hub<T>],
    feeds: &[Feed<N>],
    subscriptions: &[Subscription<N, T>],
    hub: HubId,
) -> HubWait
    requires there { hub.0 < length hubs.now }
    requires few { length subscriptions.now < 2 ^ 32 }
    requires few_hubs { length hubs.now < 2 ^ 32 }
    ensures { (m : Meaning T) → IsHubWait N.Machine N.Nodes.own m (rows_of hubs.now feeds.now subscriptions.now) hub result }
{
    let state = &hubs[hub.0 as usize];
    match place_of(feeds, hub.0) {
        Some(at) => feed_wait(state, feeds, subscriptions, hub, at),
        None => emitter_wait(state, feeds, subscriptions, hub),
    }
}

/// The same of a hub that has an emitter.
fn emitter_wait<N: Nodes<Item = T>, T: Drop>(
    state: &Hub<T>,
    feeds: &[Feed<N>],
    subscriptions: &[Subscription<N, T>],
    hub: HubId,
) -> HubWait
    requires few { length subscriptions.now < 2 ^ 32 }
    requires small { hub.0 < 2 ^ 32 }
    requires unfed { spec.place_of feeds.now hub.0 ≡ None }
    ensures { (m : Meaning T) (hubs : List (HubState T)) → slice_get hubs hub.0 ≡ Some state.now →
        IsWhy N.Machine N.Nodes.own m (rows_of hubs feeds.now subscriptions.now) hub state.now result }
{
    match state.front() {
        None => HubWait::Nothing,
        Some(Front::Item) => match first_full(u64::from(hub.0), feeds, subscriptions) {
            Some(tree) => HubWait::HeldBy(tree),
            None => HubWait::Enabled(Move::Accept(hub)),
        },
        Some(Front::Completion) => HubWait::Enabled(Move::Accept(hub)),
        Some(Front::Failure(_)) => HubWait::Enabled(Move::Accept(hub)),
    }
}

/// The same of a hub that has the feed with this index. It is never [`HubWait::Nothing`].
pub(crate) fn feed_wait<N: Nodes<Item = T>, T: Drop>(
    state: &Hub<T>,
    feeds: &[Feed<N>],
    subscriptions: &[Subscription<N, T>],
    hub: HubId,
    at: usize,
) -> HubWait
    requires few { length subscriptions.now < 2 ^ 32 }
    requires within { at < length feeds.now }
    requires place { spec.place_of feeds.now hub.0 ≡ Some at }
    ensures { (m : Meaning T) (hubs : List (HubState T)) → slice_get hubs hub.0 ≡ Some state.now →
        IsWhy N.Machine N.Nodes.own m (rows_of hubs feeds.now subscriptions.now) hub state.now result }
{
    let feed = &feeds[at];
    if let Some(inside) = feed.first_work() {
        return HubWait::Enabled(name_in_feed(feed, hub, inside));
    }
    if can_feed(at, state, feeds, subscriptions) {
        return HubWait::Enabled(name_in_feed(feed, hub, NodeMove::Send(0)));
    }
    match feed.part.next_out() {
        Some(Front::Item) => match first_full(u64::from(hub.0), feeds, subscriptions) {
            Some(tree) => HubWait::HeldBy(tree),
            None => HubWait::Feed,
        },
        Some(Front::Completion) => HubWait::Feed,
        Some(Front::Failure(_)) => HubWait::Feed,
        None => HubWait::Feed,
    }
}

/// The name of a move inside the part of a hub's feed.
fn name_in_feed<N: Nodes<Item = T>, T: Drop>(feed: &Feed<N>, hub: HubId, inside: NodeMove) -> Move
    ensures { result ≡ name_in N.Nodes.own feed.now hub inside }
{
    name_of(
        Tree::Feed(hub),
        inside,
        feed.part.route(inside_node(inside)),
    )
}

/// The first tree with a node that reads the hub with this number and has no room for an item of it, those of feeds first. None
/// where all of them have room.
fn first_full<N: Nodes<Item = T>, T: Drop>(
    hub: u64,
    feeds: &[Feed<N>],
    subscriptions: &[Subscription<N, T>],
) -> Option<Tree>
    requires { length subscriptions.now < 2 ^ 32 }
    ensures some { IfSome result (λ tree. IsFull N.Machine feeds.now subscriptions.now hub tree) }
    ensures none { IfNone result (all_have_room N.Machine hub feeds.now subscriptions.now ≡ true) }
{
    if let Some(fed) = full_feed(hub, feeds) {
        return Some(Tree::Feed(fed));
    }
    match full_subscription(hub, subscriptions) {
        Some(sub) => Some(Tree::Sub(sub)),
        None => None,
    }
}

/// The first feed with such a node, by the number of its own hub.
fn full_feed<N: Nodes<Item = T>, T: Drop>(hub: u64, feeds: &[Feed<N>]) -> Option<HubId>
    ensures some { IfSome result (λ fed. IsFullFeed N.Machine feeds.now hub fed.0) }
    ensures none { IfNone result (feeds_have_room N.Machine hub feeds.now ≡ true) }
{
    for feed in feeds {
        if !feed.has_room_for(hub) {
            return Some(HubId(feed.hub));
        }
    }
    None
}

/// The first subscription with such a node.
fn full_subscription<N: Nodes<Item = T>, T: Drop>(
    hub: u64,
    subscriptions: &[Subscription<N, T>],
) -> Option<SubId>
    requires { length subscriptions.now < 2 ^ 32 }
    ensures some { IfSome result (λ sub. IsFullSub N.Machine subscriptions.now hub sub.0) }
    ensures none { IfNone result (have_room N.Machine hub subscriptions.now ≡ true) }
{
    for (at, subscription) in subscriptions.iter().enumerate() {
        if !subscription.has_room_for(hub) {
            return Some(SubId(at as u32));
        }
    }
    None
}
