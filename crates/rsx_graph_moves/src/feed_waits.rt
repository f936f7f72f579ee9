//! What the feed of a hub waits for.

ghost use Rattle.std.specs.Prelude.{◌≡◌, ◌<◌, ◌^◌, Some, IfOk, IfErr, false, length, slice_get};
ghost use Rattle.rsx_hub.specs.Hub.{HubState};
ghost use Rattle.rsx_types.specs.Meaning.{Meaning};
ghost use Rattle.rsx_graph_state.specs.declared.feed.Feed.{Feed as FeedOf};
ghost use Rattle.rsx_graph_state.specs.History.{History};
ghost use Rattle.rsx_graph_state.specs.Moves.{has_feed, rows_of};
ghost use Rattle.rsx_graph_state.specs.Stands as spec;
ghost use Rattle.rsx_graph_state.specs.Stands.{StandsFor, feed_of};
ghost use Rattle.rsx_graph_moves.specs.Pumped.{IsAllQuiet};
ghost use Rattle.rsx_graph_moves.specs.FeedWaits.{IsFeedWait, IsFeedBounded, is_feed_for_pump};
ghost use Rattle.rsx_graph_moves.specs.Hubs.{IsFeedSilent};

use crate::hub_waits::{feed_wait, hub_wait};
use crate::leaf::waiting_leaf;
use rsx_graph_state::{Feed, Refusal, place_of};
use rsx_hub::Hub;
use rsx_pipe::Nodes;
use rsx_subscriber::Subscription;
use rsx_tree::EdgeState;
use rsx_types::{HubId, NodeId};
use rsx_waits::{FeedWait, HubWait};

/// What the feed of the hub with this number waits for first. It takes no memory.
///
/// - [`FeedWait::Enabled`] where a move of the feed is enabled, so in an idle graph never;
/// - else [`FeedWait::HeldBy`] where it has an item for its hub, and a node that reads the hub has no room for it;
/// - else [`FeedWait::Ended`] where its ending went into the hub;
/// - else [`FeedWait::Hub`], the first node of its tree in pre-order that waits for the hub that it reads, with why nothing comes
///   from there. That hub has a lower number.
///
/// # Errors
/// G1 exactly for a hub that isn't there or has no feed.
pub fn explain_feed<N: Nodes<Item = T>, T: Drop>(
    hubs: &[Hub<T>],
    feeds: &[Feed<N>],
    subscriptions: &[Subscription<N, T>],
    hub: HubId,
) -> Result<FeedWait, Refusal>
    requires few { length subscriptions.now < 2 ^ 32 }
    requires few_hubs { length hubs.now < 2 ^ 32 }
    ensures waits { (m : Meaning T) → IfOk result (λ wait. IsFeedWait N.Machine N.Nodes.own m (rows_of hubs.now feeds.now subscriptions.now) hub wait) }

    // Where no move of the graph is enabled, it isn't a pump that is waited for.
    ensures idle { (m : Meaning T) → IsAllQuiet N.Machine N.Nodes.own m (rows_of hubs.now feeds.now subscriptions.now) → IfOk result (λ wait. is_feed_for_pump wait ≡ false) }

    // Where the rows stand for a history, no edge of the feed has carried 2^63-1 items, and it has no more nodes than an expression
    // may have, it is known for what is waited.
    ensures known { (m : Meaning T) (h : History T) (f : FeedOf N) → StandsFor N.Machine m (rows_of hubs.now feeds.now subscriptions.now) h →
        feed_of feeds.now hub.0 ≡ Some f → IsFeedBounded f → IfOk result (λ wait. wait ≡ FeedWait.Unknown → ⊥) }
    ensures err { IfErr result (λ r. (r ≡ Refusal.UnknownHub) × (has_feed (rows_of hubs.now feeds.now subscriptions.now) hub.0 ≡ false)) }
{
    if hub.0 as usize >= hubs.len() {
        return Err(Refusal::UnknownHub);
    }
    match place_of(feeds, hub.0) {
        Some(at) => Ok(wait_at(hubs, feeds, subscriptions, hub, at)),
        None => Err(Refusal::UnknownHub),
    }
}

/// The same of a hub that is there and has the feed with this index.
fn wait_at<N: Nodes<Item = T>, T: Drop>(
    hubs: &[Hub<T>],
    feeds: &[Feed<N>],
    subscriptions: &[Subscription<N, T>],
    hub: HubId,
    at: usize,
) -> FeedWait
    requires few { length subscriptions.now < 2 ^ 32 }
    requires few_hubs { length hubs.now < 2 ^ 32 }
    requires there { hub.0 < length hubs.now }
    requires within { at < length feeds.now }
    requires place { spec.place_of feeds.now hub.0 ≡ Some at }
    ensures { (m : Meaning T) → IsFeedWait N.Machine N.Nodes.own m (rows_of hubs.now feeds.now subscriptions.now) hub result }
{
    let state = &hubs[hub.0 as usize];
    match feed_wait(state, feeds, subscriptions, hub, at) {
        HubWait::Enabled(step) => FeedWait::Enabled(step),
        HubWait::HeldBy(tree) => FeedWait::HeldBy(tree),
        HubWait::Feed => silent_wait(hubs, feeds, subscriptions, hub, at),
        // Of a hub that has a feed that is never so.
        HubWait::Nothing => FeedWait::Unknown,
    }
}

/// The same of a feed that has nothing for its hub, and none of whose moves is enabled.
fn silent_wait<N: Nodes<Item = T>, T: Drop>(
    hubs: &[Hub<T>],
    feeds: &[Feed<N>],
    subscriptions: &[Subscription<N, T>],
    hub: HubId,
    at: usize,
) -> FeedWait
    requires few { length subscriptions.now < 2 ^ 32 }
    requires few_hubs { length hubs.now < 2 ^ 32 }
    requires there { hub.0 < length hubs.now }
    requires within { at < length feeds.now }
    requires place { spec.place_of feeds.now hub.0 ≡ Some at }
    requires silent { (m : Meaning T) (state : HubState T) → slice_get hubs.now hub.0 ≡ Some state →
        IsFeedSilent N.Machine m (rows_of hubs.now feeds.now subscriptions.now) hub.0 state }
    ensures { (m : Meaning T) → IsFeedWait N.Machine N.Nodes.own m (rows_of hubs.now feeds.now subscriptions.now) hub result }
{
    match feeds[at].part.rooted().root.state {
        EdgeState::Live => lacking_wait(hubs, feeds, subscriptions, hub, at),
        EdgeState::Ended => FeedWait::Ended,
        // The root edge of a feed is never closed.
        EdgeState::Closed => FeedWait::Unknown,
    }
}

/// The same of such a feed whose root edge is live.
fn lacking_wait<N: Nodes<Item = T>, T: Drop>(
    hubs: &[Hub<T>],
    feeds: &[Feed<N>],
    subscriptions: &[Subscription<N, T>],
    hub: HubId,
    at: usize,
) -> FeedWait
    requires few { length subscriptions.now < 2 ^ 32 }
    requires few_hubs { length hubs.now < 2 ^ 32 }
    requires there { hub.0 < length hubs.now }
    requires within { at < length feeds.now }
    requires place { spec.place_of feeds.now hub.0 ≡ Some at }
    requires silent { (m : Meaning T) (state : HubState T) → slice_get hubs.now hub.0 ≡ Some state →
        IsFeedSilent N.Machine m (rows_of hubs.now feeds.now subscriptions.now) hub.0 state }
    requires live { (f : FeedOf N) → slice_get feeds.now at ≡ Some f → f.part.root.state ≡ EdgeState.Live }
    ensures { (m : Meaning T) → IsFeedWait N.Machine N.Nodes.own m (rows_of hubs.now feeds.now subscriptions.now) hub result }
{
    let rooted = feeds[at].part.rooted();
    let Some(leaf) = waiting_leaf(&rooted.root, &rooted.tree) else {
        return FeedWait::Unknown;
    };
    if leaf.hub >= hubs.len() as u64 {
        return FeedWait::Unknown;
    }
    let source = HubId(leaf.hub as u32);
    let why = hub_wait(hubs, feeds, subscriptions, source);
    FeedWait::Hub(NodeId(leaf.node), source, why)
}
