//! Moves of feeds.

ghost use Rattle.std.specs.Prelude.{◌≡◌, ◌≢◌, ◌<◌, [], Some, false, length, true, OnOk, OnErr, IfErr};
ghost use Rattle.rsx_sources.specs.Steps.{IsNotMade};
ghost use Rattle.rsx_tree.specs.Refusals.{OnlyNotEnabled};
ghost use Rattle.rsx_graph_state.specs.History.{History};
ghost use Rattle.rsx_graph_state.specs.Moves as moves;
ghost use Rattle.rsx_graph_state.specs.Moves.{IsAloneInFeed, IsFedAt, IsFeedMoved, IsFeedRefusal, IsWorkedAt, allocates_inside, feed_allocates, feed_enabled, has_feed, rows_of, sends, with_feed_moved, works};
ghost use Rattle.rsx_graph_state.specs.Stands as spec;
ghost use Rattle.rsx_graph_state.specs.Stands.{StandsFor};
ghost use Rattle.rsx_graph_state.specs.SubscriptionSet.{NoneReads};

use crate::feeds::place_of;
use crate::{Feed, Refusal, Skipped, send_to_hub};
use rsx_hub::Hub;
use rsx_pipe::{NoRoom, NodeMove, Nodes};
use rsx_sources::NotMade;
use rsx_subscriber::Subscription;
use rsx_types::{HubId, Ops, Signal};
use std::alloc::Global;

/// Makes a move of the feed of the hub with this number: one inside the feed, or the Send over its root edge, by which the feed's
/// next signal goes straight into the hub, and each node that reads the hub gets it.
///
/// # Errors
/// [`Refusal::UnknownHub`] for a hub that isn't there or has no feed, else [`Refusal::NotEnabled`] exactly where the move isn't
/// enabled, and [`Refusal::NoMemory`] where a growth was refused, of a move that may allocate; nothing changed.
pub fn make_in_feed<N: Nodes<Item = O::Item>, O: Ops>(
    alloc: Global,
    ops: &O,
    hubs: &mut Vec<Hub<O::Item>>,
    feeds: &mut Vec<Feed<N>>,
    subscriptions: &mut Vec<Subscription<N, O::Item>>,
    hub: HubId,
    step: NodeMove,
) -> Result<(), Refusal>
    ensures hubs { length hubs.new.items ≡ length hubs.old.items }
    ensures feeds { length feeds.new.items ≡ length feeds.old.items }
    ensures subscriptions { length subscriptions.new.items ≡ length subscriptions.old.items }
    ensures stands { OnOk result ((h : History O.Item) →
        StandsFor N.Machine (O.meaning ops.now) (rows_of hubs.old.items feeds.old.items subscriptions.old.items) h →
        StandsFor N.Machine (O.meaning ops.now) (rows_of hubs.new.items feeds.new.items subscriptions.new.items)
        (with_feed_moved N.Machine (O.meaning ops.now) (rows_of hubs.old.items feeds.old.items subscriptions.old.items) step hub.0 h)) }
    ensures effect { OnOk result (IsFeedMoved N.Machine (O.meaning ops.now) step hub.0 (rows_of hubs.old.items feeds.old.items subscriptions.old.items) (rows_of hubs.new.items feeds.new.items subscriptions.new.items)) }
    ensures alone { OnOk result (IsAloneInFeed N.Machine (O.meaning ops.now) step hub.0 feeds.old.items feeds.new.items) }
    ensures enabled { OnOk result (feed_enabled N.Machine (O.meaning ops.now) (rows_of hubs.old.items feeds.old.items subscriptions.old.items) hub.0 step ≡ true) }
    ensures err { IfErr result (IsFeedRefusal (has_feed (rows_of hubs.old.items feeds.old.items subscriptions.old.items) hub.0)
        (feed_enabled N.Machine (O.meaning ops.now) (rows_of hubs.old.items feeds.old.items subscriptions.old.items) hub.0 step)) }

    // An enabled move that takes no memory is made.
    ensures memory { feed_allocates N.Machine (O.allocates ops.now) feeds.old.items hub.0 step ≡ false → IfErr result (λ r. r ≢ Refusal.NoMemory) }
    ensures same { OnErr result ((hubs.new.items ≡ hubs.old.items) × (feeds.new.items ≡ feeds.old.items) × (subscriptions.new.items ≡ subscriptions.old.items)) }
{
    if hub.0 as usize >= hubs.len() {
        return Err(Refusal::UnknownHub);
    }
    let Some(at) = place_of(feeds, hub.0) else {
        return Err(Refusal::UnknownHub);
    };
    match is_out(step) {
        true => match send_once(alloc, ops, hubs, feeds, subscriptions, hub, at) {
            Ok(()) => Ok(()),
            Err(NotMade::NotEnabled) => Err(Refusal::NotEnabled),
            Err(NotMade::NoMemory) => Err(Refusal::NoMemory),
        },
        false => match work_in_feed(alloc, ops, feeds, hub, at, step) {
            Ok(()) => Ok(()),
            Err(NotMade::NotEnabled) => Err(Refusal::NotEnabled),
            Err(NotMade::NoMemory) => Err(Refusal::NoMemory),
        },
    }
}

/// Whether a move is the Send over the root edge.
fn is_out(step: NodeMove) -> bool
    ensures { result ≡ moves.is_out step }
{
    match step {
        NodeMove::Send(node) => node == 0,
        NodeMove::Ask(_) => false,
        NodeMove::Pick(_, _) => false,
        NodeMove::Row(_) => false,
    }
}

/// Sends the next signal of the feed with this index into its hub, and each node that reads the hub gets it. It looks at no subscription
/// that is skipped. The list, in which the signal stands once for each node that gets it in between, is empty before and after; used
/// again, it takes no memory.
///
/// # Errors
/// [`NotMade::NotEnabled`] exactly where that Send isn't enabled, and [`NotMade::NoMemory`] where a growth was refused; nothing changed.
pub fn send_from_feed<N: Nodes<Item = O::Item>, O: Ops>(
    alloc: Global,
    ops: &O,
    hubs: &mut Vec<Hub<O::Item>>,
    feeds: &mut Vec<Feed<N>>,
    subscriptions: &mut Vec<Subscription<N, O::Item>>,
    hub: HubId,
    at: usize,
    skipped: &Skipped,
    signals: &mut Vec<Signal<O::Item>>,
) -> Result<(), NotMade>
    requires there { hub.0 < length hubs.old.items }
    requires within { at < length feeds.old.items }
    requires place { spec.place_of feeds.old.items hub.0 ≡ Some at }
    requires unread { NoneReads N.Machine hub.0 skipped.now subscriptions.old.items }
    requires empty { signals.old.items ≡ [] }
    ensures hubs { length hubs.new.items ≡ length hubs.old.items }
    ensures feeds { length feeds.new.items ≡ length feeds.old.items }
    ensures subscriptions { length subscriptions.new.items ≡ length subscriptions.old.items }
    ensures effect { OnOk result (IsFedAt N.Machine (O.meaning ops.now) hub.0 (rows_of hubs.old.items feeds.old.items subscriptions.old.items) (rows_of hubs.new.items feeds.new.items subscriptions.new.items)) }
    ensures enabled { OnOk result (sends N.Machine (O.meaning ops.now) (rows_of hubs.old.items feeds.old.items subscriptions.old.items) hub.0 ≡ true) }
    ensures err { IfErr result (IsNotMade (sends N.Machine (O.meaning ops.now) (rows_of hubs.old.items feeds.old.items subscriptions.old.items) hub.0)) }
    ensures same { OnErr result ((hubs.new.items ≡ hubs.old.items) × (feeds.new.items ≡ feeds.old.items) × (subscriptions.new.items ≡ subscriptions.old.items)) }
    ensures empty { signals.new.items ≡ [] }
{
    match send_to_hub(
        alloc,
        ops,
        at,
        &mut hubs[hub.0 as usize],
        feeds,
        subscriptions,
        skipped,
        signals,
    ) {
        Ok(()) => Ok(()),
        Err(why) => Err(why),
    }
}

/// The same, where nothing is skipped, with a list of its own.
fn send_once<N: Nodes<Item = O::Item>, O: Ops>(
    alloc: Global,
    ops: &O,
    hubs: &mut Vec<Hub<O::Item>>,
    feeds: &mut Vec<Feed<N>>,
    subscriptions: &mut Vec<Subscription<N, O::Item>>,
    hub: HubId,
    at: usize,
) -> Result<(), NotMade>
    requires there { hub.0 < length hubs.old.items }
    requires within { at < length feeds.old.items }
    requires place { spec.place_of feeds.old.items hub.0 ≡ Some at }
    ensures hubs { length hubs.new.items ≡ length hubs.old.items }
    ensures feeds { length feeds.new.items ≡ length feeds.old.items }
    ensures subscriptions { length subscriptions.new.items ≡ length subscriptions.old.items }
    ensures effect { OnOk result (IsFedAt N.Machine (O.meaning ops.now) hub.0 (rows_of hubs.old.items feeds.old.items subscriptions.old.items) (rows_of hubs.new.items feeds.new.items subscriptions.new.items)) }
    ensures enabled { OnOk result (sends N.Machine (O.meaning ops.now) (rows_of hubs.old.items feeds.old.items subscriptions.old.items) hub.0 ≡ true) }
    ensures err { IfErr result (IsNotMade (sends N.Machine (O.meaning ops.now) (rows_of hubs.old.items feeds.old.items subscriptions.old.items) hub.0)) }
    ensures same { OnErr result ((hubs.new.items ≡ hubs.old.items) × (feeds.new.items ≡ feeds.old.items) × (subscriptions.new.items ≡ subscriptions.old.items)) }
{
    let mut signals = Vec::new(alloc);
    send_from_feed(
        alloc,
        ops,
        hubs,
        feeds,
        subscriptions,
        hub,
        at,
        &Skipped::none(),
        &mut signals,
    )
}

/// Makes a move inside the feed with this index.
///
/// # Errors
/// [`NotMade::NotEnabled`] exactly where the move isn't enabled, and [`NotMade::NoMemory`] where a growth was refused, of a move that may
/// allocate; nothing changed.
pub fn work_in_feed<N: Nodes<Item = O::Item>, O: Ops>(
    alloc: Global,
    ops: &O,
    feeds: &mut Vec<Feed<N>>,
    hub: HubId,
    at: usize,
    step: NodeMove,
) -> Result<(), NotMade>
    requires within { at < length feeds.old.items }
    requires place { spec.place_of feeds.old.items hub.0 ≡ Some at }
    ensures count { length feeds.new.items ≡ length feeds.old.items }
    ensures effect { OnOk result (IsWorkedAt N.Machine (O.meaning ops.now) step hub.0 feeds.old.items feeds.new.items) }
    ensures alone { OnOk result (IsAloneInFeed N.Machine (O.meaning ops.now) step hub.0 feeds.old.items feeds.new.items) }
    ensures enabled { OnOk result (works N.Machine (O.meaning ops.now) feeds.old.items hub.0 step ≡ true) }
    ensures err { IfErr result (IsNotMade (works N.Machine (O.meaning ops.now) feeds.old.items hub.0 step)) }
    ensures memory { allocates_inside N.Machine (O.allocates ops.now) (spec.feed_of feeds.old.items hub.0) step ≡ false → OnlyNotEnabled result }
    ensures same { OnErr result (feeds.new.items ≡ feeds.old.items) }
{
    let feed = &mut feeds[at];
    match feed.part.make(alloc, ops, step, &mut NoRoom) {
        Ok(()) => Ok(()),
        Err(why) => Err(why),
    }
}
