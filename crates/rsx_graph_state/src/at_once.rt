//! Taking all that waits in the inbox of a hub in at once, and handing it to all nodes that read the hub.

ghost use Rattle.std.specs.Prelude.{◌≡◌, ◌<◌, ◌≤◌, ℕ, [], false, Some, None, IfSome, List, OnOk, OnErr, length, reverse};
ghost use Rattle.rsx_hub.specs.Hub.{all_accepted, replayed};
ghost use Rattle.rsx_rooted.specs.Taking.{AreTakenOff, blocks};
ghost use Rattle.rsx_tree.specs.Runs.{Leads, LeadsBy};
ghost use Rattle.rsx_graph_state.specs.AtOnce as spec;
ghost use Rattle.rsx_graph_state.specs.AtOnce.{AreAccepted, IsAccept, IsItemHandedToAll, IsItemHandedToFeeds};
ghost use Rattle.rsx_graph_state.specs.Moves.{rows_of};
ghost use Rattle.rsx_graph_state.specs.Publishing as counts;
ghost use Rattle.rsx_graph_state.specs.Stands as stands;
ghost use Rattle.rsx_graph_state.specs.SubscriptionSet.{NoneReads};

use crate::publishing::{all_with_room, feed_readers_up_to, with_room};
use crate::{Feed, Skipped};
use rsx_hub::Hub;
use rsx_pipe::Nodes;
use rsx_rooted::Batches;
use rsx_subscriber::Subscription;
use rsx_types::{HubId, NoMemory, Ops};
use std::alloc::Global;

/// The fewest items that are taken in at once.
const FEWEST_AT_ONCE: u64 = 2;

/// A hub that is there and has no feed takes in all items that wait in its inbox, and each node of a feed or a subscription that reads
/// the hub gets them. That is what so many calls of [`accept_unfed`](crate::accept_unfed) do. It answers how many items those are: 0
/// where it doesn't do so at once, and then nothing has changed. When it does is no promise: where no more than `most` wait, each of
/// these nodes has room for all of them, and the hub keeps no items for new members, but for want of memory.
///
/// It looks at no subscription that is skipped. The list is empty before and after; used again, it takes no memory.
pub fn accept_all<N: Nodes<Item = O::Item> + Batches, O: Ops>(
    alloc: Global,
    ops: &O,
    hubs: &mut Vec<Hub<O::Item>>,
    feeds: &mut Vec<Feed<N>>,
    subscriptions: &mut Vec<Subscription<N, O::Item>>,
    hub: HubId,
    skipped: &Skipped,
    items: &mut Vec<O::Item>,
    most: u32,
) -> u32
    requires there { hub.0 < length hubs.old.items }
    requires unfed { stands.feed_of feeds.old.items hub.0 ≡ None }
    requires unread { NoneReads N.Machine hub.0 skipped.now subscriptions.old.items }
    requires empty { items.old.items ≡ [] }
    ensures hubs { length hubs.new.items ≡ length hubs.old.items }
    ensures feeds { length feeds.new.items ≡ length feeds.old.items }
    ensures subscriptions { length subscriptions.new.items ≡ length subscriptions.old.items }
    ensures made { LeadsBy (IsAccept N.Machine hub.0) result (rows_of hubs.old.items feeds.old.items subscriptions.old.items) (rows_of hubs.new.items feeds.new.items subscriptions.new.items) }
    ensures most { result ≤ most }
    ensures empty { items.new.items ≡ [] }
{
    take_in_all(
        alloc,
        ops,
        &mut hubs[hub.0 as usize],
        hub.0,
        feeds,
        subscriptions,
        skipped,
        items,
        most,
    )
}

/// The same of this hub.
fn take_in_all<N: Nodes<Item = O::Item> + Batches, O: Ops>(
    alloc: Global,
    ops: &O,
    hub: &mut Hub<O::Item>,
    number: u32,
    feeds: &mut [Feed<N>],
    subscriptions: &mut [Subscription<N, O::Item>],
    skipped: &Skipped,
    items: &mut Vec<O::Item>,
    most: u32,
) -> u32
    requires unread { NoneReads N.Machine number skipped.now subscriptions.old }
    requires empty { items.old.items ≡ [] }
    ensures made { AreAccepted N.Machine number result hub.old hub.new feeds.old feeds.new subscriptions.old subscriptions.new }
    ensures most { result ≤ most }
    ensures empty { items.new.items ≡ [] }
{
    let count = hub.len();
    if count < FEWEST_AT_ONCE || count > u64::from(most) || !hub.keeps_none() {
        return 0;
    }
    let number = u64::from(number);
    let Some(readers) = all_ready(number, feeds, subscriptions, skipped, count) else {
        return 0;
    };
    if lay_out(alloc, ops, hub, readers, items).is_err() {
        items.clear();
        return 0;
    }
    hand_all_feeds(number, feeds, items, count);
    hand_all(number, subscriptions, skipped, items, count);
    count as u32
}

/// How many nodes of these feeds and subscriptions read the hub, where there are some, and each of them has room for so many items at
/// once.
fn all_ready<N: Nodes<Item = T> + Batches, T: Drop>(
    number: u64,
    feeds: &[Feed<N>],
    subscriptions: &[Subscription<N, T>],
    skipped: &Skipped,
    count: u64,
) -> Option<u32>
    requires unread { NoneReads N.Machine number skipped.now subscriptions.now }
    ensures some { IfSome result (λ n. (n ≡ counts.all_readers N.Machine number feeds.now subscriptions.now) × (0 < n)) }
    ensures feeds { IfSome result (λ n. count ≤ spec.spaces_of_feeds N.Machine N.spaces_of number count feeds.now) }
    ensures room { IfSome result (λ n. count ≤ spec.spaces_of_all N.Machine N.spaces_of number count subscriptions.now) }
{
    let Some(readers) = all_with_room(number, feeds, subscriptions, skipped, u32::MAX) else {
        return None;
    };
    if readers == 0 || readers == u32::MAX {
        return None;
    }
    if spaces_of_feeds(number, feeds, count) < count {
        return None;
    }
    if spaces_of_all(number, subscriptions, skipped, count) < count {
        return None;
    }
    Some(readers)
}

/// Whether a node of these feeds reads the hub.
pub(crate) fn is_read_by_feeds<N: Nodes<Item = T>, T: Drop>(number: u64, feeds: &[Feed<N>]) -> bool
    ensures { result ≡ false → counts.feed_readers N.Machine number feeds.now ≡ 0 }
{
    feed_readers_up_to(number, feeds, 1) > 0
}

/// The least of the numbers of items for which the nodes of these feeds that read the hub have room at once, but at most `most`.
fn spaces_of_feeds<N: Nodes<Item = T> + Batches, T: Drop>(
    number: u64,
    feeds: &[Feed<N>],
    most: u64,
) -> u64
    ensures { result ≡ spec.spaces_of_feeds N.Machine N.spaces_of number most feeds.now }
{
    let mut left = most;
    for feed in feeds {
        left = feed.spaces_for(number, left);
    }
    left
}

/// How many nodes of these subscriptions read the hub, where there are some, and each of them has room for so many items at once.
pub(crate) fn ready_readers<N: Nodes<Item = T> + Batches, T: Drop>(
    number: u64,
    subscriptions: &[Subscription<N, T>],
    skipped: &Skipped,
    count: u64,
) -> Option<u32>
    requires unread { NoneReads N.Machine number skipped.now subscriptions.now }
    ensures some { IfSome result (λ n. (n ≡ counts.readers N.Machine number subscriptions.now) × (0 < n)) }
    ensures room { IfSome result (λ n. count ≤ spec.spaces_of_all N.Machine N.spaces_of number count subscriptions.now) }
{
    let Some(readers) = with_room(number, subscriptions, skipped, u32::MAX) else {
        return None;
    };
    if readers == 0 || readers == u32::MAX {
        return None;
    }
    if spaces_of_all(number, subscriptions, skipped, count) < count {
        return None;
    }
    Some(readers)
}

/// The least of the numbers of items for which the nodes of these subscriptions that read the hub have room at once, but at most
/// `most`.
pub(crate) fn spaces_of_all<N: Nodes<Item = T> + Batches, T: Drop>(
    number: u64,
    subscriptions: &[Subscription<N, T>],
    skipped: &Skipped,
    most: u64,
) -> u64
    requires unread { NoneReads N.Machine number skipped.now subscriptions.now }
    ensures { result ≡ spec.spaces_of_all N.Machine N.spaces_of number most subscriptions.now }
{
    let mut left = most;
    let mut at = skipped.next(0);
    'walk: while at < subscriptions.len() {
        let looked_at = &subscriptions[at];
        left = looked_at.spaces_for(number, left);
        at = skipped.next(at + 1);
    }
    left
}

/// Takes in all items of the inbox of a hub that keeps none, and puts them into the empty list once for each of so many nodes, the last
/// one first. All copies are made before they are taken in. After an error something may stand in the list.
fn lay_out<O: Ops>(
    alloc: Global,
    ops: &O,
    hub: &mut Hub<O::Item>,
    readers: u32,
    items: &mut Vec<O::Item>,
) -> Result<(), NoMemory>
    requires multicast { replayed hub.old.kind ≡ 0 }
    requires some { 0 < readers }
    requires empty { items.old.items ≡ [] }
    ensures items { OnOk result (items.new.items ≡ blocks readers (reverse hub.old.inbox)) }
    ensures taken { OnOk result (hub.new ≡ all_accepted hub.old) }
    ensures same { OnErr result (hub.new ≡ hub.old) }
{
    for made in 0..readers - 1 {
        hub.copy_inbox(alloc, ops, items)?;
    }
    hub.accept_all(items)
}

/// Hands so many items of the hub to each node of these feeds that reads it. They stand at the end of a list, the first of them last,
/// once for each of these nodes, and are taken out there; what else stands in the list stays. Each of the nodes has room for them.
fn hand_all_feeds<N: Nodes<Item = T> + Batches, T: Drop>(
    number: u64,
    feeds: &mut [Feed<N>],
    items: &mut Vec<T>,
    count: u64,
)
    ensures { (most : ℕ) → AreTakenOff (counts.feed_readers N.Machine number feeds.old) count (spec.spaces_of_feeds N.Machine N.spaces_of number most feeds.old) items.old.items items.new.items
        (λ xs. Leads (IsItemHandedToFeeds N.Machine number) feeds.old xs feeds.new) }
{
    for feed in feeds.iter_mut() {
        feed.hand_many(number, items, count);
    }
}

/// Hands so many items of the hub to each node of these subscriptions that reads it. They are all that stands in the list, the first of
/// them last, once for each of these nodes. Each of the nodes has room for them.
pub(crate) fn hand_all<N: Nodes<Item = T> + Batches, T: Drop>(
    number: u64,
    subscriptions: &mut [Subscription<N, T>],
    skipped: &Skipped,
    items: &mut Vec<T>,
    count: u64,
)
    requires unread { NoneReads N.Machine number skipped.now subscriptions.old }
    ensures { (most : ℕ) (xs : List T) → items.old.items ≡ blocks (counts.readers N.Machine number subscriptions.old) (reverse xs) → length xs ≡ count → count ≤ spec.spaces_of_all N.Machine N.spaces_of number most subscriptions.old →
        Leads (IsItemHandedToAll N.Machine number) subscriptions.old xs subscriptions.new × (items.new.items ≡ []) }
{
    let mut to = skipped.next(0);
    'walk: while to < subscriptions.len() {
        let subscription = &mut subscriptions[to];
        subscription.hand_many(number, items, count);
        to = skipped.next(to + 1);
    }
}
