//! Sending many items of a feed into its hub at once, and handing them to all nodes that read the hub.

ghost use Rattle.std.specs.Prelude.{◌≡◌, ◌+◌, ◌<◌, ◌≤◌, ◌++◌, [], Some, OnOk, length, reverse, vec_len, vec_capacity};
ghost use Rattle.rsx_rooted.specs.Taking.{blocks};
ghost use Rattle.rsx_tree.specs.Runs.{LeadsBy};
ghost use Rattle.rsx_graph_state.specs.AtOnce as spec;
ghost use Rattle.rsx_graph_state.specs.AtOnce.{AreSent, IsFeedMove};
ghost use Rattle.rsx_graph_state.specs.Moves.{rows_of};
ghost use Rattle.rsx_graph_state.specs.Publishing as counts;
ghost use Rattle.rsx_graph_state.specs.Stands as stands;
ghost use Rattle.rsx_graph_state.specs.SubscriptionSet.{NoneReads};

use crate::at_once::{hand_all, is_read_by_feeds, ready_readers, spaces_of_all};
use crate::{Feed, Skipped};
use rsx_hub::Hub;
use rsx_pipe::Nodes;
use rsx_rooted::{Batch, Batches, FEWEST_IN_BATCH, MOST_IN_BATCH};
use rsx_subscriber::Subscription;
use rsx_types::{HubId, NoMemory, Ops};
use std::alloc::Global;

/// Whether it is worth to send many items of the feed with the index `at` into its hub at once ([`send_many`]): its nodes choose nothing,
/// so that the order of its moves shows in no record, the hub keeps no items for new members, no feed reads it, and each node of a
/// subscription that reads it has room for some. It looks at no subscription that is skipped. The answer promises nothing.
pub fn may_send_many<N: Nodes<Item = T> + Batches, T: Drop>(
    hub: &Hub<T>,
    number: u32,
    feeds: &[Feed<N>],
    at: usize,
    subscriptions: &[Subscription<N, T>],
    skipped: &Skipped,
) -> bool
    requires within { at < length feeds.now }
    requires unread { NoneReads N.Machine number skipped.now subscriptions.now }
{
    if !hub.keeps_none() || !feeds[at].part.never_steps() {
        return false;
    }
    let number = u64::from(number);
    if is_read_by_feeds(number, feeds) {
        return false;
    }
    spaces_of_all(number, subscriptions, skipped, MOST_IN_BATCH) >= FEWEST_IN_BATCH
}

/// Makes moves of the feed with the index `at` that bring many items to its hub, the Sends of them into the hub among these, and each node
/// of a subscription that reads the hub gets the items. It answers how many moves those are, at most `most`: 0 where it doesn't do so at
/// once, and then nothing has changed. When it does is no promise: where the way through the feed is straight
/// ([`Part::try_batch`](rsx_pipe::Part::try_batch)), each node that reads the hub has room for some items, no feed reads it, and the hub
/// keeps no items for new members and has not ended, but for want of memory.
///
/// It looks at no subscription that is skipped.
pub fn send_many<N: Nodes<Item = O::Item> + Batches, O: Ops>(
    alloc: Global,
    ops: &O,
    hubs: &mut Vec<Hub<O::Item>>,
    feeds: &mut Vec<Feed<N>>,
    subscriptions: &mut Vec<Subscription<N, O::Item>>,
    hub: HubId,
    at: usize,
    skipped: &Skipped,
    most: u32,
) -> u32
    requires there { hub.0 < length hubs.old.items }
    requires within { at < length feeds.old.items }
    requires place { stands.place_of feeds.old.items hub.0 ≡ Some at }
    requires unread { NoneReads N.Machine hub.0 skipped.now subscriptions.old.items }
    ensures hubs { length hubs.new.items ≡ length hubs.old.items }
    ensures feeds { length feeds.new.items ≡ length feeds.old.items }
    ensures subscriptions { length subscriptions.new.items ≡ length subscriptions.old.items }
    ensures made { LeadsBy (IsFeedMove N.Machine (O.meaning ops.now) hub.0) result (rows_of hubs.old.items feeds.old.items subscriptions.old.items) (rows_of hubs.new.items feeds.new.items subscriptions.new.items) }
    ensures most { result ≤ most }
{
    let number = u64::from(hub.0);
    if is_read_by_feeds(number, feeds) {
        return 0;
    }
    let spaces = spaces_of_all(number, subscriptions, skipped, MOST_IN_BATCH);
    if spaces < FEWEST_IN_BATCH {
        return 0;
    }
    let Some(readers) = ready_readers(number, subscriptions, skipped, spaces) else {
        return 0;
    };
    send_batch(
        alloc,
        ops,
        &mut hubs[hub.0 as usize],
        hub.0,
        &mut feeds[at],
        subscriptions,
        skipped,
        readers,
        spaces,
        most,
    )
}

/// The same of this feed and its hub, which so many nodes read, each of which has room for so many items.
fn send_batch<N: Nodes<Item = O::Item> + Batches, O: Ops>(
    alloc: Global,
    ops: &O,
    hub: &mut Hub<O::Item>,
    number: u32,
    feed: &mut Feed<N>,
    subscriptions: &mut [Subscription<N, O::Item>],
    skipped: &Skipped,
    readers: u32,
    spaces: u64,
    most: u32,
) -> u32
    requires unread { NoneReads N.Machine number skipped.now subscriptions.old }
    requires some { 0 < readers }
    requires readers { readers ≡ counts.readers N.Machine number subscriptions.old }
    requires room { spaces ≤ spec.spaces_of_all N.Machine N.spaces_of number spaces subscriptions.old }
    ensures sent { AreSent N.Machine (O.meaning ops.now) number result hub.old hub.new feed.old feed.new subscriptions.old subscriptions.new }
    ensures most { result ≤ most }
{
    let mut batch = Batch::new(alloc);
    let Some(rest) = feed.part.try_batch(alloc, ops, spaces, most, &mut batch) else {
        return 0;
    };
    let count = batch.items.len() as u64;
    if !hub.takes_many(count) {
        return 0;
    }
    let mut items = Vec::new(alloc);
    if lay_out_many(alloc, ops, &mut batch.items, readers, &mut items).is_err() {
        return 0;
    }
    feed.part.go_on_batch(count, &mut batch.notes);
    hub.take_in_many(count);
    hand_all(u64::from(number), subscriptions, skipped, &mut items, count);
    most - rest
}

/// Moves these items into the empty list once for each of so many nodes, the last one first, with copies for all nodes but one.
fn lay_out_many<O: Ops>(
    alloc: Global,
    ops: &O,
    from: &mut Vec<O::Item>,
    readers: u32,
    items: &mut Vec<O::Item>,
) -> Result<(), NoMemory>
    requires some { 0 < readers }
    requires empty { items.old.items ≡ [] }
    ensures { OnOk result (items.new.items ≡ blocks readers (reverse from.old.items)) }
{
    for made in 0..readers - 1 {
        copy_reversed(alloc, ops, from.as_slice(), items)?;
    }
    items.reserve(from.len())?;
    move_reversed(from, items);
    Ok(())
}

/// Moves these items behind those in the list, the last one first. There is room for them.
fn move_reversed<T: Drop>(from: &mut Vec<T>, items: &mut Vec<T>)
    requires { vec_len items.old + length from.old.items ≤ vec_capacity items.old }
    ensures { items.new.items ≡ items.old.items ++ reverse from.old.items }
{
    while let Some(item) = from.pop() {
        items.push_reserved(item);
    }
}

/// Puts copies of these items behind those in the list, the last one first.
fn copy_reversed<O: Ops>(
    alloc: Global,
    ops: &O,
    from: &[O::Item],
    items: &mut Vec<O::Item>,
) -> Result<(), NoMemory>
    ensures { OnOk result (items.new.items ≡ items.old.items ++ reverse from.now) }
{
    for item in from.iter().rev() {
        let copy = ops.copy(alloc, item)?;
        items.push(copy)?;
    }
    Ok(())
}
