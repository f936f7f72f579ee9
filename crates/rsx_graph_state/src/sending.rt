//! Sending the signals of a feed into its hub, and handing them to all nodes that read the hub.

ghost use Rattle.std.specs.Prelude.{◌≡◌, ◌-◌, ◌<◌, [], min, true, false, Some, length, slice_get, IfSome, IfNone, IfErr, OnOk, OnErr, IfOk, vec_len, vec_capacity};
ghost use Rattle.rsx_types.specs.Meaning.{Meaning};
ghost use Rattle.rsx_sources.specs.Steps.{IsNotMade};
ghost use Rattle.rsx_hub.specs.Hub.{taken_in, takes_signal};
ghost use Rattle.rsx_tree.specs.Handed.{times};
ghost use Rattle.rsx_graph_state.specs.Publishing.{all_readers};
ghost use Rattle.rsx_graph_state.specs.Sending as spec;
ghost use Rattle.rsx_graph_state.specs.Sending.{IsFed, IsTakenOut};
ghost use Rattle.rsx_graph_state.specs.SubscriptionSet.{NoneReads};
ghost use Rattle.rsx_graph_state.specs.declared.feed.Feed.{Feed as FeedOf};

use crate::Skipped;
use crate::feed::Feed;
use crate::publishing::{hand_to_all, readers_for};
use rsx_hub::Hub;
use rsx_pipe::Nodes;
use rsx_sources::NotMade;
use rsx_subscriber::Subscription;
use rsx_types::{NoMemory, Ops, Signal};
use std::alloc::Global;

/// Sends the next signal of the feed with the index `at` into its hub, and hands it to each node of these feeds and subscriptions
/// that reads the hub. `hub` is the hub that the feed names. An item is handed to all or to none: one node without room keeps
/// it in the feed.
///
/// It looks at no subscription that is skipped. The list, in which the signal stands once for each of these nodes in between, is
/// empty before and after; used again, it takes no memory.
///
/// # Errors
/// Nothing has changed:
/// - [`NotMade::NotEnabled`] exactly where the feed's root edge carries nothing now, or the hub doesn't take the signal in, or it is
///   an item and some node that reads the hub has no room for it.
/// - [`NotMade::NoMemory`] where a growth or a copy was refused, or where 2^32 - 1 nodes or more read the hub, for which no list
///   is made.
pub fn send_to_hub<N: Nodes<Item = O::Item>, O: Ops>(
    alloc: Global,
    ops: &O,
    at: usize,
    hub: &mut Hub<O::Item>,
    feeds: &mut [Feed<N>],
    subscriptions: &mut [Subscription<N, O::Item>],
    skipped: &Skipped,
    signals: &mut Vec<Signal<O::Item>>,
) -> Result<(), NotMade>
    requires within { at < length feeds.old }
    requires unread { (f : FeedOf N) → slice_get feeds.old at ≡ Some f → NoneReads N.Machine f.hub skipped.now subscriptions.old }
    requires empty { signals.old.items ≡ [] }
    ensures ok { OnOk result (IsFed N.Machine (O.meaning ops.now) at hub.old hub.new feeds.old feeds.new subscriptions.old subscriptions.new) }
    ensures enabled { OnOk result (spec.can_feed_at N.Machine (O.meaning ops.now) at hub.old feeds.old subscriptions.old ≡ true) }
    ensures err { IfErr result (IsNotMade (spec.can_feed_at N.Machine (O.meaning ops.now) at hub.old feeds.old subscriptions.old)) }
    ensures same { OnErr result ((hub.new ≡ hub.old) × (feeds.new ≡ feeds.old) × (subscriptions.new ≡ subscriptions.old)) }
    ensures empty { signals.new.items ≡ [] }
{
    let Some(readers) = sent_readers(at, hub, feeds, subscriptions, skipped) else {
        return Err(NotMade::NotEnabled);
    };
    if readers == u32::MAX {
        return Err(NotMade::NoMemory);
    }
    let number = u64::from(feeds[at].hub);
    match take_out(alloc, ops, &mut feeds[at], hub, readers, signals) {
        Ok(()) => {
            hand_to_all(number, feeds, subscriptions, skipped, signals);
            Ok(())
        }
        Err(NoMemory) => Err(NotMade::NoMemory),
    }
}

/// How many nodes read the hub of the feed with the index `at`, but at most `u32::MAX`, where the Send over the feed's root edge is
/// enabled ([`can_feed`]). None where it isn't.
fn sent_readers<N: Nodes<Item = T>, T: Drop>(
    at: usize,
    hub: &Hub<T>,
    feeds: &[Feed<N>],
    subscriptions: &[Subscription<N, T>],
    skipped: &Skipped,
) -> Option<u32>
    requires within { at < length feeds.now }
    requires unread { (f : FeedOf N) → slice_get feeds.now at ≡ Some f → NoneReads N.Machine f.hub skipped.now subscriptions.now }
    ensures enabled { (m : Meaning T) → IfSome result (λ n. spec.can_feed_at N.Machine m at hub.now feeds.now subscriptions.now ≡ true) }
    ensures some { (f : FeedOf N) → slice_get feeds.now at ≡ Some f → IfSome result (λ n. n ≡ min (all_readers N.Machine f.hub feeds.now subscriptions.now) u32.MAX) }
    ensures none { (m : Meaning T) → IfNone result (spec.can_feed_at N.Machine m at hub.now feeds.now subscriptions.now ≡ false) }
{
    let feed = &feeds[at];
    let front = match feed.part.next_out() {
        Some(front) => front,
        None => return None,
    };
    if !hub.takes(front) {
        return None;
    }
    readers_for(front, u64::from(feed.hub), feeds, subscriptions, skipped)
}

/// Whether the Send over the root edge of the feed with the index `at` is enabled ([`send_to_hub`]): the edge carries a signal,
/// which the hub takes in, and for an item each node of these feeds and subscriptions that reads the hub has room. It takes no
/// memory.
pub fn can_feed<N: Nodes<Item = T>, T: Drop>(
    at: usize,
    hub: &Hub<T>,
    feeds: &[Feed<N>],
    subscriptions: &[Subscription<N, T>],
) -> bool
    requires { at < length feeds.now }
    ensures { (m : Meaning T) → result ≡ spec.can_feed_at N.Machine m at hub.now feeds.now subscriptions.now }
{
    match sent_readers(at, hub, feeds, subscriptions, &Skipped::none()) {
        Some(_) => true,
        None => false,
    }
}

/// Takes the feed's next signal out of its part and into the hub, and puts it into the empty list once for each of so many nodes. For
/// want of memory it is put back, and the list is empty again.
fn take_out<N: Nodes<Item = O::Item>, O: Ops>(
    alloc: Global,
    ops: &O,
    feed: &mut Feed<N>,
    hub: &mut Hub<O::Item>,
    readers: u32,
    signals: &mut Vec<Signal<O::Item>>,
) -> Result<(), NoMemory>
    requires { signals.old.items ≡ [] }
    ensures taken { OnOk result (IsTakenOut N.Machine (O.meaning ops.now) feed.old hub.old readers signals.new.items feed.new hub.new) }
    ensures same { OnErr result ((feed.new ≡ feed.old) × (hub.new ≡ hub.old) × (signals.new.items ≡ [])) }
{
    let signal = match feed.part.send_out(alloc, ops) {
        Ok(signal) => signal,
        Err(_) => return Err(NoMemory),
    };
    match take_copies(alloc, ops, hub, &signal, readers, signals) {
        Ok(()) => {
            put_last(signals, signal, readers);
            Ok(())
        }
        Err(NoMemory) => {
            signals.clear();
            feed.part.put_back(signal);
            Err(NoMemory)
        }
    }
}

/// Puts the signal itself behind its copies, where there is a node for it at all.
fn put_last<T: Drop>(signals: &mut Vec<Signal<T>>, signal: Signal<T>, readers: u32)
    requires copies { signals.old.items ≡ times (readers - 1) signal }
    requires room { 0 < readers → vec_len signals.old < vec_capacity signals.old }
    ensures { signals.new.items ≡ times readers signal }
{
    if readers > 0 {
        signals.push_reserved(signal);
    }
}

/// Puts copies of a signal for all but one of so many nodes into the empty list, with room for the signal itself, and then has the hub
/// take it in.
fn take_copies<O: Ops>(
    alloc: Global,
    ops: &O,
    hub: &mut Hub<O::Item>,
    signal: &Signal<O::Item>,
    readers: u32,
    signals: &mut Vec<Signal<O::Item>>,
) -> Result<(), NoMemory>
    requires { signals.old.items ≡ [] }
    ensures signals { OnOk result (signals.new.items ≡ times (readers - 1) signal.now) }
    ensures room { OnOk result (0 < readers → vec_len signals.new < vec_capacity signals.new) }
    ensures takes { OnOk result (takes_signal hub.old signal.now ≡ true) }
    ensures taken { OnOk result (hub.new ≡ taken_in hub.old signal.now) }
    ensures same { OnErr result (hub.new ≡ hub.old) }
{
    copies_of(alloc, ops, signal, readers, signals)?;
    match hub.take_in(alloc, ops, signal) {
        Ok(()) => Ok(()),
        Err(_) => Err(NoMemory),
    }
}

/// Puts a signal into the empty list once for each of so many nodes but one, with room for one more.
fn copies_of<O: Ops>(
    alloc: Global,
    ops: &O,
    signal: &Signal<O::Item>,
    readers: u32,
    signals: &mut Vec<Signal<O::Item>>,
) -> Result<(), NoMemory>
    requires { signals.old.items ≡ [] }
    ensures signals { OnOk result (signals.new.items ≡ times (readers - 1) signal.now) }
    ensures room { OnOk result (0 < readers → vec_len signals.new < vec_capacity signals.new) }
{
    signals.reserve(readers as usize)?;
    for made in 0..readers.saturating_sub(1) {
        let copy = copy_of(alloc, ops, signal)?;
        signals.push_reserved(copy);
    }
    Ok(())
}

/// A copy of a signal.
fn copy_of<O: Ops>(
    alloc: Global,
    ops: &O,
    signal: &Signal<O::Item>,
) -> Result<Signal<O::Item>, NoMemory>
    ensures { IfOk result (λ s. s ≡ signal.now) }
{
    match signal {
        Signal::Next(item) => {
            let copy = ops.copy(alloc, item)?;
            Ok(Signal::Next(copy))
        }
        Signal::Complete => Ok(Signal::Complete),
        Signal::Error(cause) => Ok(Signal::Error(*cause)),
    }
}
