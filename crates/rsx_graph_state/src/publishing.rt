//! Taking a signal in at a hub, and handing it to all nodes that read the hub.

ghost use Rattle.std.specs.Prelude.{◌≡◌, ◌-◌, ◌<◌, min, true, false, [], Some, IfSome, IfNone, IfErr, OnOk, OnErr, IfOk, vec_len, vec_capacity};
ghost use Rattle.rsx_types.specs.declared.signal.Signal.{Signal};
ghost use Rattle.rsx_sources.specs.Machine.{front_of};
ghost use Rattle.rsx_sources.specs.Steps.{IsNotMade};
ghost use Rattle.rsx_hub.specs.Hub.{accepted, waiting};
ghost use Rattle.rsx_tree.specs.Handed.{IsHandedOut, is_room_for, times};
ghost use Rattle.rsx_graph_state.specs.Publishing as spec;
ghost use Rattle.rsx_graph_state.specs.Publishing.{all_readers, feed_readers, readers, AllFeedsHanded, AllHanded, IsAccepted};
ghost use Rattle.rsx_graph_state.specs.SubscriptionSet.{NoneReads};

use crate::Skipped;
use crate::feed::Feed;
use rsx_hub::Hub;
use rsx_pipe::Nodes;
use rsx_sources::{Front, NotMade};
use rsx_subscriber::Subscription;
use rsx_types::{NoMemory, Ops, Signal};
use std::alloc::Global;

/// Takes the signal in that waits in front of the inbox of the hub with this number, and hands it to each node of these feeds and
/// subscriptions that reads the hub. An item is handed to all or to none: one node without room keeps it in the inbox.
///
/// It looks at no subscription that is skipped. The list, in which the signal stands once for each of these nodes in between, is
/// empty before and after; used again, it takes no memory.
///
/// # Errors
/// Nothing has changed:
/// - [`NotMade::NotEnabled`] exactly where no signal waits, or an item does and some node that reads the hub has no room for it.
/// - [`NotMade::NoMemory`] where a growth or a copy was refused, or where 2^32 - 1 nodes or more read the hub, for which no list
///   is made.
pub fn accept<N: Nodes<Item = O::Item>, O: Ops>(
    alloc: Global,
    ops: &O,
    hub: &mut Hub<O::Item>,
    number: u32,
    feeds: &mut [Feed<N>],
    subscriptions: &mut [Subscription<N, O::Item>],
    skipped: &Skipped,
    signals: &mut Vec<Signal<O::Item>>,
) -> Result<(), NotMade>
    requires unread { NoneReads N.Machine number skipped.now subscriptions.old }
    requires empty { signals.old.items ≡ [] }
    ensures ok { OnOk result (IsAccepted N.Machine number hub.old hub.new feeds.old feeds.new subscriptions.old subscriptions.new) }
    ensures enabled { OnOk result (spec.can_accept N.Machine number hub.old feeds.old subscriptions.old ≡ true) }
    ensures err { IfErr result (IsNotMade (spec.can_accept N.Machine number hub.old feeds.old subscriptions.old)) }
    ensures same { OnErr result ((hub.new ≡ hub.old) × (feeds.new ≡ feeds.old) × (subscriptions.new ≡ subscriptions.old)) }
    ensures empty { signals.new.items ≡ [] }
{
    let number = u64::from(number);
    let Some(readers) = ready_readers(number, hub, feeds, subscriptions, skipped) else {
        return Err(NotMade::NotEnabled);
    };
    if readers == u32::MAX {
        return Err(NotMade::NoMemory);
    }
    match take_in(alloc, ops, hub, readers, signals) {
        Ok(()) => {
            hand_to_all(number, feeds, subscriptions, skipped, signals);
            Ok(())
        }
        Err(_) => Err(NotMade::NoMemory),
    }
}

/// How many nodes read the hub with this number, but at most `u32::MAX`, where it can take a signal in ([`can_accept`]). None where it
/// can't.
fn ready_readers<N: Nodes<Item = T>, T: Drop>(
    number: u64,
    hub: &Hub<T>,
    feeds: &[Feed<N>],
    subscriptions: &[Subscription<N, T>],
    skipped: &Skipped,
) -> Option<u32>
    requires unread { NoneReads N.Machine number skipped.now subscriptions.now }
    ensures enabled { IfSome result (λ n. spec.can_accept N.Machine number hub.now feeds.now subscriptions.now ≡ true) }
    ensures some { IfSome result (λ n. n ≡ min (all_readers N.Machine number feeds.now subscriptions.now) u32.MAX) }
    ensures none { IfNone result (spec.can_accept N.Machine number hub.now feeds.now subscriptions.now ≡ false) }
{
    match hub.front() {
        Some(front) => readers_for(front, number, feeds, subscriptions, skipped),
        None => None,
    }
}

/// How many nodes read the hub, but at most `u32::MAX`, where a signal of this kind can be handed to them: for an item all of them have
/// room. None where it can't.
pub(crate) fn readers_for<N: Nodes<Item = T>, T: Drop>(
    front: Front,
    number: u64,
    feeds: &[Feed<N>],
    subscriptions: &[Subscription<N, T>],
    skipped: &Skipped,
) -> Option<u32>
    requires unread { NoneReads N.Machine number skipped.now subscriptions.now }
    ensures enabled { (s : Signal T) → front ≡ front_of s → IfSome result (λ n. is_room_for s (spec.all_have_room N.Machine number feeds.now subscriptions.now) ≡ true) }
    ensures some { IfSome result (λ n. n ≡ min (all_readers N.Machine number feeds.now subscriptions.now) u32.MAX) }
    ensures none { (s : Signal T) → front ≡ front_of s → IfNone result (is_room_for s (spec.all_have_room N.Machine number feeds.now subscriptions.now) ≡ false) }
{
    match front {
        Front::Item => all_with_room(number, feeds, subscriptions, skipped, u32::MAX),
        Front::Completion => Some(all_readers_up_to(number, feeds, subscriptions, u32::MAX)),
        Front::Failure(_) => Some(all_readers_up_to(number, feeds, subscriptions, u32::MAX)),
    }
}

/// How many nodes read the hub, but at most `most`, where all of them have room for an item of it. None where one has none.
pub(crate) fn all_with_room<N: Nodes<Item = T>, T: Drop>(
    number: u64,
    feeds: &[Feed<N>],
    subscriptions: &[Subscription<N, T>],
    skipped: &Skipped,
    most: u32,
) -> Option<u32>
    requires unread { NoneReads N.Machine number skipped.now subscriptions.now }
    ensures enabled { IfSome result (λ n. spec.all_have_room N.Machine number feeds.now subscriptions.now ≡ true) }
    ensures some { IfSome result (λ n. n ≡ min (all_readers N.Machine number feeds.now subscriptions.now) most) }
    ensures none { IfNone result (spec.all_have_room N.Machine number feeds.now subscriptions.now ≡ false) }
{
    if !feeds_have_room(number, feeds) {
        return None;
    }
    let found = feed_readers_up_to(number, feeds, most);
    match with_room(number, subscriptions, skipped, most - found) {
        Some(more) => Some(found + more),
        None => None,
    }
}

/// The same of the nodes of these subscriptions alone.
#[inline(always)]
pub(crate) fn with_room<N: Nodes<Item = T>, T: Drop>(
    number: u64,
    subscriptions: &[Subscription<N, T>],
    skipped: &Skipped,
    most: u32,
) -> Option<u32>
    requires unread { NoneReads N.Machine number skipped.now subscriptions.now }
    ensures some { IfSome result (λ n. (spec.have_room N.Machine number subscriptions.now ≡ true) × (n ≡ min (readers N.Machine number subscriptions.now) most)) }
    ensures none { IfNone result (spec.have_room N.Machine number subscriptions.now ≡ false) }
{
    let mut found = 0;
    let mut at = skipped.next(0);
    'walk: while at < subscriptions.len() {
        let looked_at = &subscriptions[at];
        if !looked_at.has_room_for(number) {
            return None;
        }
        found += looked_at.readers_up_to(number, most - found);
        at = skipped.next(at + 1);
    }
    Some(found)
}

/// Whether the hub with this number can take a signal in: one waits in front of its inbox, and for an item each node of these feeds
/// and subscriptions that reads the hub has room. It takes no memory.
pub fn can_accept<N: Nodes<Item = T>, T: Drop>(
    number: u64,
    hub: &Hub<T>,
    feeds: &[Feed<N>],
    subscriptions: &[Subscription<N, T>],
) -> bool
    ensures { result ≡ spec.can_accept N.Machine number hub.now feeds.now subscriptions.now }
{
    match ready_readers(number, hub, feeds, subscriptions, &Skipped::none()) {
        Some(_) => true,
        None => false,
    }
}

/// Whether all nodes of these feeds that read the hub have room for an item of it.
fn feeds_have_room<N: Nodes<Item = T>, T: Drop>(number: u64, feeds: &[Feed<N>]) -> bool
    ensures { result ≡ spec.feeds_have_room N.Machine number feeds.now }
{
    for feed in feeds {
        if !feed.has_room_for(number) {
            return false;
        }
    }
    true
}

/// How many nodes read the hub, but at most `most`.
fn all_readers_up_to<N: Nodes<Item = T>, T: Drop>(
    number: u64,
    feeds: &[Feed<N>],
    subscriptions: &[Subscription<N, T>],
    most: u32,
) -> u32
    ensures { result ≡ min (all_readers N.Machine number feeds.now subscriptions.now) most }
{
    let found = feed_readers_up_to(number, feeds, most);
    found + readers_up_to(number, subscriptions, most - found)
}

/// How many nodes of these feeds read the hub, but at most `most`.
pub(crate) fn feed_readers_up_to<N: Nodes<Item = T>, T: Drop>(
    number: u64,
    feeds: &[Feed<N>],
    most: u32,
) -> u32
    ensures { result ≡ min (feed_readers N.Machine number feeds.now) most }
{
    let mut found = 0;
    for feed in feeds {
        found += feed.readers_up_to(number, most - found);
    }
    found
}

/// How many nodes of these subscriptions read the hub, but at most `most`.
fn readers_up_to<N: Nodes<Item = T>, T: Drop>(
    number: u64,
    subscriptions: &[Subscription<N, T>],
    most: u32,
) -> u32
    ensures { result ≡ min (readers N.Machine number subscriptions.now) most }
{
    let mut found = 0;
    for subscription in subscriptions {
        found += subscription.readers_up_to(number, most - found);
    }
    found
}

/// Takes the signal in that waits in front of the hub's inbox, and puts it into the empty list once for each of so many nodes. All
/// copies are made before it is taken in. After an error the list is empty again.
fn take_in<O: Ops>(
    alloc: Global,
    ops: &O,
    hub: &mut Hub<O::Item>,
    readers: u32,
    signals: &mut Vec<Signal<O::Item>>,
) -> Result<(), NoMemory>
    requires { signals.old.items ≡ [] }
    ensures signals { OnOk result ((s : Signal O.Item) → waiting hub.old ≡ Some s → signals.new.items ≡ times readers s) }
    ensures taken { OnOk result ((s : Signal O.Item) → waiting hub.old ≡ Some s → hub.new ≡ accepted hub.old (Some s)) }
    ensures same { OnErr result ((hub.new ≡ hub.old) × (signals.new.items ≡ [])) }
{
    match put_and_take_in(alloc, ops, hub, readers, signals) {
        Ok(()) => Ok(()),
        Err(why) => {
            signals.clear();
            Err(why)
        }
    }
}

/// The same, but for what stands in the list after an error.
fn put_and_take_in<O: Ops>(
    alloc: Global,
    ops: &O,
    hub: &mut Hub<O::Item>,
    readers: u32,
    signals: &mut Vec<Signal<O::Item>>,
) -> Result<(), NoMemory>
    requires { signals.old.items ≡ [] }
    ensures signals { OnOk result ((s : Signal O.Item) → waiting hub.old ≡ Some s → signals.new.items ≡ times readers s) }
    ensures taken { OnOk result ((s : Signal O.Item) → waiting hub.old ≡ Some s → hub.new ≡ accepted hub.old (Some s)) }
    ensures same { OnErr result (hub.new ≡ hub.old) }
{
    copies(alloc, ops, hub, readers, signals)?;
    if let Some(signal) = hub.accept(alloc, ops)? {
        if readers > 0 {
            signals.push_reserved(signal);
        }
    }
    Ok(())
}

/// Puts the signal in front of the hub's inbox into the empty list once for each of so many nodes but one, which gets the signal
/// itself, with room for that.
fn copies<O: Ops>(
    alloc: Global,
    ops: &O,
    hub: &Hub<O::Item>,
    readers: u32,
    signals: &mut Vec<Signal<O::Item>>,
) -> Result<(), NoMemory>
    requires { signals.old.items ≡ [] }
    ensures signals { OnOk result ((s : Signal O.Item) → waiting hub.now ≡ Some s → signals.new.items ≡ times (readers - 1) s) }
    ensures room { OnOk result (0 < readers → vec_len signals.new < vec_capacity signals.new) }
{
    signals.reserve(readers as usize)?;
    for made in 0..readers.saturating_sub(1) {
        let Some(signal) = copy_of_front(alloc, ops, hub)? else {
            return Ok(());
        };
        signals.push_reserved(signal);
    }
    Ok(())
}

/// A copy of the signal in front of the hub's inbox, if one waits.
fn copy_of_front<O: Ops>(
    alloc: Global,
    ops: &O,
    hub: &Hub<O::Item>,
) -> Result<Option<Signal<O::Item>>, NoMemory>
    ensures { IfOk result (λ s. s ≡ waiting hub.now) }
{
    if let Some(item) = hub.front_item() {
        let copy = ops.copy(alloc, item)?;
        return Ok(Some(Signal::Next(copy)));
    }
    match hub.front() {
        Some(Front::Completion) => Ok(Some(Signal::Complete)),
        Some(Front::Failure(cause)) => Ok(Some(Signal::Error(cause))),
        Some(Front::Item) | None => Ok(None),
    }
}

/// Hands a signal of the hub to each node that reads it, out of a list that has it once for each; what else stands in the list
/// stays. For an item there is room at all of them.
pub(crate) fn hand_to_all<N: Nodes<Item = T>, T: Drop>(
    number: u64,
    feeds: &mut [Feed<N>],
    subscriptions: &mut [Subscription<N, T>],
    skipped: &Skipped,
    signals: &mut Vec<Signal<T>>,
)
    requires unread { NoneReads N.Machine number skipped.now subscriptions.old }
    ensures { IsHandedOut (all_readers N.Machine number feeds.old subscriptions.old) (spec.all_have_room N.Machine number feeds.old subscriptions.old)
        signals.old.items signals.new.items
        (λ s. AllFeedsHanded N.Machine number s feeds.old feeds.new × AllHanded N.Machine number s subscriptions.old subscriptions.new) }
{
    hand_to_feeds(number, feeds, signals);
    hand(number, subscriptions, skipped, signals);
}

/// The same for the nodes of these feeds alone.
fn hand_to_feeds<N: Nodes<Item = T>, T: Drop>(
    number: u64,
    feeds: &mut [Feed<N>],
    signals: &mut Vec<Signal<T>>,
)
    ensures { IsHandedOut (feed_readers N.Machine number feeds.old) (spec.feeds_have_room N.Machine number feeds.old) signals.old.items signals.new.items
        (λ s. AllFeedsHanded N.Machine number s feeds.old feeds.new) }
{
    for feed in feeds.iter_mut() {
        feed.hand(number, signals);
    }
}

/// The same for the nodes of these subscriptions alone.
fn hand<N: Nodes<Item = T>, T: Drop>(
    number: u64,
    subscriptions: &mut [Subscription<N, T>],
    skipped: &Skipped,
    signals: &mut Vec<Signal<T>>,
)
    requires unread { NoneReads N.Machine number skipped.now subscriptions.old }
    ensures { IsHandedOut (readers N.Machine number subscriptions.old) (spec.have_room N.Machine number subscriptions.old) signals.old.items signals.new.items
        (λ s. AllHanded N.Machine number s subscriptions.old subscriptions.new) }
{
    let mut to = skipped.next(0);
    'walk: while to < subscriptions.len() {
        let subscription = &mut subscriptions[to];
        subscription.hand(number, signals);
        to = skipped.next(to + 1);
    }
}
