//! Hubs take in what they can: what waits in their inboxes, and what their feeds give.

ghost use Rattle.std.specs.Prelude.{◌≡◌, ℕ, ◌<◌, ◌≤◌, ◌^◌, [], List, IfErr, IsOk, OnErr, OnOk, length, false, true};
ghost use Rattle.rsx_graph_state.specs.Moves.{rows_of};
ghost use Rattle.rsx_graph_state.specs.Stands as spec;
ghost use Rattle.rsx_graph_state.specs.SubscriptionSet.{IsSkipped, NoneReads};
ghost use Rattle.rsx_tree.specs.Runs.{LeadsBy};
ghost use Rattle.rsx_types.specs.Meaning.{Meaning};
ghost use Rattle.rsx_graph_moves.specs.Pumped.{AreHubsQuiet, HasServed, HaveServed, IsAnyAwake, IsHubMoveRefusal, IsHubMoved, IsHubMovedOn, IsHubQuiet};
ghost use Rattle.rsx_rooted.specs.declared.rooted.Pumped.TheVariants as DrivenOf;
ghost use Rattle.rsx_graph_moves.specs.IdleSet.{IsIn};
ghost use Rattle.rsx_graph_moves.specs.Resting.{AreIdle};
ghost use Rattle.rsx_graph_moves.specs.declared.idle_set.IdleSet.{IdleSet as IdleSetOf};
ghost use Rattle.rsx_subscriber.specs.declared.subscription.Subscription.{Subscription as SubscriptionOf};

use crate::IdleSet;
use crate::waking::look_for_readers;
use rsx_graph_state::{
    Feed, Refusal, Skipped, accept_all, accept_unfed, can_accept, can_feed, may_send_many,
    place_of, send_from_feed, send_many, work_in_feed,
};
use rsx_hub::Hub;
use rsx_pipe::{Nodes, Pumped as Driven};
use rsx_rooted::Batches;
use rsx_sources::NotMade;
use rsx_subscriber::Subscription;
use rsx_types::{HubId, Ops, Signal};
use std::alloc::Global;

/// How many tries to send many items of a feed at once may fail one after the other.
const MOST_MISSES: u32 = 16;

/// All hubs take in what they can, one after the other, in at most `budget` moves; the moves of a hub's feed are among them. The
/// readers of each that makes a move are taken out of `idle`. The list for what is handed to them is empty before and after.
pub(crate) fn serve_all<N: Nodes<Item = O::Item> + Batches, O: Ops>(
    alloc: Global,
    ops: &O,
    hubs: &mut Vec<Hub<O::Item>>,
    feeds: &mut Vec<Feed<N>>,
    subscriptions: &mut Vec<Subscription<N, O::Item>>,
    idle: &mut IdleSet,
    signals: &mut Vec<Signal<O::Item>>,
    budget: u32,
) -> Result<Driven, Refusal>
    requires few { length hubs.old.items < 2 ^ 32 }
    requires idle { AreIdle N.Machine (O.meaning ops.now) idle.old subscriptions.old.items }
    requires empty { signals.old.items ≡ [] }
    ensures hubs { length hubs.new.items ≡ length hubs.old.items }
    ensures feeds { length feeds.new.items ≡ length feeds.old.items }
    ensures subscriptions { length subscriptions.new.items ≡ length subscriptions.old.items }
    ensures served { HaveServed N.Machine N.Nodes.own (O.meaning ops.now) budget (rows_of hubs.old.items feeds.old.items subscriptions.old.items) result (rows_of hubs.new.items feeds.new.items subscriptions.new.items) }
    ensures none { AreHubsQuiet N.Machine (O.meaning ops.now) (rows_of hubs.old.items feeds.old.items subscriptions.old.items) (length hubs.old.items) →
        (rows_of hubs.new.items feeds.new.items subscriptions.new.items ≡ rows_of hubs.old.items feeds.old.items subscriptions.old.items) × IsOk result }
    ensures idle { AreIdle N.Machine (O.meaning ops.now) idle.new subscriptions.new.items }
    ensures empty { signals.new.items ≡ [] }
{
    let mut left = budget;
    let count = hubs.len() as u32;
    for at in 0..count {
        left = match serve(
            alloc,
            ops,
            hubs,
            feeds,
            subscriptions,
            idle,
            signals,
            HubId(at),
            left,
        ) {
            Ok(Driven::Idle(left)) => left,
            Ok(Driven::Budget) => return Ok(Driven::Budget),
            Err(why) => return Err(why),
        };
    }
    Ok(Driven::Idle(left))
}

/// A hub takes in what it can, in at most `budget` moves; the moves of its feed are among them. Where it makes one, those subscriptions
/// are taken out of `idle` of which some node reads the hub, since that may wake them. Where its inbox or its feed has nothing for it, it
/// looks at no subscription.
// Not inlined, so that a pump of a graph without hubs stays short.
#[inline(never)]
fn serve<N: Nodes<Item = O::Item> + Batches, O: Ops>(
    alloc: Global,
    ops: &O,
    hubs: &mut Vec<Hub<O::Item>>,
    feeds: &mut Vec<Feed<N>>,
    subscriptions: &mut Vec<Subscription<N, O::Item>>,
    idle: &mut IdleSet,
    signals: &mut Vec<Signal<O::Item>>,
    hub: HubId,
    budget: u32,
) -> Result<Driven, Refusal>
    requires there { hub.0 < length hubs.old.items }
    requires idle { AreIdle N.Machine (O.meaning ops.now) idle.old subscriptions.old.items }
    requires empty { signals.old.items ≡ [] }
    ensures hubs { length hubs.new.items ≡ length hubs.old.items }
    ensures feeds { length feeds.new.items ≡ length feeds.old.items }
    ensures subscriptions { length subscriptions.new.items ≡ length subscriptions.old.items }
    ensures served { HasServed N.Machine N.Nodes.own (O.meaning ops.now) hub.0 budget (rows_of hubs.old.items feeds.old.items subscriptions.old.items) result (rows_of hubs.new.items feeds.new.items subscriptions.new.items) }
    ensures none { IsHubQuiet N.Machine (O.meaning ops.now) (rows_of hubs.old.items feeds.old.items subscriptions.old.items) hub.0 →
        (rows_of hubs.new.items feeds.new.items subscriptions.new.items ≡ rows_of hubs.old.items feeds.old.items subscriptions.old.items) × IsOk result }
    ensures idle { AreIdle N.Machine (O.meaning ops.now) idle.new subscriptions.new.items }
    ensures empty { signals.new.items ≡ [] }
{
    let at = place_of(feeds, hub.0);
    if rests(hubs, feeds, hub, at) {
        return Ok(Driven::Idle(budget));
    }
    look_for_readers(subscriptions, idle, hub);
    let apart = idle.apart_from(hub);
    let skipped = Skipped::those_in(apart, subscriptions.len());
    let served = take_in_all(
        alloc,
        ops,
        hubs,
        feeds,
        subscriptions,
        &skipped,
        signals,
        hub,
        at,
        budget,
    );
    if has_moved(&served, budget) {
        idle.keep(&apart);
    }
    served
}

/// Whether no move of a hub is enabled, by a look at its inbox, or at its feed, which is that with the index `at`. Where it answers no,
/// some move may be or not.
fn rests<N: Nodes<Item = T>, T: Drop>(
    hubs: &Vec<Hub<T>>,
    feeds: &Vec<Feed<N>>,
    hub: HubId,
    at: Option<usize>,
) -> bool
    requires there { hub.0 < length hubs.now.items }
    requires place { spec.place_of feeds.now.items hub.0 ≡ at }
    ensures { (m : Meaning T) (subs : List (SubscriptionOf N T)) → result ≡ true → IsHubQuiet N.Machine m (rows_of hubs.now.items feeds.now.items subs) hub.0 }
{
    match at {
        Some(at) => feeds[at].rests(),
        None => match hubs[hub.0 as usize].front() {
            Some(_) => false,
            None => true,
        },
    }
}

/// Whether driving a hub with this budget made a move, or may have.
fn has_moved(served: &Result<Driven, Refusal>, budget: u32) -> bool
    ensures { result ≡ false → (left : ℕ) × (served.now ≡ Ok (DrivenOf.Idle left)) × (budget ≤ left) }
{
    match served {
        Ok(Driven::Idle(left)) => *left < budget,
        Ok(Driven::Budget) => true,
        Err(_) => true,
    }
}

/// A hub makes moves as long as one is enabled, but at most `budget`, without a look at those that are skipped: they stay as they are.
fn take_in_all<N: Nodes<Item = O::Item> + Batches, O: Ops>(
    alloc: Global,
    ops: &O,
    hubs: &mut Vec<Hub<O::Item>>,
    feeds: &mut Vec<Feed<N>>,
    subscriptions: &mut Vec<Subscription<N, O::Item>>,
    skipped: &Skipped,
    signals: &mut Vec<Signal<O::Item>>,
    hub: HubId,
    at: Option<usize>,
    budget: u32,
) -> Result<Driven, Refusal>
    requires there { hub.0 < length hubs.old.items }
    requires place { spec.place_of feeds.old.items hub.0 ≡ at }
    requires unread { NoneReads N.Machine hub.0 skipped.now subscriptions.old.items }
    requires empty { signals.old.items ≡ [] }
    ensures hubs { length hubs.new.items ≡ length hubs.old.items }
    ensures feeds { length feeds.new.items ≡ length feeds.old.items }
    ensures subscriptions { length subscriptions.new.items ≡ length subscriptions.old.items }
    ensures served { HasServed N.Machine N.Nodes.own (O.meaning ops.now) hub.0 budget (rows_of hubs.old.items feeds.old.items subscriptions.old.items) result (rows_of hubs.new.items feeds.new.items subscriptions.new.items) }
    ensures none { IsHubQuiet N.Machine (O.meaning ops.now) (rows_of hubs.old.items feeds.old.items subscriptions.old.items) hub.0 →
        (rows_of hubs.new.items feeds.new.items subscriptions.new.items ≡ rows_of hubs.old.items feeds.old.items subscriptions.old.items) × IsOk result }
    ensures idle { (set : IdleSetOf) → ((i : ℕ) → IsIn set i → IsSkipped skipped.now i) → AreIdle N.Machine (O.meaning ops.now) set subscriptions.old.items → AreIdle N.Machine (O.meaning ops.now) set subscriptions.new.items }
    ensures empty { signals.new.items ≡ [] }
{
    let taken = take_in_many(
        alloc,
        ops,
        hubs,
        feeds,
        subscriptions,
        skipped,
        signals,
        hub,
        at,
        budget,
    );
    for made in taken..budget {
        match take_in_one(
            alloc,
            ops,
            hubs,
            feeds,
            subscriptions,
            skipped,
            signals,
            hub,
            at,
        ) {
            Ok(()) => {}
            Err(NotMade::NotEnabled) => return Ok(Driven::Idle(budget - made)),
            Err(NotMade::NoMemory) => return Err(Refusal::NoMemory),
        }
    }
    match is_awake(hubs, feeds, subscriptions, hub, at) {
        true => Ok(Driven::Budget),
        false => Ok(Driven::Idle(0)),
    }
}

/// A hub takes in many items at once, where it can, in at most `budget` moves, and without a look at those that are skipped: all that
/// waits in its inbox, or what its feed gives. It answers how many moves it made. The list for what is handed to its readers is empty
/// before and after.
fn take_in_many<N: Nodes<Item = O::Item> + Batches, O: Ops>(
    alloc: Global,
    ops: &O,
    hubs: &mut Vec<Hub<O::Item>>,
    feeds: &mut Vec<Feed<N>>,
    subscriptions: &mut Vec<Subscription<N, O::Item>>,
    skipped: &Skipped,
    signals: &mut Vec<Signal<O::Item>>,
    hub: HubId,
    at: Option<usize>,
    budget: u32,
) -> u32
    requires there { hub.0 < length hubs.old.items }
    requires place { spec.place_of feeds.old.items hub.0 ≡ at }
    requires unread { NoneReads N.Machine hub.0 skipped.now subscriptions.old.items }
    requires empty { signals.old.items ≡ [] }
    ensures hubs { length hubs.new.items ≡ length hubs.old.items }
    ensures feeds { length feeds.new.items ≡ length feeds.old.items }
    ensures subscriptions { length subscriptions.new.items ≡ length subscriptions.old.items }
    ensures made { LeadsBy (IsHubMovedOn N.Machine N.Nodes.own (O.meaning ops.now) hub.0) result (rows_of hubs.old.items feeds.old.items subscriptions.old.items) (rows_of hubs.new.items feeds.new.items subscriptions.new.items) }
    ensures awake { 0 < result → IsHubQuiet N.Machine (O.meaning ops.now) (rows_of hubs.old.items feeds.old.items subscriptions.old.items) hub.0 → ⊥ }
    ensures most { result ≤ budget }
    ensures empty { signals.new.items ≡ [] }
{
    match at {
        Some(at) => feed_many(
            alloc,
            ops,
            hubs,
            feeds,
            subscriptions,
            skipped,
            signals,
            hub,
            at,
            budget,
        ),
        None => {
            let mut items = Vec::new(alloc);
            accept_all(
                alloc,
                ops,
                hubs,
                feeds,
                subscriptions,
                hub,
                skipped,
                &mut items,
                budget,
            )
        }
    }
}

/// The feed with the index `at` sends what it can into its hub, where it is worth to send many items at once. Between two tries to do so
/// it makes a single move, since an item that waits on the way has to go first. It answers how many moves it made.
fn feed_many<N: Nodes<Item = O::Item> + Batches, O: Ops>(
    alloc: Global,
    ops: &O,
    hubs: &mut Vec<Hub<O::Item>>,
    feeds: &mut Vec<Feed<N>>,
    subscriptions: &mut Vec<Subscription<N, O::Item>>,
    skipped: &Skipped,
    signals: &mut Vec<Signal<O::Item>>,
    hub: HubId,
    at: usize,
    budget: u32,
) -> u32
    requires there { hub.0 < length hubs.old.items }
    requires place { spec.place_of feeds.old.items hub.0 ≡ Some at }
    requires unread { NoneReads N.Machine hub.0 skipped.now subscriptions.old.items }
    requires empty { signals.old.items ≡ [] }
    ensures hubs { length hubs.new.items ≡ length hubs.old.items }
    ensures feeds { length feeds.new.items ≡ length feeds.old.items }
    ensures subscriptions { length subscriptions.new.items ≡ length subscriptions.old.items }
    ensures made { LeadsBy (IsHubMovedOn N.Machine N.Nodes.own (O.meaning ops.now) hub.0) result (rows_of hubs.old.items feeds.old.items subscriptions.old.items) (rows_of hubs.new.items feeds.new.items subscriptions.new.items) }
    ensures awake { 0 < result → IsHubQuiet N.Machine (O.meaning ops.now) (rows_of hubs.old.items feeds.old.items subscriptions.old.items) hub.0 → ⊥ }
    ensures most { result ≤ budget }
    ensures empty { signals.new.items ≡ [] }
{
    let state = &hubs[hub.0 as usize];
    if !may_send_many(state, hub.0, feeds, at, subscriptions, skipped) {
        return 0;
    }
    let mut made = 0;
    let mut misses = 0;
    'rounds: while made < budget && misses < MOST_MISSES {
        match send_or_work(
            alloc,
            ops,
            hubs,
            feeds,
            subscriptions,
            skipped,
            signals,
            hub,
            at,
        ) {
            Ok(()) => made += 1,
            Err(_) => return made,
        }
        let many = send_many(
            alloc,
            ops,
            hubs,
            feeds,
            subscriptions,
            hub,
            at,
            skipped,
            budget - made,
        );
        made += many;
        misses = misses_after(many, misses);
    }
    made
}

/// How many tries failed one after the other, where the last one made so many moves. Behind one that made some, only one more may fail.
fn misses_after(moves: u32, before: u32) -> u32 {
    match moves {
        0 => before.saturating_add(1),
        _ => MOST_MISSES - 1,
    }
}

/// Makes a move of the feed with the index `at`: the Send by which its next signal goes into the hub, or where its root edge carries none
/// the first enabled move inside it.
///
/// # Errors
/// [`NotMade::NotEnabled`] where that isn't enabled, and [`NotMade::NoMemory`] where a growth was refused; nothing changed.
fn send_or_work<N: Nodes<Item = O::Item>, O: Ops>(
    alloc: Global,
    ops: &O,
    hubs: &mut Vec<Hub<O::Item>>,
    feeds: &mut Vec<Feed<N>>,
    subscriptions: &mut Vec<Subscription<N, O::Item>>,
    skipped: &Skipped,
    signals: &mut Vec<Signal<O::Item>>,
    hub: HubId,
    at: usize,
) -> Result<(), NotMade>
    requires there { hub.0 < length hubs.old.items }
    requires place { spec.place_of feeds.old.items hub.0 ≡ Some at }
    requires unread { NoneReads N.Machine hub.0 skipped.now subscriptions.old.items }
    requires empty { signals.old.items ≡ [] }
    ensures hubs { length hubs.new.items ≡ length hubs.old.items }
    ensures feeds { length feeds.new.items ≡ length feeds.old.items }
    ensures subscriptions { length subscriptions.new.items ≡ length subscriptions.old.items }
    ensures made { OnOk result (IsHubMoved N.Machine N.Nodes.own (O.meaning ops.now) hub.0 (rows_of hubs.old.items feeds.old.items subscriptions.old.items) (rows_of hubs.new.items feeds.new.items subscriptions.new.items)) }
    ensures same { OnErr result ((hubs.new.items ≡ hubs.old.items) × (feeds.new.items ≡ feeds.old.items) × (subscriptions.new.items ≡ subscriptions.old.items)) }
    ensures empty { signals.new.items ≡ [] }
{
    if let Some(_) = feeds[at].part.next_out() {
        return match send_from_feed(
            alloc,
            ops,
            hubs,
            feeds,
            subscriptions,
            hub,
            at,
            skipped,
            signals,
        ) {
            Ok(()) => Ok(()),
            Err(why) => Err(why),
        };
    }
    let Some(step) = feeds[at].first_work() else {
        return Err(NotMade::NotEnabled);
    };
    match work_in_feed(alloc, ops, feeds, hub, at, step) {
        Ok(()) => Ok(()),
        Err(why) => Err(why),
    }
}

/// Makes the first enabled move of a hub, without a look at those that are skipped. Of a hub with an emitter that takes the next signal of
/// its inbox in. Of one with a feed, which is that with the index `at`, it is the first move inside the feed, from the root down, or where
/// none is enabled there the Send by which the feed's next signal goes into the hub.
///
/// # Errors
/// [`NotMade::NotEnabled`] exactly where no move of the hub is enabled, and [`NotMade::NoMemory`] where a growth was refused; nothing
/// changed.
fn take_in_one<N: Nodes<Item = O::Item>, O: Ops>(
    alloc: Global,
    ops: &O,
    hubs: &mut Vec<Hub<O::Item>>,
    feeds: &mut Vec<Feed<N>>,
    subscriptions: &mut Vec<Subscription<N, O::Item>>,
    skipped: &Skipped,
    signals: &mut Vec<Signal<O::Item>>,
    hub: HubId,
    at: Option<usize>,
) -> Result<(), NotMade>
    requires there { hub.0 < length hubs.old.items }
    requires place { spec.place_of feeds.old.items hub.0 ≡ at }
    requires unread { NoneReads N.Machine hub.0 skipped.now subscriptions.old.items }
    requires empty { signals.old.items ≡ [] }
    ensures hubs { length hubs.new.items ≡ length hubs.old.items }
    ensures feeds { length feeds.new.items ≡ length feeds.old.items }
    ensures subscriptions { length subscriptions.new.items ≡ length subscriptions.old.items }
    ensures made { OnOk result (IsHubMoved N.Machine N.Nodes.own (O.meaning ops.now) hub.0 (rows_of hubs.old.items feeds.old.items subscriptions.old.items) (rows_of hubs.new.items feeds.new.items subscriptions.new.items)) }
    ensures err { IfErr result (IsHubMoveRefusal N.Machine (O.meaning ops.now) (rows_of hubs.old.items feeds.old.items subscriptions.old.items) hub.0) }
    ensures same { OnErr result ((hubs.new.items ≡ hubs.old.items) × (feeds.new.items ≡ feeds.old.items) × (subscriptions.new.items ≡ subscriptions.old.items)) }
    ensures empty { signals.new.items ≡ [] }
{
    let Some(at) = at else {
        return match accept_unfed(
            alloc,
            ops,
            hubs,
            feeds,
            subscriptions,
            hub,
            skipped,
            signals,
        ) {
            Ok(()) => Ok(()),
            Err(why) => Err(why),
        };
    };
    if let Some(step) = feeds[at].first_work() {
        return match work_in_feed(alloc, ops, feeds, hub, at, step) {
            Ok(()) => Ok(()),
            Err(_) => Err(NotMade::NoMemory),
        };
    }
    match send_from_feed(
        alloc,
        ops,
        hubs,
        feeds,
        subscriptions,
        hub,
        at,
        skipped,
        signals,
    ) {
        Ok(()) => Ok(()),
        Err(why) => Err(why),
    }
}

/// Whether a move of a hub is enabled: that by which it takes the next signal of its emitter in, or one of its feed, which is that with the
/// index `at`.
fn is_awake<N: Nodes<Item = T>, T: Drop>(
    hubs: &Vec<Hub<T>>,
    feeds: &Vec<Feed<N>>,
    subscriptions: &Vec<Subscription<N, T>>,
    hub: HubId,
    at: Option<usize>,
) -> bool
    requires there { hub.0 < length hubs.now.items }
    requires place { spec.place_of feeds.now.items hub.0 ≡ at }
    ensures yes { (m : Meaning T) → result ≡ true → IsAnyAwake N.Machine N.Nodes.own m (rows_of hubs.now.items feeds.now.items subscriptions.now.items) }
    ensures no { (m : Meaning T) → result ≡ false → IsHubQuiet N.Machine m (rows_of hubs.now.items feeds.now.items subscriptions.now.items) hub.0 }
{
    let state = &hubs[hub.0 as usize];
    let Some(at) = at else {
        return can_accept(u64::from(hub.0), state, feeds, subscriptions);
    };
    match feeds[at].first_work() {
        Some(_) => true,
        None => can_feed(at, state, feeds, subscriptions),
    }
}
