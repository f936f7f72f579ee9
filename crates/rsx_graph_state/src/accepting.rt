//! Hubs with emitters take in what waits in their inboxes.

ghost use Rattle.std.specs.Prelude.{◌≡◌, ◌<◌, [], None, length, true, OnOk, OnErr, IfErr};
ghost use Rattle.rsx_types.specs.Meaning.{Meaning};
ghost use Rattle.rsx_sources.specs.Steps.{IsNotMade};
ghost use Rattle.rsx_graph_state.specs.Answers.{IsAcceptRefusal};
ghost use Rattle.rsx_graph_state.specs.History.{History, with_accepted};
ghost use Rattle.rsx_graph_state.specs.Moves.{IsAcceptedAt, accepts_at, rows_of};
ghost use Rattle.rsx_graph_state.specs.Stands as spec;
ghost use Rattle.rsx_graph_state.specs.Stands.{StandsFor};
ghost use Rattle.rsx_graph_state.specs.SubscriptionSet.{NoneReads};

use crate::feeds::place_of;
use crate::{Feed, Refusal, Skipped, publishing};
use rsx_hub::Hub;
use rsx_pipe::Nodes;
use rsx_sources::NotMade;
use rsx_subscriber::Subscription;
use rsx_types::{HubId, Ops, Signal};
use std::alloc::Global;

/// The hub with this number, which has an emitter, takes the signal in that waits in front of its inbox, and each node of a feed
/// or a subscription that reads the hub gets it.
///
/// # Errors
/// [`Refusal::UnknownHub`] for a hub that isn't there, else [`Refusal::NotEnabled`] exactly where the hub has a feed, or no signal
/// waits, or an item does and some node that reads the hub has no room for it, and [`Refusal::NoMemory`] where a growth was
/// refused; nothing changed.
pub fn accept<N: Nodes<Item = O::Item>, O: Ops>(
    alloc: Global,
    ops: &O,
    hubs: &mut Vec<Hub<O::Item>>,
    feeds: &mut Vec<Feed<N>>,
    subscriptions: &mut Vec<Subscription<N, O::Item>>,
    hub: HubId,
) -> Result<(), Refusal>
    ensures hubs { length hubs.new.items ≡ length hubs.old.items }
    ensures feeds { length feeds.new.items ≡ length feeds.old.items }
    ensures subscriptions { length subscriptions.new.items ≡ length subscriptions.old.items }
    ensures stands { OnOk result ((m : Meaning O.Item) (h : History O.Item) →
        StandsFor N.Machine m (rows_of hubs.old.items feeds.old.items subscriptions.old.items) h →
        StandsFor N.Machine m (rows_of hubs.new.items feeds.new.items subscriptions.new.items) (with_accepted hub h)) }
    ensures effect { OnOk result (IsAcceptedAt N.Machine hub.0 (rows_of hubs.old.items feeds.old.items subscriptions.old.items) (rows_of hubs.new.items feeds.new.items subscriptions.new.items)) }
    ensures enabled { OnOk result (accepts_at N.Machine (rows_of hubs.old.items feeds.old.items subscriptions.old.items) hub.0 ≡ true) }
    ensures err { IfErr result (IsAcceptRefusal (length hubs.old.items) (accepts_at N.Machine (rows_of hubs.old.items feeds.old.items subscriptions.old.items) hub.0) hub.0) }
    ensures same { OnErr result ((hubs.new.items ≡ hubs.old.items) × (feeds.new.items ≡ feeds.old.items) × (subscriptions.new.items ≡ subscriptions.old.items)) }
{
    if hub.0 as usize >= hubs.len() {
        return Err(Refusal::UnknownHub);
    }
    if let Some(_) = place_of(feeds, hub.0) {
        return Err(Refusal::NotEnabled);
    }
    match accept_once(alloc, ops, hubs, feeds, subscriptions, hub) {
        Ok(()) => Ok(()),
        Err(NotMade::NotEnabled) => Err(Refusal::NotEnabled),
        Err(NotMade::NoMemory) => Err(Refusal::NoMemory),
    }
}

/// The same at a hub that is there and has no feed. It looks at no subscription that is skipped. The list, in which the signal stands
/// once for each node that gets it in between, is empty before and after; used again, it takes no memory.
///
/// # Errors
/// [`NotMade::NotEnabled`] exactly where no signal waits, or an item does and some node that reads the hub has no room for it, and
/// [`NotMade::NoMemory`] where a growth was refused; nothing changed.
pub fn accept_unfed<N: Nodes<Item = O::Item>, O: Ops>(
    alloc: Global,
    ops: &O,
    hubs: &mut Vec<Hub<O::Item>>,
    feeds: &mut Vec<Feed<N>>,
    subscriptions: &mut Vec<Subscription<N, O::Item>>,
    hub: HubId,
    skipped: &Skipped,
    signals: &mut Vec<Signal<O::Item>>,
) -> Result<(), NotMade>
    requires there { hub.0 < length hubs.old.items }
    requires unfed { spec.feed_of feeds.old.items hub.0 ≡ None }
    requires unread { NoneReads N.Machine hub.0 skipped.now subscriptions.old.items }
    requires empty { signals.old.items ≡ [] }
    ensures hubs { length hubs.new.items ≡ length hubs.old.items }
    ensures feeds { length feeds.new.items ≡ length feeds.old.items }
    ensures subscriptions { length subscriptions.new.items ≡ length subscriptions.old.items }
    ensures effect { OnOk result (IsAcceptedAt N.Machine hub.0 (rows_of hubs.old.items feeds.old.items subscriptions.old.items) (rows_of hubs.new.items feeds.new.items subscriptions.new.items)) }
    ensures enabled { OnOk result (accepts_at N.Machine (rows_of hubs.old.items feeds.old.items subscriptions.old.items) hub.0 ≡ true) }
    ensures err { IfErr result (IsNotMade (accepts_at N.Machine (rows_of hubs.old.items feeds.old.items subscriptions.old.items) hub.0)) }
    ensures same { OnErr result ((hubs.new.items ≡ hubs.old.items) × (feeds.new.items ≡ feeds.old.items) × (subscriptions.new.items ≡ subscriptions.old.items)) }
    ensures empty { signals.new.items ≡ [] }
{
    match publishing::accept(
        alloc,
        ops,
        &mut hubs[hub.0 as usize],
        hub.0,
        feeds,
        subscriptions,
        skipped,
        signals,
    ) {
        Ok(()) => Ok(()),
        Err(why) => Err(why),
    }
}

/// The same, where nothing is skipped, with a list of its own.
fn accept_once<N: Nodes<Item = O::Item>, O: Ops>(
    alloc: Global,
    ops: &O,
    hubs: &mut Vec<Hub<O::Item>>,
    feeds: &mut Vec<Feed<N>>,
    subscriptions: &mut Vec<Subscription<N, O::Item>>,
    hub: HubId,
) -> Result<(), NotMade>
    requires there { hub.0 < length hubs.old.items }
    requires unfed { spec.feed_of feeds.old.items hub.0 ≡ None }
    ensures hubs { length hubs.new.items ≡ length hubs.old.items }
    ensures feeds { length feeds.new.items ≡ length feeds.old.items }
    ensures subscriptions { length subscriptions.new.items ≡ length subscriptions.old.items }
    ensures effect { OnOk result (IsAcceptedAt N.Machine hub.0 (rows_of hubs.old.items feeds.old.items subscriptions.old.items) (rows_of hubs.new.items feeds.new.items subscriptions.new.items)) }
    ensures enabled { OnOk result (accepts_at N.Machine (rows_of hubs.old.items feeds.old.items subscriptions.old.items) hub.0 ≡ true) }
    ensures err { IfErr result (IsNotMade (accepts_at N.Machine (rows_of hubs.old.items feeds.old.items subscriptions.old.items) hub.0)) }
    ensures same { OnErr result ((hubs.new.items ≡ hubs.old.items) × (feeds.new.items ≡ feeds.old.items) × (subscriptions.new.items ≡ subscriptions.old.items)) }
{
    let mut signals = Vec::new(alloc);
    accept_unfed(
        alloc,
        ops,
        hubs,
        feeds,
        subscriptions,
        hub,
        &Skipped::none(),
        &mut signals,
    )
}
