//! What a program publishes at hubs with emitters.

ghost use Rattle.std.specs.Prelude.{◌≡◌, ◌<◌, None, length, true, OnOk, OnErr, IfErr};
ghost use Rattle.rsx_types.specs.declared.signal.Cause.TheVariants.{User};
ghost use Rattle.rsx_types.specs.declared.signal.Ending.TheVariants.{Done, Failed};
ghost use Rattle.rsx_graph_state.specs.Hubs.{IsEmittedAt, IsEndedAt};
ghost use Rattle.rsx_graph_state.specs.Stands.{feed_of};
ghost use Rattle.rsx_graph_calls.specs.Publishes as spec;
ghost use Rattle.rsx_graph_calls.specs.Publishes.{IsCopyRefusal, IsEmitRefusal, IsEndRefusal};

use crate::feeds::place_of;
use rsx_graph_state::{Feed, Refusal};
use rsx_hub::{HasEnded, Hub, Rejected};
use rsx_types::{HubId, NoMemory, Ops};
use std::alloc::Global;

/// An item that a hub did not accept, and why. By `?` the refusal alone goes on.
#[derive(Debug, Drop)]
pub struct NotEmitted<T> {
    /// Why it was not accepted.
    pub refusal: Refusal,
    /// The item, which comes back.
    pub item: T,
}

impl<T: Drop> From<NotEmitted<T>> for Refusal {
    /// Why it was not accepted; the item is let go.
    fn from(back: NotEmitted<T>) -> Refusal
        ensures { result ≡ back.refusal }
    {
        back.refusal
    }
}

/// Publishes an item at a hub with an emitter: it waits in the hub's inbox, behind the others, until the hub takes it in. The other
/// hubs stay, and so do the feeds and the subscriptions. It takes no memory.
///
/// # Errors
/// The item comes back, and nothing changed: G1 exactly where there is no such hub or it has a feed, else G3 exactly where it has
/// ended (rule 1.7), else G5 exactly where it has accepted 2^63 - 1 items, else G4 exactly where its inbox holds as many items as
/// its capacity, or more.
pub fn emit<N, T: Drop>(
    hubs: &mut Vec<Hub<T>>,
    feeds: &Vec<Feed<N>>,
    hub: HubId,
    item: T,
) -> Result<(), NotEmitted<T>>
    ensures effect { OnOk result (IsEmittedAt hub.0 item hubs.old.items hubs.new.items) }
    ensures known { OnOk result (spec.has_emitter hubs.old.items feeds.now.items hub.0 ≡ true) }
    ensures item { IfErr result (λ e. e.item ≡ item) }
    ensures err { IfErr result (λ e. IsEmitRefusal hubs.old.items feeds.now.items hub.0 e.refusal) }
    ensures same { OnErr result (hubs.new.items ≡ hubs.old.items) }
{
    if !has_emitter(hubs, feeds, hub) {
        return Err(NotEmitted {
            refusal: Refusal::UnknownHub,
            item,
        });
    }
    match hubs[hub.0 as usize].emit(item) {
        Ok(()) => Ok(()),
        Err(Rejected::Ended(item)) => Err(NotEmitted {
            refusal: Refusal::Ended,
            item,
        }),
        Err(Rejected::TooMany(item)) => Err(NotEmitted {
            refusal: Refusal::TooMany,
            item,
        }),
        Err(Rejected::Full(item)) => Err(NotEmitted {
            refusal: Refusal::Full,
            item,
        }),
    }
}

/// Publishes a copy of an item, as [`emit`] does.
///
/// # Errors
/// Those of [`emit`], in its cases, where the copy is made: [`Refusal::NoMemory`] where it was refused, at a hub that is there and
/// has an emitter. Nothing changed.
pub fn emit_copy<N, O: Ops>(
    alloc: Global,
    ops: &O,
    hubs: &mut Vec<Hub<O::Item>>,
    feeds: &Vec<Feed<N>>,
    hub: HubId,
    item: &O::Item,
) -> Result<(), Refusal>
    ensures effect { OnOk result (IsEmittedAt hub.0 item.now hubs.old.items hubs.new.items) }
    ensures known { OnOk result (spec.has_emitter hubs.old.items feeds.now.items hub.0 ≡ true) }
    ensures err { IfErr result (λ r. IsCopyRefusal hubs.old.items feeds.now.items hub.0 r) }
    ensures same { OnErr result (hubs.new.items ≡ hubs.old.items) }
{
    if !has_emitter(hubs, feeds, hub) {
        return Err(Refusal::UnknownHub);
    }
    let copy = match ops.copy(alloc, item) {
        Ok(copy) => copy,
        Err(NoMemory) => return Err(Refusal::NoMemory),
    };
    match emit(hubs, feeds, hub, copy) {
        Ok(()) => Ok(()),
        Err(back) => Err(back.refusal),
    }
}

/// Completes a hub with an emitter: its completion waits behind the items of its inbox (rule 1.5). The other hubs stay, and so do
/// the feeds and the subscriptions. It takes no memory.
///
/// # Errors
/// G1 exactly where there is no such hub or it has a feed, else G3 exactly where it has ended (rule 1.7); nothing changed.
pub fn complete<N, T: Drop>(
    hubs: &mut Vec<Hub<T>>,
    feeds: &Vec<Feed<N>>,
    hub: HubId,
) -> Result<(), Refusal>
    ensures effect { OnOk result (IsEndedAt hub.0 Done hubs.old.items hubs.new.items) }
    ensures known { OnOk result (spec.has_emitter hubs.old.items feeds.now.items hub.0 ≡ true) }
    ensures err { IfErr result (λ r. IsEndRefusal hubs.old.items feeds.now.items hub.0 r) }
    ensures same { OnErr result (hubs.new.items ≡ hubs.old.items) }
{
    if !has_emitter(hubs, feeds, hub) {
        return Err(Refusal::UnknownHub);
    }
    match hubs[hub.0 as usize].complete() {
        Ok(()) => Ok(()),
        Err(HasEnded) => Err(Refusal::Ended),
    }
}

/// Fails a hub with an emitter with this number: its failure waits behind the items of its inbox (rule 1.4). The other hubs stay,
/// and so do the feeds and the subscriptions. It takes no memory.
///
/// # Errors
/// G1 exactly where there is no such hub or it has a feed, else G3 exactly where it has ended (rule 1.7); nothing changed.
pub fn fail<N, T: Drop>(
    hubs: &mut Vec<Hub<T>>,
    feeds: &Vec<Feed<N>>,
    hub: HubId,
    number: u32,
) -> Result<(), Refusal>
    ensures effect { OnOk result (IsEndedAt hub.0 (Failed (User number)) hubs.old.items hubs.new.items) }
    ensures known { OnOk result (spec.has_emitter hubs.old.items feeds.now.items hub.0 ≡ true) }
    ensures err { IfErr result (λ r. IsEndRefusal hubs.old.items feeds.now.items hub.0 r) }
    ensures same { OnErr result (hubs.new.items ≡ hubs.old.items) }
{
    if !has_emitter(hubs, feeds, hub) {
        return Err(Refusal::UnknownHub);
    }
    match hubs[hub.0 as usize].fail(number) {
        Ok(()) => Ok(()),
        Err(HasEnded) => Err(Refusal::Ended),
    }
}

/// Whether the hub with this number is there, and has no feed.
fn has_emitter<N, T: Drop>(hubs: &Vec<Hub<T>>, feeds: &Vec<Feed<N>>, hub: HubId) -> bool
    ensures is { result ≡ spec.has_emitter hubs.now.items feeds.now.items hub.0 }
    ensures there { result ≡ true → hub.0 < length hubs.now.items }
    ensures unfed { result ≡ true → feed_of feeds.now.items hub.0 ≡ None }
{
    if hub.0 as usize >= hubs.len() {
        return false;
    }
    match place_of(feeds, hub.0) {
        Some(_) => false,
        None => true,
    }
}
