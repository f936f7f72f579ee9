//! The emitter of a hub of a live graph.

ghost use Rattle.std.specs.Prelude.{◌≡◌, false, true};
ghost use Rattle.rsx_link.specs.Ends.{sent_signals};
ghost use Rattle.rsx_runtime.specs.Ordered.{is_orderly, is_unended};

use crate::live::Live;
use rsx_hub::Rejected;
use rsx_link::{Link, Up};
use rsx_pipe::Nodes;
use rsx_types::{Cause, HubId, Ops, Signal};

/// Why an ending was not sent.
#[derive(Clone, Copy, Debug, PartialEq, Eq)]
pub enum NotEnded {
    /// The hub has ended.
    Ended,
    /// The queue has no room for a signal now. The call may be tried again.
    Full,
}

/// The emitter of a hub of a live graph: a thread publishes by it at the hub. What it sends waits in a queue until the hub's region
/// is worked on.
///
/// Of each one it is known that nothing was sent behind an ending (rule 1.7).
#[derive(Drop)]
pub struct Emitter<T> {
    hub: HubId,
    // The number of its link.
    link: u32,
    up: Up<T>,
    // Whether the hub has ended, as far as it was ended by an emitter.
    ended: bool,
    pub ghost open: { ended ≡ false → is_unended (sent_signals up) ≡ true },
    pub ghost orderly: { is_orderly (sent_signals up) ≡ true },
}

impl<T: Drop> Emitter<T> {
    ghost use Rattle.std.specs.Prelude.{◌≡◌, ◌<◌, ◌∷◌, ◌++◌, [], IfErr, IsOk, OnErr, OnOk};
    ghost use Rattle.rsx_types.specs.declared.signal.Signal.TheVariants.{Complete, Error, Next};
    ghost use Rattle.rsx_types.specs.declared.signal.Cause.TheVariants.{User};
    ghost use Rattle.rsx_link.specs.Ends.{IsUpOf, free_slots, items_sent, seen_total};
    ghost use Rattle.rsx_region.specs.Pieces.{IsAt};
    ghost use Rattle.rsx_runtime.specs.Emitting.{IsItemRefused, IsEndingRefused, KeepsEmitter};

    /// The emitter of this hub, over the link with this number, whose sending end this is. `ended` says whether the hub has ended.
    pub fn new(hub: HubId, link: u32, up: Up<T>, ended: bool) -> Emitter<T>
        requires { sent_signals up ≡ [] }
        ensures { (result.hub ≡ hub) × (result.link ≡ link) × (result.up ≡ up) × (result.ended ≡ ended) }
    {
        Emitter {
            hub,
            link,
            up,
            ended,
        }
    }

    /// The hub at which it publishes.
    pub fn hub(&self) -> HubId
        ensures { result ≡ self.now.hub }
    {
        self.hub
    }

    /// The number of its link.
    pub fn link(&self) -> u32
        ensures { result ≡ self.now.link }
    {
        self.link
    }

    /// Its end, for who closes its link. It takes no memory.
    pub fn into_end(self) -> Up<T>
        ensures { result ≡ self.up }
    {
        self.up
    }

    /// Publishes an item at the hub. It waits in the emitter's queue until the hub's region is worked on. No call waits, and none takes
    /// memory.
    ///
    /// # Errors
    /// The item comes back, and nothing was sent, for the first of these reasons:
    /// - [`Rejected::Ended`] where the hub has ended.
    /// - [`Rejected::TooMany`] where it has accepted 2^63 - 1 items.
    /// - [`Rejected::Full`] where the queue has no room now. The call may be tried again.
    pub fn emit<N: Nodes<Item = T>, O: Ops<Item = T>>(
        &mut self,
        live: &Live<N, T, O>,
        item: T,
    ) -> Result<(), Rejected<T>>
        requires { IsAt live.now.links.items self.old.link (λ l. IsUpOf l self.old.up) }
        ensures end { IsAt live.now.links.items self.old.link (λ l. KeepsEmitter l self.old self.new) }
        ensures ok { OnOk result (sent_signals self.new.up ≡ sent_signals self.old.up ++ Next item ∷ []) }
        ensures enabled { OnOk result ((self.old.ended ≡ false) × (items_sent self.old.up < seen_total self.old.up)) }
        ensures open { self.new.ended ≡ self.old.ended }
        ensures same { OnErr result (sent_signals self.new.up ≡ sent_signals self.old.up) }
        ensures err { IfErr result (IsItemRefused self.old item self.new) }
        ensures succeeds { 0 < free_slots self.old.up → self.old.ended ≡ false → items_sent self.old.up < seen_total self.old.up → IsOk result }
    {
        self.emit_over(live.link(self.link), item)
    }

    /// Completes the hub, behind the items that were published at it. No call waits, and none takes memory.
    ///
    /// # Errors
    /// Nothing was sent: [`NotEnded::Ended`] where the hub has ended, and else [`NotEnded::Full`] where the queue has no room now. The
    /// call may be tried again then.
    pub fn complete<N: Nodes<Item = T>, O: Ops<Item = T>>(
        &mut self,
        live: &Live<N, T, O>,
    ) -> Result<(), NotEnded>
        requires { IsAt live.now.links.items self.old.link (λ l. IsUpOf l self.old.up) }
        ensures end { IsAt live.now.links.items self.old.link (λ l. KeepsEmitter l self.old self.new) }
        ensures ok { OnOk result ((sent_signals self.new.up ≡ sent_signals self.old.up ++ Complete ∷ []) × (self.new.ended ≡ true)) }
        ensures enabled { OnOk result (self.old.ended ≡ false) }
        ensures same { OnErr result ((sent_signals self.new.up ≡ sent_signals self.old.up) × (self.new.ended ≡ self.old.ended)) }
        ensures err { IfErr result (IsEndingRefused self.old self.new) }
        ensures succeeds { 0 < free_slots self.old.up → self.old.ended ≡ false → IsOk result }
    {
        self.complete_over(live.link(self.link))
    }

    /// Fails the hub with this number, behind the items that were published at it. No call waits, and none takes memory.
    ///
    /// # Errors
    /// As of [`Emitter::complete`].
    pub fn fail<N: Nodes<Item = T>, O: Ops<Item = T>>(
        &mut self,
        live: &Live<N, T, O>,
        number: u32,
    ) -> Result<(), NotEnded>
        requires { IsAt live.now.links.items self.old.link (λ l. IsUpOf l self.old.up) }
        ensures end { IsAt live.now.links.items self.old.link (λ l. KeepsEmitter l self.old self.new) }
        ensures ok { OnOk result ((sent_signals self.new.up ≡ sent_signals self.old.up ++ Error (User number) ∷ []) × (self.new.ended ≡ true)) }
        ensures enabled { OnOk result (self.old.ended ≡ false) }
        ensures same { OnErr result ((sent_signals self.new.up ≡ sent_signals self.old.up) × (self.new.ended ≡ self.old.ended)) }
        ensures err { IfErr result (IsEndingRefused self.old self.new) }
        ensures succeeds { 0 < free_slots self.old.up → self.old.ended ≡ false → IsOk result }
    {
        self.fail_over(live.link(self.link), number)
    }

    /// Publishes an item as [`Emitter::emit`] does, over its link.
    ///
    /// # Errors
    /// As of [`Emitter::emit`].
    pub fn emit_over(&mut self, link: &Link<T>, item: T) -> Result<(), Rejected<T>>
        requires { IsUpOf link.now self.old.up }
        ensures end { KeepsEmitter link.now self.old self.new }
        ensures ok { OnOk result (sent_signals self.new.up ≡ sent_signals self.old.up ++ Next item ∷ []) }
        ensures enabled { OnOk result ((self.old.ended ≡ false) × (items_sent self.old.up < seen_total self.old.up)) }
        ensures open { self.new.ended ≡ self.old.ended }
        ensures same { OnErr result (sent_signals self.new.up ≡ sent_signals self.old.up) }
        ensures err { IfErr result (IsItemRefused self.old item self.new) }
        ensures succeeds { 0 < free_slots self.old.up → self.old.ended ≡ false → items_sent self.old.up < seen_total self.old.up → IsOk result }
    {
        if self.ended {
            return Err(Rejected::Ended(item));
        }
        if self.up.room() == 0 {
            return Err(Rejected::TooMany(item));
        }
        match self.up.send(link, Signal::Next(item)) {
            Ok(()) => Ok(()),
            Err(Signal::Next(item)) => Err(Rejected::Full(item)),
            // Another signal than the one that was sent never comes back.
            Err(Signal::Complete | Signal::Error(_)) => Ok(()),
        }
    }

    /// Completes the hub as [`Emitter::complete`] does, over its link.
    ///
    /// # Errors
    /// As of [`Emitter::complete`].
    pub fn complete_over(&mut self, link: &Link<T>) -> Result<(), NotEnded>
        requires { IsUpOf link.now self.old.up }
        ensures end { KeepsEmitter link.now self.old self.new }
        ensures ok { OnOk result ((sent_signals self.new.up ≡ sent_signals self.old.up ++ Complete ∷ []) × (self.new.ended ≡ true)) }
        ensures enabled { OnOk result (self.old.ended ≡ false) }
        ensures same { OnErr result ((sent_signals self.new.up ≡ sent_signals self.old.up) × (self.new.ended ≡ self.old.ended)) }
        ensures err { IfErr result (IsEndingRefused self.old self.new) }
        ensures succeeds { 0 < free_slots self.old.up → self.old.ended ≡ false → IsOk result }
    {
        if self.ended {
            return Err(NotEnded::Ended);
        }
        match self.up.send(link, Signal::Complete) {
            Ok(()) => {
                self.ended = true;
                Ok(())
            }
            Err(_) => Err(NotEnded::Full),
        }
    }

    /// Fails the hub with this number as [`Emitter::fail`] does, over its link.
    ///
    /// # Errors
    /// As of [`Emitter::complete`].
    pub fn fail_over(&mut self, link: &Link<T>, number: u32) -> Result<(), NotEnded>
        requires { IsUpOf link.now self.old.up }
        ensures end { KeepsEmitter link.now self.old self.new }
        ensures ok { OnOk result ((sent_signals self.new.up ≡ sent_signals self.old.up ++ Error (User number) ∷ []) × (self.new.ended ≡ true)) }
        ensures enabled { OnOk result (self.old.ended ≡ false) }
        ensures same { OnErr result ((sent_signals self.new.up ≡ sent_signals self.old.up) × (self.new.ended ≡ self.old.ended)) }
        ensures err { IfErr result (IsEndingRefused self.old self.new) }
        ensures succeeds { 0 < free_slots self.old.up → self.old.ended ≡ false → IsOk result }
    {
        if self.ended {
            return Err(NotEnded::Ended);
        }
        match self.up.send(link, Signal::Error(Cause::User(number))) {
            Ok(()) => {
                self.ended = true;
                Ok(())
            }
            Err(_) => Err(NotEnded::Full),
        }
    }
}
