//! One thread drives a graph behind its gate.

ghost use Rattle.std.specs.Prelude.{◌≡◌, IfNone, IfSome};
ghost use Rattle.rsx_link.specs.Ends.{IsUpOf};
ghost use Rattle.rsx_runtime.specs.Emitting.{KeepsEmitter};
ghost use Rattle.rsx_runtime.specs.Poking.{IsAmong};
ghost use Rattle.rsx_runtime.specs.Tapping.{IsTapOf, KeepsTap};
ghost use Rattle.rsx_types.specs.declared.signal.Cause.TheVariants.{User};
ghost use Rattle.rsx_types.specs.declared.signal.Signal.TheVariants.{Complete, Error};
ghost use Rattle.rsx_serialized.specs.Calls.{IsAt};
ghost use Rattle.rsx_serialized.specs.Driven.{ChangesAt, Emits, Ends, HasNoEmitter, TapCancels, TapRequests, Takes};

use crate::serialized::SerializedGraph;
use crate::starting::StartedGraph;
use rsx_hub::Rejected;
use rsx_runtime::{Emitter, NotEnded, PokeAnswer, Tap};
use rsx_types::{HubId, Ops, Signal, SubId};
use std::alloc::Global;

/// Why an item was not published at a hub. The item comes back.
#[derive(Debug, Drop)]
pub enum NotPublished<T> {
    /// The hub has no emitter: there is no such hub, or a feed feeds it.
    NoEmitter(T),
    /// Its emitter rejected the item.
    Rejected(Rejected<T>),
}

/// Why an ending was not published at a hub.
#[derive(Clone, Copy, Debug, PartialEq, Eq)]
pub enum NoEnding {
    /// The hub has no emitter: there is no such hub, or a feed feeds it.
    NoEmitter,
    /// Its emitter refused the ending.
    Refused(NotEnded),
}

/// One thread may drive the graph by these calls alone. None of them waits, and but for [`StartedGraph::poke`] none takes memory.
impl<O: Ops> StartedGraph<O> {
    ghost use Rattle.std.specs.Prelude.{◌≡◌, ◌≤◌, ◌<◌, None, length};
    ghost use Rattle.rsx_runtime.specs.Poking.{Went};
    ghost use Rattle.rsx_types.specs.declared.signal.Cause.TheVariants.{User};
    ghost use Rattle.rsx_types.specs.declared.signal.Signal.TheVariants.{Complete, Error};
    ghost use Rattle.rsx_serialized.specs.Driven.{ChangesAt, IsEmitted, IsEnded, TapCancels, TapRequests, Takes};
    ghost use Rattle.rsx_serialized.specs.Started.{IsStarted};

    /// Works on the graph, as [`SerializedGraph::poke`] does, by the seat.
    pub fn poke(&mut self, alloc: Global, budget: u32) -> PokeAnswer
        requires { IsStarted self.old }
        ensures started { IsStarted self.new }
        ensures same { (self.new.graph ≡ self.old.graph) × (self.new.emitters ≡ self.old.emitters) × (self.new.taps ≡ self.old.taps) }
        ensures went { Went result self.old.seat.me.0.steps self.new.seat.me.0.steps }
        ensures parts { self.new.seat.me.0.parts ≡ self.old.seat.me.0.parts }
    {
        self.graph.poke(alloc, &mut self.seat, budget)
    }

    /// Publishes an item at this hub by its emitter, as [`SerializedGraph::emit`] does.
    ///
    /// # Errors
    /// The item comes back: [`NotPublished::NoEmitter`] exactly where the hub has no emitter, and else [`NotPublished::Rejected`] where
    /// its emitter rejected it.
    pub fn emit(&mut self, hub: HubId, item: O::Item) -> Result<(), NotPublished<O::Item>>
        requires { IsStarted self.old }
        ensures started { IsStarted self.new }
        ensures same { (self.new.graph ≡ self.old.graph) × (self.new.seat ≡ self.old.seat) × (self.new.taps ≡ self.old.taps) }
        ensures emitted { IsEmitted hub item result self.old.emitters.items self.new.emitters.items }
    {
        let Some(place) = emitter_of(&self.emitters, hub) else {
            return Err(NotPublished::NoEmitter(item));
        };
        match emit_at(&self.graph, &mut self.emitters, place, item) {
            Ok(()) => Ok(()),
            Err(why) => Err(NotPublished::Rejected(why)),
        }
    }

    /// Completes this hub by its emitter, as [`SerializedGraph::complete`] does.
    ///
    /// # Errors
    /// [`NoEnding::NoEmitter`] exactly where the hub has no emitter, and else [`NoEnding::Refused`] where its emitter refused.
    pub fn complete(&mut self, hub: HubId) -> Result<(), NoEnding>
        requires { IsStarted self.old }
        ensures started { IsStarted self.new }
        ensures same { (self.new.graph ≡ self.old.graph) × (self.new.seat ≡ self.old.seat) × (self.new.taps ≡ self.old.taps) }
        ensures ended { IsEnded hub Complete result self.old.emitters.items self.new.emitters.items }
    {
        let Some(place) = emitter_of(&self.emitters, hub) else {
            return Err(NoEnding::NoEmitter);
        };
        match complete_at(&self.graph, &mut self.emitters, place) {
            Ok(()) => Ok(()),
            Err(why) => Err(NoEnding::Refused(why)),
        }
    }

    /// Fails this hub with this number by its emitter, as [`SerializedGraph::fail`] does.
    ///
    /// # Errors
    /// As of [`StartedGraph::complete`].
    pub fn fail(&mut self, hub: HubId, number: u32) -> Result<(), NoEnding>
        requires { IsStarted self.old }
        ensures started { IsStarted self.new }
        ensures same { (self.new.graph ≡ self.old.graph) × (self.new.seat ≡ self.old.seat) × (self.new.taps ≡ self.old.taps) }
        ensures ended { IsEnded hub (Error (User number)) result self.old.emitters.items self.new.emitters.items }
    {
        let Some(place) = emitter_of(&self.emitters, hub) else {
            return Err(NoEnding::NoEmitter);
        };
        match fail_at(&self.graph, &mut self.emitters, place, number) {
            Ok(()) => Ok(()),
            Err(why) => Err(NoEnding::Refused(why)),
        }
    }

    /// Takes the next signal that was delivered to this subscription, if one waits, as [`SerializedGraph::take`] does. Where there is no
    /// such subscription, nothing happens.
    pub fn take(&mut self, sub: SubId) -> Option<Signal<O::Item>>
        requires { IsStarted self.old }
        ensures started { IsStarted self.new }
        ensures same { (self.new.graph ≡ self.old.graph) × (self.new.seat ≡ self.old.seat) × (self.new.emitters ≡ self.old.emitters) }
        ensures took { sub.0 < length self.old.taps.items → ChangesAt sub.0 self.old.taps.items self.new.taps.items (Takes result) }
        ensures none { length self.old.taps.items ≤ sub.0 → (result ≡ None) × (self.new ≡ self.old) }
    {
        let place = sub.0 as usize;
        if place >= self.taps.len() {
            return None;
        }
        take_at(&self.graph, &mut self.taps, place)
    }

    /// Requests so many items more for this subscription, as [`SerializedGraph::request`] does: a request of 0 or less is answered by its
    /// error. Where there is no such subscription, nothing happens.
    pub fn request(&mut self, sub: SubId, n: i64) -> Option<Signal<O::Item>>
        requires { IsStarted self.old }
        ensures started { IsStarted self.new }
        ensures same { (self.new.graph ≡ self.old.graph) × (self.new.seat ≡ self.old.seat) × (self.new.emitters ≡ self.old.emitters) }
        ensures requested { sub.0 < length self.old.taps.items → ChangesAt sub.0 self.old.taps.items self.new.taps.items (TapRequests n result) }
        ensures none { length self.old.taps.items ≤ sub.0 → (result ≡ None) × (self.new ≡ self.old) }
    {
        let place = sub.0 as usize;
        if place >= self.taps.len() {
            return None;
        }
        request_at(&self.graph, &mut self.taps, place, n)
    }

    /// Cancels this subscription, as [`SerializedGraph::cancel`] does. Where there is no such subscription, nothing happens.
    pub fn cancel(&mut self, sub: SubId)
        requires { IsStarted self.old }
        ensures started { IsStarted self.new }
        ensures same { (self.new.graph ≡ self.old.graph) × (self.new.seat ≡ self.old.seat) × (self.new.emitters ≡ self.old.emitters) }
        ensures cancelled { sub.0 < length self.old.taps.items → ChangesAt sub.0 self.old.taps.items self.new.taps.items TapCancels }
        ensures none { length self.old.taps.items ≤ sub.0 → self.new ≡ self.old }
    {
        let place = sub.0 as usize;
        if place >= self.taps.len() {
            return;
        }
        cancel_at(&self.graph, &mut self.taps, place);
    }
}

/// The place of the emitter of this hub.
fn emitter_of<T: Drop>(emitters: &[Emitter<T>], hub: HubId) -> Option<usize>
    ensures some { IfSome result (λ place. IsAmong emitters.now place (λ e. e.hub ≡ hub)) }
    ensures none { IfNone result (HasNoEmitter hub emitters.now) }
{
    for (place, emitter) in emitters.iter().enumerate() {
        if emitter.hub() == hub {
            return Some(place);
        }
    }
    None
}

/// Publishes an item by the emitter at this place.
///
/// # Errors
/// As of [`SerializedGraph::emit`].
fn emit_at<O: Ops>(
    graph: &SerializedGraph<O>,
    emitters: &mut Vec<Emitter<O::Item>>,
    place: usize,
    item: O::Item,
) -> Result<(), Rejected<O::Item>>
    requires { IsAmong emitters.old.items place (λ e. IsAt graph.now.links.emitters.items e.link (λ l. IsUpOf l e.up)) }
    ensures { ChangesAt place emitters.old.items emitters.new.items (λ was now. IsAt graph.now.links.emitters.items was.link (λ l. KeepsEmitter l was now) × Emits item result was now) }
{
    graph.emit(&mut emitters[place], item)
}

/// Completes by the emitter at this place.
///
/// # Errors
/// As of [`SerializedGraph::complete`].
fn complete_at<O: Ops>(
    graph: &SerializedGraph<O>,
    emitters: &mut Vec<Emitter<O::Item>>,
    place: usize,
) -> Result<(), NotEnded>
    requires { IsAmong emitters.old.items place (λ e. IsAt graph.now.links.emitters.items e.link (λ l. IsUpOf l e.up)) }
    ensures { ChangesAt place emitters.old.items emitters.new.items (λ was now. IsAt graph.now.links.emitters.items was.link (λ l. KeepsEmitter l was now) × Ends Complete result was now) }
{
    graph.complete(&mut emitters[place])
}

/// Fails with this number by the emitter at this place.
///
/// # Errors
/// As of [`SerializedGraph::fail`].
fn fail_at<O: Ops>(
    graph: &SerializedGraph<O>,
    emitters: &mut Vec<Emitter<O::Item>>,
    place: usize,
    number: u32,
) -> Result<(), NotEnded>
    requires { IsAmong emitters.old.items place (λ e. IsAt graph.now.links.emitters.items e.link (λ l. IsUpOf l e.up)) }
    ensures { ChangesAt place emitters.old.items emitters.new.items (λ was now. IsAt graph.now.links.emitters.items was.link (λ l. KeepsEmitter l was now) × Ends (Error (User number)) result was now) }
{
    graph.fail(&mut emitters[place], number)
}

/// Takes the next signal by the tap at this place.
fn take_at<O: Ops>(
    graph: &SerializedGraph<O>,
    taps: &mut Vec<Tap<O::Item>>,
    place: usize,
) -> Option<Signal<O::Item>>
    requires { IsAmong taps.old.items place (λ t. IsAt graph.now.links.taps.items t.link (λ l. IsTapOf l t)) }
    ensures { ChangesAt place taps.old.items taps.new.items (λ was now. IsAt graph.now.links.taps.items was.link (λ l. KeepsTap l was now) × Takes result was now) }
{
    graph.take(&mut taps[place])
}

/// Requests so many items more by the tap at this place.
fn request_at<O: Ops>(
    graph: &SerializedGraph<O>,
    taps: &mut Vec<Tap<O::Item>>,
    place: usize,
    n: i64,
) -> Option<Signal<O::Item>>
    requires { IsAmong taps.old.items place (λ t. IsAt graph.now.links.taps.items t.link (λ l. IsTapOf l t)) }
    ensures { ChangesAt place taps.old.items taps.new.items (λ was now. IsAt graph.now.links.taps.items was.link (λ l. KeepsTap l was now) × TapRequests n result was now) }
{
    graph.request(&mut taps[place], n)
}

/// Cancels by the tap at this place.
fn cancel_at<O: Ops>(graph: &SerializedGraph<O>, taps: &mut Vec<Tap<O::Item>>, place: usize)
    requires { IsAmong taps.old.items place (λ t. IsAt graph.now.links.taps.items t.link (λ l. IsTapOf l t)) }
    ensures { ChangesAt place taps.old.items taps.new.items (λ was now. IsAt graph.now.links.taps.items was.link (λ l. KeepsTap l was now) × TapCancels was now) }
{
    graph.cancel(&mut taps[place]);
}
