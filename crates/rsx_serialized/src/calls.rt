//! What the threads do that publish, request, take and cancel: each call is one of an emitter or a tap, over its link.

ghost use Rattle.std.specs.Prelude.{◌≡◌, ⊤, Some, slice_get};
ghost use Rattle.rsx_serialized.specs.Calls.{IsAt};

use crate::serialized::SerializedGraph;
use rsx_hub::Rejected;
use rsx_link::Link;
use rsx_runtime::{Canceller, Emitter, NotEnded, Tap};
use rsx_types::{Ops, Signal};

impl<O: Ops> SerializedGraph<O> {
    ghost use Rattle.std.specs.Prelude.{◌≡◌, ◌<◌, ◌≤◌, ◌∷◌, ◌++◌, [], false, true, IfErr, IfNone, IfSome, IsOk, None, OnErr, OnOk};
    ghost use Rattle.rsx_types.specs.declared.signal.Signal.TheVariants.{Complete, Error, Next};
    ghost use Rattle.rsx_types.specs.declared.signal.Cause.TheVariants.{User};
    ghost use Rattle.rsx_link.specs.Ends.{AreHalves, Cancels, IsCancelSeatOf, IsUpOf, KeepsParts, KeepsSteps, Requests, Waits, asked_total, cancel_beside, cancel_parts, cancel_steps, down_steps, free_slots, items_sent, items_taken, queued, seen_total, sent_signals};
    ghost use Rattle.rsx_link.specs.Signals.{request_of};
    ghost use Rattle.rsx_runtime.specs.Emitting.{IsEndingRefused, IsItemRefused, KeepsEmitter};
    ghost use Rattle.rsx_runtime.specs.Standing.{asks, cancelled_state, gives, requested_state, signals_of, taken_state};
    ghost use Rattle.rsx_runtime.specs.Tapping.{IsTapOf, KeepsTap, SameSeat, given};

    /// The link of the emitter with this number.
    fn emitter_link(&self, number: u32) -> &Link<O::Item>
        requires { IsAt self.now.links.emitters.items number (λ l. ⊤) }
        ensures { slice_get self.now.links.emitters.items number ≡ Some result.now }
    {
        &self.links.emitters[number as usize]
    }

    /// The link of the tap with this number.
    fn tap_link(&self, number: u32) -> &Link<O::Item>
        requires { IsAt self.now.links.taps.items number (λ l. ⊤) }
        ensures { slice_get self.now.links.taps.items number ≡ Some result.now }
    {
        &self.links.taps[number as usize]
    }

    /// Publishes an item at the hub of an emitter, as [`Emitter::emit`] does: it waits in the emitter's queue until someone pokes the graph.
    ///
    /// # Errors
    /// As of [`Emitter::emit`].
    pub fn emit(
        &self,
        emitter: &mut Emitter<O::Item>,
        item: O::Item,
    ) -> Result<(), Rejected<O::Item>>
        requires { IsAt self.now.links.emitters.items emitter.old.link (λ l. IsUpOf l emitter.old.up) }
        ensures end { IsAt self.now.links.emitters.items emitter.old.link (λ l. KeepsEmitter l emitter.old emitter.new) }
        ensures ok { OnOk result (sent_signals emitter.new.up ≡ sent_signals emitter.old.up ++ Next item ∷ []) }
        ensures enabled { OnOk result ((emitter.old.ended ≡ false) × (items_sent emitter.old.up < seen_total emitter.old.up)) }
        ensures open { emitter.new.ended ≡ emitter.old.ended }
        ensures same { OnErr result (sent_signals emitter.new.up ≡ sent_signals emitter.old.up) }
        ensures err { IfErr result (IsItemRefused emitter.old item emitter.new) }
        ensures succeeds { 0 < free_slots emitter.old.up → emitter.old.ended ≡ false → items_sent emitter.old.up < seen_total emitter.old.up → IsOk result }
    {
        let link = self.emitter_link(emitter.link());
        emitter.emit_over(link, item)
    }

    /// Completes the hub of an emitter, behind the items that were published at it, as [`Emitter::complete`] does.
    ///
    /// # Errors
    /// As of [`Emitter::complete`].
    pub fn complete(&self, emitter: &mut Emitter<O::Item>) -> Result<(), NotEnded>
        requires { IsAt self.now.links.emitters.items emitter.old.link (λ l. IsUpOf l emitter.old.up) }
        ensures end { IsAt self.now.links.emitters.items emitter.old.link (λ l. KeepsEmitter l emitter.old emitter.new) }
        ensures ok { OnOk result ((sent_signals emitter.new.up ≡ sent_signals emitter.old.up ++ Complete ∷ []) × (emitter.new.ended ≡ true)) }
        ensures enabled { OnOk result (emitter.old.ended ≡ false) }
        ensures same { OnErr result ((sent_signals emitter.new.up ≡ sent_signals emitter.old.up) × (emitter.new.ended ≡ emitter.old.ended)) }
        ensures err { IfErr result (IsEndingRefused emitter.old emitter.new) }
        ensures succeeds { 0 < free_slots emitter.old.up → emitter.old.ended ≡ false → IsOk result }
    {
        let link = self.emitter_link(emitter.link());
        emitter.complete_over(link)
    }

    /// Fails the hub of an emitter with this number, behind the items that were published at it, as [`Emitter::fail`] does.
    ///
    /// # Errors
    /// As of [`Emitter::complete`].
    pub fn fail(&self, emitter: &mut Emitter<O::Item>, number: u32) -> Result<(), NotEnded>
        requires { IsAt self.now.links.emitters.items emitter.old.link (λ l. IsUpOf l emitter.old.up) }
        ensures end { IsAt self.now.links.emitters.items emitter.old.link (λ l. KeepsEmitter l emitter.old emitter.new) }
        ensures ok { OnOk result ((sent_signals emitter.new.up ≡ sent_signals emitter.old.up ++ Error (User number) ∷ []) × (emitter.new.ended ≡ true)) }
        ensures enabled { OnOk result (emitter.old.ended ≡ false) }
        ensures same { OnErr result ((sent_signals emitter.new.up ≡ sent_signals emitter.old.up) × (emitter.new.ended ≡ emitter.old.ended)) }
        ensures err { IfErr result (IsEndingRefused emitter.old emitter.new) }
        ensures succeeds { 0 < free_slots emitter.old.up → emitter.old.ended ≡ false → IsOk result }
    {
        let link = self.emitter_link(emitter.link());
        emitter.fail_over(link, number)
    }

    /// Takes the next signal that was delivered to the subscription of a tap, if one waits, as [`Tap::take`] does.
    pub fn take(&self, tap: &mut Tap<O::Item>) -> Option<Signal<O::Item>>
        requires { IsAt self.now.links.taps.items tap.old.link (λ l. IsTapOf l tap.old) }
        ensures end { IsAt self.now.links.taps.items tap.old.link (λ l. KeepsTap l tap.old tap.new × SameSeat tap.old tap.new × (down_steps tap.new.down ≡ down_steps tap.old.down)) }
        ensures some { IfSome result (λ s. (gives tap.old.state ≡ true) × (given tap.new ≡ given tap.old ++ s ∷ []) × (tap.new.state ≡ taken_state s tap.old.state)) }
        ensures within { items_taken tap.new.down ≤ asked_total tap.new.down }
        ensures none { IfNone result ((given tap.new ≡ given tap.old) × (tap.new.state ≡ tap.old.state) × (gives tap.old.state ≡ true → Waits tap.new.down (queued tap.new.down))) }
        ensures still { gives tap.old.state ≡ false → tap.new ≡ tap.old }
    {
        let link = self.tap_link(tap.link());
        tap.take_over(link)
    }

    /// Requests so many items more for the subscription of a tap, as [`Tap::request`] does: a request of 0 or less is answered by its
    /// error, and the graph cancels the subscription.
    pub fn request(&self, tap: &mut Tap<O::Item>, n: i64) -> Option<Signal<O::Item>>
        requires { IsAt self.now.links.taps.items tap.old.link (λ l. IsTapOf l tap.old) }
        ensures end { IsAt self.now.links.taps.items tap.old.link (λ l. KeepsTap l tap.old tap.new × SameSeat tap.old tap.new) }
        ensures asked { asks tap.old.state ≡ true → Requests (request_of n) (down_steps tap.old.down) (down_steps tap.new.down) result }
        ensures given { given tap.new ≡ given tap.old ++ signals_of result }
        ensures state { asks tap.old.state ≡ true → tap.new.state ≡ requested_state (request_of n) result tap.old.state }
        ensures still { asks tap.old.state ≡ false → (result ≡ None) × (tap.new ≡ tap.old) }
    {
        let link = self.tap_link(tap.link());
        tap.request_over(link, n)
    }

    /// Cancels the subscription of a tap, as [`Tap::cancel`] does. What waits in the queue may still be taken.
    pub fn cancel(&self, tap: &mut Tap<O::Item>)
        requires { IsAt self.now.links.taps.items tap.old.link (λ l. IsTapOf l tap.old) }
        ensures end { IsAt self.now.links.taps.items tap.old.link (λ l. KeepsTap l tap.old tap.new × (tap.new.down ≡ tap.old.down) × (tap.new.cancellers ≡ tap.old.cancellers)) }
        ensures cancelled { asks tap.old.state ≡ true → Cancels tap.old.seat (cancel_steps tap.new.seat) }
        ensures given { given tap.new ≡ given tap.old }
        ensures state { tap.new.state ≡ cancelled_state tap.old.state }
        ensures still { asks tap.old.state ≡ false → tap.new ≡ tap.old }
    {
        let link = self.tap_link(tap.link());
        tap.cancel_over(link);
    }

    /// Makes a further seat by which the subscription of a tap is cancelled, for another thread.
    pub fn canceller(&self, tap: &mut Tap<O::Item>) -> Canceller
        requires { IsAt self.now.links.taps.items tap.old.link (λ l. IsTapOf l tap.old) }
        ensures end { IsAt self.now.links.taps.items tap.old.link (λ l. KeepsSteps l tap.old.seat tap.new.seat × IsCancelSeatOf l result.seat) }
        ensures new { (result.sub ≡ tap.old.sub) × (result.link ≡ tap.old.link) × (cancel_steps result.seat ≡ []) × (cancel_beside result.seat ≡ []) }
        ensures parts { AreHalves tap.old.seat tap.new.seat result.seat }
        ensures same { (tap.new.sub ≡ tap.old.sub) × (tap.new.link ≡ tap.old.link) × (tap.new.down ≡ tap.old.down) × (tap.new.state ≡ tap.old.state) × (given tap.new ≡ given tap.old) }
    {
        let link = self.tap_link(tap.link());
        tap.canceller_over(link)
    }

    /// Cancels the subscription of a canceller. To cancel again changes nothing.
    pub fn cancel_by(&self, canceller: &mut Canceller)
        requires { IsAt self.now.links.taps.items canceller.old.link (λ l. IsCancelSeatOf l canceller.old.seat) }
        ensures end { IsAt self.now.links.taps.items canceller.old.link (λ l. KeepsParts l canceller.old.seat canceller.new.seat × (canceller.new.sub ≡ canceller.old.sub) × (canceller.new.link ≡ canceller.old.link)) }
        ensures cancelled { Cancels canceller.old.seat (cancel_steps canceller.new.seat) }
    {
        let link = self.tap_link(canceller.link());
        canceller.cancel_over(link);
    }

    /// Takes a canceller of a tap back, as [`Tap::take_back`] does.
    pub fn take_back(&self, tap: &mut Tap<O::Item>, canceller: Canceller)
        requires { IsAt self.now.links.taps.items tap.old.link (λ l. IsTapOf l tap.old × IsCancelSeatOf l canceller.seat) }
        ensures end { IsAt self.now.links.taps.items tap.old.link (λ l. IsTapOf l tap.new) }
        ensures beside { (cancel_steps tap.new.seat ≡ cancel_steps tap.old.seat) × (cancel_beside tap.new.seat ≡ cancel_beside tap.old.seat ++ (cancel_steps canceller.seat ∷ cancel_beside canceller.seat)) }
        ensures parts { cancel_parts tap.new.seat ≡ cancel_parts tap.old.seat ++ cancel_parts canceller.seat }
        ensures same { (tap.new.sub ≡ tap.old.sub) × (tap.new.link ≡ tap.old.link) × (tap.new.down ≡ tap.old.down) × (tap.new.state ≡ tap.old.state) × (given tap.new ≡ given tap.old) }
    {
        let link = self.tap_link(tap.link());
        tap.take_back_over(link, canceller);
    }
}
