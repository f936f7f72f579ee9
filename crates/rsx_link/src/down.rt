//! The receiving end.

ghost use Rattle.std.specs.Prelude.{◌≡◌, ◌+◌, ℤ, []};
ghost use Rattle.rtrb.specs.Ring.{received as received_from};
ghost use Rattle.rsx_link.specs.Link.{view_cancels};
ghost use Rattle.rsx_link.specs.Steps.{asked_of};
ghost use Rattle.rsx_link.specs.Signals.{items_in, request_of};
ghost use Rattle.rsx_link.specs.declared.view.Role.TheVariants.{Downstream};
ghost use Rattle.rsx_types.specs.declared.signal.Signal.TheVariants.{Next};

use crate::link::{Link, Seat};
use crate::signals::{is_item, positive};
use rsx_demand::Demand;
use rsx_types::{Cause, Signal};
use rtrb::Consumer;

/// The receiving end of a link: it takes the signals for a subscriber, and asks for more.
///
/// Of each one it is known that the items taken are at most those asked for (`covered` of its demand).
#[derive(Drop)]
pub struct Down<T> {
    pub(crate) consumer: Consumer<Signal<T>>,
    pub(crate) seat: Seat,
    // The items that were taken before the link was made.
    pub(crate) carried: u64,
    // The items asked for, and those taken.
    pub(crate) demand: Demand,
    pub ghost alone: { (seat.me.0.role ≡ Downstream) × (seat.me.1 ≡ []) },
    pub ghost never_cancels: { (seat.me.0.parts ≡ []) × (view_cancels seat.me.0 ≡ 0) },
    pub ghost asks: { demand.asked ≡ asked_of seat.me.0.steps },
    pub ghost counts: { demand.sent ≡ carried + items_in (received_from consumer) },
}

impl<T> Down<T> {
    ghost use Rattle.std.specs.Prelude.{◌≤◌, ◌∷◌, length, IfSome, IfNone, IsTrue, ◌↔◌};
    ghost use mathlib.Core.List.{IsPrefix};
    ghost use Rattle.rsx_link.specs.Ends.{IsDownOf, OffersNone, SameDown, HasLooked, carried_down, down_steps, asked_total, items_taken, received_signals, queued, TakesOne, TakesNone, Requests};

    /// The items asked for, with those from before the link was made: at most 2^63 - 1.
    pub fn asked(&self) -> u64
        ensures { result ≡ asked_total self.now }
    {
        self.demand.asked()
    }

    /// The items taken, with those from before the link was made.
    pub fn taken(&self) -> u64
        ensures { result ≡ items_taken self.now }
    {
        self.demand.sent()
    }

    /// Whether no signal waits in the queue. One may come at any time; one that was seen stays until it is taken.
    pub fn is_empty(&mut self, link: &Link<T>) -> bool
        requires { IsDownOf link.now self.old }
        ensures same { HasLooked link.now self.old self.new }
        ensures empty { IsTrue result ↔ (length (queued self.new) ≡ 0) }
    {
        let _ = link;
        self.consumer.is_empty()
    }

    /// The oldest signal of those that [`Down::is_empty`] or [`Down::take`] has seen in the queue, which stays there.
    pub fn front(&self) -> Option<&Signal<T>>
        ensures some { IfSome result (λ s. IsPrefix (s.now ∷ []) (queued self.now)) }
        ensures none { IfNone result (length (queued self.now) ≡ 0) }
    {
        if self.consumer.cached_slots() == 0 {
            return None;
        }
        Some(self.consumer.peek_known())
    }

    /// Takes the oldest signal that was sent and not yet taken.
    ///
    /// It answers `None` where the queue was found empty. An item stays in the queue, too, while as many items were
    /// taken as were asked for (rule 1.1). An ending needs no demand.
    pub fn take(&mut self, link: &Link<T>) -> Option<Signal<T>>
        requires { IsDownOf link.now self.old }
        ensures same { IsDownOf link.now self.new × (down_steps self.new ≡ down_steps self.old) × (carried_down self.new ≡ carried_down self.old) }
        ensures some { IfSome result (TakesOne self.old self.new) }
        ensures none { IfNone result (TakesNone self.old self.new) }
    {
        if self.is_empty(link) {
            return None;
        }
        let is_item = is_item(self.consumer.peek_known());
        if is_item && self.demand.room() == 0 {
            return None;
        }
        let signal = self.consumer.pop_known();
        if is_item {
            self.demand.spend();
        }
        Some(signal)
    }

    /// Takes the oldest signal of those that [`Down::is_empty`] or [`Down::take`] has seen in the queue, where it is an item and fewer were
    /// taken than asked for (rule 1.1). It doesn't look whether more have come.
    #[inline]
    pub fn take_seen(&mut self, link: &Link<T>) -> Option<T>
        requires { IsDownOf link.now self.old }
        ensures same { IsDownOf link.now self.new × (down_steps self.new ≡ down_steps self.old) × (carried_down self.new ≡ carried_down self.old) }
        ensures some { IfSome result (λ x. TakesOne self.old self.new (Next x)) }
        ensures none { IfNone result ((self.new ≡ self.old) × OffersNone self.old (queued self.old)) }
    {
        let _ = link;
        if self.consumer.cached_slots() == 0 {
            return None;
        }
        if self.demand.room() == 0 || !is_item(self.consumer.peek_known()) {
            return None;
        }
        match self.consumer.pop_known() {
            Signal::Next(item) => {
                self.demand.spend();
                Some(item)
            }
            // It was seen to be an item.
            Signal::Complete => None,
            Signal::Error(_) => None,
        }
    }

    /// Asks for `n` more items (rule 3.8), by one store of the new total, which saturates at 2^63 - 1 (rule 3.17).
    ///
    /// A request of 0 or less sets flag 2 instead, and asks for nothing. Its answer is the error that the subscriber is
    /// to get (rule 3.9), where neither flag was set before; else there is none, as for a good request.
    pub fn ask(&mut self, link: &Link<T>, n: i64) -> Option<Signal<T>>
        requires { IsDownOf link.now self.old }
        ensures same { SameDown link.now self.old self.new }
        ensures rises { asked_total self.old ≤ asked_total self.new }
        ensures asked { Requests (request_of n) (down_steps self.old) (down_steps self.new) result }
    {
        match positive(n) {
            Some(items) => {
                self.demand.ask(items);
                link.store_asked(&mut self.seat, self.demand.asked());
                None
            }
            None => {
                if link.set_refused(&mut self.seat) == 0 {
                    Some(Signal::Error(Cause::NonPositiveRequest))
                } else {
                    None
                }
            }
        }
    }
}
