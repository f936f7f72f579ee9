//! One thread drives live subscriptions, or has their taps while other threads have the seats.

ghost use Rattle.std.specs.Prelude.{◌≡◌, ◌<◌, ◌≤◌, length, IfNone, IfSome};
ghost use Rattle.std.specs.List.{AllZip};
ghost use Rattle.rsx_gate.specs.Machine.{all_parts};
ghost use Rattle.rsx_gate.specs.Seats.{IsSeatOf};
ghost use Rattle.rsx_live_parts.specs.Tapping.{ChangesAt, HasNoTap, TapCancels, TapRequests, Takes};
ghost use Rattle.rsx_region.specs.Pieces.{IsAt};
ghost use Rattle.rsx_runtime.specs.Poking.{IsAmong, Went};
ghost use Rattle.rsx_runtime.specs.Tapping.{IsTapOf, KeepsTap};

use crate::lives::LiveSubscriptions;
use rsx_pipe::Nodes;
use rsx_rooted::Batches;
use rsx_runtime::{Live, Poked, RegionSeat, Tap};
use rsx_types::{Ops, Signal, SubId};
use std::alloc::Global;

impl<N: Nodes<Item = T> + Batches, T: Drop, O: Ops<Item = T>> LiveSubscriptions<N, T, O> {
    /// Works on the region with this number, as [`Live::poke`] does, by its seat. There is a seat for each region, in their order, each
    /// with all parts. Where there is no such region it does nothing, and there is no answer.
    pub fn poke(
        &self,
        alloc: Global,
        seats: &mut Vec<RegionSeat<N, T, O>>,
        region: u8,
        budget: u32,
    ) -> Option<Poked>
        requires { AllZip (λ g s. IsSeatOf g s × (all_parts ≤ s.me.0.parts)) self.now.live.gates.items seats.old.items }
        ensures seats { AllZip (λ g s. IsSeatOf g s × (all_parts ≤ s.me.0.parts)) self.now.live.gates.items seats.new.items }
        ensures some { IfSome result (λ p. ChangesAt region seats.old.items seats.new.items (λ was now. Went p.answer was.me.0.steps now.me.0.steps)) }
        ensures none { IfNone result ((length seats.old.items ≤ region) × (seats.new ≡ seats.old)) }
    {
        if usize::from(region) >= seats.len() {
            return None;
        }
        Some(poke_at(alloc, &self.live, seats, region, budget))
    }
}

/// A thread may take, request and cancel by the taps of live subscriptions while other threads have the seats of their regions. None of
/// these calls waits, and none takes memory.
impl<N: Nodes<Item = T>, T: Drop, O: Ops<Item = T>> LiveSubscriptions<N, T, O> {
    ghost use Rattle.std.specs.Prelude.{◌≡◌, ◌⊎◌, None};
    ghost use Rattle.rsx_live_parts.specs.Kept.{AreTapsFrom};
    ghost use Rattle.rsx_live_parts.specs.Tapping.{HasNoTap, TapCancels, TapChanges, TapRequests, Takes};

    /// Takes the next signal that was delivered to this subscription, if one waits, as [`Tap::take`] does, by its tap, which is one of
    /// these. A subscription that has no tap gets nothing before the close.
    pub fn take(&self, taps: &mut Vec<Tap<T>>, sub: SubId) -> Option<Signal<T>>
        requires { AreTapsFrom self.now.live.links.items 0 self.now.kept.items taps.old.items }
        ensures taps { AreTapsFrom self.now.live.links.items 0 self.now.kept.items taps.new.items }
        ensures took { HasNoTap sub taps.old.items ⊎ TapChanges sub taps.old.items taps.new.items (Takes result) }
        ensures none { HasNoTap sub taps.old.items → (result ≡ None) × (taps.new ≡ taps.old) }
    {
        let Some(place) = place_of(taps, sub) else {
            return None;
        };
        take_at(&self.live, taps, place)
    }

    /// Requests so many items more for this subscription, as [`Tap::request`] does, by its tap, which is one of these: a request of 0 or
    /// less is answered by its error. Where it has no tap, nothing happens.
    pub fn request(&self, taps: &mut Vec<Tap<T>>, sub: SubId, n: i64) -> Option<Signal<T>>
        requires { AreTapsFrom self.now.live.links.items 0 self.now.kept.items taps.old.items }
        ensures taps { AreTapsFrom self.now.live.links.items 0 self.now.kept.items taps.new.items }
        ensures requested { HasNoTap sub taps.old.items ⊎ TapChanges sub taps.old.items taps.new.items (TapRequests n result) }
        ensures none { HasNoTap sub taps.old.items → (result ≡ None) × (taps.new ≡ taps.old) }
    {
        let Some(place) = place_of(taps, sub) else {
            return None;
        };
        request_at(&self.live, taps, place, n)
    }

    /// Cancels this subscription, as [`Tap::cancel`] does, by its tap, which is one of these. Where it has no tap, nothing happens.
    pub fn cancel(&self, taps: &mut Vec<Tap<T>>, sub: SubId)
        requires { AreTapsFrom self.now.live.links.items 0 self.now.kept.items taps.old.items }
        ensures taps { AreTapsFrom self.now.live.links.items 0 self.now.kept.items taps.new.items }
        ensures cancelled { HasNoTap sub taps.old.items ⊎ TapChanges sub taps.old.items taps.new.items TapCancels }
        ensures none { HasNoTap sub taps.old.items → taps.new ≡ taps.old }
    {
        let Some(place) = place_of(taps, sub) else {
            return;
        };
        cancel_at(&self.live, taps, place);
    }
}

/// The place of a tap of this subscription.
fn place_of<T: Drop>(taps: &[Tap<T>], sub: SubId) -> Option<usize>
    ensures some { IfSome result (λ place. IsAmong taps.now place (λ t. t.sub ≡ sub)) }
    ensures none { IfNone result (HasNoTap sub taps.now) }
{
    for (place, tap) in taps.iter().enumerate() {
        if tap.sub() == sub {
            return Some(place);
        }
    }
    None
}

/// Works on the region with this number by its seat.
fn poke_at<N: Nodes<Item = T> + Batches, T: Drop, O: Ops<Item = T>>(
    alloc: Global,
    live: &Live<N, T, O>,
    seats: &mut Vec<RegionSeat<N, T, O>>,
    region: u8,
    budget: u32,
) -> Poked
    requires seats { AllZip (λ g s. IsSeatOf g s × (all_parts ≤ s.me.0.parts)) live.now.gates.items seats.old.items }
    requires there { region < length seats.old.items }
    ensures seats { AllZip (λ g s. IsSeatOf g s × (all_parts ≤ s.me.0.parts)) live.now.gates.items seats.new.items }
    ensures went { ChangesAt region seats.old.items seats.new.items (λ was now. Went result.answer was.me.0.steps now.me.0.steps) }
{
    live.poke(alloc, region, &mut seats[usize::from(region)], budget)
}

/// Takes the next signal by the tap at this place.
fn take_at<N: Nodes<Item = T>, T: Drop, O: Ops<Item = T>>(
    live: &Live<N, T, O>,
    taps: &mut Vec<Tap<T>>,
    place: usize,
) -> Option<Signal<T>>
    requires { IsAmong taps.old.items place (λ t. IsAt live.now.links.items t.link (λ l. IsTapOf l t)) }
    ensures { ChangesAt place taps.old.items taps.new.items (λ was now. IsAt live.now.links.items was.link (λ l. KeepsTap l was now) × Takes result was now) }
{
    let tap = &mut taps[place];
    tap.take(live)
}

/// Requests so many items more by the tap at this place.
fn request_at<N: Nodes<Item = T>, T: Drop, O: Ops<Item = T>>(
    live: &Live<N, T, O>,
    taps: &mut Vec<Tap<T>>,
    place: usize,
    n: i64,
) -> Option<Signal<T>>
    requires { IsAmong taps.old.items place (λ t. IsAt live.now.links.items t.link (λ l. IsTapOf l t)) }
    ensures { ChangesAt place taps.old.items taps.new.items (λ was now. IsAt live.now.links.items was.link (λ l. KeepsTap l was now) × TapRequests n result was now) }
{
    let tap = &mut taps[place];
    tap.request(live, n)
}

/// Cancels by the tap at this place.
fn cancel_at<N: Nodes<Item = T>, T: Drop, O: Ops<Item = T>>(
    live: &Live<N, T, O>,
    taps: &mut Vec<Tap<T>>,
    place: usize,
)
    requires { IsAmong taps.old.items place (λ t. IsAt live.now.links.items t.link (λ l. IsTapOf l t)) }
    ensures { ChangesAt place taps.old.items taps.new.items (λ was now. IsAt live.now.links.items was.link (λ l. KeepsTap l was now) × TapCancels was now) }
{
    let tap = &mut taps[place];
    tap.cancel(live);
}
