//! One thread drives a live graph, or has its taps while other threads have its seats.

use crate::graph::{LiveGraph, StartedGraph};
use rsx_graph::Graph;
use rsx_region::NotJoined;
use rsx_runtime::{Poked, Tap};
use rsx_types::{Ops, Signal, SubId};
use std::alloc::Global;

/// One thread may drive the graph by these calls alone. None of them waits, and but for [`StartedGraph::poke`] none takes memory.
impl<O: Ops> StartedGraph<O> {
    ghost use Rattle.std.specs.Prelude.{◌≡◌, ◌<◌, ◌≤◌, ◌⊎◌, length, IfNone, IfOk, IfSome, None, OnErr};
    ghost use Rattle.rsx_runtime.specs.Poking.{Went};
    ghost use Rattle.rsx_live.specs.Graphs.{GraphBack, IsNotJoined};
    ghost use Rattle.rsx_live.specs.Starts.{IsStarted, StaysStarted};
    ghost use Rattle.rsx_live_parts.specs.Tapping.{ChangesAt, HasNoTap, TapCancels, TapChanges, TapRequests, Takes};

    /// How many regions there are.
    pub fn regions(&self) -> u8
        requires { IsStarted self.now }
        ensures { result ≡ length self.now.seats.items }
    {
        self.seats.len() as u8
    }

    /// How many subscriptions have a tap.
    pub fn tapped(&self) -> usize
        ensures { result ≡ length self.now.taps.items }
    {
        self.taps.len()
    }

    /// Works on the region with this number, as [`Live::poke`](rsx_runtime::Live::poke) does, by its seat. Where there is no such region it does nothing, and
    /// there is no answer.
    pub fn poke(&mut self, alloc: Global, region: u8, budget: u32) -> Option<Poked>
        requires { IsStarted self.old }
        ensures started { IsStarted self.new }
        ensures stays { StaysStarted self.old self.new }
        ensures same { (self.new.live ≡ self.old.live) × (self.new.taps ≡ self.old.taps) }
        ensures some { IfSome result (λ p. ChangesAt region self.old.seats.items self.new.seats.items (λ was now. Went p.answer was.me.0.steps now.me.0.steps)) }
        ensures none { IfNone result ((length self.old.seats.items ≤ region) × (self.new ≡ self.old)) }
    {
        let live = &self.live;
        live.subs.poke(alloc, &mut self.seats, region, budget)
    }

    /// Takes the next signal that was delivered to this subscription, if one waits, as [`Tap::take`] does. A subscription that has no tap
    /// gets nothing before the close.
    pub fn take(&mut self, sub: SubId) -> Option<Signal<O::Item>>
        requires { IsStarted self.old }
        ensures started { IsStarted self.new }
        ensures stays { StaysStarted self.old self.new }
        ensures same { (self.new.live ≡ self.old.live) × (self.new.seats ≡ self.old.seats) }
        ensures took { HasNoTap sub self.old.taps.items ⊎ TapChanges sub self.old.taps.items self.new.taps.items (Takes result) }
        ensures none { HasNoTap sub self.old.taps.items → (result ≡ None) × (self.new ≡ self.old) }
    {
        self.live.take(&mut self.taps, sub)
    }

    /// Requests so many items more for this subscription, as [`Tap::request`] does: a request of 0 or less is answered by its error. Where
    /// it has no tap, nothing happens.
    pub fn request(&mut self, sub: SubId, n: i64) -> Option<Signal<O::Item>>
        requires { IsStarted self.old }
        ensures started { IsStarted self.new }
        ensures stays { StaysStarted self.old self.new }
        ensures same { (self.new.live ≡ self.old.live) × (self.new.seats ≡ self.old.seats) }
        ensures requested { HasNoTap sub self.old.taps.items ⊎ TapChanges sub self.old.taps.items self.new.taps.items (TapRequests n result) }
        ensures none { HasNoTap sub self.old.taps.items → (result ≡ None) × (self.new ≡ self.old) }
    {
        self.live.request(&mut self.taps, sub, n)
    }

    /// Cancels this subscription, as [`Tap::cancel`] does. Where it has no tap, nothing happens.
    pub fn cancel(&mut self, sub: SubId)
        requires { IsStarted self.old }
        ensures started { IsStarted self.new }
        ensures stays { StaysStarted self.old self.new }
        ensures same { (self.new.live ≡ self.old.live) × (self.new.seats ≡ self.old.seats) }
        ensures cancelled { HasNoTap sub self.old.taps.items ⊎ TapChanges sub self.old.taps.items self.new.taps.items TapCancels }
        ensures none { HasNoTap sub self.old.taps.items → self.new ≡ self.old }
    {
        self.live.cancel(&mut self.taps, sub);
    }

    /// Ends the regions, and makes a graph again, as [`LiveGraph::close`](crate::LiveGraph::close) does.
    ///
    /// # Errors
    /// Only where pieces can't be joined, which is not proved never to come, and no test met it. Nothing comes back then.
    pub fn close(self) -> Result<Graph<O>, NotJoined>
        requires { IsStarted self }
        ensures back { IfOk result (GraphBack self.live self.taps.items) }
        ensures err { OnErr result (IsNotJoined self.live) }
    {
        let StartedGraph { live, taps, seats } = self;
        live.close(taps, seats)
    }
}

/// A thread may take, request and cancel by the taps of a live graph while other threads have its seats. None of these calls waits or
/// takes memory.
impl<O: Ops> LiveGraph<O> {
    ghost use Rattle.std.specs.Prelude.{◌≡◌, ◌⊎◌, None};
    ghost use Rattle.rsx_live.specs.Starts.{AreTapsOf};
    ghost use Rattle.rsx_live_parts.specs.Tapping.{HasNoTap, TapCancels, TapChanges, TapRequests, Takes};

    /// Takes the next signal that was delivered to this subscription, if one waits, as [`StartedGraph::take`] does, by its tap, which is
    /// one of these.
    pub fn take(&self, taps: &mut Vec<Tap<O::Item>>, sub: SubId) -> Option<Signal<O::Item>>
        requires { AreTapsOf self.now taps.old.items }
        ensures taps { AreTapsOf self.now taps.new.items }
        ensures took { HasNoTap sub taps.old.items ⊎ TapChanges sub taps.old.items taps.new.items (Takes result) }
        ensures none { HasNoTap sub taps.old.items → (result ≡ None) × (taps.new ≡ taps.old) }
    {
        self.subs.take(taps, sub)
    }

    /// Requests so many items more for this subscription, as [`StartedGraph::request`] does, by its tap, which is one of these.
    pub fn request(
        &self,
        taps: &mut Vec<Tap<O::Item>>,
        sub: SubId,
        n: i64,
    ) -> Option<Signal<O::Item>>
        requires { AreTapsOf self.now taps.old.items }
        ensures taps { AreTapsOf self.now taps.new.items }
        ensures requested { HasNoTap sub taps.old.items ⊎ TapChanges sub taps.old.items taps.new.items (TapRequests n result) }
        ensures none { HasNoTap sub taps.old.items → (result ≡ None) × (taps.new ≡ taps.old) }
    {
        self.subs.request(taps, sub, n)
    }

    /// Cancels this subscription, as [`StartedGraph::cancel`] does, by its tap, which is one of these.
    pub fn cancel(&self, taps: &mut Vec<Tap<O::Item>>, sub: SubId)
        requires { AreTapsOf self.now taps.old.items }
        ensures taps { AreTapsOf self.now taps.new.items }
        ensures cancelled { HasNoTap sub taps.old.items ⊎ TapChanges sub taps.old.items taps.new.items TapCancels }
        ensures none { HasNoTap sub taps.old.items → taps.new ≡ taps.old }
    {
        self.subs.cancel(taps, sub);
    }
}
