//! A graph between its links, which one holder at a time moves.

ghost use Rattle.std.specs.Prelude.{◌≡◌, ◌<◌, length, true};
ghost use Rattle.rsx_graph.specs.InGraph.{state_of};
ghost use Rattle.rsx_serialized.specs.Regions.{AreEndsOf, GoesOn};

use crate::ends::{FromEmitter, ToTap};
use crate::publishing::{ask, stop, take_next};
use crate::sending::{first_sub, send_first};
use rsx_graph::{Deliveries, Graph, Pumped};
use rsx_link::Link;
use rsx_runtime::Tap;
use rsx_types::{NoMemory, Ops, Signal, SubId};
use std::alloc::Global;
use std::collections::VecDeque;
use std::mem;

/// How many moves are made, and how many signals of an emitter are published, before the others are looked at again.
pub const SLICE: u32 = 64;

/// The links of a graph: one for each emitter, one for each subscription, and others for subscriptions to come.
#[derive(Drop)]
pub struct Links<T> {
    /// Those of the emitters.
    pub emitters: Vec<Link<T>>,
    /// Those of the taps, in the order of the subscriptions. Behind them stand those for subscriptions to come.
    pub taps: Vec<Link<T>>,
}

/// A graph, with the ends of its links that its holder has.
#[derive(Drop)]
pub struct GraphRegion<O: Ops> {
    /// The graph.
    pub graph: Graph<O>,
    /// The receiving ends of the emitters' links.
    pub inlets: Vec<FromEmitter<O::Item>>,
    /// The sending ends of the taps' links, in the order of the links.
    pub outlets: Vec<ToTap<O::Item>>,
    /// What the graph delivered and was not sent yet, in its order.
    pub pending: VecDeque<(SubId, Signal<O::Item>)>,
    /// The taps for subscriptions to come, in the order of their links: the first is that of the next subscription.
    pub spare: Vec<Tap<O::Item>>,
}

/// How a serve ended.
#[derive(Clone, Copy, Debug, PartialEq, Eq)]
pub enum Served {
    /// Nothing is left to do, as far as the ends know. What waits to be sent finds no room at its tap; where nothing waits no move of the
    /// graph is enabled. No signal of an emitter can be published: its link has none, or its hub doesn't take the one that waits.
    Idle,
    /// The budget was used up.
    Budget,
    /// A growth was refused. What was done before stands.
    NoMemory,
}

impl<O: Ops> GraphRegion<O> {
    ghost use Rattle.std.specs.Prelude.{◌≡◌, ◌<◌, ◌+◌, IfOk, [], false, length, true};
    ghost use Rattle.rsx_graph.specs.InGraph.{state_of};
    ghost use Rattle.rsx_serialized.specs.Regions.{AreEndsOf, Goes, GoesOn};
    ghost use Rattle.rsx_serialized.specs.Resting.{AreHeldUp, AreStill, HasDelivered, HasLeftAll, HasLeftOne, HasSeenAll, HasSeenOne, HasSentNone, IsAtRest, IsQuiet};
    ghost use Rattle.rsx_serialized.specs.Rounds.{AreRounds, IsBusy};

    /// Moves the graph between its links: what the taps asked for is requested, subscriptions whose taps cancelled or made a bad request are
    /// cancelled, what emitters sent is published, moves are made while no delivery waits, and what was delivered is sent to the taps. It
    /// does so in rounds, at most `budget` of them, until nothing is left to do. A round makes at most [`SLICE`] moves, and publishes at
    /// most [`SLICE`] signals of each emitter before them, and as many behind them.
    ///
    /// These things have then happened to the graph, and nothing else: of each emitter's link what was taken from it is published, but for
    /// the one signal that waits; to each tap was sent what was delivered to its subscriber, but for what waits.
    ///
    /// After [`Served::Budget`] call it again. After [`Served::NoMemory`] it may be called again, too.
    pub fn serve(&mut self, alloc: Global, links: &Links<O::Item>, budget: u32) -> Served
        requires { AreEndsOf links.now self.old }
        ensures goes { GoesOn links.now self.old self.new }

        // Nothing is left to do then, as far as the ends know.
        ensures idle { result ≡ Served.Idle → IsAtRest self.new }

        // The tap of each subscription was looked at, and each subscription was cancelled of which a flag was seen.
        ensures looked { 0 < budget → HasSeenAll (O.meaning self.old.graph.ops) self.old self.new }

        // So many rounds were made, and something was done in each.
        ensures budget { result ≡ Served.Budget → AreRounds (O.meaning self.old.graph.ops) budget self.old self.new }
        ensures none { budget ≡ 0 → (result ≡ Served.Budget) × (self.new ≡ self.old) }
    {
        for _round in 0..budget {
            match self.round(alloc, links) {
                Ok(true) => {}
                Ok(false) => return Served::Idle,
                Err(NoMemory) => return Served::NoMemory,
            }
        }
        Served::Budget
    }

    /// One round, and whether more may be left to do: if so, something was done.
    fn round(&mut self, alloc: Global, links: &Links<O::Item>) -> Result<bool, NoMemory>
        requires { AreEndsOf links.now self.old }
        ensures goes { GoesOn links.now self.old self.new }
        ensures idle { IfOk result (λ more. more ≡ false → IsAtRest self.new) }
        ensures busy { IfOk result (λ more. more ≡ true → IsBusy (O.meaning self.old.graph.ops) self.old self.new) }
        ensures looked { HasSeenAll (O.meaning self.old.graph.ops) self.old self.new }
    {
        self.look(links);
        self.take_in(links);
        let more = self.deliver(alloc, links)?;
        // Where the moves made room at a hub, it may take what waited.
        let taken = self.take_in(links);
        Ok(more | taken)
    }

    /// Looks at the links of the taps of all subscriptions, and passes on what is asked for.
    fn look(&mut self, links: &Links<O::Item>)
        requires { AreEndsOf links.now self.old }
        ensures goes { GoesOn links.now self.old self.new }
        ensures looked { HasSeenAll (O.meaning self.old.graph.ops) self.old self.new }
    {
        let subscribed = self.outlets.len() - self.spare.len();
        for at in 0..subscribed {
            self.look_at(at, links);
        }
    }

    /// Looks at the link of one tap: requests what is asked for, and cancels where a flag is set.
    fn look_at(&mut self, at: usize, links: &Links<O::Item>)
        requires ends { AreEndsOf links.now self.old }
        requires there { at < length (state_of self.old.graph).joins }
        ensures goes { GoesOn links.now self.old self.new }
        ensures looked { HasSeenOne (O.meaning self.old.graph.ops) at self.old self.new }
        ensures joins { (state_of self.new.graph).joins ≡ (state_of self.old.graph).joins }
    {
        let looked = self.outlets[at].look(&links.taps[at]);
        let sub = SubId(at as u32);
        ask(&mut self.graph, sub, looked.items);
        stop(&mut self.graph, sub, looked.stopped);
    }

    /// Makes moves, where nothing waits to be sent, and sends what waits. Answers whether more of that may be left: if so, some was done.
    ///
    /// # Errors
    /// [`NoMemory`] where a growth was refused. What was done before stands.
    fn deliver(&mut self, alloc: Global, links: &Links<O::Item>) -> Result<bool, NoMemory>
        requires { AreEndsOf links.now self.old }
        ensures goes { GoesOn links.now self.old self.new }
        ensures idle { IfOk result (λ more. more ≡ false → HasDelivered self.new) }
        ensures busy { IfOk result (λ more. more ≡ true → IsBusy (O.meaning self.old.graph.ops) self.old self.new) }
        ensures still { AreStill self.old.outlets.items self.new.outlets.items }
        ensures joins { (state_of self.new.graph).joins ≡ (state_of self.old.graph).joins }
    {
        let waited = !self.pending.is_empty();
        let moved = self.move_on(alloc)?;
        let sent = self.send_out(links);
        Ok(moved | (waited & sent))
    }

    /// Makes moves, where nothing waits to be sent, and whether the budget of a slice was used up.
    ///
    /// # Errors
    /// [`NoMemory`] where a growth was refused. What was done before stands.
    fn move_on(&mut self, alloc: Global) -> Result<bool, NoMemory>
        ensures goes { Goes (O.meaning self.old.graph.ops) self.old self.new }
        ensures idle { IfOk result (λ moved. moved ≡ false → self.new.pending.items ≡ [] → IsQuiet self.new) }
        ensures quiet { IfOk result (λ moved. moved ≡ false → self.old.pending.items ≡ [] → IsQuiet self.new) }
        ensures busy { IfOk result (λ moved. moved ≡ true → IsBusy (O.meaning self.old.graph.ops) self.old self.new) }
        ensures same { (self.new.inlets ≡ self.old.inlets) × (self.new.outlets ≡ self.old.outlets) × ((state_of self.new.graph).joins ≡ (state_of self.old.graph).joins) × (self.new.spare ≡ self.old.spare) }
    {
        if !self.pending.is_empty() {
            return Ok(false);
        }
        let pending = mem::replace(&mut self.pending, VecDeque::new(alloc));
        let mut out = Deliveries::from_vec(pending.into_vec());
        let pumped = self.graph.pump(alloc, SLICE, &mut out);
        self.pending = VecDeque::from_vec(out.into_vec());
        match pumped {
            Ok(Pumped::Idle) => Ok(false),
            Ok(Pumped::Budget) => Ok(true),
            Err(_) => Err(NoMemory),
        }
    }

    /// Sends what waits, from the front, until a link takes no more, and whether something was sent.
    fn send_out(&mut self, links: &Links<O::Item>) -> bool
        requires { AreEndsOf links.now self.old }
        ensures goes { GoesOn links.now self.old self.new }
        ensures held { AreHeldUp self.new.pending.items self.new.outlets.items }
        ensures none { result ≡ false → HasSentNone self.old self.new }
        ensures busy { result ≡ true → IsBusy (O.meaning self.old.graph.ops) self.old self.new }
        ensures still { AreStill self.old.outlets.items self.new.outlets.items }
        ensures same { self.new.graph ≡ self.old.graph }
    {
        let mut sent = false;
        for _signal in 0..self.pending.len() {
            if !self.send_one(links) {
                return sent;
            }
            sent = true;
        }
        sent
    }

    /// Sends the signal in front, if one waits and its link takes it, and whether it did.
    fn send_one(&mut self, links: &Links<O::Item>) -> bool
        requires { AreEndsOf links.now self.old }
        ensures goes { GoesOn links.now self.old self.new }
        ensures none { result ≡ false → HasSentNone self.old self.new }
        ensures fewer { result ≡ true → length self.old.pending.items ≡ length self.new.pending.items + 1 }
        ensures busy { result ≡ true → IsBusy (O.meaning self.old.graph.ops) self.old self.new }
        ensures still { AreStill self.old.outlets.items self.new.outlets.items }
        ensures same { self.new.graph ≡ self.old.graph }
    {
        let at = match first_sub(&self.pending) {
            None => return false,
            Some(at) => at,
        };
        if at >= self.outlets.len() {
            // Nothing is delivered to a subscription that isn't there.
            return false;
        }
        send_first(&mut self.pending, &mut self.outlets[at], &links.taps[at])
    }

    /// Publishes the next signals of each emitter, as far as its hub takes them, and whether one was published.
    fn take_in(&mut self, links: &Links<O::Item>) -> bool
        requires { AreEndsOf links.now self.old }
        ensures goes { GoesOn links.now self.old self.new }
        ensures none { result ≡ false → HasLeftAll self.old self.new }
        ensures busy { result ≡ true → IsBusy (O.meaning self.old.graph.ops) self.old self.new }
        ensures aside { (self.new.pending ≡ self.old.pending) × (self.new.outlets ≡ self.old.outlets) × ((state_of self.new.graph).joins ≡ (state_of self.old.graph).joins) }
    {
        let mut taken = false;
        for at in 0..self.inlets.len() {
            taken |= self.take_from(at, links);
        }
        taken
    }

    /// Publishes the next signals of one emitter, as far as there are any and the hub takes them, and whether one was published.
    fn take_from(&mut self, at: usize, links: &Links<O::Item>) -> bool
        requires ends { AreEndsOf links.now self.old }
        requires there { at < length self.old.inlets.items }
        ensures goes { GoesOn links.now self.old self.new }
        ensures none { result ≡ false → HasLeftOne at self.old self.new }
        ensures busy { result ≡ true → IsBusy (O.meaning self.old.graph.ops) self.old self.new }
        ensures aside { (self.new.pending ≡ self.old.pending) × (self.new.outlets ≡ self.old.outlets) × ((state_of self.new.graph).joins ≡ (state_of self.old.graph).joins) }
        ensures count { length self.new.inlets.items ≡ length self.old.inlets.items }
    {
        let mut taken = false;
        for _signal in 0..SLICE {
            if !self.take_at(at, links) {
                return taken;
            }
            taken = true;
        }
        taken
    }

    /// Publishes the next signal of one emitter, where there is one and the hub takes it, and whether one was published.
    fn take_at(&mut self, at: usize, links: &Links<O::Item>) -> bool
        requires ends { AreEndsOf links.now self.old }
        requires there { at < length self.old.inlets.items }
        ensures goes { GoesOn links.now self.old self.new }
        ensures none { result ≡ false → HasLeftOne at self.old self.new }
        ensures busy { result ≡ true → IsBusy (O.meaning self.old.graph.ops) self.old self.new }
        ensures aside { (self.new.pending ≡ self.old.pending) × (self.new.outlets ≡ self.old.outlets) × ((state_of self.new.graph).joins ≡ (state_of self.old.graph).joins) }
        ensures count { length self.new.inlets.items ≡ length self.old.inlets.items }
    {
        take_next(&mut self.graph, &mut self.inlets[at], &links.emitters[at])
    }
}
