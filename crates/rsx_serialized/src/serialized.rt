//! The graph behind its gate, and how a thread works on it.

ghost use Rattle.std.specs.Prelude.{◌≡◌, ◌<◌, MatchBool};
ghost use Rattle.rsx_gate.specs.Seats.{Holds, IsGone, IsMissed, IsSeatOf, Marked, key_of};
ghost use Rattle.rsx_runtime.specs.Poking.{Went};
ghost use Rattle.rsx_serialized.specs.Gates.{HasFitting};
ghost use Rattle.rsx_serialized.specs.Resting.{IsAtRest};

use crate::opening::Opening;
use crate::region::{GraphRegion, Links, Served};
use rsx_gate::{Gate, Seat};
use rsx_runtime::{PokeAnswer, ROUNDS};
use rsx_types::Ops;
use std::alloc::Global;
use std::snapshot::Snapshot;

/// The gate of a graph.
pub type GraphGate<O> = Gate<GraphRegion<O>, Opening<O>>;

/// What a thread enters such a gate by.
pub type GraphSeat<O> = Seat<GraphRegion<O>, Opening<O>>;

/// A graph that many threads publish to, request from, take from and cancel, while one of them at a time moves it. It is shared by
/// reference.
#[derive(Drop)]
pub struct SerializedGraph<O: Ops> {
    pub(crate) gate: GraphGate<O>,
    pub(crate) links: Links<O::Item>,
    pub ghost opened: { (key_of gate).links.value ≡ links },
}

impl<O: Ops> SerializedGraph<O> {
    ghost use Rattle.std.specs.Prelude.{◌≡◌, ◌≤◌, ◌<◌, IfErr, IfOk, Some};
    ghost use Rattle.rsx_gate.specs.Machine.{all_parts, newcomer};
    ghost use Rattle.rsx_gate.specs.Plays.{fewer, joined};
    ghost use Rattle.rsx_gate.specs.Seats.{IsSeatOf, key_of};
    ghost use Rattle.rsx_runtime.specs.Poking.{Went};
    ghost use Rattle.rsx_serialized.specs.Opened.{HasStopped, IsOpened};
    ghost use Rattle.rsx_serialized.specs.Regions.{AreEndsOf};

    /// Puts a graph behind a gate, between these links, and answers the first seat of the gate, which has all parts. The other ends of the
    /// links are those of emitters and taps.
    ///
    /// # Errors
    /// The graph and the links come back as they were where there was no memory for the gate.
    pub fn new(
        alloc: Global,
        region: GraphRegion<O>,
        links: Links<O::Item>,
    ) -> Result<(SerializedGraph<O>, GraphSeat<O>), (GraphRegion<O>, Links<O::Item>)>
        requires { AreEndsOf links region }
        ensures ok { IfOk result (λ r. IsOpened links region r.0 r.1) }
        ensures err { IfErr result (λ e. (e.0 ≡ region) × (e.1 ≡ links)) }
    {
        let opening = Opening {
            region: Snapshot::of(&region),
            links: Snapshot::of(&links),
        };
        match Gate::new(alloc, region, &opening) {
            Ok((gate, seat)) => Ok((SerializedGraph { gate, links }, seat)),
            Err(region) => Err((region, links)),
        }
    }

    /// The links of the emitters and the taps, for threads that work at their ends alone.
    pub fn links(&self) -> &Links<O::Item>
        ensures { result.now ≡ self.now.links }
    {
        &self.links
    }

    /// A new seat, for another thread to poke by, which has made no step. It has one part, which comes from the old seat; that must have
    /// another one left. The old seat is the same but for that part, and keeps its steps.
    pub fn split(&self, seat: &mut GraphSeat<O>) -> GraphSeat<O>
        requires seat { IsSeatOf self.now.gate seat.old }
        requires parts { 1 < seat.old.me.0.parts }
        ensures old { IsSeatOf self.now.gate seat.new × (seat.new.id ≡ seat.old.id) × (seat.new.me.0 ≡ fewer seat.old.me.0) }
        ensures new { IsSeatOf self.now.gate result × (result.me.0 ≡ newcomer (Some (key_of self.now.gate))) }
    {
        self.gate.split(seat)
    }

    /// Ends a seat, once its thread pokes no more. Its parts and its lists of steps go to the first seat, which stays the same else and
    /// keeps its own steps apart from them.
    pub fn join(&self, seat: &mut GraphSeat<O>, other: GraphSeat<O>)
        requires { IsSeatOf self.now.gate seat.old × IsSeatOf self.now.gate other }
        ensures { IsSeatOf self.now.gate seat.new × (seat.new.id ≡ seat.old.id) × (seat.new.me.0 ≡ joined seat.old.me.0 other.me.0) }
    {
        self.gate.join(seat, other);
    }

    /// Ends the gate, and gives the graph back between its links, by a seat that has all parts. Whatever all threads did, in any order, it
    /// stands for what the graph stood for that was put behind the gate, with what has happened since: at each hub was published what came
    /// of its emitter, but for the one signal that waits; each subscriber received what was sent to its tap, and what waits to be sent; it
    /// asked for what its end saw, and was cancelled only where its end saw a flag.
    pub fn stop(self, seat: GraphSeat<O>) -> (GraphRegion<O>, Links<O::Item>)
        requires { IsSeatOf self.gate seat × (all_parts ≤ seat.me.0.parts) }
        ensures stopped { HasStopped self.links (key_of self.gate).region.value result.0 }
        ensures links { result.1 ≡ self.links }
    {
        let SerializedGraph { gate, links } = self;
        match gate.close(seat) {
            Ok(region) => (region, links),
            Err(region) => (region, links),
        }
    }

    /// Works on the graph: where no other seat has it, it is served by [`GraphRegion::serve`] until nothing is left to do and no one poked
    /// it meanwhile, and at most [`ROUNDS`] times. The seat has no pass before or after, and keeps its parts; it made just the steps
    /// that the answer tells of. No call waits.
    pub fn poke(&self, alloc: Global, seat: &mut GraphSeat<O>, budget: u32) -> PokeAnswer
        requires { IsSeatOf self.now.gate seat.old }
        ensures seat { IsSeatOf self.now.gate seat.new }
        ensures parts { seat.new.me.0.parts ≡ seat.old.me.0.parts }
        ensures steps { Went result seat.old.me.0.steps seat.new.me.0.steps }
    {
        visit(alloc, &self.gate, &self.links, seat, budget)
    }
}

/// The same of a gate and its links.
fn visit<O: Ops>(
    alloc: Global,
    gate: &GraphGate<O>,
    links: &Links<O::Item>,
    seat: &mut GraphSeat<O>,
    budget: u32,
) -> PokeAnswer
    requires seat { IsSeatOf gate.now seat.old }
    requires opened { (key_of gate.now).links.value ≡ links.now }
    ensures seat { IsSeatOf gate.now seat.new }
    ensures parts { seat.new.me.0.parts ≡ seat.old.me.0.parts }
    ensures steps { Went result seat.old.me.0.steps seat.new.me.0.steps }
{
    if !gate.take(seat) {
        return PokeAnswer::Noted;
    }
    for round in 0..ROUNDS {
        mark_held(gate, seat);
        match serve_held(alloc, gate, links, seat, budget) {
            Served::Idle => {
                if leave_held(gate, seat) {
                    return PokeAnswer::Idle;
                }
            }
            Served::Budget => {
                gate.release(seat);
                return PokeAnswer::Budget;
            }
            Served::NoMemory => {
                gate.release(seat);
                return PokeAnswer::NoMemory;
            }
        }
    }
    gate.release(seat);
    PokeAnswer::More
}

/// The mark of a seat that has the graph. It keeps it.
fn mark_held<O: Ops>(gate: &GraphGate<O>, seat: &mut GraphSeat<O>)
    requires { HasFitting gate.now (Holds gate.now seat.old) }
    ensures holds { HasFitting gate.now (Holds gate.now seat.new) }
    ensures marked { Marked seat.old seat.new }
{
    gate.mark(seat);
}

/// The leave of such a seat, for whose graph nothing is left to do, and whether the graph is free now. Else the seat keeps it.
fn leave_held<O: Ops>(gate: &GraphGate<O>, seat: &mut GraphSeat<O>) -> bool
    requires { HasFitting gate.now (λ r. Holds gate.now seat.old r × IsAtRest r) }
    ensures { MatchBool result (IsGone gate.now seat.old seat.new) (IsMissed seat.old seat.new × HasFitting gate.now (Holds gate.now seat.new)) }
{
    gate.try_leave(seat)
}

/// Serves the graph of a seat that has it. It fits before and after, and the seat makes no step.
fn serve_held<O: Ops>(
    alloc: Global,
    gate: &GraphGate<O>,
    links: &Links<O::Item>,
    seat: &mut GraphSeat<O>,
    budget: u32,
) -> Served
    requires opened { (key_of gate.now).links.value ≡ links.now }
    requires holds { HasFitting gate.now (Holds gate.now seat.old) }
    ensures holds { HasFitting gate.now (Holds gate.now seat.new) }
    ensures rests { result ≡ Served.Idle → HasFitting gate.now (λ r. Holds gate.now seat.new r × IsAtRest r) }
    ensures steps { seat.new.me.0 ≡ seat.old.me.0 }
{
    Gate::value_of(seat, gate).serve(alloc, links, budget)
}
