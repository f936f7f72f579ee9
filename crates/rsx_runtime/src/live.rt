//! The regions with their gates, and how a thread works on one.

ghost use Rattle.std.specs.Prelude.{◌≡◌, ◌<◌, ⊤, [], IfErr, IfOk, MatchBool, Some, length, slice_get};
ghost use Rattle.rsx_gate.specs.Machine.{founder};
ghost use Rattle.rsx_gate.specs.Seats.{Holds, IsGone, IsMissed, IsSeatOf, Marked, key_of};
ghost use Rattle.rsx_region.specs.Pieces.{Each, IsAt, none_taken};
ghost use Rattle.rsx_region.specs.Regions.{ArePiecesOf, RegionStands};
ghost use Rattle.rsx_runtime.specs.Passing.{HasServed};
ghost use Rattle.rsx_runtime.specs.Poking.{HasFitting, IsAdded, IsAmong, IsGateOf, Went};

use crate::ROUNDS;
use rsx_gate::{Gate, Seat};
use rsx_link::Link;
use rsx_pipe::Nodes;
use rsx_region::{Answer, Opening, Region, Served};
use rsx_rooted::Batches;
use rsx_types::Ops;
use std::alloc::Global;
use std::snapshot::Snapshot;

/// The gate of a region.
pub type RegionGate<N, T, O> = Gate<Region<N, T>, Opening<N, T, O>>;

/// What a thread enters such a gate by.
pub type RegionSeat<N, T, O> = Seat<Region<N, T>, Opening<N, T, O>>;

/// Why a poke ended.
#[derive(Clone, Copy, Debug, PartialEq, Eq)]
pub enum PokeAnswer {
    /// Another seat had the region. A note is left for it, and it will look for work once more.
    Noted,
    /// All was done that there was to do, and no one poked the region since it was looked for.
    Idle,
    /// All was done that there was to do, and yet others poked the region again and again. Poke it again.
    More,
    /// The budget was used up. Poke it again.
    Budget,
    /// A growth was refused. What was done before stands.
    NoMemory,
}

/// What a poke of a region came to.
#[derive(Clone, Copy, Debug, PartialEq, Eq)]
pub struct Poked {
    /// Why it ended.
    pub answer: PokeAnswer,
    /// Which regions have to be poked behind it, as [`Served::rouse`] says: region w by the bit of 2^w.
    pub rouse: u16,
}

/// A graph whose regions are worked on by several threads. It is shared by reference.
#[derive(Drop)]
pub struct Live<N: Nodes<Item = T>, T: Drop, O: Ops<Item = T>> {
    pub(crate) gates: Vec<RegionGate<N, T, O>>,
    pub(crate) links: Vec<Link<T>>,
    pub(crate) ops: O,
    pub ghost opened: { Each (IsGateOf links.items ops) gates.items },
}

impl<N: Nodes<Item = T>, T: Drop, O: Ops<Item = T>> Live<N, T, O> {
    /// A graph with these links, and no region yet.
    pub fn new(alloc: Global, ops: O, links: Vec<Link<T>>) -> Live<N, T, O>
        ensures { (result.gates.items ≡ []) × (result.links ≡ links) × (result.ops ≡ ops) }
    {
        Live {
            gates: Vec::new(alloc),
            links,
            ops,
        }
    }

    /// Adds a region behind the others, and answers the first seat of its gate. Its pieces are between the links of the graph, and
    /// `values` is how many hubs and links there are, in all regions.
    ///
    /// # Errors
    /// The region comes back as it was where there was no memory for its gate.
    pub fn add(
        &mut self,
        alloc: Global,
        values: u64,
        region: Region<N, T>,
    ) -> Result<RegionSeat<N, T, O>, Region<N, T>>
        requires ends { ArePiecesOf self.old.links.items region.pieces.items }
        requires stands { RegionStands N.Machine (O.meaning self.old.ops) (none_taken values) region.pieces.items region.pieces.items }
        ensures ok { IfOk result (λ s. IsAdded self.old.gates.items self.new.gates.items (λ g. IsSeatOf g s × (s.me.0 ≡ founder (key_of g)) × (key_of g).number ≡ region.number)) }
        ensures err { IfErr result (λ r. (r ≡ region) × (self.new.gates.items ≡ self.old.gates.items)) }
        ensures same { (self.new.links ≡ self.old.links) × (self.new.ops ≡ self.old.ops) }
    {
        if self.gates.reserve(1).is_err() {
            return Err(region);
        }
        let opening = Opening {
            number: region.number,
            values,
            ops: Snapshot::of(&self.ops),
            pieces: Snapshot::of(&region.pieces),
            links: Snapshot::of(&self.links),
        };
        let (gate, seat) = Gate::new(alloc, region, &opening)?;
        self.gates.push_reserved(gate);
        Ok(seat)
    }

    /// The gate of the region at this place.
    pub fn gate(&self, region: u8) -> &RegionGate<N, T, O>
        requires { region < length self.now.gates.items }
        ensures { slice_get self.now.gates.items region ≡ Some result.now }
    {
        &self.gates[usize::from(region)]
    }

    /// The link with this number.
    pub(crate) fn link(&self, number: u32) -> &Link<T>
        requires { IsAt self.now.links.items number (λ l. ⊤) }
        ensures { slice_get self.now.links.items number ≡ Some result.now }
    {
        &self.links[number as usize]
    }
}

impl<N: Nodes<Item = T> + Batches, T: Drop, O: Ops<Item = T>> Live<N, T, O> {
    /// Works on the region at this place, by a seat of its gate: where no other seat has the region, it is served by
    /// [`Region::serve`] until nothing is left to do and no one poked it meanwhile, and at most [`ROUNDS`] times. The seat has no
    /// pass before or after, and keeps its parts; it made just the steps that the answer tells of. No call waits.
    ///
    /// A poke that was told [`PokeAnswer::Idle`] may still have asked for more over a link between two pieces of the region: the region's
    /// own bit of `rouse` is set then.
    pub fn poke(
        &self,
        alloc: Global,
        region: u8,
        seat: &mut RegionSeat<N, T, O>,
        budget: u32,
    ) -> Poked
        requires { IsAmong self.now.gates.items region (λ g. IsSeatOf g seat.old) }
        ensures seat { IsAmong self.now.gates.items region (λ g. IsSeatOf g seat.new) }
        ensures parts { seat.new.me.0.parts ≡ seat.old.me.0.parts }
        ensures steps { Went result.answer seat.old.me.0.steps seat.new.me.0.steps }
    {
        visit(
            alloc,
            &self.ops,
            self.gate(region),
            &self.links,
            seat,
            budget,
        )
    }
}

/// A poke of the region behind this gate.
fn visit<N: Nodes<Item = T> + Batches, T: Drop, O: Ops<Item = T>>(
    alloc: Global,
    ops: &O,
    gate: &RegionGate<N, T, O>,
    links: &[Link<T>],
    seat: &mut RegionSeat<N, T, O>,
    budget: u32,
) -> Poked
    requires seat { IsSeatOf gate.now seat.old }
    requires opened { IsGateOf links.now ops.now gate.now }
    ensures seat { IsSeatOf gate.now seat.new }
    ensures parts { seat.new.me.0.parts ≡ seat.old.me.0.parts }
    ensures steps { Went result.answer seat.old.me.0.steps seat.new.me.0.steps }
{
    let mut rouse = 0;
    if !gate.take(seat) {
        return Poked {
            answer: PokeAnswer::Noted,
            rouse,
        };
    }
    for round in 0..ROUNDS {
        mark_held(gate, seat);
        let served = serve_held(alloc, ops, gate, links, seat, budget);
        rouse |= served.rouse;
        match served.answer {
            Answer::Idle => {
                if leave_held(gate, seat) {
                    return Poked {
                        answer: PokeAnswer::Idle,
                        rouse,
                    };
                }
            }
            Answer::Budget => {
                gate.release(seat);
                return Poked {
                    answer: PokeAnswer::Budget,
                    rouse,
                };
            }
            Answer::NoMemory => {
                gate.release(seat);
                return Poked {
                    answer: PokeAnswer::NoMemory,
                    rouse,
                };
            }
        }
    }
    gate.release(seat);
    Poked {
        answer: PokeAnswer::More,
        rouse,
    }
}

impl<N: Nodes<Item = T> + Batches, T: Drop, O: Ops<Item = T>> Live<N, T, O> {
    /// Serves the region at this place by a seat that has it.
    pub(crate) fn serve_seat(
        &self,
        alloc: Global,
        region: u8,
        seat: &mut RegionSeat<N, T, O>,
        budget: u32,
    ) -> Served
        requires { IsAmong self.now.gates.items region (λ g. HasFitting N.Machine O.meaning g (Holds g seat.old)) }
        ensures { IsAmong self.now.gates.items region (λ g. HasServed N.Machine O.meaning self.now.ops self.now.links.items budget result g seat.old seat.new) }
    {
        serve_held(
            alloc,
            &self.ops,
            self.gate(region),
            &self.links,
            seat,
            budget,
        )
    }
}

/// The mark of a seat that has the region. It keeps it.
pub(crate) fn mark_held<N: Nodes<Item = T>, T: Drop, O: Ops<Item = T>>(
    gate: &RegionGate<N, T, O>,
    seat: &mut RegionSeat<N, T, O>,
)
    requires { HasFitting N.Machine O.meaning gate.now (Holds gate.now seat.old) }
    ensures holds { HasFitting N.Machine O.meaning gate.now (Holds gate.now seat.new) }
    ensures marked { Marked seat.old seat.new }
{
    gate.mark(seat);
}

/// The leave of such a seat, and whether the region is free now. Else the seat keeps it.
pub(crate) fn leave_held<N: Nodes<Item = T>, T: Drop, O: Ops<Item = T>>(
    gate: &RegionGate<N, T, O>,
    seat: &mut RegionSeat<N, T, O>,
) -> bool
    requires { HasFitting N.Machine O.meaning gate.now (Holds gate.now seat.old) }
    ensures { MatchBool result (IsGone gate.now seat.old seat.new) (IsMissed seat.old seat.new × HasFitting N.Machine O.meaning gate.now (Holds gate.now seat.new)) }
{
    gate.try_leave(seat)
}

/// Serves the region of a seat that has it. It fits before and after, and the seat makes no step.
fn serve_held<N: Nodes<Item = T> + Batches, T: Drop, O: Ops<Item = T>>(
    alloc: Global,
    ops: &O,
    gate: &RegionGate<N, T, O>,
    links: &[Link<T>],
    seat: &mut RegionSeat<N, T, O>,
    budget: u32,
) -> Served
    requires opened { IsGateOf links.now ops.now gate.now }
    requires holds { HasFitting N.Machine O.meaning gate.now (Holds gate.now seat.old) }
    ensures { HasServed N.Machine O.meaning ops.now links.now budget result gate.now seat.old seat.new × HasFitting N.Machine O.meaning gate.now (Holds gate.now seat.new) }
{
    Gate::value_of(seat, gate).serve(alloc, ops, links, budget)
}
