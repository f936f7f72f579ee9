//! The pieces of trees that were cut go into regions, each behind a gate of its own.

ghost use Rattle.std.specs.Prelude.{◌≡◌, ◌+◌, ◌<◌, ◌≤◌, ◌∷◌, ◌++◌, List, [], length, IfErr, IfOk};
ghost use Rattle.std.specs.List.{AllZip};
ghost use Rattle.rsx_gate.specs.Machine.{all_parts};
ghost use Rattle.rsx_gate.specs.Seats.{IsSeatOf};
ghost use Rattle.std.specs.Vec.{vec_capacity};
ghost use Rattle.rsx_region.specs.Pieces.{Each, none_taken};
ghost use Rattle.rsx_region.specs.declared.region.Region.{Region as RegionSpec};

use crate::closing::Plan;
use crate::live::{Live, RegionGate, RegionSeat};
use crate::stopping::end_each;
use rsx_gate::Gate;
use rsx_link::Link;
use rsx_pipe::{CrossingNodes, Nodes};
use rsx_region::{CutTrees, Opening, Region, gather, spread};
use rsx_types::{NoMemory, Ops};
use std::alloc::Global;
use std::snapshot::Snapshot;

/// A graph that has gone live.
#[derive(Drop)]
pub struct Begun<N: Nodes<Item = T>, T: Drop, O: Ops<Item = T>> {
    /// The graph.
    pub live: Live<N, T, O>,
    /// The first seat of each gate, in the order of the gates. Each has all parts.
    pub seats: Vec<RegionSeat<N, T, O>>,
    /// What [`Live::close`] needs.
    pub plan: Plan<N, T>,
}

/// Gates with their first seats.
#[derive(Drop)]
pub(crate) struct Gated<N: Nodes<Item = T>, T: Drop, O: Ops<Item = T>> {
    /// The gates.
    pub(crate) gates: Vec<RegionGate<N, T, O>>,
    /// The first seat of each gate, in their order.
    pub(crate) seats: Vec<RegionSeat<N, T, O>>,
    /// The list in which the regions stood. It has room for all of them.
    pub(crate) regions: Vec<Region<N, T>>,
}

impl<N: Nodes<Item = T> + Drop, T: Drop, O: Ops<Item = T>> Gated<N, T, O> {
    ghost use Rattle.rsx_runtime.specs.Beginning.{AreBackOf, AreGatesFor, HasRoomFor, IsReady};

    /// So many regions without pieces, in the order of their numbers, and room for their gates.
    fn with_room(alloc: Global, count: u8) -> Result<Gated<N, T, O>, NoMemory>
        ensures none { IfOk result (λ m. (m.gates.items ≡ []) × (m.seats.items ≡ [])) }
        ensures regions { IfOk result (λ m. (length m.regions.items ≡ count) × Each (λ r. r.pieces.items ≡ []) m.regions.items) }
        ensures room { IfOk result (λ m. HasRoomFor count m) }
    {
        let gates = Vec::with_capacity(alloc, usize::from(count))?;
        let seats = Vec::with_capacity(alloc, usize::from(count))?;
        let mut regions = Vec::with_capacity(alloc, usize::from(count))?;
        for number in 0..count {
            regions.push_reserved(Region::new(alloc, number, Vec::new(alloc)));
        }
        Ok(Gated {
            gates,
            seats,
            regions,
        })
    }

    /// Makes a gate for each region of the list, in their order. There are no gates before, and room for all.
    ///
    /// # Errors
    /// The regions come back, each of which stands for what it stood for, where a growth was refused. It calls itself once for each
    /// region.
    pub(crate) fn gate_each(
        self,
        alloc: Global,
        ops: &O,
        links: &Vec<Link<T>>,
        values: u64,
    ) -> Result<Gated<N, T, O>, Vec<Region<N, T>>>
        requires ready { Each (IsReady N.Machine (O.meaning ops.now) values links.now.items) self.regions.items }
        requires none { (self.gates.items ≡ []) × (self.seats.items ≡ []) }
        requires room { HasRoomFor (length self.regions.items) self }
        ensures ok { IfOk result (λ m. AreGatesFor links.now.items ops.now values self.regions.items m) }
        ensures room { IfOk result (λ m. (vec_capacity m.gates ≡ vec_capacity self.gates) × (vec_capacity m.seats ≡ vec_capacity self.seats) × (vec_capacity m.regions ≡ vec_capacity self.regions)) }
        ensures err { IfErr result (λ rs. AreBackOf N.Machine (O.meaning ops.now) values links.now.items self.regions.items rs.items) }
        ensures back { IfErr result (λ rs. vec_capacity rs ≡ vec_capacity self.regions) }
    {
        let Gated {
            gates,
            seats,
            mut regions,
        } = self;
        let Some(region) = regions.pop() else {
            return Ok(Gated {
                gates,
                seats,
                regions,
            });
        };
        let others = Gated {
            gates,
            seats,
            regions,
        };
        match others.gate_each(alloc, ops, links, values) {
            Ok(made) => made.gate_one(alloc, ops, links, values, region),
            Err(mut regions) => {
                regions.push_reserved(region);
                Err(regions)
            }
        }
    }

    /// Makes a gate for the region, behind the others.
    ///
    /// # Errors
    /// All regions come back where a growth was refused.
    fn gate_one(
        self,
        alloc: Global,
        ops: &O,
        links: &Vec<Link<T>>,
        values: u64,
        region: Region<N, T>,
    ) -> Result<Gated<N, T, O>, Vec<Region<N, T>>>
        requires ready { IsReady N.Machine (O.meaning ops.now) values links.now.items region }
        requires made { (rs : List (RegionSpec N T)) × AreGatesFor links.now.items ops.now values rs self }
        requires room { HasRoomFor (length self.gates.items + 1) self }
        ensures ok { IfOk result (λ m. (rs : List (RegionSpec N T)) → AreGatesFor links.now.items ops.now values rs self → AreGatesFor links.now.items ops.now values (rs ++ region ∷ []) m) }
        ensures room { IfOk result (λ m. (vec_capacity m.gates ≡ vec_capacity self.gates) × (vec_capacity m.seats ≡ vec_capacity self.seats) × (vec_capacity m.regions ≡ vec_capacity self.regions)) }
        ensures err { IfErr result (λ back. (rs : List (RegionSpec N T)) → AreGatesFor links.now.items ops.now values rs self → AreBackOf N.Machine (O.meaning ops.now) values links.now.items (rs ++ region ∷ []) back.items) }
        ensures back { IfErr result (λ back. vec_capacity back ≡ vec_capacity self.regions) }
    {
        let Gated {
            mut gates,
            mut seats,
            regions,
        } = self;
        let opening = Opening {
            number: region.number,
            values,
            ops: Snapshot::of(ops),
            pieces: Snapshot::of(&region.pieces),
            links: Snapshot::of(links),
        };
        match Gate::new(alloc, region, &opening) {
            Ok((gate, seat)) => {
                gates.push_reserved(gate);
                seats.push_reserved(seat);
                Ok(Gated {
                    gates,
                    seats,
                    regions,
                })
            }
            Err(region) => {
                let mut back = end_each(gates, seats, regions);
                back.push_reserved(region);
                Err(back)
            }
        }
    }
}

impl<N: CrossingNodes<Item = T> + Drop, T: Drop, O: Ops<Item = T>> Live<N, T, O> {
    ghost use Rattle.rsx_region.specs.Trees.{AreCutFrom, HaveGoneSince, Stage};
    ghost use Rattle.rsx_runtime.specs.Closing.{IsLiveOf};

    /// Puts the pieces of trees that were cut into `count` regions, each into that at its place, and opens a gate for each region.
    /// `values` is how many hubs and links there are. [`Live::close`] gives the trees back.
    ///
    /// # Errors
    /// All comes back where a growth was refused, and each piece stands for what it stood for.
    pub fn begin(
        alloc: Global,
        ops: O,
        trees: CutTrees<N, T>,
        places: Vec<u8>,
        count: u8,
        values: u64,
    ) -> Result<Begun<N, T, O>, (O, CutTrees<N, T>, Vec<u8>)>
        requires count { length places.items ≡ length trees.pieces.items }
        requires there { Each (λ p. p < count) places.items }
        requires from { (whole : Stage N T) × AreCutFrom N.Machine N.CrossingNodes.own (O.meaning ops) (none_taken values) whole trees }
        ensures live { IfOk result (λ s. (whole : Stage N T) → AreCutFrom N.Machine N.CrossingNodes.own (O.meaning ops) (none_taken values) whole trees → IsLiveOf N.Machine N.CrossingNodes.own O.meaning values whole s.live s.plan) }
        ensures seats { IfOk result (λ s. AllZip (λ g x. IsSeatOf g x × (all_parts ≤ x.me.0.parts)) s.live.gates.items s.seats.items) }
        ensures gates { IfOk result (λ s. (length s.live.gates.items ≡ count) × (s.live.ops ≡ ops) × (s.live.links ≡ trees.links)) }
        ensures room { IfOk result (λ s. length s.live.gates.items ≤ vec_capacity s.plan.regions) }
        ensures err { IfErr result (λ e. (e.0 ≡ ops) × (e.2 ≡ places)) }
        ensures since { IfErr result (λ e. (whole : Stage N T) → AreCutFrom N.Machine N.CrossingNodes.own (O.meaning ops) (none_taken values) whole trees → (opening : Stage N T) × HaveGoneSince N.Machine N.CrossingNodes.own (O.meaning ops) (none_taken values) (none_taken values) whole opening e.1) }
    {
        let Ok(mut room) = Gated::with_room(alloc, count) else {
            return Err((ops, trees, places));
        };
        let CutTrees {
            mut pieces,
            links,
            edges,
        } = trees;
        if spread(alloc, &mut pieces, &places, &mut room.regions, links.len()).is_err() {
            let trees = CutTrees {
                pieces,
                links,
                edges,
            };
            return Err((ops, trees, places));
        }
        match room.gate_each(alloc, &ops, &links, values) {
            Ok(
                Gated {
                    gates,
                    seats,
                    regions,
                },
            ) => {
                let plan = Plan {
                    places,
                    edges,
                    pieces,
                    regions,
                };
                let live = Live { gates, links, ops };
                Ok(Begun { live, seats, plan })
            }
            Err(mut regions) => {
                gather(&mut pieces, &places, &mut regions);
                let trees = CutTrees {
                    pieces,
                    links,
                    edges,
                };
                Err((ops, trees, places))
            }
        }
    }
}
