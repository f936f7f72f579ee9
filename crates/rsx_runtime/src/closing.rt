//! The pieces of a live graph come back as the trees that were cut.

ghost use Rattle.std.specs.Prelude.{◌≡◌, ◌≤◌, ℕ, [], length};
ghost use Rattle.std.specs.List.{AllZip};
ghost use Rattle.std.specs.Vec.{vec_capacity};
ghost use Rattle.rsx_gate.specs.Machine.{all_parts};
ghost use Rattle.rsx_gate.specs.Seats.{IsSeatOf};

use crate::live::{Live, RegionSeat};
use crate::stopping::end_each;
use rsx_pipe::CrossingNodes;
use rsx_region::{CutEdge, CutTrees, Piece, Region, gather};
use rsx_types::Ops;

/// What is kept of trees that were cut, while their pieces are in the regions of a live graph.
#[derive(Drop)]
pub struct Plan<N, T> {
    /// The region of each piece, by its place among the pieces.
    pub places: Vec<u8>,
    /// The edges at which the trees were cut, in the order of the cuts.
    pub edges: Vec<CutEdge<T>>,
    /// The list in which the pieces stood. It is empty, and has room for them.
    pub pieces: Vec<Piece<N, T>>,
    /// The list in which the regions stood. It is empty, and has room for them.
    pub regions: Vec<Region<N, T>>,
    pub ghost none: { (pieces.items ≡ []) × (regions.items ≡ []) },
    pub ghost room: { length places.items ≤ vec_capacity pieces },
}

impl<N: CrossingNodes<Item = T> + Drop, T: Drop, O: Ops<Item = T>> Live<N, T, O> {
    ghost use Rattle.rsx_region.specs.Pieces.{none_taken};
    ghost use Rattle.rsx_region.specs.Trees.{HaveGoneSince, Stage};
    ghost use Rattle.rsx_runtime.specs.Closing.{IsLive, IsLiveOf};

    /// Ends the gates, and takes the pieces out of the regions, in the order in which the trees were cut, so that
    /// [`CutTrees::join_all`] joins them. Whatever all threads did in the regions, in any order, each piece stands for what it stood for
    /// when the trees had been cut. There is one seat for each gate, in their order, and it has all parts. It takes no memory.
    pub fn close(self, seats: Vec<RegionSeat<N, T, O>>, plan: Plan<N, T>) -> (CutTrees<N, T>, O)
        requires seats { AllZip (λ g s. IsSeatOf g s × (all_parts ≤ s.me.0.parts)) self.gates.items seats.items }
        requires live { IsLive N.Machine N.CrossingNodes.own O.meaning self plan }
        requires room { length self.gates.items ≤ vec_capacity plan.regions }
        ensures since { (n : ℕ) (whole : Stage N T) → IsLiveOf N.Machine N.CrossingNodes.own O.meaning n whole self plan →
            (opening : Stage N T) × HaveGoneSince N.Machine N.CrossingNodes.own (O.meaning self.ops) (none_taken n) (none_taken n) whole opening result.0 }
        ensures same { (result.1 ≡ self.ops) × (result.0.links ≡ self.links) × (result.0.edges ≡ plan.edges) }
    {
        let Live { gates, links, ops } = self;
        let Plan {
            places,
            edges,
            mut pieces,
            regions,
        } = plan;
        let mut regions = end_each(gates, seats, regions);
        gather(&mut pieces, &places, &mut regions);
        let trees = CutTrees {
            pieces,
            links,
            edges,
        };
        (trees, ops)
    }
}
