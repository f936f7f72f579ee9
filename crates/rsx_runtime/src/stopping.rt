//! The gates of a live graph end, and its regions come back.

ghost use Rattle.std.specs.Prelude.{◌≡◌, ◌+◌, ◌≤◌, ◌++◌, List, length};
ghost use Rattle.rsx_region.specs.declared.region.Region.{Region as RegionSpec};
ghost use Rattle.std.specs.List.{AllZip};
ghost use Rattle.rsx_gate.specs.Machine.{all_parts};
ghost use Rattle.rsx_gate.specs.Seats.{IsSeatOf};
ghost use Rattle.rsx_runtime.specs.Stopping.{HaveFitting};

use crate::live::{Live, RegionGate, RegionSeat};
use rsx_link::Link;
use rsx_pipe::Nodes;
use rsx_region::Region;
use rsx_types::Ops;
use std::alloc::Global;

/// What a live graph was, once its gates have ended.
#[derive(Drop)]
pub struct Stopped<N, T, O> {
    /// The regions, in the order of their gates.
    pub regions: Vec<Region<N, T>>,
    /// The links between their pieces.
    pub links: Vec<Link<T>>,
    /// The functions of the caller.
    pub ops: O,
}

impl<N: Nodes<Item = T> + Drop, T: Drop, O: Ops<Item = T>> Live<N, T, O> {
    ghost use Rattle.std.specs.Prelude.{◌≡◌, IfOk, IfErr};

    /// Ends the gates, and gives the regions back, each of which stands for what it stood for since the opening. There is one seat for
    /// each gate, in their order, and it has all parts: the other seats of the gate were joined into it.
    ///
    /// # Errors
    /// The graph and the seats come back as they were where there was no memory for the list of regions.
    pub fn stop(
        self,
        alloc: Global,
        seats: Vec<RegionSeat<N, T, O>>,
    ) -> Result<Stopped<N, T, O>, (Live<N, T, O>, Vec<RegionSeat<N, T, O>>)>
        requires { AllZip (λ g s. IsSeatOf g s × (all_parts ≤ s.me.0.parts)) self.gates.items seats.items }
        ensures regions { IfOk result (λ s. HaveFitting N.Machine O.meaning self.gates.items s.regions.items) }
        ensures same { IfOk result (λ s. (s.links ≡ self.links) × (s.ops ≡ self.ops)) }
        ensures err { IfErr result (λ e. (e.0 ≡ self) × (e.1 ≡ seats)) }
    {
        let Ok(regions) = Vec::with_capacity(alloc, self.gates.len()) else {
            return Err((self, seats));
        };
        let Live { gates, links, ops } = self;
        let regions = end_each(gates, seats, regions);
        Ok(Stopped {
            regions,
            links,
            ops,
        })
    }
}

/// Ends these gates, and puts their regions behind others, for which there is room. It calls itself once for each gate.
pub(crate) fn end_each<N: Nodes<Item = T> + Drop, T: Drop, O: Ops<Item = T>>(
    gates: Vec<RegionGate<N, T, O>>,
    seats: Vec<RegionSeat<N, T, O>>,
    regions: Vec<Region<N, T>>,
) -> Vec<Region<N, T>>
    requires seats { AllZip (λ g s. IsSeatOf g s × (all_parts ≤ s.me.0.parts)) gates.items seats.items }
    requires room { length regions.items + length gates.items ≤ regions.cap }
    ensures list { (ended : List (RegionSpec N T)) × (result.items ≡ regions.items ++ ended) × HaveFitting N.Machine O.meaning gates.items ended }
    ensures room { result.cap ≡ regions.cap }
{
    let mut gates = gates;
    let mut seats = seats;
    let Some(gate) = gates.pop() else {
        return regions;
    };
    let Some(seat) = seats.pop() else {
        return regions;
    };
    let mut ended = end_each(gates, seats, regions);
    match gate.close(seat) {
        Ok(region) => ended.push_reserved(region),
        Err(region) => ended.push_reserved(region),
    }
    ended
}
