//! What a gate keeps of a region.

ghost use Rattle.rsx_region.specs.Pieces.{none_taken};
ghost use Rattle.rsx_region.specs.Regions.{RegionFits};

use crate::piece::Piece;
use crate::region::Region;
use rsx_gate::Kept;
use rsx_link::Link;
use rsx_pipe::Nodes;
use rsx_types::Ops;
use std::snapshot::Snapshot;

/// What a region began with: the key of its gate. Of the operators, the pieces and the links nothing is kept; contracts alone read them.
#[derive(Drop)]
pub struct Opening<N, T, O> {
    /// The number of the region.
    pub number: u8,
    /// How many hubs and links there are, in all regions.
    pub values: u64,
    /// The functions of the operators.
    pub ops: Snapshot<O>,
    /// The pieces, as they were then.
    pub pieces: Snapshot<Vec<Piece<N, T>>>,
    /// The links, of all regions.
    pub links: Snapshot<Vec<Link<T>>>,
}

// Whenever no one has the pass, each piece stands for what it stood for at the opening, and its ends are those of its links.
impl<N: Nodes<Item = T>, T: Drop, O: Ops<Item = T>> Kept<Opening<N, T, O>> for Region<N, T> {
    ghost fits = { λ key region. RegionFits N.Machine (O.meaning key.ops.value) key.number (none_taken key.values) key.pieces.value.items key.links.value.items region };
}
