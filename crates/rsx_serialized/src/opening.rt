//! What a gate keeps of a graph.

ghost use Rattle.rsx_serialized.specs.Regions.{GoesOn};

use crate::region::{GraphRegion, Links};
use rsx_gate::Kept;
use rsx_types::Ops;
use std::snapshot::Snapshot;

/// What a graph began with: the key of its gate. Nothing of it is kept; contracts alone read it.
#[derive(Drop)]
pub struct Opening<O: Ops> {
    /// The graph and the ends of its links, as they were then.
    pub region: Snapshot<GraphRegion<O>>,
    /// The links.
    pub links: Snapshot<Links<O::Item>>,
}

// Whenever no one has the pass, the graph stands for what it stood for at the opening, with what has happened since, and its ends are
// those of its links.
impl<O: Ops> Kept<Opening<O>> for GraphRegion<O> {
    ghost fits = { λ key region. GoesOn key.links.value key.region.value region };
}
