//! The regions that a graph keeps beside the rows of its subscriptions and feeds.

ghost use Rattle.std.specs.Prelude.{◌≡◌, length};

use std::alloc::Global;

/// The regions of the trees of a graph: which worker serves the root of each subscription, and between which regions signals go over
/// the edges of its trees. They follow from the expressions (`rsx_model::region_of`, [`senders_of`](crate::senders_of)).
#[derive(Drop)]
pub struct Regions {
    /// Of each subscription the region of its root, whose edge leads to the subscriber.
    pub roots: Vec<u8>,
    /// Of each subscription the regions of the senders of the edges below its root that cross, in pre-order.
    pub senders: Vec<Vec<u8>>,
    /// Of each feed the regions of the senders of its edges that cross, in pre-order. The first is that of its root where this isn't
    /// region 0, in which all hubs are.
    pub feed_senders: Vec<Vec<u8>>,
    pub ghost even: { length senders.items ≡ length roots.items },
}

impl Regions {
    ghost use Rattle.std.specs.Prelude.{◌≡◌};
    ghost use Rattle.rsx_graph_calls.specs.Regions.{no_regions, regions_of};

    /// Those of a graph with no subscription and no feed.
    pub fn new(alloc: Global) -> Regions
        ensures { regions_of result ≡ no_regions }
    {
        Regions {
            roots: Vec::new(alloc),
            senders: Vec::new(alloc),
            feed_senders: Vec::new(alloc),
        }
    }
}
