//! An operator with its out slot, as one of a graph's nodes.

use crate::{Processor, ProcessorNode};
use rsx_rooted::{Nodes, Route};
use rsx_tree::Edge;
use rsx_waits::Operator;

impl<P: Processor<Item = T>, T: Drop> Nodes for ProcessorNode<P, T> {
    ghost use Rattle.std.specs.Prelude.{false, None};
    ghost use Rattle.rsx_rooted.specs.declared.nodes.Route.TheVariants.{Straight};
    ghost use Rattle.rsx_processor.specs.Laws.{node_local, node_rests, reads_nothing};
    ghost use Rattle.rsx_waits.specs.declared.operator.Operator.TheVariants.{Own};

    ghost route_by = { λ n state asked sent. Straight };

    ghost operator_of = { λ n. Own };

    ghost queued_of = { λ n input. None };

    ghost crossing_of = { λ n. None };

    ghost lanes_of = { λ n. None };

    fn route(&self, edge: &Edge) -> Route {
        Route::Straight
    }

    fn operator(&self) -> Operator {
        Operator::Own
    }

    fn queued_at(&self, input: u64) -> Option<u64> {
        None
    }

    fn crossing(&self) -> Option<u64> {
        None
    }

    fn lanes(&self) -> Option<u64> {
        None
    }

    ghost rests = { λ m n taken asked sent inc still counted none more within stuck comes behind. node_rests P.Processor.own m (P.nothing m) P.wants_more n taken asked sent inc counted none more within comes };

    ghost full = { λ m n r asked sent reads full less none more stuck. reads_nothing r reads };

    ghost local = { λ m n hubs others vs k agree. node_local P.Processor.own m n hubs others vs k };
}
