//! A node of one of two kinds, as one of a graph's nodes.

use crate::EitherNode;
use rsx_rooted::{Nodes, Route};
use rsx_tree::Edge;
use rsx_waits::Operator;

impl<A: Nodes, B: Nodes<Item = A::Item>> Nodes for EitherNode<A, B> {
    ghost use Rattle.rsx_processor.specs.Either.{by_kind};
    ghost use Rattle.rsx_processor.specs.declared.either.EitherNode.TheVariants.{Left, Right};

    ghost route_by = { by_kind A.route_by B.route_by };

    ghost operator_of = { by_kind A.operator_of B.operator_of };

    ghost queued_of = { by_kind A.queued_of B.queued_of };

    ghost crossing_of = { by_kind A.crossing_of B.crossing_of };

    ghost lanes_of = { by_kind A.lanes_of B.lanes_of };

    fn route(&self, edge: &Edge) -> Route {
        match self {
            EitherNode::Left(node) => node.route(edge),
            EitherNode::Right(node) => node.route(edge),
        }
    }

    fn operator(&self) -> Operator {
        match self {
            EitherNode::Left(node) => node.operator(),
            EitherNode::Right(node) => node.operator(),
        }
    }

    fn queued_at(&self, input: u64) -> Option<u64> {
        match self {
            EitherNode::Left(node) => node.queued_at(input),
            EitherNode::Right(node) => node.queued_at(input),
        }
    }

    fn crossing(&self) -> Option<u64> {
        match self {
            EitherNode::Left(node) => node.crossing(),
            EitherNode::Right(node) => node.crossing(),
        }
    }

    fn lanes(&self) -> Option<u64> {
        match self {
            EitherNode::Left(node) => node.lanes(),
            EitherNode::Right(node) => node.lanes(),
        }
    }

    ghost rests = { λ m. elim [ Left x ↦ A.rests m x | Right y ↦ B.rests m y ] };

    ghost full = { λ m. elim [ Left x ↦ A.full m x | Right y ↦ B.full m y ] };

    ghost local = { λ m. elim [ Left x ↦ A.local m x | Right y ↦ B.local m y ] };
}
