//! Batches through nodes of one of two kinds. An operator of a caller's own takes its items one by one.

ghost use Rattle.std.specs.Prelude.{◌≡◌};
ghost use Rattle.rsx_processor.specs.Either.{OfOneKind, by_kind};

use crate::{EitherNode, Processor, ProcessorNode};
use rsx_rooted::{Batches, Noted};
use rsx_types::Ops;
use std::alloc::Global;

impl<A: Batches, B: Batches<Item = A::Item>> Batches for EitherNode<A, B> {
    ghost went = { λ old noted new. OfOneKind (λ x y. A.went x noted y) (λ x y. B.went x noted y) old new };

    ghost spaces_of = { by_kind A.spaces_of B.spaces_of };

    #[inline]
    fn want_at_rest(&self, asked: u64, sent: u64) -> Option<u64> {
        match self {
            EitherNode::Left(node) => node.want_at_rest(asked, sent),
            EitherNode::Right(node) => node.want_at_rest(asked, sent),
        }
    }

    #[inline]
    fn most(&self) -> u64 {
        match self {
            EitherNode::Left(node) => node.most(),
            EitherNode::Right(node) => node.most(),
        }
    }

    fn peek<O: Ops<Item = Self::Item>>(
        &self,
        alloc: Global,
        ops: &O,
        most: u64,
        items: &mut Vec<Self::Item>,
    ) -> Option<Noted<Self::Item>> {
        match self {
            EitherNode::Left(node) => node.peek(alloc, ops, most, items),
            EitherNode::Right(node) => node.peek(alloc, ops, most, items),
        }
    }

    fn try_pass<O: Ops<Item = Self::Item>>(
        &self,
        alloc: Global,
        ops: &O,
        input: u64,
        items: &mut Vec<Self::Item>,
        spare: &mut Vec<Self::Item>,
    ) -> Option<Noted<Self::Item>> {
        match self {
            EitherNode::Left(node) => node.try_pass(alloc, ops, input, items, spare),
            EitherNode::Right(node) => node.try_pass(alloc, ops, input, items, spare),
        }
    }

    #[inline]
    fn take_out<O: Ops<Item = Self::Item>>(
        &mut self,
        alloc: Global,
        ops: &O,
        most: u64,
        items: &mut Vec<Self::Item>,
    ) -> bool {
        match self {
            EitherNode::Left(node) => node.take_out(alloc, ops, most, items),
            EitherNode::Right(node) => node.take_out(alloc, ops, most, items),
        }
    }

    fn go_on(&mut self, noted: Noted<Self::Item>)
        ensures { OfOneKind (λ x y. A.went x noted y) (λ x y. B.went x noted y) self.old self.new }
    {
        match self {
            EitherNode::Left(node) => node.go_on(noted),
            EitherNode::Right(node) => node.go_on(noted),
        }
    }

    fn spaces(&self) -> u64 {
        match self {
            EitherNode::Left(node) => node.spaces(),
            EitherNode::Right(node) => node.spaces(),
        }
    }

    fn take_in_many(&mut self, items: &mut Vec<Self::Item>, count: u64) {
        match self {
            EitherNode::Left(node) => node.take_in_many(items, count),
            EitherNode::Right(node) => node.take_in_many(items, count),
        }
    }
}

impl<P: Processor<Item = T>, T: Drop> Batches for ProcessorNode<P, T> {
    ghost went = { λ old noted new. new ≡ old };

    ghost spaces_of = { λ n. 0 };

    fn most(&self) -> u64 {
        0
    }

    fn peek<O: Ops<Item = T>>(
        &self,
        alloc: Global,
        ops: &O,
        most: u64,
        items: &mut Vec<T>,
    ) -> Option<Noted<T>> {
        None
    }

    fn try_pass<O: Ops<Item = T>>(
        &self,
        alloc: Global,
        ops: &O,
        input: u64,
        items: &mut Vec<T>,
        spare: &mut Vec<T>,
    ) -> Option<Noted<T>> {
        None
    }

    fn go_on(&mut self, noted: Noted<T>)
        ensures { self.new ≡ self.old }
    {}

    fn spaces(&self) -> u64 {
        0
    }

    fn take_in_many(&mut self, items: &mut Vec<T>, count: u64) {}
}
