//! Which operator a node is.

ghost use Rattle.std.specs.Prelude.{◌≡◌};
ghost use Rattle.rsx_kinds.specs.Operators.{any_operator, plain_operator, several_operator, source_operator};

use crate::{AnyNode, SeveralNode, SourceNode};
use rsx_plain::PlainState;
use rsx_waits::Operator;

/// Which operator this node is.
pub(crate) fn operator_of_any<T: Drop>(node: &AnyNode<T>) -> Operator
    ensures { result ≡ any_operator node.now }
{
    match node {
        AnyNode::Source(node) => operator_of_source(node),
        AnyNode::Plain(node) => operator_of_plain(&node.state),
        AnyNode::Several(node) => operator_of_several(node),
        AnyNode::PublishOn(_) => Operator::PublishOn,
        AnyNode::PublishOnEager(_) => Operator::PublishOnEager,
        AnyNode::Window(_) => Operator::Window,
        AnyNode::FlatMap(_) => Operator::FlatMap,
        AnyNode::FlatMapDelay(_) => Operator::FlatMapDelay,
        AnyNode::GroupBy(_) => Operator::GroupBy,
    }
}

/// Which source this node is.
fn operator_of_source<T: Drop>(node: &SourceNode<T>) -> Operator
    ensures { result ≡ source_operator node.now }
{
    match node {
        SourceNode::Items(_) => Operator::Items,
        SourceNode::Range(_) => Operator::Range,
        SourceNode::Hub(_) => Operator::Hub,
    }
}

/// Which plain operator this is.
fn operator_of_plain<T: Drop>(state: &PlainState<T>) -> Operator
    ensures { result ≡ plain_operator state.now }
{
    match state {
        PlainState::Map { function: _ } => Operator::Map,
        PlainState::Filter {
            function: _,
            dropped: _,
        } => Operator::Filter,
        PlainState::Take { count: _, left: _ } => Operator::Take,
        PlainState::Scan {
            function: _,
            last: _,
        } => Operator::Scan,
        PlainState::Buffer {
            size: _,
            gathered: _,
        } => Operator::Buffer,
        PlainState::Distinct {
            function: _,
            keys: _,
            repeated: _,
        } => Operator::Distinct,
    }
}

/// Which operator of several inputs this node is.
fn operator_of_several<T: Drop>(node: &SeveralNode<T>) -> Operator
    ensures { result ≡ several_operator node.now }
{
    match node {
        SeveralNode::Concat(_) => Operator::Concat,
        SeveralNode::Merge(_) => Operator::Merge,
        SeveralNode::MergeDelay(_) => Operator::MergeDelay,
        SeveralNode::Zip(_) => Operator::Zip,
        SeveralNode::Latest(_) => Operator::CombineLatest,
    }
}
