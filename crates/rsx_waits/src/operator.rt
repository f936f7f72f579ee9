//! Which operator a node is.

use std::fmt;

/// Which operator a node is.
#[derive(Clone, Copy, Debug, PartialEq, Eq)]
pub enum Operator {
    /// `items`: a list of items.
    Items,
    /// `range`: whole numbers, one after another.
    Range,
    /// `hub`: what is published at a hub, or comes over a link.
    Hub,
    /// `map`: the answers of a function.
    Map,
    /// `filter`: the items whose test is true.
    Filter,
    /// `take`: the first items, and then the completion.
    Take,
    /// `scan`: the accumulations.
    Scan,
    /// `buffer`: lists of the items.
    Buffer,
    /// `distinct`: the first item of each key.
    Distinct,
    /// `window`: the input in windows, each through a chain of its own.
    Window,
    /// `concat`: the inputs one behind the other.
    Concat,
    /// `merge`: the items of all inputs, as they are picked.
    Merge,
    /// `mergeDelayError`: the same, but a failure ends its input alone.
    MergeDelay,
    /// `zip`: rows of one item of each input.
    Zip,
    /// `combineLatest`: rows of the latest items of the inputs.
    CombineLatest,
    /// `groupBy`: the input in lanes by key, each through a chain of its own, and the lanes merged.
    GroupBy,
    /// `flatMap`: each item made a lane of its own, and the lanes merged.
    FlatMap,
    /// `flatMapDelayError`: the same, but a failure ends its lane alone.
    FlatMapDelay,
    /// `publishOn`: the input, on another worker.
    PublishOn,
    /// `publishOnEager`: the same, but a failure may overtake items.
    PublishOnEager,
    /// An operator of a caller's own.
    Own,
}

/// The word that a script has for it, as `combineLatest`; `operator` for one of a caller's own.
impl fmt::Display for Operator {
    ghost use Rattle.std.specs.Prelude.{Some};
    ghost use Rattle.rsx_waits.specs.Operators.{operator_text};

    ghost output = { λ operator. Some (operator_text operator) };

    fn fmt<W: fmt::Write>(&self, f: &mut fmt::Formatter<W>) -> fmt::Result {
        match self {
            Operator::Items => f.write_str("items"),
            Operator::Range => f.write_str("range"),
            Operator::Hub => f.write_str("hub"),
            Operator::Map => f.write_str("map"),
            Operator::Filter => f.write_str("filter"),
            Operator::Take => f.write_str("take"),
            Operator::Scan => f.write_str("scan"),
            Operator::Buffer => f.write_str("buffer"),
            Operator::Distinct => f.write_str("distinct"),
            Operator::Window => f.write_str("window"),
            Operator::Concat => f.write_str("concat"),
            Operator::Merge => f.write_str("merge"),
            Operator::MergeDelay => f.write_str("mergeDelayError"),
            Operator::Zip => f.write_str("zip"),
            Operator::CombineLatest => f.write_str("combineLatest"),
            Operator::GroupBy => f.write_str("groupBy"),
            Operator::FlatMap => f.write_str("flatMap"),
            Operator::FlatMapDelay => f.write_str("flatMapDelayError"),
            Operator::PublishOn => f.write_str("publishOn"),
            Operator::PublishOnEager => f.write_str("publishOnEager"),
            Operator::Own => f.write_str("operator"),
        }
    }
}
