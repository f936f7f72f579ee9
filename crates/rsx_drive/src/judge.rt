//! What is kept of an input of expressions and traces between two lines.

use rsx_tck::TraceReader;

/// How expressions and traces are answered.
#[derive(Clone, Copy, Debug, PartialEq, Eq)]
pub enum Style {
    /// By 43 lines, one for each rule.
    Plain,
    /// By a line that sums up, and for each broken rule the event and the rule's sentence.
    Explained,
}

/// An input of expressions and traces that is being read.
#[derive(Drop)]
pub struct InputJudge<E> {
    /// What answers its expressions.
    pub expressions: E,
    /// How it is answered.
    pub style: Style,
    /// How many lines came so far, at most 2^63-1.
    pub lines: u64,
    /// The trace whose `end` hasn't come yet.
    pub reader: Option<TraceReader>,
    /// The number of that trace's first line.
    pub first: u64,
}
