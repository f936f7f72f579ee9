//! What a run does.

use rsx_types::SubId;

/// What a run does: what one of its subscribers does, or its graph.
#[derive(Clone, Copy, Debug, PartialEq, Eq)]
pub enum Act {
    /// This subscriber requests so many items.
    Request(SubId, i64),
    /// This subscriber cancels.
    Cancel(SubId),
    /// The graph makes moves, at most [`BUDGET`](crate::BUDGET).
    Pump,
}
