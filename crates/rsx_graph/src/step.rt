//! The edits and moves of a graph.

use rsx_model::Expr;
use rsx_types::{HubId, HubKind, Move, SubId};

/// One edit or one move.
#[derive(Debug, Drop)]
pub enum Step<T> {
    /// A hub with an emitter, of this kind and capacity, is made.
    Hub(HubKind, u64),
    /// A hub of this kind and capacity is made that is fed by an expression.
    FeedHub(HubKind, u64, Expr<T>),
    /// An item is published at a hub.
    Emit(HubId, T),
    /// A hub completes.
    Complete(HubId),
    /// A hub fails with this number.
    Fail(HubId, u32),
    /// Subscribes to an expression.
    Subscribe(Expr<T>),
    /// A subscriber requests this many items more.
    Request(SubId, i64),
    /// A subscriber cancels.
    Cancel(SubId),
    /// A move is made.
    Make(Move),
}
