//! What a line asks for.

use rsx_demo::Val;
use rsx_model::Expr;
use rsx_types::{HubId, HubKind, NodeId, SubId};

/// The command of a line.
#[derive(Drop)]
pub enum Command {
    /// `hub multicast C` or `hub replay N C`
    Hub(HubKind, u64),
    /// `feed multicast C EXPR` or `feed replay N C EXPR`
    Feed(HubKind, u64, Expr<Val>),
    /// `emit H V`
    Emit(HubId, i64),
    /// `complete H`
    Complete(HubId),
    /// `fail H U`
    Fail(HubId, u32),
    /// `subscribe EXPR`
    Subscribe(Expr<Val>),
    /// `request S V`
    Request(SubId, i64),
    /// `cancel S`
    Cancel(SubId),
    /// `pump B`
    Pump(u32),
    /// `pick S NODE INPUT`; for Main, which is written `m`, the number is [`MAIN`](rsx_values::MAIN).
    Pick(SubId, NodeId, u64),
    /// `show S`
    Show(SubId),
    /// `asked S`
    Asked(SubId),
    /// `count S`
    Count(SubId),
    /// `joins S`
    Joins(SubId),
    /// `choices S`
    Choices(SubId),
    /// `check S`
    Check(SubId),
    /// `why S`
    Why(SubId),
    /// `why feed H`
    WhyFeed(HubId),
    /// `draw S`
    Draw(SubId),
}
