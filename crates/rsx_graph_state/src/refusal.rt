//! Why a call of a graph was refused.

ghost use Rattle.std.specs.Prelude.{◌≡◌};
ghost use Rattle.rsx_graph_state.specs.Names.{name_codes};

use rsx_model::BadExpr;
use rsx_types::NoMemory;
use std::alloc::AllocFailed;
use thiserror::Error;

/// Why a call of a graph was refused. After a refusal the graph is as it was.
#[derive(Clone, Copy, Debug, PartialEq, Eq, Error)]
pub enum Refusal {
    /// G1: no such hub, or the feed of a hub that has none.
    #[error("unknown hub")]
    UnknownHub,
    /// G2: no such subscription.
    #[error("unknown subscription")]
    UnknownSub,
    /// G3: the hub has ended.
    #[error("ended")]
    Ended,
    /// G4: the hub's inbox holds as many items as its capacity, or more.
    #[error("full")]
    Full,
    /// G5: the graph has [`MOST_SUBSCRIPTIONS`](crate::MOST_SUBSCRIPTIONS), 256, or [`MOST_HUBS`](crate::MOST_HUBS), 64; or a
    /// hub has had 64 members, or has accepted 2^63 - 1 items.
    #[error("too many")]
    TooMany,
    /// G6: the expression goes past a limit, or names a hub that isn't there; or a hub's capacity or its number of a replay is
    /// not 1 to 1,024.
    #[error("bad expression: {0}")]
    BadExpr(BadExpr),
    /// G7: the move is not enabled.
    #[error("move not enabled")]
    NotEnabled,
    /// G8: a growth was refused.
    #[error("out of memory")]
    NoMemory,
}

impl Refusal {
    /// The refusal's name, G1 to G8.
    pub fn name(self) -> &'static str
        ensures { result.now ≡ name_codes self }
    {
        match self {
            Refusal::UnknownHub => "G1",
            Refusal::UnknownSub => "G2",
            Refusal::Ended => "G3",
            Refusal::Full => "G4",
            Refusal::TooMany => "G5",
            Refusal::BadExpr(_) => "G6",
            Refusal::NotEnabled => "G7",
            Refusal::NoMemory => "G8",
        }
    }
}
