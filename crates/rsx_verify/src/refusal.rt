//! Why an expression isn't run.

ghost use Rattle.std.specs.Prelude.{◌≡◌};
ghost use Rattle.rsx_verify.specs.Refusals.{refusal_name, refusal_of};

use rsx_graph::Refusal;
use rsx_model::BadExpr;
use std::alloc::AllocFailed;
use thiserror::Error;

/// Why an expression isn't run.
#[derive(Clone, Copy, Debug, PartialEq, Eq, Error)]
pub enum VerifyRefusal {
    /// M1: the expression goes past a limit, or reads a hub.
    #[error("bad expression: {0}")]
    BadExpr(BadExpr),
    /// M3: a growth was refused.
    #[error("out of memory")]
    NoMemory,
}

impl VerifyRefusal {
    /// The refusal's name, M1 or M3.
    pub fn name(self) -> &'static str
        ensures { result.now ≡ refusal_name self }
    {
        match self {
            VerifyRefusal::BadExpr(_) => "M1",
            VerifyRefusal::NoMemory => "M3",
        }
    }
}

/// A graph with one subscription and no hub refuses for a bad expression, and else for want of memory.
impl From<Refusal> for VerifyRefusal {
    ghost from_gives = { λ r t. t ≡ refusal_of r };

    fn from(refusal: Refusal) -> VerifyRefusal {
        match refusal {
            Refusal::BadExpr(kind) => VerifyRefusal::BadExpr(kind),
            _ => VerifyRefusal::NoMemory,
        }
    }
}

impl<T: Drop> From<AllocFailed<T>> for VerifyRefusal {
    ghost use Rattle.rsx_verify.specs.declared.refusal.VerifyRefusal.TheVariants.{NoMemory};

    ghost from_gives = { λ _ t. t ≡ NoMemory };

    fn from(_e: AllocFailed<T>) -> VerifyRefusal {
        VerifyRefusal::NoMemory
    }
}
