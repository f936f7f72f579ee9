//! The parkers of workers.

ghost use Rattle.std.specs.Prelude.{◌≡◌, ◌≤◌, length, IfOk};
ghost use Rattle.rsx_runtime.specs.declared.TheConstants.{MOST_WORKERS};

use crate::park::{ParkRest, Rouser};
use std::alloc::{AllocError, Global};

/// A parker for each of some workers, and what rouses and stops them.
#[derive(Drop)]
pub struct Parkers {
    pub(crate) rouser: Rouser,
    pub(crate) rests: Vec<ParkRest>,
    ghost same: { length rouser.unparkers.items ≡ length rests.items },
}

impl Parkers {
    /// Those of so many workers.
    ///
    /// # Errors
    /// Where there was no memory for them.
    pub fn new(alloc: Global, workers: u8) -> Result<Parkers, AllocError>
        requires { workers ≤ MOST_WORKERS }
        ensures { IfOk result (λ p. length p.rests.items ≡ workers) }
    {
        match ParkRest::all(alloc, workers) {
            Ok((rouser, rests)) => Ok(Parkers { rouser, rests }),
            Err(error) => Err(error),
        }
    }
}
