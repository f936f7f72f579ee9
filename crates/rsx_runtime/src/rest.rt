//! How a worker rests.

use std::sync::Wait;

/// What comes after a rest.
#[derive(Clone, Copy, Debug, PartialEq, Eq)]
pub enum Rested {
    /// The worker goes on.
    Again,
    /// It ends.
    Stop,
}

/// How a worker rests between two pokes, and rouses others.
pub trait Rest {
    /// Rests until someone rouses it, which may have been before, and says whether the worker goes on.
    fn rest<R: Wait>(&mut self, rt: &R) -> Rested;

    /// Rouses the workers whose bits are set: worker w by the bit of 2^w.
    fn rouse(&mut self, mask: u16);
}
