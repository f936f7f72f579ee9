//! What a seat knows. These types are for the proofs alone, and no value of them is made.

use std::collections::LinkedList;

/// One step on the gate's word, with what it found there: 0 free, 1 held, 2 held and noted.
pub enum Step {
    /// [`crate::Pass::enter`], by [`crate::Gate::take`].
    Enter(u64),
    /// [`crate::Pass::mark`], by [`crate::Gate::mark`].
    Mark(u64),
    /// [`crate::Pass::leave`], by [`crate::Gate::try_leave`].
    Leave(u64),
    /// [`crate::Pass::give_up`], by [`crate::Gate::release`].
    GiveUp(u64),
}

/// What a seat knows.
pub struct View<K> {
    /// The key of its gate; none once the seat was joined into another.
    pub key: Option<K>,
    /// How many of the 2^32 parts it has. While there is another seat, that one has some.
    pub parts: u64,
    /// Its own steps, the newest first.
    pub steps: LinkedList<Step>,
    /// The lists of the seats that were joined into it, each as it was.
    pub beside: LinkedList<LinkedList<Step>>,
}
