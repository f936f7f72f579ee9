//! What a seat of the link's table knows. No value of these types is ever made: they stand in proofs alone.

use std::collections::LinkedList;

/// What a seat is for.
pub enum Role {
    /// The sending end looks.
    Upstream,
    /// The receiving end asks, and refuses a bad request.
    Downstream,
    /// A canceller cancels.
    Canceller,
    /// A seat that was joined into another makes no step.
    Joined,
}

/// One step on a word of the link, with what it stored or found.
pub enum Step {
    /// The receiving end stored this total of items asked for, or it was stored as the link was opened.
    Ask(u64),
    /// The sending end found this total of items asked for, or was told it as the link was opened.
    SeeAsked(u64),
    /// The sending end found these flags.
    SeeFlags(u64),
    /// A canceller set flag 1 where it found these flags.
    Cancel(u64),
    /// The receiving end set flag 2 where it found these flags.
    Refuse(u64),
}

/// A seat's own steps, the newest first, and beside them those of the seats that were joined into it.
/// The right to cancel is one whole, and each split halves what its seat has of it: a number n among
/// the parts stands for one part of 2^n.
pub struct View {
    pub role: Role,
    pub parts: LinkedList<u64>,
    pub steps: LinkedList<Step>,
    pub beside: LinkedList<LinkedList<Step>>,
}
