//! The steps of a piece, by which contracts tell what a call did.

/// One step of a piece. No value of it is made.
pub enum Step {
    /// A look at the link that goes out: what is asked of the root rises, and on a flag the part is closed.
    Look,
    /// A request or a cancel that is passed down a link that comes in.
    Ask,
    /// A signal that is taken from a link that comes in, and handed to the node that reads it.
    Pop,
    /// A move of the tree: one inside the part, or a signal that is sent into the link that goes out.
    Move,
    /// So many moves inside the part, one after the other.
    Many(u32),
    /// A look at a queue, which changes nothing but what an end knows of it.
    Try,
}
