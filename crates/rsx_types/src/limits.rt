//! Numbers that several crates keep to.

/// How many signals an edge with a queue holds: the edge from a root to its subscriber, and an edge between two regions.
pub const CAPACITY: usize = 64;

/// The most items of a list: of one that an expression names, that `buffer` makes, or that an expansion is.
pub const MOST_ITEMS: u64 = 1_024;
