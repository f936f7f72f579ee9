//! Which of the nodes of several inputs a node is.

/// Which of the nodes of several inputs a node is. The number is the prefetch: how many items of each input are asked for in
/// advance, 1 to [`LARGEST`](rsx_prefetch::LARGEST).
#[derive(Clone, Copy, Debug, PartialEq, Eq)]
pub enum SeveralKind {
    /// One input behind the other. It asks for no items in advance.
    Concat,
    /// The items of all inputs, as they are picked.
    Merge(u64),
    /// The same, but a failure ends its input alone.
    MergeDelay(u64),
    /// Rows of one item of each input.
    Zip(u64),
    /// Rows of the latest items of the inputs.
    Latest(u64),
}
